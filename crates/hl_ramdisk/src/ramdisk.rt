//! A disk in memory.

ghost use Rattle.std.specs.Prelude.{◌≤◌, length};

use hl_host::PositionalFile;
use std::alloc::{AllocError, Global};
use std::io;

/// A disk whose bytes lie in memory. As a file of the system, it tells nothing.
#[derive(Drop)]
pub struct Ramdisk {
    bytes: Vec<u8>,
}

impl Ramdisk {
    /// A disk of zeros with so many blocks.
    pub fn new(alloc: Global, blocks: u32) -> Result<Ramdisk, AllocError> {
        let bytes = vec![in alloc; 0; 4096 * (blocks as usize)]?;
        Ok(Ramdisk { bytes })
    }

    /// Gives the bytes from this one on, as many as there are, and says how many.
    fn give(&mut self, from: u64, out: &mut [u8]) -> usize
        ensures { result ≤ length out.new }
    {
        let start = self.bytes.len().min(from as usize);
        let count = (self.bytes.len() - start).min(out.len());
        out[..count].copy_from_slice(&self.bytes[start..start + count]);
        count
    }

    /// Takes bytes from this one on, as many as there is room for, and says how many.
    fn take(&mut self, from: u64, bytes: &[u8]) -> usize
        ensures { result ≤ length bytes.now }
    {
        let start = self.bytes.len().min(from as usize);
        let count = (self.bytes.len() - start).min(bytes.len());
        self.bytes[start..start + count].copy_from_slice(&bytes[..count]);
        count
    }
}

impl PositionalFile for &mut Ramdisk {
    ghost use Rattle.std.specs.Prelude.{None};

    ghost content = { λ disk. None };

    ghost lasting = { λ disk. None };

    fn read_from(&mut self, from: u64, out: &mut [u8]) -> io::Result<usize> {
        Ok(Ramdisk::give(*self, from, out))
    }

    fn write_from(&mut self, from: u64, bytes: &[u8]) -> io::Result<usize> {
        Ok(Ramdisk::take(*self, from, bytes))
    }

    fn make_last(&mut self) -> io::Result<()> {
        Ok(())
    }
}
