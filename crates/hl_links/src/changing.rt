//! Directories, changed.

ghost use Rattle.std.specs.Prelude.{◌≡◌, ◌+◌, ◌/◌, ◌≤◌, IfErr, IfOk, length};
ghost use Rattle.hl_log.specs.Logs.{OnlyReads};
ghost use Rattle.hl_placed.specs.Blocks.{blocks_of};
ghost use Rattle.hl_store.specs.Finding.{ReadsNodes};
ghost use Rattle.hl_store.specs.Shapes.{IsNumber};
ghost use Rattle.hl_ranges.specs.Directories.{IsDraftedDirectory, PutsDirectory};
ghost use Rattle.hl_links.specs.Links.{IsPrepared, IsReady, StopsBefore};

use hl_bytes::BLOCK;
use hl_calls::{FILE_MAX, FileStep};
use hl_media::Machine;
use hl_ranges::put_directory;
use hl_store::{Prepared, Store};
use std::alloc::Global;

/// Other bytes of a directory: those that it had up to `from`.
#[derive(Drop)]
pub struct DirectoryChange {
    pub number: u32,
    pub bytes: Vec<u8>,
    pub from: usize,
}

impl DirectoryChange {
    /// Makes room for the blocks that change. A directory of more bytes than a node may have, or of fewer than it keeps,
    /// counts as want of memory.
    pub fn prepare<M: Machine>(&self, store: &mut Store<M>, alloc: Global) -> Result<(), FileStep>
        requires number { IsNumber store.old self.now.number }
        ensures ready { IfOk result (λ done. IsReady store.old store.new self.now) }
        ensures stops { IfErr result (StopsBefore M.faults store.old store.new) }
        ensures reads { ReadsNodes M.history store.old store.new }
        ensures machine { OnlyReads M.history M.blocks M.faults M.write_faults M.say_faults
            store.old.log.machine store.new.log.machine }
    {
        let size = self.bytes.as_slice().len();
        if FILE_MAX < size as u64 || size < self.from {
            return Err(FileStep::Memory);
        }
        let first = (self.from / BLOCK) as u32;
        let end = size.div_ceil(BLOCK) as u32;
        prepare(store, alloc, self.number, first, end - first)
    }

    /// Puts the bytes, for whose blocks room was made.
    pub fn put<M: Machine>(&self, store: &mut Store<M>)
        requires number { IsNumber store.old self.now.number }
        requires drafted { IsDraftedDirectory store.old self.now.number }
        requires within { self.now.from ≤ length self.now.bytes.items }
        requires size { length self.now.bytes.items ≤ 4243456 }
        requires room { blocks_of (length self.now.bytes.items)
            ≤ store.old.overlay.room + self.now.from / 4096 }
        ensures puts { PutsDirectory store.old store.new self.now.number self.now.from
            self.now.bytes.items }
    {
        put_directory(store, self.number, self.bytes.as_slice(), self.from);
    }
}

/// Brings a number to where it can be changed, with room for so many new blocks from one on.
pub fn prepare<M: Machine>(
    store: &mut Store<M>,
    alloc: Global,
    number: u32,
    first: u32,
    count: u32,
) -> Result<(), FileStep>
    requires number { IsNumber store.old number }
    requires blocks { first + count ≤ 1036 }
    ensures ready { IfOk result (λ done. IsPrepared store.old store.new number count) }
    ensures stops { IfErr result (StopsBefore M.faults store.old store.new) }
    ensures reads { ReadsNodes M.history store.old store.new }
    ensures machine { OnlyReads M.history M.blocks M.faults M.write_faults M.say_faults
        store.old.log.machine store.new.log.machine }
{
    match store.prepare(alloc, number, first, count) {
        Prepared::Ready => Ok(()),
        Prepared::DiskFault => Err(FileStep::DiskFault),
        Prepared::Memory => Err(FileStep::Memory),
    }
}
