//! What plain files don't tell of a file.

use hl_tree::{Copied, List, Path, below};
use std::alloc::{AllocError, Global};

/// How many blocks an inode points to itself.
const DIRECT: usize = 12;

/// What is charged of a file, and when it was used.
#[derive(Drop)]
pub struct Extent {
    pub path: Path,
    /// Of each block, whether it was written. Those behind the last weren't.
    pub written: Vec<bool>,
    pub used: u64,
}

/// The names of a path, in a vector.
pub fn names_of(alloc: Global, names: &[List<u8>]) -> Result<Vec<List<u8>>, AllocError> {
    let mut all = Vec::new(alloc);
    for name in names {
        all.push(name.copy(alloc)?)?;
    }
    Ok(all)
}

impl Extent {
    /// A file of no bytes.
    pub fn new(alloc: Global, path: &Path, used: u64) -> Result<Extent, AllocError> {
        Ok(Extent {
            path: path.copy(alloc)?,
            written: Vec::new(alloc),
            used,
        })
    }

    /// The same again.
    pub fn copy(&self, alloc: Global) -> Result<Extent, AllocError> {
        Ok(Extent {
            path: self.path.copy(alloc)?,
            written: self.written.as_slice().to_vec(alloc)?,
            used: self.used,
        })
    }

    /// Blocks from one up to another are written.
    pub fn write(&mut self, first: usize, end: usize) -> Result<(), AllocError> {
        if self.written.as_slice().len() < end {
            self.written.resize(end, false)?;
        }
        for (i, block) in self.written.as_mut_slice().iter_mut().enumerate() {
            if first <= i && i < end {
                *block = true;
            }
        }
        Ok(())
    }

    /// The file has so many blocks and no more.
    pub fn cut(&mut self, end: usize) {
        self.written.truncate(end);
    }

    /// The blocks that the file is charged: its inode, those that were written, and its pointer block, if one past the twelfth
    /// was.
    pub fn charge(&self) -> u64 {
        let mut charge = 1;
        let mut has_pointers = false;
        for (i, block) in self.written.as_slice().iter().enumerate() {
            if *block {
                charge = u64::saturating_add(charge, 1);
                has_pointers = has_pointers || DIRECT <= i;
            }
        }
        if has_pointers {
            charge = u64::saturating_add(charge, 1);
        }
        charge
    }

    /// The file goes to another path, where one moves at which or above which it is.
    pub fn move_with(&mut self, alloc: Global, from: &Path, to: &Path) -> Result<(), AllocError> {
        let Some(rest) = below(from.names(), self.path.names()) else {
            return Ok(());
        };
        let mut names = names_of(alloc, to.names())?;
        for name in rest {
            names.push(name.copy(alloc)?)?;
        }
        if let Some(path) = Path::new(names) {
            self.path = path;
        }
        Ok(())
    }
}
