//! Plain files, with what they are charged and when they were used.

use crate::files::extents::Extent;
use hl_tree::{Call, Limits, List, Node, Path, PlainTree, Reply};
use std::alloc::{AllocError, Global};
use std::marker::Model;

/// How many bytes a block has.
const BLOCK: u64 = 4_096;

/// How many blocks an inode points to itself.
const DIRECT: u64 = 12;

/// How many bytes an entry has besides its name.
const ENTRY: u64 = 5;

/// Plain files, and an extent of each. Contracts see nothing of them.
#[derive(Drop)]
pub struct Beside {
    tree: PlainTree,
    extents: Vec<Extent>,
}

impl Model for Beside {
    ghost Value = { Unit {0} };

    ghost view = { λ _. tt };
}

/// What a directory of so many bytes is charged.
fn directory_charge(bytes: u64) -> u64 {
    let blocks = bytes.div_ceil(BLOCK);
    let pointers = if DIRECT < blocks { 1 } else { 0 };
    u64::saturating_add(1 + pointers, blocks)
}

/// The bytes of the entries of the directories on the way to a row, the deepest last.
#[derive(Drop)]
struct Depths {
    bytes: Vec<u64>,
    charge: u64,
}

impl Depths {
    /// Closes the directories that are at a depth or below it.
    fn close(&mut self, depth: usize) {
        for _ in 0..self.bytes.as_slice().len() {
            if self.bytes.as_slice().len() <= depth {
                return;
            }
            if let Some(bytes) = self.bytes.pop() {
                self.charge = u64::saturating_add(self.charge, directory_charge(bytes));
            }
        }
    }

    /// Adds the entry of a name to the deepest.
    fn enter(&mut self, name: &List<u8>) {
        if let Some(bytes) = self.bytes.as_mut_slice().last_mut() {
            *bytes = u64::saturating_add(*bytes, ENTRY + name.items().len() as u64);
        }
    }
}

/// What the directories of a tree are charged.
fn directories_charge(alloc: Global, tree: &PlainTree) -> Result<u64, AllocError> {
    let mut depths = Depths {
        bytes: Vec::new(alloc),
        charge: 0,
    };
    for (path, node) in tree.rows() {
        let names = path.names();
        depths.close(names.len());
        if let Some(name) = names.last() {
            depths.enter(name);
        }
        if let Node::Dir = node {
            depths.bytes.push(0)?;
        }
    }
    depths.close(0);
    Ok(depths.charge)
}

impl Beside {
    /// The root alone.
    pub fn new(alloc: Global, limits: Limits) -> Result<Beside, AllocError> {
        if limits.nodes == 0 {
            return Err(AllocError);
        }
        Ok(Beside {
            tree: PlainTree::new(alloc, limits)?,
            extents: Vec::new(alloc),
        })
    }

    /// The same again.
    pub fn copy(&self, alloc: Global) -> Result<Beside, AllocError> {
        let mut extents = Vec::new(alloc);
        for extent in self.extents.as_slice() {
            extents.push(extent.copy(alloc)?)?;
        }
        Ok(Beside {
            tree: self.tree.copy(alloc)?,
            extents,
        })
    }

    pub fn tree(&self) -> &PlainTree {
        &self.tree
    }

    /// Makes a call at a moment.
    pub fn call(&mut self, alloc: Global, now: u64, call: &Call) -> Result<Reply, AllocError> {
        let reply = self.tree.call(alloc, call);
        match reply {
            Reply::Memory => Err(AllocError),
            Reply::Refused(_) => Ok(reply),
            _ => {
                self.follow(alloc, now, call)?;
                Ok(reply)
            }
        }
    }

    /// What a call that was accepted leaves of the extents.
    fn follow(&mut self, alloc: Global, now: u64, call: &Call) -> Result<(), AllocError> {
        match call {
            Call::Create { path } => {
                self.extents.push(Extent::new(alloc, path, now)?)?;
            }
            Call::Write { path, at, bytes } => {
                self.write(now, path, *at, bytes.items().len() as u64)?;
            }
            Call::Cut { path, size } => self.cut(now, path, *size),
            Call::Read { path, .. } => self.touch(now, path),
            Call::Unlink { path } => self.forget(path),
            Call::Rename { from, to } => {
                if from.names() != to.names() {
                    self.forget(to);
                    self.move_all(alloc, from, to)?;
                }
            }
            Call::Mkdir { .. }
            | Call::Stat { .. }
            | Call::List { .. }
            | Call::Rmdir { .. }
            | Call::Sync => {}
        }
        Ok(())
    }

    fn write(&mut self, now: u64, path: &Path, at: u64, len: u64) -> Result<(), AllocError> {
        if len == 0 {
            return Ok(());
        }
        let end = u64::saturating_add(at, len).div_ceil(BLOCK);
        for extent in self.extents.as_mut_slice() {
            if extent.path.names() == path.names() {
                extent.write((at / BLOCK) as usize, end as usize)?;
                extent.used = now;
            }
        }
        Ok(())
    }

    fn cut(&mut self, now: u64, path: &Path, size: u64) {
        for extent in self.extents.as_mut_slice() {
            if extent.path.names() == path.names() {
                extent.cut(size.div_ceil(BLOCK) as usize);
                extent.used = now;
            }
        }
    }

    fn touch(&mut self, now: u64, path: &Path) {
        for extent in self.extents.as_mut_slice() {
            if extent.path.names() == path.names() {
                extent.used = now;
            }
        }
    }

    fn forget(&mut self, path: &Path) {
        self.extents
            .retain(|extent| extent.path.names() != path.names());
    }

    fn move_all(&mut self, alloc: Global, from: &Path, to: &Path) -> Result<(), AllocError> {
        for extent in self.extents.as_mut_slice() {
            extent.move_with(alloc, from, to)?;
        }
        Ok(())
    }

    /// What all nodes are charged, in blocks.
    pub fn charge(&self, alloc: Global) -> Result<u64, AllocError> {
        let mut charge = directories_charge(alloc, &self.tree)?;
        for extent in self.extents.as_slice() {
            charge = charge.saturating_add(extent.charge());
        }
        Ok(charge)
    }

    /// When the file at a path was used; none where there is none.
    pub fn used(&self, path: &Path) -> Option<u64> {
        for extent in self.extents.as_slice() {
            if extent.path.names() == path.names() {
                return Some(extent.used);
            }
        }
        None
    }
}
