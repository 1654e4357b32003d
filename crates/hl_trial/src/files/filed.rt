//! A store of a site on a disk in memory, on which file calls are made.

ghost use Rattle.std.specs.Prelude.{◌≤◌};
ghost use Rattle.hl_log.specs.Logs.{site_blocks};

use crate::files::sites::Site;
use crate::stores::{disk_blocks, is_number, open_over};
use hl_addr::Geometry;
use hl_files::{FileStep, FoundPath, call, find};
use hl_found::files_of;
use hl_log::UnitAnswer;
use hl_mem::{MemMachine, Tear};
use hl_mkfs::mkfs;
use hl_store::{NodeFound, Store};
use hl_tree::{Call, Path, PlainTree};
use std::alloc::{AllocError, Global};
use std::marker::Model;

/// A store on which file calls are made. What is done with one through this trait sees nothing of its parts, so that a proof
/// doesn't carry them.
pub trait Filed {
    /// A store of a site that holds the root alone; none where it can't be opened.
    fn first(alloc: Global, site: Site) -> Result<Option<Self>, AllocError>;

    /// Makes a call at a moment.
    fn call(&mut self, alloc: Global, now: u64, call: &Call) -> FileStep;

    /// Flushes what is dirty.
    fn flush(&mut self, alloc: Global) -> UnitAnswer;

    /// Flushes what is dirty, and then writes a checkpoint.
    fn checkpoint(&mut self, alloc: Global) -> UnitAnswer;

    /// What all nodes are charged, in blocks.
    fn charge(&self) -> u32;

    /// When the file at a path was used; none where there is none, or it can't be read.
    fn used(&mut self, alloc: Global, path: &Path) -> Option<u64>;

    /// The files of the disk; none where it has none.
    fn files(&self, alloc: Global) -> Result<Option<PlainTree>, AllocError>;

    /// How many log segments are clean.
    fn clean(&self) -> u32;
}

/// A store. Contracts see nothing of it.
#[derive(Drop)]
pub struct FilesTrial {
    store: Store<MemMachine>,
}

impl Model for FilesTrial {
    ghost Value = { Unit {0} };

    ghost view = { λ _. tt };
}

/// A disk of so many blocks on which a site was made; none where it couldn't be made.
fn new_disk(alloc: Global, site: &Geometry, blocks: u32) -> Result<Option<MemMachine>, AllocError>
    requires { site_blocks site.now ≤ blocks }
{
    let machine = MemMachine::new(alloc, blocks)?;
    match mkfs(alloc, machine, site) {
        Ok(machine) => Ok(Some(machine)),
        Err(_) => Ok(None),
    }
}

impl Filed for FilesTrial {
    fn first(alloc: Global, site: Site) -> Result<Option<FilesTrial>, AllocError> {
        let site = site.geometry(alloc)?;
        let Some(blocks) = disk_blocks(&site) else {
            return Ok(None);
        };
        let Some(machine) = new_disk(alloc, &site, blocks)? else {
            return Ok(None);
        };
        let image = machine.stop_image(alloc, machine.now(), Tear::New)?;
        match open_over(alloc, &site, image.as_slice(), machine)? {
            Some(store) => Ok(Some(FilesTrial { store })),
            None => Ok(None),
        }
    }

    fn call(&mut self, alloc: Global, now: u64, made: &Call) -> FileStep {
        call(&mut self.store, alloc, now, made)
    }

    fn flush(&mut self, alloc: Global) -> UnitAnswer {
        self.store.flush(alloc)
    }

    fn checkpoint(&mut self, alloc: Global) -> UnitAnswer {
        match self.store.flush(alloc) {
            UnitAnswer::Written { .. } => self.store.checkpoint(alloc),
            answer => answer,
        }
    }

    fn charge(&self) -> u32 {
        self.store.charge()
    }

    fn used(&mut self, alloc: Global, path: &Path) -> Option<u64> {
        let FoundPath::File(number) = find(&mut self.store, alloc, path) else {
            return None;
        };
        if !is_number(&self.store, number) {
            return None;
        }
        match self.store.node(alloc, number) {
            NodeFound::Node(node) => Some(node.used),
            _ => None,
        }
    }

    fn files(&self, alloc: Global) -> Result<Option<PlainTree>, AllocError> {
        let machine = self.store.machine();
        let image = machine.stop_image(alloc, machine.now(), Tear::New)?;
        if image.len() >= 1 << 44 {
            return Ok(None);
        }
        files_of(alloc, image.as_slice(), self.store.geometry(), &[])
    }

    fn clean(&self) -> u32 {
        self.store.clean_count()
    }
}
