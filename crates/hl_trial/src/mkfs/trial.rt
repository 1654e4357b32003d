//! The making of a site on a disk in memory, of which only its answer and images are seen.

use crate::mkfs::sites::{Site, disk_blocks, label};
use hl_addr::Geometry;
use hl_bytes::BLOCK;
use hl_found::files_of;
use hl_inode::{Inode, decode};
use hl_media::Machine;
use hl_mem::{MemMachine, Tear};
use hl_mkfs::{MkfsError, mkfs};
use hl_nodes::block_at;
use hl_super::{Record, decode_label, decode_record};
use hl_tree::{Node, PlainTree};
use std::alloc::{AllocError, Global};
use std::marker::Model;

/// What an image holds.
#[derive(Clone, Copy, Debug, PartialEq, Eq)]
pub enum Found {
    /// No label.
    Nothing,
    /// The site, with the root alone.
    Root,
    /// Anything else.
    Other,
}

/// A site whose making may be stopped at each moment. What is done with one through this trait sees nothing of its parts,
/// so that a proof doesn't carry them.
pub trait Makeable: Sized {
    /// Makes a site on a disk that begins with these bytes and goes on with bytes that are all the same, where the call of
    /// this number fails.
    fn make(
        alloc: Global,
        site: Site,
        old: Option<&[u8]>,
        fails: Option<u64>,
    ) -> Result<Self, AllocError>;

    /// Why it wasn't made, if it wasn't.
    fn answer(&self) -> Option<MkfsError>;

    /// The moment that it is.
    fn now(&self) -> u64;

    /// How many calls have failed.
    fn faults(&self) -> u64;

    /// The disk that a stop at a moment may leave; none where the moment is to come.
    fn image(&self, alloc: Global, moment: u64, tear: Tear) -> Result<Option<Vec<u8>>, AllocError>;

    /// What such a disk holds.
    fn found(&self, alloc: Global, moment: u64, tear: Tear) -> Result<Option<Found>, AllocError>;

    /// The record in block 1 of the disk as it is now.
    fn record(&self, alloc: Global) -> Result<Option<Record>, AllocError>;

    /// The inode in a block of the disk as it is now.
    fn inode(&self, alloc: Global, at: u32) -> Result<Option<Inode>, AllocError>;
}

/// A site, and the disk on which it was made. Contracts see nothing of it.
#[derive(Drop)]
pub struct Trial {
    machine: MemMachine,
    geometry: Geometry,
    why: Option<MkfsError>,
}

impl Model for Trial {
    ghost Value = { Unit {0} };

    ghost view = { λ _. tt };
}

/// A disk for a site: these bytes at first, and then bytes that are all the same.
fn disk_of(
    alloc: Global,
    geometry: &Geometry,
    old: Option<&[u8]>,
) -> Result<MemMachine, AllocError> {
    let blocks = disk_blocks(geometry).ok_or(AllocError)?;
    let mut bytes = vec![in alloc; 0xa5; BLOCK * blocks as usize]?;
    if let Some(old) = old {
        let count = old.len().min(bytes.len());
        bytes[..count].copy_from_slice(&old[..count]);
    }
    MemMachine::of_image(alloc, bytes.as_slice())
}

/// Makes the site, if the disk has room for it.
fn made_on(
    alloc: Global,
    geometry: &Geometry,
    machine: MemMachine,
) -> Result<(MemMachine, Option<MkfsError>), AllocError> {
    let blocks = disk_blocks(geometry).ok_or(AllocError)?;
    if machine.blocks() < blocks {
        return Err(AllocError);
    }
    Ok(match mkfs(alloc, machine, geometry) {
        Ok(machine) => (machine, None),
        Err((why, machine)) => (machine, Some(why)),
    })
}

/// Whether block 0 of an image is a label.
fn has_label(image: &[u8]) -> bool {
    let count = (image.len() / BLOCK).min(1 << 20) as u32;
    image.len() >= BLOCK && decode_label(block_at(image, 0), count).is_some()
}

/// Whether a tree is the root alone.
fn is_root(tree: &PlainTree) -> bool {
    match tree.rows() {
        [(path, Node::Dir)] => path.names().is_empty(),
        _ => false,
    }
}

impl Trial {
    /// The disk as it is now.
    fn last_image(&self, alloc: Global) -> Result<Vec<u8>, AllocError> {
        self.machine
            .stop_image(alloc, self.machine.now(), Tear::New)
    }
}

impl Makeable for Trial {
    fn make(
        alloc: Global,
        site: Site,
        old: Option<&[u8]>,
        fails: Option<u64>,
    ) -> Result<Trial, AllocError> {
        let geometry = site.geometry(alloc)?;
        let mut disk = disk_of(alloc, &geometry, old)?;
        if let Some(number) = fails {
            disk.fail_call(alloc, number)?;
        }
        let (machine, why) = made_on(alloc, &geometry, disk)?;
        Ok(Trial {
            machine,
            geometry,
            why,
        })
    }

    fn answer(&self) -> Option<MkfsError> {
        self.why
    }

    fn now(&self) -> u64 {
        self.machine.now()
    }

    fn faults(&self) -> u64 {
        self.machine.faults()
    }

    fn image(&self, alloc: Global, moment: u64, tear: Tear) -> Result<Option<Vec<u8>>, AllocError> {
        if moment > self.machine.now() {
            return Ok(None);
        }
        Ok(Some(self.machine.stop_image(alloc, moment, tear)?))
    }

    fn found(&self, alloc: Global, moment: u64, tear: Tear) -> Result<Option<Found>, AllocError> {
        let Some(image) = self.image(alloc, moment, tear)? else {
            return Ok(None);
        };
        if image.len() >= 1 << 44 {
            return Ok(None);
        }
        if !has_label(image.as_slice()) {
            return Ok(Some(Found::Nothing));
        }
        let files = files_of(alloc, image.as_slice(), &self.geometry, &[])?;
        Ok(Some(match files {
            Some(tree) if is_root(&tree) => Found::Root,
            _ => Found::Other,
        }))
    }

    fn record(&self, alloc: Global) -> Result<Option<Record>, AllocError> {
        let image = self.last_image(alloc)?;
        if image.len() < 2 * BLOCK {
            return Ok(None);
        }
        decode_record(
            alloc,
            block_at(image.as_slice(), 1),
            1,
            &label(&self.geometry),
        )
    }

    fn inode(&self, alloc: Global, at: u32) -> Result<Option<Inode>, AllocError> {
        let image = self.last_image(alloc)?;
        if image.len() / BLOCK <= at as usize {
            return Ok(None);
        }
        Ok(decode(block_at(image.as_slice(), at)))
    }
}
