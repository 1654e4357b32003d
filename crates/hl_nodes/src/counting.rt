//! The nodes that tables name, read one after the other.

ghost use Rattle.std.specs.Prelude.{◌≡◌, ◌<◌, ◌*◌, ◌≤◌, length, IfOk, slice_index};
ghost use Rattle.hl_bytes.specs.Buffers.{block_of};
ghost use Rattle.hl_image.specs.Places.{log_end};
ghost use Rattle.hl_nodes.specs.Found.{FindsEntry, FindsNodes};

use crate::found::FoundNode;
use crate::reading::node_at;
use hl_addr::{Geometry, NOTHING};
use hl_tables::Tables;
use std::alloc::{AllocError, Global};

/// The node of a number, or none where the map says Nothing; none at all where its entry names no
/// inode of the number.
fn entry_of(
    alloc: Global,
    image: &[u8],
    geometry: &Geometry,
    tables: &Tables,
    ino: u32,
) -> Result<Option<Option<FoundNode>>, AllocError>
    requires image { 4096 * log_end geometry.now ≤ length image.now }
    requires slots { tables.now.slots.volumes ≡ geometry.now.volumes }
    requires number { ino < length tables.now.inodes }
    ensures { let address = slice_index tables.now.inodes ino in
        IfOk result (FindsEntry geometry.now tables.now.slots (block_of image.now) ino address) }
{
    let address = tables.inode(ino);
    if address == NOTHING {
        return Ok(Some(None));
    }
    match node_at(alloc, image, geometry, tables.slots(), ino, address)? {
        Some(node) => Ok(Some(Some(node))),
        None => Ok(None),
    }
}

/// The nodes that tables of the site name in an image, by their numbers from 0 on, if each entry of
/// the inode map is Nothing or names an inode of its number. The image has at least the log's
/// segments. It reads each node, and copies each block that is in the log.
pub fn nodes_of(
    alloc: Global,
    image: &[u8],
    geometry: &Geometry,
    tables: &Tables,
) -> Result<Option<Vec<Option<FoundNode>>>, AllocError>
    requires image { 4096 * log_end geometry.now ≤ length image.now }
    requires inodes { length tables.now.inodes ≡ geometry.now.inodes }
    requires slots { tables.now.slots.volumes ≡ geometry.now.volumes }
    ensures { IfOk result (FindsNodes geometry.now (block_of image.now) tables.now) }
{
    let mut nodes = Vec::new(alloc);
    nodes.push(None)?;
    'numbers: for ino in 1..geometry.inodes {
        match entry_of(alloc, image, geometry, tables, ino)? {
            Some(node) => nodes.push(node)?,
            None => return Ok(None),
        }
    }
    Ok(Some(nodes))
}
