//! The contents of an image.

ghost use Rattle.std.specs.Prelude.{◌*◌, ◌≤◌, length, IfOk};
ghost use Rattle.hl_bytes.specs.Buffers.{block_of};
ghost use Rattle.hl_image.specs.Places.{log_end};
ghost use Rattle.hl_found.specs.Found.{FindsContents};

use crate::newest::{has_volumes, newest_record};
use crate::tables::{chain_of, tables_of};
use hl_addr::Geometry;
use hl_image::ChainPart;
use hl_nodes::{FoundNode, nodes_of};
use hl_super::Record;
use hl_tables::Tables;
use std::alloc::{AllocError, Global};

/// What an image was found to hold.
#[derive(Drop)]
pub struct FoundContents {
    /// The newest record.
    pub rec: Record,
    /// The parts of the chain behind it, up to the last one that ends a unit, each with its place.
    pub chain: Vec<ChainPart>,
    /// What the table blocks spell, with the parts laid over it.
    pub tables: Tables,
    /// What these name, by numbers from 0 on.
    pub nodes: Vec<Option<FoundNode>>,
}

/// What the image holds, where it has a newest record of the site's volumes whose table blocks
/// spell tables, and each entry of the inode map is Nothing or names an inode of its number. The
/// image has at least the log's segments. It reads and digests each part of the chain, reads each
/// node, and copies each block of a node that is in the log.
pub fn contents_of(
    alloc: Global,
    image: &[u8],
    geometry: &Geometry,
) -> Result<Option<FoundContents>, AllocError>
    requires { 4096 * log_end geometry.now ≤ length image.now }
    ensures { IfOk result (FindsContents geometry.now (block_of image.now)) }
{
    let Some(rec) = newest_record(alloc, image, geometry)? else {
        return Ok(None);
    };
    if !has_volumes(&rec, geometry) {
        return Ok(None);
    }
    let chain = chain_of(alloc, image, geometry, &rec)?;
    let Some(tables) = tables_of(alloc, image, geometry, &rec, chain.as_slice())? else {
        return Ok(None);
    };
    let Some(nodes) = nodes_of(alloc, image, geometry, &tables)? else {
        return Ok(None);
    };
    Ok(Some(FoundContents {
        rec,
        chain,
        tables,
        nodes,
    }))
}
