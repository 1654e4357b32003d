//! The tables of an image: what its table blocks spell, with the parts of its chain laid over it.

ghost use Rattle.std.specs.Prelude.{◌≡◌, ◌+◌, ◌*◌, ◌≤◌, length, All, IfOk};
ghost use Rattle.std.specs.List.{fold};
ghost use Rattle.hl_bytes.specs.Buffers.{block_of};
ghost use Rattle.hl_addr.specs.Layout.{IsWithinLimits, table_blocks};
ghost use Rattle.hl_image.specs.Newest.{IsNewest};
ghost use Rattle.hl_image.specs.Places.{log_end};
ghost use Rattle.hl_tables.specs.Values.{AreTables, SameShape, fresh};
ghost use Rattle.hl_found.specs.Found.{AreChainParts, FindsSpelled, FindsTables, MayBeLaid};
ghost use Rattle.hl_found.specs.Found.{part_laid, parts_found, IsOfSite};

use hl_addr::Geometry;
use hl_image::{ChainPart, chain_parts};
use hl_nodes::{block_at, is_in_log};
use hl_super::Record;
use hl_tables::Tables;
use std::alloc::{AllocError, Global};

/// Tables of the site's shape are tables of the site: what they say of themselves.
fn are_of_site(geometry: &Geometry, tables: &Tables)
    requires { SameShape (fresh geometry.now) tables.now }
    ensures { AreTables geometry.now tables.now }
{
    let _last = tables.inode(geometry.inodes - 1);
    let _slots = tables.slots().items();
}

/// The tables that the blocks at these addresses spell, if they lie in the log and spell some. It
/// reads each block.
fn spelled_tables(
    alloc: Global,
    image: &[u8],
    geometry: &Geometry,
    addresses: &[u32],
) -> Result<Option<Tables>, AllocError>
    requires image { 4096 * log_end geometry.now ≤ length image.now }
    requires site { IsWithinLimits geometry.now }
    requires count { length addresses.now ≡ table_blocks geometry.now }
    ensures { IfOk result (FindsSpelled geometry.now (block_of image.now) addresses.now) }
{
    let mut tables = Tables::new(alloc, geometry)?;
    'blocks: for i in 0..tables.blocks() {
        let address = addresses[i as usize];
        if !is_in_log(geometry, address) {
            return Ok(None);
        }
        if !tables.read_block(i, block_at(image, address)) {
            return Ok(None);
        }
    }
    are_of_site(geometry, &tables);
    Ok(Some(tables))
}

/// The parts of the chain behind a record, each with its place.
pub fn chain_of(
    alloc: Global,
    image: &[u8],
    geometry: &Geometry,
    rec: &Record,
) -> Result<Vec<ChainPart>, AllocError>
    requires { 4096 * log_end geometry.now ≤ length image.now }
    ensures { IfOk result
        (λ chain. AreChainParts geometry.now (block_of image.now) rec.now chain.items) }
{
    chain_parts(alloc, image, geometry, rec)
}

/// Lays parts over the tables, one after the other.
fn lay_parts(tables: &mut Tables, chain: &[ChainPart])
    requires segments { tables.old.k ≤ 512 }
    requires parts { All (MayBeLaid tables.old) chain.now }
    ensures value { tables.new ≡ fold part_laid tables.old chain.now }
{
    'parts: for part in chain {
        let blocks = part.summary.blocks.items();
        tables.lay(
            part.seg,
            part.block + 1,
            blocks,
            part.summary.tables.items(),
        );
    }
}

/// The tables of the image, by its newest record and the parts of its chain, if its table blocks
/// spell some.
pub fn tables_of(
    alloc: Global,
    image: &[u8],
    geometry: &Geometry,
    rec: &Record,
    chain: &[ChainPart],
) -> Result<Option<Tables>, AllocError>
    requires image { 4096 * log_end geometry.now ≤ length image.now }
    requires record { IsOfSite geometry.now (block_of image.now) rec.now }
    requires chain { AreChainParts geometry.now (block_of image.now) rec.now chain.now }
    ensures { let parts = parts_found chain.now in
        IfOk result (FindsTables geometry.now (block_of image.now) rec.now parts) }
{
    match spelled_tables(alloc, image, geometry, rec.tables.items())? {
        Some(mut tables) => {
            lay_parts(&mut tables, chain);
            Ok(Some(tables))
        }
        None => Ok(None),
    }
}
