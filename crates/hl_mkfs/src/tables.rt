//! The first tables of a site, as blocks.

ghost use Rattle.std.specs.Prelude.{◌≡◌, ◌<◌, IfOk};
ghost use Rattle.hl_addr.specs.Layout.{IsWithinLimits, table_blocks};
ghost use Rattle.hl_log.specs.Loads.{bytes_of_tables};
ghost use Rattle.hl_nodes.specs.Checkpoints.{contents_of_tables};
ghost use Rattle.hl_tables.specs.TableBlocks.{table_block};
ghost use Rattle.hl_mkfs.specs.Parts.{first_tables};

use hl_addr::Geometry;
use hl_bytes::{BLOCK, Block};
use hl_tables::Tables;
use std::alloc::{AllocError, Global};

/// The first tables: the root's inode lies in block 1 of the log's first segment, which is used.
#[tactic(auto, unfolding(crate::specs::Parts::first_tables))]
fn first_tables(alloc: Global, geometry: &Geometry) -> Result<Tables, AllocError>
    ensures value { IfOk result (λ tables. tables ≡ first_tables geometry.now) }
    ensures limits { IfOk result (λ tables. IsWithinLimits geometry.now) }
{
    let mut tables = Tables::new(alloc, geometry)?;
    tables.set_inode(1, geometry.k + 1);
    tables.set_used(1, true);
    Ok(tables)
}

/// Block `i` of the first tables.
fn block_of_tables(geometry: &Geometry, tables: &Tables, i: u32) -> Block
    requires tables { tables.now ≡ first_tables geometry.now }
    requires there { i < table_blocks geometry.now }
    ensures { result.bytes ≡ table_block (first_tables geometry.now) i }
{
    let mut block = Block { bytes: [0; BLOCK] };
    tables.write_block(i, &mut block.bytes);
    block
}

/// The blocks of the first tables.
pub(crate) fn first_table_blocks(
    alloc: Global,
    geometry: &Geometry,
) -> Result<Vec<Block>, AllocError>
    ensures blocks { let tables = first_tables geometry.now in
        IfOk result
        (λ blocks. bytes_of_tables blocks.items ≡ contents_of_tables geometry.now tables) }
    ensures limits { IfOk result (λ blocks. IsWithinLimits geometry.now) }
{
    let tables = first_tables(alloc, geometry)?;
    let mut blocks = Vec::new(alloc);
    'blocks: for i in 0..geometry.table_blocks() {
        blocks.push(block_of_tables(geometry, &tables, i))?;
    }
    Ok(blocks)
}
