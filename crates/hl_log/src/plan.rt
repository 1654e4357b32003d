//! Where the blocks of a unit will stand.

ghost use Rattle.std.specs.Prelude.{◌≡◌, ◌≤◌, ◌+◌, ◌++◌, IfOk, length, take};
ghost use Rattle.std.specs.List.{range_with_len};
ghost use Rattle.hl_image.specs.Places.{block_at, IsLogPlace};
ghost use Rattle.hl_log.specs.Cut.{HasClean, IsPlan, Plans};
ghost use Rattle.hl_log.specs.Free.{AreClean};

use crate::batch::has_clean;
use crate::piece::{Left, Piece, is_done, next_piece};
use crate::writing::block_at;
use hl_addr::Geometry;
use hl_image::LogPlace;
use std::alloc::{AllocError, Global};

/// Puts the addresses of a part's blocks behind the first `from` of all.
fn put_addresses(geometry: &Geometry, piece: Piece, from: usize, addresses: &mut [u32])
    requires place { IsLogPlace geometry.now piece.at }
    requires within { piece.at.block + piece.blocks + 1 ≤ geometry.now.k }
    requires room { from + piece.blocks ≤ length addresses.old }
    ensures { let row = range_with_len (block_at geometry.now piece.at + 1) piece.blocks in
        take (from + piece.blocks) addresses.new ≡ take from addresses.old ++ row }
{
    let first = block_at(geometry, piece.at) + 1;
    'put: for i in 0..piece.blocks {
        addresses[from + i] = first + i as u32;
    }
}

/// Puts the addresses of the blocks of a unit at the head, of one block for each of `addresses`, and of so many table
/// records.
pub(crate) fn put_plan(
    geometry: &Geometry,
    head: LogPlace,
    tables: usize,
    clean: &[u32],
    addresses: &mut [u32],
)
    requires place { IsLogPlace geometry.now head }
    requires clean { AreClean geometry.now head.seg clean.now }
    requires enough { HasClean geometry.now head clean.now (length addresses.old) tables }
    ensures { IsPlan geometry.now head clean.now (length addresses.old) tables addresses.new }
{
    let blocks = addresses.len();
    let mut left = Left {
        at: head,
        blocks,
        tables,
        used: 0,
    };
    'cut: loop {
        let Some((piece, behind)) = next_piece(geometry, left, clean) else {
            unreachable!()
        };
        put_addresses(geometry, piece, blocks - left.blocks, addresses);
        left = behind;
        if is_done(left) {
            return;
        }
    }
}

/// The addresses of the blocks of a unit of so many blocks and table records at the head, and none where there are too
/// few clean segments.
pub(crate) fn plan(
    alloc: Global,
    geometry: &Geometry,
    head: LogPlace,
    blocks: usize,
    tables: usize,
    clean: &[u32],
) -> Result<Option<Vec<u32>>, AllocError>
    requires place { IsLogPlace geometry.now head }
    requires clean { AreClean geometry.now head.seg clean.now }
    ensures { IfOk result (Plans geometry.now head clean.now blocks tables) }
{
    if !has_clean(geometry, head, blocks, tables, clean) {
        return Ok(None);
    }
    let mut addresses = vec![in alloc; 0; blocks]?;
    put_plan(geometry, head, tables, clean, addresses.as_mut_slice());
    Ok(Some(addresses))
}
