//! How a unit is cut into parts.

ghost use Rattle.std.specs.Prelude.{◌≡◌, ◌≤◌, ◌+◌, ◌-◌, ◌↔◌, IsTrue, MatchOption, length, min};
ghost use Rattle.hl_image.specs.Places.{IsLogPlace};
ghost use Rattle.hl_log.specs.Cut.{GoesTo, LeavesBehind, NoPiece, NoPlace};

use hl_addr::Geometry;
use hl_image::LogPlace;
use hl_summary::{BLOCKS_MAX, TABLES_MAX};

/// One part of a unit: where it stands, how many blocks and table records it takes, and where the log goes on.
#[derive(Clone, Copy)]
pub struct Piece {
    pub at: LogPlace,
    pub blocks: usize,
    pub tables: usize,
    pub next: LogPlace,
}

/// What is left of a unit: the place of its next part, how many blocks and table records are not yet taken, and how
/// many of the clean segments are.
#[derive(Clone, Copy)]
pub struct Left {
    pub at: LogPlace,
    pub blocks: usize,
    pub tables: usize,
    pub used: usize,
}

/// Whether nothing is left.
pub(crate) fn is_done(left: Left) -> bool
    ensures { IsTrue result ↔ ((left.blocks ≡ 0) × (left.tables ≡ 0)) }
{
    left.blocks == 0 && left.tables == 0
}

/// How many blocks the next part takes.
fn blocks_taken(geometry: &Geometry, left: Left) -> usize
    requires { IsLogPlace geometry.now left.at }
    ensures { result ≡ min left.blocks (min 240 (geometry.now.k - (left.at.block + 1))) }
{
    let room = (geometry.k - left.at.block - 1) as usize;
    left.blocks.min(BLOCKS_MAX.min(room))
}

/// Where the log goes on behind a part of so many blocks, and how many clean segments are taken then. None where it
/// needs a clean segment, and none is left.
fn next_place(
    geometry: &Geometry,
    left: Left,
    blocks: usize,
    clean: &[u32],
) -> Option<(LogPlace, usize)>
    requires place { IsLogPlace geometry.now left.at }
    requires used { left.used ≤ length clean.now }
    requires within { left.at.block + blocks + 1 ≤ geometry.now.k }
    ensures { MatchOption result (NoPlace geometry.now left blocks clean.now)
        (λ r. GoesTo geometry.now left blocks clean.now r.0 r.1) }
{
    let k = geometry.k;
    let behind = left.at.block + blocks as u32 + 1;
    if behind + 2 <= k {
        let next = LogPlace {
            seg: left.at.seg,
            block: behind,
        };
        Some((next, left.used))
    } else if left.used < clean.len() {
        let next = LogPlace {
            seg: clean[left.used],
            block: 0,
        };
        Some((next, left.used + 1))
    } else {
        None
    }
}

/// The next part of what is left, and what is left behind it. None where it needs a clean segment, and none is left.
pub(crate) fn next_piece(geometry: &Geometry, left: Left, clean: &[u32]) -> Option<(Piece, Left)>
    requires place { IsLogPlace geometry.now left.at }
    requires used { left.used ≤ length clean.now }
    ensures { MatchOption result (NoPiece geometry.now left clean.now)
        (λ r. LeavesBehind geometry.now left clean.now r.0 r.1) }
{
    let blocks = blocks_taken(geometry, left);
    let tables = left.tables.min(TABLES_MAX);
    match next_place(geometry, left, blocks, clean) {
        None => None,
        Some((next, used)) => {
            let piece = Piece {
                at: left.at,
                blocks,
                tables,
                next,
            };
            let behind = Left {
                at: next,
                blocks: left.blocks - blocks,
                tables: left.tables - tables,
                used,
            };
            Some((piece, behind))
        }
    }
}
