//! The chain of an image, by a plain walk over its bytes.

ghost use Rattle.std.specs.Prelude.{◌≡◌, ◌≤◌, ◌-◌, ◌*◌, ◌↔◌, List as Items, Some, IsNone, IfOk, length, take, drop};
ghost use Rattle.hl_bytes.specs.Buffers.{block_of};
ghost use Rattle.hl_image.specs.Places.{block_at, log_end};
ghost use Rattle.hl_image.specs.Parts.{IsPart, NoPart};
ghost use Rattle.hl_image.specs.Chain.{IsCutChain, placed};
ghost use Rattle.hl_image.specs.Newest.{start_of};
ghost use Rattle.hl_summary.specs.declared.parts.Summary.{Summary};

use crate::place::LogPlace;
use hl_addr::Geometry;
use hl_bytes::BLOCK;
use hl_summary::{Summary, check};
use hl_super::Record;
use std::alloc::{AllocError, Global};

/// A part of a chain, and where it stands.
#[derive(Drop)]
pub struct ChainPart {
    pub seg: u32,
    pub block: u32,
    pub summary: Summary,
}

/// The bytes from a place to its segment's end.
fn rest_of_segment<'a>(image: &'a [u8], geometry: &Geometry, at: LogPlace) -> &'a [u8]
    requires size { 4096 * log_end geometry.now ≤ length image.now }
    requires seg { at.seg ≤ geometry.now.log }
    requires block { at.block ≤ geometry.now.k }
    ensures size { length result.now ≡ 4096 * (geometry.now.k - at.block) }
    ensures bytes { result.now ≡ take (4096 * (geometry.now.k - at.block)) (drop (4096 * block_at geometry.now at) image.now) }
{
    let from = geometry.k as usize * at.seg as usize + at.block as usize;
    let blocks = (geometry.k - at.block) as usize;
    &image[BLOCK * from..BLOCK * (from + blocks)]
}

/// The part of this serial at a place of the image.
fn part_at(
    alloc: Global,
    image: &[u8],
    geometry: &Geometry,
    at: LogPlace,
    serial: u64,
) -> Result<Option<Summary>, AllocError>
    requires { 4096 * log_end geometry.now ≤ length image.now }
    ensures found { IfOk result (λ r. (s : Summary) → (r ≡ Some s) ↔ IsPart geometry.now (block_of image.now) at serial s) }
    ensures none { IfOk result (λ r. IsNone r ↔ NoPart geometry.now (block_of image.now) at serial) }
{
    if at.seg > geometry.log || at.block > geometry.k {
        return Ok(None);
    }
    let rest = rest_of_segment(image, geometry, at);
    check(alloc, rest, at.seg, at.block, serial, geometry)
}

/// The parts of the image's chain behind the record, up to the last one that ends a unit, each with its place. The
/// image has at least the log's segments. It reads and digests each part of the chain once.
pub fn chain_parts(
    alloc: Global,
    image: &[u8],
    geometry: &Geometry,
    rec: &Record,
) -> Result<Vec<ChainPart>, AllocError>
    requires { 4096 * log_end geometry.now ≤ length image.now }
    ensures { IfOk result (λ chain. (parts : Items Summary) × IsCutChain geometry.now (block_of image.now) (start_of rec.now) rec.now.serial parts × (chain.items ≡ placed (start_of rec.now) parts)) }
{
    let mut chain = Vec::new(alloc);
    let mut ended = 0;
    let mut at = LogPlace {
        seg: rec.seg,
        block: rec.block,
    };
    let mut serial = rec.serial;
    'walk: while let Some(summary) = part_at(alloc, image, geometry, at, serial)? {
        let ends = summary.ends;
        let next = LogPlace {
            seg: summary.next_seg,
            block: summary.next_block,
        };
        chain.push(ChainPart {
            seg: at.seg,
            block: at.block,
            summary,
        })?;
        if ends {
            ended = chain.len();
        }
        if serial == u64::MAX {
            break;
        }
        at = next;
        serial += 1;
    }
    chain.truncate(ended);
    Ok(chain)
}
