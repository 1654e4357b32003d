//! Whether a block strays.

ghost use Rattle.std.specs.Prelude.{◌≡◌, ◌↔◌, ◌+◌, ◌*◌, ◌≤◌, ◌<◌, ℕ, List, IfOk, IsTrue, length};
ghost use Rattle.hl_media.specs.History.{Image};
ghost use Rattle.hl_super.specs.declared.record.Record.{Record};
ghost use Rattle.hl_summary.specs.declared.parts.Summary.{Summary};
ghost use Rattle.hl_image.specs.Places.{IsLogPlace};
ghost use Rattle.hl_image.specs.Newest.{start_of};
ghost use Rattle.hl_nodes.specs.Sound.{IsAhead, head_of};
ghost use Rattle.hl_nodes.specs.declared.rule.Rule.TheVariants.{StrayBlock};
ghost use Rattle.hl_nodes.specs.Covering.{IsCovered};
ghost use Rattle.hl_census.specs.Naming.{AreNamed, LieInLog};
ghost use Rattle.hl_census.specs.Straying.{IsStray, TellsAhead, TellsStray};
ghost use Rattle.hl_nodes.specs.Telling.{TellsBroken};

use crate::logged::is_logged;
use crate::marking::used_segments;
use hl_addr::Geometry;
use hl_image::LogPlace;
use hl_super::Record;
use hl_tables::Tables;
use std::alloc::{AllocError, Global};

/// Whether a block lies in the segment of a place, at the place or past it.
fn is_ahead(geometry: &Geometry, at: LogPlace, address: u32) -> bool
    ensures { IsTrue result ↔ IsAhead geometry.now at address }
{
    let start = geometry.k as u64 * at.seg as u64;
    start + at.block as u64 <= address as u64 && (address as u64) < start + geometry.k as u64
}

/// Whether a block of the log lies in a segment whose flag isn't set, or at the head or past it.
fn is_stray(geometry: &Geometry, at: LogPlace, used: &[bool], address: u32) -> bool
    requires { length used.now ≡ geometry.now.log + 1 }
    ensures { IsTrue result ↔ IsStray geometry.now at used.now address }
{
    if !is_logged(geometry.k, geometry.log as usize, address) {
        return false;
    }
    !used[(address / geometry.k) as usize] || is_ahead(geometry, at, address)
}

/// An address of these that strays.
fn stray_among(geometry: &Geometry, at: LogPlace, used: &[bool], addresses: &[u32]) -> Option<u32>
    requires { length used.now ≡ geometry.now.log + 1 }
    ensures { TellsStray geometry.now at used.now addresses.now result }
{
    'addresses: for i in 0..addresses.len() {
        if is_stray(geometry, at, used, addresses[i]) {
            return Some(addresses[i]);
        }
    }
    None
}

/// A block of the chain that lies at the head or past it.
fn part_ahead(geometry: &Geometry, at: LogPlace, covered: &[u32]) -> Option<u32>
    requires at { IsLogPlace geometry.now at }
    requires covered { length covered.now ≡ geometry.now.log + 1 }
    ensures { (rec : Record) (parts : List Summary) → IsCovered geometry.now rec parts covered.now
        → TellsAhead geometry.now at (start_of rec) parts result }
{
    let behind = covered[at.seg as usize];
    if at.block < behind {
        Some((geometry.k * at.seg).saturating_add(behind - 1))
    } else {
        None
    }
}

/// A live block that lies in a segment that isn't used, or a live block or one of the chain that lies at the head or past
/// it. The log goes on at the head; what is covered stands by segments from 0 on, for each the block behind the last one of
/// a part in it, and 0 where it has none.
pub fn stray_block(
    alloc: Global,
    geometry: &Geometry,
    rec: &Record,
    tables: &Tables,
    at: LogPlace,
    covered: &[u32],
    named: &[u32],
) -> Result<Option<u32>, AllocError>
    requires used { length tables.now.used ≡ geometry.now.log }
    requires at { IsLogPlace geometry.now at }
    requires covered { length covered.now ≡ geometry.now.log + 1 }
    ensures { IfOk result (λ told. (image : Image) (parts : List Summary)
        → at ≡ head_of rec.now parts → IsCovered geometry.now rec.now parts covered.now
        → LieInLog geometry.now rec.now.tables
        → AreNamed geometry.now image rec.now tables.now named.now
        → TellsBroken geometry.now image rec.now parts tables.now StrayBlock told) }
{
    let used = used_segments(alloc, geometry, rec, tables, at, covered)?;
    match stray_among(geometry, at, used.as_slice(), named) {
        Some(address) => Ok(Some(address)),
        None => Ok(part_ahead(geometry, at, covered)),
    }
}
