//! Which segments are used.

ghost use Rattle.std.specs.Prelude.{◌≡◌, ◌⊎◌, ◌↔◌, ◌+◌, ◌/◌, ◌<◌, ◌≤◌, ℕ, List, IfOk, IsTrue, false, length};
ghost use Rattle.std.specs.List.{slice_index_or};
ghost use Rattle.hl_addr.specs.Layout.{IsWithinLimits};
ghost use Rattle.hl_summary.specs.declared.parts.Summary.{Summary};
ghost use Rattle.hl_nodes.specs.Sound.{IsMarked, head_of};
ghost use Rattle.hl_nodes.specs.Covering.{IsCovered};
ghost use Rattle.hl_census.specs.Straying.{AreUsed, HaveOneIn, IsHeld, IsSet};

use hl_addr::Geometry;
use hl_image::LogPlace;
use hl_super::Record;
use hl_tables::Tables;
use std::alloc::{AllocError, Global};

/// Whether the tables mark the segment used.
fn is_marked(tables: &Tables, segment: u32) -> bool
    requires { segment ≤ length tables.now.used }
    ensures { IsTrue result ↔ IsMarked tables.now segment }
{
    1 <= segment && tables.used(segment)
}

/// Whether the segment is marked used, or has a part or the head.
fn is_held(tables: &Tables, at: LogPlace, covered: &[u32], segment: u32) -> bool
    requires used { segment ≤ length tables.now.used }
    requires covered { segment < length covered.now }
    ensures { IsTrue result ↔ IsHeld tables.now at covered.now segment }
{
    is_marked(tables, segment) || covered[segment as usize] != 0 || at.seg == segment
}

/// A flag for each segment from 0 to the log's last, set where it is marked used, or has a part or the head.
fn held_segments(
    alloc: Global,
    geometry: &Geometry,
    tables: &Tables,
    at: LogPlace,
    covered: &[u32],
) -> Result<Vec<bool>, AllocError>
    requires used { length tables.now.used ≡ geometry.now.log }
    requires covered { length covered.now ≡ geometry.now.log + 1 }
    ensures count { IfOk result (λ held. length held.items ≡ geometry.now.log + 1) }
    ensures each { IfOk result (λ held. (seg : ℕ) → seg ≤ geometry.now.log
        → IsSet held.items seg ↔ IsHeld tables.now at covered.now seg) }
{
    let mut held = Vec::new(alloc);
    'segments: for segment in 0..geometry.log + 1 {
        held.push(is_held(tables, at, covered, segment))?;
    }
    Ok(held)
}

/// Sets the flag of the segment that an address lies in, if there is one.
fn mark(k: u32, flags: &mut Vec<bool>, address: u32)
    requires { 0 < k }
    ensures count { length flags.new.items ≡ length flags.old.items }
    ensures set { address / k < length flags.old.items → IsSet flags.new.items (address / k) }
    ensures others { (seg : ℕ) → (address / k ≡ seg → ⊥)
        → slice_index_or flags.new.items seg false ≡ slice_index_or flags.old.items seg false }
{
    let segment = (address / k) as usize;
    if segment < flags.len() {
        flags[segment] = true;
    }
}

/// Sets the flags of the segments that the addresses lie in.
fn mark_all(k: u32, flags: &mut Vec<bool>, addresses: &[u32])
    requires { 0 < k }
    ensures count { length flags.new.items ≡ length flags.old.items }
    ensures each { (seg : ℕ) → seg < length flags.old.items
        → IsSet flags.new.items seg ↔ (IsSet flags.old.items seg ⊎ HaveOneIn k addresses.now seg) }
{
    'addresses: for i in 0..addresses.len() {
        mark(k, flags, addresses[i]);
    }
}

/// A flag for each segment from 0 to the log's last, set where it is used.
pub(crate) fn used_segments(
    alloc: Global,
    geometry: &Geometry,
    rec: &Record,
    tables: &Tables,
    at: LogPlace,
    covered: &[u32],
) -> Result<Vec<bool>, AllocError>
    requires used { length tables.now.used ≡ geometry.now.log }
    requires covered { length covered.now ≡ geometry.now.log + 1 }
    ensures limits { IsWithinLimits geometry.now }
    ensures count { IfOk result (λ used. length used.items ≡ geometry.now.log + 1) }
    ensures used { IfOk result (λ used. (parts : List Summary)
        → at ≡ head_of rec.now parts → IsCovered geometry.now rec.now parts covered.now
        → AreUsed geometry.now rec.now parts tables.now used.items) }
{
    let k = geometry.k;
    let mut used = held_segments(alloc, geometry, tables, at, covered)?;
    mark_all(k, &mut used, rec.tables.items());
    Ok(used)
}
