//! What the nodes of a disk are charged.

ghost use Rattle.std.specs.Prelude.{◌≡◌, ◌-◌, ◌^◌, ◌<◌, ℕ, List, count_by, drop, length, min, sum_by};
ghost use Rattle.std.specs.List.{list_any, slice_index_or};
ghost use Rattle.hl_media.specs.History.{Image};
ghost use Rattle.hl_tables.specs.Values.{TableValues};
ghost use Rattle.hl_paths.specs.Nodes.{Nodes, flat_charge};
ghost use Rattle.hl_nodes.specs.Nodes.{HasNodes};
ghost use Rattle.hl_survey.specs.Surveys.{AreSurveyed};
ghost use Rattle.hl_tally.specs.Counting.{is_logged};
ghost use Rattle.hl_census.specs.Charging.{found_charge, pointers_charge};
ghost use Rattle.hl_census.specs.Naming.{is_address};
ghost use Rattle.hl_super.specs.declared.record.Record.{Record};
ghost use Rattle.hl_summary.specs.declared.parts.Summary.{Summary};
ghost use Rattle.hl_nodes.specs.declared.rule.Rule.TheVariants.{Quota};
ghost use Rattle.hl_nodes.specs.Telling.{TellsBroken};

use crate::logged::is_logged;
use hl_addr::{Geometry, NOTHING};
use hl_survey::FoundInode;

/// How many of the pointers name a block of the log; at most 2^32 - 1.
fn count_here(k: u32, segments: usize, pointers: &[u32]) -> u32
    requires { 0 < k }
    ensures { result ≡ min (count_by (is_logged k segments) pointers.now) (2 ^ 32 - 1) }
{
    let mut count: u32 = 0;
    'pointers: for pointer in pointers {
        if is_logged(k, segments, *pointer) {
            count = count.saturating_add(1);
        }
    }
    count
}

/// Whether a pointer from pointer 12 on names a block, so that there is a pointer block.
fn has_far(pointers: &[u32]) -> bool
    ensures { result ≡ list_any is_address (drop 12 pointers.now) }
{
    'pointers: for i in 12..pointers.len() {
        if pointers[i] != NOTHING {
            return true;
        }
    }
    false
}

/// What an inode with these pointers is charged, where the log has so many segments of k blocks: a block for itself, one for its pointer block, if it has one, and those
/// of its blocks that are in the log; at most 2^32 - 1.
fn charge_of(k: u32, segments: usize, pointers: &[u32]) -> u32
    requires { 0 < k }
    ensures { result ≡ min (pointers_charge k segments pointers.now) (2 ^ 32 - 1) }
{
    let count = count_here(k, segments, pointers);
    if has_far(pointers) {
        count.saturating_add(2)
    } else {
        count.saturating_add(1)
    }
}

/// What was found of a number is charged so much; at most 2^32 - 1.
fn charge_at(k: u32, segments: usize, found: &Option<FoundInode>) -> u32
    requires { 0 < k }
    ensures { result ≡ min (found_charge k segments found.now) (2 ^ 32 - 1) }
{
    match found {
        Some(found) => charge_of(k, segments, found.pointers.as_slice()),
        None => 0,
    }
}

/// What all that was found is charged; at most 2^32 - 1.
fn charge_found(k: u32, segments: usize, found: &[Option<FoundInode>]) -> u32
    requires { 0 < k }
    ensures { result ≡ min (sum_by (found_charge k segments) found.now) (2 ^ 32 - 1) }
{
    let mut charge: u32 = 0;
    'numbers: for number in 0..found.len() {
        charge = charge.saturating_add(charge_at(k, segments, &found[number]));
    }
    charge
}

/// What the nodes of a disk are charged, in blocks: each of them a block for its inode, one for its pointer block, if it
/// has one, and those of its blocks that are in the log.
pub fn charge(geometry: &Geometry, found: &[Option<FoundInode>]) -> u32
    ensures { (image : Image) (t : TableValues) (nodes : Nodes)
        → AreSurveyed geometry.now image t found.now → HasNodes geometry.now image t nodes
        → result ≡ flat_charge nodes }
{
    charge_found(geometry.k, geometry.log as usize, found)
}

/// Block 0 where the charge of a disk's nodes is above the quota of the site, and else none.
pub fn over_quota(geometry: &Geometry, charge: u32) -> Option<u32>
    ensures { (image : Image) (rec : Record) (parts : List Summary) (t : TableValues)
        (nodes : Nodes) → HasNodes geometry.now image t nodes → charge ≡ flat_charge nodes
        → TellsBroken geometry.now image rec parts t Quota result }
{
    // A site is within its limits, by its type.
    let _inodes = geometry.inodes;
    if geometry.quota() < charge {
        Some(0)
    } else {
        None
    }
}
