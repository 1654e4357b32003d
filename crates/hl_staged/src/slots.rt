//! Whether the slots of a disk are possible.

ghost use Rattle.std.specs.Prelude.{◌≡◌, ◌↔◌, ℕ, ◌+◌, ◌/◌, ◌<◌, ◌≤◌, List, length, map, sum, count_by, IsTrue, IfOk, IfNone, MatchOption};
ghost use Rattle.std.specs.List.{slice_index_or};
ghost use Rattle.hl_media.specs.History.{Image};
ghost use Rattle.hl_addr.specs.Layout.{table_blocks};
ghost use Rattle.hl_summary.specs.declared.parts.Summary.{Summary};
ghost use Rattle.hl_tseg.specs.declared.slot.Slot.TheVariants.{Free, Staged};
ghost use Rattle.hl_tseg.specs.Slots.{is_staged, serial_of};
ghost use Rattle.hl_tables.specs.Values.{AreTables, TableValues};
ghost use Rattle.hl_tables.specs.TableBlocks.{inode_blocks, used_blocks};
ghost use Rattle.hl_nodes.specs.declared.rule.Rule.TheVariants.{SlotEntry};
ghost use Rattle.hl_nodes.specs.Breaks.{Breaks, IsTableAt};
ghost use Rattle.hl_nodes.specs.Sound.{AreSlots};
ghost use Rattle.hl_nodes.specs.Tables.{parts_raised};
ghost use Rattle.hl_staged.specs.Slots.{IsOffLimits, IsTooMany, TellsSlot, line_of};
ghost use Rattle.hl_nodes.specs.Telling.{Tells};

use crate::repeats::first_repeat;
use hl_addr::Geometry;
use hl_super::Record;
use hl_tables::Tables;
use hl_tseg::{Slot, TsegTable};
use std::alloc::{AllocError, Global};

/// How many lines stay free of staged segments.
const LINES_LEFT: usize = 12;

/// How many slots a block of the tables has.
const SLOTS_PER_BLOCK: usize = 256;

/// The line of a slot that is staged.
fn line_of(slot: Slot) -> Option<u64>
    ensures { result ≡ line_of slot }
{
    match slot {
        Slot::Staged { line, .. } => Some(line as u64),
        _ => None,
    }
}

/// The serial of the segment of a slot, if it has one.
fn serial_of(slot: Slot) -> Option<u64>
    ensures { result ≡ serial_of slot }
{
    match slot {
        Slot::Staged { serial, .. } => Some(serial),
        Slot::Home { serial } => Some(serial),
        _ => None,
    }
}

/// The line of each slot that is staged.
fn lines_of(alloc: Global, slots: &[Slot]) -> Result<Vec<Option<u64>>, AllocError>
    ensures { IfOk result (λ v. v.items ≡ map line_of slots.now) }
{
    slots.iter().map(|slot| line_of(*slot)).collect(alloc)
}

/// The serial of each slot that has one.
fn serials_of(alloc: Global, slots: &[Slot]) -> Result<Vec<Option<u64>>, AllocError>
    ensures { IfOk result (λ v. v.items ≡ map serial_of slots.now) }
{
    slots.iter().map(|slot| serial_of(*slot)).collect(alloc)
}

/// Whether a slot's line isn't one of the disk, or its serial isn't below the next one.
fn is_off_limits(slot: Slot, lines: u32, next: u64) -> bool
    ensures { IsTrue result ↔ IsOffLimits lines next slot }
{
    match slot {
        Slot::Staged { line, serial } => lines <= line || next <= serial,
        Slot::Home { serial } => next <= serial,
        _ => false,
    }
}

/// The first slot whose line isn't one of the disk, or whose serial isn't below the next one.
fn first_off_limits(slots: &[Slot], lines: u32, next: u64) -> Option<usize>
    ensures { MatchOption result
        ((n : ℕ) → ¬ IsOffLimits lines next (slice_index_or slots.now n Free))
        (λ n. (n < length slots.now) × IsOffLimits lines next (slice_index_or slots.now n Free)) }
{
    'slots: for i in 0..slots.len() {
        if is_off_limits(slots[i], lines, next) {
            return Some(i);
        }
    }
    None
}

/// How many slots are staged.
fn count_staged(slots: &[Slot]) -> usize
    ensures { result ≡ count_by is_staged slots.now }
{
    slots
        .iter()
        .filter(|slot| line_of(**slot).is_some())
        .count()
}

/// The first slot that is staged.
fn first_staged(slots: &[Slot]) -> Option<usize>
    ensures { MatchOption result (count_by is_staged slots.now ≡ 0)
        (λ n. (n < length slots.now) × ((line serial : ℕ)
        × (slice_index_or slots.now n Free ≡ Staged line serial))) }
{
    'slots: for i in 0..slots.len() {
        if line_of(slots[i]).is_some() {
            return Some(i);
        }
    }
    None
}

/// The first slot that is staged, where fewer than twelve lines are left over.
fn first_too_many(slots: &[Slot], lines: u32) -> Option<usize>
    requires { 12 ≤ lines }
    ensures { MatchOption result (count_by is_staged slots.now + 12 ≤ lines)
        (IsTooMany lines slots.now) }
{
    if count_staged(slots) <= lines as usize - LINES_LEFT {
        return None;
    }
    first_staged(slots)
}

/// A slot that is off, if one is. It takes memory for a number a slot, and time that grows a
/// little faster than the number of slots.
fn off_slot(
    alloc: Global,
    geometry: &Geometry,
    slots: &TsegTable,
    next: u64,
) -> Result<Option<usize>, AllocError>
    ensures { IfOk result (TellsSlot geometry.now slots.now next) }
{
    let items = slots.items();
    if let Some(n) = first_too_many(items, geometry.lines) {
        return Ok(Some(n));
    }
    if let Some(n) = first_off_limits(items, geometry.lines, next) {
        return Ok(Some(n));
    }
    let lines = lines_of(alloc, items)?;
    if let Some(n) = first_repeat(alloc, lines.as_slice())? {
        return Ok(Some(n));
    }
    let serials = serials_of(alloc, items)?;
    first_repeat(alloc, serials.as_slice())
}

/// The table block in which a slot's entry stands.
fn slot_block(geometry: &Geometry, rec: &Record, n: usize) -> u32
    requires record { length rec.now.tables ≡ table_blocks geometry.now }
    requires slot { n < sum geometry.now.volumes }
    ensures { (t : TableValues) → AreTables geometry.now t
        → IsTableAt rec.now (inode_blocks t + used_blocks t + n / 256) result }
{
    let inode_blocks = (4 * geometry.inodes).div_ceil(4096);
    let used_blocks = (4 * geometry.log).div_ceil(4096);
    rec.tables.items()[inode_blocks as usize + used_blocks as usize + n / SLOTS_PER_BLOCK]
}

/// The table block of a slot that breaks the rule of slots, if one does (`Rule::SlotEntry`). The
/// record has the address of each table block, and `next` is its tertiary serial, raised above that
/// of each segment that a part of the chain stages.
pub fn check_slots(
    alloc: Global,
    geometry: &Geometry,
    rec: &Record,
    tables: &Tables,
    next: u64,
) -> Result<Option<u32>, AllocError>
    requires record { length rec.now.tables ≡ table_blocks geometry.now }
    requires tables { AreTables geometry.now tables.now }
    ensures told { IfOk result (λ off. (image : Image) (parts : List Summary)
        → parts_raised rec.now.tseg_serial parts ≡ next
        → Tells (Breaks geometry.now image rec.now parts tables.now SlotEntry) off) }
    ensures kept { IfOk result (λ off. IfNone off (AreSlots geometry.now tables.now.slots next)) }
{
    match off_slot(alloc, geometry, tables.slots(), next)? {
        Some(n) => Ok(Some(slot_block(geometry, rec, n))),
        None => Ok(None),
    }
}
