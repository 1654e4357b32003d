//! Whether the slots of a site are possible.

ghost use Rattle.std.specs.Prelude.{◌≡◌, ◌≢◌, ◌↔◌, IsTrue, count_by};
ghost use Rattle.std.specs.List.{fold};
ghost use Rattle.hl_tseg.specs.Slots.{is_staged, serial_of};
ghost use Rattle.hl_nodes.specs.Contents.{next_tertiary};
ghost use Rattle.hl_nodes.specs.Sound.{AreSlots};
ghost use Rattle.hl_nodes.specs.Tables.{raised};
ghost use Rattle.hl_found.specs.Found.{contents_found};
ghost use Rattle.hl_found.specs.Slots.{AreTwo, Differ, IsPossible, line_of};

use crate::contents::FoundContents;
use hl_addr::Geometry;
use hl_bytes::TableRecord;
use hl_tseg::{Slot, TsegTable};

/// The next tertiary serial behind a change of the tables.
fn raised(next: u64, change: &TableRecord) -> u64
    ensures { result ≡ raised next change.now }
{
    if change.kind == 2 {
        next.max(change.serial.saturating_add(1))
    } else {
        next
    }
}

/// The next tertiary serial behind changes of the tables.
fn raised_by(next: u64, changes: &[TableRecord]) -> u64
    ensures { result ≡ fold raised next changes.now }
{
    let mut raised_to = next;
    'changes: for change in changes {
        raised_to = raised(raised_to, change);
    }
    raised_to
}

/// The serial that the next tertiary segment gets: the record's, raised above that of each segment
/// that a part of the chain stages.
pub fn next_tertiary(found: &FoundContents) -> u64
    ensures { result ≡ next_tertiary (contents_found found.now) }
{
    let mut next = found.rec.tseg_serial;
    'parts: for part in found.chain.as_slice() {
        next = raised_by(next, part.summary.tables.items());
    }
    next
}

/// The line of a slot that is staged.
fn line_of(slot: Slot) -> Option<u32>
    ensures { result ≡ line_of slot }
{
    match slot {
        Slot::Staged { line, .. } => Some(line),
        _ => None,
    }
}

/// The serial of the segment of a slot, if it has one.
fn serial_of(slot: Slot) -> Option<u64>
    ensures { result ≡ serial_of slot }
{
    match slot {
        Slot::Staged { serial, .. } => Some(serial),
        Slot::Home { serial } => Some(serial),
        _ => None,
    }
}

/// Whether a slot's line is one of the disk, and its serial below the next one.
fn is_possible(slot: Slot, lines: u32, next: u64) -> bool
    ensures { IsTrue result ↔ IsPossible lines next slot }
{
    match slot {
        Slot::Staged { line, serial } => line < lines && serial < next,
        Slot::Home { serial } => serial < next,
        _ => true,
    }
}

/// Whether two slots share neither a line nor a serial.
fn are_two(one: Slot, other: Slot) -> bool
    ensures { IsTrue result ↔ AreTwo one other }
{
    let lines = match (line_of(one), line_of(other)) {
        (Some(a), Some(b)) => a != b,
        _ => true,
    };
    let serials = match (serial_of(one), serial_of(other)) {
        (Some(a), Some(b)) => a != b,
        _ => true,
    };
    lines && serials
}

/// How many slots are staged.
fn count_staged(slots: &[Slot]) -> usize
    ensures { result ≡ count_by is_staged slots.now }
{
    slots
        .iter()
        .filter(|slot| line_of(**slot).is_some())
        .count()
}

/// Whether the slots are possible before the next serial: staged in lines of the disk, each in its
/// own, with twelve lines left over, and each with a serial of its own below the next one. It
/// compares each pair.
pub fn slots_are_possible(geometry: &Geometry, slots: &TsegTable, next: u64) -> bool
    ensures { IsTrue result ↔ AreSlots geometry.now slots.now next }
{
    let items = slots.items();
    let staged = count_staged(items);
    if (geometry.lines as usize) < 12 || geometry.lines as usize - 12 < staged {
        return false;
    }
    'ones: for i in 0..items.len() {
        if !is_possible(items[i], geometry.lines, next) {
            return false;
        }
        'others: for j in 0..i {
            if !are_two(items[i], items[j]) {
                return false;
            }
        }
    }
    true
}
