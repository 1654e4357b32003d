//! Whether the staged lines of a disk hold the segments of their slots.

ghost use Rattle.std.specs.Prelude.{◌≡◌, ◌↔◌, ℕ, ◌+◌, ◌*◌, ◌^◌, ◌<◌, ◌≤◌, List, length, IsTrue, IfErr, IfOk, MatchResult, OnOk};
ghost use Rattle.std.specs.List.{slice_index_or};
ghost use Rattle.hl_addr.specs.Layout.{IsWithinLimits};
ghost use Rattle.hl_media.specs.Causes.{HasCause};
ghost use Rattle.hl_media.specs.Moments.{Now};
ghost use Rattle.hl_tseg.specs.declared.slot.Slot.TheVariants.{Free, Staged};
ghost use Rattle.hl_tseg.specs.Segments.{SegmentHead};
ghost use Rattle.hl_tables.specs.Values.{AreTables};
ghost use Rattle.hl_view.specs.Lines.{IsSegment};
ghost use Rattle.hl_log.specs.Logs.{OnlyReads, site_blocks};
ghost use Rattle.hl_nodes.specs.declared.rule.Rule.TheVariants.{LineBytes};
ghost use Rattle.hl_nodes.specs.Lines.{line_bytes, line_start};
ghost use Rattle.hl_staged.specs.Lines.{IsOffLine};
ghost use Rattle.hl_staged.specs.Slots.{HaveLines};
ghost use Rattle.hl_staged.specs.Rules.{BreaksTried, KeepsRule};
ghost use Rattle.hl_survey.specs.Stops.{Stops, StopsBy};
ghost use Rattle.hl_nodes.specs.Telling.{Tells};

use hl_addr::Geometry;
use hl_bytes::SegBuf;
use hl_media::{Failed, Machine};
use hl_nodes::Rule;
use hl_survey::CheckError;
use hl_tables::Tables;
use hl_tseg::Slot;
use hl_view::LineView;
use std::alloc::Global;

/// The first block of a line.
pub(crate) fn line_start(geometry: &Geometry, line: u32) -> u32
    requires { line < geometry.now.lines }
    ensures value { result ≡ line_start geometry.now line }
    ensures within { result + geometry.now.k ≤ site_blocks geometry.now }
    ensures few { result + geometry.now.k < 2 ^ 32 }
{
    geometry.k * (geometry.log + 1 + line)
}

/// Reads a line's blocks. Where it fails the buffer may have any bytes.
fn load<M: Machine>(
    machine: &mut M,
    geometry: &Geometry,
    line: u32,
    buffer: &mut SegBuf,
) -> Result<(), Failed>
    requires room { site_blocks geometry.now ≤ M.blocks machine.old }
    requires line { line < geometry.now.lines }
    requires size { length buffer.old ≡ 4096 * geometry.now.k }
    ensures bytes { OnOk result (Now (M.history machine.old)
        (λ s. line_bytes geometry.now s.content line ≡ buffer.new)) }
    ensures size { length buffer.new ≡ length buffer.old }
    ensures machine { OnlyReads M.history M.blocks M.faults M.write_faults M.say_faults
        machine.old machine.new }
    ensures fault { HasCause (M.faults machine.old) (M.faults machine.new) result }
{
    let at = line_start(geometry, line);
    machine.read(at, buffer.part_mut(0, geometry.k))
}

/// Whether the buffer is the segment of this serial.
fn is_segment(buffer: &SegBuf, serial: u64) -> bool
    ensures { IsTrue result ↔ ((head : SegmentHead) × IsSegment buffer.now serial head) }
{
    match LineView::open(buffer, serial) {
        Some(_) => true,
        None => false,
    }
}

/// The first block of a line, where it doesn't hold the segment of this serial.
fn off_staged<M: Machine>(
    machine: &mut M,
    geometry: &Geometry,
    line: u32,
    serial: u64,
    buffer: &mut SegBuf,
) -> Result<Option<u32>, Failed>
    requires room { site_blocks geometry.now ≤ M.blocks machine.old }
    requires line { line < geometry.now.lines }
    requires size { length buffer.old ≡ 4096 * geometry.now.k }
    ensures told { IfOk result (λ off. Now (M.history machine.old)
        (λ s. Tells (IsOffLine geometry.now s.content (Staged line serial)) off)) }
    ensures size { length buffer.new ≡ length buffer.old }
    ensures machine { OnlyReads M.history M.blocks M.faults M.write_faults M.say_faults
        machine.old machine.new }
    ensures fault { HasCause (M.faults machine.old) (M.faults machine.new) result }
{
    load(machine, geometry, line, buffer)?;
    if is_segment(buffer, serial) {
        Ok(None)
    } else {
        Ok(Some(line_start(geometry, line)))
    }
}

/// The first block of a slot's line, where it is staged and the line doesn't hold its segment.
fn off_line<M: Machine>(
    machine: &mut M,
    geometry: &Geometry,
    slot: Slot,
    buffer: &mut SegBuf,
) -> Result<Option<u32>, Failed>
    requires room { site_blocks geometry.now ≤ M.blocks machine.old }
    requires line { (line serial : ℕ) → slot ≡ Staged line serial → line < geometry.now.lines }
    requires size { length buffer.old ≡ 4096 * geometry.now.k }
    ensures told { IfOk result (λ off. Now (M.history machine.old)
        (λ s. Tells (IsOffLine geometry.now s.content slot) off)) }
    ensures size { length buffer.new ≡ length buffer.old }
    ensures machine { OnlyReads M.history M.blocks M.faults M.write_faults M.say_faults
        machine.old machine.new }
    ensures fault { HasCause (M.faults machine.old) (M.faults machine.new) result }
{
    match slot {
        Slot::Staged { line, serial } => off_staged(machine, geometry, line, serial, buffer),
        _ => Ok(None),
    }
}

/// Whether each staged line holds its slot's segment; else the first block of the first that
/// doesn't is told (`Rule::LineBytes`). It reads each staged line once, into one buffer. The line of
/// each staged slot is one of the disk, as the rule of slots has it.
pub fn check_lines<M: Machine>(
    alloc: Global,
    machine: &mut M,
    geometry: &Geometry,
    tables: &Tables,
) -> Result<(), CheckError>
    requires room { site_blocks geometry.now ≤ M.blocks machine.old }
    requires lines { HaveLines geometry.now tables.now.slots }
    ensures kept { OnOk result (Now (M.history machine.old)
        (λ s. KeepsRule geometry.now tables.now LineBytes s.content)) }
    ensures stops { IfErr result (Stops (M.history machine.old)
        (BreaksTried geometry.now tables.now LineBytes)) }
    ensures machine { OnlyReads M.history M.blocks M.faults M.write_faults M.say_faults
        machine.old machine.new }
    ensures fault { MatchResult result (λ _. M.faults machine.new ≡ M.faults machine.old)
        (StopsBy (M.faults machine.old) (M.faults machine.new)) }
{
    let mut buffer = SegBuf::new(alloc, geometry.k)?;
    let slots = tables.slots().items();
    'slots: for i in 0..slots.len() {
        if let Some(block) = off_line(machine, geometry, slots[i], &mut buffer)? {
            return Err(CheckError::Damaged {
                block,
                rule: Rule::LineBytes,
            });
        }
    }
    Ok(())
}
