//! Writing the parts of a unit, one after the other.

ghost use Rattle.std.specs.Prelude.{◌≡◌, ◌≤◌, ◌<◌, ◌+◌, ◌*◌, ◌^◌, ◌↔◌, ◌&&◌, length, take, drop, OnOk, IfOk, IsTrue, false};
ghost use Rattle.hl_media.specs.Moments.{Runs, Ends, Now};
ghost use Rattle.hl_media.specs.Causes.{HasCause};
ghost use Rattle.hl_image.specs.Places.{log_end, IsLogPlace};
ghost use Rattle.hl_log.specs.Batches.{AddsPieceOf, CanStand, HasAddedPieceOf, IsBatch, brought_of, longest_part};
ghost use Rattle.hl_log.specs.Cut.{HasClean};
ghost use Rattle.hl_log.specs.Free.{AreClean};
ghost use Rattle.hl_log.specs.Rest.{IsSynced, SaysNothing};
ghost use Rattle.hl_log.specs.Units.{HasCleanFor, HasWritten, UnitGoesOn, WritesUnit, moved};

use crate::load::Load;
use crate::part::fill;
use crate::piece::{Left, Piece, is_done, next_piece};
use crate::position::Position;
use crate::writing::{settle, write_part};
use hl_addr::Geometry;
use hl_bytes::{BLOCK, TableRecord};
use hl_image::LogPlace;
use hl_media::{Failed, Machine};
use hl_summary::Heading;

/// What a unit or a checkpoint is to write.
#[derive(Clone, Copy)]
pub struct Batch<'a> {
    pub load: Load<'a>,
    pub changes: &'a [TableRecord],
    /// Whether its last part ends a unit.
    pub closes: bool,
}

fn ends_unit(closes: bool, last: bool) -> bool
    ensures { result ≡ (closes && last) }
{
    closes && last
}

/// Writes the next part of a batch.
fn write_piece<M: Machine>(
    machine: &mut M,
    geometry: &Geometry,
    log: Position,
    batch: &Batch,
    left: Left,
    piece: Piece,
    last: bool,
    buffer: &mut [u8],
) -> Result<(), Failed>
    requires settled { log.fresh ≡ false }
    requires batch { IsBatch geometry.now (brought_of batch.now) }
    requires stands { CanStand geometry.now log.head left (brought_of batch.now) piece }
    requires room { log_end geometry.now ≤ M.blocks machine.old }
    requires buffer { length buffer.old ≡ 4096 * longest_part geometry.now }
    ensures crash { Runs (M.history machine.old) (M.history machine.new)
        (AddsPieceOf geometry.now log (brought_of batch.now) left last piece) }
    ensures silent { Runs (M.history machine.old) (M.history machine.new) SaysNothing }
    ensures synced { OnOk result (Now (M.history machine.new) IsSynced) }
    ensures added { OnOk result (Ends (M.history machine.old) (M.history machine.new)
        (HasAddedPieceOf geometry.now log (brought_of batch.now) left last piece)) }
    ensures blocks { M.blocks machine.new ≡ M.blocks machine.old }
    ensures faults { HasCause (M.faults machine.old) (M.faults machine.new) result }
    ensures write_faults { HasCause (M.write_faults machine.old)
        (M.write_faults machine.new) result }
    ensures say_faults { M.say_faults machine.new ≡ M.say_faults machine.old }
{
    let first = batch.load.len() - left.blocks;
    let change = batch.changes.len() - left.tables;
    let changes = &batch.changes[change..change + piece.tables];
    let heading = Heading {
        serial: log.serial,
        next_seg: piece.next.seg,
        next_block: piece.next.block,
        ends: ends_unit(batch.closes, last),
    };
    let bytes = &mut buffer[..BLOCK * (1 + piece.blocks)];
    fill(heading, &batch.load, first, piece.blocks, changes, bytes);
    write_part(machine, geometry, log, piece.next, bytes)
}

/// Whether the clean segments, which lie apart and none of which is the head's, are enough for so many blocks and so many
/// table records of a batch that is cut from the head on: what [`Log::has_clean`](crate::Log::has_clean) tells, before a log
/// is open. Nothing is read.
pub fn has_clean(
    geometry: &Geometry,
    head: LogPlace,
    blocks: usize,
    tables: usize,
    clean: &[u32],
) -> bool
    requires place { IsLogPlace geometry.now head }
    requires clean { AreClean geometry.now head.seg clean.now }
    ensures { IsTrue result ↔ HasClean geometry.now head clean.now blocks tables }
{
    let mut left = Left {
        at: head,
        blocks,
        tables,
        used: 0,
    };
    'cut: loop {
        match next_piece(geometry, left, clean) {
            None => return false,
            Some((_, behind)) => {
                if behind.blocks == 0 && behind.tables == 0 {
                    return true;
                }
                left = behind;
            }
        }
    }
}

/// The position behind parts that were written.
fn moved(log: Position, head: LogPlace, serial: u64) -> Position
    ensures { result ≡ moved log head serial }
{
    Position {
        start: log.start,
        first: log.first,
        head,
        serial,
        fresh: false,
    }
}

/// Writes the parts of a batch at the log's head. A stop at any moment leaves the cut chain as it was, or with the
/// whole unit. It answers where the log goes on, and how many of the clean segments it took.
pub(crate) fn write_parts<M: Machine>(
    machine: &mut M,
    geometry: &Geometry,
    log: Position,
    batch: &Batch,
    clean: &[u32],
    buffer: &mut [u8],
) -> Result<(Position, usize), Failed>
    requires place { IsLogPlace geometry.now log.head }
    requires clean { AreClean geometry.now log.head.seg clean.now }
    requires batch { IsBatch geometry.now (brought_of batch.now) }
    requires enough { HasCleanFor geometry.now log.head clean.now (brought_of batch.now) }
    requires room { log_end geometry.now ≤ M.blocks machine.old }
    requires buffer { length buffer.old ≡ 4096 * longest_part geometry.now }
    ensures crash { Runs (M.history machine.old) (M.history machine.new)
        (WritesUnit geometry.now log clean.now (brought_of batch.now)) }
    ensures silent { Runs (M.history machine.old) (M.history machine.new) SaysNothing }
    ensures synced { OnOk result (Now (M.history machine.new) IsSynced) }
    ensures goes_on { IfOk result
        (λ done. UnitGoesOn geometry.now log clean.now (brought_of batch.now) done.0 done.1) }
    ensures written { IfOk result (λ done. Ends (M.history machine.old) (M.history machine.new)
        (HasWritten geometry.now log clean.now (brought_of batch.now) done.0
        (drop done.1 clean.now))) }
    ensures place { IfOk result (λ done. IsLogPlace geometry.now done.0.head) }
    ensures used { IfOk result (λ done. done.1 ≤ length clean.now) }
    ensures position { IfOk result (λ done. done.0 ≡ moved log done.0.head done.0.serial) }
    ensures blocks { M.blocks machine.new ≡ M.blocks machine.old }
    ensures faults { HasCause (M.faults machine.old) (M.faults machine.new) result }
    ensures write_faults { HasCause (M.write_faults machine.old)
        (M.write_faults machine.new) result }
    ensures say_faults { M.say_faults machine.new ≡ M.say_faults machine.old }
{
    settle(machine, geometry, log)?;
    let mut serial = log.serial;
    let mut left = Left {
        at: log.head,
        blocks: batch.load.len(),
        tables: batch.changes.len(),
        used: 0,
    };
    'parts: loop {
        let Some((piece, behind)) = next_piece(geometry, left, clean) else {
            unreachable!()
        };
        let last = is_done(behind);
        let at = moved(log, left.at, serial);
        write_piece(machine, geometry, at, batch, left, piece, last, buffer)?;
        left = behind;
        serial = serial.saturating_add(1);
        if last {
            return Ok((moved(log, left.at, serial), left.used));
        }
    }
}
