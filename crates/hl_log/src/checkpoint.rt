//! A checkpoint: the blocks of the tables, and then the record that names them.

ghost use Rattle.std.specs.Prelude.{◌≡◌, ◌≤◌, ◌<◌, ◌*◌, ◌^◌, length, drop, OnOk, IfOk, false};
ghost use Rattle.std.specs.List.{AllByRecursion};
ghost use Rattle.hl_media.specs.Moments.{Runs, Ends, Now};
ghost use Rattle.hl_media.specs.Causes.{HasCause};
ghost use Rattle.hl_addr.specs.Layout.{IsWithinLimits, table_blocks};
ghost use Rattle.hl_super.specs.Records.{IsRecord};
ghost use Rattle.hl_image.specs.Places.{log_end, IsLogPlace};
ghost use Rattle.hl_image.specs.Newest.{home_of, label_of, start_of};
ghost use Rattle.hl_log.specs.Checkpoints.{Checkpoints, HasCheckpointed, HasRecorded, IsRecordBehind, Records, drafted, next_record, restarted_at};
ghost use Rattle.hl_log.specs.Batches.{longest_part};
ghost use Rattle.hl_log.specs.Cut.{IsPlan};
ghost use Rattle.hl_log.specs.Free.{AreClean};
ghost use Rattle.hl_log.specs.Loads.{bytes_of_tables};
ghost use Rattle.hl_log.specs.Rest.{IsSynced, SaysNothing};

use crate::batch::{Batch, write_parts};
use crate::load::Load;
use crate::position::Position;
use hl_addr::{Geometry, Numbers};
use hl_bytes::{BLOCK, Block};
use hl_image::LogPlace;
use hl_media::{Failed, Machine, write_synced};
use hl_super::{Record, encode_record};

/// What the next record takes from the caller: its lists are made before anything is written.
#[derive(Drop)]
pub struct Draft {
    /// The number of the record before it.
    pub number: u64,
    pub tseg_serial: u64,
    pub format: u32,
    pub volumes: Numbers,
    pub tables: Numbers,
}

/// The record of a draft, whose chain starts at the log's head.
fn record_of(geometry: &Geometry, log: Position, draft: Draft) -> Record
    requires limits { IsWithinLimits geometry.now }
    requires place { IsLogPlace geometry.now log.head }
    requires tseg_serial { 1 ≤ draft.tseg_serial }
    requires format { draft.format ≡ 1 }
    requires volumes { draft.volumes ≡ geometry.now.volumes }
    requires tables { length draft.tables ≡ table_blocks geometry.now }
    requires fit { AllByRecursion (λ n. n < 2 ^ 32) draft.tables }
    ensures value { result ≡ next_record draft log.head log.serial }
    ensures is { IsRecord (home_of result.number) (label_of geometry.now) result }
{
    Record {
        number: draft.number.saturating_add(1),
        serial: log.serial,
        seg: log.head.seg,
        block: log.head.block,
        tseg_serial: draft.tseg_serial,
        format: draft.format,
        volumes: draft.volumes,
        tables: draft.tables,
    }
}

/// Writes the record that makes the log start at its head. A stop at any moment leaves the old record with its chain,
/// or the new one with none.
fn write_record<M: Machine>(
    machine: &mut M,
    geometry: &Geometry,
    log: Position,
    new: &Record,
) -> Result<(), Failed>
    requires limits { IsWithinLimits geometry.now }
    requires settled { log.fresh ≡ false }
    requires room { log_end geometry.now ≤ M.blocks machine.old }
    requires is { IsRecord (home_of new.now.number) (label_of geometry.now) new.now }
    ensures crash { Runs (M.history machine.old) (M.history machine.new)
        (Records geometry.now log new.now) }
    ensures silent { Runs (M.history machine.old) (M.history machine.new) SaysNothing }
    ensures synced { OnOk result (Now (M.history machine.new) IsSynced) }
    ensures recorded { OnOk result (Ends (M.history machine.old) (M.history machine.new)
        (HasRecorded geometry.now log new.now)) }
    ensures blocks { M.blocks machine.new ≡ M.blocks machine.old }
    ensures faults { HasCause (M.faults machine.old) (M.faults machine.new) result }
    ensures write_faults { HasCause (M.write_faults machine.old)
        (M.write_faults machine.new) result }
    ensures say_faults { M.say_faults machine.new ≡ M.say_faults machine.old }
{
    let mut block = [0; BLOCK];
    encode_record(new, &mut block);
    write_synced(machine, 2 - (new.number % 2) as u32, &block)
}

/// Writes table blocks in parts that end no unit, and then the next record, behind which the chain is empty. A stop at
/// any moment leaves the old record with its chain, or the new one with none and these table blocks.
pub(crate) fn write_checkpoint<M: Machine>(
    machine: &mut M,
    geometry: &Geometry,
    log: Position,
    draft: Draft,
    tables: &[Block],
    clean: &[u32],
    buffer: &mut [u8],
) -> Result<(Record, usize), Failed>
    requires limits { IsWithinLimits geometry.now }
    requires place { IsLogPlace geometry.now log.head }
    requires clean { AreClean geometry.now log.head.seg clean.now }
    requires tseg_serial { 1 ≤ draft.tseg_serial }
    requires format { draft.format ≡ 1 }
    requires volumes { draft.volumes ≡ geometry.now.volumes }
    requires tables { length tables.now ≡ table_blocks geometry.now }
    requires plan { IsPlan geometry.now log.head clean.now (length tables.now) 0 draft.tables }
    requires room { log_end geometry.now ≤ M.blocks machine.old }
    requires buffer { length buffer.old ≡ 4096 * longest_part geometry.now }
    ensures crash { Runs (M.history machine.old) (M.history machine.new)
        (Checkpoints geometry.now log clean.now (drafted draft) (bytes_of_tables tables.now)) }
    ensures silent { Runs (M.history machine.old) (M.history machine.new) SaysNothing }
    ensures synced { OnOk result (Now (M.history machine.new) IsSynced) }
    ensures rec { let count = length (bytes_of_tables tables.now) in IfOk result (λ done.
        IsRecordBehind geometry.now log clean.now (drop done.1 clean.now)
        (drafted draft) count done.0) }
    ensures done { let given = drafted draft in let blocks = bytes_of_tables tables.now in
        IfOk result (λ done. Ends (M.history machine.old) (M.history machine.new)
        (HasCheckpointed geometry.now log clean.now given blocks (restarted_at done.0)
        (drop done.1 clean.now) done.0)) }
    ensures place { IfOk result (λ done. IsLogPlace geometry.now (start_of done.0)) }
    ensures used { IfOk result (λ done. done.1 ≤ length clean.now) }
    ensures blocks { M.blocks machine.new ≡ M.blocks machine.old }
    ensures faults { HasCause (M.faults machine.old) (M.faults machine.new) result }
    ensures write_faults { HasCause (M.write_faults machine.old)
        (M.write_faults machine.new) result }
    ensures say_faults { M.say_faults machine.new ≡ M.say_faults machine.old }
{
    let batch = Batch {
        load: Load::Tables(tables),
        changes: &[],
        closes: false,
    };
    let (at, used) = write_parts(machine, geometry, log, &batch, clean, buffer)?;
    let new = record_of(geometry, at, draft);
    write_record(machine, geometry, at, &new)?;
    Ok((new, used))
}

/// Where the log stands behind a new record.
pub(crate) fn restarted(new: &Record) -> Position
    ensures { result ≡ restarted_at new.now }
{
    let head = LogPlace {
        seg: new.seg,
        block: new.block,
    };
    Position {
        start: head,
        first: new.serial,
        head,
        serial: new.serial,
        fresh: false,
    }
}
