//! The device calls that write one part, in the one order that lets no stop show half of it.

ghost use Rattle.std.specs.Prelude.{◌≡◌, ◌≤◌, ◌<◌, ◌+◌, ◌*◌, ◌/◌, ◌^◌, ℕ, length, OnOk, true, false};
ghost use Rattle.hl_media.specs.History.{IsWhole};
ghost use Rattle.hl_media.specs.Moments.{Runs, Ends, Now};
ghost use Rattle.hl_media.specs.Causes.{HasCause};
ghost use Rattle.hl_bytes.specs.Fields.{zeros};
ghost use Rattle.hl_image.specs.Places.{block_at, log_end, IsLogPlace};
ghost use Rattle.hl_log.specs.Rest.{IsSynced, SaysNothing};
ghost use Rattle.hl_log.specs.Steps.{AddsPart, HasAdded, HasPut, HeadCleared, KeepsChain, KeepsChainTo, NextCleared, PutsPart};

use crate::position::Position;
use hl_addr::Geometry;
use hl_bytes::BLOCK;
use hl_image::LogPlace;
use hl_media::{Failed, Machine, write_synced};

/// The number of a place's block.
pub(crate) fn block_at(geometry: &Geometry, at: LogPlace) -> u32
    requires { IsLogPlace geometry.now at }
    ensures value { result ≡ block_at geometry.now at }
    ensures within { result < log_end geometry.now }
    ensures small { result + geometry.now.k < 2 ^ 32 }
{
    geometry.k * at.seg + at.block
}

/// A block of zeros.
fn zeros() -> [u8; BLOCK]
    ensures { result ≡ zeros 4096 }
{
    [0; BLOCK]
}

/// Makes the head's block zeros. The log isn't fresh afterwards.
fn clear_head<M: Machine>(machine: &mut M, geometry: &Geometry, log: Position) -> Result<(), Failed>
    requires fresh { log.fresh ≡ true }
    requires place { IsLogPlace geometry.now log.head }
    requires room { log_end geometry.now ≤ M.blocks machine.old }
    ensures crash { Runs (M.history machine.old) (M.history machine.new)
        (KeepsChain geometry.now log) }
    ensures silent { Runs (M.history machine.old) (M.history machine.new) SaysNothing }
    ensures cleared { OnOk result (Ends (M.history machine.old) (M.history machine.new)
        (HeadCleared geometry.now log)) }
    ensures blocks { M.blocks machine.new ≡ M.blocks machine.old }
    ensures faults { HasCause (M.faults machine.old) (M.faults machine.new) result }
    ensures write_faults { HasCause (M.write_faults machine.old)
        (M.write_faults machine.new) result }
    ensures say_faults { M.say_faults machine.new ≡ M.say_faults machine.old }
{
    let zeros = zeros();
    write_synced(machine, block_at(geometry, log.head), &zeros)
}

/// Makes the block at the next place zeros, behind a part of so many blocks at the head.
fn clear_next<M: Machine>(
    machine: &mut M,
    geometry: &Geometry,
    log: Position,
    next: LogPlace,
) -> Result<(), Failed>
    requires settled { log.fresh ≡ false }
    requires place { IsLogPlace geometry.now next }
    requires room { log_end geometry.now ≤ M.blocks machine.old }
    ensures crash { Runs (M.history machine.old) (M.history machine.new)
        (KeepsChainTo geometry.now log next) }
    ensures silent { Runs (M.history machine.old) (M.history machine.new) SaysNothing }
    ensures cleared { OnOk result (Ends (M.history machine.old) (M.history machine.new)
        (NextCleared geometry.now log next)) }
    ensures blocks { M.blocks machine.new ≡ M.blocks machine.old }
    ensures faults { HasCause (M.faults machine.old) (M.faults machine.new) result }
    ensures write_faults { HasCause (M.write_faults machine.old)
        (M.write_faults machine.new) result }
    ensures say_faults { M.say_faults machine.new ≡ M.say_faults machine.old }
{
    let zeros = zeros();
    write_synced(machine, block_at(geometry, next), &zeros)
}

/// Writes a part at the head, behind which zeros stand.
fn put_part<M: Machine>(
    machine: &mut M,
    geometry: &Geometry,
    log: Position,
    next: LogPlace,
    bytes: &[u8],
) -> Result<(), Failed>
    requires settled { log.fresh ≡ false }
    requires place { IsLogPlace geometry.now log.head }
    requires room { log_end geometry.now ≤ M.blocks machine.old }
    requires whole { IsWhole bytes.now }
    requires within { log.head.block + length bytes.now / 4096 ≤ geometry.now.k }
    ensures crash { Runs (M.history machine.old) (M.history machine.new)
        (PutsPart geometry.now log next bytes.now) }
    ensures silent { Runs (M.history machine.old) (M.history machine.new) SaysNothing }
    ensures synced { OnOk result (Now (M.history machine.new) IsSynced) }
    ensures put { OnOk result (Ends (M.history machine.old) (M.history machine.new)
        (HasPut geometry.now log next bytes.now)) }
    ensures blocks { M.blocks machine.new ≡ M.blocks machine.old }
    ensures faults { HasCause (M.faults machine.old) (M.faults machine.new) result }
    ensures write_faults { HasCause (M.write_faults machine.old)
        (M.write_faults machine.new) result }
    ensures say_faults { M.say_faults machine.new ≡ M.say_faults machine.old }
{
    write_synced(machine, block_at(geometry, log.head), bytes)
}

/// Writes a part at the head: first zeros at its next place, and then the part. A stop leaves the chain as it was, or
/// with the part.
pub(crate) fn write_part<M: Machine>(
    machine: &mut M,
    geometry: &Geometry,
    log: Position,
    next: LogPlace,
    bytes: &[u8],
) -> Result<(), Failed>
    requires settled { log.fresh ≡ false }
    requires place { IsLogPlace geometry.now log.head }
    requires next { IsLogPlace geometry.now next }
    requires room { log_end geometry.now ≤ M.blocks machine.old }
    requires whole { IsWhole bytes.now }
    requires within { log.head.block + length bytes.now / 4096 ≤ geometry.now.k }
    ensures crash { Runs (M.history machine.old) (M.history machine.new)
        (AddsPart geometry.now log next bytes.now) }
    ensures silent { Runs (M.history machine.old) (M.history machine.new) SaysNothing }
    ensures synced { OnOk result (Now (M.history machine.new) IsSynced) }
    ensures added { OnOk result (Ends (M.history machine.old) (M.history machine.new)
        (HasAdded geometry.now log next bytes.now)) }
    ensures blocks { M.blocks machine.new ≡ M.blocks machine.old }
    ensures faults { HasCause (M.faults machine.old) (M.faults machine.new) result }
    ensures write_faults { HasCause (M.write_faults machine.old)
        (M.write_faults machine.new) result }
    ensures say_faults { M.say_faults machine.new ≡ M.say_faults machine.old }
{
    clear_next(machine, geometry, log, next)?;
    put_part(machine, geometry, log, next, bytes)
}

/// Clears the head's block unless that was done.
pub(crate) fn settle<M: Machine>(
    machine: &mut M,
    geometry: &Geometry,
    log: Position,
) -> Result<(), Failed>
    requires place { IsLogPlace geometry.now log.head }
    requires room { log_end geometry.now ≤ M.blocks machine.old }
    ensures crash { Runs (M.history machine.old) (M.history machine.new)
        (KeepsChain geometry.now log) }
    ensures silent { Runs (M.history machine.old) (M.history machine.new) SaysNothing }
    ensures cleared { OnOk result (Ends (M.history machine.old) (M.history machine.new)
        (HeadCleared geometry.now log)) }
    ensures blocks { M.blocks machine.new ≡ M.blocks machine.old }
    ensures faults { HasCause (M.faults machine.old) (M.faults machine.new) result }
    ensures write_faults { HasCause (M.write_faults machine.old)
        (M.write_faults machine.new) result }
    ensures say_faults { M.say_faults machine.new ≡ M.say_faults machine.old }
{
    if log.fresh {
        clear_head(machine, geometry, log)
    } else {
        Ok(())
    }
}
