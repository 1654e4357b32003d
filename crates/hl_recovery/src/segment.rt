//! A segment of the log in memory, and the parts in it.

ghost use Rattle.std.specs.Prelude.{◌≡◌, ◌+◌, ◌*◌, ◌<◌, ◌≤◌, ◌↔◌, Some, IsNone, length, IfErr, IfOk, IfSome, MatchResult, OnOk};
ghost use Rattle.hl_addr.specs.Layout.{IsWithinLimits};
ghost use Rattle.hl_media.specs.Causes.{HasCause};
ghost use Rattle.hl_media.specs.History.{Image, HoldsAt};
ghost use Rattle.hl_media.specs.Moments.{Now};
ghost use Rattle.hl_log.specs.Logs.{OnlyReads};
ghost use Rattle.hl_summary.specs.Parts.{IsSummary};
ghost use Rattle.hl_image.specs.Places.{log_end};
ghost use Rattle.hl_recovery.specs.Chains.{FindsPart};
ghost use Rattle.hl_recovery.specs.Finding.{IsHeld};
ghost use Rattle.hl_recovery.specs.Stops.{IsPlain, StopsBy};

use crate::stop::MountError;
use hl_addr::Geometry;
use hl_bytes::SegBuf;
use hl_image::LogPlace;
use hl_media::{Failed, Machine};
use hl_summary::{Summary, check};
use std::alloc::{AllocError, Global};

/// The bytes of the segment of the log that was read last. Its number is 0 before the first.
#[derive(Drop)]
pub(crate) struct Held {
    pub(crate) seg: u32,
    pub(crate) bytes: SegBuf,
}

/// Memory for a segment.
pub(crate) fn none_held(alloc: Global, geometry: &Geometry) -> Result<Held, AllocError>
    ensures seg { IfOk result (λ held. held.seg ≡ 0) }
    ensures size { IfOk result (λ held. length held.bytes ≡ 4096 * geometry.now.k) }
{
    let bytes = SegBuf::new(alloc, geometry.k)?;
    Ok(Held { seg: 0, bytes })
}

/// Reads a segment of the log in one call.
fn read_segment<M: Machine>(
    machine: &mut M,
    geometry: &Geometry,
    seg: u32,
    bytes: &mut SegBuf,
) -> Result<(), Failed>
    requires limits { IsWithinLimits geometry.now }
    requires seg { seg ≤ geometry.now.log }
    requires room { log_end geometry.now ≤ M.blocks machine.old }
    requires size { length bytes.old ≡ 4096 * geometry.now.k }
    ensures bytes { OnOk result (Now (M.history machine.old)
        (λ s. HoldsAt s.content (geometry.now.k * seg) bytes.new)) }
    ensures size { length bytes.new ≡ length bytes.old }
    ensures machine { OnlyReads M.history M.blocks M.faults M.write_faults M.say_faults
        machine.old machine.new }
    ensures fault { HasCause (M.faults machine.old) (M.faults machine.new) result }
{
    let k = geometry.k;
    let out = bytes.part_mut(0, k);
    machine.read(k * seg, out)
}

/// Reads a segment of the log, where it isn't the one that was read last.
fn hold<M: Machine>(
    machine: &mut M,
    geometry: &Geometry,
    held: &mut Held,
    seg: u32,
) -> Result<(), Failed>
    requires limits { IsWithinLimits geometry.now }
    requires seg { seg ≤ geometry.now.log }
    requires room { log_end geometry.now ≤ M.blocks machine.old }
    requires size { length held.old.bytes ≡ 4096 * geometry.now.k }
    ensures seg { OnOk result (held.new.seg ≡ seg) }
    ensures held { OnOk result (Now (M.history machine.old)
        (λ s. IsHeld geometry.now s.content held.old
        → IsHeld geometry.now s.content held.new)) }
    ensures size { length held.new.bytes ≡ length held.old.bytes }
    ensures machine { OnlyReads M.history M.blocks M.faults M.write_faults M.say_faults
        machine.old machine.new }
    ensures fault { HasCause (M.faults machine.old) (M.faults machine.new) result }
{
    if held.seg == seg {
        return Ok(());
    }
    read_segment(machine, geometry, seg, &mut held.bytes)?;
    held.seg = seg;
    Ok(())
}

/// The part of this serial at a place of the segment whose bytes these are.
fn part_in(
    alloc: Global,
    bytes: &SegBuf,
    geometry: &Geometry,
    at: LogPlace,
    serial: u64,
) -> Result<Option<Summary>, AllocError>
    requires size { length bytes.now ≡ 4096 * geometry.now.k }
    requires block { at.block ≤ geometry.now.k }
    ensures found { let start = geometry.now.k * at.seg in
        IfOk result (λ r. (image : Image) → HoldsAt image start bytes.now
        → FindsPart geometry.now image at serial r) }
    ensures sound { IfOk result
        (λ r. IfSome r (IsSummary geometry.now at.seg at.block)) }
{
    let part = bytes.part(at.block, geometry.k - at.block);
    check(alloc, part, at.seg, at.block, serial, geometry)
}

/// The part of this serial at a place of the log, in the segment that was read last where it lies
/// there.
pub(crate) fn next_part<M: Machine>(
    alloc: Global,
    machine: &mut M,
    geometry: &Geometry,
    held: &mut Held,
    at: LogPlace,
    serial: u64,
) -> Result<Option<Summary>, MountError>
    requires limits { IsWithinLimits geometry.now }
    requires low { 1 ≤ at.seg }
    requires high { at.seg ≤ geometry.now.log }
    requires block { at.block ≤ geometry.now.k }
    requires room { log_end geometry.now ≤ M.blocks machine.old }
    requires size { length held.old.bytes ≡ 4096 * geometry.now.k }
    ensures found { let g = geometry.now in
        IfOk result (λ r. Now (M.history machine.old)
        (λ s. IsHeld g s.content held.old → FindsPart g s.content at serial r)) }
    ensures sound { IfOk result
        (λ r. IfSome r (IsSummary geometry.now at.seg at.block)) }
    ensures held { OnOk result (Now (M.history machine.old)
        (λ s. IsHeld geometry.now s.content held.old
        → IsHeld geometry.now s.content held.new)) }
    ensures size { length held.new.bytes ≡ length held.old.bytes }
    ensures plain { IfErr result IsPlain }
    ensures machine { OnlyReads M.history M.blocks M.faults M.write_faults M.say_faults
        machine.old machine.new }
    ensures fault { MatchResult result (λ _. M.faults machine.new ≡ M.faults machine.old)
        (StopsBy (M.faults machine.old) (M.faults machine.new)) }
{
    hold(machine, geometry, held, at.seg)?;
    let part = part_in(alloc, &held.bytes, geometry, at, serial)?;
    Ok(part)
}
