//! The label and the newest record of a disk.

ghost use Rattle.std.specs.Prelude.{◌≡◌, ◌+◌, ◌*◌, ◌<◌, ◌≤◌, ℕ, List, IfErr, IfOk, IfSome, MatchResult};
ghost use Rattle.hl_media.specs.Causes.{HasCause};
ghost use Rattle.hl_media.specs.Moments.{Now};
ghost use Rattle.hl_log.specs.Logs.{OnlyReads};
ghost use Rattle.hl_super.specs.Labels.{layout_of};
ghost use Rattle.hl_image.specs.Newest.{IsNewest};
ghost use Rattle.hl_recovery.specs.Finding.{FindsLabel, FindsRecord, FitsOn, IsRecordOf};
ghost use Rattle.hl_recovery.specs.Stops.{IsPlain, StopsBy};

use crate::reading::read_block;
use crate::stop::MountError;
use hl_bytes::BLOCK;
use hl_media::{Failed, Machine};
use hl_super::{Label, Record, decode_label, decode_record, newest};
use std::alloc::Global;

/// The label of the disk, if block 0 spells one. A machine of no block has none.
pub(crate) fn find_label<M: Machine>(machine: &mut M) -> Result<Option<Label>, Failed>
    ensures found { let blocks = M.blocks machine.old in
        IfOk result (λ r. Now (M.history machine.old)
        (λ s. FindsLabel blocks s.content r)) }
    ensures fits { IfOk result (λ r. IfSome r (FitsOn (M.blocks machine.old))) }
    ensures machine { OnlyReads M.history M.blocks M.faults M.write_faults M.say_faults
        machine.old machine.new }
    ensures fault { HasCause (M.faults machine.old) (M.faults machine.new) result }
{
    let blocks = machine.blocks();
    if blocks == 0 {
        return Ok(None);
    }
    let mut block = [0; BLOCK];
    read_block(machine, 0, &mut block)?;
    Ok(decode_label(&block, blocks))
}

/// The record of block 1 or 2, if it spells one of the label.
fn find_record<M: Machine>(
    alloc: Global,
    machine: &mut M,
    at: u32,
    label: &Label,
) -> Result<Option<Record>, MountError>
    requires { at < M.blocks machine.old }
    ensures found { IfOk result (λ r. Now (M.history machine.old)
        (λ s. FindsRecord at label.now s.content r)) }
    ensures sound { IfOk result (λ r. IfSome r (IsRecordOf label.now)) }
    ensures plain { IfErr result IsPlain }
    ensures machine { OnlyReads M.history M.blocks M.faults M.write_faults M.say_faults
        machine.old machine.new }
    ensures fault { MatchResult result (λ _. M.faults machine.new ≡ M.faults machine.old)
        (StopsBy (M.faults machine.old) (M.faults machine.new)) }
{
    let mut block = [0; BLOCK];
    read_block(machine, at, &mut block)?;
    let rec = decode_record(alloc, &block, at, label)?;
    Ok(rec)
}

/// The newest record of the label, if there is one.
pub(crate) fn find_newest<M: Machine>(
    alloc: Global,
    machine: &mut M,
    label: &Label,
) -> Result<Option<Record>, MountError>
    requires { 2 < M.blocks machine.old }
    ensures found { IfOk result (λ r. Now (M.history machine.old)
        (λ s. (volumes : List ℕ) → IsNewest (layout_of label.now volumes) s.content r)) }
    ensures sound { IfOk result (λ r. IfSome r (IsRecordOf label.now)) }
    ensures plain { IfErr result IsPlain }
    ensures machine { OnlyReads M.history M.blocks M.faults M.write_faults M.say_faults
        machine.old machine.new }
    ensures fault { MatchResult result (λ _. M.faults machine.new ≡ M.faults machine.old)
        (StopsBy (M.faults machine.old) (M.faults machine.new)) }
{
    let first = find_record(alloc, machine, 1, label)?;
    let second = find_record(alloc, machine, 2, label)?;
    Ok(newest(first, second))
}
