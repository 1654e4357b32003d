//! The first unit and the first checkpoint of a log.

ghost use Rattle.std.specs.Prelude.{◌≡◌, ◌≤◌, IfOk, OnOk};
ghost use Rattle.hl_addr.specs.Layout.{IsWithinLimits};
ghost use Rattle.hl_media.specs.Causes.{HasCause};
ghost use Rattle.hl_media.specs.Moments.{Ends, Runs};
ghost use Rattle.hl_log.specs.Loads.{bytes_of_tables};
ghost use Rattle.hl_log.specs.Logs.{site_blocks, unit_of};
ghost use Rattle.hl_log.specs.Rest.{SaysNothing};
ghost use Rattle.hl_nodes.specs.Checkpoints.{contents_of_tables};
ghost use Rattle.hl_mkfs.specs.Answers as answers;
ghost use Rattle.hl_mkfs.specs.Parts.{AreSupplies, before_first, first_tables, root_unit};
ghost use Rattle.hl_mkfs.specs.Stages.{IsBlank, IsFounded, IsRooted, Leads, LeavesNoLabel, opened_position, rooted_position};

use crate::making::MkfsError;
use crate::supplies::Supplies;
use hl_addr::Geometry;
use hl_bytes::Block;
use hl_log::{Log, Unit, UnitAnswer};
use hl_media::{Failed, Machine};
use hl_super::Record;
use std::alloc::{AllocError, Global};

/// Writes the unit that brings the root's inode, into a log that was just opened.
fn write_root<M: Machine>(log: &mut Log<M>, unit: &Unit) -> Result<(), Failed>
    requires limits { IsWithinLimits log.old.geometry }
    requires at { log.old.at ≡ opened_position }
    requires unit { unit_of unit.now ≡ root_unit }
    ensures rooted { OnOk result
        (Ends (M.history log.old.machine) (M.history log.new.machine)
        (Leads (IsBlank log.old.geometry) (IsRooted log.old.geometry))) }
    ensures at { OnOk result (log.new.at ≡ rooted_position) }
    ensures crash { let blocks = M.blocks log.old.machine in
        Runs (M.history log.old.machine) (M.history log.new.machine)
        (LeavesNoLabel (IsBlank log.old.geometry) blocks log.old.geometry) }
    ensures silent { Runs (M.history log.old.machine) (M.history log.new.machine) SaysNothing }
    ensures rec { log.new.rec ≡ log.old.rec }
    ensures geometry { log.new.geometry ≡ log.old.geometry }
    ensures blocks { M.blocks log.new.machine ≡ M.blocks log.old.machine }
    ensures faults { HasCause (M.faults log.old.machine) (M.faults log.new.machine) result }
    ensures write_faults { HasCause (M.write_faults log.old.machine)
        (M.write_faults log.new.machine) result }
    ensures say_faults { M.say_faults log.new.machine ≡ M.say_faults log.old.machine }
{
    match log.write_unit(unit, &[]) {
        UnitAnswer::Written { .. } => Ok(()),
        UnitAnswer::DiskFault => Err(Failed),
        UnitAnswer::LogFull | UnitAnswer::Memory => unreachable!(),
    }
}

/// Writes the first tables and record 1 behind the root's inode.
fn write_tables<M: Machine>(
    log: &mut Log<M>,
    alloc: Global,
    tables: &[Block],
    next: &Record,
) -> Result<(), MkfsError>
    requires limits { IsWithinLimits log.old.geometry }
    requires at { log.old.at ≡ rooted_position }
    requires rec { log.old.rec ≡ before_first log.old.geometry }
    requires tables { let first = first_tables log.old.geometry in
        bytes_of_tables tables.now ≡ contents_of_tables log.old.geometry first }
    requires next { next.now ≡ before_first log.old.geometry }
    ensures founded { OnOk result
        (Ends (M.history log.old.machine) (M.history log.new.machine)
        (Leads (IsRooted log.old.geometry) (IsFounded log.old.geometry))) }
    ensures crash { let blocks = M.blocks log.old.machine in
        Runs (M.history log.old.machine) (M.history log.new.machine)
        (LeavesNoLabel (IsRooted log.old.geometry) blocks log.old.geometry) }
    ensures silent { Runs (M.history log.old.machine) (M.history log.new.machine) SaysNothing }
    ensures geometry { log.new.geometry ≡ log.old.geometry }
    ensures blocks { M.blocks log.new.machine ≡ M.blocks log.old.machine }
    ensures faults { answers.HasCauseIn (M.faults log.old.machine)
        (M.faults log.new.machine) result }
    ensures write_faults { answers.HasCauseIn (M.write_faults log.old.machine)
        (M.write_faults log.new.machine) result }
    ensures say_faults { M.say_faults log.new.machine ≡ M.say_faults log.old.machine }
{
    match log.checkpoint(alloc, tables, next, &[]) {
        UnitAnswer::Written { .. } => Ok(()),
        UnitAnswer::DiskFault => Err(MkfsError::DiskFault),
        UnitAnswer::Memory => Err(MkfsError::Memory),
        UnitAnswer::LogFull => unreachable!(),
    }
}

/// Writes the root's inode, and then the tables and record 1, into a log that was just opened.
fn fill_log<M: Machine>(
    log: &mut Log<M>,
    alloc: Global,
    unit: &Unit,
    tables: &[Block],
    next: &Record,
) -> Result<(), MkfsError>
    requires limits { IsWithinLimits log.old.geometry }
    requires at { log.old.at ≡ opened_position }
    requires rec { log.old.rec ≡ before_first log.old.geometry }
    requires unit { unit_of unit.now ≡ root_unit }
    requires tables { let first = first_tables log.old.geometry in
        bytes_of_tables tables.now ≡ contents_of_tables log.old.geometry first }
    requires next { next.now ≡ before_first log.old.geometry }
    ensures founded { OnOk result
        (Ends (M.history log.old.machine) (M.history log.new.machine)
        (Leads (IsBlank log.old.geometry) (IsFounded log.old.geometry))) }
    ensures crash { let blocks = M.blocks log.old.machine in
        Runs (M.history log.old.machine) (M.history log.new.machine)
        (LeavesNoLabel (IsBlank log.old.geometry) blocks log.old.geometry) }
    ensures silent { Runs (M.history log.old.machine) (M.history log.new.machine) SaysNothing }
    ensures blocks { M.blocks log.new.machine ≡ M.blocks log.old.machine }
    ensures faults { answers.HasCauseIn (M.faults log.old.machine)
        (M.faults log.new.machine) result }
    ensures write_faults { answers.HasCauseIn (M.write_faults log.old.machine)
        (M.write_faults log.new.machine) result }
    ensures say_faults { M.say_faults log.new.machine ≡ M.say_faults log.old.machine }
{
    match write_root(log, unit) {
        Ok(()) => write_tables(log, alloc, tables, next),
        Err(Failed) => Err(MkfsError::DiskFault),
    }
}

/// Opens the log over its first block of zeros, and founds the site in it.
pub(crate) fn found<M: Machine>(
    alloc: Global,
    machine: M,
    geometry: &Geometry,
    supplies: Supplies,
) -> Result<M, (MkfsError, M)>
    requires room { site_blocks geometry.now ≤ M.blocks machine }
    requires supplies { AreSupplies geometry.now supplies }
    ensures founded { IfOk result (λ m. Ends (M.history machine) (M.history m)
        (Leads (IsBlank geometry.now) (IsFounded geometry.now))) }
    ensures crash { Runs (M.history machine) (M.history (answers.machine_of result))
        (LeavesNoLabel (IsBlank geometry.now) (M.blocks machine) geometry.now) }
    ensures silent { Runs (M.history machine)
        (M.history (answers.machine_of result)) SaysNothing }
    ensures blocks { M.blocks (answers.machine_of result) ≡ M.blocks machine }
    ensures faults { answers.HasCause M.faults machine result }
    ensures write_faults { answers.HasCause M.write_faults machine result }
    ensures say_faults { M.say_faults (answers.machine_of result) ≡ M.say_faults machine }
{
    let Supplies {
        start,
        next,
        unit,
        tables,
    } = supplies;
    match Log::open(alloc, machine, geometry, start, (1, 0), 1) {
        Err((AllocError, machine)) => Err((MkfsError::Memory, machine)),
        Ok(mut log) => match fill_log(&mut log, alloc, &unit, tables.as_slice(), &next) {
            Ok(()) => Ok(log.into_machine()),
            Err(why) => Err((why, log.into_machine())),
        },
    }
}
