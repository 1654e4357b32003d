//! Making a site: until its label is under way the disk has none.

ghost use Rattle.std.specs.Prelude.{◌≡◌, ◌≤◌, IfOk};
ghost use Rattle.hl_media.specs.Moments.{Ends, Now, Runs};
ghost use Rattle.hl_log.specs.Logs.{site_blocks};
ghost use Rattle.hl_log.specs.Rest.{SaysNothing};
ghost use Rattle.hl_mkfs.specs.Answers.{HasCause, machine_of};
ghost use Rattle.hl_mkfs.specs.Parts.{AreSupplies};
ghost use Rattle.hl_mkfs.specs.Stages.{IsBare, IsFounded, Leads, LeavesNoneOrNew};
ghost use Rattle.hl_mkfs.specs.Stops.{IsMade, Makes};

use crate::first_log::found;
use crate::start::{clear_log, put_label};
use crate::supplies::{Supplies, take_supplies};
use hl_addr::Geometry;
use hl_bytes::BLOCK;
use hl_media::{Failed, Machine, write_synced};
use std::alloc::{AllocError, Global};

/// Why a site isn't made.
#[derive(Clone, Copy, Debug, PartialEq, Eq)]
pub enum MkfsError {
    /// A write or a sync failed.
    DiskFault,
    /// Memory was wanting; no call failed.
    Memory,
}

/// Puts the label, with which the site is made.
fn finish<M: Machine>(machine: M, geometry: &Geometry) -> Result<M, (MkfsError, M)>
    requires { site_blocks geometry.now ≤ M.blocks machine }
    ensures made { IfOk result (λ m. Ends (M.history machine) (M.history m)
        (Leads (IsFounded geometry.now) (IsMade (M.blocks machine) geometry.now))) }
    ensures crash { Runs (M.history machine) (M.history (machine_of result))
        (LeavesNoneOrNew (IsFounded geometry.now) (M.blocks machine) geometry.now) }
    ensures silent { Runs (M.history machine) (M.history (machine_of result)) SaysNothing }
    ensures blocks { M.blocks (machine_of result) ≡ M.blocks machine }
    ensures faults { HasCause M.faults machine result }
    ensures write_faults { HasCause M.write_faults machine result }
    ensures say_faults { M.say_faults (machine_of result) ≡ M.say_faults machine }
{
    let mut machine = machine;
    match put_label(&mut machine, geometry) {
        Ok(()) => Ok(machine),
        Err(Failed) => Err((MkfsError::DiskFault, machine)),
    }
}

/// Makes the log and the label, where the blocks of the label and of the records are zeros.
fn build<M: Machine>(
    alloc: Global,
    machine: M,
    geometry: &Geometry,
    supplies: Supplies,
) -> Result<M, (MkfsError, M)>
    requires room { site_blocks geometry.now ≤ M.blocks machine }
    requires supplies { AreSupplies geometry.now supplies }
    ensures made { IfOk result (λ m. Ends (M.history machine) (M.history m)
        (Leads IsBare (IsMade (M.blocks machine) geometry.now))) }
    ensures crash { Runs (M.history machine) (M.history (machine_of result))
        (LeavesNoneOrNew IsBare (M.blocks machine) geometry.now) }
    ensures silent { Runs (M.history machine) (M.history (machine_of result)) SaysNothing }
    ensures blocks { M.blocks (machine_of result) ≡ M.blocks machine }
    ensures faults { HasCause M.faults machine result }
    ensures write_faults { HasCause M.write_faults machine result }
    ensures say_faults { M.say_faults (machine_of result) ≡ M.say_faults machine }
{
    let mut machine = machine;
    if let Err(Failed) = clear_log(&mut machine, geometry) {
        return Err((MkfsError::DiskFault, machine));
    }
    match found(alloc, machine, geometry, supplies) {
        Ok(machine) => finish(machine, geometry),
        Err(refused) => Err(refused),
    }
}

/// Makes a site that holds the root alone, whatever was there. In this order, each with its sync, it writes zeros in
/// blocks 0, 1 and 2; zeros in the first block of log segment 1; the root's inode, which comes to block `k + 1`; the table
/// parts behind it, and record 1; and last the label. From the first of these syncs on a stop leaves a disk without a label,
/// or the site with its root. Reads nothing. Memory for what it writes is taken before the first write, and for the log
/// once the zeros are there. The machine has the site's blocks, and is handed back in any case.
pub fn mkfs<M: Machine>(alloc: Global, machine: M, geometry: &Geometry) -> Result<M, (MkfsError, M)>
    requires { site_blocks geometry.now ≤ M.blocks machine }
    ensures made { IfOk result (λ m. Now (M.history m) (IsMade (M.blocks m) geometry.now)) }
    ensures moments { Makes (M.blocks machine) geometry.now (M.history machine)
        (M.history (machine_of result)) }
    ensures silent { Runs (M.history machine) (M.history (machine_of result)) SaysNothing }
    ensures blocks { M.blocks (machine_of result) ≡ M.blocks machine }
    ensures faults { HasCause M.faults machine result }
    ensures write_faults { HasCause M.write_faults machine result }
    ensures say_faults { M.say_faults (machine_of result) ≡ M.say_faults machine }
{
    let Ok(supplies) = take_supplies(alloc, geometry) else {
        return Err((MkfsError::Memory, machine));
    };
    let mut machine = machine;
    if let Err(Failed) = write_synced(&mut machine, 0, &[0; 3 * BLOCK]) {
        return Err((MkfsError::DiskFault, machine));
    }
    build(alloc, machine, geometry, supplies)
}
