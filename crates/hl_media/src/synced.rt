//! A write that a stop can't undo.

ghost use Rattle.std.specs.Prelude.{◌≡◌, ◌≤◌, ◌+◌, ◌/◌, length};
ghost use Rattle.hl_media.specs.History.{IsWhole};
ghost use Rattle.hl_media.specs.Causes.{HasCause};
ghost use Rattle.hl_media.specs.Synced.{AddsSyncedWrite};

use crate::failed::Failed;
use crate::machine::Machine;

/// Writes the blocks from `at` on, and syncs.
pub fn write_synced<M: Machine>(machine: &mut M, at: u32, bytes: &[u8]) -> Result<(), Failed>
    requires whole { IsWhole bytes.now }
    requires within { at + length bytes.now / 4096 ≤ M.blocks machine.old }
    ensures did { AddsSyncedWrite (M.history machine.old) (M.history machine.new) at bytes.now result }
    ensures blocks { M.blocks machine.new ≡ M.blocks machine.old }
    ensures faults { HasCause (M.faults machine.old) (M.faults machine.new) result }
    ensures write_faults { HasCause (M.write_faults machine.old) (M.write_faults machine.new) result }
    ensures say_faults { M.say_faults machine.new ≡ M.say_faults machine.old }
{
    machine.write(at, bytes)?;
    machine.sync()
}
