//! One block of a disk.

ghost use Rattle.std.specs.Prelude.{◌≡◌, ◌<◌, OnOk, length};
ghost use Rattle.hl_media.specs.Causes.{HasCause};
ghost use Rattle.hl_media.specs.Moments.{Now};
ghost use Rattle.hl_log.specs.Logs.{OnlyReads};

use hl_media::{Failed, Machine};

/// Reads a block.
pub(crate) fn read_block<M: Machine>(machine: &mut M, at: u32, out: &mut [u8]) -> Result<(), Failed>
    requires size { length out.old ≡ 4096 }
    requires within { at < M.blocks machine.old }
    ensures bytes { OnOk result (Now (M.history machine.old) (λ s. s.content at ≡ out.new)) }
    ensures size { length out.new ≡ 4096 }
    ensures machine { OnlyReads M.history M.blocks M.faults M.write_faults M.say_faults
        machine.old machine.new }
    ensures fault { HasCause (M.faults machine.old) (M.faults machine.new) result }
{
    machine.read(at, out)
}
