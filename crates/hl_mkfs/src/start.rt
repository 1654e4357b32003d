//! The disk's first blocks: zeros before there is a log, and the label once there is.

ghost use Rattle.std.specs.Prelude.{◌≡◌, ◌≤◌, OnOk};
ghost use Rattle.hl_addr.specs.Layout.{IsWithinLimits};
ghost use Rattle.hl_super.specs.Labels.{IsLabel};
ghost use Rattle.hl_image.specs.Newest.{label_of};
ghost use Rattle.hl_media.specs.Causes.{HasCause};
ghost use Rattle.hl_media.specs.Moments.{Ends, Runs};
ghost use Rattle.hl_log.specs.Logs.{site_blocks};
ghost use Rattle.hl_log.specs.Rest.{SaysNothing};
ghost use Rattle.hl_mkfs.specs.Stages.{IsBare, IsBlank, IsFounded, Leads, LeavesNoLabel, LeavesNoneOrNew};
ghost use Rattle.hl_mkfs.specs.Stops.{IsMade};

use hl_addr::Geometry;
use hl_bytes::BLOCK;
use hl_media::{Failed, Machine, write_synced};
use hl_super::{Label, encode_label};

/// The first block of the log.
fn first_block(geometry: &Geometry) -> u32
    ensures value { result ≡ geometry.now.k }
    ensures limits { IsWithinLimits geometry.now }
{
    geometry.k
}

/// The label of a site.
fn label_of(geometry: &Geometry) -> Label
    ensures value { result ≡ label_of geometry.now }
    ensures limits { IsLabel result }
{
    Label {
        k: geometry.k,
        log: geometry.log,
        lines: geometry.lines,
        inodes: geometry.inodes,
    }
}

/// Zeros in the first block of the log.
pub(crate) fn clear_log<M: Machine>(machine: &mut M, geometry: &Geometry) -> Result<(), Failed>
    requires { site_blocks geometry.now ≤ M.blocks machine.old }
    ensures blank { OnOk result (Ends (M.history machine.old) (M.history machine.new)
        (Leads IsBare (IsBlank geometry.now))) }
    ensures crash { Runs (M.history machine.old) (M.history machine.new)
        (LeavesNoLabel IsBare (M.blocks machine.old) geometry.now) }
    ensures silent { Runs (M.history machine.old) (M.history machine.new) SaysNothing }
    ensures blocks { M.blocks machine.new ≡ M.blocks machine.old }
    ensures faults { HasCause (M.faults machine.old) (M.faults machine.new) result }
    ensures write_faults { HasCause (M.write_faults machine.old)
        (M.write_faults machine.new) result }
    ensures say_faults { M.say_faults machine.new ≡ M.say_faults machine.old }
{
    write_synced(machine, first_block(geometry), &[0; BLOCK])
}

/// The label, with which the site is made.
pub(crate) fn put_label<M: Machine>(machine: &mut M, geometry: &Geometry) -> Result<(), Failed>
    requires { site_blocks geometry.now ≤ M.blocks machine.old }
    ensures made { OnOk result (Ends (M.history machine.old) (M.history machine.new)
        (Leads (IsFounded geometry.now) (IsMade (M.blocks machine.old) geometry.now))) }
    ensures crash { Runs (M.history machine.old) (M.history machine.new)
        (LeavesNoneOrNew (IsFounded geometry.now) (M.blocks machine.old) geometry.now) }
    ensures silent { Runs (M.history machine.old) (M.history machine.new) SaysNothing }
    ensures blocks { M.blocks machine.new ≡ M.blocks machine.old }
    ensures faults { HasCause (M.faults machine.old) (M.faults machine.new) result }
    ensures write_faults { HasCause (M.write_faults machine.old)
        (M.write_faults machine.new) result }
    ensures say_faults { M.say_faults machine.new ≡ M.say_faults machine.old }
{
    let mut block = [0; BLOCK];
    encode_label(&label_of(geometry), &mut block);
    write_synced(machine, 0, &block)
}
