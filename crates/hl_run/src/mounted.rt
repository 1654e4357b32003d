//! The command `run`.

ghost use Rattle.std.specs.Prelude.{◌≡◌, ◌≤◌};
ghost use Rattle.hl_media.specs.Causes.{Rose};
ghost use Rattle.hl_run.specs.Command.{small_text};
ghost use Rattle.hl_run.specs.Run.{CameTo, SaysAlone, status_of, refusal_text};

use crate::command::say_alone;
use crate::end::Finish;
use crate::run::run;
use hl_media::{Clock, Machine, Source};
use hl_world::{MountError, World};
use std::alloc::Global;

/// Says why a disk isn't mounted. A fault and want of memory say nothing.
fn say_refusal<M: Machine>(machine: &mut M, why: MountError)
    ensures says { SaysAlone (Rose (M.say_faults machine.old) (M.say_faults machine.new)) (refusal_text why) (M.history machine.old) (M.history machine.new) }
    ensures blocks { M.blocks machine.new ≡ M.blocks machine.old }
    ensures faults { M.faults machine.new ≡ M.faults machine.old }
    ensures write_faults { M.write_faults machine.new ≡ M.write_faults machine.old }
    ensures later { M.say_faults machine.old ≤ M.say_faults machine.new }
{
    match why {
        MountError::NoLabel => {
            let _ = say_alone(machine, b"no label\n");
        }
        MountError::NoRecord => {
            let _ = say_alone(machine, b"no record\n");
        }
        MountError::DiskFault | MountError::Memory => {}
    }
}

/// Mounts the disk, does the lines of the input, and keeps the files on the disk where the end owes that.
pub fn run_mounted<S: Source, M: Machine, C: Clock>(
    alloc: Global,
    machine: M,
    input: &mut S,
    clock: &mut C,
) -> (Finish, M)
    requires room { 2112 ≤ M.blocks machine }
    ensures came { CameTo (Rose (M.say_faults machine) (M.say_faults result.1)) (Rose (M.write_faults machine) (M.write_faults result.1)) (M.blocks machine)
        (S.left input.old) (C.times clock.old) (C.times clock.new) (M.history machine) (M.history result.1) result.0 }
    ensures blocks { M.blocks result.1 ≡ M.blocks machine }
    ensures input { status_of result.0 ≡ 7 → Rose (S.faults input.old) (S.faults input.new) }
    ensures input_later { S.faults input.old ≤ S.faults input.new }
    ensures output { status_of result.0 ≡ 6 → Rose (M.say_faults machine) (M.say_faults result.1) }
    ensures output_later { M.say_faults machine ≤ M.say_faults result.1 }
    ensures disk { status_of result.0 ≡ 5 → Rose (M.faults machine) (M.faults result.1) }
    ensures disk_later { (M.faults machine ≤ M.faults result.1) × (M.write_faults machine ≤ M.write_faults result.1) }
{
    let mut world = match World::mount(alloc, machine) {
        Ok(world) => world,
        Err((why, mut machine)) => {
            say_refusal(&mut machine, why);
            return (Finish::Refused(why), machine);
        }
    };
    let end = run(alloc, &mut world, input, clock);
    if !end.closes() {
        return (Finish::Ended(end), world.leave());
    }
    match world.close(alloc) {
        (Ok(()), machine) => (Finish::Ended(end), machine),
        (Err(why), machine) => (Finish::Unclosed(end, why), machine),
    }
}
