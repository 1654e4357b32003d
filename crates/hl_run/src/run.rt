//! A run over the lines of an input.

ghost use Rattle.std.specs.Prelude.{◌≡◌, ◌≤◌, IfSome};
ghost use Rattle.hl_media.specs.Causes.{Rose};
ghost use Rattle.hl_media.specs.Moments.{Runs};
ghost use Rattle.hl_world.specs.Worlds.{IsReady};
ghost use Rattle.hl_run.specs.Run.{IsClocked, RanBy, input_limit};
ghost use Rattle.hl_run.specs.Runs.{OpensAs, LeavesLines};
ghost use Rattle.hl_dump.specs.Dumps.{dump_limits};
ghost use Rattle.hl_run.specs.Turn.{held};

use crate::end::End;
use crate::turn::turn;
use hl_media::{Clock, Machine, Source};
use hl_script::Lines;
use hl_world::World;
use std::alloc::Global;

/// The most bytes of an input.
const INPUT_LIMIT: u64 = 4_294_967_296;

/// Does the lines of the input, one after another, and says their answers.
pub fn run<S: Source, M: Machine, C: Clock>(
    alloc: Global,
    world: &mut World<M>,
    input: &mut S,
    clock: &mut C,
) -> End
    requires room { 2112 ≤ M.blocks world.old.machine }
    requires ready { IsReady world.old }
    requires opens { OpensAs (M.blocks world.old.machine) (M.history world.old.machine) (held world.old) }
    ensures ready { IsReady world.new }
    ensures ran { IfSome (S.left input.old) (λ bytes. RanBy Runs (Rose (M.say_faults world.old.machine) (M.say_faults world.new.machine)) (Rose (M.write_faults world.old.machine) (M.write_faults world.new.machine))
        (LeavesLines (M.blocks world.old.machine) (held world.old) (held world.new) (M.history world.old.machine) (M.history world.new.machine) result)
        (IsClocked (C.times clock.old) (C.times clock.new) result)
        (M.blocks world.old.machine) dump_limits input_limit world.old.files.tree bytes result (M.history world.old.machine) (M.history world.new.machine)) }
    ensures blocks { M.blocks world.new.machine ≡ M.blocks world.old.machine }
    ensures input { result ≡ End.Input → Rose (S.faults input.old) (S.faults input.new) }
    ensures input_later { S.faults input.old ≤ S.faults input.new }
    ensures output { result ≡ End.Output → Rose (M.say_faults world.old.machine) (M.say_faults world.new.machine) }
    ensures output_later { M.say_faults world.old.machine ≤ M.say_faults world.new.machine }
    ensures broken { result ≡ End.Broken → Rose (M.faults world.old.machine) (M.faults world.new.machine) }
    ensures disk_later { (M.faults world.old.machine ≤ M.faults world.new.machine) × (M.write_faults world.old.machine ≤ M.write_faults world.new.machine) }
{
    let mut lines = match Lines::new(alloc, INPUT_LIMIT) {
        Ok(lines) => lines,
        Err(_) => return End::Memory,
    };
    let mut n: u64 = 1;
    'turns: loop {
        match turn(alloc, &mut lines, world, input, clock, n) {
            Ok(true) => n += 1,
            Ok(false) => return End::Finished,
            Err(end) => return end,
        }
    }
}
