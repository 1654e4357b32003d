//! The top call.

ghost use Rattle.std.specs.Prelude.{◌≡◌, ◌⊎◌, ◌↔◌, ◌≤◌, ◌<◌, map, string_bytes};
ghost use Rattle.hl_media.specs.Causes.{Rose};
ghost use Rattle.hl_run.specs.Command.{IsForm, IsMkfs, IsRun, small_text, usage_text};
ghost use Rattle.hl_run.specs.Makes.{Makes, status_of_making};
ghost use Rattle.hl_run.specs.Run.{CameTo, SaysAlone, status_of};
ghost use Rattle.hl_run.specs.Scripts.{IsWhole};
ghost use Rattle.hl_run.specs.Statuses.{IsStatus};
ghost use Rattle.hl_run.specs.declared.end.Finish.{Finish};
ghost use Rattle.hl_run.specs.declared.making.Making.{Making};

use crate::command::{SMALL, USAGE, is_mkfs, is_run, say_alone};
use crate::ended::Ended;
use crate::making::make_disk;
use crate::mounted::run_mounted;
use hl_disk::DISK_BLOCKS;
use hl_media::{Clock, Machine, Rack, Source, Volume};
use std::alloc::Global;

/// Does what the words say, which come after the program's name. `mkfs` makes a disk that holds the root alone, reads
/// nothing, and says `made`. `run` mounts the disk, does the lines of the input one after another, says each answer before
/// the next line is read, and keeps the files on the disk before it ends.
///
/// The status is 0 where the input was read to its end and every answer was said, or the disk is made; 2 where the words are
/// none of the forms; 3 where a line is off the grammar or not served; 4 where the disk has no label or no record that
/// checks; 5 where the disk failed; 6 where the machine couldn't say; 7 where the input couldn't be read; 8 for want of
/// memory; 9 where the disk has fewer than 2,112 blocks; 10 where a line has more than 140,000 bytes or ends past
/// 4,294,967,296 bytes of the input. The first of these events ends the run; before 0, 3, 7 and 10 the files are kept
/// (`docs/PROMISES.md`, "A run"). The devices are handed back whatever it is.
pub fn highlight<S: Source, M: Machine, V: Volume, C: Clock>(
    alloc: Global,
    words: &[String],
    input: &mut S,
    mut machine: M,
    rack: Rack<V>,
    clock: &mut C,
) -> Ended<M, V>
    // Which status comes, and what it says of the input, the clock, the output and the disk, at each moment.
    ensures usage { (result.status ≡ 2) ↔ (IsForm (map string_bytes words.now) → ⊥) }
    ensures usage_said { result.status ≡ 2 → SaysAlone (Rose (M.say_faults machine) (M.say_faults result.machine)) usage_text (M.history machine) (M.history result.machine) }
    ensures small { IsForm (map string_bytes words.now) → (result.status ≡ 9) ↔ (M.blocks machine < 2112) }
    ensures small_said { result.status ≡ 9 → SaysAlone (Rose (M.say_faults machine) (M.say_faults result.machine)) small_text (M.history machine) (M.history result.machine) }
    ensures run { IsRun (map string_bytes words.now) → 2112 ≤ M.blocks machine → (finish : Finish) × (result.status ≡ status_of finish)
        × CameTo (Rose (M.say_faults machine) (M.say_faults result.machine)) (Rose (M.write_faults machine) (M.write_faults result.machine)) (M.blocks machine)
        (S.left input.old) (C.times clock.old) (C.times clock.new) (M.history machine) (M.history result.machine) finish }
    ensures mkfs { IsMkfs (map string_bytes words.now) → 2112 ≤ M.blocks machine → (making : Making) × (result.status ≡ status_of_making making)
        × Makes (M.blocks machine) (M.history machine) (M.history result.machine) making }
    ensures unasked { (IsRun (map string_bytes words.now) → ⊥) → C.times clock.new ≡ C.times clock.old }
    ensures statuses { IsStatus result.status }
    ensures complete { IsRun (map string_bytes words.now) → 2112 ≤ M.blocks machine → IsWhole (M.blocks machine) (S.left input.old) (M.history machine)
        → (Rose (M.faults machine) (M.faults result.machine) → ⊥) → (Rose (M.say_faults machine) (M.say_faults result.machine) → ⊥) → (Rose (S.faults input.old) (S.faults input.new) → ⊥)
        → (result.status ≡ 0) ⊎ (result.status ≡ 8) }
    // The causes of the faults.
    ensures output_cause { result.status ≡ 6 → Rose (M.say_faults machine) (M.say_faults result.machine) }
    ensures input_cause { result.status ≡ 7 → Rose (S.faults input.old) (S.faults input.new) }
    ensures disk_cause { result.status ≡ 5 → Rose (M.faults machine) (M.faults result.machine) }
    // What becomes of the devices.
    ensures rack { result.rack ≡ rack }
    ensures blocks { M.blocks result.machine ≡ M.blocks machine }
    ensures disk_later { (M.faults machine ≤ M.faults result.machine) × (M.write_faults machine ≤ M.write_faults result.machine) }
    ensures output_later { M.say_faults machine ≤ M.say_faults result.machine }
    ensures input_later { S.faults input.old ≤ S.faults input.new }
{
    let runs = is_run(words);
    if !runs && !is_mkfs(words) {
        let _ = say_alone(&mut machine, USAGE);
        return Ended {
            status: 2,
            machine,
            rack,
        };
    }
    if machine.blocks() < DISK_BLOCKS {
        let _ = say_alone(&mut machine, SMALL);
        return Ended {
            status: 9,
            machine,
            rack,
        };
    }
    if runs {
        let (finish, machine) = run_mounted(alloc, machine, input, clock);
        Ended {
            status: finish.status(),
            machine,
            rack,
        }
    } else {
        let making = make_disk(&mut machine);
        Ended {
            status: making.status(),
            machine,
            rack,
        }
    }
}
