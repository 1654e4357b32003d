//! One turn of a run: a line is read, done and answered.

ghost use Rattle.std.specs.Prelude.{◌≡◌, ◌≤◌, ◌<◌, IsTrue, OnOk, OnErr, IfOk, IfSome, Err};
ghost use Rattle.std.specs.Io.KnownBytes.{prepend_known};
ghost use Rattle.hl_media.specs.Causes.{Rose};
ghost use Rattle.hl_world.specs.Worlds.{IsReady};
ghost use Rattle.hl_run.specs.Clocks.{Asks};
ghost use Rattle.hl_run.specs.Run.{bad_text};
ghost use Rattle.hl_run.specs.Turn.{SaysOrFails, Turns, held};

use crate::answering::{answer, tell};
use crate::end::End;
use hl_media::{Clock, Machine, Source};
use hl_script::{BadLine, LineFault, Lines};
use hl_world::World;
use itoa::Buffer;
use std::alloc::{AllocError, Global};

fn bad_line(alloc: Global, n: u64) -> Result<Vec<u8>, AllocError>
    ensures { IfOk result (λ text. text.items ≡ bad_text n) }
{
    let mut text = Vec::from_slice(alloc, b"bad line ")?;
    let mut buffer = Buffer::new();
    text.extend_from_slice(buffer.format(n).as_bytes())?;
    text.extend_from_slice(b"\n")?;
    Ok(text)
}

/// Says which line is bad, as far as that can be said.
fn say_bad<M: Machine>(alloc: Global, world: &mut World<M>, n: u64) -> Result<(), AllocError>
    ensures ok { OnOk result (SaysOrFails (Rose (M.say_faults world.old.machine) (M.say_faults world.new.machine))
        (M.history world.old.machine) (M.history world.new.machine) (bad_text n)) }
    ensures err { OnErr result (M.history world.new.machine ≡ M.history world.old.machine) }
    ensures held { held world.new ≡ held world.old }
    ensures blocks { M.blocks world.new.machine ≡ M.blocks world.old.machine }
    ensures faults { M.faults world.new.machine ≡ M.faults world.old.machine }
    ensures write_faults { M.write_faults world.new.machine ≡ M.write_faults world.old.machine }
    ensures later { M.say_faults world.old.machine ≤ M.say_faults world.new.machine }
{
    let text = bad_line(alloc, n)?;
    let _ = world.say(&text);
    Ok(())
}

/// Takes the next line of the input, which has the number `n`, does it and says its answer; false where the input has
/// ended.
pub fn turn<S: Source, M: Machine, C: Clock>(
    alloc: Global,
    lines: &mut Lines,
    world: &mut World<M>,
    input: &mut S,
    clock: &mut C,
    n: u64,
) -> Result<bool, End>
    requires room { 2112 ≤ M.blocks world.old.machine }
    requires ready { IsReady world.old }
    ensures ready { IsReady world.new }
    ensures turns { IfSome (prepend_known lines.old.held (S.left input.old)) (λ bytes.
        Turns (Rose (M.say_faults world.old.machine) (M.say_faults world.new.machine)) (M.blocks world.old.machine) n lines.old lines.new (held world.old) (held world.new)
        bytes (prepend_known lines.new.held (S.left input.new)) (M.history world.old.machine) (M.history world.new.machine) result) }
    ensures blocks { M.blocks world.new.machine ≡ M.blocks world.old.machine }
    ensures progress { IfOk result (λ more. IsTrue more → lines.old.used < lines.new.used) }
    ensures counted { IfOk result (λ _. lines.new.used ≤ lines.new.limit) }
    ensures limit { lines.new.limit ≡ lines.old.limit }
    ensures input { result ≡ Err End.Input → Rose (S.faults input.old) (S.faults input.new) }
    ensures input_later { S.faults input.old ≤ S.faults input.new }
    ensures output { result ≡ Err End.Output → Rose (M.say_faults world.old.machine) (M.say_faults world.new.machine) }
    ensures output_later { M.say_faults world.old.machine ≤ M.say_faults world.new.machine }
    ensures broken { result ≡ Err End.Broken → Rose (M.faults world.old.machine) (M.faults world.new.machine) × Rose (M.write_faults world.old.machine) (M.write_faults world.new.machine) }
    ensures disk_later { (M.faults world.old.machine ≤ M.faults world.new.machine) × (M.write_faults world.old.machine ≤ M.write_faults world.new.machine) }
    ensures others { result ≡ Err End.Finished → ⊥ }
    ensures clock { Asks (C.times clock.old) (C.times clock.new) world.new.time result }
{
    let mut bytes = Vec::new(alloc);
    match lines.next(alloc, input, &mut bytes) {
        Ok(true) => {}
        Ok(false) => return Ok(false),
        Err(LineFault::Input) => return Err(End::Input),
        Err(LineFault::TooLong) => return Err(End::TooLong),
        Err(LineFault::Memory) => return Err(End::Memory),
    }
    match answer(alloc, world, clock, &bytes) {
        Ok(told) => tell(world, &told),
        Err(BadLine::Memory) => Err(End::Memory),
        Err(BadLine::Bad) => match say_bad(alloc, world, n) {
            Ok(()) => Err(End::BadLine),
            Err(_) => Err(End::Memory),
        },
    }
}
