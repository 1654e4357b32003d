//! One line, done and answered.

ghost use Rattle.std.specs.Prelude.{◌≡◌, ◌≢◌, ◌≤◌, ◌<◌, IsTrue, OnOk, IfOk, Err};
ghost use Rattle.hl_media.specs.Causes.{HasCause, Rose};
ghost use Rattle.hl_media.specs.Moments.{Runs};
ghost use Rattle.hl_media.specs.Saying.{Says};
ghost use Rattle.hl_disk.specs.Saves.{IsSaving};
ghost use Rattle.hl_script.specs.declared.line.Line.{Line};
ghost use Rattle.hl_world.specs.Worlds.{IsReady, is_eio as is_eio_answer};
ghost use Rattle.hl_run.specs.Clocks.{AsksFor};
ghost use Rattle.hl_run.specs.Run.{IsBad};
ghost use Rattle.hl_run.specs.Turn.{Answers, SaysOrFails, Tells, held};

use crate::end::End;
use crate::served::is_served;
use hl_media::{Clock, Failed, Machine};
use hl_script::{BadLine, Said, print_answer, read_line};
use hl_world::World;
use std::alloc::Global;

/// The text of an answer, and whether it is that the disk failed.
#[derive(Drop)]
pub struct Told {
    pub text: Vec<u8>,
    pub broken: bool,
}

/// Does the line that has these bytes, and gives the text of its answer. The clock is asked once, before the line is done.
pub fn answer<M: Machine, C: Clock>(
    alloc: Global,
    world: &mut World<M>,
    clock: &mut C,
    bytes: &[u8],
) -> Result<Told, BadLine>
    requires room { 2112 ≤ M.blocks world.old.machine }
    requires ready { IsReady world.old }
    ensures ready { IsReady world.new }
    ensures ok { IfOk result (λ a. (line : Line) × Answers (M.blocks world.old.machine) (held world.old) (held world.new) bytes.now a.text.items a.broken
        (M.history world.old.machine) (M.history world.new.machine) line) }
    ensures bad { result ≡ Err BadLine.Bad → IsBad bytes.now × (world.new ≡ world.old) }
    ensures saving { Runs (M.history world.old.machine) (M.history world.new.machine) (IsSaving (M.blocks world.old.machine) world.old.number world.old.files.tree) }
    ensures broken { IfOk result (λ a. IsTrue a.broken → Rose (M.faults world.old.machine) (M.faults world.new.machine) × Rose (M.write_faults world.old.machine) (M.write_faults world.new.machine)) }
    ensures later { (M.faults world.old.machine ≤ M.faults world.new.machine) × (M.write_faults world.old.machine ≤ M.write_faults world.new.machine) }
    ensures clock { AsksFor (C.times clock.old) (C.times clock.new) world.new.time result }
    ensures blocks { M.blocks world.new.machine ≡ M.blocks world.old.machine }
    ensures say_faults { M.say_faults world.new.machine ≡ M.say_faults world.old.machine }
{
    let line = read_line(alloc, bytes)?;
    if !is_served(&line) {
        return Err(BadLine::Bad);
    }
    let now = clock.now();
    let said = world.line(alloc, &line, now);
    if said.is_memory() {
        return Err(BadLine::Memory);
    }
    let mut text = Vec::new(alloc);
    print_answer(alloc, &said, &mut text)?;
    let broken = is_eio(&said);
    Ok(Told { text, broken })
}

/// Whether the answer is that the disk failed.
fn is_eio(said: &Said) -> bool
    ensures { result ≡ is_eio_answer said.now }
{
    matches!(said, Said::Eio)
}

/// Says an answer. A line that the disk failed ends the run, whether or not that could be said.
pub fn tell<M: Machine>(world: &mut World<M>, told: &Told) -> Result<bool, End>
    ensures tells { Tells (Rose (M.say_faults world.old.machine) (M.say_faults world.new.machine)) told.now.text.items told.now.broken
        (M.history world.old.machine) (M.history world.new.machine) result }
    ensures held { held world.new ≡ held world.old }
    ensures output { result ≡ Err End.Output → Rose (M.say_faults world.old.machine) (M.say_faults world.new.machine) }
    ensures later { M.say_faults world.old.machine ≤ M.say_faults world.new.machine }
    ensures blocks { M.blocks world.new.machine ≡ M.blocks world.old.machine }
    ensures faults { M.faults world.new.machine ≡ M.faults world.old.machine }
    ensures write_faults { M.write_faults world.new.machine ≡ M.write_faults world.old.machine }
{
    let said = world.say(&told.text);
    if told.broken {
        return Err(End::Broken);
    }
    match said {
        Ok(()) => Ok(true),
        Err(Failed) => Err(End::Output),
    }
}
