//! The command `mkfs`.

ghost use Rattle.std.specs.Prelude.{◌≡◌, ◌≤◌};
ghost use Rattle.hl_media.specs.Causes.{Rose};
ghost use Rattle.hl_run.specs.Makes.{Makes, status_of_making};

use crate::command::{MADE, say_alone};
use hl_disk::format;
use hl_media::{Failed, Machine};

/// What making a disk came to.
#[derive(Clone, Copy, Debug, PartialEq, Eq)]
pub enum Making {
    /// The disk is made, and that was said.
    Made,
    /// The disk is made, and that couldn't be said.
    Unsaid,
    /// A write or a sync failed.
    Faulted,
}

impl Making {
    /// The status that the program ends with.
    pub fn status(self) -> u8
        ensures { result ≡ status_of_making self }
    {
        match self {
            Making::Made => 0,
            Making::Faulted => 5,
            Making::Unsaid => 6,
        }
    }
}

/// Makes a disk that holds the root alone, and says so.
pub fn make_disk<M: Machine>(machine: &mut M) -> Making
    requires room { 2112 ≤ M.blocks machine.old }
    ensures makes { Makes (M.blocks machine.old) (M.history machine.old) (M.history machine.new) result }
    ensures unsaid { result ≡ Making.Unsaid → Rose (M.say_faults machine.old) (M.say_faults machine.new) }
    ensures faulted { result ≡ Making.Faulted → Rose (M.faults machine.old) (M.faults machine.new) × Rose (M.write_faults machine.old) (M.write_faults machine.new) }
    ensures blocks { M.blocks machine.new ≡ M.blocks machine.old }
    ensures output_later { M.say_faults machine.old ≤ M.say_faults machine.new }
    ensures disk_later { (M.faults machine.old ≤ M.faults machine.new) × (M.write_faults machine.old ≤ M.write_faults machine.new) }
{
    match format(machine) {
        Ok(()) => match say_alone(machine, MADE) {
            Ok(()) => Making::Made,
            Err(Failed) => Making::Unsaid,
        },
        Err(Failed) => Making::Faulted,
    }
}
