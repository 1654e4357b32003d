//! The forms of the command line, and the lines that are said where none is done.

ghost use Rattle.std.specs.Prelude.{◌≡◌, ◌↔◌, ◌++◌, map, string_bytes, IsTrue, OnOk};
ghost use Rattle.hl_media.specs.Causes.{HasCause, Rose};
ghost use Rattle.hl_media.specs.Moments.{Ends};
ghost use Rattle.hl_run.specs.Command.{IsRun, IsMkfs, usage_text, small_text, made_text};
ghost use Rattle.hl_run.specs.Run.{SaysAlone};

use hl_media::{Failed, Machine};

/// How the program is called.
pub const USAGE: &[u8] = b"usage: highlight mkfs | run | check | make SEED COUNT | crew\n";

/// The disk has fewer blocks than it needs.
pub const SMALL: &[u8] = b"bad site small 2112\n";

/// A disk is made.
pub const MADE: &[u8] = b"made\n";

/// Whether these are the words of `run`.
pub fn is_run(words: &[String]) -> bool
    ensures { IsTrue result ↔ IsRun (map string_bytes words.now) }
{
    match words {
        [word] => word.as_str() == "run",
        _ => false,
    }
}

/// Whether these are the words of `mkfs`.
pub fn is_mkfs(words: &[String]) -> bool
    ensures { IsTrue result ↔ IsMkfs (map string_bytes words.now) }
{
    match words {
        [word] => word.as_str() == "mkfs",
        _ => false,
    }
}

/// Says a line, as far as that can be said, where nothing else was said or done but to read.
pub fn say_alone<M: Machine>(machine: &mut M, text: &[u8]) -> Result<(), Failed>
    ensures says { SaysAlone (Rose (M.say_faults machine.old) (M.say_faults machine.new)) text.now (M.history machine.old) (M.history machine.new) }
    ensures whole { OnOk result (Ends (M.history machine.old) (M.history machine.new) (λ first s. s.said ≡ first.said ++ text.now)) }
    ensures blocks { M.blocks machine.new ≡ M.blocks machine.old }
    ensures faults { M.faults machine.new ≡ M.faults machine.old }
    ensures write_faults { M.write_faults machine.new ≡ M.write_faults machine.old }
    ensures say_faults { HasCause (M.say_faults machine.old) (M.say_faults machine.new) result }
{
    machine.say(text)
}
