//! A disk and an output, seen by the calls made of them.

ghost use Rattle.std.specs.Prelude.{◌≡◌, ◌≤◌, ◌+◌, ◌*◌, ◌/◌, ℕ, List, Option, length, OnOk};
ghost use Rattle.std.specs.Option.{ForSome};
ghost use Rattle.hl_media.specs.History.{History, DidRead, DidWrite, DidSync, DidSay, Adds, IsWhole, HoldsAt, content};
ghost use Rattle.hl_media.specs.Causes.{HasCause};

use crate::failed::Failed;

/// A disk of blocks of 4,096 bytes and an output, with one clock of moments: a call is under way at one moment, and
/// has ended at the next. What holds of an earlier moment never changes.
pub trait Machine {
    /// The number of blocks.
    ghost blocks: { Self → ℕ };

    /// What was on the disk at first and each call since, the first of them first, where the machine tells it.
    ghost history: { Self → Option History };

    /// How often a read, a write or a sync has failed.
    ghost faults: { Self → ℕ };

    /// How often a write or a sync has failed.
    ghost write_faults: { Self → ℕ };

    /// How often a `say` has failed.
    ghost say_faults: { Self → ℕ };

    /// How many blocks the disk has.
    fn blocks(&self) -> u32
        ensures { result ≡ blocks self.now };

    /// How often a read, a write or a sync has failed.
    fn faults(&self) -> u64
        ensures { result ≡ faults self.now };

    /// How often a write or a sync has failed.
    fn write_faults(&self) -> u64
        ensures { result ≡ write_faults self.now };

    /// Reads the blocks from `at` on, as many as `out` has.
    fn read(&mut self, at: u32, out: &mut [u8]) -> Result<(), Failed>
        requires whole { IsWhole out.old }
        requires within { at + length out.old / 4096 ≤ blocks self.old }
        ensures did { Adds (history self.old) (history self.new) (DidRead result) }
        ensures bytes { OnOk result (ForSome (history self.old) (λ h. HoldsAt (content h) at out.new)) }
        ensures blocks { blocks self.new ≡ blocks self.old }
        ensures faults { HasCause (faults self.old) (faults self.new) result }
        ensures write_faults { write_faults self.new ≡ write_faults self.old }
        ensures say_faults { say_faults self.new ≡ say_faults self.old };

    /// Writes the blocks from `at` on. Until a sync succeeds a stop may leave any bytes in them; after a failed write
    /// a read may give any bytes there.
    fn write(&mut self, at: u32, bytes: &[u8]) -> Result<(), Failed>
        requires whole { IsWhole bytes.now }
        requires within { at + length bytes.now / 4096 ≤ blocks self.old }
        ensures did { Adds (history self.old) (history self.new) (DidWrite at bytes.now result) }
        ensures blocks { blocks self.new ≡ blocks self.old }
        ensures faults { HasCause (faults self.old) (faults self.new) result }
        ensures write_faults { HasCause (write_faults self.old) (write_faults self.new) result }
        ensures say_faults { say_faults self.new ≡ say_faults self.old };

    /// Makes all writes so far last: after it a stop leaves what a read gives.
    fn sync(&mut self) -> Result<(), Failed>
        ensures did { Adds (history self.old) (history self.new) (DidSync result) }
        ensures blocks { blocks self.new ≡ blocks self.old }
        ensures faults { HasCause (faults self.old) (faults self.new) result }
        ensures write_faults { HasCause (write_faults self.old) (write_faults self.new) result }
        ensures say_faults { say_faults self.new ≡ say_faults self.old };

    /// Says the bytes. Where it fails, some first part of them is said.
    fn say(&mut self, bytes: &[u8]) -> Result<(), Failed>
        ensures did { Adds (history self.old) (history self.new) (DidSay bytes.now result) }
        ensures blocks { blocks self.new ≡ blocks self.old }
        ensures faults { faults self.new ≡ faults self.old }
        ensures write_faults { write_faults self.new ≡ write_faults self.old }
        ensures say_faults { HasCause (say_faults self.old) (say_faults self.new) result };
}
