//! An input.

ghost use Rattle.std.specs.Prelude.{ℕ, List, Option};
ghost use Rattle.std.specs.Io.{ReadsAtMost};
ghost use Rattle.std.specs.Io.KnownBytes.{ReadConsumes};
ghost use Rattle.hl_media.specs.Causes.{HasCause};

use crate::failed::Failed;

/// Gives the bytes of an input, in pieces of any size.
pub trait Source {
    /// The bytes that are left, where the source tells them.
    ghost left: { Self → Option (List ℕ) };

    /// How often a read has failed.
    ghost faults: { Self → ℕ };

    /// Puts the next bytes at the front of `out`, and says how many; 0 for an `out` that is not empty is the end.
    /// A failed read takes nothing off.
    fn read(&mut self, out: &mut [u8]) -> Result<usize, Failed>
        ensures bound { ReadsAtMost result out.new }
        ensures bytes { ReadConsumes (left self.old) (left self.new) result out.new }
        ensures faults { HasCause (faults self.old) (faults self.new) result };
}
