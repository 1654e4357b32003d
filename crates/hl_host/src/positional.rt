//! A file that is read and written at places.

ghost use Rattle.std.specs.Prelude.{◌≡◌, ℕ, List, Option, OnOk, OnErr};
ghost use Rattle.std.specs.Io.{ReadsAtMost, WritesAtMost};
ghost use Rattle.hl_host.specs.Places.{GivesAt, WritesAt};

use std::fs::File;
use std::io;
use std::os::unix::fs::FileExt;

/// A file that is read and written at places, which may do less than it is asked to.
pub trait PositionalFile {
    /// The bytes that it holds, where it tells them.
    ghost content: { Self → Option (List ℕ) };

    /// The bytes that the last sync has made last, where it tells them.
    ghost lasting: { Self → Option (List ℕ) };

    /// Reads from this byte on, and says how many bytes it gave.
    fn read_from(&mut self, from: u64, out: &mut [u8]) -> io::Result<usize>
        ensures bound { ReadsAtMost result out.new }
        ensures bytes { GivesAt (content self.old) from result out.new }
        ensures content { content self.new ≡ content self.old }
        ensures lasting { lasting self.new ≡ lasting self.old };

    /// Writes from this byte on, and says how many bytes it took.
    fn write_from(&mut self, from: u64, bytes: &[u8]) -> io::Result<usize>
        ensures bound { WritesAtMost result bytes.now }
        ensures bytes { WritesAt (content self.old) (content self.new) from result bytes.now }
        ensures lasting { lasting self.new ≡ lasting self.old };

    /// Makes what it holds last.
    fn make_last(&mut self) -> io::Result<()>
        ensures content { content self.new ≡ content self.old }
        ensures lasts { OnOk result (lasting self.new ≡ content self.old) }
        ensures fails { OnErr result (lasting self.new ≡ lasting self.old) };
}

/// A file of the system tells nothing.
impl PositionalFile for File {
    ghost use Rattle.std.specs.Prelude.{None};

    ghost content = { λ file. None };

    ghost lasting = { λ file. None };

    fn read_from(&mut self, from: u64, out: &mut [u8]) -> io::Result<usize> {
        self.read_at(out, from)
    }

    fn write_from(&mut self, from: u64, bytes: &[u8]) -> io::Result<usize> {
        self.write_at(bytes, from)
    }

    fn make_last(&mut self) -> io::Result<()> {
        self.sync_all()
    }
}
