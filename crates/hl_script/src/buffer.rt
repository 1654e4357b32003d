//! Bytes that were read and not yet taken.

ghost use Rattle.std.specs.Prelude.{◌≡◌, ◌≤◌, ◌<◌, ◌+◌, ◌-◌, List, ℕ, IfOk, length, take, drop, []};
ghost use Rattle.std.specs.Io.{ReadsAtMost};
ghost use Rattle.std.specs.Io.KnownBytes.{ReadConsumes};
ghost use Rattle.hl_media.specs.Causes.{HasCause};
ghost use Rattle.hl_script.specs.Input.{ReadsOn, longest, most_held};

use hl_media::{Failed, Source};
use std::alloc::{AllocError, Global};
use std::marker::Model;

/// The most bytes that are held at once: those of the longest line, and a piece of 65,536 bytes more.
const ROOM: usize = 205_536;

/// A row of bytes that grows at its end and is taken off its front. All the room that it needs is taken in `new`.
#[derive(Drop)]
pub(crate) struct Buffer {
    bytes: Vec<u8>,
    start: usize,
    end: usize,
}

impl Model for Buffer {
    ghost use Rattle.std.specs.Prelude.{◌≡◌, ◌≤◌, List, ℕ, length, take, drop};
    ghost use Rattle.hl_script.specs.Input.{most_held};

    ghost Value = { List ℕ };

    ghost view = { λ b. drop b.start (take b.end b.bytes.items) };

    ghost invariant = { λ b. (b.start ≤ b.end) × (b.end ≤ most_held) × (length b.bytes.items ≡ most_held) };
}

impl Buffer {
    ghost use Rattle.hl_script.specs.Input.{most_held};

    pub(crate) fn new(alloc: Global) -> Result<Buffer, AllocError>
        ensures { IfOk result (λ buffer. buffer ≡ []) }
    {
        Ok(Buffer {
            bytes: vec![in alloc; 0u8; ROOM]?,
            start: 0,
            end: 0,
        })
    }

    pub(crate) fn held(&self) -> &[u8]
        ensures is { result.now ≡ self.now }
        ensures bounded { length self.now ≤ most_held }
    {
        &self.bytes[self.start..self.end]
    }

    /// Takes bytes off the front.
    pub(crate) fn skip(&mut self, count: usize)
        requires { count ≤ length self.old }
        ensures { self.new ≡ drop count self.old }
    {
        self.start += count;
    }

    /// Reads once, and puts what was read behind what is held.
    pub(crate) fn read<S: Source>(&mut self, source: &mut S) -> Result<usize, Failed>
        requires { length self.old ≤ longest }
        ensures bounded { length self.new ≤ most_held }
        ensures bytes { ReadsOn (S.left source.old) (S.left source.new) result self.old self.new }
        ensures faults { HasCause (S.faults source.old) (S.faults source.new) result }
    {
        let start = make_room(&mut self.bytes, self.start, self.end);
        self.end = start + (self.end - self.start);
        self.start = start;
        match read_behind(&mut self.bytes, self.end, source) {
            Ok(count) => {
                self.end += count;
                Ok(count)
            }
            Err(Failed) => Err(Failed),
        }
    }
}

/// Leaves room behind the bytes from `start` to `end`, and says where they then start.
fn make_room(bytes: &mut Vec<u8>, start: usize, end: usize) -> usize
    requires ordered { start ≤ end }
    requires within { end ≤ length bytes.old.items }
    requires short { end - start < length bytes.old.items }
    ensures room { result + (end - start) < length bytes.new.items }
    ensures same { drop result (take (result + (end - start)) bytes.new.items) ≡ drop start (take end bytes.old.items) }
    ensures len { length bytes.new.items ≡ length bytes.old.items }
{
    if end < bytes.len() {
        return start;
    }
    bytes.copy_within(start..end, 0);
    0
}

/// Reads once into what stands behind `end`.
fn read_behind<S: Source>(bytes: &mut Vec<u8>, end: usize, source: &mut S) -> Result<usize, Failed>
    requires { end ≤ length bytes.old.items }
    ensures len { length bytes.new.items ≡ length bytes.old.items }
    ensures front { take end bytes.new.items ≡ take end bytes.old.items }
    ensures bound { ReadsAtMost result (drop end bytes.new.items) }
    ensures bytes { ReadConsumes (S.left source.old) (S.left source.new) result (drop end bytes.new.items) }
    ensures faults { HasCause (S.faults source.old) (S.faults source.new) result }
{
    source.read(bytes.slice_mut(end..))
}
