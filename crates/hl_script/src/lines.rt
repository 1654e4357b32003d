//! The lines of an input, one after another.

ghost use Rattle.std.specs.Prelude.{◌≡◌, ◌≤◌, ◌<◌, IsTrue, true, [], length, vec_capacity, OnOk, OnErr, IfOk, IfSome, Err, Some};
ghost use Rattle.std.specs.Io.KnownBytes.{Keeps, prepend_known};
ghost use Rattle.std.specs.List.{position_or_len};
ghost use Rattle.hl_media.specs.Causes.{HasCause, Rose};
ghost use Rattle.hl_script.specs.Input.{is_newline, IsReady, Gives, passes_limit, Cuts, IsTooLong, longest, most_held};

use crate::buffer::Buffer;
use crate::fault::LineFault;
use crate::find::first_place;
use hl_media::{Failed, Source};
use std::alloc::{AllocError, Global};
use std::marker::Model;

/// The most bytes of a line, without its newline.
const LONGEST: usize = 140_000;

/// Hands out the lines of an input, in whatever pieces it comes. It holds what was read and not yet given.
#[derive(Drop)]
pub struct Lines {
    buffer: Buffer,
    used: u64,
    limit: u64,
}

impl Model for Lines {
    ghost use Rattle.std.specs.Prelude.{◌≤◌};
    ghost use Rattle.hl_script.specs.Input.{Ahead};

    ghost Value = { Ahead };

    ghost view = { λ s. record { held = s.buffer; used = s.used; limit = s.limit } };

    ghost invariant = { λ s. s.used ≤ s.limit };
}

impl Lines {
    /// The lines of an input of at most `limit` bytes.
    pub fn new(alloc: Global, limit: u64) -> Result<Lines, AllocError>
        ensures { IfOk result (λ lines. lines ≡ record { held = []; used = 0; limit = limit }) }
    {
        Ok(Lines {
            buffer: Buffer::new(alloc)?,
            used: 0,
            limit,
        })
    }

    /// Puts the next line, without its newline, in place of what `out` holds; false, with nothing in `out`, at the end.
    /// A line of more than 140,000 bytes, or one that ends with its newline past the limit, is too long.
    /// An `Err` leaves `out` as it was, and what is left of the input. All memory is taken before the first read, so want
    /// of it leaves the source and what is held of it too.
    pub fn next<S: Source>(
        &mut self,
        _alloc: Global,
        source: &mut S,
        out: &mut Vec<u8>,
    ) -> Result<bool, LineFault>
        // The line is the first of what is left, and is taken off.
        ensures ok { IfOk result (λ more. IfSome (prepend_known self.old.held (S.left source.old))
            (λ bytes. Gives self.old self.new bytes (prepend_known self.new.held (S.left source.new)) more out.new.items)) }
        ensures cuts { IfOk result (λ more. IfSome (prepend_known self.old.held (S.left source.old))
            (λ bytes. Cuts self.old self.new bytes more out.new.items)) }
        // Each line takes bytes, also where what is left is not known.
        ensures progress { IfOk result (λ more. IsTrue more → self.old.used < self.new.used) }
        ensures counted { IfOk result (λ _. self.new.used ≤ self.new.limit) }
        ensures limit { self.new.limit ≡ self.old.limit }
        ensures bounded { length self.new.held ≤ most_held }
        ensures too_long { result ≡ Err LineFault.TooLong → IfSome (prepend_known self.old.held (S.left source.old))
            (λ bytes. IsTooLong self.old.limit self.old.used bytes) }
        ensures input { result ≡ Err LineFault.Input → Rose (S.faults source.old) (S.faults source.new) }
        ensures later { S.faults source.old ≤ S.faults source.new }
        ensures quiet { OnOk result (S.faults source.new ≡ S.faults source.old) }
        // After an `Err` the same is left, and none of it counts as given.
        ensures kept { OnErr result (Keeps (prepend_known self.old.held (S.left source.old)) (prepend_known self.new.held (S.left source.new))) }
        ensures unused { OnErr result (self.new.used ≡ self.old.used) }
        ensures out { OnErr result (out.new.items ≡ out.old.items) }
        // Want of memory changes nothing, whatever the source tells.
        ensures memory { result ≡ Err LineFault.Memory → self.new ≡ self.old }
        ensures unread { result ≡ Err LineFault.Memory → source.new ≡ source.old }
    {
        self.refill(source, out)?;
        self.take(out)
    }

    /// Reads until the next line is held, or shows that it is too long. Where it reads, it takes room for any line first.
    fn refill<S: Source>(&mut self, source: &mut S, out: &mut Vec<u8>) -> Result<(), LineFault>
        ensures bounded { length self.new.held ≤ most_held }
        ensures ready { OnOk result (IsReady self.new.held (S.left source.new)) }
        ensures same { Keeps (prepend_known self.old.held (S.left source.old)) (prepend_known self.new.held (S.left source.new)) }
        ensures used { self.new.used ≡ self.old.used }
        ensures limit { self.new.limit ≡ self.old.limit }
        ensures later { S.faults source.old ≤ S.faults source.new }
        ensures input { result ≡ Err LineFault.Input → Rose (S.faults source.old) (S.faults source.new) }
        ensures quiet { OnOk result (S.faults source.new ≡ S.faults source.old) }
        ensures others { result ≡ Err LineFault.TooLong → ⊥ }
        ensures memory { result ≡ Err LineFault.Memory → (self.new ≡ self.old) × (source.new ≡ source.old) }
        ensures room { vec_capacity out.new < longest → (self.new ≡ self.old) × (source.new ≡ source.old) }
        ensures out { out.new.items ≡ out.old.items }
    {
        let held = self.buffer.held();
        if first_place(b'\n', held) < held.len() {
            return Ok(());
        }
        make_room(out)?;
        match fill(&mut self.buffer, source) {
            Ok(()) => Ok(()),
            Err(Failed) => Err(LineFault::Input),
        }
    }

    /// Takes the next line off what is held.
    fn take(&mut self, out: &mut Vec<u8>) -> Result<bool, LineFault>
        ensures ok { IfOk result (λ more. Gives self.old self.new self.old.held (Some self.new.held) more out.new.items) }
        ensures progress { IfOk result (λ more. IsTrue more → self.old.used < self.new.used) }
        ensures counted { IfOk result (λ _. self.new.used ≤ self.new.limit) }
        ensures limit { self.new.limit ≡ self.old.limit }
        ensures bounded { length self.new.held ≤ most_held }
        ensures too_long { result ≡ Err LineFault.TooLong → passes_limit self.old.limit self.old.used self.old.held ≡ true }
        ensures others { result ≡ Err LineFault.Input → ⊥ }
        ensures err { OnErr result (self.new ≡ self.old) }
        ensures memory { result ≡ Err LineFault.Memory → vec_capacity out.old < longest }
        ensures out { OnErr result (out.new.items ≡ out.old.items) }
    {
        let held = self.buffer.held();
        let len = first_place(b'\n', held);
        let cost = if len < held.len() { len + 1 } else { len };
        if len > LONGEST || cost as u64 > self.limit - self.used {
            return Err(LineFault::TooLong);
        }
        replace(out, &held[..len])?;
        if cost == 0 {
            return Ok(false);
        }
        self.buffer.skip(cost);
        self.used += cost as u64;
        Ok(true)
    }
}

/// Reads until a line is held, or the front of one that is too long, or all that is left.
fn fill<S: Source>(held: &mut Buffer, source: &mut S) -> Result<(), Failed>
    requires { position_or_len is_newline held.old ≡ length held.old }
    ensures bounded { length held.new ≤ most_held }
    ensures ready { OnOk result (IsReady held.new (S.left source.new)) }
    ensures same { Keeps (prepend_known held.old (S.left source.old)) (prepend_known held.new (S.left source.new)) }
    ensures faults { HasCause (S.faults source.old) (S.faults source.new) result }
{
    let mut before = held.held().len();
    'reads: while before <= LONGEST {
        if held.read(source)? == 0 {
            return Ok(());
        }
        let bytes = held.held();
        let piece = &bytes[before..];
        if first_place(b'\n', piece) < piece.len() {
            return Ok(());
        }
        before = bytes.len();
    }
    Ok(())
}

/// Makes room for any line.
fn make_room(out: &mut Vec<u8>) -> Result<(), AllocError>
    ensures ok { OnOk result (longest ≤ vec_capacity out.new) }
    ensures items { out.new.items ≡ out.old.items }
{
    out.reserve(LONGEST.saturating_sub(out.len()))
}

/// Puts these bytes in place of those that `out` holds. It takes memory only where these are longer than its room.
fn replace(out: &mut Vec<u8>, bytes: &[u8]) -> Result<(), AllocError>
    ensures ok { OnOk result (out.new.items ≡ bytes.now) }
    ensures err { OnErr result (out.new.items ≡ out.old.items) }
    ensures memory { OnErr result (vec_capacity out.old < length bytes.now) }
{
    out.reserve(bytes.len().saturating_sub(out.len()))?;
    out.clear();
    out.extend_from_slice(bytes)
}
