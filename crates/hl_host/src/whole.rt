//! Reads and writes that go on until all is done.

ghost use Rattle.std.specs.Prelude.{◌≡◌, ◌≤◌, length, IfOk, OnOk, OnErr};
ghost use Rattle.std.specs.Io.KnownBytes.{Appends};
ghost use Rattle.hl_host.specs.Places.{AppendsSome, ChangesAt, PutsAt, PutsOn, SaysOn, StandsAt};

use crate::positional::PositionalFile;
use hl_media::Failed;
use std::io::{ErrorKind, Write};

/// Reads from this byte of the file on until `out` is full. The end of the file before that is a failure.
pub fn read_whole<F: PositionalFile>(file: &mut F, from: u64, out: &mut [u8]) -> Result<(), Failed>
    ensures bytes { OnOk result (StandsAt (F.content file.old) from (length out.new) out.new) }
    ensures content { F.content file.new ≡ F.content file.old }
    ensures lasting { F.lasting file.new ≡ F.lasting file.old }
{
    let mut done = 0usize;
    'reads: for _ in 0..u64::MAX {
        if done >= out.len() {
            return Ok(());
        }
        done = read_on(file, from, out, done)?;
    }
    Err(Failed)
}

// Reads on behind the first bytes, and says how many there are then: as many as before where a signal has cut in.
fn read_on<F: PositionalFile>(
    file: &mut F,
    from: u64,
    out: &mut [u8],
    done: usize,
) -> Result<usize, Failed>
    requires low { done ≤ length out.old }
    requires there { StandsAt (F.content file.old) from done out.old }
    ensures low { IfOk result (λ more. more ≤ length out.new) }
    ensures there { IfOk result (λ more. StandsAt (F.content file.old) from more out.new) }
    ensures content { F.content file.new ≡ F.content file.old }
    ensures lasting { F.lasting file.new ≡ F.lasting file.old }
{
    let Some(at) = from.checked_add(done as u64) else {
        return Err(Failed);
    };
    match file.read_from(at, &mut out[done..]) {
        Ok(0) => Err(Failed),
        Ok(count) => Ok(done + count),
        Err(error) if error.kind() == ErrorKind::Interrupted => Ok(done),
        Err(_) => Err(Failed),
    }
}

/// Writes all the bytes from this byte of the file on.
pub fn write_whole<F: PositionalFile>(file: &mut F, from: u64, bytes: &[u8]) -> Result<(), Failed>
    ensures bytes { OnOk result (PutsAt (F.content file.old) (F.content file.new) from bytes.now) }
    ensures some { ChangesAt (F.content file.old) (F.content file.new) from (length bytes.now) }
    ensures lasting { F.lasting file.new ≡ F.lasting file.old }
{
    let mut done = 0usize;
    'writes: for _ in 0..u64::MAX {
        if done >= bytes.len() {
            return Ok(());
        }
        done = write_on(file, from, bytes, done)?;
    }
    Err(Failed)
}

// Writes on behind the first bytes, and says how many there are then: as many as before where a signal has cut in.
fn write_on<F: PositionalFile>(
    file: &mut F,
    from: u64,
    bytes: &[u8],
    done: usize,
) -> Result<usize, Failed>
    requires { done ≤ length bytes.now }
    ensures low { IfOk result (λ more. more ≤ length bytes.now) }
    ensures there { IfOk result (PutsOn (F.content file.old) (F.content file.new) from bytes.now done) }
    ensures some { OnErr result (PutsOn (F.content file.old) (F.content file.new) from bytes.now done done) }
    ensures lasting { F.lasting file.new ≡ F.lasting file.old }
{
    let Some(at) = from.checked_add(done as u64) else {
        return Err(Failed);
    };
    match file.write_from(at, &bytes[done..]) {
        Ok(0) => Err(Failed),
        Ok(count) => Ok(done + count),
        Err(error) if error.kind() == ErrorKind::Interrupted => Ok(done),
        Err(_) => Err(Failed),
    }
}

/// Says all the bytes.
pub fn say_whole<W: Write>(output: &mut W, bytes: &[u8]) -> Result<(), Failed>
    ensures bytes { OnOk result (Appends (W.contents output.old) (W.contents output.new) bytes.now) }
    ensures some { OnErr result (AppendsSome (W.contents output.old) (W.contents output.new) bytes.now) }
{
    let mut done = 0usize;
    'says: for _ in 0..u64::MAX {
        if done >= bytes.len() {
            return match output.flush() {
                Ok(()) => Ok(()),
                Err(_) => Err(Failed),
            };
        }
        done = say_on(output, bytes, done)?;
    }
    Err(Failed)
}

// Says on behind the first bytes, and says how many there are then: as many as before where a signal has cut in.
fn say_on<W: Write>(output: &mut W, bytes: &[u8], done: usize) -> Result<usize, Failed>
    requires { done ≤ length bytes.now }
    ensures low { IfOk result (λ more. more ≤ length bytes.now) }
    ensures there { IfOk result (SaysOn (W.contents output.old) (W.contents output.new) bytes.now done) }
    ensures some { OnErr result (SaysOn (W.contents output.old) (W.contents output.new) bytes.now done done) }
{
    match output.write(&bytes[done..]) {
        Ok(0) => Err(Failed),
        Ok(count) => Ok(done + count),
        Err(error) if error.kind() == ErrorKind::Interrupted => Ok(done),
        Err(_) => Err(Failed),
    }
}
