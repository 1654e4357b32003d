//! An input of the system.

ghost use Rattle.std.specs.Prelude.{◌≡◌};
ghost use Rattle.std.specs.Io.{ReadsAtMost};
ghost use Rattle.std.specs.Io.KnownBytes.{ReadConsumes};
ghost use Rattle.hl_host.specs.Devices.{told_of};

use crate::faults::raise;
use hl_media::{Failed, Source};
use std::io::{ErrorKind, Read};
use std::marker::Model;

/// An input of the system: standard input, or a file. It tells what the reader does.
///
/// Where it could not be opened each read fails.
#[derive(Drop)]
pub struct StdSource<R> {
    input: Option<R>,
    faults: u64,
}

impl<R> Model for StdSource<R> {
    ghost use Rattle.hl_host.specs.Devices.{OpenedInput};

    ghost Value = { OpenedInput R };

    ghost view = { λ source. record { input = source.input; faults = source.faults } };
}

impl<R> StdSource<R> {
    /// The input that this reader gives, or none where it could not be opened.
    pub fn new(input: Option<R>) -> StdSource<R>
        ensures { result ≡ record { input = input; faults = 0 } }
    {
        StdSource { input, faults: 0 }
    }
}

impl<R: Read> Source for StdSource<R> {
    ghost use Rattle.hl_host.specs.Devices.{told_of};

    ghost left = { λ source. told_of R.remaining source.input };

    ghost faults = { λ source. source.faults };

    fn read(&mut self, out: &mut [u8]) -> Result<usize, Failed> {
        match read_opened_input(&mut self.input, out) {
            Ok(count) => Ok(count),
            Err(Failed) => {
                raise(&mut self.faults);
                Err(Failed)
            }
        }
    }
}

// Reads from an input that may not have been opened.
fn read_opened_input<R: Read>(input: &mut Option<R>, out: &mut [u8]) -> Result<usize, Failed>
    ensures bound { ReadsAtMost result out.new }
    ensures bytes { ReadConsumes (told_of R.remaining input.old) (told_of R.remaining input.new) result out.new }
{
    match input {
        Some(input) => read_some(input, out),
        None => Err(Failed),
    }
}

// Reads again where a signal has cut in.
fn read_some<R: Read>(input: &mut R, out: &mut [u8]) -> Result<usize, Failed>
    ensures bound { ReadsAtMost result out.new }
    ensures bytes { ReadConsumes (R.remaining input.old) (R.remaining input.new) result out.new }
{
    'reads: for _ in 0..u64::MAX {
        match input.read(out) {
            Ok(count) => return Ok(count),
            Err(error) if error.kind() == ErrorKind::Interrupted => {}
            Err(_) => return Err(Failed),
        }
    }
    Err(Failed)
}
