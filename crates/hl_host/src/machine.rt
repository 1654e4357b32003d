//! A disk in a file, and standard output.

ghost use Rattle.std.specs.Prelude.{◌≡◌, ◌+◌, ◌*◌, ◌/◌, ◌≤◌, None, length, OnOk, OnErr};
ghost use Rattle.std.specs.Io.KnownBytes.{Appends};
ghost use Rattle.hl_media.specs.Causes.{HasCause};
ghost use Rattle.hl_media.specs.History.{Adds, DidRead, DidSay, DidSync, DidWrite, IsWhole};
ghost use Rattle.hl_host.specs.Places.{AppendsSome};
ghost use Rattle.hl_host.specs.Devices.{HoldsOn, MayWriteTo, ReadsFrom, WritesTo, told_of};

use crate::faults::raise;
use crate::opened::{read_opened, sync_opened, write_opened};
use crate::positional::PositionalFile;
use crate::whole::say_whole;
use hl_media::{Failed, Machine};
use std::io::Write;
use std::marker::Model;

/// A disk of blocks of 4,096 bytes in a file, and an output. It tells no history.
///
/// Where the file could not be opened each read, write and sync fails, and what is said is still said.
#[derive(Drop)]
pub struct FileMachine<F, W> {
    file: Option<F>,
    blocks: u32,
    output: W,
    faults: u64,
    write_faults: u64,
    say_faults: u64,
}

impl<F, W> Model for FileMachine<F, W> {
    ghost use Rattle.hl_host.specs.Devices.{Opened};

    ghost Value = { Opened F W };

    ghost view = { λ machine. record {
      file = machine.file;
      blocks = machine.blocks;
      output = machine.output;
      faults = machine.faults;
      write_faults = machine.write_faults;
      say_faults = machine.say_faults;
    } };
}

impl<F, W> FileMachine<F, W> {
    /// A disk of so many blocks in this file, or in none where it could not be opened, and this output.
    pub fn new(file: Option<F>, blocks: u32, output: W) -> FileMachine<F, W>
        ensures { result ≡ record { file = file; blocks = blocks; output = output; faults = 0; write_faults = 0; say_faults = 0 } }
    {
        FileMachine {
            file,
            blocks,
            output,
            faults: 0,
            write_faults: 0,
            say_faults: 0,
        }
    }
}

impl<F: PositionalFile, W: Write> Machine for FileMachine<F, W> {
    ghost use Rattle.std.specs.Prelude.{None};

    ghost blocks = { λ machine. machine.blocks };

    ghost history = { λ machine. None };

    ghost faults = { λ machine. machine.faults };

    ghost write_faults = { λ machine. machine.write_faults };

    ghost say_faults = { λ machine. machine.say_faults };

    fn blocks(&self) -> u32 {
        self.blocks
    }

    fn faults(&self) -> u64 {
        self.faults
    }

    fn write_faults(&self) -> u64 {
        self.write_faults
    }

    fn read(&mut self, at: u32, out: &mut [u8]) -> Result<(), Failed>
        requires whole { IsWhole out.old }
        requires within { at + length out.old / 4096 ≤ self.old.blocks }
        ensures did { Adds None None (DidRead result) }
        ensures blocks { self.new.blocks ≡ self.old.blocks }
        ensures faults { HasCause self.old.faults self.new.faults result }
        ensures write_faults { self.new.write_faults ≡ self.old.write_faults }
        ensures say_faults { self.new.say_faults ≡ self.old.say_faults }
        ensures there { OnOk result (ReadsFrom F.content self.old.file (4096 * at) out.new) }
        ensures content { HoldsOn F.content self.old.file self.new.file }
    {
        if read_opened(&mut self.file, 4096 * (at as u64), out).is_ok() {
            return Ok(());
        }
        raise(&mut self.faults);
        Err(Failed)
    }

    fn write(&mut self, at: u32, bytes: &[u8]) -> Result<(), Failed>
        requires whole { IsWhole bytes.now }
        requires within { at + length bytes.now / 4096 ≤ self.old.blocks }
        ensures did { Adds None None (DidWrite at bytes.now result) }
        ensures blocks { self.new.blocks ≡ self.old.blocks }
        ensures faults { HasCause self.old.faults self.new.faults result }
        ensures write_faults { HasCause self.old.write_faults self.new.write_faults result }
        ensures say_faults { self.new.say_faults ≡ self.old.say_faults }
        ensures there { OnOk result (WritesTo F.content self.old.file self.new.file (4096 * at) bytes.now) }
        ensures some { MayWriteTo F.content self.old.file self.new.file (4096 * at) (length bytes.now) }
    {
        if write_opened(&mut self.file, 4096 * (at as u64), bytes).is_ok() {
            return Ok(());
        }
        raise(&mut self.faults);
        raise(&mut self.write_faults);
        Err(Failed)
    }

    fn sync(&mut self) -> Result<(), Failed>
        ensures did { Adds None None (DidSync result) }
        ensures blocks { self.new.blocks ≡ self.old.blocks }
        ensures faults { HasCause self.old.faults self.new.faults result }
        ensures write_faults { HasCause self.old.write_faults self.new.write_faults result }
        ensures say_faults { self.new.say_faults ≡ self.old.say_faults }
        ensures lasts { OnOk result (told_of F.lasting self.new.file ≡ told_of F.content self.old.file) }
        ensures content { HoldsOn F.content self.old.file self.new.file }
    {
        if sync_opened(&mut self.file).is_ok() {
            return Ok(());
        }
        raise(&mut self.faults);
        raise(&mut self.write_faults);
        Err(Failed)
    }

    fn say(&mut self, bytes: &[u8]) -> Result<(), Failed>
        ensures did { Adds None None (DidSay bytes.now result) }
        ensures blocks { self.new.blocks ≡ self.old.blocks }
        ensures faults { self.new.faults ≡ self.old.faults }
        ensures write_faults { self.new.write_faults ≡ self.old.write_faults }
        ensures say_faults { HasCause self.old.say_faults self.new.say_faults result }
        ensures there { OnOk result (Appends (W.contents self.old.output) (W.contents self.new.output) bytes.now) }
        ensures some { OnErr result (AppendsSome (W.contents self.old.output) (W.contents self.new.output) bytes.now) }
        ensures content { HoldsOn F.content self.old.file self.new.file }
    {
        if say_whole(&mut self.output, bytes).is_ok() {
            return Ok(());
        }
        raise(&mut self.say_faults);
        Err(Failed)
    }
}
