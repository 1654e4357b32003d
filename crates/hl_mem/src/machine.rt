//! A disk and an output in memory.

ghost use Rattle.std.specs.Prelude.{◌≡◌, ◌+◌, ◌<◌, ◌≤◌, ◌/◌, ◌^◌, length, IfOk, OnOk, OnErr};
ghost use Rattle.hl_bytes.specs.Buffers.{block_of};
ghost use Rattle.hl_media.specs.Causes.{HasCause};
ghost use Rattle.hl_mem.specs.Failing.{Follows, planned};
ghost use Rattle.hl_mem.specs.Tears.{IsTorn};
ghost use Rattle.hl_media.specs.History.{DidRead, DidSay, DidSync, DidWrite, IsWhole, MayLeave, moment as moment_of, at_moment};
ghost use Rattle.hl_mem.specs.Told.{GoesOn, Reads, history_of, opened_on, said_by, zeros};

use crate::failing::Failing;
use crate::recording::Recording;
use crate::tear::Tear;
use hl_media::{Failed, Machine};
use std::alloc::{AllocError, Global};
use std::marker::Model;

/// A machine in memory. It tells what was on its disk at first and each call since.
///
/// A call that finds no memory for its record fails, raises its counts, and changes nothing else. A call that is told
/// to fail is recorded as failed: a write leaves what was there, a `say` says the first half of its bytes.
#[derive(Drop)]
pub struct MemMachine {
    alloc: Global,
    blocks: u32,
    opening: Vec<u8>,
    bytes: Vec<u8>,
    recording: Recording,
    failing: Failing,
    faults: u64,
    write_faults: u64,
    say_faults: u64,
}

impl Model for MemMachine {
    ghost use Rattle.hl_mem.specs.Told.{Told};
    ghost use Rattle.hl_mem.specs.Kept.{IsKept};

    ghost Value = { Told };

    ghost view = { λ machine. record {
      blocks = machine.blocks;
      opening = machine.opening.items;
      calls = machine.recording;
      plan = machine.failing;
      faults = machine.faults;
      write_faults = machine.write_faults;
      say_faults = machine.say_faults;
    } };

    ghost invariant = { λ machine. IsKept machine.blocks machine.opening.items machine.recording machine.bytes.items };
}

impl MemMachine {
    /// A machine of so many blocks of zeros.
    pub fn new(alloc: Global, blocks: u32) -> Result<MemMachine, AllocError>
        ensures { IfOk result (λ machine. machine ≡ opened_on (zeros blocks)) }
    {
        let opening = vec![in alloc; 0; 4096 * (blocks as usize)]?;
        MemMachine::opened(alloc, opening)
    }

    /// A machine with these bytes on its disk, which are whole blocks, fewer than 2^32.
    pub fn of_image(alloc: Global, bytes: &[u8]) -> Result<MemMachine, AllocError>
        requires whole { IsWhole bytes.now }
        requires fits { length bytes.now / 4096 < 2 ^ 32 }
        ensures { IfOk result (λ machine. machine ≡ opened_on bytes.now) }
    {
        let opening = bytes.to_vec(alloc)?;
        MemMachine::opened(alloc, opening)
    }

    fn opened(alloc: Global, opening: Vec<u8>) -> Result<MemMachine, AllocError>
        requires whole { IsWhole opening.items }
        requires fits { length opening.items / 4096 < 2 ^ 32 }
        ensures { IfOk result (λ machine. machine ≡ opened_on opening.items) }
    {
        let bytes = opening.as_slice().to_vec(alloc)?;
        Ok(MemMachine {
            alloc,
            blocks: (bytes.as_slice().len() / 4096) as u32,
            opening,
            bytes,
            recording: Recording::new(alloc),
            failing: Failing::new(alloc),
            faults: 0,
            write_faults: 0,
            say_faults: 0,
        })
    }

    /// Makes the call of this number fail, counted from 1 over the reads, writes, syncs and says that were made,
    /// those too that found no memory for their record. A number that is past makes none fail.
    pub fn fail_call(&mut self, _alloc: Global, number: u64) -> Result<(), AllocError>
        ensures added { OnOk result (self.new ≡ record self.old { plan = planned self.old.plan number }) }
        ensures kept { OnErr result (self.new ≡ self.old) }
    {
        self.failing.add(number)
    }

    /// The bytes said so far.
    pub fn said(&self) -> &[u8]
        ensures { result.now ≡ said_by self.now }
    {
        self.recording.said()
    }

    /// The moment that it is: 0 at first, and 2n after the nth recorded call, which is under way at 2n - 1. A call
    /// that finds no memory for its record is not recorded.
    pub fn now(&self) -> u64
        ensures { result ≡ moment_of (history_of self.now) }
    {
        2 * (self.recording.len() as u64)
    }

    /// The disk that a stop at this moment may leave, if each write that no sync has followed is torn in this way.
    /// The moment is not later than now.
    pub fn stop_image(&self, alloc: Global, moment: u64, tear: Tear) -> Result<Vec<u8>, AllocError>
        requires past { moment ≤ moment_of (history_of self.now) }
        ensures image { IfOk result (λ image. MayLeave (at_moment (history_of self.now) moment) (block_of image.items)) }
        ensures torn { IfOk result (λ image. IsTorn tear (at_moment (history_of self.now) moment) image.items) }
        ensures size { IfOk result (λ image. length image.items ≡ length self.now.opening) }
    {
        self.recording
            .stop_image(alloc, self.opening.as_slice(), moment, tear)
    }
}

impl Machine for MemMachine {
    ghost use Rattle.std.specs.Prelude.{Some};
    ghost use Rattle.hl_mem.specs.Told.{history_of};

    ghost blocks = { λ machine. machine.blocks };

    ghost history = { λ machine. Some (history_of machine) };

    ghost faults = { λ machine. machine.faults };

    ghost write_faults = { λ machine. machine.write_faults };

    ghost say_faults = { λ machine. machine.say_faults };

    fn blocks(&self) -> u32 {
        self.blocks
    }

    fn faults(&self) -> u64 {
        self.faults
    }

    fn write_faults(&self) -> u64 {
        self.write_faults
    }

    fn read(&mut self, at: u32, out: &mut [u8]) -> Result<(), Failed>
        requires whole { IsWhole out.old }
        requires within { at + length out.old / 4096 ≤ self.old.blocks }
        ensures did { GoesOn self.old self.new (DidRead result) }
        ensures bytes { OnOk result (Reads self.old at out.new) }
        ensures blocks { self.new.blocks ≡ self.old.blocks }
        ensures faults { HasCause self.old.faults self.new.faults result }
        ensures write_faults { self.new.write_faults ≡ self.old.write_faults }
        ensures say_faults { self.new.say_faults ≡ self.old.say_faults }
        ensures plan { Follows self.old.plan self.new.plan result (self.new.calls ≡ self.old.calls) }
    {
        let fails = self.failing.next();
        let kept = self.recording.add_read();
        if fails || kept.is_err() {
            self.faults = self.faults.saturating_add(1);
            return Err(Failed);
        }
        let start = 4096 * (at as usize);
        out.copy_from_slice(&self.bytes[start..start + out.len()]);
        Ok(())
    }

    fn write(&mut self, at: u32, bytes: &[u8]) -> Result<(), Failed>
        requires whole { IsWhole bytes.now }
        requires within { at + length bytes.now / 4096 ≤ self.old.blocks }
        ensures did { GoesOn self.old self.new (DidWrite at bytes.now result) }
        ensures blocks { self.new.blocks ≡ self.old.blocks }
        ensures faults { HasCause self.old.faults self.new.faults result }
        ensures write_faults { HasCause self.old.write_faults self.new.write_faults result }
        ensures say_faults { self.new.say_faults ≡ self.old.say_faults }
        ensures plan { Follows self.old.plan self.new.plan result (self.new.calls ≡ self.old.calls) }
    {
        let start = 4096 * (at as usize);
        let end = start + bytes.len();
        if self.failing.next() {
            let after = &self.bytes[start..end];
            let _ = self
                .recording
                .add_failed_write(self.alloc, at, bytes, after);
            self.faults = self.faults.saturating_add(1);
            self.write_faults = self.write_faults.saturating_add(1);
            return Err(Failed);
        }
        if self.recording.add_write(self.alloc, at, bytes).is_err() {
            self.faults = self.faults.saturating_add(1);
            self.write_faults = self.write_faults.saturating_add(1);
            return Err(Failed);
        }
        self.bytes[start..end].copy_from_slice(bytes);
        Ok(())
    }

    fn sync(&mut self) -> Result<(), Failed>
        ensures did { GoesOn self.old self.new (DidSync result) }
        ensures blocks { self.new.blocks ≡ self.old.blocks }
        ensures faults { HasCause self.old.faults self.new.faults result }
        ensures write_faults { HasCause self.old.write_faults self.new.write_faults result }
        ensures say_faults { self.new.say_faults ≡ self.old.say_faults }
        ensures plan { Follows self.old.plan self.new.plan result (self.new.calls ≡ self.old.calls) }
    {
        let fails = self.failing.next();
        let kept = self.recording.add_sync(!fails);
        if fails || kept.is_err() {
            self.faults = self.faults.saturating_add(1);
            self.write_faults = self.write_faults.saturating_add(1);
            return Err(Failed);
        }
        Ok(())
    }

    fn say(&mut self, bytes: &[u8]) -> Result<(), Failed>
        ensures did { GoesOn self.old self.new (DidSay bytes.now result) }
        ensures blocks { self.new.blocks ≡ self.old.blocks }
        ensures faults { self.new.faults ≡ self.old.faults }
        ensures write_faults { self.new.write_faults ≡ self.old.write_faults }
        ensures say_faults { HasCause self.old.say_faults self.new.say_faults result }
        ensures plan { Follows self.old.plan self.new.plan result (self.new.calls ≡ self.old.calls) }
    {
        let fails = self.failing.next();
        let count = if fails { bytes.len() / 2 } else { bytes.len() };
        let kept = self.recording.add_say(&bytes[..count]);
        if fails || kept.is_err() {
            self.say_faults = self.say_faults.saturating_add(1);
            return Err(Failed);
        }
        Ok(())
    }
}
