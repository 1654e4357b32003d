//! A volume in a file.

ghost use Rattle.std.specs.Prelude.{◌≡◌, ◌≢◌, ◌*◌, ◌<◌, ◌≤◌, Some, None, Option, length, IfOk, OnOk, IfSome};
ghost use Rattle.hl_media.specs.Causes.{HasCause};
ghost use Rattle.hl_media.specs.Volumes.{VolumeHistory, AddsCalls, DidSyncSlots, DidWriteSlot, Gives, IsSegment, MeetsMedium, UnlessSegment};
ghost use Rattle.hl_host.specs.Devices.{HoldsOn, MayWriteTo, ReadsFrom, WritesTo, first_byte, told_of};

use crate::faults::raise;
use crate::opened::{read_opened, sync_opened, write_opened};
use crate::positional::PositionalFile;
use hl_bytes::SegBuf;
use hl_media::{Failed, Volume, Written};
use std::marker::Model;

/// A volume in a file: its slots one after the other. It tells no history, and that it has room for all its slots.
///
/// Where the file could not be opened each call fails.
#[derive(Drop)]
pub struct FileVolume<F> {
    file: Option<F>,
    slot_blocks: u32,
    slots: u32,
    faults: u64,
}

impl<F> Model for FileVolume<F> {
    ghost use Rattle.hl_host.specs.Devices.{OpenedVolume};

    ghost Value = { OpenedVolume F };

    ghost view = { λ volume. record {
      file = volume.file;
      slot_blocks = volume.slot_blocks;
      slots = volume.slots;
      faults = volume.faults;
    } };
}

impl<F> FileVolume<F> {
    /// A volume of so many slots of `k` blocks in this file, or in none where it could not be opened.
    pub fn new(file: Option<F>, k: u32, slots: u32) -> FileVolume<F>
        ensures { result ≡ record { file = file; slot_blocks = k; slots = slots; faults = 0 } }
    {
        FileVolume {
            file,
            slot_blocks: k,
            slots,
            faults: 0,
        }
    }
}

// The first byte of a slot, if a number of 64 bits tells it.
fn slot_start(blocks: u32, slot: u32) -> Option<u64>
    ensures { IfSome result (λ start. start ≡ first_byte blocks slot) }
{
    (4096 * (blocks as u64)).checked_mul(slot as u64)
}

// Reads a slot of so many blocks, as many as the buffer has.
fn read_slot<F: PositionalFile>(
    file: &mut Option<F>,
    blocks: u32,
    slot: u32,
    out: &mut SegBuf,
) -> Result<(), Failed>
    requires { 4096 * blocks ≡ length out.old }
    ensures there { OnOk result (ReadsFrom F.content file.old (first_byte blocks slot) out.new) }
    ensures size { length out.new ≡ length out.old }
    ensures content { HoldsOn F.content file.old file.new }
{
    match slot_start(blocks, slot) {
        Some(start) => read_opened(file, start, out.part_mut(0, blocks)),
        None => Err(Failed),
    }
}

// Writes a slot of so many blocks, as many as the buffer has.
fn write_slot<F: PositionalFile>(
    file: &mut Option<F>,
    blocks: u32,
    slot: u32,
    from: &SegBuf,
) -> Result<(), Failed>
    requires { 4096 * blocks ≡ length from.now }
    ensures there { OnOk result (WritesTo F.content file.old file.new (first_byte blocks slot) from.now) }
    ensures some { MayWriteTo F.content file.old file.new (first_byte blocks slot) (length from.now) }
{
    match slot_start(blocks, slot) {
        Some(start) => write_opened(file, start, from.part(0, blocks)),
        None => Err(Failed),
    }
}

impl<F: PositionalFile> Volume for FileVolume<F> {
    ghost use Rattle.std.specs.Prelude.{None, Some};

    ghost slots = { λ volume. volume.slots };

    ghost slot_blocks = { λ volume. volume.slot_blocks };

    ghost capacity = { λ volume. Some volume.slots };

    ghost history = { λ volume. None };

    ghost faults = { λ volume. volume.faults };

    fn slots(&self) -> u32 {
        self.slots
    }

    fn faults(&self) -> u64 {
        self.faults
    }

    fn read_seg(&mut self, slot: u32, out: &mut SegBuf) -> Result<(), Failed>
        requires { slot < self.old.slots }
        ensures bytes { OnOk result (Gives None slot out.new) }
        ensures whole { OnOk result (IsSegment self.old.slot_blocks out.old) }
        ensures size { length out.new ≡ length out.old }
        ensures other_size { UnlessSegment self.old.slot_blocks out.old (out.new ≡ out.old) }
        ensures history { ◌≡◌ {A = Option VolumeHistory} None None }
        ensures slots { self.new.slots ≡ self.old.slots }
        ensures slot_blocks { self.new.slot_blocks ≡ self.old.slot_blocks }
        ensures capacity { Some self.new.slots ≡ Some self.old.slots }
        ensures faults { HasCause self.old.faults self.new.faults result }
        ensures there { OnOk result (ReadsFrom F.content self.old.file (first_byte self.old.slot_blocks slot) out.new) }
        ensures content { HoldsOn F.content self.old.file self.new.file }
    {
        if out.blocks() != self.slot_blocks {
            raise(&mut self.faults);
            return Err(Failed);
        }
        if read_slot(&mut self.file, self.slot_blocks, slot, out).is_ok() {
            return Ok(());
        }
        raise(&mut self.faults);
        Err(Failed)
    }

    fn write_seg(&mut self, slot: u32, from: &SegBuf) -> Result<Written, Failed>
        requires { slot < self.old.slots }
        ensures did { AddsCalls None None (DidWriteSlot slot from.now result) }
        ensures whole { OnOk result (IsSegment self.old.slot_blocks from.now) }
        ensures other_size { UnlessSegment self.old.slot_blocks from.now (◌≡◌ {A = Option VolumeHistory} None None) }
        ensures medium { IfOk result (MeetsMedium (Some self.old.slots) slot) }
        ensures slots { self.new.slots ≡ self.old.slots }
        ensures slot_blocks { self.new.slot_blocks ≡ self.old.slot_blocks }
        ensures capacity { Some self.new.slots ≡ Some self.old.slots }
        ensures faults { HasCause self.old.faults self.new.faults result }
        ensures there { OnOk result (WritesTo F.content self.old.file self.new.file (first_byte self.old.slot_blocks slot) from.now) }
        ensures some { MayWriteTo F.content self.old.file self.new.file (first_byte self.old.slot_blocks slot) (length from.now) }
    {
        if from.blocks() != self.slot_blocks {
            raise(&mut self.faults);
            return Err(Failed);
        }
        if write_slot(&mut self.file, self.slot_blocks, slot, from).is_ok() {
            return Ok(Written::Done);
        }
        raise(&mut self.faults);
        Err(Failed)
    }

    fn sync(&mut self) -> Result<(), Failed>
        ensures did { AddsCalls None None (DidSyncSlots result) }
        ensures slots { self.new.slots ≡ self.old.slots }
        ensures slot_blocks { self.new.slot_blocks ≡ self.old.slot_blocks }
        ensures capacity { Some self.new.slots ≡ Some self.old.slots }
        ensures faults { HasCause self.old.faults self.new.faults result }
        ensures lasts { OnOk result (told_of F.lasting self.new.file ≡ told_of F.content self.old.file) }
        ensures content { HoldsOn F.content self.old.file self.new.file }
    {
        if sync_opened(&mut self.file).is_ok() {
            return Ok(());
        }
        raise(&mut self.faults);
        Err(Failed)
    }
}
