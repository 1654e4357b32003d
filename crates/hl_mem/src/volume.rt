//! A removable volume in memory.

ghost use Rattle.std.specs.Prelude.{◌≡◌, ℕ, get_or, ◌<◌, ◌≤◌, ◌*◌, ◌≢◌, [], length, replicate, Some, IfOk, OnOk, OnErr};
ghost use Rattle.hl_bytes.specs.Fields.{zeros};
ghost use Rattle.hl_media.specs.Causes.{HasCause};
ghost use Rattle.hl_mem.specs.Failing.{Follows, planned};
ghost use Rattle.hl_media.specs.Volumes.{DidSyncSlots, DidWriteSlot, Gives, IsSegment, MayHold, MeetsMedium, UnlessSegment, volume_at_moment, volume_moment};
ghost use Rattle.hl_mem.specs.Transfers.{Reopens, SameHistory, VolumeGoesOn, opened_volume, torn_slot, volume_history, zero_slots};

use crate::failing::Failing;
use crate::segment::{bytes_of, copy_of, fill};
use crate::tear::Tear;
use crate::transfers::Transfers;
use hl_bytes::SegBuf;
use hl_media::{Failed, Volume, Written};
use std::alloc::{AllocError, Global};
use std::marker::Model;

/// A volume in memory. It tells what its slots held at first and each call since.
///
/// A call that finds no memory for its record fails, is counted, and changes nothing else. A write that is told to fail,
/// or that meets the end of the medium, is recorded, and leaves what was there.
#[derive(Drop)]
pub struct MemVolume {
    alloc: Global,
    slot_blocks: u32,
    capacity: u32,
    opening: Vec<SegBuf>,
    held: Vec<SegBuf>,
    transfers: Transfers,
    failing: Failing,
    faults: u64,
}

impl Model for MemVolume {
    ghost use Rattle.std.specs.Prelude.{◌*◌};
    ghost use Rattle.hl_mem.specs.Transfers.{ToldVolume, IsKeptVolume};

    ghost Value = { ToldVolume };

    ghost view = { λ volume. record {
      slot_blocks = volume.slot_blocks;
      capacity = volume.capacity;
      opening = volume.opening.items;
      calls = volume.transfers;
      plan = volume.failing;
      faults = volume.faults;
    } };

    ghost invariant = { λ volume. IsKeptVolume (4096 * volume.slot_blocks) volume.opening.items volume.held.items volume.transfers };
}

impl MemVolume {
    /// A volume of so many slots of `k` blocks of zeros, the first `capacity` of which the medium has room for.
    pub fn new(alloc: Global, k: u32, slots: u32, capacity: u32) -> Result<MemVolume, AllocError>
        ensures { IfOk result (λ volume. volume ≡ opened_volume k capacity (zero_slots k slots)) }
    {
        let opening = blank_slots(alloc, k, slots)?;
        let held = blank_slots(alloc, k, slots)?;
        Ok(MemVolume {
            alloc,
            slot_blocks: k,
            capacity,
            opening,
            held,
            transfers: Transfers::new(alloc),
            failing: Failing::new(alloc),
            faults: 0,
        })
    }

    /// Makes the call of this number fail, counted from 1 over the reads, writes and syncs that were made. A number
    /// that is past makes none fail.
    pub fn fail_call(&mut self, _alloc: Global, number: u64) -> Result<(), AllocError>
        ensures added { OnOk result (self.new ≡ record self.old { plan = planned self.old.plan number }) }
        ensures kept { OnErr result (self.new ≡ self.old) }
    {
        self.failing.add(number)
    }

    /// Puts one segment into a slot from outside, between two uses of the volume: it is opened anew with it.
    pub fn set_slot(&mut self, slot: u32, bytes: &[u8])
        requires there { slot < length self.old.opening }
        requires whole { length bytes.now ≡ 4096 * self.old.slot_blocks }
        ensures { Reopens self.old self.new slot bytes.now }
    {
        fill(&mut self.held[slot as usize], bytes);
        copy_slots(&mut self.opening, &self.held);
        self.transfers.clear();
    }

    /// The moment that it is: 0 at first, and 2n after the nth recorded call, which is under way at 2n - 1. Reads are
    /// not recorded, nor is a call that finds no memory for its record.
    pub fn now(&self) -> u64
        ensures { result ≡ volume_moment (volume_history self.now) }
    {
        2 * (self.transfers.len() as u64)
    }

    /// What a stop at this moment leaves in the slot, if each write of it that no sync has followed is torn in this
    /// way. The moment is not later than now.
    pub fn stop_slot(
        &self,
        alloc: Global,
        moment: u64,
        slot: u32,
        tear: Tear,
    ) -> Result<SegBuf, AllocError>
        requires there { slot < length self.now.opening }
        requires past { moment ≤ volume_moment (volume_history self.now) }
        ensures may { IfOk result (MayHold (volume_at_moment (volume_history self.now) moment) slot) }
        ensures torn { IfOk result (λ left. left ≡ torn_slot tear slot (get_or self.now.opening slot []) self.now.calls moment) }
    {
        self.transfers
            .stop_slot(alloc, slot, &self.opening[slot as usize], moment, tear)
    }
}

// Slots of zeros.
fn blank_slots(alloc: Global, blocks: u32, slots: u32) -> Result<Vec<SegBuf>, AllocError>
    ensures { IfOk result (λ made. made.items ≡ replicate slots (zeros (4096 * blocks))) }
{
    let mut made = Vec::new(alloc);
    'blank: for _ in 0..slots {
        made.push(SegBuf::new(alloc, blocks)?)?;
    }
    Ok(made)
}

// Puts what each slot has into the slot of that number.
fn copy_slots(to: &mut Vec<SegBuf>, from: &Vec<SegBuf>)
    requires many { length to.old.items ≡ length from.now.items }
    requires sizes { (n : ℕ) → length (get_or to.old.items n []) ≡ length (get_or from.now.items n []) }
    ensures { to.new.items ≡ from.now.items }
{
    'copy: for i in 0..from.len() {
        fill(&mut to[i], bytes_of(&from[i]));
    }
}

impl Volume for MemVolume {
    ghost use Rattle.std.specs.Prelude.{Some};

    ghost slots = { λ volume. length volume.opening };

    ghost slot_blocks = { λ volume. volume.slot_blocks };

    ghost capacity = { λ volume. Some volume.capacity };

    ghost history = { λ volume. Some (volume_history volume) };

    ghost faults = { λ volume. volume.faults };

    fn slots(&self) -> u32 {
        self.held.len() as u32
    }

    fn faults(&self) -> u64 {
        self.faults
    }

    fn read_seg(&mut self, slot: u32, out: &mut SegBuf) -> Result<(), Failed>
        requires { slot < length self.old.opening }
        ensures bytes { OnOk result (Gives (Some (volume_history self.old)) slot out.new) }
        ensures whole { OnOk result (IsSegment self.old.slot_blocks out.old) }
        ensures size { length out.new ≡ length out.old }
        ensures other_size { UnlessSegment self.old.slot_blocks out.old (out.new ≡ out.old) }
        ensures history { SameHistory self.old self.new }
        ensures slots { length self.new.opening ≡ length self.old.opening }
        ensures slot_blocks { self.new.slot_blocks ≡ self.old.slot_blocks }
        ensures capacity { Some self.new.capacity ≡ Some self.old.capacity }
        ensures faults { HasCause self.old.faults self.new.faults result }
        ensures plan { Follows self.old.plan self.new.plan result (4096 * self.old.slot_blocks ≢ length out.old) }
    {
        if self.failing.next() || out.blocks() != self.slot_blocks {
            self.faults = self.faults.saturating_add(1);
            return Err(Failed);
        }
        fill(out, bytes_of(&self.held[slot as usize]));
        Ok(())
    }

    fn write_seg(&mut self, slot: u32, from: &SegBuf) -> Result<Written, Failed>
        requires { slot < length self.old.opening }
        ensures did { VolumeGoesOn self.old self.new (DidWriteSlot slot from.now result) }
        ensures whole { OnOk result (IsSegment self.old.slot_blocks from.now) }
        ensures other_size { UnlessSegment self.old.slot_blocks from.now (SameHistory self.old self.new) }
        ensures medium { IfOk result (MeetsMedium (Some self.old.capacity) slot) }
        ensures slots { length self.new.opening ≡ length self.old.opening }
        ensures slot_blocks { self.new.slot_blocks ≡ self.old.slot_blocks }
        ensures capacity { Some self.new.capacity ≡ Some self.old.capacity }
        ensures faults { HasCause self.old.faults self.new.faults result }
        ensures plan { Follows self.old.plan self.new.plan result (self.new.calls ≡ self.old.calls) }
    {
        let fails = self.failing.next();
        if from.blocks() != self.slot_blocks {
            self.faults = self.faults.saturating_add(1);
            return Err(Failed);
        }
        if fails || slot >= self.capacity {
            let after = &self.held[slot as usize];
            let kept = self
                .transfers
                .add_failed_write(self.alloc, slot, from, after);
            if fails || kept.is_err() {
                self.faults = self.faults.saturating_add(1);
                return Err(Failed);
            }
            return Ok(Written::EndOfMedium);
        }
        if self.transfers.add_write(self.alloc, slot, from).is_err() {
            self.faults = self.faults.saturating_add(1);
            return Err(Failed);
        }
        fill(&mut self.held[slot as usize], bytes_of(from));
        Ok(Written::Done)
    }

    fn sync(&mut self) -> Result<(), Failed>
        ensures did { VolumeGoesOn self.old self.new (DidSyncSlots result) }
        ensures slots { length self.new.opening ≡ length self.old.opening }
        ensures slot_blocks { self.new.slot_blocks ≡ self.old.slot_blocks }
        ensures capacity { Some self.new.capacity ≡ Some self.old.capacity }
        ensures faults { HasCause self.old.faults self.new.faults result }
        ensures plan { Follows self.old.plan self.new.plan result (self.new.calls ≡ self.old.calls) }
    {
        let fails = self.failing.next();
        let kept = self.transfers.add_sync(!fails);
        if fails || kept.is_err() {
            self.faults = self.faults.saturating_add(1);
            return Err(Failed);
        }
        Ok(())
    }
}
