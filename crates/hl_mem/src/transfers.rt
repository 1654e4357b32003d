//! The calls of a volume.

ghost use Rattle.std.specs.Prelude.{◌≡◌, ℕ, List, ◌≤◌, ◌<◌, ◌*◌, ◌^◌, [], length, IfOk, All};
ghost use Rattle.hl_mem.specs.Transfers.{AddsTried, IsSized, SlotLeft, TriedCall, left_begun, left_ended, torn_slot, tried};
ghost use Rattle.hl_mem.specs.Transfers.TriedCall.{TriedWrite, TriedSync};

use crate::segment::{bytes_of, copy_of, fill, tear_over};
use crate::tear::Tear;
use crate::transfer::Transfer;
use hl_bytes::SegBuf;
use std::alloc::{AllocError, Global};
use std::marker::Model;

/// The calls that may have changed a volume, the first of them first.
#[derive(Drop)]
pub struct Transfers {
    calls: Vec<Transfer>,
}

impl Model for Transfers {
    ghost use Rattle.std.specs.Prelude.{List, map};
    ghost use Rattle.hl_mem.specs.Transfers.{TriedCall, tried};

    ghost Value = { List TriedCall };

    ghost view = { λ transfers. map tried transfers.calls.items };
}

impl Transfers {
    /// No call was made.
    pub fn new(alloc: Global) -> Transfers
        ensures { result ≡ [] }
    {
        Transfers {
            calls: Vec::new(alloc),
        }
    }

    /// How many calls were made.
    pub fn len(&self) -> usize
        ensures count { result ≡ length self.now }
        ensures small { result < 2 ^ 63 }
    {
        self.calls.len()
    }

    /// Forgets them.
    pub fn clear(&mut self)
        ensures { self.new ≡ [] }
    {
        self.calls.clear();
    }

    fn add(&mut self, call: Transfer) -> Result<(), AllocError>
        ensures { AddsTried result self.old self.new (tried call) }
    {
        self.calls.push(call)?;
        Ok(())
    }

    /// Adds a write that was done.
    pub fn add_write(&mut self, alloc: Global, slot: u32, bytes: &SegBuf) -> Result<(), AllocError>
        ensures { AddsTried result self.old self.new (TriedWrite slot bytes.now bytes.now) }
    {
        let bytes = copy_of(alloc, bytes)?;
        self.add(Transfer::Writing { slot, bytes })
    }

    /// Adds a write that was not done, and left `after` in the slot.
    pub fn add_failed_write(
        &mut self,
        alloc: Global,
        slot: u32,
        bytes: &SegBuf,
        after: &SegBuf,
    ) -> Result<(), AllocError>
        ensures { AddsTried result self.old self.new (TriedWrite slot bytes.now after.now) }
    {
        let bytes = copy_of(alloc, bytes)?;
        let after = copy_of(alloc, after)?;
        self.add(Transfer::FailedWriting { slot, bytes, after })
    }

    /// Adds a sync that was done, or failed.
    pub fn add_sync(&mut self, succeeded: bool) -> Result<(), AllocError>
        ensures { AddsTried result self.old self.new (TriedSync succeeded) }
    {
        self.add(Transfer::Syncing(succeeded))
    }

    /// What a stop at this moment leaves in the slot, if it held `opening` at first and each write of it that no sync
    /// has followed is torn in this way.
    pub fn stop_slot(
        &self,
        alloc: Global,
        slot: u32,
        opening: &SegBuf,
        moment: u64,
        tear: Tear,
    ) -> Result<SegBuf, AllocError>
        requires sized { All (IsSized (length opening.now)) self.now }
        requires past { moment ≤ 2 * length self.now }
        ensures { IfOk result (λ left. left ≡ torn_slot tear slot opening.now self.now moment) }
    {
        let done = (moment / 2) as usize;
        let mut held = copy_of(alloc, opening)?;
        let mut left = copy_of(alloc, opening)?;
        'redo: for call in &self.calls[..done] {
            redo(call, slot, &mut held, &mut left, tear);
        }
        if moment % 2 == 0 {
            return Ok(left);
        }
        redo_begun(&self.calls[done], slot, &mut left, tear);
        Ok(left)
    }
}

// Does the call again, on what the slot holds and on what a stop leaves in it.
fn redo(call: &Transfer, slot: u32, held: &mut SegBuf, left: &mut SegBuf, tear: Tear)
    requires sized { IsSized (length held.old) (tried call.now) }
    requires same { length left.old ≡ length held.old }
    ensures held_size { length held.new ≡ length held.old }
    ensures left_size { length left.new ≡ length left.old }
    ensures left { record { held = held.new; left = left.new } ≡ left_ended tear slot (record { held = held.old; left = left.old }) (tried call.now) }
{
    match call {
        Transfer::Writing { slot: at, bytes } => {
            if *at == slot {
                fill(held, bytes_of(bytes));
                tear_over(left, bytes, tear);
            }
        }
        Transfer::FailedWriting {
            slot: at,
            bytes,
            after,
        } => {
            if *at == slot {
                fill(held, bytes_of(after));
                tear_over(left, bytes, tear);
            }
        }
        Transfer::Syncing(true) => fill(left, bytes_of(held)),
        Transfer::Syncing(false) => {}
    }
}

// Begins the call again, on what a stop leaves in the slot.
fn redo_begun(call: &Transfer, slot: u32, left: &mut SegBuf, tear: Tear)
    requires { IsSized (length left.old) (tried call.now) }
    ensures { (held : List ℕ) → left.new ≡ (left_begun tear slot (record { held = held; left = left.old }) (tried call.now)).left }
{
    match call {
        Transfer::Writing { slot: at, bytes } => {
            if *at == slot {
                tear_over(left, bytes, tear);
            }
        }
        Transfer::FailedWriting {
            slot: at,
            bytes,
            ..
        } => {
            if *at == slot {
                tear_over(left, bytes, tear);
            }
        }
        Transfer::Syncing(_) => {}
    }
}
