//! What is counted of the nodes that a store has now.

ghost use Rattle.std.specs.Prelude.{◌≡◌, ◌+◌, ◌<◌, ◌≤◌, ◌^◌, MatchOption, length, slice_get, Some};
ghost use Rattle.hl_addr.specs.Layout.{Layout};
ghost use Rattle.hl_overlay.specs.declared.draft.NodeDraft.{NodeDraft as Draft};
ghost use Rattle.hl_tally.specs.Counting.{added, charge_at, far_charge, own_charge, removed, without_own};
ghost use Rattle.hl_store.specs.Footings.{footing_of};
ghost use Rattle.hl_store.specs.Numbers.{AreAllUsed, IsLowestFree};

use crate::footing::Footing;
use crate::in_use::InUse;
use crate::live::{add_live, is_logged, remove_live};
use hl_overlay::{DIRECT, Pointer, Shape};
use std::marker::Model;

/// The numbers in use, the charge in blocks, and the number of live blocks of each log segment.
#[derive(Drop)]
pub(crate) struct Counts {
    in_use: InUse,
    charge: u32,
    /// By the number of the segment, from 1 on.
    live: Vec<u32>,
}

impl Model for Counts {
    ghost use Rattle.hl_tally.specs.Tally.{Tally};

    ghost Value = { Tally };

    ghost view = { λ n. record { in_use = n.in_use; charge = n.charge; live = n.live.items } };
}

impl Counts {
    ghost use Rattle.std.specs.List.{fold};
    ghost use Rattle.hl_store.specs.Footings.{CountsBlock, CountsShape};

    /// What was counted before.
    pub(crate) fn of(in_use: InUse, charge: u32, live: Vec<u32>) -> Counts
        ensures { result ≡ record { in_use = in_use; charge = charge; live = live.items } }
    {
        Counts {
            in_use,
            charge,
            live,
        }
    }

    /// Whether a number is in use.
    pub(crate) fn is_in_use(&self, ino: u32) -> bool
        requires { ino < length self.now.in_use }
        ensures { slice_get self.now.in_use ino ≡ Some result }
    {
        self.in_use.contains(ino)
    }

    /// The lowest number that isn't in use; none where all are.
    pub(crate) fn lowest_free(&self) -> Option<u32>
        ensures { MatchOption result (AreAllUsed self.now.in_use 1 (length self.now.in_use))
            (IsLowestFree self.now.in_use) }
    {
        self.in_use.lowest_free()
    }

    /// What the nodes are charged, in blocks.
    pub(crate) fn charge(&self) -> u32
        ensures { result ≡ self.now.charge }
    {
        self.charge
    }

    /// The number of live blocks of each log segment, from 1 on.
    pub(crate) fn live(&self) -> &[u32]
        ensures { result.now ≡ self.now.live }
    {
        self.live.as_slice()
    }

    /// A block of a node with a footing, which was where the pointer tells, is charged so much from now on.
    pub(crate) fn change_block(
        &mut self,
        k: u32,
        i: u32,
        was: &Footing,
        before: Pointer,
        held: u32,
        is: &Footing,
    )
        requires k { 0 < k }
        requires held { held ≤ 1 }
        ensures counts { CountsBlock k i was.now before held is.now self.old self.new }
        ensures numbers { self.new.in_use ≡ self.old.in_use }
        ensures segments { length self.new.live ≡ length self.old.live }
    {
        let gone = self.charge_at(k, before) + far_charge(was);
        self.let_own_go(k, was);
        if DIRECT <= i {
            remove_live(k, &mut self.live, was.single);
        }
        if let Pointer::Kept(addr) = before {
            remove_live(k, &mut self.live, addr);
        }
        self.charge = self
            .charge
            .saturating_add(held + far_charge(is))
            .saturating_sub(gone);
    }

    /// A number with a footing is of another shape from now on, or of none.
    pub(crate) fn change_shape(
        &mut self,
        k: u32,
        ino: u32,
        was: &Footing,
        before: Option<Shape>,
        shape: Option<Shape>,
    )
        requires k { 0 < k }
        requires low { 1 ≤ ino }
        requires high { ino < length self.old.in_use }
        ensures counts { CountsShape k ino was.now before shape self.old self.new }
        ensures numbers { length self.new.in_use ≡ length self.old.in_use }
        ensures segments { length self.new.live ≡ length self.old.live }
    {
        self.let_own_go(k, was);
        self.charge = self
            .charge
            .saturating_add(own_charge(shape))
            .saturating_sub(own_charge(before));
        if shape.is_some() {
            self.in_use.add(ino);
        } else {
            self.in_use.remove(ino);
        }
    }

    /// Blocks of a unit lie at these addresses.
    pub(crate) fn add_blocks(&mut self, k: u32, plan: &[u32])
        requires { 0 < k }
        ensures { self.new ≡ record self.old { live = fold (added k) self.old.live plan.now } }
    {
        'blocks: for addr in plan {
            add_live(k, &mut self.live, *addr);
        }
    }

    /// Blocks at these addresses aren't live any more.
    pub(crate) fn remove_blocks(&mut self, k: u32, gone: &[u32])
        requires { 0 < k }
        ensures { self.new ≡ record self.old { live = fold (removed k) self.old.live gone.now } }
    {
        'blocks: for addr in gone {
            remove_live(k, &mut self.live, *addr);
        }
    }

    /// What the first change of a draft lets go.
    fn let_own_go(&mut self, k: u32, was: &Footing)
        requires { 0 < k }
        ensures live { (d : Draft) → footing_of d ≡ was.now
            → self.new.live ≡ without_own k d self.old.live }
        ensures rest { self.new ≡ record self.old { live = self.new.live } }
        ensures segments { length self.new.live ≡ length self.old.live }
    {
        if !was.changed {
            remove_live(k, &mut self.live, was.own);
        }
    }

    /// What a block is charged that was where the pointer tells.
    fn charge_at(&self, k: u32, before: Pointer) -> u32
        requires { 0 < k }
        ensures value { (g : Layout) → g.k ≡ k → g.log ≡ length self.now.live
            → result ≡ charge_at g before }
        ensures most { result ≤ 1 }
    {
        match before {
            Pointer::Hole | Pointer::Moved { .. } => 0,
            Pointer::Kept(addr) => {
                if is_logged(k, self.live.len(), addr) {
                    1
                } else {
                    0
                }
            }
            Pointer::New(_) => 1,
        }
    }
}

/// What a draft is charged for its pointer block.
fn far_charge(footing: &Footing) -> u32
    ensures value { (d : Draft) → footing_of d ≡ footing.now → result ≡ far_charge d }
    ensures most { result ≤ 1 }
{
    if footing.far { 1 } else { 0 }
}

/// What a number is charged besides its blocks.
fn own_charge(shape: Option<Shape>) -> u32
    ensures value { result ≡ own_charge shape }
    ensures most { result ≤ 1 }
{
    if shape.is_some() { 1 } else { 0 }
}
