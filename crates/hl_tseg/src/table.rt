//! The slots of all volumes in one row, volume 0 first.

use crate::slot::Slot;
use hl_addr::{Geometry, Numbers};
use std::alloc::{AllocError, Global};
use std::marker::Model;

/// What each slot of the volumes holds, and which volumes are full. A slot goes by its number among
/// those of all volumes (`docs/FORMATS.md`, "Address map"). It takes memory when it is made, and
/// never again.
#[derive(Debug, Drop)]
pub struct TsegTable {
    volumes: Numbers,
    slots: Vec<Slot>,
    full: Vec<bool>,
}

impl Model for TsegTable {
    ghost use Rattle.hl_tseg.specs.SlotTable.{SlotTable, IsSlotTable};

    ghost Value = { SlotTable };

    ghost view = { λ t. record { volumes = t.volumes; slots = t.slots.items; full = t.full.items } };

    ghost invariant = { λ t. IsSlotTable (record { volumes = t.volumes; slots = t.slots.items; full = t.full.items }) };
}

impl TsegTable {
    ghost use Rattle.std.specs.Prelude.{◌≡◌, ◌+◌, ◌<◌, ◌↔◌, ℕ, ◌≢◌, ◌≤◌, true, false, length, slice_get, slice_set, Some, IfOk, IfSome, IfNone, IsNone};
    ghost use Rattle.hl_tseg.specs.declared.slot.Slot.TheVariants.{Free};
    ghost use Rattle.hl_tseg.specs.SlotTable.{IsOpen, IsSlotTable, fresh, with_run};

    /// A table of the site's volumes: all slots free, and no volume full.
    pub fn new(alloc: Global, geometry: &Geometry) -> Result<TsegTable, AllocError>
        ensures { IfOk result (λ t. t ≡ fresh geometry.now) }
    {
        let slots = vec![in alloc; Slot::Free; geometry.slots() as usize]?;
        let full = vec![in alloc; false; geometry.volumes.items().len()]?;
        let volumes = geometry.volumes.copy(alloc)?;
        Ok(TsegTable {
            volumes,
            slots,
            full,
        })
    }

    /// What each slot holds, volume 0 first.
    pub fn items(&self) -> &[Slot]
        ensures value { result.now ≡ self.now.slots }
        ensures limits { IsSlotTable self.now }
    {
        self.slots.as_slice()
    }

    /// Whether each volume is full.
    pub fn full(&self) -> &[bool]
        ensures value { result.now ≡ self.now.full }
        ensures limits { IsSlotTable self.now }
    {
        self.full.as_slice()
    }

    /// What a slot holds.
    pub fn slot(&self, tseg: u32) -> Slot
        requires { tseg < length self.now.slots }
        ensures { slice_get self.now.slots tseg ≡ Some result }
    {
        self.slots[tseg as usize]
    }

    /// Gives a slot what it holds from now on.
    pub fn set(&mut self, tseg: u32, slot: Slot)
        requires { tseg < length self.old.slots }
        ensures { self.new ≡ record self.old { slots = slice_set self.old.slots tseg slot } }
    {
        self.put(tseg as usize, slot);
    }

    /// Gives slots one after the other what they hold from now on.
    pub fn set_run(&mut self, from: u32, slots: &[Slot])
        requires { from + length slots.now ≤ length self.old.slots }
        ensures { self.new ≡ record self.old { slots = with_run self.old.slots from slots.now } }
    {
        'run: for (i, slot) in slots.iter().enumerate() {
            self.put(from as usize + i, *slot);
        }
    }

    /// Whether a volume is full.
    pub fn is_full(&self, volume: u32) -> bool
        requires { volume < length self.now.volumes }
        ensures { slice_get self.now.full volume ≡ Some result }
    {
        self.full[volume as usize]
    }

    /// Says of a volume that it is full.
    pub fn mark_full(&mut self, volume: u32)
        requires { volume < length self.old.volumes }
        ensures { self.new ≡ record self.old { full = slice_set self.old.full volume true } }
    {
        self.full[volume as usize] = true;
    }

    /// Says of each volume whether it is full.
    pub fn set_full(&mut self, full: &[bool])
        requires { length full.now ≡ length self.old.full }
        ensures { self.new ≡ record self.old { full = full.now } }
    {
        self.full.copy_from_slice(full);
    }

    /// The first free slot of the lowest volume that isn't full and has one. None exactly where no
    /// slot is free on a volume that isn't full. It walks the slots.
    pub fn next_free(&self) -> Option<u32>
        ensures open { IfSome result (λ number. IsOpen self.now number) }
        ensures first { IfSome result (λ number. (other : ℕ) → other < number → ¬ IsOpen self.now other) }
        ensures none { IsNone result ↔ ((number : ℕ) → ¬ IsOpen self.now number) }
    {
        let mut first = 0;
        'volumes: for (volume, slots) in self.volumes.items().iter().enumerate() {
            let end = first + *slots;
            if let Some(number) = self.open_in(volume as u32, first, end) {
                return Some(number);
            }
            first = end;
        }
        None
    }

    /// Gives the slot at a place what it holds from now on.
    fn put(&mut self, at: usize, slot: Slot)
        requires { at < length self.old.slots }
        ensures { self.new ≡ record self.old { slots = slice_set self.old.slots at slot } }
    {
        self.slots[at] = slot;
    }

    /// The first free slot of a volume that isn't full, whose slots are those from `first` up to
    /// `end`.
    fn open_in(&self, volume: u32, first: u32, end: u32) -> Option<u32>
        requires volume { volume < length self.now.volumes }
        requires order { first ≤ end }
        requires within { end ≤ length self.now.slots }
        ensures found { IfSome result (λ number. (first ≤ number) × (number < end) × (slice_get self.now.slots number ≡ Some Free) × (slice_get self.now.full volume ≡ Some false)) }
        ensures first { IfSome result (λ number. (other : ℕ) → first ≤ other → other < number → slice_get self.now.slots other ≢ Some Free) }
        ensures none { IfNone result ((number : ℕ) → first ≤ number → number < end → slice_get self.now.slots number ≡ Some Free → slice_get self.now.full volume ≡ Some false → ⊥) }
    {
        if self.full[volume as usize] {
            None
        } else {
            first_free(&self.slots, first, end)
        }
    }
}

ghost use Rattle.std.specs.Prelude.{◌≡◌, ◌≢◌, ◌+◌, ◌<◌, ◌≤◌, ℕ, length, slice_get, Some, IfSome, IfNone};
ghost use Rattle.hl_tseg.specs.declared.slot.Slot.TheVariants.{Free};

/// The first free slot of those from `from` up to `end`.
fn first_free(slots: &[Slot], from: u32, end: u32) -> Option<u32>
    requires order { from ≤ end }
    requires within { end ≤ length slots.now }
    ensures found { IfSome result (λ number. (from ≤ number) × (number < end) × (slice_get slots.now number ≡ Some Free)) }
    ensures first { IfSome result (λ number. (other : ℕ) → from ≤ other → other < number → slice_get slots.now other ≢ Some Free) }
    ensures none { IfNone result ((number : ℕ) → from ≤ number → number < end → slice_get slots.now number ≢ Some Free) }
{
    'slots: for number in from..end {
        if slots[number as usize] == Slot::Free {
            return Some(number);
        }
    }
    None
}
