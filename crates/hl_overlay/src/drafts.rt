//! The drafts of the nodes that were prepared or changed, found by number without a search.

ghost use Rattle.std.specs.Prelude.{◌≡◌, ◌+◌, ◌*◌, ◌<◌, ◌≤◌, ◌++◌, ◌∷◌, [], false, cond, IfOk, OnOk, OnErr, IfSome, None, All, length};
ghost use Rattle.std.specs.List.{filter};
ghost use Rattle.std.specs.Option.{option_copied};
ghost use Rattle.hl_overlay.specs.Clearing.{HaveOwnNumbers, IsClearedTo, IsPlacedTo};
ghost use Rattle.hl_overlay.specs.Drafting.{IsDraft, is_changed, is_freed};
ghost use Rattle.hl_overlay.specs.Pointing.{IsAddressed};

use crate::draft::{NodeDraft, Shape};
use crate::pointers::Pointer;
use std::alloc::{AllocError, Global};
use std::marker::Model;

/// The place of a number that isn't drafted.
const NOWHERE: usize = 18_446_744_073_709_551_615;

/// The drafts in the order in which they came, and where that of each number stands. How much the next unit has of them
/// is kept.
#[derive(Drop)]
pub struct Drafts {
    items: Vec<NodeDraft>,
    places: Vec<usize>,
    /// The blocks besides the new ones.
    others: u32,
    /// The numbers that become free.
    freed: u32,
}

impl Model for Drafts {
    ghost use Rattle.hl_overlay.specs.DraftTables.{DraftTable, IsCounted};

    ghost Value = { DraftTable };

    ghost view = { λ t. record { items = t.items.items; places = t.places.items } };

    ghost invariant = { λ t. IsCounted (record { items = t.items.items; places = t.places.items }) t.others t.freed };
}

impl Drafts {
    ghost use Rattle.hl_overlay.specs.DraftTables.{CanShape, HasBlock, HasNone, IsDraftTable, Redrafts, Trims, draft_of, freed_of, others_of};
    ghost use Rattle.hl_overlay.specs.Overlays.{Points, Shapes};

    /// Room for the numbers from 0 on, none of them drafted. A site has at most 2,048.
    pub fn new(alloc: Global, inodes: u32) -> Result<Drafts, AllocError>
        requires { inodes ≤ 2048 }
        ensures none { IfOk result (λ t. t.items ≡ []) }
        ensures numbers { IfOk result (λ t. length t.places ≡ inodes) }
    {
        let places = vec![in alloc; NOWHERE; inodes as usize]?;
        Ok(Drafts {
            items: Vec::new(alloc),
            places,
            others: 0,
            freed: 0,
        })
    }

    /// No room for any number. It takes no memory.
    pub fn hollow(alloc: Global) -> Drafts
        ensures { result ≡ record { items = []; places = [] } }
    {
        Drafts {
            items: Vec::new(alloc),
            places: Vec::new(alloc),
            others: 0,
            freed: 0,
        }
    }

    /// The drafts in their order.
    pub fn items(&self) -> &[NodeDraft]
        ensures value { result.now ≡ self.now.items }
        ensures is { IsDraftTable self.now }
    {
        self.items.as_slice()
    }

    /// How many numbers there are, from 0 on.
    pub fn numbers(&self) -> u32
        ensures { result ≡ length self.now.places }
    {
        self.places.as_slice().len() as u32
    }

    /// How many blocks the next unit has of them besides their new ones.
    pub fn others(&self) -> u32
        ensures value { result ≡ others_of self.now }
        ensures most { result ≤ 2 * length self.now.places }
        ensures whole { IsDraftTable self.now }
    {
        self.others
    }

    /// How many numbers the next unit frees.
    pub fn freed(&self) -> u32
        ensures value { result ≡ length (freed_of self.now.items) }
        ensures most { result ≤ length self.now.places }
    {
        self.freed
    }

    /// The draft of a number.
    pub fn get(&self, ino: u32) -> Option<&NodeDraft>
        requires { ino < length self.now.places }
        ensures value { option_copied result ≡ draft_of self.now ino }
        ensures is { IfSome result (λ draft. IsDraft draft.now) }
        ensures whole { IsDraftTable self.now }
    {
        let place = self.places[ino as usize];
        self.items.get(place)
    }

    /// Adds the draft of a number that has none, as it was read.
    pub fn admit(&mut self, draft: NodeDraft) -> Result<(), AllocError>
        requires number { draft.ino < length self.old.places }
        requires none { draft_of self.old draft.ino ≡ None }
        requires is { IsDraft draft }
        requires unchanged { draft.changed ≡ false }
        ensures ok { OnOk result (Redrafts self.old self.new draft.ino draft) }
        ensures last { OnOk result (self.new.items ≡ self.old.items ++ draft ∷ []) }
        ensures err { OnErr result (self.new ≡ self.old) }
    {
        let ino = draft.ino;
        let place = self.items.as_slice().len();
        self.items.push(draft)?;
        self.places[ino as usize] = place;
        Ok(())
    }

    /// Says where a block of a drafted node is, below its size.
    pub fn point(&mut self, ino: u32, i: u32, pointer: Pointer)
        requires number { ino < length self.old.places }
        requires block { HasBlock self.old ino i }
        requires addressed { IsAddressed pointer }
        ensures is { IsDraftTable self.new }
        ensures moved { Points self.old self.new ino i pointer }
    {
        let place = self.places[ino as usize];
        let draft = &mut self.items[place];
        let before = draft.others();
        draft.point(i, pointer);
        self.others = self.others + draft.others() - before;
    }

    /// Says what a drafted node is to be. It has no block past that size.
    pub fn set_shape(&mut self, ino: u32, shape: Option<Shape>)
        requires number { ino < length self.old.places }
        requires can { CanShape self.old ino shape }
        ensures { Shapes self.old self.new ino shape }
    {
        let place = self.places[ino as usize];
        let draft = &mut self.items[place];
        let others = draft.others();
        let freed = freed_one(draft);
        draft.shape = shape;
        draft.changed = true;
        self.others = self.others + draft.others() - others;
        self.freed = self.freed + freed_one(draft) - freed;
    }

    /// GoesAway no number drafted. It takes no memory.
    pub fn clear(&mut self)
        ensures none { HasNone self.new }
        ensures items { self.new.items ≡ [] }
        ensures numbers { length self.new.places ≡ length self.old.places }
    {
        forget(&mut self.places, self.items.as_slice());
        self.items.clear();
        self.others = 0;
        self.freed = 0;
    }

    /// Lets the unchanged drafts go where more than `most` are held. It takes no memory, and time in the drafts held.
    pub fn trim(&mut self, most: usize)
        ensures trims { Trims most self.old self.new }
        ensures is { IsDraftTable self.old }
        ensures whole { IsDraftTable self.new }
    {
        if self.items.as_slice().len() <= most {
            return;
        }
        forget(&mut self.places, self.items.as_slice());
        keep_changed(&mut self.items);
        place_all(&mut self.places, self.items.as_slice());
    }
}

/// GoesAway the changed drafts, in their order.
fn keep_changed(drafts: &mut Vec<NodeDraft>)
    ensures { drafts.new.items ≡ filter is_changed drafts.old.items }
{
    drafts.retain(|draft| draft.changed);
}

/// One, where the number of the draft is freed.
fn freed_one(draft: &NodeDraft) -> u32
    ensures { result ≡ cond (is_freed draft.now) 1 0 }
{
    if draft.is_freed() { 1 } else { 0 }
}

/// Says that the drafts stand nowhere.
fn forget(places: &mut Vec<usize>, drafts: &[NodeDraft])
    requires { All (λ d. d.ino < length places.old.items) drafts.now }
    ensures { IsClearedTo (length drafts.now) drafts.now places.old.items places.new.items }
{
    'places: for draft in drafts {
        places[draft.ino as usize] = NOWHERE;
    }
}

/// Says where each of the drafts stands.
fn place_all(places: &mut Vec<usize>, drafts: &[NodeDraft])
    requires within { All (λ d. d.ino < length places.old.items) drafts.now }
    requires apart { HaveOwnNumbers drafts.now }
    ensures { IsPlacedTo (length drafts.now) drafts.now places.old.items places.new.items }
{
    'places: for (k, draft) in drafts.iter().enumerate() {
        places[draft.ino as usize] = k;
    }
}
