// What may lie under the lock.
ghost use Rattle.std.specs.Prelude.{◌≡◌, ℕ, Option, List, [], ◌++◌};
ghost use Rattle.hl_turn.specs.Entries.{IsOwn};
ghost use Rattle.hl_turn.specs.Jobs.{Shifts, held_after};
ghost use Rattle.hl_turn.specs.Asking.{IsReady};

use std::alloc::Global;

/// An object that stands for a list of entries and for the jobs that are out. It does one step at a time.
///
/// Want of memory is a value of `Answer`.
pub trait Object {
    /// What a step is asked. One that may give an entry names the number of its seat.
    type Event;
    /// What a step answers.
    type Answer;
    /// One line of the object's list. It names the number of a seat.
    type Entry;
    /// What a seat holds of a job that is out: plain data, as the job left.
    type Item;
    /// What the object relies on in a job that is out: plain data.
    type Claim;

    // The list of entries.
    ghost entries: { Self → List Self.Entry };

    // The number of the seat that an entry names.
    ghost seat_of: { Self.Entry → ℕ };

    // The second is legal over the first, the object as it was when the lock was made.
    ghost legal_over: { Self → Self → Type 0 };

    // The jobs that the second has out, by their numbers, with the claims that it has over the first.
    ghost jobs_out: { Self → Self → List (ℕ × Self.Claim) };

    // A job that left as this item meets the claim.
    ghost meets: { Self.Item → Self.Claim → Type 0 };

    // The seat of this number may give the event.
    ghost asks: { ℕ → Self.Event → Type 0 };

    // The number of the job that the event brings back, if it brings one.
    ghost brings: { Self.Event → Option ℕ };

    // The job that the event brings back is one that left as this item.
    ghost returns: { Self.Event → Self.Item → Type 0 };

    // The job that the answer takes out, if it takes one. It may be the one that the event brought.
    ghost takes: { Self.Event → Self.Answer → Option (ℕ × Self.Item) };

    // What one step does.
    ghost does: { Self → Self.Event → Self.Answer → Self → Type 0 };

    /// Makes one step. It adds at most the one entry that it gives, leaves the object legal, and makes
    /// no claim of a job that stays out greater.
    fn step(&mut self, alloc: Global, event: Self::Event) -> Self::Answer
        requires ready { (o : Self) × (n : ℕ) × (h : List (ℕ × Self.Item))
            × IsReady legal_over jobs_out meets asks brings returns o self.old n h event }
        ensures does { does self.old event result self.new }
        ensures entry { (n : ℕ) → asks n event → (own : List Self.Entry)
            × (entries self.new ≡ entries self.old ++ own) × IsOwn seat_of n own }
        ensures legal { (o : Self) (n : ℕ) (h : List (ℕ × Self.Item))
            → IsReady legal_over jobs_out meets asks brings returns o self.old n h event
            → legal_over o self.new }
        ensures jobs { (o : Self) (n : ℕ) (h : List (ℕ × Self.Item))
            → IsReady legal_over jobs_out meets asks brings returns o self.old n h event
            → Shifts meets h (jobs_out o self.old) (held_after brings takes h event result) (jobs_out o self.new) };

    // An object with no entry and no job out is legal over itself.
    ghost empty_is_legal: { (o : Self) → entries o ≡ [] → jobs_out o o ≡ [] → legal_over o o };
}
