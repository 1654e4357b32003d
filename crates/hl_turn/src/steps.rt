// One step of a seat on the table.
ghost use Rattle.std.specs.Prelude.{◌≡◌, ℕ, ◌+◌, ◌%◌, ◌^◌, ◌<◌, ◌≤◌, Some, [], ◌∷◌};
ghost use Rattle.hl_turn.specs.Jobs.{held_after};
ghost use Rattle.hl_turn.specs.Asking.{MayAsk, IsReady};
ghost use Rattle.hl_turn.specs.Kinds.{Takes, looks, counts_step};
ghost use Rattle.hl_turn.specs.Calls.{IsWork, IsReturned, MayCount};
ghost use Rattle.hl_turn.specs.declared.view.Stage.TheVariants.{Idle, Drawn};

use crate::kinds::{Count, Draw, Give, Left, Look, Take};
use crate::object::Object;
use crate::rule::{InTurn, Terms};
use crate::view::View;
use atomic_table::{Seat, Shared};
use std::alloc::Global;
use std::marker::Brand;
use std::snapshot::Snapshot;
use std::sync::Wait;

// The three words.
const TICKET: usize = 0;

const SERVING: usize = 1;

const COUNT: usize = 2;

pub(crate) type Words<T> = Shared<
    T,
    View<T, <T as Object>::Entry, <T as Object>::Item, <T as Object>::Claim>,
    Terms<T>,
    InTurn,
>;

pub(crate) type Place<T> = Seat<
    T,
    View<T, <T as Object>::Entry, <T as Object>::Item, <T as Object>::Claim>,
>;

// Waits until the seat has the object. It sleeps while the word serving is as it was found.
fn await_turn<T: Object, R: Wait>(rt: &R, words: &Words<T>, seat: &mut Place<T>, ticket: u64)
    requires fits { (seat.old.table_id ≡ words.now.table_id) × (words.now.table_id.words ≡ 3) }
    requires drawn { (seat.old.me.0.stage ≡ Drawn) × (ticket ≡ seat.old.me.0.ticket % 2 ^ 64) }
    ensures fits { (seat.new.table_id ≡ seat.old.table_id) × (seat.new.id ≡ seat.old.id) }
    ensures taken { Takes T.entries T.legal_over T.jobs_out T.meets seat.old.me seat.new.me }
{
    for _ in rt.forever() {
        let found = words.load::<Take>(seat, SERVING);
        if found == ticket {
            return;
        }
        words.park(rt, SERVING, (found % 4294967296) as u32);
    }
    unreachable!()
}

// The object in the seat's hand makes one step.
fn work<T: Object>(
    words: &Words<T>,
    seat: &mut Place<T>,
    alloc: Global,
    event: T::Event,
) -> T::Answer
    requires fits { seat.old.table_id ≡ words.now.table_id }
    requires ready { (x o : T) × (seat.old.me.1 ≡ (0, x) ∷ [])
        × IsReady T.legal_over T.jobs_out T.meets T.asks T.brings T.returns o x seat.old.me.0.number seat.old.me.0.holds event }
    ensures fits { (seat.new.table_id ≡ seat.old.table_id) × (seat.new.id ≡ seat.old.id) }
    ensures work { IsWork T.entries T.seat_of T.legal_over T.jobs_out T.meets T.does T.brings T.takes
        seat.old.me.0.number seat.old.me event result seat.new.me }
{
    let object = seat.slot_mut(words, 0);
    object.step(alloc, event)
}

// Counts the step, whose event and answer say what the seat holds from now on.
fn count<T: Object, W: Left<T::Item>>(
    words: &Words<T>,
    seat: &mut Place<T>,
    _asked: &Snapshot<T::Event>,
    _answer: &T::Answer,
)
    requires fits { (seat.old.table_id ≡ words.now.table_id) × (words.now.table_id.words ≡ 3) }
    requires left { W.left ≡ held_after T.brings T.takes seat.old.me.0.holds _asked.now.value _answer.now }
    requires may { MayCount T.entries T.seat_of T.jobs_out T.meets
        (held_after T.brings T.takes seat.old.me.0.holds _asked.now.value _answer.now) seat.old.me }
    ensures fits { (seat.new.table_id ≡ seat.old.table_id) × (seat.new.id ≡ seat.old.id) }
    ensures counts { counts_step T.entries T.jobs_out
        (held_after T.brings T.takes seat.old.me.0.holds _asked.now.value _answer.now) seat.old.me seat.new.me }
{
    words.fetch_add::<Count<W>>(seat, COUNT, 1);
}

// Draws a ticket, waits for its turn, has the object make the step, counts it, and gives the object back.
pub(crate) fn step<T: Object, R: Wait>(
    rt: &R,
    words: &Words<T>,
    seat: &mut Place<T>,
    alloc: Global,
    event: T::Event,
) -> T::Answer
    requires fits { (seat.old.table_id ≡ words.now.table_id) × (words.now.table_id.words ≡ 3) × (words.now.table_id.slots ≡ 1) }
    requires idle { (seat.old.me.0.stage ≡ Idle) × (seat.old.me.1 ≡ []) }
    requires opening { seat.old.me.0.opening ≡ Some words.now.key.opening.value }
    requires may { MayAsk T.asks T.brings T.returns seat.old.me.0.number seat.old.me.0.holds event }
    ensures fits { (seat.new.table_id ≡ seat.old.table_id) × (seat.new.id ≡ seat.old.id) × (seat.new.me.1 ≡ []) }
    ensures returned { IsReturned T.entries T.seat_of T.legal_over T.jobs_out T.meets T.does T.brings T.takes
        words.now.key.opening.value seat.old.me.0 event result seat.new.me.0 }
{
    let ticket = words.fetch_add::<Draw>(seat, TICKET, 1);
    await_turn(rt, words, seat, ticket);
    let asked = Snapshot::of(&event);
    let answer = work(words, seat, alloc, event);
    count::<T, Brand>(words, seat, &asked, &answer);
    words.fetch_add::<Give>(seat, SERVING, 1);
    words.wake_all(SERVING);
    answer
}

// Loads how many steps were counted.
pub(crate) fn progress<T: Object>(words: &Words<T>, seat: &mut Place<T>) -> u64
    requires fits { (seat.old.table_id ≡ words.now.table_id) × (words.now.table_id.words ≡ 3) }
    requires idle { seat.old.me.0.stage ≡ Idle }
    ensures fits { (seat.new.table_id ≡ seat.old.table_id) × (seat.new.id ≡ seat.old.id) }
    ensures looks { looks seat.old.me result seat.new.me }
{
    words.load::<Look>(seat, COUNT)
}
