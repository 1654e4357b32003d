// Threads at one desk.
ghost use Rattle.std.specs.Prelude.{◌≡◌, ℕ, ◌<◌, Some, [], ◌∷◌, length, IfSome, slice_get, slice_index_or};
ghost use denote.Param.Send.{IsSync};
ghost use Rattle.hl_turn.specs.Lock.{IsSeatOf};
ghost use Rattle.hl_trial_turn.specs.Slips.{CountsUp};
ghost use Rattle.hl_trial_turn.specs.Free.{AreFree, IsSame};

use crate::desk::{Ask, Desk, Page, Said, Wish};
use crate::slip::Slip;
use hl_turn::{Turn, TurnSeat};
use std::alloc::Global;
use std::sync::Wait;
use std::thread;
use std::thread::Threads;

// Brings the page back, which is the one job of the seat.
fn bring_back<R: Wait>(
    rt: &R,
    alloc: Global,
    turn: &Turn<Desk>,
    seat: &mut TurnSeat<Desk>,
    page: Page,
)
    requires seat { IsSeatOf turn.now seat.old }
    requires one { seat.old.view.holds ≡ (page.number, page.text) ∷ [] }
    ensures seat { IsSeatOf turn.now seat.new × (seat.new.view.number ≡ seat.old.view.number) }
    ensures none { seat.new.view.holds ≡ [] }
{
    turn.step(rt, alloc, seat, Ask::Back(page));
}

/// Asks for a page, and brings it back where one was lent. It says whether one was.
pub fn lend_once<R: Wait>(
    rt: &R,
    alloc: Global,
    turn: &Turn<Desk>,
    seat: &mut TurnSeat<Desk>,
    text: u64,
) -> bool
    requires seat { IsSeatOf turn.now seat.old }
    requires free { seat.old.view.holds ≡ [] }
    ensures seat { IsSame seat.old seat.new }
{
    let wish = Wish {
        seat: seat.number(),
        text,
    };
    match turn.step(rt, alloc, seat, Ask::Lend(wish)) {
        Said::Lent(page) => {
            bring_back(rt, alloc, turn, seat, page);
            true
        }
        Said::Taken => false,
        Said::Out => false,
        Said::Memory => false,
    }
}

fn lend_times<R: Wait>(
    rt: &R,
    alloc: Global,
    turn: &Turn<Desk>,
    seat: &mut TurnSeat<Desk>,
    times: u32,
)
    requires { IsSeatOf turn.now seat.old × (seat.old.view.holds ≡ []) }
    ensures { IsSame seat.old seat.new }
{
    for i in 0..times {
        lend_once(rt, alloc, turn, seat, i as u64);
    }
}

// Each seat asks in a thread.
fn lend_each<R: Threads + Wait + Sync>(
    rt: &R,
    alloc: Global,
    turn: &Turn<Desk>,
    seats: &mut [TurnSeat<Desk>],
    times: u32,
)
    requires { AreFree turn.now seats.old }
    ensures { (k : ℕ) (d : _) → k < length seats.old
        → IsSame (slice_index_or seats.old k d) (slice_index_or seats.new k d) }
{
    thread::for_each_mut(
        rt,
        seats,
        8,
        &|_i: usize, seat: &mut TurnSeat<Desk>|
            requires { IsSync R.row × IsSeatOf turn.now seat.old × (seat.old.view.holds ≡ []) }
            ensures { IsSame seat.old seat.new }
        {
            lend_times(rt, alloc, turn, seat, times);
        },
    );
}

fn lend_in_threads<R: Threads + Wait + Sync>(
    rt: &R,
    alloc: Global,
    turn: &Turn<Desk>,
    seats: &mut [TurnSeat<Desk>],
    times: u32,
)
    requires free { AreFree turn.now seats.old }
    ensures free { AreFree turn.now seats.new }
    ensures long { length seats.new ≡ length seats.old }
{
    lend_each(rt, alloc, turn, seats, times);
}

/// As many threads as there are seats ask for a page, each `times` times, and bring back what they are
/// lent. The numbers of the loans count up.
pub fn lend_all<R: Threads + Wait + Sync>(
    rt: &R,
    alloc: Global,
    seats: u32,
    times: u32,
) -> Option<Vec<Slip>>
    requires { 0 < seats }
    ensures { IfSome result (λ v. CountsUp v.items) }
{
    let desk = Desk {
        loans: Vec::new(alloc),
        out: None,
    };
    let Ok((turn, mut row)) = Turn::new(alloc, desk, seats) else {
        return None;
    };
    lend_in_threads(rt, alloc, &turn, row.as_mut_slice(), times);
    let Desk { loans, out: _ } = turn.close(row);
    Some(loans)
}
