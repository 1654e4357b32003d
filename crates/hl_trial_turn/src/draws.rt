// Threads at one counter.
ghost use Rattle.std.specs.Prelude.{◌≡◌, ℕ, ◌<◌, ◌++◌, Some, [], ◌∷◌, length, IfSome, MatchOption, slice_get, slice_index_or};
ghost use denote.Param.Send.{IsSync};
ghost use Rattle.hl_turn.specs.Lock.{IsSeatOf};
ghost use Rattle.hl_trial_turn.specs.Slips.{CountsUp, slip};
ghost use Rattle.hl_trial_turn.specs.Free.{AreFree, IsSame};

use crate::counter::Counter;
use crate::slip::Slip;
use hl_turn::{Turn, TurnSeat};
use std::alloc::Global;
use std::sync::{Mutex, Wait};
use std::thread;
use std::thread::Threads;

/// Draws a number, which is then the last of the seat's own.
pub fn draw<R: Wait>(
    rt: &R,
    alloc: Global,
    turn: &Turn<Counter>,
    seat: &mut TurnSeat<Counter>,
) -> Option<u64>
    requires { IsSeatOf turn.now seat.old }
    ensures seat { IsSame seat.old seat.new }
    ensures mine { MatchOption result (seat.new.view.mine ≡ seat.old.view.mine)
        (λ k. seat.new.view.mine ≡ seat.old.view.mine ++ slip seat.old.view.number k ∷ []) }
{
    let number = seat.number();
    turn.step(rt, alloc, seat, number)
}

// Draws as often as told, and notes what was drawn, in order.
fn draw_times<R: Wait>(
    rt: &R,
    alloc: Global,
    turn: &Turn<Counter>,
    seat: &mut TurnSeat<Counter>,
    times: u32,
    told: &Mutex<Vec<u64>>,
)
    requires { IsSeatOf turn.now seat.old }
    ensures { IsSame seat.old seat.new }
{
    for _i in 0..times {
        let Some(number) = draw(rt, alloc, turn, seat) else {
            return;
        };
        if told.lock(rt).push(number).is_err() {
            return;
        }
    }
}

// Each seat draws in a thread.
fn draw_each<R: Threads + Wait + Sync>(
    rt: &R,
    alloc: Global,
    turn: &Turn<Counter>,
    seats: &mut [TurnSeat<Counter>],
    times: u32,
    told: &[Mutex<Vec<u64>>],
)
    requires long { length told.now ≡ length seats.old }
    requires free { AreFree turn.now seats.old }
    ensures { (k : ℕ) (d : _) → k < length seats.old
        → IsSame (slice_index_or seats.old k d) (slice_index_or seats.new k d) }
{
    thread::for_each_mut(
        rt,
        seats,
        8,
        &|i: usize, seat: &mut TurnSeat<Counter>|
            requires { IsSync R.row × (i < length told.now) × IsSeatOf turn.now seat.old }
            ensures { IsSame seat.old seat.new }
        {
            draw_times(rt, alloc, turn, seat, times, &told[i]);
        },
    );
}

fn draw_in_threads<R: Threads + Wait + Sync>(
    rt: &R,
    alloc: Global,
    turn: &Turn<Counter>,
    seats: &mut [TurnSeat<Counter>],
    times: u32,
    told: &[Mutex<Vec<u64>>],
)
    requires long { length told.now ≡ length seats.old }
    requires free { AreFree turn.now seats.old }
    ensures free { AreFree turn.now seats.new }
    ensures long { length seats.new ≡ length seats.old }
{
    draw_each(rt, alloc, turn, seats, times, told);
}

/// As many threads draw as there are lists in `told`, each `times` times, and each notes in its list
/// what it was answered. The counter's list has the numbers in order.
pub fn draw_all<R: Threads + Wait + Sync>(
    rt: &R,
    alloc: Global,
    times: u32,
    told: &[Mutex<Vec<u64>>],
) -> Option<Vec<Slip>>
    requires { (0 < length told.now) × (length told.now < 100) }
    ensures { IfSome result (λ v. CountsUp v.items) }
{
    let counter = Counter {
        slips: Vec::new(alloc),
    };
    let Ok((turn, mut seats)) = Turn::new(alloc, counter, told.len() as u32) else {
        return None;
    };
    draw_in_threads(rt, alloc, &turn, seats.as_mut_slice(), times, told);
    let Counter { slips } = turn.close(seats);
    Some(slips)
}
