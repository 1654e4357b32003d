ghost use Rattle.std.specs.Prelude.{◌≡◌, ℕ, None, []};
ghost use denote.Param.Send.{IsSync};
ghost use Rattle.hl_turn.specs.Lock.{IsSeatOf};
ghost use Rattle.hl_trial_turn.specs.Free.{AreFree};

use crate::{draw_all, lend_all};
use hl_turn::{Object, Turn, TurnSeat};
use std::alloc::{AllocError, Global};
use std::sync::atomic::{AtomicBool, Ordering};
use std::sync::{Arc, Mutex, Wait};
use std::test::Fail;
use std::thread;
use std::thread::Threads;

const LOOKS: u32 = 100_000_000;

fn lists(alloc: Global, count: u32) -> Result<Vec<Mutex<Vec<u64>>>, AllocError> {
    let mut told = Vec::new(alloc);
    for _ in 0..count {
        told.push(Mutex::new(Vec::new(alloc)))?;
    }
    Ok(told)
}

#[test]
fn what_each_thread_was_told_stands_in_the_list_in_its_order(rt: HostRuntime) -> Result<(), Fail> {
    let told = lists(rt.alloc(), 4)?;
    assert!(rt; told.len() == 4);
    let Some(slips) = draw_all(&rt, rt.alloc(), 50, told.as_slice()) else {
        panic!(rt; "no memory")
    };
    assert!(rt; slips.len() == 200);
    for seat in 0..4u32 {
        let mine = told[seat as usize].lock(&rt);
        let mut next = 0u64;
        for slip in &slips {
            if slip.seat == seat {
                assert!(rt; mine.get(next as usize) == Some(&slip.number));
                next = next.wrapping_add(1);
            }
        }
        assert!(rt; next == 50 && mine.len() == 50);
    }
    Ok(())
}

#[test]
fn pages_go_out_and_come_back_in_threads(rt: HostRuntime) -> Result<(), Fail> {
    let Some(loans) = lend_all(&rt, rt.alloc(), 4, 50) else {
        panic!(rt; "no memory")
    };
    assert!(rt; 50 <= loans.len() && loans.len() <= 200);
    Ok(())
}

// An object whose step goes on once it is told to, or after so many looks.
#[derive(Drop)]
struct Held {
    began: Arc<AtomicBool, Global>,
    told: Arc<AtomicBool, Global>,
}

impl Object for Held {
    type Event = ();

    type Answer = bool;

    type Entry = ();

    type Item = ();

    type Claim = ();

    ghost entries = { λ h. [] };

    ghost seat_of = { λ e. 0 };

    ghost legal_over = { λ o h. Unit {0} };

    ghost jobs_out = { λ o h. [] };

    ghost meets = { λ x c. Unit {0} };

    ghost asks = { λ n event. Unit {0} };

    ghost brings = { λ event. None };

    ghost returns = { λ event x. Unit {0} };

    ghost takes = { λ event answer. None };

    ghost does = { λ h event answer g. Unit {0} };

    ghost empty_is_legal = { λ o none out. tt };

    fn step(&mut self, alloc: Global, event: ()) -> bool {
        let _ = (alloc, event);
        self.began.store(true, Ordering::SeqCst);
        for _ in 0..LOOKS {
            if self.told.load(Ordering::SeqCst) {
                return true;
            }
            thread::yield_now();
        }
        false
    }
}

fn has_begun(began: &AtomicBool) -> bool {
    for _ in 0..LOOKS {
        if began.load(Ordering::SeqCst) {
            return true;
        }
        thread::yield_now();
    }
    false
}

// Tells the object to go on once its step has begun and a look at the count has come back.
fn look(turn: &Turn<Held>, seat: &mut TurnSeat<Held>, began: &AtomicBool, told: &AtomicBool)
    requires { IsSeatOf turn.now seat.old }
{
    if has_begun(began) && turn.progress(seat) == 0 {
        told.store(true, Ordering::SeqCst);
    }
}

// The first seat makes a step, and the second looks how many were counted.
fn hold_and_look<R: Threads + Wait + Sync>(
    rt: &R,
    alloc: Global,
    turn: &Turn<Held>,
    seats: &mut [TurnSeat<Held>],
    began: &AtomicBool,
    told: &AtomicBool,
    went_on: &AtomicBool,
)
    requires { AreFree turn.now seats.old }
{
    thread::for_each_mut(
        rt,
        seats,
        2,
        &|i: usize, seat: &mut TurnSeat<Held>|
            requires { IsSync R.row × IsSeatOf turn.now seat.old }
        {
            if i == 0 {
                let answer = turn.step(rt, alloc, seat, ());
                went_on.store(answer, Ordering::SeqCst);
            } else {
                look(turn, seat, began, told);
            }
        },
    );
}

#[test]
fn progress_answers_while_a_step_is_under_way(rt: HostRuntime) -> Result<(), Fail> {
    let began = Arc::new(rt.alloc(), AtomicBool::new(false))?;
    let told = Arc::new(rt.alloc(), AtomicBool::new(false))?;
    let went_on = AtomicBool::new(false);
    let held = Held {
        began: Arc::try_clone(&began)?,
        told: Arc::try_clone(&told)?,
    };
    let Ok((turn, mut seats)) = Turn::new(rt.alloc(), held, 2) else {
        panic!(rt; "no memory")
    };
    hold_and_look(
        &rt,
        rt.alloc(),
        &turn,
        seats.as_mut_slice(),
        &began,
        &told,
        &went_on,
    );
    assert!(rt; went_on.load(Ordering::SeqCst));
    Ok(())
}
