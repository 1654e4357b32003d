// A counter that keeps what it gave out.
ghost use Rattle.std.specs.Prelude.{◌≡◌, None, []};

use crate::slip::Slip;
use hl_turn::Object;
use std::alloc::Global;

/// Gives out the numbers from 0 on.
#[derive(Drop)]
pub struct Counter {
    pub slips: Vec<Slip>,
}

impl Object for Counter {
    ghost use Rattle.hl_trial_turn.specs.Slips.{CountsUp, Draws, CountsUp-none};

    /// The number of the seat that asks.
    type Event = u32;
    /// The number, or none where memory is wanted.
    type Answer = Option<u64>;

    type Entry = Slip;

    type Item = ();

    type Claim = ();

    ghost entries = { λ c. c.slips.items };

    ghost seat_of = { λ e. e.seat };

    ghost legal_over = { λ o c. CountsUp c.slips.items };

    ghost jobs_out = { λ o c. [] };

    ghost meets = { λ x c. Unit {0} };

    ghost asks = { λ n event. event ≡ n };

    ghost brings = { λ event. None };

    ghost returns = { λ event x. Unit {0} };

    ghost takes = { λ event answer. None };

    ghost does = { λ c event answer d. Draws c.slips.items event answer d.slips.items };

    ghost empty_is_legal = { λ o none out. CountsUp-none o.slips.items none };

    fn step(&mut self, alloc: Global, event: u32) -> Option<u64> {
        let _ = alloc;
        let number = self.slips.len() as u64;
        match self.slips.push(Slip {
            seat: event,
            number,
        }) {
            Ok(()) => Some(number),
            Err(_) => None,
        }
    }
}
