//! A clock in memory.

ghost use Rattle.std.specs.Prelude.{◌≡◌};

use hl_media::Clock;
use std::marker::Model;

/// A clock that gives its times in their order, and then the last again and again. With none it gives 0.
#[derive(Drop)]
pub struct MemClock {
    times: Vec<u64>,
    at: usize,
}

impl Model for MemClock {
    ghost use Rattle.std.specs.Prelude.{ℕ, List, ◌≤◌, length, drop};

    ghost Value = { List ℕ };

    ghost view = { λ clock. drop clock.at clock.times.items };

    ghost invariant = { λ clock. clock.at ≤ length clock.times.items };
}

impl MemClock {
    /// A clock that gives these times, in seconds.
    pub fn new(times: Vec<u64>) -> MemClock
        ensures { result ≡ times.items }
    {
        MemClock { times, at: 0 }
    }
}

impl Clock for MemClock {
    ghost use Rattle.std.specs.Prelude.{Some};

    ghost times = { λ clock. Some clock };

    fn now(&mut self) -> u64 {
        if self.at >= self.times.len() {
            return 0;
        }
        let time = self.times[self.at];
        if self.at + 1 < self.times.len() {
            self.at += 1;
        }
        time
    }
}
