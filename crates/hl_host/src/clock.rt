//! The clock of the system.

use hl_media::Clock;
use std::time;
use std::time::{SystemTime, UNIX_EPOCH};

/// The clock of the system, in whole seconds since 1970. Where it can't be told it gives 0. It tells no later time.
#[derive(Drop)]
pub struct StdClock<R> {
    runtime: R,
}

impl<R> StdClock<R> {
    /// The clock of this runtime.
    pub fn new(runtime: R) -> StdClock<R> {
        StdClock { runtime }
    }
}

impl<R: time::Clock> Clock for StdClock<R> {
    ghost use Rattle.std.specs.Prelude.{None};

    ghost times = { λ clock. None };

    fn now(&mut self) -> u64 {
        match SystemTime::now(&self.runtime) {
            Ok(now) => match now.duration_since(UNIX_EPOCH) {
                Ok(since) => since.as_secs(),
                Err(_) => 0,
            },
            Err(_) => 0,
        }
    }
}
