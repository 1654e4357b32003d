//! A clock.

ghost use Rattle.std.specs.Prelude.{◌≡◌, ℕ, List, Option, option_map};
ghost use Rattle.std.specs.Option.{ForSome};
ghost use Rattle.hl_media.specs.Times.{first_time, later_times};

/// Tells the time. It may stand still or go back.
pub trait Clock {
    /// The times that are left, in seconds, where the clock tells them.
    ghost times: { Self → Option (List ℕ) };

    /// The time in whole seconds.
    fn now(&mut self) -> u64
        ensures first { ForSome (times self.old) (λ ts. result ≡ first_time ts) }
        ensures left { times self.new ≡ option_map later_times (times self.old) };
}
