//! The calls of a device that are to fail.

ghost use Rattle.std.specs.Prelude.{◌≡◌, OnOk, OnErr};
ghost use Rattle.hl_mem.specs.Failing.{is_next, after_next, no_plan, planned};

use std::alloc::{AllocError, Global};
use std::marker::Model;

/// Counts the calls of a device, and knows which of them are to fail.
#[derive(Drop)]
pub struct Failing {
    made: u64,
    numbers: Vec<u64>,
}

impl Model for Failing {
    ghost use Rattle.hl_mem.specs.Failing.{Plan};

    ghost Value = { Plan };

    ghost view = { λ failing. record { made = failing.made; numbers = failing.numbers.items } };
}

impl Failing {
    /// No call was made, and none is to fail.
    pub fn new(alloc: Global) -> Failing
        ensures { result ≡ no_plan }
    {
        Failing {
            made: 0,
            numbers: Vec::new(alloc),
        }
    }

    /// The call of this number is to fail, counted from 1.
    pub fn add(&mut self, number: u64) -> Result<(), AllocError>
        ensures added { OnOk result (self.new ≡ planned self.old number) }
        ensures kept { OnErr result (self.new ≡ self.old) }
    {
        self.numbers.push(number)?;
        Ok(())
    }

    /// Counts a call, and says whether it is to fail.
    pub fn next(&mut self) -> bool
        ensures fails { result ≡ is_next self.old }
        ensures made { self.new ≡ after_next self.old }
    {
        match self.made.checked_add(1) {
            Some(number) => {
                self.made = number;
                self.numbers.contains(&number)
            }
            None => false,
        }
    }
}
