//! A list of numbers.

ghost use Rattle.std.specs.Prelude.{◌≡◌, IfOk, nat_eq};
ghost use Rattle.std.specs.Cmp.{partial_equiv_from_equiv};
ghost use Rattle.std.specs.Cmp.Lexicographic.{pointwise, nat_list_eq_equiv};

use std::alloc::{AllocError, Global};
use std::marker::Model;

/// Numbers in a row, which contracts see as a list.
#[derive(Debug, Drop)]
pub struct Numbers {
    vec: Vec<u32>,
}

impl Model for Numbers {
    ghost use Rattle.std.specs.Prelude.{ℕ, List};

    ghost Value = { List ℕ };

    ghost view = { λ n. n.vec.items };
}

impl Numbers {
    /// The numbers of a vector, which it takes over.
    pub fn of(vec: Vec<u32>) -> Numbers
        ensures { result ≡ vec.items }
    {
        Numbers { vec }
    }

    /// The numbers, lent.
    pub fn items(&self) -> &[u32]
        ensures { result.now ≡ self.now }
    {
        self.vec.as_slice()
    }

    /// The vector back.
    pub fn into_vec(self) -> Vec<u32>
        ensures { result.items ≡ self }
    {
        self.vec
    }

    /// The same numbers in memory of their own.
    pub fn copy(&self, alloc: Global) -> Result<Numbers, AllocError>
        ensures { IfOk result (λ copy. copy ≡ self.now) }
    {
        Ok(Numbers::of(self.items().to_vec(alloc)?))
    }
}

impl PartialEq for Numbers {
    ghost eq = { pointwise nat_eq };

    ghost laws = { partial_equiv_from_equiv nat_list_eq_equiv };

    fn eq(&self, other: &Numbers) -> bool {
        self.items() == other.items()
    }
}

impl Eq for Numbers {
    ghost laws = { nat_list_eq_equiv };
}
