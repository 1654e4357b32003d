//! Numbers by keys, found by halving.

ghost use Rattle.std.specs.Prelude.{◌≡◌, ◌<◌, [], length, None, IfOk, IsSome};
ghost use Rattle.hl_lines.specs.Index.{Drops, Puts, look};

use std::alloc::{AllocError, Global};
use std::marker::Model;

/// Numbers by keys. It takes memory when it is made, and never again.
#[derive(Debug, Drop)]
pub(crate) struct Index {
    keys: Vec<u32>,
    numbers: Vec<u32>,
    room: usize,
}

impl Model for Index {
    ghost use Rattle.std.specs.Prelude.{◌≤◌, vec_capacity};
    ghost use Rattle.hl_lines.specs.Index.{Index, IsIndex};

    ghost Value = { Index };

    ghost view = { λ t. record { keys = t.keys.items; numbers = t.numbers.items; room = t.room } };

    ghost invariant = { λ t. IsIndex (record { keys = t.keys.items; numbers = t.numbers.items; room = t.room })
        × (t.room ≤ vec_capacity t.keys) × (t.room ≤ vec_capacity t.numbers) };
}

impl Index {
    /// With no keys yet, and memory for so many.
    pub(crate) fn new(alloc: Global, room: usize) -> Result<Index, AllocError>
        ensures { IfOk result (λ t. t ≡ record { keys = []; numbers = []; room = room }) }
    {
        let keys = Vec::with_capacity(alloc, room)?;
        let numbers = Vec::with_capacity(alloc, room)?;
        Ok(Index {
            keys,
            numbers,
            room,
        })
    }

    /// The number of a key.
    pub(crate) fn get(&self, key: u32) -> Option<u32>
        ensures { result ≡ look key self.now }
    {
        match place_of(&self.keys, key) {
            Ok(at) => Some(self.numbers[at]),
            Err(_) => None,
        }
    }

    /// Gives a number to a key that has none.
    pub(crate) fn put(&mut self, key: u32, number: u32)
        requires absent { look key self.old ≡ None }
        requires room { length self.old.keys < self.old.room }
        ensures { Puts self.old key number self.new }
    {
        let Err(at) = place_of(&self.keys, key) else {
            unreachable!()
        };
        let Ok(()) = self.keys.insert(at, key) else {
            unreachable!()
        };
        let Ok(()) = self.numbers.insert(at, number) else {
            unreachable!()
        };
    }

    /// Takes the number of a key away, which has one.
    pub(crate) fn remove(&mut self, key: u32)
        requires { IsSome (look key self.old) }
        ensures { Drops self.old key self.new }
    {
        let Ok(at) = place_of(&self.keys, key) else {
            unreachable!()
        };
        self.keys.remove(at);
        self.numbers.remove(at);
    }
}

ghost use Rattle.hl_lines.specs.Index.{AreRising, IsPlace};

/// The place of a key among rising ones, or else where it would stand.
fn place_of(keys: &[u32], key: u32) -> Result<usize, usize>
    requires { AreRising keys.now }
    ensures { IsPlace keys.now key result }
{
    keys.binary_search(&key)
}
