//! An input in memory.

ghost use Rattle.std.specs.Prelude.{◌≡◌, ◌≤◌, Some, OnOk, OnErr};
ghost use Rattle.std.specs.Io.{ReadsAtMost};
ghost use Rattle.std.specs.Io.KnownBytes.{ReadConsumes};
ghost use Rattle.hl_media.specs.Causes.{HasCause};
ghost use Rattle.hl_mem.specs.Failing.{Follows, planned};
ghost use Rattle.hl_mem.specs.Told.{input_of};

use crate::failing::Failing;
use hl_media::{Failed, Source};
use std::alloc::{AllocError, Global};
use std::marker::Model;

/// A source of bytes in memory. It gives them in pieces of one size, the last of them the rest.
#[derive(Drop)]
pub struct MemSource {
    bytes: Vec<u8>,
    at: usize,
    piece: usize,
    failing: Failing,
    faults: u64,
}

impl Model for MemSource {
    ghost use Rattle.std.specs.Prelude.{◌≤◌, length, drop};
    ghost use Rattle.hl_mem.specs.Told.{Input};

    ghost Value = { Input };

    ghost view = { λ source. record { left = drop source.at source.bytes.items; plan = source.failing; faults = source.faults } };

    ghost invariant = { λ source. (source.at ≤ length source.bytes.items) × (1 ≤ source.piece) };
}

impl MemSource {
    /// A source of these bytes, in pieces of this many.
    pub fn new(bytes: Vec<u8>, piece: usize) -> MemSource
        requires { 1 ≤ piece }
        ensures { result ≡ input_of bytes.items }
    {
        let failing = Failing::new(*bytes.allocator());
        MemSource {
            bytes,
            at: 0,
            piece,
            failing,
            faults: 0,
        }
    }

    /// Makes the read of this number fail, counted from 1. A number that is past makes none fail.
    pub fn fail_call(&mut self, _alloc: Global, number: u64) -> Result<(), AllocError>
        ensures added { OnOk result (self.new ≡ record self.old { plan = planned self.old.plan number }) }
        ensures kept { OnErr result (self.new ≡ self.old) }
    {
        self.failing.add(number)
    }
}

impl Source for MemSource {
    ghost use Rattle.std.specs.Prelude.{Some};

    ghost left = { λ source. Some source.left };

    ghost faults = { λ source. source.faults };

    fn read(&mut self, out: &mut [u8]) -> Result<usize, Failed>
        ensures bound { ReadsAtMost result out.new }
        ensures bytes { ReadConsumes (Some self.old.left) (Some self.new.left) result out.new }
        ensures faults { HasCause self.old.faults self.new.faults result }
        ensures plan { Follows self.old.plan self.new.plan result ⊥ }
    {
        if self.failing.next() {
            self.faults = self.faults.saturating_add(1);
            return Err(Failed);
        }
        let (_, rest) = self.bytes.as_slice().split_at(self.at);
        let count = rest.len().min(out.len()).min(self.piece);
        out[..count].copy_from_slice(&rest[..count]);
        self.at += count;
        Ok(count)
    }
}
