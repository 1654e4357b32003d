//! A disk whose calls are counted.

ghost use Rattle.std.specs.Prelude.{◌≡◌, ◌≤◌, ◌+◌, ◌/◌, length};

use hl_bytes::BLOCK;
use hl_media::{Failed, Machine};
use std::fmt;
use std::marker::Model;

/// How many calls were made of a disk, and how many blocks were written.
#[derive(Clone, Copy, Debug, PartialEq, Eq)]
pub struct Calls {
    pub reads: u64,
    pub writes: u64,
    pub written: u64,
    pub syncs: u64,
}

impl Calls {
    /// No call.
    pub const NONE: Calls = Calls {
        reads: 0,
        writes: 0,
        written: 0,
        syncs: 0,
    };
}

impl fmt::Display for Calls {
    fn fmt<W: fmt::Write>(&self, f: &mut fmt::Formatter<W>) -> fmt::Result {
        write!(
            f,
            "{} writes of {} blocks, {} syncs, {} reads",
            self.writes, self.written, self.syncs, self.reads
        )
    }
}

/// A machine, and the calls that were made of its disk.
#[derive(Drop)]
pub struct Counted<M> {
    machine: M,
    calls: Calls,
}

impl<M> Model for Counted<M> {
    ghost Value = { M };

    ghost view = { λ counted. counted.machine };
}

impl<M> Counted<M> {
    /// A machine of which no call was counted.
    pub fn of(machine: M) -> Counted<M>
        ensures { result ≡ machine }
    {
        Counted {
            machine,
            calls: Calls::NONE,
        }
    }

    /// The calls so far.
    pub fn calls(&self) -> Calls {
        self.calls
    }
}

impl<M: Machine> Machine for Counted<M> {
    ghost blocks = { λ machine. M.blocks machine };

    ghost history = { λ machine. M.history machine };

    ghost faults = { λ machine. M.faults machine };

    ghost write_faults = { λ machine. M.write_faults machine };

    ghost say_faults = { λ machine. M.say_faults machine };

    fn blocks(&self) -> u32 {
        self.machine.blocks()
    }

    fn faults(&self) -> u64 {
        self.machine.faults()
    }

    fn write_faults(&self) -> u64 {
        self.machine.write_faults()
    }

    fn read(&mut self, at: u32, out: &mut [u8]) -> Result<(), Failed> {
        self.calls.reads = self.calls.reads.saturating_add(1);
        self.machine.read(at, out)
    }

    fn write(&mut self, at: u32, bytes: &[u8]) -> Result<(), Failed> {
        let blocks = (bytes.len() / BLOCK) as u64;
        self.calls.writes = self.calls.writes.saturating_add(1);
        self.calls.written = self.calls.written.saturating_add(blocks);
        self.machine.write(at, bytes)
    }

    fn sync(&mut self) -> Result<(), Failed> {
        self.calls.syncs = self.calls.syncs.saturating_add(1);
        self.machine.sync()
    }

    fn say(&mut self, bytes: &[u8]) -> Result<(), Failed> {
        self.machine.say(bytes)
    }
}
