//! The tertiary segments whose bytes a call reads.

ghost use Rattle.std.specs.Prelude.{◌≡◌, ◌+◌, ◌*◌, ◌<◌, ◌≤◌, ◌^◌, ◌&&◌, not, length};
ghost use Rattle.hl_log.specs.Logs.{OnlyReads};
ghost use Rattle.hl_placed.specs.Calls as calls;
ghost use Rattle.hl_placed.specs.Calls.{serials};
ghost use Rattle.hl_placed.specs.Changes.{covers, meets};
ghost use Rattle.hl_store.specs.Shapes.{IsNumber};
ghost use Rattle.hl_store.specs.Finding.{ReadsNodes};
ghost use Rattle.hl_ranges.specs.Needs.{FindsNeed, FindsNeeds, FindsPicked};

use crate::ranges::{BLOCK_BYTES, READ_MAX};
use hl_media::Machine;
use hl_store::{NodeFound, Placed, Store};
use std::alloc::Global;

/// Whether the segments that a call needs are at hand.
#[derive(Clone, Copy, Debug, PartialEq, Eq)]
pub enum Needed {
    /// A line holds each of them.
    AtHand,
    /// No line holds the segment of this number, which is the first such in order of block index.
    Missing(u32),
    /// A read failed.
    DiskFault,
    Memory,
}

/// The segments of the away blocks of which a read returns a byte, appended in order of block index.
pub fn read_needs<M: Machine>(
    store: &mut Store<M>,
    alloc: Global,
    ino: u32,
    at: u64,
    len: u64,
    tsegs: &mut Vec<u32>,
) -> Needed
    requires number { IsNumber store.old ino }
    requires at { at ≤ 4243456 }
    ensures needs { FindsNeeds M.history M.faults store.old store.new ino (calls.read_needs at len)
        tsegs.old.items tsegs.new.items result }
    ensures reads { ReadsNodes M.history store.old store.new }
    ensures machine { OnlyReads M.history M.blocks M.faults M.write_faults M.say_faults
        store.old.log.machine store.new.log.machine }
{
    let size = match store.node(alloc, ino) {
        NodeFound::Node(node) => node.size,
        NodeFound::Unused => return Needed::AtHand,
        NodeFound::DiskFault => return Needed::DiskFault,
        NodeFound::Memory => return Needed::Memory,
    };
    let end = (at + len.min(READ_MAX)).min(size);
    needs_between(store, alloc, ino, at, end, tsegs)
}

/// The segments of the away blocks that have a byte from `at` up to `end`.
fn needs_between<M: Machine>(
    store: &mut Store<M>,
    alloc: Global,
    ino: u32,
    at: u64,
    end: u64,
    tsegs: &mut Vec<u32>,
) -> Needed
    requires number { IsNumber store.old ino }
    requires end { end < 2 ^ 32 }
    ensures needs { FindsNeeds M.history M.faults store.old store.new ino (serials (meets at end))
        tsegs.old.items tsegs.new.items result }
    ensures reads { ReadsNodes M.history store.old store.new }
    ensures machine { OnlyReads M.history M.blocks M.faults M.write_faults M.say_faults
        store.old.log.machine store.new.log.machine }
{
    if end <= at {
        return Needed::AtHand;
    }
    let first = (at / BLOCK_BYTES) as u32;
    let last = ((end - 1) / BLOCK_BYTES) as u32;
    'each: for i in first..last + 1 {
        match add_need(store, alloc, ino, i, tsegs) {
            Needed::AtHand => {}
            Needed::Missing(tseg) => return Needed::Missing(tseg),
            Needed::DiskFault => return Needed::DiskFault,
            Needed::Memory => return Needed::Memory,
        }
    }
    Needed::AtHand
}

/// The segments of the away blocks that a write of so many bytes changes without covering them.
pub fn write_needs<M: Machine>(
    store: &mut Store<M>,
    alloc: Global,
    ino: u32,
    at: u64,
    bytes: &[u8],
    tsegs: &mut Vec<u32>,
) -> Needed
    requires number { IsNumber store.old ino }
    requires within { at + length bytes.now ≤ 4243456 }
    ensures needs { FindsNeeds M.history M.faults store.old store.new ino
        (calls.write_needs at bytes.now) tsegs.old.items tsegs.new.items result }
    ensures reads { ReadsNodes M.history store.old store.new }
    ensures machine { OnlyReads M.history M.blocks M.faults M.write_faults M.say_faults
        store.old.log.machine store.new.log.machine }
{
    let end = at + bytes.len() as u64;
    if end <= at {
        return Needed::AtHand;
    }
    let first = (at / BLOCK_BYTES) as u32;
    let last = ((end - 1) / BLOCK_BYTES) as u32;
    match add_partly(store, alloc, ino, first, at, end, tsegs) {
        Needed::AtHand => {}
        Needed::Missing(tseg) => return Needed::Missing(tseg),
        Needed::DiskFault => return Needed::DiskFault,
        Needed::Memory => return Needed::Memory,
    }
    if last == first {
        return Needed::AtHand;
    }
    add_partly(store, alloc, ino, last, at, end, tsegs)
}

/// The segment of the away block that a cut fills up with zeros.
pub fn cut_needs<M: Machine>(
    store: &mut Store<M>,
    alloc: Global,
    ino: u32,
    size: u64,
    tsegs: &mut Vec<u32>,
) -> Needed
    requires number { IsNumber store.old ino }
    requires size { size ≤ 4243456 }
    ensures needs { FindsNeeds M.history M.faults store.old store.new ino (calls.cut_needs size)
        tsegs.old.items tsegs.new.items result }
    ensures reads { ReadsNodes M.history store.old store.new }
    ensures machine { OnlyReads M.history M.blocks M.faults M.write_faults M.say_faults
        store.old.log.machine store.new.log.machine }
{
    let before = match store.node(alloc, ino) {
        NodeFound::Node(node) => node.size,
        NodeFound::Unused => return Needed::AtHand,
        NodeFound::DiskFault => return Needed::DiskFault,
        NodeFound::Memory => return Needed::Memory,
    };
    if before <= size {
        return Needed::AtHand;
    }
    if size % BLOCK_BYTES == 0 {
        return Needed::AtHand;
    }
    add_need(store, alloc, ino, (size / BLOCK_BYTES) as u32, tsegs)
}

/// The segment of one block, if it is away and only a part of it lies from `at` up to `end`.
fn add_partly<M: Machine>(
    store: &mut Store<M>,
    alloc: Global,
    ino: u32,
    i: u32,
    at: u64,
    end: u64,
    tsegs: &mut Vec<u32>,
) -> Needed
    requires number { IsNumber store.old ino }
    requires nonempty { at < end }
    requires starts { 4096 * i < end }
    requires ends { at < 4096 * i + 4096 }
    ensures need { FindsPicked M.history M.faults store.old store.new ino i
        (meets at end i && not (covers at end i)) tsegs.old.items tsegs.new.items result }
    ensures reads { ReadsNodes M.history store.old store.new }
    ensures machine { OnlyReads M.history M.blocks M.faults M.write_faults M.say_faults
        store.old.log.machine store.new.log.machine }
{
    if is_covered(i, at, end) {
        return Needed::AtHand;
    }
    add_need(store, alloc, ino, i, tsegs)
}

/// Each byte of block `i` lies from `at` up to `end`.
#[tactic(auto, unfolding(hl_placed::specs::Changes::covers))]
fn is_covered(i: u32, at: u64, end: u64) -> bool
    ensures { result ≡ covers at end i }
{
    let start = i as u64 * BLOCK_BYTES;
    at <= start && start + BLOCK_BYTES <= end
}

/// The segment of one block, if it is away.
fn add_need<M: Machine>(
    store: &mut Store<M>,
    alloc: Global,
    ino: u32,
    i: u32,
    tsegs: &mut Vec<u32>,
) -> Needed
    requires number { IsNumber store.old ino }
    ensures need { FindsNeed M.history M.faults store.old store.new ino i
        tsegs.old.items tsegs.new.items result }
    ensures reads { ReadsNodes M.history store.old store.new }
    ensures machine { OnlyReads M.history M.blocks M.faults M.write_faults M.say_faults
        store.old.log.machine store.new.log.machine }
{
    match store.place(alloc, ino, i) {
        Placed::Hole | Placed::Here => Needed::AtHand,
        Placed::Away { tseg, block: _ } => {
            if store.lines().of(tseg).is_none() {
                return Needed::Missing(tseg);
            }
            match tsegs.push(tseg) {
                Ok(()) => Needed::AtHand,
                Err(_) => Needed::Memory,
            }
        }
        Placed::DiskFault => Needed::DiskFault,
        Placed::Memory => Needed::Memory,
    }
}
