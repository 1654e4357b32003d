//! Changing bytes of a file.

ghost use Rattle.std.specs.Prelude.{◌≡◌, ◌+◌, ◌*◌, ◌/◌, ◌<◌, ◌≤◌, IfErr, IfOk, IsSome, List, OnOk, ℕ, length, slice_set};
ghost use Rattle.hl_log.specs.Logs.{OnlyReads};
ghost use Rattle.hl_placed.specs.Blocks as blocks;
ghost use Rattle.hl_placed.specs.Changes.{covers, cut_file, written_file};
ghost use Rattle.hl_overlay.specs.DraftTables.{HasBlock, draft_of};
ghost use Rattle.hl_store.specs.Shapes.{IsNumber};
ghost use Rattle.hl_store.specs.Finding.{ReadsNodes};
ghost use Rattle.hl_store.specs.Changes.{Always, PutsInto};
ghost use Rattle.hl_ranges.specs.Ranges.{MakesChange, UsesThen};
ghost use Rattle.hl_ranges.specs.Writing.{CutsEdge, FindsSize, IsDraftedFile, PutsPart, ReadsEdge, ReadsEdges, ReadsNew, ReadsSide};
ghost use Rattle.hl_ranges.specs.Writing.{IsWithin, MakesCut, MakesWritten, Stops, new_block};

use crate::ranges::{BLOCK_BYTES, RangeStep};
use hl_bytes::BLOCK;
use hl_inode::Kind;
use hl_media::Machine;
use hl_store::{Found, Node, NodeFound, Prepared, Store};
use std::alloc::Global;

/// Puts bytes into a file from `at` on, with zeros in a gap, and sets its last use. The file grows where they end past its
/// size. At most two blocks are read, those that the bytes touch and don't cover; each block that they touch is put once.
/// All reads and all memory come before the first change.
pub fn write_range<M: Machine>(
    store: &mut Store<M>,
    alloc: Global,
    ino: u32,
    at: u64,
    bytes: &[u8],
    now: u64,
) -> RangeStep
    requires number { IsNumber store.old ino }
    requires some { 0 < length bytes.now }
    requires within { at + length bytes.now ≤ 4243456 }
    ensures change { MakesChange M.history M.faults store.old store.new ino
        (λ shelf file. written_file shelf file at bytes.now now) result }
    ensures beside { UsesThen store.old store.new ino now result }
    ensures machine { OnlyReads M.history M.blocks M.faults M.write_faults M.say_faults
        store.old.log.machine store.new.log.machine }
{
    let size = match file_size(store, alloc, ino) {
        Ok(size) => size,
        Err(step) => return step,
    };
    let mut front = [0; BLOCK];
    let mut back = [0; BLOCK];
    match read_edges(store, alloc, ino, at, bytes, &mut front, &mut back) {
        Ok(()) => {}
        Err(step) => return step,
    }
    let end = at + bytes.len() as u64;
    let first = (at / BLOCK_BYTES) as u32;
    let last = ((end - 1) / BLOCK_BYTES) as u32;
    match make_room(store, alloc, ino, first, last - first + 1) {
        Ok(()) => {}
        Err(step) => return step,
    }
    put_written(store, ino, size.max(end), now, at, bytes, &front, &back);
    RangeStep::Done
}

/// The size of a file. What isn't a file counts as want of memory.
fn file_size<M: Machine>(store: &mut Store<M>, alloc: Global, ino: u32) -> Result<u64, RangeStep>
    requires number { IsNumber store.old ino }
    ensures size { IfOk result (FindsSize M.history store.old store.new ino) }
    ensures stops { IfErr result (Stops M.faults store.old store.new) }
    ensures reads { ReadsNodes M.history store.old store.new }
    ensures machine { OnlyReads M.history M.blocks M.faults M.write_faults M.say_faults
        store.old.log.machine store.new.log.machine }
{
    match store.node(alloc, ino) {
        NodeFound::Node(node) => match node.kind {
            Kind::File => Ok(node.size),
            Kind::Dir => Err(RangeStep::Memory),
        },
        NodeFound::Unused | NodeFound::Memory => Err(RangeStep::Memory),
        NodeFound::DiskFault => Err(RangeStep::DiskFault),
    }
}

/// Reads a block of a file, and says whether it isn't a hole.
fn read_edge<M: Machine>(
    store: &mut Store<M>,
    alloc: Global,
    ino: u32,
    i: u32,
    out: &mut [u8],
) -> Result<bool, RangeStep>
    requires number { IsNumber store.old ino }
    requires size { length out.old ≡ 4096 }
    ensures block { IfOk result (ReadsEdge M.history store.old ino i out.new) }
    ensures size { length out.new ≡ 4096 }
    ensures stops { IfErr result (Stops M.faults store.old store.new) }
    ensures reads { ReadsNodes M.history store.old store.new }
    ensures machine { OnlyReads M.history M.blocks M.faults M.write_faults M.say_faults
        store.old.log.machine store.new.log.machine }
{
    match store.block(alloc, ino, i, out) {
        Found::Bytes => Ok(true),
        Found::Hole => Ok(false),
        Found::DiskFault => Err(RangeStep::DiskFault),
        Found::Away(_) | Found::Memory => Err(RangeStep::Memory),
    }
}

/// Puts the bytes that lie in block `i` of a file into it.
fn put_part(i: u32, at: u64, bytes: &[u8], block: &mut [u8])
    requires size { length block.old ≡ 4096 }
    requires begins { at < 4096 * i + 4096 }
    requires ends { 4096 * i < at + length bytes.now }
    requires within { at + length bytes.now ≤ 4243456 }
    ensures part { PutsPart i at bytes.now block.old block.new }
    ensures size { length block.new ≡ 4096 }
{
    let start = i as u64 * BLOCK_BYTES;
    let end = at + bytes.len() as u64;
    let from = at.max(start);
    let to = end.min(start + BLOCK_BYTES);
    let part = &bytes[(from - at) as usize..(to - at) as usize];
    block[(from - start) as usize..(to - start) as usize].copy_from_slice(part);
}

/// Reads a block of a file, and puts the bytes that lie in it into it.
fn read_new<M: Machine>(
    store: &mut Store<M>,
    alloc: Global,
    ino: u32,
    i: u32,
    at: u64,
    bytes: &[u8],
    out: &mut [u8],
) -> Result<(), RangeStep>
    requires number { IsNumber store.old ino }
    requires begins { at < 4096 * i + 4096 }
    requires ends { 4096 * i < at + length bytes.now }
    requires within { at + length bytes.now ≤ 4243456 }
    requires size { length out.old ≡ 4096 }
    ensures block { OnOk result (ReadsNew M.history store.old ino at bytes.now i out.new) }
    ensures size { length out.new ≡ 4096 }
    ensures stops { IfErr result (Stops M.faults store.old store.new) }
    ensures reads { ReadsNodes M.history store.old store.new }
    ensures machine { OnlyReads M.history M.blocks M.faults M.write_faults M.say_faults
        store.old.log.machine store.new.log.machine }
{
    read_edge(store, alloc, ino, i, out)?;
    put_part(i, at, bytes, out);
    Ok(())
}

/// Whether each byte of block `i` is one of those from `at` up to `end`.
#[tactic(auto, unfolding(hl_placed::specs::Changes::covers))]
fn covers(at: u64, end: u64, i: u32) -> bool
    ensures { result ≡ covers at end i }
{
    let start = i as u64 * BLOCK_BYTES;
    at <= start && start + BLOCK_BYTES <= end
}

/// Reads a block that bytes touch, unless they cover it, and puts those that lie in it into it.
fn read_side<M: Machine>(
    store: &mut Store<M>,
    alloc: Global,
    ino: u32,
    i: u32,
    at: u64,
    bytes: &[u8],
    out: &mut [u8],
) -> Result<(), RangeStep>
    requires number { IsNumber store.old ino }
    requires begins { at < 4096 * i + 4096 }
    requires ends { 4096 * i < at + length bytes.now }
    requires within { at + length bytes.now ≤ 4243456 }
    requires size { length out.old ≡ 4096 }
    ensures block { OnOk result (ReadsSide M.history store.old ino at bytes.now i out.new) }
    ensures size { length out.new ≡ 4096 }
    ensures stops { IfErr result (Stops M.faults store.old store.new) }
    ensures reads { ReadsNodes M.history store.old store.new }
    ensures machine { OnlyReads M.history M.blocks M.faults M.write_faults M.say_faults
        store.old.log.machine store.new.log.machine }
{
    if covers(at, at + bytes.len() as u64, i) {
        return Ok(());
    }
    read_new(store, alloc, ino, i, at, bytes, out)
}

/// Reads the first and the last block that bytes touch, where they don't cover them, and puts them into those.
fn read_edges<M: Machine>(
    store: &mut Store<M>,
    alloc: Global,
    ino: u32,
    at: u64,
    bytes: &[u8],
    front: &mut [u8],
    back: &mut [u8],
) -> Result<(), RangeStep>
    requires number { IsNumber store.old ino }
    requires some { 0 < length bytes.now }
    requires within { at + length bytes.now ≤ 4243456 }
    requires front { length front.old ≡ 4096 }
    requires back { length back.old ≡ 4096 }
    ensures edges { OnOk result (ReadsEdges M.history store.old ino at bytes.now
        front.new back.new) }
    ensures front { length front.new ≡ 4096 }
    ensures back { length back.new ≡ 4096 }
    ensures stops { IfErr result (Stops M.faults store.old store.new) }
    ensures reads { ReadsNodes M.history store.old store.new }
    ensures machine { OnlyReads M.history M.blocks M.faults M.write_faults M.say_faults
        store.old.log.machine store.new.log.machine }
{
    let end = at + bytes.len() as u64;
    let first = (at / BLOCK_BYTES) as u32;
    let last = ((end - 1) / BLOCK_BYTES) as u32;
    read_side(store, alloc, ino, first, at, bytes, front)?;
    if first == last {
        return Ok(());
    }
    read_side(store, alloc, ino, last, at, bytes, back)
}

/// Brings a file to where it can be changed, with room for so many new blocks.
fn make_room<M: Machine>(
    store: &mut Store<M>,
    alloc: Global,
    ino: u32,
    from: u32,
    count: u32,
) -> Result<(), RangeStep>
    requires number { IsNumber store.old ino }
    requires blocks { from + count ≤ 1036 }
    ensures drafted { OnOk result (IsSome (draft_of store.new.overlay.drafts ino)) }
    ensures room { OnOk result (count ≤ store.new.overlay.room) }
    ensures stops { IfErr result (Stops M.faults store.old store.new) }
    ensures reads { ReadsNodes M.history store.old store.new }
    ensures machine { OnlyReads M.history M.blocks M.faults M.write_faults M.say_faults
        store.old.log.machine store.new.log.machine }
{
    match store.prepare(alloc, ino, from, count) {
        Prepared::Ready => Ok(()),
        Prepared::DiskFault => Err(RangeStep::DiskFault),
        Prepared::Memory => Err(RangeStep::Memory),
    }
}

/// Puts block `i` as a write leaves it: bytes that cover it, or what was made of an edge.
fn put_one<M: Machine>(
    store: &mut Store<M>,
    ino: u32,
    i: u32,
    at: u64,
    bytes: &[u8],
    front: &[u8],
    back: &[u8],
)
    requires number { IsNumber store.old ino }
    requires block { HasBlock store.old.overlay.drafts ino i }
    requires room { 0 < store.old.overlay.room }
    requires front { length front.now ≡ 4096 }
    requires back { length back.now ≡ 4096 }
    requires within { at + length bytes.now ≤ 4243456 }
    ensures puts { PutsInto store.old store.new ino i Always
        (blocks.Here (new_block at bytes.now front.now back.now i)) }
    ensures room { store.new.overlay.room + 1 ≡ store.old.overlay.room }
{
    let end = at + bytes.len() as u64;
    if covers(at, end, i) {
        let from = (i as u64 * BLOCK_BYTES - at) as usize;
        store.put(ino, i, &bytes[from..from + BLOCK]);
    } else if i as u64 == at / BLOCK_BYTES {
        store.put(ino, i, front);
    } else {
        store.put(ino, i, back);
    }
}

/// Says of what size a file is and when it was used last, and puts each block that bytes touch.
fn put_written<M: Machine>(
    store: &mut Store<M>,
    ino: u32,
    size: u64,
    now: u64,
    at: u64,
    bytes: &[u8],
    front: &[u8],
    back: &[u8],
)
    requires number { IsNumber store.old ino }
    requires some { 0 < length bytes.now }
    requires within { at + length bytes.now ≤ size }
    requires size { size ≤ 4243456 }
    requires front { length front.now ≡ 4096 }
    requires back { length back.now ≡ 4096 }
    requires drafted { IsDraftedFile store.old ino }
    requires room { (at + length bytes.now + 4095) / 4096 ≤ store.old.overlay.room + at / 4096 }
    ensures made { MakesWritten store.old store.new ino size now at bytes.now
        front.now back.now }
    ensures uses { store.new.uses ≡ slice_set store.old.uses ino now }
{
    let node = Node {
        kind: Kind::File,
        size,
        used: now,
    };
    store.set_node(ino, &node);
    let first = (at / BLOCK_BYTES) as u32;
    let end = at + bytes.len() as u64;
    let last = ((end - 1) / BLOCK_BYTES) as u32;
    'touched: for i in first..last + 1 {
        put_one(store, ino, i, at, bytes, front, back);
    }
}

/// Gives a file another size, with zeros where it grows, and sets its last use. One block is read at most: that in which a
/// smaller size ends, whose rest becomes zeros. All reads and all memory come before the first change.
pub fn cut_range<M: Machine>(
    store: &mut Store<M>,
    alloc: Global,
    ino: u32,
    size: u64,
    now: u64,
) -> RangeStep
    requires number { IsNumber store.old ino }
    requires size { size ≤ 4243456 }
    ensures change { MakesChange M.history M.faults store.old store.new ino
        (λ shelf file. cut_file shelf file size now) result }
    ensures beside { UsesThen store.old store.new ino now result }
    ensures machine { OnlyReads M.history M.blocks M.faults M.write_faults M.say_faults
        store.old.log.machine store.new.log.machine }
{
    let before = match file_size(store, alloc, ino) {
        Ok(before) => before,
        Err(step) => return step,
    };
    let mut edge = [0; BLOCK];
    let is_cut = match read_cut(store, alloc, ino, before, size, &mut edge) {
        Ok(is_cut) => is_cut,
        Err(step) => return step,
    };
    match make_room(store, alloc, ino, 0, 1) {
        Ok(()) => {}
        Err(step) => return step,
    }
    put_cut(store, ino, size, now, is_cut, &edge);
    RangeStep::Done
}

/// Reads the block in which a smaller size ends, and makes its rest zeros. It says whether there is such a block.
fn read_cut<M: Machine>(
    store: &mut Store<M>,
    alloc: Global,
    ino: u32,
    before: u64,
    size: u64,
    edge: &mut [u8],
) -> Result<bool, RangeStep>
    requires number { IsNumber store.old ino }
    requires size { size ≤ 4243456 }
    requires edge { length edge.old ≡ 4096 }
    ensures cut { IfOk result (CutsEdge M.history store.old ino before size edge.new) }
    ensures edge { length edge.new ≡ 4096 }
    ensures stops { IfErr result (Stops M.faults store.old store.new) }
    ensures reads { ReadsNodes M.history store.old store.new }
    ensures machine { OnlyReads M.history M.blocks M.faults M.write_faults M.say_faults
        store.old.log.machine store.new.log.machine }
{
    if before <= size || size % BLOCK_BYTES == 0 {
        return Ok(false);
    }
    let is_own = read_edge(store, alloc, ino, (size / BLOCK_BYTES) as u32, edge)?;
    edge[(size % BLOCK_BYTES) as usize..].fill(0);
    Ok(is_own)
}

/// Says of what size a file is and when it was used last, and puts the block in which it ends, if that is cut.
fn put_cut<M: Machine>(
    store: &mut Store<M>,
    ino: u32,
    size: u64,
    now: u64,
    is_cut: bool,
    edge: &[u8],
)
    requires number { IsNumber store.old ino }
    requires size { size ≤ 4243456 }
    requires edge { length edge.now ≡ 4096 }
    requires within { IsWithin size is_cut }
    requires drafted { IsDraftedFile store.old ino }
    requires room { 1 ≤ store.old.overlay.room }
    ensures made { MakesCut store.old store.new ino size now is_cut edge.now }
    ensures uses { store.new.uses ≡ slice_set store.old.uses ino now }
{
    let node = Node {
        kind: Kind::File,
        size,
        used: now,
    };
    store.set_node(ino, &node);
    if is_cut {
        store.put(ino, (size / BLOCK_BYTES) as u32, edge);
    }
}
