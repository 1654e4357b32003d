//! The bytes of directories.

ghost use Rattle.std.specs.Prelude.{◌≡◌, ◌+◌, ◌*◌, ◌/◌, ◌<◌, ◌≤◌, length};
ghost use Rattle.hl_log.specs.Logs.{OnlyReads};
ghost use Rattle.hl_placed.specs.Blocks as blocks;
ghost use Rattle.hl_placed.specs.Blocks.{blocks_of, padded_block};
ghost use Rattle.hl_overlay.specs.DraftTables.{HasBlock};
ghost use Rattle.hl_store.specs.Shapes.{IsNumber};
ghost use Rattle.hl_store.specs.Finding.{ReadsNodes};
ghost use Rattle.hl_store.specs.Changes.{Always, PutsInto};
ghost use Rattle.hl_ranges.specs.Directories.{FindsDirectory, IsDraftedDirectory, PutsDirectory, ReadsBlocks};

use crate::ranges::{BLOCK_BYTES, RangeStep};
use hl_bytes::BLOCK;
use hl_inode::Kind;
use hl_media::Machine;
use hl_store::{Found, Node, NodeFound, Store};
use std::alloc::Global;

/// What a number is, as one looks for a directory.
#[derive(Drop)]
pub enum DirectoryFound {
    /// The bytes of a directory (`docs/FORMATS.md`, "Directory bytes").
    Bytes(Vec<u8>),
    File,
    /// A read failed.
    DiskFault,
    /// Memory was wanting. A number that isn't in use is a case of it.
    Memory,
}

/// The bytes of a directory. Each block is read once, straight into its place.
pub fn read_directory<M: Machine>(store: &mut Store<M>, alloc: Global, ino: u32) -> DirectoryFound
    requires number { IsNumber store.old ino }
    ensures found { FindsDirectory M.history M.faults store.old store.new ino result }
    ensures reads { ReadsNodes M.history store.old store.new }
    ensures machine { OnlyReads M.history M.blocks M.faults M.write_faults M.say_faults
        store.old.log.machine store.new.log.machine }
{
    let size = match store.node(alloc, ino) {
        NodeFound::Node(node) => match node.kind {
            Kind::Dir => node.size,
            Kind::File => return DirectoryFound::File,
        },
        NodeFound::Unused | NodeFound::Memory => return DirectoryFound::Memory,
        NodeFound::DiskFault => return DirectoryFound::DiskFault,
    };
    let count = size.div_ceil(BLOCK_BYTES) as u32;
    let Ok(mut bytes) = vec![in alloc; 0; BLOCK * count as usize] else {
        return DirectoryFound::Memory;
    };
    match read_blocks(store, alloc, ino, count, bytes.as_mut_slice()) {
        RangeStep::Done => {}
        RangeStep::DiskFault => return DirectoryFound::DiskFault,
        RangeStep::Memory => return DirectoryFound::Memory,
    }
    bytes.truncate(size as usize);
    DirectoryFound::Bytes(bytes)
}

/// Gives a number that is drafted as a directory these bytes, which are those that it has up to `from`. It puts the blocks
/// from there on, the last filled up with zeros, for which room was made.
pub fn put_directory<M: Machine>(store: &mut Store<M>, ino: u32, bytes: &[u8], from: usize)
    requires number { IsNumber store.old ino }
    requires drafted { IsDraftedDirectory store.old ino }
    requires within { from ≤ length bytes.now }
    requires size { length bytes.now ≤ 4243456 }
    requires room { blocks_of (length bytes.now) ≤ store.old.overlay.room + from / 4096 }
    ensures puts { PutsDirectory store.old store.new ino from bytes.now }
{
    let node = Node {
        kind: Kind::Dir,
        size: bytes.len() as u64,
        used: 0,
    };
    store.set_node(ino, &node);
    let first = (from / BLOCK) as u32;
    let end = bytes.len().div_ceil(BLOCK) as u32;
    'each: for i in first..end {
        put_padded(store, ino, i, bytes);
    }
}

/// Puts block `i` of some bytes, filled up with zeros.
fn put_padded<M: Machine>(store: &mut Store<M>, ino: u32, i: u32, bytes: &[u8])
    requires number { IsNumber store.old ino }
    requires block { HasBlock store.old.overlay.drafts ino i }
    requires room { 0 < store.old.overlay.room }
    requires begins { 4096 * i < length bytes.now }
    ensures puts { PutsInto store.old store.new ino i Always
        (blocks.Here (padded_block bytes.now i)) }
    ensures room { store.new.overlay.room + 1 ≡ store.old.overlay.room }
{
    let start = BLOCK * i as usize;
    if start + BLOCK <= bytes.len() {
        store.put(ino, i, &bytes[start..start + BLOCK]);
        return;
    }
    let mut block = [0; BLOCK];
    block[..bytes.len() - start].copy_from_slice(&bytes[start..]);
    store.put(ino, i, &block);
}

/// Reads the first so many blocks of a node, one behind the other.
fn read_blocks<M: Machine>(
    store: &mut Store<M>,
    alloc: Global,
    ino: u32,
    count: u32,
    bytes: &mut [u8],
) -> RangeStep
    requires number { IsNumber store.old ino }
    requires size { length bytes.old ≡ 4096 * count }
    ensures blocks { ReadsBlocks M.history M.faults store.old store.new ino count
        bytes.new result }
    ensures reads { ReadsNodes M.history store.old store.new }
    ensures machine { OnlyReads M.history M.blocks M.faults M.write_faults M.say_faults
        store.old.log.machine store.new.log.machine }
{
    'each: for i in 0..count {
        let start = BLOCK * i as usize;
        match store.block(alloc, ino, i, &mut bytes[start..start + BLOCK]) {
            Found::Bytes | Found::Hole => {}
            Found::DiskFault => return RangeStep::DiskFault,
            Found::Away(_) | Found::Memory => return RangeStep::Memory,
        }
    }
    RangeStep::Done
}
