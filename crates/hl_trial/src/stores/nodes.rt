//! Nodes put into a store.

ghost use Rattle.std.specs.Prelude.{◌≡◌, ◌≤◌, IfSome, IsTrue, Some, length};
ghost use Rattle.hl_inode.specs.declared.inode.Kind.TheVariants.{File};
ghost use Rattle.hl_placed.specs.Blocks.{blocks_of};
ghost use Rattle.hl_store.specs.Shapes.{IsNumber};
ghost use Rattle.hl_trial.specs.Made.{Fits, IsMade, Makes};

use crate::stores::model::{Plain, PlainNode};
use hl_inode::Kind;
use hl_media::Machine;
use hl_store::{Node, Prepared, Store};
use std::alloc::Global;

/// Whether a node may have the number.
pub fn is_number<M: Machine>(store: &Store<M>, ino: u32) -> bool
    ensures { IsTrue result → IsNumber store.now ino }
{
    1 <= ino && ino < store.geometry().inodes
}

/// Whether a node has a size that it may have, and as many blocks as that takes.
#[tactic(auto, unfolding(hl_placed::specs::Blocks::blocks_of))]
fn fits(node: &PlainNode) -> bool
    ensures { IsTrue result → Fits node.now }
{
    let count = node.blocks.as_slice().len();
    node.size <= 4_243_456 && count <= 1_036 && node.size.div_ceil(4_096) == count as u64
}

/// Puts the blocks that aren't holes into a node that was made.
fn put_blocks<M: Machine>(store: &mut Store<M>, ino: u32, kind: Kind, blocks: &[Plain])
    requires few { length blocks.now ≤ 1036 }
    requires made { IsMade store.old ino kind (length blocks.now) }
    requires room { length blocks.now ≤ store.old.overlay.room }
    ensures { IsMade store.new ino kind (length blocks.now) }
{
    'blocks: for i in 0..blocks.len() as u32 {
        let block = blocks[i as usize];
        if block != Plain::Hole {
            store.put(ino, i, &block.bytes());
        }
    }
}

/// Gives a number a node in place of what it has, where that can be prepared; none where no node is such.
pub fn make<M: Machine>(
    store: &mut Store<M>,
    alloc: Global,
    ino: u32,
    node: &PlainNode,
) -> Option<Prepared>
    ensures { IfSome result (Makes store.new ino node.now.kind) }
{
    if !is_number(store, ino) || !fits(node) {
        return None;
    }
    match store.prepare(alloc, ino, 0, node.blocks.as_slice().len() as u32) {
        Prepared::Ready => {}
        other => return Some(other),
    }
    store.free(ino);
    let shape = Node {
        kind: node.kind,
        size: node.size,
        used: node.used,
    };
    store.set_node(ino, &shape);
    put_blocks(store, ino, node.kind, node.blocks.as_slice());
    Some(Prepared::Ready)
}

/// Gives a file that was made another size.
fn resize<M: Machine>(store: &mut Store<M>, ino: u32, size: u64, used: u64)
    requires made { IsMade store.old ino File 0 }
    requires size { size ≤ 4243456 }
    ensures { IsMade store.new ino File 0 }
{
    let shape = Node {
        kind: Kind::File,
        size,
        used,
    };
    store.set_node(ino, &shape);
}

/// Gives a number a file, which is then cut to a size and grown to another.
pub fn make_cut_and_grown<M: Machine>(
    store: &mut Store<M>,
    alloc: Global,
    ino: u32,
    file: &PlainNode,
    sizes: [u64; 2],
) -> Option<Prepared> {
    if file.kind != Kind::File || 4_243_456 < sizes[0] || 4_243_456 < sizes[1] {
        return None;
    }
    let answer = make(store, alloc, ino, file)?;
    if answer == Prepared::Ready {
        resize(store, ino, sizes[0], file.used);
        resize(store, ino, sizes[1], file.used);
    }
    Some(answer)
}

/// Frees a number; none where no node may have it.
pub fn free<M: Machine>(store: &mut Store<M>, alloc: Global, ino: u32) -> Option<Prepared> {
    if !is_number(store, ino) {
        return None;
    }
    let answer = store.prepare(alloc, ino, 0, 0);
    if answer == Prepared::Ready {
        store.free(ino);
    }
    Some(answer)
}
