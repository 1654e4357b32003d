//! What no clause says: that calls succeed with ample memory, that what is read is what was put, what a stop at each moment
//! leaves, and what a failed call leaves.

mod checkpoints;
mod flushes;
mod lines;
mod memory;
mod nodes;
mod notes;
mod reads;
mod reopening;
mod stops;

use hl_bytes::BLOCK;
use hl_log::UnitAnswer;
use hl_mem::Tear;
use hl_store::{Found, Node, NodeFound, Placed, Prepared};
use hl_trial::stores::{First, Plain, PlainNode, Site, Stored, are_nodes};
use std::alloc::{AllocError, Global};
use std::process::Abort;
use std::test::*;

/// Blocks of so many marks, of which those that `step` divides are holes.
fn holed(alloc: Global, count: u32, mark: u32, step: u32) -> Result<Vec<Plain>, AllocError> {
    let mut blocks = Vec::new(alloc);
    for i in 0..count {
        let is_hole = i.checked_rem(step) == Some(0);
        blocks.push(if is_hole {
            Plain::Hole
        } else {
            Plain::Filled(mark.wrapping_add(i))
        })?;
    }
    Ok(blocks)
}

/// Blocks of so many marks.
fn filled(alloc: Global, count: u32, mark: u32) -> Result<Vec<Plain>, AllocError> {
    holed(alloc, count, mark, 0)
}

/// The root, with so many names.
fn root(alloc: Global, names: usize) -> Result<PlainNode, AllocError> {
    let blocks = vec![in alloc; Plain::Entries(names); names.min(1)]?;
    Ok(PlainNode::directory(blocks, (6 * names.min(8)) as u64))
}

/// A root, a file of 30 blocks, one with holes, one of 13 blocks of which only the last isn't a hole, and an empty
/// directory.
fn first_nodes(alloc: Global) -> Result<Vec<Option<PlainNode>>, AllocError> {
    let mut last_alone = vec![in alloc; Plain::Hole; 12]?;
    last_alone.push(Plain::Filled(7_000))?;
    let mut nodes = Vec::new(alloc);
    nodes.push(None)?;
    nodes.push(Some(root(alloc, 4)?))?;
    nodes.push(Some(PlainNode::file(filled(alloc, 30, 1_000)?, 11)))?;
    nodes.push(Some(PlainNode::file(holed(alloc, 20, 2_000, 3)?, 12)))?;
    nodes.push(Some(PlainNode::file(last_alone, 13)))?;
    nodes.push(Some(PlainNode::directory(Vec::new(alloc), 0)))?;
    Ok(nodes)
}

/// Other nodes of the numbers up to 4; 5 is free.
fn other_nodes(alloc: Global) -> Result<Vec<Option<PlainNode>>, AllocError> {
    let mut nodes = Vec::new(alloc);
    nodes.push(None)?;
    nodes.push(Some(root(alloc, 3)?))?;
    nodes.push(Some(PlainNode::file(filled(alloc, 20, 4_000)?, 21)))?;
    nodes.push(Some(PlainNode::file(holed(alloc, 14, 5_000, 5)?, 22)))?;
    nodes.push(Some(PlainNode::directory(Vec::new(alloc), 0)))?;
    Ok(nodes)
}

fn opened<T: Stored>(
    rt: &impl Abort,
    alloc: Global,
    site: Site,
    first: First,
    failing: &[u64],
) -> Result<T, Fail> {
    match T::first(alloc, site, first, failing)? {
        Some(store) => Ok(store),
        None => panic!(rt; "no contents"),
    }
}

fn opened_again<T: Stored>(
    rt: &impl Abort,
    alloc: Global,
    store: &T,
    failing: &[u64],
) -> Result<T, Fail> {
    match store.again(alloc, failing)? {
        Some(second) => Ok(second),
        None => panic!(rt; "no contents"),
    }
}

/// A count of few things as a number.
fn number(count: usize) -> u32 {
    match u32::try_from(count) {
        Ok(number) => number,
        Err(_) => u32::MAX,
    }
}

/// Makes these nodes, by their numbers from 0 on.
fn make_all<T: Stored>(rt: &impl Abort, alloc: Global, store: &mut T, nodes: &[Option<PlainNode>]) {
    for (ino, node) in nodes.iter().enumerate() {
        if let Some(node) = node {
            let made = store.make(alloc, number(ino), node);
            assert!(rt; made == Some(Prepared::Ready), "number {ino}");
        }
    }
}

fn flushed<T: Stored>(rt: &impl Abort, alloc: Global, store: &mut T) {
    let answer = store.flush(alloc);
    assert!(rt; matches!(answer, UnitAnswer::Written { .. }));
    assert!(rt; store.counted().dirty == 0);
}

/// Block `i` of a number is read as this.
fn has_block<T: Stored>(
    rt: &impl Abort,
    alloc: Global,
    store: &mut T,
    ino: u32,
    i: u32,
    wanted: Plain,
) {
    let mut bytes = [1; BLOCK];
    let found = store.block(alloc, ino, i, &mut bytes);
    let placed = store.place(alloc, ino, i);
    let is_there = match wanted {
        Plain::Hole => found == Some(Found::Hole) && placed == Some(Placed::Hole),
        Plain::Filled(_) | Plain::Entries(_) => {
            found == Some(Found::Bytes) && placed == Some(Placed::Here)
        }
        Plain::Away(_) => {
            found == Some(Found::Bytes) && matches!(placed, Some(Placed::Away { .. }))
        }
    };
    assert!(rt; is_there, "{ino}: {i}");
    assert!(rt; bytes.as_slice() == wanted.bytes().as_slice(), "{ino}: {i}");
}

/// A number has this node, whose blocks are read, and one past them.
fn has_node<T: Stored>(
    rt: &impl Abort,
    alloc: Global,
    store: &mut T,
    ino: u32,
    wanted: &PlainNode,
) {
    let node = Node {
        kind: wanted.kind,
        size: wanted.size,
        used: wanted.used,
    };
    assert!(rt;
        store.node(alloc, ino) == Some(NodeFound::Node(node)),
        "{ino}"
    );
    for i in 0..number(wanted.blocks.len()).saturating_add(1) {
        has_block(rt, alloc, store, ino, i, wanted.block(i));
    }
    has_block(rt, alloc, store, ino, 1_036, Plain::Hole);
}

/// The numbers have these nodes, and those behind them none.
fn has_nodes<T: Stored>(
    rt: &impl Abort,
    alloc: Global,
    store: &mut T,
    nodes: &[Option<PlainNode>],
) {
    for (i, node) in nodes.iter().enumerate() {
        let ino = number(i);
        match node {
            Some(node) => has_node(rt, alloc, store, ino, node),
            None => assert!(rt; ino == 0 || store.node(alloc, ino) == Some(NodeFound::Unused)),
        }
    }
    assert!(rt; store.node(alloc, 511) == Some(NodeFound::Unused));
}

/// The lowest number from 1 on without a node.
fn lowest_free(nodes: &[Option<PlainNode>]) -> u32 {
    for (ino, node) in nodes.iter().enumerate() {
        if 1 <= ino && node.is_none() {
            return number(ino);
        }
    }
    number(nodes.len()).max(1)
}

/// What these nodes are charged.
fn charge(nodes: &[Option<PlainNode>]) -> u32 {
    let mut sum = 0;
    for node in nodes {
        if let Some(node) = node {
            sum = node.charge().saturating_add(sum);
        }
    }
    sum
}

/// The live blocks of all segments together.
fn live_sum<T: Stored>(store: &T) -> u32 {
    let mut sum = 0;
    for seg in 1..81 {
        sum = store.live(seg).unwrap_or(0).saturating_add(sum);
    }
    sum
}

/// A store with nothing dirty has these nodes and counts, and so has a second store, opened on what reads give.
fn lasts<T: Stored + Drop>(
    rt: &impl Abort,
    alloc: Global,
    store: &mut T,
    nodes: &[Option<PlainNode>],
) -> Result<(), Fail> {
    has_nodes(rt, alloc, store, nodes);
    let counted = store.counted();
    assert!(rt; counted.charge == charge(nodes));
    assert!(rt; counted.lowest_free == Some(lowest_free(nodes)));
    assert!(rt; live_sum(store) == charge(nodes).saturating_add(4));
    let mut second = opened_again(rt, alloc, store, &[])?;
    has_nodes(rt, alloc, &mut second, nodes);
    assert_eq!(rt; second.counted(), counted);
    for seg in 0..82 {
        assert!(rt; second.live(seg) == store.live(seg), "segment {seg}");
    }
    match store.nodes(alloc, store.now(), Tear::Old)? {
        Some(found) => assert!(rt; are_nodes(found.as_slice(), nodes)),
        None => panic!(rt; "not sound"),
    }
    Ok(())
}

/// A flush with nothing dirty calls no device.
fn does_nothing<T: Stored>(rt: &impl Abort, alloc: Global, store: &mut T) {
    let start = store.now();
    assert!(rt; store.counted().dirty == 0);
    assert!(rt; store.flush(alloc) == UnitAnswer::Written { used: 0 });
    assert!(rt; store.now() == start);
}

/// A root, and a file of so many blocks.
fn one_file(alloc: Global, count: u32, mark: u32) -> Result<Vec<Option<PlainNode>>, AllocError> {
    let mut nodes = Vec::new(alloc);
    nodes.push(None)?;
    nodes.push(Some(root(alloc, 1)?))?;
    nodes.push(Some(PlainNode::file(filled(alloc, count, mark)?, 5)))?;
    Ok(nodes)
}
