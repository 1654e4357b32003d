//! Checkpoints: the segments that one finds clean, and what a stop in one leaves.

use super::stops::TEARS;
use super::{
    filled, first_nodes, flushed, has_node, has_nodes, lasts, make_all, number, one_file, opened,
};
use hl_log::UnitAnswer;
use hl_mem::Tear;
use hl_store::Prepared;
use hl_trial::stores::{First, PlainNode, Site, Stored, Trial, are_nodes};
use std::alloc::{AllocError, Global};
use std::process::Abort;
use std::test::*;

/// Writes what is dirty, and a checkpoint.
fn checkpointed<T: Stored>(rt: &impl Abort, alloc: Global, store: &mut T) {
    let answer = store.checkpoint(alloc);
    assert!(rt; matches!(answer, UnitAnswer::Written { .. }));
    assert!(rt; store.counted().dirty == 0);
}

/// How many log segments of a small site have no live block and aren't the head's.
fn empty_segments<T: Stored>(store: &T) -> u32 {
    let mut count: u32 = 0;
    for seg in 1..17 {
        if store.live(seg) == Some(0) && store.head() != seg {
            count = count.saturating_add(1);
        }
    }
    count
}

/// The nodes of a turn: file 2 is another each time, file 3 every fifth time, and file 4 is there every other time.
fn nodes_of_turn(alloc: Global, turn: u32) -> Result<Vec<Option<PlainNode>>, AllocError> {
    let mut nodes = one_file(alloc, 30 + turn % 7, turn.wrapping_mul(1_000))?;
    let mark = (turn / 5).wrapping_mul(100);
    nodes.push(Some(PlainNode::file(filled(alloc, 14, mark)?, 6)))?;
    if turn % 2 == 0 {
        nodes.push(Some(PlainNode::file(filled(alloc, 3, turn)?, 7)))?;
    } else {
        nodes.push(None)?;
    }
    Ok(nodes)
}

/// Makes the nodes of a turn, of which a unit has those up to file 2, and answers how many blocks it made.
fn takes_turn<T: Stored>(
    rt: &impl Abort,
    alloc: Global,
    store: &mut T,
    turn: u32,
    nodes: &[Option<PlainNode>],
) -> u32 {
    let mut blocks: u32 = 0;
    for (i, node) in nodes.iter().enumerate() {
        let ino = number(i);
        match node {
            Some(node) if ino != 3 || turn % 5 == 0 => {
                assert!(rt;
                    store.make(alloc, ino, node) == Some(Prepared::Ready),
                    "{ino}"
                );
                blocks = blocks.saturating_add(node.charge());
            }
            None if ino == 4 => assert!(rt; store.free(alloc, 4) == Some(Prepared::Ready)),
            _ => {}
        }
        if ino == 2 {
            flushed(rt, alloc, store);
        }
    }
    blocks
}

/// Two units and a checkpoint in turn, until more blocks were written than the log has. What lasts is compared each fourth
/// time.
fn goes_round<T: Stored + Drop>(rt: &impl Abort, alloc: Global) -> Result<(), Fail> {
    let mut store = opened::<T>(rt, alloc, Site::Small, First::Root, &[])?;
    let mut blocks: u32 = 0;
    for turn in 0..32 {
        let nodes = nodes_of_turn(alloc, turn)?;
        let made = takes_turn(rt, alloc, &mut store, turn, nodes.as_slice());
        blocks = blocks.saturating_add(made);
        checkpointed(rt, alloc, &mut store);
        assert!(rt;
            store.counted().clean == empty_segments(&store),
            "turn {turn}"
        );
        if turn % 4 == 3 {
            lasts(rt, alloc, &mut store, nodes.as_slice())?;
        }
    }
    assert!(rt; 16 * 64 < blocks);
    Ok(())
}

#[test]
fn checkpoints_find_segments_clean_over_and_over(rt: HostRuntime) -> Result<(), Fail> {
    goes_round::<Trial>(&rt, rt.alloc())
}
