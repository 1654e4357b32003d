//! How often the disk is read.

use super::{filled, flushed, has_block, has_node, make_all, one_file, opened, opened_again};
use hl_bytes::BLOCK;
use hl_store::{Found, Prepared};
use hl_trial::stores::{First, Plain, PlainNode, Site, Stored, Trial};
use std::alloc::Global;
use std::process::Abort;
use std::test::*;

/// Reads so many blocks of number 2, and answers how many calls that took.
fn reads_taken<T: Stored>(rt: &impl Abort, alloc: Global, store: &mut T, count: u32) -> u64 {
    let start = store.now();
    let mut bytes = [0; BLOCK];
    for i in 0..count {
        assert!(rt; store.block(alloc, 2, i, &mut bytes) == Some(Found::Bytes));
    }
    store.now().saturating_sub(start) / 2
}

/// The inode and its pointer block are read once, and each block once each time that it is asked for. New blocks and holes
/// take no read.
fn reads_once<T: Stored + Drop>(rt: &impl Abort, alloc: Global) -> Result<(), Fail> {
    let mut store = opened::<T>(rt, alloc, Site::Small, First::Root, &[])?;
    let nodes = one_file(alloc, 30, 6_000)?;
    make_all(rt, alloc, &mut store, nodes.as_slice());
    assert!(rt; reads_taken(rt, alloc, &mut store, 30) == 0);
    flushed(rt, alloc, &mut store);
    let mut second = opened_again(rt, alloc, &store, &[])?;
    assert!(rt; reads_taken(rt, alloc, &mut second, 30) <= 32);
    assert!(rt; reads_taken(rt, alloc, &mut second, 30) <= 30);
    second.release();
    assert!(rt; reads_taken(rt, alloc, &mut second, 30) <= 30);
    let start = second.now();
    has_block(rt, alloc, &mut second, 2, 30, Plain::Hole);
    assert!(rt; second.now() == start);
    Ok(())
}

#[test]
fn a_node_is_read_once(rt: HostRuntime) -> Result<(), Fail> {
    reads_once::<Trial>(&rt, rt.alloc())
}

/// Asks for the nodes of the numbers from 2 up to one, and answers how many calls that took.
fn nodes_taken<T: Stored>(alloc: Global, store: &mut T, end: u32) -> u64 {
    let start = store.now();
    for ino in 2..end {
        let _ = store.node(alloc, ino);
    }
    store.now().saturating_sub(start) / 2
}

/// 64 nodes that were read are kept, and of 70 none; what is changed is kept.
fn lets_go<T: Stored + Drop>(rt: &impl Abort, alloc: Global) -> Result<(), Fail> {
    let mut store = opened::<T>(rt, alloc, Site::Small, First::Root, &[])?;
    for ino in 2..72 {
        let file = PlainNode::file(filled(alloc, 1, ino)?, 1);
        assert!(rt; store.make(alloc, ino, &file) == Some(Prepared::Ready));
    }
    flushed(rt, alloc, &mut store);
    for (end, first, next) in [(66, 64, 0), (72, 6, 70)] {
        assert!(rt; nodes_taken(alloc, &mut store, end) == first);
        store.release();
        assert!(rt; nodes_taken(alloc, &mut store, end) == next);
    }
    let file = PlainNode::file(filled(alloc, 3, 500)?, 1);
    assert!(rt; store.make(alloc, 71, &file) == Some(Prepared::Ready));
    store.release();
    has_node(rt, alloc, &mut store, 71, &file);
    Ok(())
}

#[test]
fn a_release_lets_go_what_was_only_read_where_it_is_much(rt: HostRuntime) -> Result<(), Fail> {
    lets_go::<Trial>(&rt, rt.alloc())
}
