//! Nodes that are made, changed, freed and read back.

use super::{
    charge, does_nothing, filled, first_nodes, flushed, has_nodes, lasts, make_all, number,
    one_file, opened, opened_again, other_nodes, root,
};
use hl_store::{NodeFound, Prepared};
use hl_trial::stores::{Counted, First, Plain, PlainNode, Site, Stored, Trial};
use std::alloc::Global;
use std::process::Abort;
use std::test::*;

/// The longest file lasts, and so does that its number is free.
fn takes_the_longest<T: Stored + Drop>(rt: &impl Abort, alloc: Global) -> Result<(), Fail> {
    let mut store = opened::<T>(rt, alloc, Site::Wide, First::Root, &[])?;
    let mut nodes = Vec::new(alloc);
    nodes.push(None)?;
    nodes.push(Some(root(alloc, 1)?))?;
    nodes.push(Some(PlainNode::file(filled(alloc, 1_036, 90_000)?, 4)))?;
    make_all(rt, alloc, &mut store, nodes.as_slice());
    flushed(rt, alloc, &mut store);
    lasts(rt, alloc, &mut store, nodes.as_slice())?;
    let _ = nodes.pop();
    nodes.push(None)?;
    assert!(rt; store.free(alloc, 2) == Some(Prepared::Ready));
    flushed(rt, alloc, &mut store);
    lasts(rt, alloc, &mut store, nodes.as_slice())
}

#[test]
fn the_longest_file_comes_and_goes(rt: HostRuntime) -> Result<(), Fail> {
    takes_the_longest::<Trial>(&rt, rt.alloc())
}

/// A node that comes and goes before its unit leaves nothing dirty.
fn comes_and_goes<T: Stored + Drop>(rt: &impl Abort, alloc: Global) -> Result<(), Fail> {
    let mut store = opened::<T>(rt, alloc, Site::Small, First::Root, &[])?;
    let counted = store.counted();
    let file = PlainNode::file(filled(alloc, 20, 100)?, 1);
    assert!(rt; store.make(alloc, 2, &file) == Some(Prepared::Ready));
    assert!(rt; store.counted().dirty == 22 && store.counted().lowest_free == Some(3));
    assert!(rt; store.free(alloc, 2) == Some(Prepared::Ready));
    assert!(rt; store.counted() == counted);
    does_nothing(rt, alloc, &mut store);
    Ok(())
}

#[test]
fn a_node_that_comes_and_goes_leaves_nothing_dirty(rt: HostRuntime) -> Result<(), Fail> {
    comes_and_goes::<Trial>(&rt, rt.alloc())
}
