//! Flushes: what a stop in one leaves, and when the log is full.

use super::stops::{TEARS, leaves_files, leaves_one_of, which_left};
use super::{
    does_nothing, first_nodes, flushed, has_nodes, make_all, one_file, opened, other_nodes,
};
use hl_log::UnitAnswer;
use hl_mem::Tear;
use hl_store::Prepared;
use hl_trial::stores::{First, PlainNode, Site, Stored, Trial};
use std::alloc::Global;
use std::process::Abort;
use std::test::*;

/// Each stop from a moment on leaves the nodes of before or those of after, and a stop now those of after.
fn leaves_either<T: Stored>(
    rt: &impl Abort,
    alloc: Global,
    store: &T,
    start: u64,
    before: &[Option<PlainNode>],
    after: &[Option<PlainNode>],
) -> Result<(), Fail> {
    for moment in start..store.now() {
        leaves_one_of(rt, alloc, store, moment, before, after)?;
        let old = leaves_files(alloc, store, moment, Tear::Prefix(5_000), before)?;
        let new = leaves_files(alloc, store, moment, Tear::Prefix(5_000), after)?;
        assert!(rt; old != new, "moment {moment}");
    }
    for tear in TEARS {
        let which = which_left(alloc, store, store.now(), tear, before, after)?;
        assert!(rt; which == Some(true));
    }
    Ok(())
}

/// Each stop in a flush leaves what there was, or what there is.
fn is_whole_or_absent<T: Stored + Drop>(rt: &impl Abort, alloc: Global) -> Result<(), Fail> {
    let mut store = opened::<T>(rt, alloc, Site::Small, First::Root, &[])?;
    let first = first_nodes(alloc)?;
    make_all(rt, alloc, &mut store, first.as_slice());
    flushed(rt, alloc, &mut store);
    let other = other_nodes(alloc)?;
    make_all(rt, alloc, &mut store, other.as_slice());
    assert!(rt; store.free(alloc, 5) == Some(Prepared::Ready));
    let start = store.now();
    flushed(rt, alloc, &mut store);
    assert!(rt; start < store.now());
    assert!(rt; leaves_files(alloc, &store, start, Tear::Old, first.as_slice())?);
    assert!(rt; leaves_files(alloc, &store, store.now(), Tear::Old, other.as_slice())?);
    leaves_either(rt, alloc, &store, start, first.as_slice(), other.as_slice())
}

#[test]
fn each_stop_in_a_flush_leaves_the_nodes_of_before_or_of_after(
    rt: HostRuntime,
) -> Result<(), Fail> {
    is_whole_or_absent::<Trial>(&rt, rt.alloc())
}
