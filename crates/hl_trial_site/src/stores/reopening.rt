//! Stores one after the other on one machine.

use super::{filled, first_nodes, flushed, lasts, make_all, opened, other_nodes};
use hl_log::UnitAnswer;
use hl_store::Prepared;
use hl_trial::stores::{First, PlainNode, Site, Stored, Trial};
use std::alloc::Global;
use std::process::Abort;
use std::test::*;

/// The next store on the same machine, which calls no device to open.
fn next<T: Stored + Drop>(rt: &impl Abort, alloc: Global, store: T) -> Result<T, Fail> {
    let end = store.now();
    match store.reopened(alloc)? {
        Some(second) => {
            assert!(rt; second.now() == end);
            Ok(second)
        }
        None => panic!(rt; "no contents"),
    }
}

/// Each store finds what the one before made last, and not what that only had; numbers that one frees the next one takes.
fn goes_over<T: Stored + Drop>(rt: &impl Abort, alloc: Global) -> Result<(), Fail> {
    let mut first = opened::<T>(rt, alloc, Site::Small, First::Root, &[])?;
    let nodes = first_nodes(alloc)?;
    make_all(rt, alloc, &mut first, nodes.as_slice());
    flushed(rt, alloc, &mut first);
    let unsaved = PlainNode::file(filled(alloc, 3, 800)?, 4);
    assert!(rt; first.make(alloc, 2, &unsaved) == Some(Prepared::Ready));
    assert!(rt; first.make(alloc, 6, &unsaved) == Some(Prepared::Ready));
    let mut second = next(rt, alloc, first)?;
    lasts(rt, alloc, &mut second, nodes.as_slice())?;
    let others = other_nodes(alloc)?;
    make_all(rt, alloc, &mut second, others.as_slice());
    assert!(rt; second.free(alloc, 5) == Some(Prepared::Ready));
    flushed(rt, alloc, &mut second);
    let mut third = next(rt, alloc, second)?;
    lasts(rt, alloc, &mut third, others.as_slice())?;
    make_all(rt, alloc, &mut third, nodes.as_slice());
    assert!(rt; matches!(third.checkpoint(alloc), UnitAnswer::Written { .. }));
    let mut fourth = next(rt, alloc, third)?;
    lasts(rt, alloc, &mut fourth, nodes.as_slice())
}

#[test]
fn two_stores_one_after_the_other_on_one_machine(rt: HostRuntime) -> Result<(), Fail> {
    goes_over::<Trial>(&rt, rt.alloc())
}
