//! Changes of slots and volumes.

use super::{first_nodes, flushed, lasts, make_all, opened, opened_again};
use hl_bytes::TableRecord;
use hl_log::UnitAnswer;
use hl_mem::Tear;
use hl_store::Prepared;
use hl_trial::stores::{First, Site, Stored, Tertiary, Trial};
use hl_tseg::Slot;
use std::alloc::Global;
use std::process::Abort;
use std::test::*;

/// A segment that a line is written with.
const SEGMENT: Tertiary = Tertiary {
    serial: 10,
    index: 0,
    byte: 3,
};

/// Slot 0 is staged in line 4 with that segment, slot 2 is spoilt, and volume 0 is full.
const CHANGES: [TableRecord; 3] = [
    TableRecord {
        kind: 2,
        a: 0,
        b: 4,
        serial: SEGMENT.serial,
    },
    TableRecord {
        kind: 4,
        a: 2,
        b: 0,
        serial: 0,
    },
    TableRecord {
        kind: 5,
        a: 0,
        b: 0,
        serial: 0,
    },
];

/// The segment of slot 0 is home.
const LAST: TableRecord = TableRecord {
    kind: 3,
    a: 0,
    b: 0,
    serial: SEGMENT.serial,
};

/// What slots 0 to 3 hold, and whether volume 0 is full.
type Slots = ([Slot; 4], bool);

/// What the tables of a store have of its one volume, if they have it.
fn slots<T: Stored>(store: &T) -> Option<Slots> {
    let first = store.slot(0)?;
    let second = store.slot(1)?;
    let third = store.slot(2)?;
    let fourth = store.slot(3)?;
    Some(([first, second, third, fourth], store.is_full(0)?))
}

/// The slots of a store are these, and of a second store, opened on what reads give.
fn has_slots<T: Stored + Drop>(
    rt: &impl Abort,
    alloc: Global,
    store: &T,
    wanted: Slots,
) -> Result<(), Fail> {
    assert!(rt; slots(store) == Some(wanted));
    let second = opened_again(rt, alloc, store, &[])?;
    assert!(rt; slots(&second) == Some(wanted));
    Ok(())
}

/// The slots that each stop from a moment on leaves are those of before or those of after, and now those of after.
fn leaves_slots<T: Stored + Drop>(
    rt: &impl Abort,
    alloc: Global,
    store: &T,
    start: u64,
    before: Slots,
    after: Slots,
) -> Result<(), Fail> {
    for moment in start..store.now().saturating_add(1) {
        match store.after_stop(alloc, moment, Tear::Prefix(5_000))? {
            Some(second) => {
                let left = slots(&second);
                let is_after = left == Some(after);
                assert!(rt; is_after || left == Some(before), "moment {moment}");
                assert!(rt; is_after || moment < store.now());
            }
            None => panic!(rt; "moment {moment}: no contents"),
        }
    }
    Ok(())
}

/// Notes and a flush that were reserved succeed, last together, and so does a note without a node.
fn notes_last<T: Stored + Drop>(rt: &impl Abort, alloc: Global) -> Result<(), Fail> {
    let mut store = opened::<T>(rt, alloc, Site::Small, First::Root, &[])?;
    let segment = SEGMENT.sealed(alloc, 64)?;
    assert!(rt; store.store_line(4, &segment) == Some(Ok(())) && store.sync() == Ok(()));
    let nodes = first_nodes(alloc)?;
    make_all(rt, alloc, &mut store, nodes.as_slice());
    let before = ([Slot::Free; 4], false);
    has_slots(rt, alloc, &store, before)?;
    assert!(rt; store.reserve(alloc, 3) == Prepared::Ready);
    for change in CHANGES {
        assert!(rt; store.note(change) == Some(Ok(())), "{change:?}");
    }
    let staged = Slot::Staged {
        line: 4,
        serial: SEGMENT.serial,
    };
    let noted = ([staged, Slot::Free, Slot::Spoilt, Slot::Free], true);
    let start = store.now();
    flushed(rt, alloc, &mut store);
    has_slots(rt, alloc, &store, noted)?;
    leaves_slots(rt, alloc, &store, start, before, noted)?;
    lasts(rt, alloc, &mut store, nodes.as_slice())?;
    assert!(rt; store.reserve(alloc, 1) == Prepared::Ready);
    assert!(rt; store.note(LAST) == Some(Ok(())) && store.counted().dirty == 0);
    let home = Slot::Home {
        serial: SEGMENT.serial,
    };
    let last = ([home, Slot::Free, Slot::Spoilt, Slot::Free], true);
    let start = store.now();
    flushed(rt, alloc, &mut store);
    has_slots(rt, alloc, &store, last)?;
    leaves_slots(rt, alloc, &store, start, noted, last)?;
    assert!(rt; matches!(store.checkpoint(alloc), UnitAnswer::Written { .. }));
    has_slots(rt, alloc, &store, last)?;
    lasts(rt, alloc, &mut store, nodes.as_slice())
}

#[test]
fn notes_and_a_flush_that_were_reserved_succeed(rt: HostRuntime) -> Result<(), Fail> {
    notes_last::<Trial>(&rt, rt.alloc())
}
