//! Want of memory. `bench/fail_alloc.sh` has each allocation of this trial fail in turn.

use super::{filled, has_nodes, number, root};
use hl_bytes::TableRecord;
use hl_log::UnitAnswer;
use hl_mem::Tear;
use hl_store::{NodeFound, Prepared};
use hl_trial::stores::{First, PlainNode, Site, Stored, Trial};
use std::alloc::{AllocError, Global};
use std::process::Abort;
use std::test::*;

/// What is asked of a store.
#[derive(Clone, Copy, Debug, PartialEq, Eq)]
enum Asked {
    /// To make the next node.
    Make,
    Reserve,
    Note,
    Flush,
    /// To flush what was reserved.
    FlushReserved,
    Checkpoint,
}

/// What is asked, in this order.
const STEPS: [Asked; 7] = [
    Asked::Make,
    Asked::Flush,
    Asked::Make,
    Asked::Reserve,
    Asked::Note,
    Asked::FlushReserved,
    Asked::Checkpoint,
];

/// How that ends.
#[derive(Clone, Copy, Debug, PartialEq, Eq)]
enum Answer {
    Done,
    Memory,
    /// The machine in memory has no memory for the record of a call.
    DiskFault,
    /// No answer that may come.
    Other,
}

fn answer_of_unit(answer: UnitAnswer) -> Answer {
    match answer {
        UnitAnswer::Written { .. } => Answer::Done,
        UnitAnswer::Memory => Answer::Memory,
        UnitAnswer::DiskFault => Answer::DiskFault,
        UnitAnswer::LogFull => Answer::Other,
    }
}

fn answer_of_prepared(answer: Prepared) -> Answer {
    match answer {
        Prepared::Ready => Answer::Done,
        Prepared::Memory => Answer::Memory,
        Prepared::DiskFault => Answer::DiskFault,
    }
}

/// Asks a store, where the next node has this number.
fn ask<T: Stored>(
    alloc: Global,
    store: &mut T,
    asked: Asked,
    ino: u32,
    node: &PlainNode,
) -> Answer {
    let change = TableRecord {
        kind: 4,
        a: 2,
        b: 0,
        serial: 0,
    };
    match asked {
        Asked::Make => match store.make(alloc, ino, node) {
            Some(answer) => answer_of_prepared(answer),
            None => Answer::Other,
        },
        Asked::Reserve => answer_of_prepared(store.reserve(alloc, 1)),
        Asked::Note => match store.note(change) {
            Some(Ok(())) => Answer::Done,
            Some(Err(_)) => Answer::Memory,
            None => Answer::Other,
        },
        Asked::Flush | Asked::FlushReserved => answer_of_unit(store.flush(alloc)),
        Asked::Checkpoint => answer_of_unit(store.checkpoint(alloc)),
    }
}

/// Whether the disk has the bytes that it had at a moment.
fn has_disk_of<T: Stored>(alloc: Global, store: &T, moment: u64) -> Result<bool, AllocError> {
    let before = store.image(alloc, moment, Tear::New)?;
    let now = store.image(alloc, store.now(), Tear::New)?;
    match (before, now) {
        (Some(before), Some(now)) => Ok(before.as_slice() == now.as_slice()),
        _ => Ok(false),
    }
}

/// Whether this writes the log. After a failed device call of it the log is not to be written again.
fn is_write(asked: Asked) -> bool {
    matches!(
        asked,
        Asked::Flush | Asked::FlushReserved | Asked::Checkpoint
    )
}

/// Whether a refusal may come: what was reserved is never refused for memory.
fn may_be_refused(asked: Asked, answer: Answer) -> bool {
    match answer {
        Answer::Done | Answer::Other => false,
        Answer::Memory => asked != Asked::Note && asked != Asked::FlushReserved,
        Answer::DiskFault => asked == Asked::Make || is_write(asked),
    }
}

/// Asks for one thing, and once more where it is refused, which succeeds, and answers how it ended first. After a refusal
/// the store has these nodes and counts, and where it was for memory its machine has the same disk.
fn asks_twice<T: Stored>(
    rt: &impl Abort,
    alloc: Global,
    store: &mut T,
    asked: Asked,
    file: &PlainNode,
    nodes: &[Option<PlainNode>],
) -> Result<Answer, AllocError> {
    let (counted, moment) = (store.counted(), store.now());
    let next = number(nodes.len());
    let answer = ask(alloc, store, asked, next, file);
    if answer == Answer::Done {
        return Ok(answer);
    }
    assert!(rt; may_be_refused(asked, answer), "{asked:?}: {answer:?}");
    assert!(rt; store.counted() == counted, "{asked:?}: {answer:?}");
    let is_same = has_disk_of(alloc, store, moment)?;
    assert!(rt; is_same || answer == Answer::DiskFault, "{asked:?}");
    has_nodes(rt, alloc, store, nodes);
    assert!(rt; store.node(alloc, next) == Some(NodeFound::Unused));
    if answer == Answer::Memory || !is_write(asked) {
        let again = ask(alloc, store, asked, next, file);
        assert!(rt; again == Answer::Done, "{asked:?}: {answer:?}, {again:?}");
    }
    Ok(answer)
}

/// A store has these nodes and counts, and so has a second one, opened on what reads give.
fn has_all<T: Stored + Drop>(
    rt: &impl Abort,
    alloc: Global,
    store: &mut T,
    nodes: &[Option<PlainNode>],
) -> Result<(), AllocError> {
    has_nodes(rt, alloc, store, nodes);
    match store.again(alloc, &[])? {
        Some(second) => {
            let mut second = second;
            assert!(rt; second.counted() == store.counted());
            has_nodes(rt, alloc, &mut second, nodes);
        }
        None => panic!(rt; "no contents"),
    }
    Ok(())
}

/// Asks a store for each step, and answers which was refused, if one was. Only one allocation fails, so that what comes
/// behind a refusal finds memory.
fn goes_through<T: Stored + Drop>(
    rt: &impl Abort,
    alloc: Global,
) -> Result<Option<(Asked, Answer)>, AllocError> {
    let Some(mut store) = T::first(alloc, Site::Small, First::Root, &[])? else {
        panic!(rt; "no contents")
    };
    let mut nodes = Vec::new(alloc);
    nodes.push(None)?;
    nodes.push(Some(root(alloc, 0)?))?;
    let mut refused = None;
    for asked in STEPS {
        let file = PlainNode::file(filled(alloc, 14, 100)?, 3);
        let answer = asks_twice(rt, alloc, &mut store, asked, &file, nodes.as_slice())?;
        if asked == Asked::Make {
            nodes.push(Some(file))?;
        }
        if answer != Answer::Done {
            refused = Some((asked, answer));
        }
        if answer == Answer::DiskFault && is_write(asked) {
            return Ok(refused);
        }
    }
    if refused.is_some() {
        has_all(rt, alloc, &mut store, nodes.as_slice())?;
    }
    Ok(refused)
}

#[test]
fn want_of_memory_changes_nothing(rt: HostRuntime) -> Result<(), Fail> {
    let first = goes_through::<Trial>(&rt, rt.alloc());
    let refused = match first {
        Ok(refused) => refused,
        Err(_) => {
            println!(rt; "wanting to the trial itself")?;
            goes_through::<Trial>(&rt, rt.alloc())?
        }
    };
    if let Some((asked, answer)) = refused {
        println!(rt; "{asked:?} was answered {answer:?}")?;
    }
    Ok(())
}
