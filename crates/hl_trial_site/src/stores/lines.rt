//! Blocks that are away, and lines of the disk.

use super::stops::{TEARS, leaves_files};
use super::{flushed, has_block, has_node, opened, opened_again, root};
use hl_bytes::{BLOCK, SegBuf};
use hl_inode::Kind;
use hl_store::{Found, Node, NodeFound, Placed, Prepared};
use hl_trial::stores::{First, HOME, Plain, PlainNode, STAGED, Site, Stored, Trial};
use std::alloc::{AllocError, Global};
use std::process::Abort;
use std::test::*;

/// The root with one name, and the file of a first image that has away blocks.
fn away_nodes(alloc: Global) -> Result<Vec<Option<PlainNode>>, AllocError> {
    let mut blocks = Vec::new(alloc);
    blocks.push(Plain::Away(STAGED.byte))?;
    blocks.push(Plain::Away(HOME.byte))?;
    let mut nodes = Vec::new(alloc);
    nodes.push(None)?;
    nodes.push(Some(root(alloc, 1)?))?;
    nodes.push(Some(PlainNode::file(blocks, 7)))?;
    Ok(nodes)
}

/// A store on a first image that has away blocks, whose root has the name of the file.
fn opened_away<T: Stored + Drop>(rt: &impl Abort, alloc: Global) -> Result<T, Fail> {
    let mut store = opened::<T>(rt, alloc, Site::Small, First::Away, &[])?;
    assert!(rt; store.make(alloc, 1, &root(alloc, 1)?) == Some(Prepared::Ready));
    flushed(rt, alloc, &mut store);
    Ok(store)
}

/// Each stop from a moment on leaves the files of these nodes.
fn leaves_always<T: Stored>(
    rt: &impl Abort,
    alloc: Global,
    store: &T,
    start: u64,
    nodes: &[Option<PlainNode>],
) -> Result<(), Fail> {
    for moment in start..store.now().saturating_add(1) {
        for tear in TEARS {
            let leaves = leaves_files(alloc, store, moment, tear, nodes)?;
            assert!(rt; leaves, "moment {moment}, {tear:?}");
        }
    }
    Ok(())
}

/// A line holds this segment.
fn has_segment<T: Stored>(
    rt: &impl Abort,
    alloc: Global,
    store: &mut T,
    line: u32,
    wanted: &SegBuf,
) -> Result<(), Fail> {
    let mut buf = SegBuf::new(alloc, 64)?;
    assert!(rt; store.load_line(line, &mut buf) == Some(Ok(())));
    assert!(rt;
        buf.part(0, buf.blocks()) == wanted.part(0, wanted.blocks()),
        "line {line}"
    );
    Ok(())
}

/// A segment that is fetched into a line is read from it, and no file is another by that.
fn fetches<T: Stored + Drop>(rt: &impl Abort, alloc: Global) -> Result<(), Fail> {
    let mut store = opened_away::<T>(rt, alloc)?;
    let nodes = away_nodes(alloc)?;
    has_segment(rt, alloc, &mut store, 3, &STAGED.sealed(alloc, 64)?)?;
    let home = HOME.sealed(alloc, 64)?;
    let (counted, start) = (store.counted(), store.now());
    assert!(rt; store.set_line_aside() == Some(0) && store.set_line_aside() == Some(1));
    assert!(rt; store.store_line(0, &home) == Some(Ok(())) && store.sync() == Ok(()));
    leaves_always(rt, alloc, &store, start, nodes.as_slice())?;
    let mut bytes = [0; BLOCK];
    assert!(rt; store.block(alloc, 2, 1, &mut bytes) == Some(Found::Away(1)));
    assert!(rt; store.bind_line(1, 0) == Some(Ok(())) && store.bind_line(0, 0).is_none());
    has_segment(rt, alloc, &mut store, 0, &home)?;
    if let Some(Some(file)) = nodes.get(2) {
        has_node(rt, alloc, &mut store, 2, file);
    }
    assert!(rt; store.place(alloc, 2, 1) == Some(Placed::Away { tseg: 1, block: 1 }));
    assert!(rt; store.counted() == counted);
    leaves_always(rt, alloc, &store, store.now(), nodes.as_slice())
}

#[test]
fn a_line_is_filled_and_the_nodes_stay(rt: HostRuntime) -> Result<(), Fail> {
    fetches::<Trial>(&rt, rt.alloc())
}
