//! The sparse image: its nodes, and what a survey of it finds.

use super::parts::surveyed;
use hl_addr::NOTHING;
use hl_inode::Kind;
use hl_nodes::{FoundBlock, FoundNode, Rule};
use hl_survey::{CheckError, FoundInode};
use hl_trial::images::{AWAY, change, nodes, sparse_image};
use std::alloc::Global;
use std::process::Abort;
use std::test::*;

/// The serial and the position of a block that is away.
fn away(block: &FoundBlock) -> Option<(u64, u32)> {
    match block {
        FoundBlock::Away { serial, position } => Some((*serial, *position)),
        _ => None,
    }
}

/// The first byte of a block that is in the log.
fn first_byte(block: &FoundBlock) -> Option<u8> {
    match block {
        FoundBlock::Here(bytes) => bytes.first().copied(),
        _ => None,
    }
}

/// Block 1 of the file begins with a byte 4, 13 is away, and all others are holes.
fn has_blocks(rt: &impl Abort, blocks: &[FoundBlock]) {
    assert_eq!(rt; blocks.len(), 14);
    for (i, block) in blocks.iter().enumerate() {
        let is_there = match i {
            1 => first_byte(block) == Some(4),
            13 => away(block) == Some((9, 1)),
            _ => matches!(block, FoundBlock::Hole),
        };
        assert!(rt; is_there, "block {i}");
    }
}

/// Of so many numbers these are all that are in use, from 1 on.
fn has_two<T>(rt: &impl Abort, numbers: &[Option<T>]) {
    assert_eq!(rt; numbers.len(), 512);
    for (i, number) in numbers.iter().enumerate() {
        assert!(rt; number.is_some() == (i == 1 || i == 2), "number {i}");
    }
}

fn has_nodes(rt: &impl Abort, nodes: &[Option<FoundNode>]) {
    has_two(rt, nodes);
    if let Some(Some(root)) = nodes.get(1) {
        assert!(rt; root.kind == Kind::Dir && root.size == 6 && root.blocks.len() == 1);
    }
    if let Some(Some(file)) = nodes.get(2) {
        assert!(rt; file.kind == Kind::File && file.size == 57_344 && file.used == 5);
        has_blocks(rt, file.blocks.as_slice());
    }
}

#[test]
fn the_sparse_image_has_its_nodes(rt: HostRuntime) -> Result<(), Fail> {
    let image = sparse_image(rt.alloc())?;
    match nodes(rt.alloc(), &image)? {
        Some(found) => has_nodes(&rt, found.as_slice()),
        None => panic!(rt; "no contents"),
    }
    Ok(())
}

/// The pointers of the file.
fn has_pointers(rt: &impl Abort, pointers: &[u32]) {
    assert_eq!(rt; pointers.len(), 14);
    for (i, pointer) in pointers.iter().enumerate() {
        let wanted = match i {
            1 => 73,
            13 => AWAY,
            _ => NOTHING,
        };
        assert!(rt; *pointer == wanted, "block {i}");
    }
}

fn has_inodes(rt: &impl Abort, found: &[Option<FoundInode>]) {
    has_two(rt, found);
    if let Some(Some(root)) = found.get(1) {
        assert!(rt; root.address == 70 && root.inode.kind == Kind::Dir);
        assert_eq!(rt; root.pointers.as_slice(), [72].as_slice());
    }
    if let Some(Some(file)) = found.get(2) {
        assert!(rt; file.address == 71 && file.inode.used == 5);
        has_pointers(rt, file.pointers.as_slice());
    }
}

#[test]
fn the_sparse_image_is_surveyed(rt: HostRuntime) -> Result<(), Fail> {
    let image = sparse_image(rt.alloc())?;
    match surveyed(rt.alloc(), &image, 0)? {
        Ok(found) => has_inodes(&rt, found.as_slice()),
        Err(stop) => panic!(rt; "{stop:?}"),
    }
    Ok(())
}

/// Why a survey of the sparse image with a change stops, where a call fails.
fn stop_of(
    rt: &impl Abort,
    alloc: Global,
    changes: &str,
    fails: u64,
) -> Result<Option<CheckError>, Fail> {
    let mut image = sparse_image(alloc)?;
    assert!(rt; change(&mut image, changes), "{changes}");
    Ok(surveyed(alloc, &image, fails)?.err())
}

#[test]
fn a_survey_tells_the_block_and_the_rule(rt: HostRuntime) -> Result<(), Fail> {
    for (changes, block, rule) in [
        ("100+20=1088", 100, Rule::MapEntry),
        ("71+8=3", 71, Rule::InodeBytes),
        ("74+4=slot+65", 71, Rule::PointerPlace),
        ("74+8=75", 74, Rule::PointerBlock),
    ] {
        let wanted = CheckError::Damaged { block, rule };
        let stop = stop_of(&rt, rt.alloc(), changes, 0)?;
        assert!(rt; stop == Some(wanted), "{changes}");
    }
    Ok(())
}

#[test]
fn a_failed_read_is_a_fault_and_no_fourth_block_is_read(rt: HostRuntime) -> Result<(), Fail> {
    for fails in [1, 2, 3] {
        let stop = stop_of(&rt, rt.alloc(), "", fails)?;
        assert!(rt; stop == Some(CheckError::DiskFault), "call {fails}");
    }
    assert!(rt; stop_of(&rt, rt.alloc(), "", 4)?.is_none());
    Ok(())
}
