//! What no clause says: that a site is made with ample memory, and where its blocks lie.

use hl_addr::NOTHING;
use hl_inode::{Inode, Kind};
use hl_mem::Tear;
use hl_trial::mkfs::{Found, Makeable, Site, Trial};
use std::alloc::Global;
use std::process::Abort;
use std::test::*;

/// A site that is made whole.
fn made<T: Makeable>(
    rt: &impl Abort,
    alloc: Global,
    site: Site,
    old: Option<&[u8]>,
) -> Result<T, Fail> {
    let trial = T::make(alloc, site, old, None)?;
    assert!(rt; trial.answer().is_none());
    assert_eq!(rt; trial.faults(), 0);
    Ok(trial)
}

/// The disk of a site that was made.
fn disk<T: Makeable>(rt: &impl Abort, alloc: Global, trial: &T) -> Result<Vec<u8>, Fail> {
    match trial.image(alloc, trial.now(), Tear::New)? {
        Some(image) => Ok(image),
        None => panic!(rt; "no image"),
    }
}

/// The root's inode.
const ROOT: Inode = Inode {
    number: 1,
    kind: Kind::Dir,
    size: 0,
    used: 0,
    direct: [NOTHING; 12],
    single: NOTHING,
};

/// Record 1 of a site names table blocks that begin and end so, and the chain goes on at this block with this serial.
fn has_record<T: Makeable>(
    rt: &impl Abort,
    alloc: Global,
    trial: &T,
    tables: (usize, u32, u32),
    block: u32,
    serial: u64,
) -> Result<(), Fail> {
    let Some(rec) = trial.record(alloc)? else {
        panic!(rt; "no record");
    };
    assert_eq!(rt; (rec.number, rec.serial), (1, serial));
    assert_eq!(rt; (rec.seg, rec.block), (1, block));
    assert_eq!(rt; (rec.tseg_serial, rec.format), (1, 1));
    let named = rec.tables.items();
    assert_eq!(rt; named.len(), tables.0);
    assert_eq!(rt; named.first().copied(), Some(tables.1));
    assert_eq!(rt; named.last().copied(), Some(tables.2));
    Ok(())
}

/// The usual site is made so.
fn usual_blocks<T: Makeable>(rt: &impl Abort, alloc: Global, trial: &T) -> Result<(), Fail> {
    has_record(rt, alloc, trial, (4, 67, 70), 7, 3)?;
    assert!(rt; trial.inode(alloc, 65)? == Some(ROOT));
    let found = trial.found(alloc, trial.now(), Tear::Old)?;
    assert!(rt; found == Some(Found::Root));
    Ok(())
}

#[test]
fn the_usual_site_has_these_blocks(rt: HostRuntime) -> Result<(), Fail> {
    let alloc = rt.alloc();
    let trial: Trial = made(&rt, alloc, Site::Usual, None)?;
    usual_blocks(&rt, alloc, &trial)
}

/// The site with the most tables writes them in two parts.
fn large_blocks<T: Makeable>(rt: &impl Abort, alloc: Global, trial: &T) -> Result<(), Fail> {
    has_record(rt, alloc, trial, (256, 515, 771), 260, 4)?;
    assert!(rt; trial.inode(alloc, 513)? == Some(ROOT));
    let found = trial.found(alloc, trial.now(), Tear::Old)?;
    assert!(rt; found == Some(Found::Root));
    Ok(())
}

#[test]
fn the_site_with_the_most_tables_has_these_blocks(rt: HostRuntime) -> Result<(), Fail> {
    let alloc = rt.alloc();
    let trial: Trial = made(&rt, alloc, Site::Large, None)?;
    large_blocks(&rt, alloc, &trial)
}

#[test]
fn a_site_is_made_over_another(rt: HostRuntime) -> Result<(), Fail> {
    let alloc = rt.alloc();
    let first: Trial = made(&rt, alloc, Site::Usual, None)?;
    let old = disk(&rt, alloc, &first)?;
    let second: Trial = made(&rt, alloc, Site::Usual, Some(old.as_slice()))?;
    usual_blocks(&rt, alloc, &second)?;
    let again = disk(&rt, alloc, &second)?;
    assert!(rt; old.as_slice() == again.as_slice());
    Ok(())
}
