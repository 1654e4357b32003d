//! What no clause says: that calls succeed with ample memory, and what a stop at each moment of worked runs leaves.

ghost use Rattle.std.specs.Prelude.{◌≤◌};

use hl_mem::Tear;
use hl_trial::logs::{Stoppable, Trial};
use std::alloc::Global;
use std::process::Abort;
use std::test::*;

/// What becomes of unsynced writes.
const TEARS: [Tear; 5] = [
    Tear::Old,
    Tear::New,
    Tear::Prefix(100),
    Tear::Prefix(5_000),
    Tear::Filled(0),
];

fn small<T: Stoppable>(rt: &impl Abort, alloc: Global, block: u32) -> Result<T, Fail> {
    match T::small(alloc, block)? {
        Some(trial) => Ok(trial),
        None => panic!(rt; "no disk"),
    }
}

fn large<T: Stoppable>(rt: &impl Abort, alloc: Global) -> Result<T, Fail> {
    match T::large(alloc, 0)? {
        Some(trial) => Ok(trial),
        None => panic!(rt; "no disk"),
    }
}

fn written<T: Stoppable>(
    rt: &impl Abort,
    alloc: Global,
    trial: &mut T,
    blocks: u32,
    byte: u8,
    changes: u32,
) -> Result<(), Fail>
    requires { blocks ≤ 1036 }
{
    assert!(rt; trial.write(alloc, blocks, byte, changes)?);
    Ok(())
}

fn checkpointed<T: Stoppable>(rt: &impl Abort, alloc: Global, trial: &mut T) -> Result<(), Fail> {
    assert!(rt; trial.checkpoint(alloc)?);
    Ok(())
}

/// Opens the log that a stop at a moment leaves, with a block that is lost.
fn reopened<T: Stoppable>(
    rt: &impl Abort,
    alloc: Global,
    trial: &mut T,
    moment: u64,
    lost: Option<u32>,
) -> Result<(), Fail> {
    assert!(rt; trial.reopen(alloc, moment, lost)?);
    Ok(())
}

/// A stop at a moment leaves a cut chain of so many parts, whatever becomes of unsynced writes.
fn leaves_parts<T: Stoppable>(
    rt: &impl Abort,
    alloc: Global,
    trial: &T,
    moment: u64,
    parts: usize,
) -> Result<(), Fail> {
    for tear in TEARS {
        assert!(rt; trial.parts(alloc, moment, tear)? == Some(parts));
    }
    Ok(())
}

/// A stop at a moment leaves one of two newest records, each by its number and how many parts its cut chain has.
fn leaves_record<T: Stoppable>(
    rt: &impl Abort,
    alloc: Global,
    trial: &T,
    moment: u64,
    either: [(u64, usize); 2],
) -> Result<(), Fail> {
    for tear in TEARS {
        let found = trial.newest(alloc, moment, tear)?;
        assert!(rt; found == Some(either[0]) || found == Some(either[1]));
    }
    Ok(())
}

/// A log whose one unit has two parts. The zeros at the head, those behind the first part, and that part, each written
/// and synced, end at moment 12; those behind the second part, and that part, at moment 20.
fn with_two_parts<T: Stoppable + Drop>(rt: &impl Abort, alloc: Global) -> Result<T, Fail> {
    let mut trial = small::<T>(rt, alloc, 60)?;
    written(rt, alloc, &mut trial, 5, 5, 0)?;
    leaves_parts(rt, alloc, &trial, 12, 0)?;
    leaves_parts(rt, alloc, &trial, 20, 2)?;
    Ok(trial)
}

/// A unit of two parts is written over what a stop at a moment has left of another: a stop behind its first part finds no
/// second part. A block may be lost before.
fn finds_no_second_part<T: Stoppable + Drop>(
    rt: &impl Abort,
    alloc: Global,
    moment: u64,
    lost: Option<u32>,
) -> Result<(), Fail> {
    let mut trial = with_two_parts::<T>(rt, alloc)?;
    reopened(rt, alloc, &mut trial, moment, lost)?;
    written(rt, alloc, &mut trial, 5, 6, 0)?;
    leaves_parts(rt, alloc, &trial, 12, 0)
}

#[test]
fn a_first_part_alone_gets_no_second_part(rt: HostRuntime) -> Result<(), Fail> {
    finds_no_second_part::<Trial>(&rt, rt.alloc(), 12, None)
}

/// Each stop while a second checkpoint is written leaves the first one's record with its unit, or the second one's.
fn has_one_record<T: Stoppable + Drop>(rt: &impl Abort, alloc: Global) -> Result<(), Fail> {
    let mut trial = small::<T>(rt, alloc, 0)?;
    checkpointed(rt, alloc, &mut trial)?;
    written(rt, alloc, &mut trial, 3, 9, 0)?;
    let start = trial.now();
    checkpointed(rt, alloc, &mut trial)?;
    let end = trial.now();
    for moment in start..end {
        leaves_record(rt, alloc, &trial, moment, [(1, 1), (2, 0)])?;
    }
    leaves_record(rt, alloc, &trial, end, [(2, 0), (2, 0)])
}

#[test]
fn a_checkpoint_has_the_old_record_or_the_new_one(rt: HostRuntime) -> Result<(), Fail> {
    has_one_record::<Trial>(&rt, rt.alloc())
}

/// On the large site a part takes 240 blocks, and a checkpoint the 256 blocks of the tables.
fn takes_the_most<T: Stoppable + Drop>(rt: &impl Abort, alloc: Global) -> Result<(), Fail> {
    let mut trial = large::<T>(rt, alloc)?;
    written(rt, alloc, &mut trial, 240, 7, 0)?;
    leaves_parts(rt, alloc, &trial, trial.now(), 1)?;
    written(rt, alloc, &mut trial, 241, 7, 0)?;
    leaves_parts(rt, alloc, &trial, trial.now(), 3)?;
    checkpointed(rt, alloc, &mut trial)?;
    leaves_record(rt, alloc, &trial, trial.now(), [(1, 0), (1, 0)])
}

#[test]
fn the_longest_part_and_the_most_table_blocks_are_written(rt: HostRuntime) -> Result<(), Fail> {
    takes_the_most::<Trial>(&rt, rt.alloc())
}
