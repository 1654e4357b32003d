//! Files made and written.

use hl_bytes::BLOCK;
use hl_files::FileStep;
use hl_log::UnitAnswer;
use hl_tree::{Call, List, Path, Reply};
use hl_trial::files::{Filed, Site};
use std::alloc::{AllocError, Global};
use std::fmt;

/// How many files a directory has, and after how many calls a unit is written.
const BATCH: u32 = 100;

/// A checkpoint is written where fewer segments are clean.
const FEW_CLEAN: u32 = 60;

/// So many files, and so many writes to them.
#[derive(Clone, Copy, Debug, PartialEq, Eq)]
pub struct Files {
    pub files: u32,
    pub writes: u32,
}

/// What a run came to.
#[derive(Clone, Copy, Debug, PartialEq, Eq)]
pub struct Counts {
    pub files: u32,
    pub writes: u32,
    /// What the nodes are charged in the end, in blocks.
    pub charge: u32,
}

impl fmt::Display for Counts {
    fn fmt<W: fmt::Write>(&self, f: &mut fmt::Formatter<W>) -> fmt::Result {
        write!(
            f,
            "{} files, {} writes, charge {}",
            self.files, self.writes, self.charge
        )
    }
}

/// A name of a kind and a number below 10,000.
fn name_of(alloc: Global, kind: u8, number: u32) -> Result<List<u8>, AllocError> {
    let mut name = Vec::new(alloc);
    name.push(kind)?;
    for power in [1_000, 100, 10, 1] {
        name.push(48 + (number / power % 10) as u8)?;
    }
    Ok(List::of(name))
}

/// The directory of a file.
fn directory_of(alloc: Global, file: u32) -> Result<Path, AllocError> {
    let mut names = Vec::new(alloc);
    names.push(name_of(alloc, b'd', file / BATCH)?)?;
    Path::new(names).ok_or(AllocError)
}

/// A file's path.
fn path_of(alloc: Global, file: u32) -> Result<Path, AllocError> {
    let mut names = Vec::new(alloc);
    names.push(name_of(alloc, b'd', file / BATCH)?)?;
    names.push(name_of(alloc, b'f', file)?)?;
    Path::new(names).ok_or(AllocError)
}

/// Whether a call is done.
fn is_done<T: Filed>(alloc: Global, store: &mut T, now: u64, made: &Call) -> bool {
    matches!(store.call(alloc, now, made), FileStep::Done(Reply::Ok))
}

/// Makes what was done last, and frees segments where few are clean; whether that succeeded.
fn end_batch<T: Filed>(alloc: Global, store: &mut T) -> bool {
    let answer = if store.clean() < FEW_CLEAN {
        store.checkpoint(alloc)
    } else {
        store.flush(alloc)
    };
    matches!(answer, UnitAnswer::Written { .. })
}

/// Writes the block of a file.
fn write_file<T: Filed>(
    alloc: Global,
    store: &mut T,
    file: u32,
    byte: u8,
) -> Result<bool, AllocError> {
    let made = Call::Write {
        path: path_of(alloc, file)?,
        at: 0,
        bytes: List::of(vec![in alloc; byte; BLOCK]?),
    };
    Ok(is_done(alloc, store, 1, &made))
}

/// Makes a file of one block, and its directory before the first of it.
fn make_file<T: Filed>(alloc: Global, store: &mut T, file: u32) -> Result<bool, AllocError> {
    if file % BATCH == 0 {
        let made = Call::Mkdir {
            path: directory_of(alloc, file)?,
        };
        if !is_done(alloc, store, 1, &made) {
            return Ok(false);
        }
    }
    let made = Call::Create {
        path: path_of(alloc, file)?,
    };
    if !is_done(alloc, store, 1, &made) {
        return Ok(false);
    }
    write_file(alloc, store, file, 1)
}

/// Makes so many files of one block; whether each call was done.
fn make_files<T: Filed>(alloc: Global, store: &mut T, files: u32) -> Result<bool, AllocError> {
    for file in 0..files {
        if !make_file(alloc, store, file)? {
            return Ok(false);
        }
        if file % BATCH == 0 && !end_batch(alloc, store) {
            return Ok(false);
        }
    }
    Ok(end_batch(alloc, store))
}

/// Writes the blocks of the files, one after another and again from the first on; whether each call was done.
fn write_files<T: Filed>(
    alloc: Global,
    store: &mut T,
    files: u32,
    writes: u32,
) -> Result<bool, AllocError> {
    for turn in 0..writes {
        let file = turn.checked_rem(files).unwrap_or(0);
        if !write_file(alloc, store, file, (turn % 251) as u8)? {
            return Ok(false);
        }
        if turn % BATCH == 0 && !end_batch(alloc, store) {
            return Ok(false);
        }
    }
    Ok(end_batch(alloc, store))
}

/// Makes the files and the writes of a run on a new site, and answers what that came to; none where a call wasn't done.
pub fn run_files<T: Filed + Drop>(alloc: Global, run: Files) -> Result<Option<Counts>, AllocError> {
    let Files { files, writes } = run;
    let Some(mut store) = T::first(alloc, Site::Many)? else {
        return Ok(None);
    };
    if !make_files(alloc, &mut store, files)? || !write_files(alloc, &mut store, files, writes)? {
        return Ok(None);
    }
    Ok(Some(Counts {
        files,
        writes,
        charge: store.charge(),
    }))
}
