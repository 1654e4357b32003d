//! What the store and the file calls cost, for `bench/store.py` and `bench/files.py`, which compare processor times.
//!
//! `store` puts blocks, makes them last and reads them back through a store; `direct` makes as many writes, syncs and reads
//! directly of the disk below it; `files` writes to the files of a site in memory, where there are few or many.
#![tactic(auto)]

mod counted;
mod direct;
mod disk;
mod files;
mod stored;
mod words;

use counted::Calls;
use direct::{Shape, run_direct};
use disk::{new_disk, put_first};
use files::{Files, run_files};
use hl_trial::files::FilesTrial;
use hl_trial::stores::Site;
use std::alloc::AllocError;
use std::process::ExitCode;
use stored::run_store;
use words::{Run, run_of, words};

/// Does the run that the words after the program's name ask for, and says what it came to; with other words a small run of
/// `store` and one of `files`. Ends with 1 where a call failed or wasn't done, or memory was wanting.
fn main(rt: HostRuntime) -> ExitCode {
    match does(rt) {
        Ok(true) => ExitCode::from(0),
        _ => ExitCode::from(1),
    }
}

/// Whether all was done and said.
fn does(rt: HostRuntime) -> Result<bool, AllocError> {
    match run_of(words(rt)?.as_slice()) {
        Some(run) => does_run(rt, run),
        None => Ok(
            does_run(rt, Run::Store { blocks: 256 })?
                && does_run(
                    rt,
                    Run::Files(Files {
                        files: 20,
                        writes: 200,
                    }),
                )?,
        ),
    }
}

/// Whether a run was done and what it came to was said.
fn does_run(rt: HostRuntime, run: Run) -> Result<bool, AllocError> {
    match run {
        Run::Store { blocks } => store_said(rt, blocks),
        Run::Direct(shape) => direct_said(rt, shape),
        Run::Files(files) => files_said(rt, files),
    }
}

/// The same for blocks through a store, over the file `bench.img` of the current folder.
fn store_said(rt: HostRuntime, blocks: u32) -> Result<bool, AllocError> {
    let alloc = rt.alloc();
    let site = Site::Wide.geometry(alloc)?;
    let mut machine = new_disk(rt, &site);
    let Some(image) = put_first(alloc, &mut machine, &site)? else {
        return Ok(false);
    };
    let calls = run_store(alloc, machine, &site, image.as_slice(), blocks)?;
    Ok(are_said(rt, calls))
}

/// The same for calls of the disk in that file.
fn direct_said(rt: HostRuntime, shape: Shape) -> Result<bool, AllocError> {
    let alloc = rt.alloc();
    let site = Site::Wide.geometry(alloc)?;
    let mut machine = new_disk(rt, &site);
    if put_first(alloc, &mut machine, &site)?.is_none() {
        return Ok(false);
    }
    Ok(are_said(rt, run_direct(alloc, machine, shape)?))
}

/// Whether the calls of a disk were made and said.
fn are_said(rt: HostRuntime, calls: Option<Calls>) -> bool {
    match calls {
        Some(calls) => println!(rt; "{calls}").is_ok(),
        None => false,
    }
}

/// The same for writes to the files of a site in memory.
fn files_said(rt: HostRuntime, files: Files) -> Result<bool, AllocError> {
    match run_files::<FilesTrial>(rt.alloc(), files)? {
        Some(counts) => Ok(println!(rt; "{counts}").is_ok()),
        None => Ok(false),
    }
}
