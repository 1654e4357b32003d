//! `highlight`: a log-structured file system whose cold data lives on a jukebox of removable volumes.
#![tactic(auto)]

mod disk;

use disk::open_disk;
use hl_host::{FileMachine, FileVolume, StdClock, StdSource};
use hl_media::Rack;
use hl_run::highlight;
use std::alloc::AllocError;
use std::fs::File;
use std::process::ExitCode;
use std::{env, io};

/// Does what the words after the program's name say, over the file
/// `disk.img` of the current folder, the standard streams and the system's clock, and ends with
/// its status; with 8 where there is no memory to begin.
fn main(rt: HostRuntime) -> ExitCode {
    match status(rt) {
        Ok(status) => ExitCode::from(status),
        Err(AllocError) => ExitCode::from(8),
    }
}

fn status(rt: HostRuntime) -> Result<u8, AllocError> {
    let alloc = rt.alloc();
    let words = words(rt)?;
    let (file, blocks) = open_disk(rt);
    let machine = FileMachine::new(file, blocks, rt.stdout());
    let volumes: Vec<FileVolume<File>> = Vec::new(alloc);
    let rack = match Rack::new(alloc, volumes) {
        Ok(rack) => rack,
        Err(_) => return Err(AllocError),
    };
    let mut input = StdSource::new(Some(rt.stdin()));
    let mut clock = StdClock::new(rt);
    let ended = highlight(alloc, &words, &mut input, machine, rack, &mut clock);
    Ok(ended.status)
}

/// The words after the program's name. Where one is no UTF-8, they are none of the forms, and none is given.
fn words(rt: HostRuntime) -> Result<Vec<String>, AllocError> {
    let mut words = Vec::new(rt.alloc());
    match env::args(&rt) {
        Ok(args) => {
            for word in args.skip(1) {
                words.push(word)?;
            }
        }
        Err(why) => {
            if why.kind() == io::ErrorKind::OutOfMemory {
                return Err(AllocError);
            }
        }
    }
    Ok(words)
}
