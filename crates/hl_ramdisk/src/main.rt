//! `hl_ramdisk`: a script over a disk in memory, for a first look. The disk is made anew, and goes with the program.
#![tactic(auto)]

mod ramdisk;

use hl_host::{FileMachine, FileVolume, StdClock, StdSource};
use hl_media::Rack;
use hl_run::highlight;
use ramdisk::Ramdisk;
use std::alloc::AllocError;
use std::fs::File;
use std::io;
use std::io::{Read, Write};
use std::process::ExitCode;

/// The blocks of the disk, as many as one needs.
const BLOCKS: u32 = 2112;

/// Makes a disk as `highlight mkfs` does, and does the script on standard input as `highlight run` does. Ends with the
/// status of the run, with that of making the disk where it isn't made, and with 8 where there is no memory to begin.
fn main(rt: HostRuntime) -> ExitCode {
    match status(rt) {
        Ok(status) => ExitCode::from(status),
        Err(AllocError) => ExitCode::from(8),
    }
}

fn status(rt: HostRuntime) -> Result<u8, AllocError> {
    let mut disk = Ramdisk::new(rt.alloc(), BLOCKS)?;
    let made = call(rt, "mkfs", &mut disk, io::empty(), io::sink())?;
    if made != 0 {
        return Ok(made);
    }
    call(rt, "run", &mut disk, rt.stdin(), rt.stdout())
}

/// Makes the top call with one word over the disk, and gives its status.
fn call<R: Read + Drop, W: Write + Drop>(
    rt: HostRuntime,
    word: &str,
    disk: &mut Ramdisk,
    input: R,
    output: W,
) -> Result<u8, AllocError> {
    let alloc = rt.alloc();
    let mut words = Vec::new(alloc);
    words.push(String::from_str(alloc, word)?)?;
    let volumes: Vec<FileVolume<File>> = Vec::new(alloc);
    let rack = match Rack::new(alloc, volumes) {
        Ok(rack) => rack,
        Err(_) => return Err(AllocError),
    };
    let machine = FileMachine::new(Some(disk), BLOCKS, output);
    let mut source = StdSource::new(Some(input));
    let mut clock = StdClock::new(rt);
    let ended = highlight(alloc, &words, &mut source, machine, rack, &mut clock);
    Ok(ended.status)
}
