//! The file that is the program's disk.

use hl_disk::DISK_BLOCKS;
use std::fs::File;
use std::io;

/// The disk's file in the current folder.
const DISK: &str = "disk.img";

/// The disk's file, with as many blocks as it has whole ones. A missing file is made with zeros; a file that can't be opened
/// or made has the blocks of a new one, and each call of it fails.
pub fn open_disk(rt: HostRuntime) -> (Option<File>, u32) {
    match File::options().read(true).write(true).open(&rt, DISK) {
        Ok(file) => match blocks_of(&file) {
            Some(blocks) => (Some(file), blocks),
            None => (None, DISK_BLOCKS),
        },
        Err(why) => {
            if why.kind() == io::ErrorKind::NotFound {
                (new_disk(rt), DISK_BLOCKS)
            } else {
                (None, DISK_BLOCKS)
            }
        }
    }
}

/// How many whole blocks a file has.
fn blocks_of(file: &File) -> Option<u32> {
    let size = file.metadata().ok()?.len();
    Some((size / 4096).min(u32::MAX as u64) as u32)
}

/// A new file of zeros.
fn new_disk(rt: HostRuntime) -> Option<File> {
    let file = File::options()
        .read(true)
        .write(true)
        .create_new(true)
        .open(&rt, DISK)
        .ok()?;
    file.set_len(DISK_BLOCKS as u64 * 4096).ok()?;
    Some(file)
}
