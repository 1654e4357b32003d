//! The forms of the command line.

use crate::direct::Shape;
use crate::files::Files;
use std::alloc::AllocError;
use std::{env, io};

/// A run.
#[derive(Clone, Copy, Debug, PartialEq, Eq)]
pub enum Run {
    /// So many blocks through a store.
    Store { blocks: u32 },
    /// Calls of the disk.
    Direct(Shape),
    /// Writes to the files of a site.
    Files(Files),
}

/// The run of `store BLOCKS`, `direct PARTS BLOCKS READS` or `files FILES WRITES`; none for other words.
pub fn run_of(words: &[String]) -> Option<Run> {
    match words {
        [form, blocks] if form.as_str() == "store" => Some(Run::Store {
            blocks: number(blocks),
        }),
        [form, parts, blocks, reads] if form.as_str() == "direct" => Some(Run::Direct(Shape {
            parts: number(parts),
            blocks: number(blocks),
            reads: number(reads),
        })),
        [form, files, writes] if form.as_str() == "files" => Some(Run::Files(Files {
            files: number(files),
            writes: number(writes),
        })),
        _ => None,
    }
}

/// The number that a word spells; 0 where it spells none.
fn number(word: &String) -> u32 {
    word.as_str().parse::<u32>().unwrap_or(0)
}

/// The words after the program's name; none where they aren't all UTF-8.
pub fn words(rt: HostRuntime) -> Result<Vec<String>, AllocError> {
    let mut words = Vec::new(rt.alloc());
    match env::args(&rt) {
        Ok(args) => {
            for word in args.skip(1) {
                words.push(word)?;
            }
        }
        Err(why) => {
            if why.kind() == io::ErrorKind::OutOfMemory {
                return Err(AllocError);
            }
        }
    }
    Ok(words)
}
