//! Lines of a script, drawn one by one.

use crate::files::beside::Beside;
use crate::files::extents::names_of;
use hl_tree::{Call, Copied, List, Node, Path};
use std::alloc::{AllocError, Global};

/// Numbers that follow from a seed (a linear congruential generator, of which the high bits are taken).
#[derive(Drop)]
pub struct Draws {
    state: u64,
}

impl Draws {
    pub fn of(seed: u64) -> Draws {
        Draws { state: seed }
    }

    /// A number below another; 0 where that is 0.
    pub fn below(&mut self, end: u32) -> u32 {
        self.state = self
            .state
            .wrapping_mul(6_364_136_223_846_793_005)
            .wrapping_add(1_442_695_040_888_963_407);
        let high = (self.state >> 33) as u32;
        high.checked_rem(end).unwrap_or(0)
    }

    /// A byte.
    pub fn byte(&mut self) -> u8 {
        (self.below(256) % 256) as u8
    }

    /// Whether something of so many turns comes up.
    pub fn one_in(&mut self, turns: u32) -> bool {
        self.below(turns) == 0
    }
}

/// What is drawn.
#[derive(Clone, Copy, Debug, PartialEq, Eq)]
pub struct Mix {
    /// How many short names there are.
    pub names: u32,
    /// One name in so many is of 200 bytes and more.
    pub long: u32,
    /// Files are mostly shorter than this, in bytes.
    pub size: u32,
    /// Some begin or end a little before this.
    pub end: u32,
    /// Most writes bring at most so many bytes.
    pub bytes: u32,
}

/// A name: a letter, or many.
fn name_of(alloc: Global, draws: &mut Draws, mix: Mix) -> Result<List<u8>, AllocError> {
    let letter = 97 + (draws.below(mix.names) % 26) as u8;
    let length = if draws.one_in(mix.long) {
        200 + draws.below(57) % 57
    } else {
        1
    };
    let bytes = vec![in alloc; letter; length as usize]?;
    Ok(List::of(bytes))
}

/// A path that stands in the tree, or the root.
fn known_path(alloc: Global, draws: &mut Draws, beside: &Beside) -> Result<Path, AllocError> {
    let rows = beside.tree().rows();
    let place = draws.below(rows.len().min(4_096) as u32) as usize;
    match rows.get(place) {
        Some((path, _)) => path.copy(alloc),
        None => Ok(Path::root(alloc)),
    }
}

/// A path below one that stands in the tree.
fn path_below(
    alloc: Global,
    draws: &mut Draws,
    beside: &Beside,
    mix: Mix,
) -> Result<Path, AllocError> {
    let parent = known_path(alloc, draws, beside)?;
    let mut names = names_of(alloc, parent.names())?;
    names.push(name_of(alloc, draws, mix)?)?;
    Ok(Path::new(names).unwrap_or(parent))
}

/// A path that mostly stands in the tree.
fn old_path(
    alloc: Global,
    draws: &mut Draws,
    beside: &Beside,
    mix: Mix,
) -> Result<Path, AllocError> {
    if draws.one_in(12) {
        path_below(alloc, draws, beside, mix)
    } else {
        known_path(alloc, draws, beside)
    }
}

/// A path that mostly doesn't stand in the tree.
fn new_path(
    alloc: Global,
    draws: &mut Draws,
    beside: &Beside,
    mix: Mix,
) -> Result<Path, AllocError> {
    if draws.one_in(12) {
        known_path(alloc, draws, beside)
    } else {
        path_below(alloc, draws, beside, mix)
    }
}

/// The size of the file at a path, in bytes; 0 where there is none.
fn size_at(beside: &Beside, path: &Path) -> u32 {
    match beside.tree().get(path.names()) {
        Some(Node::File(bytes)) => bytes.items().len().min(4_243_456) as u32,
        _ => 0,
    }
}

/// A place in a file: its end, one near a block's end, or any.
fn place_in(draws: &mut Draws, size: u32, mix: Mix) -> u32 {
    match draws.below(8) {
        0 | 1 => size,
        2 => (draws.below(mix.size) / 4_096).saturating_mul(4_096),
        3 => mix.end.saturating_sub(draws.below(9_000)),
        4 => draws.below(size.saturating_add(1)),
        _ => draws.below(mix.size),
    }
}

/// Bytes of which most aren't zeros.
fn bytes_of(alloc: Global, draws: &mut Draws, mix: Mix) -> Result<List<u8>, AllocError> {
    let length = match draws.below(40) {
        0 => 0,
        1 => 65_537,
        2 => 65_536,
        3 => 4_096,
        _ => draws.below(mix.bytes).saturating_add(1),
    };
    let byte = draws.byte();
    let mut bytes = vec![in alloc; byte; length as usize]?;
    if let Some(last) = bytes.as_mut_slice().last_mut() {
        *last = draws.byte();
    }
    Ok(List::of(bytes))
}

/// A call on the bytes of a file.
fn data_call_of(
    alloc: Global,
    draws: &mut Draws,
    beside: &Beside,
    mix: Mix,
) -> Result<Call, AllocError> {
    let path = old_path(alloc, draws, beside, mix)?;
    let at = u64::from(place_in(draws, size_at(beside, &path), mix));
    Ok(match draws.below(8) {
        0 | 1 => Call::Cut { path, size: at },
        2 | 3 => Call::Read {
            path,
            at,
            len: u64::from(draws.below(20_000)),
        },
        _ => Call::Write {
            path,
            at,
            bytes: bytes_of(alloc, draws, mix)?,
        },
    })
}

/// A call on names.
fn name_call_of(
    alloc: Global,
    draws: &mut Draws,
    beside: &Beside,
    mix: Mix,
) -> Result<Call, AllocError> {
    Ok(match draws.below(12) {
        0 | 1 => Call::Mkdir {
            path: new_path(alloc, draws, beside, mix)?,
        },
        2 | 3 | 4 => Call::Create {
            path: new_path(alloc, draws, beside, mix)?,
        },
        5 => Call::Unlink {
            path: old_path(alloc, draws, beside, mix)?,
        },
        6 => Call::Rmdir {
            path: old_path(alloc, draws, beside, mix)?,
        },
        7 => Call::Stat {
            path: old_path(alloc, draws, beside, mix)?,
        },
        8 => Call::List {
            path: old_path(alloc, draws, beside, mix)?,
        },
        9 => Call::Rename {
            from: old_path(alloc, draws, beside, mix)?,
            to: old_path(alloc, draws, beside, mix)?,
        },
        _ => Call::Rename {
            from: old_path(alloc, draws, beside, mix)?,
            to: new_path(alloc, draws, beside, mix)?,
        },
    })
}

/// The next call on these files.
pub fn call_of(
    alloc: Global,
    draws: &mut Draws,
    beside: &Beside,
    mix: Mix,
) -> Result<Call, AllocError> {
    if draws.one_in(64) {
        return Ok(Call::Sync);
    }
    if draws.one_in(2) {
        data_call_of(alloc, draws, beside, mix)
    } else {
        name_call_of(alloc, draws, beside, mix)
    }
}
