//! Calls and replies.

ghost use Rattle.std.specs.Prelude.{◌≡◌, IfOk};

use crate::list::Copied;
use crate::{List, Path};
use std::alloc::{AllocError, Global};

/// A call on the files. Offsets, sizes and lengths are in bytes.
#[derive(PartialEq, Eq, Drop)]
pub enum Call {
    Mkdir {
        path: Path,
    },
    Create {
        path: Path,
    },
    Write {
        path: Path,
        at: u64,
        bytes: List<u8>,
    },
    Cut {
        path: Path,
        size: u64,
    },
    Read {
        path: Path,
        at: u64,
        len: u64,
    },
    Stat {
        path: Path,
    },
    List {
        path: Path,
    },
    Unlink {
        path: Path,
    },
    Rmdir {
        path: Path,
    },
    Rename {
        from: Path,
        to: Path,
    },
    Sync,
}

/// Why the file rules refuse a call, in the order of their numbers, from 1 on.
#[derive(Clone, Copy, Debug, PartialEq, Eq)]
pub enum Refusal {
    Enoent,
    Eexist,
    Enotdir,
    Eisdir,
    Enotempty,
    Einval,
    Efbig,
    Enametoolong,
    Einodes,
}

/// The reply to a call: `File` has the size in bytes, `Dir` the number of names, `Names` the names in order of bytes.
/// `Memory` says that memory was wanting, and is no reply of the file rules.
#[derive(PartialEq, Eq, Drop)]
pub enum Reply {
    Ok,
    Data(List<u8>),
    File(u64),
    Dir(u32),
    Names(List<List<u8>>),
    Refused(Refusal),
    Memory,
}

/// How many nodes a tree may have, the root counted, and how many bytes a file.
#[derive(Clone, Copy, Debug, PartialEq, Eq)]
pub struct Limits {
    pub nodes: u32,
    pub bytes: u64,
}

impl Call {
    /// The same call, which can be made again.
    pub fn copy(&self, alloc: Global) -> Result<Call, AllocError>
        ensures { IfOk result (λ copy. copy ≡ self.now) }
    {
        Ok(match self {
            Call::Mkdir { path } => Call::Mkdir {
                path: path.copy(alloc)?,
            },
            Call::Create { path } => Call::Create {
                path: path.copy(alloc)?,
            },
            Call::Write { path, at, bytes } => Call::Write {
                path: path.copy(alloc)?,
                at: *at,
                bytes: bytes.copy(alloc)?,
            },
            Call::Cut { path, size } => Call::Cut {
                path: path.copy(alloc)?,
                size: *size,
            },
            Call::Read { path, at, len } => Call::Read {
                path: path.copy(alloc)?,
                at: *at,
                len: *len,
            },
            Call::Stat { path } => Call::Stat {
                path: path.copy(alloc)?,
            },
            Call::List { path } => Call::List {
                path: path.copy(alloc)?,
            },
            Call::Unlink { path } => Call::Unlink {
                path: path.copy(alloc)?,
            },
            Call::Rmdir { path } => Call::Rmdir {
                path: path.copy(alloc)?,
            },
            Call::Rename { from, to } => Call::Rename {
                from: from.copy(alloc)?,
                to: to.copy(alloc)?,
            },
            Call::Sync => Call::Sync,
        })
    }
}

impl Reply {
    /// The same reply.
    pub fn copy(&self, alloc: Global) -> Result<Reply, AllocError>
        ensures { IfOk result (λ copy. copy ≡ self.now) }
    {
        Ok(match self {
            Reply::Ok => Reply::Ok,
            Reply::Data(bytes) => Reply::Data(bytes.copy(alloc)?),
            Reply::File(size) => Reply::File(*size),
            Reply::Dir(count) => Reply::Dir(*count),
            Reply::Names(names) => Reply::Names(names.copy(alloc)?),
            Reply::Refused(why) => Reply::Refused(*why),
            Reply::Memory => Reply::Memory,
        })
    }
}
