//! What a path leads to.

ghost use Rattle.hl_log.specs.Logs.{OnlyReads};
ghost use Rattle.hl_store.specs.Finding.{ReadsNodes};
ghost use Rattle.hl_walk.specs.Walks.{FindsPath};

use crate::walk::{Halt, find_number};
use hl_inode::Kind;
use hl_media::Machine;
use hl_store::{NodeFound, Store};
use hl_tree::{Path, Refusal, is_too_long};
use std::alloc::Global;

/// What a path leads to.
#[derive(Clone, Copy, Debug, PartialEq, Eq)]
pub enum FoundPath {
    /// A file of this number.
    File(u32),
    /// A directory of this number.
    Dir(u32),
    /// By a rule of files.
    Refused(Refusal),
    /// A read failed.
    DiskFault,
    /// Memory was wanting.
    Memory,
}

/// What a path leads to. `Enametoolong` comes first, then `Enotdir` and `Enoent` by the walk.
pub fn find<M: Machine>(store: &mut Store<M>, alloc: Global, path: &Path) -> FoundPath
    ensures found { FindsPath M.history M.faults store.old store.new path.now result }
    ensures reads { ReadsNodes M.history store.old store.new }
    ensures machine { OnlyReads M.history M.blocks M.faults M.write_faults M.say_faults
        store.old.log.machine store.new.log.machine }
{
    if is_too_long(path.names()) {
        return FoundPath::Refused(Refusal::Enametoolong);
    }
    let number = match find_number(store, alloc, path.names()) {
        Ok(number) => number,
        Err(Halt::Refused(why)) => return FoundPath::Refused(why),
        Err(Halt::DiskFault) => return FoundPath::DiskFault,
        Err(Halt::Memory) => return FoundPath::Memory,
    };
    match store.node(alloc, number) {
        NodeFound::Node(node) => match node.kind {
            Kind::File => FoundPath::File(number),
            Kind::Dir => FoundPath::Dir(number),
        },
        NodeFound::Unused | NodeFound::Memory => FoundPath::Memory,
        NodeFound::DiskFault => FoundPath::DiskFault,
    }
}
