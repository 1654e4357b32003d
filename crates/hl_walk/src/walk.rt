//! Walks along a path.

ghost use Rattle.std.specs.Prelude.{◌≡◌, ◌<◌, IfErr, IfOk, IsTrue, length};
ghost use Rattle.hl_log.specs.Logs.{OnlyReads};
ghost use Rattle.hl_store.specs.Finding.{ReadsNodes};
ghost use Rattle.hl_store.specs.Shapes.{IsNumber};
ghost use Rattle.hl_walk.specs.Walks.{Halts, HasEntries, HasNoChild, HasNoEntries, HasNoParent, HasParent, IsChild, LeadsNowhere, LeadsTo};

use hl_media::Machine;
use hl_ranges::{DirectoryFound, read_directory};
use hl_store::Store;
use hl_tree::{List, Refusal};
use std::alloc::Global;

/// The number of the root.
const ROOT: u32 = 1;

/// Why a walk doesn't come to its end.
#[derive(Clone, Copy, Debug, PartialEq, Eq)]
pub enum Halt {
    /// By a rule of files.
    Refused(Refusal),
    /// A read failed.
    DiskFault,
    /// Memory was wanting.
    Memory,
}

/// The directory in which the last name of a path stands.
#[derive(Drop)]
pub struct ParentFound {
    pub number: u32,
    /// Its entries (`docs/FORMATS.md`, "Directory bytes").
    pub bytes: Vec<u8>,
}

/// Whether a node may have the number.
pub fn is_number<M: Machine>(store: &Store<M>, number: u32) -> bool
    ensures { IsTrue result → IsNumber store.now number }
{
    1 <= number && number < store.geometry().inodes
}

/// The number of the root, which each site has.
fn root_of<M: Machine>(store: &Store<M>) -> u32
    ensures is { result ≡ 1 }
    ensures number { IsNumber store.now result }
{
    let _ = store.geometry();
    ROOT
}

/// The number that a path leads to. Each name but the last must be that of a directory: `Enotdir` comes where one is a
/// file's, and `Enoent` where one isn't there.
pub fn find_number<M: Machine>(
    store: &mut Store<M>,
    alloc: Global,
    path: &[List<u8>],
) -> Result<u32, Halt>
    ensures leads { IfOk result (LeadsTo M.history store.old path.now) }
    ensures number { IfOk result (IsNumber store.old) }
    ensures halts { IfErr result
        (Halts M.history M.faults store.old store.new (LeadsNowhere path.now)) }
    ensures reads { ReadsNodes M.history store.old store.new }
    ensures machine { OnlyReads M.history M.blocks M.faults M.write_faults M.say_faults
        store.old.log.machine store.new.log.machine }
{
    let mut number = root_of(store);
    'names: for name in path {
        number = child_of(store, alloc, number, name.items())?;
    }
    Ok(number)
}

/// The directory of the last name of a path that isn't the root's, with its bytes.
pub fn find_parent<M: Machine>(
    store: &mut Store<M>,
    alloc: Global,
    path: &[List<u8>],
) -> Result<ParentFound, Halt>
    requires some { 0 < length path.now }
    ensures parent { IfOk result (HasParent M.history store.old store.new path.now) }
    ensures halts { IfErr result
        (Halts M.history M.faults store.old store.new (HasNoParent path.now)) }
    ensures reads { ReadsNodes M.history store.old store.new }
    ensures machine { OnlyReads M.history M.blocks M.faults M.write_faults M.say_faults
        store.old.log.machine store.new.log.machine }
{
    let number = find_number(store, alloc, &path[..path.len() - 1])?;
    let bytes = entries_of(store, alloc, number)?;
    Ok(ParentFound { number, bytes })
}

/// The bytes of a directory.
fn entries_of<M: Machine>(store: &mut Store<M>, alloc: Global, number: u32) -> Result<Vec<u8>, Halt>
    requires number { IsNumber store.old number }
    ensures entries { IfOk result
        (λ bytes. HasEntries M.history store.old store.new number bytes.items) }
    ensures halts { IfErr result
        (Halts M.history M.faults store.old store.new (HasNoEntries number)) }
    ensures reads { ReadsNodes M.history store.old store.new }
    ensures machine { OnlyReads M.history M.blocks M.faults M.write_faults M.say_faults
        store.old.log.machine store.new.log.machine }
{
    match read_directory(store, alloc, number) {
        DirectoryFound::Bytes(bytes) => Ok(bytes),
        DirectoryFound::File => Err(Halt::Refused(Refusal::Enotdir)),
        DirectoryFound::DiskFault => Err(Halt::DiskFault),
        DirectoryFound::Memory => Err(Halt::Memory),
    }
}

/// The number of a name in a directory. One that no node may have counts as want of memory.
fn child_of<M: Machine>(
    store: &mut Store<M>,
    alloc: Global,
    number: u32,
    name: &[u8],
) -> Result<u32, Halt>
    requires number { IsNumber store.old number }
    ensures child { IfOk result (IsChild M.history store.old number name.now) }
    ensures number { IfOk result (IsNumber store.old) }
    ensures halts { IfErr result
        (Halts M.history M.faults store.old store.new (HasNoChild number name.now)) }
    ensures reads { ReadsNodes M.history store.old store.new }
    ensures machine { OnlyReads M.history M.blocks M.faults M.write_faults M.say_faults
        store.old.log.machine store.new.log.machine }
{
    let bytes = entries_of(store, alloc, number)?;
    match hl_entries::find(bytes.as_slice(), name) {
        None => Err(Halt::Refused(Refusal::Enoent)),
        Some(place) => {
            if is_number(store, place.ino) {
                Ok(place.ino)
            } else {
                Err(Halt::Memory)
            }
        }
    }
}
