//! The two ends of a rename: what moves, and where it goes.

ghost use Rattle.std.specs.Prelude.{◌≡◌, ◌<◌, IfErr, IfOk, length};
ghost use Rattle.hl_log.specs.Logs.{OnlyReads};
ghost use Rattle.hl_store.specs.Finding.{ReadsNodes};
ghost use Rattle.hl_paths.specs.Finding.{last_name};
ghost use Rattle.hl_walk.specs.Walks.{Halts};
ghost use Rattle.hl_rename.specs.RenameEnds as ends;
ghost use Rattle.hl_rename.specs.RenameEnds.{HasNoSource, HasNoTarget, HasSource, HasTarget};

use hl_calls::FileStep;
use hl_entries::find;
use hl_inode::Kind;
use hl_links::{node_of, why_kept};
use hl_media::Machine;
use hl_store::Store;
use hl_tree::{List, Refusal};
use hl_walk::{Halt, ParentFound, find_parent};
use std::alloc::Global;

/// What moves: the directory that names it, its number, and what it is.
#[derive(Drop)]
pub(crate) struct Source {
    pub parent: ParentFound,
    pub number: u32,
    pub kind: Kind,
}

/// Where it goes: the directory that is to name it, and the number that has the name there, if one has it.
#[derive(Drop)]
pub(crate) struct Target {
    pub parent: ParentFound,
    pub number: Option<u32>,
}

/// What stands at a path: `Enotdir` and `Enoent` by the walk.
pub(crate) fn find_source<M: Machine>(
    store: &mut Store<M>,
    alloc: Global,
    path: &[List<u8>],
    name: &[u8],
) -> Result<Source, Halt>
    requires some { 0 < length path.now }
    requires last { name.now ≡ last_name path.now }
    ensures source { IfOk result (HasSource M.history store.old store.new path.now) }
    ensures halts { IfErr result
        (Halts M.history M.faults store.old store.new (HasNoSource path.now)) }
    ensures reads { ReadsNodes M.history store.old store.new }
    ensures machine { OnlyReads M.history M.blocks M.faults M.write_faults M.say_faults
        store.old.log.machine store.new.log.machine }
{
    let parent = find_parent(store, alloc, path)?;
    let Some(place) = find(parent.bytes.as_slice(), name) else {
        return Err(Halt::Refused(Refusal::Enoent));
    };
    match node_of(store, alloc, place.ino) {
        Ok(node) => Ok(Source {
            parent,
            number: place.ino,
            kind: node.kind,
        }),
        Err(step) => Err(halt_of(step)),
    }
}

/// Where a node of a kind goes at a path: `Enotdir` and `Enoent` by the walk, then `Enotempty`, `Eisdir` or `Enotdir` by what
/// stands there.
pub(crate) fn find_target<M: Machine>(
    store: &mut Store<M>,
    alloc: Global,
    kind: Kind,
    path: &[List<u8>],
    name: &[u8],
) -> Result<Target, Halt>
    requires some { 0 < length path.now }
    requires last { name.now ≡ last_name path.now }
    ensures target { IfOk result (HasTarget M.history store.old store.new kind path.now) }
    ensures halts { IfErr result
        (Halts M.history M.faults store.old store.new (HasNoTarget kind path.now)) }
    ensures reads { ReadsNodes M.history store.old store.new }
    ensures machine { OnlyReads M.history M.blocks M.faults M.write_faults M.say_faults
        store.old.log.machine store.new.log.machine }
{
    let parent = find_parent(store, alloc, path)?;
    let Some(place) = find(parent.bytes.as_slice(), name) else {
        return Ok(Target {
            parent,
            number: None,
        });
    };
    let node = match node_of(store, alloc, place.ino) {
        Ok(node) => node,
        Err(step) => return Err(halt_of(step)),
    };
    match why_kept(kind, &node) {
        Some(why) => Err(Halt::Refused(why)),
        None => Ok(Target {
            parent,
            number: Some(place.ino),
        }),
    }
}

/// Why a walk halts where a call stops before its first change.
fn halt_of(step: FileStep) -> Halt
    ensures { result ≡ ends.halt_of step }
{
    match step {
        FileStep::DiskFault => Halt::DiskFault,
        FileStep::Done(_) | FileStep::Needs(_) | FileStep::NoSpace | FileStep::Memory =>
            Halt::Memory,
    }
}
