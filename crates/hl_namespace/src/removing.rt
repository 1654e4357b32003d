//! Files and directories taken away.

ghost use Rattle.std.specs.Prelude.{◌≡◌, ℕ};
ghost use Rattle.hl_log.specs.Logs.{OnlyReads};
ghost use Rattle.hl_tree.specs.declared.call.Call.TheVariants as calls;
ghost use Rattle.hl_store.specs.Shapes.{IsNumber};
ghost use Rattle.hl_ranges.specs.Directories.{IsDraftedDirectory};
ghost use Rattle.hl_calls.specs.Calls.{MakesCall};
ghost use Rattle.hl_links.specs.Links.{ChangesOrStops};
ghost use Rattle.hl_namespace.specs.Removals as removals;
ghost use Rattle.hl_namespace.specs.Removals.{Unlinks, removal};

use hl_calls::FileStep;
use hl_entries::{find, remove};
use hl_inode::Kind;
use hl_links::{DirectoryChange, node_of, prepare, why_kept};
use hl_media::Machine;
use hl_store::Store;
use hl_tree::{Path, Refusal, Reply, is_too_long};
use hl_walk::find_parent;
use std::alloc::Global;

/// Takes a file away. `Enametoolong` comes first, `Eisdir` for the root, `Enotdir` and `Enoent` by the walk, and `Eisdir`
/// where a directory stands there.
pub fn unlink<M: Machine>(store: &mut Store<M>, alloc: Global, now: u64, path: &Path) -> FileStep
    ensures made { MakesCall M.history M.faults store.old store.new now
        (calls.Unlink path.now) result }
    ensures machine { OnlyReads M.history M.blocks M.faults M.write_faults M.say_faults
        store.old.log.machine store.new.log.machine }
{
    let _ = now;
    take(store, alloc, path, Kind::File)
}

/// Takes an empty directory away. `Enametoolong` comes first, `Einval` for the root, `Enotdir` and `Enoent` by the walk,
/// `Enotdir` where a file stands there, and `Enotempty`.
pub fn rmdir<M: Machine>(store: &mut Store<M>, alloc: Global, now: u64, path: &Path) -> FileStep
    ensures made { MakesCall M.history M.faults store.old store.new now
        (calls.Rmdir path.now) result }
    ensures machine { OnlyReads M.history M.blocks M.faults M.write_faults M.say_faults
        store.old.log.machine store.new.log.machine }
{
    let _ = now;
    take(store, alloc, path, Kind::Dir)
}

/// Takes a node of a kind away, and its name.
fn take<M: Machine>(store: &mut Store<M>, alloc: Global, path: &Path, kind: Kind) -> FileStep
    ensures made { (now : ℕ) → MakesCall M.history M.faults store.old store.new now
        (removal kind path.now) result }
    ensures machine { OnlyReads M.history M.blocks M.faults M.write_faults M.say_faults
        store.old.log.machine store.new.log.machine }
{
    let names = path.names();
    if is_too_long(names) {
        return FileStep::Done(Reply::Refused(Refusal::Enametoolong));
    }
    let Some(name) = names.last() else {
        return FileStep::Done(Reply::Refused(root_kept(kind)));
    };
    let parent = match find_parent(store, alloc, names) {
        Ok(parent) => parent,
        Err(halt) => return FileStep::halted(halt),
    };
    let Some(place) = find(parent.bytes.as_slice(), name.items()) else {
        return FileStep::Done(Reply::Refused(Refusal::Enoent));
    };
    let node = match node_of(store, alloc, place.ino) {
        Ok(node) => node,
        Err(step) => return step,
    };
    if let Some(why) = why_kept(kind, &node) {
        return FileStep::Done(Reply::Refused(why));
    }
    let mut bytes = parent.bytes;
    let Some(from) = remove(&mut bytes, name.items()) else {
        return FileStep::Memory;
    };
    let changed = DirectoryChange {
        number: parent.number,
        bytes,
        from,
    };
    drop_node(store, alloc, &changed, place.ino)
}

/// Why the root can't be taken away as a node of a kind.
fn root_kept(kind: Kind) -> Refusal
    ensures { result ≡ removals.root_kept kind }
{
    match kind {
        Kind::File => Refusal::Eisdir,
        Kind::Dir => Refusal::Einval,
    }
}

/// Frees a number, and puts the directory that doesn't name it any more.
fn drop_node<M: Machine>(
    store: &mut Store<M>,
    alloc: Global,
    changed: &DirectoryChange,
    number: u32,
) -> FileStep
    requires parent { IsNumber store.old changed.now.number }
    requires drafted { IsDraftedDirectory store.old changed.now.number }
    requires number { IsNumber store.old number }
    ensures dropped { ChangesOrStops M.history M.faults store.old store.new
        (Unlinks changed.now number) result }
    ensures machine { OnlyReads M.history M.blocks M.faults M.write_faults M.say_faults
        store.old.log.machine store.new.log.machine }
{
    match changed.prepare(store, alloc) {
        Ok(()) => {}
        Err(step) => return step,
    }
    match prepare(store, alloc, number, 0, 0) {
        Ok(()) => {}
        Err(step) => return step,
    }
    changed.put(store);
    store.free(number);
    FileStep::Done(Reply::Ok)
}
