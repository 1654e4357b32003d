//! New directories and files.

ghost use Rattle.std.specs.Prelude.{◌≡◌, ◌≤◌, IfErr, IfOk, None, Some, length};
ghost use Rattle.hl_log.specs.Logs.{OnlyReads};
ghost use Rattle.hl_tree.specs.declared.call.Call.TheVariants as calls;
ghost use Rattle.hl_store.specs.Changes.{drafted_shape};
ghost use Rattle.hl_store.specs.Finding.{ReadsNodes};
ghost use Rattle.hl_store.specs.Shapes.{IsNumber};
ghost use Rattle.hl_ranges.specs.Directories.{IsDraftedDirectory};
ghost use Rattle.hl_calls.specs.Calls.{MakesCall};
ghost use Rattle.hl_links.specs.Links.{StopsBefore};
ghost use Rattle.hl_namespace.specs.NewNodes as news;
ghost use Rattle.hl_namespace.specs.NewNodes.{AddsLink, AddsOrStops, making};

use hl_calls::{FILE_MAX, FileStep, Growth, directory_charge, is_over};
use hl_entries::{find, insert};
use hl_inode::Kind;
use hl_links::DirectoryChange;
use hl_media::Machine;
use hl_store::{Node, NodeFound, Store};
use hl_tree::{Path, Refusal, Reply, is_too_long};
use hl_walk::{find_parent, is_number};
use std::alloc::Global;

/// A new directory at a path. `Enametoolong` comes first, `Eexist` for the root, `Enotdir` and `Enoent` by the walk, `Eexist`
/// where the name is there, and `Einodes` where every number is in use.
pub fn mkdir<M: Machine>(store: &mut Store<M>, alloc: Global, now: u64, path: &Path) -> FileStep
    ensures made { MakesCall M.history M.faults store.old store.new now
        (calls.Mkdir path.now) result }
    ensures machine { OnlyReads M.history M.blocks M.faults M.write_faults M.say_faults
        store.old.log.machine store.new.log.machine }
{
    let _ = now;
    let node = Node {
        kind: Kind::Dir,
        size: 0,
        used: 0,
    };
    make(store, alloc, path, &node)
}

/// A new file of no bytes at a path, used then. It is refused as `mkdir` is.
pub fn create<M: Machine>(store: &mut Store<M>, alloc: Global, now: u64, path: &Path) -> FileStep
    ensures made { MakesCall M.history M.faults store.old store.new now
        (calls.Create path.now) result }
    ensures machine { OnlyReads M.history M.blocks M.faults M.write_faults M.say_faults
        store.old.log.machine store.new.log.machine }
{
    let node = Node {
        kind: Kind::File,
        size: 0,
        used: now,
    };
    make(store, alloc, path, &node)
}

/// A new node of no bytes at a path, under the lowest free number, by the call at the moment of its last use.
fn make<M: Machine>(store: &mut Store<M>, alloc: Global, path: &Path, node: &Node) -> FileStep
    requires empty { node.now.size ≡ 0 }
    ensures made { MakesCall M.history M.faults store.old store.new node.now.used
        (making node.now.kind path.now) result }
    ensures machine { OnlyReads M.history M.blocks M.faults M.write_faults M.say_faults
        store.old.log.machine store.new.log.machine }
{
    let names = path.names();
    if is_too_long(names) {
        return FileStep::Done(Reply::Refused(Refusal::Enametoolong));
    }
    let Some(name) = names.last() else {
        return FileStep::Done(Reply::Refused(Refusal::Eexist));
    };
    let parent = match find_parent(store, alloc, names) {
        Ok(parent) => parent,
        Err(halt) => return FileStep::halted(halt),
    };
    if find(parent.bytes.as_slice(), name.items()).is_some() {
        return FileStep::Done(Reply::Refused(Refusal::Eexist));
    }
    let Some(number) = store.lowest_free() else {
        return FileStep::Done(Reply::Refused(Refusal::Einodes));
    };
    if !is_number(store, number) {
        return FileStep::Memory;
    }
    let before = parent.bytes.as_slice().len();
    let mut bytes = parent.bytes;
    let Ok(from) = insert(&mut bytes, name.items(), number) else {
        return FileStep::Memory;
    };
    let changed = DirectoryChange {
        number: parent.number,
        bytes,
        from,
    };
    add(store, alloc, before, &changed, number, node)
}

/// What a new node adds to the charge, where its directory has so many bytes before and behind.
fn link_growth(before: usize, after: usize) -> Growth
    requires before { before ≤ 4243456 }
    requires after { after ≤ 4243456 }
    ensures { result ≡ news.link_growth before after }
{
    Growth {
        added: 1 + directory_charge(after),
        removed: directory_charge(before),
    }
}

/// Puts a node under a number and the directory that names it, which had so many bytes, if the quota allows it. More bytes
/// than a directory may have count as want of memory.
fn add<M: Machine>(
    store: &mut Store<M>,
    alloc: Global,
    before: usize,
    changed: &DirectoryChange,
    number: u32,
    node: &Node,
) -> FileStep
    requires parent { IsNumber store.old changed.now.number }
    requires drafted { IsDraftedDirectory store.old changed.now.number }
    requires number { IsNumber store.old number }
    requires empty { node.now.size ≡ 0 }
    ensures added { AddsOrStops M.history M.faults store.old store.new
        (news.link_growth before (length changed.now.bytes.items))
        (AddsLink changed.now number node.now) result }
    ensures machine { OnlyReads M.history M.blocks M.faults M.write_faults M.say_faults
        store.old.log.machine store.new.log.machine }
{
    let size = changed.bytes.as_slice().len();
    if FILE_MAX < size as u64 || FILE_MAX < before as u64 {
        return FileStep::Memory;
    }
    let growth = link_growth(before, size);
    if is_over(store, &growth) {
        return FileStep::NoSpace;
    }
    match claim(store, alloc, number) {
        Ok(()) => {}
        Err(step) => return step,
    }
    match changed.prepare(store, alloc) {
        Ok(()) => {}
        Err(step) => return step,
    }
    changed.put(store);
    store.set_node(number, node);
    FileStep::Done(Reply::Ok)
}

/// Brings a number that isn't in use to where it can be given a node. One in use counts as want of memory.
fn claim<M: Machine>(store: &mut Store<M>, alloc: Global, number: u32) -> Result<(), FileStep>
    requires { IsNumber store.old number }
    ensures drafted { IfOk result (λ done. drafted_shape store.new number ≡ Some None) }
    ensures stops { IfErr result (StopsBefore M.faults store.old store.new) }
    ensures reads { ReadsNodes M.history store.old store.new }
    ensures machine { OnlyReads M.history M.blocks M.faults M.write_faults M.say_faults
        store.old.log.machine store.new.log.machine }
{
    match store.node(alloc, number) {
        NodeFound::Unused => Ok(()),
        NodeFound::DiskFault => Err(FileStep::DiskFault),
        NodeFound::Node(_) | NodeFound::Memory => Err(FileStep::Memory),
    }
}
