//! An entry that moves from one directory to another, or within one.

ghost use Rattle.std.specs.Prelude.{◌≡◌, ◌≢◌, ◌+◌, ◌/◌, ◌≤◌, IfErr, IfOk, length};
ghost use Rattle.std.specs.Option.{ForSome};
ghost use Rattle.hl_log.specs.Logs.{OnlyReads};
ghost use Rattle.hl_dir.specs.Dirs.{IsName};
ghost use Rattle.hl_placed.specs.Blocks.{blocks_of};
ghost use Rattle.hl_store.specs.Changes.{KeepsBeside};
ghost use Rattle.hl_store.specs.Finding.{ReadsNodes};
ghost use Rattle.hl_store.specs.Shapes.{IsNumber};
ghost use Rattle.hl_ranges.specs.Directories.{IsDraftedDirectory};
ghost use Rattle.hl_links.specs.Links.{ChangesTree, StopsBefore};
ghost use Rattle.hl_rename.specs.Moves as moves;
ghost use Rattle.hl_rename.specs.Moves.{AreReady, CanFree, CanPut, FreesTarget, IsTargetReady, Moves, MovesOrStops, PutsBothSized, PutsOne, PutsSized, PutsTwo};

use crate::editing::{joined, parted, renamed};
use crate::finding::{Source, Target};
use hl_calls::{FILE_MAX, FileStep, Growth, directory_charge, is_over};
use hl_links::{DirectoryChange, prepare};
use hl_media::Machine;
use hl_store::Store;
use hl_tree::Reply;
use std::alloc::Global;

/// Moves an entry, if the quota allows it. More bytes than a directory may have count as want of memory.
pub(crate) fn relink<M: Machine>(
    store: &mut Store<M>,
    alloc: Global,
    source: Source,
    name: &[u8],
    target: Target,
    to_name: &[u8],
) -> FileStep
    requires name { IsName to_name.now }
    requires parent { IsNumber store.old source.parent.number }
    requires drafted { IsDraftedDirectory store.old source.parent.number }
    requires to_parent { IsNumber store.old target.parent.number }
    requires to_drafted { IsDraftedDirectory store.old target.parent.number }
    requires freed { ForSome target.number (IsNumber store.old) }
    ensures moves { MovesOrStops M.history M.faults store.old store.new
        (Moves source name.now target to_name.now) result }
    ensures machine { OnlyReads M.history M.blocks M.faults M.write_faults M.say_faults
        store.old.log.machine store.new.log.machine }
{
    if source.parent.number == target.parent.number {
        relink_within(store, alloc, source, name, target, to_name)
    } else {
        relink_across(store, alloc, source, name, target, to_name)
    }
}

/// Moves an entry within its directory.
fn relink_within<M: Machine>(
    store: &mut Store<M>,
    alloc: Global,
    source: Source,
    name: &[u8],
    target: Target,
    to_name: &[u8],
) -> FileStep
    requires name { IsName to_name.now }
    requires same { source.parent.number ≡ target.parent.number }
    requires parent { IsNumber store.old source.parent.number }
    requires drafted { IsDraftedDirectory store.old source.parent.number }
    requires freed { ForSome target.number (IsNumber store.old) }
    ensures moves { MovesOrStops M.history M.faults store.old store.new
        (Moves source name.now target to_name.now) result }
    ensures machine { OnlyReads M.history M.blocks M.faults M.write_faults M.say_faults
        store.old.log.machine store.new.log.machine }
{
    let size = source.parent.bytes.as_slice().len();
    let Some(changed) = renamed(source.parent, name, to_name, source.number) else {
        return FileStep::Memory;
    };
    put_one(store, alloc, size, &changed, target.number)
}

/// Moves an entry from one directory to another.
fn relink_across<M: Machine>(
    store: &mut Store<M>,
    alloc: Global,
    source: Source,
    name: &[u8],
    target: Target,
    to_name: &[u8],
) -> FileStep
    requires name { IsName to_name.now }
    requires apart { source.parent.number ≢ target.parent.number }
    requires parent { IsNumber store.old source.parent.number }
    requires drafted { IsDraftedDirectory store.old source.parent.number }
    requires to_parent { IsNumber store.old target.parent.number }
    requires to_drafted { IsDraftedDirectory store.old target.parent.number }
    requires freed { ForSome target.number (IsNumber store.old) }
    ensures moves { MovesOrStops M.history M.faults store.old store.new
        (Moves source name.now target to_name.now) result }
    ensures machine { OnlyReads M.history M.blocks M.faults M.write_faults M.say_faults
        store.old.log.machine store.new.log.machine }
{
    let size = source.parent.bytes.as_slice().len();
    let to_size = target.parent.bytes.as_slice().len();
    let Some(left) = parted(source.parent, name) else {
        return FileStep::Memory;
    };
    let Some(other) = joined(target.parent, to_name, source.number) else {
        return FileStep::Memory;
    };
    put_two(store, alloc, size, &left, to_size, &other, target.number)
}

/// How a charge grows where a directory that had so many bytes has so many.
fn put_growth(before: usize, after: usize) -> Growth
    requires before { before ≤ 4243456 }
    requires after { after ≤ 4243456 }
    ensures { result ≡ moves.put_growth before after }
{
    Growth {
        added: directory_charge(after),
        removed: directory_charge(before),
    }
}

/// How it grows where two directories have other bytes.
fn both_growth(before: usize, after: usize, to_before: usize, to_after: usize) -> Growth
    requires before { before ≤ 4243456 }
    requires after { after ≤ 4243456 }
    requires to_before { to_before ≤ 4243456 }
    requires to_after { to_after ≤ 4243456 }
    ensures { result ≡ moves.both_growth (moves.put_growth before after)
        (moves.put_growth to_before to_after) }
{
    Growth {
        added: directory_charge(after) + directory_charge(to_after),
        removed: directory_charge(before) + directory_charge(to_before),
    }
}

/// Puts a directory, which had so many bytes, and frees the number that goes, if the quota allows it. More bytes than a
/// directory may have count as want of memory.
fn put_one<M: Machine>(
    store: &mut Store<M>,
    alloc: Global,
    before: usize,
    changed: &DirectoryChange,
    target: Option<u32>,
) -> FileStep
    requires parent { IsNumber store.old changed.now.number }
    requires drafted { IsDraftedDirectory store.old changed.now.number }
    requires freed { ForSome target (IsNumber store.old) }
    ensures moves { MovesOrStops M.history M.faults store.old store.new
        (PutsSized before changed.now target) result }
    ensures machine { OnlyReads M.history M.blocks M.faults M.write_faults M.say_faults
        store.old.log.machine store.new.log.machine }
{
    let size = changed.bytes.as_slice().len();
    if FILE_MAX < size as u64 || FILE_MAX < before as u64 {
        return FileStep::Memory;
    }
    let growth = put_growth(before, size);
    if is_over(store, &growth) {
        return FileStep::NoSpace;
    }
    match changed.prepare(store, alloc) {
        Ok(()) => {}
        Err(step) => return step,
    }
    match prepare_target(store, alloc, target) {
        Ok(()) => {}
        Err(step) => return step,
    }
    put_and_free(store, changed, target);
    FileStep::Done(Reply::Ok)
}

/// Puts two directories, which had so many bytes, and frees the number that goes, if the quota allows it. More bytes than a
/// directory may have count as want of memory.
fn put_two<M: Machine>(
    store: &mut Store<M>,
    alloc: Global,
    before: usize,
    left: &DirectoryChange,
    to_before: usize,
    other: &DirectoryChange,
    target: Option<u32>,
) -> FileStep
    requires parent { IsNumber store.old left.now.number }
    requires drafted { IsDraftedDirectory store.old left.now.number }
    requires to_parent { IsNumber store.old other.now.number }
    requires to_drafted { IsDraftedDirectory store.old other.now.number }
    requires freed { ForSome target (IsNumber store.old) }
    ensures moves { MovesOrStops M.history M.faults store.old store.new
        (PutsBothSized before left.now to_before other.now target) result }
    ensures machine { OnlyReads M.history M.blocks M.faults M.write_faults M.say_faults
        store.old.log.machine store.new.log.machine }
{
    let size = left.bytes.as_slice().len();
    let to_size = other.bytes.as_slice().len();
    if FILE_MAX < size as u64 || FILE_MAX < before as u64 {
        return FileStep::Memory;
    }
    if FILE_MAX < to_size as u64 || FILE_MAX < to_before as u64 {
        return FileStep::Memory;
    }
    let growth = both_growth(before, size, to_before, to_size);
    if is_over(store, &growth) {
        return FileStep::NoSpace;
    }
    match prepare_two(store, alloc, left, other, target) {
        Ok(()) => {}
        Err(step) => return step,
    }
    put_both(store, left, other, target);
    FileStep::Done(Reply::Ok)
}

/// Brings two directories, and the number that goes, to where they can be changed.
fn prepare_two<M: Machine>(
    store: &mut Store<M>,
    alloc: Global,
    left: &DirectoryChange,
    other: &DirectoryChange,
    target: Option<u32>,
) -> Result<(), FileStep>
    requires parent { IsNumber store.old left.now.number }
    requires to_parent { IsNumber store.old other.now.number }
    requires freed { ForSome target (IsNumber store.old) }
    ensures ready { IfOk result (λ done. AreReady store.new left.now other.now target) }
    ensures stops { IfErr result (StopsBefore M.faults store.old store.new) }
    ensures reads { ReadsNodes M.history store.old store.new }
    ensures machine { OnlyReads M.history M.blocks M.faults M.write_faults M.say_faults
        store.old.log.machine store.new.log.machine }
{
    left.prepare(store, alloc)?;
    other.prepare(store, alloc)?;
    prepare_target(store, alloc, target)
}

/// Brings the number that goes, if one does, to where it can be freed.
fn prepare_target<M: Machine>(
    store: &mut Store<M>,
    alloc: Global,
    target: Option<u32>,
) -> Result<(), FileStep>
    requires freed { ForSome target (IsNumber store.old) }
    ensures ready { IfOk result (λ done. IsTargetReady store.old store.new target) }
    ensures stops { IfErr result (StopsBefore M.faults store.old store.new) }
    ensures reads { ReadsNodes M.history store.old store.new }
    ensures machine { OnlyReads M.history M.blocks M.faults M.write_faults M.say_faults
        store.old.log.machine store.new.log.machine }
{
    match target {
        Some(number) => prepare(store, alloc, number, 0, 0),
        None => Ok(()),
    }
}

/// Puts two directories, and frees the number that goes.
fn put_both<M: Machine>(
    store: &mut Store<M>,
    left: &DirectoryChange,
    other: &DirectoryChange,
    target: Option<u32>,
)
    requires left { CanPut store.old left.now }
    requires other { CanPut store.old other.now }
    requires target { CanFree store.old target }
    requires room { blocks_of (length left.now.bytes.items) + blocks_of (length other.now.bytes.items)
        ≤ store.old.overlay.room + left.now.from / 4096 + other.now.from / 4096 }
    ensures tree { ChangesTree M.history store.old store.new
        (PutsTwo left.now other.now target) }
    ensures beside { KeepsBeside store.old store.new }
{
    left.put(store);
    put_and_free(store, other, target);
}

/// Puts a directory, and frees the number that goes.
fn put_and_free<M: Machine>(store: &mut Store<M>, changed: &DirectoryChange, target: Option<u32>)
    requires changed { CanPut store.old changed.now }
    requires target { CanFree store.old target }
    requires room { blocks_of (length changed.now.bytes.items)
        ≤ store.old.overlay.room + changed.now.from / 4096 }
    ensures tree { ChangesTree M.history store.old store.new (PutsOne changed.now target) }
    ensures beside { KeepsBeside store.old store.new }
{
    changed.put(store);
    free_target(store, target);
}

/// Frees the number that goes, if one does.
fn free_target<M: Machine>(store: &mut Store<M>, target: Option<u32>)
    requires { CanFree store.old target }
    ensures { FreesTarget store.old store.new target }
{
    if let Some(number) = target {
        store.free(number);
    }
}
