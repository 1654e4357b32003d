//! A call.

ghost use Rattle.std.specs.Prelude.{◌-◌, ◌<◌, ◌^◌};
ghost use Rattle.hl_log.specs.Logs.{OnlyReads};
ghost use Rattle.hl_paths.specs.ByNumbers.{HasNames};
ghost use Rattle.hl_store.specs.Values.{layout};
ghost use Rattle.hl_calls.specs.Calls.{MakesCall};
ghost use Rattle.hl_files.specs.TreeCalls.{DoesOnFiles};

use hl_calls::FileStep;
use hl_data::{cut, read, write};
use hl_media::Machine;
use hl_namespace::{create, list, mkdir, rmdir, stat, unlink};
use hl_rename::rename;
use hl_store::Store;
use hl_tree::{Call, Reply};
use std::alloc::Global;

/// Makes a call at a moment, in seconds. The rules of files come first, then the quota, which refuses a call that the rules
/// accept, where the charge would be above it and grow; then the first segment that the call needs and no line holds. It
/// writes nothing to the machine, and nothing of what it prepared is left over.
pub fn call<M: Machine>(store: &mut Store<M>, alloc: Global, now: u64, call: &Call) -> FileStep
    ensures made { MakesCall M.history M.faults store.old store.new now call.now result }
    ensures files { DoesOnFiles M.history store.old store.new now call.now result }
    ensures machine { OnlyReads M.history M.blocks M.faults M.write_faults M.say_faults
        store.old.log.machine store.new.log.machine }
{
    know_site(store);
    know_names(call);
    let step = make(store, alloc, now, call);
    store.release();
    step
}

/// A site has fewer numbers than 2^32.
fn know_site<M: Machine>(store: &Store<M>)
    ensures { (layout store.now).inodes - 1 < 2 ^ 32 }
{
    let _ = store.geometry().inodes;
}

/// Each path of a call consists of names, by its type.
fn know_names(call: &Call)
    ensures { HasNames call.now }
{
    match call {
        Call::Mkdir { path }
        | Call::Create { path }
        | Call::Write { path, .. }
        | Call::Cut { path, .. }
        | Call::Read { path, .. }
        | Call::Stat { path }
        | Call::List { path }
        | Call::Unlink { path }
        | Call::Rmdir { path } => {
            let _ = path.names();
        }
        Call::Rename { from, to } => {
            let _ = from.names();
            let _ = to.names();
        }
        Call::Sync => {}
    }
}

/// Makes a call. What it prepared may be left over.
fn make<M: Machine>(store: &mut Store<M>, alloc: Global, now: u64, call: &Call) -> FileStep
    ensures made { MakesCall M.history M.faults store.old store.new now call.now result }
    ensures machine { OnlyReads M.history M.blocks M.faults M.write_faults M.say_faults
        store.old.log.machine store.new.log.machine }
{
    match call {
        Call::Mkdir { path } => mkdir(store, alloc, now, path),
        Call::Create { path } => create(store, alloc, now, path),
        Call::Write { path, at, bytes } => write(store, alloc, now, path, *at, bytes),
        Call::Cut { path, size } => cut(store, alloc, now, path, *size),
        Call::Read { path, at, len } => read(store, alloc, now, path, *at, *len),
        Call::Stat { path } => stat(store, alloc, now, path),
        Call::List { path } => list(store, alloc, now, path),
        Call::Unlink { path } => unlink(store, alloc, now, path),
        Call::Rmdir { path } => rmdir(store, alloc, now, path),
        Call::Rename { from, to } => rename(store, alloc, now, from, to),
        Call::Sync => FileStep::Done(Reply::Ok),
    }
}
