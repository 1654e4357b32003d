//! File calls on a tree that must keep room in a dump.

ghost use Rattle.std.specs.Prelude.{◌≡◌, ◌≢◌, ◌≤◌, false, IsTrue, []};
ghost use Rattle.hl_tree.specs.Rules.{Files, after};
ghost use Rattle.hl_dump.specs.Dumps.{HasDump, dump_limits, dump_max, dump_size};
ghost use Rattle.hl_dump.specs.Longer.{most_growth, names_of};
ghost use Rattle.hl_world.specs.Worlds.{Answers, is_eio};

use hl_dump::{DUMP_MAX, dump_size, growth};
use hl_script::Said;
use hl_tree::{Call, PlainTree, Reply};
use std::alloc::Global;

/// Makes a call on the files: its answer by the file rules, or `NoSpace` where the dump after it would be too long.
/// Want of memory changes nothing.
pub fn call(files: &mut PlainTree, alloc: Global, call: &Call) -> Said
    requires limits { files.old.limits ≡ dump_limits }
    requires dumped { HasDump files.old.tree }
    ensures done { result ≢ Said.Memory → Answers files.old call.now result files.new }
    ensures memory { result ≡ Said.Memory → files.new ≡ files.old }
    ensures quiet { is_eio result ≡ false }
    ensures limits { files.new.limits ≡ dump_limits }
    ensures dumped { HasDump files.new.tree }
{
    if adds_nothing(call) {
        return make(files, alloc, call);
    }
    let more = growth(files, call);
    if dump_size(files).saturating_add(more) <= DUMP_MAX {
        return make(files, alloc, call);
    }
    make_on_copy(files, alloc, call)
}

/// Whether the call never makes a dump longer.
fn adds_nothing(call: &Call) -> bool
    ensures size { IsTrue result → (tree : Files) → most_growth tree call.now ≡ 0 }
    ensures names { IsTrue result → names_of call.now ≡ [] }
{
    matches!(
        call,
        Call::Read { .. }
            | Call::Stat { .. }
            | Call::List { .. }
            | Call::Unlink { .. }
            | Call::Rmdir { .. }
            | Call::Sync
    )
}

/// Makes a call behind which the dump isn't too long.
fn make(files: &mut PlainTree, alloc: Global, call: &Call) -> Said
    requires limits { files.old.limits ≡ dump_limits }
    requires dumped { HasDump files.old.tree }
    requires short { HasDump (after files.old.limits files.old.tree call.now) }
    ensures done { result ≢ Said.Memory → Answers files.old call.now result files.new }
    ensures memory { result ≡ Said.Memory → files.new ≡ files.old }
    ensures quiet { is_eio result ≡ false }
    ensures limits { files.new.limits ≡ dump_limits }
    ensures dumped { HasDump files.new.tree }
{
    match files.call(alloc, call) {
        Reply::Memory => Said::Memory,
        reply => Said::Reply(reply),
    }
}

/// Makes a call on a copy of the files, which takes their place where its dump isn't too long. Only calls that come near
/// the greatest length are made so.
fn make_on_copy(files: &mut PlainTree, alloc: Global, call: &Call) -> Said
    requires limits { files.old.limits ≡ dump_limits }
    requires dumped { HasDump files.old.tree }
    requires kept { dump_size (after files.old.limits files.old.tree call.now) ≤ dump_max → HasDump (after files.old.limits files.old.tree call.now) }
    ensures done { result ≢ Said.Memory → Answers files.old call.now result files.new }
    ensures memory { result ≡ Said.Memory → files.new ≡ files.old }
    ensures quiet { is_eio result ≡ false }
    ensures limits { files.new.limits ≡ dump_limits }
    ensures dumped { HasDump files.new.tree }
{
    let Ok(mut copy) = files.copy(alloc) else {
        return Said::Memory;
    };
    match copy.call(alloc, call) {
        Reply::Memory => Said::Memory,
        reply => {
            if dump_size(&copy) > DUMP_MAX {
                return Said::NoSpace;
            }
            *files = copy;
            Said::Reply(reply)
        }
    }
}
