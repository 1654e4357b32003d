//! Renaming.

ghost use Rattle.std.specs.Prelude.{◌≡◌, ◌&&◌, is_some};
ghost use Rattle.std.specs.Ordering.{eq_by_cmp};
ghost use Rattle.hl_log.specs.Logs.{OnlyReads};
ghost use Rattle.hl_tree.specs.declared.call.Call.TheVariants as calls;
ghost use Rattle.hl_tree.specs.Names.{below as rest_below, path_cmp};
ghost use Rattle.hl_calls.specs.Calls.{MakesCall};
ghost use Rattle.hl_rename.specs.RenameEnds as ends;
ghost use Rattle.hl_rename.specs.RenameEnds.{is_dir};

use crate::finding::{find_source, find_target};
use crate::moving::relink;
use hl_calls::FileStep;
use hl_inode::Kind;
use hl_media::Machine;
use hl_store::Store;
use hl_tree::{List, Path, Refusal, Reply, below, is_too_long};
use std::alloc::Global;

/// Gives a file or a directory another path, with all that is below it. What stands there, a file for a file or an empty
/// directory for a directory, is gone. `Enametoolong` comes first, for the first path and then for the other; `Einval` for
/// the root; `Enotdir` and `Enoent` by the walk to the first; nothing changes where both are the same; `Einval` for a
/// directory that would come below itself; `Enotempty` or `Eisdir` onto the root; `Enotdir` and `Enoent` by the walk to the
/// other; then `Enotempty`, `Eisdir` or `Enotdir` by what stands there.
pub fn rename<M: Machine>(
    store: &mut Store<M>,
    alloc: Global,
    now: u64,
    from: &Path,
    to: &Path,
) -> FileStep
    ensures made { MakesCall M.history M.faults store.old store.new now
        (calls.Rename from.now to.now) result }
    ensures machine { OnlyReads M.history M.blocks M.faults M.write_faults M.say_faults
        store.old.log.machine store.new.log.machine }
{
    let _ = now;
    let path = from.names();
    let to_path = to.names();
    if is_too_long(path) {
        return FileStep::Done(Reply::Refused(Refusal::Enametoolong));
    }
    if is_too_long(to_path) {
        return FileStep::Done(Reply::Refused(Refusal::Enametoolong));
    }
    let Some(name) = path.last() else {
        return FileStep::Done(Reply::Refused(Refusal::Einval));
    };
    let source = match find_source(store, alloc, path, name.items()) {
        Ok(source) => source,
        Err(halt) => return FileStep::halted(halt),
    };
    if is_same(path, to_path) {
        return FileStep::Done(Reply::Ok);
    }
    if is_below_itself(source.kind, path, to_path) {
        return FileStep::Done(Reply::Refused(Refusal::Einval));
    }
    let Some(to_name) = to_path.last() else {
        return FileStep::Done(Reply::Refused(root_kept(source.kind)));
    };
    let target = match find_target(store, alloc, source.kind, to_path, to_name.items()) {
        Ok(target) => target,
        Err(halt) => return FileStep::halted(halt),
    };
    relink(store, alloc, source, name.items(), target, to_name.items())
}

/// Whether two paths are the same.
fn is_same(path: &[List<u8>], other: &[List<u8>]) -> bool
    ensures { result ≡ eq_by_cmp path_cmp path.now other.now }
{
    path.cmp(&other).is_eq()
}

/// Whether a directory would come below itself.
fn is_below_itself(kind: Kind, path: &[List<u8>], other: &[List<u8>]) -> bool
    ensures { result ≡ (is_dir kind && is_some (rest_below path.now other.now)) }
{
    match kind {
        Kind::Dir => below(path, other).is_some(),
        Kind::File => false,
    }
}

/// Why a node of a kind can't take the place of the root.
fn root_kept(kind: Kind) -> Refusal
    ensures { result ≡ ends.root_kept kind }
{
    match kind {
        Kind::Dir => Refusal::Enotempty,
        Kind::File => Refusal::Eisdir,
    }
}
