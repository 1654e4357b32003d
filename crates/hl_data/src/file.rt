//! The file that a call speaks of.

ghost use Rattle.std.specs.Prelude.{◌≡◌, IfErr, IfOk};
ghost use Rattle.std.specs.List.{fold};
ghost use Rattle.hl_lines.specs.LineTable.{with_touched};
ghost use Rattle.hl_log.specs.Logs.{OnlyReads};
ghost use Rattle.hl_store.specs.Finding.{ReadsNodes};
ghost use Rattle.hl_store.specs.Shapes.{IsNumber};
ghost use Rattle.hl_store.specs.Values.{layout};
ghost use Rattle.hl_walk.specs.Walks.{Halts};
ghost use Rattle.hl_data.specs.Files.{IsFileAt, IsNoFileAt};

use hl_inode::Kind;
use hl_media::Machine;
use hl_store::{NodeFound, Store};
use hl_tree::{Path, Refusal, is_too_long};
use hl_walk::{Halt, find_number};
use std::alloc::Global;

/// The number of the file at a path. `Enametoolong` comes first, then `Enotdir` and `Enoent` by the walk, then `Eisdir`.
pub(crate) fn file_at<M: Machine>(
    store: &mut Store<M>,
    alloc: Global,
    path: &Path,
) -> Result<u32, Halt>
    ensures is { IfOk result (IsFileAt M.history store.old path.now) }
    ensures number { IfOk result (IsNumber store.old) }
    ensures halts { IfErr result
        (Halts M.history M.faults store.old store.new (IsNoFileAt (layout store.old) path.now)) }
    ensures reads { ReadsNodes M.history store.old store.new }
    ensures machine { OnlyReads M.history M.blocks M.faults M.write_faults M.say_faults
        store.old.log.machine store.new.log.machine }
{
    if is_too_long(path.names()) {
        return Err(Halt::Refused(Refusal::Enametoolong));
    }
    let number = find_number(store, alloc, path.names())?;
    match store.node(alloc, number) {
        NodeFound::Node(node) => match node.kind {
            Kind::File => Ok(number),
            Kind::Dir => Err(Halt::Refused(Refusal::Eisdir)),
        },
        NodeFound::Unused | NodeFound::Memory => Err(Halt::Memory),
        NodeFound::DiskFault => Err(Halt::DiskFault),
    }
}

/// Says that the lines of these segments were used, one after another. Nothing else changes.
pub(crate) fn touch_lines<M: Machine>(store: &mut Store<M>, tsegs: &[u32])
    ensures { store.new ≡ record store.old {
      lines = fold with_touched store.old.lines tsegs.now;
    } }
{
    'tsegs: for tseg in tsegs {
        store.touch_line(*tseg);
    }
}
