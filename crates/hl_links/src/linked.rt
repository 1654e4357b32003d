//! Nodes that entries name.

ghost use Rattle.std.specs.Prelude.{◌≡◌, IfErr, IfOk};
ghost use Rattle.hl_log.specs.Logs.{OnlyReads};
ghost use Rattle.hl_store.specs.Changes.{IsDraftedAs};
ghost use Rattle.hl_store.specs.Finding.{HasNodeFound, OverNow, ReadsNodes};
ghost use Rattle.hl_store.specs.Shapes.{IsNumber};
ghost use Rattle.hl_links.specs.Links as links;
ghost use Rattle.hl_links.specs.Links.{StopsBefore};

use hl_calls::FileStep;
use hl_inode::Kind;
use hl_media::Machine;
use hl_store::{Node, NodeFound, Store};
use hl_tree::Refusal;
use hl_walk::is_number;
use std::alloc::Global;

/// The node that an entry names. A number that no node may have, or that isn't in use, counts as want of memory.
pub fn node_of<M: Machine>(
    store: &mut Store<M>,
    alloc: Global,
    number: u32,
) -> Result<Node, FileStep>
    ensures node { IfOk result (λ node. OverNow M.history store.old
        (HasNodeFound store.old number node)) }
    ensures number { IfOk result (λ node. IsNumber store.old number) }
    ensures drafted { IfOk result (IsDraftedAs store.new number) }
    ensures stops { IfErr result (StopsBefore M.faults store.old store.new) }
    ensures reads { ReadsNodes M.history store.old store.new }
    ensures machine { OnlyReads M.history M.blocks M.faults M.write_faults M.say_faults
        store.old.log.machine store.new.log.machine }
{
    if !is_number(store, number) {
        return Err(FileStep::Memory);
    }
    match store.node(alloc, number) {
        NodeFound::Node(node) => Ok(node),
        NodeFound::Unused | NodeFound::Memory => Err(FileStep::Memory),
        NodeFound::DiskFault => Err(FileStep::DiskFault),
    }
}

/// Why a node can't be taken away as one of a kind: `Eisdir` or `Enotdir` where it is of the other, and `Enotempty` where a
/// directory has entries.
pub fn why_kept(kind: Kind, node: &Node) -> Option<Refusal>
    ensures { result ≡ links.why_kept kind node.now.kind node.now.size }
{
    match (kind, node.kind) {
        (Kind::File, Kind::File) => None,
        (Kind::File, Kind::Dir) => Some(Refusal::Eisdir),
        (Kind::Dir, Kind::File) => Some(Refusal::Enotdir),
        (Kind::Dir, Kind::Dir) => {
            if node.size == 0 {
                None
            } else {
                Some(Refusal::Enotempty)
            }
        }
    }
}
