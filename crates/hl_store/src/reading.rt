//! What a store finds of its nodes.

ghost use Rattle.std.specs.Prelude.{◌≡◌, ◌<◌, ◌≤◌, OnOk, OnErr, length};
ghost use Rattle.hl_log.specs.Logs.{OnlyReads, with_machine};
ghost use Rattle.hl_store.specs.Shapes.{IsNumber};
ghost use Rattle.hl_store.specs.Finding.{FindsBlock, FindsNode, FindsPlace, ReadsNodes};
ghost use Rattle.hl_store.specs.Changes.{DraftsFound};
ghost use Rattle.hl_store.specs.Reading.{FindsAt, IsWhereFound};

use crate::answers::{Found, Node, NodeFound, Placed, Trouble};
use crate::seats::read_block;
use crate::store::Store;
use hl_addr::Place;
use hl_lines::LineTable;
use hl_log::Log;
use hl_media::Machine;
use hl_overlay::{BLOCKS_MAX, BlockNow, used_of};
use std::alloc::Global;

/// Where what lies at an address is. One that is neither of the log nor of a tertiary segment counts as want of memory.
fn where_at<M: Machine>(log: &Log<M>, addr: u32) -> Placed
    ensures { IsWhereFound log.now addr result }
{
    match log.geometry().class(addr) {
        Place::Log { .. } => Placed::Here,
        Place::Tertiary {
            volume,
            slot,
            block,
        } => Placed::Away {
            tseg: log.geometry().tseg_of(volume, slot),
            block,
        },
        _ => Placed::Memory,
    }
}

/// Reads what lies at an address, in the log or in the line that holds its tertiary segment; `Away` comes where no line
/// holds that. An address elsewhere counts as want of memory.
fn read_at<M: Machine>(log: &mut Log<M>, lines: &LineTable, addr: u32, out: &mut [u8]) -> Found
    requires size { length out.old ≡ 4096 }
    requires lines { length lines.now.states ≡ log.old.geometry.lines }
    ensures found { FindsAt M.history M.faults log.old log.new lines.now addr out.new result }
    ensures size { length out.new ≡ 4096 }
    ensures machine { OnlyReads M.history M.blocks M.faults M.write_faults M.say_faults
        log.old.machine log.new.machine }
    ensures same { log.new ≡ with_machine log.old log.new.machine }
{
    let at = match where_at(log, addr) {
        Placed::Here => addr,
        Placed::Away { tseg, block } => match lines.of(tseg) {
            Some(line) => log.geometry().address_of(&Place::Line { line, block }),
            None => return Found::Away(tseg),
        },
        Placed::Hole | Placed::DiskFault | Placed::Memory => return Found::Memory,
    };
    match log.read_block(at, out) {
        Ok(()) => Found::Bytes,
        Err(_) => Found::DiskFault,
    }
}

impl<M: Machine> Store<M> {
    /// The node of a number, without its blocks. It is `Unused` exactly where the number isn't in use.
    pub fn node(&mut self, alloc: Global, ino: u32) -> NodeFound
        requires number { IsNumber self.old ino }
        ensures found { FindsNode M.history M.faults self.old self.new ino result }
        ensures drafted { DraftsFound self.new ino result }
        ensures reads { ReadsNodes M.history self.old self.new }
        ensures machine { OnlyReads M.history M.blocks M.faults M.write_faults M.say_faults
            self.old.log.machine self.new.log.machine }
    {
        match self.seat(alloc, ino, 0) {
            Ok(()) => {}
            Err(Trouble::DiskFault) => return NodeFound::DiskFault,
            Err(Trouble::Memory) => return NodeFound::Memory,
        }
        match self.overlay.draft(ino) {
            Some(draft) => match draft.shape {
                Some(shape) => NodeFound::Node(Node {
                    kind: shape.kind,
                    size: shape.size,
                    used: used_of(shape.kind, self.uses[ino as usize]),
                }),
                None => NodeFound::Unused,
            },
            None => unreachable!(),
        }
    }

    /// Reads block `i` of a node into `out`, of 4096 bytes; one past the end is a hole, and so is any of a number that isn't
    /// in use. `Away` comes exactly where the block is away and its segment has no line. The inode and its pointer block are
    /// read once and kept.
    pub fn block(&mut self, alloc: Global, ino: u32, i: u32, out: &mut [u8]) -> Found
        requires number { IsNumber self.old ino }
        requires size { length out.old ≡ 4096 }
        ensures found { FindsBlock M.history M.faults self.old self.new ino i out.new result }
        ensures size { length out.new ≡ 4096 }
        ensures reads { ReadsNodes M.history self.old self.new }
        ensures machine { OnlyReads M.history M.blocks M.faults M.write_faults M.say_faults
            self.old.log.machine self.new.log.machine }
    {
        match self.seat(alloc, ino, 0) {
            Ok(()) => {}
            Err(Trouble::DiskFault) => return Found::DiskFault,
            Err(Trouble::Memory) => return Found::Memory,
        }
        if BLOCKS_MAX <= i {
            out.fill(0);
            return Found::Hole;
        }
        let Some(now) = self.overlay.block(ino, i) else {
            unreachable!()
        };
        match now {
            BlockNow::Hole => {
                out.fill(0);
                Found::Hole
            }
            BlockNow::Kept(addr) => read_at(&mut self.log, &self.lines, addr, out),
            BlockNow::Moved { addr, .. } => read_at(&mut self.log, &self.lines, addr, out),
            BlockNow::Bytes(bytes) => {
                out.copy_from_slice(bytes);
                Found::Bytes
            }
        }
    }

    /// Where block `i` of a node is; one past the end is a hole, and so is any of a number that isn't in use. It doesn't read
    /// the block.
    pub fn place(&mut self, alloc: Global, ino: u32, i: u32) -> Placed
        requires number { IsNumber self.old ino }
        ensures found { FindsPlace M.history M.faults self.old self.new ino i result }
        ensures reads { ReadsNodes M.history self.old self.new }
        ensures machine { OnlyReads M.history M.blocks M.faults M.write_faults M.say_faults
            self.old.log.machine self.new.log.machine }
    {
        match self.seat(alloc, ino, 0) {
            Ok(()) => {}
            Err(Trouble::DiskFault) => return Placed::DiskFault,
            Err(Trouble::Memory) => return Placed::Memory,
        }
        if BLOCKS_MAX <= i {
            return Placed::Hole;
        }
        let Some(now) = self.overlay.block(ino, i) else {
            unreachable!()
        };
        match now {
            BlockNow::Hole => Placed::Hole,
            BlockNow::Kept(addr) => where_at(&self.log, addr),
            BlockNow::Moved { addr, .. } => where_at(&self.log, addr),
            BlockNow::Bytes(_) => Placed::Here,
        }
    }
}
