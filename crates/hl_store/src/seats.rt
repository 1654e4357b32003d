//! Nodes brought to where they can be read and changed.

ghost use Rattle.std.specs.Prelude.{◌≡◌, ◌+◌, ◌<◌, ◌≤◌, false, IfErr, IfOk, IsSome, OnErr, OnOk, length};
ghost use Rattle.hl_media.specs.Moments.{Now};
ghost use Rattle.hl_inode.specs.Inodes.{IsInode};
ghost use Rattle.hl_log.specs.Logs.{OnlyReads, with_machine};
ghost use Rattle.hl_overlay.specs.Drafting.{IsDraft};
ghost use Rattle.hl_overlay.specs.DraftTables.{draft_of};
ghost use Rattle.hl_store.specs.Values.{StoreValue, layout};
ghost use Rattle.hl_store.specs.Shapes.{IsNumber};
ghost use Rattle.hl_store.specs.Seats.{GivesDraft, GivesInode, GivesLogBlock, IsCaused};

use crate::answers::{Prepared, Trouble};
use crate::store::Store;
use hl_addr::{NOTHING, Place};
use hl_bytes::BLOCK;
use hl_inode::{Inode, decode};
use hl_log::Log;
use hl_media::Machine;
use hl_overlay::NodeDraft;
use hl_tables::Tables;
use std::alloc::Global;

/// So many drafts that aren't changed are kept to be read again.
const KEPT: usize = 64;

/// Reads a block of the log. An address elsewhere counts as want of memory.
pub(crate) fn read_block<M: Machine>(
    log: &mut Log<M>,
    addr: u32,
    out: &mut [u8],
) -> Result<(), Trouble>
    requires { length out.old ≡ 4096 }
    ensures bytes { OnOk result (GivesLogBlock M.history log.old addr out.new) }
    ensures size { length out.new ≡ 4096 }
    ensures machine { OnlyReads M.history M.blocks M.faults M.write_faults M.say_faults
        log.old.machine log.new.machine }
    ensures fault { IfErr result (IsCaused M.faults log.old.machine log.new.machine) }
    ensures same { log.new ≡ with_machine log.old log.new.machine }
{
    let Place::Log { .. } = log.geometry().class(addr) else {
        return Err(Trouble::Memory);
    };
    log.read_block(addr, out)?;
    Ok(())
}

/// Reads the inode of a number at an address. A block that isn't its inode counts as want of memory.
fn read_inode<M: Machine>(log: &mut Log<M>, ino: u32, own: u32) -> Result<Inode, Trouble>
    ensures inode { IfOk result (GivesInode M.history log.old ino own) }
    ensures is { IfOk result IsInode }
    ensures number { IfOk result (λ inode. inode.number ≡ ino) }
    ensures machine { OnlyReads M.history M.blocks M.faults M.write_faults M.say_faults
        log.old.machine log.new.machine }
    ensures fault { IfErr result (IsCaused M.faults log.old.machine log.new.machine) }
    ensures same { log.new ≡ with_machine log.old log.new.machine }
{
    let mut block = [0; BLOCK];
    read_block(log, own, &mut block)?;
    match decode(&block) {
        Some(inode) if inode.number == ino => Ok(inode),
        _ => Err(Trouble::Memory),
    }
}

/// The draft of a number, as the log has its node: unused where the tables have no inode for it.
fn read_draft<M: Machine>(
    log: &mut Log<M>,
    tables: &Tables,
    alloc: Global,
    ino: u32,
) -> Result<NodeDraft, Trouble>
    requires low { 1 ≤ ino }
    requires high { ino < log.old.geometry.inodes }
    requires there { ino < length tables.now.inodes }
    ensures draft { IfOk result (GivesDraft M.history log.old tables.now ino) }
    ensures is { IfOk result IsDraft }
    ensures number { IfOk result (λ d. d.ino ≡ ino) }
    ensures unchanged { IfOk result (λ d. d.changed ≡ false) }
    ensures machine { OnlyReads M.history M.blocks M.faults M.write_faults M.say_faults
        log.old.machine log.new.machine }
    ensures fault { IfErr result (IsCaused M.faults log.old.machine log.new.machine) }
    ensures same { log.new ≡ with_machine log.old log.new.machine }
{
    let own = tables.inode(ino);
    if own == NOTHING {
        return Ok(NodeDraft::unused(alloc, ino)?);
    }
    let inode = read_inode(log, ino, own)?;
    let mut draft = NodeDraft::of(alloc, own, &inode)?;
    if inode.single != NOTHING {
        let mut block = [0; BLOCK];
        read_block(log, inode.single, &mut block)?;
        draft.read_pointers(&block);
    }
    Ok(draft)
}

impl<M: Machine> Store<M> {
    ghost use Rattle.hl_store.specs.Finding.{ReadsNodes, on_machine};
    ghost use Rattle.hl_store.specs.Changes.{Prepares};
    ghost use Rattle.hl_store.specs.Seats.{Releases, Seats};

    /// Brings the node of a number into the overlay, in use or not, with room for so many new blocks more. Where it fails
    /// nothing but the machine changed.
    pub(crate) fn seat(&mut self, alloc: Global, ino: u32, count: u32) -> Result<(), Trouble>
        requires number { IsNumber self.old ino }
        ensures ok { OnOk result (Seats M.history self.old self.new ino count) }
        ensures err { OnErr result (self.new ≡ on_machine self.old self.new.log.machine) }
        ensures fault { IfErr result (IsCaused M.faults self.old.log.machine self.new.log.machine) }
        ensures machine { OnlyReads M.history M.blocks M.faults M.write_faults M.say_faults
            self.old.log.machine self.new.log.machine }
    {
        if self.overlay.draft(ino).is_some() {
            self.overlay.reserve(count)?;
        } else {
            let draft = read_draft(&mut self.log, &self.tables, alloc, ino)?;
            self.overlay.admit(draft, count)?;
            self.overlay.tell_whole();
        }
        Ok(())
    }

    /// Brings the node of a number, in use or not, to where it can be changed, and makes room for `count` new blocks besides
    /// those that there was room for, of which it may have those from `from` on. Nothing is dirty by that. After `Ready` the
    /// changes of what was prepared take no memory until `release` or `flush`. Where it fails nothing but the machine
    /// changed.
    pub fn prepare(&mut self, alloc: Global, ino: u32, from: u32, count: u32) -> Prepared
        requires number { IsNumber self.old ino }
        requires blocks { from + count ≤ 1036 }
        ensures prepared { Prepares M.history M.faults self.old self.new ino count result }
        ensures machine { OnlyReads M.history M.blocks M.faults M.write_faults M.say_faults
            self.old.log.machine self.new.log.machine }
    {
        let _ = from;
        match self.seat(alloc, ino, count) {
            Ok(()) => Prepared::Ready,
            Err(Trouble::DiskFault) => Prepared::DiskFault,
            Err(Trouble::Memory) => Prepared::Memory,
        }
    }

    /// Lets go what was prepared and isn't changed: the room for new blocks, and drafts that were only read where more than
    /// 64 are held. It takes no memory and calls no device.
    pub fn release(&mut self)
        ensures { Releases self.old self.new }
    {
        self.overlay.trim(KEPT);
        self.overlay.release();
    }
}
