//! Making the nodes that a store has now those of every image.

ghost use Rattle.std.specs.Prelude.{◌≡◌, ◌⊎◌, ◌<◌, ◌≤◌, ◌^◌, ◌↔◌, All, [], IfOk, IsTrue, OnErr, OnOk, if◌then◌else◌, length};
ghost use Rattle.std.specs.List.{fold};
ghost use Rattle.std.specs.Vec.{vec_capacity};
ghost use Rattle.hl_tables.specs.Laying.{HasInode, block_laid, changed};
ghost use Rattle.hl_tables.specs.Values.{SameShape};
ghost use Rattle.hl_nodes.specs.Units.{blocks_placed};
ghost use Rattle.hl_store.specs.Shapes.{IsShaped};
ghost use Rattle.hl_store.specs.Writing.{HasInodeOf, Lays, PutsPlan, records_of};
ghost use Rattle.hl_store.specs.Reserving.{HasOthers};
ghost use Rattle.hl_media.specs.Moments.{Runs};
ghost use Rattle.hl_log.specs.Free.{AreClean};
ghost use Rattle.hl_log.specs.Loads.{AreOf};
ghost use Rattle.hl_log.specs.Logs.{UnitEnds};
ghost use Rattle.hl_log.specs.Rest.{SaysNothing};
ghost use Rattle.hl_log.specs.Units.{WritesUnit};
ghost use Rattle.hl_overlay.specs.Drafting.{is_freed};
ghost use Rattle.hl_overlay.specs.DraftTables.{freed_of, freed_record, others_of};
ghost use Rattle.hl_overlay.specs.Overlays.{IsWholeOverlay, unit_blocks};
ghost use Rattle.hl_overlaid.specs.Units.{brought_by, unit_changes};

use crate::counts::Counts;
use crate::store::{Store, not_taken};
use hl_addr::NOTHING;
use hl_bytes::{BlockRecord, TableRecord};
use hl_log::{Log, Unit, UnitAnswer};
use hl_media::Machine;
use hl_overlay::{MadeUnit, NodeDraft, Overlay};
use hl_summary::INODE;
use hl_tables::Tables;
use std::alloc::{AllocError, Global};
use std::mem;

/// A unit outside of a pass begins with at least so many clean segments.
pub const CLEAN_MIN: usize = 6;

/// Says where the inode lies that a block at an address is, if it is one.
fn lay_block(tables: &mut Tables, addr: u32, named: &BlockRecord)
    requires { HasInode tables.old named.now }
    ensures value { tables.new ≡ block_laid tables.old addr named.now }
    ensures shape { SameShape tables.old tables.new }
{
    if named.index == INODE {
        tables.set_inode(named.ino, addr);
    }
}

/// Says that the number of a draft lies nowhere, if it is freed.
fn lay_draft(tables: &mut Tables, draft: &NodeDraft)
    requires { draft.now.ino < length tables.old.inodes }
    ensures value { let freed = changed tables.old (freed_record draft.now) in
        tables.new ≡ (if is_freed draft.now then freed else tables.old) }
    ensures shape { SameShape tables.old tables.new }
{
    if draft.is_freed() {
        tables.set_inode(draft.ino, NOTHING);
    }
}

/// Says where the inodes of a unit's blocks lie, of which each has its address in the plan.
fn lay_inodes(tables: &mut Tables, plan: &[u32], unit: &Unit)
    requires plan { length plan.now ≡ length unit.now.blocks }
    requires inodes { All (HasInodeOf tables.old) unit.now.blocks }
    ensures value { tables.new ≡ blocks_placed tables.old (records_of unit.now.blocks) plan.now }
    ensures shape { SameShape tables.old tables.new }
{
    'inodes: for (n, block) in unit.blocks.items().iter().enumerate() {
        lay_block(tables, plan[n], &block.0);
    }
}

/// Says that the numbers lie nowhere that the drafts free.
fn lay_freed(tables: &mut Tables, drafts: &[NodeDraft])
    requires { All (λ d. d.ino < length tables.old.inodes) drafts.now }
    ensures value { tables.new ≡ fold changed tables.old (freed_of drafts.now) }
    ensures shape { SameShape tables.old tables.new }
{
    'freed: for draft in drafts {
        lay_draft(tables, draft);
    }
}

/// Writes a unit whose blocks have the addresses of the plan. Where it was written it is laid over the tables, and its blocks
/// are counted.
fn write_made<M: Machine>(
    log: &mut Log<M>,
    tables: &mut Tables,
    counts: &mut Counts,
    clean: &[u32],
    plan: &[u32],
    made: &MadeUnit,
) -> UnitAnswer
    requires clean { AreClean log.old.geometry log.old.at.head.seg clean.now }
    requires segments { length clean.now < 2 ^ 32 }
    requires k { 0 < log.old.geometry.k }
    requires unit { AreOf log.old.geometry (records_of made.now.blocks) made.now.tables }
    requires few { length made.now.blocks < 2 ^ 32 }
    requires plan { length plan.now ≡ length made.now.blocks }
    requires inodes { All (HasInodeOf tables.old) made.now.blocks }
    requires drafts { All (λ d. d.ino < length tables.old.inodes) made.now.drafts.items }
    ensures crash { let u = brought_by made.now.blocks made.now.tables in
        Runs (M.history log.old.machine) (M.history log.new.machine)
        (WritesUnit log.old.geometry log.old.at clean.now u) }
    ensures silent { Runs (M.history log.old.machine) (M.history log.new.machine) SaysNothing }
    ensures ends { let u = brought_by made.now.blocks made.now.tables in
        UnitEnds M.history M.faults M.write_faults clean.now u log.old log.new result }
    ensures laid { Lays log.old.geometry.k plan.now made.now tables.old tables.new
        counts.old counts.new result }
    ensures geometry { log.new.geometry ≡ log.old.geometry }
    ensures blocks { M.blocks log.new.machine ≡ M.blocks log.old.machine }
    ensures faults { M.faults log.old.machine ≤ M.faults log.new.machine }
    ensures write_faults { M.write_faults log.old.machine ≤ M.write_faults log.new.machine }
    ensures say_faults { M.say_faults log.new.machine ≡ M.say_faults log.old.machine }
{
    let answer = log.write_unit(made.unit(), clean);
    if let UnitAnswer::Written { .. } = answer {
        lay_inodes(tables, plan, made.unit());
        lay_freed(tables, made.drafts());
        counts.add_blocks(log.geometry().k, plan);
    }
    answer
}

/// Puts the addresses of the blocks of a unit into memory, of which more is taken where it is too little. False where there
/// are too few clean segments for the unit; no address is there then.
fn put_plan<M: Machine>(
    log: &Log<M>,
    blocks: u32,
    tables: u32,
    clean: &[u32],
    plan: &mut Vec<u32>,
) -> Result<bool, AllocError>
    requires clean { AreClean log.now.geometry log.now.at.head.seg clean.now }
    requires empty { plan.old.items ≡ [] }
    ensures puts { let head = log.now.at.head in
        IfOk result (PutsPlan log.now.geometry head clean.now blocks tables plan.new.items) }
    ensures err { OnErr result (plan.new.items ≡ []) }
    ensures full { OnErr result (vec_capacity plan.old < blocks) }
    ensures capacity { vec_capacity plan.old ≤ vec_capacity plan.new }
{
    plan.resize(blocks as usize, 0)?;
    if log.plan_into(tables, clean, plan.as_mut_slice()) {
        return Ok(true);
    }
    plan.clear();
    Ok(false)
}

/// Makes room for the inodes and pointer blocks of the drafts, unless there is enough. It fails only where there isn't.
fn make_others_fit(overlay: &mut Overlay) -> Result<(), AllocError>
    ensures ok { OnOk result (HasOthers overlay.old overlay.new) }
    ensures err { OnErr result (overlay.new ≡ overlay.old) }
    ensures full { OnErr result (overlay.old.room < others_of overlay.old.drafts) }
{
    let others = overlay.others();
    if overlay.room() >= others as usize {
        return Ok(());
    }
    overlay.reserve(others)
}

/// Puts the changes of a unit into memory, and makes room for its inodes and pointer blocks. It fails only where there was
/// too little of either.
fn put_changes(
    overlay: &mut Overlay,
    notes: &[TableRecord],
    count: u32,
    changes: &mut Vec<TableRecord>,
) -> Result<(), AllocError>
    requires empty { changes.old.items ≡ [] }
    requires count { count ≡ length (unit_changes overlay.old notes.now) }
    ensures puts { OnOk result (changes.new.items ≡ unit_changes overlay.old notes.now) }
    ensures fits { OnOk result (HasOthers overlay.old overlay.new) }
    ensures err { OnErr result (changes.new.items ≡ []) }
    ensures same { OnErr result (overlay.new ≡ overlay.old) }
    ensures full { OnErr result ((vec_capacity changes.old < count)
        ⊎ (overlay.old.room < others_of overlay.old.drafts)) }
    ensures capacity { vec_capacity changes.old ≤ vec_capacity changes.new }
{
    changes.reserve(count as usize)?;
    make_others_fit(overlay)?;
    let Ok(()) = overlay.push_freed(changes) else {
        unreachable!()
    };
    let Ok(()) = changes.extend_from_slice(notes) else {
        unreachable!()
    };
    Ok(())
}

impl<M: Machine> Store<M> {
    ghost use Rattle.hl_store.specs.Flushes.{FlushEnds, Flushes, WriteEnds};
    ghost use Rattle.hl_store.specs.Reserving.{IsUnitRefused};
    ghost use Rattle.hl_store.specs.Values.{IsTidy};

    /// Whether the next unit would have nothing.
    pub fn is_tidy(&self) -> bool
        ensures { IsTrue result ↔ IsTidy self.now }
    {
        self.dirty() == 0 && self.notes.as_slice().is_empty()
    }

    /// How many blocks the next unit has.
    fn unit_blocks(&self) -> u32
        ensures value { result ≡ unit_blocks self.now.overlay }
        ensures whole { IsWholeOverlay self.now.overlay }
        ensures few { unit_blocks self.now.overlay < 2 ^ 32 }
    {
        self.overlay.new_blocks() + self.overlay.others()
    }

    /// How many changes the next unit has. It fails where these are 2^32.
    fn unit_tables(&self) -> Result<u32, AllocError>
        ensures value { let count = length (unit_changes self.now.overlay self.now.notes) in
            IfOk result (λ tables. tables ≡ count) }
        ensures many { let count = length (unit_changes self.now.overlay self.now.notes) in
            OnErr result (2 ^ 32 ≤ count) }
    {
        let Ok(notes) = u32::try_from(self.notes.len()) else {
            return Err(AllocError);
        };
        match self.overlay.freed().checked_add(notes) {
            Some(tables) => Ok(tables),
            None => Err(AllocError),
        }
    }

    /// Writes the unit of what is dirty.
    fn write(&mut self, alloc: Global) -> Result<UnitAnswer, AllocError>
        ensures crash { Runs (M.history self.old.log.machine) (M.history self.new.log.machine)
            (Flushes self.old) }
        ensures silent { Runs (M.history self.old.log.machine)
            (M.history self.new.log.machine) SaysNothing }
        ensures ends { IfOk result (WriteEnds M.history M.faults M.write_faults self.old self.new) }
        ensures err { OnErr result (IsUnitRefused self.old self.new) }
        ensures geometry { self.new.log.geometry ≡ self.old.log.geometry }
        ensures blocks { M.blocks self.new.log.machine ≡ M.blocks self.old.log.machine }
        ensures faults { M.faults self.old.log.machine ≤ M.faults self.new.log.machine }
        ensures write_faults { M.write_faults self.old.log.machine
            ≤ M.write_faults self.new.log.machine }
        ensures say_faults { M.say_faults self.new.log.machine
            ≡ M.say_faults self.old.log.machine }
    {
        let tables = self.unit_tables()?;
        let blocks = self.unit_blocks();
        let clean = not_taken(&self.clean, self.taken);
        let planned = put_plan(&self.log, blocks, tables, clean, &mut self.plan)?;
        if !planned {
            return Ok(UnitAnswer::LogFull);
        }
        let notes = self.notes.as_slice();
        if let Err(error) = put_changes(&mut self.overlay, notes, tables, &mut self.changes) {
            self.plan.clear();
            return Err(error);
        }
        let changes = mem::replace(&mut self.changes, Vec::new(alloc));
        let plan = self.plan.as_slice();
        let made = self
            .overlay
            .make(alloc, plan, self.uses.as_slice(), changes);
        let answer = write_made(
            &mut self.log,
            &mut self.tables,
            &mut self.counts,
            clean,
            plan,
            &made,
        );
        self.plan.clear();
        let UnitAnswer::Written { used } = answer else {
            self.overlay = made.undone();
            return Ok(answer);
        };
        self.taken += used as usize;
        self.notes.clear();
        self.overlay = made.settled();
        Ok(answer)
    }

    /// Writes a unit of what is dirty, if anything is. A stop at any moment leaves the contents of the last unit or the nodes
    /// that the store has now, and no block differs but those that are free for the log. After `Written` every image has the
    /// nodes that the store has, and nothing is drafted. `LogFull` comes exactly where anything is dirty and fewer than six
    /// segments are clean or too few for the unit; nothing is written then. After `DiskFault` the log is not to be written
    /// again, and the room for new blocks is given up. Memory is taken before the first device call, and where it is wanting
    /// nothing changes. It is never wanting where it was reserved.
    pub fn flush(&mut self, alloc: Global) -> UnitAnswer
        ensures crash { Runs (M.history self.old.log.machine) (M.history self.new.log.machine)
            (Flushes self.old) }
        ensures silent { Runs (M.history self.old.log.machine)
            (M.history self.new.log.machine) SaysNothing }
        ensures ends { FlushEnds M.history M.faults M.write_faults self.old self.new result }
        ensures geometry { self.new.log.geometry ≡ self.old.log.geometry }
        ensures blocks { M.blocks self.new.log.machine ≡ M.blocks self.old.log.machine }
        ensures faults { M.faults self.old.log.machine ≤ M.faults self.new.log.machine }
        ensures write_faults { M.write_faults self.old.log.machine
            ≤ M.write_faults self.new.log.machine }
        ensures say_faults { M.say_faults self.new.log.machine
            ≡ M.say_faults self.old.log.machine }
    {
        if self.is_tidy() {
            return UnitAnswer::Written { used: 0 };
        }
        if self.clean().len() < CLEAN_MIN {
            return UnitAnswer::LogFull;
        }
        match self.write(alloc) {
            Err(AllocError) => UnitAnswer::Memory,
            Ok(answer) => answer,
        }
    }
}
