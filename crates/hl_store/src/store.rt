//! The store.

ghost use Rattle.std.specs.Prelude.{◌≡◌, ◌+◌, ◌*◌, ◌-◌, ◌<◌, ◌≤◌, ◌^◌, true, IfOk, IfErr, drop, length, replicate, slice_get, Some};
ghost use Rattle.hl_store.specs.Opening.{AreInUse};

use crate::counts::Counts;
use crate::in_use::InUse;
use hl_addr::{Geometry, NOTHING};
use hl_bytes::{SegBuf, TableRecord};
use hl_lines::LineTable;
use hl_log::Log;
use hl_media::{Failed, Machine};
use hl_overlay::Overlay;
use hl_tables::Tables;
use hl_tseg::TsegTable;
use std::alloc::{AllocError, Global};
use std::marker::Model;

/// What a store is made of besides its log: what a mount found.
#[derive(Drop)]
pub struct StoreParts {
    /// The tables with the cut chain laid over them.
    pub tables: Tables,
    /// What each line of the disk holds.
    pub lines: LineTable,
    /// The last use of each inode number.
    pub uses: Vec<u64>,
    /// The number of live blocks of each log segment, from 1 on.
    pub live: Vec<u32>,
    /// The clean segments, in the order in which they are to be taken.
    pub clean: Vec<u32>,
    /// What the nodes are charged, in blocks.
    pub charge: u32,
    /// The serial that the next tertiary segment gets.
    pub tseg_serial: u64,
}

/// The nodes of a site: what its log has of them, and what was changed since the last unit.
#[derive(Drop)]
pub struct Store<M: Machine> {
    pub(crate) log: Log<M>,
    /// The tables of the last unit, with the changes of `notes` made in them.
    pub(crate) tables: Tables,
    /// Changes of slots and volumes that the next unit is to have.
    pub(crate) notes: Vec<TableRecord>,
    /// The drafts of nodes and their new blocks.
    pub(crate) overlay: Overlay,
    /// The last use of each inode number.
    pub(crate) uses: Vec<u64>,
    pub(crate) counts: Counts,
    /// What each line of the disk holds.
    pub(crate) lines: LineTable,
    /// The segments that were clean after the last checkpoint, of which the first `taken` aren't any more.
    pub(crate) clean: Vec<u32>,
    pub(crate) taken: usize,
    /// The serial that the next tertiary segment gets.
    pub(crate) tseg_serial: u64,
    /// Memory for the addresses of a unit. It is empty between calls.
    pub(crate) plan: Vec<u32>,
    /// Memory for the changes of a unit. It is empty between calls.
    pub(crate) changes: Vec<TableRecord>,
    /// The unit buffer, unless it was taken.
    pub(crate) buffer: Option<SegBuf>,
}

impl<M: Machine> Model for Store<M> {
    ghost use Rattle.std.specs.Prelude.{drop, ◌≤◌, is_some, length};
    ghost use Rattle.std.specs.Vec.{vec_capacity};
    ghost use Rattle.hl_store.specs.Values.{Reserved, StoreValue};
    ghost use Rattle.hl_store.specs.Reserving.{IsSpare};
    ghost use Rattle.hl_store.specs.Shapes.{IsShaped};

    ghost Value = { StoreValue M };

    ghost view = { λ s. record {
      log = s.log;
      tables = s.tables;
      notes = s.notes.items;
      overlay = s.overlay;
      uses = s.uses.items;
      tally = s.counts;
      lines = s.lines;
      clean = drop s.taken s.clean.items;
      tseg_serial = s.tseg_serial;
      reserved = record {
        plan = vec_capacity s.plan;
        changes = vec_capacity s.changes;
        notes = vec_capacity s.notes;
      };
      has_buffer = is_some s.buffer;
    } };

    ghost invariant = { λ s. record {
      shape : IsShaped (record {
        log = s.log;
        tables = s.tables;
        notes = s.notes.items;
        overlay = s.overlay;
        uses = s.uses.items;
        tally = s.counts;
        lines = s.lines;
        clean = drop s.taken s.clean.items;
        tseg_serial = s.tseg_serial;
        reserved = record {
          plan = vec_capacity s.plan;
          changes = vec_capacity s.changes;
          notes = vec_capacity s.notes;
        };
        has_buffer = is_some s.buffer;
      });
      spare : IsSpare s.log.geometry.k s.plan.items s.changes.items s.buffer;
      taken : s.taken ≤ length s.clean.items;
    } };
}

impl<M: Machine> Store<M> {
    ghost use Rattle.std.specs.Prelude.{MatchOption};
    ghost use Rattle.hl_media.specs.History.{Adds, DidSay};
    ghost use Rattle.hl_media.specs.Causes.{HasCause};
    ghost use Rattle.hl_addr.specs.Layout.{IsWithinLimits};
    ghost use Rattle.hl_log.specs.Logs.{RestStays};
    ghost use Rattle.hl_store.specs.Values.{dirty_of, layout};
    ghost use Rattle.hl_store.specs.Shapes.{IsShaped};
    ghost use Rattle.hl_store.specs.Numbers.{AreAllUsed, IsLowestFree};
    ghost use Rattle.hl_store.specs.Finding.{on_machine};
    ghost use Rattle.hl_media.specs.History.{MachineState};
    ghost use Rattle.hl_nodes.specs.Contents.{Contents};
    ghost use Rattle.hl_store.specs.Lying.{LiesOver};
    ghost use Rattle.hl_store.specs.Opening.{AreOfContents, AreParts, IsOpened};

    /// A store over a log, by what a mount found. Where memory is wanting the log is handed back. It calls no device.
    pub fn open(
        alloc: Global,
        log: Log<M>,
        parts: StoreParts,
    ) -> Result<Store<M>, (AllocError, Log<M>)>
        requires { AreParts log parts }
        ensures opened { IfOk result (IsOpened log parts) }
        ensures over { IfOk result (λ store. (c : Contents) (s : MachineState)
            → AreOfContents log parts c s → LiesOver store c s) }
        ensures back { IfErr result (λ refused. refused.1 ≡ log) }
    {
        let Ok(buffer) = SegBuf::new(alloc, log.geometry().k) else {
            return Err((AllocError, log));
        };
        Store::open_with(alloc, log, parts, buffer)
    }

    /// The same, with its unit buffer.
    fn open_with(
        alloc: Global,
        log: Log<M>,
        parts: StoreParts,
        buffer: SegBuf,
    ) -> Result<Store<M>, (AllocError, Log<M>)>
        requires parts { AreParts log parts }
        requires buffer { length buffer ≡ 4096 * log.geometry.k }
        ensures opened { IfOk result (IsOpened log parts) }
        ensures over { IfOk result (λ store. (c : Contents) (s : MachineState)
            → AreOfContents log parts c s → LiesOver store c s) }
        ensures back { IfErr result (λ refused. refused.1 ≡ log) }
    {
        let inodes = log.geometry().inodes;
        let Ok(overlay) = Overlay::new(alloc, inodes) else {
            return Err((AllocError, log));
        };
        let Ok(flags) = vec![in alloc; true; inodes as usize] else {
            return Err((AllocError, log));
        };
        let in_use = InUse::of(flags_of(&parts.tables, flags));
        Ok(Store {
            log,
            tables: parts.tables,
            notes: Vec::new(alloc),
            overlay,
            uses: parts.uses,
            counts: Counts::of(in_use, parts.charge, parts.live),
            lines: parts.lines,
            clean: parts.clean,
            taken: 0,
            tseg_serial: parts.tseg_serial,
            plan: Vec::new(alloc),
            changes: Vec::new(alloc),
            buffer: Some(buffer),
        })
    }

    /// The lowest number that isn't in use; none where every number from 1 on is.
    pub fn lowest_free(&self) -> Option<u32>
        ensures { MatchOption result (AreAllUsed self.now.tally.in_use 1 (layout self.now).inodes)
            (IsLowestFree self.now.tally.in_use) }
    {
        self.counts.lowest_free()
    }

    /// What the nodes are charged, in blocks.
    pub fn charge(&self) -> u32
        ensures { result ≡ self.now.tally.charge }
    {
        self.counts.charge()
    }

    /// How many blocks the next unit would have, and how many numbers it would free.
    pub fn dirty(&self) -> u32
        ensures { result ≡ dirty_of self.now }
    {
        self.overlay.new_blocks() + self.overlay.others() + self.overlay.freed()
    }

    /// The number of clean segments.
    pub fn clean_count(&self) -> u32
        ensures { result ≡ length self.now.clean }
    {
        self.clean().len() as u32
    }

    /// The number of live blocks of a log segment that the next unit doesn't replace.
    pub fn live(&self, seg: u32) -> u32
        requires low { 1 ≤ seg }
        requires high { seg ≤ (layout self.now).log }
        ensures { slice_get self.now.tally.live (seg - 1) ≡ Some result }
    {
        self.counts.live()[seg as usize - 1]
    }

    /// The slots of the volumes.
    pub fn slots(&self) -> &TsegTable
        ensures { result.now ≡ self.now.tables.slots }
    {
        self.tables.slots()
    }

    /// What each line of the disk holds.
    pub fn lines(&self) -> &LineTable
        ensures { result.now ≡ self.now.lines }
    {
        &self.lines
    }

    /// The site.
    pub fn geometry(&self) -> &Geometry
        ensures is { result.now ≡ layout self.now }
        ensures limits { IsWithinLimits result.now }
    {
        self.log.geometry()
    }

    /// The log segment of the log's head.
    pub fn head(&self) -> u32
        ensures { result ≡ self.now.log.at.head.seg }
    {
        self.log.head().0
    }

    /// Says the bytes. Where it fails, some first part of them is said.
    pub fn say(&mut self, bytes: &[u8]) -> Result<(), Failed>
        ensures did { Adds (M.history self.old.log.machine) (M.history self.new.log.machine)
            (DidSay bytes.now result) }
        ensures rest { RestStays M.history self.old.log self.new.log }
        ensures same { self.new ≡ on_machine self.old self.new.log.machine }
        ensures blocks { M.blocks self.new.log.machine ≡ M.blocks self.old.log.machine }
        ensures faults { M.faults self.new.log.machine ≡ M.faults self.old.log.machine }
        ensures write_faults { M.write_faults self.new.log.machine
            ≡ M.write_faults self.old.log.machine }
        ensures say_faults { HasCause (M.say_faults self.old.log.machine)
            (M.say_faults self.new.log.machine) result }
    {
        self.log.say(bytes)
    }

    /// The machine, lent.
    pub fn machine(&self) -> &M
        ensures { result.now ≡ self.now.log.machine }
    {
        self.log.machine()
    }

    /// The machine back. It calls no device.
    pub fn into_machine(self) -> M
        ensures { result ≡ self.log.machine }
    {
        self.log.into_machine()
    }

    /// The clean segments, in the order in which they are taken.
    pub(crate) fn clean(&self) -> &[u32]
        ensures value { result.now ≡ self.now.clean }
        ensures shape { IsShaped self.now }
    {
        not_taken(&self.clean, self.taken)
    }
}

/// The clean segments behind the first so many, which are taken.
pub(crate) fn not_taken(clean: &Vec<u32>, taken: usize) -> &[u32]
    requires { taken ≤ length clean.now.items }
    ensures { result.now ≡ drop taken clean.now.items }
{
    &clean.as_slice()[taken..]
}

/// Which numbers the tables have an inode for, from 1 on; number 0 is never given.
fn flags_of(tables: &Tables, flags: Vec<bool>) -> Vec<bool>
    requires size { length flags.items ≡ length tables.now.inodes }
    requires few { length flags.items < 2 ^ 32 }
    requires all { flags.items ≡ replicate (length tables.now.inodes) true }
    ensures size { length result.items ≡ length tables.now.inodes }
    ensures flags { AreInUse tables.now result.items }
{
    let mut flags = flags;
    'numbers: for ino in 1..flags.as_slice().len() as u32 {
        flags[ino as usize] = tables.inode(ino) != NOTHING;
    }
    flags
}
