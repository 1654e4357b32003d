//! Checkpoints: the tables written anew behind the next record, and the segments that are clean from then on.

ghost use Rattle.std.specs.Prelude.{◌≡◌, ◌+◌, ◌<◌, ◌≤◌, ◌^◌, [], if◌then◌else◌, ◌++◌, ◌∷◌, IfOk, length, sum};
ghost use Rattle.std.specs.Vec.{vec_capacity};
ghost use Rattle.hl_media.specs.Moments.{Runs};
ghost use Rattle.hl_addr.specs.Layout.{IsWithinLimits, table_blocks, table_blocks_of};
ghost use Rattle.hl_tables.specs.TableBlocks.{table_block};
ghost use Rattle.hl_log.specs.Checkpoints.{Checkpoints, IsOf, given_by};
ghost use Rattle.hl_log.specs.Free.{AreClean};
ghost use Rattle.hl_log.specs.Loads.{bytes_of_tables};
ghost use Rattle.hl_log.specs.Logs as logs;
ghost use Rattle.hl_log.specs.Rest.{SaysNothing};
ghost use Rattle.hl_store.specs.Checkpointing.{blocks_of_tables, clean_of, is_clean, marks_of};

use crate::flushing::CLEAN_MIN;
use crate::store::Store;
use hl_addr::Numbers;
use hl_bytes::{BLOCK, Block};
use hl_log::{Log, UnitAnswer};
use hl_media::Machine;
use hl_super::Record;
use hl_tables::Tables;
use std::alloc::{AllocError, Global};

/// Which log segments have a live block.
fn live_marks(alloc: Global, live: &[u32]) -> Result<Vec<bool>, AllocError>
    ensures { IfOk result (λ marks. marks.items ≡ marks_of live.now) }
{
    live.iter().map(|count| 0 < *count).collect(alloc)
}

/// Which of so many log segments the tables say are used.
fn table_marks(alloc: Global, tables: &Tables, segments: u32) -> Result<Vec<bool>, AllocError>
    requires { segments ≡ length tables.now.used }
    ensures { IfOk result (λ marks. marks.items ≡ tables.now.used) }
{
    let mut marks = Vec::new(alloc);
    'segments: for passed in 0..segments {
        marks.push(tables.used(passed + 1))?;
    }
    Ok(marks)
}

/// Says in the tables which log segments are used.
fn set_marks(tables: &mut Tables, marks: &[bool])
    requires all { length marks.now ≡ length tables.old.used }
    requires few { length marks.now < 2 ^ 32 }
    ensures { tables.new ≡ record tables.old { used = marks.now } }
{
    'segments: for passed in 0..marks.len() as u32 {
        tables.set_used(passed + 1, marks[passed as usize]);
    }
}

/// Block `i` of the tables.
fn block_of_tables(tables: &Tables, i: u32) -> Block
    requires { let t = tables.now in
        i < table_blocks_of (length t.used) (length t.inodes) (sum t.slots.volumes) }
    ensures { result.bytes ≡ table_block tables.now i }
{
    let mut block = Block { bytes: [0; BLOCK] };
    tables.write_block(i, &mut block.bytes);
    block
}

/// The blocks of the tables.
fn all_table_blocks(alloc: Global, tables: &Tables) -> Result<Vec<Block>, AllocError>
    ensures { IfOk result
        (λ blocks. bytes_of_tables blocks.items ≡ blocks_of_tables tables.now) }
{
    let mut blocks = Vec::new(alloc);
    'blocks: for i in 0..tables.blocks() {
        blocks.push(block_of_tables(tables, i))?;
    }
    Ok(blocks)
}

/// Writes the tables and the next record.
fn write_tables<M: Machine>(
    log: &mut Log<M>,
    alloc: Global,
    tables: &Tables,
    rec: &Record,
    clean: &[u32],
) -> UnitAnswer
    requires site { let t = tables.now in
        table_blocks_of (length t.used) (length t.inodes) (sum t.slots.volumes)
        ≡ table_blocks log.old.geometry }
    requires limits { IsWithinLimits log.old.geometry }
    requires clean { AreClean log.old.geometry log.old.at.head.seg clean.now }
    requires segments { length clean.now < 2 ^ 32 }
    requires rec { IsOf log.old.geometry rec.now }
    ensures crash { let given = given_by log.old.rec.number rec.now in
        Runs (M.history log.old.machine) (M.history log.new.machine)
        (Checkpoints log.old.geometry log.old.at clean.now given (blocks_of_tables tables.now)) }
    ensures silent { Runs (M.history log.old.machine)
        (M.history log.new.machine) SaysNothing }
    ensures ends { let given = given_by log.old.rec.number rec.now in
        logs.CheckpointEnds M.history M.faults M.write_faults clean.now given
        (blocks_of_tables tables.now) log.old log.new result }
    ensures geometry { log.new.geometry ≡ log.old.geometry }
    ensures blocks { M.blocks log.new.machine ≡ M.blocks log.old.machine }
    ensures faults { M.faults log.old.machine ≤ M.faults log.new.machine }
    ensures write_faults { M.write_faults log.old.machine ≤ M.write_faults log.new.machine }
    ensures say_faults { M.say_faults log.new.machine ≡ M.say_faults log.old.machine }
{
    match all_table_blocks(alloc, tables) {
        Err(AllocError) => UnitAnswer::Memory,
        Ok(blocks) => log.checkpoint(alloc, blocks.as_slice(), rec, clean),
    }
}

/// Adds a log segment to the clean ones, for which there is room, if it has no live block and isn't the head's.
fn add_clean(live: &[u32], head: u32, seg: u32, clean: &mut Vec<u32>)
    requires low { 1 ≤ seg }
    requires high { seg ≤ length live.now }
    requires room { length clean.old.items < vec_capacity clean.old }
    ensures items { clean.new.items
        ≡ (if is_clean head live.now seg then clean.old.items ++ seg ∷ [] else clean.old.items) }
    ensures capacity { vec_capacity clean.old ≤ vec_capacity clean.new }
{
    if live[seg as usize - 1] != 0 || seg == head {
        return;
    }
    let Ok(()) = clean.push(seg) else {
        unreachable!()
    };
}

/// The log segments without a live block but the head's, in memory that was taken for all of them.
fn clean_segments(live: &[u32], head: u32, room: Vec<u32>) -> Vec<u32>
    requires empty { room.items ≡ [] }
    requires room { length live.now ≤ vec_capacity room }
    requires few { length live.now + 1 < 2 ^ 32 }
    ensures { result.items ≡ clean_of head live.now }
{
    let mut clean = room;
    'segments: for passed in 0..live.len() as u32 {
        add_clean(live, head, passed + 1, &mut clean);
    }
    clean
}

/// What a checkpoint takes memory for besides the table blocks.
#[derive(Drop)]
struct Supplies {
    /// Which log segments have a live block.
    marks: Vec<bool>,
    /// Which the tables say are used.
    before: Vec<bool>,
    /// What the next record is to have.
    rec: Record,
    /// Where the table blocks lie.
    gone: Numbers,
    /// Room for the clean segments.
    room: Vec<u32>,
}

impl<M: Machine> Store<M> {
    ghost use Rattle.hl_store.specs.Values.{IsTidy, layout};
    ghost use Rattle.hl_store.specs.Checkpointing.{CheckpointEnds, CheckpointEndsInReserve};
    ghost use Rattle.hl_store.specs.Checkpointing.{AreSupplies, KeepsContents, given_of};

    /// What the next record is to have besides its number, its place and its tables. A serial of 0, which no image gives,
    /// counts as want of memory.
    fn next_record(&self, alloc: Global) -> Result<Record, AllocError>
        ensures of { IfOk result (IsOf (layout self.now)) }
        ensures given { IfOk result
            (λ rec. given_by self.now.log.rec.number rec ≡ given_of self.now) }
    {
        if self.tseg_serial == 0 {
            return Err(AllocError);
        }
        Ok(Record {
            number: 0,
            serial: 0,
            seg: 0,
            block: 0,
            tseg_serial: self.tseg_serial,
            format: 1,
            volumes: self.log.geometry().volumes.copy(alloc)?,
            tables: Numbers::of(Vec::new(alloc)),
        })
    }

    /// What a checkpoint takes memory for.
    fn supplies(&self, alloc: Global) -> Result<Supplies, AllocError>
        ensures { IfOk result (AreSupplies self.now) }
    {
        let segments = self.log.geometry().log;
        Ok(Supplies {
            marks: live_marks(alloc, self.counts.live())?,
            before: table_marks(alloc, &self.tables, segments)?,
            rec: self.next_record(alloc)?,
            gone: self.log.rec().tables.copy(alloc)?,
            room: Vec::with_capacity(alloc, segments as usize)?,
        })
    }

    /// Writes a checkpoint, with what was taken for it.
    fn write_checkpoint(&mut self, alloc: Global, supplies: Supplies) -> UnitAnswer
        requires tidy { IsTidy self.old }
        requires supplies { AreSupplies self.old supplies }
        ensures crash { Runs (M.history self.old.log.machine) (M.history self.new.log.machine)
            (KeepsContents self.old) }
        ensures silent { Runs (M.history self.old.log.machine)
            (M.history self.new.log.machine) SaysNothing }
        ensures ends { CheckpointEndsInReserve M.history M.faults M.write_faults
            self.old self.new result }
        ensures geometry { self.new.log.geometry ≡ self.old.log.geometry }
        ensures blocks { M.blocks self.new.log.machine ≡ M.blocks self.old.log.machine }
        ensures faults { M.faults self.old.log.machine ≤ M.faults self.new.log.machine }
        ensures write_faults { M.write_faults self.old.log.machine
            ≤ M.write_faults self.new.log.machine }
        ensures say_faults { M.say_faults self.new.log.machine
            ≡ M.say_faults self.old.log.machine }
    {
        let Supplies {
            marks,
            before,
            rec,
            gone,
            room,
        } = supplies;
        self.overlay.tell_whole();
        set_marks(&mut self.tables, marks.as_slice());
        let clean = &self.clean.as_slice()[self.taken..];
        let answer = write_tables(&mut self.log, alloc, &self.tables, &rec, clean);
        // Without the new record the tables are those of the old one.
        let UnitAnswer::Written { .. } = answer else {
            set_marks(&mut self.tables, before.as_slice());
            return answer;
        };
        let k = self.log.geometry().k;
        self.counts.remove_blocks(k, gone.items());
        self.counts.add_blocks(k, self.log.rec().tables.items());
        self.clean = clean_segments(self.counts.live(), self.log.head().0, room);
        self.taken = 0;
        answer
    }

    /// Writes the tables and the next record, where nothing is dirty or noted, with the clean segments of the reserve too: so
    /// a mount and a pass write theirs. The tables mark the log segments that have a live block. A stop at any moment leaves
    /// the contents as they were or the same nodes behind the next record, and no block differs but those that are free for
    /// the log and the two of the records. After `Written` the clean segments are those of the log without a live block but
    /// the head's, in rising order. `LogFull` comes exactly where there are too few clean segments for the table blocks;
    /// nothing is written then. After `DiskFault` the log is not to be written again. Memory is taken before the first device
    /// call.
    pub fn checkpoint_in_reserve(&mut self, alloc: Global) -> UnitAnswer
        requires { IsTidy self.old }
        ensures crash { Runs (M.history self.old.log.machine) (M.history self.new.log.machine)
            (KeepsContents self.old) }
        ensures silent { Runs (M.history self.old.log.machine)
            (M.history self.new.log.machine) SaysNothing }
        ensures ends { CheckpointEndsInReserve M.history M.faults M.write_faults
            self.old self.new result }
        ensures geometry { self.new.log.geometry ≡ self.old.log.geometry }
        ensures blocks { M.blocks self.new.log.machine ≡ M.blocks self.old.log.machine }
        ensures faults { M.faults self.old.log.machine ≤ M.faults self.new.log.machine }
        ensures write_faults { M.write_faults self.old.log.machine
            ≤ M.write_faults self.new.log.machine }
        ensures say_faults { M.say_faults self.new.log.machine
            ≡ M.say_faults self.old.log.machine }
    {
        match self.supplies(alloc) {
            Err(AllocError) => UnitAnswer::Memory,
            Ok(supplies) => self.write_checkpoint(alloc, supplies),
        }
    }

    /// Writes a checkpoint as [`checkpoint_in_reserve`](Self::checkpoint_in_reserve) does, but leaves the reserve alone:
    /// `LogFull` comes exactly where fewer than six segments are clean or too few for the table blocks; nothing is written
    /// then.
    pub fn checkpoint(&mut self, alloc: Global) -> UnitAnswer
        requires { IsTidy self.old }
        ensures crash { Runs (M.history self.old.log.machine) (M.history self.new.log.machine)
            (KeepsContents self.old) }
        ensures silent { Runs (M.history self.old.log.machine)
            (M.history self.new.log.machine) SaysNothing }
        ensures ends { CheckpointEnds M.history M.faults M.write_faults self.old self.new result }
        ensures geometry { self.new.log.geometry ≡ self.old.log.geometry }
        ensures blocks { M.blocks self.new.log.machine ≡ M.blocks self.old.log.machine }
        ensures faults { M.faults self.old.log.machine ≤ M.faults self.new.log.machine }
        ensures write_faults { M.write_faults self.old.log.machine
            ≤ M.write_faults self.new.log.machine }
        ensures say_faults { M.say_faults self.new.log.machine
            ≡ M.say_faults self.old.log.machine }
    {
        if self.clean().len() < CLEAN_MIN {
            return UnitAnswer::LogFull;
        }
        self.checkpoint_in_reserve(alloc)
    }
}
