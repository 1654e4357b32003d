//! The log of a site.

ghost use Rattle.std.specs.Prelude.{◌≡◌, ◌↔◌, IsTrue, false, ◌≤◌, ◌<◌, ◌+◌, ◌*◌, ◌/◌, ◌^◌, length, IfOk, IfErr, OnOk};
ghost use Rattle.std.specs.Option.{ForSome};
ghost use Rattle.hl_media.specs.History.{Adds, DidRead, DidWrite, DidSync, DidSay, HoldsAt, IsWhole, content};
ghost use Rattle.hl_media.specs.Moments.{Runs, Ends, Now};
ghost use Rattle.hl_media.specs.Causes.{HasCause};
ghost use Rattle.hl_image.specs.Places.{log_end, IsLogPlace};
ghost use Rattle.hl_log.specs.Cut.{HasClean, IsPlan, Plans};
ghost use Rattle.hl_log.specs.Free.{AreClean};
ghost use Rattle.hl_log.specs.Checkpoints.{Checkpoints, Drafts, IsOf, given_by};
ghost use Rattle.hl_log.specs.Loads.{AreOf, bytes_of_tables};
ghost use Rattle.hl_addr.specs.Layout.{IsWithinLimits, table_blocks};
ghost use Rattle.hl_log.specs.Logs.{CheckpointEnds, OnlyReads, Opens, RestStays, UnitEnds, opened_at, opened_log, site_blocks, unit_of, with_machine};
ghost use Rattle.hl_log.specs.Rest.{SaysNothing};
ghost use Rattle.hl_log.specs.Units.{WritesUnit};

use crate::batch::{Batch, has_clean, write_parts};
use crate::checkpoint::{Draft, restarted, write_checkpoint};
use crate::load::Load;
use crate::part::longest_part;
use crate::plan::{plan, put_plan};
use crate::position::Position;
use crate::unit::{Unit, UnitAnswer};
use hl_addr::{Geometry, Numbers};
use hl_bytes::{Block, SegBuf};
use hl_image::LogPlace;
use hl_media::{Failed, Machine};
use hl_super::Record;
use std::alloc::{AllocError, Global};
use std::marker::Model;

/// The log of a site, with its machine. It holds the newest record, where the next part goes, and the memory for the
/// longest part.
#[derive(Drop)]
pub struct Log<M: Machine> {
    machine: M,
    geometry: Geometry,
    rec: Record,
    at: Position,
    buffer: SegBuf,
}

impl<M: Machine> Model for Log<M> {
    ghost use Rattle.std.specs.Prelude.{◌≡◌, ◌*◌, ◌≤◌, length};
    ghost use Rattle.hl_image.specs.Places.{IsLogPlace};
    ghost use Rattle.hl_addr.specs.Layout.{IsWithinLimits};
    ghost use Rattle.hl_log.specs.Batches.{longest_part};
    ghost use Rattle.hl_log.specs.Logs.{LogValue, log_code, site_blocks};

    ghost Value = { LogValue M };

    ghost coded = { log_code M.code };

    ghost view = { λ log. record {
      machine = log.machine;
      geometry = log.geometry;
      rec = log.rec;
      at = log.at;
    } };

    ghost invariant = { λ log. record {
      room : site_blocks log.geometry ≤ M.blocks log.machine;
      head : IsLogPlace log.geometry log.at.head;
      limits : IsWithinLimits log.geometry;
      buffer : length log.buffer ≡ 4096 * longest_part log.geometry;
    } };
}

impl<M: Machine> Log<M> {
    /// The log of a site whose newest record is `rec`; `head` is the place, log segment and block, and `serial` the
    /// serial behind that record's cut chain. The machine has the site's segments. Where memory is wanting the machine
    /// is handed back. It calls no device.
    pub fn open(
        alloc: Global,
        machine: M,
        geometry: &Geometry,
        rec: Record,
        head: (u32, u32),
        serial: u64,
    ) -> Result<Log<M>, (AllocError, M)>
        requires room { site_blocks geometry.now ≤ M.blocks machine }
        requires head { IsLogPlace geometry.now (record { seg = head.0; block = head.1 }) }
        ensures opened { IfOk result (λ log. log ≡ opened_log machine geometry.now rec
            (record { seg = head.0; block = head.1 }) serial) }
        ensures back { IfErr result (λ refused. refused.1 ≡ machine) }

        // Behind the cut chain of what reads give the log is at rest.
        ensures rest { IfOk result
            (λ log. Now (M.history log.machine) (Opens log.geometry log.at)) }
    {
        let Ok(own) = geometry.copy(alloc) else {
            return Err((AllocError, machine));
        };
        let Ok(buffer) = SegBuf::new(alloc, longest_part(&own)) else {
            return Err((AllocError, machine));
        };
        let at = opened_at(&rec, head, serial);
        Ok(Log {
            machine,
            geometry: own,
            rec,
            at,
            buffer,
        })
    }

    /// Where the next part goes: a log segment, and a block of it.
    pub fn head(&self) -> (u32, u32)
        ensures { record { seg = result.0; block = result.1 } ≡ self.now.at.head }
    {
        (self.at.head.seg, self.at.head.block)
    }

    /// The site, whose segments the machine has.
    pub fn geometry(&self) -> &Geometry
        ensures value { result.now ≡ self.now.geometry }
        ensures limits { IsWithinLimits result.now }
        ensures room { site_blocks result.now ≤ M.blocks self.now.machine }
    {
        &self.geometry
    }

    /// The newest record.
    pub fn rec(&self) -> &Record
        ensures { result.now ≡ self.now.rec }
    {
        &self.rec
    }

    /// Whether `clean` is long enough for a unit of so many blocks and table records. It names segments of the log, each
    /// once, and not the head's.
    pub fn has_clean(&self, blocks: u32, tables: u32, clean: &[u32]) -> bool
        requires { AreClean self.now.geometry self.now.at.head.seg clean.now }
        ensures { let head = self.now.at.head in
            IsTrue result ↔ HasClean self.now.geometry head clean.now blocks tables }
    {
        has_clean(
            &self.geometry,
            self.at.head,
            blocks as usize,
            tables as usize,
            clean,
        )
    }

    /// The addresses of the blocks of a unit of so many blocks and table records: `write_unit` puts block i at the ith
    /// of them. `clean` names segments of the log, each once, and not the head's. None exactly where it is too short.
    pub fn plan(
        &self,
        alloc: Global,
        blocks: u32,
        tables: u32,
        clean: &[u32],
    ) -> Result<Option<Vec<u32>>, AllocError>
        requires { AreClean self.now.geometry self.now.at.head.seg clean.now }
        ensures { let head = self.now.at.head in
            IfOk result (Plans self.now.geometry head clean.now blocks tables) }
    {
        plan(
            alloc,
            &self.geometry,
            self.at.head,
            blocks as usize,
            tables as usize,
            clean,
        )
    }

    /// The same addresses, into memory that was taken before: those of a unit of one block for each of `addresses`. False
    /// exactly where `clean` is too short; `addresses` are then as before.
    pub fn plan_into(&self, tables: u32, clean: &[u32], addresses: &mut [u32]) -> bool
        requires { AreClean self.now.geometry self.now.at.head.seg clean.now }
        ensures enough { let n = length addresses.old in
            IsTrue result ↔ HasClean self.now.geometry self.now.at.head clean.now n tables }
        ensures plan { let n = length addresses.old in
            IsTrue result
            → IsPlan self.now.geometry self.now.at.head clean.now n tables addresses.new }
        ensures none { result ≡ false → addresses.new ≡ addresses.old }
    {
        let head = self.at.head;
        if !has_clean(
            &self.geometry,
            head,
            addresses.len(),
            tables as usize,
            clean,
        ) {
            return false;
        }
        put_plan(&self.geometry, head, tables as usize, clean, addresses);
        true
    }

    /// Writes a unit at the log's head, in parts that take the clean segments in their order as they need them. `clean`
    /// names segments of the log, each once, and not the head's, which hold no part of the cut chain, no table block
    /// and no block that an image's pointers name. The unit's records are those of blocks and changes of the site.
    ///
    /// A stop at any moment leaves the cut chain as it was, or with the whole unit, and no other block changes but those
    /// that are free for the log. After `DiskFault` the log is not to be written again.
    pub fn write_unit(&mut self, unit: &Unit, clean: &[u32]) -> UnitAnswer
        requires clean { AreClean self.old.geometry self.old.at.head.seg clean.now }
        requires segments { length clean.now < 2 ^ 32 }
        requires unit { let brought = unit_of unit.now in
            AreOf self.old.geometry brought.records brought.changes }
        requires few { length unit.now.blocks < 2 ^ 32 }
        ensures crash { Runs (M.history self.old.machine) (M.history self.new.machine)
            (WritesUnit self.old.geometry self.old.at clean.now (unit_of unit.now)) }
        ensures silent { Runs (M.history self.old.machine)
            (M.history self.new.machine) SaysNothing }
        ensures ends { let brought = unit_of unit.now in
            UnitEnds M.history M.faults M.write_faults clean.now brought self.old self.new result }
        ensures geometry { self.new.geometry ≡ self.old.geometry }
        ensures blocks { M.blocks self.new.machine ≡ M.blocks self.old.machine }
        ensures faults { M.faults self.old.machine ≤ M.faults self.new.machine }
        ensures write_faults { M.write_faults self.old.machine ≤ M.write_faults self.new.machine }
        ensures say_faults { M.say_faults self.new.machine ≡ M.say_faults self.old.machine }
    {
        let batch = Batch {
            load: Load::Blocks(unit.blocks.items()),
            changes: unit.tables.items(),
            closes: true,
        };
        if !has_clean(
            &self.geometry,
            self.at.head,
            batch.load.len(),
            batch.changes.len(),
            clean,
        ) {
            return UnitAnswer::LogFull;
        }
        let longest = longest_part(&self.geometry);
        let buffer = self.buffer.part_mut(0, longest);
        match write_parts(
            &mut self.machine,
            &self.geometry,
            self.at,
            &batch,
            clean,
            buffer,
        ) {
            Ok((at, used)) => {
                self.at = at;
                UnitAnswer::Written { used: used as u32 }
            }
            Err(Failed) => UnitAnswer::DiskFault,
        }
    }

    /// Writes the blocks of the tables at the log's head, in parts that end no unit, and then the next record, which
    /// names their addresses and from which an empty chain starts. It takes from `rec` the tertiary serial, the format
    /// and the volumes. `clean` is as for a unit.
    ///
    /// A stop at any moment leaves the old record with its cut chain, or the new one with its table blocks and the empty
    /// chain. After `DiskFault` the log is not to be written again.
    pub fn checkpoint(
        &mut self,
        alloc: Global,
        tables: &[Block],
        rec: &Record,
        clean: &[u32],
    ) -> UnitAnswer
        requires clean { AreClean self.old.geometry self.old.at.head.seg clean.now }
        requires segments { length clean.now < 2 ^ 32 }
        requires tables { length tables.now ≡ table_blocks self.old.geometry }
        requires rec { IsOf self.old.geometry rec.now }
        ensures crash { let given = given_by self.old.rec.number rec.now in
            Runs (M.history self.old.machine) (M.history self.new.machine)
            (Checkpoints self.old.geometry self.old.at clean.now given
            (bytes_of_tables tables.now)) }
        ensures silent { Runs (M.history self.old.machine)
            (M.history self.new.machine) SaysNothing }
        ensures ends { let given = given_by self.old.rec.number rec.now in
            CheckpointEnds M.history M.faults M.write_faults clean.now given
            (bytes_of_tables tables.now) self.old self.new result }
        ensures geometry { self.new.geometry ≡ self.old.geometry }
        ensures blocks { M.blocks self.new.machine ≡ M.blocks self.old.machine }
        ensures faults { M.faults self.old.machine ≤ M.faults self.new.machine }
        ensures write_faults { M.write_faults self.old.machine ≤ M.write_faults self.new.machine }
        ensures say_faults { M.say_faults self.new.machine ≡ M.say_faults self.old.machine }
    {
        let draft = match self.draft(alloc, tables.len(), rec, clean) {
            Err(AllocError) => return UnitAnswer::Memory,
            Ok(None) => return UnitAnswer::LogFull,
            Ok(Some(draft)) => draft,
        };
        let longest = longest_part(&self.geometry);
        let buffer = self.buffer.part_mut(0, longest);
        match write_checkpoint(
            &mut self.machine,
            &self.geometry,
            self.at,
            draft,
            tables,
            clean,
            buffer,
        ) {
            Ok((new, used)) => {
                self.at = restarted(&new);
                self.rec = new;
                UnitAnswer::Written { used: used as u32 }
            }
            Err(Failed) => UnitAnswer::DiskFault,
        }
    }

    /// What the next record takes from the caller, with the addresses of so many table blocks. None where there are too
    /// few clean segments.
    fn draft(
        &self,
        alloc: Global,
        tables: usize,
        rec: &Record,
        clean: &[u32],
    ) -> Result<Option<Draft>, AllocError>
        requires { AreClean self.now.geometry self.now.at.head.seg clean.now }
        ensures { let given = given_by self.now.rec.number rec.now in
            IfOk result (Drafts self.now.geometry self.now.at.head clean.now tables given) }
    {
        let addresses = plan(alloc, &self.geometry, self.at.head, tables, 0, clean)?;
        match addresses {
            None => Ok(None),
            Some(addresses) => Ok(Some(Draft {
                number: self.rec.number,
                tseg_serial: rec.tseg_serial,
                format: rec.format,
                volumes: rec.volumes.copy(alloc)?,
                tables: Numbers::of(addresses),
            })),
        }
    }

    /// Reads blocks of the machine from `at` on, as many as `out` has.
    pub fn read(&mut self, at: u32, out: &mut [u8]) -> Result<(), Failed>
        requires whole { IsWhole out.old }
        requires within { at + length out.old / 4096 ≤ M.blocks self.old.machine }
        ensures did { Adds (M.history self.old.machine) (M.history self.new.machine)
            (DidRead result) }
        ensures bytes { OnOk result (ForSome (M.history self.old.machine)
            (λ h. HoldsAt (content h) at out.new)) }
        ensures rest { RestStays M.history self.old self.new }
        ensures same { self.new ≡ with_machine self.old self.new.machine }
        ensures blocks { M.blocks self.new.machine ≡ M.blocks self.old.machine }
        ensures faults { HasCause (M.faults self.old.machine) (M.faults self.new.machine) result }
        ensures write_faults { M.write_faults self.new.machine ≡ M.write_faults self.old.machine }
        ensures say_faults { M.say_faults self.new.machine ≡ M.say_faults self.old.machine }
    {
        self.machine.read(at, out)
    }

    /// Reads one block of the site.
    pub fn read_block(&mut self, at: u32, out: &mut [u8]) -> Result<(), Failed>
        requires size { length out.old ≡ 4096 }
        requires within { at < site_blocks self.old.geometry }
        ensures bytes { OnOk result (Now (M.history self.old.machine) (λ s. s.content at ≡ out.new)) }
        ensures size { length out.new ≡ 4096 }
        ensures machine { OnlyReads M.history M.blocks M.faults M.write_faults M.say_faults
            self.old.machine self.new.machine }
        ensures fault { HasCause (M.faults self.old.machine) (M.faults self.new.machine) result }
        ensures same { self.new ≡ with_machine self.old self.new.machine }
    {
        self.machine.read(at, out)
    }

    /// Writes blocks of lines from `at` on. What is pending there disturbs no part of the log.
    pub fn write(&mut self, at: u32, bytes: &[u8]) -> Result<(), Failed>
        requires whole { IsWhole bytes.now }
        requires lines { log_end self.old.geometry ≤ at }
        requires within { at + length bytes.now / 4096 ≤ site_blocks self.old.geometry }
        ensures did { Adds (M.history self.old.machine) (M.history self.new.machine)
            (DidWrite at bytes.now result) }
        ensures rest { RestStays M.history self.old self.new }
        ensures same { self.new ≡ with_machine self.old self.new.machine }
        ensures blocks { M.blocks self.new.machine ≡ M.blocks self.old.machine }
        ensures faults { HasCause (M.faults self.old.machine) (M.faults self.new.machine) result }
        ensures write_faults { HasCause (M.write_faults self.old.machine)
            (M.write_faults self.new.machine) result }
        ensures say_faults { M.say_faults self.new.machine ≡ M.say_faults self.old.machine }
    {
        self.machine.write(at, bytes)
    }

    /// Makes all writes so far last.
    pub fn sync(&mut self) -> Result<(), Failed>
        ensures did { Adds (M.history self.old.machine) (M.history self.new.machine)
            (DidSync result) }
        ensures rest { RestStays M.history self.old self.new }
        ensures same { self.new ≡ with_machine self.old self.new.machine }
        ensures blocks { M.blocks self.new.machine ≡ M.blocks self.old.machine }
        ensures faults { HasCause (M.faults self.old.machine) (M.faults self.new.machine) result }
        ensures write_faults { HasCause (M.write_faults self.old.machine)
            (M.write_faults self.new.machine) result }
        ensures say_faults { M.say_faults self.new.machine ≡ M.say_faults self.old.machine }
    {
        self.machine.sync()
    }

    /// Says the bytes. Where it fails, some first part of them is said.
    pub fn say(&mut self, bytes: &[u8]) -> Result<(), Failed>
        ensures did { Adds (M.history self.old.machine) (M.history self.new.machine)
            (DidSay bytes.now result) }
        ensures rest { RestStays M.history self.old self.new }
        ensures same { self.new ≡ with_machine self.old self.new.machine }
        ensures blocks { M.blocks self.new.machine ≡ M.blocks self.old.machine }
        ensures faults { M.faults self.new.machine ≡ M.faults self.old.machine }
        ensures write_faults { M.write_faults self.new.machine ≡ M.write_faults self.old.machine }
        ensures say_faults { HasCause (M.say_faults self.old.machine)
            (M.say_faults self.new.machine) result }
    {
        self.machine.say(bytes)
    }

    /// The machine, lent.
    pub fn machine(&self) -> &M
        ensures { result.now ≡ self.now.machine }
    {
        &self.machine
    }

    /// The machine back. It calls no device.
    pub fn into_machine(self) -> M
        ensures { result ≡ self.machine }
    {
        self.machine
    }
}

/// The position of a log that was just opened.
fn opened_at(rec: &Record, head: (u32, u32), serial: u64) -> Position
    ensures { result ≡ opened_at rec.now (record { seg = head.0; block = head.1 }) serial }
{
    Position {
        start: LogPlace {
            seg: rec.seg,
            block: rec.block,
        },
        first: rec.serial,
        head: LogPlace {
            seg: head.0,
            block: head.1,
        },
        serial,
        fresh: true,
    }
}
