//! The tables of a site.

ghost use Rattle.std.specs.Prelude.{◌≡◌, ◌+◌, ◌-◌, ◌*◌, ◌<◌, ◌≤◌, ◌↔◌, ℕ, Bool, true, false, List, IsTrue, All, length, slice_get, slice_set, sum, Some, IfOk};
ghost use Rattle.hl_addr.specs.Layout.{table_blocks_of};

use crate::entries::{write_flags, write_numbers, write_slots};
use crate::reading::{read_flags, read_full, read_numbers, read_slots};
use hl_addr::{Geometry, NOTHING};
use hl_bytes::{BlockRecord, TableRecord};
use hl_tseg::{Slot, TsegTable};
use std::alloc::{AllocError, Global};
use std::marker::Model;

/// The inode map, the states of the log segments, the slots of the volumes and the full volumes.
/// They take memory when they are made, and never again.
#[derive(Debug, Drop)]
pub struct Tables {
    k: u32,
    inodes: Vec<u32>,
    used: Vec<bool>,
    slots: TsegTable,
}

impl Model for Tables {
    ghost use Rattle.hl_tables.specs.Values.{TableValues, IsWithinLimits};

    ghost Value = { TableValues };

    ghost view = { λ t. record { k = t.k; inodes = t.inodes.items; used = t.used.items; slots = t.slots } };

    ghost invariant = { λ t. IsWithinLimits (record { k = t.k; inodes = t.inodes.items; used = t.used.items; slots = t.slots }) };
}

/// The index that a block record gives an inode's own block.
const INODE_BLOCK: u32 = 4_294_967_295;

impl Tables {
    ghost use Rattle.std.specs.Borrow.{sem};
    ghost use Rattle.hl_tables.specs.Values.{IsWithinLimits, SameShape, fresh};
    ghost use Rattle.hl_tables.specs.Laying.{HasInode, HasTarget, block_laid, changed, laid};
    ghost use Rattle.hl_tables.specs.TableBlocks.{IsTableBlock, in_blocks, inode_part, used_part, slot_part, full_part, inode_blocks, used_blocks, slot_blocks, table_block, tables_bytes};
    ghost use Rattle.hl_bytes.specs.Fields.{le32, written};
    ghost use Rattle.hl_bytes.specs.Runs.{run_bytes};
    ghost use Rattle.hl_bytes.specs.Buffers.{block_of};
    ghost use Rattle.hl_tseg.specs.SlotTable.{IsSlotTable};
    ghost use Rattle.hl_tseg.specs.declared.slot.Slot.{Slot};
    ghost use Rattle.hl_tables.specs.Entries.{flag_bytes, slot_bytes};
    ghost use Rattle.hl_tables.specs.Lending.{LendsSlots};

    /// The tables of a site in which nothing is yet: each inode lies at Nothing, no log segment is
    /// used, all slots are free, and no volume is full.
    pub fn new(alloc: Global, geometry: &Geometry) -> Result<Tables, AllocError>
        ensures { IfOk result (λ tables. tables ≡ fresh geometry.now) }
    {
        let inodes = vec![in alloc; NOTHING; geometry.inodes as usize]?;
        let used = vec![in alloc; false; geometry.log as usize]?;
        let slots = TsegTable::new(alloc, geometry)?;
        Ok(Tables {
            k: geometry.k,
            inodes,
            used,
            slots,
        })
    }

    /// The address of an inode's block, 4,294,967,295 where the number isn't in use.
    pub fn inode(&self, ino: u32) -> u32
        requires { ino < length self.now.inodes }
        ensures value { slice_get self.now.inodes ino ≡ Some result }
        ensures limits { IsWithinLimits self.now }
    {
        self.inodes[ino as usize]
    }

    /// Says where an inode's block lies.
    pub fn set_inode(&mut self, ino: u32, addr: u32)
        requires { ino < length self.old.inodes }
        ensures { self.new ≡ record self.old { inodes = slice_set self.old.inodes ino addr } }
    {
        self.inodes[ino as usize] = addr;
    }

    /// Whether a log segment, numbered from 1, is used.
    pub fn used(&self, seg: u32) -> bool
        requires from_1 { 1 ≤ seg }
        requires exists { seg ≤ length self.now.used }
        ensures { slice_get self.now.used (seg - 1) ≡ Some result }
    {
        self.used[seg as usize - 1]
    }

    /// Says whether a log segment, numbered from 1, is used.
    pub fn set_used(&mut self, seg: u32, used: bool)
        requires from_1 { 1 ≤ seg }
        requires exists { seg ≤ length self.old.used }
        ensures { self.new ≡ record self.old { used = slice_set self.old.used (seg - 1) used } }
    {
        self.used[seg as usize - 1] = used;
    }

    /// The slots of the volumes.
    pub fn slots(&self) -> &TsegTable
        ensures { result.now ≡ self.now.slots }
    {
        &self.slots
    }

    /// The slots of the volumes, for changes. The tables end with what was made of them.
    pub fn slots_mut(&mut self) -> &mut TsegTable
        ensures* writes_back { sem 𝓛 (LendsSlots self.entry result) }
        ensures value { result.now ≡ self.old.slots }
    {
        &mut self.slots
    }

    /// The number of blocks that the tables fill.
    pub fn blocks(&self) -> u32
        ensures { result ≡ table_blocks_of (length self.now.used) (length self.now.inodes) (sum self.now.slots.volumes) }
    {
        self.inode_blocks() + self.used_blocks() + self.slot_blocks() + 1
    }

    /// Writes table block `i` (`docs/FORMATS.md`, "Tables").
    pub fn write_block(&self, i: u32, out: &mut [u8])
        requires exists { i < table_blocks_of (length self.now.used) (length self.now.inodes) (sum self.now.slots.volumes) }
        requires size { length out.old ≡ 4096 }
        ensures block { out.new ≡ table_block self.now i }
        ensures limits { IsWithinLimits self.now × IsSlotTable self.now.slots }
    {
        let used = self.inode_blocks();
        let slots = used + self.used_blocks();
        let full = slots + self.slot_blocks();
        if i < used {
            write_numbers(&self.inodes, i, out);
        } else if i < slots {
            write_flags(&self.used, i - used, out);
        } else if i < full {
            write_slots(self.slots.items(), i - slots, out);
        } else {
            write_flags(self.slots.full(), i - full, out);
        }
    }

    /// Reads table block `i` into the tables. False exactly where no tables of this site have these
    /// bytes there; then nothing changes.
    pub fn read_block(&mut self, i: u32, bytes: &[u8]) -> bool
        requires exists { i < table_blocks_of (length self.old.used) (length self.old.inodes) (sum self.old.slots.volumes) }
        requires size { length bytes.now ≡ 4096 }
        ensures read { IsTrue result → tables_bytes self.new ≡ written (tables_bytes self.old) (4096 * i) bytes.now }
        ensures shape { SameShape self.old self.new }
        ensures kept { result ≡ false → self.new ≡ self.old }
        ensures grammar { IsTrue result ↔ IsTableBlock self.old i bytes.now }
    {
        let used = self.inode_blocks();
        let slots = used + self.used_blocks();
        let full = slots + self.slot_blocks();
        if i < used {
            self.read_inode_block(i, bytes)
        } else if i < slots {
            self.read_used_block(i - used, bytes)
        } else if i < full {
            self.read_slot_block(i - slots, bytes)
        } else {
            self.read_full_block(bytes)
        }
    }

    /// Lays a part of the log over the tables (`docs/FORMATS.md`, "Tables"). The part has its data
    /// blocks in log segment `seg`, from block `first` on: `first` is the block behind its summary.
    pub fn lay(&mut self, seg: u32, first: u32, blocks: &[BlockRecord], tables: &[TableRecord])
        requires seg { seg ≤ length self.old.used }
        requires room { first + length blocks.now ≤ self.old.k }
        requires inodes { All (HasInode self.old) blocks.now }
        requires targets { All (HasTarget self.old) tables.now }
        ensures value { self.new ≡ laid self.old seg first blocks.now tables.now }
        ensures shape { SameShape self.old self.new }
    {
        let start = seg * self.k + first;
        'blocks: for (i, block) in blocks.iter().enumerate() {
            self.lay_block(start + i as u32, block);
        }
        'changes: for change in tables {
            self.apply(change);
        }
    }

    /// The blocks of the inode map.
    fn inode_blocks(&self) -> u32
        ensures value { result ≡ inode_blocks self.now }
        ensures few { result ≤ 512 }
        ensures limits { IsWithinLimits self.now }
    {
        (4 * self.inodes.len() as u32).div_ceil(4096)
    }

    /// The blocks of the states of the log segments.
    fn used_blocks(&self) -> u32
        ensures value { result ≡ used_blocks self.now }
        ensures few { result ≤ 512 }
    {
        (4 * self.used.len() as u32).div_ceil(4096)
    }

    /// The blocks of the slots.
    fn slot_blocks(&self) -> u32
        ensures value { result ≡ slot_blocks self.now }
        ensures few { result ≤ 512 }
        ensures sizes { IsSlotTable self.now.slots }
    {
        (16 * self.slots.items().len() as u32).div_ceil(4096)
    }

    /// Reads a block of the inode map.
    fn read_inode_block(&mut self, block: u32, bytes: &[u8]) -> bool
        requires size { length bytes.now ≡ 4096 }
        requires exists { block < inode_blocks self.old }
        ensures only { self.new ≡ record self.old { inodes = self.new.inodes } }
        ensures count { length self.new.inodes ≡ length self.old.inodes }
        ensures read { IsTrue result → inode_part self.new ≡ written (inode_part self.old) (4096 * block) bytes.now }
        ensures kept { result ≡ false → self.new ≡ self.old }
        ensures grammar { (xs : List ℕ) → length xs ≡ length self.old.inodes → block_of (in_blocks (run_bytes le32 xs)) block ≡ bytes.now → result ≡ true }
    {
        read_numbers(&mut self.inodes, block, bytes)
    }

    /// Reads a block of the states of the log segments.
    fn read_used_block(&mut self, block: u32, bytes: &[u8]) -> bool
        requires size { length bytes.now ≡ 4096 }
        requires exists { block < used_blocks self.old }
        ensures only { self.new ≡ record self.old { used = self.new.used } }
        ensures count { length self.new.used ≡ length self.old.used }
        ensures read { IsTrue result → used_part self.new ≡ written (used_part self.old) (4096 * block) bytes.now }
        ensures kept { result ≡ false → self.new ≡ self.old }
        ensures grammar { (xs : List Bool) → length xs ≡ length self.old.used → block_of (in_blocks (run_bytes flag_bytes xs)) block ≡ bytes.now → result ≡ true }
    {
        read_flags(&mut self.used, block, bytes)
    }

    /// Reads a block of the slots.
    fn read_slot_block(&mut self, block: u32, bytes: &[u8]) -> bool
        requires size { length bytes.now ≡ 4096 }
        requires exists { block < slot_blocks self.old }
        ensures only { self.new ≡ record self.old { slots = record self.old.slots { slots = self.new.slots.slots } } }
        ensures count { length self.new.slots.slots ≡ length self.old.slots.slots }
        ensures read { IsTrue result → slot_part self.new ≡ written (slot_part self.old) (4096 * block) bytes.now }
        ensures kept { result ≡ false → self.new ≡ self.old }
        ensures grammar { (xs : List Slot) → length xs ≡ length self.old.slots.slots → block_of (in_blocks (run_bytes slot_bytes xs)) block ≡ bytes.now → result ≡ true }
    {
        read_slots(&mut self.slots, block, bytes)
    }

    /// Reads the block of the volumes.
    fn read_full_block(&mut self, bytes: &[u8]) -> bool
        requires { length bytes.now ≡ 4096 }
        ensures only { self.new ≡ record self.old { slots = record self.old.slots { full = self.new.slots.full } } }
        ensures count { length self.new.slots.full ≡ length self.old.slots.full }
        ensures read { IsTrue result → full_part self.new ≡ written (full_part self.old) (4096 * 0) bytes.now }
        ensures kept { result ≡ false → self.new ≡ self.old }
        ensures grammar { (xs : List Bool) → length xs ≡ length self.old.slots.full → block_of (in_blocks (run_bytes flag_bytes xs)) 0 ≡ bytes.now → result ≡ true }
    {
        read_full(&mut self.slots, bytes)
    }

    /// Lays a block that lies at an address over the tables.
    fn lay_block(&mut self, addr: u32, block: &BlockRecord)
        requires { HasInode self.old block.now }
        ensures value { self.new ≡ block_laid self.old addr block.now }
        ensures shape { SameShape self.old self.new }
    {
        if block.index == INODE_BLOCK {
            self.set_inode(block.ino, addr);
        }
    }

    /// Applies a table record.
    fn apply(&mut self, change: &TableRecord)
        requires { HasTarget self.old change.now }
        ensures value { self.new ≡ changed self.old change.now }
        ensures shape { SameShape self.old self.new }
    {
        let serial = change.serial;
        match change.kind {
            1 => self.set_inode(change.a, NOTHING),
            2 => self.slots.set(
                change.a,
                Slot::Staged {
                    line: change.b,
                    serial,
                },
            ),
            3 => self.slots.set(change.a, Slot::Home { serial }),
            4 => self.slots.set(change.a, Slot::Spoilt),
            5 => self.slots.mark_full(change.a),
            _ => {}
        }
    }
}
