//! Whether the last blocks of files are zero past the size.

ghost use Rattle.std.specs.Prelude.{◌≡◌, ◌↔◌, ℕ, ◌+◌, ◌<◌, ◌≤◌, List, length, IsTrue, IfOk, IfSome, Some, None};
ghost use Rattle.hl_addr.specs.Slots.{HasSlot, slot_number};
ghost use Rattle.hl_media.specs.Causes.{HasCause};
ghost use Rattle.hl_media.specs.Moments.{Now};
ghost use Rattle.hl_tseg.specs.SlotTable.{slot_at};
ghost use Rattle.hl_tseg.specs.declared.slot.Slot.TheVariants.{Staged};
ghost use Rattle.hl_log.specs.Logs.{OnlyReads, site_blocks};
ghost use Rattle.hl_nodes.specs.Lines.{IsZeroFrom, OnDisk, line_start};
ghost use Rattle.hl_staged.specs.Ends.{HasEnd, IsNonzero, IsOffEnd, IsOffFile, IsStagedAt, TellsNumber};
ghost use Rattle.hl_super.specs.declared.record.Record.{Record};
ghost use Rattle.hl_summary.specs.declared.parts.Summary.{Summary};
ghost use Rattle.hl_tables.specs.Values.{AreTables};
ghost use Rattle.hl_nodes.specs.declared.rule.Rule.TheVariants.{LastBlock};
ghost use Rattle.hl_nodes.specs.Breaks.{Breaks};
ghost use Rattle.hl_survey.specs.Surveys.{ArePointers, AreSurveyed};
ghost use Rattle.std.specs.List.{slice_index_or};
ghost use Rattle.hl_staged.specs.Slots.{HaveLines};
ghost use Rattle.hl_nodes.specs.Telling.{Tells};

use crate::lines::line_start;
use hl_addr::{Geometry, Place};
use hl_bytes::{BLOCK, is_zero};
use hl_inode::Kind;
use hl_media::{Failed, Machine};
use hl_survey::FoundInode;
use hl_tables::Tables;
use hl_tseg::{Slot, TsegTable};

/// What a slot holds.
fn held_slot(geometry: &Geometry, slots: &TsegTable, volume: u32, slot: u32) -> Slot
    requires exists { HasSlot geometry.now.volumes volume slot }
    requires slots { slots.now.volumes ≡ geometry.now.volumes }
    ensures { result ≡ slot_at slots.now (slot_number geometry.now.volumes volume slot) }
{
    slots.items()[geometry.tseg_of(volume, slot) as usize]
}

/// The block of the disk where a block of a slot's segment lies, where the slot is staged.
fn staged_block(geometry: &Geometry, slot: Slot, position: u32) -> Option<u32>
    requires line { (line serial : ℕ) → slot ≡ Staged line serial → line < geometry.now.lines }
    requires position { position < geometry.now.k }
    ensures place { (block : ℕ) → (result ≡ Some block)
        ↔ IsStagedAt geometry.now slot position block }
    ensures within { IfSome result (λ block. block < site_blocks geometry.now) }
{
    match slot {
        Slot::Staged { line, .. } => Some(line_start(geometry, line) + position),
        _ => None,
    }
}

/// The block of the disk where what a pointer names lies, in the log or in a staged line.
fn place_on_disk(geometry: &Geometry, slots: &TsegTable, pointer: u32) -> Option<u32>
    requires slots { slots.now.volumes ≡ geometry.now.volumes }
    requires lines { HaveLines geometry.now slots.now }
    ensures place { (block : ℕ) → (result ≡ Some block)
        ↔ OnDisk geometry.now slots.now pointer block }
    ensures within { IfSome result (λ block. block < site_blocks geometry.now) }
{
    match geometry.class(pointer) {
        Place::Log { .. } => Some(pointer),
        Place::Tertiary {
            volume,
            slot,
            block,
        } => staged_block(geometry, held_slot(geometry, slots, volume, slot), block),
        _ => None,
    }
}

/// Whether the bytes of a block are zero from a place on.
fn is_zero_from(bytes: &[u8], from: usize) -> bool
    requires size { length bytes.now ≡ 4096 }
    requires within { from ≤ 4096 }
    ensures { IsTrue result ↔ IsZeroFrom from bytes.now }
{
    is_zero(bytes, from, BLOCK)
}

/// A block of the disk, where it isn't zero from a place on.
fn nonzero_block<M: Machine>(machine: &mut M, at: u32, from: usize) -> Result<Option<u32>, Failed>
    requires room { at < M.blocks machine.old }
    requires within { from ≤ 4096 }
    ensures told { IfOk result (λ off. Now (M.history machine.old)
        (λ s. Tells (IsNonzero s.content at from) off)) }
    ensures machine { OnlyReads M.history M.blocks M.faults M.write_faults M.say_faults
        machine.old machine.new }
    ensures fault { HasCause (M.faults machine.old) (M.faults machine.new) result }
{
    let mut block = [0; BLOCK];
    machine.read(at, &mut block)?;
    if is_zero_from(&block, from) {
        Ok(None)
    } else {
        Ok(Some(at))
    }
}

/// The last block of a file of this size, where it lies on the disk and isn't zero past the size.
fn off_end<M: Machine>(
    machine: &mut M,
    geometry: &Geometry,
    slots: &TsegTable,
    size: u64,
    pointer: u32,
) -> Result<Option<u32>, Failed>
    requires room { site_blocks geometry.now ≤ M.blocks machine.old }
    requires slots { slots.now.volumes ≡ geometry.now.volumes }
    requires lines { HaveLines geometry.now slots.now }
    ensures told { IfOk result (λ off. Now (M.history machine.old)
        (λ s. Tells (IsOffEnd geometry.now slots.now s.content size pointer) off)) }
    ensures machine { OnlyReads M.history M.blocks M.faults M.write_faults M.say_faults
        machine.old machine.new }
    ensures fault { HasCause (M.faults machine.old) (M.faults machine.new) result }
{
    match place_on_disk(geometry, slots, pointer) {
        Some(at) => nonzero_block(machine, at, (size % 4096) as usize),
        None => Ok(None),
    }
}

/// The pointer of a file to its last block, where its size doesn't fill that.
fn last_pointer(found: &FoundInode) -> Option<u32>
    ensures { (pointer : ℕ) → (result ≡ Some pointer) ↔ HasEnd found.now pointer }
{
    let size = found.inode.size;
    if size % 4096 == 0 {
        return None;
    }
    match found.inode.kind {
        Kind::File => found
            .pointers
            .as_slice()
            .get((size / 4096) as usize)
            .copied(),
        Kind::Dir => None,
    }
}

/// The last block of a file, where it lies on the disk and isn't zero past the size.
fn off_file<M: Machine>(
    machine: &mut M,
    geometry: &Geometry,
    slots: &TsegTable,
    found: &FoundInode,
) -> Result<Option<u32>, Failed>
    requires room { site_blocks geometry.now ≤ M.blocks machine.old }
    requires slots { slots.now.volumes ≡ geometry.now.volumes }
    requires lines { HaveLines geometry.now slots.now }
    ensures told { IfOk result (λ off. Now (M.history machine.old)
        (λ s. TellsNumber geometry.now slots.now s.content (Some found.now) off)) }
    ensures machine { OnlyReads M.history M.blocks M.faults M.write_faults M.say_faults
        machine.old machine.new }
    ensures fault { HasCause (M.faults machine.old) (M.faults machine.new) result }
{
    match last_pointer(found) {
        Some(pointer) => off_end(machine, geometry, slots, found.inode.size, pointer),
        None => Ok(None),
    }
}

/// The last block of the file of a number, where it lies on the disk and isn't zero past the size.
fn off_number<M: Machine>(
    machine: &mut M,
    geometry: &Geometry,
    slots: &TsegTable,
    found: &[Option<FoundInode>],
    ino: u32,
) -> Result<Option<u32>, Failed>
    requires room { site_blocks geometry.now ≤ M.blocks machine.old }
    requires slots { slots.now.volumes ≡ geometry.now.volumes }
    requires lines { HaveLines geometry.now slots.now }
    ensures told { IfOk result (λ off. Now (M.history machine.old)
        (λ s. TellsNumber geometry.now slots.now s.content (slice_index_or found.now ino None)
        off)) }
    ensures machine { OnlyReads M.history M.blocks M.faults M.write_faults M.say_faults
        machine.old machine.new }
    ensures fault { HasCause (M.faults machine.old) (M.faults machine.new) result }
{
    match found.get(ino as usize) {
        Some(Some(file)) => off_file(machine, geometry, slots, file),
        _ => Ok(None),
    }
}

/// The last block of the first file, by number, whose last block lies in the log or in a staged
/// line and isn't zero past the size, if there is one (`Rule::LastBlock`). It reads one block a
/// file whose size isn't whole blocks. The inodes are those that a survey found on the disk as it
/// is now, and the line of each staged slot is one of the disk, as the rule of slots has it.
pub fn check_ends<M: Machine>(
    machine: &mut M,
    geometry: &Geometry,
    tables: &Tables,
    found: &[Option<FoundInode>],
) -> Result<Option<u32>, Failed>
    requires room { site_blocks geometry.now ≤ M.blocks machine.old }
    requires tables { AreTables geometry.now tables.now }
    requires lines { HaveLines geometry.now tables.now.slots }
    ensures told { IfOk result (λ off. Now (M.history machine.old)
        (λ s. AreSurveyed geometry.now s.content tables.now found.now
        → (rec : Record) (parts : List Summary)
        → Tells (Breaks geometry.now s.content rec parts tables.now LastBlock) off)) }
    ensures fault { HasCause (M.faults machine.old) (M.faults machine.new) result }
    ensures machine { OnlyReads M.history M.blocks M.faults M.write_faults M.say_faults
        machine.old machine.new }
{
    'numbers: for ino in 0..geometry.inodes {
        if let Some(block) = off_number(machine, geometry, tables.slots(), found, ino)? {
            return Ok(Some(block));
        }
    }
    Ok(None)
}
