//! Saving a tree: its dump goes into the half that isn't the newest record's, and its record follows.

ghost use Rattle.std.specs.Prelude.{◌≡◌, ◌≤◌, ◌<◌, ◌+◌, ◌-◌, ◌^◌, Err, OnOk};
ghost use Rattle.hl_media.specs.Causes.{HasCause, Rose};
ghost use Rattle.hl_media.specs.Moments.{Ends, Runs};
ghost use Rattle.hl_dump.specs.Dumps.{HasDump};
ghost use Rattle.hl_disk.specs.Packs.{IsPacked};
ghost use Rattle.hl_disk.specs.Saves.{HasSaved, IsSaving};

use crate::dump::{Packed, pack};
use crate::place::{place_of, start_of};
use crate::record::encode_record;
use hl_bytes::BLOCK;
use hl_media::{Failed, Machine, write_synced};
use hl_tree::PlainTree;
use std::alloc::Global;

/// Why a tree isn't saved.
#[derive(Clone, Copy, Debug, PartialEq, Eq)]
pub enum SaveError {
    /// A write or a sync failed.
    Disk,
    /// Memory was wanting, before anything was written.
    Memory,
}

/// Writes a dump and syncs, and then its record and syncs: until the record is under way a stop leaves what was there.
fn put<M: Machine>(
    machine: &mut M,
    dump: &Packed,
    number: u64,
    files: &PlainTree,
) -> Result<(), Failed>
    requires room { 2112 ≤ M.blocks machine.old }
    requires numbered { number < 2 ^ 64 - 1 }
    requires packed { IsPacked (number + 1) files.now.tree dump.now.record dump.now.bytes.items }
    ensures saved { OnOk result (Ends (M.history machine.old) (M.history machine.new) (HasSaved (M.blocks machine.old) number files.now.tree)) }
    ensures saving { Runs (M.history machine.old) (M.history machine.new) (IsSaving (M.blocks machine.old) number files.now.tree) }
    ensures blocks { M.blocks machine.new ≡ M.blocks machine.old }
    ensures faults { HasCause (M.faults machine.old) (M.faults machine.new) result }
    ensures write_faults { HasCause (M.write_faults machine.old) (M.write_faults machine.new) result }
    ensures say_faults { M.say_faults machine.new ≡ M.say_faults machine.old }
{
    let mut block = [0; BLOCK];
    encode_record(&dump.record, &mut block);
    let start = start_of(number + 1);
    let place = place_of(number + 1);
    let bytes = dump.bytes.as_slice();
    write_synced(machine, start, bytes)?;
    write_synced(machine, place, &block)
}

/// Saves a tree under the number after `number`, which is the newest record's. A stop at any moment leaves the tree
/// from before or this one, whole. Takes all its memory before the first write: `Memory` leaves the disk as it was.
pub fn save<M: Machine>(
    alloc: Global,
    machine: &mut M,
    number: u64,
    files: &PlainTree,
) -> Result<(), SaveError>
    requires room { 2112 ≤ M.blocks machine.old }
    requires numbered { number < 2 ^ 64 - 1 }
    requires dumped { HasDump files.now.tree }
    ensures saved { OnOk result (Ends (M.history machine.old) (M.history machine.new) (HasSaved (M.blocks machine.old) number files.now.tree)) }
    ensures saving { Runs (M.history machine.old) (M.history machine.new) (IsSaving (M.blocks machine.old) number files.now.tree) }
    ensures memory { result ≡ Err SaveError.Memory → (M.history machine.new ≡ M.history machine.old) × (M.faults machine.new ≡ M.faults machine.old) × (M.write_faults machine.new ≡ M.write_faults machine.old) }
    ensures disk { result ≡ Err SaveError.Disk → Rose (M.faults machine.old) (M.faults machine.new) × Rose (M.write_faults machine.old) (M.write_faults machine.new) }
    ensures kept { OnOk result ((M.faults machine.new ≡ M.faults machine.old) × (M.write_faults machine.new ≡ M.write_faults machine.old)) }
    ensures later { (M.faults machine.old ≤ M.faults machine.new) × (M.write_faults machine.old ≤ M.write_faults machine.new) }
    ensures blocks { M.blocks machine.new ≡ M.blocks machine.old }
    ensures say_faults { M.say_faults machine.new ≡ M.say_faults machine.old }
{
    match pack(alloc, number + 1, files) {
        Ok(dump) => match put(machine, &dump, number, files) {
            Ok(()) => Ok(()),
            Err(Failed) => Err(SaveError::Disk),
        },
        Err(_) => Err(SaveError::Memory),
    }
}
