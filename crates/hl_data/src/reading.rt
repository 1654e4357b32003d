//! Reading.

ghost use Rattle.std.specs.Prelude.{◌≤◌};
ghost use Rattle.hl_log.specs.Logs.{OnlyReads};
ghost use Rattle.hl_tree.specs.declared.call.Call.TheVariants as calls;
ghost use Rattle.hl_store.specs.Shapes.{IsNumber};
ghost use Rattle.hl_calls.specs.Calls.{MakesCall};
ghost use Rattle.hl_data.specs.ByNumber.{DoesWork, reading};

use crate::file::{file_at, touch_lines};
use hl_calls::{FILE_MAX, FileStep};
use hl_media::Machine;
use hl_ranges::{Needed, RangeStep, read_needs, read_range};
use hl_store::Store;
use hl_tree::{List, Path, Reply};
use std::alloc::Global;

/// Up to `len` bytes of the file at a path from `at` on, and at most 32,768: fewer where the file ends before. It is used then.
pub fn read<M: Machine>(
    store: &mut Store<M>,
    alloc: Global,
    now: u64,
    path: &Path,
    at: u64,
    len: u64,
) -> FileStep
    ensures made { MakesCall M.history M.faults store.old store.new now
        (calls.Read path.now at len) result }
    ensures machine { OnlyReads M.history M.blocks M.faults M.write_faults M.say_faults
        store.old.log.machine store.new.log.machine }
{
    let number = match file_at(store, alloc, path) {
        Ok(number) => number,
        Err(halt) => return FileStep::halted(halt),
    };
    read_from(store, alloc, now, number, at.min(FILE_MAX), len)
}

/// Reads bytes of a file, if what they need is at hand.
fn read_from<M: Machine>(
    store: &mut Store<M>,
    alloc: Global,
    now: u64,
    number: u32,
    at: u64,
    len: u64,
) -> FileStep
    requires number { IsNumber store.old number }
    requires at { at ≤ 4243456 }
    ensures work { DoesWork M.history M.faults store.old store.new number
        (reading now at len) result }
    ensures machine { OnlyReads M.history M.blocks M.faults M.write_faults M.say_faults
        store.old.log.machine store.new.log.machine }
{
    let mut tsegs = Vec::new(alloc);
    match read_needs(store, alloc, number, at, len, &mut tsegs) {
        Needed::AtHand => {}
        Needed::Missing(tseg) => return FileStep::Needs(tseg),
        Needed::DiskFault => return FileStep::DiskFault,
        Needed::Memory => return FileStep::Memory,
    }
    let mut bytes = Vec::new(alloc);
    match read_range(store, alloc, number, at, len, &mut bytes) {
        RangeStep::Done => {}
        RangeStep::DiskFault => return FileStep::DiskFault,
        RangeStep::Memory => return FileStep::Memory,
    }
    touch_lines(store, tsegs.as_slice());
    store.touch(number, now);
    FileStep::Done(Reply::Data(List::of(bytes)))
}
