//! Writing and cutting.

ghost use Rattle.std.specs.Prelude.{◌+◌, ◌<◌, ◌≤◌, IfErr, IfOk, ℕ, length};
ghost use Rattle.hl_log.specs.Logs.{OnlyReads};
ghost use Rattle.hl_tree.specs.declared.call.Call.TheVariants as calls;
ghost use Rattle.hl_store.specs.Shapes.{IsNumber};
ghost use Rattle.hl_store.specs.Finding.{ReadsNodes};
ghost use Rattle.hl_ranges.specs.Writing.{Stops};
ghost use Rattle.hl_calls.specs.Calls.{MakesCall};
ghost use Rattle.hl_data.specs.ByNumber.{DoesWork, TellsOver, cutting, writing};

use crate::file::{file_at, touch_lines};
use hl_calls::{FILE_MAX, FileStep, cut_growth, is_over, write_growth};
use hl_media::Machine;
use hl_ranges::{Needed, RangeStep, cut_needs, cut_range, write_needs, write_range};
use hl_store::Store;
use hl_tree::{List, Path, Refusal, Reply};
use std::alloc::Global;

/// The most bytes that one write takes.
const WRITE_MAX: usize = 65_536;

/// Puts bytes into the file at a path from `at` on, with zeros in a gap. `Einval` comes where there are more than 65,536, and
/// `Efbig` where they would end past 4,243,456. No bytes change nothing.
pub fn write<M: Machine>(
    store: &mut Store<M>,
    alloc: Global,
    now: u64,
    path: &Path,
    at: u64,
    bytes: &List<u8>,
) -> FileStep
    ensures made { MakesCall M.history M.faults store.old store.new now
        (calls.Write path.now at bytes.now) result }
    ensures machine { OnlyReads M.history M.blocks M.faults M.write_faults M.say_faults
        store.old.log.machine store.new.log.machine }
{
    let number = match file_at(store, alloc, path) {
        Ok(number) => number,
        Err(halt) => return FileStep::halted(halt),
    };
    let bytes = bytes.items();
    if WRITE_MAX < bytes.len() {
        return FileStep::Done(Reply::Refused(Refusal::Einval));
    }
    if bytes.is_empty() {
        return FileStep::Done(Reply::Ok);
    }
    if FILE_MAX - (bytes.len() as u64) < at {
        return FileStep::Done(Reply::Refused(Refusal::Efbig));
    }
    write_into(store, alloc, now, number, at, bytes)
}

/// Whether a write makes the charge exceed the quota.
fn is_over_by_write<M: Machine>(
    store: &mut Store<M>,
    alloc: Global,
    number: u32,
    at: u64,
    bytes: &[u8],
) -> Result<bool, RangeStep>
    requires number { IsNumber store.old number }
    requires some { 0 < length bytes.now }
    requires within { at + length bytes.now ≤ 4243456 }
    ensures over { IfOk result (λ over. (now : ℕ)
        → TellsOver M.history store.old number (writing now at bytes.now) over) }
    ensures stops { IfErr result (Stops M.faults store.old store.new) }
    ensures reads { ReadsNodes M.history store.old store.new }
    ensures machine { OnlyReads M.history M.blocks M.faults M.write_faults M.say_faults
        store.old.log.machine store.new.log.machine }
{
    let growth = write_growth(store, alloc, number, at, bytes)?;
    Ok(is_over(store, &growth))
}

/// Puts some bytes into a file, if the quota allows it and what it needs is at hand.
fn write_into<M: Machine>(
    store: &mut Store<M>,
    alloc: Global,
    now: u64,
    number: u32,
    at: u64,
    bytes: &[u8],
) -> FileStep
    requires number { IsNumber store.old number }
    requires some { 0 < length bytes.now }
    requires within { at + length bytes.now ≤ 4243456 }
    ensures work { DoesWork M.history M.faults store.old store.new number
        (writing now at bytes.now) result }
    ensures machine { OnlyReads M.history M.blocks M.faults M.write_faults M.say_faults
        store.old.log.machine store.new.log.machine }
{
    let is_over = match is_over_by_write(store, alloc, number, at, bytes) {
        Ok(is_over) => is_over,
        Err(step) => return FileStep::stopped(step),
    };
    if is_over {
        return FileStep::NoSpace;
    }
    let mut tsegs = Vec::new(alloc);
    match write_needs(store, alloc, number, at, bytes, &mut tsegs) {
        Needed::AtHand => {}
        Needed::Missing(tseg) => return FileStep::Needs(tseg),
        Needed::DiskFault => return FileStep::DiskFault,
        Needed::Memory => return FileStep::Memory,
    }
    match write_range(store, alloc, number, at, bytes, now) {
        RangeStep::Done => {}
        RangeStep::DiskFault => return FileStep::DiskFault,
        RangeStep::Memory => return FileStep::Memory,
    }
    touch_lines(store, tsegs.as_slice());
    // The change has set it already, but only this call tells that the number has a last use.
    store.touch(number, now);
    FileStep::Done(Reply::Ok)
}

/// Gives the file at a path another size, with zeros where it grows. `Efbig` comes where that is above 4,243,456.
pub fn cut<M: Machine>(
    store: &mut Store<M>,
    alloc: Global,
    now: u64,
    path: &Path,
    size: u64,
) -> FileStep
    ensures made { MakesCall M.history M.faults store.old store.new now
        (calls.Cut path.now size) result }
    ensures machine { OnlyReads M.history M.blocks M.faults M.write_faults M.say_faults
        store.old.log.machine store.new.log.machine }
{
    let number = match file_at(store, alloc, path) {
        Ok(number) => number,
        Err(halt) => return FileStep::halted(halt),
    };
    if FILE_MAX < size {
        return FileStep::Done(Reply::Refused(Refusal::Efbig));
    }
    cut_to(store, alloc, now, number, size)
}

/// Whether a cut makes the charge exceed the quota.
fn is_over_by_cut<M: Machine>(
    store: &mut Store<M>,
    alloc: Global,
    number: u32,
    size: u64,
) -> Result<bool, RangeStep>
    requires number { IsNumber store.old number }
    requires size { size ≤ 4243456 }
    ensures over { IfOk result (λ over. (now : ℕ)
        → TellsOver M.history store.old number (cutting now size) over) }
    ensures stops { IfErr result (Stops M.faults store.old store.new) }
    ensures reads { ReadsNodes M.history store.old store.new }
    ensures machine { OnlyReads M.history M.blocks M.faults M.write_faults M.say_faults
        store.old.log.machine store.new.log.machine }
{
    let growth = cut_growth(store, alloc, number, size)?;
    Ok(is_over(store, &growth))
}

/// Gives a file another size, if the quota allows it and what it needs is at hand.
fn cut_to<M: Machine>(
    store: &mut Store<M>,
    alloc: Global,
    now: u64,
    number: u32,
    size: u64,
) -> FileStep
    requires number { IsNumber store.old number }
    requires size { size ≤ 4243456 }
    ensures work { DoesWork M.history M.faults store.old store.new number
        (cutting now size) result }
    ensures machine { OnlyReads M.history M.blocks M.faults M.write_faults M.say_faults
        store.old.log.machine store.new.log.machine }
{
    let is_over = match is_over_by_cut(store, alloc, number, size) {
        Ok(is_over) => is_over,
        Err(step) => return FileStep::stopped(step),
    };
    if is_over {
        return FileStep::NoSpace;
    }
    let mut tsegs = Vec::new(alloc);
    match cut_needs(store, alloc, number, size, &mut tsegs) {
        Needed::AtHand => {}
        Needed::Missing(tseg) => return FileStep::Needs(tseg),
        Needed::DiskFault => return FileStep::DiskFault,
        Needed::Memory => return FileStep::Memory,
    }
    match cut_range(store, alloc, number, size, now) {
        RangeStep::Done => {}
        RangeStep::DiskFault => return FileStep::DiskFault,
        RangeStep::Memory => return FileStep::Memory,
    }
    touch_lines(store, tsegs.as_slice());
    // The change has set it already, but only this call tells that the number has a last use.
    store.touch(number, now);
    FileStep::Done(Reply::Ok)
}
