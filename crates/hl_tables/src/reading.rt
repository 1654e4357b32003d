//! Blocks of entries that are read. Each is refused where no entries are spelled by it.

ghost use Rattle.std.specs.Prelude.{◌≡◌, ◌↔◌, ℕ, ◌+◌, ◌*◌, ◌<◌, ◌≤◌, ◌^◌, Bool, true, false, List, IsTrue, All, length};
ghost use Rattle.hl_bytes.specs.Fields.{le32, u32_at, written};
ghost use Rattle.hl_bytes.specs.Runs.{run_bytes, run_at};
ghost use Rattle.hl_bytes.specs.Pages.{plain_page};
ghost use Rattle.hl_bytes.specs.Buffers.{block_of};
ghost use Rattle.hl_tseg.specs.declared.slot.Slot.{Slot};
ghost use Rattle.hl_tables.specs.Entries.{flag_bytes, flag_at, slot_bytes, slot_entry_at, slot_in_fields};
ghost use Rattle.hl_tables.specs.TableBlocks.{in_blocks};

use crate::entries::{put_flags, put_slots};
use hl_bytes::{BLOCK, end_plain_page, get_numbers, get_u32, get_u64, put_numbers};
use hl_tseg::{Slot, TsegTable};

#[tactic(auto, unfolding(crate::specs::Entries::flag_at))]
fn flag_at(bytes: &[u8], at: usize) -> bool
    requires { at + 4 ≤ length bytes.now }
    ensures { result ≡ flag_at at bytes.now }
{
    get_u32(bytes, at) == 1
}

/// The slot of a state; another state is refused by its spelling.
fn slot_in_fields(state: u32, line: u32, serial: u64) -> Slot
    ensures { result ≡ slot_in_fields state line serial }
{
    match state {
        1 => Slot::Staged { line, serial },
        2 => Slot::Home { serial },
        3 => Slot::Spoilt,
        _ => Slot::Free,
    }
}

#[tactic(auto, unfolding(crate::specs::Entries::slot_entry_at))]
fn slot_entry_at(bytes: &[u8], at: usize) -> Slot
    requires { at + 16 ≤ length bytes.now }
    ensures { result ≡ slot_entry_at at bytes.now }
{
    slot_in_fields(
        get_u32(bytes, at),
        get_u32(bytes, at + 4),
        get_u64(bytes, at + 8),
    )
}

fn get_flags(bytes: &[u8], at: usize, out: &mut [bool])
    requires { at + 4 * length out.old ≤ length bytes.now }
    ensures { out.new ≡ run_at flag_at 4 at (length out.old) bytes.now }
{
    'get: for i in 0..out.len() {
        out[i] = flag_at(bytes, at + 4 * i);
    }
}

fn get_slots(bytes: &[u8], at: usize, out: &mut [Slot])
    requires { at + 16 * length out.old ≤ length bytes.now }
    ensures { out.new ≡ run_at slot_entry_at 16 at (length out.old) bytes.now }
{
    'get: for i in 0..out.len() {
        out[i] = slot_entry_at(bytes, at + 16 * i);
    }
}

/// Reads numbers, and says whether they and zeros are all that the block has.
fn numbers_in(bytes: &[u8], count: usize, out: &mut [u32]) -> bool
    requires size { length bytes.now ≡ 4096 }
    requires count { length out.old ≡ count }
    requires few { 4 * count ≤ 4096 }
    ensures candidate { out.new ≡ run_at u32_at 4 0 count bytes.now }
    ensures spelled { IsTrue result ↔ (bytes.now ≡ plain_page (run_bytes le32 out.new)) }
{
    get_numbers(bytes, 0, out);
    let mut own = [0; BLOCK];
    put_numbers(&mut own, 0, out);
    end_plain_page(&mut own, 4 * count);
    bytes == own.as_slice()
}

/// Reads flags, and says whether they and zeros are all that the block has.
fn flags_in(bytes: &[u8], count: usize, out: &mut [bool]) -> bool
    requires size { length bytes.now ≡ 4096 }
    requires count { length out.old ≡ count }
    requires few { 4 * count ≤ 4096 }
    ensures candidate { out.new ≡ run_at flag_at 4 0 count bytes.now }
    ensures spelled { IsTrue result ↔ (bytes.now ≡ plain_page (run_bytes flag_bytes out.new)) }
{
    get_flags(bytes, 0, out);
    let mut own = [0; BLOCK];
    put_flags(&mut own, 0, out);
    end_plain_page(&mut own, 4 * count);
    bytes == own.as_slice()
}

/// Reads what slots hold, and says whether that and zeros are all that the block has.
fn slots_in(bytes: &[u8], count: usize, out: &mut [Slot]) -> bool
    requires size { length bytes.now ≡ 4096 }
    requires count { length out.old ≡ count }
    requires few { 16 * count ≤ 4096 }
    ensures candidate { out.new ≡ run_at slot_entry_at 16 0 count bytes.now }
    ensures spelled { IsTrue result ↔ (bytes.now ≡ plain_page (run_bytes slot_bytes out.new)) }
{
    get_slots(bytes, 0, out);
    let mut own = [0; BLOCK];
    put_slots(&mut own, 0, out);
    end_plain_page(&mut own, 16 * count);
    bytes == own.as_slice()
}

/// Reads a block of the numbers into them.
pub(crate) fn read_numbers(numbers: &mut [u32], block: u32, bytes: &[u8]) -> bool
    requires size { length bytes.now ≡ 4096 }
    requires exists { 4096 * block < 4 * length numbers.old }
    ensures read { IsTrue result → in_blocks (run_bytes le32 numbers.new) ≡ written (in_blocks (run_bytes le32 numbers.old)) (4096 * block) bytes.now }
    ensures kept { result ≡ false → numbers.new ≡ numbers.old }
    ensures grammar { (xs : List ℕ) → length xs ≡ length numbers.old → block_of (in_blocks (run_bytes le32 xs)) block ≡ bytes.now → result ≡ true }
    ensures fit { All (λ number. number < 2 ^ 32) numbers.new }
{
    let from = 1024 * block as usize;
    let count = (numbers.len() - from).min(1024);
    let mut whole = [0; 1024];
    let run = &mut whole[..count];
    let spelled = numbers_in(bytes, count, run);
    if spelled {
        numbers[from..from + count].copy_from_slice(run);
    }
    spelled
}

/// Reads a block of the flags into them.
pub(crate) fn read_flags(flags: &mut [bool], block: u32, bytes: &[u8]) -> bool
    requires size { length bytes.now ≡ 4096 }
    requires exists { 4096 * block < 4 * length flags.old }
    ensures read { IsTrue result → in_blocks (run_bytes flag_bytes flags.new) ≡ written (in_blocks (run_bytes flag_bytes flags.old)) (4096 * block) bytes.now }
    ensures kept { result ≡ false → flags.new ≡ flags.old }
    ensures grammar { (xs : List Bool) → length xs ≡ length flags.old → block_of (in_blocks (run_bytes flag_bytes xs)) block ≡ bytes.now → result ≡ true }
{
    let from = 1024 * block as usize;
    let count = (flags.len() - from).min(1024);
    let mut whole = [false; 1024];
    let run = &mut whole[..count];
    let spelled = flags_in(bytes, count, run);
    if spelled {
        flags[from..from + count].copy_from_slice(run);
    }
    spelled
}

/// Reads a block of what slots hold into them.
pub(crate) fn read_slots(slots: &mut TsegTable, block: u32, bytes: &[u8]) -> bool
    requires size { length bytes.now ≡ 4096 }
    requires exists { 4096 * block < 16 * length slots.old.slots }
    ensures only { slots.new ≡ record slots.old { slots = slots.new.slots } }
    ensures count { length slots.new.slots ≡ length slots.old.slots }
    ensures read { IsTrue result → in_blocks (run_bytes slot_bytes slots.new.slots) ≡ written (in_blocks (run_bytes slot_bytes slots.old.slots)) (4096 * block) bytes.now }
    ensures kept { result ≡ false → slots.new ≡ slots.old }
    ensures grammar { (xs : List Slot) → length xs ≡ length slots.old.slots → block_of (in_blocks (run_bytes slot_bytes xs)) block ≡ bytes.now → result ≡ true }
{
    let all = slots.items().len();
    let from = 256 * block;
    let count = (all - from as usize).min(256);
    let mut whole = [Slot::Free; 256];
    let run = &mut whole[..count];
    let spelled = slots_in(bytes, count, run);
    if spelled {
        slots.set_run(from, run);
    }
    spelled
}

/// Reads the block of the volumes.
pub(crate) fn read_full(slots: &mut TsegTable, bytes: &[u8]) -> bool
    requires { length bytes.now ≡ 4096 }
    ensures only { slots.new ≡ record slots.old { full = slots.new.full } }
    ensures count { length slots.new.full ≡ length slots.old.full }
    ensures read { IsTrue result → in_blocks (run_bytes flag_bytes slots.new.full) ≡ written (in_blocks (run_bytes flag_bytes slots.old.full)) (4096 * 0) bytes.now }
    ensures kept { result ≡ false → slots.new ≡ slots.old }
    ensures grammar { (xs : List Bool) → length xs ≡ length slots.old.full → block_of (in_blocks (run_bytes flag_bytes xs)) 0 ≡ bytes.now → result ≡ true }
{
    let count = slots.full().len();
    let mut whole = [false; 32];
    let flags = &mut whole[..count];
    flags.copy_from_slice(slots.full());
    let spelled = read_flags(flags, 0, bytes);
    if spelled {
        slots.set_full(flags);
    }
    spelled
}
