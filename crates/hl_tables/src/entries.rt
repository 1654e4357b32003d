//! The entries of the tables, in blocks that end with zeros (`docs/FORMATS.md`, "Tables").

ghost use Rattle.std.specs.Prelude.{◌≡◌, ◌+◌, ◌*◌, ◌<◌, ◌≤◌, ◌++◌, length, take};
ghost use Rattle.hl_bytes.specs.Fields.{written};
ghost use Rattle.hl_bytes.specs.Runs.{run_bytes, numbers32};
ghost use Rattle.hl_bytes.specs.Buffers.{block_of};
ghost use Rattle.hl_tables.specs.Entries.{flag_code, flag_bytes, slot_bytes, state_field, line_field, serial_field};
ghost use Rattle.hl_tables.specs.TableBlocks.{in_blocks};

use hl_bytes::{end_plain_page, put_numbers, put_u32, put_u64};
use hl_tseg::Slot;

fn flag_code(flag: bool) -> u32
    ensures { result ≡ flag_code flag }
{
    if flag { 1 } else { 0 }
}

fn state_field(slot: Slot) -> u32
    ensures { result ≡ state_field slot }
{
    match slot {
        Slot::Free => 0,
        Slot::Staged { .. } => 1,
        Slot::Home { .. } => 2,
        Slot::Spoilt => 3,
    }
}

fn line_field(slot: Slot) -> u32
    ensures { result ≡ line_field slot }
{
    match slot {
        Slot::Staged { line, .. } => line,
        _ => 0,
    }
}

fn serial_field(slot: Slot) -> u64
    ensures { result ≡ serial_field slot }
{
    match slot {
        Slot::Staged { serial, .. } | Slot::Home { serial } => serial,
        _ => 0,
    }
}

/// Writes what a slot holds into the 16 bytes from `at` on.
fn put_slot(bytes: &mut [u8], at: usize, slot: Slot)
    requires { at + 16 ≤ length bytes.old }
    ensures { bytes.new ≡ written bytes.old at (slot_bytes slot) }
{
    put_u32(bytes, at, state_field(slot));
    put_u32(bytes, at + 4, line_field(slot));
    put_u64(bytes, at + 8, serial_field(slot));
}

/// Writes what slots hold, one after the other, from `at` on.
pub(crate) fn put_slots(bytes: &mut [u8], at: usize, slots: &[Slot])
    requires { at + 16 * length slots.now ≤ length bytes.old }
    ensures { take (at + 16 * length slots.now) bytes.new ≡ take at bytes.old ++ run_bytes slot_bytes slots.now }
{
    'put: for (i, slot) in slots.iter().enumerate() {
        put_slot(bytes, at + 16 * i, *slot);
    }
}

/// Writes flags, one after the other, from `at` on.
pub(crate) fn put_flags(bytes: &mut [u8], at: usize, flags: &[bool])
    requires { at + 4 * length flags.now ≤ length bytes.old }
    ensures { take (at + 4 * length flags.now) bytes.new ≡ take at bytes.old ++ run_bytes flag_bytes flags.now }
{
    'put: for (i, flag) in flags.iter().enumerate() {
        put_u32(bytes, at + 4 * i, flag_code(*flag));
    }
}

/// Writes a block of the numbers.
pub(crate) fn write_numbers(numbers: &[u32], block: u32, out: &mut [u8])
    requires size { length out.old ≡ 4096 }
    requires exists { 4096 * block < 4 * length numbers.now }
    ensures { out.new ≡ block_of (in_blocks (numbers32 numbers.now)) block }
{
    let from = 1024 * block as usize;
    let count = (numbers.len() - from).min(1024);
    put_numbers(out, 0, &numbers[from..from + count]);
    end_plain_page(out, 4 * count);
}

/// Writes a block of the flags.
pub(crate) fn write_flags(flags: &[bool], block: u32, out: &mut [u8])
    requires size { length out.old ≡ 4096 }
    requires exists { 4096 * block < 4 * length flags.now }
    ensures { out.new ≡ block_of (in_blocks (run_bytes flag_bytes flags.now)) block }
{
    let from = 1024 * block as usize;
    let count = (flags.len() - from).min(1024);
    put_flags(out, 0, &flags[from..from + count]);
    end_plain_page(out, 4 * count);
}

/// Writes a block of what slots hold.
pub(crate) fn write_slots(slots: &[Slot], block: u32, out: &mut [u8])
    requires size { length out.old ≡ 4096 }
    requires exists { 4096 * block < 16 * length slots.now }
    ensures { out.new ≡ block_of (in_blocks (run_bytes slot_bytes slots.now)) block }
{
    let from = 256 * block as usize;
    let count = (slots.len() - from).min(256);
    put_slots(out, 0, &slots[from..from + count]);
    end_plain_page(out, 16 * count);
}
