//! That the devices of the system reach it, and go on where it does less than they ask for; and
//! what a failed call leaves of the devices in memory.

use hl_bytes::SegBuf;
use hl_host::{FileMachine, FileVolume, PositionalFile, StdClock, StdSource};
use hl_media::{Clock, Machine, Source, Volume, Written};
use hl_mem::{MemMachine, MemVolume};
use std::alloc::{AllocError, Global};
use std::fs::File;
use std::io::{Error, ErrorKind};
use std::rt::Stdout;
use std::{fs, io};

/// A file in memory that moves at most a thousand bytes a call; one call fails, and a signal cuts
/// in at each third read or write.
#[derive(Drop)]
struct Grudging {
    bytes: Vec<u8>,
    calls: u64,
    fails_at: u64,
}

impl Grudging {
    // Counts a call, and says whether it is not the one that fails.
    fn count(&mut self) -> io::Result<()> {
        self.calls = self.calls.saturating_add(1);
        if self.calls == self.fails_at {
            return Err(Error::from(ErrorKind::PermissionDenied));
        }
        Ok(())
    }

    // Counts a call that moves bytes, and says whether it goes through.
    fn move_some(&mut self) -> io::Result<()> {
        self.count()?;
        if self.calls % 3 == 0 {
            return Err(Error::from(ErrorKind::Interrupted));
        }
        Ok(())
    }
}

impl PositionalFile for Grudging {
    ghost use Rattle.std.specs.Prelude.{None};

    ghost content = { λ file. None };

    ghost lasting = { λ file. None };

    fn read_from(&mut self, from: u64, out: &mut [u8]) -> io::Result<usize> {
        self.move_some()?;
        let start = self.bytes.len().min(from as usize);
        let count = (self.bytes.len() - start).min(out.len()).min(1_000);
        out[..count].copy_from_slice(&self.bytes[start..start + count]);
        Ok(count)
    }

    fn write_from(&mut self, from: u64, bytes: &[u8]) -> io::Result<usize> {
        self.move_some()?;
        let start = self.bytes.len().min(from as usize);
        let count = (self.bytes.len() - start).min(bytes.len()).min(1_000);
        self.bytes[start..start + count].copy_from_slice(&bytes[..count]);
        Ok(count)
    }

    fn make_last(&mut self) -> io::Result<()> {
        self.count()
    }
}

/// Writes one or two blocks of a byte.
fn write<M: Machine>(machine: &mut M, at: u32, count: u32, byte: u8) -> bool {
    if machine.blocks() < 8 || 6 < at {
        return false;
    }
    if count == 1 {
        machine.write(at, &[byte; 4096]).is_ok()
    } else {
        machine.write(at, &[byte; 8192]).is_ok()
    }
}

/// The first and the last byte of each of two blocks.
fn read<M: Machine>(machine: &mut M, at: u32) -> Option<[u8; 4]> {
    let mut out = [0u8; 8192];
    if machine.blocks() < 8 || 6 < at {
        return None;
    }
    match machine.read(at, &mut out) {
        Ok(()) => Some([out[0], out[4095], out[4096], out[8191]]),
        Err(_) => None,
    }
}

fn sync<M: Machine>(machine: &mut M) -> bool {
    machine.sync().is_ok()
}

fn say<M: Machine>(machine: &mut M, text: &[u8]) -> bool {
    machine.say(text).is_ok()
}

/// How many calls on the disk failed, and how many of them were writes or syncs.
fn faults<M: Machine>(machine: &M) -> (u64, u64) {
    (machine.faults(), machine.write_faults())
}

/// A new file for a test.
fn new_file(rt: HostRuntime, name: &str) -> Option<File> {
    File::options()
        .read(true)
        .write(true)
        .create(true)
        .truncate(true)
        .open(&rt, name)
        .ok()
}

#[test]
fn a_file_keeps_what_was_written(rt: HostRuntime) {
    let name = "hl_host_test_disk.img";
    let mut machine = FileMachine::new(new_file(rt, name), 8, rt.stdout());
    assert!(rt; write(&mut machine, 3, 2, 5));
    assert!(rt; write(&mut machine, 4, 1, 6));
    assert!(rt; sync(&mut machine));
    assert!(rt; read(&mut machine, 3) == Some([5, 5, 6, 6]));
    // The file ends behind block 4.
    assert!(rt; read(&mut machine, 4) == None);
    assert!(rt; faults(&machine) == (1, 0));
    assert!(rt; say(&mut machine, b"said\n"));
    assert!(rt; fs::remove_file(&rt, name).is_ok());
}

/// Writes a segment of two blocks of a byte into a slot.
fn write_slot<V: Volume>(
    alloc: Global,
    volume: &mut V,
    slot: u32,
    byte: u8,
) -> Result<bool, AllocError> {
    let mut from = SegBuf::new(alloc, 2)?;
    if volume.slots() <= slot {
        return Ok(false);
    }
    from.part_mut(0, 2).fill(byte);
    Ok(volume.write_seg(slot, &from) == Ok(Written::Done))
}

/// Reads a slot into so many blocks, which are filled with 9 before: whether it was read, and the
/// last byte.
fn read_slot<V: Volume>(
    alloc: Global,
    volume: &mut V,
    slot: u32,
    blocks: u32,
) -> Result<(bool, u8), AllocError> {
    let mut out = SegBuf::new(alloc, blocks)?;
    if volume.slots() <= slot || blocks == 0 {
        return Ok((false, 0));
    }
    out.part_mut(0, blocks).fill(9);
    let is_read = volume.read_seg(slot, &mut out).is_ok();
    if out.blocks() != blocks {
        return Ok((false, 0));
    }
    Ok((is_read, out.block(blocks - 1)[4095]))
}

#[test]
fn a_volume_keeps_its_slots(rt: HostRuntime) -> Result<(), AllocError> {
    let name = "hl_host_test_volume.img";
    let mut volume = FileVolume::new(new_file(rt, name), 2, 3);
    for (slot, byte) in [(0, 1), (2, 3)] {
        assert!(rt; write_slot(rt.alloc(), &mut volume, slot, byte)?);
    }
    assert!(rt; volume.sync().is_ok());
    for (slot, byte) in [(0, 1), (1, 0), (2, 3)] {
        let found = read_slot(rt.alloc(), &mut volume, slot, 2)?;
        assert_eq!(rt; found, (true, byte), "{slot}");
    }
    assert!(rt; volume.faults() == 0);
    // A segment of another size is none.
    assert_eq!(rt; read_slot(rt.alloc(), &mut volume, 0, 1)?, (false, 9));
    assert!(rt; volume.faults() == 1);
    assert!(rt; fs::remove_file(&rt, name).is_ok());
    Ok(())
}

/// A disk of eight blocks in a file of which the call of this number fails.
fn grudging_machine(
    rt: HostRuntime,
    fails_at: u64,
) -> Result<FileMachine<Grudging, Stdout>, AllocError> {
    let file = Grudging {
        bytes: vec![in rt.alloc(); 9; 32_768]?,
        calls: 0,
        fails_at,
    };
    Ok(FileMachine::new(Some(file), 8, rt.stdout()))
}

#[test]
fn a_short_call_goes_on(rt: HostRuntime) -> Result<(), AllocError> {
    let mut machine = grudging_machine(rt, 0)?;
    assert!(rt; write(&mut machine, 3, 2, 5));
    assert!(rt; write(&mut machine, 4, 1, 6));
    assert!(rt; read(&mut machine, 3) == Some([5, 5, 6, 6]));
    assert!(rt; read(&mut machine, 5) == Some([9, 9, 9, 9]));
    assert!(rt; sync(&mut machine));
    assert!(rt; faults(&machine) == (0, 0));
    Ok(())
}

#[test]
fn a_failed_call_is_counted(rt: HostRuntime) -> Result<(), AllocError> {
    let mut machine = grudging_machine(rt, 4)?;
    assert!(rt; !write(&mut machine, 3, 2, 5));
    assert!(rt; faults(&machine) == (1, 1));
    assert!(rt; read(&mut machine, 3) == Some([5, 9, 9, 9]));
    Ok(())
}

#[test]
fn a_file_that_is_not_there_fails(rt: HostRuntime) -> Result<(), AllocError> {
    let mut machine: FileMachine<File, Stdout> = FileMachine::new(None, 8, rt.stdout());
    assert!(rt; read(&mut machine, 0) == None);
    assert!(rt; !write(&mut machine, 0, 1, 0));
    assert!(rt; !sync(&mut machine));
    assert!(rt; faults(&machine) == (3, 2));
    assert!(rt; say(&mut machine, b"said\n"));
    let mut volume: FileVolume<File> = FileVolume::new(None, 2, 1);
    assert!(rt; !read_slot(rt.alloc(), &mut volume, 0, 2)?.0);
    assert!(rt; !write_slot(rt.alloc(), &mut volume, 0, 0)?);
    assert!(rt; volume.sync().is_err() && volume.faults() == 3);
    Ok(())
}

#[test]
fn an_input_that_is_not_there_fails(rt: HostRuntime) {
    let mut source: StdSource<File> = StdSource::new(None);
    assert!(rt; source.read(&mut [0u8; 64]).is_err());
}

/// How many bytes the last of a thousand reads gave; none are read behind the end.
fn last_read(rt: HostRuntime) -> usize {
    let mut source = StdSource::new(Some(rt.stdin()));
    let mut out = [0u8; 64];
    let mut last = 1usize;
    for _ in 0..1000 {
        if let Ok(count) = source.read(&mut out) {
            last = count;
        }
        if last == 0 {
            break;
        }
    }
    last
}

#[test]
fn standard_input_ends(rt: HostRuntime) {
    assert_eq!(rt; last_read(rt), 0);
}

#[test]
fn the_clock_tells_the_time(rt: HostRuntime) {
    assert!(rt; StdClock::new(rt).now() > 1_000_000_000);
}

/// A disk of eight blocks in memory, of which the second, the fourth and the sixth call fail.
fn failing_machine(alloc: Global) -> Result<MemMachine, AllocError> {
    let mut machine = MemMachine::new(alloc, 8)?;
    for number in [2, 4, 6] {
        machine.fail_call(alloc, number)?;
    }
    Ok(machine)
}

#[test]
fn a_failed_call_leaves_the_blocks_and_says_the_first_half(
    rt: HostRuntime,
) -> Result<(), AllocError> {
    let mut machine = failing_machine(rt.alloc())?;
    assert!(rt; write(&mut machine, 3, 2, 7));
    assert!(rt; !write(&mut machine, 3, 1, 9));
    assert!(rt; read(&mut machine, 3) == Some([7, 7, 7, 7]));
    assert!(rt; !say(&mut machine, b"abcd"));
    assert!(rt; say(&mut machine, b"ef"));
    assert!(rt; !sync(&mut machine));
    assert!(rt; machine.said() == b"abef".as_slice());
    assert!(rt; faults(&machine) == (2, 2));
    Ok(())
}

/// A volume of three slots in memory, of which the second and the third call fail.
fn failing_volume(alloc: Global) -> Result<MemVolume, AllocError> {
    let mut volume = MemVolume::new(alloc, 2, 3, 3)?;
    for number in [2, 3] {
        volume.fail_call(alloc, number)?;
    }
    Ok(volume)
}

#[test]
fn a_failed_call_leaves_the_slot_and_the_buffer(rt: HostRuntime) -> Result<(), AllocError> {
    let mut volume = failing_volume(rt.alloc())?;
    assert!(rt; write_slot(rt.alloc(), &mut volume, 1, 5)?);
    assert!(rt; !write_slot(rt.alloc(), &mut volume, 1, 6)?);
    assert_eq!(rt; read_slot(rt.alloc(), &mut volume, 1, 2)?, (false, 9));
    assert_eq!(rt; read_slot(rt.alloc(), &mut volume, 1, 2)?, (true, 5));
    assert!(rt; volume.faults() == 2);
    Ok(())
}
