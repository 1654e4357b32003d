//! Whole commands over devices in memory: runs one after another on a disk, devices that fail, what a stop leaves, disks that
//! are refused, and the limits on a line. A script on a new disk is `hl_ramdisk`'s `stdin`.

use hl_media::Rack;
use hl_mem::{MemClock, MemMachine, MemSource, MemVolume, Tear};
use hl_run::{Ended, highlight};
use std::alloc::{AllocError, Global};
use std::process::Abort;
use std::test::*;

/// The blocks that a disk needs.
const BLOCKS: u32 = 2112;

/// The status of a command of these words, and its machine behind it.
fn command(
    alloc: Global,
    words: &[&str],
    source: MemSource,
    machine: MemMachine,
) -> Result<(u8, MemMachine), AllocError> {
    let mut source = source;
    let mut list = Vec::new(alloc);
    for word in words {
        list.push(String::from_str(alloc, word)?)?;
    }
    let mut clock = MemClock::new(Vec::new(alloc));
    let volumes: Vec<MemVolume> = Vec::new(alloc);
    let Ok(rack) = Rack::new(alloc, volumes) else {
        return Err(AllocError);
    };
    let Ended {
        status,
        machine,
        ..
    } = highlight(alloc, &list, &mut source, machine, rack, &mut clock);
    Ok((status, machine))
}

/// An input in pieces, whose read of this number fails, and 0 is none.
fn source(
    alloc: Global,
    input: &[u8],
    piece: usize,
    failing: u64,
) -> Result<MemSource, AllocError> {
    let mut source = MemSource::new(Vec::from_slice(alloc, input)?, piece.max(1));
    source.fail_call(alloc, failing)?;
    Ok(source)
}

/// A command of these words ends with this status, and its machine says this text.
fn called(
    rt: &impl Abort,
    alloc: Global,
    words: &[&str],
    source: MemSource,
    machine: MemMachine,
    want: (u8, &[u8]),
) -> Result<MemMachine, Fail> {
    let before = machine.said().len();
    let (status, machine) = command(alloc, words, source, machine)?;
    assert_eq!(rt; status, want.0);
    assert!(rt; machine.said().get(before..) == Some(want.1));
    Ok(machine)
}

/// A run over an input ends with this status, and its machine says this text.
fn ran(
    rt: &impl Abort,
    alloc: Global,
    machine: MemMachine,
    input: &[u8],
    want: (u8, &[u8]),
) -> Result<MemMachine, Fail> {
    called(
        rt,
        alloc,
        &["run"],
        source(alloc, input, 64, 0)?,
        machine,
        want,
    )
}

/// A disk that `mkfs` made.
fn made(rt: &impl Abort, alloc: Global) -> Result<MemMachine, Fail> {
    let machine = MemMachine::new(alloc, BLOCKS)?;
    called(
        rt,
        alloc,
        &["mkfs"],
        source(alloc, b"", 1, 0)?,
        machine,
        (0, b"made\n"),
    )
}

/// The machine of an image.
fn machine_of(alloc: Global, image: &[u8]) -> Result<MemMachine, AllocError> {
    if image.len() % 4096 == 0 && image.len() / 4096 < 4_294_967_296 {
        MemMachine::of_image(alloc, image)
    } else {
        Err(AllocError)
    }
}

/// The disk that a stop at this moment may leave.
fn image_at(
    alloc: Global,
    machine: &MemMachine,
    moment: u64,
    tear: Tear,
) -> Result<Vec<u8>, AllocError> {
    if moment <= machine.now() {
        machine.stop_image(alloc, moment, tear)
    } else {
        Err(AllocError)
    }
}

/// The place among these texts of what `list /` says on an image.
fn listed(rt: &impl Abort, alloc: Global, image: &[u8], texts: &[&[u8]]) -> Result<usize, Fail> {
    let input = source(alloc, b"list /\n", 64, 0)?;
    let (status, machine) = command(alloc, &["run"], input, machine_of(alloc, image)?)?;
    assert_eq!(rt; status, 0);
    for (place, text) in texts.iter().enumerate() {
        if are_same(machine.said(), text) {
            return Ok(place);
        }
    }
    panic!(rt; "a tree of no first lines")
}

fn are_same(said: &[u8], text: &[u8]) -> bool {
    said == text
}

/// A line of a run: how many device calls it makes, the last of them to say its answer, and the place of the tree behind
/// it. A line that keeps the files makes more calls than one.
type Step = (u64, usize);

/// The places of the trees behind the last line that is said in whole by the end of so many calls, of which `start` come
/// before the first line, and behind the last of those that keep the files.
fn said_by(calls: u64, start: u64, steps: &[Step]) -> (usize, usize) {
    let mut ended = start;
    let mut said = 0;
    let mut kept = 0;
    for step in steps {
        ended = ended.saturating_add(step.0);
        if ended <= calls {
            said = step.1;
            if step.0 > 1 {
                kept = said;
            }
        }
    }
    (kept, said)
}

/// An image holds the tree of one of these places.
fn holds(
    rt: &impl Abort,
    alloc: Global,
    image: &[u8],
    (least, most): (usize, usize),
    texts: &[&[u8]],
) -> Result<bool, Fail> {
    let place = listed(rt, alloc, image, texts)?;
    Ok(least <= place && place <= most)
}

/// Every image that a stop may leave since the first line holds the files after some number of the lines: no fewer than up
/// to the last that was kept and said by then, and no more than were said. Each of these trees is another.
fn stops(
    rt: &impl Abort,
    alloc: Global,
    machine: &MemMachine,
    (start, steps): (u64, &[Step]),
    texts: &[&[u8]],
) -> Result<(), Fail> {
    for moment in 0..=machine.now() {
        if moment / 2 >= start {
            let places = said_by(moment / 2, start, steps);
            for tear in [Tear::Old, Tear::New, Tear::Prefix(100), Tear::Prefix(2048)] {
                let image = image_at(alloc, machine, moment, tear)?;
                assert!(rt; holds(rt, alloc, &image, places, texts)?, "moment {moment}");
            }
        }
    }
    Ok(())
}

/// The calls that come before the first line: those of `mkfs` and of the mount. Closing makes four.
fn calls_before_lines(rt: &impl Abort, alloc: Global) -> Result<u64, Fail> {
    let empty = ran(rt, alloc, made(rt, alloc)?, b"", (0, b""))?;
    Ok((empty.now() / 2).saturating_sub(4))
}

/// A run: what its input begins with, how many of which byte follow, which read of it fails (0 is none), the status, and what
/// is said.
type Run = (&'static [u8], usize, u8, u64, u8, &'static [u8]);

/// Runs one after another on one disk.
fn days() -> [Run; 5] {
    [
        (
            b"mkdir /d\ncreate /d/n\nwrite /d/n 0 6869\nrename /d/n /d/m\nlist /d\nsync\nread /d/m 0 9\n",
            0,
            0,
            0,
            0,
            b"ok\nok\nok\nok\nnames m\nok\ndata 6869\n",
        ),
        (b"create /b\n?\n", 0, 0, 0, 3, b"ok\nbad line 2\n"),
        (b"create /c\n", 140_001, b'x', 0, 10, b"ok\n"),
        (b"create /e\n", 60, b' ', 2, 7, b"ok\n"),
        (
            b"list /\nread /d/m 0 9\n",
            0,
            0,
            0,
            0,
            b"names b c d e\ndata 6869\n",
        ),
    ]
}

/// Does one of these runs.
fn did(
    rt: &impl Abort,
    alloc: Global,
    machine: MemMachine,
    (script, more, filler, failing, status, says): Run,
) -> Result<MemMachine, Fail> {
    let mut input = Vec::from_slice(alloc, script)?;
    input.resize(script.len().saturating_add(more), filler)?;
    let input = source(alloc, &input, 64, failing)?;
    called(rt, alloc, &["run"], input, machine, (status, says))
}

#[test]
fn a_later_run_finds_what_an_earlier_one_left(rt: HostRuntime) -> Result<(), Fail> {
    let alloc = rt.alloc();
    let mut machine = made(&rt, alloc)?;
    for run in days() {
        machine = did(&rt, alloc, machine, run)?;
    }
    Ok(())
}

/// A device that fails: which call of the machine since the first line, which read of the input, where 0 is none, the status,
/// and what is said.
type Failure = (u64, u64, u8, &'static [u8]);

/// A line is one call, and a sync five, of which the last says its answer. Each read of the input takes ten bytes.
fn failures() -> [Failure; 11] {
    [
        (0, 0, 0, b"ok\nok\nok\n"),
        (0, 1, 7, b""),
        (0, 2, 7, b"ok\n"),
        (1, 0, 6, b"o"),
        (2, 0, 5, b"ok\nerr EIO\n"),
        (3, 0, 5, b"ok\nerr EIO\n"),
        (4, 0, 5, b"ok\nerr EIO\n"),
        (5, 0, 5, b"ok\nerr EIO\n"),
        (6, 0, 6, b"ok\no"),
        (7, 0, 6, b"ok\nok\no"),
        (8, 0, 5, b"ok\nok\nok\n"),
    ]
}

/// Makes the call of this number since the first line fail, and 0 is none.
fn fail_line(
    alloc: Global,
    machine: &mut MemMachine,
    start: u64,
    call: u64,
) -> Result<(), AllocError> {
    if call > 0 {
        machine.fail_call(alloc, start.saturating_add(call))?;
    }
    Ok(())
}

/// A run over a device that fails so.
fn failed(
    rt: &impl Abort,
    alloc: Global,
    start: u64,
    (call, read, status, says): Failure,
) -> Result<(), Fail> {
    let mut machine = made(rt, alloc)?;
    fail_line(alloc, &mut machine, start, call)?;
    let input = source(alloc, b"create /a\nsync\ncreate /b\n", 10, read)?;
    called(rt, alloc, &["run"], input, machine, (status, says))?;
    Ok(())
}

#[test]
fn each_failing_device_has_its_status(rt: HostRuntime) -> Result<(), Fail> {
    let alloc = rt.alloc();
    let start = calls_before_lines(&rt, alloc)?;
    for failure in failures() {
        failed(&rt, alloc, start, failure)?;
    }
    Ok(())
}

/// A run that mounts a disk with one file, where the read of this number fails.
fn failed_to_mount(rt: &impl Abort, alloc: Global, read: u64) -> Result<(), Fail> {
    let disk = ran(rt, alloc, made(rt, alloc)?, b"create /a\n", (0, b"ok\n"))?;
    let image = image_at(alloc, &disk, disk.now(), Tear::Old)?;
    let mut machine = machine_of(alloc, &image)?;
    machine.fail_call(alloc, read)?;
    ran(rt, alloc, machine, b"list /\n", (5, b""))?;
    Ok(())
}

/// Of the label, the two records and the dump.
#[test]
fn each_failing_read_of_the_mount_ends_the_run(rt: HostRuntime) -> Result<(), Fail> {
    let alloc = rt.alloc();
    for read in 1..5 {
        failed_to_mount(&rt, alloc, read)?;
    }
    Ok(())
}

#[test]
fn a_disk_that_fails_keeps_what_was_synced(rt: HostRuntime) -> Result<(), Fail> {
    let alloc = rt.alloc();
    let start = calls_before_lines(&rt, alloc)?;
    let mut machine = made(&rt, alloc)?;
    fail_line(alloc, &mut machine, start, 8)?;
    let script = b"create /a\nsync\ncreate /b\nsync\nlist /\n";
    let want = b"ok\nok\nok\nerr EIO\n";
    let machine = ran(&rt, alloc, machine, script, (5, want))?;
    let steps = [(1, 1), (5, 1), (1, 2)];
    let texts: [&[u8]; 3] = [b"names\n", b"names a\n", b"names a b\n"];
    stops(&rt, alloc, &machine, (start, &steps), &texts)
}

#[test]
fn a_stop_leaves_the_files_after_some_first_lines(rt: HostRuntime) -> Result<(), Fail> {
    let alloc = rt.alloc();
    let start = calls_before_lines(&rt, alloc)?;
    let script = b"create /a\nsync\nrename /a /b\nmkdir /c\nsync\nunlink /b\n";
    let want = b"ok\nok\nok\nok\nok\nok\n";
    let machine = ran(&rt, alloc, made(&rt, alloc)?, script, (0, want))?;
    let steps = [(1, 1), (5, 1), (1, 2), (1, 3), (5, 3), (1, 4)];
    let texts: [&[u8]; 5] = [
        b"names\n",
        b"names a\n",
        b"names b\n",
        b"names b c\n",
        b"names c\n",
    ];
    stops(&rt, alloc, &machine, (start, &steps), &texts)?;
    let image = image_at(alloc, &machine, machine.now(), Tear::Old)?;
    assert!(rt; listed(&rt, alloc, &image, &texts)? == 4);
    Ok(())
}

/// Whether an image has a label whose digest was written.
fn is_labelled(image: &[u8]) -> bool {
    image.get(..8) == Some(b"HLLABEL1".as_slice())
        && image.get(4064..4068) != Some([0; 4].as_slice())
}

/// An image that a stop of `mkfs` left has no label, or it is mounted and holds the root alone; whether it is mounted.
fn is_mounted_or_blank(rt: &impl Abort, alloc: Global, image: &[u8]) -> Result<bool, Fail> {
    if is_labelled(image) {
        assert!(rt; listed(rt, alloc, image, &[b"names\n"])? == 0);
        return Ok(true);
    }
    let machine = machine_of(alloc, image)?;
    ran(rt, alloc, machine, b"", (4, b"no label\n"))?;
    Ok(false)
}

#[test]
fn a_stop_of_mkfs_leaves_no_label_or_the_root(rt: HostRuntime) -> Result<(), Fail> {
    let alloc = rt.alloc();
    let disk = made(&rt, alloc)?;
    let mut mounted = 0;
    for moment in 0..=disk.now() {
        for tear in [Tear::Old, Tear::New, Tear::Prefix(100), Tear::Filled(255)] {
            let image = image_at(alloc, &disk, moment, tear)?;
            if is_mounted_or_blank(&rt, alloc, &image)? {
                mounted = moment;
            }
        }
    }
    assert!(rt; mounted > 8);
    Ok(())
}

/// A command over a disk of one block too few.
fn is_too_small(rt: &impl Abort, alloc: Global, word: &str) -> Result<(), Fail> {
    let machine = MemMachine::new(alloc, BLOCKS - 1)?;
    let input = source(alloc, b"", 1, 0)?;
    let want = (9, b"bad site small 2112\n".as_slice());
    called(rt, alloc, &[word], input, machine, want)?;
    Ok(())
}

/// A new disk with one byte of its only record changed.
fn with_a_changed_record(rt: &impl Abort, alloc: Global) -> Result<MemMachine, Fail> {
    let disk = made(rt, alloc)?;
    let mut image = image_at(alloc, &disk, disk.now(), Tear::Old)?;
    if let Some(byte) = image.as_mut_slice().get_mut(4096 + 20) {
        *byte ^= 1;
    }
    Ok(machine_of(alloc, &image)?)
}

#[test]
fn a_disk_is_refused_by_name(rt: HostRuntime) -> Result<(), Fail> {
    let alloc = rt.alloc();
    is_too_small(&rt, alloc, "mkfs")?;
    is_too_small(&rt, alloc, "run")?;
    let blank = MemMachine::new(alloc, BLOCKS)?;
    ran(&rt, alloc, blank, b"", (4, b"no label\n"))?;
    let changed = with_a_changed_record(&rt, alloc)?;
    ran(&rt, alloc, changed, b"", (4, b"no record\n"))?;
    Ok(())
}

#[test]
fn a_line_has_140000_bytes_at_most_and_a_read_gives_32768(rt: HostRuntime) -> Result<(), Fail> {
    let alloc = rt.alloc();
    let mut line = Vec::new(alloc);
    line.resize(140_000, b'x')?;
    let mut machine = made(&rt, alloc)?;
    machine = ran(&rt, alloc, machine, &line, (3, b"bad line 1\n"))?;
    line.push(b'x')?;
    machine = ran(&rt, alloc, machine, &line, (10, b""))?;
    let mut said = Vec::from_slice(alloc, b"ok\nok\ndata ")?;
    said.resize(65_547, b'0')?;
    said.push(b'\n')?;
    let long = b"create /a\nwrite /a 50000 01\nread /a 0 40000\n";
    ran(&rt, alloc, machine, long, (0, &said))?;
    Ok(())
}

/// The usage line answers these words.
fn is_no_form(rt: &impl Abort, alloc: Global, words: &[&str]) -> Result<(), Fail> {
    let usage = b"usage: highlight mkfs | run | check | make SEED COUNT | crew\n".as_slice();
    let machine = MemMachine::new(alloc, 0)?;
    let input = source(alloc, b"", 1, 0)?;
    called(rt, alloc, words, input, machine, (2, usage))?;
    Ok(())
}

#[test]
fn other_words_are_answered_by_the_usage_line(rt: HostRuntime) -> Result<(), Fail> {
    let alloc = rt.alloc();
    let rows: [&[&str]; 4] = [&[], &["check"], &["run", "run"], &["--help"]];
    for words in rows {
        is_no_form(&rt, alloc, words)?;
    }
    Ok(())
}
