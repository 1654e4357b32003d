//! Lines that are given, each with what it must answer.

use super::{Pair, compare, compare_disk, pair_of};
use hl_script::{Line, Said, print_answer, read_line};
use hl_tree::{Call, List, Path};
use hl_trial::files::{Filed, FilesTrial, Site};
use std::alloc::{AllocError, Global};
use std::process::Abort;
use std::test::*;

/// The call that a line spells.
fn call_of(alloc: Global, line: &str) -> Result<Call, AllocError> {
    match read_line(alloc, line.as_bytes()) {
        Ok(Line::File(call)) => Ok(call),
        _ => Err(AllocError),
    }
}

/// Makes a call on both, and compares the answer with a text.
fn answers_call<T: Filed>(
    rt: &impl Abort,
    alloc: Global,
    pair: &mut Pair<T>,
    line: u64,
    call: &Call,
    want: &str,
) -> Result<(), Fail> {
    let said = match compare(rt, alloc, pair, line, call)? {
        Some(reply) => Said::Reply(reply),
        None => Said::NoSpace,
    };
    assert!(rt; !said.is_memory(), "line {line}");
    let mut text = Vec::new(alloc);
    print_answer(alloc, &said, &mut text)?;
    text.pop();
    assert_eq!(rt; text.as_slice(), want.as_bytes(), "line {line}");
    Ok(())
}

/// Makes lines on both, and compares the answers with texts.
fn answers<T: Filed>(
    rt: &impl Abort,
    alloc: Global,
    pair: &mut Pair<T>,
    rows: &[(&str, &str)],
) -> Result<(), Fail> {
    for (i, (line, want)) in rows.iter().enumerate() {
        let call = call_of(alloc, line)?;
        answers_call(rt, alloc, pair, i as u64, &call, want)?;
    }
    Ok(())
}

/// Makes lines on a new store of a site and beside it, each answered as given, and compares the files of the disk.
fn site_answers<T: Filed + Drop>(
    rt: &impl Abort,
    alloc: Global,
    site: Site,
    rows: &[(&str, &str)],
) -> Result<(), Fail> {
    let mut pair: Pair<T> = pair_of(rt, alloc, site)?;
    answers(rt, alloc, &mut pair, rows)?;
    compare_disk(rt, alloc, &mut pair)
}

#[test]
fn what_is_renamed_takes_the_place_of_what_stands_there(rt: HostRuntime) -> Result<(), Fail> {
    let rows = [
        ("create /a", "ok"),
        ("write /a 0 6161", "ok"),
        ("create /b", "ok"),
        ("rename /a /b", "ok"),
        ("read /b 0 9", "data 6161"),
        ("stat /a", "err ENOENT"),
        ("mkdir /d", "ok"),
        ("mkdir /e", "ok"),
        ("rename /d /e", "ok"),
        ("rename /b /e", "err EISDIR"),
        ("rename /e /b", "err ENOTDIR"),
        ("rename /b /e/x", "ok"),
        ("mkdir /f", "ok"),
        ("rename /f /e", "err ENOTEMPTY"),
        ("rename /e /e/y", "err EINVAL"),
        ("rename /e /e", "ok"),
        ("rename /e /", "err ENOTEMPTY"),
        ("rename /e/x /", "err EISDIR"),
        ("rename / /g", "err EINVAL"),
        ("mkdir /f/g", "ok"),
        ("rename /e /f/g/deep", "ok"),
        ("read /f/g/deep/x 1 1", "data 61"),
        ("rename /f/g/deep/x /f/g/deep/a", "ok"),
        ("rename /f/g/deep/a/b /z", "err ENOTDIR"),
        ("rename /none /z", "err ENOENT"),
        ("list /", "names f"),
        ("list /f/g/deep", "names a"),
        ("stat /f/g", "dir 1"),
        ("list /f/g/deep/a", "err ENOTDIR"),
    ];
    site_answers::<FilesTrial>(&rt, rt.alloc(), Site::Small, &rows)
}

#[test]
fn a_cut_within_a_block_leaves_zeros_behind_it(rt: HostRuntime) -> Result<(), Fail> {
    let rows = [
        ("create /a", "ok"),
        ("write /a 4094 61626364", "ok"),
        ("stat /a", "file 4098"),
        ("cut /a 4097", "ok"),
        ("cut /a 4100", "ok"),
        ("read /a 4093 9", "data 00616263000000"),
        ("cut /a 4095", "ok"),
        ("write /a 8192 65", "ok"),
        ("read /a 4093 4", "data 00610000"),
        ("read /a 8191 9", "data 0065"),
        ("read /a 8193 9", "data"),
        ("cut /a 0", "ok"),
        ("read /a 0 9", "data"),
        ("write /a 4243455 7a", "ok"),
        ("read /a 4243454 9", "data 007a"),
        ("write /a 4243455 7a7a", "err EFBIG"),
        ("cut /a 4243457", "err EFBIG"),
        ("write / 0 61", "err EISDIR"),
        ("cut /b 0", "err ENOENT"),
        ("read /a/b 0 1", "err ENOTDIR"),
    ];
    site_answers::<FilesTrial>(&rt, rt.alloc(), Site::Small, &rows)
}

#[test]
fn a_free_number_is_given_again(rt: HostRuntime) -> Result<(), Fail> {
    let rows = [
        ("create /a", "ok"),
        ("mkdir /b", "ok"),
        ("create /b/c", "ok"),
        ("create /b/d", "ok"),
        ("create /b/e", "ok"),
        ("mkdir /b/f", "ok"),
        ("create /g", "ok"),
        ("create /h", "ok"),
        ("create /i", "ok"),
        ("create /j", "ok"),
        ("create /k", "err EINODES"),
        ("create /j", "err EEXIST"),
        ("mkdir /b/k", "err EINODES"),
        ("rmdir /b", "err ENOTEMPTY"),
        ("unlink /b", "err EISDIR"),
        ("rmdir /b/c", "err ENOTDIR"),
        ("unlink /b/c", "ok"),
        ("create /k", "ok"),
        ("create /l", "err EINODES"),
        ("rmdir /b/f", "ok"),
        ("mkdir /l", "ok"),
        ("rename /k /g", "ok"),
        ("create /k", "ok"),
        ("stat /", "dir 8"),
    ];
    site_answers::<FilesTrial>(&rt, rt.alloc(), Site::Few, &rows)
}

/// A write of so many bytes.
fn write_of(alloc: Global, name: u8, at: u64, count: usize) -> Result<Call, AllocError> {
    let name = List::of(vec![in alloc; name; 1]?);
    let names = vec![in alloc; name]?;
    let path = Path::new(names).ok_or(AllocError)?;
    let bytes = List::of(vec![in alloc; 120; count]?);
    Ok(Call::Write { path, at, bytes })
}

/// The root, its block, the file and its pointers leave room for 60 blocks of data.
fn fills_the_quota<T: Filed + Drop>(rt: &impl Abort, alloc: Global) -> Result<(), Fail> {
    let mut pair: Pair<T> = pair_of(rt, alloc, Site::Small)?;
    answers(rt, alloc, &mut pair, &[("create /a", "ok")])?;
    for (at, count, want) in [
        (0, 65_536, "ok"),
        (65_536, 65_536, "ok"),
        (131_072, 65_536, "ok"),
        (196_608, 49_153, "err ENOSPC"),
        (196_608, 49_152, "ok"),
        (245_760, 1, "err ENOSPC"),
        (0, 65_536, "ok"),
    ] {
        let call = write_of(alloc, 97, at, count)?;
        answers_call(rt, alloc, &mut pair, at, &call, want)?;
    }
    let rows = [
        ("mkdir /b", "err ENOSPC"),
        ("create /a", "err EEXIST"),
        ("cut /a 300000", "ok"),
        ("rename /a /c", "ok"),
        ("cut /c 245759", "ok"),
        ("create /b", "err ENOSPC"),
        ("cut /c 241664", "ok"),
        ("create /b", "ok"),
        ("write /b 0 61", "err ENOSPC"),
        ("rename /b /c", "ok"),
        ("stat /c", "file 0"),
    ];
    answers(rt, alloc, &mut pair, &rows)?;
    compare_disk(rt, alloc, &mut pair)
}

#[test]
fn the_quota_is_full_to_the_last_block(rt: HostRuntime) -> Result<(), Fail> {
    fills_the_quota::<FilesTrial>(&rt, rt.alloc())
}

/// The name of a number: two letters.
fn name_of(alloc: Global, number: u32) -> Result<List<u8>, AllocError> {
    let mut name = Vec::new(alloc);
    name.push(97 + (number / 26 % 26) as u8)?;
    name.push(97 + (number % 26) as u8)?;
    name.push(97 + (number / 676 % 26) as u8)?;
    Ok(List::of(name))
}

/// The path of a number in a directory `d`.
fn path_of(alloc: Global, number: u32) -> Result<Path, AllocError> {
    let mut names = Vec::new(alloc);
    names.push(List::of(vec![in alloc; 100; 1]?))?;
    names.push(name_of(alloc, number)?)?;
    Path::new(names).ok_or(AllocError)
}

/// A directory of 500 names is renamed, searched and emptied.
fn holds_many<T: Filed + Drop>(rt: &impl Abort, alloc: Global) -> Result<(), Fail> {
    let mut pair: Pair<T> = pair_of(rt, alloc, Site::Wide)?;
    answers(
        rt,
        alloc,
        &mut pair,
        &[("mkdir /d", "ok"), ("mkdir /e", "ok")],
    )?;
    for number in 0..500 {
        let path = path_of(alloc, number)?;
        answers_call(rt, alloc, &mut pair, 5, &Call::Create { path }, "ok")?;
    }
    compare_disk(rt, alloc, &mut pair)?;
    let rows = [
        ("stat /d", "dir 500"),
        ("rename /d /e/f", "ok"),
        ("stat /e/f", "dir 500"),
        ("rename /e/f/zzz /e/zzz", "err ENOENT"),
        ("rename /e /d", "ok"),
        ("rename /d/f /e", "ok"),
        ("rename /e /d", "ok"),
    ];
    answers(rt, alloc, &mut pair, &rows)?;
    for number in 0..250 {
        let path = path_of(alloc, 2 * number)?;
        answers_call(rt, alloc, &mut pair, 7, &Call::Unlink { path }, "ok")?;
    }
    answers(rt, alloc, &mut pair, &[("stat /d", "dir 250")])?;
    compare_disk(rt, alloc, &mut pair)
}

#[test]
fn a_directory_of_many_names_is_changed(rt: HostRuntime) -> Result<(), Fail> {
    holds_many::<FilesTrial>(&rt, rt.alloc())
}
