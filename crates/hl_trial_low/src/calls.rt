//! Worked examples of the file rules: scripts whose lines are read, done on a tree and answered.

use hl_script::{Line, Said, print_answer, read_line};
use hl_tree::{Limits, PlainTree};
use std::alloc::{AllocError, Global};
use std::process::Abort;
use std::test::*;

/// A tree of at most so many nodes.
fn tree_of(alloc: Global, nodes: u32) -> Result<PlainTree, AllocError> {
    let limits = Limits {
        nodes: nodes.max(1),
        bytes: 4_243_456,
    };
    PlainTree::new(alloc, limits)
}

/// What a line is answered on a tree.
fn answer(alloc: Global, tree: &mut PlainTree, line: &[u8]) -> Result<Vec<u8>, AllocError> {
    let mut text = Vec::new(alloc);
    let Ok(Line::File(call)) = read_line(alloc, line) else {
        return Err(AllocError);
    };
    let said = Said::Reply(tree.call(alloc, &call));
    if said.is_memory() {
        return Err(AllocError);
    }
    print_answer(alloc, &said, &mut text)?;
    text.pop();
    Ok(text)
}

/// Checks the answers to lines, one after another, on the root alone.
fn answers(
    rt: &impl Abort,
    alloc: Global,
    nodes: u32,
    rows: &[(&str, &str)],
) -> Result<(), AllocError> {
    let mut tree = tree_of(alloc, nodes)?;
    for (line, want) in rows {
        let said = answer(alloc, &mut tree, line.as_bytes())?;
        assert_eq!(rt; said.as_slice(), want.as_bytes(), "at {line}");
    }
    Ok(())
}

#[test]
fn each_rule_has_its_place(rt: HostRuntime) -> Result<(), AllocError> {
    let rows = [
        ("mkdir /d", "ok"),
        ("rename /d /d/e", "err EINVAL"),
        ("create /a", "ok"),
        ("rename /a /a", "ok"),
        ("create /d/x", "ok"),
        ("rmdir /d", "err ENOTEMPTY"),
        ("rename /d /", "err ENOTEMPTY"),
        ("unlink /d", "err EISDIR"),
        ("cut /a 3", "ok"),
        ("read /a 0 9", "data 000000"),
        ("stat /d", "dir 1"),
        ("sync", "ok"),
    ];
    answers(&rt, rt.alloc(), 511, &rows)
}

#[test]
fn a_folder_moves_with_what_is_in_it(rt: HostRuntime) -> Result<(), AllocError> {
    let rows = [
        ("mkdir /m", "ok"),
        ("mkdir /m/n", "ok"),
        ("create /m/n/f", "ok"),
        ("write /m/n/f 2 6869", "ok"),
        ("create /a", "ok"),
        ("mkdir /z", "ok"),
        ("rename /a /m", "err EISDIR"),
        ("rename /m /a", "err ENOTDIR"),
        ("rename /m/n /m", "err ENOTEMPTY"),
        ("rename /m /z", "ok"),
        ("read /z/n/f 0 99", "data 00006869"),
        ("rename /z/n /0", "ok"),
        ("stat /0/f", "file 4"),
        ("rename /0/f /a", "ok"),
        ("list /", "names 0 a z"),
    ];
    answers(&rt, rt.alloc(), 7, &rows)
}

#[test]
fn limits_are_reached_and_not_passed(rt: HostRuntime) -> Result<(), AllocError> {
    let rows = [
        ("create /a", "ok"),
        ("create /b", "err EINODES"),
        ("mkdir /b", "err EINODES"),
        ("write /a 9999999 00", "err EFBIG"),
        ("write /a 4243455 07", "ok"),
        ("write /a 4243456 07", "err EFBIG"),
        ("cut /a 4243457", "err EFBIG"),
        ("cut /a 4243456", "ok"),
        ("read /a 4243454 9", "data 0007"),
        ("cut /a 1", "ok"),
        ("read /a 0 9", "data 00"),
        ("rename /a /b", "ok"),
        ("create /a", "err EINODES"),
        ("unlink /b", "ok"),
        ("create /b", "ok"),
    ];
    answers(&rt, rt.alloc(), 2, &rows)
}

/// A line with so many digits behind its front.
fn with_digits(alloc: Global, front: &str, digits: usize) -> Result<Vec<u8>, AllocError> {
    let mut line = Vec::from_slice(alloc, front.as_bytes())?;
    line.resize(line.len().saturating_add(digits), b'0')?;
    Ok(line)
}

#[test]
fn a_write_has_at_most_65536_bytes(rt: HostRuntime) -> Result<(), AllocError> {
    let alloc = rt.alloc();
    let mut tree = tree_of(alloc, 2)?;
    let rows = [
        ("create /", 1, "ok"),
        ("write /0 9 ", 131_074, "err EINVAL"),
        ("write /0 9 ", 131_072, "ok"),
        ("stat /", 1, "file 65545"),
    ];
    for (front, digits, want) in rows {
        let line = with_digits(alloc, front, digits)?;
        let said = answer(alloc, &mut tree, &line)?;
        assert_eq!(rt; said.as_slice(), want.as_bytes(), "at {front}");
    }
    Ok(())
}

/// A line with a path of names of these lengths between its front and its back.
fn with_path(
    alloc: Global,
    (front, lengths, back): (&str, &[usize], &str),
) -> Result<Vec<u8>, AllocError> {
    let mut line = Vec::from_slice(alloc, front.as_bytes())?;
    for length in lengths {
        line.push(b'/')?;
        line.resize(line.len().saturating_add(*length), b'0')?;
    }
    line.extend_from_slice(back.as_bytes())?;
    Ok(line)
}

#[test]
fn long_names_are_refused_first(rt: HostRuntime) -> Result<(), AllocError> {
    let alloc = rt.alloc();
    let mut tree = tree_of(alloc, 9)?;
    let rows: [((&str, &[usize], &str), &str); 8] = [
        (("mkdir ", &[255], ""), "ok"),
        (("stat ", &[256], ""), "err ENAMETOOLONG"),
        (("list ", &[10; 93], ""), "err ENOENT"),
        (("rmdir ", &[10; 94], ""), "err ENAMETOOLONG"),
        (("create ", &[255, 255, 255, 254], ""), "err ENOENT"),
        (("create ", &[255; 4], ""), "err ENAMETOOLONG"),
        (("rename ", &[256], " /a"), "err ENAMETOOLONG"),
        (("rename /a ", &[256], ""), "err ENAMETOOLONG"),
    ];
    for (line, want) in rows {
        let line = with_path(alloc, line)?;
        let said = answer(alloc, &mut tree, &line)?;
        assert_eq!(rt; said.as_slice(), want.as_bytes());
    }
    Ok(())
}
