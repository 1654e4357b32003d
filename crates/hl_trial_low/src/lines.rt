//! Which lines are read, and which are bad.

use hl_script::{BadLine, Line, read_line, read_user_line};
use hl_tree::Call;
use std::alloc::{AllocError, Global};
use std::test::*;

fn call_name(call: &Call) -> &'static str {
    match call {
        Call::Mkdir { .. } => "mkdir",
        Call::Create { .. } => "create",
        Call::Write { .. } => "write",
        Call::Cut { .. } => "cut",
        Call::Read { .. } => "read",
        Call::Stat { .. } => "stat",
        Call::List { .. } => "list",
        Call::Unlink { .. } => "unlink",
        Call::Rmdir { .. } => "rmdir",
        Call::Rename { .. } => "rename",
        Call::Sync => "sync",
    }
}

fn line_name(line: &Line) -> &'static str {
    match line {
        Line::File(call) => call_name(call),
        Line::Rank { .. } => "rank",
        Line::Stage { .. } => "stage",
        Line::Copy => "copy",
        Line::Fetch { .. } => "fetch",
        Line::Move { .. } => "move",
        Line::End { .. } => "end",
        Line::Eject { .. } => "eject",
        Line::Clean => "clean",
        Line::Checkpoint => "checkpoint",
    }
}

/// The kind of line that the text is, `bad`, or `memory`.
fn kind_read(alloc: Global, text: &[u8]) -> &'static str {
    match read_line(alloc, text) {
        Ok(line) => line_name(&line),
        Err(BadLine::Bad) => "bad",
        Err(BadLine::Memory) => "memory",
    }
}

#[test]
fn each_kind_of_line_is_read_within_its_ranges(rt: HostRuntime) {
    let rows = [
        ("mkdir /a/b", "mkdir"),
        ("create /~!", "create"),
        ("write / 0 00", "write"),
        ("write /a 18446744073709551615 0aff", "write"),
        ("write /a 18446744073709551616 00", "bad"),
        ("write /a 0 ", "bad"),
        ("write /a 0 0", "bad"),
        ("write /a 0 0A", "bad"),
        ("write /a 0 0g", "bad"),
        ("cut /a 18446744073709551615", "cut"),
        ("cut /a 01", "bad"),
        ("read /a 0 18446744073709551615", "read"),
        ("read /a 0 18446744073709551616", "bad"),
        ("stat /", "stat"),
        ("list /", "list"),
        ("unlink /a", "unlink"),
        ("rmdir /a", "rmdir"),
        ("rename /a /b/c", "rename"),
        ("sync", "sync"),
        ("sync ", "bad"),
        (" sync", "bad"),
        ("Sync", "bad"),
        ("", "bad"),
        ("rank 0", "bad"),
        ("rank 1", "rank"),
        ("rank 1000", "rank"),
        ("rank 1001", "bad"),
        ("stage", "bad"),
        ("stage /a", "stage"),
        ("stage /a  /b", "bad"),
        ("copy", "copy"),
        ("fetch /a 4294967295", "fetch"),
        ("fetch /a 4294967296", "bad"),
        ("move 18446744073709551615", "move"),
        ("end 0", "end"),
        ("end -1", "bad"),
        ("eject 4294967295", "eject"),
        ("eject 4294967296", "bad"),
        ("clean", "clean"),
        ("checkpoint", "checkpoint"),
        ("stat a", "bad"),
        ("stat //a", "bad"),
        ("stat /a/", "bad"),
        ("stat /a%20", "bad"),
        ("stat /\u{7f}", "bad"),
    ];
    for (text, want) in rows {
        assert_eq!(rt; kind_read(rt.alloc(), text.as_bytes()), want, "at {text}");
    }
}

/// The kind of the line that begins so and goes on with so many bytes `0`.
fn kind_of_long(alloc: Global, front: &[u8], zeros: usize) -> Result<&'static str, AllocError> {
    let mut text = Vec::from_slice(alloc, front)?;
    text.resize(front.len().saturating_add(zeros), b'0')?;
    Ok(kind_read(alloc, &text))
}

#[test]
fn a_write_of_more_than_65536_bytes_is_a_line(rt: HostRuntime) -> Result<(), AllocError> {
    for (zeros, want) in [(131_072, "write"), (131_074, "write"), (131_073, "bad")] {
        assert_eq!(rt; kind_of_long(rt.alloc(), b"write /a 0 ", zeros)?, want);
    }
    Ok(())
}

#[test]
fn from_1_to_64_paths_are_staged(rt: HostRuntime) -> Result<(), AllocError> {
    let alloc = rt.alloc();
    for (count, want) in [(1, "stage"), (64, "stage"), (65, "bad")] {
        let mut text = Vec::from_slice(alloc, b"stage")?;
        for _ in 0..count {
            text.extend_from_slice(b" /a")?;
        }
        assert_eq!(rt; kind_read(alloc, &text), want);
    }
    Ok(())
}

#[test]
fn users_are_1_to_8(rt: HostRuntime) {
    let rows = [
        ("1 sync", 1),
        ("8 read /a 0 1", 8),
        ("0 sync", 0),
        ("9 sync", 0),
        ("01 sync", 0),
        ("1  sync", 0),
        ("1 copy", 0),
        ("1", 0),
    ];
    for (text, want) in rows {
        let user = match read_user_line(rt.alloc(), text.as_bytes()) {
            Ok((user, _)) => user,
            Err(_) => 0,
        };
        assert_eq!(rt; user, want, "at {text}");
    }
}
