//! The lines of an input in pieces.

use hl_mem::MemSource;
use hl_script::{LineFault, Lines};
use std::alloc::{AllocError, Global};
use std::process::Abort;
use std::test::*;

/// Checks the lines of an input in pieces, whose read of this number fails and 0 is none: each with
/// a bar behind it, and then `end`, `input` or `long`.
fn gives(
    rt: &impl Abort,
    alloc: Global,
    input: &[u8],
    (piece, failing): (usize, u64),
    limit: u64,
    want: &str,
) -> Result<(), AllocError> {
    let mut source = MemSource::new(Vec::from_slice(alloc, input)?, piece.max(1));
    source.fail_call(alloc, failing)?;
    let mut lines = Lines::new(alloc, limit)?;
    let mut line = Vec::new(alloc);
    let mut all = Vec::new(alloc);
    for _ in 0..9 {
        match lines.next(alloc, &mut source, &mut line) {
            Ok(true) => {
                all.extend_from_slice(&line)?;
                all.push(b'|')?;
            }
            Ok(false) => {
                all.extend_from_slice(b"end")?;
                break;
            }
            Err(LineFault::Input) => all.extend_from_slice(b"input ")?,
            Err(LineFault::TooLong) => {
                all.extend_from_slice(b"long")?;
                break;
            }
            Err(LineFault::Memory) => return Err(AllocError),
        }
    }
    assert_eq!(rt; all.as_slice(), want.as_bytes());
    Ok(())
}

#[test]
fn lines_are_the_same_in_any_pieces(rt: HostRuntime) -> Result<(), AllocError> {
    let alloc = rt.alloc();
    for piece in [1, 7, 5_000] {
        let at = (piece, 0);
        gives(&rt, alloc, b"", at, 0, "end")?;
        gives(
            &rt,
            alloc,
            b"copy\n\nclean\nsync",
            at,
            99,
            "copy||clean|sync|end",
        )?;
        gives(&rt, alloc, b"copy\n", at, 5, "copy|end")?;
        gives(&rt, alloc, b"copy\nx", at, 5, "copy|long")?;
        gives(&rt, alloc, b"copy\nsync\n", at, 9, "copy|long")?;
        gives(&rt, alloc, b"copy\nsync", at, 9, "copy|sync|end")?;
        gives(
            &rt,
            alloc,
            b"copy\nsync\n",
            (piece, 2),
            99,
            if piece == 1 {
                "input copy|sync|end"
            } else if piece == 7 {
                "copy|input sync|end"
            } else {
                "copy|sync|input end"
            },
        )?;
    }
    Ok(())
}

#[test]
fn a_line_has_at_most_140_000_bytes(rt: HostRuntime) -> Result<(), AllocError> {
    let alloc = rt.alloc();
    for (length, want) in [(140_000usize, Ok(true)), (140_001, Err(LineFault::TooLong))] {
        let mut input = vec![in alloc; b'x'; length]?;
        input.push(b'\n')?;
        let mut source = MemSource::new(input, 100_000);
        let mut lines = Lines::new(alloc, u64::MAX)?;
        let mut line = Vec::new(alloc);
        let found = lines.next(alloc, &mut source, &mut line);
        assert!(rt; found == want);
        assert_eq!(rt; line.len() == length, want.is_ok());
    }
    Ok(())
}
