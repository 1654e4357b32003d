//! The exact text of each answer.

use hl_media::Mark;
use hl_script::{Said, print_answer};
use hl_tree::{List, Path, Refusal, Reply};
use std::alloc::{AllocError, Global};
use std::process::Abort;
use std::test::*;

/// Checks the answer's text.
fn says(rt: &impl Abort, alloc: Global, said: Said, want: &str) -> Result<(), AllocError> {
    let mut out = Vec::from_slice(alloc, b"before\n")?;
    if said.is_memory() {
        assert!(rt; false);
        return Ok(());
    }
    print_answer(alloc, &said, &mut out)?;
    let text = &out[7.min(out.len())..];
    assert_eq!(rt; text, want.as_bytes());
    Ok(())
}

fn bytes(alloc: Global, text: &[u8]) -> Result<List<u8>, AllocError> {
    Ok(List::of(Vec::from_slice(alloc, text)?))
}

/// The path of two names, or of none.
fn paths(alloc: Global, first: &[u8], second: &[u8]) -> Result<List<Path>, AllocError> {
    let mut names = Vec::new(alloc);
    names.push(bytes(alloc, first)?)?;
    names.push(bytes(alloc, second)?)?;
    let mut all = Vec::new(alloc);
    if let Some(path) = Path::new(names) {
        all.push(path)?;
    }
    if let Some(root) = Path::new(Vec::new(alloc)) {
        all.push(root)?;
    }
    Ok(List::of(all))
}

#[test]
fn replies_have_their_text(rt: HostRuntime) -> Result<(), AllocError> {
    let alloc = rt.alloc();
    let data = bytes(alloc, b"\x00hi\xff")?;
    says(
        &rt,
        alloc,
        Said::Reply(Reply::Data(data)),
        "data 006869ff\n",
    )?;
    let none = bytes(alloc, b"")?;
    says(&rt, alloc, Said::Reply(Reply::Data(none)), "data\n")?;
    says(
        &rt,
        alloc,
        Said::Reply(Reply::File(4_243_456)),
        "file 4243456\n",
    )?;
    says(&rt, alloc, Said::Reply(Reply::Dir(0)), "dir 0\n")?;
    let mut names = Vec::new(alloc);
    names.push(bytes(alloc, b"a b%")?)?;
    names.push(bytes(alloc, b"!~\x7f\x0a")?)?;
    says(
        &rt,
        alloc,
        Said::Reply(Reply::Names(List::of(names))),
        "names a%20b%25 !~%7f%0a\n",
    )?;
    let ranked = paths(alloc, b"d", b"\xc3")?;
    says(&rt, alloc, Said::Ranked(ranked), "ranked /d/%c3 /\n")
}

#[test]
fn plain_answers_have_their_text(rt: HostRuntime) -> Result<(), AllocError> {
    let mark = Mark {
        serial: 1,
        digest: [0; 32],
    };
    let rows = [
        (Said::Reply(Reply::Ok), "ok\n"),
        (Said::Reply(Reply::Refused(Refusal::Enoent)), "err ENOENT\n"),
        (Said::PathRefused(Refusal::Eexist), "err EEXIST\n"),
        (Said::PathRefused(Refusal::Enotdir), "err ENOTDIR\n"),
        (Said::PathRefused(Refusal::Eisdir), "err EISDIR\n"),
        (Said::PathRefused(Refusal::Enotempty), "err ENOTEMPTY\n"),
        (Said::PathRefused(Refusal::Einval), "err EINVAL\n"),
        (Said::PathRefused(Refusal::Efbig), "err EFBIG\n"),
        (
            Said::PathRefused(Refusal::Enametoolong),
            "err ENAMETOOLONG\n",
        ),
        (Said::PathRefused(Refusal::Einodes), "err EINODES\n"),
        (Said::NoSpace, "err ENOSPC\n"),
        (Said::Eio, "err EIO\n"),
        (Said::LogFull, "err ELOG\n"),
        (Said::Evol, "err EVOL\n"),
        (
            Said::Ebad {
                kept: mark,
                found: mark,
            },
            "err EBAD\n",
        ),
        (Said::Stopped { faults: 1 }, "stopped\n"),
        (
            Said::Staged {
                blocks: 60,
                volume: 1,
                slot: 2,
                line: 3,
            },
            "staged 60 volume 1 slot 2 line 3\n",
        ),
        (Said::Nothing, "nothing\n"),
        (Said::NoLine, "lines\n"),
        (Said::NoSlot, "full\n"),
        (Said::Job(7), "job 7\n"),
        (Said::NoneLeft, "none\n"),
        (Said::Busy { volume: 2, job: 9 }, "busy 2 9\n"),
        (Said::Drives, "drives\n"),
        (Said::Here, "here\n"),
        (Said::NoJob, "nojob\n"),
        (Said::Unmoved, "unmoved\n"),
        (Said::Moved, "moved\n"),
        (Said::Medium, "medium\n"),
        (Said::Home, "home\n"),
        (Said::Stuck, "stuck\n"),
        (Said::Bound, "bound\n"),
        (Said::Stale, "stale\n"),
        (Said::MovedTo { volume: 1, slot: 0 }, "moved 1 0\n"),
        (Said::Ejected, "ok\n"),
        (Said::Checkpointed, "ok\n"),
        (Said::Staging, "staging\n"),
        (Said::Empty, "empty\n"),
        (Said::InJob, "injob\n"),
        (Said::Cleaned(4), "cleaned 4\n"),
    ];
    for (said, want) in rows {
        says(&rt, rt.alloc(), said, want)?;
    }
    Ok(())
}
