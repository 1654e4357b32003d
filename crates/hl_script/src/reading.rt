//! Reading a line.

ghost use Rattle.std.specs.Prelude.{◌≡◌, ℕ, map, IfOk, Err, Ok};
ghost use Rattle.hl_tree.specs.declared.call.Call.{Call as FileCall};
ghost use Rattle.hl_script.specs.declared.line.Line.{Line};
ghost use Rattle.hl_script.specs.Spelling.{IsLine, spelling, IsUserLine, user_spelling};
ghost use Rattle.hl_script.specs.Reading as reading;
ghost use Rattle.hl_script.specs.Reading.{Reads, line_at, text_at, call_of, user_line_at};

use crate::arguments::{
    no_args, one_number, one_path, path_number, path_number_bytes, path_numbers, some_paths,
    two_paths,
};
use crate::kind::{Kind, kind_of_word};
use crate::line::{BadLine, Line};
use crate::word::parts;
use hl_tree::Call;
use std::alloc::Global;

const MAX32: u64 = 4_294_967_295;

#[tactic(auto, unfolding(crate::specs::Reading::line_of_kind))]
fn line_of_kind(alloc: Global, kind: Kind, args: &[&[u8]]) -> Result<Line, BadLine>
    ensures { Reads (λ l. l) result (reading.line_of_kind kind (map (λ w. w.now) args.now)) }
{
    match kind {
        Kind::Mkdir => {
            let path = one_path(alloc, args)?;
            Ok(Line::File(Call::Mkdir { path }))
        }
        Kind::Create => {
            let path = one_path(alloc, args)?;
            Ok(Line::File(Call::Create { path }))
        }
        Kind::Stat => {
            let path = one_path(alloc, args)?;
            Ok(Line::File(Call::Stat { path }))
        }
        Kind::List => {
            let path = one_path(alloc, args)?;
            Ok(Line::File(Call::List { path }))
        }
        Kind::Unlink => {
            let path = one_path(alloc, args)?;
            Ok(Line::File(Call::Unlink { path }))
        }
        Kind::Rmdir => {
            let path = one_path(alloc, args)?;
            Ok(Line::File(Call::Rmdir { path }))
        }
        Kind::Write => {
            let (path, at, bytes) = path_number_bytes(alloc, args)?;
            Ok(Line::File(Call::Write { path, at, bytes }))
        }
        Kind::Cut => {
            let (path, size) = path_number(alloc, args, u64::MAX)?;
            Ok(Line::File(Call::Cut { path, size }))
        }
        Kind::Read => {
            let (path, at, len) = path_numbers(alloc, args)?;
            Ok(Line::File(Call::Read { path, at, len }))
        }
        Kind::Rename => {
            let (from, to) = two_paths(alloc, args)?;
            Ok(Line::File(Call::Rename { from, to }))
        }
        Kind::Sync => {
            no_args(args)?;
            Ok(Line::File(Call::Sync))
        }
        Kind::Rank => {
            let count = one_number(args, 1000)?;
            if count == 0 {
                return Err(BadLine::Bad);
            }
            Ok(Line::Rank {
                count: count as u32,
            })
        }
        Kind::Stage => {
            let paths = some_paths(alloc, args)?;
            Ok(Line::Stage { paths })
        }
        Kind::Copy => {
            no_args(args)?;
            Ok(Line::Copy)
        }
        Kind::Fetch => {
            let (path, block) = path_number(alloc, args, MAX32)?;
            Ok(Line::Fetch {
                path,
                block: block as u32,
            })
        }
        Kind::Move => {
            let job = one_number(args, u64::MAX)?;
            Ok(Line::Move { job })
        }
        Kind::End => {
            let job = one_number(args, u64::MAX)?;
            Ok(Line::End { job })
        }
        Kind::Eject => {
            let line = one_number(args, MAX32)?;
            Ok(Line::Eject { line: line as u32 })
        }
        Kind::Clean => {
            no_args(args)?;
            Ok(Line::Clean)
        }
        Kind::Checkpoint => {
            no_args(args)?;
            Ok(Line::Checkpoint)
        }
    }
}

#[tactic(auto, unfolding(crate::specs::Reading::line_at))]
fn line_of_words(alloc: Global, words: &[&[u8]]) -> Result<Line, BadLine>
    ensures { Reads (λ l. l) result (line_at (map (λ w. w.now) words.now)) }
{
    let [word, args @ ..] = words else {
        return Err(BadLine::Bad);
    };
    let Some(kind) = kind_of_word(word) else {
        return Err(BadLine::Bad);
    };
    line_of_kind(alloc, kind, args)
}

fn line_of_text(alloc: Global, bytes: &[u8]) -> Result<Line, BadLine>
    ensures { Reads (λ l. l) result (text_at bytes.now) }
{
    let words = parts(alloc, bytes, b' ')?;
    line_of_words(alloc, &words)
}

/// The one line that is spelled so, without its newline (`docs/SCRIPT.md`).
pub fn read_line(alloc: Global, bytes: &[u8]) -> Result<Line, BadLine>
    ensures ok { IfOk result (λ line. IsLine line × (bytes.now ≡ spelling line)) }
    ensures one { IfOk result (λ line. (other : Line) → IsLine other → bytes.now ≡ spelling other → other ≡ line) }
    ensures bad { result ≡ Err BadLine.Bad → (line : Line) → IsLine line → bytes.now ≡ spelling line → ⊥ }
{
    line_of_text(alloc, bytes)
}

fn call_of_line(line: Line) -> Result<Call, BadLine>
    ensures { Reads (λ c. c) result (call_of line) }
{
    match line {
        Line::File(call) => Ok(call),
        _ => Err(BadLine::Bad),
    }
}

#[tactic(auto, unfolding(crate::specs::Reading::user_line_at))]
fn user_line_of_text(alloc: Global, bytes: &[u8]) -> Result<(u32, Call), BadLine>
    ensures { Reads (λ a. (a.0, a.1)) result (user_line_at bytes.now) }
{
    let [user, space, text @ ..] = bytes else {
        return Err(BadLine::Bad);
    };
    if !(*user >= b'1' && *user <= b'8' && *space == b' ') {
        return Err(BadLine::Bad);
    }
    let line = line_of_text(alloc, text)?;
    let call = call_of_line(line)?;
    Ok((u32::from(*user - b'0'), call))
}

/// The user and the file call that are spelled so: a number from 1 to 8, a space, and a line of a file call.
pub fn read_user_line(alloc: Global, bytes: &[u8]) -> Result<(u32, Call), BadLine>
    ensures ok { IfOk result (λ line. IsUserLine line.0 line.1 × (bytes.now ≡ user_spelling line.0 line.1)) }
    ensures one { IfOk result (λ line. (user : ℕ) (call : FileCall) → IsUserLine user call
        → bytes.now ≡ user_spelling user call → (user ≡ line.0) × (call ≡ line.1)) }
    ensures bad { result ≡ Err BadLine.Bad → (user : ℕ) (call : FileCall) → IsUserLine user call
        → bytes.now ≡ user_spelling user call → ⊥ }
{
    user_line_of_text(alloc, bytes)
}
