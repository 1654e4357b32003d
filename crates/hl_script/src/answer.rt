//! The text of an answer.

ghost use Rattle.std.specs.Prelude.{◌≡◌, ◌∷◌, [], ◌++◌, codes, false, OnOk, OnErr};
ghost use Rattle.std.specs.Io.{StartsWith};
ghost use Rattle.hl_script.specs.Answer.{reply_word, reply_fields, answer_word, answer_fields, answer_text, answer_line, printed_number, is_memory};
ghost use Rattle.hl_script.specs.Input.{HasNoNewline, lines_of};
ghost use Rattle.hl_script.specs.declared.said.Said.{Said};

use crate::print::{push_data, push_names, push_number, push_paths};
use crate::refusal::refusal_text;
use crate::said::Said;
use hl_tree::Reply;
use std::alloc::{AllocError, Global};

fn reply_word(reply: &Reply) -> &'static [u8]
    ensures { result.now ≡ reply_word reply.now }
{
    match reply {
        Reply::Ok => b"ok",
        Reply::Data(_) => b"data",
        Reply::File(_) => b"file",
        Reply::Dir(_) => b"dir",
        Reply::Names(_) => b"names",
        Reply::Refused(why) => refusal_text(*why),
        Reply::Memory => b"",
    }
}

fn push_reply_fields(out: &mut Vec<u8>, reply: &Reply) -> Result<(), AllocError>
    ensures ok { OnOk result (out.new.items ≡ out.old.items ++ reply_fields reply.now) }
    ensures err { OnErr result (StartsWith out.new.items out.old.items) }
{
    match reply {
        Reply::Data(bytes) => push_data(out, bytes.items()),
        Reply::File(size) => push_number(out, *size),
        Reply::Dir(count) => push_number(out, u64::from(*count)),
        Reply::Names(names) => push_names(out, b' ', names.items()),
        Reply::Ok | Reply::Refused(_) | Reply::Memory => Ok(()),
    }
}

fn answer_word(said: &Said) -> &'static [u8]
    ensures { result.now ≡ answer_word said.now }
{
    match said {
        Said::Reply(reply) => reply_word(reply),
        Said::PathRefused(why) => refusal_text(*why),
        Said::NoSpace => b"err ENOSPC",
        Said::Eio => b"err EIO",
        Said::LogFull => b"err ELOG",
        Said::Evol => b"err EVOL",
        Said::Ebad { .. } => b"err EBAD",
        Said::Stopped { .. } => b"stopped",
        Said::Ranked(_) => b"ranked",
        Said::Staged { .. } => b"staged",
        Said::Nothing => b"nothing",
        Said::NoLine => b"lines",
        Said::NoSlot => b"full",
        Said::Job(_) => b"job",
        Said::NoneLeft => b"none",
        Said::Busy { .. } => b"busy",
        Said::Drives => b"drives",
        Said::Here => b"here",
        Said::NoJob => b"nojob",
        Said::Unmoved => b"unmoved",
        Said::Moved => b"moved",
        Said::Medium => b"medium",
        Said::Home => b"home",
        Said::Stuck => b"stuck",
        Said::Bound => b"bound",
        Said::Stale => b"stale",
        Said::MovedTo { .. } => b"moved",
        Said::Ejected => b"ok",
        Said::Checkpointed => b"ok",
        Said::Staging => b"staging",
        Said::Empty => b"empty",
        Said::InJob => b"injob",
        Said::Cleaned(_) => b"cleaned",
        Said::Memory => b"",
    }
}

/// A word, and a number behind a space.
fn push_field(out: &mut Vec<u8>, word: &[u8], n: u32) -> Result<(), AllocError>
    ensures ok { OnOk result (out.new.items ≡ out.old.items ++ word.now ++ printed_number n) }
    ensures err { OnErr result (StartsWith out.new.items out.old.items) }
{
    out.extend_from_slice(word)?;
    push_number(out, u64::from(n))
}

/// A slot and a line, with their names.
#[tactic(auto, using(crate::proofs::Fronts::starts_behind))]
fn push_slot(out: &mut Vec<u8>, slot: u32, line: u32) -> Result<(), AllocError>
    ensures ok { OnOk result (out.new.items ≡ out.old.items
        ++ codes " slot" ++ printed_number slot ++ codes " line" ++ printed_number line) }
    ensures err { OnErr result (StartsWith out.new.items out.old.items) }
{
    push_field(out, b" slot", slot)?;
    push_field(out, b" line", line)
}

/// A volume, a slot and a line, with their names.
#[tactic(auto, using(crate::proofs::Fronts::starts_behind))]
fn push_place(out: &mut Vec<u8>, volume: u32, slot: u32, line: u32) -> Result<(), AllocError>
    ensures ok { OnOk result (out.new.items ≡ out.old.items ++ codes " volume" ++ printed_number volume
        ++ codes " slot" ++ printed_number slot ++ codes " line" ++ printed_number line) }
    ensures err { OnErr result (StartsWith out.new.items out.old.items) }
{
    push_field(out, b" volume", volume)?;
    push_slot(out, slot, line)
}

/// Two numbers, each behind a space.
#[tactic(auto, using(crate::proofs::Fronts::starts_behind))]
fn push_numbers(out: &mut Vec<u8>, first: u64, second: u64) -> Result<(), AllocError>
    ensures ok { OnOk result (out.new.items ≡ out.old.items ++ printed_number first ++ printed_number second) }
    ensures err { OnErr result (StartsWith out.new.items out.old.items) }
{
    push_number(out, first)?;
    push_number(out, second)
}

#[tactic(auto, using(crate::proofs::Fronts::starts_behind))]
fn push_answer_fields(out: &mut Vec<u8>, said: &Said) -> Result<(), AllocError>
    ensures ok { OnOk result (out.new.items ≡ out.old.items ++ answer_fields said.now) }
    ensures err { OnErr result (StartsWith out.new.items out.old.items) }
{
    match said {
        Said::Reply(reply) => push_reply_fields(out, reply),
        Said::Ranked(paths) => push_paths(out, paths.items()),
        Said::Staged {
            blocks,
            volume,
            slot,
            line,
        } => {
            push_number(out, u64::from(*blocks))?;
            push_place(out, *volume, *slot, *line)
        }
        Said::Job(job) => push_number(out, *job),
        Said::Busy { volume, job } => push_numbers(out, u64::from(*volume), *job),
        Said::MovedTo { volume, slot } => push_numbers(out, u64::from(*volume), u64::from(*slot)),
        Said::Cleaned(segment) => push_number(out, u64::from(*segment)),
        _ => Ok(()),
    }
}

#[tactic(auto, using(crate::proofs::Fronts::starts_behind))]
fn push_text(out: &mut Vec<u8>, said: &Said) -> Result<(), AllocError>
    ensures ok { OnOk result (out.new.items ≡ out.old.items ++ answer_text said.now) }
    ensures err { OnErr result (StartsWith out.new.items out.old.items) }
{
    out.extend_from_slice(answer_word(said))?;
    push_answer_fields(out, said)
}

#[tactic(auto, using(crate::proofs::Fronts::starts_behind))]
fn push_line(out: &mut Vec<u8>, said: &Said) -> Result<(), AllocError>
    ensures ok { OnOk result (out.new.items ≡ out.old.items ++ answer_line said.now) }
    ensures err { OnErr result (StartsWith out.new.items out.old.items) }
{
    push_text(out, said)?;
    out.push(b'\n')?;
    Ok(())
}

/// Each answer is one line: its text has no newline.
pub fn answers_are_lines()
    ensures text { (answer : Said) → HasNoNewline (answer_text answer) }
    ensures line { (answer : Said) → lines_of (answer_line answer) ≡ answer_text answer ∷ [] }
{}

/// Appends the answer's text and a newline (`docs/SCRIPT.md`, "Answers"). An answer of memory has no text.
/// The room comes from the allocator of `out`; where it is wanting, `out` is as before.
pub fn print_answer(_alloc: Global, said: &Said, out: &mut Vec<u8>) -> Result<(), AllocError>
    requires { is_memory said.now ≡ false }
    ensures ok { OnOk result (out.new.items ≡ out.old.items ++ answer_line said.now) }
    ensures err { OnErr result (out.new.items ≡ out.old.items) }
{
    let before = out.len();
    match push_line(out, said) {
        Ok(()) => Ok(()),
        Err(e) => {
            out.truncate(before);
            Err(e)
        }
    }
}
