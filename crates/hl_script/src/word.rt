//! The words of a line: paths, numbers and the digits of bytes.

ghost use Rattle.std.specs.Prelude.{◌≡◌, ◌≤◌, ◌+◌, ◌==◌, ◌^◌, true, map, IfOk};
ghost use Rattle.std.specs.Char.{is_ascii_digit};
ghost use Rattle.std.specs.List.{slice_split, list_all};
ghost use Rattle.hl_script.specs.Words.{is_name_byte, is_name, is_numeral, is_lower_digit, all_names, path_at, number_at, bytes_at};
ghost use Rattle.hl_script.specs.Reading.{Reads};

use crate::find::first_place;
use crate::line::BadLine;
use hex::FromHexError;
use hl_tree::{List, Path};
use std::alloc::{AllocError, Global};

/// The parts of the bytes between the bytes `at`.
pub(crate) fn parts(alloc: Global, bytes: &[u8], at: u8) -> Result<Vec<&[u8]>, AllocError>
    ensures { IfOk result (λ v. map (λ x. x.now) v.items ≡ slice_split (λ b. b == at) bytes.now) }
{
    let mut parts = Vec::new(alloc);
    let mut rest = bytes;
    'parts: loop {
        let end = first_place(at, rest);
        parts.push(&rest[..end])?;
        let len = rest.len();
        if end == len {
            return Ok(parts);
        }
        rest = &rest[end + 1..];
    }
}

fn is_name_byte(b: u8) -> bool
    ensures { result ≡ is_name_byte b }
{
    33 <= b && b <= 126 && b != b'/' && b != b'%'
}

fn all_name_bytes(name: &[u8]) -> bool
    ensures { result ≡ list_all is_name_byte name.now }
{
    name.iter().all(|b| is_name_byte(*b))
}

fn is_name(name: &[u8]) -> bool
    ensures { result ≡ is_name name.now }
{
    !name.is_empty() && all_name_bytes(name)
}

fn names(alloc: Global, parts: &[&[u8]]) -> Result<Vec<List<u8>>, BadLine>
    ensures { Reads (λ v. v.items) result (all_names (map (λ x. x.now) parts.now)) }
{
    let mut names = Vec::new(alloc);
    for part in parts {
        if !is_name(part) {
            return Err(BadLine::Bad);
        }
        names.push(List::of(Vec::from_slice(alloc, part)?))?;
    }
    Ok(names)
}

/// The path that the word spells.
#[tactic(auto, unfolding(crate::specs::Words::path_at))]
pub(crate) fn path(alloc: Global, word: &[u8]) -> Result<Path, BadLine>
    ensures { Reads (λ p. p) result (path_at word.now) }
{
    match word {
        [b'/'] => Ok(path_of(Vec::new(alloc))),
        [b'/', rest @ ..] => {
            let parts = parts(alloc, rest, b'/')?;
            Ok(path_of(names(alloc, &parts)?))
        }
        _ => Err(BadLine::Bad),
    }
}

fn path_of(names: Vec<List<u8>>) -> Path
    requires { list_all is_name names.items ≡ true }
    ensures { result ≡ names.items }
{
    Path::new(names).unwrap()
}

fn all_digits(word: &[u8]) -> bool
    ensures { result ≡ list_all is_ascii_digit word.now }
{
    word.iter().all(|c| c.is_ascii_digit())
}

fn is_numeral(word: &[u8]) -> bool
    ensures { result ≡ is_numeral word.now }
{
    !word.is_empty() && all_digits(word) && (word.len() == 1 || word[0] != b'0')
}

/// The number up to `max` that the word spells.
#[tactic(auto, unfolding(crate::specs::Words::number_at))]
pub(crate) fn number(word: &[u8], max: u64) -> Result<u64, BadLine>
    ensures read { Reads (λ n. n) result (number_at (max + 1) word.now) }
    ensures small { IfOk result (λ n. n ≤ max) }
{
    let n = any_number(word)?;
    if n > max {
        return Err(BadLine::Bad);
    }
    Ok(n)
}

#[tactic(auto, unfolding(crate::specs::Words::number_at))]
fn any_number(word: &[u8]) -> Result<u64, BadLine>
    ensures { Reads (λ n. n) result (number_at (2 ^ 64) word.now) }
{
    if !is_numeral(word) {
        return Err(BadLine::Bad);
    }
    let Ok(text) = str::from_utf8(word) else {
        return Err(BadLine::Bad);
    };
    match text.parse::<u64>() {
        Ok(n) => Ok(n),
        Err(_) => Err(BadLine::Bad),
    }
}

fn is_lower_digit(c: u8) -> bool
    ensures { result ≡ is_lower_digit c }
{
    c >= b'0' && c <= b'9' || c >= b'a' && c <= b'f'
}

fn all_lower_digits(word: &[u8]) -> bool
    ensures { result ≡ list_all is_lower_digit word.now }
{
    word.iter().all(|c| is_lower_digit(*c))
}

/// The bytes that the word spells.
#[tactic(auto, unfolding(crate::specs::Words::bytes_at))]
pub(crate) fn bytes(alloc: Global, word: &[u8]) -> Result<List<u8>, BadLine>
    ensures { Reads (λ b. b) result (bytes_at word.now) }
{
    if word.is_empty() || !all_lower_digits(word) {
        return Err(BadLine::Bad);
    }
    match hex::decode(alloc, word) {
        Ok(bytes) => Ok(List::of(bytes)),
        Err(FromHexError::OutOfMemory) => Err(BadLine::Memory),
        Err(_) => Err(BadLine::Bad),
    }
}
