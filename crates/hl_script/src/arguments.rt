//! The words behind the first, by their shape.

ghost use Rattle.std.specs.Prelude.{◌≡◌, ◌≤◌, ◌+◌, map, IfOk};
ghost use Rattle.hl_script.specs.Reading.{Reads, no_args_at, one_path_at, two_paths_at, one_number_at, path_number_at, path_numbers_at, path_number_bytes_at, paths_at, some_paths_at};

use crate::line::BadLine;
use crate::word::{bytes, number, path};
use hl_tree::{List, Path};
use std::alloc::Global;

#[tactic(auto, unfolding(crate::specs::Reading::no_args_at))]
pub(crate) fn no_args(args: &[&[u8]]) -> Result<(), BadLine>
    ensures { Reads (λ _. tt) result (no_args_at (map (λ w. w.now) args.now)) }
{
    match args {
        [] => Ok(()),
        _ => Err(BadLine::Bad),
    }
}

#[tactic(auto, unfolding(crate::specs::Reading::one_path_at))]
pub(crate) fn one_path(alloc: Global, args: &[&[u8]]) -> Result<Path, BadLine>
    ensures { Reads (λ p. p) result (one_path_at (map (λ w. w.now) args.now)) }
{
    let [p] = args else {
        return Err(BadLine::Bad);
    };
    path(alloc, p)
}

#[tactic(auto, unfolding(crate::specs::Reading::two_paths_at))]
pub(crate) fn two_paths(alloc: Global, args: &[&[u8]]) -> Result<(Path, Path), BadLine>
    ensures { Reads (λ a. (a.0, a.1)) result (two_paths_at (map (λ w. w.now) args.now)) }
{
    let [p, q] = args else {
        return Err(BadLine::Bad);
    };
    Ok((path(alloc, p)?, path(alloc, q)?))
}

#[tactic(auto, unfolding(crate::specs::Reading::one_number_at))]
pub(crate) fn one_number(args: &[&[u8]], max: u64) -> Result<u64, BadLine>
    ensures read { Reads (λ n. n) result (one_number_at (max + 1) (map (λ w. w.now) args.now)) }
    ensures small { IfOk result (λ n. n ≤ max) }
{
    let [n] = args else {
        return Err(BadLine::Bad);
    };
    number(n, max)
}

#[tactic(auto, unfolding(crate::specs::Reading::path_number_at))]
pub(crate) fn path_number(alloc: Global, args: &[&[u8]], max: u64) -> Result<(Path, u64), BadLine>
    ensures read { Reads (λ a. (a.0, a.1)) result (path_number_at (max + 1) (map (λ w. w.now) args.now)) }
    ensures small { IfOk result (λ a. a.1 ≤ max) }
{
    let [p, n] = args else {
        return Err(BadLine::Bad);
    };
    Ok((path(alloc, p)?, number(n, max)?))
}

#[tactic(auto, unfolding(crate::specs::Reading::path_numbers_at))]
pub(crate) fn path_numbers(alloc: Global, args: &[&[u8]]) -> Result<(Path, u64, u64), BadLine>
    ensures { Reads (λ a. (a.0, a.1, a.2)) result (path_numbers_at (map (λ w. w.now) args.now)) }
{
    let [p, n, m] = args else {
        return Err(BadLine::Bad);
    };
    Ok((path(alloc, p)?, number(n, u64::MAX)?, number(m, u64::MAX)?))
}

#[tactic(auto, unfolding(crate::specs::Reading::path_number_bytes_at))]
pub(crate) fn path_number_bytes(
    alloc: Global,
    args: &[&[u8]],
) -> Result<(Path, u64, List<u8>), BadLine>
    ensures { Reads (λ a. (a.0, a.1, a.2)) result (path_number_bytes_at (map (λ w. w.now) args.now)) }
{
    let [p, n, b] = args else {
        return Err(BadLine::Bad);
    };
    Ok((path(alloc, p)?, number(n, u64::MAX)?, bytes(alloc, b)?))
}

#[tactic(auto, unfolding(crate::specs::Reading::paths_at))]
fn paths(alloc: Global, args: &[&[u8]]) -> Result<List<Path>, BadLine>
    ensures { Reads (λ p. p) result (paths_at (map (λ w. w.now) args.now)) }
{
    let mut paths = Vec::new(alloc);
    for word in args {
        match path(alloc, word) {
            Ok(path) => paths.push(path)?,
            Err(e) => return Err(e),
        }
    }
    Ok(List::of(paths))
}

/// From 1 to 64 paths.
#[tactic(auto, unfolding(crate::specs::Reading::some_paths_at))]
pub(crate) fn some_paths(alloc: Global, args: &[&[u8]]) -> Result<List<Path>, BadLine>
    ensures { Reads (λ p. p) result (some_paths_at (map (λ w. w.now) args.now)) }
{
    if args.is_empty() || args.len() > 64 {
        return Err(BadLine::Bad);
    }
    paths(alloc, args)
}
