//! What is reached from the root, by the directory that names each number.

ghost use Rattle.std.specs.Prelude.{◌≡◌, ◌+◌, ◌<◌, ◌≤◌, ◌^◌, false, length, IfOk, IsSome, IsTrue, MatchOption};
ghost use Rattle.hl_hierarchy.specs.Naming.{EachBelow, at_number};
ghost use Rattle.hl_hierarchy.specs.Climbing.{AreBelowRoot, ArePassed, Climbs, IsLost};

use hl_survey::FoundInode;
use std::alloc::{AllocError, Global};

/// Climbs from a number by the directory that names it and so on, up to a number that an earlier climb passed: false where
/// the climb comes round, as it does at number 0 too. It marks what it passes.
fn climb(parents: &[u32], seen: &mut [u32], start: u32) -> bool
    requires passed { ArePassed parents.now seen.old start }
    requires below { EachBelow parents.now (length parents.now) }
    requires low { 2 ≤ start }
    requires high { start < length parents.now }
    ensures passed { IsTrue result → ArePassed parents.now seen.new (start + 1) }
    ensures climbs { IsTrue result → Climbs parents.now start }
    ensures never { result ≡ false → ¬ Climbs parents.now start }
{
    let mut at = start;
    'up: while seen[at as usize] == 0 {
        seen[at as usize] = start;
        at = parents[at as usize];
    }
    seen[at as usize] != start
}

/// Whether a number climbs to the root, if it is in use.
fn is_below_root(found: &[Option<FoundInode>], parents: &[u32], seen: &mut [u32], ino: u32) -> bool
    requires passed { ArePassed parents.now seen.old ino }
    requires below { EachBelow parents.now (length parents.now) }
    requires low { 2 ≤ ino }
    requires high { ino < length parents.now }
    requires size { length parents.now ≡ length found.now }
    ensures passed { IsTrue result → ArePassed parents.now seen.new (ino + 1) }
    ensures climbs { IsTrue result → IsSome (at_number found.now ino) → Climbs parents.now ino }
    ensures lost { result ≡ false → IsLost found.now parents.now ino }
{
    match &found[ino as usize] {
        Some(_) => climb(parents, seen, ino),
        None => true,
    }
}

/// The first number in use, of those behind the root, to which nothing leads from it. The root is marked.
fn first_lost(found: &[Option<FoundInode>], parents: &[u32], seen: &mut [u32]) -> Option<u32>
    requires size { length parents.now ≡ length found.now }
    requires few { length found.now < 2 ^ 32 }
    requires below { EachBelow parents.now (length parents.now) }
    requires passed { ArePassed parents.now seen.old 2 }
    ensures { MatchOption result
        (AreBelowRoot found.now parents.now) (IsLost found.now parents.now) }
{
    'numbers: for ino in 2..parents.len() as u32 {
        if !is_below_root(found, parents, seen, ino) {
            return Some(ino);
        }
    }
    None
}

/// A number in use to which nothing leads from the root, if there is one. Each number is marked once.
pub(crate) fn lost_number(
    alloc: Global,
    found: &[Option<FoundInode>],
    parents: &[u32],
) -> Result<Option<u32>, AllocError>
    requires size { length parents.now ≡ length found.now }
    requires many { 2 ≤ length found.now }
    requires few { length found.now < 2 ^ 32 }
    requires below { EachBelow parents.now (length found.now) }
    ensures { IfOk result (λ r. MatchOption r
        (AreBelowRoot found.now parents.now) (IsLost found.now parents.now)) }
{
    let mut seen = vec![in alloc; 0; parents.len()]?;
    seen[1] = 1;
    Ok(first_lost(found, parents, seen.as_mut_slice()))
}
