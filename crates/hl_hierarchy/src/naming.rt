//! The directories of a disk, one after the other.

ghost use Rattle.std.specs.Prelude.{◌≡◌, ◌+◌, ◌<◌, ◌≤◌, length, IfErr, IfOk, MatchResult, OnOk, Some};
ghost use Rattle.hl_media.specs.Moments.{Now};
ghost use Rattle.hl_log.specs.Logs.{OnlyReads, site_blocks};
ghost use Rattle.hl_addr.specs.Layout.{IsWithinLimits};
ghost use Rattle.hl_tables.specs.Values.{TableValues};
ghost use Rattle.hl_survey.specs.Stops.{Stops, StopsBy};
ghost use Rattle.hl_survey.specs.Surveys.{AreSurveyed};
ghost use Rattle.hl_hierarchy.specs.Naming.{EachBelow, at_number};
ghost use Rattle.hl_hierarchy.specs.Hierarchies.{AreNamed, BreaksNaming, BreaksSurveyed, GoesOn};

use crate::bytes::read_entries;
use crate::names::note_entries;
use hl_addr::Geometry;
use hl_inode::Kind;
use hl_media::Machine;
use hl_nodes::Rule;
use hl_survey::{CheckError, FoundInode};
use std::alloc::Global;

/// Reads the directory of a number, and notes it for each number that its entries name.
fn name_directory<M: Machine>(
    alloc: Global,
    machine: &mut M,
    geometry: &Geometry,
    found: &[Option<FoundInode>],
    parents: &mut [u32],
    ino: u32,
    dir: &FoundInode,
) -> Result<(), CheckError>
    requires room { site_blocks geometry.now ≤ M.blocks machine.old }
    requires size { length parents.old ≡ length found.now }
    requires low { 1 ≤ ino }
    requires high { ino < length found.now }
    requires dir { at_number found.now ino ≡ Some dir.now }
    requires kind { dir.now.inode.kind ≡ Kind.Dir }
    ensures names { OnOk result (Now (M.history machine.old)
        (λ s. GoesOn geometry.now s.content found.now parents.old parents.new ino)) }
    ensures below { EachBelow parents.old ino → OnOk result (EachBelow parents.new (ino + 1)) }
    ensures stops { IfErr result (Stops (M.history machine.old)
        (BreaksNaming geometry.now found.now parents.old ino)) }
    ensures machine { OnlyReads M.history M.blocks M.faults M.write_faults M.say_faults
        machine.old machine.new }
    ensures fault { MatchResult result (λ _. M.faults machine.new ≡ M.faults machine.old)
        (StopsBy (M.faults machine.old) (M.faults machine.new)) }
{
    let entries = read_entries(alloc, machine, geometry, dir)?;
    if note_entries(found, parents, ino, entries.items()) {
        Ok(())
    } else {
        Err(CheckError::Damaged {
            block: dir.address,
            rule: Rule::DirectoryEntry,
        })
    }
}

/// Notes a number for each that its entries name, if it is a directory.
fn name_number<M: Machine>(
    alloc: Global,
    machine: &mut M,
    geometry: &Geometry,
    found: &[Option<FoundInode>],
    parents: &mut [u32],
    ino: u32,
) -> Result<(), CheckError>
    requires room { site_blocks geometry.now ≤ M.blocks machine.old }
    requires size { length parents.old ≡ length found.now }
    requires low { 1 ≤ ino }
    requires high { ino < length found.now }
    ensures names { OnOk result (Now (M.history machine.old)
        (λ s. GoesOn geometry.now s.content found.now parents.old parents.new ino)) }
    ensures below { EachBelow parents.old ino → OnOk result (EachBelow parents.new (ino + 1)) }
    ensures stops { IfErr result (Stops (M.history machine.old)
        (BreaksNaming geometry.now found.now parents.old ino)) }
    ensures machine { OnlyReads M.history M.blocks M.faults M.write_faults M.say_faults
        machine.old machine.new }
    ensures fault { MatchResult result (λ _. M.faults machine.new ≡ M.faults machine.old)
        (StopsBy (M.faults machine.old) (M.faults machine.new)) }
{
    match &found[ino as usize] {
        None => Ok(()),
        Some(dir) => match dir.inode.kind {
            Kind::File => Ok(()),
            Kind::Dir => name_directory(alloc, machine, geometry, found, parents, ino, dir),
        },
    }
}

/// Notes each directory for the numbers that its entries name, where none is noted yet.
fn name_all<M: Machine>(
    alloc: Global,
    machine: &mut M,
    geometry: &Geometry,
    found: &[Option<FoundInode>],
    parents: &mut [u32],
) -> Result<(), CheckError>
    requires room { site_blocks geometry.now ≤ M.blocks machine.old }
    requires size { length found.now ≡ geometry.now.inodes }
    requires parents { length parents.old ≡ length found.now }
    requires free { EachBelow parents.old 1 }
    ensures names { OnOk result (Now (M.history machine.old)
        (λ s. (t : TableValues) → AreSurveyed geometry.now s.content t found.now
        → AreNamed geometry.now s.content found.now parents.new)) }
    ensures below { OnOk result (EachBelow parents.new (length found.now)) }
    ensures limits { OnOk result (IsWithinLimits geometry.now) }
    ensures stops { IfErr result (Stops (M.history machine.old)
        (BreaksSurveyed geometry.now found.now)) }
    ensures machine { OnlyReads M.history M.blocks M.faults M.write_faults M.say_faults
        machine.old machine.new }
    ensures fault { MatchResult result (λ _. M.faults machine.new ≡ M.faults machine.old)
        (StopsBy (M.faults machine.old) (M.faults machine.new)) }
{
    'numbers: for ino in 1..geometry.inodes {
        name_number(alloc, machine, geometry, found, parents, ino)?;
    }
    Ok(())
}

/// The directory that names each number, from 0 on, 0 where none does. Each block of each directory is read once.
pub(crate) fn name_numbers<M: Machine>(
    alloc: Global,
    machine: &mut M,
    geometry: &Geometry,
    found: &[Option<FoundInode>],
) -> Result<Vec<u32>, CheckError>
    requires room { site_blocks geometry.now ≤ M.blocks machine.old }
    requires size { length found.now ≡ geometry.now.inodes }
    ensures names { IfOk result (λ parents. Now (M.history machine.old)
        (λ s. (t : TableValues) → AreSurveyed geometry.now s.content t found.now
        → AreNamed geometry.now s.content found.now parents.items)) }
    ensures size { IfOk result (λ parents. length parents.items ≡ length found.now) }
    ensures below { IfOk result (λ parents. EachBelow parents.items (length found.now)) }
    ensures limits { OnOk result (IsWithinLimits geometry.now) }
    ensures stops { IfErr result (Stops (M.history machine.old)
        (BreaksSurveyed geometry.now found.now)) }
    ensures machine { OnlyReads M.history M.blocks M.faults M.write_faults M.say_faults
        machine.old machine.new }
    ensures fault { MatchResult result (λ _. M.faults machine.new ≡ M.faults machine.old)
        (StopsBy (M.faults machine.old) (M.faults machine.new)) }
{
    let mut parents = vec![in alloc; 0; found.len()]?;
    name_all(alloc, machine, geometry, found, parents.as_mut_slice())?;
    Ok(parents)
}
