//! A look at the directories of a disk.

ghost use Rattle.std.specs.Prelude.{◌≡◌, ◌<◌, ◌≤◌, length, IfErr, MatchResult, OnOk, Some};
ghost use Rattle.hl_media.specs.Moments.{Now};
ghost use Rattle.hl_log.specs.Logs.{OnlyReads, site_blocks};
ghost use Rattle.hl_tables.specs.Values.{TableValues};
ghost use Rattle.hl_survey.specs.declared.found.FoundInode.{FoundInode};
ghost use Rattle.hl_survey.specs.Stops.{Stops, StopsBy};
ghost use Rattle.hl_survey.specs.Surveys.{AreSurveyed};
ghost use Rattle.hl_hierarchy.specs.Naming.{at_number};
ghost use Rattle.hl_hierarchy.specs.Hierarchies.{BreaksSurveyed, KeepsHierarchy};

use crate::naming::name_numbers;
use crate::reach::lost_number;
use hl_addr::{Geometry, NOTHING};
use hl_media::Machine;
use hl_nodes::Rule;
use hl_survey::{CheckError, FoundInode};
use std::alloc::Global;

/// The block of the inode of a number.
fn inode_block(found: &[Option<FoundInode>], ino: u32) -> u32
    requires { ino < length found.now }
    ensures { (dir : FoundInode) → at_number found.now ino ≡ Some dir → result ≡ dir.address }
{
    match &found[ino as usize] {
        Some(dir) => dir.address,
        None => NOTHING,
    }
}

/// Looks at the directories of a disk whose inodes were surveyed. It reads each block of each directory once, and nothing
/// else, and holds the bytes of one directory at a time. The block that is told is the inode's: of the directory whose bytes
/// are none, or an entry of which names a number that isn't in use, the root, or a number that another entry names; or of
/// the number that nothing leads to. The work grows with the bytes of the directories and with the numbers of the site.
pub fn check_hierarchy<M: Machine>(
    alloc: Global,
    machine: &mut M,
    geometry: &Geometry,
    found: &[Option<FoundInode>],
) -> Result<(), CheckError>
    requires room { site_blocks geometry.now ≤ M.blocks machine.old }
    requires size { length found.now ≡ geometry.now.inodes }
    ensures kept { OnOk result (Now (M.history machine.old)
        (λ s. (t : TableValues) → AreSurveyed geometry.now s.content t found.now
        → KeepsHierarchy geometry.now s.content t)) }
    ensures stops { IfErr result (Stops (M.history machine.old)
        (BreaksSurveyed geometry.now found.now)) }
    ensures machine { OnlyReads M.history M.blocks M.faults M.write_faults M.say_faults
        machine.old machine.new }
    ensures fault { MatchResult result (λ _. M.faults machine.new ≡ M.faults machine.old)
        (StopsBy (M.faults machine.old) (M.faults machine.new)) }
{
    let parents = name_numbers(alloc, machine, geometry, found)?;
    match lost_number(alloc, found, parents.as_slice())? {
        None => Ok(()),
        Some(ino) => Err(CheckError::Damaged {
            block: inode_block(found, ino),
            rule: Rule::LostInode,
        }),
    }
}
