//! Inodes of a disk.

ghost use Rattle.std.specs.Prelude.{◌≡◌, ◌<◌, length, IfErr, IfOk, MatchOption, MatchResult};
ghost use Rattle.hl_media.specs.Moments.{Now};
ghost use Rattle.hl_log.specs.Logs.{OnlyReads};
ghost use Rattle.hl_inode.specs.Inodes.{IsInode};
ghost use Rattle.hl_nodes.specs.Breaks.{IsOffInode};
ghost use Rattle.hl_survey.specs.Surveys.{IsInodeOf};
ghost use Rattle.hl_survey.specs.Stops.{BreaksInode, Stops, StopsBy};

use crate::check_error::CheckError;
use crate::reading::read_block;
use hl_bytes::BLOCK;
use hl_inode::{Inode, Kind, decode};
use hl_media::Machine;
use hl_nodes::Rule;

/// The number of the root.
const ROOT: u32 = 1;

/// The inode of a number that a block spells; none where it spells no inode of the number, or a file for the root.
fn inode_of(ino: u32, block: &[u8]) -> Option<Inode>
    requires { length block.now ≡ 4096 }
    ensures { MatchOption result (IsOffInode ino block.now) (IsInodeOf ino block.now) }
{
    match decode(block) {
        None => None,
        Some(inode) => {
            if inode.number != ino {
                return None;
            }
            if ino == ROOT && inode.kind == Kind::File {
                return None;
            }
            Some(inode)
        }
    }
}

/// Reads the inode of a number from its block.
pub(crate) fn read_inode<M: Machine>(
    machine: &mut M,
    ino: u32,
    own: u32,
) -> Result<Inode, CheckError>
    requires { own < M.blocks machine.old }
    ensures inode { IfOk result (λ v.
        Now (M.history machine.old) (λ s. IsInodeOf ino (s.content own) v)) }
    ensures is { IfOk result IsInode }
    ensures stops { IfErr result
        (Stops (M.history machine.old) (BreaksInode ino own)) }
    ensures machine { OnlyReads M.history M.blocks M.faults M.write_faults M.say_faults
        machine.old machine.new }
    ensures fault { MatchResult result (λ _. M.faults machine.new ≡ M.faults machine.old)
        (StopsBy (M.faults machine.old) (M.faults machine.new)) }
{
    let mut block = [0; BLOCK];
    read_block(machine, own, &mut block)?;
    match inode_of(ino, &block) {
        Some(inode) => Ok(inode),
        None => Err(CheckError::Damaged {
            block: own,
            rule: Rule::InodeBytes,
        }),
    }
}
