//! The numbers of a disk, one after the other.

ghost use Rattle.std.specs.Prelude.{◌≡◌, ◌≢◌, ◌<◌, ◌≤◌, length, slice_index, IfErr, IfOk, MatchResult};
ghost use Rattle.hl_media.specs.Moments.{Now};
ghost use Rattle.hl_addr.specs.Layout.{table_blocks};
ghost use Rattle.hl_super.specs.declared.record.Record.{Record};
ghost use Rattle.hl_image.specs.Places.{InLog, log_end};
ghost use Rattle.hl_log.specs.Logs.{OnlyReads, site_blocks};
ghost use Rattle.hl_tables.specs.Values.{AreTables};
ghost use Rattle.hl_survey.specs.Surveys.{AreSurveyed, IsFound, IsFoundInode};
ghost use Rattle.hl_survey.specs.Stops.{IsBroken, Stops, StopsBy};

use crate::check_error::CheckError;
use crate::entries::{is_off_entry, map_block};
use crate::found::FoundInode;
use crate::inodes::read_inode;
use crate::pointers::read_pointers;
use hl_addr::{Geometry, NOTHING};
use hl_media::Machine;
use hl_nodes::Rule;
use hl_super::Record;
use hl_tables::Tables;
use std::alloc::Global;

/// Reads the inode of a number in use, with its pointers.
fn survey_inode<M: Machine>(
    alloc: Global,
    machine: &mut M,
    geometry: &Geometry,
    tables: &Tables,
    ino: u32,
) -> Result<FoundInode, CheckError>
    requires room { site_blocks geometry.now ≤ M.blocks machine.old }
    requires tables { AreTables geometry.now tables.now }
    requires low { 1 ≤ ino }
    requires high { ino < geometry.now.inodes }
    requires entry { InLog geometry.now (slice_index tables.now.inodes ino) }
    requires within { slice_index tables.now.inodes ino < log_end geometry.now }
    ensures found { IfOk result (λ found. Now (M.history machine.old)
        (λ s. IsFoundInode geometry.now s.content tables.now ino found)) }
    ensures stops { IfErr result (Stops (M.history machine.old) (λ image rule block.
        (rec : Record) → IsBroken geometry.now rec tables.now image rule block)) }
    ensures machine { OnlyReads M.history M.blocks M.faults M.write_faults M.say_faults
        machine.old machine.new }
    ensures fault { MatchResult result (λ _. M.faults machine.new ≡ M.faults machine.old)
        (StopsBy (M.faults machine.old) (M.faults machine.new)) }
{
    let address = tables.inode(ino);
    let inode = read_inode(machine, ino, address)?;
    let pointers = read_pointers(alloc, machine, geometry, tables, address, &inode)?;
    Ok(FoundInode {
        address,
        inode,
        pointers,
    })
}

/// Surveys one number.
fn survey_number<M: Machine>(
    alloc: Global,
    machine: &mut M,
    geometry: &Geometry,
    rec: &Record,
    tables: &Tables,
    ino: u32,
) -> Result<Option<FoundInode>, CheckError>
    requires room { site_blocks geometry.now ≤ M.blocks machine.old }
    requires blocks { length rec.now.tables ≡ table_blocks geometry.now }
    requires tables { AreTables geometry.now tables.now }
    requires number { ino < geometry.now.inodes }
    ensures found { IfOk result (λ found. Now (M.history machine.old)
        (λ s. IsFound geometry.now s.content tables.now ino found)) }
    ensures stops { IfErr result (Stops (M.history machine.old)
        (IsBroken geometry.now rec.now tables.now)) }
    ensures machine { OnlyReads M.history M.blocks M.faults M.write_faults M.say_faults
        machine.old machine.new }
    ensures fault { MatchResult result (λ _. M.faults machine.new ≡ M.faults machine.old)
        (StopsBy (M.faults machine.old) (M.faults machine.new)) }
{
    let address = tables.inode(ino);
    if is_off_entry(geometry, ino, address) {
        return Err(CheckError::Damaged {
            block: map_block(geometry, rec, ino),
            rule: Rule::MapEntry,
        });
    }
    if address == NOTHING {
        return Ok(None);
    }
    Ok(Some(survey_inode(alloc, machine, geometry, tables, ino)?))
}

/// Reads the inodes of a disk and their pointer blocks, each once and nothing else, and gives them by their numbers from 0
/// on, none for a number that isn't in use. It stops where it finds a broken rule of the map's entries, of inodes, of
/// pointers or of pointer blocks; the block that is told is the table block of the entry, the inode's block for the next
/// two, and the pointer block itself.
pub fn survey<M: Machine>(
    alloc: Global,
    machine: &mut M,
    geometry: &Geometry,
    rec: &Record,
    tables: &Tables,
) -> Result<Vec<Option<FoundInode>>, CheckError>
    requires room { site_blocks geometry.now ≤ M.blocks machine.old }
    requires blocks { length rec.now.tables ≡ table_blocks geometry.now }
    requires tables { AreTables geometry.now tables.now }
    ensures surveyed { IfOk result (λ found. Now (M.history machine.old)
        (λ s. AreSurveyed geometry.now s.content tables.now found.items)) }

    // So many are found even on a machine that tells nothing.
    ensures count { IfOk result (λ found. length found.items ≡ geometry.now.inodes) }
    ensures stops { IfErr result (Stops (M.history machine.old)
        (IsBroken geometry.now rec.now tables.now)) }
    ensures machine { OnlyReads M.history M.blocks M.faults M.write_faults M.say_faults
        machine.old machine.new }
    ensures fault { MatchResult result (λ _. M.faults machine.new ≡ M.faults machine.old)
        (StopsBy (M.faults machine.old) (M.faults machine.new)) }
{
    let mut found = Vec::new(alloc);
    'numbers: for ino in 0..geometry.inodes {
        found.push(survey_number(alloc, machine, geometry, rec, tables, ino)?)?;
    }
    Ok(found)
}
