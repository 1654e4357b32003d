//! The bytes of one directory, and its entries.

ghost use Rattle.std.specs.Prelude.{◌≡◌, ◌↔◌, ◌+◌, ◌*◌, ◌<◌, ◌≤◌, ◌++◌, false, length, IfErr, IfOk, IsTrue, MatchOption, MatchResult, OnOk};
ghost use Rattle.hl_media.specs.Causes.{HasCause};
ghost use Rattle.hl_media.specs.Moments.{Now};
ghost use Rattle.hl_log.specs.Logs.{OnlyReads, site_blocks};
ghost use Rattle.hl_placed.specs.Blocks.{blocks_of};
ghost use Rattle.hl_nodes.specs.Directories.{HoldsEntries};
ghost use Rattle.hl_survey.specs.Stops.{Stops, StopsBy};
ghost use Rattle.hl_hierarchy.specs.Bytes.{AreBlocks, AreInLog, AreOf, HasOutside, SpellsNone, SpellsTo};
ghost use Rattle.hl_hierarchy.specs.Hierarchies.{BreaksDirectory};

use hl_addr::Geometry;
use hl_bytes::{BLOCK, is_zero};
use hl_dir::{Entry, decode};
use hl_media::{Failed, Machine};
use hl_nodes::{Rule, is_in_log};
use hl_survey::{CheckError, FoundInode};
use hl_tree::List;
use std::alloc::{AllocError, Global};

/// Whether each of the pointers is an address in the log.
fn are_in_log(geometry: &Geometry, pointers: &[u32]) -> bool
    ensures so { IsTrue result → AreInLog geometry.now pointers.now }
    ensures not { result ≡ false → HasOutside geometry.now pointers.now }
{
    'pointers: for i in 0..pointers.len() {
        if !is_in_log(geometry, pointers[i]) {
            return false;
        }
    }
    true
}

/// Whether there is a pointer for each 4,096 bytes begun.
#[tactic(auto, unfolding(hl_placed::specs::Blocks::blocks_of))]
fn is_counted(size: u64, pointers: &[u32]) -> bool
    ensures { IsTrue result ↔ (length pointers.now ≡ blocks_of size) }
{
    pointers.len() as u64 == size.div_ceil(4096)
}

/// Reads a block.
fn read_block<M: Machine>(machine: &mut M, at: u32, out: &mut [u8]) -> Result<(), Failed>
    requires size { length out.old ≡ 4096 }
    requires within { at < M.blocks machine.old }
    ensures bytes { OnOk result (Now (M.history machine.old) (λ s. s.content at ≡ out.new)) }
    ensures size { length out.new ≡ 4096 }
    ensures machine { OnlyReads M.history M.blocks M.faults M.write_faults M.say_faults
        machine.old machine.new }
    ensures fault { HasCause (M.faults machine.old) (M.faults machine.new) result }
{
    machine.read(at, out)
}

/// Puts a block behind some bytes.
fn put_behind(bytes: &mut Vec<u8>, block: &[u8]) -> Result<(), AllocError>
    ensures { OnOk result (bytes.new.items ≡ bytes.old.items ++ block.now) }
{
    bytes.extend_from_slice(block)
}

/// Reads a block, and puts it behind some bytes.
fn append_block<M: Machine>(machine: &mut M, at: u32, bytes: &mut Vec<u8>) -> Result<(), CheckError>
    requires { at < M.blocks machine.old }
    ensures bytes { OnOk result (Now (M.history machine.old)
        (λ s. bytes.new.items ≡ bytes.old.items ++ s.content at)) }
    ensures size { OnOk result (length bytes.new.items ≡ length bytes.old.items + 4096) }
    ensures stops { IfErr result (Stops (M.history machine.old) (λ image rule block. ⊥)) }
    ensures machine { OnlyReads M.history M.blocks M.faults M.write_faults M.say_faults
        machine.old machine.new }
    ensures fault { MatchResult result (λ _. M.faults machine.new ≡ M.faults machine.old)
        (StopsBy (M.faults machine.old) (M.faults machine.new)) }
{
    let mut block = [0; BLOCK];
    read_block(machine, at, &mut block)?;
    put_behind(bytes, &block)?;
    Ok(())
}

/// Reads the blocks at these addresses, each once, one behind the other.
fn read_blocks<M: Machine>(
    alloc: Global,
    machine: &mut M,
    geometry: &Geometry,
    pointers: &[u32],
) -> Result<Vec<u8>, CheckError>
    requires room { site_blocks geometry.now ≤ M.blocks machine.old }
    requires pointers { AreInLog geometry.now pointers.now }
    ensures blocks { IfOk result (λ bytes. Now (M.history machine.old)
        (λ s. AreBlocks s.content pointers.now bytes.items)) }
    ensures size { IfOk result (λ bytes. length bytes.items ≡ 4096 * length pointers.now) }
    ensures stops { IfErr result (Stops (M.history machine.old) (λ image rule block. ⊥)) }
    ensures machine { OnlyReads M.history M.blocks M.faults M.write_faults M.say_faults
        machine.old machine.new }
    ensures fault { MatchResult result (λ _. M.faults machine.new ≡ M.faults machine.old)
        (StopsBy (M.faults machine.old) (M.faults machine.new)) }
{
    let mut bytes = Vec::new(alloc);
    'pointers: for i in 0..pointers.len() {
        append_block(machine, pointers[i], &mut bytes)?;
    }
    Ok(bytes)
}

/// The entries that bytes spell up to a size; none where they spell none, or aren't zero from the size on.
fn entries_in(alloc: Global, bytes: &[u8], size: u64) -> Result<Option<List<Entry>>, AllocError>
    requires { size ≤ length bytes.now }
    ensures { IfOk result (λ r. MatchOption r (SpellsNone size bytes.now) (SpellsTo size bytes.now)) }
{
    let end = size as usize;
    if !is_zero(bytes, end, bytes.len()) {
        return Ok(None);
    }
    decode(alloc, &bytes[..end])
}

/// What stops a look at a directory whose bytes are none.
fn off_bytes(dir: &FoundInode) -> CheckError
    ensures { result ≡ CheckError.Damaged dir.now.address Rule.DirectoryBytes }
{
    CheckError::Damaged {
        block: dir.address,
        rule: Rule::DirectoryBytes,
    }
}

/// Reads the entries of a directory, each of its blocks once.
pub(crate) fn read_entries<M: Machine>(
    alloc: Global,
    machine: &mut M,
    geometry: &Geometry,
    dir: &FoundInode,
) -> Result<List<Entry>, CheckError>
    requires room { site_blocks geometry.now ≤ M.blocks machine.old }
    ensures entries { IfOk result (λ es. Now (M.history machine.old)
        (λ s. AreOf s.content dir.now.inode dir.now.pointers.items
        → HoldsEntries geometry.now s.content dir.now.inode es)) }
    ensures stops { IfErr result (Stops (M.history machine.old)
        (BreaksDirectory geometry.now dir.now)) }
    ensures machine { OnlyReads M.history M.blocks M.faults M.write_faults M.say_faults
        machine.old machine.new }
    ensures fault { MatchResult result (λ _. M.faults machine.new ≡ M.faults machine.old)
        (StopsBy (M.faults machine.old) (M.faults machine.new)) }
{
    let pointers = dir.pointers.as_slice();
    if !is_counted(dir.inode.size, pointers) {
        return Err(off_bytes(dir));
    }
    if !are_in_log(geometry, pointers) {
        return Err(off_bytes(dir));
    }
    let bytes = read_blocks(alloc, machine, geometry, pointers)?;
    match entries_in(alloc, bytes.as_slice(), dir.inode.size)? {
        Some(entries) => Ok(entries),
        None => Err(off_bytes(dir)),
    }
}
