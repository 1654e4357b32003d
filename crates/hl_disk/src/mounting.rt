//! Reading a disk: the tree of the newest record that checks.

ghost use Rattle.std.specs.Prelude.{◌≡◌, ◌≤◌, ◌+◌, ◌*◌, ◌↔◌, IfOk, IfSome, Err, IsTrue, length};
ghost use Rattle.std.specs.Option.{ForSome};
ghost use Rattle.hl_media.specs.Causes.{HasCause, Rose};
ghost use Rattle.hl_media.specs.History.{area, content};
ghost use Rattle.hl_media.specs.Moments.{Runs};
ghost use Rattle.hl_disk.specs.Disks.{HasLabel, dump_at};
ghost use Rattle.hl_disk.specs.Mounts.{IsMounted, Mounts};
ghost use Rattle.hl_disk.specs.Reads.{FindsRecord, GivesTree, IsOrdered, IsRead, OnlyReads, Picks, Takes};

use crate::place::{DUMP_MAX, blocks_of, start_of};
use crate::record::{DumpRecord, decode_record};
use hl_bytes::BLOCK;
use hl_dump::read_dump;
use hl_media::{Failed, Machine};
use hl_super::decode_label;
use hl_tree::PlainTree;
use sha2::{Digest, Sha256};
use std::alloc::{AllocError, Global};

/// Why a disk isn't mounted.
#[derive(Clone, Copy, Debug, PartialEq, Eq)]
pub enum MountError {
    /// Block 0 is no label.
    NoLabel,
    /// No record has its dump.
    NoRecord,
    /// A read failed.
    DiskFault,
    /// Memory was wanting.
    Memory,
}

impl From<AllocError> for MountError {
    ghost use Rattle.std.specs.Prelude.{◌≡◌};
    ghost use Rattle.hl_disk.specs.declared.mounting.MountError.TheVariants.{Memory};

    ghost from_gives = { λ _ e. e ≡ Memory };

    fn from(_e: AllocError) -> MountError {
        MountError::Memory
    }
}

impl From<Failed> for MountError {
    ghost use Rattle.std.specs.Prelude.{◌≡◌};
    ghost use Rattle.hl_disk.specs.declared.mounting.MountError.TheVariants.{DiskFault};

    ghost from_gives = { λ _ e. e ≡ DiskFault };

    fn from(_e: Failed) -> MountError {
        MountError::DiskFault
    }
}

/// The tree of a disk.
#[derive(Drop)]
pub struct Mounted {
    /// The number of its record.
    pub number: u64,
    pub files: PlainTree,
}

/// Whether block 0 is a label.
fn has_label<M: Machine>(machine: &mut M) -> Result<bool, Failed>
    requires room { 2112 ≤ M.blocks machine.old }
    ensures label { IfOk result (λ is. ForSome (M.history machine.old) (λ h. IsTrue is ↔ HasLabel (M.blocks machine.old) (content h))) }
    ensures reads { OnlyReads (M.history machine.old) (M.history machine.new) }
    ensures faults { HasCause (M.faults machine.old) (M.faults machine.new) result }
    ensures blocks { M.blocks machine.new ≡ M.blocks machine.old }
    ensures write_faults { M.write_faults machine.new ≡ M.write_faults machine.old }
    ensures say_faults { M.say_faults machine.new ≡ M.say_faults machine.old }
{
    let mut block = [0; BLOCK];
    let count = machine.blocks();
    machine.read(0, &mut block)?;
    Ok(decode_label(&block, count).is_some())
}

/// The record of block 1 or 2.
fn find_record<M: Machine>(machine: &mut M, at: u32) -> Result<Option<DumpRecord>, Failed>
    requires room { 2112 ≤ M.blocks machine.old }
    requires place { at ≤ 2 }
    ensures found { IfOk result (λ r. ForSome (M.history machine.old) (λ h. FindsRecord at (content h) r)) }
    ensures reads { OnlyReads (M.history machine.old) (M.history machine.new) }
    ensures faults { HasCause (M.faults machine.old) (M.faults machine.new) result }
    ensures blocks { M.blocks machine.new ≡ M.blocks machine.old }
    ensures write_faults { M.write_faults machine.new ≡ M.write_faults machine.old }
    ensures say_faults { M.say_faults machine.new ≡ M.say_faults machine.old }
{
    let mut block = [0; BLOCK];
    machine.read(at, &mut block)?;
    Ok(decode_record(&block, at))
}

/// The bytes of `count` blocks from `start` on.
fn read_blocks<M: Machine>(
    alloc: Global,
    machine: &mut M,
    start: u32,
    count: u32,
) -> Result<Vec<u8>, MountError>
    requires room { start + count ≤ M.blocks machine.old }
    requires half { count ≤ 1024 }
    ensures bytes { IfOk result (λ v. ForSome (M.history machine.old) (λ h. area (content h) start count ≡ v.items)) }
    ensures size { IfOk result (λ v. length v.items ≡ 4096 * count) }
    ensures refusal { (result ≡ Err MountError.NoLabel → ⊥) × (result ≡ Err MountError.NoRecord → ⊥) }
    ensures reads { OnlyReads (M.history machine.old) (M.history machine.new) }
    ensures fault { result ≡ Err MountError.DiskFault → Rose (M.faults machine.old) (M.faults machine.new) }
    ensures faults_later { M.faults machine.old ≤ M.faults machine.new }
    ensures blocks { M.blocks machine.new ≡ M.blocks machine.old }
    ensures write_faults { M.write_faults machine.new ≡ M.write_faults machine.old }
    ensures say_faults { M.say_faults machine.new ≡ M.say_faults machine.old }
{
    let mut bytes = vec![in alloc; 0; BLOCK * count as usize]?;
    machine.read(start, bytes.as_mut_slice())?;
    Ok(bytes)
}

/// The tree whose dump the bytes are, where they are the record's.
fn checked(alloc: Global, rec: &DumpRecord, dump: &[u8]) -> Result<Option<PlainTree>, AllocError>
    requires { length dump.now ≡ rec.now.length }
    ensures gives { IfOk result (λ r. GivesTree rec.now dump.now r) }
    ensures limits { IfOk result (λ r. IfSome r IsRead) }
{
    let digest = Sha256::digest(dump);
    if digest == rec.digest {
        read_dump(alloc, dump)
    } else {
        Ok(None)
    }
}

/// The tree of a record, where it has its dump. Memory is taken by the record's length, which is tested before.
fn tree_of<M: Machine>(
    alloc: Global,
    machine: &mut M,
    rec: &DumpRecord,
) -> Result<Option<PlainTree>, MountError>
    requires room { 2112 ≤ M.blocks machine.old }
    ensures gives { IfOk result (λ r. ForSome (M.history machine.old) (λ h. GivesTree rec.now (dump_at (content h) rec.now) r)) }
    ensures limits { IfOk result (λ r. IfSome r IsRead) }
    ensures refusal { (result ≡ Err MountError.NoLabel → ⊥) × (result ≡ Err MountError.NoRecord → ⊥) }
    ensures reads { OnlyReads (M.history machine.old) (M.history machine.new) }
    ensures fault { result ≡ Err MountError.DiskFault → Rose (M.faults machine.old) (M.faults machine.new) }
    ensures faults_later { M.faults machine.old ≤ M.faults machine.new }
    ensures blocks { M.blocks machine.new ≡ M.blocks machine.old }
    ensures write_faults { M.write_faults machine.new ≡ M.write_faults machine.old }
    ensures say_faults { M.say_faults machine.new ≡ M.say_faults machine.old }
{
    if rec.length > DUMP_MAX {
        return Ok(None);
    }
    let bytes = read_blocks(alloc, machine, start_of(rec.number), blocks_of(rec.length))?;
    let tree = checked(alloc, rec, &bytes.as_slice()[..rec.length as usize])?;
    Ok(tree)
}

/// What a record that may be there stands for.
fn taken<M: Machine>(
    alloc: Global,
    machine: &mut M,
    rec: Option<DumpRecord>,
) -> Result<Option<Mounted>, MountError>
    requires room { 2112 ≤ M.blocks machine.old }
    ensures takes { IfOk result (λ m. ForSome (M.history machine.old) (λ h. Takes (content h) rec m)) }
    ensures mounted { IfOk result (λ m. IfSome m IsMounted) }
    ensures refusal { (result ≡ Err MountError.NoLabel → ⊥) × (result ≡ Err MountError.NoRecord → ⊥) }
    ensures reads { OnlyReads (M.history machine.old) (M.history machine.new) }
    ensures fault { result ≡ Err MountError.DiskFault → Rose (M.faults machine.old) (M.faults machine.new) }
    ensures faults_later { M.faults machine.old ≤ M.faults machine.new }
    ensures blocks { M.blocks machine.new ≡ M.blocks machine.old }
    ensures write_faults { M.write_faults machine.new ≡ M.write_faults machine.old }
    ensures say_faults { M.say_faults machine.new ≡ M.say_faults machine.old }
{
    match rec {
        None => Ok(None),
        Some(rec) => match tree_of(alloc, machine, &rec)? {
            Some(files) => Ok(Some(Mounted {
                number: rec.number,
                files,
            })),
            None => Ok(None),
        },
    }
}

/// The two records, the newer one first.
fn newer_first(
    odd: Option<DumpRecord>,
    even: Option<DumpRecord>,
) -> (Option<DumpRecord>, Option<DumpRecord>)
    ensures { IsOrdered odd even result.0 result.1 }
{
    match (odd, even) {
        (Some(a), Some(b)) => {
            if a.number < b.number {
                (even, odd)
            } else {
                (odd, even)
            }
        }
        _ => (odd, even),
    }
}

/// The tree of the newer record that has its dump. The older one's is read only where the newer one fails.
fn newest_tree<M: Machine>(
    alloc: Global,
    machine: &mut M,
    odd: Option<DumpRecord>,
    even: Option<DumpRecord>,
) -> Result<Mounted, MountError>
    requires room { 2112 ≤ M.blocks machine.old }
    ensures picks { ForSome (M.history machine.old) (λ h. Picks (content h) odd even result) }
    ensures mounted { IfOk result IsMounted }
    ensures reads { OnlyReads (M.history machine.old) (M.history machine.new) }
    ensures fault { result ≡ Err MountError.DiskFault → Rose (M.faults machine.old) (M.faults machine.new) }
    ensures faults_later { M.faults machine.old ≤ M.faults machine.new }
    ensures blocks { M.blocks machine.new ≡ M.blocks machine.old }
    ensures write_faults { M.write_faults machine.new ≡ M.write_faults machine.old }
    ensures say_faults { M.say_faults machine.new ≡ M.say_faults machine.old }
{
    let (newer, older) = newer_first(odd, even);
    match taken(alloc, machine, newer)? {
        Some(mounted) => Ok(mounted),
        None => match taken(alloc, machine, older)? {
            Some(mounted) => Ok(mounted),
            None => Err(MountError::NoRecord),
        },
    }
}

/// Reads the tree of the newest record that checks: its own digest is right, its number belongs into its block, and
/// its dump has its length and digest and is the dump of a tree. `NoLabel` where block 0 is no label, before any
/// record is read; `NoRecord` where no record checks. Nothing is written.
pub fn mount<M: Machine>(alloc: Global, machine: &mut M) -> Result<Mounted, MountError>
    requires room { 2112 ≤ M.blocks machine.old }
    ensures mounts { ForSome (M.history machine.old) (λ h. Mounts (M.blocks machine.old) (content h) result) }
    ensures mounted { IfOk result IsMounted }
    ensures reads { Runs (M.history machine.old) (M.history machine.new) (λ first s. s ≡ first) }
    ensures fault { result ≡ Err MountError.DiskFault → Rose (M.faults machine.old) (M.faults machine.new) }
    ensures faults_later { M.faults machine.old ≤ M.faults machine.new }
    ensures blocks { M.blocks machine.new ≡ M.blocks machine.old }
    ensures write_faults { M.write_faults machine.new ≡ M.write_faults machine.old }
    ensures say_faults { M.say_faults machine.new ≡ M.say_faults machine.old }
{
    if !has_label(machine)? {
        return Err(MountError::NoLabel);
    }
    let odd = find_record(machine, 1)?;
    let even = find_record(machine, 2)?;
    newest_tree(alloc, machine, odd, even)
}
