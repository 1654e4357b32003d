//! Making a disk: until its label is under way it has none.

ghost use Rattle.std.specs.Prelude.{◌≡◌, ◌≤◌, OnOk};
ghost use Rattle.hl_media.specs.Causes.{HasCause};
ghost use Rattle.hl_media.specs.Moments.{Ends, Now, Runs};
ghost use Rattle.hl_tree.specs.Tree.{root_alone};
ghost use Rattle.hl_disk.specs.Formats.{Formats};
ghost use Rattle.hl_disk.specs.Parts.{AreParts};
ghost use Rattle.hl_disk.specs.Stops.{IsSettled};

use crate::record::{DumpRecord, encode_record};
use hl_bytes::BLOCK;
use hl_media::{Failed, Machine, write_synced};
use hl_super::{Label, encode_label};
use sha2::{Digest, Sha256};

/// The label of a disk that is made: the log and the lines have room in its 2,112 blocks.
const USUAL: Label = Label {
    k: 64,
    log: 16,
    lines: 16,
    inodes: 512,
};

/// Writes zeros, the record of the empty dump and the label, each with its sync.
fn lay_out<M: Machine>(
    machine: &mut M,
    blank: &[u8],
    first: &[u8],
    label: &[u8],
) -> Result<(), Failed>
    requires room { 2112 ≤ M.blocks machine.old }
    requires parts { AreParts (M.blocks machine.old) blank.now first.now label.now }
    ensures formatted { OnOk result (Now (M.history machine.new) (IsSettled (M.blocks machine.old) 1 root_alone)) }
    ensures formats { Formats (M.blocks machine.old) (M.history machine.old) (M.history machine.new) }
    ensures says_nothing { Runs (M.history machine.old) (M.history machine.new) (λ before s. s.said ≡ before.said) }
    ensures blocks { M.blocks machine.new ≡ M.blocks machine.old }
    ensures faults { HasCause (M.faults machine.old) (M.faults machine.new) result }
    ensures write_faults { HasCause (M.write_faults machine.old) (M.write_faults machine.new) result }
    ensures say_faults { M.say_faults machine.new ≡ M.say_faults machine.old }
{
    write_synced(machine, 0, blank)?;
    write_synced(machine, 1, first)?;
    write_synced(machine, 0, label)
}

/// Makes a disk that holds the root alone, whatever was there: zeros in blocks 0, 1 and 2, then the record of the
/// empty dump, and last the label, each with its sync. From the first of these syncs on a stop leaves a disk without a
/// label, or one that holds the root alone. Reads nothing, and takes no memory.
pub fn format<M: Machine>(machine: &mut M) -> Result<(), Failed>
    requires room { 2112 ≤ M.blocks machine.old }
    ensures formatted { OnOk result (Now (M.history machine.new) (IsSettled (M.blocks machine.old) 1 root_alone)) }
    ensures formats { Formats (M.blocks machine.old) (M.history machine.old) (M.history machine.new) }
    ensures said { Ends (M.history machine.old) (M.history machine.new) (λ first s. s.said ≡ first.said) }
    ensures says_nothing { Runs (M.history machine.old) (M.history machine.new) (λ first s. s.said ≡ first.said) }
    ensures blocks { M.blocks machine.new ≡ M.blocks machine.old }
    ensures faults { HasCause (M.faults machine.old) (M.faults machine.new) result }
    ensures write_faults { HasCause (M.write_faults machine.old) (M.write_faults machine.new) result }
    ensures say_faults { M.say_faults machine.new ≡ M.say_faults machine.old }
{
    let mut first = [0; BLOCK];
    let mut label = [0; BLOCK];
    let empty = DumpRecord {
        number: 1,
        length: 0,
        digest: Sha256::digest([0; 0].as_slice()),
    };
    encode_record(&empty, &mut first);
    encode_label(&USUAL, &mut label);
    lay_out(machine, &[0; 3 * BLOCK], &first, &label)
}
