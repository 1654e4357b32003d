//! A removable volume, seen by the calls made of it.

ghost use Rattle.std.specs.Prelude.{◌≡◌, ◌<◌, ℕ, Option, length, OnOk, IfOk};
ghost use Rattle.hl_media.specs.Causes.{HasCause};
ghost use Rattle.hl_media.specs.Volumes.{VolumeHistory, AddsCalls, DidWriteSlot, DidSyncSlots, Gives, IsSegment, MeetsMedium, UnlessSegment};

use crate::failed::Failed;
use crate::written::Written;
use hl_bytes::SegBuf;

/// A medium of slots, each of which holds one segment: as many blocks of 4,096 bytes as a slot has.
///
/// A slot that was written may hold any bytes after a stop until a sync succeeds; other slots stay. A buffer of another
/// size makes a read or a write fail, and changes nothing.
pub trait Volume {
    /// The number of slots, which never changes.
    ghost slots: { Self → ℕ };

    /// How many blocks a slot has, which never changes.
    ghost slot_blocks: { Self → ℕ };

    /// How many slots, from the first on, the medium has room for, where the volume tells it. It never changes.
    ghost capacity: { Self → Option ℕ };

    /// What the slots held at first and each write and sync since, the first of them first, where the volume tells it.
    ghost history: { Self → Option VolumeHistory };

    /// How often a read, a write or a sync has failed.
    ghost faults: { Self → ℕ };

    /// How many slots the volume has.
    fn slots(&self) -> u32
        ensures { result ≡ slots self.now };

    /// How often a read, a write or a sync has failed.
    fn faults(&self) -> u64
        ensures { result ≡ faults self.now };

    /// Reads what the slot holds.
    fn read_seg(&mut self, slot: u32, out: &mut SegBuf) -> Result<(), Failed>
        requires { slot < slots self.old }
        ensures bytes { OnOk result (Gives (history self.old) slot out.new) }
        ensures whole { OnOk result (IsSegment (slot_blocks self.old) out.old) }
        ensures size { length out.new ≡ length out.old }
        ensures other_size { UnlessSegment (slot_blocks self.old) out.old (out.new ≡ out.old) }
        ensures history { history self.new ≡ history self.old }
        ensures slots { slots self.new ≡ slots self.old }
        ensures slot_blocks { slot_blocks self.new ≡ slot_blocks self.old }
        ensures capacity { capacity self.new ≡ capacity self.old }
        ensures faults { HasCause (faults self.old) (faults self.new) result };

    /// Writes the slot, or meets the end of the medium. Until a sync succeeds a stop may leave any bytes in the slot,
    /// whatever this answers; after `Done` a read gives the buffer's, otherwise any.
    fn write_seg(&mut self, slot: u32, from: &SegBuf) -> Result<Written, Failed>
        requires { slot < slots self.old }
        ensures did { AddsCalls (history self.old) (history self.new) (DidWriteSlot slot from.now result) }
        ensures whole { OnOk result (IsSegment (slot_blocks self.old) from.now) }
        ensures other_size { UnlessSegment (slot_blocks self.old) from.now (history self.new ≡ history self.old) }
        ensures medium { IfOk result (MeetsMedium (capacity self.old) slot) }
        ensures slots { slots self.new ≡ slots self.old }
        ensures slot_blocks { slot_blocks self.new ≡ slot_blocks self.old }
        ensures capacity { capacity self.new ≡ capacity self.old }
        ensures faults { HasCause (faults self.old) (faults self.new) result };

    /// Makes all writes so far last: after it a stop leaves what each slot holds.
    fn sync(&mut self) -> Result<(), Failed>
        ensures did { AddsCalls (history self.old) (history self.new) (DidSyncSlots result) }
        ensures slots { slots self.new ≡ slots self.old }
        ensures slot_blocks { slot_blocks self.new ≡ slot_blocks self.old }
        ensures capacity { capacity self.new ≡ capacity self.old }
        ensures faults { HasCause (faults self.old) (faults self.new) result };
}
