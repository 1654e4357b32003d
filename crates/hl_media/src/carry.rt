//! The carrying of a job.

ghost use Rattle.std.specs.Prelude.{◌≡◌, ◌<◌, None, length, OnOk, IfOk};
ghost use Rattle.hl_media.specs.Causes.{HasCause};
ghost use Rattle.hl_media.specs.Volumes.{Gives, IsSegment, KeepsOthers, MeetsMedium, NowLasts};
ghost use Rattle.hl_media.specs.declared.job.JobKind.TheVariants.{Copy, Fetch};
ghost use Rattle.hl_media.specs.Carries.{AddsSyncedSlot, CopyLasts, CountsFault, EndsBy, FaultCounts, FetchHolds, FitsSlot, MediumEnds, OnCopy, OnDone, OnFetch, OtherSlotsStay, StaysOf, carried_job};

use crate::failed::Failed;
use crate::job::{Carried, Job, JobKind};
use crate::volume::Volume;
use crate::written::Written;
use hl_bytes::SegBuf;

impl<V: Volume> Job<V> {
    /// Carries the segment, once, and keeps the answer in `carried`. A copy writes its slot and syncs the volume; a
    /// fetch reads its slot into the buffer. It takes no memory.
    pub fn carry(&mut self) -> Carried
        requires fresh { self.old.carried ≡ None }
        requires within { self.old.slot < V.slots self.old.loaded.volume }
        ensures same { self.new ≡ carried_job self.old self.new.buf self.new.loaded.volume result }
        ensures lasts { CopyLasts V.history self.old self.new result }
        ensures fetched { FetchHolds V.history self.old self.new result }
        ensures whole { FitsSlot V.slot_blocks self.old result }
        ensures others { OtherSlotsStay V.history self.old self.new }
        ensures reads { OnFetch self.old.kind (StaysOf V.history self.old self.new) }
        ensures buffer { OnCopy self.old.kind (self.new.buf ≡ self.old.buf) }
        ensures size { length self.new.buf ≡ length self.old.buf }
        ensures medium { MediumEnds V.capacity self.old result }
        ensures faults { FaultCounts V.faults self.old self.new result }
        ensures slots { StaysOf V.slots self.old self.new }
        ensures slot_blocks { StaysOf V.slot_blocks self.old self.new }
        ensures capacity { StaysOf V.capacity self.old self.new }
    {
        let carried = carry_segment(self.kind, &mut self.loaded.volume, self.slot, &mut self.buf);
        self.carried = Some(carried);
        carried
    }
}

// Carries a segment between the slot and the buffer, and says how that ended.
fn carry_segment<V: Volume>(kind: JobKind, volume: &mut V, slot: u32, buf: &mut SegBuf) -> Carried
    requires { slot < V.slots volume.old }
    ensures lasts { OnCopy kind (OnDone result (NowLasts (V.history volume.new) slot buf.old)) }
    ensures fetched { OnFetch kind (OnDone result (Gives (V.history volume.old) slot buf.new)) }
    ensures whole { OnDone result (IsSegment (V.slot_blocks volume.old) buf.old) }
    ensures others { KeepsOthers (V.history volume.old) (V.history volume.new) slot }
    ensures reads { OnFetch kind (V.history volume.new ≡ V.history volume.old) }
    ensures buffer { OnCopy kind (buf.new ≡ buf.old) }
    ensures size { length buf.new ≡ length buf.old }
    ensures medium { EndsBy kind slot (V.capacity volume.old) result }
    ensures faults { CountsFault (V.faults volume.old) (V.faults volume.new) result }
    ensures slots { V.slots volume.new ≡ V.slots volume.old }
    ensures slot_blocks { V.slot_blocks volume.new ≡ V.slot_blocks volume.old }
    ensures capacity { V.capacity volume.new ≡ V.capacity volume.old }
{
    match kind {
        JobKind::Copy => copy_out(volume, slot, buf),
        JobKind::Fetch => fetch_in(volume, slot, buf),
    }
}

// Writes the slot and syncs the volume, and says how that ended.
fn copy_out<V: Volume>(volume: &mut V, slot: u32, from: &SegBuf) -> Carried
    requires { slot < V.slots volume.old }
    ensures lasts { OnDone result (NowLasts (V.history volume.new) slot from.now) }
    ensures whole { OnDone result (IsSegment (V.slot_blocks volume.old) from.now) }
    ensures others { KeepsOthers (V.history volume.old) (V.history volume.new) slot }
    ensures medium { EndsBy Copy slot (V.capacity volume.old) result }
    ensures faults { CountsFault (V.faults volume.old) (V.faults volume.new) result }
    ensures slots { V.slots volume.new ≡ V.slots volume.old }
    ensures slot_blocks { V.slot_blocks volume.new ≡ V.slot_blocks volume.old }
    ensures capacity { V.capacity volume.new ≡ V.capacity volume.old }
{
    match write_seg_synced(volume, slot, from) {
        Ok(Written::Done) => Carried::Done,
        Ok(Written::EndOfMedium) => Carried::EndOfMedium,
        Err(Failed) => Carried::Fault {
            faults: volume.faults(),
        },
    }
}

// Reads the slot into the buffer, and says how that ended.
fn fetch_in<V: Volume>(volume: &mut V, slot: u32, out: &mut SegBuf) -> Carried
    requires { slot < V.slots volume.old }
    ensures fetched { OnDone result (Gives (V.history volume.old) slot out.new) }
    ensures whole { OnDone result (IsSegment (V.slot_blocks volume.old) out.old) }
    ensures size { length out.new ≡ length out.old }
    ensures history { V.history volume.new ≡ V.history volume.old }
    ensures medium { EndsBy Fetch slot (V.capacity volume.old) result }
    ensures faults { CountsFault (V.faults volume.old) (V.faults volume.new) result }
    ensures slots { V.slots volume.new ≡ V.slots volume.old }
    ensures slot_blocks { V.slot_blocks volume.new ≡ V.slot_blocks volume.old }
    ensures capacity { V.capacity volume.new ≡ V.capacity volume.old }
{
    match volume.read_seg(slot, out) {
        Ok(()) => Carried::Done,
        Err(Failed) => Carried::Fault {
            faults: volume.faults(),
        },
    }
}

// Writes the slot, and syncs the volume where that was done.
fn write_seg_synced<V: Volume>(volume: &mut V, slot: u32, from: &SegBuf) -> Result<Written, Failed>
    requires { slot < V.slots volume.old }
    ensures did { AddsSyncedSlot (V.history volume.old) (V.history volume.new) slot from.now result }
    ensures whole { OnOk result (IsSegment (V.slot_blocks volume.old) from.now) }
    ensures medium { IfOk result (MeetsMedium (V.capacity volume.old) slot) }
    ensures faults { HasCause (V.faults volume.old) (V.faults volume.new) result }
    ensures slots { V.slots volume.new ≡ V.slots volume.old }
    ensures slot_blocks { V.slot_blocks volume.new ≡ V.slot_blocks volume.old }
    ensures capacity { V.capacity volume.new ≡ V.capacity volume.old }
{
    let met = volume.write_seg(slot, from)?;
    if met == Written::EndOfMedium {
        return Ok(met);
    }
    volume.sync()?;
    Ok(met)
}
