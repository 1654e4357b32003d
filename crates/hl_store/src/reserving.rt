//! Memory that is taken before it is used, and the unit buffer.

ghost use Rattle.std.specs.Prelude.{◌≡◌, ◌+◌, ◌*◌, ◌<◌, ◌≤◌, ◌^◌, [], false, true, IfOk, OnErr, OnOk, length};
ghost use Rattle.std.specs.Vec.{vec_capacity};
ghost use Rattle.hl_store.specs.Reserving.{KeepsButMemory, KeepsEach, ReserveEnds, Reserves};
ghost use Rattle.hl_store.specs.Values.{layout};

use crate::answers::Prepared;
use crate::store::Store;
use hl_bytes::{SegBuf, TableRecord};
use hl_media::Machine;
use std::alloc::{AllocError, Global};

/// The sum of three numbers. It fails where that is 2^32 or more.
fn sum(a: usize, b: usize, c: usize) -> Result<u32, AllocError>
    ensures value { IfOk result (λ n. n ≡ a + b + c) }
    ensures small { IfOk result (λ n. n < 2 ^ 32) }
{
    let Some(two) = a.checked_add(b) else {
        return Err(AllocError);
    };
    let Some(three) = two.checked_add(c) else {
        return Err(AllocError);
    };
    match u32::try_from(three) {
        Ok(n) => Ok(n),
        Err(_) => Err(AllocError),
    }
}

/// Takes memory for so many addresses and changes of a unit, and for so many notes more.
fn take_memory(
    plan: &mut Vec<u32>,
    changes: &mut Vec<TableRecord>,
    notes: &mut Vec<TableRecord>,
    blocks: u32,
    count: u32,
    more: u32,
) -> Result<(), AllocError>
    requires empty_plan { plan.old.items ≡ [] }
    requires empty_changes { changes.old.items ≡ [] }
    ensures plan { OnOk result (blocks ≤ vec_capacity plan.new) }
    ensures changes { OnOk result (count ≤ vec_capacity changes.new) }
    ensures notes { OnOk result (length notes.old.items + more ≤ vec_capacity notes.new) }
    ensures no_plan { plan.new.items ≡ [] }
    ensures no_changes { changes.new.items ≡ [] }
    ensures same_notes { notes.new.items ≡ notes.old.items }
    ensures much_plan { vec_capacity plan.old ≤ vec_capacity plan.new }
    ensures much_changes { vec_capacity changes.old ≤ vec_capacity changes.new }
    ensures much_notes { vec_capacity notes.old ≤ vec_capacity notes.new }
{
    plan.reserve(blocks as usize)?;
    changes.reserve(count as usize)?;
    notes.reserve(more as usize)?;
    Ok(())
}

impl<M: Machine> Store<M> {
    /// Makes room for so many notes and for the next unit.
    fn make_room(&mut self, tables: u32) -> Result<(), AllocError>
        ensures ok { OnOk result (Reserves self.old self.new tables) }
        ensures err { OnErr result (KeepsButMemory self.old self.new) }
    {
        let held = self.overlay.held();
        let others = sum(held, held, 0)?;
        let fresh = self.overlay.new_blocks() as usize;
        let blocks = sum(fresh, self.overlay.room(), others as usize)?;
        let count = sum(held, self.notes.len(), tables as usize)?;
        take_memory(
            &mut self.plan,
            &mut self.changes,
            &mut self.notes,
            blocks,
            count,
            tables,
        )?;
        self.overlay.reserve(others)?;
        Ok(())
    }

    /// Makes room for so many notes, and for the next flush of what is dirty or prepared now: after `Ready` these aren't
    /// refused for memory, until more is prepared. It calls no device.
    pub fn reserve(&mut self, alloc: Global, tables: u32) -> Prepared
        ensures { ReserveEnds self.old self.new tables result }
    {
        let _ = alloc;
        match self.make_room(tables) {
            Ok(()) => Prepared::Ready,
            Err(AllocError) => Prepared::Memory,
        }
    }

    /// Hands the unit buffer out.
    pub fn take_buf(&mut self) -> SegBuf
        requires { self.old.has_buffer ≡ true }
        ensures size { length result ≡ 4096 * (layout self.old).k }
        ensures same { self.new ≡ record self.old { has_buffer = false } }
        ensures keeps { KeepsEach self.old self.new }
    {
        match self.buffer.take() {
            Some(buffer) => buffer,
            None => unreachable!(),
        }
    }

    /// Gives the unit buffer back.
    pub fn give_buf(&mut self, buf: SegBuf)
        requires absent { self.old.has_buffer ≡ false }
        requires size { length buf ≡ 4096 * (layout self.old).k }
        ensures same { self.new ≡ record self.old { has_buffer = true } }
        ensures keeps { KeepsEach self.old self.new }
    {
        self.buffer = Some(buf);
    }
}
