//! Changes of slots and volumes that the next unit is to have.

ghost use Rattle.std.specs.Prelude.{◌≡◌, OnErr, OnOk};
ghost use Rattle.hl_nodes.specs.Tables.{raised};
ghost use Rattle.hl_store.specs.Values.{layout};
ghost use Rattle.hl_store.specs.Shapes.{IsNoteOf};
ghost use Rattle.hl_store.specs.Noting.{Notes};
ghost use Rattle.hl_store.specs.Reserving.{IsNoteRefused};

use crate::store::Store;
use hl_bytes::TableRecord;
use hl_media::Machine;
use std::alloc::AllocError;

/// The next tertiary serial behind a change of the tables.
fn raised(next: u64, change: &TableRecord) -> u64
    ensures { result ≡ raised next change.now }
{
    if change.kind == 2 {
        next.max(change.serial.saturating_add(1))
    } else {
        next
    }
}

impl<M: Machine> Store<M> {
    /// Makes a change of a slot or a volume in the tables, and puts it into the next unit. Nothing changes where memory is
    /// wanted, which is never so where it was reserved.
    pub fn note(&mut self, change: TableRecord) -> Result<(), AllocError>
        requires { IsNoteOf (layout self.old) change }
        ensures noted { OnOk result (Notes self.old self.new change) }
        ensures err { OnErr result (IsNoteRefused self.old self.new) }
    {
        self.overlay.tell_whole();
        // What a table of slots keeps is told by lending them.
        let _ = self.tables.slots().items();
        self.notes.push(change)?;
        self.tables.lay(0, 0, &[], &[change]);
        self.tseg_serial = raised(self.tseg_serial, &change);
        Ok(())
    }
}
