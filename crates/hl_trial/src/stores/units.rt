//! Units, checkpoints and notes of a store.

ghost use Rattle.std.specs.Prelude.{IsTrue};
ghost use Rattle.hl_store.specs.Shapes.{IsNoteOf};
ghost use Rattle.hl_store.specs.Values.{layout};

use hl_addr::Geometry;
use hl_bytes::TableRecord;
use hl_log::UnitAnswer;
use hl_media::Machine;
use hl_store::Store;
use std::alloc::{AllocError, Global};

/// Writes a unit of what is dirty or noted, and then a checkpoint. Where the unit isn't written its answer is given.
pub fn checkpoint<M: Machine>(store: &mut Store<M>, alloc: Global) -> UnitAnswer {
    match store.flush(alloc) {
        UnitAnswer::Written { .. } => store.checkpoint(alloc),
        answer => answer,
    }
}

/// Whether a change is one of a slot or a volume of the site.
fn is_note(site: &Geometry, change: &TableRecord) -> bool
    ensures { IsTrue result → IsNoteOf site.now change.now }
{
    let is_slot = change.a < site.slots();
    match change.kind {
        2 => is_slot,
        3 => is_slot && change.b == 0,
        4 => is_slot && change.b == 0 && change.serial == 0,
        5 => {
            let is_volume = (change.a as usize) < site.volumes.items().len();
            is_volume && change.b == 0 && change.serial == 0
        }
        _ => false,
    }
}

/// Notes a change of a slot or a volume; none where it is no such change of the site.
pub fn note<M: Machine>(
    store: &mut Store<M>,
    change: TableRecord,
) -> Option<Result<(), AllocError>> {
    if !is_note(store.geometry(), &change) {
        return None;
    }
    Some(store.note(change))
}
