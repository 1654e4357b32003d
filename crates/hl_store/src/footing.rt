//! What a draft stands on.

ghost use Rattle.std.specs.Prelude.{◌≡◌, ◌<◌, Some, IsSome, length};
ghost use Rattle.hl_overlay.specs.declared.draft.NodeDraft.{NodeDraft as Draft};
ghost use Rattle.hl_overlay.specs.DraftTables.{draft_of};
ghost use Rattle.hl_overlay.specs.Overlays.{IsWholeOverlay};
ghost use Rattle.hl_store.specs.Footings.{footing_of};

use hl_overlay::{NodeDraft, Overlay};

/// What of a draft its next change may let go: its inode's block and its pointer block.
#[derive(Clone, Copy)]
pub(crate) struct Footing {
    /// Whether the draft was changed since the last unit, so that its inode's block is let go already.
    pub(crate) changed: bool,
    /// The address of its inode's block, `NOTHING` where it has none.
    pub(crate) own: u32,
    /// The address of its pointer block, `NOTHING` where it has none or let it go already.
    pub(crate) single: u32,
    /// Whether a block from 12 on isn't a hole.
    pub(crate) far: bool,
}

impl Footing {
    /// That of a draft.
    fn of(draft: &NodeDraft) -> Footing
        ensures value { result ≡ footing_of draft.now }
        ensures pointers { length draft.now.pointers ≡ 1036 }
    {
        Footing {
            changed: draft.changed,
            own: draft.own,
            single: draft.single,
            far: draft.has_far(),
        }
    }
}

/// That of a number that is drafted.
pub(crate) fn drafted_footing(overlay: &Overlay, ino: u32) -> Footing
    requires number { ino < length overlay.now.drafts.places }
    requires drafted { IsSome (draft_of overlay.now.drafts ino) }
    ensures value { (d : Draft) → draft_of overlay.now.drafts ino ≡ Some d → result ≡ footing_of d }
    ensures pointers { (d : Draft)
        → draft_of overlay.now.drafts ino ≡ Some d → length d.pointers ≡ 1036 }
    ensures whole { IsWholeOverlay overlay.now }
{
    match overlay.draft(ino) {
        Some(draft) => Footing::of(draft),
        None => unreachable!(),
    }
}
