//! What the changes of an overlay make of the nodes now, where it is over contents and stays so.
//! Nothing here does anything: each contract is a theorem.

ghost use Rattle.std.specs.Prelude.{◌≡◌, ℕ, ◌<◌, List, Option, Some, option_map, slice_index};
ghost use Rattle.std.specs.FinMap.{get};
ghost use Rattle.hl_media.specs.History.{Image};
ghost use Rattle.hl_addr.specs.Layout.{Layout};
ghost use Rattle.hl_tseg.specs.SlotTable.{SlotTable};
ghost use Rattle.hl_paths.specs.Nodes.{FlatNode, Nodes};
ghost use Rattle.hl_nodes.specs.Contents.{Contents};
ghost use Rattle.hl_overlay.specs.declared.draft.NodeDraft.{NodeDraft};
ghost use Rattle.hl_overlay.specs.declared.draft.Shape.{Shape};
ghost use Rattle.hl_overlay.specs.Overlays.{Holding};
ghost use Rattle.hl_overlaid.specs.NodesNow.{IsOverlaid, Overlaid, nodes_now, old_block, with_node};
ghost use Rattle.hl_overlaid.specs.Over.{IsOver};
ghost use Rattle.hl_overlaid.specs.Changes.{AdmitsNow, CanPut, PutsNow, ShapesNow, TrimsNow};
ghost use Rattle.hl_overlaid.specs.Changes.{HasNoChangedDraft, IsChangedDraft, KeepsAllSlots, KeepsOtherUses};
ghost use Rattle.hl_overlaid.specs.Changes.{block_held, reshaped, node_used, with_block, with_room, with_slot_table, with_uses};

/// A block is put, cleared or sent away: the number has a node, which has that block now and the
/// number's last use, and no other node changes.
pub fn a_block_is_put_into_its_node()
    ensures there { (g : Layout) (image : Image) (c : Contents) (old new : Overlaid) (ino i : ℕ)
        (h : Holding)
        → PutsNow g image c old new ino i h
        → (n : FlatNode) × (get (nodes_now old c.nodes) ino ≡ Some n) }
    ensures nodes { (g : Layout) (image : Image) (c : Contents) (old new : Overlaid) (ino i : ℕ)
        (h : Holding)
        → PutsNow g image c old new ino i h
        → (n : FlatNode) → get (nodes_now old c.nodes) ino ≡ Some n
        → let block = block_held (old_block (get c.nodes ino) i) h in
        let node = with_block n i block (slice_index new.uses ino) in
        nodes_now new c.nodes ≡ with_node (nodes_now old c.nodes) ino (Some node) }
    ensures over { (g : Layout) (image : Image) (c : Contents) (old new : Overlaid) (ino i : ℕ)
        (h : Holding)
        → (puts : PutsNow g image c old new ino i h)
        → CanPut g c.tables.slots new.slots puts.block.draft h → IsOver g new image c }
{}

/// A shape is set: the number has a node of the shape, with the blocks that it had below that size
/// and its last use, or none; and no other node changes.
pub fn a_shape_is_set()
    ensures nodes { (g : Layout) (image : Image) (c : Contents) (old new : Overlaid) (ino : ℕ)
        (shape : Option Shape)
        → ShapesNow g image c old new ino shape
        → let was = get (nodes_now old c.nodes) ino in
        let node = option_map (reshaped was (slice_index new.uses ino)) shape in
        nodes_now new c.nodes ≡ with_node (nodes_now old c.nodes) ino node }
    ensures over { (g : Layout) (image : Image) (c : Contents) (old new : Overlaid) (ino : ℕ)
        (shape : Option Shape)
        → ShapesNow g image c old new ino shape → IsOver g new image c }
{}

/// To draft a node as it was read changes no node.
pub fn to_admit_a_draft_changes_no_node()
    ensures nodes { (g : Layout) (image : Image) (c : Contents) (old new : Overlaid) (d : NodeDraft)
        → AdmitsNow g image c old new d → nodes_now new c.nodes ≡ nodes_now old c.nodes }
    ensures over { (g : Layout) (image : Image) (c : Contents) (old new : Overlaid) (d : NodeDraft)
        → AdmitsNow g image c old new d → IsOver g new image c }
{}

/// To trim drafts changes no node.
pub fn to_trim_drafts_changes_no_node()
    ensures nodes { (g : Layout) (image : Image) (c : Contents) (old new : Overlaid) (most : ℕ)
        → TrimsNow g image c old new most → nodes_now new c.nodes ≡ nodes_now old c.nodes }
    ensures over { (g : Layout) (image : Image) (c : Contents) (old new : Overlaid) (most : ℕ)
        → TrimsNow g image c old new most → IsOver g new image c }
{}

/// To make room for new blocks, or to give it up, changes no node.
pub fn to_make_room_changes_no_node()
    ensures nodes { (o : Overlaid) (room : ℕ) (last : Nodes)
        → nodes_now (with_room o room) last ≡ nodes_now o last }
    ensures over { (g : Layout) (image : Image) (c : Contents) (o : Overlaid) (room : ℕ)
        → IsOver g o image c → IsOver g (with_room o room) image c }
{}

/// A number is used at another moment: its node is used then, if it has a changed draft, and else no
/// node changes.
pub fn a_use_shows_in_a_changed_draft()
    ensures shows { (g : Layout) (o : Overlaid) → IsOverlaid g o → (uses : List ℕ) (ino : ℕ)
        → KeepsOtherUses o.uses uses ino → (c : Contents) → ino < g.inodes → IsChangedDraft o ino
        → let was = get (nodes_now o c.nodes) ino in
        let node = option_map (node_used (slice_index uses ino)) was in
        nodes_now (with_uses o uses) c.nodes ≡ with_node (nodes_now o c.nodes) ino node }
    ensures waits { (g : Layout) (o : Overlaid) → IsOverlaid g o → (uses : List ℕ) (ino : ℕ)
        → KeepsOtherUses o.uses uses ino → (last : Nodes) → HasNoChangedDraft o ino
        → nodes_now (with_uses o uses) last ≡ nodes_now o last }
    ensures over { (g : Layout) (image : Image) (c : Contents) (o : Overlaid) → IsOverlaid g o
        → (uses : List ℕ) (ino : ℕ) → KeepsOtherUses o.uses uses ino → ino < g.inodes
        → IsOver g o image c → IsOver g (with_uses o uses) image c }
{}

/// To note slots changes no node, and the overlay stays over contents where each segment of which a
/// node now has a block stays in its slots.
pub fn to_note_slots_changes_no_node()
    ensures nodes { (o : Overlaid) (slots : SlotTable) (last : Nodes)
        → nodes_now (with_slot_table o slots) last ≡ nodes_now o last }
    ensures over { (g : Layout) (image : Image) (c : Contents) (o : Overlaid) (slots : SlotTable)
        → IsOverlaid g o → IsOver g o image c → KeepsAllSlots o c.nodes slots
        → IsOver g (with_slot_table o slots) image c }
{}
