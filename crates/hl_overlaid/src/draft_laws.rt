//! What a draft says of the node that its number has now. Nothing here does anything: each contract
//! is a theorem.

ghost use Rattle.std.specs.Prelude.{◌≡◌, ◌≢◌, ℕ, ◌<◌, Some, option_map};
ghost use Rattle.std.specs.FinMap.{get};
ghost use Rattle.hl_media.specs.History.{Image};
ghost use Rattle.hl_addr.specs.Layout.{Layout};
ghost use Rattle.hl_image.specs.Places.{log_end};
ghost use Rattle.hl_placed.specs.Blocks.{file_block};
ghost use Rattle.hl_paths.specs.Nodes.{FlatNode};
ghost use Rattle.hl_nodes.specs.Blocks.{StandsFor};
ghost use Rattle.hl_nodes.specs.Live.{IsLive};
ghost use Rattle.hl_nodes.specs.Contents.{Contents, HasContents};
ghost use Rattle.hl_overlay.specs.declared.draft.NodeDraft.{NodeDraft};
ghost use Rattle.hl_overlay.specs.DraftTables.{draft_of};
ghost use Rattle.hl_overlay.specs.Overlays.{Holding, holding};
ghost use Rattle.hl_overlay.specs.Overlays.Holding.{Remains};
ghost use Rattle.hl_overlaid.specs.NodesNow.{IsOverlaid, Overlaid, nodes_now, old_block};
ghost use Rattle.hl_overlaid.specs.Over.{IsDraftOf, IsOver};
ghost use Rattle.hl_overlaid.specs.Reading.{ReadsNode, ReadsUnused};
ghost use Rattle.hl_overlaid.specs.Changes.{block_held, node_shape};

/// A draft has the shape of the node that its number has now, and each of its blocks is that of the
/// node. An address that it keeps stands for the block, by the image and the slots now.
pub fn a_draft_is_of_the_node_now()
    ensures shape { (g : Layout) (image : Image) (c : Contents) (o : Overlaid)
        → HasContents g image c → IsOverlaid g o → IsOver g o image c
        → (ino : ℕ) → ino < g.inodes → (d : NodeDraft) → draft_of o.overlay.drafts ino ≡ Some d
        → d.shape ≡ option_map node_shape (get (nodes_now o c.nodes) ino) }
    ensures blocks { (g : Layout) (image : Image) (c : Contents) (o : Overlaid)
        → HasContents g image c → IsOverlaid g o → IsOver g o image c
        → (ino : ℕ) → ino < g.inodes → (d : NodeDraft) → draft_of o.overlay.drafts ino ≡ Some d
        → (i : ℕ) → i < 1036 → (h : Holding) → holding o.overlay ino i ≡ Some h
        → old_block (get (nodes_now o c.nodes) ino) i
        ≡ block_held (old_block (get c.nodes ino) i) h }
    ensures kept { (g : Layout) (image : Image) (c : Contents) (o : Overlaid)
        → HasContents g image c → IsOverlaid g o → IsOver g o image c
        → (ino : ℕ) → ino < g.inodes → (d : NodeDraft) → draft_of o.overlay.drafts ino ≡ Some d
        → (i addr : ℕ) → i < 1036 → holding o.overlay ino i ≡ Some (Remains addr)
        → (n : FlatNode) → get (nodes_now o c.nodes) ino ≡ Some n
        → StandsFor g o.slots image n.kind addr (file_block n.content i) × (addr ≢ 4294967295) }
{}

/// An overlay over contents of an image is over them on each image with the same live blocks, so on
/// each with the same log; and it is over contents with the same nodes, inodes and slots.
pub fn an_overlay_is_over_what_its_contents_reach()
    ensures live { (g : Layout) (a b : Image) (c : Contents) (o : Overlaid)
        → HasContents g a c
        → ((address : ℕ) → IsLive g a c.rec c.tables address → b address ≡ a address)
        → IsOver g o a c → IsOver g o b c }
    ensures log { (g : Layout) (a b : Image) (c : Contents) (o : Overlaid)
        → HasContents g a c → ((k : ℕ) → k < log_end g → b k ≡ a k) → IsOver g o a c
        → IsOver g o b c }
    ensures contents { (g : Layout) (image : Image) (c e : Contents) (o : Overlaid)
        → e.nodes ≡ c.nodes → e.tables.inodes ≡ c.tables.inodes → e.tables.slots ≡ c.tables.slots
        → IsOver g o image c → IsOver g o image e }
{}

/// A draft as it was read of contents is of what they have: that of a number that isn't in use, and
/// that of an inode, with the pointers of its pointer block if it has one.
pub fn a_draft_as_it_was_read_is_of_the_contents()
    ensures unused { (g : Layout) (image : Image) (c : Contents) → HasContents g image c
        → (d : NodeDraft) → ReadsUnused g c d → IsDraftOf g image c d }
    ensures node { (g : Layout) (image : Image) (c : Contents) → HasContents g image c
        → (d : NodeDraft) → ReadsNode g image c d → IsDraftOf g image c d }
{}
