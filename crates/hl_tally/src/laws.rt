//! What each change makes of the counts. Nothing here does anything: each contract is a theorem.

ghost use Rattle.std.specs.Prelude.{◌≡◌, ℕ, ◌+◌, ◌-◌, ◌<◌, ◌≤◌};
ghost use Rattle.std.specs.Prelude.{[], List, Option, Some, slice_index};
ghost use Rattle.hl_media.specs.History.{Image};
ghost use Rattle.hl_addr.specs.Layout.{Layout};
ghost use Rattle.hl_overlay.specs.declared.draft.NodeDraft.{NodeDraft};
ghost use Rattle.hl_overlay.specs.declared.draft.Shape.{Shape};
ghost use Rattle.hl_overlay.specs.DraftTables.{draft_of};
ghost use Rattle.hl_overlay.specs.Overlays.{Holding};
ghost use Rattle.hl_image.specs.Places.{log_end};
ghost use Rattle.hl_tseg.specs.SlotTable.{SlotTable};
ghost use Rattle.hl_nodes.specs.Contents.{Contents, HasContents};
ghost use Rattle.hl_nodes.specs.Live.{IsLive, LiveBlock};
ghost use Rattle.hl_nodes.specs.LiveNumbers.{HasLiveBlocks};
ghost use Rattle.hl_nodes.specs.Sound.{HasSound};
ghost use Rattle.hl_overlaid.specs.NodesNow.{IsOverlaid, Overlaid};
ghost use Rattle.hl_overlaid.specs.Changes.{AdmitsNow, KeepsOtherUses, ShapesNow, TrimsNow};
ghost use Rattle.hl_overlaid.specs.Changes.{with_room, with_slot_table, with_uses};
ghost use Rattle.hl_tally.specs.Tally.{IsTally, StaysLive, Tally};
ghost use Rattle.hl_tally.specs.Counting.{ChangesBlock, CountsLive, block_counted, shape_counted};

/// To draft a node as it was read changes nothing that is counted, and neither does letting it go.
pub fn reads_keep_the_tally()
    ensures admits { (g : Layout) (image : Image) (c : Contents) (old new : Overlaid)
        (d : NodeDraft) (n : Tally)
        → AdmitsNow g image c old new d → IsTally g old image c n → IsTally g new image c n }
    ensures trims { (g : Layout) (image : Image) (c : Contents) (old new : Overlaid) (most : ℕ)
        (n : Tally)
        → TrimsNow g image c old new most → IsTally g old image c n → IsTally g new image c n }
{}

/// A block that is put, cleared or sent away.
pub fn changed_blocks_are_counted()
    ensures { (g : Layout) (image : Image) (c : Contents) (old new : Overlaid) (ino i : ℕ)
        (h : Holding) (d e : NodeDraft) (n : Tally)
        → ChangesBlock g image c old new ino i h d e
        → IsTally g old image c n → IsTally g new image c (block_counted g i h d e n) }
{}

/// A number that comes into use, stays in use with another shape, or becomes free.
pub fn changed_shapes_are_counted()
    ensures { (g : Layout) (image : Image) (c : Contents) (old new : Overlaid) (ino : ℕ)
        (shape : Option Shape) (d : NodeDraft) (n : Tally)
        → ShapesNow g image c old new ino shape → draft_of old.overlay.drafts ino ≡ Some d
        → IsTally g old image c n → IsTally g new image c (shape_counted g ino shape d n) }
{}

/// What is counted is so on each image with the same live blocks, so on each with the same log; and
/// with other room for new blocks, other slots, and another last use of a number.
pub fn the_tally_is_of_live_blocks_and_drafts()
    ensures live { (g : Layout) (a b : Image) (c : Contents) (o : Overlaid) (n : Tally)
        → HasContents g a c
        → ((address : ℕ) → IsLive g a c.rec c.tables address → b address ≡ a address)
        → IsTally g o a c n → IsTally g o b c n }
    ensures log { (g : Layout) (a b : Image) (c : Contents) (o : Overlaid) (n : Tally)
        → HasContents g a c → ((k : ℕ) → k < log_end g → b k ≡ a k)
        → IsTally g o a c n → IsTally g o b c n }
    ensures room { (g : Layout) (image : Image) (c : Contents) (o : Overlaid) (room : ℕ) (n : Tally)
        → IsTally g o image c n → IsTally g (with_room o room) image c n }
    ensures slots { (g : Layout) (image : Image) (c : Contents) (o : Overlaid) (slots : SlotTable)
        (n : Tally)
        → IsTally g o image c n → IsTally g (with_slot_table o slots) image c n }
    ensures uses { (g : Layout) (image : Image) (c : Contents) (o : Overlaid) → IsOverlaid g o
        → (uses : List ℕ) (ino : ℕ) (n : Tally) → KeepsOtherUses o.uses uses ino → ino < g.inodes
        → IsTally g o image c n → IsTally g (with_uses o uses) image c n }
{}

/// Where nothing is drafted over sound contents, all their live blocks are counted.
pub fn a_mount_counts_all_live_blocks()
    ensures { (g : Layout) (image : Image) (c : Contents) (o : Overlaid) (addresses : List ℕ)
        (n : Tally)
        → CountsLive g image c o addresses n → IsTally g o image c n }
{}

/// A live number is at most the number of a segment's blocks. Where it is 0 no live block of the
/// segment stays, and where nothing is drafted it is that of the contents' blocks.
pub fn live_numbers_tell_of_segments()
    ensures most { (g : Layout) (image : Image) (c : Contents) (o : Overlaid) (n : Tally)
        (segment : ℕ)
        → HasSound g image c → IsTally g o image c n → 1 ≤ segment → segment ≤ g.log
        → slice_index n.live (segment - 1) ≤ g.k }
    ensures none { (g : Layout) (image : Image) (c : Contents) (o : Overlaid) (n : Tally)
        (segment : ℕ)
        → IsTally g o image c n → 1 ≤ segment → segment ≤ g.log
        → slice_index n.live (segment - 1) ≡ 0
        → (x : LiveBlock) → ¬ StaysLive g o.overlay image c segment x }
    ensures parts { (g : Layout) (image : Image) (c : Contents) (o : Overlaid) (n : Tally)
        (segment : ℕ)
        → IsTally g o image c n → 1 ≤ segment → segment ≤ g.log → o.overlay.drafts.items ≡ []
        → (charge tables : ℕ) × HasLiveBlocks g image c.rec c.tables segment charge tables
        × (slice_index n.live (segment - 1) ≡ charge + tables) }
{}
