//! Where parts and segments say which blocks stand there. Nothing here does anything: each contract
//! is a theorem.

ghost use Rattle.std.specs.Prelude.{◌≡◌, ℕ, ◌<◌, true, List, length, Option};
ghost use Rattle.hl_media.specs.History.{Image, History, MachineState};
ghost use Rattle.hl_media.specs.Moments.{Runs, Ends};
ghost use Rattle.hl_addr.specs.Layout.{Layout, IsWithinLimits};
ghost use Rattle.hl_super.specs.declared.record.Record.{Record};
ghost use Rattle.hl_summary.specs.declared.parts.Summary.{Summary};
ghost use Rattle.hl_image.specs.Places.{log_end};
ghost use Rattle.hl_image.specs.Chain.{cut};
ghost use Rattle.hl_log.specs.declared.position.Position.{Position};
ghost use Rattle.hl_log.specs.declared.piece.Piece.{Piece};
ghost use Rattle.hl_log.specs.Rest.{IsAtRest, StopLeaves};
ghost use Rattle.hl_log.specs.Units.{Brought, Numbered, WritesUnit, HasWritten, moved};
ghost use Rattle.hl_log.specs.Checkpoints.{Given, HasNew, KeepsRest, Checkpoints, HasCheckpointed};
ghost use Rattle.hl_tables.specs.Values.{TableValues};
ghost use Rattle.hl_paths.specs.Nodes.{Nodes};
ghost use Rattle.hl_nodes.specs.Contents.{Contents, Rests};
ghost use Rattle.hl_nodes.specs.Checkpoints.{contents_of_tables, Carries, checkpointed};
ghost use Rattle.hl_nodes.specs.Listing.{AreListed, IsListed, AreNodesListed, ListsUnit};
ghost use Rattle.hl_nodes.specs.Listing.{HoldsListed, MovesListed, HasMovedListed, KeepsListed};
ghost use Rattle.hl_nodes.specs.Listing.{HasKeptListed};
ghost use Rattle.hl_nodes.specs.Sound.{head_of};
ghost use Rattle.hl_placed.specs.Blocks.{Shelf};
ghost use Rattle.hl_nodes.specs.AwayListing.{AreAwayListed, HoldsAwayListed, KeepsAway, SameLines};

/// While nothing is written in the log, whatever a stop leaves has its live blocks listed, and
/// others may write behind it.
pub fn a_log_at_rest_keeps_blocks_listed()
    ensures leaves { (g : Layout) (p : Position) (clean : List ℕ) (c : Contents) (s : MachineState)
        → Rests g p clean c s → AreListed g s.content c (head_of c.rec c.parts)
        → StopLeaves g p (λ image. HoldsListed g image c) s }
    ensures same { (g : Layout) (p : Position) (clean : List ℕ) (c : Contents) (s : MachineState)
        → Rests g p clean c s → (image : Image) → ((k : ℕ) → k < log_end g → image k ≡ s.content k)
        → AreListed g s.content c (head_of c.rec c.parts)
        → AreListed g image c (head_of c.rec c.parts) }
{}

/// At each moment of a unit over contents whose live blocks are listed, whatever a stop leaves has
/// the contents before it or those behind it, and their live blocks are listed. So it is
/// afterwards.
pub fn units_keep_blocks_listed()
    ensures crash { (g : Layout) (p : Position) (clean : List ℕ) (u : Brought)
        (before now : Option History)
        → Runs before now (WritesUnit g p clean u) → Runs before now (MovesListed g p clean u) }
    ensures ends { (g : Layout) (p : Position) (clean : List ℕ) (u : Brought) (q : Position)
        (left : List ℕ)
        (before now : Option History)
        → u.closes ≡ true → q ≡ moved p q.head q.serial
        → Ends before now (HasWritten g p clean u q left)
        → Ends before now (HasMovedListed g p clean u) }
{}

/// The same of a checkpoint: behind its record the table blocks are listed too.
pub fn checkpoints_keep_blocks_listed()
    ensures crash { (g : Layout) (p : Position) (clean : List ℕ) (d : Given) (t : TableValues)
        (before now : Option History)
        → Runs before now (Checkpoints g p clean d (contents_of_tables g t))
        → Runs before now (KeepsListed g p clean d t) }
    ensures ends { (g : Layout) (p : Position) (clean : List ℕ) (d : Given) (t : TableValues)
        (q : Position)
        (left : List ℕ) (new : Record) (before now : Option History)
        → Ends before now (HasCheckpointed g p clean d (contents_of_tables g t) q left new)
        → Ends before now (HasKeptListed g p clean d t new) }
{}

/// A unit lists its blocks, and keeps listed what wasn't free, whatever else the image holds: also
/// before a disk has its first record.
pub fn a_unit_lists_its_blocks()
    ensures { (g : Layout) (p : Position) (clean : List ℕ) (u : Brought) (q : Position)
        (left : List ℕ)
        (parts : List Summary) (first : MachineState) (s : MachineState)
        → IsWithinLimits g → IsAtRest g p clean parts first → q ≡ moved p q.head q.serial
        → cut parts ≡ parts
        → Numbered g p clean (length u.records) (length u.changes)
        → HasWritten g p clean u q left first s
        → IsListed g first.content p.head.seg p.head.block
        → (pieces : List Piece) × ListsUnit g p clean u q left pieces first s }
{}

/// The first checkpoint of a disk: with its record the contents are listed, where the blocks of the
/// nodes that its tables name were.
pub fn a_first_checkpoint_lists_its_blocks()
    ensures { (g : Layout) (p : Position) (clean : List ℕ) (parts : List Summary) (t : TableValues)
        (nodes : Nodes) (first : MachineState)
        → Carries g p clean parts t nodes first → (d : Given) → d.volumes ≡ g.volumes
        → (image : Image) → KeepsRest g p clean first image
        → AreNodesListed g first.content t p.head
        → (new : Record) → HasNew g p clean d (contents_of_tables g t) new image
        → HoldsListed g image (checkpointed new t nodes) }
{}

/// Blocks that are away stay listed in any image with the same staged lines, and through a change
/// of nodes that puts none away, where their segments stay.
pub fn away_blocks_stay_listed()
    ensures lines { (g : Layout) (a b : Image) (shelf : Shelf) (c : Contents)
        → SameLines g a b c.tables.slots → HoldsAwayListed g a shelf c
        → HoldsAwayListed g b shelf c }
    ensures nodes { (k : ℕ) (shelf other : Shelf) (before after : Nodes)
        → KeepsAway shelf other before after → AreAwayListed k shelf before
        → AreAwayListed k other after }
{}
