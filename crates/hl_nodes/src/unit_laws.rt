//! What a unit makes of the contents of images. Nothing here does anything: each contract is a
//! theorem.

ghost use Rattle.std.specs.Prelude.{◌≡◌, ℕ, true, List, length, Some, Option};
ghost use Rattle.hl_media.specs.History.{History, MachineState};
ghost use Rattle.hl_media.specs.Moments.{Runs, Ends};
ghost use Rattle.hl_addr.specs.Layout.{Layout};
ghost use Rattle.hl_log.specs.declared.position.Position.{Position};
ghost use Rattle.hl_log.specs.declared.piece.Piece.{Piece};
ghost use Rattle.hl_log.specs.Cut.{AreCut, addresses};
ghost use Rattle.hl_log.specs.Rest.{StopLeaves};
ghost use Rattle.hl_log.specs.Units.{Brought, WritesUnit, HasWritten, moved};
ghost use Rattle.hl_paths.specs.Nodes.{FlatNode, Nodes};
ghost use Rattle.hl_nodes.specs.Contents.{Contents, HasContents, Rests};
ghost use Rattle.hl_nodes.specs.Units.{Makes};
ghost use Rattle.hl_nodes.specs.Fates.{IsBroughtAs, Changes};
ghost use Rattle.hl_nodes.specs.Brings.{BringsInode};
ghost use Rattle.hl_nodes.specs.Moments.{MovesNodes, HasMovedNodes, MovesSound, HasMovedSound};

/// While nothing is written in the log, whatever a stop leaves has the contents.
pub fn a_log_at_rest_keeps_its_contents()
    ensures { (g : Layout) (p : Position) (clean : List ℕ) (c : Contents) (s : MachineState)
        → Rests g p clean c s → StopLeaves g p (λ image. HasContents g image c) s }
{}

/// An inode whose pointers name blocks of the unit, or those that its node had there, stands for
/// its node behind the unit.
pub fn brought_inodes_are_written()
    ensures { (g : Layout) (p : Position) (clean : List ℕ) (c : Contents) (first : MachineState)
        → Rests g p clean c first → (u : Brought) (pieces : List Piece) (rest : List ℕ)
        → AreCut g p.head clean (length u.records) (length u.changes) pieces rest
        → (ino index : ℕ) (node : FlatNode)
        → BringsInode g first.content c u (addresses g pieces) ino index node
        → IsBroughtAs g first.content c u (addresses g pieces) ino index (Some node) }
{}

/// A unit in which each node is left, freed or written makes the nodes.
pub fn changed_nodes_are_made()
    ensures { (g : Layout) (p : Position) (clean : List ℕ) (c : Contents) (first : MachineState)
        → Rests g p clean c first → (u : Brought) (pieces : List Piece) (rest : List ℕ)
        → AreCut g p.head clean (length u.records) (length u.changes) pieces rest → (nodes : Nodes)
        → Changes g first.content c u (addresses g pieces) nodes
        → Makes g first.content c u (addresses g pieces) nodes }
{}

/// At each moment of a unit that makes nodes, whatever a stop leaves has the contents before it or
/// those behind it. Afterwards the log is at rest over those behind it.
pub fn units_move_nodes()
    ensures crash { (g : Layout) (p : Position) (clean : List ℕ) (u : Brought)
        (before now : Option History)
        → Runs before now (WritesUnit g p clean u) → Runs before now (MovesNodes g p clean u) }
    ensures ends { (g : Layout) (p : Position) (clean : List ℕ) (u : Brought) (q : Position)
        (left : List ℕ)
        (before now : Option History)
        → u.closes ≡ true → q ≡ moved p q.head q.serial
        → Ends before now (HasWritten g p clean u q left)
        → Ends before now (HasMovedNodes g p clean u q left) }
{}

/// The same over sound contents, which stay sound.
pub fn units_keep_contents_sound()
    ensures crash { (g : Layout) (p : Position) (clean : List ℕ) (u : Brought)
        (before now : Option History)
        → Runs before now (WritesUnit g p clean u) → Runs before now (MovesSound g p clean u) }
    ensures ends { (g : Layout) (p : Position) (clean : List ℕ) (u : Brought) (q : Position)
        (left : List ℕ)
        (before now : Option History)
        → Ends before now (HasWritten g p clean u q left)
        → Ends before now (HasMovedSound g p clean u) }
{}
