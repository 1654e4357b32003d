//! What the unit of an overlay makes. Nothing here does anything: each contract is a theorem.

ghost use Rattle.std.specs.Prelude.{◌≡◌, ℕ, Contains, List, [], Some, slice_get, slice_index};
ghost use Rattle.std.specs.List.{fold};
ghost use Rattle.hl_media.specs.History.{Image, MachineState};
ghost use Rattle.hl_addr.specs.Layout.{Layout};
ghost use Rattle.hl_bytes.specs.declared.block.Block.{Block};
ghost use Rattle.hl_bytes.specs.declared.records.BlockRecord.{BlockRecord};
ghost use Rattle.hl_bytes.specs.declared.records.TableRecord.{TableRecord};
ghost use Rattle.hl_log.specs.declared.piece.Piece.{Piece};
ghost use Rattle.hl_log.specs.declared.position.Position.{Position};
ghost use Rattle.hl_log.specs.Cut.{addresses};
ghost use Rattle.hl_tables.specs.Laying.{changed};
ghost use Rattle.hl_paths.specs.Nodes.{Nodes};
ghost use Rattle.hl_nodes.specs.Tables.{raised};
ghost use Rattle.hl_nodes.specs.Contents.{Contents, next_tertiary};
ghost use Rattle.hl_nodes.specs.Fates.{Changes, freed};
ghost use Rattle.hl_nodes.specs.Units.{after_unit, blocks_placed, unit_laid};
ghost use Rattle.hl_overlay.specs.DraftTables.{freed_of};
ghost use Rattle.hl_overlaid.specs.NodesNow.{Overlaid, nodes_now};
ghost use Rattle.hl_overlaid.specs.Over.{IsOver};
ghost use Rattle.hl_overlaid.specs.Units.{BringsNoInode, IsUnitNow, brought_by, unit_changes};

/// The unit of an overlay changes the nodes of the last unit into those that the site has now.
pub fn a_unit_makes_the_nodes_now()
    ensures { (g : Layout) (p : Position) (clean : List ℕ) (o : Overlaid) (notes : List TableRecord)
        (c : Contents) (blocks : List (BlockRecord × Block)) (pieces : List Piece) (rest : List ℕ)
        (s : MachineState)
        → IsUnitNow g p clean o notes c blocks pieces rest s
        → let u = brought_by blocks (unit_changes o.overlay notes) in
        Changes g s.content c u (addresses g pieces) (nodes_now o c.nodes) }
{}

/// Behind the unit an overlay without drafts over the same slots is over the contents, whose slots
/// those are. Their next tertiary serial is the one before, raised by what was noted.
pub fn nothing_is_drafted_behind_a_unit()
    ensures over { (g : Layout) (p : Position) (clean : List ℕ) (o : Overlaid)
        (notes : List TableRecord) (c : Contents) (blocks : List (BlockRecord × Block))
        (pieces : List Piece) (rest : List ℕ) (s : MachineState)
        → IsUnitNow g p clean o notes c blocks pieces rest s
        → (image : Image) (behind : Overlaid) → behind.overlay.drafts.items ≡ []
        → behind.slots ≡ o.slots
        → let u = brought_by blocks (unit_changes o.overlay notes) in
        IsOver g behind image (after_unit g p c u pieces (nodes_now o c.nodes)) }
    ensures slots { (g : Layout) (p : Position) (clean : List ℕ) (o : Overlaid)
        (notes : List TableRecord) (c : Contents) (blocks : List (BlockRecord × Block))
        (pieces : List Piece) (rest : List ℕ) (s : MachineState)
        → IsUnitNow g p clean o notes c blocks pieces rest s
        → let u = brought_by blocks (unit_changes o.overlay notes) in
        (unit_laid c.tables u (addresses g pieces)).slots ≡ o.slots }
    ensures serial { (g : Layout) (p : Position) (clean : List ℕ) (o : Overlaid)
        (notes : List TableRecord) (c : Contents) (blocks : List (BlockRecord × Block))
        (pieces : List Piece) (rest : List ℕ) (s : MachineState)
        → IsUnitNow g p clean o notes c blocks pieces rest s
        → let u = brought_by blocks (unit_changes o.overlay notes) in
        (nodes : Nodes) → next_tertiary (after_unit g p c u pieces nodes)
        ≡ fold raised (next_tertiary c) notes }
{}

/// The tables behind the unit are those before with the notes, in which each inode block of the unit
/// lies at its address of the plan and each freed number nowhere. Each other number lies where it
/// lay.
pub fn a_unit_lays_its_inodes_and_frees_its_numbers()
    ensures noted { (g : Layout) (p : Position) (clean : List ℕ) (o : Overlaid)
        (notes : List TableRecord) (c : Contents) (blocks : List (BlockRecord × Block))
        (pieces : List Piece) (rest : List ℕ) (s : MachineState)
        → IsUnitNow g p clean o notes c blocks pieces rest s
        → let u = brought_by blocks (unit_changes o.overlay notes) in
        let placed = blocks_placed (fold changed c.tables notes) u.records (addresses g pieces) in
        unit_laid c.tables u (addresses g pieces)
        ≡ fold changed placed (freed_of o.overlay.drafts.items) }
    ensures written { (g : Layout) (p : Position) (clean : List ℕ) (o : Overlaid)
        (notes : List TableRecord) (c : Contents) (blocks : List (BlockRecord × Block))
        (pieces : List Piece) (rest : List ℕ) (s : MachineState)
        → IsUnitNow g p clean o notes c blocks pieces rest s
        → let u = brought_by blocks (unit_changes o.overlay notes) in
        let inodes = (unit_laid c.tables u (addresses g pieces)).inodes in
        (n : ℕ) (b : BlockRecord × Block) → slice_get blocks n ≡ Some b → b.0.index ≡ 4294967295
        → slice_index inodes b.0.ino ≡ slice_index (addresses g pieces) n }
    ensures freed { (g : Layout) (p : Position) (clean : List ℕ) (o : Overlaid)
        (notes : List TableRecord) (c : Contents) (blocks : List (BlockRecord × Block))
        (pieces : List Piece) (rest : List ℕ) (s : MachineState)
        → IsUnitNow g p clean o notes c blocks pieces rest s
        → let u = brought_by blocks (unit_changes o.overlay notes) in
        let inodes = (unit_laid c.tables u (addresses g pieces)).inodes in
        (ino : ℕ) → Contains (freed_of o.overlay.drafts.items) (freed ino)
        → slice_index inodes ino ≡ 4294967295 }
    ensures others { (g : Layout) (p : Position) (clean : List ℕ) (o : Overlaid)
        (notes : List TableRecord) (c : Contents) (blocks : List (BlockRecord × Block))
        (pieces : List Piece) (rest : List ℕ) (s : MachineState)
        → IsUnitNow g p clean o notes c blocks pieces rest s
        → let u = brought_by blocks (unit_changes o.overlay notes) in
        let inodes = (unit_laid c.tables u (addresses g pieces)).inodes in
        (ino : ℕ) → BringsNoInode blocks ino
        → ¬ Contains (freed_of o.overlay.drafts.items) (freed ino)
        → slice_index inodes ino ≡ slice_index c.tables.inodes ino }
{}
