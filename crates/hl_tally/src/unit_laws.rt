//! What units and checkpoints make of the counts. Nothing here does anything: each contract is a
//! theorem.

ghost use Rattle.std.specs.Prelude.{◌≡◌, ℕ, [], List, length};
ghost use Rattle.hl_media.specs.History.{Image, MachineState};
ghost use Rattle.hl_addr.specs.Layout.{Layout};
ghost use Rattle.hl_bytes.specs.declared.block.Block.{Block};
ghost use Rattle.hl_bytes.specs.declared.records.BlockRecord.{BlockRecord};
ghost use Rattle.hl_bytes.specs.declared.records.TableRecord.{TableRecord};
ghost use Rattle.hl_log.specs.declared.piece.Piece.{Piece};
ghost use Rattle.hl_log.specs.declared.position.Position.{Position};
ghost use Rattle.hl_log.specs.Checkpoints.{Given, HasCheckpointed};
ghost use Rattle.hl_log.specs.Cut.{addresses};
ghost use Rattle.hl_log.specs.Units.{HasWritten, Numbered};
ghost use Rattle.hl_super.specs.declared.record.Record.{Record};
ghost use Rattle.hl_tables.specs.Values.{TableValues};
ghost use Rattle.hl_nodes.specs.Checkpoints.{after_checkpoint, contents_of_tables};
ghost use Rattle.hl_nodes.specs.Contents.{Contents, HasContents};
ghost use Rattle.hl_nodes.specs.Live.{IsLive};
ghost use Rattle.hl_nodes.specs.Moments.{IsSoundCheckpoint};
ghost use Rattle.hl_nodes.specs.Sound.{HasSound, IsSound};
ghost use Rattle.hl_nodes.specs.Units.{TakesIn, after_unit};
ghost use Rattle.hl_overlaid.specs.NodesNow.{Overlaid, nodes_now};
ghost use Rattle.hl_overlaid.specs.Units.{IsUnitNow, brought_by, unit_changes};
ghost use Rattle.hl_tally.specs.Tally.{IsTally, Tally};
ghost use Rattle.hl_tally.specs.Counting.{tables_counted, unit_counted};

/// Behind the unit of an overlay each of its blocks is counted besides what was, where nothing is
/// drafted and the contents are sound: on each image that takes the unit in, and once it was
/// written.
pub fn units_are_counted()
    ensures taken { (g : Layout) (p : Position) (clean : List ℕ) (o : Overlaid)
        (notes : List TableRecord) (c : Contents) (blocks : List (BlockRecord × Block))
        (pieces : List Piece) (rest : List ℕ) (s : MachineState) (n : Tally)
        → IsUnitNow g p clean o notes c blocks pieces rest s → IsTally g o s.content c n
        → (image : Image) (behind : Overlaid) → behind.overlay.drafts.items ≡ []
        → let u = brought_by blocks (unit_changes o.overlay notes) in
        let after = after_unit g p c u pieces (nodes_now o c.nodes) in
        TakesIn g s.content c u (addresses g pieces) image → IsSound g image after
        → IsTally g behind image after (unit_counted g (addresses g pieces) n) }
    ensures written { (g : Layout) (p : Position) (clean : List ℕ) (o : Overlaid)
        (notes : List TableRecord) (c : Contents) (blocks : List (BlockRecord × Block))
        (pieces : List Piece) (rest : List ℕ) (first : MachineState) (n : Tally)
        → IsUnitNow g p clean o notes c blocks pieces rest first → IsTally g o first.content c n
        → (q : Position) (left : List ℕ) (s : MachineState) (behind : Overlaid)
        → behind.overlay.drafts.items ≡ []
        → let u = brought_by blocks (unit_changes o.overlay notes) in
        let after = after_unit g p c u pieces (nodes_now o c.nodes) in
        Numbered g p clean (length u.records) (length u.changes)
        → HasWritten g p clean u q left first s → IsSound g s.content after
        → IsTally g behind s.content after (unit_counted g (addresses g pieces) n) }
{}

/// Behind a checkpoint its table blocks are counted in place of those before, and all else is as it
/// was, whatever is drafted: on each sound image with the same live blocks besides, and once it was
/// written.
pub fn checkpoints_are_counted()
    ensures kept { (g : Layout) (before image : Image) (c : Contents) (new : Record)
        (t : TableValues) (o : Overlaid) (n : Tally)
        → HasContents g before c → t.inodes ≡ c.tables.inodes
        → ((address : ℕ) → IsLive g before c.rec c.tables address
        → image address ≡ before address)
        → HasSound g image (after_checkpoint c new t) → IsTally g o before c n
        → let counted = tables_counted g c.rec.tables new.tables n in
        IsTally g o image (after_checkpoint c new t) counted }
    ensures written { (g : Layout) (p : Position) (clean : List ℕ) (d : Given) (t : TableValues)
        (c : Contents) (first : MachineState)
        → IsSoundCheckpoint g p clean d t c first
        → (q : Position) (left : List ℕ) (new : Record) (s : MachineState)
        → HasCheckpointed g p clean d (contents_of_tables g t) q left new first s
        → (o : Overlaid) (n : Tally) → IsTally g o first.content c n
        → let counted = tables_counted g c.rec.tables new.tables n in
        IsTally g o s.content (after_checkpoint c new t) counted }
{}
