//! What a checkpoint makes of the contents of images. Nothing here does anything: each contract is
//! a theorem.

ghost use Rattle.std.specs.Prelude.{◌≡◌, ℕ, List, length, Some, Option};
ghost use Rattle.hl_media.specs.History.{Image, History, MachineState};
ghost use Rattle.hl_media.specs.Moments.{Runs, Ends};
ghost use Rattle.hl_addr.specs.Layout.{Layout};
ghost use Rattle.hl_super.specs.declared.record.Record.{Record};
ghost use Rattle.hl_summary.specs.declared.parts.Summary.{Summary};
ghost use Rattle.hl_image.specs.Newest.{start_of};
ghost use Rattle.hl_log.specs.declared.position.Position.{Position};
ghost use Rattle.hl_log.specs.Checkpoints.{Given, IsReady, HasCheckpoint, KeepsRest, Checkpoints};
ghost use Rattle.hl_log.specs.Checkpoints.{HasCheckpointed, restarted_at};
ghost use Rattle.hl_tables.specs.Values.{TableValues};
ghost use Rattle.hl_paths.specs.Nodes.{Nodes};
ghost use Rattle.hl_nodes.specs.Contents.{Contents, Rests};
ghost use Rattle.hl_nodes.specs.Checkpoints.{contents_of_tables, Carries, checkpointed};
ghost use Rattle.hl_nodes.specs.Moments.{KeepsNodes, HasKeptNodes, IsSoundCheckpoint, HasSameSound};

/// At each moment of a checkpoint, whatever a stop leaves has the contents before it, or the same
/// nodes behind the next record. Afterwards the log is at rest over those.
pub fn checkpoints_keep_nodes()
    ensures crash { (g : Layout) (p : Position) (clean : List ℕ) (d : Given) (t : TableValues)
        (before now : Option History)
        → Runs before now (Checkpoints g p clean d (contents_of_tables g t))
        → Runs before now (KeepsNodes g p clean d t) }
    ensures ends { (g : Layout) (p : Position) (clean : List ℕ) (d : Given) (t : TableValues)
        (q : Position)
        (left : List ℕ) (new : Record) (before now : Option History)
        → q ≡ restarted_at new
        → Ends before now (HasCheckpointed g p clean d (contents_of_tables g t) q left new)
        → Ends before now (HasKeptNodes g p clean d t q left new) }
{}

/// The first checkpoint of a disk: once its parts and its record stand, the log is at rest over the
/// nodes that its tables name.
pub fn a_first_checkpoint_brings_the_nodes()
    ensures { (g : Layout) (p : Position) (clean : List ℕ) (parts : List Summary) (t : TableValues)
        (nodes : Nodes) (first : MachineState)
        → Carries g p clean parts t nodes first → (d : Given) → d.volumes ≡ g.volumes
        → (old : Option Record) (q : Position) (rest : List ℕ) (new : Record) (s : MachineState)
        → IsReady g p clean d (length (contents_of_tables g t)) parts old first
        → q.start ≡ start_of new → q.first ≡ new.serial
        → HasCheckpointed g p clean d (contents_of_tables g t) q rest new first s
        → Rests g q rest (checkpointed new t nodes) s }
{}

/// The same over sound contents, which stay sound.
pub fn checkpoints_keep_contents_sound()
    ensures { (g : Layout) (p : Position) (clean : List ℕ) (c : Contents) (first : MachineState)
        (d : Given) (t : TableValues)
        → IsSoundCheckpoint g p clean d t c first → (image : Image)
        → KeepsRest g p clean first image
        → HasCheckpoint g p clean (Some c.rec) d (contents_of_tables g t) c.parts image
        → HasSameSound g d t c image }
{}
