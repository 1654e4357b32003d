//! What a recovery says of the rules. Nothing here does anything: each contract is a theorem.

ghost use Rattle.std.specs.Prelude.{◌≡◌, ℕ, List};
ghost use Rattle.hl_media.specs.History.{Image};
ghost use Rattle.hl_summary.specs.declared.parts.Summary.{Summary};
ghost use Rattle.hl_tables.specs.Values.{TableValues};
ghost use Rattle.hl_nodes.specs.declared.rule.Rule.{Rule};
ghost use Rattle.hl_nodes.specs.Breaks.{Breaks};
ghost use Rattle.hl_recovery.specs.declared.recovering.Recovered.{Recovered};
ghost use Rattle.hl_recovery.specs.Recoveries.{HasRecovered};
ghost use Rattle.hl_recovery.specs.TablePlaces.{IsTableRule};

/// An image that was recovered breaks neither the rule of the places of table blocks nor that of their bytes.
pub fn recovered_images_keep_the_rules()
    ensures { (blocks : ℕ) (rack : List ℕ) (r : Recovered) (image : Image)
        → HasRecovered blocks rack r image
        → (parts : List Summary) (t : TableValues) (rule : Rule) (address : ℕ) → IsTableRule rule
        → ¬ Breaks r.geometry image r.rec parts t rule address }
{}
