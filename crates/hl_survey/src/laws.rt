//! What a survey says of the rules. Nothing here does anything: each contract is a theorem.

ghost use Rattle.std.specs.Prelude.{◌≡◌, ℕ, List, Option};
ghost use Rattle.hl_media.specs.History.{Image};
ghost use Rattle.hl_addr.specs.Layout.{Layout, IsWithinLimits};
ghost use Rattle.hl_super.specs.declared.record.Record.{Record};
ghost use Rattle.hl_summary.specs.declared.parts.Summary.{Summary};
ghost use Rattle.hl_tables.specs.Values.{TableValues};
ghost use Rattle.hl_nodes.specs.declared.rule.Rule.{Rule};
ghost use Rattle.hl_nodes.specs.Breaks.{Breaks};
ghost use Rattle.hl_survey.specs.declared.found.FoundInode.{FoundInode};
ghost use Rattle.hl_survey.specs.Surveys.{AreSurveyed, IsSurveyRule};

/// An image that was surveyed breaks none of the rules of the map's entries, of inodes, of pointers and of pointer blocks.
pub fn surveyed_images_keep_the_rules()
    ensures { (g : Layout) (image : Image) (t : TableValues) (found : List (Option FoundInode))
        → IsWithinLimits g → AreSurveyed g image t found
        → (rec : Record) (parts : List Summary) (rule : Rule) (address : ℕ) → IsSurveyRule rule
        → ¬ Breaks g image rec parts t rule address }
{}
