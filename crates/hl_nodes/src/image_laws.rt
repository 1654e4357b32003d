//! One contents, one verdict and one tree of files an image. Nothing here does anything: each
//! contract is a theorem.

ghost use Rattle.std.specs.Prelude.{◌≡◌, ℕ, length, Some};
ghost use Rattle.hl_media.specs.History.{Image};
ghost use Rattle.hl_addr.specs.Layout.{Layout, IsWithinLimits, table_blocks};
ghost use Rattle.hl_super.specs.declared.record.Record.{Record};
ghost use Rattle.hl_image.specs.Chain.{cut, IsCutChain};
ghost use Rattle.hl_image.specs.Newest.{IsNewest, start_of};
ghost use Rattle.hl_nodes.specs.declared.rule.Rule.{Rule};
ghost use Rattle.hl_nodes.specs.Live.{IsLive};
ghost use Rattle.hl_nodes.specs.Contents.{Contents, HasContents};
ghost use Rattle.hl_nodes.specs.Verdicts.{IsDamaged};
ghost use Rattle.hl_nodes.specs.Files.{HasFiles};
ghost use Rattle.hl_placed.specs.Blocks.{Shelf};
ghost use Rattle.hl_tables.specs.Values.{AreTables};
ghost use Rattle.hl_tree.specs.Rules as rules;

/// An image has one newest record, one cut chain, one value of its tables and one map of nodes.
pub fn an_image_has_one_contents()
    ensures { (g : Layout) (image : Image) (c d : Contents) → HasContents g image c
        → HasContents g image d → c ≡ d }
{}

/// An image with the same newest record and the same chain that agrees on the live blocks has the
/// contents.
pub fn contents_are_their_live_blocks()
    ensures { (g : Layout) (a b : Image) (c : Contents) → HasContents g a c
        → IsNewest g b (Some c.rec)
        → IsCutChain g b (start_of c.rec) c.rec.serial c.parts
        → ((address : ℕ) → IsLive g a c.rec c.tables address → b address ≡ a address)
        → HasContents g b c }
{}

/// At most one rule is broken first, and at most one address is the lowest.
pub fn an_image_breaks_one_rule_first()
    ensures { (g : Layout) (image : Image) (r s : Rule) (a b : ℕ) → IsDamaged g image r a
        → IsDamaged g image s b → (r ≡ s) × (a ≡ b) }
{}

/// The image of a machine names at most one site, and has at most one tree of files with a shelf.
pub fn an_image_has_one_tree_of_files()
    ensures site { (blocks : ℕ) (image : Image) (shelf : Shelf) (g h : Layout) (a b : rules.Files)
        → HasFiles blocks g image shelf a → HasFiles blocks h image shelf b → g ≡ h }
    ensures files { (blocks : ℕ) (image : Image) (shelf : Shelf) (g : Layout) (a b : rules.Files)
        → HasFiles blocks g image shelf a → HasFiles blocks g image shelf b → a ≡ b }
{}

/// A newest record of the site's volumes names a site within the limits and as many table blocks as
/// it has, and the tables of contents are tables of the site.
pub fn a_record_names_its_site()
    ensures limits { (g : Layout) (image : Image) (rec : Record) → IsNewest g image (Some rec)
        → rec.volumes ≡ g.volumes → IsWithinLimits g }
    ensures count { (g : Layout) (image : Image) (rec : Record) → IsNewest g image (Some rec)
        → rec.volumes ≡ g.volumes → length rec.tables ≡ table_blocks g }
    ensures tables { (g : Layout) (image : Image) (c : Contents) → HasContents g image c
        → AreTables g c.tables }
{}
