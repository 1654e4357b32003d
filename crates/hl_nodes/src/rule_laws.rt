//! What the rules of a mount say of contents. Nothing here does anything: each contract is a
//! theorem.

ghost use Rattle.std.specs.Prelude.{◌≡◌, ℕ, true};
ghost use Rattle.hl_media.specs.History.{Image};
ghost use Rattle.hl_addr.specs.Layout.{Layout};
ghost use Rattle.hl_nodes.specs.declared.rule.Rule.{Rule};
ghost use Rattle.hl_nodes.specs.Contents.{Contents, HasContents};
ghost use Rattle.hl_nodes.specs.Sound.{IsSound};
ghost use Rattle.hl_nodes.specs.Breaks.{Breaks};
ghost use Rattle.hl_nodes.specs.Verdicts.{is_of_nodes, KeepsRules};
ghost use Rattle.hl_super.specs.Labels.{Spells};
ghost use Rattle.hl_image.specs.Newest.{label_of};
ghost use Rattle.hl_placed.specs.Blocks.{Shelf};
ghost use Rattle.hl_placed.specs.Placed.{PlacedTree, plain};
ghost use Rattle.hl_nodes.specs.Files.{HasFiles, Serves, shelf_with};
ghost use Rattle.hl_nodes.specs.Order.{IsInOrder};

/// Sound contents break no rule that looks at tables, nodes and addresses alone.
pub fn sound_contents_break_no_rule()
    ensures { (g : Layout) (image : Image) (c : Contents) → HasContents g image c
        → IsSound g image c
        → (rule : Rule) (address : ℕ) → is_of_nodes rule ≡ true
        → ¬ Breaks g image c.rec c.parts c.tables rule address }
{}

/// An image of the site breaks none of the rules 1 to 15 exactly where it has contents in order:
/// sound ones, whose nodes are a tree, with staged lines, last blocks and the charge in order.
pub fn rules_are_kept_where_contents_are_in_order()
    ensures made { (g : Layout) (image : Image) → KeepsRules g image
        → (c : Contents) × (placed : PlacedTree) × IsInOrder g image c placed }
    ensures kept { (g : Layout) (image : Image) (c : Contents) (placed : PlacedTree)
        → IsInOrder g image c placed → KeepsRules g image }
{}

/// With the site's label, contents in order and a shelf that serves their tree give the image's files.
pub fn contents_in_order_have_files()
    ensures { (blocks : ℕ) (g : Layout) (image : Image) (shelf : Shelf) (c : Contents)
        (placed : PlacedTree) → Spells blocks (image 0) (label_of g) → IsInOrder g image c placed
        → Serves (shelf_with g image shelf c) placed
        → HasFiles blocks g image shelf (plain (shelf_with g image shelf c) placed) }
{}
