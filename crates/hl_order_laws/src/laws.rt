//! Order as a matter of nodes and staged lines. Nothing here does anything: each contract is a theorem.

ghost use Rattle.std.specs.Prelude.{◌≡◌, ℕ, ◌≤◌};
ghost use Rattle.hl_media.specs.History.{Image};
ghost use Rattle.hl_addr.specs.Layout.{Layout, quota};
ghost use Rattle.hl_tree.specs.Rules as rules;
ghost use Rattle.hl_placed.specs.Blocks.{Shelf};
ghost use Rattle.hl_placed.specs.Placed.{PlacedTree};
ghost use Rattle.hl_paths.specs.Nodes.{HasTree, flat_charge};
ghost use Rattle.hl_nodes.specs.Contents.{Contents, HasContents};
ghost use Rattle.hl_nodes.specs.Sound.{HasSound};
ghost use Rattle.hl_nodes.specs.Files.{HasFiles};
ghost use Rattle.hl_nodes.specs.Order.{IsInOrder, HoldsLines};
ghost use Rattle.hl_order_laws.specs.LastBlocks.{EndNodes, EndLines};
ghost use Rattle.hl_order_laws.specs.GoingOn.{HasSame, KeepsLines};

/// In contents in order each last block of the nodes is zero past the size, here and in staged lines. Sound contents whose
/// last blocks are so are in order, where their nodes are a tree within the quota and staged lines hold their segments.
pub fn order_is_that_of_nodes()
    ensures nodes { (g : Layout) (image : Image) (c : Contents) (placed : PlacedTree)
        → IsInOrder g image c placed → EndNodes c.nodes }
    ensures lines { (g : Layout) (image : Image) (c : Contents) (placed : PlacedTree)
        → IsInOrder g image c placed → EndLines g image c.tables.slots c.nodes }
    ensures made { (g : Layout) (image : Image) (c : Contents) (placed : PlacedTree)
        → HasSound g image c → HasTree c.nodes placed → HoldsLines g image c.tables.slots
        → EndNodes c.nodes → EndLines g image c.tables.slots c.nodes
        → flat_charge c.nodes ≤ quota g → IsInOrder g image c placed }
{}

/// Sound contents of another image are in order as these are, where they have the same nodes and slots and the staged lines
/// are as they were.
pub fn order_goes_on()
    ensures { (g : Layout) (a b : Image) (c d : Contents) (placed : PlacedTree)
        → IsInOrder g a c placed → HasSound g b d → HasSame c d
        → KeepsLines g c.tables.slots a b → IsInOrder g b d placed }
{}

/// With the same label the other image has the files that the first one has, whatever the shelf has.
pub fn files_go_on()
    ensures { (blocks : ℕ) (g : Layout) (a b : Image) (shelf : Shelf) (files : rules.Files)
        (c d : Contents) → HasFiles blocks g a shelf files → HasContents g a c → HasSound g b d
        → HasSame c d → KeepsLines g c.tables.slots a b → b 0 ≡ a 0
        → HasFiles blocks g b shelf files }
{}
