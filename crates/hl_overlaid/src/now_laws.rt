//! The nodes now, number by number. Nothing here does anything: each contract is a theorem.

ghost use Rattle.std.specs.Prelude.{◌≡◌, ℕ, ◌≤◌, [], None};
ghost use Rattle.std.specs.FinMap.{get};
ghost use Rattle.hl_media.specs.History.{Image};
ghost use Rattle.hl_addr.specs.Layout.{Layout};
ghost use Rattle.hl_paths.specs.Nodes.{Nodes};
ghost use Rattle.hl_nodes.specs.Contents.{Contents};
ghost use Rattle.hl_overlaid.specs.NodesNow.{IsOverlaid, Overlaid, node_now, nodes_now};
ghost use Rattle.hl_overlaid.specs.Over.{IsOver};

/// Each number has the node that its draft tells, if it has a changed one, and else the node of the
/// last unit. Number 0 and those past the site's have none where they had none.
pub fn each_number_has_its_node_now()
    ensures each { (g : Layout) (o : Overlaid) → IsOverlaid g o → (last : Nodes) (ino : ℕ)
        → get (nodes_now o last) ino ≡ node_now o last ino }
    ensures zero { (g : Layout) (o : Overlaid) → IsOverlaid g o → (last : Nodes)
        → get last 0 ≡ None → get (nodes_now o last) 0 ≡ None }
    ensures past { (g : Layout) (o : Overlaid) → IsOverlaid g o → (last : Nodes) (ino : ℕ)
        → g.inodes ≤ ino → get (nodes_now o last) ino ≡ get last ino }
{}

/// Where nothing is drafted the nodes are those of the last unit, and the overlay is over all
/// contents whose slots it has.
pub fn without_drafts_the_nodes_are_the_last()
    ensures nodes { (o : Overlaid) (last : Nodes) → o.overlay.drafts.items ≡ []
        → nodes_now o last ≡ last }
    ensures over { (g : Layout) (o : Overlaid) (image : Image) (c : Contents)
        → o.overlay.drafts.items ≡ [] → o.slots ≡ c.tables.slots → IsOver g o image c }
{}
