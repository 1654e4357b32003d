//! Laws of the file rules and of trees, for the layers above.
#![tactic(auto)]

ghost use Rattle.std.specs.Prelude.{◌≡◌, List, ℕ};
ghost use Rattle.std.specs.FinMap.{get};
ghost use Rattle.hl_tree.specs.declared.call.Call.{Call};
ghost use Rattle.hl_tree.specs.declared.call.Limits.{Limits};
ghost use Rattle.hl_tree.specs.Rules.{Files, after};
ghost use Rattle.hl_tree.specs.Tree.{IsTree};

/// After each call the root is a directory, and so is each parent, as they were before it.
pub fn calls_leave_a_tree()
    ensures { (limits : Limits) (tree : Files) → IsTree tree → (call : Call) → IsTree (after limits tree call) }
{}

/// Two trees with the same node at each path are one.
pub fn look_ups_tell_a_tree()
    ensures { (one other : Files) → ((path : List (List ℕ)) → get one path ≡ get other path) → one ≡ other }
{}
