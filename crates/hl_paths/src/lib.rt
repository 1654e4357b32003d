//! Directories by number: flat nodes whose entries make a tree, and what each call does to them.
#![tactic(auto)]

ghost use Rattle.hl_paths.specs.Laws.{CallsByNumbers, ChargesAreFlat, FreshNodesAreTheRoot};
ghost use Rattle.hl_paths.specs.Laws.{LinkedNodesHaveATree, LowestFreeIsFree, NeedsByNumbers};
ghost use Rattle.hl_paths.specs.Laws.{NodesHaveOneTree, NoneIsFree, NumbersStayWithin};
ghost use Rattle.hl_paths.specs.Laws.{QuotaByNumbers, TreesHaveAllNodes};

/// Nodes that spell linked numbers have a tree, and no other; it has as many nodes, and their charge.
/// An empty directory under the root's number is the root alone.
pub fn nodes_have_one_tree()
    ensures some { LinkedNodesHaveATree }
    ensures fresh { FreshNodesAreTheRoot }
    ensures one { NodesHaveOneTree }
    ensures counted { TreesHaveAllNodes }
    ensures charged { ChargesAreFlat }
{}

/// The lowest free number is free, and none before it is; there is none exactly where all are in use.
pub fn the_lowest_free_number_is_free()
    ensures some { LowestFreeIsFree }
    ensures none { NoneIsFree }
{}

/// By numbers a call needs the segments that it needs of the tree.
pub fn calls_by_numbers_need_what_calls_need()
    ensures { NeedsByNumbers }
{}

/// What answers and changes nodes by the rules by numbers answers and changes their tree by the file
/// rules; it is over the quota where the tree is, and the numbers in use stay within those that there
/// are.
pub fn calls_by_numbers_are_calls()
    ensures done { CallsByNumbers }
    ensures over { QuotaByNumbers }
    ensures within { NumbersStayWithin }
{}
