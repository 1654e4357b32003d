//! The placed tree: files by where their blocks lie, and what each call does to them.
#![tactic(auto)]

ghost use Rattle.hl_placed.specs.Laws.{CallsArePlain, CallsPutNoneAway, ChargesNeedNoBytes};
ghost use Rattle.hl_placed.specs.Laws.{EachIsRanked, FilesStayPlaced, RanksAreInOrder};
ghost use Rattle.hl_placed.specs.Laws.{RefusalsNeedNoBytes, StagingKeepsPlain};

/// A call leaves, in plain, what the file rules leave.
pub fn calls_are_plain()
    ensures { CallsArePlain }
{}

/// A call leaves placed files, and puts none of their blocks away.
pub fn files_stay_placed()
    ensures placed { FilesStayPlaced }
    ensures away { CallsPutNoneAway }
{}

/// A call is refused alike, and leaves the same charge, whichever bytes away blocks have.
pub fn refusals_and_charges_need_no_bytes()
    ensures refused { RefusalsNeedNoBytes }
    ensures charged { ChargesNeedNoBytes }
{}

/// A staging leaves the plain tree as it is: the new segment holds what its blocks held.
pub fn staging_keeps_the_plain_tree()
    ensures { StagingKeepsPlain }
{}

/// The order of migration has each file with a resident block once, the greater ranks first, and of
/// equal ones the first path.
pub fn migration_is_in_order()
    ensures each { EachIsRanked }
    ensures ordered { RanksAreInOrder }
{}
