//! The model of a site: its state, what one step does to it, and what a run of steps is in plain files.
#![tactic(auto)]

ghost use Rattle.hl_model.specs.Laws.{AwayBlocksStayInSlots, CachesStay, ClaimsAreNoGreater};
ghost use Rattle.hl_model.specs.Laws.{ClaimsAreOrdered, ClaimsDontGrow, CleanedStayEmpty};
ghost use Rattle.hl_model.specs.Laws.{ClosedSitesStandAgain, FetchesFindLines};
ghost use Rattle.hl_model.specs.Laws.{JobsAreNotStale, MountsGiveCaches, MountsStand, RepliesArePlain};
ghost use Rattle.hl_model.specs.Laws.{LinesAreOneRun, LinesArePlain, LinesLeaveFiles};
ghost use Rattle.hl_model.specs.Laws.{RunsArePlain, RunsStand, RunsStaySites, SegmentsHaveOneLine};
ghost use Rattle.hl_model.specs.Laws.{ShelvesStayKept, SmallerClaimsAreMet, StagingStays};
ghost use Rattle.hl_model.specs.Laws.{StepsStand, StoppedSitesStay};

/// However file calls, stagings, transfers, ejections and cleanings follow one another, each reply is
/// that of plain files, nothing but the file calls changes the plain tree, and the state stays one of
/// a site.
pub fn runs_are_plain()
    ensures plain { RunsArePlain }
    ensures replies { RepliesArePlain }
    ensures site { RunsStaySites }
    ensures stopped { StoppedSitesStay }
{}

/// The lines of a script, with all that serves a call, are one run of steps: nothing but the file calls
/// that are replied to changes the files, and each reply is that of plain files.
pub fn lines_are_plain()
    ensures steps { LinesAreOneRun }
    ensures files { LinesLeaveFiles }
    ensures replies { LinesArePlain }
{}

/// What holds of a site between steps holds of the state that a mount gives, each step and each run keep
/// it while no write fails, and a mount of what a closing leaves gives it again.
pub fn sites_stand()
    ensures mounted { MountsStand }
    ensures kept { StepsStand }
    ensures run { RunsStand }
    ensures again { ClosedSitesStandAgain }
{}

/// No event but the end of a job takes a line out of staging.
pub fn staging_stays()
    ensures { StagingStays }
{}

/// What holds of lines, slots and jobs holds of the site that a mount gives, and each step in which no
/// write failed keeps it. So a segment has one line, a fetch always finds a line to take, and no job
/// that comes back is stale.
pub fn lines_slots_and_jobs_agree()
    ensures mounted { MountsGiveCaches }
    ensures kept { CachesStay }
    ensures one_line { SegmentsHaveOneLine }
    ensures found { FetchesFindLines }
    ensures fresh { JobsAreNotStale }
{}

/// In a step in which no write failed each away block stays in a segment that a slot holds.
pub fn away_blocks_have_slots()
    ensures { AwayBlocksStayInSlots }
{}

/// In such a step the segments that were cleaned since the last checkpoint go on holding no block of
/// the tree.
pub fn cleaned_segments_hold_no_block()
    ensures { CleanedStayEmpty }
{}

/// A shelf that the slots, the lines and the buffers of jobs keep stays kept.
pub fn shelves_stay_kept()
    ensures { ShelvesStayKept }
{}

/// Claims are ordered by what they have, and what meets one meets each that is no greater.
pub fn smaller_claims_are_met()
    ensures itself { ClaimsAreNoGreater }
    ensures further { ClaimsAreOrdered }
    ensures met { SmallerClaimsAreMet }
{}

/// A step in which no write failed makes the claim of no job greater that stays out.
pub fn claims_dont_grow()
    ensures { ClaimsDontGrow }
{}
