//! What the parts of a mount find on a disk with the bytes of an image. None of these functions says
//! what it answers: that stands at what they call.

ghost use Rattle.std.specs.Prelude.{◌≡◌, ◌+◌, length};
ghost use Rattle.hl_addr.specs.Layout.{table_blocks};
ghost use Rattle.hl_image.specs.Places.{IsLogPlace};
ghost use Rattle.hl_tables.specs.Values.{AreTables};

use hl_census::{charge, clean, live, named, over_quota, shared_block, stray_block, uses};
use hl_hierarchy::check_hierarchy;
use hl_mem::MemMachine;
use hl_recovery::{MountError, Recovered, recover};
use hl_staged::check_slots;
use hl_survey::{CheckError, FoundInode, survey};
use hl_trial::images::BYTES;
use std::alloc::{AllocError, Global};

/// What is counted of a disk that was recovered and surveyed.
#[derive(Drop)]
pub struct Counted {
    /// What the nodes are charged.
    pub charge: u32,
    /// The live blocks of each log segment from 1 on.
    pub live: Vec<u32>,
    /// The clean log segments.
    pub clean: Vec<u32>,
    /// The last use of each number from 0 on.
    pub uses: Vec<u64>,
    /// A block that breaks the rule of shared blocks, of stray blocks, of slots and of the quota.
    pub shared: Option<u32>,
    pub stray: Option<u32>,
    pub slot: Option<u32>,
    pub over: Option<u32>,
    /// What is answered of the directories.
    pub hierarchy: Result<(), CheckError>,
}

/// A disk with these bytes.
fn disk_of(alloc: Global, image: &[u8]) -> Result<MemMachine, AllocError> {
    if image.len() != BYTES {
        return Err(AllocError);
    }
    MemMachine::of_image(alloc, image)
}

/// What a survey finds behind what a mount reads first, where the call of a number fails, counted
/// from 1 on with the survey's first; none fails for 0.
pub fn surveyed(
    alloc: Global,
    image: &[u8],
    fails: u64,
) -> Result<Result<Vec<Option<FoundInode>>, CheckError>, MountError> {
    let mut machine = disk_of(alloc, image)?;
    let first = recover(alloc, &mut machine, &[4])?;
    let made = machine.now() / 2;
    machine.fail_call(alloc, made.saturating_add(fails))?;
    let site = &first.geometry;
    Ok(survey(alloc, &mut machine, site, &first.rec, &first.tables))
}

/// What is counted of a disk that was recovered, where this was found.
fn count_all(
    alloc: Global,
    first: &Recovered,
    found: &[Option<FoundInode>],
    hierarchy: Result<(), CheckError>,
) -> Result<Counted, AllocError>
    requires blocks { length first.now.rec.tables ≡ table_blocks first.now.geometry }
    requires tables { AreTables first.now.geometry first.now.tables }
    requires head { IsLogPlace first.now.geometry first.now.at }
    requires segments { length first.now.covered.items ≡ first.now.geometry.log + 1 }
{
    let site = &first.geometry;
    let rec = &first.rec;
    let tables = &first.tables;
    let named = named(alloc, rec, found)?;
    let live = live(alloc, site, &named)?;
    let charge = charge(site, found);
    Ok(Counted {
        charge,
        clean: clean(alloc, site, first.at, &first.covered, &live)?,
        live,
        uses: uses(alloc, site, found)?,
        shared: shared_block(alloc, &named)?,
        stray: stray_block(alloc, site, rec, tables, first.at, &first.covered, &named)?,
        slot: check_slots(alloc, site, rec, tables, first.tseg_serial)?,
        over: over_quota(site, charge),
        hierarchy,
    })
}

/// What the parts of a mount count of an image, if a survey of it doesn't stop.
pub fn counts(alloc: Global, image: &[u8]) -> Result<Option<Counted>, MountError> {
    let mut machine = disk_of(alloc, image)?;
    let first = recover(alloc, &mut machine, &[4])?;
    let site = &first.geometry;
    let Ok(found) = survey(alloc, &mut machine, site, &first.rec, &first.tables) else {
        return Ok(None);
    };
    if found.len() != site.inodes as usize {
        return Ok(None);
    }
    let hierarchy = check_hierarchy(alloc, &mut machine, site, &found);
    Ok(Some(count_all(alloc, &first, &found, hierarchy)?))
}
