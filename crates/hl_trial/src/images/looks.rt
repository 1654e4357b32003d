//! Looks at an image of the site. None of these functions says what it answers: that stands at what
//! they call.

ghost use Rattle.std.specs.Prelude.{◌*◌, ◌≤◌, IsTrue, length};
ghost use Rattle.hl_image.specs.Places.{log_end};

use crate::images::good::shelf;
use crate::images::hand_made::{BYTES, site};
use hl_addr::Geometry;
use hl_found::{
    FoundContents, contents_of, files_of, is_sound, lie_apart, live_blocks, next_tertiary,
    slots_are_possible,
};
use hl_nodes::FoundNode;
use hl_tree::PlainTree;
use std::alloc::{AllocError, Global};

/// What an image holds.
#[derive(Clone, Copy)]
pub struct Looked {
    /// The number of its newest record.
    pub record: u64,
    /// The parts of its chain.
    pub parts: usize,
    /// The nodes.
    pub nodes: usize,
    /// The live blocks, and whether no two of them have one address.
    pub lives: usize,
    pub are_apart: bool,
    /// Whether it is sound.
    pub is_sound: bool,
    /// The serial of the next tertiary segment, and whether the slots are possible with it.
    pub next_tertiary: u64,
    pub has_possible_slots: bool,
}

/// Whether an image has the log of a site.
fn has_log(image: &[u8], site: &Geometry) -> bool
    ensures { IsTrue result → 4096 * log_end site.now ≤ length image.now }
{
    let log = site.k as usize * site.log as usize + site.k as usize;
    4_096 * log <= image.len()
}

/// The count of those that there are.
fn count(nodes: &[Option<FoundNode>]) -> usize {
    nodes.iter().filter(|node| node.is_some()).count()
}

/// What an image holds, if it has contents.
pub fn look(alloc: Global, image: &[u8]) -> Result<Option<Looked>, AllocError> {
    let site = site(alloc)?;
    if !has_log(image, &site) {
        return Ok(None);
    }
    let Some(found) = contents_of(alloc, image, &site)? else {
        return Ok(None);
    };
    let lives = live_blocks(alloc, image, &site, &found)?;
    let next = next_tertiary(&found);
    Ok(Some(Looked {
        record: found.rec.number,
        parts: found.chain.len(),
        nodes: count(found.nodes.as_slice()),
        lives: lives.len(),
        are_apart: lie_apart(lives.as_slice()),
        is_sound: is_sound(alloc, image, &site, &found)?,
        next_tertiary: next,
        has_possible_slots: slots_are_possible(&site, found.tables.slots(), next),
    }))
}

/// The nodes of an image by their numbers, if it has contents.
pub fn nodes(alloc: Global, image: &[u8]) -> Result<Option<Vec<Option<FoundNode>>>, AllocError> {
    let site = site(alloc)?;
    if !has_log(image, &site) {
        return Ok(None);
    }
    match contents_of(alloc, image, &site)? {
        Some(FoundContents { nodes, .. }) => Ok(Some(nodes)),
        None => Ok(None),
    }
}

/// The files of an image over the shelf with the segment of serial 8, if it has files.
pub fn files(alloc: Global, image: &[u8]) -> Result<Option<PlainTree>, AllocError> {
    let site = site(alloc)?;
    let shelf = shelf(alloc)?;
    if image.len() != BYTES {
        return Ok(None);
    }
    files_of(alloc, image, &site, &shelf)
}
