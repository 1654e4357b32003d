//! The rules of a mount that an image breaks, as the deciders of `hl_found` answer.

ghost use Rattle.std.specs.Prelude.{◌*◌, ◌<◌, ◌≤◌, length};
ghost use Rattle.hl_bytes.specs.Buffers.{block_of};
ghost use Rattle.hl_image.specs.Places.{log_end};
ghost use Rattle.hl_found.specs.Charges.{HaveFewBlocks};
ghost use Rattle.hl_found.specs.Found.{AreFound};
ghost use Rattle.hl_found.specs.Staged.{lines_end};

use crate::images::hand_made::{BYTES, site};
use hl_addr::{Geometry, NOTHING};
use hl_bytes::get_u32;
use hl_dir::Entry;
use hl_found::{
    FoundContents, FoundUse, ShelfSegment, aways_are_apart, blocks_are_in_place, chain_of,
    charge_is_within, contents_of, ends_in_zeros, has_volumes, lie_apart, lines_hold_segments,
    live_blocks, newest_record, next_tertiary, places_of, slots_are_possible, staged_segments,
    tables_of, uses_of,
};
use hl_inode::{Kind, decode, pointer};
use hl_nodes::{FoundNode, Rule, block_at, is_in_log};
use hl_super::Record;
use std::alloc::{AllocError, Global};

/// The entries of a directory, and none of what is none.
fn entries_of(used: &Option<FoundUse>) -> &[Entry] {
    match used {
        Some(FoundUse::Directory(entries)) => entries.items(),
        _ => &[],
    }
}

fn is_in_use(uses: &[Option<FoundUse>], number: u32) -> bool {
    match uses.get(number as usize) {
        Some(Some(_)) => true,
        _ => false,
    }
}

/// How many entries name a number.
fn count_named(uses: &[Option<FoundUse>], number: u32) -> usize {
    let mut count: usize = 0;
    for used in uses {
        for entry in entries_of(used) {
            if entry.ino == number {
                count = count.saturating_add(1);
            }
        }
    }
    count
}

/// Whether each entry names a number in use that isn't the root, and that no other entry names.
fn names_are_right(uses: &[Option<FoundUse>]) -> bool {
    for used in uses {
        for entry in entries_of(used) {
            let number = entry.ino;
            if number == 1 || !is_in_use(uses, number) || count_named(uses, number) != 1 {
                return false;
            }
        }
    }
    true
}

/// The rule of directories and numbers that nodes break, as `uses_of` and `places_of` decide.
fn tree_breaks(alloc: Global, nodes: &[Option<FoundNode>]) -> Result<Option<Rule>, AllocError>
    requires { HaveFewBlocks nodes.now }
{
    let Some(uses) = uses_of(alloc, nodes)? else {
        return Ok(Some(Rule::DirectoryBytes));
    };
    if places_of(alloc, uses.as_slice())?.is_some() {
        return Ok(None);
    }
    if names_are_right(uses.as_slice()) {
        Ok(Some(Rule::LostInode))
    } else {
        Ok(Some(Rule::DirectoryEntry))
    }
}

/// Whether each file is zero past its size, where that lies in the log or in a staged line.
fn files_end_in_zeros(staged: &[ShelfSegment], nodes: &[Option<FoundNode>]) -> bool {
    for node in nodes {
        if let Some(node) = node {
            let is_file = node.kind == Kind::File && node.blocks.len() <= 1_036;
            if is_file && !ends_in_zeros(staged, &[], node) {
                return false;
            }
        }
    }
    true
}

/// The rule of the root that nodes break.
fn root_breaks(nodes: &[Option<FoundNode>]) -> Option<Rule> {
    match nodes.get(1) {
        Some(Some(node)) if node.kind == Kind::Dir => None,
        Some(Some(_)) => Some(Rule::InodeBytes),
        _ => Some(Rule::MapEntry),
    }
}

/// Whether no address stands twice.
fn are_distinct(addresses: &[u32]) -> bool {
    for i in 0..addresses.len() {
        for j in 0..i {
            if addresses[i] == addresses[j] {
                return false;
            }
        }
    }
    true
}

/// Lists a rule where it is broken.
fn note(broken: &mut Vec<Rule>, rule: Rule, holds: bool) -> Result<(), AllocError> {
    if !holds {
        broken.push(rule)?;
    }
    Ok(())
}

fn note_some(broken: &mut Vec<Rule>, rule: Option<Rule>) -> Result<(), AllocError> {
    match rule {
        Some(rule) => Ok(broken.push(rule)?),
        None => Ok(()),
    }
}

/// Lists the rules of slots and lines that contents break, and that of the last blocks of files,
/// for which lines are looked into where the slots are possible.
fn note_slots(
    alloc: Global,
    image: &[u8],
    geometry: &Geometry,
    found: &FoundContents,
    broken: &mut Vec<Rule>,
) -> Result<(), AllocError>
    requires { 4096 * lines_end geometry.now ≤ length image.now }
{
    let slots = found.tables.slots();
    if !slots_are_possible(geometry, slots, next_tertiary(found)) {
        return note(broken, Rule::SlotEntry, false);
    }
    let held = lines_hold_segments(alloc, image, geometry, slots)?;
    note(broken, Rule::LineBytes, held)?;
    let staged = staged_segments(alloc, image, geometry, slots.items())?;
    let zeros = files_end_in_zeros(staged.as_slice(), found.nodes.as_slice());
    note(broken, Rule::LastBlock, zeros)
}

/// The rules that contents break, as their deciders answer.
fn rules_of_contents(
    alloc: Global,
    image: &[u8],
    geometry: &Geometry,
    found: &FoundContents,
) -> Result<Vec<Rule>, AllocError>
    requires image { 4096 * lines_end geometry.now ≤ length image.now }
    requires found { AreFound geometry.now (block_of image.now) found.now }
{
    let mut broken = Vec::new(alloc);
    let nodes = found.nodes.as_slice();
    let lives = live_blocks(alloc, image, geometry, found)?;
    let apart = lie_apart(lives.as_slice()) && aways_are_apart(nodes);
    let in_place = blocks_are_in_place(geometry, found, lives.as_slice());
    note(
        &mut broken,
        Rule::TablePlace,
        are_distinct(found.rec.tables.items()),
    )?;
    note(
        &mut broken,
        Rule::MapEntry,
        found.tables.inode(0) == NOTHING,
    )?;
    note_some(&mut broken, root_breaks(nodes))?;
    note(&mut broken, Rule::SharedBlock, apart)?;
    note(&mut broken, Rule::StrayBlock, in_place)?;
    note_some(&mut broken, tree_breaks(alloc, nodes)?)?;
    note_slots(alloc, image, geometry, found, &mut broken)?;
    note(
        &mut broken,
        Rule::Quota,
        charge_is_within(nodes, geometry.quota()),
    )?;
    Ok(broken)
}

/// The entry of a number in the first table block.
fn entry_at(image: &[u8], geometry: &Geometry, rec: &Record, number: usize) -> u32
    requires image { 4096 * log_end geometry.now ≤ length image.now }
    requires number { number < 1024 }
{
    match rec.tables.items().first() {
        Some(address) if is_in_log(geometry, *address) => {
            get_u32(block_at(image, *address), 4 * number)
        }
        _ => NOTHING,
    }
}

/// Whether a pointer block of a file of so many bytes names a block, and none past the size.
fn are_pointers(image: &[u8], geometry: &Geometry, address: u32, size: u64) -> bool
    requires { 4096 * log_end geometry.now ≤ length image.now }
{
    if !is_in_log(geometry, address) {
        return true;
    }
    let mut named = false;
    for i in 0..1_024u32 {
        if pointer(block_at(image, address), i) != NOTHING {
            if size <= 4_096 * (12 + i as u64) {
                return false;
            }
            named = true;
        }
    }
    named
}

/// The rule that the block of an inode or its pointer block breaks.
fn inode_breaks(image: &[u8], geometry: &Geometry, number: usize, address: u32) -> Option<Rule>
    requires { 4096 * log_end geometry.now ≤ length image.now }
{
    if address == NOTHING {
        return None;
    }
    if !is_in_log(geometry, address) {
        return Some(Rule::MapEntry);
    }
    match decode(block_at(image, address)) {
        Some(inode) if inode.number as usize == number => {
            if are_pointers(image, geometry, inode.single, inode.size) {
                None
            } else {
                Some(Rule::PointerBlock)
            }
        }
        _ => Some(Rule::InodeBytes),
    }
}

/// Why there are no nodes, if the first table block says where the first numbers lie.
fn rule_of_nodes(image: &[u8], geometry: &Geometry, rec: &Record) -> Rule
    requires { 4096 * log_end geometry.now ≤ length image.now }
{
    for number in 0..8 {
        let address = entry_at(image, geometry, rec, number);
        if let Some(rule) = inode_breaks(image, geometry, number, address) {
            return rule;
        }
    }
    Rule::PointerPlace
}

/// Whether each table block lies in the log.
fn are_in_log(geometry: &Geometry, addresses: &[u32]) -> bool {
    for address in addresses {
        if !is_in_log(geometry, *address) {
            return false;
        }
    }
    true
}

/// The rule of tables and inodes for which an image has no contents, if it has a record of the
/// site.
fn rule_of_tables(
    alloc: Global,
    image: &[u8],
    geometry: &Geometry,
) -> Result<Option<Rule>, AllocError>
    requires { 4096 * log_end geometry.now ≤ length image.now }
{
    let Some(rec) = newest_record(alloc, image, geometry)? else {
        return Ok(None);
    };
    if !has_volumes(&rec, geometry) {
        return Ok(None);
    }
    if !are_in_log(geometry, rec.tables.items()) {
        return Ok(Some(Rule::TablePlace));
    }
    let chain = chain_of(alloc, image, geometry, &rec)?;
    match tables_of(alloc, image, geometry, &rec, chain.as_slice())? {
        Some(_) => Ok(Some(rule_of_nodes(image, geometry, &rec))),
        None => Ok(Some(Rule::TableBytes)),
    }
}

/// The rules that an image breaks; of the rules 2 to 6 the first alone.
fn rules_broken(alloc: Global, image: &[u8], geometry: &Geometry) -> Result<Vec<Rule>, AllocError>
    requires { 4096 * lines_end geometry.now ≤ length image.now }
{
    match contents_of(alloc, image, geometry)? {
        Some(found) => rules_of_contents(alloc, image, geometry, &found),
        None => {
            let mut broken = Vec::new(alloc);
            note_some(&mut broken, rule_of_tables(alloc, image, geometry)?)?;
            Ok(broken)
        }
    }
}

/// The rules that an image of the site breaks; of the rules 2 to 6 the first alone. None are told
/// where the image has another size.
pub fn broken_rules(alloc: Global, image: &[u8]) -> Result<Option<Vec<Rule>>, AllocError> {
    let site = site(alloc)?;
    let blocks = site.k as usize * (site.log as usize + 1 + site.lines as usize);
    if image.len() != BYTES || BYTES < 4_096 * blocks {
        return Ok(None);
    }
    Ok(Some(rules_broken(alloc, image, &site)?))
}
