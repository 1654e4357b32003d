//! Which segments the contents of an image use, and what lies ahead of the head of their log.

ghost use Rattle.std.specs.Prelude.{◌≡◌, ◌≢◌, ℕ, ◌+◌, ◌*◌, ◌/◌, ◌<◌, ◌≤◌, ◌^◌, ◌↔◌, length, slice_index, IsTrue, All};
ghost use Rattle.hl_media.specs.History.{Image};
ghost use Rattle.hl_image.specs.Chain.{placed};
ghost use Rattle.hl_image.specs.Newest.{start_of};
ghost use Rattle.hl_nodes.specs.Live.{IsLiveAt};
ghost use Rattle.hl_nodes.specs.Sound.{head_of, IsAhead, IsMarked, IsUsed};
ghost use Rattle.hl_found.specs.Found.{parts_found, HavePlaces};
ghost use Rattle.hl_found.specs.Listing.{Lists};
ghost use Rattle.hl_found.specs.Segments.{AreInPlace, ArePartsBehind, HavePartIn};
ghost use Rattle.hl_found.specs.Segments.{IsAddressInPlace, IsInPlace, IsPartBehind, LiesIn};

use crate::contents::FoundContents;
use crate::live::LiveAt;
use hl_addr::Geometry;
use hl_image::{ChainPart, LogPlace};
use hl_tables::Tables;

/// The number of a block of a segment.
fn number_of(geometry: &Geometry, seg: u32, block: u32) -> u64
    ensures value { result ≡ geometry.now.k * seg + block }
    ensures small { result < 2 ^ 42 }
{
    geometry.k as u64 * seg as u64 + block as u64
}

/// The segment of a block of the disk.
fn segment_of(geometry: &Geometry, number: u64) -> u64
    ensures { result ≡ number / geometry.now.k }
{
    number / geometry.k as u64
}

/// Whether a part has a block in the segment. It tries each.
fn lies_in(geometry: &Geometry, part: &ChainPart, segment: u64) -> bool
    ensures { IsTrue result ↔ LiesIn geometry.now segment part.now }
{
    let first = number_of(geometry, part.seg, part.block);
    'each: for i in 0..part.summary.blocks.items().len() + 1 {
        if segment_of(geometry, first + i as u64) == segment {
            return true;
        }
    }
    false
}

/// Whether one of the parts has a block in the segment.
fn have_part_in(geometry: &Geometry, chain: &[ChainPart], segment: u64) -> bool
    ensures { IsTrue result ↔ HavePartIn geometry.now chain.now segment }
{
    'parts: for i in 0..chain.len() {
        if lies_in(geometry, &chain[i], segment) {
            return true;
        }
    }
    false
}

/// Whether a table block lies in the segment.
fn have_table_in(geometry: &Geometry, addresses: &[u32], segment: u64) -> bool
    ensures { IsTrue result ↔ ((i : ℕ) × (i < length addresses.now)
        × (slice_index addresses.now i / geometry.now.k ≡ segment)) }
{
    'tables: for i in 0..addresses.len() {
        if segment_of(geometry, addresses[i] as u64) == segment {
            return true;
        }
    }
    false
}

/// Whether the tables mark the segment used.
fn is_marked(geometry: &Geometry, tables: &Tables, segment: u64) -> bool
    requires { length tables.now.used ≡ geometry.now.log }
    ensures { IsTrue result ↔ IsMarked tables.now segment }
{
    1 <= segment && segment <= geometry.log as u64 && tables.used(segment as u32)
}

/// Where the next part would stand.
fn head_of(found: &FoundContents) -> LogPlace
    ensures { result ≡ head_of found.now.rec (parts_found found.now.chain.items) }
{
    let mut head = LogPlace {
        seg: found.rec.seg,
        block: found.rec.block,
    };
    'parts: for part in found.chain.as_slice() {
        head = LogPlace {
            seg: part.summary.next_seg,
            block: part.summary.next_block,
        };
    }
    head
}

/// Whether a segment is used: it is marked so, or it holds a table block, a block of the chain or
/// the head.
fn is_used(geometry: &Geometry, found: &FoundContents, head: LogPlace, segment: u64) -> bool
    requires used { length found.now.tables.used ≡ geometry.now.log }
    requires places { HavePlaces found.now }
    requires head { head ≡ head_of found.now.rec (parts_found found.now.chain.items) }
    ensures { let parts = parts_found found.now.chain.items in
        IsTrue result ↔ IsUsed geometry.now found.now.rec parts found.now.tables segment }
{
    if is_marked(geometry, &found.tables, segment) {
        return true;
    }
    if have_table_in(geometry, found.rec.tables.items(), segment) {
        return true;
    }
    if have_part_in(geometry, found.chain.as_slice(), segment) {
        return true;
    }
    head.seg as u64 == segment
}

/// Whether a block lies in the head's segment, at the head or past it.
fn is_ahead(geometry: &Geometry, head: LogPlace, address: u64) -> bool
    ensures { IsTrue result ↔ IsAhead geometry.now head address }
{
    number_of(geometry, head.seg, head.block) <= address
        && address < number_of(geometry, head.seg, geometry.k)
}

/// Whether no block of a part lies ahead. It tries each.
fn is_behind(geometry: &Geometry, part: &ChainPart, head: LogPlace) -> bool
    ensures { IsTrue result ↔ IsPartBehind geometry.now head part.now }
{
    let first = number_of(geometry, part.seg, part.block);
    'each: for i in 0..part.summary.blocks.items().len() + 1 {
        if is_ahead(geometry, head, first + i as u64) {
            return false;
        }
    }
    true
}

/// Whether no block of the chain lies ahead.
fn are_behind(geometry: &Geometry, chain: &[ChainPart], head: LogPlace) -> bool
    ensures { IsTrue result ↔ ArePartsBehind geometry.now head chain.now }
{
    'parts: for i in 0..chain.len() {
        if !is_behind(geometry, &chain[i], head) {
            return false;
        }
    }
    true
}

/// Whether a block lies in a used segment, and not ahead.
fn is_in_place(geometry: &Geometry, found: &FoundContents, head: LogPlace, address: u32) -> bool
    requires used { length found.now.tables.used ≡ geometry.now.log }
    requires places { HavePlaces found.now }
    requires head { head ≡ head_of found.now.rec (parts_found found.now.chain.items) }
    ensures { let parts = parts_found found.now.chain.items in
        IsTrue result ↔ IsAddressInPlace geometry.now found.now.rec parts found.now.tables address }
{
    let segment = segment_of(geometry, address as u64);
    is_used(geometry, found, head, segment) && !is_ahead(geometry, head, address as u64)
}

/// Whether each of the live blocks lies in a used segment, and not ahead.
fn lives_are_in_place(
    geometry: &Geometry,
    found: &FoundContents,
    head: LogPlace,
    lives: &[LiveAt],
) -> bool
    requires used { length found.now.tables.used ≡ geometry.now.log }
    requires places { HavePlaces found.now }
    requires head { head ≡ head_of found.now.rec (parts_found found.now.chain.items) }
    ensures { let parts = parts_found found.now.chain.items in
        IsTrue result
        ↔ All (IsInPlace geometry.now found.now.rec parts found.now.tables) lives.now }
{
    'each: for i in 0..lives.len() {
        if !is_in_place(geometry, found, head, lives[i].address) {
            return false;
        }
    }
    true
}

/// Whether each live block lies in a used segment, and neither a live block nor one of the chain
/// lies in the head's segment at the head or past it. For each live block it goes over the blocks
/// of the chain.
pub fn blocks_are_in_place(geometry: &Geometry, found: &FoundContents, lives: &[LiveAt]) -> bool
    requires used { length found.now.tables.used ≡ geometry.now.log }
    requires places { HavePlaces found.now }
    ensures { let parts = parts_found found.now.chain.items in (image : Image)
        → Lists (IsLiveAt geometry.now image found.now.rec found.now.tables) lives.now
        → IsTrue result ↔ AreInPlace geometry.now image found.now.rec parts found.now.tables }
{
    let head = head_of(found);
    lives_are_in_place(geometry, found, head, lives)
        && are_behind(geometry, found.chain.as_slice(), head)
}
