//! Shelves: the tertiary segments that are at hand, and the bytes of files on them.

ghost use Rattle.std.specs.Prelude.{◌≡◌, ◌+◌, ◌<◌, ◌*◌, ◌/◌, ◌%◌, ◌^◌, ◌≤◌, ◌↔◌, ℕ, length, get_or, unwrap_or, [], ◌∷◌, IsTrue, IfOk, OnOk, IsSome, MatchOption, None, Some};
ghost use Rattle.std.specs.FinMap.{get};
ghost use Rattle.std.specs.List.{slice_index_or};
ghost use Rattle.hl_bytes.specs.Buffers.{block_of};
ghost use Rattle.hl_tseg.specs.declared.slot.Slot.TheVariants.{Staged};
ghost use Rattle.hl_nodes.specs.Files.{EndsInZeros};
ghost use Rattle.hl_nodes.specs.Found.{block_found, node_found};
ghost use Rattle.hl_nodes.specs.Lines.{line_bytes, with_staged};
ghost use Rattle.hl_placed.specs.Blocks.{Shelf, SerialsAre, byte_of, file_block, plain_bytes};
ghost use Rattle.hl_found.specs.declared.shelves.ShelfSegment.{ShelfSegment};
ghost use Rattle.hl_found.specs.Shelves.{HasSegmentOf, NoneBefore, ServesFile, at_hand};
ghost use Rattle.hl_found.specs.Shelves.{shelf_over};
ghost use Rattle.hl_found.specs.Staged.{HaveLines, lines_end};

use crate::staged::line_bytes;
use hl_addr::Geometry;
use hl_nodes::{FoundBlock, FoundNode};
use hl_tseg::Slot;
use std::alloc::{AllocError, Global};

/// A tertiary segment.
#[derive(Drop)]
pub struct ShelfSegment {
    pub serial: u64,
    /// All its blocks.
    pub bytes: Vec<u8>,
}

/// A copy of a line.
fn line_copy(
    alloc: Global,
    image: &[u8],
    geometry: &Geometry,
    line: u32,
) -> Result<Vec<u8>, AllocError>
    requires image { 4096 * lines_end geometry.now ≤ length image.now }
    requires line { line < geometry.now.lines }
    ensures { let own = line_bytes geometry.now (block_of image.now) line in
        IfOk result (λ r. r.items ≡ own) }
{
    Vec::from_slice(alloc, line_bytes(image, geometry, line))
}

/// Lists the segment of a slot that is staged, as its line has it.
fn push_staged(
    alloc: Global,
    image: &[u8],
    geometry: &Geometry,
    slot: Slot,
    staged: &mut Vec<ShelfSegment>,
) -> Result<(), AllocError>
    requires image { 4096 * lines_end geometry.now ≤ length image.now }
    requires line { (line serial : ℕ) → slot ≡ Staged line serial → line < geometry.now.lines }
    ensures { OnOk result ((base : Shelf) → shelf_over base staged.new.items
        ≡ shelf_over (with_staged geometry.now (block_of image.now) base (slot ∷ []))
        staged.old.items) }
{
    match slot {
        Slot::Staged { line, serial } => {
            let bytes = line_copy(alloc, image, geometry, line)?;
            staged.push(ShelfSegment { serial, bytes })?;
            Ok(())
        }
        _ => Ok(()),
    }
}

/// The segments that are staged, as the lines of the image have them. The image has at least the
/// blocks up to the end of the lines, and staged slots have lines of the disk. It copies each such
/// line.
pub fn staged_segments(
    alloc: Global,
    image: &[u8],
    geometry: &Geometry,
    slots: &[Slot],
) -> Result<Vec<ShelfSegment>, AllocError>
    requires image { 4096 * lines_end geometry.now ≤ length image.now }
    requires lines { HaveLines geometry.now.lines slots.now }
    ensures { IfOk result (λ r. (base : Shelf)
        → shelf_over base r.items ≡ with_staged geometry.now (block_of image.now) base slots.now) }
{
    let mut staged = Vec::new(alloc);
    'each: for n in 0..slots.len() {
        push_staged(alloc, image, geometry, slots[n], &mut staged)?;
    }
    Ok(staged)
}

/// The place of the first segment of a serial.
fn first_of(held: &[ShelfSegment], serial: u64) -> Option<usize>
    ensures { MatchOption result (NoneBefore held.now serial (length held.now))
        (λ i. (i < length held.now) × NoneBefore held.now serial i
        × ((d : ShelfSegment) → (slice_index_or held.now i d).serial ≡ serial)) }
{
    'each: for i in 0..held.len() {
        if held[i].serial == serial {
            return Some(i);
        }
    }
    None
}

/// The place of the segment that a shelf has of a serial.
fn place_of(held: &[ShelfSegment], serial: u64) -> Option<usize>
    ensures { MatchOption result
        ((base : Shelf) → get (shelf_over base held.now) serial ≡ get base serial)
        (λ i. (i < length held.now) × ((base : Shelf) (d : ShelfSegment)
        → get (shelf_over base held.now) serial ≡ Some (slice_index_or held.now i d).bytes.items)) }
{
    match first_of(held, serial) {
        Some(i) => Some(i),
        None => None,
    }
}

/// The bytes of the segment of a serial: of one in the image's lines, if there is one.
fn segment_of<'a>(
    staged: &'a [ShelfSegment],
    shelf: &'a [ShelfSegment],
    serial: u64,
) -> Option<&'a [u8]>
    ensures { let own = get (at_hand staged.now shelf.now) serial in
        MatchOption result (own ≡ None) (λ bytes. own ≡ Some bytes.now) }
{
    if let Some(i) = place_of(staged, serial) {
        return Some(staged[i].bytes.as_slice());
    }
    match place_of(shelf, serial) {
        Some(i) => Some(shelf[i].bytes.as_slice()),
        None => None,
    }
}

/// A byte of the segment of a serial, and zero where there is none.
fn segment_byte(staged: &[ShelfSegment], shelf: &[ShelfSegment], serial: u64, at: u64) -> u8
    ensures { let own = get (at_hand staged.now shelf.now) serial in
        result ≡ get_or (unwrap_or own []) at 0 }
{
    match segment_of(staged, shelf, serial) {
        Some(bytes) if at < bytes.len() as u64 => bytes[at as usize],
        _ => 0,
    }
}

/// Byte `k` of a block.
fn block_byte(staged: &[ShelfSegment], shelf: &[ShelfSegment], block: &FoundBlock, k: usize) -> u8
    requires { k < 4096 }
    ensures { result ≡ byte_of (at_hand staged.now shelf.now) (block_found block.now) k }
{
    match block {
        FoundBlock::Hole => 0,
        FoundBlock::Here(bytes) => { if k < bytes.len() { bytes[k] } else { 0 } }
        FoundBlock::Away { serial, position } => {
            segment_byte(staged, shelf, *serial, 4096 * *position as u64 + k as u64)
        }
    }
}

/// Byte `j` of the blocks of a node.
fn node_byte(staged: &[ShelfSegment], shelf: &[ShelfSegment], node: &FoundNode, j: u64) -> u8
    ensures { let file = (node_found node.now).content in
        result ≡ byte_of (at_hand staged.now shelf.now) (file_block file (j / 4096)) (j % 4096) }
{
    let blocks = node.blocks.as_slice();
    let i = j / 4096;
    if i < blocks.len() as u64 {
        block_byte(staged, shelf, &blocks[i as usize], (j % 4096) as usize)
    } else {
        0
    }
}

/// The bytes of a node, as many as its size: those of the log, those of the segments that are staged,
/// and those of a shelf for the rest. For each byte of an away block it goes over the segments.
pub fn plain_bytes(
    alloc: Global,
    staged: &[ShelfSegment],
    shelf: &[ShelfSegment],
    node: &FoundNode,
) -> Result<Vec<u8>, AllocError>
    ensures { let file = (node_found node.now).content in
        IfOk result (λ r. r.items ≡ plain_bytes (at_hand staged.now shelf.now) file) }
{
    let mut bytes = Vec::new(alloc);
    'each: for j in 0..node.size {
        bytes.push(node_byte(staged, shelf, node, j))?;
    }
    Ok(bytes)
}

/// Whether each byte of the node's blocks past its size is zero.
pub fn ends_in_zeros(staged: &[ShelfSegment], shelf: &[ShelfSegment], node: &FoundNode) -> bool
    requires few { length node.now.blocks.items < 2 ^ 32 }
    ensures { let file = (node_found node.now).content in
        IsTrue result ↔ EndsInZeros (at_hand staged.now shelf.now) file }
{
    'each: for j in node.size..4096 * node.blocks.len() as u64 {
        if node_byte(staged, shelf, node, j) != 0 {
            return false;
        }
    }
    true
}

/// Whether the segment of a serial is at hand.
fn has_segment(staged: &[ShelfSegment], shelf: &[ShelfSegment], serial: u64) -> bool
    ensures { IsTrue result ↔ IsSome (get (at_hand staged.now shelf.now) serial) }
{
    match segment_of(staged, shelf, serial) {
        Some(_) => true,
        None => false,
    }
}

/// Whether the segment of a block is at hand, if the block is away.
fn has_segment_of(staged: &[ShelfSegment], shelf: &[ShelfSegment], block: &FoundBlock) -> bool
    ensures { IsTrue result ↔ HasSegmentOf (at_hand staged.now shelf.now) (block_found block.now) }
{
    match block {
        FoundBlock::Away { serial, .. } => has_segment(staged, shelf, *serial),
        _ => true,
    }
}

/// Whether the segment of each away block of a node is at hand.
fn has_segments(staged: &[ShelfSegment], shelf: &[ShelfSegment], node: &FoundNode) -> bool
    ensures { let own = at_hand staged.now shelf.now in
        IsTrue result
        ↔ SerialsAre (λ serial. IsSome (get own serial)) (node_found node.now).content }
{
    let blocks = node.blocks.as_slice();
    'each: for i in 0..blocks.len() {
        if !has_segment_of(staged, shelf, &blocks[i]) {
            return false;
        }
    }
    true
}

/// Whether the segment of each away block of a node is at hand, staged or on a shelf, and the node is
/// zero past its size there.
pub fn serves_file(staged: &[ShelfSegment], shelf: &[ShelfSegment], node: &FoundNode) -> bool
    requires few { length node.now.blocks.items < 2 ^ 32 }
    ensures { let file = (node_found node.now).content in
        IsTrue result ↔ ServesFile (at_hand staged.now shelf.now) file }
{
    has_segments(staged, shelf, node) && ends_in_zeros(staged, shelf, node)
}
