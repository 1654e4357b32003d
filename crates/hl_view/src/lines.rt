//! A tertiary segment: a line of the disk, or a slot of a volume, in a buffer.

use hl_bytes::{
    BLOCK, BlockRecord, SegBuf, end_page_over, get_block_record, get_u32, get_u64, has_bytes,
    is_page_over, is_zero, put_block_records, put_bytes, put_u32, put_u64, put_zeros,
};
use std::marker::Model;

const MAGIC: [u8; 8] = *b"HLTERT01";

/// The most records that have room in block 0.
const RECORDS_MAX: usize = 500;

/// Where the records begin.
const RECORDS_AT: usize = 24;

/// A segment that is read where it lies. Contracts see its bytes, and what its block 0 says.
#[derive(Drop)]
pub struct LineView<'a> {
    segment: &'a [u8],
}

impl<'a> Model for LineView<'a> {
    ghost use Rattle.hl_view.specs.Lines.{IsLineSeen, LineSeen, line_seen};

    ghost Value = { LineSeen };

    ghost view = { λ v. line_seen v.segment.now };

    ghost invariant = { λ v. IsLineSeen v.segment.now };
}

impl<'a> LineView<'a> {
    ghost use Rattle.std.specs.Prelude.{◌≡◌, ◌<◌, ◌+◌, ◌↔◌, Some, IfSome, IsNone, length, slice_get};
    ghost use Rattle.hl_bytes.specs.Buffers.{part_of};
    ghost use Rattle.hl_tseg.specs.Segments.{SegmentHead};
    ghost use Rattle.hl_view.specs.Lines.{IsSegment, head_of};

    /// The segment of this serial that the buffer holds. None exactly where the buffer is no segment of
    /// that serial.
    pub fn open(buf: &'a SegBuf, serial: u64) -> Option<LineView<'a>>
        ensures found { (head : SegmentHead) → (head_of result ≡ Some head) ↔ IsSegment buf.now serial head }
        ensures none { IsNone result ↔ ((head : SegmentHead) → ¬ IsSegment buf.now serial head) }
        ensures lent { IfSome result (λ view. view.bytes ≡ buf.now) }
    {
        let segment = buf.part(0, buf.blocks());
        if is_segment(segment, serial) {
            Some(LineView { segment })
        } else {
            None
        }
    }

    /// The number of data blocks.
    pub fn len(&self) -> u32
        ensures { result ≡ length self.now.head.records }
    {
        get_u32(self.segment, 16)
    }

    /// Which block data block `i` is.
    pub fn block_record(&self, i: u32) -> BlockRecord
        requires { i < length self.now.head.records }
        ensures { slice_get self.now.head.records i ≡ Some result }
    {
        get_block_record(self.segment, RECORDS_AT + 8 * i as usize)
    }

    /// The bytes of data block `i`, which is block `i + 1` of the segment.
    pub fn block(&self, i: u32) -> &'a [u8]
        requires { i < length self.now.head.records }
        ensures value { result.now ≡ part_of self.now.bytes (i + 1) 1 }
        ensures len { length result.now ≡ 4096 }
    {
        block_of(self.segment, i + 1)
    }
}

ghost use Rattle.std.specs.Prelude.{◌≡◌, ◌≤◌, ◌+◌, ◌*◌, ◌/◌, ◌↔◌, IsTrue, length, take, drop};
ghost use Rattle.hl_bytes.specs.Buffers.{part_of};
ghost use Rattle.hl_bytes.specs.Pages.{page_over};
ghost use Rattle.hl_bytes.specs.Wholes.{IsBuffer};
ghost use Rattle.hl_tseg.specs.Segments.{head_fields};
ghost use Rattle.std.specs.List.{AllByRecursion};
ghost use Rattle.hl_bytes.specs.Records.{IsBlockRecord};
ghost use Rattle.hl_view.specs.Lines.{IsSegment, IsTested, MayBeSealed, head_in, head_with};

/// The bytes of a block.
pub(crate) fn block_of(bytes: &[u8], i: u32) -> &[u8]
    requires { 4096 * (i + 1) ≤ length bytes.now }
    ensures value { result.now ≡ part_of bytes.now i 1 }
    ensures len { length result.now ≡ 4096 }
{
    let start = BLOCK * i as usize;
    &bytes[start..start + BLOCK]
}

/// Whether each byte that is no record is what the fields say, in a buffer of so many blocks.
fn is_tested(bytes: &[u8], serial: u64, blocks: usize) -> bool
    requires whole { IsBuffer bytes.now }
    requires count { blocks ≡ length bytes.now / 4096 }
    ensures { IsTrue result ↔ IsTested bytes.now serial }
{
    if blocks < 2 {
        return false;
    }
    let count = get_u32(bytes, 16) as usize;
    1 <= count
        && count <= (blocks - 1).min(RECORDS_MAX)
        && has_bytes(bytes, 0, &MAGIC)
        && get_u64(bytes, 8) == serial
        && is_zero(bytes, 20, RECORDS_AT)
        && is_zero(bytes, BLOCK * (1 + count), bytes.len())
        && is_page_over(bytes, RECORDS_AT + 8 * count)
}

/// Whether the bytes are the segment that their fields say, and it has the serial.
fn is_segment(bytes: &[u8], serial: u64) -> bool
    requires { IsBuffer bytes.now }
    ensures { IsTrue result ↔ IsSegment bytes.now serial (head_in bytes.now) }
{
    is_tested(bytes, serial, bytes.len() / BLOCK)
}

/// Writes block 0 of a segment whose data blocks are in place, one for each record, with the digest
/// of them all.
#[tactic(auto, unfolding(hl_tseg::specs::Segments::head_fields))]
fn seal_segment(segment: &mut [u8], serial: u64, records: &[BlockRecord])
    requires blocks { 4096 ≤ length segment.old }
    requires few { length records.now ≤ 500 }
    ensures bytes { segment.new ≡ page_over (head_fields (head_with serial records.now)) (drop 4096 segment.old) }
    ensures fits { AllByRecursion IsBlockRecord records.now }
{
    put_bytes(segment, 0, &MAGIC);
    put_u64(segment, 8, serial);
    put_u32(segment, 16, records.len() as u32);
    put_zeros(segment, 20, RECORDS_AT);
    put_block_records(segment, RECORDS_AT, records);
    end_page_over(segment, RECORDS_AT + 8 * records.len());
}

/// Writes block 0 of a segment that fills the buffer, whose data blocks are in place, one for each
/// record, with zeros behind them. The buffer is read as this segment afterwards.
pub fn seal_line(buf: &mut SegBuf, serial: u64, records: &[BlockRecord])
    requires { MayBeSealed buf.old records.now }
    ensures block_0 { buf.new ≡ page_over (head_fields (head_with serial records.now)) (drop 4096 buf.old) }
    ensures sealed { IsSegment buf.new serial (head_with serial records.now) }
{
    let blocks = buf.blocks();
    seal_segment(buf.part_mut(0, blocks), serial, records);
}
