//! The bytes and digests of single blocks, worked out from `docs/FORMATS.md` outside of this
//! program.

ghost use Rattle.std.specs.Prelude.{IfOk};
ghost use Rattle.hl_super.specs.Records.{HasRoom};

use hl_addr::{NOTHING, Numbers};
use hl_bytes::{BLOCK, SegBuf};
use hl_inode::{Inode, Kind};
use hl_super::{Label, Record};
use hl_view::LineView;
use std::alloc::{AllocError, Global};
use std::test::Fail;

/// Whether the bytes from a place on are these.
fn holds(bytes: &[u8], at: usize, want: &[u8]) -> bool {
    at <= bytes.len() && want.len() <= bytes.len() - at && hl_bytes::has_bytes(bytes, at, want)
}

/// A test page, whose digest is that of its block alone.
fn page() -> [u8; BLOCK] {
    let mut block = [9; BLOCK];
    hl_bytes::put_bytes(&mut block, 0, b"HLTEST01");
    hl_bytes::put_u32(&mut block, 8, 7);
    hl_bytes::end_page(&mut block, 12);
    block
}

/// A test page, whose digest goes on over a block of zeros behind it.
fn page_over() -> [u8; 2 * BLOCK] {
    let mut part = [0; 2 * BLOCK];
    hl_bytes::put_bytes(&mut part, 0, b"HLTEST01");
    hl_bytes::put_u32(&mut part, 8, 7);
    hl_bytes::end_page_over(&mut part, 12);
    part
}

#[test]
fn a_page_ends_with_its_digest(rt: HostRuntime) {
    assert!(rt; holds(&page(), 4_064, b"\x63\xc4\x87\x68"));
    assert!(rt; holds(&page_over(), 4_064, b"\x8c\x8a\x0a\xf7"));
}

/// The longest file, with its other fields at the ends of their ranges.
const FILE: Inode = Inode {
    number: NOTHING,
    kind: Kind::File,
    size: 4_243_456,
    used: 18_446_744_073_709_551_615,
    direct: [4_294_966_977, 1, 2, 3, 4, 5, 6, 7, 8, 9, 10, NOTHING],
    single: 11,
};

fn inode_block() -> [u8; BLOCK] {
    let mut block = [7; BLOCK];
    hl_inode::encode(&FILE, &mut block);
    block
}

#[test]
fn an_inode_has_its_bytes(rt: HostRuntime) {
    let block = inode_block();
    for (at, want) in [
        (
            0,
            b"HLINODE1\xff\xff\xff\xff\x01\0\0\0\0\xc0\x40\0\0\0\0\0".as_slice(),
        ),
        (24, b"\xff\xff\xff\xff\xff\xff\xff\xff".as_slice()),
        (32, b"\xc1\xfe\xff\xff\x01\0\0\0".as_slice()),
        (80, b"\x0b\0\0\0\0\0\0\0".as_slice()),
    ] {
        assert!(rt; holds(&block, at, want), "at {at}");
    }
}

/// A pointer block of holes, with the last pointer set.
fn pointer_block() -> [u8; BLOCK] {
    let mut block = [255; BLOCK];
    hl_inode::set_pointer(&mut block, 1_023, 4_294_966_977);
    block
}

fn last_two(block: &[u8; BLOCK]) -> (u32, u32) {
    (
        hl_inode::pointer(block, 1_022),
        hl_inode::pointer(block, 1_023),
    )
}

#[test]
fn a_pointer_block_holds_1024_pointers(rt: HostRuntime) {
    let block = pointer_block();
    assert!(rt; holds(&block, 4_088, b"\xff\xff\xff\xff\xc1\xfe\xff\xff"));
    assert_eq!(rt; last_two(&block), (NOTHING, 4_294_966_977));
}

/// The label of a small site.
const SITE: Label = Label {
    k: 64,
    log: 16,
    lines: 16,
    inodes: 512,
};

fn label_block() -> [u8; BLOCK] {
    let mut block = [7; BLOCK];
    hl_super::encode_label(&SITE, &mut block);
    block
}

/// Whether the label with another number at a place is one, with the digest of that.
fn is_label_with(at: usize, value: u32) -> bool {
    let mut block = label_block();
    if BLOCK - 4 < at {
        return false;
    }
    hl_bytes::put_u32(&mut block, at, value);
    hl_bytes::end_page(&mut block, 4_064);
    hl_super::decode_label(&block, NOTHING).is_some()
}

#[test]
fn a_label_has_its_bytes_and_ranges(rt: HostRuntime) {
    let block = label_block();
    let fields = b"HLLABEL1\x40\0\0\0\x10\0\0\0\x10\0\0\0\0\x02\0\0\0";
    assert!(rt; holds(&block, 0, fields));
    assert!(rt; holds(&block, 4_064, b"\x10\xf4\x20\xb2"));
    // A field's place, the number that is put there, and whether that is a label.
    for (at, value, is_label) in [
        (8, 63, false),
        (8, 512, true),
        (8, 1_024, false),
        (12, 15, false),
        (12, 4_096, true),
        (12, 4_097, false),
        (16, 12, false),
        (16, 13, true),
        (16, 256, true),
        (16, 257, false),
        (20, 1, false),
        (20, 2, true),
        (20, 2_048, true),
        (20, 2_049, false),
    ] {
        assert_eq!(rt; is_label_with(at, value), is_label, "{value} at {at}");
    }
}

/// Record 7 of that site, with two volumes of four slots, and its fields at ends of their ranges.
fn seventh(alloc: Global) -> Result<Record, AllocError>
    ensures { IfOk result (λ rec. HasRoom rec) }
{
    Ok(Record {
        number: 7,
        serial: 18_446_744_073_709_551_615,
        seg: 16,
        block: 62,
        tseg_serial: 1,
        format: 1,
        volumes: Numbers::of([4, 4].to_vec(alloc)?),
        tables: Numbers::of([64, 65, 66, 4_294_967_295].to_vec(alloc)?),
    })
}

fn record_block(alloc: Global) -> Result<[u8; BLOCK], AllocError> {
    let mut block = [7; BLOCK];
    hl_super::encode_record(&seventh(alloc)?, &mut block);
    Ok(block)
}

fn is_record(alloc: Global, block: &[u8; BLOCK]) -> Result<bool, AllocError> {
    Ok(hl_super::decode_record(alloc, block, 1, &SITE)?.is_some())
}

#[test]
fn a_record_has_its_bytes(rt: HostRuntime) -> Result<(), Fail> {
    let block = record_block(rt.alloc())?;
    for (at, want) in [
        (
            0,
            b"HLRECRD1\x07\0\0\0\0\0\0\0\xff\xff\xff\xff\xff\xff\xff\xff".as_slice(),
        ),
        (
            24,
            b"\x10\0\0\0\x3e\0\0\0\x01\0\0\0\0\0\0\0\x01\0\0\0".as_slice(),
        ),
        (44, b"\x02\0\0\0\x04\0\0\0\x04\0\0\0\0".as_slice()),
        (
            176,
            b"\x04\0\0\0\x40\0\0\0\x41\0\0\0\x42\0\0\0\xff\xff\xff\xff\0".as_slice(),
        ),
        (4_064, b"\x5e\xd5\xa1\xdc".as_slice()),
    ] {
        assert!(rt; holds(&block, at, want), "at {at}");
    }
    assert!(rt; is_record(rt.alloc(), &block)?);
    Ok(())
}

/// The digest of that segment.
const DIGEST: &[u8; 32] =
    b"\x7e\x64\x3c\xd4\xa6\xc2\x41\x5d\x7a\x6e\xd8\x79\xc6\x78\xbf\xf4\x34\xad\x53\x17\x99\x41\x66\x65\x17\x77\xa1\x3a\x17\x39\xf9\xbc";

/// The four blocks of a segment of serial 7 with two data blocks, 1 and 2 in their first bytes.
fn segment_bytes() -> [u8; 4 * BLOCK] {
    let mut bytes = [0; 4 * BLOCK];
    hl_bytes::put_bytes(
        &mut bytes,
        0,
        b"HLTERT01\x07\0\0\0\0\0\0\0\x02\0\0\0\0\0\0\0",
    );
    hl_bytes::put_bytes(
        &mut bytes,
        24,
        b"\xff\x01\0\0\x0b\x04\0\0\x03\0\0\0\xfd\xff\xff\xff",
    );
    hl_bytes::put_bytes(&mut bytes, 4_064, DIGEST);
    bytes[BLOCK] = 1;
    bytes[2 * BLOCK] = 2;
    bytes
}

fn segment(alloc: Global) -> Result<SegBuf, AllocError> {
    let mut buf = SegBuf::new(alloc, 4)?;
    buf.part_mut(0, 4).copy_from_slice(&segment_bytes());
    Ok(buf)
}

/// The number and index of each block of the segment of a serial, and its first byte.
fn blocks_of(alloc: Global, buf: &SegBuf, serial: u64) -> Result<Vec<(u32, u32, u8)>, AllocError> {
    let mut blocks = Vec::new(alloc);
    if let Some(view) = LineView::open(buf, serial) {
        for i in 0..view.len() {
            let record = view.block_record(i);
            blocks.push((record.ino, record.index, view.block(i)[0]))?;
        }
    }
    Ok(blocks)
}

#[test]
fn a_segment_is_read_from_its_bytes(rt: HostRuntime) -> Result<(), Fail> {
    let buf = segment(rt.alloc())?;
    let blocks = blocks_of(rt.alloc(), &buf, 7)?;
    let want = [(511, 1_035, 1), (3, 4_294_967_293, 2)];
    assert!(rt; blocks.as_slice() == want.as_slice());
    assert!(rt; blocks_of(rt.alloc(), &buf, 8)?.is_empty());
    Ok(())
}
