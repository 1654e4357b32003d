//! The bytes and the digest of a part of the log, and where the next part may begin.

use hl_addr::{Geometry, Numbers};
use hl_bytes::{BLOCK, BlockRecord, TableRecord};
use hl_summary::Heading;
use std::alloc::{AllocError, Global};
use std::test::Fail;

/// A site of 16 log segments, 512 inode numbers and two volumes of four slots; its tables fill four
/// blocks.
fn site(alloc: Global) -> Result<Geometry, Fail> {
    let volumes = Numbers::of([4, 4].to_vec(alloc)?);
    Ok(Geometry::new(64, 16, 16, 512, volumes).ok_or("off the limits")?)
}

const LAST_SERIAL: u64 = 18_446_744_073_709_551_615;

/// Part 9 with a data block, a table block and a change of each kind, each at the ends of its
/// ranges; it ends its unit. Its data blocks are filled with 7.
fn ninth() -> [u8; 3 * BLOCK] {
    let heading = Heading {
        serial: 9,
        next_seg: 4,
        next_block: 0,
        ends: true,
    };
    let data = BlockRecord {
        ino: 511,
        index: 1_035,
    };
    let table = BlockRecord {
        ino: 3,
        index: 4_294_967_293,
    };
    let changes = [
        TableRecord {
            kind: 1,
            a: 511,
            b: 0,
            serial: 0,
        },
        TableRecord {
            kind: 2,
            a: 7,
            b: 4_294_967_295,
            serial: LAST_SERIAL,
        },
        TableRecord {
            kind: 3,
            a: 7,
            b: 0,
            serial: LAST_SERIAL,
        },
        TableRecord {
            kind: 4,
            a: 7,
            b: 0,
            serial: 0,
        },
        TableRecord {
            kind: 5,
            a: 1,
            b: 0,
            serial: 0,
        },
    ];
    let mut bytes = [7; 3 * BLOCK];
    hl_summary::seal_with(heading, &[data, table], &changes, &mut bytes);
    bytes
}

/// Whether the bytes from a place on are these.
fn holds(bytes: &[u8; 3 * BLOCK], at: usize, want: &[u8]) -> bool {
    at <= bytes.len() && want.len() <= bytes.len() - at && hl_bytes::has_bytes(bytes, at, want)
}

/// Whether bytes that run from this place to the segment's end begin with the part of a serial.
fn is_part(
    alloc: Global,
    bytes: &[u8],
    place: (u32, u32),
    serial: u64,
    site: &Geometry,
) -> Result<bool, AllocError> {
    let (seg, block) = place;
    if site.k < block || bytes.len() != BLOCK * (site.k - block) as usize {
        return Ok(false);
    }
    Ok(hl_summary::check(alloc, bytes, seg, block, serial, site)?.is_some())
}

#[test]
fn a_part_has_its_bytes(rt: HostRuntime) -> Result<(), Fail> {
    let site = site(rt.alloc())?;
    let bytes = ninth();
    for (at, want) in [
        (
            0,
            b"HLPART01\x09\0\0\0\0\0\0\0\x04\0\0\0\0\0\0\0\x01\0\0\0".as_slice(),
        ),
        (28, b"\x02\0\0\0\x05\0\0\0\0\0\0\0".as_slice()),
        (
            40,
            b"\xff\x01\0\0\x0b\x04\0\0\x03\0\0\0\xfd\xff\xff\xff\0".as_slice(),
        ),
        (
            1_960,
            b"\x01\0\0\0\xff\x01\0\0\0\0\0\0\0\0\0\0\0\0\0\0\0\0\0\0".as_slice(),
        ),
        (
            1_984,
            b"\x02\0\0\0\x07\0\0\0\xff\xff\xff\xff\0\0\0\0".as_slice(),
        ),
        (2_000, b"\xff\xff\xff\xff\xff\xff\xff\xff\x03\0".as_slice()),
        (4_064, b"\xf7\xaa\xea\x10".as_slice()),
    ] {
        assert!(rt; holds(&bytes, at, want), "at {at}");
    }
    assert!(rt; is_part(rt.alloc(), &bytes, (3, 61), 9, &site)?);
    Ok(())
}

/// Seals a part over the blocks at the front of the bytes, and says whether they have room for it.
fn seal_front(heading: Heading, blocks: &[BlockRecord], bytes: &mut [u8]) -> bool {
    if 240 < blocks.len() || bytes.len() < BLOCK * (1 + blocks.len()) {
        return false;
    }
    hl_summary::seal_with(
        heading,
        blocks,
        &[],
        &mut bytes[..BLOCK * (1 + blocks.len())],
    );
    true
}

/// Whether a part of so many inode blocks is one at a place, where the next part is to begin at
/// another.
fn is_part_before(
    alloc: Global,
    site: &Geometry,
    place: (u32, u32),
    count: usize,
    next: (u32, u32),
) -> Result<bool, AllocError> {
    let heading = Heading {
        serial: 0,
        next_seg: next.0,
        next_block: next.1,
        ends: false,
    };
    let inode = BlockRecord {
        ino: 1,
        index: 4_294_967_295,
    };
    if 64 < place.1 {
        return Ok(false);
    }
    let blocks = vec![in alloc; inode; count]?;
    let mut bytes = vec![in alloc; 7; BLOCK * (64 - place.1) as usize]?;
    Ok(
        seal_front(heading, blocks.as_slice(), bytes.as_mut_slice())
            && is_part(alloc, bytes.as_slice(), place, 0, site)?,
    )
}

#[test]
fn the_next_place_is_behind_or_with_another_segment(rt: HostRuntime) -> Result<(), Fail> {
    let site = site(rt.alloc())?;
    // The place, the number of blocks, the next place, and whether that is a part.
    for (place, count, next, is_part) in [
        ((16, 60), 1, (16, 62), true),
        ((16, 60), 1, (1, 0), false),
        ((16, 60), 2, (1, 0), true),
        ((16, 60), 3, (1, 0), true),
        ((16, 61), 0, (16, 62), true),
        ((16, 61), 1, (16, 63), false),
        ((16, 61), 2, (15, 1), false),
        ((16, 61), 2, (16, 0), false),
        ((16, 61), 2, (17, 0), false),
        ((16, 61), 2, (0, 0), false),
        ((1, 62), 1, (16, 0), true),
        ((0, 62), 1, (16, 0), false),
        ((17, 62), 1, (16, 0), false),
        ((16, 63), 0, (1, 0), false),
    ] {
        let found = is_part_before(rt.alloc(), &site, place, count, next)?;
        assert_eq!(rt;
            found,
            is_part,
            "{count} blocks at {place:?}, then {next:?}"
        );
    }
    Ok(())
}
