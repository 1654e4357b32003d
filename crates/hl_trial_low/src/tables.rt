//! The blocks of the tables, after changes worked out by hand.

use hl_addr::{Geometry, Numbers};
use hl_bytes::{BLOCK, BlockRecord, TableRecord};
use hl_tables::Tables;
use hl_tseg::Slot;
use std::alloc::Global;
use std::test::Fail;

/// The tables of a site, with a part whose blocks lie at 2 * 64 + 5 and behind it, and with three
/// changes after it.
fn tables(alloc: Global) -> Result<Tables, Fail> {
    let volumes = Numbers::of([4, 4].to_vec(alloc)?);
    let site = Geometry::new(64, 16, 16, 512, volumes).ok_or("off the limits")?;
    let mut tables = Tables::new(alloc, &site)?;
    // The block of inode 7, a data block and a pointer block of it, the block of inode 3, and a
    // table block.
    let blocks = [
        BlockRecord {
            ino: 7,
            index: 4_294_967_295,
        },
        BlockRecord { ino: 7, index: 3 },
        BlockRecord {
            ino: 7,
            index: 4_294_967_294,
        },
        BlockRecord {
            ino: 3,
            index: 4_294_967_295,
        },
        BlockRecord {
            ino: 2,
            index: 4_294_967_293,
        },
    ];
    // Inode 3 is freed; slot 4 is staged and then home, slot 5 is staged, slot 6 is spoilt; volume
    // 1 is full.
    let changes = [
        TableRecord {
            kind: 1,
            a: 3,
            b: 0,
            serial: 0,
        },
        TableRecord {
            kind: 2,
            a: 4,
            b: 9,
            serial: 77,
        },
        TableRecord {
            kind: 3,
            a: 4,
            b: 0,
            serial: 77,
        },
        TableRecord {
            kind: 2,
            a: 5,
            b: 12,
            serial: 78,
        },
        TableRecord {
            kind: 4,
            a: 6,
            b: 0,
            serial: 0,
        },
        TableRecord {
            kind: 5,
            a: 1,
            b: 0,
            serial: 0,
        },
    ];
    tables.lay(2, 5, &blocks, &changes);
    tables.set_used(2, true);
    tables.set_inode(5, 1_234);
    tables.slots_mut().set(0, Slot::Home { serial: 76 });
    Ok(tables)
}

/// Whether a block of the tables has these bytes at a place.
fn holds(tables: &Tables, i: u32, at: usize, want: &[u8]) -> bool {
    let mut block = [7; BLOCK];
    if tables.blocks() <= i {
        return false;
    }
    tables.write_block(i, &mut block);
    at <= BLOCK && want.len() <= BLOCK - at && hl_bytes::has_bytes(&block, at, want)
}

#[test]
fn a_part_is_laid_block_by_block_and_then_change_by_change(rt: HostRuntime) -> Result<(), Fail> {
    let tables = tables(rt.alloc())?;
    // The block, a place, and what stands there.
    for (i, at, bytes) in [
        (0, 8, b"\xff\xff\xff\xff\xff\xff\xff\xff".as_slice()),
        (0, 20, b"\xd2\x04\0\0\xff\xff\xff\xff\x85\0\0\0".as_slice()),
        (1, 0, b"\0\0\0\0\x01\0\0\0\0\0\0\0".as_slice()),
        (2, 0, b"\x02\0\0\0\0\0\0\0\x4c\0\0\0\0\0\0\0".as_slice()),
        (2, 64, b"\x02\0\0\0\0\0\0\0\x4d\0\0\0\0\0\0\0".as_slice()),
        (2, 80, b"\x01\0\0\0\x0c\0\0\0\x4e\0\0\0\0\0\0\0".as_slice()),
        (2, 96, b"\x03\0\0\0\0\0\0\0\0\0\0\0\0\0\0\0".as_slice()),
        (3, 0, b"\0\0\0\0\x01\0\0\0\0\0\0\0".as_slice()),
    ] {
        assert!(rt; holds(&tables, i, at, bytes), "block {i} at {at}");
    }
    Ok(())
}
