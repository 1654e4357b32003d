//! The address map of a site, and numbers in bytes.

use hl_addr::{Geometry, Numbers, Place};
use hl_bytes::{BlockRecord, TableRecord};
use std::alloc::Global;
use std::test::Fail;

/// A site of 64 blocks a segment, 16 log segments, 16 lines, 512 inode numbers and two volumes of
/// four slots.
fn site(alloc: Global) -> Result<Geometry, Fail> {
    let volumes = Numbers::of([4, 4].to_vec(alloc)?);
    Ok(Geometry::new(64, 16, 16, 512, volumes).ok_or("off the limits")?)
}

fn class(site: &Geometry, addr: u32) -> Place {
    site.class(addr)
}

/// The address of the place that the address has, where it isn't dead.
fn back(site: &Geometry, addr: u32) -> Option<u32> {
    let place = site.class(addr);
    if place != Place::Dead {
        Some(site.address_of(&place))
    } else {
        None
    }
}

fn tertiary(volume: u32, slot: u32, block: u32) -> Place {
    Place::Tertiary {
        volume,
        slot,
        block,
    }
}

#[test]
fn each_address_has_its_class_and_comes_back(rt: HostRuntime) -> Result<(), Fail> {
    let site = site(rt.alloc())?;
    for (addr, place) in [
        (4_294_966_976, tertiary(0, 0, 0)),
        (4_294_966_977, tertiary(0, 0, 1)),
        (4_294_966_720, tertiary(1, 0, 0)),
        (4_294_966_719, Place::Dead),
        (4_294_967_232, Place::Dead),
        (2112, Place::Dead),
        (4_294_967_295, Place::Nothing),
        (
            2111,
            Place::Line {
                line: 15,
                block: 63,
            },
        ),
        (0, Place::Label { block: 0 }),
        (64, Place::Log { seg: 1, block: 0 }),
    ] {
        let again = if place == Place::Dead {
            None
        } else {
            Some(addr)
        };
        assert_eq!(rt; class(&site, addr), place, "at {addr}");
        assert_eq!(rt; back(&site, addr), again, "at {addr}");
    }
    Ok(())
}

/// The quota, the most data blocks of a unit, the slots and the blocks of the tables.
fn sizes(site: &Geometry) -> [u32; 4] {
    [
        site.quota(),
        site.data_max(),
        site.slots(),
        site.table_blocks(),
    ]
}

/// The volume of a slot and its number there.
fn slot_of(site: &Geometry, tseg: u32) -> Option<(u32, u32)> {
    if tseg < site.slots() {
        Some(site.slot_of(tseg))
    } else {
        None
    }
}

#[test]
fn a_site_has_its_sizes(rt: HostRuntime) -> Result<(), Fail> {
    let site = site(rt.alloc())?.copy(rt.alloc())?;
    assert!(rt; sizes(&site) == [64, 63, 8, 4]);
    assert_eq!(rt; slot_of(&site, 6), Some((1, 2)));
    Ok(())
}

/// Sixteen bytes with a u32 at 1, a u64 at 6, a zero at 14 and an `L` at 0.
fn fields() -> [u8; 16] {
    let mut bytes = [9; 16];
    hl_bytes::put_u32(&mut bytes, 1, 4_294_966_977);
    hl_bytes::put_u64(&mut bytes, 6, 0x0102_0304_0506_0708);
    hl_bytes::put_zeros(&mut bytes, 14, 15);
    hl_bytes::put_bytes(&mut bytes, 0, b"L");
    bytes
}

fn numbers_in(bytes: &[u8; 16]) -> (u32, u64) {
    (hl_bytes::get_u32(bytes, 1), hl_bytes::get_u64(bytes, 6))
}

#[test]
fn fields_stand_low_byte_first(rt: HostRuntime) {
    let bytes = fields();
    let want = b"L\xc1\xfe\xff\xff\x09\x08\x07\x06\x05\x04\x03\x02\x01\0\x09";
    assert!(rt; bytes.as_slice() == want.as_slice());
    assert_eq!(rt; numbers_in(&bytes), (4_294_966_977, 0x0102_0304_0506_0708));
}

/// Two numbers, a block record and the same table record twice, one after the other.
fn runs() -> [u8; 64] {
    let mut bytes = [9; 64];
    let block = BlockRecord {
        ino: 2,
        index: 1_035,
    };
    let staged = TableRecord {
        kind: 2,
        a: 3,
        b: 4,
        serial: 5,
    };
    hl_bytes::put_numbers(&mut bytes, 0, &[1, 256]);
    hl_bytes::put_block_records(&mut bytes, 8, &[block]);
    hl_bytes::put_table_records(&mut bytes, 16, &[staged, staged]);
    bytes
}

/// How many numbers, block records and table records are read again.
fn runs_read(alloc: Global, bytes: &[u8; 64]) -> Result<[usize; 3], Fail> {
    let mut numbers = [0; 2];
    hl_bytes::get_numbers(bytes, 0, &mut numbers);
    let blocks = hl_bytes::get_block_records(alloc, bytes, 8, 1)?;
    let changes = hl_bytes::get_table_records(alloc, bytes, 16, 2)?;
    Ok([numbers[1] as usize, blocks.len(), changes.len()])
}

#[test]
fn runs_stand_one_after_the_other(rt: HostRuntime) -> Result<(), Fail> {
    let bytes = runs();
    let wanted =
        b"\x01\0\0\0\0\x01\0\0\x02\0\0\0\x0b\x04\0\0\x02\0\0\0\x03\0\0\0\x04\0\0\0\0\0\0\0\x05\0\0\0\0\0\0\0\x02\0\0\0\x03\0\0\0\x04\0\0\0\0\0\0\0\x05\0\0\0\0\0\0\0";
    assert!(rt; bytes.as_slice() == wanted.as_slice());
    assert!(rt; runs_read(rt.alloc(), &bytes)? == [256, 1, 2]);
    Ok(())
}
