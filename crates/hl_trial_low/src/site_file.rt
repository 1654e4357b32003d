//! The texts of site files: which site each gives, or what is told of it.

use hl_site::{Key, SiteError, fits, read_site};
use std::alloc::Global;
use std::test::Fail;

/// The numbers of the site, and of its volumes.
fn site_in(alloc: Global, text: &str) -> Result<([u32; 4], Vec<u32>), Fail> {
    let site = read_site(alloc, text.as_bytes())?;
    let volumes = Vec::from_slice(alloc, site.volumes.items())?;
    Ok(([site.k, site.log, site.lines, site.inodes], volumes))
}

/// What is told of a text.
fn told(alloc: Global, text: &[u8]) -> Option<SiteError> {
    read_site(alloc, text).err()
}

/// What is told of a site beside a disk of so many blocks and a rack.
fn told_of_devices(
    alloc: Global,
    text: &str,
    blocks: u32,
    rack: &[u32],
) -> Result<Option<SiteError>, SiteError> {
    let site = read_site(alloc, text.as_bytes())?;
    Ok(fits(&site, blocks, rack).err())
}

const SITE: &str =
    "title = 'other keys'\nvolumes = [4, 4]\nsegment_blocks = 64\nlines = 16\ninodes = 512\nlog_segments = 16\n[disk]\nlines = 3";

#[test]
fn a_site_is_read_and_its_devices_fit(rt: HostRuntime) -> Result<(), Fail> {
    let (numbers, volumes) = site_in(rt.alloc(), SITE)?;
    assert!(rt; numbers == [64, 16, 16, 512]);
    assert!(rt; volumes.as_slice() == [4, 4].as_slice());
    for (blocks, rack, error) in [
        (2112, [4, 4].as_slice(), None),
        (2111, [4].as_slice(), Some(SiteError::TooSmall(2112))),
        (4000, [4].as_slice(), Some(SiteError::OtherRack(1))),
        (4000, [4, 4, 4].as_slice(), Some(SiteError::OtherRack(2))),
        (4000, [5, 3].as_slice(), Some(SiteError::OtherRack(0))),
    ] {
        let found = told_of_devices(rt.alloc(), SITE, blocks, rack)?;
        assert!(rt; found == error, "at {blocks} beside {rack:?}");
    }
    Ok(())
}

#[test]
fn the_first_wrong_thing_is_told(rt: HostRuntime) {
    for (text, error) in [
        (
            b"log_segments = 16".as_slice(),
            SiteError::Missing(Key::SegmentBlocks),
        ),
        (b"".as_slice(), SiteError::Missing(Key::SegmentBlocks)),
        (b"segment_blocks 64".as_slice(), SiteError::NotToml),
        (
            b"segment_blocks = 64\nsegment_blocks = 64".as_slice(),
            SiteError::NotToml,
        ),
        (
            b"segment_blocks = 65".as_slice(),
            SiteError::OutOfRange(Key::SegmentBlocks, 65),
        ),
        (
            b"segment_blocks = '64'".as_slice(),
            SiteError::Missing(Key::SegmentBlocks),
        ),
        (
            b"segment_blocks = 64.0".as_slice(),
            SiteError::Missing(Key::SegmentBlocks),
        ),
        (
            b"[segment_blocks]".as_slice(),
            SiteError::Missing(Key::SegmentBlocks),
        ),
        (
            b"segment_blocks = -64".as_slice(),
            SiteError::OutOfRange(Key::SegmentBlocks, -64),
        ),
        (
            b"segment_blocks = 0x40\nlog_segments = 15".as_slice(),
            SiteError::OutOfRange(Key::LogSegments, 15),
        ),
        (b"a = '\xff'".as_slice(), SiteError::NotToml),
    ] {
        assert!(rt; told(rt.alloc(), text) == Some(error), "at {text:?}");
    }
}

const FRONT: &str = "segment_blocks = 64\nlog_segments = 16\nlines = 16\ninodes = 512\n";

#[test]
fn volumes_are_counted_and_then_tried_in_order(rt: HostRuntime) -> Result<(), Fail> {
    for (volumes, error) in [
        ("", SiteError::Missing(Key::Volumes)),
        ("volumes = 4", SiteError::Missing(Key::Volumes)),
        ("volumes = []", SiteError::OutOfRange(Key::Volumes, 0)),
        ("volumes = [4, 0]", SiteError::OutOfRange(Key::Volumes, 0)),
        ("volumes = [4, 'four', 0]", SiteError::Missing(Key::Volumes)),
        (
            "volumes = [4097, 'four']",
            SiteError::OutOfRange(Key::Volumes, 4097),
        ),
        ("volumes = [4096, 4096]", SiteError::TablesTooLarge(35)),
    ] {
        let text = format!(in rt.alloc(); "{FRONT}{volumes}")?;
        let found = told(rt.alloc(), text.as_bytes());
        assert!(rt; found == Some(error), "at {volumes}");
    }
    Ok(())
}

#[test]
fn a_key_has_its_name(rt: HostRuntime) {
    assert_eq!(rt; Key::SegmentBlocks.name(), "segment_blocks");
    assert_eq!(rt; Key::Volumes.name(), "volumes");
}
