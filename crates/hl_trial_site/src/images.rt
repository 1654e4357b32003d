//! What no clause says: what hand-made images hold, which rule of a mount each change of one breaks,
//! and that the parts of a mount succeed with ample memory.

mod broken;
mod parts;
mod sparse;

use hl_tree::{List, Node, Path};
use hl_trial::images::{
    Looked, are_same, change, files, files_with_away, image_with_away, image_with_units, look,
    plain_files, plain_image,
};
use parts::{Counted, counts};
use std::alloc::Global;
use std::process::Abort;
use std::test::*;

/// An image has these files.
fn has_files(
    rt: &impl Abort,
    alloc: Global,
    image: &[u8],
    wanted: &[(Path, Node<List<u8>>)],
) -> Result<(), Fail> {
    match files(alloc, image)? {
        Some(tree) => assert!(rt; are_same(tree.rows(), wanted)),
        None => panic!(rt; "no files"),
    }
    Ok(())
}

#[test]
fn the_plain_image_has_its_files(rt: HostRuntime) -> Result<(), Fail> {
    let alloc = rt.alloc();
    let image = plain_image(alloc)?;
    let wanted = plain_files(alloc)?;
    has_files(&rt, alloc, &image, &wanted)
}

#[test]
fn the_image_with_away_blocks_has_its_files(rt: HostRuntime) -> Result<(), Fail> {
    let alloc = rt.alloc();
    let image = image_with_away(alloc)?;
    let wanted = files_with_away(alloc)?;
    has_files(&rt, alloc, &image, &wanted)
}

/// What a change leaves of the image with units: the number of the record, the parts of the chain,
/// the nodes and the live blocks, and whether no two of these have one address.
type Left = (u64, usize, usize, usize, bool);

fn left_by(looked: Looked) -> Left {
    (
        looked.record,
        looked.parts,
        looked.nodes,
        looked.lives,
        looked.are_apart,
    )
}

/// The image with units and a change holds this, or has no contents.
fn holds(rt: &impl Abort, alloc: Global, changes: &str, wanted: Option<Left>) -> Result<(), Fail> {
    let mut image = image_with_units(alloc)?;
    assert!(rt; change(&mut image, changes), "{changes}");
    let looked = look(alloc, &image)?;
    assert_eq!(rt; looked.map(left_by), wanted, "{changes}");
    if let Some(looked) = looked {
        assert!(rt; looked.is_sound == looked.are_apart, "{changes}");
        assert!(rt;
            looked.next_tertiary == 1 && looked.has_possible_slots,
            "{changes}"
        );
    }
    Ok(())
}

#[test]
fn an_image_has_what_its_newest_record_and_whole_units_say(rt: HostRuntime) -> Result<(), Fail> {
    for (changes, wanted) in [
        ("", Some((4, 1, 2, 6, true))),
        ("ends", Some((4, 2, 3, 7, true))),
        // An older record, whose chain is empty.
        ("2+8=2", Some((3, 0, 1, 5, true))),
        // There the root's block lies where a table block does.
        ("2+8=2 110+16=1 110+32=100", Some((3, 0, 1, 6, false))),
        ("2+48=5", None),
        ("2+180=1088", None),
        ("2+180=99", None),
        ("file=3", None),
        // A segment that is neither used nor not, and a part that no longer checks.
        ("101+0=2", None),
        ("130+8=3", Some((4, 0, 1, 5, true))),
    ] {
        holds(&rt, rt.alloc(), changes, wanted)?;
    }
    Ok(())
}

/// Of the image with away blocks: four table blocks, seven inodes, one pointer block and six blocks
/// of nodes are in the log, all in segment 1 but an inode and a block in segment 2, where the log
/// goes on. The two away blocks aren't charged. The last use of file 3 is 5, and that of file 7 is 9.
fn is_in_order(rt: &impl Abort, counted: &Counted) {
    assert_eq!(rt; counted.charge, 14);
    assert_eq!(rt; counted.live.len(), 16);
    for (i, live) in counted.live.iter().enumerate() {
        let wanted = match i {
            0 => 16,
            1 => 2,
            _ => 0,
        };
        assert!(rt; *live == wanted, "segment {i}");
    }
    assert_eq!(rt; counted.clean.len(), 14);
    assert_eq!(rt; counted.uses.len(), 512);
    assert_eq!(rt; counted.uses.get(3).copied(), Some(5));
    assert_eq!(rt; counted.uses.get(7).copied(), Some(9));
    assert_eq!(rt; (counted.shared, counted.stray), (None, None));
    assert_eq!(rt; (counted.slot, counted.over), (None, None));
    assert_eq!(rt; counted.hierarchy, Ok(()));
}

#[test]
fn the_parts_of_a_mount_find_the_image_with_away_blocks_in_order(
    rt: HostRuntime,
) -> Result<(), Fail> {
    let alloc = rt.alloc();
    let mut image = image_with_away(alloc)?;
    assert!(rt; change(&mut image, "114+24=5 121+24=9"));
    match counts(alloc, &image)? {
        Some(counted) => is_in_order(&rt, &counted),
        None => panic!(rt; "the survey stops"),
    }
    Ok(())
}
