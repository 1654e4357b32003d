//! The image with away blocks, each time with one change: the rules of a mount that it breaks, and
//! whether it has files.

use hl_trial::images::{
    Row, broken_rules, change, files, image_with_away, numbers, row_of, rule_numbers,
};
use std::alloc::Global;
use std::process::Abort;
use std::test::*;

/// Images whose tables, inodes, pointers or blocks are wrong, by the rules 1 to 8. Each row says what
/// is wrong, the changes that make it so, and the numbers of the rules that the image breaks; or that
/// it has `files`; or that it breaks none of the rules and has no files, `neither`.
const BLOCK_ROWS: [&str; 24] = [
    "nothing: ; files",
    "the label is that of a site with one line less: 0+16=13; neither",
    "the record is that of a site with one slot more: 2+48=5; neither",
    "a table block lies in a line: 2+180=1088; 1",
    "the table blocks of segments and of volumes are one block: 101+8=0 2+192=101; 1 7",
    "a segment is neither clean nor used: 101+4=2; 2",
    "the entry of an inode is in a line: 100+24=1088; 3",
    "number 0 is in use: 100+0=120; 3",
    "no number is in use, not even the root's: 100+4=nothing 100+8=nothing 100+12=nothing 100+16=nothing 100+24=nothing 100+28=nothing 129+0=0; 3",
    "an inode block has no letters: 120+0=0; 4",
    "an inode block is of another number: 120+8=8; 4",
    "the root is a file, and no other number is in use: 110+12=1 100+8=nothing 100+12=nothing 100+16=nothing 100+24=nothing 100+28=nothing 129+0=0; 4",
    "a block of a directory is away: 110+32=slot+2; 5",
    "a block of a file is in a line: 114+32=1088; 5",
    "a block of a file is in a free slot: 114+36=slot+129; 5",
    "a block of a file is the head of a segment: 114+36=slot+0; 5",
    "a pointer block is in a line: 114+80=1088; 5",
    "a pointer block names no block: 116+0=nothing; 6",
    "a pointer block names a block past the size: 116+4=192; 6",
    "two blocks of a file are one block of the log: 114+36=115; 7",
    "blocks of two files are one block of a segment: 114+36=slot+1; 7",
    "a block lies in a segment that isn't used: 114+36=320; 8",
    "a block lies at the head: 114+36=131; 8",
    "a part of the chain lies at the head: lap; 8",
];

/// Images whose directories, slots, lines or last blocks are wrong, by the rules 9 to 15.
const TREE_ROWS: [&str; 21] = [
    "a directory has a hole: 112+32=nothing; 9",
    "the names of a directory aren't in order: 111+4=0x00036301; 9",
    "a directory isn't zero past its size: 113+4092=1; 9",
    "a further entry names a number that isn't in use: 110+16=30 111+24=8 111+28=0x6801; 10",
    "a further entry names the root: 110+16=30 111+24=1 111+28=0x6801; 10",
    "a further entry names a number that another names: 110+16=30 111+24=2 111+28=0x6801; 10",
    "no entry names a number in use: 110+16=18 111+18=0 111+22=0; 11",
    "a slot is staged in a line past the last: 102+4=14; 12",
    "two slots are staged in one line, which has the segment of one: 102+32=1 102+36=3 102+40=7; 12",
    "as many slots are staged as may be: 102+32=1 102+36=4 102+40=7; files",
    "one slot more is staged than may be: 102+32=1 102+36=4 102+40=7 102+48=1 102+52=5 102+56=6; 12",
    "a serial is the next one: 2+32=9; 12",
    "two slots have one serial: 102+32=2 102+40=8; 12",
    "a staged line has a changed byte: 1330+0=1; 13",
    "a staged line has the segment of another serial: 102+8=7; 13",
    "the last block of a file isn't zero past the size in the log: 117+100=1; 14",
    "the last block of a file isn't zero past the size in a staged line: 121+16=4145; 14",
    "the last block of a file isn't zero past the size on the shelf: 121+32=slot+1 121+36=slot+65; neither",
    "the shelf lacks the segment of a slot: 102+24=5; neither",
    "the charge is the quota: further=50; files",
    "the charge is one block more than the quota: further=51; 15",
];

/// The numbers of the rules that a row wants broken.
fn wanted_rules(row: Row<'_>) -> &str {
    match row.wanted.trim() {
        "files" | "neither" => "",
        rules => rules,
    }
}

/// Tries a row on an image, which may hold anything before.
fn try_row(
    rt: &impl Abort,
    alloc: Global,
    good: &[u8],
    image: &mut [u8],
    row: Row<'_>,
) -> Result<(), Fail> {
    assert!(rt; image.len() == good.len());
    image.copy_from_slice(good);
    assert!(rt; change(image, row.changes), "{}", row.name);
    let broken = broken_rules(alloc, image)?.ok_or("another size")?;
    let told = rule_numbers(alloc, broken.as_slice())?;
    let wanted = numbers(alloc, wanted_rules(row))?;
    assert_eq!(rt; told.as_slice(), wanted.as_slice(), "{}", row.name);
    let has_files = files(alloc, image)?.is_some();
    assert!(rt; has_files == (row.wanted.trim() == "files"), "{}", row.name);
    Ok(())
}

/// Tries each row.
fn try_rows(rt: &impl Abort, alloc: Global, rows: &[&str]) -> Result<(), Fail> {
    let good = image_with_away(alloc)?;
    let mut image = good.as_slice().to_vec(alloc)?;
    for line in rows {
        let row = row_of(line).ok_or("no row")?;
        try_row(rt, alloc, &good, image.as_mut_slice(), row)?;
    }
    Ok(())
}

#[test]
fn an_image_whose_blocks_break_a_rule_has_no_files(rt: HostRuntime) -> Result<(), Fail> {
    try_rows(&rt, rt.alloc(), &BLOCK_ROWS)
}

#[test]
fn an_image_whose_tree_or_slots_break_a_rule_has_no_files(rt: HostRuntime) -> Result<(), Fail> {
    try_rows(&rt, rt.alloc(), &TREE_ROWS)
}
