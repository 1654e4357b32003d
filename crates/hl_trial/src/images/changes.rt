//! Changes of an image that are spelled as text, one a word:
//!
//! - `114+16=4096` writes a number at a place of a block, and with it the digest of the label or of
//!   a record. The number is decimal, or hexadecimal as `0x6701`, or `nothing`, or the address of a
//!   block counted from block 0 of slot 0 on, as `slot+1`;
//! - `further=50` gives file 3 of the image with away blocks so many further blocks, from block 192
//!   on;
//! - `lap` writes three further parts: one up to the end of segment 2, one in segment 4, and one in
//!   segment 5, behind which the next one would stand in segment 4;
//! - `file=3` seals the first part of the image with units with an inode of another number;
//! - `ends` seals its last part as one that ends its unit.

use crate::images::hand_made::{put, put_part};
use crate::images::units::{put_first, put_last_that_ends};
use hl_addr::NOTHING;
use hl_bytes::BlockRecord;
use hl_summary::Heading;

/// Block 0 of slot 0.
const SLOT: u32 = 4_294_966_976;

fn hexadecimal(digits: &str) -> Option<u32> {
    let mut value: u32 = 0;
    for digit in digits.chars() {
        value = value.checked_mul(16)?.checked_add(digit.to_digit(16)?)?;
    }
    Some(value)
}

fn number_of(word: &str) -> Option<u32> {
    if word == "nothing" {
        return Some(NOTHING);
    }
    if let Some(digits) = word.strip_prefix("0x") {
        return hexadecimal(digits);
    }
    match word.strip_prefix("slot+") {
        Some(blocks) => SLOT.checked_add(blocks.parse::<u32>().ok()?),
        None => word.parse::<u32>().ok(),
    }
}

/// A block and a place in it.
fn place_of(word: &str) -> Option<(usize, usize)> {
    let (block, at) = word.split_once("+")?;
    Some((block.parse::<usize>().ok()?, at.parse::<usize>().ok()?))
}

/// Gives file 3 so many further blocks.
fn put_further(image: &mut [u8], count: u32) -> bool {
    if 60 < count {
        return false;
    }
    put(image, (114, 16, 4_096 * (13 + count)));
    for i in 0..count {
        put(image, (116, 4 + 4 * i as usize, 192 + i));
    }
    true
}

/// Writes a part of blocks of file 3.
fn put_long_part(image: &mut [u8], from: usize, count: usize, serial: u64, next_seg: u32) {
    let blocks = [BlockRecord { ino: 3, index: 0 }; 62];
    let heading = Heading {
        serial,
        next_seg,
        next_block: 0,
        ends: true,
    };
    if count <= blocks.len() {
        put_part(image, from, heading, &blocks[..count]);
    }
}

/// Makes a change that a name and a number spell.
fn put_named(image: &mut [u8], name: &str, number: u32) -> bool {
    if name == "further" {
        return put_further(image, number);
    }
    if name == "file" {
        put_first(image, number);
        return true;
    }
    match place_of(name) {
        Some((block, at)) => put(image, (block, at, number)),
        None => false,
    }
}

/// Makes a change that a name alone spells.
fn put_plain(image: &mut [u8], name: &str) -> bool {
    if name == "lap" {
        put_long_part(image, 131, 59, 8, 4);
        put_long_part(image, 256, 62, 9, 5);
        put_long_part(image, 320, 62, 10, 4);
        return true;
    }
    if name == "ends" {
        put_last_that_ends(image);
        return true;
    }
    false
}

fn put_word(image: &mut [u8], word: &str) -> bool {
    match word.split_once("=") {
        Some((name, number)) => match number_of(number) {
            Some(number) => put_named(image, name, number),
            None => false,
        },
        None => put_plain(image, word),
    }
}

/// Makes the changes of an image that a text spells, up to the first that it doesn't spell, and says
/// whether there is none such.
pub fn change(image: &mut [u8], text: &str) -> bool {
    for word in text.split_whitespace() {
        if !put_word(image, word) {
            return false;
        }
    }
    true
}
