//! Nodes as a test wants them.

use hl_bytes::{BLOCK, put_u32};
use hl_inode::Kind;
use hl_nodes::{FoundBlock, FoundNode};

/// The names in a directory of a trial.
const NAMES: [u8; 8] = *b"abcdefgh";

/// The first nodes that have names have the numbers from this one on.
const NAMED: u32 = 2;

/// A block of a node.
#[derive(Clone, Copy, Debug, PartialEq, Eq)]
pub enum Plain {
    Hole,
    /// The number, and behind it its lowest byte again and again.
    Filled(u32),
    /// The entries of so many numbers, from 2 on, with the names a, b and so on, at most eight.
    Entries(usize),
    /// In a tertiary segment, where it is this byte again and again.
    Away(u8),
}

impl Plain {
    /// Its bytes.
    pub fn bytes(self) -> [u8; BLOCK] {
        match self {
            Plain::Hole => [0; BLOCK],
            Plain::Filled(mark) => {
                let mut bytes = [(mark % 256) as u8; BLOCK];
                put_u32(&mut bytes, 0, mark);
                bytes
            }
            Plain::Entries(count) => entries(count),
            Plain::Away(byte) => [byte; BLOCK],
        }
    }

    /// What it is charged beside its node's inode and pointer block.
    fn charge(self) -> u32 {
        match self {
            Plain::Hole | Plain::Away(_) => 0,
            Plain::Filled(_) | Plain::Entries(_) => 1,
        }
    }
}

/// The bytes of a directory: a number, the length of a name, the name.
fn entries(count: usize) -> [u8; BLOCK] {
    let mut bytes = [0; BLOCK];
    for i in 0..count.min(8) {
        put_u32(&mut bytes, 6 * i, NAMED + i as u32);
        bytes[6 * i + 4] = 1;
        bytes[6 * i + 5] = NAMES[i];
    }
    bytes
}

/// A node: what it is, and its blocks, one for each 4,096 bytes begun.
#[derive(Drop)]
pub struct PlainNode {
    pub kind: Kind,
    pub size: u64,
    pub used: u64,
    pub blocks: Vec<Plain>,
}

impl PlainNode {
    /// A file of whole blocks.
    pub fn file(blocks: Vec<Plain>, used: u64) -> PlainNode {
        PlainNode {
            kind: Kind::File,
            size: (blocks.len() as u64).saturating_mul(4_096),
            used,
            blocks,
        }
    }

    /// A directory of these blocks and so many bytes.
    pub fn directory(blocks: Vec<Plain>, size: u64) -> PlainNode {
        PlainNode {
            kind: Kind::Dir,
            size,
            used: 0,
            blocks,
        }
    }

    /// A block; one past the end is a hole.
    pub fn block(&self, i: u32) -> Plain {
        match self.blocks.get(i as usize) {
            Some(block) => *block,
            None => Plain::Hole,
        }
    }

    /// What it is charged: one for its inode, one for its pointer block, if a block from 12 on isn't a hole, and its blocks
    /// in the log.
    pub fn charge(&self) -> u32 {
        let mut charge: u32 = 1;
        let mut far: u32 = 0;
        for (i, block) in self.blocks.as_slice().iter().enumerate() {
            charge = charge.saturating_add(block.charge());
            if 12 <= i && *block != Plain::Hole {
                far = 1;
            }
        }
        charge.saturating_add(far)
    }
}

/// Whether a block that was found is this one.
fn is_block(found: &FoundBlock, plain: Plain) -> bool {
    match found {
        FoundBlock::Hole => plain == Plain::Hole,
        FoundBlock::Here(bytes) => {
            plain.charge() == 1 && bytes.as_slice() == plain.bytes().as_slice()
        }
        FoundBlock::Away { .. } => matches!(plain, Plain::Away(_)),
    }
}

/// Whether the blocks that were found are these.
fn are_blocks(found: &[FoundBlock], plain: &[Plain]) -> bool {
    if found.len() != plain.len() {
        return false;
    }
    for i in 0..found.len() {
        if !is_block(&found[i], plain[i]) {
            return false;
        }
    }
    true
}

/// Whether a node that was found is this one.
fn is_node(found: &FoundNode, plain: &PlainNode) -> bool {
    found.kind == plain.kind
        && found.size == plain.size
        && found.used == plain.used
        && are_blocks(found.blocks.as_slice(), plain.blocks.as_slice())
}

/// Whether what was found of a number is this.
fn is_of_number(found: &Option<FoundNode>, plain: &[Option<PlainNode>], number: usize) -> bool {
    match (found, plain.get(number)) {
        (Some(node), Some(Some(wanted))) => is_node(node, wanted),
        (None, Some(None)) | (None, None) => true,
        _ => false,
    }
}

/// Whether the nodes that were found are these, by their numbers from 0 on.
pub fn are_nodes(found: &[Option<FoundNode>], plain: &[Option<PlainNode>]) -> bool {
    if found.len() < plain.len() {
        return false;
    }
    for number in 0..found.len() {
        if !is_of_number(&found[number], plain, number) {
            return false;
        }
    }
    true
}
