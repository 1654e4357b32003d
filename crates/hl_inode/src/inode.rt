//! An inode, which is one block.

ghost use Rattle.std.specs.Prelude.{◌≡◌, ◌≤◌, ◌↔◌, ℕ, Some, IsNone, IsTrue, ◌+◌, ◌*◌, ◌++◌, ◌<◌, ◌^◌, length, take};
ghost use Rattle.std.specs.List.{AllByRecursion};
ghost use Rattle.hl_bytes.specs.Runs.{numbers32};
ghost use Rattle.hl_inode.specs.Inodes.{HasRanges, HasRoom, AreNothing, Spells, code_of, kind_of, inode_bytes, inode_in};

use hl_addr::NOTHING;
use hl_bytes::{
    BLOCK, end_plain_page, get_numbers, get_u32, get_u64, put_bytes, put_numbers, put_u32, put_u64,
};

/// What a node of the tree is.
#[derive(Clone, Copy, Debug, PartialEq, Eq)]
pub enum Kind {
    File,
    Dir,
}

/// A node of the tree, and where its blocks lie.
#[derive(Clone, Copy, Debug, PartialEq, Eq)]
pub struct Inode {
    /// From 1; number 1 is the root.
    pub number: u32,
    pub kind: Kind,
    /// In bytes, at most 4,243,456.
    pub size: u64,
    /// The time of the last use; 0 for a directory.
    pub used: u64,
    /// The addresses of blocks 0 to 11, 4,294,967,295 for a hole.
    pub direct: [u32; 12],
    /// The address of the pointer block, for blocks 12 to 1,035; 4,294,967,295 where there is none.
    pub single: u32,
}

const MAGIC: [u8; 8] = *b"HLINODE1";

/// The most bytes of a file: 1,036 blocks.
const SIZE_MAX: u64 = 4_243_456;

/// The bytes of the blocks that the direct pointers name.
const DIRECT_SIZE: u64 = 49_152;

fn code_of(kind: Kind) -> u32
    ensures { result ≡ code_of kind }
{
    match kind {
        Kind::File => 1,
        Kind::Dir => 2,
    }
}

/// A directory for the number 2, and else a file; other numbers are refused by their spelling.
fn kind_of(code: u32) -> Kind
    ensures { result ≡ kind_of code }
{
    if code == 2 { Kind::Dir } else { Kind::File }
}

/// Writes the direct pointers.
fn put_direct(out: &mut [u8], pointers: &[u32; 12])
    requires { length out.old ≡ 4096 }
    ensures front { take 80 out.new ≡ take 32 out.old ++ numbers32 pointers.now }
    ensures size { length out.new ≡ 4096 }
    ensures count { length pointers.now ≡ 12 }
    ensures room { AllByRecursion (λ n. n < 2 ^ 32) pointers.now }
{
    put_numbers(out, 32, pointers);
}

/// Writes the fields, and zeros behind them.
#[tactic(auto, unfolding(crate::specs::Inodes::inode_bytes))]
fn put_inode(inode: &Inode, out: &mut [u8])
    requires { length out.old ≡ 4096 }
    ensures bytes { out.new ≡ inode_bytes inode.now }
    ensures room { HasRoom inode.now }
{
    put_bytes(out, 0, &MAGIC);
    put_u32(out, 8, inode.number);
    put_u32(out, 12, code_of(inode.kind));
    put_u64(out, 16, inode.size);
    put_u64(out, 24, inode.used);
    put_direct(out, &inode.direct);
    put_u32(out, 80, inode.single);
    end_plain_page(out, 84);
}

/// Writes the one spelling of an inode over a block. Its fields are in their ranges, and no pointer
/// stands past its size, so that the block is read as this inode.
pub fn encode(inode: &Inode, out: &mut [u8])
    requires ranges { HasRanges inode.now }
    requires size { length out.old ≡ 4096 }
    ensures bytes { out.new ≡ inode_bytes inode.now }
    ensures spelled { Spells out.new inode.now }
{
    put_inode(inode, out);
}

/// What stands at the fields' places.
#[tactic(auto, unfolding(crate::specs::Inodes::inode_in))]
fn inode_in(block: &[u8]) -> Inode
    requires { length block.now ≡ 4096 }
    ensures { result ≡ inode_in block.now }
{
    let mut direct = [0; 12];
    get_numbers(block, 32, &mut direct);
    Inode {
        number: get_u32(block, 8),
        kind: kind_of(get_u32(block, 12)),
        size: get_u64(block, 16),
        used: get_u64(block, 24),
        direct,
        single: get_u32(block, 80),
    }
}

/// Whether all pointers from `from` on are Nothing.
fn are_nothing(pointers: &[u32], from: u64) -> bool
    ensures { IsTrue result ↔ AreNothing from pointers.now }
{
    for (i, pointer) in pointers.iter().enumerate() {
        if from <= i as u64 && *pointer != NOTHING {
            return false;
        }
    }
    true
}

/// Whether the fields are in their ranges, with no pointer past the size.
fn has_ranges(inode: &Inode) -> bool
    ensures { IsTrue result ↔ HasRanges inode.now }
{
    1 <= inode.number
        && inode.size <= SIZE_MAX
        && (inode.kind == Kind::File || inode.used == 0)
        && are_nothing(&inode.direct, inode.size.div_ceil(4096))
        && (DIRECT_SIZE < inode.size || inode.single == NOTHING)
}

/// Whether the block is the spelling of the inode.
fn is_spelled(inode: &Inode, block: &[u8]) -> bool
    requires { length block.now ≡ 4096 }
    ensures { IsTrue result ↔ (HasRanges inode.now × (block.now ≡ inode_bytes inode.now)) }
{
    let mut own = [0; BLOCK];
    put_inode(inode, &mut own);
    has_ranges(inode) && block == own.as_slice()
}

/// The inode that the block spells, and none exactly where it spells no inode.
pub fn decode(bytes: &[u8]) -> Option<Inode>
    requires { length bytes.now ≡ 4096 }
    ensures found { (v : Inode) → (result ≡ Some v) ↔ Spells bytes.now v }
    ensures none { IsNone result ↔ ((v : Inode) → ¬ Spells bytes.now v) }
{
    let inode = inode_in(bytes);
    if is_spelled(&inode, bytes) {
        Some(inode)
    } else {
        None
    }
}
