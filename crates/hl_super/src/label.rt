//! The label, which is the disk's first block.

ghost use Rattle.std.specs.Prelude.{◌≡◌, ◌≤◌, ◌+◌, ◌*◌, ◌↔◌, ℕ, Some, IsNone, IsTrue, length};
ghost use Rattle.hl_super.specs.Labels.{IsLabel, Spells, label_bytes, label_in};

use hl_bytes::{BLOCK, end_page, get_u32, put_bytes, put_u32};

/// The numbers that a disk is laid out by.
#[derive(Clone, Copy, Debug, PartialEq, Eq)]
pub struct Label {
    /// Blocks of a segment: 64, 128, 256 or 512.
    pub k: u32,
    /// Segments of the log, 16 to 4,096.
    pub log: u32,
    /// Lines of the cache, 13 to 256.
    pub lines: u32,
    /// Inode numbers from 0 on, 2 to 2,048.
    pub inodes: u32,
}

const MAGIC: [u8; 8] = *b"HLLABEL1";

/// Writes the fields, zeros behind them, and the digest.
#[tactic(auto, unfolding(crate::specs::Labels::label_bytes))]
fn put_label(label: &Label, out: &mut [u8])
    requires { length out.old ≡ 4096 }
    ensures { out.new ≡ label_bytes label.now }
{
    put_bytes(out, 0, &MAGIC);
    put_u32(out, 8, label.k);
    put_u32(out, 12, label.log);
    put_u32(out, 16, label.lines);
    put_u32(out, 20, label.inodes);
    end_page(out, 24);
}

/// Writes the one spelling of a label over a block. Its numbers are within the limits, so that the
/// block is read as this label on each machine that has room for it.
pub fn encode_label(label: &Label, out: &mut [u8])
    requires limits { IsLabel label.now }
    requires size { length out.old ≡ 4096 }
    ensures bytes { out.new ≡ label_bytes label.now }
    ensures spelled { (blocks : ℕ) → (1 + label.now.log + label.now.lines) * label.now.k ≤ blocks
        → Spells blocks out.new label.now }
{
    put_label(label, out);
}

/// Whether the numbers are within the limits.
fn is_label(label: &Label) -> bool
    ensures { IsTrue result ↔ IsLabel label.now }
{
    matches!(label.k, 64 | 128 | 256 | 512)
        && 16 <= label.log
        && label.log <= 4096
        && 13 <= label.lines
        && label.lines <= 256
        && 2 <= label.inodes
        && label.inodes <= 2048
}

/// Whether a machine of so many blocks has the first segment, the log and the lines.
fn has_room(label: &Label, blocks: u32) -> bool
    requires { IsLabel label.now }
    ensures { IsTrue result ↔ ((1 + label.now.log + label.now.lines) * label.now.k ≤ blocks) }
{
    (1 + label.log + label.lines) * label.k <= blocks
}

/// The numbers at the fields' places.
#[tactic(auto, unfolding(crate::specs::Labels::label_in))]
fn label_in(block: &[u8]) -> Label
    requires { length block.now ≡ 4096 }
    ensures { result ≡ label_in block.now }
{
    Label {
        k: get_u32(block, 8),
        log: get_u32(block, 12),
        lines: get_u32(block, 16),
        inodes: get_u32(block, 20),
    }
}

/// Whether the block is the spelling of the label, on a machine of so many blocks.
fn is_spelled(label: &Label, blocks: u32, block: &[u8]) -> bool
    requires { length block.now ≡ 4096 }
    ensures { IsTrue result ↔ Spells blocks block.now label.now }
{
    let mut own = [0; BLOCK];
    put_label(label, &mut own);
    is_label(label) && has_room(label, blocks) && block == own.as_slice()
}

/// The label that the block spells, on a machine of so many blocks, and none exactly where it
/// spells no label.
pub fn decode_label(block: &[u8], blocks: u32) -> Option<Label>
    requires { length block.now ≡ 4096 }
    ensures found { (v : Label) → (result ≡ Some v) ↔ Spells blocks block.now v }
    ensures none { IsNone result ↔ ((v : Label) → ¬ Spells blocks block.now v) }
{
    let label = label_in(block);
    if is_spelled(&label, blocks, block) {
        Some(label)
    } else {
        None
    }
}
