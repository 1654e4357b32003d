//! The rules that an image keeps.

ghost use Rattle.std.specs.Prelude.{◌≡◌};
ghost use Rattle.hl_nodes.specs.Verdicts.{rule_number};

/// What an image may break, in the order in which the rules are tried (`docs/FORMATS.md`, "The
/// rules of a mount").
#[derive(Clone, Copy, Debug, PartialEq, Eq)]
pub enum Rule {
    /// A table block lies outside the log, or where another does.
    TablePlace,
    /// A table block spells no tables.
    TableBytes,
    /// An entry of the inode map is neither Nothing nor in the log, number 0 is in use, or number 1
    /// is not.
    MapEntry,
    /// An inode's block spells no inode, or one of another number, or the root is no directory.
    InodeBytes,
    /// A pointer names no block that it may name.
    PointerPlace,
    /// A pointer block names no block, or one past the size.
    PointerBlock,
    /// Two blocks have one address.
    SharedBlock,
    /// A block lies in a segment that isn't used, or at the head or past it.
    StrayBlock,
    /// A directory has a hole, or its bytes are no entries.
    DirectoryBytes,
    /// An entry names a number that isn't in use, or the root, or a number that another entry
    /// names.
    DirectoryEntry,
    /// An inode in use isn't reached from the root.
    LostInode,
    /// A slot's line or serial is impossible, or that of another slot.
    SlotEntry,
    /// A staged line holds no segment, or one of another serial.
    LineBytes,
    /// The last block of a file has bytes past the size.
    LastBlock,
    /// The charge exceeds the quota.
    Quota,
    /// The clean segments are too few for a checkpoint.
    Room,
}

impl Rule {
    /// The number by which the rule is tried and told.
    pub fn number(self) -> u32
        ensures { result ≡ rule_number self }
    {
        match self {
            Rule::TablePlace => 1,
            Rule::TableBytes => 2,
            Rule::MapEntry => 3,
            Rule::InodeBytes => 4,
            Rule::PointerPlace => 5,
            Rule::PointerBlock => 6,
            Rule::SharedBlock => 7,
            Rule::StrayBlock => 8,
            Rule::DirectoryBytes => 9,
            Rule::DirectoryEntry => 10,
            Rule::LostInode => 11,
            Rule::SlotEntry => 12,
            Rule::LineBytes => 13,
            Rule::LastBlock => 14,
            Rule::Quota => 15,
            Rule::Room => 16,
        }
    }
}
