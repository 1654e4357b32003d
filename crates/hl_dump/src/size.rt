//! How many bytes a dump is.

ghost use Rattle.std.specs.Prelude.{◌≡◌, ◌-◌, ◌^◌, min};
ghost use Rattle.std.specs.FinMap.{entries};
ghost use Rattle.hl_dump.specs.Dumps.{dump_size as size_of_dump};

use crate::entry::entry_len;
use hl_tree::PlainTree;

/// The most bytes of a dump.
pub const DUMP_MAX: u64 = 4_194_304;

/// How many bytes the dump of a tree is, or 2 ^ 64 - 1 if it is more. It goes over the rows and the
/// names of their paths.
pub fn dump_size(tree: &PlainTree) -> u64
    ensures { result ≡ min (size_of_dump tree.now.tree) (2 ^ 64 - 1) }
{
    let mut size: u64 = 0;
    'rows: for row in tree.rows() {
        size = size.saturating_add(entry_len(row.0.names(), &row.1));
    }
    size
}
