//! Writing a dump.

ghost use Rattle.std.specs.Prelude.{◌≡◌, ◌^◌, ◌<◌, ◌++◌, OnOk};
ghost use Rattle.hl_dump.specs.Dumps.{dump_size, dump_bytes};

use crate::entry::put_entry;
use hl_tree::PlainTree;
use std::alloc::AllocError;

/// Appends the dump of a tree. Each byte of a file is copied once.
pub fn write_dump(tree: &PlainTree, out: &mut Vec<u8>) -> Result<(), AllocError>
    requires { dump_size tree.now.tree < 2 ^ 32 }
    ensures { OnOk result (out.new.items ≡ out.old.items ++ dump_bytes tree.now.tree) }
{
    'rows: for row in tree.rows() {
        put_entry(out, row.0.names(), &row.1)?;
    }
    Ok(())
}
