//! What callers may conclude. Nothing here does anything when it runs.

ghost use Rattle.std.specs.Prelude.{◌≡◌, ◌<◌, ℕ};
ghost use Rattle.hl_addr.specs.Layout.{Layout, IsWithinLimits, table_blocks};
ghost use Rattle.hl_tables.specs.Values.{TableValues, AreTables};
ghost use Rattle.hl_tables.specs.TableBlocks.{table_block};

/// The tables of a site are told by their blocks: two that have the same blocks are one.
pub fn told_by_blocks()
    ensures { (g : Layout) (one other : TableValues) → IsWithinLimits g → AreTables g one → AreTables g other
        → ((i : ℕ) → i < table_blocks g → table_block one i ≡ table_block other i) → one ≡ other }
{}
