//! Whether a block is shared.

ghost use Rattle.std.specs.Prelude.{◌≡◌, ◌<◌, ◌≤◌, ℕ, List, IfOk, length, slice_index};
ghost use Rattle.std.specs.List.Sorted.{IsNonDecreasing};
ghost use Rattle.hl_media.specs.History.{Image};
ghost use Rattle.hl_addr.specs.Layout.{Layout};
ghost use Rattle.hl_super.specs.declared.record.Record.{Record};
ghost use Rattle.hl_summary.specs.declared.parts.Summary.{Summary};
ghost use Rattle.hl_tables.specs.Values.{TableValues};
ghost use Rattle.hl_nodes.specs.declared.rule.Rule.TheVariants.{SharedBlock};
ghost use Rattle.hl_census.specs.Naming.{AreNamed};
ghost use Rattle.hl_census.specs.Sharing.{TellsTwice};
ghost use Rattle.hl_nodes.specs.Telling.{TellsBroken};

use std::alloc::{AllocError, Global};

/// A number that stands twice in a list that doesn't fall.
fn twice(sorted: &[u32]) -> Option<u32>
    requires { IsNonDecreasing sorted.now }
    ensures { TellsTwice sorted.now result }
{
    'places: for i in 1..sorted.len() {
        if sorted[i - 1] == sorted[i] {
            return Some(sorted[i]);
        }
    }
    None
}

/// A number that stands twice in a list. It sorts a copy.
fn repeated(alloc: Global, numbers: &[u32]) -> Result<Option<u32>, AllocError>
    ensures { IfOk result (TellsTwice numbers.now) }
{
    let mut sorted = Vec::from_slice(alloc, numbers)?;
    sorted.sort()?;
    Ok(twice(sorted.as_slice()))
}

/// An address that is named for two blocks, of all that are named. It sorts a copy of them.
pub fn shared_block(alloc: Global, named: &[u32]) -> Result<Option<u32>, AllocError>
    ensures { IfOk result (λ told. (g : Layout) (image : Image) (rec : Record)
        (parts : List Summary) (t : TableValues)
        → AreNamed g image rec t named.now → TellsBroken g image rec parts t SharedBlock told) }
{
    repeated(alloc, named)
}
