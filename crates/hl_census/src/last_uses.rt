//! When each node was used last.

ghost use Rattle.std.specs.Prelude.{◌≡◌, ℕ, IfOk, None, Some};
ghost use Rattle.std.specs.List.{slice_index_or};
ghost use Rattle.std.specs.FinMap.{get};
ghost use Rattle.hl_media.specs.History.{Image};
ghost use Rattle.hl_tables.specs.Values.{TableValues};
ghost use Rattle.hl_paths.specs.Nodes.{FlatNode, Nodes};
ghost use Rattle.hl_nodes.specs.Nodes.{HasNodes};
ghost use Rattle.hl_survey.specs.Surveys.{AreSurveyed};
ghost use Rattle.hl_census.specs.LastUses.{AreUses, AreUsesOf, use_of};

use hl_addr::Geometry;
use hl_survey::FoundInode;
use std::alloc::{AllocError, Global};

/// The last use of what was found, 0 where there is nothing.
fn use_of(found: &Option<FoundInode>) -> u64
    ensures { result ≡ use_of found.now }
{
    match found {
        Some(found) => found.inode.used,
        None => 0,
    }
}

/// The last use of what was found of a number, 0 where there is nothing.
fn use_at(found: &[Option<FoundInode>], number: usize) -> u64
    ensures { result ≡ use_of (slice_index_or found.now number None) }
{
    if number < found.len() {
        use_of(&found[number])
    } else {
        0
    }
}

/// When the node of each number of the site was used last, 0 where there is none. What was found stands by numbers from 0
/// on.
pub fn uses(
    alloc: Global,
    geometry: &Geometry,
    found: &[Option<FoundInode>],
) -> Result<Vec<u64>, AllocError>
    ensures found { IfOk result (λ uses. AreUses found.now geometry.now.inodes uses.items) }
    ensures nodes { IfOk result (λ uses. (image : Image) (t : TableValues) (nodes : Nodes)
        → AreSurveyed geometry.now image t found.now → HasNodes geometry.now image t nodes
        → AreUsesOf nodes uses.items) }
{
    let mut uses = Vec::new(alloc);
    'numbers: for number in 0..geometry.inodes as usize {
        uses.push(use_at(found, number))?;
    }
    Ok(uses)
}
