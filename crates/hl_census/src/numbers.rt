//! The live numbers of the log's segments.

ghost use Rattle.std.specs.Prelude.{◌≡◌, ◌<◌, ℕ, List, IfOk, length};
ghost use Rattle.std.specs.List.{fold};
ghost use Rattle.hl_media.specs.History.{Image};
ghost use Rattle.hl_super.specs.declared.record.Record.{Record};
ghost use Rattle.hl_summary.specs.declared.parts.Summary.{Summary};
ghost use Rattle.hl_tables.specs.Values.{TableValues};
ghost use Rattle.hl_nodes.specs.declared.rule.Rule.TheVariants.{SharedBlock};
ghost use Rattle.hl_tally.specs.Counting.{added};
ghost use Rattle.hl_census.specs.Living.{AreLive};
ghost use Rattle.hl_census.specs.Naming.{AreNamed, LieInLog};
ghost use Rattle.hl_nodes.specs.Telling.{TellsBroken};

use crate::logged::is_logged;
use hl_addr::Geometry;
use std::alloc::{AllocError, Global};

/// Counts a live block at an address, if that is one of the log.
fn add(k: u32, live: &mut [u32], address: u32)
    requires { 0 < k }
    ensures { live.new ≡ added k live.old address }
{
    if is_logged(k, live.len(), address) {
        let place = (address / k) as usize - 1;
        live[place] = live[place].saturating_add(1);
    }
}

/// Counts live blocks at these addresses, those that are of the log.
fn add_all(k: u32, live: &mut [u32], addresses: &[u32])
    requires { 0 < k }
    ensures { live.new ≡ fold (added k) live.old addresses.now }
{
    'addresses: for address in addresses {
        add(k, live, *address);
    }
}

/// How many live blocks lie in each log segment, from 1 on, by the addresses that are named. No block is shared.
pub fn live(alloc: Global, geometry: &Geometry, named: &[u32]) -> Result<Vec<u32>, AllocError>
    ensures count { IfOk result (λ live. length live.items ≡ geometry.now.log) }
    ensures live { IfOk result (λ live. (image : Image) (rec : Record) (parts : List Summary)
        (t : TableValues) → LieInLog geometry.now rec.tables
        → AreNamed geometry.now image rec t named.now
        → TellsBroken geometry.now image rec parts t SharedBlock None
        → AreLive geometry.now image rec t live.items) }
{
    let mut live = vec![in alloc; 0; geometry.log as usize]?;
    add_all(geometry.k, &mut live, named);
    Ok(live)
}
