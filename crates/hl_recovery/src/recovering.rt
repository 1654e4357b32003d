//! What a mount reads first.

ghost use Rattle.std.specs.Prelude.{◌≡◌, ℕ, List, IfErr, IfOk, MatchResult};
ghost use Rattle.hl_media.specs.History.{Image};
ghost use Rattle.hl_media.specs.Moments.{Now};
ghost use Rattle.hl_log.specs.Logs.{OnlyReads};
ghost use Rattle.hl_tables.specs.Values.{AreTables};
ghost use Rattle.hl_nodes.specs.Tables.{SpellTables};
ghost use Rattle.hl_found.specs.Found.{AreChainParts};
ghost use Rattle.hl_recovery.specs.Chains.{IsBehind};
ghost use Rattle.hl_recovery.specs.Finding.{IsSite};
ghost use Rattle.hl_recovery.specs.Recoveries.{AreInPlace, HasRecovered, HasSite, IsReady};
ghost use Rattle.hl_recovery.specs.Stops.{IsStopped, StopsBy};

use crate::chain::{Chain, find_chain};
use crate::covered::{covered_segments, raised_behind};
use crate::site::{Site, find_site};
use crate::stop::MountError;
use crate::tables::{are_of_site, find_tables, lay_parts};
use hl_addr::Geometry;
use hl_image::LogPlace;
use hl_media::Machine;
use hl_super::Record;
use hl_tables::Tables;
use std::alloc::{AllocError, Global};

/// What a mount reads first.
#[derive(Drop)]
pub struct Recovered {
    /// The site: the label's numbers, and the record's volumes, which are those of the rack.
    pub geometry: Geometry,
    /// The newest record.
    pub rec: Record,
    /// Where the log goes on: the place behind the chain.
    pub at: LogPlace,
    /// The serial of the part that is to stand there, at most the greatest of 64 bits.
    pub serial: u64,
    /// Of each segment from 0 to the log's last, the block behind the last one of a part of the
    /// chain in it, and 0 where it has none.
    pub covered: Vec<u32>,
    /// The serial that the next tertiary segment gets.
    pub tseg_serial: u64,
    /// What the table blocks spell, with the chain laid over it.
    pub tables: Tables,
}

/// Lays the chain over the tables, and tells where it ends and how far it reaches.
fn laid_together(
    alloc: Global,
    site: Site,
    chain: Chain,
    mut tables: Tables,
) -> Result<Recovered, AllocError>
    requires site { (blocks : ℕ) × IsSite blocks site }
    requires chain { IsBehind site.geometry site.rec chain }
    requires tables { AreTables site.geometry tables }
    ensures ready { IfOk result (λ r. (blocks : ℕ) (rack : List ℕ) → IsSite blocks site
        → rack ≡ site.geometry.volumes → IsReady blocks rack r) }
    ensures recovered { IfOk result (λ r. (blocks : ℕ) (rack : List ℕ) (image : Image)
        → HasSite blocks site.geometry site.rec image → rack ≡ site.geometry.volumes
        → AreChainParts site.geometry image site.rec chain.parts.items
        → SpellTables site.geometry image site.rec.tables tables
        → AreInPlace site.geometry site.rec.tables → HasRecovered blocks rack r image) }
{
    lay_parts(&mut tables, chain.parts.as_slice());
    are_of_site(&site.geometry, &tables);
    let covered = covered_segments(alloc, &site.geometry, chain.parts.as_slice())?;
    let tseg_serial = raised_behind(site.rec.tseg_serial, chain.parts.as_slice());
    Ok(Recovered {
        geometry: site.geometry,
        rec: site.rec,
        at: chain.at,
        serial: chain.serial,
        covered,
        tseg_serial,
        tables,
    })
}

/// Reads what a mount has to know first, in this order: the label of block 0; the newest record of
/// blocks 1 and 2; whether its volumes are those of the rack, `rack` being the slots of each volume;
/// the chain behind it, up to the last part that ends a unit; and the tables, with the chain laid
/// over them. The first of these that fails tells the answer. The machine is only read; the records
/// of the chain's parts are kept until they are laid.
pub fn recover<M: Machine>(
    alloc: Global,
    machine: &mut M,
    rack: &[u32],
) -> Result<Recovered, MountError>
    ensures recovered { let blocks = M.blocks machine.old in
        IfOk result (λ r. Now (M.history machine.old)
        (λ s. HasRecovered blocks rack.now r s.content)) }

    // What a log and a store want is so even of a machine that tells nothing.
    ensures ready { IfOk result (IsReady (M.blocks machine.old) rack.now) }
    ensures stopped { let blocks = M.blocks machine.old in
        IfErr result (λ stop. Now (M.history machine.old)
        (λ s. IsStopped blocks rack.now s.content stop)) }
    ensures machine { OnlyReads M.history M.blocks M.faults M.write_faults M.say_faults
        machine.old machine.new }
    ensures fault { MatchResult result (λ _. M.faults machine.new ≡ M.faults machine.old)
        (StopsBy (M.faults machine.old) (M.faults machine.new)) }
{
    let site = find_site(alloc, machine, rack)?;
    let chain = find_chain(alloc, machine, &site)?;
    let tables = find_tables(alloc, machine, &site)?;
    let recovered = laid_together(alloc, site, chain, tables)?;
    Ok(recovered)
}
