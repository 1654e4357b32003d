//! The tables, by the blocks that the newest record names.

ghost use Rattle.std.specs.Prelude.{◌≡◌, ◌+◌, ◌*◌, ◌<◌, ◌≤◌, ◌↔◌, ℕ, length, sum, slice_index, All, IfErr, IfOk, IsTrue, MatchOption, MatchResult, OnOk};
ghost use Rattle.std.specs.List.{fold};
ghost use Rattle.hl_addr.specs.Layout.{IsWithinLimits, table_blocks, table_blocks_of};
ghost use Rattle.hl_bytes.specs.Fields.{written};
ghost use Rattle.hl_media.specs.Moments.{Now};
ghost use Rattle.hl_log.specs.Logs.{OnlyReads};
ghost use Rattle.hl_image.specs.Places.{log_end};
ghost use Rattle.hl_tables.specs.Values.{AreTables, SameShape, fresh};
ghost use Rattle.hl_tables.specs.TableBlocks.{tables_bytes};
ghost use Rattle.hl_nodes.specs.Tables.{SpellTables};
ghost use Rattle.hl_found.specs.Found.{MayBeLaid, part_laid};
ghost use Rattle.hl_recovery.specs.Finding.{IsSite};
ghost use Rattle.hl_recovery.specs.Recoveries.{AreInPlace};
ghost use Rattle.hl_recovery.specs.Stops.{StopsBy};
ghost use Rattle.hl_recovery.specs.TablePlaces.{IsMisplaced, StopsAtTable, StopsAtTables};

use crate::reading::read_block;
use crate::site::Site;
use crate::stop::MountError;
use hl_addr::Geometry;
use hl_bytes::BLOCK;
use hl_image::ChainPart;
use hl_media::Machine;
use hl_nodes::{Rule, is_in_log};
use hl_tables::Tables;
use std::alloc::Global;

/// Whether an address stands before its place too.
fn stands_before(addresses: &[u32], i: usize) -> bool
    requires { i < length addresses.now }
    ensures { let address = slice_index addresses.now i in IsTrue result
        ↔ ((j : ℕ) × (j < i) × (slice_index addresses.now j ≡ address)) }
{
    let address = addresses[i];
    'earlier: for j in 0..i {
        if addresses[j] == address {
            return true;
        }
    }
    false
}

/// The first address that isn't in the log or stands before too, if there is one. It compares each
/// pair.
fn misplaced(geometry: &Geometry, addresses: &[u32]) -> Option<u32>
    ensures { MatchOption result (AreInPlace geometry.now addresses.now)
        (IsMisplaced geometry.now addresses.now) }
{
    'addresses: for i in 0..addresses.len() {
        if !is_in_log(geometry, addresses[i]) || stands_before(addresses, i) {
            return Some(addresses[i]);
        }
    }
    None
}

/// Tables of the site's shape are tables of the site: what they say of themselves.
pub(crate) fn are_of_site(geometry: &Geometry, tables: &Tables)
    requires { SameShape (fresh geometry.now) tables.now }
    ensures { AreTables geometry.now tables.now }
{
    let _last = tables.inode(geometry.inodes - 1);
    let _slots = tables.slots().items();
}

/// Reads table block `i` into the tables, from its address.
fn read_table<M: Machine>(
    machine: &mut M,
    tables: &mut Tables,
    i: u32,
    address: u32,
) -> Result<(), MountError>
    requires exists { let slots = sum tables.old.slots.volumes in
        i < table_blocks_of (length tables.old.used) (length tables.old.inodes) slots }
    requires within { address < M.blocks machine.old }
    ensures read { OnOk result (Now (M.history machine.old)
        (λ s. tables_bytes tables.new
        ≡ written (tables_bytes tables.old) (4096 * i) (s.content address))) }
    ensures shape { SameShape tables.old tables.new }
    ensures stopped { IfErr result (λ stop. Now (M.history machine.old)
        (λ s. StopsAtTable tables.old s.content i address stop)) }
    ensures size { OnOk result (Now (M.history machine.old)
        (λ s. length (s.content address) ≡ 4096)) }
    ensures machine { OnlyReads M.history M.blocks M.faults M.write_faults M.say_faults
        machine.old machine.new }
    ensures fault { MatchResult result (λ _. M.faults machine.new ≡ M.faults machine.old)
        (StopsBy (M.faults machine.old) (M.faults machine.new)) }
{
    let mut block = [0; BLOCK];
    read_block(machine, address, &mut block)?;
    if !tables.read_block(i, &block) {
        return Err(MountError::Damaged {
            block: address,
            rule: Rule::TableBytes,
        });
    }
    Ok(())
}

/// The tables that the blocks at these addresses spell. It reads each block once.
fn read_tables<M: Machine>(
    alloc: Global,
    machine: &mut M,
    site: &Site,
) -> Result<Tables, MountError>
    requires site { IsSite (M.blocks machine.old) site.now }
    requires places { AreInPlace site.now.geometry site.now.rec.tables }
    ensures spelled { let g = site.now.geometry in
        IfOk result (λ tables. Now (M.history machine.old)
        (λ s. SpellTables g s.content site.now.rec.tables tables)) }
    ensures tables { IfOk result (AreTables site.now.geometry) }
    ensures stopped { let g = site.now.geometry in
        IfErr result (λ stop. Now (M.history machine.old)
        (λ s. StopsAtTables g s.content site.now.rec stop)) }
    ensures machine { OnlyReads M.history M.blocks M.faults M.write_faults M.say_faults
        machine.old machine.new }
    ensures fault { MatchResult result (λ _. M.faults machine.new ≡ M.faults machine.old)
        (StopsBy (M.faults machine.old) (M.faults machine.new)) }
{
    let addresses = site.rec.tables.items();
    let mut tables = Tables::new(alloc, &site.geometry)?;
    'blocks: for i in 0..tables.blocks() {
        read_table(machine, &mut tables, i, addresses[i as usize])?;
    }
    are_of_site(&site.geometry, &tables);
    Ok(tables)
}

/// The tables that the site's table blocks spell, where these are in place. It reads each block
/// once.
pub(crate) fn find_tables<M: Machine>(
    alloc: Global,
    machine: &mut M,
    site: &Site,
) -> Result<Tables, MountError>
    requires { IsSite (M.blocks machine.old) site.now }
    ensures spelled { let g = site.now.geometry in
        IfOk result (λ tables. Now (M.history machine.old)
        (λ s. SpellTables g s.content site.now.rec.tables tables)) }
    ensures tables { IfOk result (AreTables site.now.geometry) }
    ensures places { OnOk result (AreInPlace site.now.geometry site.now.rec.tables) }
    ensures stopped { let g = site.now.geometry in
        IfErr result (λ stop. Now (M.history machine.old)
        (λ s. StopsAtTables g s.content site.now.rec stop)) }
    ensures machine { OnlyReads M.history M.blocks M.faults M.write_faults M.say_faults
        machine.old machine.new }
    ensures fault { MatchResult result (λ _. M.faults machine.new ≡ M.faults machine.old)
        (StopsBy (M.faults machine.old) (M.faults machine.new)) }
{
    match misplaced(&site.geometry, site.rec.tables.items()) {
        Some(block) => Err(MountError::Damaged {
            block,
            rule: Rule::TablePlace,
        }),
        None => read_tables(alloc, machine, site),
    }
}

/// Lays parts over the tables, one after the other.
pub(crate) fn lay_parts(tables: &mut Tables, chain: &[ChainPart])
    requires segments { tables.old.k ≤ 512 }
    requires parts { All (MayBeLaid tables.old) chain.now }
    ensures value { tables.new ≡ fold part_laid tables.old chain.now }
    ensures shape { SameShape tables.old tables.new }
{
    'parts: for part in chain {
        let blocks = part.summary.blocks.items();
        tables.lay(
            part.seg,
            part.block + 1,
            blocks,
            part.summary.tables.items(),
        );
    }
}
