//! Reading a site file.

ghost use Rattle.std.specs.Prelude.{◌≡◌, Some, option_map};
ghost use Rattle.toml.specs.Data.{get_member};
ghost use Rattle.toml.specs.View.{items_view, table_view, view};
ghost use Rattle.hl_site.specs.Key.{name_of};
ghost use Rattle.hl_site.specs.Site.{IsUnlessMemory, Reads, allowed, is_allowed, number_of, site_of, slots_of, volumes_of};

use crate::error::SiteError;
use crate::key::Key;
use hl_addr::{Geometry, Numbers, table_blocks_for};
use std::alloc::Global;
use toml::{Table, Value};

/// The numbers of the site that a text gives, or the first thing that is wrong with it
/// (`docs/FORMATS.md`, "Site file"). Other keys are ignored.
pub fn read_site(alloc: Global, text: &[u8]) -> Result<Geometry, SiteError>
    ensures { Reads text.now result }
{
    match toml::table_from_slice(alloc, text) {
        Ok(table) => site_in(alloc, &table),
        Err(error) => {
            if error.is_memory() {
                Err(SiteError::Memory)
            } else {
                Err(SiteError::NotToml)
            }
        }
    }
}

/// The numbers that a document gives, or the first thing that is wrong.
#[tactic(auto, unfolding(crate::specs::Site::site_of))]
fn site_in(alloc: Global, table: &Table) -> Result<Geometry, SiteError>
    ensures { IsUnlessMemory result (site_of (table_view table.now)) }
{
    let k = number_at(table, Key::SegmentBlocks)?;
    let log = number_at(table, Key::LogSegments)?;
    let lines = number_at(table, Key::Lines)?;
    let inodes = number_at(table, Key::Inodes)?;
    let volumes = volumes_in(alloc, table)?;
    let blocks = table_blocks_for(log, inodes, volumes.items());
    if k / 2 < blocks {
        return Err(SiteError::TablesTooLarge(blocks));
    }
    Ok(Geometry {
        k,
        log,
        lines,
        inodes,
        volumes,
    })
}

/// The number of a key.
fn number_at(table: &Table, key: Key) -> Result<u32, SiteError>
    ensures { result ≡ number_of key (get_member (name_of key) (table_view table.now)) }
{
    match value_at(table, key) {
        Some(value) => number_in(key, value),
        None => Err(SiteError::Missing(key)),
    }
}

/// The slots of each volume.
fn volumes_in(alloc: Global, table: &Table) -> Result<Numbers, SiteError>
    ensures { IsUnlessMemory result (volumes_of (get_member (name_of Key.Volumes) (table_view table.now))) }
{
    let Some(value) = value_at(table, Key::Volumes) else {
        return Err(SiteError::Missing(Key::Volumes));
    };
    let Some(entries) = value.as_array() else {
        return Err(SiteError::Missing(Key::Volumes));
    };
    let count = entries.len();
    if count < 1 || 32 < count {
        return Err(SiteError::OutOfRange(Key::Volumes, count as i64));
    }
    slots_in(alloc, entries.as_slice())
}

/// The slots that the entries give, one after the other.
fn slots_in(alloc: Global, entries: &[Value]) -> Result<Numbers, SiteError>
    ensures { IsUnlessMemory result (slots_of (items_view entries.now)) }
{
    let mut slots = Vec::new(alloc);
    'entries: for entry in entries {
        let number = number_in(Key::Volumes, entry)?;
        slots.push(number)?;
    }
    Ok(Numbers::of(slots))
}

/// The value of a key.
fn value_at(table: &Table, key: Key) -> Option<&Value>
    ensures { option_map (λ v. view v.now) result ≡ get_member (name_of key) (table_view table.now) }
{
    table.get(key.name())
}

/// The number that a key's value is.
fn number_in(key: Key, value: &Value) -> Result<u32, SiteError>
    ensures { result ≡ number_of key (Some (view value.now)) }
{
    match value.as_integer() {
        Some(number) => allowed(key, number),
        None => Err(SiteError::Missing(key)),
    }
}

/// The number, where it is within the key's limits.
fn allowed(key: Key, value: i64) -> Result<u32, SiteError>
    ensures { result ≡ allowed key value }
{
    if value < 0 {
        return Err(SiteError::OutOfRange(key, value));
    }
    let number = value as u64;
    if is_allowed(key, number) {
        Ok(number as u32)
    } else {
        Err(SiteError::OutOfRange(key, value))
    }
}

/// Whether the number is within the key's limits.
fn is_allowed(key: Key, number: u64) -> bool
    ensures { result ≡ is_allowed key number }
{
    match key {
        Key::SegmentBlocks => number == 64 || number == 128 || number == 256 || number == 512,
        Key::LogSegments => 16 <= number && number <= 4096,
        Key::Lines => 13 <= number && number <= 256,
        Key::Inodes => 2 <= number && number <= 2048,
        Key::Volumes => 1 <= number && number <= 4096,
    }
}
