//! The addresses that tables and inodes name.

ghost use Rattle.std.specs.Prelude.{[], ◌∷◌, ◌≡◌, ◌++◌, if◌then◌else◌, IfOk, OnOk, filter};
ghost use Rattle.hl_media.specs.History.{Image};
ghost use Rattle.hl_addr.specs.Layout.{IsWithinLimits, Layout};
ghost use Rattle.hl_tables.specs.Values.{TableValues};
ghost use Rattle.hl_survey.specs.Surveys.{AreSurveyed};
ghost use Rattle.hl_census.specs.Naming.{AreNamed, found_addresses, inode_addresses, is_address, named_addresses};

use hl_addr::NOTHING;
use hl_super::Record;
use hl_survey::FoundInode;
use std::alloc::{AllocError, Global};

/// Lists an address, unless it is Nothing.
fn push_address(named: &mut Vec<u32>, address: u32) -> Result<(), AllocError>
    ensures { OnOk result (named.new.items
        ≡ named.old.items ++ (if is_address address then address ∷ [] else [])) }
{
    if address != NOTHING {
        named.push(address)?;
    }
    Ok(())
}

/// Lists the addresses of these, but Nothing.
fn push_addresses(named: &mut Vec<u32>, addresses: &[u32]) -> Result<(), AllocError>
    ensures { OnOk result (named.new.items ≡ named.old.items ++ filter is_address addresses.now) }
{
    'addresses: for address in addresses {
        push_address(named, *address)?;
    }
    Ok(())
}

/// Lists the addresses of an inode's blocks.
fn push_inode(named: &mut Vec<u32>, found: &FoundInode) -> Result<(), AllocError>
    ensures { OnOk result (named.new.items ≡ named.old.items ++ inode_addresses found.now) }
{
    named.push(found.address)?;
    push_address(named, found.inode.single)?;
    push_addresses(named, found.pointers.as_slice())
}

/// Lists the addresses of the blocks of what was found of a number.
fn push_found(named: &mut Vec<u32>, found: &Option<FoundInode>) -> Result<(), AllocError>
    ensures { OnOk result (named.new.items ≡ named.old.items ++ found_addresses found.now) }
{
    match found {
        Some(found) => push_inode(named, found),
        None => Ok(()),
    }
}

/// The addresses of table blocks, and those of the blocks of what was found.
fn addresses_of(
    alloc: Global,
    tables: &[u32],
    found: &[Option<FoundInode>],
) -> Result<Vec<u32>, AllocError>
    ensures { IfOk result (λ r. r.items ≡ named_addresses tables.now found.now) }
{
    let mut named = Vec::from_slice(alloc, tables)?;
    'numbers: for number in 0..found.len() {
        push_found(&mut named, &found[number])?;
    }
    Ok(named)
}

/// The addresses of all blocks that the tables and the nodes of a disk name, be they in the log or in slots, as often as
/// they are named. What was found stands by numbers from 0 on.
pub fn named(
    alloc: Global,
    rec: &Record,
    found: &[Option<FoundInode>],
) -> Result<Vec<u32>, AllocError>
    ensures { IfOk result (λ named. (g : Layout) (image : Image) (t : TableValues)
        → IsWithinLimits g → AreSurveyed g image t found.now
        → AreNamed g image rec.now t named.items) }
{
    addresses_of(alloc, rec.tables.items(), found)
}
