//! A dump and its record, as they are written.

ghost use Rattle.std.specs.Prelude.{◌≡◌, ◌<◌, ◌^◌, ◌++◌, IfOk};
ghost use Rattle.hl_dump.specs.Dumps.{HasDump};
ghost use Rattle.hl_disk.specs.Packs.{IsPacked};

use crate::place::blocks_of;
use crate::record::DumpRecord;
use hl_bytes::BLOCK;
use hl_dump::write_dump;
use hl_tree::PlainTree;
use sha2::{Digest, Sha256};
use std::alloc::{AllocError, Global};

/// A dump, filled with zeros to whole blocks, and its record.
#[derive(Drop)]
pub(crate) struct Packed {
    pub record: DumpRecord,
    pub bytes: Vec<u8>,
}

/// The dump of a tree under a number.
pub(crate) fn pack(alloc: Global, number: u64, files: &PlainTree) -> Result<Packed, AllocError>
    requires { HasDump files.now.tree }
    ensures { IfOk result (λ p. IsPacked number files.now.tree p.record p.bytes.items) }
{
    let mut bytes = Vec::new(alloc);
    write_dump(files, &mut bytes)?;
    let length = bytes.as_slice().len() as u32;
    let record = DumpRecord {
        number,
        length,
        digest: Sha256::digest(bytes.as_slice()),
    };
    bytes.resize(BLOCK * blocks_of(length) as usize, 0)?;
    Ok(Packed { record, bytes })
}
