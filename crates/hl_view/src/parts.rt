//! A part of the log in a buffer, from its place to the segment's end.

use crate::lines::block_of;
use hl_addr::Geometry;
use hl_bytes::{BlockRecord, TableRecord};
use hl_summary::{Heading, block_count, block_record, heading, is_part, table_count, table_record};
use std::marker::Model;

/// A part of the log that is read where it lies. Contracts see the bytes that it was opened in, which
/// run from its place to the segment's end, and what its summary says.
#[derive(Drop)]
pub struct PartView<'a> {
    part: &'a [u8],
}

impl<'a> Model for PartView<'a> {
    ghost use Rattle.hl_view.specs.Parts.{IsPartSeen, PartSeen, part_seen};

    ghost Value = { PartSeen };

    ghost view = { λ v. part_seen v.part.now };

    ghost invariant = { λ v. IsPartSeen v.part.now };
}

impl<'a> PartView<'a> {
    ghost use Rattle.std.specs.Prelude.{◌≡◌, ◌<◌, ◌+◌, ◌-◌, ◌*◌, ◌↔◌, Some, IfSome, IsNone, length, slice_get};
    ghost use Rattle.hl_bytes.specs.Buffers.{part_of};
    ghost use Rattle.hl_summary.specs.Parts.{Spells, with_records};
    ghost use Rattle.hl_summary.specs.declared.parts.Summary.{Summary};
    ghost use Rattle.hl_view.specs.Parts.{summary_seen};

    /// The part of this serial at a place, where `part` runs from the place to the segment's end. None
    /// exactly where no part of the serial is spelled there, as for `hl_summary::check`
    /// (`docs/FORMATS.md`, "Parts of the log").
    pub fn open(
        part: &'a [u8],
        seg: u32,
        block: u32,
        serial: u64,
        geometry: &Geometry,
    ) -> Option<PartView<'a>>
        requires { length part.now ≡ 4096 * (geometry.now.k - block) }
        ensures found { let Is = Spells geometry.now seg block serial part.now in
            (v : Summary) → (summary_seen result ≡ Some v) ↔ Is v }
        ensures none { let Is = Spells geometry.now seg block serial part.now in
            IsNone result ↔ ((v : Summary) → ¬ Is v) }
        ensures lent { IfSome result (λ view. view.bytes ≡ part.now) }
    {
        if is_part(part, seg, block, serial, geometry) {
            Some(PartView { part })
        } else {
            None
        }
    }

    /// What the summary says besides its records.
    pub fn heading(&self) -> Heading
        ensures { let s = self.now.summary in with_records result s.blocks s.tables ≡ s }
    {
        heading(self.part)
    }

    /// The number of blocks behind the summary.
    pub fn len(&self) -> u32
        ensures { result ≡ length self.now.summary.blocks }
    {
        block_count(self.part)
    }

    /// Which block block `i` behind the summary is.
    pub fn block_record(&self, i: u32) -> BlockRecord
        requires { i < length self.now.summary.blocks }
        ensures { slice_get self.now.summary.blocks i ≡ Some result }
    {
        block_record(self.part, i)
    }

    /// The bytes of block `i` behind the summary, which is block `i + 1` of the part.
    pub fn block(&self, i: u32) -> &'a [u8]
        requires { i < length self.now.summary.blocks }
        ensures value { result.now ≡ part_of self.now.bytes (i + 1) 1 }
        ensures len { length result.now ≡ 4096 }
    {
        block_of(self.part, i + 1)
    }

    /// The number of changes of the tables.
    pub fn tables(&self) -> u32
        ensures { result ≡ length self.now.summary.tables }
    {
        table_count(self.part)
    }

    /// Change `i` of the tables.
    pub fn table(&self, i: u32) -> TableRecord
        requires { i < length self.now.summary.tables }
        ensures { slice_get self.now.summary.tables i ≡ Some result }
    {
        table_record(self.part, i)
    }
}
