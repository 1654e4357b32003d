//! The numbers that a site is laid out by, always within the limits.

ghost use Rattle.std.specs.Prelude.{◌≡◌, ◌≢◌, ◌↔◌, ℕ, ◌+◌, ◌*◌, ◌<◌, ◌≤◌, IfNone, IfOk, IfSome, IsSome, sum};
ghost use Rattle.hl_addr.specs.Layout.{IsWithinLimits, data_max, quota, table_blocks};
ghost use Rattle.hl_addr.specs.Slots.{HasSlot, slot_number};
ghost use Rattle.hl_addr.specs.Place.{IsAt, LiesIn, slot_segment, top};
ghost use Rattle.hl_addr.specs.declared.place.Place.{Place};

use crate::limits::{is_within_limits, table_blocks_for};
use crate::numbers::Numbers;
use crate::place::{NOTHING, Place};
use crate::slots::{slot_at, slot_count, slots_before};
use std::alloc::{AllocError, Global};
use std::marker::Model;

/// The numbers that a site is laid out by: `k` blocks of a segment, `log` segments of the log,
/// `lines` segments of the cache, `inodes` numbers from 0 on, and the slots of each volume. They
/// are within the limits (`docs/FORMATS.md`, "Site file"), and their tables fill at most half a
/// segment.
#[derive(Debug, Drop)]
pub struct Geometry {
    pub k: u32,
    pub log: u32,
    pub lines: u32,
    pub inodes: u32,
    pub volumes: Numbers,
}

impl Model for Geometry {
    ghost use Rattle.hl_addr.specs.Layout.{Layout, IsWithinLimits};

    ghost Value = { Layout };

    ghost view = { λ g. record { k = g.k; log = g.log; lines = g.lines; inodes = g.inodes; volumes = g.volumes } };

    ghost invariant = { λ g. IsWithinLimits (record { k = g.k; log = g.log; lines = g.lines; inodes = g.inodes; volumes = g.volumes }) };
}

impl Geometry {
    /// A site of these numbers, or None where they are off the limits.
    pub fn new(k: u32, log: u32, lines: u32, inodes: u32, volumes: Numbers) -> Option<Geometry>
        ensures made { IfSome result (λ g. g ≡ record { k = k; log = log; lines = lines; inodes = inodes; volumes = volumes }) }
        ensures refused { IsSome result ↔ IsWithinLimits (record { k = k; log = log; lines = lines; inodes = inodes; volumes = volumes }) }
    {
        if is_within_limits(k, log, lines, inodes, volumes.items()) {
            Some(Geometry {
                k,
                log,
                lines,
                inodes,
                volumes,
            })
        } else {
            None
        }
    }

    /// The same numbers in memory of their own.
    pub fn copy(&self, alloc: Global) -> Result<Geometry, AllocError>
        ensures { IfOk result (λ copy. copy ≡ self.now) }
    {
        Ok(Geometry {
            k: self.k,
            log: self.log,
            lines: self.lines,
            inodes: self.inodes,
            volumes: self.volumes.copy(alloc)?,
        })
    }

    /// What an address stands for. It tries one volume after the other.
    pub fn class(&self, addr: u32) -> Place
        ensures at { IsAt self.now addr result }
        ensures only { (place : Place) → IsAt self.now addr place → place ≡ result }

        // What isn't dead has an address, which is this one alone.
        ensures lies { result ≢ Place.Dead → LiesIn self.now result }
        ensures back { result ≢ Place.Dead → (other : ℕ) → IsAt self.now other result → other ≡ addr }
    {
        self.place_at(addr)
    }

    /// The address of a place. It adds up the volumes before one.
    pub fn address_of(&self, place: &Place) -> u32
        requires { LiesIn self.now place.now }
        ensures at { IsAt self.now result place.now }
        ensures only { (addr : ℕ) → IsAt self.now addr place.now → addr ≡ result }

        // The address stands for this place alone.
        ensures back { (other : Place) → IsAt self.now result other → other ≡ place.now }
    {
        self.address_at(place)
    }

    /// The greatest charge that the site's tree may have, in blocks.
    pub fn quota(&self) -> u32
        ensures { result ≡ quota self.now }
    {
        (self.log - 12) * self.k / 4
    }

    /// How many data blocks a tertiary segment may hold.
    pub fn data_max(&self) -> u32
        ensures { result ≡ data_max self.now }
    {
        (self.k - 1).min(500)
    }

    /// The slots of all volumes together.
    pub fn slots(&self) -> u32
        ensures { result ≡ sum self.now.volumes }
    {
        slot_count(self.volumes.items())
    }

    /// The blocks that the tables fill, which are at most half a segment (`docs/FORMATS.md`,
    /// "Tables").
    pub fn table_blocks(&self) -> u32
        ensures { result ≡ table_blocks self.now }
    {
        table_blocks_for(self.log, self.inodes, self.volumes.items())
    }

    /// The number of a slot among those of all volumes, volume 0 first.
    pub fn tseg_of(&self, volume: u32, slot: u32) -> u32
        requires { HasSlot self.now.volumes volume slot }
        ensures value { result ≡ slot_number self.now.volumes volume slot }
        ensures below { result < sum self.now.volumes }

        // No other slot has the number.
        ensures back { (v s : ℕ) → HasSlot self.now.volumes v s → slot_number self.now.volumes v s ≡ result → (v ≡ volume) × (s ≡ slot) }
    {
        slots_before(self.volumes.items(), volume) + slot
    }

    /// The volume of a slot and its number there, by its number among all slots.
    pub fn slot_of(&self, tseg: u32) -> (u32, u32)
        requires { tseg < sum self.now.volumes }
        ensures exists { HasSlot self.now.volumes result.0 result.1 }
        ensures back { slot_number self.now.volumes result.0 result.1 ≡ tseg }

        // No other slot has the number.
        ensures only { (v s : ℕ) → HasSlot self.now.volumes v s → slot_number self.now.volumes v s ≡ tseg → (v ≡ result.0) × (s ≡ result.1) }
    {
        match slot_at(self.volumes.items(), tseg) {
            Some(at) => at,
            None => unreachable!(),
        }
    }

    /// What stands at an address.
    fn place_at(&self, addr: u32) -> Place
        ensures at { IsAt self.now addr result }
        ensures within { IsWithinLimits self.now }
    {
        let segment = addr / self.k;
        let block = addr % self.k;
        if addr == NOTHING {
            Place::Nothing
        } else if segment == 0 {
            Place::Label { block }
        } else if segment <= self.log {
            Place::Log {
                seg: segment,
                block,
            }
        } else if segment <= self.log + self.lines {
            Place::Line {
                line: segment - self.log - 1,
                block,
            }
        } else {
            match self.slot_in(segment) {
                Some((volume, slot)) => Place::Tertiary {
                    volume,
                    slot,
                    block,
                },
                None => Place::Dead,
            }
        }
    }

    /// The address of a place.
    fn address_at(&self, place: &Place) -> u32
        requires { LiesIn self.now place.now }
        ensures at { IsAt self.now result place.now }
        ensures within { IsWithinLimits self.now }
    {
        match *place {
            Place::Label { block } => block,
            Place::Log { seg, block } => self.address_in(seg, block),
            Place::Line { line, block } => self.address_in(self.log + 1 + line, block),
            Place::Tertiary {
                volume,
                slot,
                block,
            } => self.address_in(self.slot_segment(volume, slot), block),
            Place::Dead => unreachable!(),
            Place::Nothing => NOTHING,
        }
    }

    /// The volume and the slot of a segment behind the lines.
    fn slot_in(&self, segment: u32) -> Option<(u32, u32)>
        requires { segment ≤ top self.now }
        ensures found { IfSome result (λ at. HasSlot self.now.volumes at.0 at.1 × (segment ≡ slot_segment self.now at.0 at.1)) }
        ensures none { IfNone result ((v s : ℕ) → HasSlot self.now.volumes v s → segment ≢ slot_segment self.now v s) }
    {
        let top = u32::MAX / self.k;
        if segment == top {
            return None;
        }
        match slot_at(self.volumes.items(), top - segment - 1) {
            Some((volume, above)) => {
                let slots = self.volumes.items()[volume as usize];
                Some((volume, slots - 1 - above))
            }
            None => None,
        }
    }

    /// The segment of a slot.
    fn slot_segment(&self, volume: u32, slot: u32) -> u32
        requires { HasSlot self.now.volumes volume slot }
        ensures value { result ≡ slot_segment self.now volume slot }
        ensures below { result < top self.now }
    {
        u32::MAX / self.k - slots_before(self.volumes.items(), volume + 1) + slot
    }

    /// The address of a block of a segment.
    fn address_in(&self, segment: u32, block: u32) -> u32
        requires segment { segment ≤ top self.now }
        requires block { block < self.now.k }
        ensures { result ≡ segment * self.now.k + block }
    {
        segment * self.k + block
    }
}
