//! The site that a disk names: its label, its newest record, and the rack that it wants.

ghost use Rattle.std.specs.Prelude.{◌≡◌, ℕ, List, IfErr, IfOk, MatchResult};
ghost use Rattle.hl_media.specs.Moments.{Now};
ghost use Rattle.hl_log.specs.Logs.{OnlyReads};
ghost use Rattle.hl_super.specs.Labels.{layout_of};
ghost use Rattle.hl_recovery.specs.Finding.{IsRecordOf, IsSite};
ghost use Rattle.hl_recovery.specs.Recoveries.{HasSite};
ghost use Rattle.hl_recovery.specs.Stops.{IsStopped, StopsBy};

use crate::label::{find_label, find_newest};
use crate::rack::{first_other, slots_of};
use crate::stop::MountError;
use hl_addr::Geometry;
use hl_media::Machine;
use hl_super::{Label, Record};
use std::alloc::{AllocError, Global};

/// A site and its newest record.
#[derive(Drop)]
pub(crate) struct Site {
    pub(crate) geometry: Geometry,
    pub(crate) rec: Record,
}

/// The site of a label and of a record of it.
fn site_of(alloc: Global, label: &Label, rec: Record) -> Result<Site, AllocError>
    requires { IsRecordOf label.now rec }
    ensures geometry { IfOk result (λ site. site.geometry ≡ layout_of label.now rec.volumes) }
    ensures rec { IfOk result (λ site. site.rec ≡ rec) }
{
    let volumes = rec.volumes.copy(alloc)?;
    match Geometry::new(label.k, label.log, label.lines, label.inodes, volumes) {
        Some(geometry) => Ok(Site { geometry, rec }),
        None => unreachable!(),
    }
}

/// The label and the newest record of the disk.
fn find_named<M: Machine>(alloc: Global, machine: &mut M) -> Result<Site, MountError>
    ensures site { IfOk result (IsSite (M.blocks machine.old)) }
    ensures found { let blocks = M.blocks machine.old in
        IfOk result (λ site. Now (M.history machine.old)
        (λ s. HasSite blocks site.geometry site.rec s.content)) }
    ensures stopped { let blocks = M.blocks machine.old in
        IfErr result (λ stop. Now (M.history machine.old)
        (λ s. (rack : List ℕ) → IsStopped blocks rack s.content stop)) }
    ensures machine { OnlyReads M.history M.blocks M.faults M.write_faults M.say_faults
        machine.old machine.new }
    ensures fault { MatchResult result (λ _. M.faults machine.new ≡ M.faults machine.old)
        (StopsBy (M.faults machine.old) (M.faults machine.new)) }
{
    let Some(label) = find_label(machine)? else {
        return Err(MountError::NoLabel);
    };
    match find_newest(alloc, machine, &label)? {
        Some(rec) => Ok(site_of(alloc, &label, rec)?),
        None => Err(MountError::NoRecord),
    }
}

/// The site of the disk, whose volumes are those of the rack.
pub(crate) fn find_site<M: Machine>(
    alloc: Global,
    machine: &mut M,
    rack: &[u32],
) -> Result<Site, MountError>
    ensures site { IfOk result (IsSite (M.blocks machine.old)) }
    ensures rack { IfOk result (λ site. rack.now ≡ site.geometry.volumes) }
    ensures found { let blocks = M.blocks machine.old in
        IfOk result (λ site. Now (M.history machine.old)
        (λ s. HasSite blocks site.geometry site.rec s.content)) }
    ensures stopped { let blocks = M.blocks machine.old in
        IfErr result (λ stop. Now (M.history machine.old)
        (λ s. IsStopped blocks rack.now s.content stop)) }
    ensures machine { OnlyReads M.history M.blocks M.faults M.write_faults M.say_faults
        machine.old machine.new }
    ensures fault { MatchResult result (λ _. M.faults machine.new ≡ M.faults machine.old)
        (StopsBy (M.faults machine.old) (M.faults machine.new)) }
{
    let site = find_named(alloc, machine)?;
    match first_other(site.rec.volumes.items(), rack) {
        Some(volume) => Err(MountError::WrongRack {
            volume,
            slots: slots_of(rack, volume),
        }),
        None => Ok(site),
    }
}
