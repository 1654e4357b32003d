//! The chain behind the newest record.

ghost use Rattle.std.specs.Prelude.{◌≡◌, ◌≤◌, if◌then◌else◌, IfErr, IfOk, MatchResult};
ghost use Rattle.hl_media.specs.Moments.{Now};
ghost use Rattle.hl_log.specs.Logs.{OnlyReads};
ghost use Rattle.hl_found.specs.Found.{AreChainParts};
ghost use Rattle.hl_recovery.specs.Chains.{IsBehind};
ghost use Rattle.hl_recovery.specs.Finding.{IsSite};
ghost use Rattle.hl_recovery.specs.Stops.{IsPlain, StopsBy};

use crate::segment::{next_part, none_held};
use crate::site::Site;
use crate::stop::MountError;
use hl_image::{ChainPart, LogPlace};
use hl_media::Machine;
use std::alloc::Global;

/// Parts of a chain with their places, and the place and the serial behind the last of them.
#[derive(Drop)]
pub(crate) struct Chain {
    pub(crate) parts: Vec<ChainPart>,
    pub(crate) at: LogPlace,
    pub(crate) serial: u64,
}

/// So many parts of a chain, and the place and the serial behind them.
#[derive(Clone, Copy)]
struct Cut {
    count: usize,
    at: LogPlace,
    serial: u64,
}

/// Where a chain is cut behind one more part: there, if the part ends a unit.
fn cut_behind(before: Cut, ends: bool, there: Cut) -> Cut
    ensures { result ≡ (if ends then there else before) }
{
    if ends { there } else { before }
}

/// The parts of the chain behind the newest record, up to the last one that ends a unit. It reads a
/// segment once for all parts that follow each other there, and keeps the records of the parts.
pub(crate) fn find_chain<M: Machine>(
    alloc: Global,
    machine: &mut M,
    site: &Site,
) -> Result<Chain, MountError>
    requires { IsSite (M.blocks machine.old) site.now }
    ensures found { let g = site.now.geometry in
        IfOk result (λ chain. Now (M.history machine.old)
        (λ s. AreChainParts g s.content site.now.rec chain.parts.items)) }
    ensures behind { IfOk result (IsBehind site.now.geometry site.now.rec) }
    ensures plain { IfErr result IsPlain }
    ensures machine { OnlyReads M.history M.blocks M.faults M.write_faults M.say_faults
        machine.old machine.new }
    ensures fault { MatchResult result (λ _. M.faults machine.new ≡ M.faults machine.old)
        (StopsBy (M.faults machine.old) (M.faults machine.new)) }
{
    let mut held = none_held(alloc, &site.geometry)?;
    let mut parts = Vec::new(alloc);
    let mut at = LogPlace {
        seg: site.rec.seg,
        block: site.rec.block,
    };
    let mut serial = site.rec.serial;
    let mut cut = Cut {
        count: 0,
        at,
        serial,
    };
    'walk: while let Some(summary) = next_part(
        alloc,
        machine,
        &site.geometry,
        &mut held,
        at,
        serial,
    )? {
        let ends = summary.ends;
        let next = LogPlace {
            seg: summary.next_seg,
            block: summary.next_block,
        };
        parts.push(ChainPart {
            seg: at.seg,
            block: at.block,
            summary,
        })?;
        let there = Cut {
            count: parts.len(),
            at: next,
            serial: serial.saturating_add(1),
        };
        cut = cut_behind(cut, ends, there);
        if serial == u64::MAX {
            break;
        }
        at = next;
        serial += 1;
    }
    parts.truncate(cut.count);
    Ok(Chain {
        parts,
        at: cut.at,
        serial: cut.serial,
    })
}
