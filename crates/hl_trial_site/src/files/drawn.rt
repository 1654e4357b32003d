//! Lines that are drawn.

use super::{Pair, compare, compare_disk, pair_of};
use hl_trial::files::{Draws, Filed, FilesTrial, Mix, Site, call_of};
use std::alloc::Global;
use std::process::Abort;
use std::test::*;

/// How a script is drawn.
#[derive(Clone, Copy)]
struct Plan {
    site: Site,
    mix: Mix,
    seed: u64,
    lines: u64,
    /// A checkpoint is written after each so many lines.
    pace: u64,
}

/// Makes drawn lines on both, and answers how many found no space.
fn make_lines<T: Filed + Drop>(rt: &impl Abort, alloc: Global, plan: Plan) -> Result<u64, Fail> {
    let mut pair: Pair<T> = pair_of(rt, alloc, plan.site)?;
    let mut draws = Draws::of(plan.seed);
    let mut full = 0;
    for line in 1..plan.lines {
        let call = call_of(alloc, &mut draws, &pair.beside, plan.mix)?;
        if compare(rt, alloc, &mut pair, line, &call)?.is_none() {
            full = u64::saturating_add(full, 1);
        }
        if line.checked_rem(plan.pace) == Some(0) {
            compare_disk(rt, alloc, &mut pair)?;
        }
    }
    compare_disk(rt, alloc, &mut pair)?;
    Ok(full)
}

/// Many small files on a site that they fill.
fn fills_the_site(rt: &impl Abort, alloc: Global, seed: u64) -> Result<(), Fail> {
    let plan = Plan {
        site: Site::Small,
        mix: Mix {
            names: 9,
            long: 6,
            size: 90_000,
            end: 200_000,
            bytes: 9_000,
        },
        seed,
        lines: 900,
        pace: 100,
    };
    let full = make_lines::<FilesTrial>(rt, alloc, plan)?;
    assert!(rt; 0 < full);
    Ok(())
}

#[test]
fn drawn_lines_are_answered_as_plain_files_answer(rt: HostRuntime) -> Result<(), Fail> {
    fills_the_site(&rt, rt.alloc(), 1)
}

#[test]
fn other_drawn_lines_are_too(rt: HostRuntime) -> Result<(), Fail> {
    fills_the_site(&rt, rt.alloc(), 2)
}

#[test]
fn long_files_are_read_and_cut(rt: HostRuntime) -> Result<(), Fail> {
    let plan = Plan {
        site: Site::Wide,
        mix: Mix {
            names: 5,
            long: 40,
            size: 300_000,
            end: 4_243_456,
            bytes: 65_536,
        },
        seed: 3,
        lines: 400,
        pace: 100,
    };
    make_lines::<FilesTrial>(&rt, rt.alloc(), plan)?;
    Ok(())
}

#[test]
fn few_numbers_are_given_again(rt: HostRuntime) -> Result<(), Fail> {
    let plan = Plan {
        site: Site::Few,
        mix: Mix {
            names: 12,
            long: 50,
            size: 20_000,
            end: 60_000,
            bytes: 3_000,
        },
        seed: 4,
        lines: 900,
        pace: 100,
    };
    make_lines::<FilesTrial>(&rt, rt.alloc(), plan)?;
    Ok(())
}
