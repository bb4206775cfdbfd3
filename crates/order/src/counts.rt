// How many packets a file has, and which of them a step is.
ghost use Rattle.std.specs.Prelude.{◌≡◌, ◌+◌, ◌*◌, ◌^◌, ◌<◌, ◌≤◌, eqb};
ghost use Rattle.basis.specs.Choice.{both};
ghost use Rattle.order.specs.Plan.{sends_r, r_count};
ghost use Rattle.order.specs.Steps.{stands_by};

use crate::step::Step;
use basis::kind::RunKind;
use runs::survey::{Counts, Surveyed};

/// How many packets come before the first V: every E and every W.
pub fn before_verify(all: Counts) -> u32
    requires runs { all.runs < 2 ^ 20 }
    requires pieces { all.pieces < 2 ^ 20 }
    ensures { result ≡ all.runs + all.pieces }
{
    all.runs + all.pieces
}

// Each run once, each piece twice.
fn before_r(all: Counts) -> u32
    requires runs { all.runs < 2 ^ 20 }
    requires pieces { all.pieces < 2 ^ 20 }
    ensures { result ≡ all.runs + 2 * all.pieces }
{
    all.runs + 2 * all.pieces
}

/// How many packets there are: each run once, each piece twice, and R where the run kind sends it.
pub fn total(all: Counts, kind: RunKind) -> u32
    requires runs { all.runs < 2 ^ 20 }
    requires pieces { all.pieces < 2 ^ 20 }
    ensures { result ≡ all.runs + 2 * all.pieces + r_count kind }
{
    before_r(all) + r_count(kind)
}

fn r_count(kind: RunKind) -> u32
    ensures count { result ≡ r_count kind }
    ensures most { result ≤ 1 }
{
    u32::from(sends_r(kind))
}

/// Whether the run kind sends R: hold starts nothing.
pub fn sends_r(kind: RunKind) -> bool
    ensures { result ≡ sends_r kind }
{
    matches!(kind, RunKind::Reset | RunKind::Jump)
}

/// Whether the step's packet is out after `k` acknowledgements, by the survey at the step's place.
pub fn stands(found: Surveyed, kind: RunKind, step: Step, k: u32) -> bool
    requires runs { found.all.runs < 2 ^ 20 }
    requires pieces { found.all.pieces < 2 ^ 20 }
    requires below { found.below.pieces < 2 ^ 20 }
    ensures { result ≡ stands_by found kind step k }
{
    match step {
        Step::Erase(_) => ranked(found.run, found.below.runs, k),
        Step::Write(_) => ranked(found.piece, found.all.runs + found.below.pieces, k),
        Step::Verify(_) => ranked(
            found.piece,
            before_verify(found.all) + found.below.pieces,
            k,
        ),
        Step::Run => ranked(sends_r(kind), before_r(found.all), k),
    }
}

fn ranked(planned: bool, rank: u32, k: u32) -> bool
    ensures { result ≡ both planned (eqb rank k) }
{
    planned && rank == k
}
