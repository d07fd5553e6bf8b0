//! The focused breakout method: a search on arrays for a plan that keeps all bands and exclusions.
//!
//! Round by round a broken thing is drawn, and the change is made that raises the weighed violation least among those
//! that may mend it, also where it rises; the start that is left is held back for some rounds. Where the change doesn't
//! lower the weighed violation all that is broken weighs more from then on. After many rounds the search begins anew.
ghost use Rattle.std.specs.Prelude.{IfOk};
ghost use Rattle.instance_model.specs.Plans.{AreAllowedStarts};

use crate::draft::Draft;
use instance_model::Instance;
use std::alloc::{AllocError, Global};

/// Up to how many turns the number of rounds grows, and how many rounds stand for a turn.
const MOST_TURNS: u32 = 5_000;

const ROUNDS: u32 = 200;

/// The most rounds for each allowed start that there is.
const ROUNDS_A_RUN: usize = 100;

/// After how many rounds the search begins anew.
const AGAIN: usize = 20_000;

/// One in how many rounds that lower nothing takes a part of what weights have grown by.
const EASE: usize = 50;

/// Mends what is broken, round by round, until nothing is or no round is left.
fn mend(draft: &mut Draft, rounds: usize) {
    let mut stuck: usize = 0;
    for round in 0..rounds {
        if draft.is_whole() {
            return;
        }
        if round % AGAIN == AGAIN - 1 {
            draft.begin_anew();
        }
        if !draft.mend_one(round) {
            stuck = stuck.wrapping_add(1);
            if stuck % EASE == 0 {
                draft.ease_all();
            }
        }
    }
}

/// Takes over each start of the best plan that was met, where it is allowed.
fn take_starts(inst: &Instance, starts: &mut Vec<u32>, draft: &Draft)
    requires { AreAllowedStarts inst.now starts.old.items }
    ensures { AreAllowedStarts inst.now starts.new.items }
{
    for i in 0..inst.interventions() {
        let s = draft.best_start(i);
        if inst.allowed(i, s) {
            starts[i as usize] = s;
        }
    }
}

/// The starts of the best plan that is met on the way from these to one that breaks nothing. Other seeds lead to other
/// plans. Takes memory first.
pub fn mended(
    alloc: Global,
    inst: &Instance,
    starts: Vec<u32>,
    turns: u32,
    seed: u64,
) -> Result<Vec<u32>, AllocError>
    requires { AreAllowedStarts inst.now starts.items }
    ensures { IfOk result (λ starts. AreAllowedStarts inst.now starts.items) }
{
    let mut draft = Draft::make(alloc, inst, &starts, seed)?;
    let most = draft.runs().wrapping_mul(ROUNDS_A_RUN);
    let rounds = (turns.min(MOST_TURNS) * ROUNDS) as usize;
    mend(&mut draft, rounds.min(most));
    let mut starts = starts;
    take_starts(inst, &mut starts, &draft);
    Ok(starts)
}
