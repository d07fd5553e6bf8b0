//! The goal that plans are scored by: its value is the score.
ghost use Rattle.std.specs.Prelude.{◌≡◌, ◌^◌, ◌<◌, length, IsTrue, unsigned_abs};
ghost use Rattle.instance_model.specs.Tables.{is_allowed};
ghost use Rattle.lagrange_bound.specs.Prices.{IsPriceList, tail_of};
ghost use Rattle.lagrange_bound.specs.Bases.{base_of};

use crate::term::term;
use crate::{Goal, Prices};
use duration_calendar::run;
use fixed_num::Steps;
use instance_model::{Instance, plan_of};
use plan_score::plan_values;
use std::alloc::{AllocError, Global};
use std::marker::Brand;
use std::sync::ledger::{Blank, Ledger};

/// The goal whose value is the score.
pub struct RiskGoal;

impl Goal for RiskGoal {
    ghost use Rattle.lagrange_bound.specs.Goals.{risk_base, risk_value};
    ghost use Rattle.lagrange_bound.specs.LawLemmas.{risk_law, risk_bases_small, risk_values_small};

    ghost base_gives = { λ goal. risk_base };

    ghost value_gives = { λ goal. risk_value };

    ghost law = { λ goal. risk_law };

    ghost small_bases = { λ goal. risk_bases_small };

    ghost small_values = { λ goal. risk_values_small };

    fn base(&self, inst: &Instance, prices: &Prices, i: u32, s: u32) -> i128 {
        base_on::<Brand>(inst, prices, i, s, Blank::new(1))
    }

    fn value(&self, alloc: Global, inst: &Instance, starts: &[u32]) -> Result<i128, AllocError> {
        let plan = plan_of(alloc, starts)?;
        Ok(plan_values(alloc, inst, plan.as_slice())?.score)
    }
}

/// The base of intervention `i` at start `s`, computed on a new ledger: the sum of its terms over its run.
fn base_on<L: Ledger>(inst: &Instance, prices: &Prices, i: u32, s: u32, blank: Blank) -> i128
    requires name { blank.name ≡ L.name }
    requires parts { blank.parts ≡ L.parts }
    requires some { 0 < blank.parts }
    requires number { i < length inst.now.names }
    requires allowed { IsTrue (is_allowed inst.now i s) }
    requires prices { IsPriceList inst.now prices.now }
    ensures value { result ≡ base_of inst.now (tail_of prices.now) i s }
    ensures small { unsigned_abs result < 10 ^ 30 }
{
    inst.fits();
    let mut steps: Steps<L> = Steps::zero(blank);
    let window = run(inst, i, s);
    let mut base: i128 = 0;
    for t in window.from..window.past {
        base += term(inst, prices.tail(inst, t), i, s, t, &mut steps);
    }
    base
}
