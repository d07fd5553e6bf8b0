//! Refined price lists, raised over a box.
ghost use Rattle.std.specs.Prelude.{◌≡◌, ◌<◌, ◌^◌, ◌≤ℤ◌, length, IfOk, IfSome, unsigned_abs};
ghost use Rattle.lagrange_bound.specs.Prices.{IsPriceList};
ghost use Rattle.lagrange_bound.specs.Boxes.{IsBox, HasStarts};
ghost use Rattle.lagrange_bound.specs.Pricings.{pricing_worth};
ghost use Rattle.lagrange_bound.specs.PricedTables.{IsPricingTable};
ghost use Rattle.certificate_tree.specs.Trees.{root_box};
ghost use Rattle.refined_prices.specs.RefinedLists.{IsRefinedList, zero_refined};
ghost use Rattle.refined_prices.specs.RefinedWorth.{refined_pricing};

use crate::ascent::Ascent;
use crate::band::mean_load;
use crate::start::{mean_risk, starts_in};
use crate::units::Units;
use certificate_tree::{BoxPath, has_starts};
use instance_model::Instance;
use lagrange_bound::{PriceTable, Span, worth};
use refined_prices::{RefinedPrices, is_refined_list, refined_prices_are_small, refined_rows};
use std::alloc::{AllocError, Global};

/// How much work all rounds are together where no turn is given, about.
const WORK: u64 = 1_150_000_000;

/// How much more each turn is worth.
const TURN: u64 = 60_000;

/// How many rounds there are where a round is so much work.
fn rounds_for(size: u64, turns: u32) -> u32 {
    let least = (WORK / size.max(1)).clamp(40, 300);
    let more = u64::from(turns).saturating_mul(TURN) / size.max(1);
    more.clamp(least, 600) as u32
}

/// The best list of the rounds over a box; none where an interval has no allowed start.
fn search(
    alloc: Global,
    inst: &Instance,
    spans: &[Span],
    turns: u32,
) -> Result<Option<RefinedPrices>, AllocError>
    requires { length spans.now ≡ length inst.now.names }
    ensures { IfOk result (λ found. IfSome found (λ list. IsPriceList inst.now list.prices)) }
{
    let risks = mean_risk(inst, spans);
    let units = Units::new(risks, mean_load(inst));
    let Some((starts, ranges)) = starts_in(alloc, inst, units, spans)? else {
        return Ok(None);
    };
    let mut ascent = Ascent::new(alloc, inst, units, starts, ranges)?;
    let size = risks.count.saturating_add(ascent.size());
    ascent.ascend(rounds_for(size, turns))?;
    Ok(Some(ascent.list(alloc)?))
}

/// The prices of all starts by a list.
fn table_of(alloc: Global, inst: &Instance, list: &RefinedPrices) -> Result<PriceTable, AllocError>
    requires { IsRefinedList inst.now list.now }
    ensures { IfOk result (IsPricingTable inst.now (refined_pricing inst.now list.now)) }
{
    inst.fits();
    refined_prices_are_small();
    let (rows, constant) = refined_rows(alloc, inst, list)?;
    Ok(PriceTable::from_rows(rows, constant))
}

/// The worth of a box by a list.
fn box_worth(
    alloc: Global,
    inst: &Instance,
    list: &RefinedPrices,
    spans: &[Span],
) -> Result<i128, AllocError>
    requires list { IsRefinedList inst.now list.now }
    requires spans { IsBox inst.now spans.now }
    requires starts { HasStarts inst.now spans.now }
    ensures value { IfOk result (λ w. w ≡ pricing_worth inst.now (refined_pricing inst.now list.now) spans.now) }
    ensures small { IfOk result (λ w. unsigned_abs w < 10 ^ 37) }
{
    let table = table_of(alloc, inst, list)?;
    Ok(worth(&table, spans))
}

/// The list that is found, where the box isn't worth less by it than by the list of zeros, else that one.
fn better_of(
    alloc: Global,
    inst: &Instance,
    spans: &[Span],
    zero: RefinedPrices,
    found: RefinedPrices,
) -> Result<RefinedPrices, AllocError>
    requires spans { IsBox inst.now spans.now }
    requires starts { HasStarts inst.now spans.now }
    requires zero { zero ≡ zero_refined inst.now }
    requires zero_in_range { IsRefinedList inst.now zero }
    requires found { IsRefinedList inst.now found }
    ensures in_range { IfOk result (IsRefinedList inst.now) }
    ensures not_below_zeros { IfOk result (λ list.
        pricing_worth inst.now (refined_pricing inst.now (zero_refined inst.now)) spans.now
        ≤ℤ pricing_worth inst.now (refined_pricing inst.now list) spans.now) }
{
    let least = box_worth(alloc, inst, &zero, spans)?;
    let raised = box_worth(alloc, inst, &found, spans)?;
    if raised < least {
        return Ok(zero);
    }
    Ok(found)
}

/// A refined price list, raised over a box: rounds move all its numbers towards what the starts of least price break.
/// More turns lead to more rounds; with none, their number follows from the size of the instance. Takes memory.
pub fn raise_groups_in(
    alloc: Global,
    inst: &Instance,
    spans: &[Span],
    turns: u32,
) -> Result<RefinedPrices, AllocError>
    requires { IsBox inst.now spans.now }
    ensures in_range { IfOk result (IsRefinedList inst.now) }

    // The box isn't worth less by it than by the list of zeros.
    ensures not_below_zeros { IfOk result (λ list. HasStarts inst.now spans.now →
        pricing_worth inst.now (refined_pricing inst.now (zero_refined inst.now)) spans.now
        ≤ℤ pricing_worth inst.now (refined_pricing inst.now list) spans.now) }
{
    let zero = RefinedPrices::zero(alloc, inst)?;
    if !has_starts(inst, spans) {
        return Ok(zero);
    }
    let Some(found) = search(alloc, inst, spans, turns)? else {
        return Ok(zero);
    };
    if !is_refined_list(alloc, inst, &found)? {
        return Ok(zero);
    }
    better_of(alloc, inst, spans, zero, found)
}

/// A refined price list, raised over the box of all starts.
pub fn raise_groups(alloc: Global, inst: &Instance, turns: u32) -> Result<RefinedPrices, AllocError>
    ensures in_range { IfOk result (IsRefinedList inst.now) }

    // That box isn't worth less by it than by the list of zeros.
    ensures not_below_zeros { IfOk result (λ list. HasStarts inst.now (root_box inst.now) →
        pricing_worth inst.now (refined_pricing inst.now (zero_refined inst.now)) (root_box inst.now)
        ≤ℤ pricing_worth inst.now (refined_pricing inst.now list) (root_box inst.now)) }
{
    inst.fits();
    let root = BoxPath::root(alloc, inst)?;
    raise_groups_in(alloc, inst, root.spans(), turns)
}
