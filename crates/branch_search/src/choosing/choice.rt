//! Where a box is split: where one part is closed at once, else at the cover that closes the box with the smallest
//! tree, else in the interval of which the halves differ most.
ghost use Rattle.std.specs.Prelude.{ℕ, ◌<◌, ◌≤◌, length, IfSome, IfNone, IfOk, OnOk, IsTrue};
ghost use Rattle.lagrange_bound.specs.Boxes.{IsBox, span_of};
ghost use Rattle.lagrange_bound.specs.Tabulated.{IsPricedBox};
ghost use Rattle.certificate_tree.specs.Trees.{IsSplit};
ghost use Rattle.certificate_tree.specs.Holding.{IsSingle};
ghost use Rattle.branch_search.specs.node_state.KeptLoads.{IsOver};
ghost use Rattle.branch_search.specs.Settled.{IsImprovedIn};
ghost use Rattle.branch_search.specs.Pricing.{ArePricedOver, IsLeadingOver};
ghost use Rattle.branch_search.specs.Valued.{plan_in, IsValued};

use crate::best::Best;
use crate::choosing::cover::{Cover, better};
use crate::choosing::cut::{Cut, Slacks, band_cut, exclusion_cut, longer, price_cut};
use crate::choosing::leading::{Leading, leading_in};
use crate::choosing::least_plan::LeastPlan;
use crate::choosing::load_ranges::LoadRanges;
use crate::choosing::middle::middle;
use crate::choosing::separation::{CoverRoom, PlanView, separate};
use crate::choosing::start_prices::least_price;
use crate::closing::take_starts;
use crate::node_state::BoxLoads;
use instance_model::Instance;
use lagrange_bound::{Goal, PriceTable, Span, worth};
use std::alloc::{AllocError, Global};

/// What is kept for separation by one table: the plan of least prices, and room.
#[derive(Drop)]
struct Separator {
    plan: LeastPlan,
    room: CoverRoom,
}

/// What is kept for choices: the loads of each intervention, what each place has left, and what is kept for separation
/// by the table of list 0 and by the other one that led last, which has this number.
#[derive(Drop)]
pub(crate) struct Chooser {
    ranges: LoadRanges,
    slacks: Slacks,
    first: Separator,
    other: Separator,
    number: usize,
}

/// The middle of an interval of several starts: the last start of its first half.
fn middle_of(span: Span) -> u32
    requires { span.from ≤ span.to }
{
    span.from + (span.to - span.from) / 2
}

impl Separator {
    fn make(alloc: Global, inst: &Instance, ranges: &LoadRanges) -> Result<Separator, AllocError> {
        Ok(Separator {
            plan: LeastPlan::make(alloc, inst)?,
            room: CoverRoom::make(alloc, inst, ranges)?,
        })
    }

    /// Forgets what was found by the prices of a table.
    fn forget(&mut self) {
        self.plan.forget();
        self.room.forget();
    }
}

impl Chooser {
    pub(crate) fn make(alloc: Global, inst: &Instance) -> Result<Chooser, AllocError> {
        let ranges = LoadRanges::make(alloc, inst)?;
        let first = Separator::make(alloc, inst, &ranges)?;
        let other = Separator::make(alloc, inst, &ranges)?;
        Ok(Chooser {
            ranges,
            slacks: Slacks::make(alloc, inst)?,
            first,
            other,
            number: 0,
        })
    }

    /// Lets the other table be the one of this number.
    fn follow_other(&mut self, number: usize) {
        if self.number != number {
            self.number = number;
            self.other.forget();
        }
    }
}

/// Separates the plan of least prices by one table: where it breaks nothing, it is judged, and it may become the best
/// plan; else the best cover is the answer, where there is one.
fn separate_by<G: Goal>(
    alloc: Global,
    goal: &G,
    inst: &Instance,
    table: &PriceTable,
    boxes: &BoxLoads,
    ranges: &LoadRanges,
    separator: &mut Separator,
    target: i128,
    best: &mut Option<Best>,
) -> Result<Option<Cover>, AllocError>
    requires over { IsOver inst.now boxes.now }
    requires spans { IsBox inst.now boxes.now.spans }
    requires priced { IsPricedBox table.now boxes.now.spans }
    requires valued { IsValued (G.value_gives goal.now) inst.now best.old }
    ensures improved { OnOk result (IsImprovedIn (G.value_gives goal.now) inst.now boxes.now.spans
        (plan_in best.old) (plan_in best.new)) }
    ensures valued { OnOk result (IsValued (G.value_gives goal.now) inst.now best.new) }
{
    let spans = boxes.spans();
    let plan = &mut separator.plan;
    let room = &mut separator.room;
    plan.follow(inst, table, spans);
    room.follow(inst, ranges, spans);
    let reached = worth(table, spans);
    let view = PlanView {
        inst,
        ranges,
        boxes,
        table,
        plan: &*plan,
        worth: reached,
        lacking: target.saturating_sub(reached).max(1),
    };
    let separated = separate(&view, room)?;
    if !separated.is_broken && !plan.is_judged {
        take_starts(alloc, goal, inst, spans, plan.starts.as_slice(), best)?;
        plan.is_judged = true;
    }
    Ok(separated.cover)
}

/// Whether a split of intervention `i` after start `last` leaves starts in both parts.
fn is_split(spans: &[Span], i: u32, last: u32) -> bool
    ensures { IsTrue result → IsSplit spans.now i last }
{
    match spans.get(i as usize) {
        Some(span) => span.from <= last && last < span.to,
        None => false,
    }
}

/// How much the least prices of the two halves of an interval differ, where both have an allowed start.
fn difference(prices: &[Option<i128>], span: Span) -> Option<i128>
    requires { span.from ≤ span.to }
{
    let from = span.from.saturating_sub(1) as usize;
    let past = span.to as usize;
    let half = middle_of(span) as usize;
    let left = least_price(prices, from, half)?;
    let right = least_price(prices, half, past)?;
    Some(if left < right {
        right.saturating_sub(left)
    } else {
        left.saturating_sub(right)
    })
}

/// The interval of which the halves differ most, and its middle.
fn widest(table: &PriceTable, spans: &[Span]) -> Option<(u32, u32)>
    requires few { length spans.now ≤ 1024 }
    requires order { (i : ℕ) → i < length spans.now → (span_of spans.now i).from ≤ (span_of spans.now i).to }
{
    let mut most = 0;
    let mut found = None;
    for i in 0..spans.len() {
        let span = spans[i];
        if let Some(wide) = difference(table.row(i as u32), span) {
            if most < wide {
                most = wide;
                found = Some((i as u32, middle_of(span)));
            }
        }
    }
    found
}

/// A split: the one that was found, where it is one, else in the interval of which the halves differ most, else in the
/// middle of the first interval of several starts.
fn split_or_middle(spans: &[Span], table: &PriceTable, found: Option<Cover>) -> Option<(u32, u32)>
    requires few { length spans.now ≤ 1024 }
    requires order { (i : ℕ) → i < length spans.now → (span_of spans.now i).from ≤ (span_of spans.now i).to }
    ensures some { IfSome result (λ place. IsSplit spans.now place.0 place.1) }
    ensures none { IfNone result (IsSingle spans.now) }
{
    if let Some(cover) = found {
        if is_split(spans, cover.i, cover.last) {
            return Some((cover.i, cover.last));
        }
    }
    if let Some((i, last)) = widest(table, spans) {
        if is_split(spans, i, last) {
            return Some((i, last));
        }
    }
    middle(spans)
}

/// What the worth of a box is to come to: the value of the best plan, or an eighth above the worth where there is none.
fn target_of(leading: &Leading<'_>, spans: &[Span], best: &Option<Best>) -> i128
    requires { IsLeadingOver spans.now leading.now }
{
    if let Some(best) = best {
        return best.value;
    }
    let mut most = worth(leading.first, spans);
    if let Some(table) = leading.other {
        most = most.max(worth(table, spans));
    }
    most.saturating_add(most.saturating_abs() / 8)
}

/// The longest cut by the prices of the leading tables.
fn dearest_cut(leading: &Leading<'_>, spans: &[Span], value: i128) -> Option<Cut>
    requires few { length spans.now ≤ 1024 }
    requires leading { IsLeadingOver spans.now leading.now }
{
    let lacking = value.saturating_sub(worth(leading.first, spans));
    let first = price_cut(leading.first, spans, lacking);
    let Some(table) = leading.other else {
        return first;
    };
    let lacking = value.saturating_sub(worth(table, spans));
    longer(first, price_cut(table, spans, lacking))
}

/// The longest cut that closes one part of a box.
fn closing_cut(
    inst: &Instance,
    leading: &Leading<'_>,
    boxes: &BoxLoads,
    chooser: &mut Chooser,
    best: &Option<Best>,
) -> Option<Cut>
    requires few { length boxes.now.spans ≤ 1024 }
    requires over { IsOver inst.now boxes.now }
    requires leading { IsLeadingOver boxes.now.spans leading.now }
{
    let spans = boxes.spans();
    let table = leading.first;
    chooser.ranges.follow(inst, table, spans);
    chooser.slacks.follow(inst, boxes);
    let mut found = band_cut(&chooser.ranges, &chooser.slacks, table, spans);
    found = longer(found, exclusion_cut(inst, spans));
    if let Some(best) = best {
        found = longer(found, dearest_cut(leading, spans, best.value));
    }
    found
}

/// A split that closes one part of a box, where there is one.
fn closing_split(
    inst: &Instance,
    leading: &Leading<'_>,
    boxes: &BoxLoads,
    chooser: &mut Chooser,
    best: &Option<Best>,
) -> Option<(u32, u32)>
    requires few { length boxes.now.spans ≤ 1024 }
    requires over { IsOver inst.now boxes.now }
    requires leading { IsLeadingOver boxes.now.spans leading.now }
    ensures { IfSome result (λ place. IsSplit boxes.now.spans place.0 place.1) }
{
    let cut = closing_cut(inst, leading, boxes, chooser, best)?;
    if is_split(boxes.spans(), cut.i, cut.last) {
        Some((cut.i, cut.last))
    } else {
        None
    }
}

/// The better cover of the plans of least prices by the leading tables, where there is one. Plans that break nothing
/// are judged.
fn cover_by_plans<G: Goal>(
    alloc: Global,
    goal: &G,
    inst: &Instance,
    leading: &Leading<'_>,
    boxes: &BoxLoads,
    chooser: &mut Chooser,
    best: &mut Option<Best>,
) -> Result<Option<Cover>, AllocError>
    requires over { IsOver inst.now boxes.now }
    requires spans { IsBox inst.now boxes.now.spans }
    requires leading { IsLeadingOver boxes.now.spans leading.now }
    requires valued { IsValued (G.value_gives goal.now) inst.now best.old }
    ensures improved { OnOk result (IsImprovedIn (G.value_gives goal.now) inst.now boxes.now.spans
        (plan_in best.old) (plan_in best.new)) }
    ensures valued { OnOk result (IsValued (G.value_gives goal.now) inst.now best.new) }
{
    let target = target_of(leading, boxes.spans(), best);
    let (table, kept) = (leading.first, &mut chooser.first);
    let ranges = &chooser.ranges;
    let first = separate_by(alloc, goal, inst, table, boxes, ranges, kept, target, best)?;
    let Some(table) = leading.other else {
        return Ok(first);
    };
    chooser.follow_other(leading.number);
    let (ranges, kept) = (&chooser.ranges, &mut chooser.other);
    let second = separate_by(alloc, goal, inst, table, boxes, ranges, kept, target, best)?;
    Ok(better(second, first))
}

/// Chooses the split of a box. Where it closes neither part, the plans of least prices are judged.
pub(crate) fn choose<G: Goal>(
    alloc: Global,
    goal: &G,
    inst: &Instance,
    tables: &[PriceTable],
    boxes: &BoxLoads,
    chooser: &mut Chooser,
    best: &mut Option<Best>,
) -> Result<Option<(u32, u32)>, AllocError>
    requires over { IsOver inst.now boxes.now }
    requires spans { IsBox inst.now boxes.now.spans }
    requires tables { ArePricedOver boxes.now.spans tables.now }
    requires valued { IsValued (G.value_gives goal.now) inst.now best.old }
    ensures some { IfOk result (λ place. IfSome place (λ at. IsSplit boxes.now.spans at.0 at.1)) }
    ensures none { IfOk result (λ place. IfNone place (IsSingle boxes.now.spans)) }
    ensures improved { OnOk result (IsImprovedIn (G.value_gives goal.now) inst.now boxes.now.spans
        (plan_in best.old) (plan_in best.new)) }
    ensures valued { OnOk result (IsValued (G.value_gives goal.now) inst.now best.new) }
{
    inst.fits();
    let spans = boxes.spans();
    let leading = leading_in(tables, spans);
    if let Some(place) = closing_split(inst, &leading, boxes, chooser, best) {
        return Ok(Some(place));
    }
    let cover = cover_by_plans(alloc, goal, inst, &leading, boxes, chooser, best)?;
    let table = leading.other.unwrap_or(leading.first);
    Ok(split_or_middle(spans, table, cover))
}
