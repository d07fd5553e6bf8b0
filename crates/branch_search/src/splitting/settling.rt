//! The leaf of a new box: a refuting one, that of a single plan, or one that waits.
ghost use Rattle.std.specs.Prelude.{◌≡◌, ◌-◌, ◌<◌, length, slice_set, IfOk, OnOk, IfSome, IfNone};
ghost use Rattle.lagrange_bound.specs.Boxes.{IsBox};
ghost use Rattle.certificate_tree.specs.Trees.{IsSplit};
ghost use Rattle.certificate_tree.specs.Ranges.{IsLeafInRange};
ghost use Rattle.certificate_tree.specs.Holding.{IsSingle};
ghost use Rattle.branch_search.specs.Boxes.{IsUnrefuted};
ghost use Rattle.branch_search.specs.Refuting.{IsRefuting, IsPartOfUnrefuted};
ghost use Rattle.branch_search.specs.CurrentBoxes.{IsCurrentBox, IsPartedBy};
ghost use Rattle.branch_search.specs.Tasks.{free_task};
ghost use Rattle.branch_search.specs.Settled.{IsLeafOf, ArePartsOf, IsImprovedIn};
ghost use Rattle.branch_search.specs.Pricing.{AreSearchTables};
ghost use Rattle.branch_search.specs.Valued.{plan_in, IsValued};

use crate::best::Best;
use crate::choosing::{Chooser, choose};
use crate::closing::{is_single, leaf_over, refuting_part, take_point};
use crate::splitting::current_box::CurrentBox;
use certificate_tree::{Node, greatest_worth, parts_are_boxes};
use instance_model::Instance;
use lagrange_bound::{Goal, PriceTable, Span};
use std::alloc::{AllocError, Global};

/// A leaf, and the worth of its box where it waits.
#[derive(Clone, Copy)]
pub(crate) struct Settled {
    pub(crate) node: Node,
    pub(crate) worth: Option<i128>,
}

/// A split, and the leaves of its parts, the left one first.
#[derive(Clone, Copy)]
pub(crate) struct Parts {
    pub(crate) i: u32,
    pub(crate) last: u32,
    pub(crate) left: Settled,
    pub(crate) right: Settled,
}

/// The leaf of a box, given one that refutes it, or none. The plan of a box that is a single one may become the best
/// plan.
fn settle<G: Goal>(
    alloc: Global,
    goal: &G,
    inst: &Instance,
    tables: &[PriceTable],
    spans: &[Span],
    refuting: Option<Node>,
    best: &mut Option<Best>,
) -> Result<Settled, AllocError>
    requires spans { IsBox inst.now spans.now }
    requires refuted { IfSome refuting (IsRefuting inst.now spans.now) }
    requires unrefuted { IfNone refuting (IsUnrefuted inst.now spans.now) }
    requires tables { AreSearchTables inst.now tables.now }
    requires valued { IsValued (G.value_gives goal.now) inst.now best.old }
    ensures leaf { IfOk result (IsLeafOf (free_task (G.value_gives goal.now) inst.now tables.now)
        (plan_in best.new) spans.now) }
    ensures improved { OnOk result (IsImprovedIn (G.value_gives goal.now) inst.now spans.now
        (plan_in best.old) (plan_in best.new)) }
    ensures valued { OnOk result (IsValued (G.value_gives goal.now) inst.now best.new) }
{
    if let Some(node) = refuting {
        return Ok(Settled { node, worth: None });
    }
    if is_single(spans) {
        take_point(alloc, goal, inst, spans, best)?;
        return Ok(Settled {
            node: Node::Point,
            worth: None,
        });
    }
    let (list, worth) = greatest_worth(tables, spans);
    Ok(Settled {
        node: Node::Cost { list },
        worth: Some(worth),
    })
}

/// The leaf of the current box in the place of a given one, which stays where it is a `band` or an `excl` that holds.
pub(crate) fn settle_again<G: Goal>(
    alloc: Global,
    goal: &G,
    inst: &Instance,
    tables: &[PriceTable],
    current: &CurrentBox,
    given: Node,
    best: &mut Option<Best>,
) -> Result<Settled, AllocError>
    requires current { IsCurrentBox inst.now current.now }
    requires spans { IsBox inst.now current.now.boxes.spans }
    requires given { IsLeafInRange inst.now (length tables.now - 1) given }
    requires tables { AreSearchTables inst.now tables.now }
    requires valued { IsValued (G.value_gives goal.now) inst.now best.old }
    ensures leaf { IfOk result (IsLeafOf (free_task (G.value_gives goal.now) inst.now tables.now)
        (plan_in best.new) current.now.boxes.spans) }
    ensures improved { OnOk result (IsImprovedIn (G.value_gives goal.now) inst.now current.now.boxes.spans
        (plan_in best.old) (plan_in best.new)) }
    ensures valued { OnOk result (IsValued (G.value_gives goal.now) inst.now best.new) }
{
    let refuting = leaf_over(inst, current, given);
    let spans = current.boxes.spans();
    settle(alloc, goal, inst, tables, spans, refuting, best)
}

/// The leaf of a part of a box, which becomes the current box: where no leaf refuted the box with the interval `whole`
/// of intervention `i`, of which the part has the interval `span`.
fn settle_part<G: Goal>(
    alloc: Global,
    goal: &G,
    inst: &Instance,
    tables: &[PriceTable],
    current: &mut CurrentBox,
    i: u32,
    whole: Span,
    span: Span,
    best: &mut Option<Best>,
) -> Result<Settled, AllocError>
    requires current { IsCurrentBox inst.now current.old }
    requires number { i < length inst.now.names }
    requires part { IsPartOfUnrefuted inst.now current.old.boxes.spans i whole span }
    requires tables { AreSearchTables inst.now tables.now }
    requires valued { IsValued (G.value_gives goal.now) inst.now best.old }
    ensures leaf { IfOk result (IsLeafOf (free_task (G.value_gives goal.now) inst.now tables.now)
        (plan_in best.new) (slice_set current.old.boxes.spans i span)) }
    ensures improved { OnOk result (IsImprovedIn (G.value_gives goal.now) inst.now
        (slice_set current.old.boxes.spans i span) (plan_in best.old) (plan_in best.new)) }
    ensures valued { OnOk result (IsValued (G.value_gives goal.now) inst.now best.new) }
    ensures current { OnOk result (IsCurrentBox inst.now current.new) }
    ensures spans { OnOk result (current.new.boxes.spans ≡ slice_set current.old.boxes.spans i span) }
{
    current.boxes.set_span(inst, i, span);
    let refuting = refuting_part(inst, current, i, whole);
    let spans = current.boxes.spans();
    settle(alloc, goal, inst, tables, spans, refuting, best)
}

/// The leaves of the two parts of the current box, the left one first. The right part is the current box then.
fn settle_parts<G: Goal>(
    alloc: Global,
    goal: &G,
    inst: &Instance,
    tables: &[PriceTable],
    current: &mut CurrentBox,
    i: u32,
    last: u32,
    best: &mut Option<Best>,
) -> Result<(Settled, Settled), AllocError>
    requires current { IsCurrentBox inst.now current.old }
    requires spans { IsBox inst.now current.old.boxes.spans }
    requires unrefuted { IsUnrefuted inst.now current.old.boxes.spans }
    requires splits { IsSplit current.old.boxes.spans i last }
    requires tables { AreSearchTables inst.now tables.now }
    requires valued { IsValued (G.value_gives goal.now) inst.now best.old }
    ensures parts { IfOk result (λ parts. ArePartsOf (free_task (G.value_gives goal.now) inst.now tables.now)
        current.old.boxes.spans i last (plan_in best.old) (plan_in best.new) parts.0 parts.1) }
    ensures valued { OnOk result (IsValued (G.value_gives goal.now) inst.now best.new) }
    ensures current { OnOk result (IsCurrentBox inst.now current.new) }
{
    parts_are_boxes();
    let _few = inst.periods();
    let _starts = inst.tmax(i);
    let whole = current.boxes.spans()[i as usize];
    let below = Span {
        from: whole.from,
        to: last,
    };
    let left = settle_part(alloc, goal, inst, tables, current, i, whole, below, best)?;
    let above = Span {
        from: last + 1,
        to: whole.to,
    };
    let right = settle_part(alloc, goal, inst, tables, current, i, whole, above, best)?;
    Ok((left, right))
}

/// Splits the current box where it isn't a single plan, and settles both parts. The plans of least prices of the box
/// are judged too, where they break nothing.
pub(crate) fn part<G: Goal>(
    alloc: Global,
    goal: &G,
    inst: &Instance,
    tables: &[PriceTable],
    current: &mut CurrentBox,
    chooser: &mut Chooser,
    best: &mut Option<Best>,
) -> Result<Option<Parts>, AllocError>
    requires current { IsCurrentBox inst.now current.old }
    requires spans { IsBox inst.now current.old.boxes.spans }
    requires unrefuted { IsUnrefuted inst.now current.old.boxes.spans }
    requires tables { AreSearchTables inst.now tables.now }
    requires valued { IsValued (G.value_gives goal.now) inst.now best.old }
    ensures some { IfOk result (λ parts. IfSome parts (IsPartedBy
        (free_task (G.value_gives goal.now) inst.now tables.now) current.old.boxes.spans
        (plan_in best.old) (plan_in best.new))) }
    ensures none { IfOk result (λ parts. IfNone parts (IsSingle current.old.boxes.spans)) }
    ensures valued { OnOk result (IsValued (G.value_gives goal.now) inst.now best.new) }
    ensures current { OnOk result (IsCurrentBox inst.now current.new) }
{
    let boxes = &current.boxes;
    let place = choose(alloc, goal, inst, tables, boxes, chooser, best)?;
    let Some((i, last)) = place else {
        return Ok(None);
    };
    let (left, right) = settle_parts(alloc, goal, inst, tables, current, i, last, best)?;
    Ok(Some(Parts {
        i,
        last,
        left,
        right,
    }))
}
