//! The first state of a search: the tree that it goes on from is laid out, and each of its leaves becomes the leaf of
//! its box.
ghost use Rattle.std.specs.Prelude.{◌≡◌, ◌+◌, ◌-◌, ◌<◌, List, [], ◌∷◌, length, None, IfOk, OnOk, IfSome, option_map};
ghost use Rattle.lagrange_bound.specs.declared.span.Span.{Span};
ghost use Rattle.certificate_tree.specs.Trees.{Tree, root_box};
ghost use Rattle.certificate_tree.specs.Ranges.{AreNodesOf, IsLeafInRange};
ghost use Rattle.certificate_tree.specs.Validity.{BoundBoxes};
ghost use Rattle.certificate_tree.specs.PriceTables.{table_worths};
ghost use Rattle.branch_search.specs.Best.{IsFeasiblePlan};
ghost use Rattle.branch_search.specs.Splits.{split_count};
ghost use Rattle.branch_search.specs.Tasks.{task_of};
ghost use Rattle.branch_search.specs.Pricing.{AreSearchTables};
ghost use Rattle.branch_search.specs.Growing.{AreBoxesOf};
ghost use Rattle.branch_search.specs.CurrentBoxes.{IsCurrentBox};
ghost use Rattle.branch_search.specs.Valued.{plan_in, IsValued};
ghost use Rattle.branch_search.specs.Begun.{IsLaid};
ghost use Rattle.branch_search.specs.States.{IsGrowth};

use crate::Part;
use crate::best::Best;
use crate::choosing::Chooser;
use crate::part::is_of_part;
use crate::splitting::current_box::CurrentBox;
use crate::splitting::settling::settle_again;
use crate::tree::{Cell, Growth, Waiting, box_of, file_leaf, set_leaf, split_cell};
use certificate_tree::{BoxPath, Node, nodes_are_one_tree};
use instance_model::{Instance, Starts};
use lagrange_bound::{Goal, PriceTable};
use std::alloc::{AllocError, Global};

/// The plan handed in with its value, or none.
fn given_best<G: Goal>(
    alloc: Global,
    goal: &G,
    inst: &Instance,
    incumbent: Option<&[u32]>,
) -> Result<Option<Best>, AllocError>
    requires { IfSome incumbent (λ given. IsFeasiblePlan inst.now given.now) }
    ensures plan { IfOk result (λ best. plan_in best ≡ option_map (λ given. given.now) incumbent.entry) }
    ensures valued { IfOk result (IsValued (G.value_gives goal.now) inst.now) }
{
    let Some(given) = incumbent else {
        return Ok(None);
    };
    let value = goal.value(alloc, inst, given)?;
    let starts = given.iter().copied().collect(alloc)?;
    Ok(Some(Best {
        starts: Starts::from_vec(starts),
        value,
    }))
}

/// The box of all starts, as the current one.
fn root_current(alloc: Global, inst: &Instance) -> Result<CurrentBox, AllocError>
    ensures { IfOk result (IsCurrentBox inst.now) }
{
    inst.fits();
    let root = BoxPath::root(alloc, inst)?;
    CurrentBox::make(alloc, inst, root.spans())
}

/// A tree of one number that has no node so far.
fn new_growth(alloc: Global, inst: &Instance, best: Option<Best>) -> Result<Growth, AllocError>
    ensures cells { IfOk result (λ growth.
        growth.cells.items ≡ (record { node = Node.Point; parent = 0; left = 0 }) ∷ []) }
    ensures waiting { IfOk result (λ growth. growth.waiting ≡ []) }
    ensures aside { IfOk result (λ growth. growth.aside ≡ None) }
    ensures best { IfOk result (λ growth. growth.best ≡ best) }
    ensures splits { IfOk result (λ growth. growth.splits ≡ 0) }
    ensures current { IfOk result (λ growth. IsCurrentBox inst.now growth.current) }
{
    let current = root_current(alloc, inst)?;
    let chooser = Chooser::make(alloc, inst)?;
    let mut cells = Vec::new(alloc);
    cells.push(Cell {
        node: Node::Point,
        parent: 0,
        left: 0,
    })?;
    Ok(Growth {
        cells,
        waiting: Waiting::new(alloc),
        aside: None,
        best,
        splits: 0,
        current,
        chooser,
    })
}

/// Gives a number the leaf of its box in the place of a given one, which may be split or not.
fn lay_leaf<G: Goal>(
    alloc: Global,
    goal: &G,
    inst: &Instance,
    tables: &[PriceTable],
    growth: &mut Growth,
    number: usize,
    given: Node,
    may_split: bool,
) -> Result<(), AllocError>
    requires tables { AreSearchTables inst.now tables.now }
    requires number { number < length growth.old.cells.items }
    requires boxes { (boxes : List (List Span)) × AreBoxesOf inst.now growth.old.cells.items boxes }
    requires given { IsLeafInRange inst.now (length tables.now - 1) given }
    requires valued { IsValued (G.value_gives goal.now) inst.now growth.old.best }
    requires current { IsCurrentBox inst.now growth.old.current }
    ensures laid { OnOk result
        (IsLaid (G.value_gives goal.now) inst.now tables.now number may_split growth.old growth.new) }
    ensures valued { OnOk result (IsValued (G.value_gives goal.now) inst.now growth.new.best) }
    ensures current { OnOk result (IsCurrentBox inst.now growth.new.current) }
{
    let spans = box_of(alloc, inst, growth.cells.as_slice(), number)?;
    growth.current.boxes.set_spans(inst, &spans);
    let current = &growth.current;
    let best = &mut growth.best;
    let leaf = settle_again(alloc, goal, inst, tables, current, given, best)?;
    set_leaf(&mut growth.cells, number, leaf.node);
    let (waiting, aside) = (&mut growth.waiting, &mut growth.aside);
    file_leaf(waiting, aside, may_split, leaf.worth, number)?;
    Ok(())
}

/// The state before any split of the search's own, where the leaves of this part may be split.
pub(crate) fn begin<G: Goal>(
    alloc: Global,
    goal: &G,
    inst: &Instance,
    tables: &[PriceTable],
    nodes: &[Node],
    incumbent: Option<&[u32]>,
    part: Part,
) -> Result<Growth, AllocError>
    requires tables { AreSearchTables inst.now tables.now }
    requires lawful { BoundBoxes (G.value_gives goal.now) inst.now (length tables.now - 1) (table_worths tables.now) }
    requires tree { (t : Tree) × AreNodesOf inst.now (length tables.now - 1) (root_box inst.now) t nodes.now }
    requires incumbent { IfSome incumbent (λ given. IsFeasiblePlan inst.now given.now) }
    requires part { part.number < part.count }
    ensures state { IfOk result (λ begun. IsGrowth (task_of (G.value_gives goal.now) inst.now tables.now nodes.now
        (option_map (λ given. given.now) incumbent.entry)) part begun) }
    ensures none { IfOk result (λ begun. begun.splits ≡ 0) }
{
    inst.fits();
    nodes_are_one_tree();
    let best = given_best(alloc, goal, inst, incumbent)?;
    let mut growth = new_growth(alloc, inst, best)?;
    let mut stack = Vec::new(alloc);
    stack.push(0usize)?;
    let mut seen: usize = 0;
    for node in nodes {
        let Some(number) = stack.pop() else {
            break;
        };
        match *node {
            Node::Split { i, last } => {
                let left = growth.cells.len();
                split_cell(&mut growth.cells, number, i, last, Node::Point, Node::Point)?;
                stack.push(left + 1)?;
                stack.push(left)?;
            }
            leaf => {
                let may_split = is_of_part(part, seen);
                lay_leaf(
                    alloc,
                    goal,
                    inst,
                    tables,
                    &mut growth,
                    number,
                    leaf,
                    may_split,
                )?;
                seen += 1;
            }
        }
    }
    Ok(growth)
}
