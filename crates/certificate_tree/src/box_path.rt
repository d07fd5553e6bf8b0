//! A walk over the boxes of a tree: contracts see the list of the boxes that wait.
ghost use Rattle.std.specs.Prelude.{◌≡◌, ◌<◌, [], ◌∷◌, length, IsTrue, IfOk, OnOk, OnErr, ◌↔◌, All, reverse};
ghost use Rattle.std.specs.Bool.{OnTrue, OnFalse};
ghost use Rattle.certificate_tree.specs.Trees.{IsSplit, below, above, root_box};
ghost use Rattle.certificate_tree.specs.Walk.{first_box, other_boxes, IsChange, waiting_after};

use instance_model::Instance;
use lagrange_bound::Span;
use std::alloc::{AllocError, Global};
use std::marker::Model;

/// A change of an interval by a split: what it was, and whether its part above `last` waits.
#[derive(Clone, Copy)]
struct Change {
    i: u32,
    from: u32,
    last: u32,
    to: u32,
    waits: bool,
}

/// A walk through a tree of boxes: the box at hand, and what is left of the walk.
///
/// Seen as the list of the boxes that wait, the one at hand first. It is kept as one
/// box and a change for each level above it.
#[derive(Drop)]
pub struct BoxPath {
    spans: Vec<Span>,
    changes: Vec<Change>,
    ended: bool,
}

impl Model for BoxPath {
    ghost use Rattle.std.specs.Prelude.{List};
    ghost use Rattle.lagrange_bound.specs.declared.span.Span.{Span};

    ghost Value = { List (List Span) };

    ghost use Rattle.certificate_tree.specs.Walk.{boxes_of, IsPath};

    ghost view = { boxes_of };

    ghost invariant = { IsPath };
}

/// Goes to the next box that waits, and says whether there was one.
fn next_part(spans: &mut [Span], changes: &mut Vec<Change>) -> bool
    requires { All (IsChange (length spans.old)) changes.old.items }
    ensures next { OnTrue result
        (waiting_after spans.old (reverse changes.old.items)
        ≡ spans.new ∷ waiting_after spans.new (reverse changes.new.items)) }
    ensures none { OnFalse result (waiting_after spans.old (reverse changes.old.items) ≡ []) }
    ensures changes { All (IsChange (length spans.new)) changes.new.items }
{
    while let Some(change) = changes.pop() {
        let i = change.i as usize;
        if change.waits {
            spans[i] = Span {
                from: change.last + 1,
                to: change.to,
            };
            let next = Change {
                waits: false,
                ..change
            };
            match changes.push(next) {
                Ok(()) => return true,
                Err(_) => unreachable!(),
            }
        }
        spans[i] = Span {
            from: change.from,
            to: change.to,
        };
    }
    false
}

impl BoxPath {
    /// The walk that begins at a box, with no other.
    pub fn from_box(alloc: Global, spans: Vec<Span>) -> BoxPath
        ensures { result ≡ spans.items ∷ [] }
    {
        BoxPath {
            spans,
            changes: Vec::new(alloc),
            ended: false,
        }
    }

    /// The walk that begins at the box of all starts.
    pub fn root(alloc: Global, inst: &Instance) -> Result<BoxPath, AllocError>
        ensures { IfOk result (λ path. path ≡ root_box inst.now ∷ []) }
    {
        let mut spans = Vec::new(alloc);
        for i in 0..inst.interventions() {
            spans.push(Span {
                from: 1,
                to: inst.tmax(i),
            })?;
        }
        Ok(BoxPath::from_box(alloc, spans))
    }

    /// Whether no box is left.
    pub fn has_ended(&self) -> bool
        ensures { IsTrue result ↔ (length self.now ≡ 0) }
    {
        self.ended
    }

    /// The box at hand.
    pub fn spans(&self) -> &[Span]
        requires { 0 < length self.now }
        ensures { result.now ≡ first_box self.now }
    {
        self.spans.as_slice()
    }

    /// Splits the box at hand into two, and goes to the left part. Without memory the walk stays as it was.
    pub fn split(&mut self, i: u32, last: u32) -> Result<(), AllocError>
        requires some { 0 < length self.old }
        requires splits { IsSplit (first_box self.old) i last }
        ensures done { OnOk result
            (self.new ≡ below (first_box self.old) i last ∷ above (first_box self.old) i last ∷ other_boxes self.old) }
        ensures kept { OnErr result (self.new ≡ self.old) }
    {
        let span = self.spans[i as usize];
        let change = Change {
            i,
            from: span.from,
            last,
            to: span.to,
            waits: true,
        };
        self.changes.push(change)?;
        self.spans[i as usize] = Span {
            from: span.from,
            to: last,
        };
        Ok(())
    }

    /// Leaves the box at hand for the next one.
    pub fn leave(&mut self)
        requires { 0 < length self.old }
        ensures { self.new ≡ other_boxes self.old }
    {
        if !next_part(self.spans.as_mut_slice(), &mut self.changes) {
            self.ended = true;
        }
    }
}
