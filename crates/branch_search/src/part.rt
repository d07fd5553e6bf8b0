//! Parts of a tree that a search goes on from.
ghost use Rattle.std.specs.Prelude.{◌≡◌, ◌<◌, IsTrue, ◌↔◌};
ghost use Rattle.branch_search.specs.Parts.{IsOfPart, whole_part};

/// The leaves that are numbered `number` modulo `count`, counted from 0 in the order of the nodes.
#[derive(Clone, Copy)]
pub struct Part {
    pub number: u32,
    pub count: u32,
}

impl Part {
    /// The one part of all leaves.
    pub fn whole() -> Part
        ensures { result ≡ whole_part }
    {
        Part {
            number: 0,
            count: 1,
        }
    }
}

/// Whether the leaf with this number is of the part.
pub(crate) fn is_of_part(part: Part, leaf: usize) -> bool
    requires { 0 < part.count }
    ensures { IsTrue result ↔ IsOfPart part leaf }
{
    leaf % part.count as usize == part.number as usize
}
