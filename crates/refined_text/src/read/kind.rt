//! The kinds of the entries of a price list.
ghost use Rattle.std.specs.Prelude.{◌≡◌};
ghost use Rattle.refined_text.specs.read.Parts.{kind_number};

/// The kind of the last entry of a price list. Entries of a kind come behind those of the kinds before it.
#[derive(Clone, Copy, Debug, PartialEq, Eq)]
pub enum EntryKind {
    /// A price on a limit or an exclusion, or no entry.
    Price,
    Cap,
    Group,
    Offset,
    Clique,
}

impl EntryKind {
    /// The number of the kind, counted from 0.
    pub fn number(self) -> u32
        ensures { result ≡ kind_number self }
    {
        match self {
            EntryKind::Price => 0,
            EntryKind::Cap => 1,
            EntryKind::Group => 2,
            EntryKind::Offset => 3,
            EntryKind::Clique => 4,
        }
    }
}
