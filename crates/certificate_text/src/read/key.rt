//! What the entries of a price list are ordered by.
ghost use Rattle.std.specs.Prelude.{◌≡◌, ◌↔◌, IsTrue, IfSome, IfNone};
ghost use Rattle.certificate_text.specs.Grammar.{EntryKey as Key, KeyBelow};
ghost use Rattle.certificate_text.specs.read.Reading.{IsEntry, key_view};

use certificate_lines::{CertificateLine, Version};

/// What the entries of a price list are ordered by: their kind, and then the
/// first two numbers, of which a tail has one.
#[derive(Clone, Copy, Debug, PartialEq, Eq)]
pub enum EntryKey {
    /// Below the key of each entry.
    Begin,
    Up { c: u64, t: u64 },
    Lo { c: u64, t: u64 },
    Tail { t: u64 },
    Ex { e: u64, t: u64 },
}

impl EntryKey {
    /// Whether an entry of this key comes before one of the other.
    pub fn is_below(self, other: EntryKey) -> bool
        ensures { IsTrue result ↔ KeyBelow (key_view self) (key_view other) }
    {
        let (kind, first, second) = self.numbers();
        let (next_kind, next_first, next_second) = other.numbers();
        kind < next_kind
            || kind == next_kind
                && (first < next_first || first == next_first && second < next_second)
    }

    /// The kind, counted from 1, and the two numbers.
    fn numbers(self) -> (u64, u64, u64)
        ensures kind { result.0 ≡ (key_view self).kind }
        ensures first { result.1 ≡ (key_view self).first }
        ensures second { result.2 ≡ (key_view self).second }
    {
        match self {
            EntryKey::Begin => (0, 0, 0),
            EntryKey::Up { c, t } => (1, c, t),
            EntryKey::Lo { c, t } => (2, c, t),
            EntryKey::Tail { t } => (3, t, 0),
            EntryKey::Ex { e, t } => (4, e, t),
        }
    }
}

/// The key of a line, if it is an entry in this version.
pub fn key_of(version: Version, line: &CertificateLine) -> Option<EntryKey>
    ensures some { IfSome result (λ key. IsEntry version line.now (key_view key)) }
    ensures none { IfNone result ((key : Key) → IsEntry version line.now key → ⊥) }
{
    match *line {
        CertificateLine::Up { c, t, .. } => Some(EntryKey::Up { c, t }),
        CertificateLine::Lo { c, t, .. } => Some(EntryKey::Lo { c, t }),
        CertificateLine::Tail { t, .. } => Some(EntryKey::Tail { t }),
        CertificateLine::Ex { e, t, .. } => match version {
            Version::One => None,
            Version::Two => Some(EntryKey::Ex { e, t }),
        },
        _ => None,
    }
}
