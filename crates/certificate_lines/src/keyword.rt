//! The word that a line begins with.
ghost use Rattle.std.specs.Prelude.{◌≡◌, IfSome, IfNone};

/// The keyword of a line.
#[derive(Clone, Copy)]
pub enum Keyword {
    Title,
    Bound,
    Lists,
    Prices,
    Up,
    Lo,
    Tail,
    Ex,
    Tree,
    Split,
    Cost,
    Point,
    Band,
    Excl,
    Empty,
}

const KEYWORDS: [Keyword; 15] = [
    Keyword::Title,
    Keyword::Bound,
    Keyword::Lists,
    Keyword::Prices,
    Keyword::Up,
    Keyword::Lo,
    Keyword::Tail,
    Keyword::Ex,
    Keyword::Tree,
    Keyword::Split,
    Keyword::Cost,
    Keyword::Point,
    Keyword::Band,
    Keyword::Excl,
    Keyword::Empty,
];

impl Keyword {
    ghost use Rattle.certificate_lines.specs.Steps.{keyword_text};
    ghost use Rattle.certificate_lines.specs.declared.keyword.Keyword.{Keyword};

    /// The bytes of the keyword.
    pub fn text(self) -> &'static [u8]
        ensures { result.now ≡ keyword_text self }
    {
        match self {
            Keyword::Title => b"mpcert",
            Keyword::Bound => b"bound",
            Keyword::Lists => b"lists",
            Keyword::Prices => b"prices",
            Keyword::Up => b"up",
            Keyword::Lo => b"lo",
            Keyword::Tail => b"tail",
            Keyword::Ex => b"ex",
            Keyword::Tree => b"tree",
            Keyword::Split => b"split",
            Keyword::Cost => b"cost",
            Keyword::Point => b"point",
            Keyword::Band => b"band",
            Keyword::Excl => b"excl",
            Keyword::Empty => b"empty",
        }
    }

    /// The keyword of these bytes.
    pub fn find(word: &[u8]) -> Option<Keyword>
        ensures found { IfSome result (λ keyword. word.now ≡ keyword_text keyword) }
        ensures none { IfNone result ((keyword : Keyword) → word.now ≡ keyword_text keyword → ⊥) }
    {
        for keyword in KEYWORDS {
            if keyword.text() == word {
                return Some(keyword);
            }
        }
        None
    }
}
