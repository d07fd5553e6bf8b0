//! The word that a line begins with.
ghost use Rattle.refined_text.specs.lines.Steps.{IsKeywordOf};

/// The keyword of a line, where it isn't one that version 2 has as well.
#[derive(Clone, Copy)]
pub enum RefinedKeyword {
    Title,
    Cap,
    Group,
    Offset,
    Clique,
    Other,
}

/// The keyword of these bytes.
pub fn keyword_of(word: &[u8]) -> RefinedKeyword
    ensures { IsKeywordOf word.now result }
{
    if word == b"mpcert".as_slice() {
        return RefinedKeyword::Title;
    }
    if word == b"cap".as_slice() {
        return RefinedKeyword::Cap;
    }
    if word == b"tail".as_slice() {
        return RefinedKeyword::Group;
    }
    if word == b"off".as_slice() {
        return RefinedKeyword::Offset;
    }
    if word == b"clq".as_slice() {
        return RefinedKeyword::Clique;
    }
    RefinedKeyword::Other
}
