//! Words that name files.
ghost use Rattle.std.specs.Prelude.{◌≡◌, map, option_copied};
ghost use Rattle.command_words.specs.Files.{are_apart, are_file_words, given_of, differs_from_each};

/// Whether each of these is a file word.
#[tactic(auto, unfolding(crate::specs::Files::are_file_words))]
pub fn are_file_words(words: &[&str]) -> bool
    ensures { result ≡ are_file_words (map (λ word. word.now) words.now) }
{
    match words {
        [] => true,
        [word, words @ ..] => !word.is_empty() && are_file_words(words),
    }
}

/// The name of a file that may be left out: the word `-` stands for none.
pub fn given_of(word: &str) -> Option<&str>
    ensures { option_copied result ≡ given_of word.now }
{
    if word == "-" { None } else { Some(word) }
}

/// Whether no two of these names are the same text.
#[tactic(auto, unfolding(crate::specs::Files::are_apart))]
pub fn are_apart(names: &[&str]) -> bool
    ensures { result ≡ are_apart (map (λ name. name.now) names.now) }
{
    match names {
        [] => true,
        [name, others @ ..] => differs_from_each(name, others) && are_apart(others),
    }
}

/// Whether a name is none of these others.
#[tactic(auto, unfolding(crate::specs::Files::differs_from_each))]
fn differs_from_each(name: &str, others: &[&str]) -> bool
    ensures { result ≡ differs_from_each name.now (map (λ other. other.now) others.now) }
{
    match others {
        [] => true,
        [other, others @ ..] => name != *other && differs_from_each(name, others),
    }
}
