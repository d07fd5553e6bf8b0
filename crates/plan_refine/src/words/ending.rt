//! The words of `bound` behind all others: the slack, and the part of the tree whose leaves are split.
ghost use Rattle.std.specs.Prelude.{◌≡◌, ◌<◌, IfSome, map, string_bytes, option_map};
ghost use Rattle.plan_refine.specs.Words.{halves, part_in, part_of, split_end};

use branch_search::Part;
use command_words::turns_of;

/// The part of the text `K/N`.
fn part_in(text: &str) -> Option<Part>
    ensures value { result ≡ part_in (halves 47 text.now) }
    ensures known { IfSome result (λ part. part.number < part.count) }
{
    let (number, count) = text.split_once('/')?;
    let number = turns_of(number)?;
    let count = turns_of(count)?;
    if number < count {
        Some(Part { number, count })
    } else {
        None
    }
}

/// The part of a word `part=K/N`.
#[tactic(auto, unfolding(crate::specs::Words::part_of))]
pub(crate) fn part_of(word: &str) -> Option<Part>
    ensures value { result ≡ part_of word.now }
    ensures known { IfSome result (λ part. part.number < part.count) }
{
    let (name, numbers) = word.split_once('=')?;
    if name != "part" {
        return None;
    }
    part_in(numbers)
}

/// The words without the last one, where that says the part, and the part: the whole tree where none is said.
pub(crate) fn split_end(end: &[String]) -> Option<(&[String], Part)>
    ensures value { option_map (λ split. (map string_bytes split.0.now, split.1)) result
        ≡ split_end (map string_bytes end.now) }
    ensures known { IfSome result (λ split. split.1.number < split.1.count) }
{
    match end {
        [] => Some((end, Part::whole())),
        [word] => match part_of(word.as_str()) {
            Some(part) => Some((&end[..0], part)),
            None => Some((end, Part::whole())),
        },
        [_, word] => {
            let part = part_of(word.as_str())?;
            Some((&end[..1], part))
        }
        _ => None,
    }
}
