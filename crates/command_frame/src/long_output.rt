//! A text that is too long for its file.
ghost use Rattle.plan_desk.specs.Contents.{KeepsFiles};
ghost use Rattle.command_frame.specs.Refusals.{SaysOrFails};
ghost use Rattle.command_frame.specs.Outputs.{long_output_line};

use crate::saying::say_numbered;
use plan_desk::Desk;

/// The line of a text that is too long, before the number of the word that names its file.
const LONG_WORDS: &str = "refused output too long ";

/// Says that the text of the file of this word is too long, and answers 12; 8 where saying it failed. Takes no memory.
pub fn refuse_long<D: Desk>(desk: &mut D, word: u64) -> u8
    ensures ends { SaysOrFails 12 (long_output_line word) (D.shows desk.old) (D.shows desk.new) result }
    ensures keeps { KeepsFiles (D.shows desk.old) (D.shows desk.new) }
{
    say_numbered(desk, 12, LONG_WORDS, word)
}
