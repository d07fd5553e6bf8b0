//! What the machine tells: events whose texts and numbers are still lists of bytes.

ghost use Rattle.std.specs.Prelude.{◌≡◌, ℕ};
ghost use Rattle.json_machine.specs.Machines.{answer_of, event_of, IsAtMostOne, AnswerNear, EventNear};
ghost use Rattle.json_grammar.specs.laws.Machine as machine;
ghost use Rattle.json_grammar.specs.laws.Machine.{State};

use json_grammar::Token;

/// An event with its offset, and the offset after it where it has quotes.
#[derive(Drop)]
pub enum RawEvent {
    Begin(u64, bool),
    Finish(u64),
    Key(u64, u64, Vec<u8>),
    Null(u64),
    Bool(u64, bool),
    Num(u64, Token),
    Text(u64, u64, Vec<u8>),
}

/// What the machine answers to a byte.
#[derive(Drop)]
pub enum Answer {
    Refused,
    Quiet,
    One(RawEvent),
    Two(RawEvent, RawEvent),
}

/// A number's event before what follows it.
pub(crate) fn joined(number: RawEvent, follows: Answer) -> Answer
    requires { IsAtMostOne follows }
    ensures joins { (s : State) → answer_of result s
        ≡ machine.with_front (event_of number) (answer_of follows s) }
    ensures near { (k : ℕ) → EventNear k number → AnswerNear k follows → AnswerNear k result }
{
    match follows {
        Answer::Quiet => Answer::One(number),
        Answer::One(event) => Answer::Two(number, event),
        Answer::Refused | Answer::Two(_, _) => Answer::Refused,
    }
}
