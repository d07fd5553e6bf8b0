//! The reader as a machine that takes one byte after another.

ghost use Rattle.std.specs.Prelude.{◌≡◌, [], IfOk, OnOk, OnErr, ℕ, IsTrue, is_some, length, Some, IfSome, ◌+◌, ◌<◌};
ghost use Rattle.std.specs.Prelude.{◌^◌};
ghost use Rattle.json_machine.specs.Machines.{state_of, answer_of, IsSound, SameMachine, AnswerNear, EventNear};
ghost use Rattle.json_machine.specs.Machines.{told_last};
ghost use Rattle.json_grammar.specs.laws.Machine as machine;
ghost use Rattle.json_grammar.specs.laws.Machine.{step};

use crate::characters::is_blank;
use crate::literal_token::Begun;
use crate::phase::Phase;
use crate::raw_event::{Answer, RawEvent};
use crate::within::Within;
use json_grammar::Token;
use std::alloc::{AllocError, Global};

/// How many arrays and objects may be open at once.
pub const MOST_LEVELS: usize = 16;

/// What may come next: a value, a key, a colon, or more of a token.
#[derive(Clone, Copy, Drop)]
pub enum Mode {
    Want,
    First,
    FirstKey,
    NextKey,
    Colon,
    After,
    Literal(Begun),
    Number(Phase),
    Str(bool, Within),
}

/// A machine with the arrays (false) and objects (true) that are open, outermost first, where the token that it is in
/// began, and the bytes of that token which count.
#[derive(Drop)]
pub struct Machine {
    pub(crate) levels: Vec<bool>,
    pub(crate) mode: Mode,
    pub(crate) at: u64,
    pub(crate) token: Vec<u8>,
}

impl Machine {
    /// A machine before the first byte of a text.
    pub fn new(alloc: Global) -> Machine
        ensures starts { state_of result ≡ machine.st [] machine.Mode.want }
        ensures sound { IsSound 0 result }
    {
        Machine {
            levels: Vec::new(alloc),
            mode: Mode::Want,
            at: 0,
            token: Vec::new(alloc),
        }
    }

    /// The byte at k. Behind `Refused` the machine is of no more use.
    #[tactic(auto, unfolding(json_grammar::specs::laws::Machine::step))]
    pub fn step(&mut self, alloc: Global, k: u64, byte: u8) -> Result<Answer, AllocError>
        requires sound { IsSound k self.old }
        requires room { k + 1 < 2 ^ 64 }
        ensures moves { IfOk result (λ a. step k (state_of self.old).levels (state_of self.old).mode byte
            ≡ answer_of a (state_of self.new)) }
        ensures sound { OnOk result (IsSound (k + 1) self.new) }
        ensures near { IfOk result (λ a. AnswerNear k a) }
        ensures kept { OnErr result (SameMachine self.old self.new) }
    {
        match self.mode {
            Mode::Want => {
                if is_blank(byte) {
                    return Ok(Answer::Quiet);
                }
                self.value_step(k, byte)
            }
            Mode::First => {
                if is_blank(byte) {
                    return Ok(Answer::Quiet);
                }
                if byte == b']' {
                    return Ok(self.close(k));
                }
                self.value_step(k, byte)
            }
            Mode::FirstKey => {
                if byte == b'}' {
                    return Ok(self.close(k));
                }
                Ok(self.key_step(k, byte))
            }
            Mode::NextKey => Ok(self.key_step(k, byte)),
            Mode::Colon => {
                if is_blank(byte) {
                    return Ok(Answer::Quiet);
                }
                if byte != b':' {
                    return Ok(Answer::Refused);
                }
                self.mode = Mode::Want;
                Ok(Answer::Quiet)
            }
            Mode::After => Ok(self.after_step(k, byte)),
            Mode::Literal(begun) => Ok(self.literal_step(byte, begun)),
            Mode::Number(phase) => self.number_step(alloc, k, byte, phase),
            Mode::Str(is_key, within) => self.string_step(alloc, k, byte, is_key, within),
        }
    }

    /// Whether the bytes may end here.
    #[tactic(auto, unfolding(json_grammar::specs::laws::Machine::ending))]
    pub fn may_finish(&self) -> bool
        ensures { result ≡ is_some (machine.ending (state_of self.now).levels (state_of self.now).mode) }
    {
        if !self.levels.is_empty() {
            return false;
        }
        match self.mode {
            Mode::After => true,
            Mode::Number(phase) => phase.may_end(),
            _ => false,
        }
    }

    /// What is told at the end.
    #[tactic(auto, unfolding(json_grammar::specs::laws::Machine::ending))]
    pub fn last_event(&self, alloc: Global) -> Result<Option<RawEvent>, AllocError>
        requires { IsTrue (is_some (machine.ending (state_of self.now).levels (state_of self.now).mode)) }
        ensures tells { IfOk result (λ told. machine.ending (state_of self.now).levels (state_of self.now).mode
            ≡ Some (told_last told)) }
        ensures near { (k : ℕ) → IsSound k self.now → IfOk result (λ told. IfSome told (λ e. EventNear k e)) }
    {
        match self.mode {
            Mode::Number(_) => Ok(Some(RawEvent::Num(
                self.at,
                Token::from_slice(alloc, self.token.as_slice())?,
            ))),
            _ => Ok(None),
        }
    }

    /// How many arrays and objects are open.
    pub fn depth(&self) -> usize
        ensures { result ≡ length (state_of self.now).levels }
    {
        self.levels.len()
    }
}
