//! Bytes of `null`, `true` and `false`.

ghost use Rattle.std.specs.Prelude.{◌≡◌, ℕ, ◌+◌};
ghost use Rattle.json_machine.specs.Machines.{state_of, levels_of, answer_of, begun_of, IsSound, AnswerNear};
ghost use Rattle.json_grammar.specs.laws.Machine.{step};

use crate::machine::{Machine, Mode};
use crate::raw_event::{Answer, RawEvent};

/// What has come of `null`, `true` or `false`.
#[derive(Clone, Copy, Drop)]
pub enum Begun {
    N,
    Nu,
    Nul,
    T,
    Tr,
    Tru,
    F,
    Fa,
    Fal,
    Fals,
}

impl Machine {
    /// The byte behind those of a word.
    #[tactic(auto, unfolding(json_grammar::specs::laws::Machine::step))]
    pub(crate) fn literal_step(&mut self, byte: u8, begun: Begun) -> Answer
        requires mode { self.old.mode ≡ Mode.Literal begun }
        ensures moves { (k : ℕ) → step k (levels_of self.old.levels.items) (begun_of begun self.old.at) byte
            ≡ answer_of result (state_of self.new) }
        ensures token { self.new.token ≡ self.old.token }
        ensures sound { (k : ℕ) → IsSound k self.old → IsSound (k + 1) self.new }
        ensures near { (k : ℕ) → IsSound k self.old → AnswerNear k result }
    {
        let next = match begun {
            Begun::N if byte == b'u' => Begun::Nu,
            Begun::Nu if byte == b'l' => Begun::Nul,
            Begun::T if byte == b'r' => Begun::Tr,
            Begun::Tr if byte == b'u' => Begun::Tru,
            Begun::F if byte == b'a' => Begun::Fa,
            Begun::Fa if byte == b'l' => Begun::Fal,
            Begun::Fal if byte == b's' => Begun::Fals,
            Begun::Nul if byte == b'l' => {
                self.mode = Mode::After;
                return Answer::One(RawEvent::Null(self.at));
            }
            Begun::Tru if byte == b'e' => {
                self.mode = Mode::After;
                return Answer::One(RawEvent::Bool(self.at, true));
            }
            Begun::Fals if byte == b'e' => {
                self.mode = Mode::After;
                return Answer::One(RawEvent::Bool(self.at, false));
            }
            _ => return Answer::Refused,
        };
        self.mode = Mode::Literal(next);
        Answer::Quiet
    }
}
