//! Bytes between tokens: brackets, commas, colons and blanks, and the first bytes of tokens.

ghost use Rattle.std.specs.Prelude.{◌≡◌, ◌≢◌, [], ℕ, List, ◌+◌, IfOk, OnOk, OnErr, IfSome, IsTrue, not, true, false};
ghost use Rattle.std.specs.Prelude.{◌⊎◌};
ghost use Rattle.std.specs.Prelude.{drop};
ghost use Rattle.json_machine.specs.Machines.{state_of, mode_of, levels_of, answer_of, IsSound, SameMachine};
ghost use Rattle.json_machine.specs.Machines.{IsAtMostOne, AnswerNear};
ghost use Rattle.json_grammar.specs.laws.Machine as machine;
ghost use Rattle.json_grammar.specs.laws.Machine.{step, value_step, after_step, go};

use crate::characters::is_blank;
use crate::literal_token::Begun;
use crate::machine::{Machine, Mode};
use crate::phase::Phase;
use crate::raw_event::{Answer, RawEvent};
use crate::within::Within;
use std::alloc::AllocError;

impl Machine {
    /// The byte at k, where a value is wanted.
    #[tactic(auto, using(crate::proofs::Levels::pushed), unfolding(json_grammar::specs::laws::Machine::value_step))]
    pub(crate) fn value_step(&mut self, k: u64, byte: u8) -> Result<Answer, AllocError>
        requires { self.old.token.items ≡ [] }
        ensures sound { IsSound k self.old → OnOk result (IsSound (k + 1) self.new) }
        ensures near { IfOk result (λ a. AnswerNear k a) }
        ensures kept { OnErr result (SameMachine self.old self.new) }
        ensures moves { IfOk result (λ a. value_step k (levels_of self.old.levels.items) byte
            ≡ answer_of a (state_of self.new)) }
    {
        match byte {
            b'[' => {
                self.levels.push(false)?;
                self.mode = Mode::First;
                return Ok(Answer::One(RawEvent::Begin(k, false)));
            }
            b'{' => {
                self.levels.push(true)?;
                self.mode = Mode::FirstKey;
                return Ok(Answer::One(RawEvent::Begin(k, true)));
            }
            b'"' => self.mode = Mode::Str(false, Within::Plain),
            b'-' => {
                self.token.push(byte)?;
                self.mode = Mode::Number(Phase::Minus);
            }
            b'0' => {
                self.token.push(byte)?;
                self.mode = Mode::Number(Phase::LoneZero);
            }
            b'1'..=b'9' => {
                self.token.push(byte)?;
                self.mode = Mode::Number(Phase::Whole);
            }
            b'n' => self.mode = Mode::Literal(Begun::N),
            b't' => self.mode = Mode::Literal(Begun::T),
            b'f' => self.mode = Mode::Literal(Begun::F),
            _ => return Ok(Answer::Refused),
        }
        self.at = k;
        Ok(Answer::Quiet)
    }

    /// The byte at k, after a value.
    #[tactic(auto, using(crate::proofs::Levels::levels), unfolding(json_grammar::specs::laws::Machine::after_step))]
    pub(crate) fn after_step(&mut self, k: u64, byte: u8) -> Answer
        ensures moves { after_step k (levels_of self.old.levels.items) byte
            ≡ answer_of result (state_of self.new) }
        ensures token { self.new.token ≡ self.old.token }
        ensures short { IsAtMostOne result }
        ensures sound { self.old.token.items ≡ [] → IsSound k self.old → IsSound (k + 1) self.new }
        ensures near { AnswerNear k result }
    {
        if is_blank(byte) {
            self.mode = Mode::After;
            return Answer::Quiet;
        }
        match self.levels.last() {
            None => Answer::Refused,
            Some(false) => match byte {
                b',' => {
                    self.mode = Mode::Want;
                    Answer::Quiet
                }
                b']' => self.close(k),
                _ => Answer::Refused,
            },
            Some(true) => match byte {
                b',' => {
                    self.mode = Mode::NextKey;
                    Answer::Quiet
                }
                b'}' => self.close(k),
                _ => Answer::Refused,
            },
        }
    }

    pub(crate) fn close(&mut self, k: u64) -> Answer
        ensures moves { machine.close k (levels_of self.old.levels.items)
            ≡ answer_of result (state_of self.new) }
        ensures token { self.new.token ≡ self.old.token }
        ensures short { IsAtMostOne result }
        ensures sound { self.old.token.items ≡ [] → IsSound k self.old → IsSound (k + 1) self.new }
        ensures near { AnswerNear k result }
    {
        self.leave();
        Answer::One(RawEvent::Finish(k))
    }

    /// Goes out of the innermost that is open.
    #[tactic(auto, using(crate::proofs::Levels::levels))]
    pub(crate) fn leave(&mut self)
        ensures state { state_of self.new ≡ machine.st (drop 1 (levels_of self.old.levels.items)) machine.Mode.after }
        ensures mode { self.new.mode ≡ Mode.After }
        ensures token { self.new.token ≡ self.old.token }
    {
        self.levels.pop();
        self.mode = Mode::After;
    }

    /// A byte between tokens that tells nothing: a comma or colon, as by `pass_separator`, or the quote before a key.
    /// It is a shorter way than `step`. False: the byte is left to that.
    #[tactic(auto, using(crate::proofs::Levels::levels), unfolding(json_grammar::specs::laws::Machine::step, json_grammar::specs::laws::Machine::after_step))]
    #[inline]
    pub fn pass_between(&mut self, k: u64, byte: u8) -> bool
        requires { IsSound k self.old }
        ensures moves { IsTrue result → step k (state_of self.old).levels (state_of self.old).mode byte
            ≡ go (state_of self.new).levels (state_of self.new).mode }
        ensures sound { IsTrue result → IsSound (k + 1) self.new }
        ensures levels { self.new.levels ≡ self.old.levels }
        ensures left { result ≡ false → self.new ≡ self.old }
    {
        match self.mode {
            Mode::FirstKey | Mode::NextKey if byte == b'"' => {
                self.at = k;
                self.mode = Mode::Str(true, Within::Plain);
                true
            }
            _ => self.pass_separator(k, byte),
        }
    }

    /// The comma behind a value that stands in a list or an object, or the colon behind a key: bytes that tell nothing.
    /// False: the byte is left to `step`.
    #[tactic(auto, using(crate::proofs::Levels::levels), unfolding(json_grammar::specs::laws::Machine::step, json_grammar::specs::laws::Machine::after_step))]
    #[inline]
    pub fn pass_separator(&mut self, k: u64, byte: u8) -> bool
        requires { IsSound k self.old }
        ensures moves { IsTrue result → step k (state_of self.old).levels (state_of self.old).mode byte
            ≡ go (state_of self.new).levels (state_of self.new).mode }
        ensures sound { IsTrue result → IsSound (k + 1) self.new }
        ensures levels { self.new.levels ≡ self.old.levels }
        ensures left { result ≡ false → self.new ≡ self.old }
    {
        match self.mode {
            Mode::After if byte == b',' => match self.levels.last() {
                None => false,
                Some(false) => {
                    self.mode = Mode::Want;
                    true
                }
                Some(true) => {
                    self.mode = Mode::NextKey;
                    true
                }
            },
            Mode::Colon if byte == b':' => {
                self.mode = Mode::Want;
                true
            }
            _ => false,
        }
    }

    /// The byte at k, where a key or a blank comes.
    pub(crate) fn key_step(&mut self, k: u64, byte: u8) -> Answer
        requires { self.old.token.items ≡ [] }
        ensures blank { IsTrue (machine.is_blank byte) → (result ≡ Answer.Quiet) × (self.new ≡ self.old) }
        ensures quote { byte ≡ 34 → (result ≡ Answer.Quiet) × (state_of self.new
            ≡ machine.st (levels_of self.old.levels.items) (machine.string true k [] machine.Within.plain)) }
        ensures other { IsTrue (not (machine.is_blank byte)) → byte ≢ 34 → result ≡ Answer.Refused }
        ensures sound { IsSound k self.old → IsSound (k + 1) self.new }
    {
        if is_blank(byte) {
            return Answer::Quiet;
        }
        if byte != b'"' {
            return Answer::Refused;
        }
        self.at = k;
        self.mode = Mode::Str(true, Within::Plain);
        Answer::Quiet
    }

    pub(crate) fn may_begin_value(&self) -> bool
        ensures { IsTrue result → (self.now.mode ≡ Mode.Want) ⊎ (self.now.mode ≡ Mode.First) }
    {
        matches!(self.mode, Mode::Want | Mode::First)
    }

    /// The mode behind a comma that follows a value; none outside all brackets.
    #[tactic(auto, using(crate::proofs::Levels::levels), unfolding(json_grammar::specs::laws::Machine::after_step))]
    pub(crate) fn behind_comma(&self) -> Option<Mode>
        ensures moves { IfSome result (λ mode. (k at : ℕ) (token : List ℕ) →
            after_step k (levels_of self.now.levels.items) 44
            ≡ go (levels_of self.now.levels.items) (mode_of mode at token)) }
        ensures between { IfSome result (λ mode. (mode ≡ Mode.Want) ⊎ (mode ≡ Mode.NextKey)) }
    {
        match self.levels.last() {
            None => None,
            Some(false) => Some(Mode::Want),
            Some(true) => Some(Mode::NextKey),
        }
    }
}
