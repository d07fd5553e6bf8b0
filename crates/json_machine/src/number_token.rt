//! Bytes of numbers, one by one, and numbers that stand whole in a buffer.

ghost use Rattle.std.specs.Prelude.{◌≡◌, ℕ, ◌+◌, ◌≤◌, Ok, None, false, IfOk, OnOk, OnErr, IfSome, IsSome, IsTrue, ◌⊎◌};
ghost use Rattle.std.specs.Prelude.{vec_len, take, drop, length, ◌<◌, ◌^◌};
ghost use Rattle.json_machine.specs.Machines.{state_of, levels_of, answer_of, event_of, IsSound, SameMachine};
ghost use Rattle.json_machine.specs.Machines.{AnswerNear};
ghost use Rattle.json_machine.specs.Views.{phase_of};
ghost use Rattle.json_machine.specs.NumberRuns.{TakesNumber, IsBeforeComma, AwaitsItem};
ghost use Rattle.json_grammar.specs.laws.Machine as machine;
ghost use Rattle.json_grammar.specs.laws.Machine.{step};
ghost use Rattle.json_grammar.specs.Tree as json;

use crate::machine::{Machine, Mode};
use crate::number_run::number_run;
use crate::phase::Phase;
use crate::raw_event::{Answer, RawEvent, joined};
use json_grammar::Token;
use std::alloc::{AllocError, Global};

/// A token that stands whole in a buffer: how many bytes stand before the one that tells it, and its event.
#[derive(Drop)]
pub struct TakenToken {
    pub length: usize,
    pub event: RawEvent,
}

impl Machine {
    /// The byte at k, behind the bytes of a number.
    #[tactic(auto, unfolding(json_grammar::specs::laws::Machine::step))]
    pub(crate) fn number_step(
        &mut self,
        alloc: Global,
        k: u64,
        byte: u8,
        phase: Phase,
    ) -> Result<Answer, AllocError>
        requires mode { self.old.mode ≡ Mode.Number phase }
        requires near { self.old.at + vec_len self.old.token ≤ k }
        ensures sound { OnOk result (IsSound (k + 1) self.new) }
        ensures near { IfOk result (λ a. AnswerNear k a) }
        ensures moves { IfOk result
            (λ a. step k (levels_of self.old.levels.items)
            (machine.number self.old.at self.old.token.items (phase_of phase)) byte
            ≡ answer_of a (state_of self.new)) }
        ensures kept { OnErr result (SameMachine self.old self.new) }
    {
        if let Some(next) = phase.step(byte) {
            self.token.push(byte)?;
            self.mode = Mode::Number(next);
            return Ok(Answer::Quiet);
        }
        if !phase.may_end() {
            return Ok(Answer::Refused);
        }
        let number = RawEvent::Num(self.at, Token::from_slice(alloc, self.token.as_slice())?);
        self.token.clear();
        Ok(joined(number, self.after_step(k, byte)))
    }

    /// Takes a number in front and the comma behind it, or a key in front and its closing quote, where either may come
    /// and stands whole. It is the way of most tokens; `None`: the bytes are left to `step`.
    pub fn take_whole(
        &mut self,
        alloc: Global,
        k: u64,
        bytes: &[u8],
    ) -> Result<Option<TakenToken>, AllocError>
        requires sound { IsSound k self.old }
        requires room { k + length bytes.now < 2 ^ 64 }
        ensures takes { IfOk result (λ taken. IfSome taken (λ token.
            TakesNumber k (state_of self.old) bytes.now token.length (event_of token.event) (state_of self.new))) }
        ensures sound { (i : ℕ) → IfOk result (λ taken. IsSome taken → IsSound i self.new) }
        ensures left { result ≡ Ok None → self.new ≡ self.old }
        ensures kept { OnErr result (self.new ≡ self.old) }
    {
        match self.mode {
            Mode::FirstKey | Mode::NextKey => self.take_key(alloc, k, bytes),
            _ => self.take_number(alloc, k, bytes),
        }
    }

    /// Takes a number in front and the comma behind it, where a value may come and the comma is there. `None`: the
    /// bytes are left to `step`.
    fn take_number(
        &mut self,
        alloc: Global,
        k: u64,
        bytes: &[u8],
    ) -> Result<Option<TakenToken>, AllocError>
        requires { IsSound k self.old }
        ensures takes { IfOk result (λ taken. IfSome taken (λ number.
            TakesNumber k (state_of self.old) bytes.now number.length (event_of number.event) (state_of self.new))) }
        ensures sound { (i : ℕ) → IfOk result (λ taken. IsSome taken → IsSound i self.new) }
        ensures left { result ≡ Ok None → self.new ≡ self.old }
        ensures kept { OnErr result (self.new ≡ self.old) }
    {
        if !self.may_begin_value() {
            return Ok(None);
        }
        let Some(behind) = self.behind_comma() else {
            return Ok(None);
        };
        let Some(run) = number_run(bytes) else {
            return Ok(None);
        };
        if run.length == bytes.len() || bytes[run.length] != b',' {
            return Ok(None);
        }
        let token = Token::from_slice(alloc, &bytes[..run.length])?;
        self.mode = behind;
        Ok(Some(TakenToken {
            length: run.length,
            event: RawEvent::Num(k, token),
        }))
    }

    /// Takes a number in front and the comma behind it, where a value may come and the comma too, and tells no event of
    /// it: the caller knows the number. False: nothing is taken.
    #[inline]
    pub fn pass_number(&mut self, bytes: &[u8], length: usize) -> bool
        requires { IsBeforeComma bytes.now length }
        ensures takes { (k : ℕ) → IsTrue result → TakesNumber k (state_of self.old) bytes.now length
            (json.Event.number k (take length bytes.now)) (state_of self.new) }
        ensures sound { (k i : ℕ) → IsSound k self.old → IsTrue result → IsSound i self.new }
        ensures waits { IsTrue result → (self.old.mode ≡ Mode.Want) ⊎ (self.old.mode ≡ Mode.First) }
        ensures left { result ≡ false → self.new ≡ self.old }
    {
        if !self.may_begin_value() {
            return false;
        }
        let Some(behind) = self.behind_comma() else {
            return false;
        };
        self.mode = behind;
        true
    }

    /// Whether a value may come next, and the innermost that is open is a list. `false` says nothing.
    #[inline]
    pub fn awaits_item(&self) -> bool
        ensures { IsTrue result → AwaitsItem self.now }
    {
        self.may_begin_value() && matches!(self.behind_comma(), Some(Mode::Want))
    }

    /// Takes it that items of a list have come up to the comma behind the last, and tells no event of them: the caller
    /// knows them.
    #[inline]
    pub fn pass_items(&mut self)
        requires { AwaitsItem self.old }
        ensures state { state_of self.new ≡ machine.st (levels_of self.old.levels.items) machine.Mode.want }
        ensures sound { (k i : ℕ) → IsSound k self.old → IsSound i self.new }
    {
        self.mode = Mode::Want;
    }

    /// Takes it that the last item of a list has come and the bracket behind it, and tells no event of them: the caller
    /// knows them.
    #[inline]
    pub fn pass_last(&mut self)
        requires { AwaitsItem self.old }
        ensures state { state_of self.new ≡ machine.st (drop 1 (levels_of self.old.levels.items)) machine.Mode.after }
        ensures sound { (k i : ℕ) → IsSound k self.old → IsSound i self.new }
    {
        self.leave();
    }
}
