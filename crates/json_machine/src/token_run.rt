//! Runs of bytes that only lengthen a token, and runs of blanks.

ghost use Rattle.std.specs.Prelude.{◌≡◌, [], ◌++◌, Ok, false, true, Some, ℕ, ◌+◌, ◌≤◌, length, take, IfOk, OnOk, OnErr};
ghost use Rattle.json_machine.specs.Machines.{state_of, IsSound, SameMachine};
ghost use Rattle.json_grammar.specs.laws.Machine as machine;
ghost use Rattle.json_grammar.specs.laws.Machine.{step, run};

use crate::characters::{blank_count, is_plain, plain_count};
use crate::machine::{Machine, Mode};
use crate::within::Within;
use json_grammar::digit_count;
use std::alloc::AllocError;

impl Machine {
    /// A byte within a token of which nothing is told yet: the way of most bytes. False: it is left to `step`.
    #[tactic(auto, unfolding(json_grammar::specs::laws::Machine::step))]
    #[inline]
    pub fn quiet_step(&mut self, k: u64, byte: u8) -> Result<bool, AllocError>
        requires sound { IsSound k self.old }
        ensures moves { result ≡ Ok true → step k (state_of self.old).levels (state_of self.old).mode byte
            ≡ machine.go (state_of self.new).levels (state_of self.new).mode }
        ensures sound { result ≡ Ok true → IsSound (k + 1) self.new }
        ensures left { result ≡ Ok false → self.new ≡ self.old }
        ensures kept { OnErr result (SameMachine self.old self.new) }
    {
        match self.mode {
            Mode::Number(phase) => match phase.step(byte) {
                Some(next) => {
                    self.token.push(byte)?;
                    self.mode = Mode::Number(next);
                    Ok(true)
                }
                None => Ok(false),
            },
            Mode::Str(_, within) => match within {
                Within::Plain if is_plain(byte) => {
                    self.token.push(byte)?;
                    Ok(true)
                }
                _ => Ok(false),
            },
            _ => Ok(false),
        }
    }

    /// Takes the bytes in front that only lengthen a token, digits of a number or plain characters of a string, or the
    /// blanks in front, and answers how many it took. It may take fewer than there are: what `step` does with each, it
    /// does faster.
    pub fn take_run(&mut self, bytes: &[u8]) -> Result<usize, AllocError>
        ensures within { IfOk result (λ n. n ≤ length bytes.now) }
        ensures moves { IfOk result
            (λ n. (k : ℕ) → run k (state_of self.old) (take n bytes.now) ≡ Some (state_of self.new, [])) }
        ensures sound { IfOk result (λ n. (k : ℕ) → IsSound k self.old → IsSound (k + n) self.new) }
        ensures kept { OnErr result (SameMachine self.old self.new) }
    {
        match self.mode {
            Mode::Number(phase) if phase.is_within_digits() => {
                self.lengthen_token(&bytes[..digit_count(bytes)])
            }
            Mode::Str(_, within) if within.may_close() => {
                self.lengthen_token(&bytes[..plain_count(bytes)])
            }
            Mode::Number(_) | Mode::Str(_, _) | Mode::Literal(_) => Ok(0),
            _ => Ok(blank_count(bytes)),
        }
    }

    fn lengthen_token(&mut self, bytes: &[u8]) -> Result<usize, AllocError>
        ensures count { IfOk result (λ n. n ≡ length bytes.now) }
        ensures moves { OnOk result (self.new.token.items ≡ self.old.token.items ++ bytes.now) }
        ensures kept { OnErr result (self.new.token.items ≡ self.old.token.items) }
        ensures levels { self.new.levels ≡ self.old.levels }
        ensures mode { self.new.mode ≡ self.old.mode }
        ensures at { self.new.at ≡ self.old.at }
    {
        self.token.extend_from_slice(bytes)?;
        Ok(bytes.len())
    }
}
