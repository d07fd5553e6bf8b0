//! Keys that stand whole in a buffer.

ghost use Rattle.std.specs.Prelude.{◌≡◌, ℕ, ◌+◌, ◌<◌, ◌^◌, ◌⊎◌, Ok, None, length, IfOk, OnErr, IfSome, IsSome};
ghost use Rattle.std.specs.Prelude.{IsTrue, drop, false, take};
ghost use Rattle.json_grammar.specs.Tree as json;
ghost use Rattle.json_machine.specs.Machines.{state_of, event_of, IsSound};
ghost use Rattle.json_machine.specs.NumberRuns.{IsWholeKey, TakesNumber};

use crate::characters::plain_count;
use crate::machine::{Machine, Mode};
use crate::number_token::TakenToken;
use crate::raw_event::RawEvent;
use std::alloc::{AllocError, Global};

impl Machine {
    /// Takes a key in front and its closing quote, where a key may come and all its characters are plain. `None`: the
    /// bytes are left to `step`.
    pub(crate) fn take_key(
        &mut self,
        alloc: Global,
        k: u64,
        bytes: &[u8],
    ) -> Result<Option<TakenToken>, AllocError>
        requires sound { IsSound k self.old }
        requires mode { (self.old.mode ≡ Mode.FirstKey) ⊎ (self.old.mode ≡ Mode.NextKey) }
        requires room { k + length bytes.now < 2 ^ 64 }
        ensures takes { IfOk result (λ taken. IfSome taken (λ token.
            TakesNumber k (state_of self.old) bytes.now token.length (event_of token.event) (state_of self.new))) }
        ensures sound { (i : ℕ) → IfOk result (λ taken. IsSome taken → IsSound i self.new) }
        ensures left { result ≡ Ok None → self.new ≡ self.old }
        ensures kept { OnErr result (self.new ≡ self.old) }
    {
        if bytes.is_empty() || bytes[0] != b'"' {
            return Ok(None);
        }
        let count = plain_count(&bytes[1..]);
        if 1 + count >= bytes.len() || bytes[1 + count] != b'"' {
            return Ok(None);
        }
        let text = Vec::from_slice(alloc, &bytes[1..1 + count])?;
        self.mode = Mode::Colon;
        Ok(Some(TakenToken {
            length: 1 + count,
            event: RawEvent::Key(k, k + (count as u64 + 2), text),
        }))
    }

    /// Takes a key in front, of so many characters, where a key may come, and tells no event of it: the caller knows
    /// the key. False: nothing is taken.
    #[inline]
    pub fn pass_key(&mut self, bytes: &[u8], count: usize) -> bool
        requires { IsWholeKey bytes.now count }
        ensures takes { (k : ℕ) → IsTrue result → TakesNumber k (state_of self.old) bytes.now (1 + count)
            (json.key k (k + (count + 2)) (take count (drop 1 bytes.now))) (state_of self.new) }
        ensures sound { (k i : ℕ) → IsSound k self.old → IsTrue result → IsSound i self.new }
        ensures waits { IsTrue result → (self.old.mode ≡ Mode.FirstKey) ⊎ (self.old.mode ≡ Mode.NextKey) }
        ensures left { result ≡ false → self.new ≡ self.old }
    {
        if !matches!(self.mode, Mode::FirstKey | Mode::NextKey) {
            return false;
        }
        self.mode = Mode::Colon;
        true
    }
}
