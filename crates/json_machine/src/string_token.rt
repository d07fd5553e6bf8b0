//! Bytes of strings.

ghost use Rattle.std.specs.Prelude.{◌≡◌, ◌++◌, IfOk, OnOk, OnErr, ◌+◌, ◌<◌, ◌^◌};
ghost use Rattle.json_machine.specs.Machines.{state_of, levels_of, answer_of, IsSound, SameMachine, AnswerNear};
ghost use Rattle.json_machine.specs.Views.{Holds, within_of, bytes_of};
ghost use Rattle.json_grammar.specs.laws.Machine as machine;
ghost use Rattle.json_grammar.specs.laws.Machine.{step};

use crate::machine::{Machine, Mode};
use crate::raw_event::{Answer, RawEvent};
use crate::within::{Told, Within};
use std::alloc::{AllocError, Global};

impl Machine {
    /// The byte at k, in a string.
    #[tactic(auto, unfolding(json_grammar::specs::laws::Machine::step))]
    pub(crate) fn string_step(
        &mut self,
        alloc: Global,
        k: u64,
        byte: u8,
        is_key: bool,
        within: Within,
    ) -> Result<Answer, AllocError>
        requires mode { self.old.mode ≡ Mode.Str is_key within }
        requires holds { Holds within }
        requires near { self.old.at < k }
        requires room { k + 1 < 2 ^ 64 }
        ensures moves { IfOk result
            (λ a. step k (levels_of self.old.levels.items)
            (machine.string is_key self.old.at self.old.token.items (within_of within)) byte
            ≡ answer_of a (state_of self.new)) }
        ensures sound { OnOk result (IsSound (k + 1) self.new) }
        ensures near { IfOk result (λ a. AnswerNear k a) }
        ensures kept { OnErr result (SameMachine self.old self.new) }
    {
        if within.may_close() && byte == b'"' {
            let text = Vec::from_slice(alloc, self.token.as_slice())?;
            self.token.clear();
            if is_key {
                self.mode = Mode::Colon;
                return Ok(Answer::One(RawEvent::Key(self.at, k + 1, text)));
            }
            self.mode = Mode::After;
            return Ok(Answer::One(RawEvent::Text(self.at, k + 1, text)));
        }
        match within.step(byte) {
            None => Ok(Answer::Refused),
            Some((next, told)) => {
                push_told(&mut self.token, told)?;
                self.mode = Mode::Str(is_key, next);
                Ok(Answer::Quiet)
            }
        }
    }
}

/// Adds what was told.
fn push_told(text: &mut Vec<u8>, told: Told) -> Result<(), AllocError>
    ensures added { OnOk result (text.new.items ≡ text.old.items ++ bytes_of told) }
    ensures kept { OnErr result (text.new.items ≡ text.old.items) }
{
    match told {
        Told::Nothing => {}
        Told::Byte(byte) => text.push(byte)?,
        Told::Character(c) => {
            let mut buffer = [0; 4];
            let bytes = c.encode_utf8(&mut buffer).as_bytes();
            text.extend_from_slice(bytes)?;
        }
    }
    Ok(())
}
