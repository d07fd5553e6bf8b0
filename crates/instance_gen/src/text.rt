//! The text of the drawn instance.

ghost use Rattle.std.specs.Prelude.{◌≡◌, ◌≤◌, IfOk};
ghost use Rattle.instance_gen.specs.Texts.{drawn_text};

use crate::laws::drawn_texts_are_read;
use crate::numerals::PlainNumbers;
use crate::parts::drawn_instance;
use instance_writer::{FullInstance, instance_bytes};
use json_grammar::{Text, text_is_utf8};
use std::alloc::{AllocError, Global};

/// The text of the instance of `n` interventions, from 1 to 200, that is drawn from `seed`. Fails only where memory is
/// refused.
pub fn generate(alloc: Global, seed: u64, n: u32) -> Result<Text, AllocError>
    requires some { 1 ≤ n }
    requires few { n ≤ 200 }
    ensures text { IfOk result (λ text. text ≡ drawn_text seed n) }
{
    drawn_texts_are_read();
    text_is_utf8();
    let inst = drawn_instance(alloc, seed, n)?;
    let full = FullInstance::new(&inst);
    let bytes = instance_bytes::<_, PlainNumbers>(alloc, &full)?;
    Ok(Text::of_bytes(bytes))
}
