//! The text of the rolled instance is written, and its length.
ghost use Rattle.std.specs.Prelude.{◌≡◌, ℕ, List, Option, length, IsTrue};
ghost use Rattle.plan_desk.specs.Written.{WritesText};
ghost use Rattle.plan_roll.specs.Laws.{RollsPlan};
ghost use Rattle.plan_roll.specs.Texts.{rolled_text, HasSmallBands, TextIsRead, TextIsReadAgain};

use crate::laws::{plans_roll, rolled_text_is_read};
use crate::view::Rolled;
use instance_model::Instance;
use instance_writer::{
    decimals_spell_numbers, instance_length, names_are_spellable, texts_are_read, write_instance,
};
use plan_desk::{Desk, Failed};

/// How many bytes the text of the rolled instance has. Takes no memory.
#[tactic(auto, unfolding(crate::specs::Texts::rolled_text))]
pub fn rolled_length(inst: &Instance, plan: &[Option<u32>], period: u32) -> u64
    requires { length plan.now ≡ length inst.now.names }
    ensures { result ≡ length (rolled_text inst.now plan.now period) }
{
    inst.fits();
    instance_length(&Rolled { inst, plan, period })
}

/// Writes the text of the rolled instance to the end of the file that is open, in one pass. Takes no memory.
///
/// Where no band limit reaches 10^20 in absolute value, the text is read as the rolled instance (`read`); the bands of
/// an instance that was read without a slack are such (`read_again`). A plan of the rolled one is feasible exactly
/// where it is feasible for the instance and goes on with the plan so far, with the same score (`plans`).
#[tactic(auto, unfolding(crate::specs::Texts::rolled_text))]
pub fn write_rolled<D: Desk>(
    inst: &Instance,
    plan: &[Option<u32>],
    period: u32,
    desk: &mut D,
) -> Result<(), Failed>
    requires each { length plan.now ≡ length inst.now.names }
    requires opened { IsTrue (D.shows desk.old).output.opened }
    ensures text { WritesText (rolled_text inst.now plan.now period) (D.shows desk.old) (D.shows desk.new) result }
    ensures read { HasSmallBands inst.now → TextIsRead inst.now plan.now period }
    ensures read_again { TextIsReadAgain inst.now plan.now period }
    ensures plans { (new : List (Option ℕ)) → RollsPlan inst.now plan.now period new }
{
    inst.fits();
    names_are_spellable(inst);
    texts_are_read();
    decimals_spell_numbers();
    rolled_text_is_read();
    plans_roll();
    write_instance(&Rolled { inst, plan, period }, desk)
}
