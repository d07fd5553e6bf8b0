//! Laws of the definitions. The functions do nothing: the contract is the law.
ghost use Rattle.plan_roll.specs.Laws.{RolledTablesFit, PlansRoll};
ghost use Rattle.plan_roll.specs.Texts.{RolledTextIsRead};

use instance_writer::{decimals_spell_numbers, texts_are_read};

/// The rolled tables are those of an instance.
pub fn rolled_tables_fit()
    ensures { RolledTablesFit }
{}

/// A plan is feasible for the rolled instance exactly where it is feasible for the instance, gives each kept
/// intervention its start and each other one a start in the period or later; and then its values are the same.
pub fn plans_roll()
    ensures { PlansRoll }
{}

/// Where bytes define an instance without a slack, the text of its rolled one defines, with each slack, the rolled one
/// of what the bytes define with that slack. The limits are the same.
pub fn rolled_text_is_read()
    ensures { RolledTextIsRead }
{
    texts_are_read();
    decimals_spell_numbers();
}
