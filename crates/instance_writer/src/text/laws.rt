//! Laws of the text of an instance. The functions do nothing: the contract is the law.

ghost use Rattle.std.specs.Prelude.{◌^◌, ℕ, ◌<◌, ◌≤◌, ℤ, All, unsigned_abs};
ghost use Rattle.instance_model.specs.Fitting.{IsFitting};
ghost use Rattle.instance_model.specs.Tables.{Tables};
ghost use Rattle.instance_model.specs.declared.limits.Limits.{Limits};
ghost use Rattle.instance_shape.specs.Defined.{Defines};
ghost use Rattle.instance_writer.specs.text.Conditions.{HasSpellableNames, IsUnrounded, IsWithin, SpellsCount};
ghost use Rattle.instance_writer.specs.text.Conditions.{SpellsNumbers};
ghost use Rattle.instance_writer.specs.text.Conditions.{SpellsPart, widened};
ghost use Rattle.instance_writer.specs.text.Styles.{Style, decimals};
ghost use Rattle.instance_writer.specs.text.Written.{instance_text};

use json_grammar::spelled_is_read;

/// The text of an instance without rounded numbers and within the limits is read as that instance, for each style that
/// spells its numbers. What is read has its bands widened by the slack that it is read with.
pub fn texts_are_read()
    ensures { (style : Style) (limits : Limits) (slack : ℤ) (inst : Tables)
        → IsFitting inst
        → IsUnrounded inst
        → IsWithin limits inst
        → SpellsNumbers style inst
        → HasSpellableNames inst
        → Defines limits slack (instance_text style inst) (widened slack inst) }
{
    spelled_is_read();
}

/// 12 decimals spell each count below 10^20 in absolute value, and 6 decimals each number of millionths up to 1.
pub fn counts_have_decimals()
    ensures counts { (z : ℤ) → unsigned_abs z < 10 ^ 20 → SpellsCount decimals z }
    ensures parts { (m : ℕ) → m ≤ 1_000_000 → SpellsPart decimals m }
{}

/// They spell the numbers of each instance whose bands are below 10^20 in absolute value.
pub fn decimals_spell_numbers()
    ensures { (inst : Tables)
        → IsFitting inst
        → All (λ z. unsigned_abs z < 10 ^ 20) inst.upper
        → All (λ z. unsigned_abs z < 10 ^ 20) inst.lower
        → SpellsNumbers decimals inst }
{}
