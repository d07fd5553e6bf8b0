//! Laws of drawn instances. The functions do nothing: the contract is the law.

ghost use Rattle.std.specs.Prelude.{◌≡◌, ℕ, ◌<◌, ◌≤◌, pos, length, IsTrue};
ghost use Rattle.instance_model.specs.Limits.{standard_limits};
ghost use Rattle.instance_model.specs.Tables.{is_allowed, tmax};
ghost use Rattle.instance_shape.specs.Defined.{Defines};
ghost use Rattle.instance_gen.specs.Drawn.{drawn_tables};
ghost use Rattle.instance_gen.specs.Texts.{drawn_text};

use instance_writer::texts_are_read;

/// The text of a drawn instance is read, without slack and within the standard limits, as this instance.
pub fn drawn_texts_are_read()
    ensures { (seed n : ℕ) → 1 ≤ n → n ≤ 200
        → Defines standard_limits (pos 0) (drawn_text seed n) (drawn_tables seed n) }
{
    texts_are_read();
}

/// Each of the interventions has 50 starts, and may start at each of them.
pub fn starts_are_allowed()
    ensures names { (seed n : ℕ) → length (drawn_tables seed n).names ≡ n }
    ensures starts { (seed n i : ℕ) → i < n → tmax (drawn_tables seed n) i ≡ 50 }
    ensures allowed { (seed n i s : ℕ) → i < n → 1 ≤ s → s ≤ 50 → IsTrue (is_allowed (drawn_tables seed n) i s) }
{}
