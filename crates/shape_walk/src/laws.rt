//! A law of the definitions. The function does nothing: the contract is the law.

ghost use Rattle.std.specs.Prelude.{ℕ, ℤ, List};
ghost use Rattle.instance_model.specs.declared.limits.Limits.{Limits};
ghost use Rattle.instance_shape.specs.FileFaults.{HaveSomeAnswer};

/// The bytes of every file stand for an instance, or have a fault that counts; by `files_have_one_answer` of
/// instance_shape there is one answer alone. The law is proved here since the fault of shape that counts is found along
/// the events of the text.
pub fn files_have_some_answer()
    ensures { (limits : Limits) (slack : ℤ) (bytes : List ℕ) → HaveSomeAnswer limits slack bytes }
{}
