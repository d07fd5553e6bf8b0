//! Laws of the definitions. The functions do nothing: the contract is the law.

ghost use Rattle.std.specs.Prelude.{ℕ, ◌-◌, ◌^◌, ◌≤◌, ℤ, List};
ghost use Rattle.json_grammar.specs.Tree.{Tree};
ghost use Rattle.instance_model.specs.Exact.{IsReading};
ghost use Rattle.instance_model.specs.Fitting.{IsFitting};
ghost use Rattle.instance_model.specs.Tables.{Tables};
ghost use Rattle.instance_model.specs.declared.limits.Limits.{Limits};
ghost use Rattle.instance_shape.specs.Defined.{Defines, IsTreeOf};
ghost use Rattle.instance_shape.specs.FileFaults.{HaveOneAnswer};
ghost use Rattle.instance_shape.specs.OwnNumbers.{AreOwnNumbers, HasOwnNumbers};
ghost use Rattle.instance_shape.specs.Ranges.{AreStandard, IsSlack};

/// The bytes of a file stand for at most one instance, and have at most one fault that counts, and not both.
pub fn files_have_one_answer()
    ensures { (limits : Limits) (slack : ℤ) (bytes : List ℕ) → HaveOneAnswer limits slack bytes }
{}

/// The tables that a file defines are those of an instance, for limits of which none is above the standard one and a
/// slack from 0 to 10^-3.
pub fn defined_tables_fit()
    ensures { (limits : Limits) (slack : ℤ) (bytes : List ℕ) (inst : Tables)
        → AreStandard limits
        → IsSlack slack
        → Defines limits slack bytes inst
        → IsFitting inst }
{}

/// The risk numbers of a file, as they are written, are a reading of the instance that it defines:
/// where each of them is a whole multiple of 10^-places, for places of at least 12, these multiples are
/// one, of which 10^(places - 12) make one count.
pub fn own_numbers_are_a_reading()
    ensures { (limits : Limits) (slack : ℤ) (bytes : List ℕ) (inst : Tables) (root : Tree)
        (places : ℕ) (numbers : List ℤ)
        → Defines limits slack bytes inst
        → IsTreeOf bytes root
        → 12 ≤ places
        → AreOwnNumbers places root numbers
        → IsReading inst (10 ^ (places - 12)) numbers }
{}

/// There are such places and multiples for every file that defines an
/// instance, and no other multiples for these places.
pub fn files_have_own_numbers()
    ensures { (limits : Limits) (slack : ℤ) (bytes : List ℕ) (inst : Tables) (root : Tree)
        → Defines limits slack bytes inst
        → IsTreeOf bytes root
        → HasOwnNumbers root }
{}
