//! Laws of the definitions, each the contract of a function that does nothing.

ghost use Rattle.std.specs.Prelude.{◌≡◌, ℕ, List};
ghost use Rattle.hp_tree.specs.declared.problem.Problem.{Problem as Spelled};
ghost use Rattle.hp_grammar.specs.Spells.{Spells, IsFault, HasMeaning};
ghost use Rattle.hp_grammar.specs.declared.fault.ReadErr.{ReadErr as Fault};
ghost use Rattle.hp_grammar.specs.declared.fault.ReadErr.TheVariants.{Memory};

/// No text spells two problems.
pub fn spells_one_problem()
    ensures { (bytes : List ℕ) (p q : Spelled) → Spells bytes p → Spells bytes q → p ≡ q }
{}

/// A text that spells a problem has no fault.
pub fn spells_without_fault()
    ensures { (bytes : List ℕ) (p : Spelled) (e : Fault) → Spells bytes p → IsFault bytes e → e ≡ Memory }
{}

/// Every text spells a problem or has a fault that is not want of memory.
pub fn spells_or_has_fault()
    ensures { (bytes : List ℕ) → HasMeaning bytes }
{}
