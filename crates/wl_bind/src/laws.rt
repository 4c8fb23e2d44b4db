//! What callers may count on: functions with an empty body, each of which states a law.

ghost use Rattle.std.specs.Prelude.{◌≡◌, ℕ, Some, true, slice_get};
ghost use Rattle.wl_symbols.specs.declared.entry.Definition.{Definition as Named};
ghost use Rattle.wl_bind.specs.declared.binding.FunctionTarget.{FunctionTarget as Target};
ghost use Rattle.wl_bind.specs.declared.binding.FunctionTarget.TheVariants as Function;
ghost use Rattle.wl_symbols.specs.Input.{Input};
ghost use Rattle.wl_bind.specs.Sameness.{same_definition, same_target, same_pair};
ghost use Rattle.wl_bind.specs.Scan.{got_mem, got_func, table_functions};

/// Functions that are the same are one, and so are definitions.
pub fn same_targets_are_one()
    ensures functions { (a b : Target) → same_target a b ≡ true → a ≡ b }
    ensures itself { (a : Target) → same_target a a ≡ true }
    ensures definitions { (a b : Named) → same_definition a b ≡ true → a ≡ b }
    ensures itself_too { (a : Named) → same_definition a a ≡ true }
{}

/// No function stands twice in the table, and no entry twice in a GOT list.
pub fn table_functions_stand_once()
    ensures table { (input : Input) (i k : ℕ) (f g : Target)
        → slice_get (table_functions input) i ≡ Some f
        → slice_get (table_functions input) k ≡ Some g → same_target f g ≡ true → i ≡ k }
    ensures mem { (input : Input) (i k : ℕ) (d e : Named)
        → slice_get (got_mem input) i ≡ Some d
        → slice_get (got_mem input) k ≡ Some e → same_definition d e ≡ true → i ≡ k }
    ensures func { (input : Input) (i k : ℕ) (p q : Named × Target)
        → slice_get (got_func input) i ≡ Some p
        → slice_get (got_func input) k ≡ Some q → same_pair p q ≡ true → i ≡ k }
{}

/// No stub has a slot in the table.
pub fn stubs_have_no_slot()
    ensures { (input : Input) (i object slot : ℕ)
        → slice_get (table_functions input) i ≡ Some (Function.Stub object slot) → ⊥ }
{}
