//! What callers may count on: functions with an empty body, each of which states a law of types.

ghost use Rattle.std.specs.Prelude.{◌≡◌, ℕ, List, Some, true, slice_get};
ghost use Rattle.wl_module.specs.Types.{FunctionType, same_type};
ghost use Rattle.wl_types.specs.Types.{output_list};

/// Types with the same parameters and results are one value.
pub fn same_types_are_one()
    ensures { (a b : FunctionType) → same_type a b ≡ true → a ≡ b }
{}

/// No type stands at two places of the types of the output.
pub fn types_stand_once()
    ensures { (types : List FunctionType) (i k : ℕ) (a b : FunctionType)
        → slice_get (output_list types) i ≡ Some a → slice_get (output_list types) k ≡ Some b
        → same_type a b ≡ true → i ≡ k }
{}
