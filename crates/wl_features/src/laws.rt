//! That features are fixed by the objects and the words.

ghost use Rattle.std.specs.Prelude.{◌≡◌, ℕ, List};
ghost use Rattle.wl_symbols.specs.Link.{Link};
ghost use Rattle.wl_features.specs.Taken.{AreTaken};

/// The features that the output has are one list.
pub fn features_are_one()
    ensures { (link : Link) (a b : List (List ℕ)) → AreTaken link a → AreTaken link b → a ≡ b }
{}
