//! What callers may count on: a function with an empty body, which states a law.

ghost use Rattle.std.specs.Prelude.{◌≡◌, ◌<◌, ℕ, List, [], ◌∷◌, ◌++◌, length, slice_get};
ghost use Rattle.std.specs.Option.{option_or};
ghost use Rattle.wl_session.specs.After.{Replacement, replaced, after, last_at};

/// Replacements are done in order, whatever it is that they replace: one more, or a list more, is
/// done to what the things are by then. There are as many things as before, and each is what the
/// last replacement in its place put there; where none did, it is as it was.
pub fn replacements_are_done_in_order<T>()
    ensures one_more { (items : List T) (done : List (Replacement T)) (more : Replacement T)
        → after items (done ++ more ∷ []) ≡ replaced (after items done) more }
    ensures list_more { (items : List T) (done more : List (Replacement T))
        → after items (done ++ more) ≡ after (after items done) more }
    ensures as_many { (items : List T) (done : List (Replacement T))
        → length (after items done) ≡ length items }
    ensures each { (items : List T) (done : List (Replacement T)) (place : ℕ)
        → place < length items → slice_get (after items done) place
        ≡ option_or (last_at place done) (slice_get items place) }
{}
