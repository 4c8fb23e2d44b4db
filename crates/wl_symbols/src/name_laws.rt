//! What callers may count on: functions with an empty body, each of which states a law of names.

ghost use Rattle.std.specs.Prelude.{◌≡◌, ◌⊎◌, ℕ, List, MatchOption, Some, None, true, false};
ghost use Rattle.wl_custom.specs.Symbols.{Symbol as LinkedSymbol};
ghost use Rattle.wl_linking.specs.Object.{Object};
ghost use Rattle.wl_linking.specs.declared.error.LinkError.{LinkError as SpecError};
ghost use Rattle.wl_symbols.specs.Link.{Link};
ghost use Rattle.wl_symbols.specs.Entries.{is_private, symbol_in};
ghost use Rattle.wl_symbols.specs.Names.{named, def, StandsFor, IsUnknown};
ghost use Rattle.wl_symbols.specs.Repeats.{HasOneStrong, IsDuplicate};
ghost use Rattle.wl_symbols.specs.LinkerNames.{name_of, symbol_named};
ghost use Rattle.wl_symbols.specs.declared.entry.Definition.{Definition as SpecDefinition};
ghost use Rattle.wl_symbols.specs.declared.entry.Definition.TheVariants.{Symbol};
ghost use Rattle.wl_symbols.specs.declared.linker_symbol.WasmLinkerSymbol.{WasmLinkerSymbol as SpecMade};

/// What a name and a symbol stand for, by places: each symbol that is local or has no name stands
/// for itself; each other one for the first strong symbol of its name, or else the first weak one,
/// or else what the linker makes under the name, or else the first undefined one. What stands for
/// something stands for itself.
pub fn name_by_cases()
    ensures name { (link : Link) (name : List ℕ)
        → MatchOption (named link name) (IsUnknown link name) (StandsFor link name) }
    ensures only { (link : Link) (name : List ℕ) (d : SpecDefinition)
        → StandsFor link name d → named link name ≡ Some d }
    ensures unknown { (link : Link) (name : List ℕ) → IsUnknown link name → named link name ≡ None }
    ensures own { (link : Link) (object symbol : ℕ) (s : LinkedSymbol)
        → symbol_in link.objects object symbol ≡ Some s → is_private s ≡ true
        → def link object symbol ≡ Symbol object symbol }
    ensures shared { (link : Link) (object symbol : ℕ) (s : LinkedSymbol)
        → symbol_in link.objects object symbol ≡ Some s → is_private s ≡ false
        → StandsFor link s.name (def link object symbol) }
    ensures settled { (link : Link) (object symbol o k : ℕ)
        → def link object symbol ≡ Symbol o k → def link o k ≡ Symbol o k }
{}

/// Each strong name is that of one symbol, or a symbol repeats one, and one refusal reports it.
pub fn names_or_repeat()
    ensures some { (objects : List Object)
        → HasOneStrong objects ⊎ ((e : SpecError) × IsDuplicate objects e) }
    ensures never_both { (objects : List Object) (e : SpecError)
        → HasOneStrong objects → IsDuplicate objects e → ⊥ }
    ensures one { (objects : List Object) (e f : SpecError)
        → IsDuplicate objects e → IsDuplicate objects f → e ≡ f }
{}

/// Each linker-made name is that of one.
pub fn made_names_differ()
    ensures { (made : SpecMade) → symbol_named (name_of made) ≡ Some made }
{}
