//! What callers may count on: functions with an empty body, each of which states a law of what kept
//! relocations name.

ghost use Rattle.std.specs.Prelude.{◌≡◌, ◌||◌, ℕ, List, true, false, Some, Contains, slice_get};
ghost use Rattle.wl_linking.specs.Object.{Object as SpecObject};
ghost use Rattle.wl_custom.specs.RelocationTypes.{names_a_type, is_table_index, is_global_index};
ghost use Rattle.wl_symbols.specs.Input.{Input};
ghost use Rattle.wl_bind.specs.FunctionSymbols.{fun};
ghost use Rattle.wl_symbols.specs.Left.{HostImport as Asked};
ghost use Rattle.wl_bind.specs.BindingSteps.{slot_numbers, number_at};
ghost use Rattle.wl_bind.specs.EntryTypes.{HasOutputType, HasTypeIndex};
ghost use Rattle.wl_bind.specs.FunctionSpace.{FunctionEntry, FunctionOf, kept_functions, function_space};
ghost use Rattle.wl_bind.specs.OutputTypes.{AreTypeIndices};
ghost use Rattle.wl_bind.specs.Shared.{function_imports};
ghost use Rattle.wl_bind.specs.References.{IsSettled, HasSlot, IsInOutput, NamesType, NamesSymbol, NamesFunction, NamesGlobal};
ghost use Rattle.wl_symbols.specs.Relocations.{relocations};
ghost use Rattle.wl_bind.specs.Scan.{table_functions, names_function};
ghost use Rattle.wl_bind.specs.declared.binding.FunctionTarget.{FunctionTarget as Target};
ghost use Rattle.wl_bind.specs.declared.binding.FunctionTarget.TheVariants.{Defined, Host};
ghost use Rattle.wl_symbols.specs.declared.relocated.Relocated.{Relocated as KeptRelocation};

use crate::link_laws::link_laws;
use wl_linking::whole_objects;
use wl_types::same_types_are_one;

/// What a kept relocation names is in the output: its type, its function, its global; and a
/// function whose slot it takes has one.
pub fn references_are_kept()
    ensures types { (input : Input) (r : KeptRelocation) → IsSettled input
        → Contains (relocations input) r → names_a_type r.relocation.ty ≡ true → NamesType input r }
    ensures symbols { (input : Input) (r : KeptRelocation) → IsSettled input
        → Contains (relocations input) r → names_a_type r.relocation.ty ≡ false
        → NamesSymbol input r }
    ensures functions { (input : Input) (r : KeptRelocation) → IsSettled input
        → Contains (relocations input) r → names_a_type r.relocation.ty ≡ false
        → names_function input r ≡ true → NamesFunction input r }
    ensures globals { (input : Input) (r : KeptRelocation) → IsSettled input
        → Contains (relocations input) r → is_global_index r.relocation.ty ≡ true
        → NamesGlobal input r }
    ensures slots { (input : Input) (r : KeptRelocation) (target : Target) → IsSettled input
        → Contains (relocations input) r
        → (is_table_index r.relocation.ty || is_global_index r.relocation.ty) ≡ true
        → names_function input r ≡ true → fun input r.object r.relocation.index ≡ Some target
        → HasSlot input target }
{
    link_laws();
}

/// The output has the functions of the table.
pub fn table_functions_are_kept()
    ensures { (input : Input) (target : Target) → IsSettled input
        → Contains (table_functions input) target → IsInOutput input target }
{
    link_laws();
}

/// Each function of the output has a type, which is one of the output's.
#[tactic(auto, using(crate::proofs::EntryTypeLaws::entry_typed))]
pub fn entries_have_types()
    ensures { (input : Input) (entry : FunctionEntry) → IsSettled input
        → Contains (function_space input) entry → HasOutputType input entry }
{
    whole_objects();
    same_types_are_one();
}

/// The map of an object leads from the type of each function that is kept, and of each that the
/// host is asked for, to that type among those of the output.
pub fn types_have_indices()
    ensures functions { (input : Input) (object : ℕ) (o : SpecObject) (indices : List ℕ)
        (function : ℕ) → IsSettled input → slice_get input.link.objects object ≡ Some o
        → AreTypeIndices input object o indices
        → Contains (kept_functions input object o) function
        → (number : ℕ) × (slice_get o.functions function ≡ Some number)
        × HasTypeIndex input (FunctionOf (Defined object function)) indices number }
    ensures hosts { (input : Input) (host : Asked) (o : SpecObject) (indices : List ℕ)
        → IsSettled input → Contains (function_imports input) host
        → slice_get input.link.objects host.object ≡ Some o
        → AreTypeIndices input host.object o indices
        → (number : ℕ)
        × (number_at (slot_numbers input.link.objects) host.object host.slot ≡ Some number)
        × HasTypeIndex input (FunctionOf (Host host.object host.slot)) indices number }
{
    whole_objects();
}
