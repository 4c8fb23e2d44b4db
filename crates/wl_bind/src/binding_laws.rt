//! What callers may count on: functions with an empty body, each of which states a law of bindings.

ghost use Rattle.std.specs.Prelude.{◌≡◌, ℕ, Some, true, Contains};
ghost use Rattle.wl_module.specs.Types.{FunctionType, same_type};
ghost use Rattle.wl_linking.specs.Steps.{Clear};
ghost use Rattle.wl_custom.specs.Symbols.{Symbol as LinkedSymbol, is_function};
ghost use Rattle.wl_custom.specs.declared.symbols.WasmSymbolKind.TheVariants.{Func, Global as GlobalKind};
ghost use Rattle.wl_symbols.specs.Entries.{symbol_in};
ghost use Rattle.wl_symbols.specs.ImportSlots.{ImportSlot as Slot};
ghost use Rattle.wl_symbols.specs.Input.{Input, keeps};
ghost use Rattle.wl_symbols.specs.KeptSlots.{kept_slots};
ghost use Rattle.wl_symbols.specs.Live.{IsLiveOf};
ghost use Rattle.wl_symbols.specs.declared.units.WasmGcUnit.TheVariants.{DefinedFunction, DefinedGlobal};
ghost use Rattle.wl_bind.specs.FunctionBinding.{binds_function};
ghost use Rattle.wl_bind.specs.FunctionSymbols.{fun};
ghost use Rattle.wl_bind.specs.FunctionTypes.{declared_type, target_type};
ghost use Rattle.wl_bind.specs.Signatures.{IsLookedAt, IsMismatch};
ghost use Rattle.wl_bind.specs.BindingCases.{IsBoundAs};
ghost use Rattle.wl_bind.specs.GlobalBinding.{binds_global};
ghost use Rattle.wl_bind.specs.declared.binding.FunctionTarget.{FunctionTarget as Target};
ghost use Rattle.wl_bind.specs.declared.binding.FunctionTarget.TheVariants.{Defined as DefinedBy};
ghost use Rattle.wl_bind.specs.declared.binding.GlobalTarget.TheVariants.{Defined as GlobalBy};

use crate::link_laws::link_laws;

/// Where types agree, each function symbol that is looked at leads to a function of the type under
/// which its object knows it, unless it leads to a host import or to a stub.
pub fn functions_have_their_types()
    ensures { (input : Input) (object number : ℕ) (s : LinkedSymbol) (target : Target)
        (declared actual : FunctionType) → Clear (IsMismatch input) → IsLookedAt input object number
        → symbol_in input.link.objects object number ≡ Some s → is_function s.kind ≡ true
        → fun input object number ≡ Some target
        → declared_type input.link.objects object s ≡ Some declared
        → target_type input.link.objects target ≡ Some actual → same_type declared actual ≡ true }
{}

/// What a kept function slot is bound to, case by case: what names bind it to; where they leave it,
/// the stub of its field name, if it is one's; else the host import of its module and field name.
/// A stub and a host import are named by a slot that is one of them.
pub fn slots_are_bound_by_one_rule()
    ensures { (input : Input) (t : Slot) → Contains (kept_slots input Func) t
        → IsBoundAs input t (binds_function input t) }
{}

/// What a kept slot is bound to is kept, where an object defines it; the host gives the rest, or
/// the linker makes it.
pub fn bound_slots_are_kept()
    ensures functions { (input : Input) (t : Slot) (object function : ℕ)
        → IsLiveOf input.link input.live → Contains (kept_slots input Func) t
        → binds_function input t ≡ DefinedBy object function
        → keeps input object (DefinedFunction function) ≡ true }
    ensures globals { (input : Input) (t : Slot) (object global : ℕ)
        → IsLiveOf input.link input.live → Contains (kept_slots input GlobalKind) t
        → binds_global input t ≡ GlobalBy object global
        → keeps input object (DefinedGlobal global) ≡ true }
{
    link_laws();
}
