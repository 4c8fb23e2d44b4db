//! What callers may count on: functions with an empty body, each of which states a law of exports.

ghost use Rattle.std.specs.Prelude.{◌≡◌, ◌≤◌, ℕ, List, length, true, Some, slice_get};
ghost use Rattle.wl_module.specs.Exports.{Exported};
ghost use Rattle.wl_symbols.specs.declared.linker_symbol.WasmLinkerSymbol.TheVariants.{CallCtors};
ghost use Rattle.wl_bind.specs.FunctionSpace.{host_function_part};
ghost use Rattle.wl_symbols.specs.Input.{Input};
ghost use Rattle.wl_bind.specs.Made.{is_made};
ghost use Rattle.wl_exports.specs.Exports.{ExportEntry};
ghost use Rattle.wl_exports.specs.Wrapped.{WrapperEntry, AreOutputExports, AreWrappers};
ghost use Rattle.wl_exports.specs.Wrappers.{wrapped};

use wl_bind::entries_stand_once;

/// The exports and the wrappers are one list each, since nothing stands twice in a space.
pub fn exports_are_one()
    ensures exports { (input : Input) (a b : List Exported)
        → AreOutputExports input a → AreOutputExports input b → a ≡ b }
    ensures wrappers { (input : Input) (a b : List WrapperEntry)
        → AreWrappers input a → AreWrappers input b → a ≡ b }
{
    entries_stand_once();
}

/// Exports are wrapped only where the output has what calls the constructors, and wrappers call
/// functions that aren't imported.
pub fn wrappers_call_functions()
    ensures constructors { (input : Input) (i : ℕ) (e : ExportEntry)
        → slice_get (wrapped input) i ≡ Some e → is_made input CallCtors ≡ true }
    ensures own { (input : Input) (ws : List WrapperEntry) (i : ℕ) (w : WrapperEntry)
        → AreWrappers input ws → slice_get ws i ≡ Some w
        → length (host_function_part input) ≤ w.original }
{}
