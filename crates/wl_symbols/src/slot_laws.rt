//! What callers may count on: functions with an empty body, each of which states a law of slots.

ghost use Rattle.std.specs.Prelude.{◌≡◌, ℕ, List, MatchOption, Some, is_some, true, length, map, slice_get};
ghost use Rattle.std.specs.List.{Contains};
ghost use Rattle.wl_module.specs.declared.imports.ExternalKind.TheVariants as External;
ghost use Rattle.wl_linking.specs.Object.{Object};
ghost use Rattle.wl_linking.specs.Fitting.{IsWhole};
ghost use Rattle.wl_linking.specs.Spaces.{count_imports};
ghost use Rattle.wl_custom.specs.Symbols.{Symbol as LinkedSymbol};
ghost use Rattle.wl_custom.specs.declared.symbols.WasmSymbolKind.{WasmSymbolKind};
ghost use Rattle.wl_custom.specs.declared.symbols.WasmSymbolKind.TheVariants as Symbols;
ghost use Rattle.wl_symbols.specs.Link.{Link};
ghost use Rattle.wl_symbols.specs.declared.linker_symbol.WasmLinkerSymbol.{WasmLinkerSymbol};
ghost use Rattle.wl_symbols.specs.ImportSlots.{ImportSlot as Slot, object_slots};
ghost use Rattle.wl_symbols.specs.SlotTargets.{own_number, is_definition_of, slot_target};
ghost use Rattle.wl_symbols.specs.SlotCases.{IsObjectSlot, HasDefinition, HasMadeSymbol, IsBoundTo, IsLeft};
ghost use Rattle.wl_symbols.specs.Left.{same_field, same_import, first_like, is_stub, stubs, first_imports, first_slot, place_of_name, place_of_import};

use crate::name_laws::name_by_cases;

/// An object has a slot for each function and each global that it imports, and the number of a slot
/// is its place among those of its kind.
pub fn slots_are_numbered()
    ensures functions { (object : ℕ) (o : Object)
        → length (object_slots object Symbols.Func o) ≡ count_imports External.Func o.imports }
    ensures globals { (object : ℕ) (o : Object)
        → length (object_slots object Symbols.Global o) ≡ count_imports External.Global o.imports }
    ensures number { (object : ℕ) (kind : WasmSymbolKind) (o : Object) (n : ℕ) (t : Slot)
        → slice_get (object_slots object kind o) n ≡ Some t → t.number ≡ n }
{}

/// Each function or global that a whole object defines by a symbol has its number.
pub fn definitions_have_numbers()
    ensures { (kind : WasmSymbolKind) (o : Object) (k : ℕ) (s : LinkedSymbol)
        → IsWhole o → slice_get o.symbols k ≡ Some s → is_definition_of kind s ≡ true
        → (n : ℕ) × (own_number kind o s.index ≡ Some n) }
{}

/// What a slot is bound to, case by case: the definition of its kind that an undefined symbol on it
/// stands for, where an object has it; else what the linker makes of its kind that such a symbol
/// stands for; else what it makes of its kind that the field name stands for.
pub fn targets_by_cases()
    ensures { (link : Link) (t : Slot)
        → MatchOption (slot_target link t) (IsLeft link t) (IsBoundTo link t) }
{}

/// The symbols on a slot of an object have one name. So at most one definition and at most one
/// thing that the linker makes is what such symbols stand for, and never both.
pub fn slots_have_one_name()
    ensures definition { (link : Link) (object : ℕ) (kind : WasmSymbolKind) (o : Object) (t : Slot)
        → IsObjectSlot link object kind o t → (a j b k : ℕ)
        → HasDefinition link t a j → HasDefinition link t b k → (a ≡ b) × (j ≡ k) }
    ensures made { (link : Link) (object : ℕ) (kind : WasmSymbolKind) (o : Object) (t : Slot)
        → IsObjectSlot link object kind o t → (m n : WasmLinkerSymbol)
        → HasMadeSymbol link t m → HasMadeSymbol link t n → m ≡ n }
    ensures never_both { (link : Link) (object : ℕ) (kind : WasmSymbolKind) (o : Object) (t : Slot)
        → IsObjectSlot link object kind o t → (a j : ℕ) (m : WasmLinkerSymbol)
        → HasDefinition link t a j → HasMadeSymbol link t m → ⊥ }
{
    name_by_cases();
}

/// A slot is a stub's exactly where its field name has a place among the stubs, and there stands
/// the first stub slot of that name.
pub fn stubs_are_found_by_name()
    ensures told { (objects : List Object) (slots : List Slot) (t : Slot) → Contains slots t
        → is_stub objects slots t
        ≡ is_some (place_of_name t.item.name (map first_slot (stubs objects slots))) }
    ensures place { (objects : List Object) (slots : List Slot) (t : Slot) (p : ℕ)
        → place_of_name t.item.name (map first_slot (stubs objects slots)) ≡ Some p
        → slice_get (map first_slot (stubs objects slots)) p
        ≡ Some (first_slot (first_like same_field (stubs objects slots) t)) }
{}

/// Each of the slots has a place among the host imports by its module and field name, and there
/// stands the first slot of those names.
pub fn host_imports_are_found()
    ensures { (slots : List Slot) (t : Slot) → Contains slots t
        → (p : ℕ)
        × (place_of_import t.item.origin t.item.name (map first_slot (first_imports slots))
        ≡ Some p)
        × (slice_get (map first_slot (first_imports slots)) p
        ≡ Some (first_slot (first_like same_import (first_imports slots) t))) }
{}

/// No two stubs have one field name, and no two host imports one module and field name.
pub fn imports_stand_once()
    ensures stubs { (objects : List Object) (slots : List Slot) (i k : ℕ) (a b : Slot)
        → slice_get (stubs objects slots) i ≡ Some a → slice_get (stubs objects slots) k ≡ Some b
        → a.item.name ≡ b.item.name → i ≡ k }
    ensures host_imports { (slots : List Slot) (i k : ℕ) (a b : Slot)
        → slice_get (first_imports slots) i ≡ Some a → slice_get (first_imports slots) k ≡ Some b
        → a.item.origin ≡ b.item.origin → a.item.name ≡ b.item.name → i ≡ k }
{}
