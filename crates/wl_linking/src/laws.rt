//! What is known of objects beside what their reader says.

ghost use Rattle.std.specs.Prelude.{◌≡◌, ◌⊎◌, ◌≤◌, ℕ, length, Some, slice_get, FitsSigned};
ghost use Rattle.std.specs.Int.{w32};
ghost use Rattle.std.specs.List.{AllByRecursion, Contains};
ghost use Rattle.wl_bytes.specs.declared.reader.TheConstants.{MAX_LEN};
ghost use Rattle.wl_linking.specs.Bounds.{HasAlignment, IsSmallMemory, memories_of};
ghost use Rattle.wl_linking.specs.Fitting.{IsWhole};
ghost use Rattle.wl_linking.specs.Object.{Object};
ghost use Rattle.wl_linking.specs.Placing.{IsSpanned};
ghost use Rattle.wl_custom.specs.Symbols.{Symbol as LinkedSymbol};
ghost use Rattle.wl_custom.specs.declared.infos.WasmInitFunc.{WasmInitFunc as InitRecord};
ghost use Rattle.wl_custom.specs.declared.relocations.WasmRelocation.{WasmRelocation as Relocation};
ghost use Rattle.wl_module.specs.Types.{FunctionType};

/// A type of an object has no more parameters, and no more results, than the object may have bytes.
pub fn types_are_short()
    ensures { (o : Object) (number : ℕ) (ty : FunctionType) → IsWhole o
        → slice_get o.types number ≡ Some ty
        → (length ty.params ≤ MAX_LEN) × (length ty.results ≤ MAX_LEN) }
{}

/// Each function that runs at the start has one of the symbols of its object.
pub fn init_functions_have_symbols()
    ensures { (o : Object) (f : InitRecord) → IsWhole o → Contains o.init_funcs f
        → (s : LinkedSymbol) × (slice_get o.symbols f.symbol_index ≡ Some s) }
{}

/// The addend of each relocation of an object is a signed number of 32 bits.
pub fn addends_are_words()
    ensures { (o : Object) (r : Relocation) → IsWhole o
        → (Contains o.code_relocations r ⊎ Contains o.data_relocations r)
        → FitsSigned w32 r.addend }
{}

/// Each memory that an object imports or defines has at first no more pages than a memory can have.
pub fn memories_are_small()
    ensures { (o : Object) → IsWhole o → AllByRecursion IsSmallMemory (memories_of o) }
{}

/// Each segment of an object ends with its bytes, within the limit of an object, and each of which
/// something is said is aligned to a power of two.
pub fn segments_keep_bounds()
    ensures spanned { (o : Object) → IsWhole o → AllByRecursion IsSpanned o.segments }
    ensures aligned { (o : Object) → IsWhole o → AllByRecursion HasAlignment o.segment_infos }
{}
