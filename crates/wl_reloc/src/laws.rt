//! What callers may count on: functions with an empty body, each of which states a law of values.

ghost use Rattle.std.specs.Prelude.{◌≡◌, ℕ, ℤ, List, Option, Ok, Err};
ghost use Rattle.wl_custom.specs.declared.relocations.WasmRelocation.{WasmRelocation as Relocation};
ghost use Rattle.wl_index.specs.declared.data_address.WasmDataAddress.{WasmDataAddress as Address};
ghost use Rattle.wl_reloc.specs.Addresses.{deferred_pointer};
ghost use Rattle.wl_reloc.specs.Faults.{IsRelocFault, IsPointerFault};
ghost use Rattle.wl_reloc.specs.Resolving.{Resolver as Known, resolved};
ghost use Rattle.wl_reloc.specs.declared.error.RelocError.{RelocError as Why};

/// A relocation is refused exactly where a refusal has its cause, and with that one: of the causes
/// one holds at most. Where none does, its field takes a value.
pub fn value_or_fault()
    ensures why { (by : Known) (r : Relocation) (e : Why)
        → resolved by r ≡ Err e → IsRelocFault by r e }
    ensures refused { (by : Known) (r : Relocation) (e : Why)
        → IsRelocFault by r e → resolved by r ≡ Err e }
    ensures one { (by : Known) (r : Relocation) (e f : Why)
        → IsRelocFault by r e → IsRelocFault by r f → e ≡ f }
    ensures clear { (by : Known) (r : Relocation) → ((e : Why) → IsRelocFault by r e → ⊥)
        → (value : ℕ) × (resolved by r ≡ Ok value) }
{}

/// So it is with a field that is to point into the block of each thread: it is refused exactly
/// where one of two refusals has its cause, which exclude each other.
pub fn pointer_or_fault()
    ensures why { (addresses : List Address) (r : Relocation) (e : Why)
        → deferred_pointer addresses r ≡ Err e → IsPointerFault addresses r e }
    ensures refused { (addresses : List Address) (r : Relocation) (e : Why)
        → IsPointerFault addresses r e → deferred_pointer addresses r ≡ Err e }
    ensures one { (addresses : List Address) (r : Relocation) (e f : Why)
        → IsPointerFault addresses r e → IsPointerFault addresses r f → e ≡ f }
    ensures clear { (addresses : List Address) (r : Relocation)
        → ((e : Why) → IsPointerFault addresses r e → ⊥)
        → (pointer : Option ℤ) × (deferred_pointer addresses r ≡ Ok pointer) }
{}
