//! What callers may count on: functions with an empty body, each of which states a law of what is
//! kept.

ghost use Rattle.std.specs.Prelude.{◌≡◌, ℕ, ◌<◌, List, [], Some, true, false, slice_get};
ghost use Rattle.std.specs.List.{AllByRecursion};
ghost use Rattle.wl_ops.specs.declared.op.Op.{Op as OpRecord};
ghost use Rattle.wl_module.specs.Bodies.{Body};
ghost use Rattle.wl_linking.specs.Fitting.{IsWhole};
ghost use Rattle.wl_linking.specs.Object.{Object};
ghost use Rattle.wl_ops.specs.Decoding.{AreTaken};
ghost use Rattle.wl_ops.specs.Numbers.{HasNumbers};
ghost use Rattle.wl_symbols.specs.Link.{Link};
ghost use Rattle.wl_symbols.specs.Units.{units_of, exists, unit_number, total_of};
ghost use Rattle.wl_symbols.specs.Roots.{IsRoot};
ghost use Rattle.wl_symbols.specs.References.{RefersBySymbol, RefersByNumber, RefersBySlot};
ghost use Rattle.wl_symbols.specs.Kept.{IsKept};
ghost use Rattle.wl_symbols.specs.Live.{Live, is_live, numbers_segments, ordinal_of, IsLiveOf, AreOfOneKind};
ghost use Rattle.wl_symbols.specs.Input.{Input};
ghost use Rattle.wl_symbols.specs.Relocations.{EndsBefore, relocations};
ghost use Rattle.wl_symbols.specs.declared.relocated.Relocated.{Relocated as KeptRelocation};
ghost use Rattle.wl_symbols.specs.declared.units.LinkUnit.{LinkUnit as UnitRecord};
ghost use Rattle.wl_symbols.specs.declared.units.WasmGcUnit.TheVariants.{DefinedFunction};
ghost use Rattle.wl_symbols.specs.declared.units.UnitCounts.{UnitCounts as Counts};

use wl_linking::whole_objects;
use wl_ops::{numbers_are_one, numbers_or_fault};

/// A root is kept, and so is what a kept unit refers to: the unit of a symbol that a relocation in
/// it names, and of what stands in its place; a segment of its object that its body numbers; what
/// the symbols of an import slot stand for.
pub fn kept_units_are_closed()
    ensures root { (link : Link) (u : UnitRecord) → IsRoot link u → IsKept link u }
    ensures symbol { (link : Link) (u v : UnitRecord)
        → IsKept link u → RefersBySymbol link u v → IsKept link v }
    ensures segment { (link : Link) (u v : UnitRecord) → IsKept link u → RefersByNumber link u v
        → exists (units_of link.objects) v ≡ true → IsKept link v }
    ensures slot { (link : Link) (u v : UnitRecord)
        → IsKept link u → RefersBySlot link u v → IsKept link v }
{}

/// The same of a live set.
pub fn live_units_are_closed()
    ensures root { (link : Link) (live : Live) (u : UnitRecord)
        → IsLiveOf link live → IsRoot link u → is_live live u ≡ true }
    ensures symbol { (link : Link) (live : Live) (u v : UnitRecord)
        → IsLiveOf link live → is_live live u ≡ true → RefersBySymbol link u v
        → is_live live v ≡ true }
    ensures segment { (link : Link) (live : Live) (u v : UnitRecord)
        → IsLiveOf link live → is_live live u ≡ true → RefersByNumber link u v
        → exists (units_of link.objects) v ≡ true → is_live live v ≡ true }
    ensures slot { (link : Link) (live : Live) (u v : UnitRecord)
        → IsLiveOf link live → is_live live u ≡ true → RefersBySlot link u v
        → is_live live v ≡ true }
{}

/// A link has one live set: two of them are the same, and so keep the same units under the same
/// ordinals.
pub fn live_sets_are_one()
    ensures one { (link : Link) (a b : Live) → IsLiveOf link a → IsLiveOf link b → a ≡ b }
    ensures units { (link : Link) (a b : Live) (u : UnitRecord)
        → IsLiveOf link a → IsLiveOf link b → is_live a u ≡ is_live b u }
    ensures ordinals { (link : Link) (a b : Live) (u : UnitRecord)
        → IsLiveOf link a → IsLiveOf link b → ordinal_of a u ≡ ordinal_of b u }
{}

/// Ordinals are dense: no two units of a kind and an object have the same one, and each number
/// below an ordinal is that of another unit.
pub fn ordinals_are_dense()
    ensures apart { (live : Live) (u v : UnitRecord) (n : ℕ) → AreOfOneKind u v
        → ordinal_of live u ≡ Some n → ordinal_of live v ≡ Some n → u ≡ v }
    ensures before { (live : Live) (u : UnitRecord) (k n : ℕ) → ordinal_of live u ≡ Some n → k < n
        → (v : UnitRecord) × AreOfOneKind u v × (ordinal_of live v ≡ Some k) }
{}

/// Each unit that exists has a number of its own, each number below their count is a unit's, and
/// roots exist.
pub fn units_are_numbered()
    ensures below { (ns : List Counts) (u : UnitRecord) → exists ns u ≡ true
        → unit_number ns u < total_of ns }
    ensures own { (ns : List Counts) (u v : UnitRecord) → exists ns u ≡ true → exists ns v ≡ true
        → unit_number ns u ≡ unit_number ns v → u ≡ v }
    ensures each { (ns : List Counts) (n : ℕ) → n < total_of ns
        → (u : UnitRecord) × (exists ns u ≡ true) × (unit_number ns u ≡ n) }
    ensures roots { (link : Link) (u : UnitRecord) → IsRoot link u
        → exists (units_of link.objects) u ≡ true }
{}

/// A body that isn't decoded refers to no segment.
pub fn undecoded_bodies_refer_to_none()
    ensures { (link : Link) (u v : UnitRecord) (by : RefersByNumber link u v)
        → ((ops : List OpRecord) → AreTaken ops by.body.bytes → ⊥) → ⊥ }
{
    numbers_are_one();
}

/// The body of a kept function numbers no segment where the live set doesn't mark it as one that
/// does.
pub fn unmarked_bodies_number_none()
    ensures { (link : Link) (live : Live) (object function : ℕ) (o : Object) (body : Body)
        → IsLiveOf link live → slice_get link.objects object ≡ Some o
        → slice_get o.bodies function ≡ Some body
        → is_live live (record { object = object; unit = DefinedFunction function }) ≡ true
        → numbers_segments live (record { object = object; unit = DefinedFunction function })
        ≡ false → HasNumbers [] body.bytes }
{
    numbers_are_one();
    numbers_or_fault();
}

/// Two kept fields share no byte: in one unit a field ends before a later one begins.
pub fn kept_fields_are_apart()
    ensures { (input : Input) (i j : ℕ) (r q : KeptRelocation)
        → AllByRecursion IsWhole input.link.objects → i < j
        → slice_get (relocations input) i ≡ Some r → slice_get (relocations input) j ≡ Some q
        → EndsBefore r q }
{
    whole_objects();
}
