//! What is known of the references that are listed.

ghost use Rattle.std.specs.Prelude.{◌≡◌, ◌↔◌, ◌⊎◌, List, Contains, true};
ghost use Rattle.wl_linking.specs.Object.{Object};
ghost use Rattle.wl_symbols.specs.Link.{Link};
ghost use Rattle.wl_symbols.specs.Units.{units_of, exists};
ghost use Rattle.wl_symbols.specs.References.{RefersBySymbol, RefersByNumber, RefersBySlot, Refers};
ghost use Rattle.wl_symbols.specs.declared.units.LinkUnit.{LinkUnit as UnitRecord};
ghost use Rattle.wl_live.specs.Facts.{Facts, AreAllFacts};
ghost use Rattle.wl_live.specs.Table.{references};

use wl_ops::numbers_are_one;

/// The references that are listed are those that units have, and one list for a link: with it the
/// steps of [`collect_live_counted`](crate::collect_live_counted) are counted.
pub fn references_are_listed()
    ensures how { (link : Link) (facts : List Facts) (u v : UnitRecord)
        → AreAllFacts link.objects facts
        → Contains (references link (units_of link.objects) facts) (record { from = u; to = v })
        ↔ (RefersBySymbol link u v ⊎ (RefersByNumber link u v ⊎ RefersBySlot link u v)) }
    ensures refers { (link : Link) (facts : List Facts) (u v : UnitRecord)
        → AreAllFacts link.objects facts
        → exists (units_of link.objects) u ≡ true → exists (units_of link.objects) v ≡ true
        → Contains (references link (units_of link.objects) facts) (record { from = u; to = v })
        ↔ Refers link u v }
    ensures one { (link : Link) (facts others : List Facts)
        → AreAllFacts link.objects facts → AreAllFacts link.objects others
        → references link (units_of link.objects) facts
        ≡ references link (units_of link.objects) others }
{
    numbers_are_one();
}

/// Any objects say something of their units: that there are no facts of them is impossible.
pub fn facts_exist()
    ensures { (objects : List Object)
        → ((facts : List Facts) → AreAllFacts objects facts → ⊥) → ⊥ }
{}
