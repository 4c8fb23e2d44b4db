//! What callers may count on: functions with an empty body, each of which states a law of valid
//! certificates.

ghost use Rattle.std.specs.Prelude.{◌≡◌, ◌↔◌, List, true};
ghost use Rattle.wl_symbols.specs.Link.{Link};
ghost use Rattle.wl_symbols.specs.Units.{units_of, exists};
ghost use Rattle.wl_symbols.specs.Kept.{IsKept};
ghost use Rattle.wl_symbols.specs.Live.{Live, is_live, IsLiveOf};
ghost use Rattle.wl_symbols.specs.declared.units.LinkUnit.{LinkUnit as UnitRecord};
ghost use Rattle.wl_why.specs.Certificate.{IsListed, IsValid};
ghost use Rattle.wl_why.specs.declared.certificate.Step.{Step as StepRecord};

/// A valid certificate lists exactly the units that exist and are kept.
pub fn valid_certificates_list_what_is_kept()
    ensures { (link : Link) (steps : List StepRecord) → IsValid link steps → (u : UnitRecord)
        → IsListed steps u ↔ ((exists (units_of link.objects) u ≡ true) × IsKept link u) }
{}

/// A valid certificate lists exactly the units of the live set.
pub fn valid_certificates_list_what_is_live()
    ensures { (link : Link) (steps : List StepRecord) (live : Live) → IsValid link steps
        → IsLiveOf link live → (u : UnitRecord) → IsListed steps u ↔ (is_live live u ≡ true) }
{}
