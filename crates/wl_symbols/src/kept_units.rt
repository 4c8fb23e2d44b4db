//! Whether units are kept, asked once for fields that stand side by side in one.

ghost use Rattle.std.specs.Prelude.{◌≡◌};
ghost use Rattle.wl_symbols.specs.KeptUnits.{Knows};
ghost use Rattle.wl_symbols.specs.Relocations.{keeps_unit};

use crate::live_set::LiveSet;
use crate::relocated::{FixupPlace, unit_in};

/// A unit, and whether it is kept.
#[derive(Clone, Copy, PartialEq, Eq)]
struct KeptUnit {
    unit: u32,
    kept: bool,
}

/// The units in which the fields of a section of an object lie, with what is known of the unit that
/// was asked for last.
#[derive(Drop)]
pub(crate) struct SectionUnits<'k> {
    live: &'k LiveSet,
    pub(crate) place: FixupPlace,
    pub(crate) object: usize,
    known: Option<KeptUnit>,
    ghost knows: { Knows live.now place object known },
}

impl<'k> SectionUnits<'k> {
    /// Those of a section of that object.
    pub(crate) fn new(live: &'k LiveSet, place: FixupPlace, object: usize) -> Self
        ensures live { result.live.now ≡ live.now }
        ensures place { result.place ≡ place }
        ensures object { result.object ≡ object }
    {
        SectionUnits {
            live,
            place,
            object,
            known: None,
        }
    }

    /// Whether the unit of that number is kept.
    #[inline(always)]
    pub(crate) fn keeps(&mut self, unit: u32) -> bool
        ensures kept { result ≡ keeps_unit self.old.live.now self.old.place self.old.object unit }
        ensures live { self.new.live.now ≡ self.old.live.now }
        ensures place { self.new.place ≡ self.old.place }
        ensures object { self.new.object ≡ self.old.object }
    {
        if let Some(known) = self.known {
            if known.unit == unit {
                return known.kept;
            }
        }
        self.ask(unit)
    }

    /// Asks whether the unit of that number is kept, and keeps the answer.
    #[inline(never)]
    fn ask(&mut self, unit: u32) -> bool
        ensures kept { result ≡ keeps_unit self.old.live.now self.old.place self.old.object unit }
        ensures live { self.new.live.now ≡ self.old.live.now }
        ensures place { self.new.place ≡ self.old.place }
        ensures object { self.new.object ≡ self.old.object }
    {
        let kept = self.live.is_live(self.object, unit_in(self.place, unit));
        self.known = Some(KeptUnit { unit, kept });
        kept
    }
}
