//! What names stand for, found from the symbols that bear each of them.

ghost use Rattle.std.specs.Prelude.{◌≡◌, ◌⊎◌, ◌↔◌, ◌+◌, ◌*◌, ◌≤◌, None, Some, [], ◌∷◌, length, slice_get, option_map, IfOk, IsTrue, MatchOption};
ghost use Rattle.wl_symbols.specs.Adding.{firsts_in, repeat_in};
ghost use Rattle.wl_symbols.specs.Index.{all_entries};
ghost use Rattle.wl_symbols.specs.Bearers.{found_in, firsts_among};
ghost use Rattle.wl_symbols.specs.Telling.{Tells};

use crate::adding::{Repeat, repeated};
use crate::bearers::{Bearer, BearerMap};
use crate::entry::{Firsts, Place, Strength};
use crate::gathering::{NameEntry, ObjectEntries};
use crate::names::CountedNames;
use std::alloc::AllocError;
use std::sync::ledger::Ledger;
use wl_steps::Steps;

/// The first of each strength of the symbols that bear a name.
fn firsts_among(bearers: &[Bearer]) -> Firsts
    ensures { result ≡ firsts_among bearers.now }
{
    let mut firsts = Firsts::none();
    for bearer in bearers {
        firsts = firsts.with(bearer.strength, bearer.place);
    }
    firsts
}

/// Whether the symbol of that place is the first of these.
fn leads(bearers: &[Bearer], place: Place) -> bool
    ensures { IsTrue result ↔ (option_map (λ b. b.place) (slice_get bearers.now 0) ≡ Some place) }
{
    match bearers.first() {
        None => false,
        Some(bearer) => bearer.place == place,
    }
}

/// The strong symbol of these that bears the name before one of that strength and place does.
fn repeated_by(bearers: &[Bearer], strength: Strength, place: Place) -> Option<Place>
    ensures { MatchOption result
        ((repeat_in (firsts_among bearers.now) strength ≡ None)
        ⊎ (repeat_in (firsts_among bearers.now) strength ≡ Some place))
        (λ first. (repeat_in (firsts_among bearers.now) strength ≡ Some first)
        × (first ≡ place → ⊥)) }
{
    match strength {
        Strength::Strong => {
            let first = repeated(firsts_among(bearers), strength)?;
            if first == place { None } else { Some(first) }
        }
        Strength::Weak | Strength::Undefined => None,
    }
}

/// Finds what the name of an entry stands for, where it is the first that has it. Answers with both
/// symbols, where it repeats a strong name.
fn tell_entry<'a, L: Ledger>(
    names: &mut CountedNames<'a>,
    lists: &BearerMap<'a>,
    entry: &NameEntry<'a>,
    steps: &mut Steps<L>,
) -> Result<Option<Repeat<'a>>, AllocError>
    ensures tells { IfOk result (Tells (found_in lists.now.lists)
        (firsts_in names.old.names.firsts) (firsts_in names.new.names.firsts) (entry.now ∷ [])
        steps.old steps.new) }
    ensures cost { steps.new ≤ steps.old + 2 }
{
    let (name, place) = (entry.name, entry.place);
    steps.tick();
    let bearers = lists.get(name);
    if let Some(first) = repeated_by(bearers, entry.strength, place) {
        return Ok(Some(Repeat {
            name,
            first,
            second: place,
        }));
    }
    if leads(bearers, place) {
        names.put(name, firsts_among(bearers), steps)?;
    }
    Ok(None)
}

/// Finds what the names of an object's entries stand for. Answers with the first that repeats a
/// strong name.
fn tell_entries<'a, L: Ledger>(
    names: &mut CountedNames<'a>,
    lists: &BearerMap<'a>,
    entries: &[NameEntry<'a>],
    steps: &mut Steps<L>,
) -> Result<Option<Repeat<'a>>, AllocError>
    ensures tells { IfOk result (Tells (found_in lists.now.lists)
        (firsts_in names.old.names.firsts) (firsts_in names.new.names.firsts) entries.now
        steps.old steps.new) }
    ensures cost { steps.new ≤ steps.old + 2 * length entries.now }
{
    for entry in entries {
        if let Some(repeat) = tell_entry(names, lists, entry, steps)? {
            return Ok(Some(repeat));
        }
    }
    Ok(None)
}

/// Finds what the names of objects' entries stand for. Answers with the first that repeats a
/// strong name.
pub(crate) fn tell_objects<'a, L: Ledger>(
    names: &mut CountedNames<'a>,
    lists: &BearerMap<'a>,
    objects: &[ObjectEntries<'a>],
    steps: &mut Steps<L>,
) -> Result<Option<Repeat<'a>>, AllocError>
    ensures tells { IfOk result (Tells (found_in lists.now.lists)
        (firsts_in names.old.names.firsts) (firsts_in names.new.names.firsts)
        (all_entries objects.now) steps.old steps.new) }
    ensures cost { steps.new ≤ steps.old + 2 * length (all_entries objects.now) }
{
    for entries in objects {
        if let Some(repeat) = tell_entries(names, lists, entries.as_slice(), steps)? {
            return Ok(Some(repeat));
        }
    }
    Ok(None)
}
