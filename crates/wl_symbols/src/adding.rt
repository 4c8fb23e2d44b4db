//! The names of the objects, gathered symbol by symbol.

ghost use Rattle.std.specs.Prelude.{◌≡◌, ◌+◌, ◌*◌, ◌<◌, ◌≤◌, ◌^◌, length, IfOk, IfNone};
ghost use Rattle.wl_symbols.specs.Entries.{entries_at, entries_from, entries_of, symbol_count};
ghost use Rattle.wl_symbols.specs.Adding.{firsts_in, repeat_in, AddsOne, AddsAll};

use crate::entry::{Firsts, Place, Strength, is_private, strength_of};
use crate::names::CountedNames;
use std::alloc::AllocError;
use std::marker::Model;
use std::sync::ledger::Ledger;
use wl_linking::{File, WasmSymbol};
use wl_steps::Steps;

/// Two strong symbols of one name.
#[derive(Drop)]
pub(crate) struct Repeat<'a> {
    pub(crate) name: &'a str,
    pub(crate) first: Place,
    pub(crate) second: Place,
}

impl<'a> Model for Repeat<'a> {
    ghost use Rattle.wl_symbols.specs.Repeats.{Pair};

    ghost Value = { Pair };

    ghost view = { λ r. record { name = r.name.now; first = r.first; second = r.second } };
}

/// The strong symbol of these, where one more symbol, of that strength, repeats its name.
pub(crate) fn repeated(firsts: Firsts, strength: Strength) -> Option<Place>
    ensures { result ≡ repeat_in firsts strength }
{
    match strength {
        Strength::Strong => firsts.strong,
        Strength::Weak | Strength::Undefined => None,
    }
}

/// Adds a symbol, after all before. Answers with the symbol whose strong name it repeats, if it
/// does.
fn add<'a, L: Ledger>(
    names: &mut CountedNames<'a>,
    name: &'a str,
    strength: Strength,
    place: Place,
    steps: &mut Steps<L>,
) -> Result<Option<Place>, AllocError>
    ensures adds { IfOk result (AddsOne
        (firsts_in names.old.names.firsts) (firsts_in names.new.names.firsts)
        (record { name = name.now; strength = strength; place = place })) }
    ensures counted { IfOk result (λ told. IfNone told (steps.new ≡ steps.old + 2)) }
    ensures cost { steps.new ≤ steps.old + 2 }
{
    let firsts = names.firsts(name, steps);
    if let Some(first) = repeated(firsts, strength) {
        return Ok(Some(first));
    }
    names.put(name, firsts.with(strength, place), steps)?;
    Ok(None)
}

/// Adds a symbol of an object, where other objects know it. Answers with both, where it repeats a
/// strong name.
fn add_symbol<'a, L: Ledger>(
    names: &mut CountedNames<'a>,
    place: Place,
    symbol: &WasmSymbol<'a>,
    steps: &mut Steps<L>,
) -> Result<Option<Repeat<'a>>, AllocError>
    ensures adds { IfOk result (AddsAll
        (firsts_in names.old.names.firsts) (firsts_in names.new.names.firsts)
        (entries_at place.object place.symbol symbol.now)) }
    ensures counted { IfOk result (λ told. IfNone told (steps.new
        ≡ steps.old + 2 * length (entries_at place.object place.symbol symbol.now))) }
    ensures cost { steps.new ≤ steps.old + 2 }
{
    if is_private(symbol) {
        return Ok(None);
    }
    let name = symbol.name;
    match add(names, name, strength_of(symbol), place, steps)? {
        None => Ok(None),
        Some(first) => Ok(Some(Repeat {
            name,
            first,
            second: place,
        })),
    }
}

/// Adds the symbols of an object. Answers with the first that repeats a strong name.
fn add_symbols<'a, L: Ledger>(
    names: &mut CountedNames<'a>,
    object: usize,
    symbols: &[WasmSymbol<'a>],
    steps: &mut Steps<L>,
) -> Result<Option<Repeat<'a>>, AllocError>
    requires { length symbols.now < 2 ^ 32 }
    ensures adds { IfOk result (AddsAll
        (firsts_in names.old.names.firsts) (firsts_in names.new.names.firsts)
        (entries_from object 0 symbols.now)) }
    ensures counted { IfOk result (λ told. IfNone told (steps.new
        ≡ steps.old + 2 * length (entries_from object 0 symbols.now))) }
    ensures cost { steps.new ≤ steps.old + 2 * length symbols.now }
{
    for (i, symbol) in symbols.iter().enumerate() {
        let place = Place {
            object,
            symbol: i as u32,
        };
        if let Some(repeat) = add_symbol(names, place, symbol, steps)? {
            return Ok(Some(repeat));
        }
    }
    Ok(None)
}

/// Adds the symbols of objects. Answers with the first that repeats a strong name.
pub(crate) fn add_files<'a, L: Ledger>(
    names: &mut CountedNames<'a>,
    files: &[File<'a>],
    steps: &mut Steps<L>,
) -> Result<Option<Repeat<'a>>, AllocError>
    ensures adds { IfOk result (AddsAll
        (firsts_in names.old.names.firsts) (firsts_in names.new.names.firsts)
        (entries_of 0 files.now)) }
    ensures counted { IfOk result (λ told. IfNone told (steps.new
        ≡ steps.old + 2 * length (entries_of 0 files.now))) }
    ensures cost { steps.new ≤ steps.old + 2 * symbol_count files.now }
{
    for (object, file) in files.iter().enumerate() {
        file.stands_for_an_object();
        if let Some(repeat) = add_symbols(names, object, file.symbols(), steps)? {
            return Ok(Some(repeat));
        }
    }
    Ok(None)
}
