//! The symbols of an object that others know by a name.

ghost use Rattle.std.specs.Prelude.{◌≡◌, ◌++◌, [], OnOk, IfOk};
ghost use Rattle.wl_symbols.specs.Entries.{entries_at, entries_from};
ghost use Rattle.wl_symbols.specs.Bearers.{bearer_of};

use crate::bearers::Bearer;
use crate::entry::{Place, Strength, is_private, strength_of};
use std::alloc::{AllocError, Global};
use std::marker::Model;
use wl_linking::{File, WasmSymbol};

/// A symbol that other objects know by its name.
#[derive(Drop)]
pub(crate) struct NameEntry<'a> {
    pub(crate) name: &'a str,
    pub(crate) strength: Strength,
    pub(crate) place: Place,
}

impl<'a> Model for NameEntry<'a> {
    ghost use Rattle.wl_symbols.specs.Entries.{Entry};

    ghost Value = { Entry };

    ghost view = { λ e. record { name = e.name.now; strength = e.strength; place = e.place } };
}

/// The symbols of an object that others know by a name, in order of their numbers. Clauses see it
/// as the list of their entries.
#[derive(Drop)]
pub(crate) struct ObjectEntries<'a> {
    list: Vec<NameEntry<'a>>,
}

impl<'a> Model for ObjectEntries<'a> {
    ghost use Rattle.std.specs.Prelude.{List};
    ghost use Rattle.wl_symbols.specs.Entries.{Entry};

    ghost Value = { List Entry };

    ghost view = { λ o. o.list.items };
}

impl<'a> NameEntry<'a> {
    /// The name.
    pub(crate) fn name(&self) -> &'a str
        ensures { result.now ≡ self.now.name }
    {
        self.name
    }

    /// The symbol without its name.
    pub(crate) fn bearer(&self) -> Bearer
        ensures { result ≡ bearer_of self.now }
    {
        Bearer {
            strength: self.strength,
            place: self.place,
        }
    }
}

impl<'a> ObjectEntries<'a> {
    /// No symbols.
    pub(crate) fn empty(alloc: Global) -> Self
        ensures { result ≡ [] }
    {
        ObjectEntries {
            list: Vec::new(alloc),
        }
    }

    /// The entries as a slice.
    pub(crate) fn as_slice(&self) -> &[NameEntry<'a>]
        ensures { result.now ≡ self.now }
    {
        self.list.as_slice()
    }
}

/// Adds a symbol to the entries of its object, where other objects know it.
fn push_entry<'a>(
    list: &mut Vec<NameEntry<'a>>,
    place: Place,
    symbol: &WasmSymbol<'a>,
) -> Result<(), AllocError>
    ensures { OnOk result
        (list.new.items ≡ list.old.items ++ entries_at place.object place.symbol symbol.now) }
{
    if !is_private(symbol) {
        list.push(NameEntry {
            name: symbol.name,
            strength: strength_of(symbol),
            place,
        })?;
    }
    Ok(())
}

/// The entries of an object, which has that number.
pub(crate) fn gather<'a>(
    alloc: Global,
    object: usize,
    file: &File<'a>,
) -> Result<ObjectEntries<'a>, AllocError>
    ensures { IfOk result (λ entries. entries ≡ entries_from object 0 file.now.symbols) }
{
    file.stands_for_an_object();
    let mut list = Vec::new(alloc);
    let symbols = file.symbols();
    for (i, symbol) in symbols.iter().enumerate() {
        let place = Place {
            object,
            symbol: i as u32,
        };
        push_entry(&mut list, place, symbol)?;
    }
    Ok(ObjectEntries { list })
}
