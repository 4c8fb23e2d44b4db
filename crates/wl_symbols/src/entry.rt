//! Symbols by the names that objects have in common.

ghost use Rattle.std.specs.Prelude.{◌≡◌};
ghost use Rattle.wl_symbols.specs.Entries.{strength_of, is_private};
ghost use Rattle.wl_symbols.specs.LinkerNames.{made_of};
ghost use Rattle.wl_symbols.specs.Names.{at_place, chosen};
ghost use Rattle.wl_symbols.specs.Adding.{no_firsts, with_place};

use crate::linker_symbol::WasmLinkerSymbol;
use wl_linking::WasmSymbol;
use wl_words::WasmArgs;

/// A symbol, by the number of its object and its number there.
#[derive(Clone, Copy, PartialEq, Eq)]
pub(crate) struct Place {
    /// The object's number.
    pub(crate) object: usize,
    /// The symbol's number in the object.
    pub(crate) symbol: u32,
}

/// What a name or a symbol stands for.
#[derive(Clone, Copy, PartialEq, Eq, Hash)]
pub enum Definition {
    /// The symbol of that number in the object of that number.
    Symbol { object: usize, symbol: u32 },
    /// What the linker makes.
    Made(WasmLinkerSymbol),
}

/// How a symbol defines its name.
#[derive(Clone, Copy, PartialEq, Eq)]
pub(crate) enum Strength {
    /// For good: no other object may define the name so.
    Strong,
    /// Where no strong symbol has the name.
    Weak,
    /// Not at all: the symbol refers to what the name stands for.
    Undefined,
}

/// The first symbol of each strength.
#[derive(Clone, Copy, PartialEq, Eq)]
pub(crate) struct Firsts {
    pub(crate) strong: Option<Place>,
    pub(crate) weak: Option<Place>,
    pub(crate) undefined: Option<Place>,
}

/// How a symbol defines its name.
pub(crate) fn strength_of(symbol: &WasmSymbol<'_>) -> Strength
    ensures { result ≡ strength_of symbol.now }
{
    if symbol.is_undefined() {
        Strength::Undefined
    } else if symbol.is_weak() {
        Strength::Weak
    } else {
        Strength::Strong
    }
}

/// Other objects don't know the symbol by a name.
pub(crate) fn is_private(symbol: &WasmSymbol<'_>) -> bool
    ensures { result ≡ is_private symbol.now }
{
    symbol.is_local() || !symbol.has_name()
}

impl Definition {
    /// The symbol of a place.
    pub(crate) fn at(place: Place) -> Self
        ensures { result ≡ at_place place }
    {
        Definition::Symbol {
            object: place.object,
            symbol: place.symbol,
        }
    }
}

impl Firsts {
    /// No symbol.
    pub(crate) fn none() -> Self
        ensures { result ≡ no_firsts }
    {
        Firsts {
            strong: None,
            weak: None,
            undefined: None,
        }
    }

    /// With one more symbol, after these.
    pub(crate) fn with(self, strength: Strength, place: Place) -> Self
        ensures { result ≡ with_place self strength place }
    {
        match strength {
            Strength::Strong => Firsts {
                strong: self.strong.or(Some(place)),
                ..self
            },
            Strength::Weak => Firsts {
                weak: self.weak.or(Some(place)),
                ..self
            },
            Strength::Undefined => Firsts {
                undefined: self.undefined.or(Some(place)),
                ..self
            },
        }
    }

    /// What their name stands for under these options.
    pub(crate) fn choose(self, name: &str, args: &WasmArgs) -> Option<Definition>
        ensures { result ≡ chosen self (made_of args.now name.now) }
    {
        // Most names are defined: what the linker makes is looked for where one isn't.
        if let Some(place) = self.strong.or(self.weak) {
            return Some(Definition::at(place));
        }
        if let Some(made) = WasmLinkerSymbol::parse_existing(name, args) {
            return Some(Definition::Made(made));
        }
        self.undefined.map(Definition::at)
    }
}
