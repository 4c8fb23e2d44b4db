//! Names that nothing defines.

ghost use Rattle.std.specs.Prelude.{◌≡◌, ◌↔◌, [], Some, false, option_map, IfOk, OnOk, OnErr, IfErr, IsTrue};
ghost use Rattle.wl_linking.specs.Steps.{Clear, Refuses};
ghost use Rattle.wl_bind.specs.Undefined.{wants_definition, is_undefined_definition, undefined_data_of, undefined_data, IsUndefinedData};
ghost use Rattle.wl_bind.specs.UndefinedSteps.{as_undefined, insert_some};
ghost use Rattle.wl_bind.specs.Scan.{symbol_of};
ghost use Rattle.wl_custom.specs.RelocationTypes.{names_a_type};

use indexmap::IndexSet;
use std::alloc::{AllocError, Global};
use std::marker::Model;
use wl_linking::{LinkError, UndefinedSymbol, WasmSymbol};
use wl_lists::{ItemList, Text};
use wl_symbols::{Definition, LinkInput, Relocated};

/// Names that nothing defines, each once with an object that refers to it, in order of first
/// occurrence. Clauses see them as a list.
pub(crate) struct UndefinedNames<'a> {
    names: IndexSet<(usize, &'a str)>,
}

impl<'a> Drop for UndefinedNames<'a> {
    fn drop(self) {
        let Self { names: _ } = self;
    }
}

impl<'a> Model for UndefinedNames<'a> {
    ghost use Rattle.std.specs.Prelude.{List, map};
    ghost use Rattle.wl_linking.specs.declared.error.UndefinedSymbol.{UndefinedSymbol as Undefined};
    ghost use Rattle.wl_bind.specs.UndefinedSteps.{as_undefined as seen};

    ghost Value = { List Undefined };

    ghost view = { λ u. map seen u.names.keys };
}

impl<'a> UndefinedNames<'a> {
    /// No names.
    pub(crate) fn new(alloc: Global) -> Self
        ensures { result ≡ [] }
    {
        UndefinedNames {
            names: IndexSet::new(alloc),
        }
    }

    /// Whether there are none.
    pub(crate) fn is_empty(&self) -> bool
        ensures { IsTrue result ↔ (self.now ≡ []) }
    {
        self.names.as_slice().is_empty()
    }

    /// Adds an object and a name, where there are, unless both are there.
    ///
    /// # Errors
    /// `AllocError` where memory runs out. The names are as they were then.
    pub(crate) fn add_some(&mut self, item: Option<(usize, &'a str)>) -> Result<(), AllocError>
        ensures ok { OnOk result
            (self.new ≡ insert_some self.old (option_map as_undefined item.entry)) }
        ensures err { OnErr result (self.new ≡ self.old) }
    {
        match item {
            None => Ok(()),
            Some(item) => {
                self.names.insert(item)?;
                Ok(())
            }
        }
    }

    /// The names as a refusal lists them.
    ///
    /// # Errors
    /// `AllocError` where memory runs out.
    pub(crate) fn symbols(&self, alloc: Global) -> Result<ItemList<UndefinedSymbol>, AllocError>
        ensures { IfOk result (λ symbols. symbols ≡ self.now) }
    {
        let mut symbols = ItemList::empty(alloc);
        let names = self.names.as_slice();
        for (object, name) in names {
            symbols.push(UndefinedSymbol {
                object: *object,
                name: Text::new(String::from_str(alloc, name)?),
            })?;
        }
        Ok(symbols)
    }
}

/// Whether a symbol has to be defined: an undefined one that isn't weak, and has no name of its
/// own.
pub(crate) fn wants_definition(symbol: &WasmSymbol<'_>) -> bool
    ensures { result ≡ wants_definition symbol.now }
{
    symbol.is_undefined() && !symbol.is_weak() && !symbol.is_explicit_name()
}

/// Whether what a symbol stands for is a symbol that its object doesn't define.
fn is_undefined_definition(input: &LinkInput<'_, '_>, definition: Definition) -> bool
    ensures { result ≡ is_undefined_definition input.now definition }
{
    match definition {
        Definition::Symbol { object, symbol } => match input.symbols().symbol(object, symbol) {
            None => false,
            Some(symbol) => symbol.is_undefined(),
        },
        Definition::Made(_) => false,
    }
}

/// The object and the name of the undefined data that a relocation names by that symbol, if it does.
pub(crate) fn undefined_data_of<'a>(
    input: &LinkInput<'_, 'a>,
    relocated: &Relocated,
    symbol: &WasmSymbol<'a>,
) -> Option<(usize, &'a str)>
    requires symbol { symbol_of input.now relocated.now ≡ Some symbol.now }
    requires no_type { names_a_type relocated.now.relocation.ty ≡ false }
    ensures { option_map as_undefined result ≡ undefined_data_of input.now relocated.now }
{
    let number = relocated.relocation.index;
    if symbol.kind.is_data()
        && wants_definition(symbol)
        && is_undefined_definition(input, input.symbols().definition(relocated.object, number))
    {
        Some((relocated.object, symbol.name))
    } else {
        None
    }
}

/// Sees that the data that kept relocations name is defined, unless names may be undefined, where
/// the names of what isn't are known.
///
/// # Errors
/// `UndefinedSymbols` where there is data that has to be defined, and isn't: it lists all of it,
/// each name once with an object, in order of first occurrence.
pub(crate) fn check_undefined_data(
    alloc: Global,
    input: &LinkInput<'_, '_>,
    names: &UndefinedNames<'_>,
) -> Result<(), LinkError>
    requires { names.now ≡ undefined_data input.now }
    ensures clear { OnOk result (Clear (IsUndefinedData input.now)) }
    ensures err { IfErr result (Refuses (IsUndefinedData input.now)) }
{
    if input.args().allow_undefined || names.is_empty() {
        return Ok(());
    }
    Err(LinkError::UndefinedSymbols(names.symbols(alloc)?))
}
