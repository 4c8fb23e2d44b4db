//! The function at which the program starts.

ghost use Rattle.std.specs.Prelude.{◌≡◌, OnOk, IfErr};
ghost use Rattle.wl_linking.specs.Steps.{Clear, Refuses};
ghost use Rattle.wl_custom.specs.Symbols.{is_defined_function};
ghost use Rattle.wl_live.specs.Entry.{gives_function, IsEntryFault};

use std::alloc::Global;
use wl_linking::LinkError;
use wl_lists::Text;
use wl_symbols::{Definition, SymbolTable};

/// Whether this is a function that an object defines.
fn gives_function(symbols: &SymbolTable<'_, '_>, definition: Option<Definition>) -> bool
    ensures { result ≡ gives_function symbols.now definition }
{
    match definition {
        Some(Definition::Symbol { object, symbol }) => {
            match symbols.symbol(object, symbol) {
                Some(symbol) => symbol.is_defined_function(),
                None => false,
            }
        }
        Some(Definition::Made(_)) | None => false,
    }
}

/// Sees that an object defines the function at which the program starts, if one is asked for.
///
/// # Errors
/// `EntryNotDefined` where the name of the entry stands for no function that an object defines.
pub fn check_entry(alloc: Global, symbols: &SymbolTable<'_, '_>) -> Result<(), LinkError>
    ensures clear { OnOk result (Clear (IsEntryFault symbols.now)) }
    ensures err { IfErr result (Refuses (IsEntryFault symbols.now)) }
{
    let Some(name) = &symbols.args().entry else {
        return Ok(());
    };
    if gives_function(symbols, symbols.lookup(name.as_str())) {
        return Ok(());
    }
    Err(LinkError::EntryNotDefined {
        name: Text::new(String::from_str(alloc, name.as_str())?),
    })
}
