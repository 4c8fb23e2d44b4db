//! What kept relocations ask for.

ghost use Rattle.std.specs.Prelude.{◌≡◌};
ghost use Rattle.wl_bind.specs.FunctionSymbols.{function_bindings};
ghost use Rattle.wl_bind.specs.Scan.{names_data, names_function, got_mem_of, got_func_of, table_function_of, asks_for_table, definition_name};

use crate::binding::FunctionTarget;
use crate::got::{GotFunc, GotMem, TableFunctions};
use crate::targets::FunctionBindings;
use std::marker::Model;
use wl_symbols::{Definition, LinkInput, Relocated};

/// What kept relocations ask the linker for.
#[derive(Clone, Copy, PartialEq, Eq)]
pub struct RelocNeeds {
    /// The base of the memory: an address is counted from it.
    pub memory_base: bool,
    /// The base of the table: a slot is counted from it.
    pub table_base: bool,
    /// The table.
    pub table: bool,
}

/// What kept relocations ask for. Clauses see it as a `Scanned`, a record of the lists.
pub struct RelocScan<'a> {
    /// The data whose address a global holds, each once.
    pub got_mem: GotMem<'a>,
    /// The functions whose slot in the table a global holds, each once.
    pub got_func: GotFunc<'a>,
    /// The functions that the table holds, each once.
    pub table_functions: TableFunctions,
    /// What else is asked for.
    pub needs: RelocNeeds,
}

impl<'a> Model for RelocScan<'a> {
    ghost use Rattle.wl_bind.specs.Scan.{Scanned};

    ghost Value = { Scanned };

    ghost view = { λ s. record {
      got_mem = s.got_mem;
      got_func = s.got_func;
      table_functions = s.table_functions;
      needs = s.needs;
    } };
}

impl<'a> Drop for RelocScan<'a> {
    fn drop(self) {
        let Self {
            got_mem: _,
            got_func: _,
            table_functions: _,
            needs: _,
        } = self;
    }
}

/// Whether a relocation names a data symbol.
fn names_data(input: &LinkInput<'_, '_>, relocated: &Relocated) -> bool
    ensures { result ≡ names_data input.now relocated.now }
{
    match input
        .symbols()
        .symbol(relocated.object, relocated.relocation.index)
    {
        None => false,
        Some(symbol) => symbol.kind.is_data(),
    }
}

/// Whether a relocation names a function symbol.
fn names_function(input: &LinkInput<'_, '_>, relocated: &Relocated) -> bool
    ensures { result ≡ names_function input.now relocated.now }
{
    match input
        .symbols()
        .symbol(relocated.object, relocated.relocation.index)
    {
        None => false,
        Some(symbol) => symbol.kind.is_function(),
    }
}

/// The name of a definition: of the symbol, or of what the linker makes. Nothing has an empty one.
pub(crate) fn definition_name<'a>(input: &LinkInput<'_, 'a>, definition: Definition) -> &'a [u8]
    ensures { result.now ≡ definition_name input.now definition }
{
    match definition {
        Definition::Symbol { object, symbol } => {
            match input.symbols().symbol(object, symbol) {
                None => b"",
                Some(symbol) => symbol.name.as_bytes(),
            }
        }
        Definition::Made(made) => made.name(),
    }
}

/// The entry that a relocation asks for in the GOT list of data: the definition of a data symbol
/// under the number of a global.
pub fn got_mem_of(input: &LinkInput<'_, '_>, relocated: &Relocated) -> Option<Definition>
    ensures { result ≡ got_mem_of input.now relocated.now }
{
    if relocated.relocation.ty.is_global_index() && names_data(input, relocated) {
        let symbols = input.symbols();
        Some(symbols.definition(relocated.object, relocated.relocation.index))
    } else {
        None
    }
}

/// The entry that a relocation asks for in the GOT list of functions: the definition of a function
/// symbol under the number of a global, and the function that it leads to.
pub(crate) fn got_func_of(
    input: &LinkInput<'_, '_>,
    bindings: &FunctionBindings,
    relocated: &Relocated,
) -> Option<(Definition, FunctionTarget)>
    requires { bindings.now ≡ function_bindings input.now }
    ensures { result ≡ got_func_of input.now relocated.now }
{
    if relocated.relocation.ty.is_global_index() && names_function(input, relocated) {
        let (object, symbol) = (relocated.object, relocated.relocation.index);
        let target = bindings.function(input, object, symbol)?;
        Some((input.symbols().definition(object, symbol), target))
    } else {
        None
    }
}

/// The function that a function symbol under the slot of a function or the number of a global leads
/// to, unless it is a stub.
pub(crate) fn table_function_of(
    input: &LinkInput<'_, '_>,
    bindings: &FunctionBindings,
    relocated: &Relocated,
) -> Option<FunctionTarget>
    requires { bindings.now ≡ function_bindings input.now }
    ensures { result ≡ table_function_of input.now relocated.now }
{
    let ty = relocated.relocation.ty;
    if (ty.is_table_index() || ty.is_global_index()) && names_function(input, relocated) {
        match bindings.function(input, relocated.object, relocated.relocation.index)? {
            FunctionTarget::Stub { .. } => None,
            target @ (FunctionTarget::Defined { .. }
            | FunctionTarget::Made(_)
            | FunctionTarget::Host { .. }) => Some(target),
        }
    } else {
        None
    }
}

/// Whether a relocation asks for the table: by the slot of a function, by the table's number, or by
/// the number of a global, if it names a function.
pub(crate) fn asks_for_table(input: &LinkInput<'_, '_>, relocated: &Relocated) -> bool
    ensures { result ≡ asks_for_table input.now relocated.now }
{
    let ty = relocated.relocation.ty;
    ty.is_table_index()
        || ty.is_table_number()
        || (ty.is_global_index() && names_function(input, relocated))
}
