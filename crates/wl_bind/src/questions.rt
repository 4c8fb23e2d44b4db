//! What one kept relocation asks for, and why it may be refused: each question of the scan by itself.

ghost use Rattle.std.specs.Prelude.{◌≡◌, option_map};
ghost use Rattle.wl_bind.specs.FunctionSymbols.{function_bindings};
ghost use Rattle.wl_bind.specs.GotSteps.{named};
ghost use Rattle.wl_bind.specs.Scan.{got_mem_of, got_mem_entry, got_func_of, got_func_entry};
ghost use Rattle.wl_bind.specs.steps.Scanning.{asks_for_entries, entries_of, needs_by, faults_of};
ghost use Rattle.wl_bind.specs.steps.Walks.{entries_by, faults_by};

use crate::binding::FunctionTarget;
use crate::kinds::is_wrong_use;
use crate::scan::{
    RelocNeeds, asks_for_table, definition_name, got_func_of, got_mem_of, table_function_of,
};
use crate::signatures::TypeCheck;
use crate::targets::FunctionBindings;
use crate::undefined::undefined_data_of;
use wl_symbols::{Definition, LinkInput, Relocated};

// ---- what is asked for

/// The entry that a relocation asks for in the GOT list of data, with its name.
fn named_mem<'a>(input: &LinkInput<'_, 'a>, relocated: &Relocated) -> Option<(Definition, &'a [u8])>
    ensures { option_map named result
        ≡ option_map (got_mem_entry input.now) (got_mem_of input.now relocated.now) }
{
    let definition = got_mem_of(input, relocated)?;
    Some((definition, definition_name(input, definition)))
}

/// The entry that a relocation asks for in the GOT list of functions, with its name.
fn named_func<'a>(
    input: &LinkInput<'_, 'a>,
    bindings: &FunctionBindings,
    relocated: &Relocated,
) -> Option<((Definition, FunctionTarget), &'a [u8])>
    requires { bindings.now ≡ function_bindings input.now }
    ensures { option_map named result
        ≡ option_map (got_func_entry input.now) (got_func_of input.now relocated.now) }
{
    let (definition, target) = got_func_of(input, bindings, relocated)?;
    Some(((definition, target), definition_name(input, definition)))
}

/// What a relocation asks for of the lists. Definitions have their names.
#[derive(Clone, Copy)]
pub(crate) struct ListEntries<'a> {
    /// The entry of the GOT list of data.
    pub(crate) got_mem: Option<(Definition, &'a [u8])>,
    /// The entry of the GOT list of functions.
    pub(crate) got_func: Option<((Definition, FunctionTarget), &'a [u8])>,
    /// The function of the table.
    pub(crate) table_function: Option<FunctionTarget>,
}

/// Whether the type of a relocation is one by which the lists are asked for anything.
pub(crate) fn asks_for_entries(relocated: &Relocated) -> bool
    ensures { result ≡ asks_for_entries relocated.now }
{
    let ty = relocated.relocation.ty;
    ty.is_global_index() || ty.is_table_index()
}

/// What a relocation asks for of the lists.
pub(crate) fn entries_of<'a>(
    check: &TypeCheck<'_, '_, 'a>,
    relocated: &Relocated,
) -> ListEntries<'a>
    ensures { entries_by result ≡ entries_of check.now.input.now relocated.now }
{
    let (input, bindings) = (check.input, check.bindings);
    ListEntries {
        got_mem: named_mem(input, relocated),
        got_func: named_func(input, bindings, relocated),
        table_function: table_function_of(input, bindings, relocated),
    }
}

/// What else a relocation asks for.
pub(crate) fn needs_by(input: &LinkInput<'_, '_>, relocated: &Relocated) -> RelocNeeds
    ensures { result ≡ needs_by input.now relocated.now }
{
    let ty = relocated.relocation.ty;
    RelocNeeds {
        memory_base: ty.is_memory_relative(),
        table_base: ty.is_table_relative(),
        table: asks_for_table(input, relocated),
    }
}

// ---- what refuses it

/// Why a link is refused for a relocation, and the undefined data that it names.
#[derive(Clone, Copy)]
pub(crate) struct RelocFaults<'a> {
    /// It doesn't take the symbol that it names.
    pub(crate) is_wrong: bool,
    /// It names a function of another type.
    pub(crate) is_mismatch: bool,
    /// The object, and the name of undefined data.
    pub(crate) undefined: Option<(usize, &'a str)>,
}

/// Why a link is refused for a relocation. One against a type names no symbol.
pub(crate) fn faults_of<'a>(check: &TypeCheck<'_, '_, 'a>, relocated: &Relocated) -> RelocFaults<'a>
    ensures { faults_by result ≡ faults_of check.now.input.now relocated.now }
{
    let (input, number) = (check.input, relocated.relocation.index);
    let none = RelocFaults {
        is_wrong: false,
        is_mismatch: false,
        undefined: None,
    };
    if relocated.relocation.ty.names_a_type() {
        return none;
    }
    match input.symbols().symbol(relocated.object, number) {
        None => none,
        Some(symbol) => RelocFaults {
            is_wrong: is_wrong_use(input, relocated, symbol),
            is_mismatch: check.leads_to_other(relocated.object, number, symbol),
            undefined: undefined_data_of(input, relocated, symbol),
        },
    }
}
