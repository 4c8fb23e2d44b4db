//! Symbols of another kind than their use asks for.

ghost use Rattle.std.specs.Prelude.{◌≡◌, Some, find, OnOk, IfErr};
ghost use Rattle.wl_linking.specs.Steps.{Clear};
ghost use Rattle.wl_bind.specs.FunctionSymbols.{function_bindings};
ghost use Rattle.wl_bind.specs.FunctionTypes.{target_type};
ghost use Rattle.wl_bind.specs.Kinds.{is_wrong_use, takes_parameters, IsWrongKind};
ghost use Rattle.wl_bind.specs.steps.Kinds.{is_wrong_relocation, is_wrong_at, wrong_init_from};
ghost use Rattle.wl_bind.specs.Scan.{symbol_of};
ghost use Rattle.wl_symbols.specs.Relocations.{relocations};

use crate::binding::FunctionTarget;
use crate::targets::FunctionBindings;
use crate::types::type_of_defined;
use wl_linking::{LinkError, WasmInitFunc, WasmSymbol};
use wl_symbols::{Definition, LinkInput, Relocated, WasmLinkerSymbol};

// ---- relocations

/// Whether the relocation doesn't take the symbol that it names, or this is data that an object
/// defines as something else, or that is something else that the linker makes. With a memory, all
/// data of the linker's is exported as globals with addresses.
#[tactic(auto, using(crate::proofs::KindLaws::exported_with_memory))]
pub(crate) fn is_wrong_use(
    input: &LinkInput<'_, '_>,
    relocated: &Relocated,
    symbol: &WasmSymbol<'_>,
) -> bool
    requires { symbol_of input.now relocated.now ≡ Some symbol.now }
    ensures { result ≡ is_wrong_use input.now relocated.now symbol.now }
{
    let number = relocated.relocation.index;
    if !relocated.relocation.ty.takes_kind(symbol.kind) {
        return true;
    }
    if !symbol.kind.is_data() {
        return false;
    }
    match input.symbols().definition(relocated.object, number) {
        Definition::Symbol { object, symbol } => match input.symbols().symbol(object, symbol) {
            None => false,
            Some(symbol) => symbol.is_defined() && !symbol.kind.is_data(),
        },
        Definition::Made(made) => !made.exported_as_data_global(true),
    }
}

// ---- functions that run at the start

/// Whether a function takes parameters, of those whose type is known.
fn takes_parameters(input: &LinkInput<'_, '_>, target: FunctionTarget) -> bool
    ensures { result ≡ takes_parameters (target_type input.now.link.objects target) }
{
    match target {
        FunctionTarget::Defined { object, function } => {
            match type_of_defined(input.files(), object, function) {
                None => false,
                Some(ty) => !ty.params().is_empty(),
            }
        }
        FunctionTarget::Made(made) => matches!(made, WasmLinkerSymbol::InitTls),
        FunctionTarget::Host { object: _, slot: _ } | FunctionTarget::Stub { object: _, slot: _ } =>
            false,
    }
}

/// Whether the symbol of a function isn't for one that runs at the start.
fn is_wrong_init(
    input: &LinkInput<'_, '_>,
    bindings: &FunctionBindings,
    object: usize,
    function: &WasmInitFunc,
) -> bool
    requires { bindings.now ≡ function_bindings input.now }
    ensures { result ≡ is_wrong_at input.now object function.now }
{
    let number = function.symbol_index;
    let Some(symbol) = input.symbols().symbol(object, number) else {
        return false;
    };
    if !symbol.is_defined_function() {
        return true;
    }
    match bindings.function(input, object, number) {
        None => false,
        Some(target) => takes_parameters(input, target),
    }
}

/// The first such symbol, by the number of its object and its own.
fn find_wrong_init(input: &LinkInput<'_, '_>, bindings: &FunctionBindings) -> Option<(usize, u32)>
    requires { bindings.now ≡ function_bindings input.now }
    ensures { result ≡ wrong_init_from input.now 0 input.now.link.objects }
{
    let files = input.files().as_slice();
    for (object, file) in files.iter().enumerate() {
        for function in file.init_funcs() {
            if is_wrong_init(input, bindings, object, function) {
                return Some((object, function.symbol_index));
            }
        }
    }
    None
}

/// Sees that each symbol is of the kind that its use asks for: first those that kept relocations
/// name, of which the first that is wrong is known, then those of the functions that run at the
/// start.
///
/// # Errors
/// `WrongKind` where a relocation names a symbol of a kind that its type doesn't take, or data that
/// is defined as something else; and where a function that runs at the start isn't defined by its
/// object, or leads to one that takes parameters.
#[tactic(auto, using(crate::proofs::KindLaws::none_wrong, crate::proofs::KindLaws::a_wrong_use, crate::proofs::KindLaws::a_wrong_init))]
pub(crate) fn check_kinds(
    input: &LinkInput<'_, '_>,
    bindings: &FunctionBindings,
    wrong: Option<Relocated>,
) -> Result<(), LinkError>
    requires bindings { bindings.now ≡ function_bindings input.now }
    requires wrong { wrong ≡ find (is_wrong_relocation input.now) (relocations input.now) }
    ensures clear { OnOk result (Clear (IsWrongKind input.now)) }
    ensures err { IfErr result (IsWrongKind input.now) }
{
    if let Some(relocated) = wrong {
        return Err(LinkError::WrongKind {
            object: relocated.object,
            symbol: relocated.relocation.index,
        });
    }
    match find_wrong_init(input, bindings) {
        None => Ok(()),
        Some((object, symbol)) => Err(LinkError::WrongKind { object, symbol }),
    }
}
