//! The functions that function slots are bound to, and that function symbols lead to.

ghost use Rattle.std.specs.Prelude.{◌≡◌, IsSome};
ghost use Rattle.wl_symbols.specs.Entries.{symbol_in};
ghost use Rattle.wl_bind.specs.FunctionBinding.{named_function};
ghost use Rattle.wl_bind.specs.FunctionSymbols.{function_of, fun, function_bindings};
ghost use Rattle.wl_bind.specs.BindingSteps.{row_at, defined_target};

use crate::binding::FunctionTarget;
use std::marker::Model;
use wl_linking::{File, WasmSymbol, WasmSymbolKind};
use wl_rows::RowList;
use wl_symbols::{LinkInput, SlotTarget, object_target, symbol_target};

/// What the function slots of each object are bound to, by their numbers: nothing where a slot
/// isn't kept. Clauses see it as a row for each object.
#[derive(Drop)]
pub struct FunctionBindings {
    rows: RowList<Option<FunctionTarget>>,
}

impl Model for FunctionBindings {
    ghost use Rattle.std.specs.Prelude.{List, Option};
    ghost use Rattle.wl_bind.specs.declared.binding.FunctionTarget.{FunctionTarget as Target};

    ghost Value = { List (List (Option Target)) };

    ghost view = { λ b. b.rows };
}

/// What names bind a slot to, as a function.
pub(crate) fn named_function(target: SlotTarget) -> FunctionTarget
    ensures { result ≡ named_function target }
{
    match target {
        SlotTarget::Defined { object, number } => FunctionTarget::Defined {
            object,
            function: number,
        },
        SlotTarget::Made(made) => FunctionTarget::Made(made),
    }
}

/// The function that a symbol leads to which its object defines.
fn defined_target(
    input: &LinkInput<'_, '_>,
    object: usize,
    number: u32,
    file: &File<'_>,
    symbol: &WasmSymbol<'_>,
) -> Option<FunctionTarget>
    requires here { IsSome (symbol_in input.now.link.objects object number) }
    ensures { result ≡ defined_target input.now object number file.now symbol.now }
{
    if symbol.is_weak() {
        let definition = input.symbols().definition(object, number);
        if let Some(target) = object_target(input.symbols(), WasmSymbolKind::Func, definition) {
            return Some(named_function(target));
        }
    }
    let target = symbol_target(WasmSymbolKind::Func, object, file, symbol)?;
    Some(named_function(target))
}

impl FunctionBindings {
    /// The bindings that these rows say.
    pub(crate) fn of(rows: RowList<Option<FunctionTarget>>) -> Self
        ensures { result ≡ rows }
    {
        FunctionBindings { rows }
    }

    /// What a function slot is bound to, if it is kept.
    fn binding(&self, object: usize, slot: u32) -> Option<FunctionTarget>
        ensures { result ≡ row_at self.now object slot }
    {
        self.rows.get(object, slot as usize)?
    }

    /// The function that a function symbol leads to.
    #[tactic(auto, using(crate::proofs::RowLaws::row_binding))]
    fn function_of(
        &self,
        input: &LinkInput<'_, '_>,
        object: usize,
        number: u32,
        file: &File<'_>,
        symbol: &WasmSymbol<'_>,
    ) -> Option<FunctionTarget>
        requires bindings { self.now ≡ function_bindings input.now }
        requires here { IsSome (symbol_in input.now.link.objects object number) }
        ensures { result ≡ function_of input.now object number file.now symbol.now }
    {
        if symbol.is_undefined() {
            self.binding(object, symbol.index)
        } else {
            defined_target(input, object, number, file, symbol)
        }
    }

    /// The function that a symbol leads to, if it is a function's.
    pub(crate) fn function(
        &self,
        input: &LinkInput<'_, '_>,
        object: usize,
        number: u32,
    ) -> Option<FunctionTarget>
        requires { self.now ≡ function_bindings input.now }
        ensures { result ≡ fun input.now object number }
    {
        let file = input.files().get(object)?;
        let symbol = file.symbols().get(number as usize)?;
        if symbol.kind.is_function() {
            self.function_of(input, object, number, file, symbol)
        } else {
            None
        }
    }
}
