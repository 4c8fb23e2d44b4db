//! Functions of another type than the one under which an object knows them.

ghost use Rattle.std.specs.Prelude.{◌≡◌, ℕ, OnOk, IfOk, IfErr, Some, false, find, slice_get};
ghost use Rattle.wl_linking.specs.Steps.{Clear};
ghost use Rattle.wl_symbols.specs.Entries.{symbol_in};
ghost use Rattle.wl_bind.specs.FunctionSymbols.{function_bindings};
ghost use Rattle.wl_symbols.specs.Relocations.{relocations};
ghost use Rattle.wl_bind.specs.Signatures.{OnKeptSlot, NamedByInit, IsMismatch};
ghost use Rattle.wl_bind.specs.BindingSteps.{slot_numbers, is_mismatch, names_mismatch, TellsMismatch, AreOwnClear};

use crate::targets::FunctionBindings;
use crate::types::{SlotTypes, declared_type, is_other_type};
use std::alloc::{AllocError, Global};
use wl_linking::{File, LinkError, WasmSymbol, WasmSymbolKind};
use wl_symbols::{LinkInput, Relocated};

/// What types are compared by: what function slots are bound to, and their types.
#[derive(Drop)]
pub(crate) struct TypeCheck<'c, 'i, 'a> {
    pub(crate) input: &'c LinkInput<'i, 'a>,
    pub(crate) bindings: &'c FunctionBindings,
    types: SlotTypes,
    ghost bound: { bindings.now ≡ function_bindings input.now },
    ghost typed: { types ≡ slot_numbers input.now.link.objects },
}

impl<'c, 'i, 'a> TypeCheck<'c, 'i, 'a> {
    /// What types are compared by.
    ///
    /// # Errors
    /// `AllocError` where memory runs out.
    pub(crate) fn new(
        alloc: Global,
        input: &'c LinkInput<'i, 'a>,
        bindings: &'c FunctionBindings,
    ) -> Result<Self, AllocError>
        requires { bindings.now ≡ function_bindings input.now }
        ensures input { IfOk result (λ check. check.input.now ≡ input.now) }
        ensures bindings { IfOk result (λ check. check.bindings.now ≡ bindings.now) }
    {
        Ok(TypeCheck {
            input,
            bindings,
            types: SlotTypes::new(alloc, input.files())?,
        })
    }

    /// Whether a symbol of that number is a function's, and leads to one of another type.
    pub(crate) fn leads_to_other(&self, object: usize, number: u32, symbol: &WasmSymbol<'_>) -> bool
        requires { symbol_in self.now.input.now.link.objects object number ≡ Some symbol.now }
        ensures { result ≡ is_mismatch self.now.input.now object number }
    {
        // One that is defined and isn't weak leads to what its object defines, of that type.
        if !symbol.kind.is_function() || (symbol.is_defined() && !symbol.is_weak()) {
            return false;
        }
        let Some(target) = self.bindings.function(self.input, object, number) else {
            return false;
        };
        let files = self.input.files();
        match declared_type(files, &self.types, object, symbol) {
            None => false,
            Some(declared) => is_other_type(files, declared, target),
        }
    }

    /// Sees that a function symbol leads to no function of another type.
    fn check_symbol(&self, object: usize, number: u32) -> Result<(), LinkError>
        ensures clear { OnOk result (is_mismatch self.now.input.now object number ≡ false) }
        ensures err { IfErr result (TellsMismatch self.now.input.now object number) }
    {
        let Some(symbol) = self.input.symbols().symbol(object, number) else {
            return Ok(());
        };
        if self.leads_to_other(object, number, symbol) {
            Err(LinkError::SignatureMismatch {
                object,
                symbol: number,
            })
        } else {
            Ok(())
        }
    }

    /// The same of a symbol that is undefined, on a slot that is kept.
    fn check_undefined(
        &self,
        object: usize,
        number: u32,
        symbol: &WasmSymbol<'_>,
    ) -> Result<(), LinkError>
        requires { symbol_in self.now.input.now.link.objects object number ≡ Some symbol.now }
        ensures clear { OnOk result (OnKeptSlot self.now.input.now object number
            → is_mismatch self.now.input.now object number ≡ false) }
        ensures err { IfErr result (IsMismatch self.now.input.now) }
    {
        let input = self.input;
        if !symbol.is_undefined() || !input.keeps_slot(WasmSymbolKind::Func, object, symbol.index) {
            return Ok(());
        }
        self.check_symbol(object, number)
    }

    /// The same of the undefined symbols of an object.
    fn check_slots(&self, object: usize, file: &File<'_>) -> Result<(), LinkError>
        requires { slice_get self.now.input.now.link.objects object ≡ Some file.now }
        ensures clear { OnOk result ((number : ℕ) → OnKeptSlot self.now.input.now object number
            → is_mismatch self.now.input.now object number ≡ false) }
        ensures err { IfErr result (IsMismatch self.now.input.now) }
    {
        file.stands_for_an_object();
        let symbols = file.symbols();
        for (i, symbol) in symbols.iter().enumerate() {
            self.check_undefined(object, i as u32, symbol)?;
        }
        Ok(())
    }

    /// The same of the symbols of functions of an object that run at the start.
    fn check_inits(&self, object: usize, file: &File<'_>) -> Result<(), LinkError>
        requires { slice_get self.now.input.now.link.objects object ≡ Some file.now }
        ensures clear { OnOk result ((number : ℕ) → NamedByInit self.now.input.now object number
            → is_mismatch self.now.input.now object number ≡ false) }
        ensures err { IfErr result (IsMismatch self.now.input.now) }
    {
        for function in file.init_funcs() {
            self.check_symbol(object, function.symbol_index)?;
        }
        Ok(())
    }

    /// The same of the symbols that objects name without a relocation.
    fn check_objects(&self) -> Result<(), LinkError>
        ensures clear { OnOk result ((object : ℕ) → AreOwnClear self.now.input.now object) }
        ensures err { IfErr result (IsMismatch self.now.input.now) }
    {
        let files = self.input.files().as_slice();
        for (object, file) in files.iter().enumerate() {
            self.check_slots(object, file)?;
            self.check_inits(object, file)?;
        }
        Ok(())
    }

    /// Sees that the function symbols that are looked at lead to functions of the types under which
    /// their objects know them: those that kept relocations name, of which the first that doesn't is
    /// known, the undefined ones on kept slots, and those of functions that run at the start.
    ///
    /// # Errors
    /// `SignatureMismatch` names a symbol that leads to a function of another type.
    #[tactic(auto, using(crate::proofs::MismatchLaws::a_relocation))]
    pub(crate) fn check(&self, mismatch: Option<Relocated>) -> Result<(), LinkError>
        requires { mismatch
            ≡ find (names_mismatch self.now.input.now) (relocations self.now.input.now) }
        ensures clear { OnOk result (Clear (IsMismatch self.now.input.now)) }
        ensures err { IfErr result (IsMismatch self.now.input.now) }
    {
        if let Some(relocated) = mismatch {
            return Err(LinkError::SignatureMismatch {
                object: relocated.object,
                symbol: relocated.relocation.index,
            });
        }
        self.check_objects()
    }
}
