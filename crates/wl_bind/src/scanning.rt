//! Goes through the kept relocations once, and refuses those that nothing can be bound to.

ghost use Rattle.std.specs.Prelude.{◌≡◌, OnOk, IfOk, IfErr};
ghost use Rattle.wl_linking.specs.Steps.{Clear, Refuses};
ghost use Rattle.wl_bind.specs.FunctionSymbols.{function_bindings};
ghost use Rattle.wl_bind.specs.Kinds.{IsWrongKind};
ghost use Rattle.wl_bind.specs.Scan.{scan_of};
ghost use Rattle.wl_bind.specs.ScanFaults.{scan_fault};
ghost use Rattle.wl_bind.specs.steps.Scanning.{first_such, with_faults, with_needs, with_entries, found_in, nothing_found, scan_part};
ghost use Rattle.wl_bind.specs.steps.Walks.{entries_by, faults_by, found_by};
ghost use Rattle.wl_bind.specs.Signatures.{IsMismatch};
ghost use Rattle.wl_bind.specs.Undefined.{IsUndefinedData};

use crate::binding::FunctionTarget;
use crate::function_slots::FunctionSlots;
use crate::got::{GotList, TableFunctions, add_some};
use crate::kinds::check_kinds;
use crate::questions::{
    ListEntries, RelocFaults, asks_for_entries, entries_of, faults_of, needs_by,
};
use crate::scan::{RelocNeeds, RelocScan};
use crate::signatures::TypeCheck;
use crate::targets::FunctionBindings;
use crate::undefined::{UndefinedNames, check_undefined_data};
use indexmap::IndexMap;
use std::alloc::{AllocError, Global};
use wl_linking::LinkError;
use wl_symbols::{Definition, LinkInput, Relocated, kept_relocations};

// ---- one relocation

/// Keeps the first relocation that is such a one.
fn note_first(first: &mut Option<Relocated>, is_such: bool, relocated: &Relocated)
    ensures { first.new ≡ first_such first.old is_such relocated.now }
{
    if first.is_none() && is_such {
        *first = Some(*relocated);
    }
}

// ---- one walk

/// What one walk over the kept relocations finds: what they ask for, and for each reason to refuse
/// one the first, or all names.
#[derive(Drop)]
struct Walk<'a> {
    got_mem: IndexMap<Definition, &'a [u8]>,
    got_func: IndexMap<(Definition, FunctionTarget), &'a [u8]>,
    table_functions: TableFunctions,
    needs: RelocNeeds,
    /// The first that doesn't take the symbol that it names.
    wrong: Option<Relocated>,
    /// The first that names a function of another type.
    mismatch: Option<Relocated>,
    /// The undefined data that is named.
    undefined: UndefinedNames<'a>,
}

impl<'a> Walk<'a> {
    /// Before the first relocation.
    fn new(alloc: Global) -> Self
        ensures { found_by result ≡ nothing_found }
    {
        Walk {
            got_mem: IndexMap::new(alloc),
            got_func: IndexMap::new(alloc),
            table_functions: TableFunctions::new(alloc),
            needs: RelocNeeds {
                memory_base: false,
                table_base: false,
                table: false,
            },
            wrong: None,
            mismatch: None,
            undefined: UndefinedNames::new(alloc),
        }
    }

    /// Takes in for what one more relocation may be refused.
    ///
    /// # Errors
    /// `AllocError` where memory runs out.
    fn note_faults(
        &mut self,
        relocated: &Relocated,
        faults: RelocFaults<'a>,
    ) -> Result<(), AllocError>
        ensures { OnOk result (found_by self.new
            ≡ with_faults (found_by self.old) (faults_by faults.entry) relocated.now) }
    {
        note_first(&mut self.wrong, faults.is_wrong, relocated);
        note_first(&mut self.mismatch, faults.is_mismatch, relocated);
        self.undefined.add_some(faults.undefined)
    }

    /// Takes in what one more relocation asks for of the lists.
    ///
    /// # Errors
    /// `AllocError` where memory runs out.
    fn add_entries(&mut self, entries: ListEntries<'a>) -> Result<(), AllocError>
        ensures { OnOk result (found_by self.new
            ≡ with_entries (found_by self.old) (entries_by entries.entry)) }
    {
        add_some(&mut self.got_mem, entries.got_mem)?;
        add_some(&mut self.got_func, entries.got_func)?;
        self.table_functions.add_some(entries.table_function)?;
        Ok(())
    }

    /// Takes in what else one more relocation asks for.
    fn note_needs(&mut self, more: RelocNeeds)
        ensures { found_by self.new ≡ with_needs (found_by self.old) more }
    {
        self.needs.memory_base |= more.memory_base;
        self.needs.table_base |= more.table_base;
        self.needs.table |= more.table;
    }

    /// What the relocations ask for.
    ///
    /// # Errors
    /// `AllocError` where memory runs out.
    fn into_scan(self, alloc: Global) -> Result<RelocScan<'a>, AllocError>
        ensures { IfOk result (λ scan. scan ≡ scan_part (found_by self.entry)) }
    {
        Ok(RelocScan {
            got_mem: GotList::new(alloc, self.got_mem)?,
            got_func: GotList::new(alloc, self.got_func)?,
            table_functions: self.table_functions,
            needs: self.needs,
        })
    }
}

/// Goes through the kept relocations.
///
/// # Errors
/// `AllocError` where memory runs out.
fn walk_relocations<'a>(
    alloc: Global,
    check: &TypeCheck<'_, '_, 'a>,
) -> Result<Walk<'a>, AllocError>
    ensures { IfOk result (λ walk. found_by walk ≡ found_in check.now.input.now) }
{
    let mut walk = Walk::new(alloc);
    for relocated in kept_relocations(check.input) {
        walk.note_faults(&relocated, faults_of(check, &relocated))?;
        walk.note_needs(needs_by(check.input, &relocated));
        if asks_for_entries(&relocated) {
            walk.add_entries(entries_of(check, &relocated))?;
        }
    }
    Ok(walk)
}

/// What the kept relocations ask for, whatever is refused.
///
/// # Errors
/// `AllocError` where memory runs out.
pub(crate) fn gather<'a>(
    alloc: Global,
    input: &LinkInput<'_, 'a>,
    bindings: &FunctionBindings,
) -> Result<RelocScan<'a>, AllocError>
    requires { bindings.now ≡ function_bindings input.now }
    ensures { IfOk result (λ scan. scan ≡ scan_of input.now) }
{
    let check = TypeCheck::new(alloc, input, bindings)?;
    walk_relocations(alloc, &check)?.into_scan(alloc)
}

/// Sees that nothing that was found refuses the link. Judged in this order: kinds, types, undefined
/// data. The walk has noted the first of each.
///
/// # Errors
/// As [`scan_layout_relocations`].
fn check_found(
    alloc: Global,
    check: &TypeCheck<'_, '_, '_>,
    found: &Walk<'_>,
) -> Result<(), LinkError>
    requires { found_by found.now ≡ found_in check.now.input.now }
    ensures kinds { OnOk result (Clear (IsWrongKind check.now.input.now)) }
    ensures signatures { OnOk result (Clear (IsMismatch check.now.input.now)) }
    ensures undefined { OnOk result (Clear (IsUndefinedData check.now.input.now)) }
    ensures err { IfErr result (Refuses (scan_fault check.now.input.now)) }
{
    check_kinds(check.input, check.bindings, found.wrong)?;
    check.check(found.mismatch)?;
    check_undefined_data(alloc, check.input, &found.undefined)?;
    Ok(())
}

/// What the kept relocations ask for, where it is known what function slots are bound to.
///
/// # Errors
/// As [`scan_layout_relocations`].
pub(crate) fn scan_with<'a>(
    alloc: Global,
    input: &LinkInput<'_, 'a>,
    bindings: &FunctionBindings,
) -> Result<RelocScan<'a>, LinkError>
    requires { bindings.now ≡ function_bindings input.now }
    ensures ok { IfOk result (λ scan. scan ≡ scan_of input.now) }
    ensures kinds { OnOk result (Clear (IsWrongKind input.now)) }
    ensures signatures { OnOk result (Clear (IsMismatch input.now)) }
    ensures undefined { OnOk result (Clear (IsUndefinedData input.now)) }
    ensures err { IfErr result (Refuses (scan_fault input.now)) }
{
    let check = TypeCheck::new(alloc, input, bindings)?;
    let found = walk_relocations(alloc, &check)?;
    check_found(alloc, &check, &found)?;
    Ok(found.into_scan(alloc)?)
}

/// What the kept relocations ask for: entries of the GOT lists, functions of the table, and what
/// else the linker makes.
///
/// # Errors
/// `WrongKind` where a symbol is of another kind than its use asks for; then `SignatureMismatch`
/// where a function is of another type than the one under which an object knows it; then
/// `UndefinedSymbols` where data has to be defined, and isn't.
pub fn scan_layout_relocations<'a>(
    alloc: Global,
    input: &LinkInput<'_, 'a>,
) -> Result<RelocScan<'a>, LinkError>
    ensures ok { IfOk result (λ scan. scan ≡ scan_of input.now) }
    ensures kinds { OnOk result (Clear (IsWrongKind input.now)) }
    ensures signatures { OnOk result (Clear (IsMismatch input.now)) }
    ensures undefined { OnOk result (Clear (IsUndefinedData input.now)) }
    ensures err { IfErr result (Refuses (scan_fault input.now)) }
{
    let slots = FunctionSlots::new(alloc, input)?;
    scan_with(alloc, input, &slots.bindings)
}
