//! The references of a link, bound step by step.

ghost use Rattle.std.specs.Prelude.{◌≡◌, OnOk, IfOk, IfErr};
ghost use Rattle.wl_linking.specs.Steps.{Clear, Refuses};
ghost use Rattle.wl_bind.specs.Bound.{bound_of, bind_fault};

use crate::function_slots::FunctionSlots;
use crate::global_slots::GlobalSlots;
use crate::report::report_disallowed_unresolved_imports;
use crate::resolution::ObjectImportResolutions;
use crate::scan::RelocScan;
use crate::scanning::scan_with;
use crate::shared::{SharedUnresolvedImports, check_hosts};
use crate::slot_rows::join_rows;
use crate::stubs::stub_types;
use crate::targets::FunctionBindings;
use std::alloc::Global;
use std::marker::Model;
use wl_linking::LinkError;
use wl_lists::ItemList;
use wl_module::FuncType;
use wl_symbols::LinkInput;

/// What the references of a link are bound to. Clauses see it as a `Bound`.
#[derive(Drop)]
pub struct BoundReferences<'a> {
    /// The functions that function slots are bound to.
    pub functions: FunctionBindings,
    /// What the import slots of each object are resolved to.
    pub resolutions: ItemList<ObjectImportResolutions>,
    /// What kept relocations ask for.
    pub scan: RelocScan<'a>,
    /// The types of the stubs, in order.
    pub stubs: ItemList<FuncType>,
    /// What the host is asked for.
    pub shared: SharedUnresolvedImports<'a>,
}

impl<'a> Model for BoundReferences<'a> {
    ghost use Rattle.wl_bind.specs.Bound.{Bound};

    ghost Value = { Bound };

    ghost view = { λ b. record {
      functions = b.functions;
      resolutions = b.resolutions;
      scan = b.scan;
      stubs = b.stubs;
      shared = b.shared;
    } };
}

/// Binds the references of a link: its import slots by the first rule that applies, and with them
/// what its kept relocations name.
///
/// # Errors
/// `WrongKind` where a symbol is of another kind than its use asks for; then `SignatureMismatch`
/// where a function is of another type than the one under which an object knows it; then
/// `UndefinedSymbols` where data has to be defined, and isn't; then `ConflictingTypes` of the slots
/// of a stub; then `UndefinedSymbols` of functions and globals; then `ConflictingTypes` of the
/// slots of a host import.
#[tactic(auto, using(crate::proofs::StubLaws::all_joined))]
pub fn bind_references<'a>(
    alloc: Global,
    input: &LinkInput<'_, 'a>,
) -> Result<BoundReferences<'a>, LinkError>
    ensures ok { IfOk result (λ bound. bound ≡ bound_of input.now) }
    ensures clear { OnOk result (Clear (bind_fault input.now)) }
    ensures err { IfErr result (Refuses (bind_fault input.now)) }
{
    let functions = FunctionSlots::new(alloc, input)?;
    let scan = scan_with(alloc, input, &functions.bindings)?;
    let stubs = stub_types(alloc, input, &functions)?;
    let globals = GlobalSlots::new(alloc, input, &scan)?;
    let rows = join_rows(alloc, functions.resolutions, globals.resolutions)?;
    report_disallowed_unresolved_imports(alloc, input, &rows)?;
    check_hosts(alloc, input, &functions.hosts, &globals.hosts)?;
    Ok(BoundReferences {
        functions: functions.bindings,
        resolutions: ItemList::new(rows),
        scan,
        stubs: ItemList::new(stubs),
        shared: SharedUnresolvedImports::of(functions.hosts, globals.hosts),
    })
}
