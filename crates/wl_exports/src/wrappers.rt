//! Exports that are wrapped, so that the constructors run before each call.

ghost use Rattle.std.specs.Prelude.{◌≡◌, ◌≤◌, ◌<◌, ◌+◌, ◌^◌, ◌&&◌, [], ◌∷◌, ◌++◌, length, IfOk, OnOk};
ghost use Rattle.std.specs.List.{list_any};
ghost use Rattle.wl_index.specs.declared.index.TheConstants.{MAX_ENTRIES};
ghost use Rattle.wl_module.specs.declared.imports.ExternalKind.TheVariants as external;
ghost use Rattle.wl_linking.specs.Spaces.{is_of_kind};
ghost use Rattle.wl_bind.specs.FunctionSpace.{host_function_part, function_space};
ghost use Rattle.wl_symbols.specs.Input.{Input as Linked};
ghost use Rattle.wl_exports.specs.Exports.{ExportEntry};
ghost use Rattle.wl_exports.specs.Sources.{IsPlainExport, ArePlainExports};
ghost use Rattle.wl_exports.specs.steps.Wrappers.{with_export, with_wrapper};
ghost use Rattle.wl_exports.specs.Wrapped.{AreOutputExports, AreWrappers};
ghost use Rattle.wl_exports.specs.Wrappers.{is_ctors_name, calls_ctors, wraps, can_wrap, is_own_function, wrapped};

use std::alloc::{AllocError, Global};
use std::marker::Model;
use wl_bind::has_init_functions;
use wl_linking::File;
use wl_lists::ItemList;
use wl_module::{ExternalKind, Import, ImportEntity, OutputExport};
use wl_symbols::{LinkInput, WasmLinkerSymbol};

/// A wrapper. Clauses see it as a `WrapperEntry`.
#[derive(Drop)]
pub struct Wrapper<'a> {
    /// The name of its export.
    pub name: &'a str,
    /// The index of the function that it calls.
    pub original: u32,
}

impl<'a> Model for Wrapper<'a> {
    ghost use Rattle.wl_exports.specs.Wrapped.{WrapperEntry};

    ghost Value = { WrapperEntry };

    ghost view = { λ w. record { name = w.name.now; original = w.original } };
}

// ---- whether exports are wrapped

/// Whether the name is that of what calls the constructors.
fn is_ctors_name(name: &str) -> bool
    ensures { result ≡ is_ctors_name name.now }
{
    name == WasmLinkerSymbol::CallCtors.text()
}

/// Whether it is the import of a function that calls the constructors.
fn is_ctors_import(import: &Import<'_>) -> bool
    ensures { result
        ≡ (is_of_kind external.Func import.now.entity && is_ctors_name import.now.name) }
{
    matches!(import.entity, ImportEntity::Func(_)) && is_ctors_name(import.name)
}

/// Whether one of these is such an import.
fn imports_ctors(imports: &[Import<'_>]) -> bool
    ensures { result
        ≡ list_any (λ i. is_of_kind external.Func i.entity && is_ctors_name i.name) imports.now }
{
    imports.iter().any(|import| is_ctors_import(import))
}

/// Whether the object calls the constructors itself: it imports a function of that name, or exports
/// something.
fn calls_ctors(file: &File<'_>) -> bool
    ensures { result ≡ calls_ctors file.now }
{
    imports_ctors(file.imports()) || exports_ctors(file.exports())
}

/// Whether an object calls the constructors itself.
fn has_own_call(input: &LinkInput<'_, '_>) -> bool
    ensures { result ≡ list_any calls_ctors input.now.link.objects }
{
    let files = input.files().as_slice();
    files.iter().any(|file| calls_ctors(file))
}

/// Whether an export has the name of what calls the constructors.
fn exports_ctors(exports: &[OutputExport<'_>]) -> bool
    ensures { result ≡ list_any (λ x. is_ctors_name x.name) exports.now }
{
    exports.iter().any(|export| is_ctors_name(export.name))
}

/// Whether exports are wrapped.
fn wraps(input: &LinkInput<'_, '_>, exports: &[OutputExport<'_>]) -> bool
    requires { ArePlainExports input.now exports.now }
    ensures { result ≡ wraps input.now }
{
    if !has_init_functions(input) {
        return false;
    }
    if has_own_call(input) {
        return false;
    }
    !exports_ctors(exports)
}

/// Whether the export is that of a function that isn't imported.
fn is_own(export: &OutputExport<'_>, hosts: usize) -> bool
    ensures { (input : Linked) (e : ExportEntry) → hosts ≡ length (host_function_part input)
        → IsPlainExport input e export.now → result ≡ is_own_function e.entity }
{
    match export.kind {
        ExternalKind::Func => hosts <= export.index as usize,
        ExternalKind::Table | ExternalKind::Memory | ExternalKind::Global => false,
    }
}

/// Whether the export is that of such a function, but for what fills the block of a thread.
fn can_wrap(export: &OutputExport<'_>, hosts: usize) -> bool
    ensures { (input : Linked) (e : ExportEntry) → hosts ≡ length (host_function_part input)
        → IsPlainExport input e export.now → result ≡ can_wrap e }
{
    let is_own = is_own(export, hosts);
    is_own && WasmLinkerSymbol::InitTls.text() != export.name
}

// ---- wrapping

/// How many exports are wrapped.
pub(crate) fn count_wrappers(
    input: &LinkInput<'_, '_>,
    hosts: usize,
    exports: &[OutputExport<'_>],
) -> usize
    requires hosts { hosts ≡ length (host_function_part input.now) }
    requires plain { ArePlainExports input.now exports.now }
    ensures { result ≡ length (wrapped input.now) }
{
    if !wraps(input, exports) {
        return 0;
    }
    let mut count = 0;
    for export in exports {
        count += usize::from(can_wrap(export, hosts));
    }
    count
}

/// Whether the export is wrapped, where any is.
fn is_wrapped(export: &OutputExport<'_>, hosts: usize, wraps: bool) -> bool
    ensures { (input : Linked) (e : ExportEntry) → hosts ≡ length (host_function_part input)
        → IsPlainExport input e export.now → result ≡ (wraps && can_wrap e) }
{
    wraps && can_wrap(export, hosts)
}

/// Adds the wrapper of an export, and returns its index: the wrappers follow so many functions.
fn push_wrapper<'a>(
    wrappers: &mut ItemList<Wrapper<'a>>,
    functions: usize,
    export: &OutputExport<'a>,
) -> Result<u32, AllocError>
    requires { functions + length wrappers.old < 2 ^ 32 }
    ensures index { IfOk result (λ index. index ≡ functions + length wrappers.old) }
    ensures grown { OnOk result (wrappers.new ≡ wrappers.old
        ++ record { name = export.now.name; original = export.now.index } ∷ []) }
{
    let index = functions + wrappers.as_slice().len();
    wrappers.push(Wrapper {
        name: export.name,
        original: export.index,
    })?;
    Ok(index as u32)
}

/// Adds an export, and its wrapper if it is wrapped.
fn push_wrapped<'a>(
    wrapped: &mut ItemList<OutputExport<'a>>,
    wrappers: &mut ItemList<Wrapper<'a>>,
    functions: usize,
    export: &OutputExport<'a>,
    wraps: bool,
) -> Result<(), AllocError>
    requires { functions + length wrappers.old < 2 ^ 32 }
    ensures export { OnOk result (wrapped.new
        ≡ with_export wraps (functions + length wrappers.old) export.now wrapped.old) }
    ensures wrapper { OnOk result (wrappers.new ≡ with_wrapper wraps export.now wrappers.old) }
{
    let index = if wraps {
        push_wrapper(wrappers, functions, export)?
    } else {
        export.index
    };
    wrapped.push(OutputExport {
        name: export.name,
        kind: export.kind,
        index,
    })
}

/// The exports of the output, and the wrappers that some of them lead to. So many functions are
/// imported, and so many are there without wrappers; the wrappers follow them, in the order
/// of their exports.
///
/// # Errors
/// `AllocError` where memory runs out.
pub(crate) fn wrap_exports<'a>(
    alloc: Global,
    input: &LinkInput<'_, 'a>,
    hosts: usize,
    functions: usize,
    exports: ItemList<OutputExport<'a>>,
) -> Result<(ItemList<OutputExport<'a>>, ItemList<Wrapper<'a>>), AllocError>
    requires hosts { hosts ≡ length (host_function_part input.now) }
    requires functions { functions ≡ length (function_space input.now) }
    requires room { length (function_space input.now) + length (wrapped input.now) ≤ MAX_ENTRIES }
    requires plain { ArePlainExports input.now exports }
    ensures exports { IfOk result (λ r. AreOutputExports input.now r.0) }
    ensures wrappers { IfOk result (λ r. AreWrappers input.now r.1) }
{
    let wraps = wraps(input, exports.as_slice());
    let mut wrapped = ItemList::empty(alloc);
    let mut wrappers = ItemList::empty(alloc);
    for export in exports.as_slice() {
        let is_wrapped = is_wrapped(export, hosts, wraps);
        push_wrapped(&mut wrapped, &mut wrappers, functions, export, is_wrapped)?;
    }
    Ok((wrapped, wrappers))
}
