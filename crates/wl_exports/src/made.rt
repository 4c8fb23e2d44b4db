//! Exports of what the linker makes.

ghost use Rattle.std.specs.Prelude.{◌≡◌, bytes_eq, OnOk, if◌then◌else◌, Some, None};
ghost use Rattle.std.specs.List.{list_any};
ghost use Rattle.std.specs.Option.{option_map};
ghost use Rattle.wl_symbols.specs.LinkerNames.{name_of};
ghost use Rattle.wl_bind.specs.ExportedData.{is_made_name};
ghost use Rattle.wl_bind.specs.Made.{is_made};
ghost use Rattle.wl_exports.specs.Exports.{export_of, made_entity, made_under, thread_exports, made_exports, stack_pointer_export};
ghost use Rattle.wl_exports.specs.steps.Exports.{IsPlainIf, AddsExports, kind_of_made, uses_mutable_globals};
ghost use Rattle.wl_exports.specs.Sources.{AreSources};

use crate::adding::push_some;
use crate::sources::ExportSources;
use std::alloc::AllocError;
use wl_features::TARGET_FEATURE_MUTABLE_GLOBALS;
use wl_module::{ExternalKind, OutputExport};
use wl_symbols::WasmLinkerSymbol;

/// Whether what the linker makes under a name is exported as a function; all else is a global.
fn kind_of(made: WasmLinkerSymbol) -> ExternalKind
    ensures { result ≡ kind_of_made made }
{
    if made.kind().is_function() {
        ExternalKind::Func
    } else {
        ExternalKind::Global
    }
}

/// The export of what the linker makes, under a name, where the output has it.
fn export_made<'a>(
    sources: &ExportSources<'_, '_, 'a>,
    made: WasmLinkerSymbol,
    name: &'a str,
) -> Option<OutputExport<'a>>
    requires { AreSources sources.now }
    ensures { IsPlainIf sources.now.input.now
        (if is_made sources.now.input.now made
        then Some (export_of name.now (made_entity made)) else None) result }
{
    let index = sources.indices.index(made)?;
    Some(OutputExport {
        name,
        kind: kind_of(made),
        index,
    })
}

/// The export of what the linker makes, under its own name, where the output has it.
fn export_named<'a>(
    sources: &ExportSources<'_, '_, 'a>,
    made: WasmLinkerSymbol,
) -> Option<OutputExport<'a>>
    requires { AreSources sources.now }
    ensures { IsPlainIf sources.now.input.now
        (if is_made sources.now.input.now made
        then Some (export_of (name_of made) (made_entity made)) else None) result }
{
    export_made(sources, made, made.text())
}

/// Whether the output has something that the linker makes under the name.
pub(crate) fn is_made_name(sources: &ExportSources<'_, '_, '_>, name: &str) -> bool
    requires { AreSources sources.now }
    ensures { result ≡ is_made_name sources.now.input.now name.now }
{
    match WasmLinkerSymbol::parse(name) {
        None => false,
        Some(made) => sources.indices.index(made).is_some(),
    }
}

/// The export of what the linker makes under a name, where the output has it.
fn export_made_under<'a>(
    sources: &ExportSources<'_, '_, 'a>,
    name: &'a str,
) -> Option<OutputExport<'a>>
    requires { AreSources sources.now }
    ensures { IsPlainIf sources.now.input.now (option_map (export_of name.now)
        (made_under sources.now.input.now name.now)) result }
{
    let made = WasmLinkerSymbol::parse(name)?;
    export_made(sources, made, name)
}

/// Adds the exports of the size, the alignment and the initialiser of the block of each thread,
/// where there are such blocks.
pub(crate) fn push_thread<'a>(
    exports: &mut Vec<OutputExport<'a>>,
    sources: &ExportSources<'_, '_, 'a>,
) -> Result<(), AllocError>
    requires { AreSources sources.now }
    ensures { OnOk result (AddsExports sources.now.input.now
        (thread_exports sources.now.input.now) exports.old.items exports.new.items) }
{
    push_some(exports, export_named(sources, WasmLinkerSymbol::TlsSize))?;
    push_some(exports, export_named(sources, WasmLinkerSymbol::TlsAlign))?;
    push_some(exports, export_named(sources, WasmLinkerSymbol::InitTls))
}

/// Adds the exports whose names are asked for and that the linker makes.
pub(crate) fn push_made<'a>(
    exports: &mut Vec<OutputExport<'a>>,
    sources: &ExportSources<'_, '_, 'a>,
) -> Result<(), AllocError>
    requires { AreSources sources.now }
    ensures { OnOk result (AddsExports sources.now.input.now
        (made_exports sources.now.input.now) exports.old.items exports.new.items) }
{
    for name in sources.args.force_export_symbol_names() {
        push_some(exports, export_made_under(sources, name.as_str()))?;
    }
    Ok(())
}

/// Whether one of the names is this one.
fn has_name(names: &[&str], wanted: &str) -> bool
    ensures { result ≡ list_any (λ n. bytes_eq wanted.now n.now) names.now }
{
    names.iter().any(|name| wanted == *name)
}

/// Whether globals that may change are used.
fn uses_mutable_globals(sources: &ExportSources<'_, '_, '_>) -> bool
    requires { AreSources sources.now }
    ensures { result ≡ uses_mutable_globals sources.now.input.now.link }
{
    has_name(sources.features.as_slice(), TARGET_FEATURE_MUTABLE_GLOBALS)
}

/// Adds the export of the stack pointer, where globals that may change are used.
pub(crate) fn push_stack_pointer<'a>(
    exports: &mut Vec<OutputExport<'a>>,
    sources: &ExportSources<'_, '_, 'a>,
) -> Result<(), AllocError>
    requires { AreSources sources.now }
    ensures { OnOk result (AddsExports sources.now.input.now
        (stack_pointer_export sources.now.input.now) exports.old.items exports.new.items) }
{
    if !uses_mutable_globals(sources) {
        return Ok(());
    }
    push_some(
        exports,
        export_named(sources, WasmLinkerSymbol::StackPointer),
    )
}
