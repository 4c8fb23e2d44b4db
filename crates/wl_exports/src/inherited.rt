//! What objects export, and the memory.

ghost use Rattle.std.specs.Prelude.{◌≡◌, Some, slice_get, OnOk};
ghost use Rattle.std.specs.Option.{option_map};
ghost use Rattle.wl_linking.specs.Object.{Object};
ghost use Rattle.wl_exports.specs.Exports.{export_of, own_entity, object_exports, inherited_exports, first_exports};
ghost use Rattle.wl_exports.specs.steps.Exports.{IsPlainIf, AddsExports, memory_entry};
ghost use Rattle.wl_exports.specs.Sources.{AreSources};

use crate::adding::push_some;
use crate::indexed::{function_export, global_export};
use crate::sources::ExportSources;
use std::alloc::AllocError;
use wl_linking::File;
use wl_module::{ExternalKind, OutputExport};

/// The export of what an object exports, by its index in the output; no memory, and nothing that
/// the output doesn't have.
fn inherited_export<'a>(
    sources: &ExportSources<'_, '_, 'a>,
    object: usize,
    export: &OutputExport<'a>,
) -> Option<OutputExport<'a>>
    requires { AreSources sources.now }
    ensures { (o : Object) → slice_get sources.now.input.now.link.objects object ≡ Some o
        → IsPlainIf sources.now.input.now (option_map (export_of export.now.name)
        (own_entity sources.now.input.now object o export.now)) result }
{
    match export.kind {
        ExternalKind::Func => function_export(sources, export.name, object, export.index),
        ExternalKind::Global => global_export(sources, export.name, object, export.index),
        ExternalKind::Table => Some(OutputExport {
            name: export.name,
            kind: ExternalKind::Table,
            index: 0,
        }),
        ExternalKind::Memory => None,
    }
}

/// Adds what an object exports.
fn push_object<'a>(
    exports: &mut Vec<OutputExport<'a>>,
    sources: &ExportSources<'_, '_, 'a>,
    object: usize,
    file: &File<'a>,
) -> Result<(), AllocError>
    requires sources { AreSources sources.now }
    requires here { slice_get sources.now.input.now.link.objects object ≡ Some file.now }
    ensures { OnOk result (AddsExports sources.now.input.now
        (object_exports sources.now.input.now object file.now)
        exports.old.items exports.new.items) }
{
    for export in file.exports() {
        push_some(exports, inherited_export(sources, object, export))?;
    }
    Ok(())
}

/// Adds what objects export.
fn push_inherited<'a>(
    exports: &mut Vec<OutputExport<'a>>,
    sources: &ExportSources<'_, '_, 'a>,
) -> Result<(), AllocError>
    requires { AreSources sources.now }
    ensures { OnOk result (AddsExports sources.now.input.now
        (inherited_exports sources.now.input.now) exports.old.items exports.new.items) }
{
    for (object, file) in sources.input.files().as_slice().iter().enumerate() {
        push_object(exports, sources, object, file)?;
    }
    Ok(())
}

/// The export of the memory, if it is exported.
fn memory_export<'a>(sources: &ExportSources<'_, '_, 'a>) -> Option<OutputExport<'a>>
    requires { AreSources sources.now }
    ensures { IsPlainIf sources.now.input.now (memory_entry sources.now.input.now) result }
{
    let name = sources.args.memory_export_name()?;
    Some(OutputExport {
        name,
        kind: ExternalKind::Memory,
        index: 0,
    })
}

/// Adds what objects export, and the memory.
pub(crate) fn push_first<'a>(
    exports: &mut Vec<OutputExport<'a>>,
    sources: &ExportSources<'_, '_, 'a>,
) -> Result<(), AllocError>
    requires { AreSources sources.now }
    ensures { OnOk result (AddsExports sources.now.input.now
        (first_exports sources.now.input.now) exports.old.items exports.new.items) }
{
    push_inherited(exports, sources)?;
    push_some(exports, memory_export(sources))
}
