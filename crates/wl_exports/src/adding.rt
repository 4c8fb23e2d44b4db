//! Lists of exports that grow.

ghost use Rattle.std.specs.Prelude.{Option, OnOk};
ghost use Rattle.std.specs.Option.{option_to_list};
ghost use Rattle.wl_symbols.specs.Input.{Input as Linked};
ghost use Rattle.wl_exports.specs.Exports.{ExportEntry};
ghost use Rattle.wl_exports.specs.steps.Exports.{IsPlainIf, AddsExports};

use std::alloc::AllocError;
use wl_module::OutputExport;

/// Adds an export, if there is one.
pub(crate) fn push_some<'a>(
    exports: &mut Vec<OutputExport<'a>>,
    export: Option<OutputExport<'a>>,
) -> Result<(), AllocError>
    ensures { (input : Linked) (entry : Option ExportEntry) → IsPlainIf input entry export.entry
        → OnOk result
        (AddsExports input (option_to_list entry) exports.old.items exports.new.items) }
{
    if let Some(export) = export {
        exports.push(export)?;
    }
    Ok(())
}
