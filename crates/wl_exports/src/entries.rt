//! All exports, before any is wrapped.

ghost use Rattle.std.specs.Prelude.{◌≡◌, ◌++◌, [], ◌∷◌, if◌then◌else◌, IfOk, OnOk};
ghost use Rattle.wl_exports.specs.steps.DataPlaces.{AreDataPlaces};
ghost use Rattle.wl_exports.specs.Exports.{later_exports};
ghost use Rattle.wl_exports.specs.steps.Exports.{AddsExports};
ghost use Rattle.wl_exports.specs.steps.Names.{untaken, HoldsNames};
ghost use Rattle.wl_exports.specs.Sources.{AreSources, ArePlainExports};

use crate::data_places::{DataPlaces, data_places};
use crate::dynamic::push_dynamic;
use crate::inherited::push_first;
use crate::made::{push_made, push_thread};
use crate::named::{push_entry, push_forced};
use crate::names::take_name;
use crate::sources::ExportSources;
use std::alloc::{AllocError, Global};
use std::collections::HashSet;
use wl_lists::ItemList;
use wl_module::OutputExport;

/// Adds what is asked for by name and by options, in order.
fn push_later<'a>(
    exports: &mut Vec<OutputExport<'a>>,
    sources: &ExportSources<'_, '_, 'a>,
    places: &DataPlaces,
) -> Result<(), AllocError>
    requires sources { AreSources sources.now }
    requires places { AreDataPlaces sources.now.input.now places.now }
    ensures { OnOk result (AddsExports sources.now.input.now
        (later_exports sources.now.input.now) exports.old.items exports.new.items) }
{
    push_entry(exports, sources)?;
    push_thread(exports, sources)?;
    push_made(exports, sources)?;
    push_forced(exports, sources, places)?;
    push_dynamic(exports, sources, places)
}

/// The names of these exports.
fn names_of<'a>(alloc: Global, exports: &[OutputExport<'a>]) -> Result<HashSet<&'a str>, AllocError>
    ensures { IfOk result (λ names. HoldsNames names exports.now) }
{
    let mut names = HashSet::new(alloc);
    for export in exports {
        take_name(&mut names, export.name)?;
    }
    Ok(names)
}

/// Adds an export, if its name is free.
fn push_if<'a>(
    exports: &mut Vec<OutputExport<'a>>,
    export: &OutputExport<'a>,
    is_free: bool,
) -> Result<(), AllocError>
    ensures { OnOk result (exports.new.items
        ≡ exports.old.items ++ (if is_free then export.now ∷ [] else [])) }
{
    if is_free {
        exports.push(OutputExport {
            name: export.name,
            kind: export.kind,
            index: export.index,
        })?;
    }
    Ok(())
}

/// Adds each of these exports whose name none before it has.
fn push_untaken<'a>(
    alloc: Global,
    exports: &mut Vec<OutputExport<'a>>,
    later: &[OutputExport<'a>],
) -> Result<(), AllocError>
    ensures { OnOk result (exports.new.items
        ≡ exports.old.items ++ untaken exports.old.items later.now) }
{
    let mut taken = names_of(alloc, exports.as_slice())?;
    for export in later {
        let is_free = take_name(&mut taken, export.name)?;
        push_if(exports, export, is_free)?;
    }
    Ok(())
}

/// What the output exports, in order, before any export is wrapped. First comes what objects export
/// and the output has, object by object, and the memory; of what follows the first of a name
/// counts: the entry; the size, the alignment and the initialiser of the block of each thread; the
/// names that are asked for and that the linker makes; the other names that are asked for; and what
/// `--export-dynamic` exports, the stack pointer, functions and globals, and data.
///
/// # Errors
/// `AllocError` where memory runs out.
pub(crate) fn output_exports<'a>(
    alloc: Global,
    sources: &ExportSources<'_, '_, 'a>,
) -> Result<ItemList<OutputExport<'a>>, AllocError>
    requires { AreSources sources.now }
    ensures { IfOk result (ArePlainExports sources.now.input.now) }
{
    let places = data_places(alloc, sources)?;
    let mut exports = Vec::new(alloc);
    push_first(&mut exports, sources)?;
    let mut later = Vec::new(alloc);
    push_later(&mut later, sources, &places)?;
    push_untaken(alloc, &mut exports, later.as_slice())?;
    Ok(ItemList::new(exports))
}
