//! Where exported data stands among the globals.

ghost use Rattle.std.specs.Prelude.{◌+◌, ◌^◌, ◌<◌, length, IfOk, OnOk};
ghost use Rattle.wl_exports.specs.steps.DataPlaces.{AreDataPlaces, NotesPlaces};
ghost use Rattle.wl_exports.specs.Sources.{AreSources};

use crate::sources::ExportSources;
use std::alloc::{AllocError, Global};
use std::collections::HashMap;
use wl_bind::DataSymbol;

/// Where exported data stands among the globals.
pub(crate) type DataPlaces = HashMap<DataSymbol, u32>;

/// Notes where these data symbols stand, the first of them at that index.
fn note_places(
    places: &mut DataPlaces,
    symbols: &[DataSymbol],
    first: u32,
) -> Result<(), AllocError>
    requires { first + length symbols.now < 2 ^ 32 }
    ensures { OnOk result (NotesPlaces symbols.now first places.old places.new) }
{
    let mut index = first;
    for symbol in symbols {
        places.insert(*symbol, index)?;
        index += 1;
    }
    Ok(())
}

/// Where exported data stands among the globals: after all others that no object defines, first
/// the data that `--export-dynamic` exports.
pub(crate) fn data_places(
    alloc: Global,
    sources: &ExportSources<'_, '_, '_>,
) -> Result<DataPlaces, AllocError>
    requires { AreSources sources.now }
    ensures { IfOk result (AreDataPlaces sources.now.input.now) }
{
    let dynamic = sources.indices.exported().dynamic.as_slice();
    let forced = sources.indices.exported().forced.as_slice();
    let start_of_forced = sources.indices.globals_end() - forced.len() as u32;
    let start = start_of_forced - dynamic.len() as u32;
    let mut places = HashMap::new(alloc);
    note_places(&mut places, dynamic, start)?;
    note_places(&mut places, forced, start_of_forced)?;
    Ok(places)
}
