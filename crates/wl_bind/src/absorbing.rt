//! Binding by later rules of slots that names leave.

ghost use Rattle.std.specs.Prelude.{◌≡◌};
ghost use Rattle.wl_bind.specs.Stepped.{step_at};
ghost use Rattle.wl_bind.specs.Scan.{scan_of};
ghost use Rattle.wl_bind.specs.Later.{globals_walked};
ghost use Rattle.wl_bind.specs.Resolutions.{resolutions, by_names, by_names_and_got};

use crate::later::Walk;
use crate::resolution::ObjectImportResolutions;
use crate::scan::RelocScan;
use wl_linking::File;
use wl_symbols::LinkInput;

/// The global slots of an object with the entries of the GOT lists.
fn absorb_globals_at(
    input: &LinkInput<'_, '_>,
    scan: &RelocScan<'_>,
    object: usize,
    file: &File<'_>,
    rows: &mut [ObjectImportResolutions],
)
    ensures { rows.new
        ≡ step_at (globals_walked input.now scan.now) object object file.now rows.old }
{
    if object < rows.len() {
        let walk = Walk {
            input,
            scan,
            object,
        };
        walk.resolve_all(file, &mut rows[object].global_resolutions);
    }
}

/// Binds the global slots that names leave by the GOT lists: a slot of the module `GOT.mem` or
/// `GOT.func` to the first entry of that list whose definition has the field name.
pub fn absorb_got_imports(
    input: &LinkInput<'_, '_>,
    scan: &RelocScan<'_>,
    rows: &mut [ObjectImportResolutions],
)
    requires scan { scan.now ≡ scan_of input.now }
    requires rows { rows.old ≡ resolutions input.now (by_names input.now) }
    ensures { rows.new ≡ resolutions input.now (by_names_and_got input.now) }
{
    let files = input.files().as_slice();
    for (object, file) in files.iter().enumerate() {
        absorb_globals_at(input, scan, object, file, rows);
    }
}
