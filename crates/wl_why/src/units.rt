//! The units of all objects, in the order of their numbers.

ghost use Rattle.std.specs.Prelude.{◌≡◌, ◌≤◌, ◌^◌, ◌++◌, IfOk, OnOk};
ghost use Rattle.wl_symbols.specs.Units.{counts_of, units_of};
ghost use Rattle.wl_why.specs.Units.{kind_units, object_units, all_units};

use std::alloc::{AllocError, Global};
use wl_linking::{File, FileList};
use wl_symbols::{LinkUnit, WasmGcUnit, sibling_of};

/// Adds so many units of one kind of an object.
fn push_kind(
    list: &mut Vec<LinkUnit>,
    object: usize,
    kind: WasmGcUnit,
    count: usize,
) -> Result<(), AllocError>
    requires { count ≤ 2 ^ 32 }
    ensures { OnOk result (list.new.items ≡ list.old.items ++ kind_units object kind count) }
{
    for k in 0..count {
        list.push(LinkUnit {
            object,
            unit: sibling_of(kind, k as u32),
        })?;
    }
    Ok(())
}

/// Adds the units of an object.
fn push_object(list: &mut Vec<LinkUnit>, object: usize, file: &File<'_>) -> Result<(), AllocError>
    ensures { OnOk result
        (list.new.items ≡ list.old.items ++ object_units object (counts_of file.now)) }
{
    file.stands_for_an_object();
    let (functions, globals) = (file.num_defined_functions(), file.num_defined_globals());
    push_kind(list, object, WasmGcUnit::DefinedFunction(0), functions)?;
    push_kind(list, object, WasmGcUnit::DefinedGlobal(0), globals)?;
    push_kind(
        list,
        object,
        WasmGcUnit::DataSegment(0),
        file.num_data_segments(),
    )?;
    push_kind(
        list,
        object,
        WasmGcUnit::FunctionImport(0),
        file.num_function_imports(),
    )?;
    push_kind(
        list,
        object,
        WasmGcUnit::GlobalImport(0),
        file.num_global_imports(),
    )
}

/// All units, by object, kind and number.
pub(crate) fn all_units(alloc: Global, files: &FileList<'_>) -> Result<Vec<LinkUnit>, AllocError>
    ensures { IfOk result (λ v. v.items ≡ all_units (units_of files.now)) }
{
    let mut list = Vec::new(alloc);
    let objects = files.as_slice();
    for (object, file) in objects.iter().enumerate() {
        push_object(&mut list, object, file)?;
    }
    Ok(list)
}
