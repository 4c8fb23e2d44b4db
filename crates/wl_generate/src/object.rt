//! Whole objects.

ghost use Rattle.std.specs.Prelude.{◌≡◌, ◌+◌, ◌<◌, ◌≤◌, ◌++◌, length, IfOk, OnOk};
ghost use Rattle.wl_generate.specs.Generated.{chained_name, spare_name, import_of, linking, defined_symbol, imported_symbol, both_defined, calling_object, last_object, generated_object};
ghost use Rattle.wl_generate.specs.declared.object.TheConstants.{LONGEST_OBJECT, LONGEST_NAME};
ghost use Rattle.wl_words.specs.declared.values.TheConstants.{MAX_GENERATED};

use crate::sections::{
    CALLING_BODY, EMPTY_BODY, push_call_relocation, push_code, push_front, push_import,
    push_linking, push_sized, push_two_functions,
};
use std::alloc::{AllocError, Global};

/// How many bytes an object has at most.
pub const LONGEST_OBJECT: usize = 102;

/// How many bytes a name has at most.
const LONGEST_NAME: usize = 5;

/// The name of the function of an object that the one of the object before calls.
#[tactic(auto, using(crate::proofs::Short::four_digits))]
fn chained_name(alloc: Global, number: u32) -> Result<Vec<u8>, AllocError>
    requires { number < MAX_GENERATED }
    ensures name { IfOk result (λ name. name.items ≡ chained_name number) }
    ensures short { IfOk result (λ name. length name.items ≤ LONGEST_NAME) }
{
    Ok(format!(in alloc; "f{number}")?.into_bytes())
}

/// The name of the function of an object that nothing names.
#[tactic(auto, using(crate::proofs::Short::four_digits))]
fn spare_name(alloc: Global, number: u32) -> Result<Vec<u8>, AllocError>
    requires { number < MAX_GENERATED }
    ensures name { IfOk result (λ name. name.items ≡ spare_name number) }
    ensures short { IfOk result (λ name. length name.items ≤ LONGEST_NAME) }
{
    Ok(format!(in alloc; "d{number}")?.into_bytes())
}

/// Puts the symbol of a function that is defined.
fn push_defined(out: &mut Vec<u8>, index: u8, name: &[u8]) -> Result<(), AllocError>
    requires { length name.now ≤ LONGEST_NAME }
    ensures { OnOk result (out.new.items ≡ out.old.items ++ defined_symbol index name.now) }
{
    out.extend_from_slice(&[0, 0, index])?;
    push_sized(out, name)
}

/// Puts the symbols of the two functions that an object defines, the first of which has that index.
fn push_both_defined(
    alloc: Global,
    out: &mut Vec<u8>,
    first: u8,
    number: u32,
) -> Result<(), AllocError>
    requires first { first < 128 }
    requires number { number < MAX_GENERATED }
    ensures symbols { OnOk result (out.new.items ≡ out.old.items ++ both_defined first number) }
    ensures short { OnOk result (length out.new.items ≤ length out.old.items + 18) }
{
    push_defined(out, first, &chained_name(alloc, number)?)?;
    push_defined(out, first + 1, &spare_name(alloc, number)?)
}

/// Puts the import of the function that an object calls, which the next object defines.
fn push_called(alloc: Global, out: &mut Vec<u8>, number: u32) -> Result<(), AllocError>
    requires { number + 1 < MAX_GENERATED }
    ensures import { OnOk result
        (out.new.items ≡ out.old.items ++ import_of (chained_name (number + 1))) }
    ensures short { OnOk result (length out.new.items ≤ length out.old.items + 15) }
{
    push_import(alloc, out, &chained_name(alloc, number + 1)?)
}

/// Puts the table of the symbols of an object that calls a function.
fn push_calling_symbols(alloc: Global, out: &mut Vec<u8>, number: u32) -> Result<(), AllocError>
    requires { number < MAX_GENERATED }
    ensures table { OnOk result (out.new.items ≡ out.old.items
        ++ linking 3 (imported_symbol ++ both_defined 1 number)) }
    ensures short { OnOk result (length out.new.items ≤ length out.old.items + 35) }
{
    let mut symbols = Vec::new(alloc);
    symbols.extend_from_slice(&[0, 0x10, 0])?;
    push_both_defined(alloc, &mut symbols, 1, number)?;
    push_linking(alloc, out, 3, &symbols)
}

/// An object whose first function calls that of the next object.
fn calling_object(alloc: Global, number: u32) -> Result<Vec<u8>, AllocError>
    requires { number + 1 < MAX_GENERATED }
    ensures object { IfOk result (λ object. object.items ≡ calling_object number) }
    ensures short { IfOk result (λ object. length object.items ≤ LONGEST_OBJECT) }
{
    let mut object = Vec::new(alloc);
    push_front(&mut object)?;
    push_called(alloc, &mut object, number)?;
    push_two_functions(&mut object)?;
    push_code(alloc, &mut object, &CALLING_BODY)?;
    push_calling_symbols(alloc, &mut object, number)?;
    push_call_relocation(alloc, &mut object)?;
    Ok(object)
}

/// An object whose functions call none.
fn last_object(alloc: Global, number: u32) -> Result<Vec<u8>, AllocError>
    requires { number < MAX_GENERATED }
    ensures object { IfOk result (λ object. object.items ≡ last_object number) }
    ensures short { IfOk result (λ object. length object.items ≤ LONGEST_OBJECT) }
{
    let mut object = Vec::new(alloc);
    push_front(&mut object)?;
    push_two_functions(&mut object)?;
    push_code(alloc, &mut object, &EMPTY_BODY)?;
    let mut symbols = Vec::new(alloc);
    push_both_defined(alloc, &mut symbols, 0, number)?;
    push_linking(alloc, &mut object, 2, &symbols)?;
    Ok(object)
}

/// The object of that number, where there are so many, in the forms of the core specification 1.0,
/// "Modules", and of the tool conventions, "Linking".
///
/// It defines the functions `f` and `d`, each with the object's number after it. The first one
/// calls the function `f` of the next object, which is imported from `env`; that of the last object
/// calls nothing.
///
/// # Errors
/// `AllocError` where memory runs out.
pub fn generated_object(alloc: Global, number: u32, count: u32) -> Result<Vec<u8>, AllocError>
    requires number { number < count }
    requires count { count ≤ MAX_GENERATED }
    ensures object { IfOk result (λ object. object.items ≡ generated_object count number) }
    ensures short { IfOk result (λ object. length object.items ≤ LONGEST_OBJECT) }
{
    if number + 1 == count {
        last_object(alloc, number)
    } else {
        calling_object(alloc, number)
    }
}
