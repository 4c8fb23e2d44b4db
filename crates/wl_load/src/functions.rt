//! Functions, from their bodies.

ghost use Rattle.std.specs.Prelude.{◌≡◌, ◌≤◌, ◌+◌, ◌^◌, ◌<◌, IfOk, IfErr, OnOk, length, [], ◌∷◌};
ghost use Rattle.wl_bytes.specs.declared.reader.TheConstants.{MAX_LEN};
ghost use Rattle.wl_bytes.specs.Outcome.{HasCause};
ghost use Rattle.wl_ops.specs.Decoding.{AreTaken, DecodeFault};
ghost use Rattle.wl_load.specs.LocalRuns.{Declares};
ghost use Rattle.wl_load.specs.Loading.{IsCodeOf, AreCodesOf, AreNested, UndecodedFault, UnnestedFault, FunctionsFault, load_error};

use crate::blocks::{instructions, is_nested};
use crate::code::{Function, LocalRun};
use crate::error::LoadError;
use crate::locals::{read_locals, with_locals};
use crate::parts::ImageFunction;
use std::alloc::Global;
use wl_bytes::{MAX_LEN, ReadError};
use wl_lists::ItemList;
use wl_ops::{Op, decode_body, operators_are_few};

/// The locals and operators of a body. What is decoded has declarations that can be read.
#[tactic(auto, using(crate::proofs::LocalLaws::taken_runs, crate::proofs::LocalLaws::read_runs_stand))]
fn decode(alloc: Global, body: &[u8]) -> Result<(Vec<LocalRun>, Vec<Op>), ReadError>
    requires { length body.now ≤ MAX_LEN }
    ensures locals { IfOk result (λ p. Declares body.now p.0.items) }
    ensures ops { IfOk result (λ p. AreTaken p.1.items body.now) }
    ensures few { IfOk result (λ p. length p.1.items ≤ MAX_LEN) }
    ensures fault { IfErr result (HasCause (λ e. DecodeFault e body.now)) }
{
    operators_are_few();
    let ops = decode_body(alloc, body)?;
    let runs = read_locals(alloc, body)?;
    Ok((with_locals(runs), ops))
}

/// Why a body can't be decoded, reported for its function.
fn load_error(error: ReadError, number: u32) -> LoadError
    ensures { result ≡ load_error number error }
{
    match error {
        ReadError::OutOfMemory => LoadError::OutOfMemory,
        ReadError::Malformed(_) | ReadError::Unsupported(_) => LoadError::Body { function: number },
    }
}

/// A function, as it is run. Of a body of more bytes than may be decoded there is no memory for the
/// operators.
#[tactic(auto, using(crate::proofs::LoadLaws::undecoded_told))]
fn read_function(alloc: Global, part: &ImageFunction, number: u32) -> Result<Function, LoadError>
    ensures code { IfOk result (IsCodeOf part.now) }
    ensures fault { IfErr result (UndecodedFault number (part.now ∷ [])) }
{
    let body = part.body.as_slice();
    if body.len() > MAX_LEN {
        return Err(LoadError::OutOfMemory);
    }
    match decode(alloc, body) {
        Ok((locals, ops)) => {
            let instructions = instructions(alloc, &ops)?;
            Ok(Function::new(part.type_index, locals, ops, instructions))
        }
        Err(error) => Err(load_error(error, number)),
    }
}

/// All functions, as they are run. The first has this number.
#[tactic(auto, using(crate::proofs::LoadLaws::codes_read, crate::proofs::LoadLaws::undecoded_at))]
fn read_all(
    alloc: Global,
    first: u32,
    parts: &[ImageFunction],
) -> Result<ItemList<Function>, LoadError>
    requires { first + length parts.now < 2 ^ 32 }
    ensures codes { IfOk result (AreCodesOf parts.now) }
    ensures fault { IfErr result (UndecodedFault first parts.now) }
{
    let mut functions = ItemList::empty(alloc);
    let mut number = first;
    for part in parts {
        functions.push(read_function(alloc, part, number)?)?;
        number += 1;
    }
    Ok(functions)
}

/// That blocks nest in each function. The first has this number.
#[tactic(auto, using(crate::proofs::LoadLaws::nested_read, crate::proofs::LoadLaws::unnested_at))]
fn check_nesting(alloc: Global, first: u32, functions: &[Function]) -> Result<(), LoadError>
    requires { first + length functions.now < 2 ^ 32 }
    ensures nested { OnOk result (AreNested functions.now) }
    ensures fault { IfErr result (UnnestedFault first functions.now) }
{
    let mut number = first;
    for function in functions {
        if !is_nested(alloc, function.ops())? {
            return Err(LoadError::Nesting { function: number });
        }
        number += 1;
    }
    Ok(())
}

/// All functions, after so many of the host's.
#[tactic(auto, using(crate::proofs::LoadLaws::codes_counted))]
pub(crate) fn read_functions(
    alloc: Global,
    hosts: usize,
    parts: &[ImageFunction],
) -> Result<ItemList<Function>, LoadError>
    ensures codes { IfOk result (AreCodesOf parts.now) }
    ensures nested { IfOk result AreNested }
    ensures fault { IfErr result (FunctionsFault hosts parts.now) }
{
    // More functions have no numbers of 32 bits.
    let count = (hosts as u64).checked_add(parts.len() as u64);
    if count.is_none_or(|count| count > u64::from(u32::MAX)) {
        return Err(LoadError::OutOfMemory);
    }
    let first = hosts as u32;
    let functions = read_all(alloc, first, parts)?;
    check_nesting(alloc, first, functions.as_slice())?;
    Ok(functions)
}
