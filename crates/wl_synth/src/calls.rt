//! Bodies that call functions, and the two short bodies.

ghost use Rattle.std.specs.Prelude.{◌≡◌, ◌++◌, OnOk, MatchResult, replicate};
ghost use Rattle.std.specs.List.{flat_map};
ghost use Rattle.wl_synth.specs.declared.error.SynthError.TheVariants.{OutOfMemory};
ghost use Rattle.wl_synth.specs.Encoding.{IsEncoded};
ghost use Rattle.wl_synth.specs.Wat as wat;
ghost use Rattle.wl_synth.specs.Bodies.{call_ops, call_sequence_ops, locals_from, wrapper_ops};

use crate::builder::BodyBuilder;
use crate::error::SynthError;
use crate::operator::Operator;
use std::alloc::{AllocError, Global};

/// The body of a stub, a function that traps at once: `unreachable`.
pub const UNREACHABLE_FUNCTION_BODY: [u8; 3] = [0x00, 0x00, 0x0b];

/// The body of a function that does nothing.
pub const EMPTY_FUNCTION_BODY: [u8; 2] = [0x00, 0x0b];

/// So many values are dropped.
fn push_drops(body: &mut BodyBuilder, count: u32) -> Result<(), AllocError>
    ensures { OnOk result (body.new ≡ body.old ++ replicate count wat.drop) }
{
    for _ in 0..count {
        body.push(&[Operator::Drop])?;
    }
    Ok(())
}

/// Functions are called, and their results dropped.
fn push_calls(body: &mut BodyBuilder, calls: &[(u32, u32)]) -> Result<(), AllocError>
    ensures { OnOk result (body.new ≡ body.old ++ flat_map call_ops calls.now) }
{
    for (function, results) in calls {
        body.push(&[Operator::Call(*function)])?;
        push_drops(body, *results)?;
    }
    Ok(())
}

/// The body of a function that calls other functions in order, as `__wasm_call_ctors` does.
///
/// Of each the index is given and how many results it has, which are dropped. The only error is
/// want of memory.
pub fn encode_call_sequence_body(alloc: Global, calls: &[(u32, u32)]) -> Result<Vec<u8>, SynthError>
    ensures { MatchResult result (λ body. IsEncoded (call_sequence_ops calls.now) body.items)
        (λ e. e ≡ OutOfMemory) }
{
    let mut body = BodyBuilder::new(alloc);
    push_calls(&mut body, calls)?;
    body.push(&[Operator::End])?;
    body.spell(alloc)
}

/// So many parameters are put on the stack, in order.
fn push_parameters(body: &mut BodyBuilder, count: u32) -> Result<(), AllocError>
    ensures { OnOk result (body.new ≡ body.old ++ locals_from 0 count) }
{
    for local in 0..count {
        body.push(&[Operator::LocalGet(local)])?;
    }
    Ok(())
}

/// The body of a function that stands for an exported one: it calls the constructors, and then the
/// original function with its own parameters.
///
/// Both functions are given by their indices. The only error is want of memory.
pub fn encode_command_export_wrapper_body(
    alloc: Global,
    call_ctors: u32,
    original: u32,
    n_params: u32,
) -> Result<Vec<u8>, SynthError>
    ensures { MatchResult result
        (λ body. IsEncoded (wrapper_ops call_ctors original n_params) body.items)
        (λ e. e ≡ OutOfMemory) }
{
    let mut body = BodyBuilder::new(alloc);
    body.push(&[Operator::Call(call_ctors)])?;
    push_parameters(&mut body, n_params)?;
    body.push(&[Operator::Call(original)])?;
    body.push(&[Operator::End])?;
    body.spell(alloc)
}
