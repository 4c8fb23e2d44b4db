//! The body that makes a thread's block.

ghost use Rattle.std.specs.Prelude.{◌≡◌, ◌++◌, OnOk, MatchResult};
ghost use Rattle.std.specs.List.{flat_map};
ghost use Rattle.wl_synth.specs.Encoding.{IsEncoded, EncodeFault};
ghost use Rattle.wl_synth.specs.Bodies.{thread_block, place_ops, clear_ops, template_ops, pointer_ops, got_ops, init_tls_ops};

use crate::builder::BodyBuilder;
use crate::error::SynthError;
use crate::operator::Operator;
use crate::parts::{PassiveSegmentCopy, TlsGotFixup, TlsPointerFixup};
use std::alloc::{AllocError, Global};

/// The block, where it has a byte, is filled with zeros.
fn push_clear(body: &mut BodyBuilder, size: u32) -> Result<(), AllocError>
    ensures { OnOk result (body.new ≡ body.old ++ clear_ops size) }
{
    if size == 0 {
        return Ok(());
    }
    body.push(&[
        Operator::LocalGet(0),
        Operator::I32Unsigned(0),
        Operator::I32Unsigned(size),
        Operator::MemoryFill,
    ])
}

/// The place so far past the base, which is the parameter, is put on the stack.
fn push_place(body: &mut BodyBuilder, offset: u32) -> Result<(), AllocError>
    ensures { OnOk result (body.new ≡ body.old ++ place_ops offset) }
{
    if offset == 0 {
        return body.push(&[Operator::LocalGet(0)]);
    }
    body.push(&[
        Operator::LocalGet(0),
        Operator::I32Unsigned(offset),
        Operator::I32Add,
    ])
}

/// Segments are copied to their places in the block.
fn push_templates(body: &mut BodyBuilder, copies: &[PassiveSegmentCopy]) -> Result<(), AllocError>
    ensures { OnOk result (body.new ≡ body.old ++ flat_map template_ops copies.now) }
{
    for copy in copies {
        push_place(body, copy.offset)?;
        body.push(&[
            Operator::I32Unsigned(0),
            Operator::I32Unsigned(copy.len),
            Operator::MemoryInit(copy.segment_index),
        ])?;
    }
    Ok(())
}

/// The base and the offset are stored at the pointer's place.
fn push_pointer(body: &mut BodyBuilder, base: u32, fixup: TlsPointerFixup) -> Result<(), AllocError>
    ensures { OnOk result (body.new ≡ body.old ++ pointer_ops base fixup) }
{
    body.push(&[
        Operator::I32Unsigned(fixup.dest),
        Operator::GlobalGet(base),
        Operator::I32Add,
        Operator::GlobalGet(base),
        Operator::I32Const(fixup.offset),
        Operator::I32Add,
        Operator::I32Store,
    ])
}

/// Pointers in the block are stored.
fn push_pointers(
    body: &mut BodyBuilder,
    base: u32,
    fixups: &[TlsPointerFixup],
) -> Result<(), AllocError>
    ensures { OnOk result (body.new ≡ body.old ++ flat_map (pointer_ops base) fixups.now) }
{
    for fixup in fixups {
        push_pointer(body, base, *fixup)?;
    }
    Ok(())
}

/// A global gets the base and the offset.
fn push_got(body: &mut BodyBuilder, base: u32, fixup: TlsGotFixup) -> Result<(), AllocError>
    ensures { OnOk result (body.new ≡ body.old ++ got_ops base fixup) }
{
    body.push(&[
        Operator::GlobalGet(base),
        Operator::I32Const(fixup.offset),
        Operator::I32Add,
        Operator::GlobalSet(fixup.global),
    ])
}

/// Globals get their addresses in the block.
fn push_got_fixups(
    body: &mut BodyBuilder,
    base: u32,
    fixups: &[TlsGotFixup],
) -> Result<(), AllocError>
    ensures { OnOk result (body.new ≡ body.old ++ flat_map (got_ops base) fixups.now) }
{
    for fixup in fixups {
        push_got(body, base, *fixup)?;
    }
    Ok(())
}

/// The body of `__wasm_init_tls`, which makes a thread's block at the address that it is given.
///
/// The base global, known by its index, gets that address. The block is filled with zeros, then
/// the segments are copied into it, and then pointers in it and globals get addresses in it.
/// `Range` comes exactly where a size, a place or a length is above 2147483647.
pub fn encode_init_tls_body(
    alloc: Global,
    tls_base_global: u32,
    tls_size: u32,
    copies: &[PassiveSegmentCopy],
    fixups: &[TlsPointerFixup],
    got_fixups: &[TlsGotFixup],
) -> Result<Vec<u8>, SynthError>
    ensures { MatchResult result
        (λ body. IsEncoded (init_tls_ops
        (thread_block tls_base_global tls_size copies.now fixups.now got_fixups.now))
        body.items)
        (EncodeFault (init_tls_ops
        (thread_block tls_base_global tls_size copies.now fixups.now got_fixups.now))) }
{
    let mut body = BodyBuilder::new(alloc);
    body.push(&[Operator::LocalGet(0), Operator::GlobalSet(tls_base_global)])?;
    push_clear(&mut body, tls_size)?;
    // The templates come first, since copying one would write over a pointer stored before it.
    push_templates(&mut body, copies)?;
    push_pointers(&mut body, tls_base_global, fixups)?;
    push_got_fixups(&mut body, tls_base_global, got_fixups)?;
    body.push(&[Operator::End])?;
    body.spell(alloc)
}
