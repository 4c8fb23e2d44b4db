//! The body that lays segments in shared memory.

ghost use Rattle.std.specs.Prelude.{◌≡◌, ◌++◌, OnOk, MatchResult};
ghost use Rattle.std.specs.List.{flat_map};
ghost use Rattle.wl_synth.specs.Encoding.{IsEncoded, EncodeFault};
ghost use Rattle.wl_synth.specs.Bodies.{copy_ops, drop_ops, claim_ops, release_ops, wait_ops, init_memory_ops};

use crate::builder::BodyBuilder;
use crate::error::SynthError;
use crate::operator::Operator;
use crate::parts::PassiveSegmentCopy;
use std::alloc::{AllocError, Global};

/// Segments are copied to their addresses.
fn push_copies(body: &mut BodyBuilder, copies: &[PassiveSegmentCopy]) -> Result<(), AllocError>
    ensures { OnOk result (body.new ≡ body.old ++ flat_map copy_ops copies.now) }
{
    for copy in copies {
        body.push(&[
            Operator::I32Unsigned(copy.offset),
            Operator::I32Unsigned(0),
            Operator::I32Unsigned(copy.len),
            Operator::MemoryInit(copy.segment_index),
        ])?;
    }
    Ok(())
}

/// Segments are dropped.
fn push_segment_drops(
    body: &mut BodyBuilder,
    copies: &[PassiveSegmentCopy],
) -> Result<(), AllocError>
    ensures { OnOk result (body.new ≡ body.old ++ flat_map drop_ops copies.now) }
{
    for copy in copies {
        body.push(&[Operator::DataDrop(copy.segment_index)])?;
    }
    Ok(())
}

/// The thread that finds the flag 0 sets it to 1 and goes on. One that finds 1 leaves one block,
/// and one that finds more two.
fn push_claim(body: &mut BodyBuilder, flag: u32) -> Result<(), AllocError>
    ensures { OnOk result (body.new ≡ body.old ++ claim_ops flag) }
{
    body.push(&[
        Operator::Block,
        Operator::Block,
        Operator::Block,
        Operator::I32Unsigned(flag),
        Operator::I32Unsigned(0),
        Operator::I32Unsigned(1),
        Operator::I32AtomicRmwCmpxchg,
        Operator::BrTable(0, 1, 2),
        Operator::End,
    ])
}

/// The flag becomes 2, all threads that wait for it are woken, and the block of those is left.
fn push_release(body: &mut BodyBuilder, flag: u32) -> Result<(), AllocError>
    ensures { OnOk result (body.new ≡ body.old ++ release_ops flag) }
{
    body.push(&[
        Operator::I32Unsigned(flag),
        Operator::I32Unsigned(2),
        Operator::I32AtomicStore,
        Operator::I32Unsigned(flag),
        Operator::I32Const(-1),
        Operator::MemoryAtomicNotify,
        Operator::Drop,
        Operator::Br(1),
        Operator::End,
    ])
}

/// A thread waits while the flag is 1, without an end.
fn push_wait(body: &mut BodyBuilder, flag: u32) -> Result<(), AllocError>
    ensures { OnOk result (body.new ≡ body.old ++ wait_ops flag) }
{
    body.push(&[
        Operator::I32Unsigned(flag),
        Operator::I32Unsigned(1),
        Operator::I64Const(-1),
        Operator::MemoryAtomicWait32,
        Operator::Drop,
        Operator::End,
    ])
}

/// The body of `__wasm_init_memory`, which copies each segment to its address once, whichever
/// thread comes first. Other threads wait till that is done, and each thread drops the segments.
///
/// The flag is the address of four bytes that the threads share: 0 at first, 1 while the segments
/// are copied, and 2 afterwards. `Range` comes exactly where an address or a length is above
/// 2147483647.
pub fn encode_init_memory_body(
    alloc: Global,
    flag: u32,
    copies: &[PassiveSegmentCopy],
) -> Result<Vec<u8>, SynthError>
    ensures { MatchResult result (λ body. IsEncoded (init_memory_ops flag copies.now) body.items)
        (EncodeFault (init_memory_ops flag copies.now)) }
{
    let mut body = BodyBuilder::new(alloc);
    push_claim(&mut body, flag)?;
    push_copies(&mut body, copies)?;
    push_release(&mut body, flag)?;
    push_wait(&mut body, flag)?;
    push_segment_drops(&mut body, copies)?;
    body.push(&[Operator::End])?;
    body.spell(alloc)
}
