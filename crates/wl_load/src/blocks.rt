//! How blocks nest, where they end, and what operators are with that.

ghost use Rattle.std.specs.Prelude.{◌≡◌, ◌≤◌, ◌<◌, suc, true, false, List, ◌∷◌, IfOk, OnOk, length};
ghost use Rattle.wl_ops.specs.declared.op.Op.{Op as Operator};
ghost use Rattle.wl_bytes.specs.declared.reader.TheConstants.{MAX_LEN};
ghost use Rattle.wl_load.specs.Blocks.{is_opening, is_if, is_else, is_end, is_nested, ending_by, AreEnds};
ghost use Rattle.wl_load.specs.Resolving.{instructions as instructions_from};

use crate::instruction::Instruction;
use crate::resolving::resolve;
use std::alloc::{AllocError, Global};
use wl_ops::Op;

/// Where a block ends.
#[derive(Clone, Copy)]
pub struct Jump {
    /// The place after its end.
    pub behind: u32,
    /// The place where it goes on if it is an `if` on 0: after its `else` or, without one, at its
    /// end.
    pub otherwise: u32,
}

/// Whether the operator opens a block: `block`, `loop` or `if`; of later texts `try` or
/// `try_table`.
fn is_opening(op: &Op) -> bool
    ensures { result ≡ is_opening op.now }
{
    op.code == 0x02 || op.code == 0x03 || op.code == 0x04 || op.code == 0x06 || op.code == 0x1f
}

/// Whether the operator is `if`.
fn is_if(op: &Op) -> bool
    ensures { result ≡ is_if op.now }
{
    op.code == 0x04
}

/// Whether the operator is `else`.
fn is_else(op: &Op) -> bool
    ensures { result ≡ is_else op.now }
{
    op.code == 0x05
}

/// Whether the operator ends a block: `end`; of a later text `delegate`, by which a `try` ends.
fn is_end(op: &Op) -> bool
    ensures { result ≡ is_end op.now }
{
    op.code == 0x0b || op.code == 0x18
}

/// Whether the operators end each block that they open and, with the last one, the function's own,
/// and each `else` has its `if`.
pub(crate) fn is_nested(alloc: Global, ops: &[Op]) -> Result<bool, AllocError>
    ensures { IfOk result (λ nested. nested ≡ is_nested ops.now) }
{
    // Of the blocks that are open around the innermost one, whether each is an `if` without an
    // `else` so far.
    let mut around = Vec::new(alloc);
    let mut is_open_if = false;
    let mut is_ended = false;
    for op in ops {
        if is_ended {
            return Ok(false);
        }
        if is_opening(op) {
            around.push(is_open_if)?;
            is_open_if = is_if(op);
        } else if is_else(op) {
            if !is_open_if {
                return Ok(false);
            }
            is_open_if = false;
        } else if is_end(op) {
            match around.pop() {
                Some(outer) => is_open_if = outer,
                None => is_ended = true,
            }
        }
    }
    Ok(is_ended)
}

/// What an operator at a place makes of the ends of the blocks that are open after it, the
/// innermost one's last: it answers with the end of the block that it opens.
fn pass_back(op: &Op, place: u32, ends: &mut Vec<Jump>) -> Result<Option<Jump>, AllocError>
    requires { place < MAX_LEN }
    ensures { IfOk result
        (λ ending. (rest : List Operator) → AreEnds ends.old.items rest (suc place)
        → AreEnds ends.new.items (op.now ∷ rest) place
        × (ending ≡ ending_by op.now rest (suc place))) }
{
    if is_opening(op) {
        return Ok(ends.pop());
    }
    if is_end(op) {
        ends.push(Jump {
            behind: place + 1,
            otherwise: place,
        })?;
    } else if is_else(op) {
        pass_else(place, ends)?;
    }
    Ok(None)
}

/// After an `else` at a place the block goes on that ends last.
fn pass_else(place: u32, ends: &mut Vec<Jump>) -> Result<(), AllocError>
    requires { place < MAX_LEN }
    ensures { OnOk result ((rest : List Operator) (op : Operator)
        → is_opening op ≡ false → is_end op ≡ false → is_else op ≡ true
        → AreEnds ends.old.items rest (suc place) → AreEnds ends.new.items (op ∷ rest) place) }
{
    if let Some(end) = ends.pop() {
        ends.push(Jump {
            behind: end.behind,
            otherwise: place + 1,
        })?;
    }
    Ok(())
}

/// The operators, as they are run. It goes from the last operator to the first, so each comes once.
pub(crate) fn instructions(alloc: Global, ops: &[Op]) -> Result<Vec<Instruction>, AllocError>
    requires { length ops.now ≤ MAX_LEN }
    ensures { IfOk result (λ known. known.items ≡ instructions_from 0 ops.now) }
{
    let mut known = Vec::new(alloc);
    let mut ends = Vec::new(alloc);
    let mut place = ops.len();
    while place > 0 {
        let behind = place as u32;
        place -= 1;
        let op = &ops[place];
        let jump = pass_back(op, place as u32, &mut ends)?;
        known.push(resolve(alloc, jump, behind, op)?)?;
    }
    known.reverse();
    Ok(known)
}
