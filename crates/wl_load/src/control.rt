//! Blocks and branches.

ghost use Rattle.std.specs.Prelude.{◌≡◌, Some};
ghost use Rattle.wl_load.specs.States.{label_at};
ghost use Rattle.wl_load.specs.Control.{open_block, end_block, end_then, open_if, landed, branch, branch_if, return_call};
ghost use Rattle.wl_load.specs.Steps.{branch_table};
ghost use Rattle.wl_load.specs.Answers.{Does};

use crate::block_type::BlockType;
use crate::blocks::Jump;
use crate::labels::Labels;
use crate::program::Program;
use crate::stack::{Label, Stack};
use crate::stop::Stop;
use crate::values::check_last;
use std::alloc::Global;

/// Opens a block, which takes its parameters from the block round it.
pub(crate) fn open_block(program: &Program, label: Label, stack: &mut Stack) -> Result<(), Stop>
    ensures { Does result stack.new (open_block program.now label stack.old) }
{
    let types = program.params(label.block_type)?;
    check_last(types, stack.operands())?;
    stack.open(label, types.len())?;
    Ok(())
}

/// Ends the innermost block: the last operands that its type asks for are handed on.
pub(crate) fn end_block(alloc: Global, program: &Program, stack: &mut Stack) -> Result<(), Stop>
    ensures { Does result stack.new (end_block program.now stack.old) }
{
    let block_type = stack.innermost().block_type;
    let types = program.results(&block_type)?;
    check_last(types, stack.operands())?;
    stack.reach(0, types.len());
    stack.leave(alloc)
}

/// Ends the first part of an `if`, after which it goes on.
pub(crate) fn end_then(alloc: Global, program: &Program, stack: &mut Stack) -> Result<(), Stop>
    ensures { Does result stack.new (end_then program.now stack.old) }
{
    stack.jump(stack.innermost().next);
    end_block(alloc, program, stack)
}

/// Opens an `if`, which goes on in its first part, and on 0 in its second or at its end.
pub(crate) fn open_if(
    program: &Program,
    block_type: BlockType,
    jump: Jump,
    stack: &mut Stack,
) -> Result<(), Stop>
    ensures { Does result stack.new (open_if program.now block_type jump stack.old) }
{
    if stack.pop_word()? == 0 {
        stack.jump(jump.otherwise);
    }
    let label = Label {
        block_type,
        is_loop: false,
        next: jump.behind,
    };
    open_block(program, label, stack)
}

/// Goes on where a branch to the innermost block leads.
fn land(alloc: Global, label: Label, stack: &mut Stack) -> Result<(), Stop>
    ensures { Does result stack.new (landed label stack.old) }
{
    stack.jump(label.next);
    if label.is_loop {
        Ok(())
    } else {
        stack.leave(alloc)
    }
}

/// Branches to a block, from the innermost on, which has this label, with the last operands that it
/// asks for.
fn branch_by(
    alloc: Global,
    program: &Program,
    label: Label,
    number: usize,
    stack: &mut Stack,
) -> Result<(), Stop>
    requires { label_at number stack.old ≡ Some label }
    ensures { Does result stack.new (branch program.now number stack.old) }
{
    let types = program.label_types(&label)?;
    check_last(types, stack.operands())?;
    stack.reach(number, types.len());
    land(alloc, label, stack)
}

/// Branches to a block, from the innermost on.
fn branch_to(alloc: Global, program: &Program, number: usize, stack: &mut Stack) -> Result<(), Stop>
    ensures { Does result stack.new (branch program.now number stack.old) }
{
    match stack.label(number) {
        Some(label) => branch_by(alloc, program, label, number, stack),
        None => Err(Stop::Invalid),
    }
}

/// Branches to the block of a label.
pub(crate) fn branch(
    alloc: Global,
    program: &Program,
    label: u32,
    stack: &mut Stack,
) -> Result<(), Stop>
    ensures { Does result stack.new (branch program.now label stack.old) }
{
    branch_to(alloc, program, label as usize, stack)
}

/// Branches to a block, but not on 0.
pub(crate) fn branch_if(
    alloc: Global,
    program: &Program,
    number: u32,
    stack: &mut Stack,
) -> Result<(), Stop>
    ensures { Does result stack.new (branch_if program.now number stack.old) }
{
    let condition = stack.pop_word()?;
    let number = number as usize;
    let Some(label) = stack.label(number) else {
        return Err(Stop::Invalid);
    };
    if condition == 0 {
        return Ok(());
    }
    branch_by(alloc, program, label, number, stack)
}

/// Branches to the block that a number chooses, or to the last one.
#[tactic(auto, using(crate::proofs::AnswerLaws::stops_so))]
pub(crate) fn branch_table(
    alloc: Global,
    program: &Program,
    labels: &Labels,
    stack: &mut Stack,
) -> Result<(), Stop>
    ensures { Does result stack.new (branch_table program.now labels.now stack.old) }
{
    let number = stack.pop_word()?;
    if !labels.are_open(stack.block_count()) {
        return Err(Stop::Invalid);
    }
    let label = labels.at(number)?;
    branch(alloc, program, label, stack)
}

/// Leaves the function that runs.
pub(crate) fn return_call(alloc: Global, program: &Program, stack: &mut Stack) -> Result<(), Stop>
    ensures { Does result stack.new (return_call program.now stack.old) }
{
    branch_to(alloc, program, stack.block_count() - 1, stack)
}
