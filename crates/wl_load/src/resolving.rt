//! How operators are resolved: what they name is read once.

ghost use Rattle.std.specs.Prelude.{◌≡◌, IfOk, None};
ghost use Rattle.wl_load.specs.declared.operation.ControlOperator.TheVariants.{Block, Loop, If};
ghost use Rattle.wl_load.specs.Resolving.{control_by, stack_by, storage_by, row_by, settled, resolved};
ghost use Rattle.wl_load.specs.Table.{operation_of};
ghost use Rattle.wl_load.specs.Answers.{Gives};

use crate::blocks::Jump;
use crate::immediates::{
    block_type_in, index_and_first_in, index_in, long_in, memories_in, memory_in, offset_in,
    word_in,
};
use crate::instruction::{Instruction, StorageInstruction};
use crate::labels::Labels;
use crate::operation::{ControlOperator, Operation, StackOperator, StoreOperator};
use crate::stack::Label;
use crate::stop::Stop;
use crate::table::operation_of;
use std::alloc::{AllocError, Global};
use wl_numeric::{computation_of, load_of, offset_of, store_of};
use wl_ops::Op;

/// A block that a branch leaves.
fn block(jump: Option<Jump>, args: &[i64]) -> Result<Instruction, Stop>
    ensures { result ≡ control_by jump 0 Block args.now }
{
    let block_type = block_type_in(args)?;
    match jump {
        Some(jump) => Ok(Instruction::Open(Label {
            block_type,
            is_loop: false,
            next: jump.behind,
        })),
        None => Err(Stop::Invalid),
    }
}

/// A block that a branch begins anew, at this place.
fn block_anew(place: u32, args: &[i64]) -> Result<Instruction, Stop>
    ensures { result ≡ control_by None place Loop args.now }
{
    Ok(Instruction::Open(Label {
        block_type: block_type_in(args)?,
        is_loop: true,
        next: place,
    }))
}

/// A block of two parts.
fn block_of_parts(jump: Option<Jump>, args: &[i64]) -> Result<Instruction, Stop>
    ensures { result ≡ control_by jump 0 If args.now }
{
    let block_type = block_type_in(args)?;
    match jump {
        Some(jump) => Ok(Instruction::OpenIf(block_type, jump)),
        None => Err(Stop::Invalid),
    }
}

/// Blocks, branches and calls. The place is that after the operator.
fn control(
    alloc: Global,
    jump: Option<Jump>,
    place: u32,
    operator: ControlOperator,
    args: &[i64],
) -> Result<Instruction, Stop>
    ensures { Gives (λ i. i) result (control_by jump place operator args.now) }
{
    Ok(match operator {
        ControlOperator::Unreachable => Instruction::Unreachable,
        ControlOperator::Nop => Instruction::Nop,
        ControlOperator::Block => block(jump, args)?,
        ControlOperator::Loop => block_anew(place, args)?,
        ControlOperator::If => block_of_parts(jump, args)?,
        ControlOperator::Else => Instruction::EndThen,
        ControlOperator::End => Instruction::EndBlock,
        ControlOperator::Branch => Instruction::Branch(index_in(args)?),
        ControlOperator::BranchIf => Instruction::BranchIf(index_in(args)?),
        ControlOperator::BranchTable => Instruction::BranchTable(Labels::new(alloc, args)?),
        ControlOperator::Return => Instruction::Return,
        ControlOperator::Call => Instruction::Call(index_in(args)?),
        ControlOperator::CallIndirect => Instruction::CallIndirect(index_and_first_in(args)?),
    })
}

/// Operands, locals and constants.
fn stack(operator: StackOperator, args: &[i64]) -> Result<Instruction, Stop>
    ensures { result ≡ stack_by operator args.now }
{
    match operator {
        StackOperator::Drop => Ok(Instruction::DropOperand),
        StackOperator::Select => Ok(Instruction::Select),
        StackOperator::LocalGet => Ok(Instruction::LocalGet(index_in(args)?)),
        StackOperator::LocalSet => Ok(Instruction::LocalSet(index_in(args)?)),
        StackOperator::LocalTee => Ok(Instruction::LocalTee(index_in(args)?)),
        StackOperator::ConstI32 => Ok(Instruction::Constant(word_in(args)?)),
        StackOperator::ConstI64 => Ok(Instruction::Constant(long_in(args)?)),
    }
}

/// Globals, memory and segments.
fn storage(operator: StoreOperator, args: &[i64]) -> Result<StorageInstruction, Stop>
    ensures { result ≡ storage_by operator args.now }
{
    match operator {
        StoreOperator::GlobalGet => Ok(StorageInstruction::GlobalGet(index_in(args)?)),
        StoreOperator::GlobalSet => Ok(StorageInstruction::GlobalSet(index_in(args)?)),
        StoreOperator::MemorySize => {
            memory_in(args)?;
            Ok(StorageInstruction::MemorySize)
        }
        StoreOperator::MemoryGrow => {
            memory_in(args)?;
            Ok(StorageInstruction::MemoryGrow)
        }
        StoreOperator::MemoryInit => Ok(StorageInstruction::MemoryInit(index_and_first_in(args)?)),
        StoreOperator::DataDrop => Ok(StorageInstruction::DataDrop(index_in(args)?)),
        StoreOperator::MemoryCopy => {
            memories_in(args)?;
            Ok(StorageInstruction::MemoryCopy)
        }
        StoreOperator::MemoryFill => {
            memory_in(args)?;
            Ok(StorageInstruction::MemoryFill)
        }
        StoreOperator::Notify => Ok(StorageInstruction::Notify(offset_in(args)?)),
        StoreOperator::Wait => Ok(StorageInstruction::Wait(offset_in(args)?)),
        StoreOperator::AtomicStore => Ok(StorageInstruction::AtomicStore(offset_in(args)?)),
        StoreOperator::CompareExchange => Ok(StorageInstruction::CompareExchange(offset_in(args)?)),
    }
}

/// An operator of the table, by its row; no other is run.
fn row(
    alloc: Global,
    jump: Option<Jump>,
    place: u32,
    operation: Option<Operation>,
    args: &[i64],
) -> Result<Instruction, Stop>
    ensures { Gives (λ i. i) result (row_by jump place operation args.now) }
{
    match operation {
        Some(Operation::Control(operator)) => control(alloc, jump, place, operator, args),
        Some(Operation::Stack(operator)) => stack(operator, args),
        Some(Operation::Storage(operator)) => Ok(Instruction::Storage(storage(operator, args)?)),
        None => Err(Stop::Foreign),
    }
}

/// An operator of the table, which stops when it is reached where it can't be resolved.
fn settle(alloc: Global, jump: Option<Jump>, place: u32, op: &Op) -> Result<Instruction, AllocError>
    ensures { IfOk result (λ i. i ≡ settled (row_by jump place (operation_of op.now) op.now.args)) }
{
    match row(alloc, jump, place, operation_of(op), op.args.as_slice()) {
        Ok(instruction) => Ok(instruction),
        Err(Stop::OutOfMemory) => Err(AllocError),
        Err(Stop::Invalid) => Ok(Instruction::Invalid),
        Err(Stop::Foreign | Stop::Done(_) | Stop::Trap(_) | Stop::Waits | Stop::Host(_)) => Ok(
            Instruction::Foreign,
        ),
    }
}

/// An operator as it is run, by the end of the block that it opens and the place after it.
#[tactic(auto, unfolding(crate::specs::Resolving::resolved))]
pub(crate) fn resolve(
    alloc: Global,
    jump: Option<Jump>,
    place: u32,
    op: &Op,
) -> Result<Instruction, AllocError>
    ensures { IfOk result (λ i. i ≡ resolved jump place op.now) }
{
    if let Some(operation) = computation_of(op.code) {
        return Ok(Instruction::Compute(operation));
    }
    if let Some(offset) = offset_of(op) {
        if let Some(load) = load_of(op.code) {
            return Ok(Instruction::LoadValue(load, offset));
        }
        if let Some(store) = store_of(op.code) {
            return Ok(Instruction::StoreValue(store, offset));
        }
    }
    settle(alloc, jump, place, op)
}
