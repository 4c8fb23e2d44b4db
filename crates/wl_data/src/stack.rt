//! Where the stack and the heap lie.

ghost use Rattle.std.specs.Prelude.{◌≡◌, ◌%◌, ◌*◌, OnOk, IfOk, IfErr, ◌<◌};
ghost use Rattle.wl_linking.specs.declared.error.Quantity.TheVariants.{Address, HeapEnd};
ghost use Rattle.wl_linking.specs.Steps.{Clear, Step, NoStep};
ghost use Rattle.wl_index.specs.Memory.{behind_data, stack_top, stack_start, heap_start};
ghost use Rattle.wl_data.specs.Stack.{AnswersUpTo, IsBadStackSize, IsStackTooHigh};
ghost use Rattle.wl_module.specs.declared.limits.TheConstants.{WASM_PAGE_SIZE};

use crate::align::past_last_address;
use crate::memory::PAGE_BYTES;
use wl_index::{STACK_ALIGNMENT, behind_data, heap_start, stack_top};
use wl_linking::{LinkError, Quantity};
use wl_module::MAX_PAGES;

/// Where the heap begins that follows the data: at the next multiple of 16.
///
/// # Errors
/// `TooLarge` where that is no address.
pub fn heap_base_after_data(data_end: u32) -> Result<u32, LinkError>
    ensures { AnswersUpTo Address (behind_data data_end) result }
{
    match behind_data(data_end) {
        Some(base) => Ok(base),
        None => Err(past_last_address()),
    }
}

/// The top of the stack that follows the data.
///
/// # Errors
/// `TooLarge` where that is no address.
pub fn stack_high_after_data(data_end: u32, stack_size: u32) -> Result<u32, LinkError>
    ensures { AnswersUpTo Address (stack_top data_end stack_size) result }
{
    match stack_top(data_end, stack_size) {
        Some(top) => Ok(top),
        None => Err(past_last_address()),
    }
}

/// Where the heap begins: after the data where the stack stands first, else after the stack.
///
/// # Errors
/// `TooLarge` where that is no address.
pub fn heap_base_address(
    data_end: u32,
    stack_size: u32,
    stack_first: bool,
) -> Result<u32, LinkError>
    ensures { AnswersUpTo Address (heap_start data_end stack_size stack_first) result }
{
    match heap_start(data_end, stack_size, stack_first) {
        Some(start) => Ok(start),
        None => Err(past_last_address()),
    }
}

/// Where the heap ends at first: at the end of so many pages.
///
/// # Errors
/// `TooLarge` where that is no address.
pub fn heap_end_from_initial_pages(pages: u64) -> Result<u32, LinkError>
    ensures { AnswersUpTo HeapEnd (pages * WASM_PAGE_SIZE) result }
{
    if pages >= MAX_PAGES {
        return Err(LinkError::TooLarge {
            what: Quantity::HeapEnd,
        });
    }
    Ok((pages * PAGE_BYTES) as u32)
}

/// Refuses a stack size that would leave the stack pointer between two places.
///
/// # Errors
/// `BadStackSize` where it is no multiple of 16.
pub fn ensure_stack_size_aligned(stack_size: u32) -> Result<(), LinkError>
    ensures clear { OnOk result (Clear (IsBadStackSize stack_size)) }
    ensures aligned { OnOk result (stack_size % STACK_ALIGNMENT ≡ 0) }
    ensures err { IfErr result (IsBadStackSize stack_size) }
{
    if stack_size % STACK_ALIGNMENT != 0 {
        return Err(LinkError::BadStackSize(stack_size));
    }
    Ok(())
}

/// Where the stack begins, which grows downwards: its size where it stands first, else its top
/// after the data.
///
/// # Errors
/// `BadStackSize` where the size is no multiple of 16, else `TooLarge` where the stack would begin
/// past the last address.
pub fn stack_pointer_init(
    data_end: u32,
    stack_size: u32,
    stack_first: bool,
) -> Result<u32, LinkError>
    ensures ok { IfOk result (λ pointer. pointer ≡ stack_start data_end stack_size stack_first) }
    ensures clear { OnOk result (Clear (Step (IsBadStackSize stack_size)
        (Step (IsStackTooHigh (stack_start data_end stack_size stack_first)) NoStep))) }
    ensures err { IfErr result (Step (IsBadStackSize stack_size)
        (Step (IsStackTooHigh (stack_start data_end stack_size stack_first)) NoStep)) }
{
    ensure_stack_size_aligned(stack_size)?;
    if stack_first {
        return Ok(stack_size);
    }
    stack_high_after_data(data_end, stack_size)
}
