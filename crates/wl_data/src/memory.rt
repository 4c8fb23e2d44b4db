//! The size of the output's memory.

ghost use Rattle.std.specs.Prelude.{◌≡◌, ◌<◌, ◌≤◌, ◌/◌, ◌*◌, OnOk, IfOk, IfErr, OnErr, unwrap_or};
ghost use Rattle.wl_linking.specs.Steps.{Clear};
ghost use Rattle.wl_module.specs.declared.limits.TheConstants.{MAX_PAGES};
ghost use Rattle.wl_data.specs.Stack.{IsStackTooHigh};
ghost use Rattle.wl_data.specs.MemorySize.{needs_of, stack_need, needed_bytes, raised_pages, new_maximum, IsInitialRefused, IsMaximumRefused, memory_fault};

use crate::stack::stack_high_after_data;
use wl_linking::{LinkError, MemoryBound};
use wl_module::{MAX_PAGES, MemoryType, WASM_PAGE_SIZE};

/// The bytes of a page of memory.
pub(crate) const PAGE_BYTES: u64 = WASM_PAGE_SIZE as u64;

/// The most bytes that a memory may have at first: a page less than there are addresses.
pub(crate) const MAX_INITIAL_BYTES: u64 = (MAX_PAGES - 1) * PAGE_BYTES;

/// The most bytes that a memory may ever have: as many as there are addresses.
pub(crate) const MAX_BYTES: u64 = MAX_PAGES * PAGE_BYTES;

/// The top of the stack, where the memory has to hold it.
fn needed_by_stack(data_end: u32, stack_size: u32, stack_first: bool) -> Result<u32, LinkError>
    ensures ok { IfOk result (λ need. need ≡ stack_need data_end stack_size stack_first) }
    ensures clear { OnOk result (Clear
        (IsStackTooHigh (stack_need data_end stack_size stack_first))) }
    ensures err { IfErr result (IsStackTooHigh (stack_need data_end stack_size stack_first)) }
{
    if stack_first || stack_size == 0 {
        return Ok(0);
    }
    stack_high_after_data(data_end, stack_size)
}

/// The size that is asked for at first, in pages: 0 where none is.
fn asked_pages(initial_memory: Option<u64>, needed: u64) -> Result<u64, LinkError>
    ensures ok { IfOk result (λ pages. pages ≡ unwrap_or initial_memory 0 / PAGE_BYTES) }
    ensures small { IfOk result (λ pages. pages < MAX_PAGES) }
    ensures clear { OnOk result (Clear (IsInitialRefused initial_memory needed)) }
    ensures err { IfErr result (IsInitialRefused initial_memory needed) }
{
    let Some(requested) = initial_memory else {
        return Ok(0);
    };
    if requested % PAGE_BYTES != 0 || requested > MAX_INITIAL_BYTES || requested < needed {
        return Err(LinkError::BadMemorySize {
            which: MemoryBound::Initial,
            requested,
            needed,
        });
    }
    Ok(requested / PAGE_BYTES)
}

/// The greatest size in pages, of a memory that has so many at first.
fn most_pages(
    given: Option<u64>,
    max_memory: Option<u64>,
    shared_memory: bool,
    pages: u64,
) -> Result<Option<u64>, LinkError>
    requires { pages ≤ MAX_PAGES }
    ensures ok { IfOk result (λ most. most ≡ new_maximum given max_memory shared_memory pages) }
    ensures clear { OnOk result (Clear (IsMaximumRefused max_memory (pages * PAGE_BYTES))) }
    ensures err { IfErr result (IsMaximumRefused max_memory (pages * PAGE_BYTES)) }
{
    let Some(requested) = max_memory else {
        if shared_memory {
            return Ok(Some(given.unwrap_or(0).max(pages)));
        }
        return Ok(given);
    };
    let needed = pages * PAGE_BYTES;
    if requested % PAGE_BYTES != 0 || requested > MAX_BYTES || requested < needed {
        return Err(LinkError::BadMemorySize {
            which: MemoryBound::Maximum,
            requested,
            needed,
        });
    }
    Ok(Some(requested / PAGE_BYTES))
}

/// Raises the size that the memory has at first, so that it holds the data, the address from which
/// that counts and the stack, and has the size that is asked for; gives it its greatest size; and
/// answers the new size in pages. Sizes are asked for in bytes. Whether threads share the memory
/// stays as it is.
///
/// # Errors
/// The memory is as it was, with the first of these that is the case. `TooLarge` where the stack
/// ends past the last address. `BadMemorySize` where the size that is asked for at first is no
/// whole number of pages, more than a page below the number of addresses, or less than is needed.
/// `BadMemorySize` where the greatest one is no whole number of pages, more than there are
/// addresses, or less than the new size.
pub fn ensure_memory_covers(
    memory: &mut MemoryType,
    data_end: u32,
    memory_base: u32,
    stack_size: u32,
    stack_first: bool,
    initial_memory: Option<u64>,
    max_memory: Option<u64>,
    shared_memory: bool,
) -> Result<u64, LinkError>
    requires { memory.old.initial ≤ MAX_PAGES }
    ensures pages { IfOk result (λ pages. pages ≡ raised_pages memory.old.initial
        (needed_bytes (needs_of data_end memory_base stack_size stack_first)) initial_memory) }
    ensures small { IfOk result (λ pages. pages ≤ MAX_PAGES) }
    ensures raised { IfOk result (λ pages. memory.new ≡ record memory.old {
      initial = pages;
      maximum = new_maximum memory.old.maximum max_memory shared_memory pages;
    }) }
    ensures clear { OnOk result (Clear (memory_fault
        (needs_of data_end memory_base stack_size stack_first)
        initial_memory max_memory memory.old.initial)) }
    ensures err { IfErr result (memory_fault
        (needs_of data_end memory_base stack_size stack_first)
        initial_memory max_memory memory.old.initial) }
    ensures unchanged { OnErr result (memory.new ≡ memory.old) }
{
    let stack = needed_by_stack(data_end, stack_size, stack_first)?;
    let needed = u64::from(data_end.max(memory_base).max(stack));
    let asked = asked_pages(initial_memory, needed)?;
    let pages = memory.initial.max(needed.div_ceil(PAGE_BYTES)).max(asked);
    let most = most_pages(memory.maximum, max_memory, shared_memory, pages)?;
    memory.initial = pages;
    memory.maximum = most;
    Ok(pages)
}
