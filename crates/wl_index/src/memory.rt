//! Where stack and heap lie after the data, and what stays free before it.

ghost use Rattle.wl_index.specs.Memory.{behind_data, stack_top, heap_start, IsAddress};

/// The stack begins and ends at multiples of this many bytes.
pub const STACK_ALIGNMENT: u32 = 16;

/// The value of `__memory_base`: so many bytes at the front of memory stay free, so that no data
/// stands where a null pointer leads.
pub const LINKER_MEMORY_BASE: u32 = 1024;

/// The first place for the stack or the heap after the data, if that is an address.
pub fn behind_data(data_end: u32) -> Option<u32>
    ensures { IsAddress (behind_data data_end) result }
{
    data_end.checked_next_multiple_of(STACK_ALIGNMENT)
}

/// Where the stack ends that follows the data, if that is an address.
pub fn stack_top(data_end: u32, stack_size: u32) -> Option<u32>
    ensures { IsAddress (stack_top data_end stack_size) result }
{
    behind_data(data_end)?.checked_add(stack_size)
}

/// Where the heap begins, if that is an address: after the data, or after the stack where that
/// follows the data.
pub fn heap_start(data_end: u32, stack_size: u32, stack_first: bool) -> Option<u32>
    ensures { IsAddress (heap_start data_end stack_size stack_first) result }
{
    if stack_first {
        behind_data(data_end)
    } else {
        stack_top(data_end, stack_size)
    }
}
