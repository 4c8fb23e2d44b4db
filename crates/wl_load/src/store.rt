//! What runs change: memory, globals and segments, and the operators on them.

ghost use Rattle.std.specs.Prelude.{◌≡◌, ◌≤◌, ◌+◌, ◌<◌, ◌^◌, OnOk, OnErr, length};
ghost use Rattle.wl_load.specs.Storage.{within, machine, global_get, global_set, memory_size, memory_grow, copied, filled, popped_words, memory_init, without_segment, memory_copy, memory_fill};
ghost use Rattle.wl_load.specs.Answers.{Does, Gives, Yields};

use crate::cells::Cells;
use crate::memory::Memory;
use crate::program::Program;
use crate::stack::Stack;
use crate::stop::Stop;
use crate::values::same_width;
use std::alloc::Global;
use wl_lists::ItemList;
use wl_numeric::{TrapKind, Value};

/// Memory, globals and segments.
#[derive(Drop)]
pub struct Store {
    /// Memory.
    pub memory: Memory,
    /// The globals.
    pub globals: Cells<Value>,
    /// The bytes of the segments, of which a dropped one has none.
    pub segments: Cells<ItemList<u8>>,
}

/// Reads a global.
pub(crate) fn global_get(index: u32, store: &Store, stack: &mut Stack) -> Result<(), Stop>
    ensures { Does result (machine stack.new store.now)
        (global_get index (machine stack.old store.now)) }
{
    match store.globals.get(index) {
        Some(value) => {
            stack.push(*value)?;
            Ok(())
        }
        None => Err(Stop::Invalid),
    }
}

/// Sets a global to a value of its width.
pub(crate) fn global_set(index: u32, store: &mut Store, stack: &mut Stack) -> Result<(), Stop>
    ensures does { Does result (machine stack.new store.new)
        (global_set index (machine stack.old store.old)) }
    ensures kept { OnErr result (store.new ≡ store.old) }
{
    let value = stack.pop()?;
    match store.globals.get(index) {
        Some(old) => {
            if !same_width(value, *old) {
                return Err(Stop::Invalid);
            }
        }
        None => return Err(Stop::Invalid),
    }
    store.globals.set(index, value);
    Ok(())
}

/// Returns how many pages memory has.
pub(crate) fn memory_size(store: &Store, stack: &mut Stack) -> Result<(), Stop>
    ensures { Does result (machine stack.new store.now)
        (memory_size (machine stack.old store.now)) }
{
    stack.push(Value::I32(store.memory.page_count()))?;
    Ok(())
}

/// Adds pages to memory, and returns how many it had; -1 where it would pass the limit.
pub(crate) fn memory_grow(
    program: &Program,
    store: &mut Store,
    stack: &mut Stack,
) -> Result<(), Stop>
    ensures does { Does result (machine stack.new store.new)
        (memory_grow program.now (machine stack.old store.old)) }
    ensures kept { OnErr result (store.new ≡ store.old) }
{
    let pages = stack.pop_word()?;
    let old = store.memory.page_count();
    if u64::from(old) + u64::from(pages) > program.page_limit() {
        stack.push(Value::I32(u32::MAX))?;
        return Ok(());
    }
    // Memory comes last, so that it stays as it is where there is no room for the number.
    stack.push(Value::I32(old))?;
    store.memory.grow(pages)?;
    Ok(())
}

/// That so many bytes at a place lie within a length.
pub(crate) fn check_within(place: u64, count: u64, size: usize) -> Result<(), Stop>
    requires { place + count < 2 ^ 64 }
    ensures value { result ≡ within place count size }
    ensures room { OnOk result (place + count ≤ size) }
{
    if place + count <= size as u64 {
        Ok(())
    } else {
        Err(Stop::Trap(TrapKind::OutOfBounds))
    }
}

/// Takes three numbers, the topmost last.
pub(crate) fn pop_words(stack: &mut Stack) -> Result<(u32, u32, u32), Stop>
    ensures { Yields (λ q. q) result stack.new (popped_words stack.old) }
{
    let third = stack.pop_word()?;
    let second = stack.pop_word()?;
    let first = stack.pop_word()?;
    Ok((first, second, third))
}

/// Copies from a segment to memory.
pub(crate) fn memory_init(segment: u32, store: &mut Store, stack: &mut Stack) -> Result<(), Stop>
    ensures does { Does result (machine stack.new store.new)
        (memory_init segment (machine stack.old store.old)) }
    ensures kept { OnErr result (store.new ≡ store.old) }
{
    let (to, from, count) = pop_words(stack)?;
    let Some(segment) = store.segments.get(segment) else {
        return Err(Stop::Invalid);
    };
    let bytes = segment.as_slice();
    check_within(u64::from(from), u64::from(count), bytes.len())?;
    check_within(
        u64::from(to),
        u64::from(count),
        store.memory.as_slice().len(),
    )?;
    let end = from as usize + count as usize;
    store.memory.put(to as usize, &bytes[from as usize..end]);
    Ok(())
}

/// Drops the bytes of a segment.
pub(crate) fn data_drop(alloc: Global, segment: u32, store: &mut Store) -> Result<(), Stop>
    ensures does { Does result store.new (without_segment segment store.old) }
    ensures kept { OnErr result (store.new ≡ store.old) }
{
    if store.segments.get(segment).is_none() {
        return Err(Stop::Invalid);
    }
    store.segments.set(segment, ItemList::empty(alloc));
    Ok(())
}

/// Copies from memory to memory.
pub(crate) fn memory_copy(store: &mut Store, stack: &mut Stack) -> Result<(), Stop>
    ensures does { Does result (machine stack.new store.new)
        (memory_copy (machine stack.old store.old)) }
    ensures kept { OnErr result (store.new ≡ store.old) }
{
    let (to, from, count) = pop_words(stack)?;
    let size = store.memory.as_slice().len();
    check_within(u64::from(from), u64::from(count), size)?;
    check_within(u64::from(to), u64::from(count), size)?;
    store
        .memory
        .copy(to as usize, from as usize, count as usize);
    Ok(())
}

/// Fills memory with the lowest byte of a number.
pub(crate) fn memory_fill(store: &mut Store, stack: &mut Stack) -> Result<(), Stop>
    ensures does { Does result (machine stack.new store.new)
        (memory_fill (machine stack.old store.old)) }
    ensures kept { OnErr result (store.new ≡ store.old) }
{
    let (to, value, count) = pop_words(stack)?;
    check_within(
        u64::from(to),
        u64::from(count),
        store.memory.as_slice().len(),
    )?;
    store
        .memory
        .fill(to as usize, (value % 256) as u8, count as usize);
    Ok(())
}
