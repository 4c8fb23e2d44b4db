//! The operators of the threads text.

ghost use Rattle.std.specs.Prelude.{◌≡◌, ◌+◌, ◌<◌, ◌≤◌, ◌^◌, IfOk, OnErr, length};
ghost use Rattle.wl_numeric.specs.Memory.{little_endian};
ghost use Rattle.wl_load.specs.Storage.{at_word, word_at, with_word, machine, notify, wait, atomic_store, exchanged, compare_exchange};
ghost use Rattle.wl_load.specs.Answers.{Does, Gives, Yields};

use crate::memory::Memory;
use crate::program::Program;
use crate::stack::Stack;
use crate::stop::Stop;
use crate::store::{Store, check_within, pop_words};
use wl_numeric::{TrapKind, Value, bytes_are_digits};

/// The place that an address and an offset give, where four bytes lie in memory, at a multiple
/// of 4.
fn word_place(address: u32, offset: u32, memory: &Memory) -> Result<usize, Stop>
    ensures value { Gives (λ _. tt) result (at_word (address + offset) memory.now) }
    ensures place { IfOk result (λ place. place ≡ address + offset) }
    ensures room { IfOk result (λ place. place + 4 ≤ length memory.now) }
{
    let place = u64::from(address) + u64::from(offset);
    check_within(place, 4, memory.as_slice().len())?;
    if place % 4 == 0 {
        Ok(place as usize)
    } else {
        Err(Stop::Trap(TrapKind::Unaligned))
    }
}

/// The number that stands at a place.
fn word_at(place: usize, memory: &Memory) -> u32
    requires { place + 4 ≤ length memory.now }
    ensures { result ≡ word_at place memory.now }
{
    match &memory.as_slice()[place..place + 4] {
        [a, b, c, d] => u32::from_le_bytes([*a, *b, *c, *d]),
        _ => unreachable!(),
    }
}

/// The bytes of a number, the lowest first.
pub(crate) fn word_bytes(number: u32) -> [u8; 4]
    ensures { result ≡ little_endian 4 number }
{
    bytes_are_digits();
    number.to_le_bytes()
}

/// Wakes those who wait at a place: none does.
pub(crate) fn notify(offset: u32, store: &Store, stack: &mut Stack) -> Result<(), Stop>
    ensures { Does result (machine stack.new store.now)
        (notify offset (machine stack.old store.now)) }
{
    let _count = stack.pop_word()?;
    let address = stack.pop_word()?;
    word_place(address, offset, &store.memory)?;
    stack.push(Value::I32(0))?;
    Ok(())
}

/// Waits where the expected number stands, whatever the timeout, and else leaves 1.
pub(crate) fn wait(
    program: &Program,
    offset: u32,
    store: &Store,
    stack: &mut Stack,
) -> Result<(), Stop>
    ensures { Does result (machine stack.new store.now)
        (wait program.now offset (machine stack.old store.now)) }
{
    let _timeout = stack.pop_long()?;
    let expected = stack.pop_word()?;
    let address = stack.pop_word()?;
    let place = word_place(address, offset, &store.memory)?;
    if !program.is_shared {
        return Err(Stop::Trap(TrapKind::Unshared));
    }
    if word_at(place, &store.memory) == expected {
        return Err(Stop::Waits);
    }
    stack.push(Value::I32(1))?;
    Ok(())
}

/// Stores a number.
pub(crate) fn atomic_store(offset: u32, store: &mut Store, stack: &mut Stack) -> Result<(), Stop>
    ensures does { Does result (machine stack.new store.new)
        (atomic_store offset (machine stack.old store.old)) }
    ensures kept { OnErr result (store.new ≡ store.old) }
{
    let number = stack.pop_word()?;
    let address = stack.pop_word()?;
    let place = word_place(address, offset, &store.memory)?;
    store.memory.put(place, &word_bytes(number));
    Ok(())
}

/// Stores a number where the expected one stands, and leaves what stood there.
pub(crate) fn compare_exchange(
    offset: u32,
    store: &mut Store,
    stack: &mut Stack,
) -> Result<(), Stop>
    ensures does { Does result (machine stack.new store.new)
        (compare_exchange offset (machine stack.old store.old)) }
    ensures kept { OnErr result (store.new ≡ store.old) }
{
    let (address, expected, new) = pop_words(stack)?;
    let place = word_place(address, offset, &store.memory)?;
    let found = word_at(place, &store.memory);
    // Memory comes last, so that it stays as it is where there is no room for the number.
    stack.push(Value::I32(found))?;
    if found == expected {
        store.memory.put(place, &word_bytes(new));
    }
    Ok(())
}
