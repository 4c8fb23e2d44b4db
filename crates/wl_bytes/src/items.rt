//! Items of sections, and lists of them.

ghost use Rattle.std.specs.Prelude.{◌≡◌, Result, IfOk};
ghost use Rattle.wl_bytes.specs.Cursor.{Cursor};
ghost use Rattle.wl_bytes.specs.declared.read_error.ReadError.{ReadError};
ghost use Rattle.wl_bytes.specs.Chains.{times_after_at, list_after_at};
ghost use Rattle.wl_bytes.specs.Lists.{number_at, whole_of, nothing_left};
ghost use Rattle.wl_bytes.specs.Outcome.{Yields, Gives};

use crate::read_error::{ReadError, Why};
use crate::reader::Reader;
use std::alloc::Global;

/// What stands in a section or a part of one, one after the other: [`read_list`] reads the lists
/// of it, and [`read_payload`] payloads that are one such list.
pub trait Item<'a>: Drop {
    /// What an item is read under: nothing, what is the same for all of a list, or what the items
    /// before it have left.
    type Under: Copy;

    /// The next item, on lists.
    ghost item_at: { Self.Under → Cursor → Result (Self × Cursor) ReadError };
    /// What the next one is read under.
    ghost after: { Self.Under → Self → Self.Under } = { λ under _. under };

    /// Reads the next item, and leaves what the one after it is read under. The errors are those of
    /// the item.
    fn read(
        alloc: Global,
        under: &mut Self::Under,
        reader: &mut Reader<'a>,
    ) -> Result<Self, ReadError>
        ensures value { Yields (λ x. x) result reader.new (item_at under.old reader.old) }
        ensures next { IfOk result (λ x. under.new ≡ after under.old x) };
}

impl<'a> Item<'a> for u32 {
    type Under = ();

    ghost item_at = { λ _. number_at };

    fn read(_alloc: Global, _under: &mut (), reader: &mut Reader<'a>) -> Result<Self, ReadError> {
        Ok(reader.read_u32()?)
    }
}

/// For how many items room is made at once. Most lists are shorter, and take their room once; a
/// count that the bytes don't bear out reserves no more.
const FIRST_ROOM: usize = 32;

/// So many items. The list grows as they are read.
fn read_items<'a, T: Item<'a>>(
    alloc: Global,
    under: T::Under,
    reader: &mut Reader<'a>,
    count: u32,
) -> Result<Vec<T>, ReadError>
    ensures { Yields (λ v. v.items) result reader.new
        (times_after_at T.item_at T.after count under reader.old) }
{
    let mut items = Vec::with_capacity(alloc, FIRST_ROOM.min(count as usize))?;
    let mut under = under;
    for _ in 0..count {
        items.push(T::read(alloc, &mut under, reader)?)?;
    }
    Ok(items)
}

/// The next list (core specification, "Vectors"): how many items there are, and the items. It
/// grows as they are read.
pub fn read_list<'a, T: Item<'a>>(
    alloc: Global,
    under: T::Under,
    reader: &mut Reader<'a>,
) -> Result<Vec<T>, ReadError>
    ensures { Yields (λ v. v.items) result reader.new
        (list_after_at T.item_at T.after under reader.old) }
{
    let count = reader.read_u32()?;
    read_items(alloc, under, reader, count)
}

/// That nothing is left to read: bytes after what was read are `Malformed(Trailing)`.
pub fn expect_end(reader: &Reader<'_>) -> Result<(), ReadError>
    ensures { result ≡ nothing_left reader.now }
{
    if reader.rest().is_empty() {
        Ok(())
    } else {
        Err(ReadError::Malformed(Why::Trailing))
    }
}

/// Reads a payload that is one list. Bytes after it are `Malformed(Trailing)`.
///
/// Each sort of item has a loop of its own with a reader of its own, which stay in registers.
#[inline(never)]
pub fn read_payload<'a, T: Item<'a>>(
    alloc: Global,
    under: T::Under,
    payload: &'a [u8],
) -> Result<Vec<T>, ReadError>
    ensures { Gives (λ v. v.items) result
        (whole_of (list_after_at T.item_at T.after under) payload.now) }
{
    let mut reader = Reader::new(payload);
    let items = read_list(alloc, under, &mut reader)?;
    expect_end(&reader)?;
    Ok(items)
}
