//! Places, and names that say where they stand.

ghost use Rattle.std.specs.Prelude.{◌≡◌, ◌<◌, ◌≤◌, IfOk, OnErr, Err};
ghost use Rattle.wl_bytes.specs.declared.reader.TheConstants.{MAX_LEN};
ghost use Rattle.wl_bytes.specs.declared.read_error.ReadError.TheVariants.{OutOfMemory};
ghost use Rattle.wl_bytes.specs.Outcome.{Yields};
ghost use Rattle.wl_bytes.specs.Words.{placed_name_at};

use crate::read_error::ReadError;
use crate::reader::{MAX_LEN, Reader};

/// How many bytes have been read, as records of an object keep it.
///
/// # Errors
/// `OutOfMemory` beyond [`MAX_LEN`]: no object has such a place.
#[inline(always)]
pub fn place_of(reader: &Reader<'_>) -> Result<u32, ReadError>
    ensures value { IfOk result (λ n. n ≡ reader.now.position) }
    ensures within { IfOk result (λ n. n ≤ MAX_LEN) }
    ensures only { OnErr result (result ≡ Err OutOfMemory) }
    ensures beyond { OnErr result (MAX_LEN < reader.now.position) }
{
    let position = reader.position();
    if position <= MAX_LEN {
        Ok(position as u32)
    } else {
        Err(ReadError::OutOfMemory)
    }
}

/// The next name (core specification, "Names"), and how many bytes lie before its first one,
/// counted as the reader counts.
#[tactic(auto, unfolding(crate::specs::Words::placed_name_at))]
pub fn read_placed_name<'a>(reader: &mut Reader<'a>) -> Result<(&'a str, usize), ReadError>
    ensures { Yields (λ w. (w.0.now, w.1)) result reader.new (placed_name_at reader.old) }
{
    let name = reader.read_name()?;
    Ok((name, reader.position() - name.len()))
}
