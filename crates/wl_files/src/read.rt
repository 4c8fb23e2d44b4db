//! A whole file.
ghost use Rattle.std.specs.Prelude.{◌≡◌, ◌<◌, ◌≤◌, Some, false, length, IfOk, OnOk, IfErr};
ghost use Rattle.wl_files.specs.Files.{IsKnown};
ghost use Rattle.wl_files.specs.Reading.{HoldsBytes, SameFile, IsClean, GetsMore};
ghost use Rattle.wl_files.specs.Unread.{StopsFor, IsUnreadFor, IsNoFault};
ghost use Rattle.wl_files.specs.declared.read.ReadObject.TheVariants.{OutOfMemory, Fault};

use crate::files::{Failed, Files};
use std::alloc::{AllocError, Global};

/// How many bytes a read asks for: enough that the calls cost little beside the bytes.
const PIECE: usize = 65536;

/// How many bytes a read asks for where no room is lent: few enough to lie on the stack.
const SMALL_PIECE: usize = 4096;

/// Why a file wasn't read.
#[derive(Clone, Copy, PartialEq, Eq)]
pub enum ReadObject {
    /// Memory was short.
    OutOfMemory,
    /// A begin or a read of the file failed.
    Fault,
    /// More bytes came than the limit.
    TooLong,
}

impl From<AllocError> for ReadObject {
    ghost from_gives = { λ _ e. e ≡ OutOfMemory };

    fn from(_: AllocError) -> Self {
        ReadObject::OutOfMemory
    }
}

impl From<Failed> for ReadObject {
    ghost from_gives = { λ _ e. e ≡ Fault };

    fn from(_: Failed) -> Self {
        ReadObject::Fault
    }
}

// Reads a piece of the current file, appends it to the bytes, and says whether that was the end.
fn read_more<'n, F: Files<'n>>(
    files: &mut F,
    piece: &mut [u8],
    bytes: &mut Vec<u8>,
    limit: usize,
) -> Result<bool, ReadObject>
    requires room { 0 < length piece.old }
    requires within { length bytes.old.items ≤ limit }
    ensures piece { length piece.new ≡ length piece.old }
    ensures same { SameFile (F.state files.old) (F.state files.new) }
    ensures clean { OnOk result (IsClean (F.state files.old) (F.state files.new)) }
    ensures more { IfOk result (GetsMore (F.state files.old) (F.state files.new)
        bytes.old.items bytes.new.items) }
    ensures within { OnOk result (length bytes.new.items ≤ limit) }
    ensures err { IfErr result
        (StopsFor (F.state files.old) (F.state files.new) bytes.old.items limit) }
    ensures calm { F.is_calm files.old → (F.state files.old).closed ≡ false
        → F.is_calm files.new × ((F.state files.new).faults ≡ (F.state files.old).faults)
        × IsNoFault result }
{
    let count = files.read(piece)?;
    if count > limit - bytes.len() {
        return Err(ReadObject::TooLong);
    }
    bytes.extend_from_slice(&piece[..count])?;
    Ok(count == 0)
}

/// Room for what one call of `read` gives, made once for all files.
///
/// # Errors
/// `AllocError` where memory runs out.
pub fn new_piece(alloc: Global) -> Result<Vec<u8>, AllocError>
    ensures { IfOk result (λ piece. 0 < length piece.items) }
{
    vec![in alloc; 0u8; PIECE]
}

/// Reads the file of this name to its end, if it has at most `limit` bytes, through room that is
/// lent, of which nothing counts before or afterwards.
///
/// # Errors
/// As of [`read_object`].
pub fn read_with<'n, F: Files<'n>>(
    alloc: Global,
    files: &mut F,
    piece: &mut [u8],
    name: &'n str,
    limit: usize,
) -> Result<Vec<u8>, ReadObject>
    requires room { 0 < length piece.old }
    ensures piece { length piece.new ≡ length piece.old }
    ensures begun { (F.state files.new).begun ≡ Some name.now }
    ensures names { (F.state files.new).names ≡ (F.state files.old).names }
    ensures later { (F.state files.old).faults ≤ (F.state files.new).faults }

    ensures ok { IfOk result (λ bytes. HoldsBytes (F.state files.old).names name.now bytes.items) }
    ensures all { IfOk result (λ bytes. (F.state files.new).given ≡ length bytes.items) }
    ensures within { IfOk result (λ bytes. length bytes.items ≤ limit) }

    // No call of those that read it has failed.
    ensures clean { OnOk result ((F.state files.new).faults ≡ (F.state files.old).faults) }
    ensures unfailed { OnOk result ((F.state files.new).failed ≡ false) }

    ensures err { IfErr result
        (IsUnreadFor (F.state files.old) (F.state files.new) name.now limit) }

    // Where no call is to fail, a name that is held has no fault.
    ensures calm { F.is_calm files.old → IsKnown (F.state files.old).names name.now
        → F.is_calm files.new × ((F.state files.new).faults ≡ (F.state files.old).faults)
        × IsNoFault result }
{
    files.begin(name)?;
    let mut bytes = Vec::new(alloc);
    let mut ended = false;
    while !ended {
        ended = read_more(files, piece, &mut bytes, limit)?;
    }
    Ok(bytes)
}

/// Reads the file of this name to its end, if it has at most `limit` bytes.
///
/// # Errors
/// `Fault` where a begin or a read of the file failed, `TooLong` where more bytes came than
/// `limit`, of which at most a piece is read in vain, `OutOfMemory` where memory was short.
pub fn read_object<'n, F: Files<'n>>(
    alloc: Global,
    files: &mut F,
    name: &'n str,
    limit: usize,
) -> Result<Vec<u8>, ReadObject>
    ensures begun { (F.state files.new).begun ≡ Some name.now }
    ensures names { (F.state files.new).names ≡ (F.state files.old).names }
    ensures later { (F.state files.old).faults ≤ (F.state files.new).faults }

    ensures ok { IfOk result (λ bytes. HoldsBytes (F.state files.old).names name.now bytes.items) }
    ensures all { IfOk result (λ bytes. (F.state files.new).given ≡ length bytes.items) }
    ensures within { IfOk result (λ bytes. length bytes.items ≤ limit) }

    // No call of those that read it has failed.
    ensures clean { OnOk result ((F.state files.new).faults ≡ (F.state files.old).faults) }
    ensures unfailed { OnOk result ((F.state files.new).failed ≡ false) }

    ensures err { IfErr result
        (IsUnreadFor (F.state files.old) (F.state files.new) name.now limit) }

    // Where no call is to fail, a name that is held has no fault.
    ensures calm { F.is_calm files.old → IsKnown (F.state files.old).names name.now
        → F.is_calm files.new × ((F.state files.new).faults ≡ (F.state files.old).faults)
        × IsNoFault result }
{
    let mut piece = [0u8; SMALL_PIECE];
    read_with(alloc, files, &mut piece, name, limit)
}
