//! The memory section, and the data count section.

ghost use Rattle.std.specs.Prelude.{◌≢◌, Bool, IfErr, ◌≤◌, length, IfOk};
ghost use Rattle.wl_bytes.specs.declared.reader.TheConstants.{MAX_LEN};
ghost use Rattle.wl_bytes.specs.declared.read_error.ReadError.TheVariants.{OutOfMemory};
ghost use Rattle.wl_module.specs.Memories.{AreMemories, MemoriesFault, IsDataCount, DataCountFault};
ghost use Rattle.wl_bytes.specs.Outcome.{ReadsWhole, AreAlternatives};

use crate::limits::{MemoryType, read_memory_type};
use std::alloc::Global;
use wl_bytes::{Form, Item, ReadError, Reader, expect_end, read_payload};

impl<'a> Item<'a> for MemoryType {
    ghost use Rattle.std.specs.Prelude.{true};
    ghost use Rattle.wl_bytes.specs.declared.read_error.Form.TheVariants.{ManyMemories};
    ghost use Rattle.wl_bytes.specs.declared.read_error.ReadError.TheVariants.{Unsupported};
    ghost use Rattle.wl_bytes.specs.Chains.{once_at, seen_then};
    ghost use Rattle.wl_module.specs.Limits.{memory_type_at};

    /// Whether the module has a memory already.
    type Under = bool;

    ghost item_at = { once_at memory_type_at (λ _. true) (Unsupported ManyMemories) };

    ghost after = { seen_then (λ _. true) };

    fn read(_alloc: Global, seen: &mut bool, reader: &mut Reader<'a>) -> Result<Self, ReadError> {
        let memory = read_memory_type(reader)?;
        if *seen {
            return Err(ReadError::Unsupported(Form::ManyMemories));
        }
        *seen = true;
        Ok(memory)
    }
}

/// Reads the payload of a memory section (core specification, "Memory Section"), where `imported`
/// says whether the module imports a memory already: it may have one in all.
///
/// A second memory is `Unsupported(ManyMemories)`, once its limits are read. Addresses of 64 bits
/// are `Unsupported(Memory64)`, pages of another size `Unsupported(PageSize)`, limits that can't
/// be `Malformed(BadLimits)`.
pub fn read_memories(
    alloc: Global,
    imported: bool,
    payload: &[u8],
) -> Result<Vec<MemoryType>, ReadError>
    requires { length payload.now ≤ MAX_LEN }
    ensures reads { ReadsWhole (λ v. v.items) (AreMemories imported) (MemoriesFault imported)
        payload.now result }
    ensures count { IfOk result (λ v. length v.items ≤ length payload.now) }
{
    read_payload(alloc, imported, payload)
}

/// Each payload spells one list of memories or has one fault, and never both.
pub fn memories_or_fault()
    ensures { (imported : Bool) → AreAlternatives (AreMemories imported) (MemoriesFault imported) }
{}

/// Reads the payload of a data count section (core specification, "Data Count Section"): how many
/// segments the data section is to have. It takes no memory.
pub fn read_data_count(payload: &[u8]) -> Result<u32, ReadError>
    requires { length payload.now ≤ MAX_LEN }
    ensures reads { ReadsWhole (λ n. n) IsDataCount DataCountFault payload.now result }
    ensures memory { IfErr result (λ e. e ≢ OutOfMemory) }
{
    let mut reader = Reader::new(payload);
    let count = reader.read_u32()?;
    expect_end(&reader)?;
    Ok(count)
}

/// Each payload spells one number or has one fault, and never both.
pub fn data_count_or_fault()
    ensures { AreAlternatives IsDataCount DataCountFault }
{}
