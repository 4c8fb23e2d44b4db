//! What linkers ask of other formats, and what the answer is for WebAssembly, which has none of it:
//! versions of symbols, dynamic tags, flags of machines, and instructions that are rewritten.

ghost use Rattle.std.specs.Prelude.{◌≡◌, [], None, false};

use std::marker::PhantomData;
use wl_custom::RelocationType;

/// The versions of symbols that an object needs of shared ones, of which the format has none.
#[derive(Clone, Copy, Default)]
pub struct VerneedTable<'a> {
    names: PhantomData<&'a [u8]>,
}

impl<'a> VerneedTable<'a> {
    /// The name of the version that a symbol needs, by the symbol's number.
    pub fn version_name(&self, _symbol: u32) -> Option<&'a [u8]>
        ensures { result ≡ None }
    {
        None
    }
}

/// The numbers of what has no address, of which the format has none.
#[derive(Clone, Copy, Default, PartialEq, Eq)]
pub struct NonAddressableIndexes {}

/// The values of dynamic tags, of which the format has none.
#[derive(Clone, Copy, Default, PartialEq, Eq)]
pub struct DynamicTagValues {}

/// A change of the instruction at a relocation, of which the format has none.
#[derive(Clone, Copy, PartialEq, Eq)]
pub struct Relaxation {}

impl Relaxation {
    /// Whether it has to be made.
    pub fn is_mandatory(&self) -> bool
        ensures { result ≡ false }
    {
        false
    }
}

/// Where a thread's data begins, relative to its pointer.
pub fn tp_offset_start() -> u64
    ensures { result ≡ 0 }
{
    0
}

/// The flags of the machine, those of all objects put together.
pub fn merge_eflags() -> u32
    ensures { result ≡ 0 }
{
    0
}

/// The types of relocations that take the high part of an address.
pub fn high_part_relocations() -> &'static [RelocationType]
    ensures { result.now ≡ [] }
{
    &[]
}

/// The change of the instruction at a relocation, whatever that is.
pub fn new_relaxation() -> Option<Relaxation>
    ensures { result ≡ None }
{
    None
}
