//! Why there is no plan.

use std::alloc::{AllocError, AllocFailed};
use wl_bytes::{Form, Why};
use wl_lists::{ItemList, Text};

/// What is larger than it may be.
#[derive(Clone, Copy, PartialEq, Eq)]
pub enum Quantity {
    /// An object: at most [`MAX_LEN`](wl_bytes::MAX_LEN) bytes.
    Object,
    /// A space of the output: at most 4294967294 entries.
    Space,
    /// An address: at most 4294967295.
    Address,
    /// A size in the output.
    Size,
    /// The end of the heap: at most 4294967295.
    HeapEnd,
    /// A listing that is checked: at most [`MAX_LEN`](wl_bytes::MAX_LEN) bytes.
    Listing,
}

/// What shared memory lacks.
#[derive(Clone, Copy, PartialEq, Eq)]
pub enum SharedMemoryNeed {
    /// The object of that number disallows it.
    Disallowed(usize),
    /// The feature `atomics`.
    Atomics,
    /// The feature `bulk-memory`.
    BulkMemory,
}

/// Which size of a memory was asked for.
#[derive(Clone, Copy, PartialEq, Eq)]
pub enum MemoryBound {
    /// The size that it starts with.
    Initial,
    /// The size that it may grow to.
    Maximum,
}

/// A name that an object refers to, and that nothing defines.
#[derive(Drop)]
pub struct UndefinedSymbol {
    /// The object's number.
    pub object: usize,
    /// The name.
    pub name: Text,
}

/// Why there is no plan. Objects are numbered as given, from 0, and symbols as in their object.
/// A slot is the number of an import among those of its kind.
#[derive(Drop)]
pub enum LinkError {
    /// Memory ran out.
    OutOfMemory,
    /// The object breaks the grammar.
    Malformed {
        object: usize,
        why: Why,
    },
    /// The object has a form that isn't planned.
    Unsupported {
        object: usize,
        form: Form,
    },
    /// Two symbols that other objects can name have one name; the second is the earliest of all
    /// symbols that repeats a name.
    DuplicateSymbol {
        name: Text,
        first_object: usize,
        first_symbol: u32,
        second_object: usize,
        second_symbol: u32,
    },
    /// The prefix of a feature is neither `+` nor `-`.
    BadFeature {
        object: usize,
        prefix: u8,
    },
    /// Shared memory is asked for, and lacks something.
    SharedMemoryFeature {
        need: SharedMemoryNeed,
    },
    /// The object disallows a feature that is used.
    FeatureConflict {
        object: usize,
        feature: Text,
    },
    /// No object defines a function of the entry's name.
    EntryNotDefined {
        name: Text,
    },
    /// The symbol stands for another kind of thing than its use asks for.
    WrongKind {
        object: usize,
        symbol: u32,
    },
    /// The symbol stands for a function of another type than the one under which it is known.
    SignatureMismatch {
        object: usize,
        symbol: u32,
    },
    /// Nothing defines these names.
    UndefinedSymbols(ItemList<UndefinedSymbol>),
    /// Two imports of one name have different types.
    ConflictingTypes {
        name: Text,
        first_object: usize,
        first_slot: u32,
        second_object: usize,
        second_slot: u32,
    },
    /// The size of the stack is no multiple of 16.
    BadStackSize(u32),
    /// Something is larger than it may be.
    TooLarge {
        what: Quantity,
    },
    /// The size that was asked for a memory can't be; so many bytes are needed.
    BadMemorySize {
        which: MemoryBound,
        requested: u64,
        needed: u64,
    },
    /// The value of a relocation doesn't fit its field.
    RelocationRange {
        object: usize,
        offset: u32,
        value: i64,
    },
    /// A constant that the linker writes is above 2147483647.
    ConstantRange {
        value: u32,
    },
    /// No object defines the name that is to be exported.
    ExportNotFound {
        name: Text,
    },
    /// Two exports have one name.
    DuplicateExport {
        name: Text,
    },
}

impl From<AllocError> for LinkError {
    ghost use Rattle.std.specs.Prelude.{◌≡◌};
    ghost use Rattle.wl_linking.specs.declared.error.LinkError.TheVariants.{OutOfMemory};

    ghost from_gives = { λ _ e. e ≡ OutOfMemory };

    fn from(_: AllocError) -> Self {
        LinkError::OutOfMemory
    }
}

impl<T: Drop> From<AllocFailed<T>> for LinkError {
    ghost use Rattle.std.specs.Prelude.{◌≡◌};
    ghost use Rattle.wl_linking.specs.declared.error.LinkError.TheVariants.{OutOfMemory};

    ghost from_gives = { λ _ e. e ≡ OutOfMemory };

    fn from(_: AllocFailed<T>) -> Self {
        LinkError::OutOfMemory
    }
}
