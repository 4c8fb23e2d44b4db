//! Operators, as they are decoded.

ghost use Rattle.std.specs.Prelude.{◌≡◌, ◌++◌, [], ◌∷◌, pos, is_ok, if◌then◌else◌};

use smallvec::SmallVec;
use std::alloc::{AllocError, Global};
use std::marker::Model;

/// The immediates of an operator: its values in their order, a list after its count. Clauses see
/// it as that list.
#[derive(Drop)]
pub struct OpArgs {
    values: SmallVec<i64, 2>,
}

impl Model for OpArgs {
    ghost use Rattle.std.specs.Prelude.{List, ℤ};

    ghost Value = { List ℤ };

    ghost view = { λ a. a.values.items };
}

impl OpArgs {
    /// No immediates.
    pub(crate) fn new(alloc: Global) -> Self
        ensures { result ≡ [] }
    {
        OpArgs {
            values: SmallVec::new(alloc),
        }
    }

    /// One more value.
    pub(crate) fn push(&mut self, value: i64) -> Result<(), AllocError>
        ensures { self.new ≡ (if is_ok result then self.old ++ value ∷ [] else self.old) }
    {
        self.values.push(value)?;
        Ok(())
    }

    /// One more value, an unsigned one.
    pub(crate) fn push_number(&mut self, number: u32) -> Result<(), AllocError>
        ensures { self.new ≡ (if is_ok result then self.old ++ pos number ∷ [] else self.old) }
    {
        self.values.push(i64::from(number))?;
        Ok(())
    }

    /// The values.
    pub fn as_slice(&self) -> &[i64]
        ensures { result.now ≡ self.now }
    {
        self.values.as_slice()
    }
}

/// One operator.
#[derive(Drop)]
pub struct Op {
    /// The first byte.
    pub code: u8,
    /// The number after 0xfc, 0xfd or 0xfe, else 0.
    pub sub: u32,
    /// The immediates.
    pub args: OpArgs,
}

/// Where the number of a data segment stands in a body, and what it is.
#[derive(Clone, Copy, PartialEq, Eq)]
pub struct DataIndexImm {
    /// How many bytes lie before it.
    pub offset: usize,
    /// How many bytes it has.
    pub len: usize,
    /// The segment.
    pub index: u32,
}

/// An operator, and the number of a data segment among its immediates.
#[derive(Drop)]
pub(crate) struct Marked {
    /// The operator.
    pub op: Op,
    /// The number, in `memory.init` and `data.drop`.
    pub number: Option<DataIndexImm>,
}
