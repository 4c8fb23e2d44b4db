//! A body while it is made.

ghost use Rattle.std.specs.Prelude.{◌≡◌, [], ◌++◌, OnOk, MatchResult};
ghost use Rattle.wl_synth.specs.Spelling.{as_ops};
ghost use Rattle.wl_synth.specs.Encoding.{IsWritten, EncodeFault};

use crate::error::SynthError;
use crate::operator::Operator;
use crate::spelling::spell;
use std::alloc::{AllocError, Global};
use std::marker::Model;

/// The operators of a body so far. Clauses see it as the list of them.
#[derive(Drop)]
pub struct BodyBuilder {
    operators: Vec<Operator>,
}

impl Model for BodyBuilder {
    ghost use Rattle.std.specs.Prelude.{List};
    ghost use Rattle.wl_ops.specs.declared.op.Op.{Op};
    ghost use Rattle.wl_synth.specs.Spelling.{as_ops};

    ghost Value = { List Op };

    ghost view = { λ b. as_ops b.operators.items };
}

impl BodyBuilder {
    /// No operators.
    pub fn new(alloc: Global) -> Self
        ensures { result ≡ [] }
    {
        BodyBuilder {
            operators: Vec::new(alloc),
        }
    }

    /// These operators are added at the end.
    pub fn push(&mut self, operators: &[Operator]) -> Result<(), AllocError>
        ensures { OnOk result (self.new ≡ self.old ++ as_ops operators.now) }
    {
        self.operators.extend_from_slice(operators)
    }

    /// The bytes of the body, which has no locals of its own.
    pub fn spell(&self, alloc: Global) -> Result<Vec<u8>, SynthError>
        ensures { MatchResult result
            (λ body. IsWritten self.now body.items) (EncodeFault self.now) }
    {
        spell(alloc, self.operators.as_slice())
    }
}
