//! Functions, as they are run.

ghost use Rattle.std.specs.Prelude.{◌≡◌, ◌<◌, length, slice_get, IfSome, option_copied};
ghost use Rattle.wl_bytes.specs.declared.reader.TheConstants.{MAX_LEN};
ghost use Rattle.wl_load.specs.Values.{are_integer_runs};
ghost use Rattle.wl_load.specs.Resolving.{instruction_at, IsPrepared};

use crate::instruction::Instruction;
use crate::values::are_integer_runs;
use std::marker::Model;
use wl_module::ValType;
use wl_ops::Op;

/// So many locals of one type.
#[derive(Clone, Copy)]
pub struct LocalRun {
    /// How many there are.
    pub count: u32,
    /// Their type.
    pub value_type: ValType,
}

/// A function that isn't the host's: its type, its locals but for the parameters and whether these
/// are integers, its operators, and these as they are run. Clauses see it as its `Code`.
#[derive(Drop)]
pub struct Function {
    type_index: u32,
    locals: Vec<LocalRun>,
    has_integers: bool,
    ops: Vec<Op>,
    instructions: Vec<Instruction>,
}

impl Model for Function {
    ghost use Rattle.wl_load.specs.Codes.{Code};
    ghost use Rattle.wl_load.specs.Functions.{IsReady};

    ghost Value = { Code };

    ghost view = { λ f. record {
      type_index = f.type_index;
      locals = f.locals.items;
      ops = f.ops.items;
    } };

    ghost invariant = { λ f. IsReady f.locals.items f.has_integers
        f.ops.items f.instructions.items };
}

impl Function {
    /// A function of these parts.
    pub(crate) fn new(
        type_index: u32,
        locals: Vec<LocalRun>,
        ops: Vec<Op>,
        instructions: Vec<Instruction>,
    ) -> Self
        requires { IsPrepared ops.items instructions.items }
        ensures { result ≡
            record { type_index = type_index; locals = locals.items; ops = ops.items } }
    {
        let has_integers = are_integer_runs(&locals);
        Function {
            type_index,
            locals,
            has_integers,
            ops,
            instructions,
        }
    }

    /// The number of its type.
    pub(crate) fn type_index(&self) -> u32
        ensures { result ≡ self.now.type_index }
    {
        self.type_index
    }

    /// Its locals but for the parameters.
    pub(crate) fn locals(&self) -> &[LocalRun]
        ensures { result.now ≡ self.now.locals }
    {
        self.locals.as_slice()
    }

    /// Whether all its locals are integers.
    pub(crate) fn has_integers(&self) -> bool
        ensures { result ≡ are_integer_runs self.now.locals }
    {
        self.has_integers
    }

    /// How many operators it has.
    pub(crate) fn len(&self) -> u32
        ensures { result ≡ length self.now.ops }
    {
        self.ops.len() as u32
    }

    /// Its operators.
    pub(crate) fn ops(&self) -> &[Op]
        ensures { result.now ≡ self.now.ops }
    {
        self.ops.as_slice()
    }

    /// The operator at a place, as it is run.
    #[tactic(auto, using(crate::proofs::BlockLaws::instructions_indexed, crate::proofs::BlockLaws::instructions_counted))]
    pub(crate) fn instruction(&self, place: u32) -> Option<&Instruction>
        ensures value { option_copied result ≡ instruction_at self.now.ops place }
        ensures bound { IfSome result (λ _. place < MAX_LEN) }
    {
        instruction_in(&self.instructions, place)
    }
}

/// The one at a place.
fn instruction_in(instructions: &[Instruction], place: u32) -> Option<&Instruction>
    ensures value { option_copied result ≡ slice_get instructions.now place }
    ensures within { IfSome result (λ _. place < length instructions.now) }
{
    instructions.get(place as usize)
}
