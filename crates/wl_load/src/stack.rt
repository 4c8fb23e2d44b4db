//! The calls that are open. All their operands lie in one list, and so do their locals and the
//! blocks round the innermost ones: marks and frames say where each of them begins.

ghost use Rattle.std.specs.Prelude.{◌≡◌, ◌≤◌, ◌<◌, ◌++◌, ◌+◌, ◌-◌, [], ◌∷◌, length, take, replicate, IfOk, IfSome, IfNone, OnOk, OnErr};
ghost use Rattle.wl_load.specs.Values.{last_of, zero_of, zeros};
ghost use Rattle.wl_load.specs.States.{operands, pushed, without_last, popped, popped_word, popped_long, local_at, with_local, at_place, opened, label_at, block_count, reached, left, own_label, begun, entered};
ghost use Rattle.wl_load.specs.Answers.{Does, Yields};

use crate::block_type::BlockType;
use crate::code::{Function, LocalRun};
use crate::results::Results;
use crate::stop::Stop;
use crate::values::zero_of;
use std::alloc::{AllocError, Global};
use std::marker::Model;
use wl_numeric::Value;

/// What a branch to a block, and its end, have to know.
#[derive(Clone, Copy)]
pub struct Label {
    /// The block's type.
    pub block_type: BlockType,
    /// Whether a branch begins the block anew.
    pub is_loop: bool,
    /// The place where a branch goes on.
    pub next: u32,
}

/// A block that is open.
#[derive(Clone, Copy)]
pub struct Mark {
    /// Its label.
    pub label: Label,
    /// How many operands lie below its own.
    pub height: usize,
}

/// A call that is open.
#[derive(Clone, Copy)]
pub struct Frame {
    /// The function.
    pub function: u32,
    /// The place of the operator that comes next.
    pub place: u32,
    /// How many locals lie below its own.
    pub locals: usize,
    /// How many blocks lie below those round its innermost one.
    pub around: usize,
    /// The innermost block.
    pub block: Mark,
}

/// The calls that are open: the one that runs, and those that wait for it. Clauses see them as
/// `Calls`, where each block has operands of its own.
#[derive(Drop)]
pub struct Stack {
    running: Frame,
    waiting: Vec<Frame>,
    around: Vec<Mark>,
    operands: Vec<Value>,
    locals: Vec<Value>,
}

impl Model for Stack {
    ghost use Rattle.wl_load.specs.States.{Calls};
    ghost use Rattle.wl_load.specs.Layout.{laid_out, IsLaidOut};

    ghost Value = { Calls };

    ghost view = { λ s. laid_out s.running s.waiting.items
        s.around.items s.operands.items s.locals.items };

    ghost invariant = { λ s. IsLaidOut s.running s.waiting.items
        s.around.items s.operands.items s.locals.items };
}

impl Stack {
    /// The function that runs.
    pub(crate) fn function(&self) -> u32
        ensures { result ≡ self.now.running.function }
    {
        self.running.function
    }

    /// The place of the operator that comes next.
    pub(crate) fn place(&self) -> u32
        ensures { result ≡ self.now.running.place }
    {
        self.running.place
    }

    /// Goes on at a place.
    pub(crate) fn jump(&mut self, place: u32)
        ensures { self.new ≡ at_place place self.old }
    {
        self.running.place = place;
    }

    /// The operands of the innermost block, the topmost last.
    pub(crate) fn operands(&self) -> &[Value]
        ensures { result.now ≡ operands self.now }
    {
        &self.operands[self.running.block.height..]
    }

    /// One more operand.
    #[tactic(auto, using(crate::proofs::StackLaws::pushed_view, crate::proofs::StackLaws::pushed_laid))]
    pub(crate) fn push(&mut self, value: Value) -> Result<(), AllocError>
        ensures { OnOk result (self.new ≡ pushed value self.old) }
    {
        self.operands.push(value)?;
        Ok(())
    }

    /// Drops the topmost operands of the innermost block.
    #[tactic(auto, using(crate::proofs::StackLaws::cut_view, crate::proofs::StackLaws::cut_laid))]
    pub(crate) fn drop_last(&mut self, count: usize)
        requires { count ≤ length (operands self.old) }
        ensures { self.new ≡ without_last count self.old }
    {
        let left = self.operands.len() - count;
        self.operands.truncate(left);
    }

    /// The topmost operand of the innermost block.
    pub(crate) fn last(&self) -> Option<Value>
        ensures some { IfSome result (λ a. last_of 1 (operands self.now) ≡ a ∷ []) }
        ensures none { IfNone result (operands self.now ≡ []) }
    {
        match self.operands() {
            [.., a] => Some(*a),
            [] => None,
        }
    }

    /// The two topmost operands of the innermost block, the topmost last.
    pub(crate) fn last_two(&self) -> Option<(Value, Value)>
        ensures some { IfSome result (λ p. last_of 2 (operands self.now) ≡ p.0 ∷ p.1 ∷ []) }
        ensures none { IfNone result (length (operands self.now) < 2) }
    {
        match self.operands() {
            [.., a, b] => Some((*a, *b)),
            _ => None,
        }
    }

    /// Puts a value in the place of so many of the topmost operands of the innermost block.
    #[tactic(auto, using(crate::proofs::StackLaws::replaced_view, crate::proofs::StackLaws::replaced_laid))]
    pub(crate) fn replace(&mut self, count: usize, value: Value)
        requires some { 0 < count }
        requires enough { count ≤ length (operands self.old) }
        ensures { self.new ≡ pushed value (without_last count self.old) }
    {
        put_last(&mut self.operands, count, value);
    }

    /// Takes the topmost operand of the innermost block.
    pub(crate) fn pop(&mut self) -> Result<Value, Stop>
        ensures { Yields (λ v. v) result self.new (popped self.old) }
    {
        match self.operands().last() {
            Some(value) => {
                let value = *value;
                self.drop_last(1);
                Ok(value)
            }
            None => Err(Stop::Invalid),
        }
    }

    /// Takes the topmost operand, a number of 32 bits.
    pub(crate) fn pop_word(&mut self) -> Result<u32, Stop>
        ensures { Yields (λ n. n) result self.new (popped_word self.old) }
    {
        match self.pop()? {
            Value::I32(number) => Ok(number),
            Value::I64(_) => Err(Stop::Invalid),
        }
    }

    /// Takes the topmost operand, a number of 64 bits.
    pub(crate) fn pop_long(&mut self) -> Result<u64, Stop>
        ensures { Yields (λ n. n) result self.new (popped_long self.old) }
    {
        match self.pop()? {
            Value::I32(_) => Err(Stop::Invalid),
            Value::I64(number) => Ok(number),
        }
    }

    /// A local of the call that runs.
    pub(crate) fn local(&self, index: u32) -> Option<Value>
        ensures { result ≡ local_at index self.now }
    {
        let own = &self.locals[self.running.locals..];
        own.get(index as usize).copied()
    }

    /// Sets a local of the call that runs.
    #[tactic(auto, using(crate::proofs::StackLaws::local_set_view, crate::proofs::StackLaws::local_set_laid))]
    pub(crate) fn set_local(&mut self, index: u32, value: Value)
        requires { index < length self.old.running.locals }
        ensures { self.new ≡ with_local index value self.old }
    {
        self.locals[self.running.locals + index as usize] = value;
    }

    /// How many blocks are open in the call that runs.
    #[tactic(auto, using(crate::proofs::StackLaws::blocks_counted))]
    pub(crate) fn block_count(&self) -> usize
        ensures { result ≡ block_count self.now }
    {
        self.around.len() - self.running.around + 1
    }

    /// The label of the innermost block.
    pub(crate) fn innermost(&self) -> Label
        ensures { result ≡ self.now.running.block.label }
    {
        self.running.block.label
    }

    /// The label of a block of the call that runs, from the innermost on.
    #[tactic(auto, using(crate::proofs::StackLaws::label_found_at, crate::proofs::StackLaws::label_missing_at))]
    pub(crate) fn label(&self, number: usize) -> Option<Label>
        ensures { result ≡ label_at number self.now }
    {
        if number == 0 {
            return Some(self.running.block.label);
        }
        if number > self.around.len() - self.running.around {
            return None;
        }
        let place = self.around.len() - number;
        let mark = self.around[place];
        Some(mark.label)
    }

    /// Opens a block, which takes so many of the operands round it.
    #[tactic(auto, using(crate::proofs::StackLaws::opened_view, crate::proofs::StackLaws::opened_laid))]
    pub(crate) fn open(&mut self, label: Label, count: usize) -> Result<(), AllocError>
        requires { count ≤ length (operands self.old) }
        ensures { OnOk result (self.new ≡ opened label count self.old) }
    {
        self.around.push(self.running.block)?;
        self.running.block = Mark {
            label,
            height: self.operands.len() - count,
        };
        Ok(())
    }

    /// Keeps so many of the topmost operands of the innermost block, and no others.
    #[tactic(auto, using(crate::proofs::StackLaws::kept_view, crate::proofs::StackLaws::kept_laid))]
    fn keep_last(&mut self, count: usize)
        requires { count ≤ length (operands self.old) }
        ensures { self.new ≡ reached 0 count self.old }
    {
        move_down(&mut self.operands, self.running.block.height, count);
    }

    /// Leaves the blocks in a block around the innermost one, so many of them, which keeps so many
    /// of the topmost operands and no others.
    #[tactic(auto, using(crate::proofs::StackLaws::reached_view, crate::proofs::StackLaws::reached_laid))]
    fn reach_outer(&mut self, number: usize, count: usize)
        requires some { 0 < number }
        requires exists { number < block_count self.old }
        requires enough { count ≤ length (operands self.old) }
        ensures { self.new ≡ reached number count self.old }
    {
        let place = self.around.len() - number;
        let outer = self.around[place];
        move_down(&mut self.operands, outer.height, count);
        self.around.truncate(place);
        self.running.block = outer;
    }

    /// Leaves the blocks in a block, from the innermost on, which keeps so many of the topmost
    /// operands and no others.
    pub(crate) fn reach(&mut self, number: usize, count: usize)
        requires exists { number < block_count self.old }
        requires enough { count ≤ length (operands self.old) }
        ensures { self.new ≡ reached number count self.old }
    {
        if number == 0 {
            self.keep_last(count);
        } else {
            self.reach_outer(number, count);
        }
    }

    /// Leaves the innermost block, whose operands are handed on to the block round it, or from the
    /// function's own block to the caller's innermost one.
    #[tactic(auto, using(crate::proofs::StackLaws::left_view, crate::proofs::StackLaws::left_laid, crate::proofs::StackLaws::returned_view, crate::proofs::StackLaws::returned_laid))]
    pub(crate) fn leave(&mut self, alloc: Global) -> Result<(), Stop>
        ensures { Does result self.new (left self.old) }
    {
        if self.around.len() > self.running.around {
            let place = self.around.len() - 1;
            self.running.block = self.around[place];
            self.around.truncate(place);
            return Ok(());
        }
        match self.waiting.pop() {
            Some(caller) => {
                self.locals.truncate(self.running.locals);
                self.running = caller;
                Ok(())
            }
            None => {
                let results = Results::new(alloc, self.operands())?;
                Err(Stop::Done(results))
            }
        }
    }

    /// Calls a function, which takes so many of the topmost operands as its parameters.
    #[tactic(auto, using(crate::proofs::StackLaws::begun_view, crate::proofs::StackLaws::begun_laid, crate::proofs::StackLaws::more_locals_laid))]
    pub(crate) fn enter(
        &mut self,
        function: u32,
        code: &Function,
        parameters: usize,
    ) -> Result<(), AllocError>
        requires { parameters ≤ length (operands self.old) }
        ensures { OnOk result
            (self.new ≡ entered (begun function code.now (last_of parameters (operands self.old)))
            (without_last parameters self.old)) }
    {
        let height = self.operands.len() - parameters;
        let locals = self.locals.len();
        self.locals
            .extend_from_slice(last_values(&self.operands, parameters))?;
        push_zeros(&mut self.locals, code.locals())?;
        self.waiting.push(self.running)?;
        self.operands.truncate(height);
        self.running = begun_frame(function, code, locals, self.around.len(), height);
        Ok(())
    }

    /// A function that nothing calls begins, with its arguments.
    pub(crate) fn start(
        alloc: Global,
        function: u32,
        code: &Function,
        arguments: &[Value],
    ) -> Result<Stack, AllocError>
        ensures { IfOk result
            (λ s. s ≡ record { running = begun function code.now arguments.now; waiting = [] }) }
    {
        let mut locals = Vec::from_slice(alloc, arguments)?;
        push_zeros(&mut locals, code.locals())?;
        Ok(Stack {
            running: begun_frame(function, code, 0, 0, 0),
            waiting: Vec::new(alloc),
            around: Vec::new(alloc),
            operands: Vec::new(alloc),
            locals,
        })
    }
}

/// The last values, so many of them.
fn last_values(values: &[Value], count: usize) -> &[Value]
    requires { count ≤ length values.now }
    ensures { result.now ≡ last_of count values.now }
{
    values.split_at(values.len() - count).1
}

/// Puts a value in the place of so many of the last ones.
#[tactic(auto, using(std::proofs::lemmas::List::take_more_set))]
fn put_last(values: &mut Vec<Value>, count: usize, value: Value)
    requires some { 0 < count }
    requires enough { count ≤ length values.old.items }
    ensures { values.new.items
        ≡ take (length values.old.items - count) values.old.items ++ value ∷ [] }
{
    let place = values.len() - count;
    values[place] = value;
    values.truncate(place + 1);
}

/// Moves so many of the last values down to a height, over all others above it.
fn move_down(values: &mut Vec<Value>, height: usize, count: usize)
    requires { height + count ≤ length values.old.items }
    ensures { values.new.items ≡ take height values.old.items ++ last_of count values.old.items }
{
    let from = values.len() - count;
    values.copy_within(from.., height);
    values.truncate(height + count);
}

/// So many zeros of a type.
fn push_run(locals: &mut Vec<Value>, run: LocalRun) -> Result<(), AllocError>
    ensures ok { OnOk result
        (locals.new.items ≡ locals.old.items ++ replicate run.count (zero_of run.value_type)) }
    ensures err { OnErr result (locals.new.items ≡ locals.old.items) }
{
    let end = locals.len() + run.count as usize;
    locals.resize(end, zero_of(run.value_type))
}

/// What the locals begin with that are no parameters.
fn push_zeros(locals: &mut Vec<Value>, runs: &[LocalRun]) -> Result<(), AllocError>
    ensures ok { OnOk result (locals.new.items ≡ locals.old.items ++ zeros runs.now) }
    ensures kept { take (length locals.old.items) locals.new.items ≡ locals.old.items }
{
    for run in runs {
        push_run(locals, *run)?;
    }
    Ok(())
}

/// The frame of a function that begins.
fn begun_frame(function: u32, code: &Function, locals: usize, around: usize, height: usize) -> Frame
    ensures { result ≡ record {
      function = function;
      place = 0;
      locals = locals;
      around = around;
      block = record { label = own_label code.now; height = height };
    } }
{
    Frame {
        function,
        place: 0,
        locals,
        around,
        block: Mark {
            label: Label {
                block_type: BlockType::Listed(code.type_index()),
                is_loop: false,
                next: code.len(),
            },
            height,
        },
    }
}
