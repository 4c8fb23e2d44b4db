//! Runs of a function.

ghost use Rattle.std.specs.Prelude.{◌≡◌, ◌≢◌, Err, Some, None, IfOk, IfSome, IfNone};
ghost use Rattle.wl_load.specs.Images.{code_of};
ghost use Rattle.wl_load.specs.declared.stop.Stop.TheVariants.{OutOfMemory};
ghost use Rattle.wl_load.specs.Storage.{machine};
ghost use Rattle.wl_load.specs.Steps.{end_of, exec};
ghost use Rattle.wl_load.specs.Running.{start_code, Runs, run_of};
ghost use Rattle.wl_load.specs.Answers.{Gives};

use crate::code::Function;
use crate::program::Program;
use crate::run_end::RunEnd;
use crate::stack::Stack;
use crate::stepping::step;
use crate::stop::Stop;
use crate::store::Store;
use std::alloc::Global;
use wl_numeric::Value;

/// A function of a program that isn't the host's, by its number.
#[derive(Clone, Copy)]
struct Running<'a> {
    function: u32,
    code: &'a Function,
}

/// The code of a function that is to run.
fn start_code(program: &Program, function: u32) -> Result<&Function, Stop>
    ensures known { Gives (λ c. c.now) result (start_code program.now function) }
    ensures code { IfOk result (λ c. code_of program.now function ≡ Some c.now) }
    ensures memory { result ≢ Err OutOfMemory }
{
    let Some(ty) = program.type_of(function) else {
        return Err(Stop::Invalid);
    };
    if !program.is_known(function, ty) {
        return Err(Stop::Foreign);
    }
    if program.is_host(function) {
        return Err(Stop::Host(function));
    }
    match program.code(function) {
        Some(code) => Ok(code),
        None => Err(Stop::Invalid),
    }
}

/// How a run ends by an operator of a function that stops, after so many operators.
fn end_of(stop: Stop, function: u32, operator: u32, used: u64) -> RunEnd
    ensures { result ≡ end_of function operator used stop }
{
    match stop {
        Stop::Done(results) => RunEnd::Done(results),
        Stop::Trap(kind) => RunEnd::Trap(kind),
        Stop::Waits => RunEnd::Waits,
        Stop::Host(import) => RunEnd::Host { import },
        Stop::Foreign => RunEnd::Foreign { function, operator },
        Stop::Invalid => RunEnd::Invalid { function, operator },
        Stop::OutOfMemory => RunEnd::OutOfMemory(used),
    }
}

/// The function that runs, where one is at hand that ran before.
fn running_of<'a>(program: &'a Program, before: Running<'a>, stack: &Stack) -> Option<Running<'a>>
    requires { code_of program.now before.function ≡ Some before.code.now }
    ensures function { IfSome result (λ r. r.function ≡ stack.now.running.function) }
    ensures code { IfSome result (λ r. code_of program.now r.function ≡ Some r.code.now) }
    ensures none { IfNone result (code_of program.now stack.now.running.function ≡ None) }
{
    let function = stack.function();
    if function == before.function {
        return Some(before);
    }
    match program.code(function) {
        Some(code) => Some(Running { function, code }),
        None => None,
    }
}

/// Does so many steps, of which the first is one of this function.
#[tactic(auto, using(crate::proofs::RunLaws::exec_more, crate::proofs::RunLaws::runs_to))]
fn run_steps(
    alloc: Global,
    program: &Program,
    first: Running<'_>,
    store: &mut Store,
    stack: &mut Stack,
    fuel: u64,
) -> RunEnd
    requires { code_of program.now first.function ≡ Some first.code.now }
    ensures { Runs (λ n. exec program.now n (machine stack.old store.old)) fuel result store.new }
{
    let mut running = first;
    for used in 0..fuel {
        let operator = stack.place();
        running = match running_of(program, running, stack) {
            Some(running) => running,
            None => return end_of(Stop::Invalid, stack.function(), operator, used),
        };
        if let Err(stop) = step(alloc, program, running.code, store, stack) {
            return end_of(stop, running.function, operator, used);
        }
    }
    RunEnd::OutOfFuel
}

/// Runs a function.
#[tactic(auto, using(crate::proofs::RunLaws::not_begun))]
pub(crate) fn run(
    alloc: Global,
    program: &Program,
    store: &mut Store,
    function: u32,
    arguments: &[Value],
    fuel: u64,
) -> RunEnd
    ensures { Runs
        (run_of (record { program = program.now; store = store.old }) function arguments.now)
        fuel result store.new }
{
    let code = match start_code(program, function) {
        Ok(code) => code,
        Err(stop) => return end_of(stop, function, 0, 0),
    };
    match Stack::start(alloc, function, code, arguments) {
        Ok(mut stack) => run_steps(
            alloc,
            program,
            Running { function, code },
            store,
            &mut stack,
            fuel,
        ),
        Err(_) => RunEnd::OutOfMemory(0),
    }
}
