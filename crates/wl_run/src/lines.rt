//! The line that says how a run has ended, or why there was none.

ghost use Rattle.std.specs.Prelude.{◌≡◌, ◌++◌, decimal, map, List, ℕ, OnOk, IfOk, IfSome};
ghost use Rattle.wl_numeric.specs.Values.{number_of};
ghost use Rattle.wl_text.specs.Pieces.{numbers_text};
ghost use Rattle.wl_run.specs.Lines.{trap_name, line, place_text, IsEndLine, IsLoadLine};

use std::alloc::{AllocError, Global};
use wl_load::{LoadError, RunEnd, TrapKind, Value};
use wl_text::Page;

/// The name of a trap.
fn trap_name(kind: TrapKind) -> &'static [u8]
    ensures { result.now ≡ trap_name kind }
{
    match kind {
        TrapKind::Unreachable => b"Unreachable",
        TrapKind::DivideByZero => b"DivideByZero",
        TrapKind::Overflow => b"Overflow",
        TrapKind::OutOfBounds => b"OutOfBounds",
        TrapKind::NullEntry => b"NullEntry",
        TrapKind::BadSignature => b"BadSignature",
        TrapKind::Unaligned => b"Unaligned",
        TrapKind::Unshared => b"Unshared",
    }
}

/// The results of a function, as numbers without a sign.
fn push_results(page: &mut Page, results: &[Value]) -> Result<(), AllocError>
    ensures { OnOk result (page.new ≡ page.old ++ numbers_text (map number_of results.now)) }
{
    for value in results {
        page.push_decimal(b" ", value.number())?;
    }
    Ok(())
}

/// A word, and the numbers of a function and of an operator in it.
fn push_place(page: &mut Page, word: &[u8], function: u32, operator: u32) -> Result<(), AllocError>
    ensures { OnOk result (page.new ≡ page.old ++ place_text word.now function operator) }
{
    page.push_decimal(word, u64::from(function))?;
    page.push_decimal(b" ", u64::from(operator))
}

/// How a run has ended. There is no text that says that memory ran out.
fn push_end(page: &mut Page, end: &RunEnd) -> Result<(), AllocError>
    ensures { OnOk result ((text : List ℕ) × IsEndLine end.now (line text)
        × (page.new ≡ page.old ++ text)) }
{
    match end {
        RunEnd::Done(results) => {
            page.push_word(b"done")?;
            push_results(page, results.as_slice())
        }
        RunEnd::Trap(kind) => {
            page.push_word(b"trap ")?;
            page.push_word(trap_name(*kind))
        }
        RunEnd::Waits => page.push_word(b"waits"),
        RunEnd::Host { import } => page.push_decimal(b"host ", u64::from(*import)),
        RunEnd::OutOfFuel => page.push_word(b"fuel"),
        RunEnd::Foreign { function, operator } => {
            push_place(page, b"foreign ", *function, *operator)
        }
        RunEnd::Invalid { function, operator } => {
            push_place(page, b"invalid ", *function, *operator)
        }
        RunEnd::OutOfMemory(_) => Err(AllocError),
    }
}

/// The line that says how a run has ended.
///
/// # Errors
/// `AllocError` where memory runs out, or ran out in the run.
pub fn end_line(alloc: Global, end: &RunEnd) -> Result<Vec<u8>, AllocError>
    ensures { IfOk result (λ text. IsEndLine end.now text.items) }
{
    let mut page = Page::new(alloc);
    push_end(&mut page, end)?;
    page.push_word(b"\n")?;
    page.into_text()
}

/// The word and the number of a cause.
fn cause_of(error: LoadError) -> Option<(&'static [u8], u64)>
    ensures { IfSome result (λ cause. IsLoadLine error (line (cause.0.now ++ decimal cause.1))) }
{
    match error {
        LoadError::OutOfMemory => None,
        LoadError::HostGlobal { index } => Some((b"load HostGlobal ", u64::from(index))),
        LoadError::TooBig { pages } => Some((b"load TooBig ", pages)),
        LoadError::Init { global } => Some((b"load Init ", u64::from(global))),
        LoadError::Body { function } => Some((b"load Body ", u64::from(function))),
        LoadError::Nesting { function } => Some((b"load Nesting ", u64::from(function))),
    }
}

/// The line that says why a module isn't loaded.
///
/// # Errors
/// `AllocError` where memory runs out, or ran out before.
pub fn load_line(alloc: Global, error: LoadError) -> Result<Vec<u8>, AllocError>
    ensures { IfOk result (λ text. IsLoadLine error text.items) }
{
    let Some((word, number)) = cause_of(error) else {
        return Err(AllocError);
    };
    let mut page = Page::new(alloc);
    page.push_decimal(word, number)?;
    page.push_word(b"\n")?;
    page.into_text()
}
