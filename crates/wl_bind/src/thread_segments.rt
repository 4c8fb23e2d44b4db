//! Segments that hold data of which each thread has its own.

ghost use Rattle.std.specs.Prelude.{◌≡◌, slice_set, IfOk};
ghost use Rattle.wl_bind.specs.ThreadData.{thread_data};
ghost use Rattle.wl_custom.specs.Symbols.{is_thread_data};
ghost use Rattle.wl_bind.specs.steps.ThreadSegments.{marked};

use std::alloc::{AllocError, Global};
use wl_linking::{File, WasmSymbol};

/// Marks a segment, if there is one of that number.
fn set_mark(marks: &mut Vec<bool>, segment: usize, mark: bool)
    ensures { marks.new.items ≡ slice_set marks.old.items segment mark }
{
    if segment < marks.len() {
        marks[segment] = mark;
    }
}

/// Marks the segment on which a symbol lies, if that is data of a thread.
fn mark_by_symbol(marks: &mut Vec<bool>, symbol: &WasmSymbol<'_>)
    ensures { marks.new.items ≡ marked marks.old.items symbol.now }
{
    if symbol.is_thread_data() {
        set_mark(marks, symbol.index as usize, true);
    }
}

/// Whether each thread has its own of each segment of an object: its info says so, or, where it has
/// none, data of a thread that lies on it does.
///
/// # Errors
/// `AllocError` where memory runs out.
pub fn thread_data(alloc: Global, file: &File<'_>) -> Result<Vec<bool>, AllocError>
    ensures { IfOk result (λ marks. marks.items ≡ thread_data file.now) }
{
    let mut marks = vec![in alloc; false; file.segments().len()]?;
    for symbol in file.symbols() {
        mark_by_symbol(&mut marks, symbol);
    }
    for (segment, info) in file.segment_infos().iter().enumerate() {
        set_mark(&mut marks, segment, info.is_tls());
    }
    Ok(marks)
}
