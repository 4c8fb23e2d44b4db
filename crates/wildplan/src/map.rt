//! The sizes of what a plan keeps, line by line.

ghost use Rattle.std.specs.Prelude.{◌≡◌, ◌≤◌, ◌+◌, ◌-◌, ◌^◌, ◌++◌, ℕ, List, length, codes, OnOk, IfOk};
ghost use Rattle.wl_data.specs.Sizes.{HasEntrySize};
ghost use Rattle.wl_text.specs.Pieces.{numbered};
ghost use Rattle.wildplan.specs.Map.{size_line, AreCodeLines, data_line, total_lines, IsMapText};

use std::alloc::{AllocError, Global};
use wl_bytes::uleb_len;
use wl_module::WasmFunctionBody;
use wl_plan::{LinkPlan, ObjectSegment, count_output_imports, output_segments};
use wl_text::Page;

/// How many bytes a body takes, with its length before it (core specification, "Code Section").
fn entry_size(body: &WasmFunctionBody<'_>) -> u64
    ensures { HasEntrySize body.now result }
{
    let len = body.bytes.as_slice().len() as u64;
    uleb_len(len) as u64 + len
}

/// A word, a number and a size.
fn push_size(page: &mut Page, word: &[u8], number: usize, size: u64) -> Result<(), AllocError>
    ensures { OnOk result (page.new ≡ page.old ++ size_line word.now number size) }
{
    page.push_decimal(word, number as u64)?;
    page.push_decimal(b" ", size)?;
    page.push_word(b"\n")
}

/// The sizes of functions, the first of which has that number.
fn push_functions(
    page: &mut Page,
    first: usize,
    bodies: &[WasmFunctionBody<'_>],
) -> Result<(), AllocError>
    requires { first + length bodies.now ≤ 2 ^ 64 - 1 }
    ensures { OnOk result ((text : List ℕ) × AreCodeLines first bodies.now text
        × (page.new ≡ page.old ++ text)) }
{
    for (i, body) in bodies.iter().enumerate() {
        push_size(page, b"code ", first + i, entry_size(body))?;
    }
    Ok(())
}

/// The sizes of segments.
fn push_segments(page: &mut Page, segments: &[ObjectSegment<'_, '_>]) -> Result<(), AllocError>
    ensures { OnOk result (page.new ≡ page.old ++ numbered data_line 0 segments.now) }
{
    for (i, segment) in segments.iter().enumerate() {
        let layout = segment.layout;
        push_size(page, b"data ", i, u64::from(layout.encoded_output_size))?;
    }
    Ok(())
}

/// The sizes of the two sections.
fn push_totals(page: &mut Page, plan: &LinkPlan<'_>) -> Result<(), AllocError>
    ensures { OnOk result (page.new ≡ page.old ++ total_lines plan.now) }
{
    page.push_decimal(b"total code ", plan.layout.code_section_size)?;
    page.push_decimal(b"\ntotal data ", plan.layout.data_section_size)?;
    page.push_word(b"\n")
}

/// The sizes of what a plan keeps, in bytes: of each function that isn't imported, of each segment,
/// and of the code section and the data section.
///
/// # Errors
/// `AllocError` where memory runs out.
pub fn link_map(alloc: Global, plan: &LinkPlan<'_>) -> Result<Vec<u8>, AllocError>
    ensures { IfOk result (λ text. IsMapText plan.now text.items) }
{
    let layout = &plan.layout;
    // As a slice the imports are fewer than 2^63, so that each function has a number.
    let _imports = layout.imports.as_slice();
    let (functions, _) = count_output_imports(layout);
    let mut page = Page::new(alloc);
    push_functions(&mut page, functions, layout.function_bodies.as_slice())?;
    let segments = output_segments(alloc, layout.object_data_layouts.as_slice())?;
    push_segments(&mut page, &segments)?;
    push_totals(&mut page, plan)?;
    page.into_text()
}
