//! Lines, appended to a text.

ghost use Rattle.std.specs.Prelude.{◌≡◌, ◌++◌, OnOk, OnErr};
ghost use Rattle.wl_check.specs.Texts.{line_text};
ghost use Rattle.wl_check.specs.Ranges.{InRange};
ghost use Rattle.wl_check.specs.Spelled.{Spelled};
ghost use Rattle.wl_check.specs.declared.line.Line.TheVariants.{Function};

use crate::line::{FunctionSource, Line};
use crate::rows::{
    push_body_line, push_debug_line, push_end_line, push_export_line, push_feature_line,
    push_fixup_line, push_global_line, push_import_line, push_made_function_line, push_memory_line,
    push_object_function_line, push_segment_line, push_slot_line, push_start_line, push_stub_line,
    push_table_line, push_type_line, push_version_line, push_wrapper_line,
};
use std::alloc::AllocError;
use wl_text::Page;

/// Puts the line of a function on a page.
fn put_function(
    page: &mut Page,
    index: u32,
    ty: u32,
    source: &FunctionSource,
) -> Result<(), AllocError>
    ensures appended { OnOk result
        (page.new ≡ page.old ++ line_text (Function index ty source.now)) }
    ensures fits { OnOk result (InRange (Function index ty source.now)) }
{
    let index = u64::from(index);
    match source {
        FunctionSource::Object { object, unit } => {
            push_object_function_line(page, index, ty, *object, *unit)
        }
        FunctionSource::Made(made) => push_made_function_line(page, index, ty, *made),
        FunctionSource::Stub { name } => push_stub_line(page, index, ty, name.as_slice()),
        FunctionSource::Wrap { name } => push_wrapper_line(page, index, ty, name.as_slice()),
    }
}

/// Puts a line on a page.
fn put_line(page: &mut Page, line: &Line) -> Result<(), AllocError>
    ensures appended { OnOk result (page.new ≡ page.old ++ line_text line.now) }
    ensures fits { OnOk result (InRange line.now) }
{
    match line {
        Line::Version => push_version_line(page),
        Line::OutputType { index, ty } => push_type_line(page, u64::from(*index), ty),
        Line::Import {
            module,
            name,
            entity,
        } => push_import_line(page, module.as_slice(), name.as_slice(), *entity),
        Line::Function { index, ty, source } => put_function(page, *index, *ty, source),
        Line::Body { index, bytes } => push_body_line(page, u64::from(*index), bytes.as_slice()),
        Line::Global {
            index,
            ty,
            init,
            origin,
        } => push_global_line(page, u64::from(*index), *ty, init.as_slice(), *origin),
        Line::Memory(ty) => push_memory_line(page, *ty),
        Line::Table { minimum } => push_table_line(page, *minimum),
        Line::Slot { slot, function } => push_slot_line(page, u64::from(*slot), *function),
        Line::Segment {
            index,
            object,
            unit,
            state,
            len,
        } => push_segment_line(
            page,
            u64::from(*index),
            (*object, *unit),
            *state,
            u64::from(*len),
        ),
        Line::Export { name, kind, index } => {
            push_export_line(page, name.as_slice(), *kind, *index)
        }
        Line::Start { function } => push_start_line(page, *function),
        Line::Fix(fixup) => push_fixup_line(page, *fixup),
        Line::Feature { name } => push_feature_line(page, name.as_slice()),
        Line::Debug { object, name, len } => {
            push_debug_line(page, *object, name.as_slice(), u64::from(*len))
        }
        Line::End => push_end_line(page),
    }
}

/// Appends the text of a line to a text, with its line end.
///
/// # Errors
/// `AllocError` where memory runs out. The text is as it was then.
pub fn push_line(text: &mut Vec<u8>, line: &Line) -> Result<(), AllocError>
    ensures ok { OnOk result (text.new.items ≡ text.old.items ++ line_text line.now) }
    ensures spelled { OnOk result (Spelled (line_text line.now) line.now) }
    ensures err { OnErr result (text.new.items ≡ text.old.items) }
{
    let mut page = Page::new(*text.allocator());
    put_line(&mut page, line)?;
    let line = page.into_text()?;
    text.extend_from_slice(line.as_slice())
}
