//! The line of a refusal.

ghost use Rattle.std.specs.Prelude.{◌≡◌, ◌++◌, IfOk, OnOk, codes};
ghost use Rattle.std.specs.List.{flat_map};
ghost use Rattle.wl_text.specs.Pieces.{quoted, numbers_text};
ghost use Rattle.wl_text.specs.Names.{need_text};
ghost use Rattle.wildplan.specs.Refusals.{
  IsLine,
  name_text,
  pair_text,
  object_text,
  word_text,
  range_text,
  undefined_text,
  error_line,
};

use std::alloc::{AllocError, Global};
use wl_linking::{LinkError, SharedMemoryNeed, UndefinedSymbol};
use wl_text::{Page, bound_name, form_name, push_need, quantity_name, why_name};

/// The line of a refusal by its name, as far as that.
fn begin_line(alloc: Global, name: &str) -> Result<Page, AllocError>
    ensures { IfOk result (λ page. page ≡ codes "error: " ++ name.now) }
{
    let mut page = Page::new(alloc);
    page.push_word(b"error: ")?;
    page.push_word(name.as_bytes())?;
    Ok(page)
}

/// The line of a refusal with numbers.
fn numbers_line(alloc: Global, refusal: &str, numbers: &[u64]) -> Result<Vec<u8>, AllocError>
    ensures { IfOk result (λ text. IsLine refusal.now (numbers_text numbers.now) text.items) }
{
    let mut page = begin_line(alloc, refusal)?;
    page.push_numbers(numbers)?;
    page.push_word(b"\n")?;
    page.into_text()
}

/// The line of a refusal with a name and numbers.
fn named_line(
    alloc: Global,
    refusal: &str,
    name: &str,
    numbers: &[u64],
) -> Result<Vec<u8>, AllocError>
    ensures { IfOk result (λ text.
        IsLine refusal.now (name_text name.now numbers.now) text.items) }
{
    let mut page = begin_line(alloc, refusal)?;
    page.push_word(b" ")?;
    page.push_quoted(name)?;
    page.push_numbers(numbers)?;
    page.push_word(b"\n")?;
    page.into_text()
}

/// The line of two things under one name, each an object's number and its own there.
fn pair_line(
    alloc: Global,
    refusal: &str,
    name: &str,
    first: (usize, u32),
    second: (usize, u32),
) -> Result<Vec<u8>, AllocError>
    ensures { IfOk result (λ text.
        IsLine refusal.now (pair_text name.now first second) text.items) }
{
    let numbers = [
        first.0 as u64,
        u64::from(first.1),
        second.0 as u64,
        u64::from(second.1),
    ];
    named_line(alloc, refusal, name, &numbers)
}

/// The line of a refusal with an object and a word.
fn object_line(
    alloc: Global,
    refusal: &str,
    object: usize,
    word: &str,
) -> Result<Vec<u8>, AllocError>
    ensures { IfOk result (λ text.
        IsLine refusal.now (object_text object word.now) text.items) }
{
    Ok(format!(in alloc; "error: {refusal} {object} {word}\n")?.into_bytes())
}

/// The line of a refusal with a word and numbers.
fn word_line(
    alloc: Global,
    refusal: &str,
    word: &str,
    numbers: &[u64],
) -> Result<Vec<u8>, AllocError>
    ensures { IfOk result (λ text.
        IsLine refusal.now (word_text word.now numbers.now) text.items) }
{
    let mut page = begin_line(alloc, refusal)?;
    page.push_word(b" ")?;
    page.push_word(word.as_bytes())?;
    page.push_numbers(numbers)?;
    page.push_word(b"\n")?;
    page.into_text()
}

/// The line of a feature that an object disallows.
fn conflict_line(alloc: Global, object: usize, feature: &str) -> Result<Vec<u8>, AllocError>
    ensures { IfOk result (λ text.
        IsLine (codes "FeatureConflict") (object_text object (quoted feature.now)) text.items) }
{
    let mut page = begin_line(alloc, "FeatureConflict")?;
    page.push_decimal(b" ", object as u64)?;
    page.push_word(b" ")?;
    page.push_quoted(feature)?;
    page.push_word(b"\n")?;
    page.into_text()
}

/// The line of what shared memory lacks.
fn need_line(alloc: Global, need: SharedMemoryNeed) -> Result<Vec<u8>, AllocError>
    ensures { IfOk result (λ text.
        IsLine (codes "SharedMemoryFeature") (codes " " ++ need_text need) text.items) }
{
    let mut page = begin_line(alloc, "SharedMemoryFeature")?;
    page.push_word(b" ")?;
    push_need(&mut page, need)?;
    page.push_word(b"\n")?;
    page.into_text()
}

/// An object's number and the name that it refers to.
fn push_undefined(page: &mut Page, symbol: &UndefinedSymbol) -> Result<(), AllocError>
    ensures { OnOk result (page.new ≡ page.old ++ undefined_text symbol.now) }
{
    page.push_decimal(b" ", symbol.object as u64)?;
    page.push_word(b" ")?;
    page.push_quoted(symbol.name.as_str())
}

/// The line of names that nothing defines.
fn undefined_line(alloc: Global, symbols: &[UndefinedSymbol]) -> Result<Vec<u8>, AllocError>
    ensures { IfOk result (λ text.
        IsLine (codes "UndefinedSymbols") (flat_map undefined_text symbols.now) text.items) }
{
    let mut page = begin_line(alloc, "UndefinedSymbols")?;
    for symbol in symbols {
        push_undefined(&mut page, symbol)?;
    }
    page.push_word(b"\n")?;
    page.into_text()
}

/// The line of a value that doesn't fit its field.
fn range_line(alloc: Global, object: usize, offset: u32, value: i64) -> Result<Vec<u8>, AllocError>
    ensures { IfOk result (λ text.
        IsLine (codes "RelocationRange") (range_text object offset value) text.items) }
{
    let mut page = begin_line(alloc, "RelocationRange")?;
    page.push_numbers(&[object as u64, u64::from(offset)])?;
    page.push_signed(b" ", value)?;
    page.push_word(b"\n")?;
    page.into_text()
}

/// The line of a refusal. When memory ran out there is none.
pub fn error_text(alloc: Global, error: &LinkError) -> Result<Vec<u8>, AllocError>
    ensures { IfOk result (λ text. text.items ≡ error_line error.now) }
{
    match error {
        LinkError::OutOfMemory => Ok(Vec::new(alloc)),
        LinkError::Malformed { object, why } => {
            object_line(alloc, "Malformed", *object, why_name(*why))
        }
        LinkError::Unsupported { object, form } => {
            object_line(alloc, "Unsupported", *object, form_name(*form))
        }
        LinkError::DuplicateSymbol {
            name,
            first_object,
            first_symbol,
            second_object,
            second_symbol,
        } => pair_line(
            alloc,
            "DuplicateSymbol",
            name.as_str(),
            (*first_object, *first_symbol),
            (*second_object, *second_symbol),
        ),
        LinkError::ConflictingTypes {
            name,
            first_object,
            first_slot,
            second_object,
            second_slot,
        } => pair_line(
            alloc,
            "ConflictingTypes",
            name.as_str(),
            (*first_object, *first_slot),
            (*second_object, *second_slot),
        ),
        LinkError::BadFeature { object, prefix } => {
            numbers_line(alloc, "BadFeature", &[*object as u64, u64::from(*prefix)])
        }
        LinkError::SharedMemoryFeature { need } => need_line(alloc, *need),
        LinkError::FeatureConflict { object, feature } => {
            conflict_line(alloc, *object, feature.as_str())
        }
        LinkError::EntryNotDefined { name } => {
            named_line(alloc, "EntryNotDefined", name.as_str(), &[])
        }
        LinkError::WrongKind { object, symbol } => {
            numbers_line(alloc, "WrongKind", &[*object as u64, u64::from(*symbol)])
        }
        LinkError::SignatureMismatch { object, symbol } => numbers_line(
            alloc,
            "SignatureMismatch",
            &[*object as u64, u64::from(*symbol)],
        ),
        LinkError::UndefinedSymbols(symbols) => undefined_line(alloc, symbols.as_slice()),
        LinkError::BadStackSize(size) => {
            numbers_line(alloc, "BadStackSize", &[u64::from(*size)])
        }
        LinkError::TooLarge { what } => { word_line(alloc, "TooLarge", quantity_name(*what), &[]) }
        LinkError::BadMemorySize {
            which,
            requested,
            needed,
        } => word_line(
            alloc,
            "BadMemorySize",
            bound_name(*which),
            &[*requested, *needed],
        ),
        LinkError::RelocationRange {
            object,
            offset,
            value,
        } => range_line(alloc, *object, *offset, *value),
        LinkError::ConstantRange { value } => {
            numbers_line(alloc, "ConstantRange", &[u64::from(*value)])
        }
        LinkError::ExportNotFound { name } => {
            named_line(alloc, "ExportNotFound", name.as_str(), &[])
        }
        LinkError::DuplicateExport { name } => {
            named_line(alloc, "DuplicateExport", name.as_str(), &[])
        }
    }
}
