//! What the values of options say.

ghost use Rattle.std.specs.Prelude.{◌≡◌, IfOk, IfErr, Some, None, option_map, MatchOption};
ghost use Rattle.wl_words.specs.Values.{number_of, stack_size_text, stack_size, generated_count, names_in, memory_name};
ghost use Rattle.wl_words.specs.Faults.{RefusesValue};
ghost use Rattle.wl_words.specs.declared.options.Setting.TheVariants.{Keyword};

use crate::error::ArgError;
use crate::options::parts_of;
use crate::texts::Texts;
use std::alloc::{AllocError, Global};
use std::marker::Model;
use wl_lists::Text;

/// The greatest number of objects that are generated.
pub const MAX_GENERATED: u32 = 10_000;

/// The name of an imported memory: a module, and a name there.
#[derive(Drop)]
pub struct MemoryName {
    /// The name of the module that it is from.
    pub module: Text,
    /// The name that it has there.
    pub name: Text,
}

impl Model for MemoryName {
    ghost use Rattle.wl_words.specs.Values.{MemoryName as Name};

    ghost Value = { Name };

    ghost view = { λ m. record { origin = m.module; name = m.name } };
}

/// A copy of a text.
pub(crate) fn copy_of(alloc: Global, text: &str) -> Result<Text, AllocError>
    ensures { IfOk result (λ t. t ≡ text.now) }
{
    Ok(Text::new(String::from_str(alloc, text)?))
}

/// The number below 2 ^ 64 that these decimal digits write.
pub(crate) fn number_of(text: &str) -> Option<u64>
    ensures { result ≡ number_of 64 text.now }
{
    if text.starts_with('+') {
        return None;
    }
    text.parse::<u64>().ok()
}

/// The number below 2 ^ 32 that these decimal digits write.
fn small_number_of(text: &str) -> Option<u32>
    ensures { result ≡ number_of 32 text.now }
{
    u32::try_from(number_of(text)?).ok()
}

/// The text of the stack's size, by the value of `-z`.
fn stack_size_text(value: &str) -> Option<&str>
    ensures { MatchOption result
        (stack_size_text value.now ≡ None)
        (λ text. stack_size_text value.now ≡ Some text.now) }
{
    let parts = parts_of(value);
    if parts.front == "stack-size" {
        parts.value
    } else {
        None
    }
}

/// The bytes of the stack, by the value of `-z` in the word of this place.
pub(crate) fn stack_size(value: &str, place: usize) -> Result<u32, ArgError>
    ensures ok { IfOk result (λ n. stack_size value.now ≡ Some n) }
    ensures err { IfErr result (RefusesValue Keyword value.now place) }
{
    match stack_size_text(value) {
        None => Err(ArgError::UnknownOption(place)),
        Some(text) => small_number_of(text).ok_or(ArgError::BadNumber(place)),
    }
}

/// How many objects are generated, by the option's value.
pub(crate) fn generated_count(value: &str) -> Option<u32>
    ensures { result ≡ generated_count value.now }
{
    small_number_of(value).filter(|count| 1 <= *count && *count <= MAX_GENERATED)
}

/// The names between the commas of a value.
pub(crate) fn names_in(alloc: Global, value: &str) -> Result<Texts, AllocError>
    ensures { IfOk result (λ names. names ≡ names_in value.now) }
{
    let mut names = Texts::new(alloc);
    let mut rest = value;
    while let Some((name, behind)) = rest.split_once(',') {
        names.push_filled(alloc, name)?;
        rest = behind;
    }
    names.push_filled(alloc, rest)?;
    Ok(names)
}

/// The name of an imported memory, by the option's value.
pub(crate) fn memory_name(alloc: Global, value: Option<&str>) -> Result<MemoryName, AllocError>
    ensures { IfOk result (λ name. name ≡ memory_name (option_map (λ v. v.now) value.entry)) }
{
    let (module, name) = match value {
        None => ("env", "memory"),
        Some(value) => value.split_once(',').unwrap_or(("env", value)),
    };
    Ok(MemoryName {
        module: copy_of(alloc, module)?,
        name: copy_of(alloc, name)?,
    })
}
