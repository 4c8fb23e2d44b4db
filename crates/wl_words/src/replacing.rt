//! Objects that are replaced: a file is planned in the place of each.

ghost use Rattle.std.specs.Prelude.{◌≡◌};
ghost use Rattle.wl_words.specs.Replacing.{is_decimal, object_number, replaced_object, replacing_name};
ghost use Rattle.wl_words.specs.Texts.{texts};

use crate::modes::ValuePlace;
use crate::values::number_of;

/// An object that a file replaces.
#[derive(Clone, Copy, PartialEq, Eq)]
pub struct ObjectReplacement {
    /// The number of the object, from 0, among those that the words name.
    pub object: usize,
    /// Where that number, a colon and the name of the file stand.
    pub place: ValuePlace,
}

impl ObjectReplacement {
    /// The name of the file, in these words.
    pub fn name_in(self, words: &[String]) -> &str
        ensures { result.now ≡ replacing_name (texts words.now) self }
    {
        match self.place.value_in(words).unwrap_or("").split_once(':') {
            Some((_, name)) => name,
            None => "",
        }
    }
}

/// The text is decimal digits.
fn is_decimal(text: &str) -> bool
    ensures { result ≡ is_decimal text.now }
{
    for byte in text.as_bytes() {
        if !byte.is_ascii_digit() {
            return false;
        }
    }
    !text.is_empty()
}

/// The number of an object that decimal digits write. One that passes the last number counts as
/// that: there is no such object.
fn object_number(text: &str) -> Option<usize>
    ensures { result ≡ object_number text.now }
{
    if !is_decimal(text) {
        return None;
    }
    Some(number_of(text).unwrap_or(u64::MAX) as usize)
}

/// The number of the object, by the option's value.
pub(crate) fn replaced_object(value: &str) -> Option<usize>
    ensures { result ≡ replaced_object value.now }
{
    let (number, _) = value.split_once(':')?;
    object_number(number)
}
