//! Why words aren't a command line.

use std::alloc::AllocError;

/// Why the words aren't a command line. Words are numbered from 0.
#[derive(Clone, Copy, PartialEq, Eq)]
pub enum ArgError {
    /// Memory ran out.
    OutOfMemory,
    /// The word of this number is an option that there is not, or has a value that its option
    /// doesn't take.
    UnknownOption(usize),
    /// The option in the word of this number takes a value, and the words end.
    MissingValue(usize),
    /// The value in the word of this number isn't decimal digits, or is out of its range; or it
    /// replaces an object that no word names.
    BadNumber(usize),
    /// The option in the word of this number asks for another mode than an option before it.
    TwoModes(usize),
    /// The word of this number is the first that names an object or a replacement, where the
    /// objects are generated.
    ExtraInput(usize),
    /// No word names an object, and none are generated.
    NoInputs,
}

impl From<AllocError> for ArgError {
    ghost use Rattle.std.specs.Prelude.{◌≡◌};
    ghost use Rattle.wl_words.specs.declared.error.ArgError.TheVariants.{OutOfMemory};

    ghost from_gives = { λ _ e. e ≡ OutOfMemory };

    fn from(_: AllocError) -> Self {
        ArgError::OutOfMemory
    }
}
