//! Modes: what the program writes in place of the listing.

ghost use Rattle.std.specs.Prelude.{◌≡◌, None, Some, MatchOption};
ghost use Rattle.wl_words.specs.Modes.{mode_name, generates, placed_value};
ghost use Rattle.wl_words.specs.Texts.{texts};

use crate::options::parts_of;

/// A mode by its name, whatever its value.
#[derive(Clone, Copy, PartialEq, Eq)]
pub enum ModeName {
    /// `--generate`.
    Generate,
    /// `--why`.
    Why,
    /// `--map`.
    Map,
    /// `--check`.
    Check,
    /// `--run`.
    Run,
}

/// Where the value of an option stands on the command line.
#[derive(Clone, Copy, PartialEq, Eq)]
pub struct ValuePlace {
    /// The number, from 0, of the word that holds it.
    pub word: usize,
    /// Whether it stands in the option's own word, after its equals sign; else it is a word of
    /// its own.
    pub joined: bool,
}

impl ValuePlace {
    /// The value that stands there in these words.
    pub fn value_in(self, words: &[String]) -> Option<&str>
        ensures { MatchOption result
            (placed_value (texts words.now) self ≡ None)
            (λ v. placed_value (texts words.now) self ≡ Some v.now) }
    {
        let word = words.get(self.word)?.as_str();
        if self.joined {
            parts_of(word).value
        } else {
            Some(word)
        }
    }
}

/// What the program writes of a plan.
#[derive(Clone, Copy, PartialEq, Eq)]
pub enum Mode {
    /// The listing: no option asks for another.
    Listing,
    /// One line with sums of the plan of this many generated objects.
    Generate(u32),
    /// What keeps each unit, and which are dropped.
    Why,
    /// The sizes of what is kept.
    Map,
    /// Whether the file of this name holds the listing, or where it differs from it first.
    Check(ValuePlace),
    /// How a run of the function ends that is exported by this name.
    Run(ValuePlace),
}

impl Mode {
    /// Its name, if an option asks for it.
    pub(crate) fn name(self) -> Option<ModeName>
        ensures { result ≡ mode_name self }
    {
        match self {
            Mode::Listing => None,
            Mode::Generate(_) => Some(ModeName::Generate),
            Mode::Why => Some(ModeName::Why),
            Mode::Map => Some(ModeName::Map),
            Mode::Check(_) => Some(ModeName::Check),
            Mode::Run(_) => Some(ModeName::Run),
        }
    }

    /// Whether the objects are generated, and no file is read.
    pub fn generates(self) -> bool
        ensures { result ≡ generates self }
    {
        matches!(self, Mode::Generate(_))
    }
}
