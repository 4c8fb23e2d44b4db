//! The options of the command line, and what a word says of them.

ghost use Rattle.std.specs.Prelude.{◌≡◌, MatchOption};
ghost use Rattle.wl_words.specs.Options.{is_option, front_of, value_of, is_spelled, taken_in, taken_by};
ghost use Rattle.wl_words.specs.Modes.{mode_in};

use crate::modes::ModeName;
use std::marker::Model;

/// An option that takes no value.
#[derive(Clone, Copy, PartialEq, Eq)]
pub enum Flag {
    /// What objects define and don't hide is exported.
    ExportDynamic,
    /// Names that nothing defines are left to the host.
    AllowUndefined,
    /// Threads share the memory.
    SharedMemory,
    /// Whether the stack lies before the data.
    StackFirst(bool),
    /// Whether what nothing refers to is left out.
    GcSections(bool),
    /// Whether the features of the objects are compared.
    CheckFeatures(bool),
    /// The program has no entry function.
    NoEntry,
    /// Sections that the program doesn't need are left out.
    StripAll,
    /// Debug sections are left out.
    StripDebug,
    /// What keeps each unit is written.
    Why,
    /// The sizes of what is kept are written.
    Map,
}

/// An option that takes a value.
#[derive(Clone, Copy, PartialEq, Eq)]
pub enum Setting {
    /// A name that is exported, and has to be defined.
    Export,
    /// A name that is exported where it is defined.
    ExportIfDefined,
    /// The name of the entry function.
    Entry,
    /// A keyword with a number: `stack-size=N`, the bytes of the stack.
    Keyword,
    /// The bytes that the memory begins with.
    InitialMemory,
    /// The bytes that the memory may grow to.
    MaxMemory,
    /// Names of features, with commas between.
    ExtraFeatures,
    /// The name of a section that `--strip-all` leaves in.
    KeepSection,
    /// The name of a file; nothing is written to it.
    Output,
    /// How many objects are generated.
    Generate,
    /// The name of a file that is compared with the listing.
    Check,
    /// The name of an exported function that is run.
    Run,
    /// The number of an object, a colon, and the name of a file that is planned in its place.
    Replace,
}

/// An option of the memory, which may have a value after an equals sign.
#[derive(Clone, Copy, PartialEq, Eq)]
pub enum MemoryOption {
    /// The memory is imported; the value is its name, or its module and name with a comma between.
    Import,
    /// The memory is exported; the value is its name.
    Export,
}

/// What an option is, by the value that it takes.
#[derive(Clone, Copy, PartialEq, Eq)]
pub enum OptionKind {
    /// No value.
    Nothing(Flag),
    /// A value: after an equals sign in its own word, or the next word.
    Value(Setting),
    /// A value after an equals sign, or none.
    OptionalValue(MemoryOption),
}

impl OptionKind {
    /// The mode that the option asks for, if it asks for one.
    pub(crate) fn mode(self) -> Option<ModeName>
        ensures { result ≡ mode_in self }
    {
        match self {
            OptionKind::Nothing(Flag::Why) => Some(ModeName::Why),
            OptionKind::Nothing(Flag::Map) => Some(ModeName::Map),
            OptionKind::Value(Setting::Generate) => Some(ModeName::Generate),
            OptionKind::Value(Setting::Check) => Some(ModeName::Check),
            OptionKind::Value(Setting::Run) => Some(ModeName::Run),
            OptionKind::Nothing(_) | OptionKind::Value(_) | OptionKind::OptionalValue(_) => None,
        }
    }
}

/// A row of the table of options: a name and what the option is.
struct OptionRow {
    name: &'static str,
    takes: OptionKind,
}

impl Model for OptionRow {
    ghost use Rattle.wl_words.specs.Rows.{OptionRow as Row};

    ghost Value = { Row };

    ghost view = { λ r. record { name = r.name.now; takes = r.takes } };
}

/// The table of options.
const OPTIONS: [OptionRow; 32] = [
    OptionRow {
        name: "export",
        takes: OptionKind::Value(Setting::Export),
    },
    OptionRow {
        name: "export-if-defined",
        takes: OptionKind::Value(Setting::ExportIfDefined),
    },
    OptionRow {
        name: "export-dynamic",
        takes: OptionKind::Nothing(Flag::ExportDynamic),
    },
    OptionRow {
        name: "allow-undefined",
        takes: OptionKind::Nothing(Flag::AllowUndefined),
    },
    OptionRow {
        name: "shared-memory",
        takes: OptionKind::Nothing(Flag::SharedMemory),
    },
    OptionRow {
        name: "stack-first",
        takes: OptionKind::Nothing(Flag::StackFirst(true)),
    },
    OptionRow {
        name: "no-stack-first",
        takes: OptionKind::Nothing(Flag::StackFirst(false)),
    },
    OptionRow {
        name: "gc-sections",
        takes: OptionKind::Nothing(Flag::GcSections(true)),
    },
    OptionRow {
        name: "no-gc-sections",
        takes: OptionKind::Nothing(Flag::GcSections(false)),
    },
    OptionRow {
        name: "check-features",
        takes: OptionKind::Nothing(Flag::CheckFeatures(true)),
    },
    OptionRow {
        name: "no-check-features",
        takes: OptionKind::Nothing(Flag::CheckFeatures(false)),
    },
    OptionRow {
        name: "entry",
        takes: OptionKind::Value(Setting::Entry),
    },
    OptionRow {
        name: "e",
        takes: OptionKind::Value(Setting::Entry),
    },
    OptionRow {
        name: "no-entry",
        takes: OptionKind::Nothing(Flag::NoEntry),
    },
    OptionRow {
        name: "z",
        takes: OptionKind::Value(Setting::Keyword),
    },
    OptionRow {
        name: "initial-memory",
        takes: OptionKind::Value(Setting::InitialMemory),
    },
    OptionRow {
        name: "max-memory",
        takes: OptionKind::Value(Setting::MaxMemory),
    },
    OptionRow {
        name: "import-memory",
        takes: OptionKind::OptionalValue(MemoryOption::Import),
    },
    OptionRow {
        name: "export-memory",
        takes: OptionKind::OptionalValue(MemoryOption::Export),
    },
    OptionRow {
        name: "extra-features",
        takes: OptionKind::Value(Setting::ExtraFeatures),
    },
    OptionRow {
        name: "strip-all",
        takes: OptionKind::Nothing(Flag::StripAll),
    },
    OptionRow {
        name: "s",
        takes: OptionKind::Nothing(Flag::StripAll),
    },
    OptionRow {
        name: "strip-debug",
        takes: OptionKind::Nothing(Flag::StripDebug),
    },
    OptionRow {
        name: "S",
        takes: OptionKind::Nothing(Flag::StripDebug),
    },
    OptionRow {
        name: "keep-section",
        takes: OptionKind::Value(Setting::KeepSection),
    },
    OptionRow {
        name: "o",
        takes: OptionKind::Value(Setting::Output),
    },
    OptionRow {
        name: "generate",
        takes: OptionKind::Value(Setting::Generate),
    },
    OptionRow {
        name: "why",
        takes: OptionKind::Nothing(Flag::Why),
    },
    OptionRow {
        name: "map",
        takes: OptionKind::Nothing(Flag::Map),
    },
    OptionRow {
        name: "check",
        takes: OptionKind::Value(Setting::Check),
    },
    OptionRow {
        name: "run",
        takes: OptionKind::Value(Setting::Run),
    },
    OptionRow {
        name: "replace",
        takes: OptionKind::Value(Setting::Replace),
    },
];

/// A word, up to its first equals sign and after it.
#[derive(Clone, Copy)]
pub(crate) struct WordParts<'a> {
    pub(crate) front: &'a str,
    pub(crate) value: Option<&'a str>,
}

/// The word is an option's, and names no object.
pub(crate) fn is_option(word: &str) -> bool
    ensures { result ≡ is_option word.now }
{
    matches!(word.as_bytes(), [b'-', _, ..])
}

/// The word in two parts.
pub(crate) fn parts_of(word: &str) -> WordParts<'_>
    ensures front { result.front.now ≡ front_of word.now }
    ensures value { MatchOption result.value
        (value_of word.now ≡ None)
        (λ v. value_of word.now ≡ Some v.now) }
{
    match word.split_once('=') {
        Some((front, value)) => WordParts {
            front,
            value: Some(value),
        },
        None => WordParts {
            front: word,
            value: None,
        },
    }
}

/// The front of a word is this option's: dashes and its name.
fn is_spelled(front: &str, name: &str) -> bool
    ensures { result ≡ is_spelled front.now name.now }
{
    match front.as_bytes() {
        [b'-', text @ ..] => {
            text == name.as_bytes()
                || (1 < name.len() && matches!(text, [b'-', long @ ..] if long == name.as_bytes()))
        }
        _ => false,
    }
}

/// What the option is whose dashes and name these are, among these options.
fn taken_in(options: &[OptionRow], front: &str) -> Option<OptionKind>
    ensures { result ≡ taken_in options.now front.now }
{
    for option in options {
        if is_spelled(front, option.name) {
            return Some(option.takes);
        }
    }
    None
}

/// What the option is whose dashes and name these are.
pub(crate) fn taken_by(front: &str) -> Option<OptionKind>
    ensures { result ≡ taken_by front.now }
{
    taken_in(&OPTIONS, front)
}
