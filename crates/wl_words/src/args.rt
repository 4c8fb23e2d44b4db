//! What the words of the command line ask for.

ghost use Rattle.std.specs.Prelude.{◌⊎◌, ℕ, List, ◌≡◌, ◌↔◌, ◌<◌, ◌≤◌, [], false, All, length, Some, None, option_map, slice_get, IfOk, OnOk, OnErr, IfErr, IfSome, IfNone, IsErr, MatchOption};
ghost use Rattle.wl_words.specs.Texts.{texts};
ghost use Rattle.wl_words.specs.Items.{Given, Set, Memory, IsSoundValue, NamesOption, HasValue};
ghost use Rattle.wl_words.specs.Faults.{RefusesValue, StopsAt, LacksValue};
ghost use Rattle.wl_words.specs.Modes.{KeepsMode, mode_in, mode_name, IsFitMode};
ghost use Rattle.wl_words.specs.Args.{IsArgs, AsksFor, WordsFault, RefusesWords, has_work, earlier, first_input, lost_replacement, whole_fault, emits_stripped_section, export_name};
ghost use Rattle.wl_words.specs.Values.{number_of, generated_count};
ghost use Rattle.wl_words.specs.Replacing.{replaced_object};
ghost use Rattle.wl_words.specs.Taking.{AddsItem, TakesItem, ParsesAll, RefusesFront};
ghost use Rattle.wl_words.specs.declared.args.WasmArgs.{WasmArgs as SpecArgs};
ghost use Rattle.wl_words.specs.declared.error.ArgError.{ArgError as SpecError};
ghost use Rattle.wl_words.specs.declared.options.OptionKind.TheVariants.{Value};

use crate::error::ArgError;
use crate::modes::{Mode, ValuePlace};
use crate::options::{Flag, MemoryOption, OptionKind, Setting, is_option, parts_of, taken_by};
use crate::replacing::{ObjectReplacement, replaced_object};
use crate::texts::Texts;
use crate::values::{
    MemoryName, copy_of, generated_count, memory_name, names_in, number_of, stack_size,
};
use std::alloc::{AllocError, Global};
use wl_lists::{ItemList, Text};

/// The bytes of the stack where no word asks for a number.
pub const DEFAULT_STACK_SIZE: u32 = 65_536;

/// What the words of the command line ask for.
#[derive(Drop)]
pub struct WasmArgs {
    /// The numbers, from 0, of the words that name objects.
    pub inputs: ItemList<usize>,
    /// The objects that are replaced, in the order of the words: one may be replaced again.
    pub replacements: ItemList<ObjectReplacement>,
    /// The names that are exported where they are defined.
    pub export_symbols: Texts,
    /// Those of them that have to be defined.
    pub required_export_symbols: Texts,
    /// What objects define and don't hide is exported.
    pub export_dynamic: bool,
    /// Names that nothing defines are left to the host.
    pub allow_undefined: bool,
    /// Threads share the memory.
    pub shared_memory: bool,
    /// The stack lies before the data.
    pub stack_first: bool,
    /// What nothing refers to is left out.
    pub gc_sections: bool,
    /// The features of the objects are compared.
    pub check_features: bool,
    /// The name of the function at which the program begins, if there is one.
    pub entry: Option<Text>,
    /// The bytes of the stack.
    pub z_stack_size: u32,
    /// The bytes that the memory begins with, if that is asked for.
    pub initial_memory: Option<u64>,
    /// The bytes that the memory may grow to, if that is asked for.
    pub max_memory: Option<u64>,
    /// The name of the memory, where it is imported.
    pub import_memory: Option<MemoryName>,
    /// The name by which the memory is exported, where that is asked for.
    pub export_memory: Option<Text>,
    /// The features that are used beside those of the objects.
    pub extra_features: Texts,
    /// Sections that the program doesn't need are left out.
    pub strip_all: bool,
    /// Debug sections are left out.
    pub strip_debug: bool,
    /// The names of the sections that are left in all the same.
    pub keep_sections: Texts,
    /// The name of a file. Nothing is written to it.
    pub output: Option<Text>,
    /// What is written of the plan.
    pub mode: Mode,
}

/// The word of this number.
fn get_word(words: &[String], at: usize) -> Option<&str>
    ensures within { IfSome result (λ _. at < length words.now) }
    ensures end { IfNone result (length words.now ≤ at) }
    ensures word { MatchOption result (slice_get (texts words.now) at ≡ None)
        (λ w. slice_get (texts words.now) at ≡ Some w.now) }
{
    match words.get(at) {
        Some(word) => Some(word.as_str()),
        None => None,
    }
}

/// The value of the option in the word of this number, after which this value stands, and where
/// it stands.
fn value_at<'a>(
    words: &'a [String],
    at: usize,
    setting: Setting,
    behind: Option<&'a str>,
) -> Option<(&'a str, ValuePlace)>
    requires within { at < length words.now }
    requires option { NamesOption (texts words.now) at (Value setting)
        (option_map (λ v. v.now) behind) }
    ensures value { IfSome result (λ v. HasValue (texts words.now) at setting v.0.now v.1) }
    ensures place { IfSome result (λ v. v.1.word < length words.now) }
    ensures none { IfNone result (LacksValue (texts words.now) at) }
{
    match behind {
        Some(value) => Some((
            value,
            ValuePlace {
                word: at,
                joined: true,
            },
        )),
        None => {
            let place = ValuePlace {
                word: at + 1,
                joined: false,
            };
            Some((get_word(words, place.word)?, place))
        }
    }
}

/// A size of the memory, by the option's value in the word of this place.
fn memory_size(value: &str, place: usize) -> Result<u64, ArgError>
    ensures ok { IfOk result (λ n. number_of 64 value.now ≡ Some n) }
    ensures none { OnErr result (number_of 64 value.now ≡ None) }
    ensures err { IfErr result (λ e. e ≡ ArgError.BadNumber place) }
{
    number_of(value).ok_or(ArgError::BadNumber(place))
}

/// How many objects are generated, by the option's value in the word of this place.
fn object_count(value: &str, place: usize) -> Result<u32, ArgError>
    ensures ok { IfOk result (λ n. generated_count value.now ≡ Some n) }
    ensures none { OnErr result (generated_count value.now ≡ None) }
    ensures err { IfErr result (λ e. e ≡ ArgError.BadNumber place) }
{
    generated_count(value).ok_or(ArgError::BadNumber(place))
}

/// Which object is replaced, by the option's value in the word of this place.
fn object_number(value: &str, place: usize) -> Result<usize, ArgError>
    ensures ok { IfOk result (λ n. replaced_object value.now ≡ Some n) }
    ensures none { OnErr result (replaced_object value.now ≡ None) }
    ensures err { IfErr result (λ e. e ≡ ArgError.BadNumber place) }
{
    replaced_object(value).ok_or(ArgError::BadNumber(place))
}

/// The lesser of two numbers that may be there.
fn earlier(a: Option<usize>, b: Option<usize>) -> Option<usize>
    ensures { result ≡ earlier a b }
{
    match (a, b) {
        (Some(a), Some(b)) => Some(a.min(b)),
        (Some(word), None) | (None, Some(word)) => Some(word),
        (None, None) => None,
    }
}

impl WasmArgs {
    /// What no words ask for.
    fn new(alloc: Global) -> Result<WasmArgs, AllocError>
        ensures { IfOk result (AsksFor []) }
    {
        Ok(WasmArgs {
            inputs: ItemList::empty(alloc),
            replacements: ItemList::empty(alloc),
            export_symbols: Texts::new(alloc),
            required_export_symbols: Texts::new(alloc),
            export_dynamic: false,
            allow_undefined: false,
            shared_memory: false,
            stack_first: false,
            gc_sections: true,
            check_features: true,
            entry: Some(copy_of(alloc, "_start")?),
            z_stack_size: DEFAULT_STACK_SIZE,
            initial_memory: None,
            max_memory: None,
            import_memory: None,
            export_memory: None,
            extra_features: Texts::new(alloc),
            strip_all: false,
            strip_debug: false,
            keep_sections: Texts::new(alloc),
            output: None,
            mode: Mode::Listing,
        })
    }

    /// Takes in an option that takes no value.
    fn take_flag(&mut self, flag: Flag)
        ensures { AddsItem (Given flag) self.old self.new }
    {
        match flag {
            Flag::ExportDynamic => self.export_dynamic = true,
            Flag::AllowUndefined => self.allow_undefined = true,
            Flag::SharedMemory => self.shared_memory = true,
            Flag::StackFirst(on) => self.stack_first = on,
            Flag::GcSections(on) => self.gc_sections = on,
            Flag::CheckFeatures(on) => self.check_features = on,
            Flag::NoEntry => self.entry = None,
            Flag::StripAll => self.strip_all = true,
            Flag::StripDebug => self.strip_debug = true,
            Flag::Why => self.mode = Mode::Why,
            Flag::Map => self.mode = Mode::Map,
        }
    }

    /// Takes in an option and its value, which stands in this place.
    fn take_setting(
        &mut self,
        alloc: Global,
        setting: Setting,
        value: &str,
        place: ValuePlace,
    ) -> Result<(), ArgError>
        ensures sound { OnOk result (IsSoundValue setting value.now) }
        ensures ok { OnOk result (AddsItem (Set setting value.now place) self.old self.new) }
        ensures err { IfErr result (RefusesValue setting value.now place.word) }
    {
        match setting {
            Setting::Export => {
                self.required_export_symbols.push(alloc, value)?;
                self.export_symbols.push(alloc, value)?;
            }
            Setting::ExportIfDefined => self.export_symbols.push(alloc, value)?,
            Setting::Entry => self.entry = Some(copy_of(alloc, value)?),
            Setting::Keyword => self.z_stack_size = stack_size(value, place.word)?,
            Setting::InitialMemory => self.initial_memory = Some(memory_size(value, place.word)?),
            Setting::MaxMemory => self.max_memory = Some(memory_size(value, place.word)?),
            Setting::ExtraFeatures => self.extra_features = names_in(alloc, value)?,
            Setting::KeepSection => self.keep_sections.push(alloc, value)?,
            Setting::Output => self.output = Some(copy_of(alloc, value)?),
            Setting::Generate => self.mode = Mode::Generate(object_count(value, place.word)?),
            Setting::Check => self.mode = Mode::Check(place),
            Setting::Run => self.mode = Mode::Run(place),
            Setting::Replace => {
                let object = object_number(value, place.word)?;
                self.replacements.push(ObjectReplacement { object, place })?;
            }
        }
        Ok(())
    }

    /// Takes in an option of the memory, with its value if it has one.
    fn take_memory(
        &mut self,
        alloc: Global,
        option: MemoryOption,
        value: Option<&str>,
    ) -> Result<(), AllocError>
        ensures { OnOk result
            (AddsItem (Memory option (option_map (λ v. v.now) value.entry)) self.old self.new) }
    {
        match option {
            MemoryOption::Import => self.import_memory = Some(memory_name(alloc, value)?),
            MemoryOption::Export => {
                self.export_memory = Some(copy_of(alloc, value.unwrap_or("memory"))?);
            }
        }
        Ok(())
    }

    /// Refuses an option, in the word of this number, that asks for another mode than the one that
    /// is asked for already.
    fn keep_mode(&self, option: OptionKind, at: usize) -> Result<(), ArgError>
        ensures kept { OnOk result (KeepsMode (mode_name self.now.mode) (mode_in option)) }
        ensures other { OnErr result (KeepsMode (mode_name self.now.mode) (mode_in option) → ⊥) }
        ensures err { IfErr result (λ e. e ≡ ArgError.TwoModes at) }
    {
        match (self.mode.name(), option.mode()) {
            (Some(old), Some(new)) if old != new => Err(ArgError::TwoModes(at)),
            _ => Ok(()),
        }
    }

    /// Takes in an option that takes a value, with that value.
    fn take_value(
        &mut self,
        alloc: Global,
        words: &[String],
        at: usize,
        setting: Setting,
        behind: Option<&str>,
    ) -> Result<usize, ArgError>
        requires within { at < length words.now }
        requires option { NamesOption (texts words.now) at (Value setting)
            (option_map (λ v. v.now) behind) }
        requires keeps { KeepsMode (mode_name self.old.mode) (mode_in (Value setting)) }
        ensures ok { IfOk result (TakesItem (texts words.now) at self.old self.new) }
        ensures next { IfOk result (λ next. next ≤ length words.now) }
        ensures err { IfErr result (StopsAt (texts words.now) at (mode_name self.old.mode)) }
    {
        match value_at(words, at, setting, behind) {
            None => Err(ArgError::MissingValue(at)),
            Some((value, place)) => {
                self.take_setting(alloc, setting, value, place)?;
                Ok(place.word + 1)
            }
        }
    }

    /// Takes in the option in the word of this number, after whose equals sign this value stands.
    fn take_option(
        &mut self,
        alloc: Global,
        words: &[String],
        at: usize,
        option: OptionKind,
        behind: Option<&str>,
    ) -> Result<usize, ArgError>
        requires within { at < length words.now }
        requires option { NamesOption (texts words.now) at option
            (option_map (λ v. v.now) behind) }
        ensures ok { IfOk result (TakesItem (texts words.now) at self.old self.new) }
        ensures next { IfOk result (λ next. next ≤ length words.now) }
        ensures err { IfErr result (StopsAt (texts words.now) at (mode_name self.old.mode)) }
    {
        match option {
            OptionKind::Nothing(flag) => match behind {
                Some(_) => Err(ArgError::UnknownOption(at)),
                None => {
                    self.keep_mode(option, at)?;
                    self.take_flag(flag);
                    Ok(at + 1)
                }
            },
            OptionKind::Value(setting) => {
                // Another mode is reported before a fault of its value.
                self.keep_mode(option, at)?;
                self.take_value(alloc, words, at, setting, behind)
            }
            OptionKind::OptionalValue(memory) => {
                self.take_memory(alloc, memory, behind)?;
                Ok(at + 1)
            }
        }
    }

    /// Takes in the item that stands at this word; the next one stands at the word of the number
    /// that it answers.
    fn take_item(
        &mut self,
        alloc: Global,
        words: &[String],
        at: usize,
        word: &str,
    ) -> Result<usize, ArgError>
        requires within { at < length words.now }
        requires word { slice_get (texts words.now) at ≡ Some word.now }
        ensures ok { IfOk result (TakesItem (texts words.now) at self.old self.new) }
        ensures next { IfOk result (λ next. next ≤ length words.now) }
        ensures err { IfErr result (StopsAt (texts words.now) at (mode_name self.old.mode)) }
    {
        if !is_option(word) {
            self.inputs.push(at)?;
            return Ok(at + 1);
        }
        let parts = parts_of(word);
        match taken_by(parts.front) {
            None => Err(ArgError::UnknownOption(at)),
            Some(option) => self.take_option(alloc, words, at, option, parts.value),
        }
    }

    /// Reads the words from left to right, and stops at the first at fault.
    ///
    /// An option may stand again: of a field with one value the last counts. Whether there is an
    /// object is left to [`WasmArgs::require_inputs`].
    ///
    /// # Errors
    /// `UnknownOption`, `TwoModes`, `MissingValue` or `BadNumber` of the first word at fault from
    /// the left. Where there is none, `ExtraInput` of the first word that names an object or a
    /// replacement, if objects are generated, and else `BadNumber` of the first replacement of an
    /// object that there is not.
    pub fn parse(alloc: Global, words: &[String]) -> Result<WasmArgs, ArgError>
        ensures ok { IfOk result (IsArgs (texts words.now)) }
        ensures within { IfOk result (λ args. All (λ i. i < length words.now) args.inputs) }
        ensures replaced { IfOk result
            (λ args. All (λ r. r.object < length args.inputs) args.replacements) }
        ensures mode { IfOk result (λ args. IsFitMode (texts words.now) args.mode) }
        ensures err { IfErr result (RefusesWords (texts words.now)) }
    {
        let args = WasmArgs::parse_items(alloc, words)?;
        match args.whole_fault() {
            Some(error) => Err(error),
            None => Ok(args),
        }
    }

    /// Reads the words from left to right, and stops at the first at fault.
    fn parse_items(alloc: Global, words: &[String]) -> Result<WasmArgs, ArgError>
        ensures ok { IfOk result (ParsesAll (texts words.now)) }
        ensures within { IfOk result (λ args. All (λ i. i < length words.now) args.inputs) }
        ensures mode { IfOk result (λ args. IsFitMode (texts words.now) args.mode) }
        ensures err { IfErr result (RefusesFront (texts words.now)) }
    {
        let mut args = WasmArgs::new(alloc)?;
        let mut at = 0;
        while let Some(word) = get_word(words, at) {
            at = args.take_item(alloc, words, at, word)?;
        }
        Ok(args)
    }

    /// What is wrong with words each of which is right, if anything is.
    fn whole_fault(&self) -> Option<ArgError>
        ensures { result ≡ whole_fault self.now }
    {
        if self.mode.generates() {
            Some(ArgError::ExtraInput(self.first_input()?))
        } else {
            Some(ArgError::BadNumber(self.lost_replacement()?))
        }
    }

    /// The first word that names an object, or a file in the place of one.
    fn first_input(&self) -> Option<usize>
        ensures { result ≡ first_input self.now }
    {
        let object = self.inputs.as_slice().first().copied();
        let replacement = self.replacements.as_slice().first().copied();
        earlier(object, replacement.map(|r| r.place.word))
    }

    /// The word of the first replacement of an object that no word names.
    fn lost_replacement(&self) -> Option<usize>
        ensures { result ≡ lost_replacement self.now }
    {
        let objects = self.inputs.as_slice().len();
        for replacement in self.replacements.as_slice() {
            if objects <= replacement.object {
                return Some(replacement.place.word);
            }
        }
        None
    }

    /// Refuses words that leave nothing to plan.
    ///
    /// # Errors
    /// `NoInputs` where no word names an object, and none are generated.
    pub fn require_inputs(&self) -> Result<(), ArgError>
        ensures none { IsErr result ↔ (has_work self.now ≡ false) }
        ensures err { IfErr result (λ e. e ≡ ArgError.NoInputs) }
    {
        if self.inputs.as_slice().is_empty() && !self.mode.generates() {
            return Err(ArgError::NoInputs);
        }
        Ok(())
    }

    /// The names that are exported where they are defined, in the order of the words.
    pub fn force_export_symbol_names(&self) -> &[String]
        ensures { texts result.now ≡ self.now.export_symbols }
    {
        self.export_symbols.as_slice()
    }

    /// Whether a section of this name is left in, that the program doesn't need.
    pub fn emit_stripped_section(&self, name: &str) -> bool
        ensures { result ≡ emits_stripped_section self.now name.now }
    {
        !self.strip_all || self.keep_sections.contains(name)
    }

    /// The module and the name of the memory, where it is imported.
    pub fn memory_import(&self) -> Option<(&str, &str)>
        ensures { MatchOption result (self.now.import_memory ≡ None)
            (λ n. self.now.import_memory ≡ Some (record { origin = n.0.now; name = n.1.now })) }
    {
        match &self.import_memory {
            Some(memory) => Some((memory.module.as_str(), memory.name.as_str())),
            None => None,
        }
    }

    /// The name by which the memory is exported: none where it is imported and no export is asked
    /// for.
    pub fn memory_export_name(&self) -> Option<&str>
        ensures { option_map (λ n. n.now) result
            ≡ export_name self.now.export_memory self.now.import_memory }
    {
        match (&self.export_memory, &self.import_memory) {
            (Some(name), _) => Some(name.as_str()),
            (None, Some(_)) => None,
            (None, None) => Some("memory"),
        }
    }
}

/// Words are items, and then they ask for one thing; or they are no items, and then one thing is
/// reported of them; and never both.
pub fn args_or_fault()
    ensures some { (words : List (List ℕ))
        → ((args : SpecArgs) × IsArgs words args) ⊎ ((e : SpecError) × WordsFault words e) }
    ensures never_both { (words : List (List ℕ)) (args : SpecArgs) (e : SpecError)
        → IsArgs words args → WordsFault words e → ⊥ }
    ensures one { (words : List (List ℕ)) (a b : SpecArgs)
        → IsArgs words a → IsArgs words b → a ≡ b }
    ensures one_fault { (words : List (List ℕ)) (e f : SpecError)
        → WordsFault words e → WordsFault words f → e ≡ f }
{}
