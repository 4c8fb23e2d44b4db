//! Which definition each name has.

ghost use Rattle.std.specs.Prelude.{◌≡◌, ◌↔◌, ◌+◌, ◌*◌, ◌<◌, ◌≤◌, length, IfOk, OnOk, IfErr, IsTrue, IsSome, is_some, option_map};
ghost use Rattle.wl_linking.specs.Steps.{Clear, Refuses};
ghost use Rattle.wl_symbols.specs.Link.{link_of};
ghost use Rattle.wl_symbols.specs.Entries.{symbol_in, symbol_count, entries_of};
ghost use Rattle.wl_symbols.specs.Adding.{Holds, firsts_in};
ghost use Rattle.wl_symbols.specs.Names.{named, def};
ghost use Rattle.wl_symbols.specs.Repeats.{HasOneStrong, refusal_of, IsDuplicate};

use crate::adding::{Repeat, add_files};
use crate::definitions::DefinitionRows;
use crate::entry::{Definition, is_private};
use crate::names::{CountedNames, NameMap};
use std::alloc::{AllocError, Global};
use std::marker::{Brand, Model};
use std::sync::ledger::{Blank, Ledger};
use wl_linking::{File, FileList, LinkError, WasmSymbol};
use wl_lists::Text;
use wl_steps::Steps;
use wl_words::WasmArgs;

/// Which definition each name has that objects have in common. Clauses see it as what is linked:
/// the objects and the options that it was built of.
#[derive(Drop)]
pub struct SymbolTable<'f, 'a> {
    files: &'f FileList<'a>,
    args: &'f WasmArgs,
    names: NameMap<'a>,
    definitions: DefinitionRows,
}

impl<'f, 'a> Model for SymbolTable<'f, 'a> {
    ghost use Rattle.wl_symbols.specs.Link.{Link, link_of};
    ghost use Rattle.wl_symbols.specs.Adding.{firsts_in};
    ghost use Rattle.wl_symbols.specs.Definitions.{IsTable};

    ghost Value = { Link };

    ghost view = { λ t. link_of t.files.now t.args.now };

    ghost invariant = { λ t. IsTable (link_of t.files.now t.args.now) (firsts_in t.names.firsts)
        t.definitions.rows };
}

/// How many of these symbols other objects know by a name.
fn count_public(symbols: &[WasmSymbol<'_>]) -> usize {
    let mut count: usize = 0;
    for symbol in symbols {
        if !is_private(symbol) {
            count = count.saturating_add(1);
        }
    }
    count
}

/// How many symbols of these objects others know by a name: as many names there are at most. It
/// says how much room to take, and nothing else rests on it.
fn name_count(files: &[File<'_>]) -> usize {
    let mut count: usize = 0;
    for file in files {
        count = count.saturating_add(count_public(file.symbols()));
    }
    count
}

/// The refusal of two strong symbols of one name.
pub(crate) fn duplicate(alloc: Global, repeat: &Repeat<'_>) -> Result<LinkError, AllocError>
    ensures { IfOk result (λ e. e ≡ refusal_of repeat.now) }
{
    Ok(LinkError::DuplicateSymbol {
        name: Text::new(String::from_str(alloc, repeat.name)?),
        first_object: repeat.first.object,
        first_symbol: repeat.first.symbol,
        second_object: repeat.second.object,
        second_symbol: repeat.second.symbol,
    })
}

impl<'f, 'a> SymbolTable<'f, 'a> {
    /// The table of these objects, by names that have the first symbols of each of theirs. What a
    /// symbol stands for takes a step, where other objects know it.
    pub(crate) fn of<L: Ledger>(
        alloc: Global,
        files: &'f FileList<'a>,
        args: &'f WasmArgs,
        names: CountedNames<'a>,
        steps: &mut Steps<L>,
    ) -> Result<Self, AllocError>
        requires { Holds (firsts_in names.names.firsts) (entries_of 0 files.now) }
        ensures table { IfOk result (λ table. table ≡ link_of files.now args.now) }
        ensures counted { OnOk result
            (steps.new ≡ steps.old + length (entries_of 0 files.now)) }
        ensures cost { steps.new ≤ steps.old + symbol_count files.now }
    {
        let definitions = DefinitionRows::of(alloc, &names, files, args, steps)?;
        Ok(SymbolTable {
            files,
            args,
            names: names.finish(),
            definitions,
        })
    }

    /// The table of the names of these objects, which sees that no two of them define one name.
    ///
    /// # Errors
    /// `DuplicateSymbol` where a strong symbol repeats the name of another: it names the earliest
    /// symbol that does, and the one that had the name before.
    pub fn build(
        alloc: Global,
        files: &'f FileList<'a>,
        args: &'f WasmArgs,
    ) -> Result<Self, LinkError>
        ensures ok { IfOk result (λ table. table ≡ link_of files.now args.now) }
        ensures one { OnOk result (HasOneStrong files.now) }
        ensures clear { OnOk result (Clear (IsDuplicate files.now)) }
        ensures err { IfErr result (Refuses (IsDuplicate files.now)) }
    {
        build_uncounted::<Brand>(alloc, files, args, Blank::new(1))
    }

    /// The same in steps that are counted: each is a call on the map of names. There are three for
    /// each symbol that other objects know by a name: what the name has is asked for, one more
    /// symbol is put to it, and once all are there it is asked what the name stands for.
    ///
    /// # Errors
    /// As [`SymbolTable::build`].
    pub fn build_counted<L: Ledger>(
        alloc: Global,
        files: &'f FileList<'a>,
        args: &'f WasmArgs,
        steps: &mut Steps<L>,
    ) -> Result<Self, LinkError>
        ensures ok { IfOk result (λ table. table ≡ link_of files.now args.now) }
        ensures one { OnOk result (HasOneStrong files.now) }
        ensures clear { OnOk result (Clear (IsDuplicate files.now)) }
        ensures err { IfErr result (Refuses (IsDuplicate files.now)) }
        ensures counted { OnOk result
            (steps.new ≡ steps.old + 3 * length (entries_of 0 files.now)) }
        ensures cost { steps.new ≤ steps.old + 3 * symbol_count files.now }
    {
        let mut names = CountedNames::with_room(alloc, name_count(files.as_slice()))?;
        if let Some(repeat) = add_files(&mut names, files.as_slice(), steps)? {
            return Err(duplicate(alloc, &repeat)?);
        }
        Ok(SymbolTable::of(alloc, files, args, names, steps)?)
    }

    /// The objects that it was built of.
    pub fn files(&self) -> &'f FileList<'a>
        ensures { result.now ≡ self.now.objects }
    {
        self.files
    }

    /// The options that it was built under.
    pub fn args(&self) -> &'f WasmArgs
        ensures { result.now ≡ self.now.args }
    {
        self.args
    }

    /// What a name stands for: the first strong symbol that has it; else the first weak one; else
    /// what the linker makes under it; else the first undefined one. Nothing where none of them is.
    pub fn lookup(&self, name: &str) -> Option<Definition>
        ensures { result ≡ named self.now name.now }
    {
        self.names.firsts(name).choose(name, self.args)
    }

    /// The symbol of that number in the object of that number, if there is one.
    pub fn symbol(&self, object: usize, symbol: u32) -> Option<&'f WasmSymbol<'a>>
        ensures { option_map (λ s. s.now) result ≡ symbol_in self.now.objects object symbol }
    {
        let file = self.files.get(object)?;
        file.symbols().get(symbol as usize)
    }

    /// Whether there is a symbol of that number in an object of that number.
    pub fn has_symbol(&self, object: usize, symbol: u32) -> bool
        ensures { result ≡ is_some (symbol_in self.now.objects object symbol) }
    {
        let files = self.files.as_slice();
        object < files.len() && (symbol as usize) < files[object].symbols().len()
    }

    /// What the symbol of those numbers stands for. Where there is none, it stands for itself.
    fn definition_or_itself(&self, object: usize, symbol: u32) -> Definition
        ensures { result ≡ def self.now object symbol }
    {
        self.definitions
            .get(object, symbol)
            .unwrap_or(Definition::Symbol { object, symbol })
    }

    /// What a symbol stands for: itself, where it is local or has no name, and else what its name
    /// does.
    pub fn definition(&self, object: usize, symbol: u32) -> Definition
        requires { IsSome (symbol_in self.now.objects object symbol) }
        ensures { result ≡ def self.now object symbol }
    {
        self.definition_or_itself(object, symbol)
    }

    /// Whether a symbol stands for itself. Where there is none of those numbers, it does.
    pub fn is_canonical(&self, object: usize, symbol: u32) -> bool
        ensures { IsTrue result ↔ (def self.now object symbol ≡ Definition.Symbol object symbol) }
    {
        self.definition_or_itself(object, symbol) == Definition::Symbol { object, symbol }
    }
}

/// The table, where nobody asks for the steps.
fn build_uncounted<'f, 'a, L: Ledger>(
    alloc: Global,
    files: &'f FileList<'a>,
    args: &'f WasmArgs,
    blank: Blank,
) -> Result<SymbolTable<'f, 'a>, LinkError>
    requires name { blank.name ≡ L.name }
    requires parts { blank.parts ≡ L.parts }
    requires some { 0 < blank.parts }
    ensures ok { IfOk result (λ table. table ≡ link_of files.now args.now) }
    ensures one { OnOk result (HasOneStrong files.now) }
    ensures clear { OnOk result (Clear (IsDuplicate files.now)) }
    ensures err { IfErr result (Refuses (IsDuplicate files.now)) }
{
    let mut steps = Steps::<L>::start(blank);
    SymbolTable::build_counted(alloc, files, args, &mut steps)
}
