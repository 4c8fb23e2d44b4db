//! The names of objects, kept while objects are added and replaced.

ghost use Rattle.std.specs.Prelude.{◌≡◌, ◌+◌, ◌*◌, ◌<◌, ◌≤◌, List, [], ◌∷◌, ◌++◌, length, slice_set, IfOk, OnOk, OnErr, IfErr};
ghost use Rattle.wl_linking.specs.Object.{Object};
ghost use Rattle.wl_linking.specs.Steps.{Clear, Refuses};
ghost use Rattle.wl_symbols.specs.Link.{link_of};
ghost use Rattle.wl_symbols.specs.Entries.{entries_of, symbol_count};
ghost use Rattle.wl_symbols.specs.Repeats.{HasOneStrong, IsDuplicate};
ghost use Rattle.wl_symbols.specs.Index.{index_of, with_object};
ghost use Rattle.wl_symbols.specs.Telling.{name_count};

use crate::bearers::BearerMap;
use crate::exchanging::exchange;
use crate::gathering::{ObjectEntries, gather};
use crate::names::CountedNames;
use crate::table::{SymbolTable, duplicate};
use crate::telling::tell_objects;
use std::alloc::{AllocError, Global};
use std::marker::{Brand, Model};
use std::sync::ledger::{Blank, Ledger};
use wl_linking::{File, FileList, LinkError};
use wl_steps::Steps;
use wl_words::WasmArgs;

/// The names of objects, kept while objects are added and replaced: for each name the symbols that
/// bear it, in the order of objects and symbols, and of each object its names, to take them out
/// again. A change of one object gathers its names anew, and no other's, and changes what these
/// names have, and no others. Clauses see it as the entries of each object.
#[derive(Drop)]
pub struct NameIndex<'a> {
    alloc: Global,
    lists: BearerMap<'a>,
    objects: Vec<ObjectEntries<'a>>,
}

impl<'a> Model for NameIndex<'a> {
    ghost use Rattle.std.specs.Prelude.{List};
    ghost use Rattle.wl_symbols.specs.Entries.{Entry};

    ghost Value = { List (List Entry) };

    ghost use Rattle.wl_symbols.specs.Bearers.{found_in};
    ghost use Rattle.wl_symbols.specs.Index.{IsIndexed};

    ghost view = { λ n. n.objects.items };

    ghost invariant = { λ n. IsIndexed (found_in n.lists.lists) n.objects.items };
}

impl<'a> NameIndex<'a> {
    /// No objects.
    pub fn new(alloc: Global) -> Self
        ensures { result ≡ [] }
    {
        NameIndex {
            alloc,
            lists: BearerMap::new(alloc),
            objects: Vec::new(alloc),
        }
    }

    /// Puts the names of an object in place of those that its number had. Objects before it that
    /// were never given have no names.
    ///
    /// # Errors
    /// `AllocError` where memory runs out. The index is as it was then.
    pub fn set_object(&mut self, object: usize, file: &File<'a>) -> Result<(), AllocError>
        ensures set { OnOk result (self.new ≡ with_object self.old object file.now) }
        ensures pushed { OnOk result ((objects : List Object) → self.old ≡ index_of objects
            → object ≡ length objects → self.new ≡ index_of (objects ++ file.now ∷ [])) }
        ensures replaced { OnOk result ((objects : List Object) → self.old ≡ index_of objects
            → object < length objects → self.new ≡ index_of (slice_set objects object file.now)) }
        ensures kept { OnErr result (self.new ≡ self.old) }
    {
        let entries = gather(self.alloc, object, file)?;
        exchange(
            self.alloc,
            &mut self.lists,
            &mut self.objects,
            object,
            entries,
        )
    }

    /// The table of the names of objects, where the index has the names of these and no others: the
    /// same as [`SymbolTable::build`] gives.
    ///
    /// # Errors
    /// As [`SymbolTable::build`].
    pub fn table<'f>(
        &self,
        alloc: Global,
        files: &'f FileList<'a>,
        args: &'f WasmArgs,
    ) -> Result<SymbolTable<'f, 'a>, LinkError>
        requires { self.now ≡ index_of files.now }
        ensures ok { IfOk result (λ table. table ≡ link_of files.now args.now) }
        ensures one { OnOk result (HasOneStrong files.now) }
        ensures clear { OnOk result (Clear (IsDuplicate files.now)) }
        ensures err { IfErr result (Refuses (IsDuplicate files.now)) }
    {
        table_uncounted::<Brand>(self, alloc, files, args, Blank::new(1))
    }

    /// The same in steps that are counted: each is a call on a map of names. There are two for each
    /// symbol that other objects know by a name, which ask who bears it and what it stands for, and
    /// one for each name, which puts the first symbols that bear it.
    ///
    /// # Errors
    /// As [`SymbolTable::build`].
    pub fn table_counted<'f, L: Ledger>(
        &self,
        alloc: Global,
        files: &'f FileList<'a>,
        args: &'f WasmArgs,
        steps: &mut Steps<L>,
    ) -> Result<SymbolTable<'f, 'a>, LinkError>
        requires { self.now ≡ index_of files.now }
        ensures ok { IfOk result (λ table. table ≡ link_of files.now args.now) }
        ensures one { OnOk result (HasOneStrong files.now) }
        ensures clear { OnOk result (Clear (IsDuplicate files.now)) }
        ensures err { IfErr result (Refuses (IsDuplicate files.now)) }
        ensures counted { OnOk result
            (steps.new ≡ steps.old + 2 * length (entries_of 0 files.now)
            + name_count (entries_of 0 files.now)) }
        ensures cost { steps.new ≤ steps.old + 3 * symbol_count files.now }
    {
        let mut names = CountedNames::with_room(alloc, self.lists.len())?;
        if let Some(repeat) = tell_objects(
            &mut names,
            &self.lists,
            self.objects.as_slice(),
            steps,
        )? {
            return Err(duplicate(alloc, &repeat)?);
        }
        Ok(SymbolTable::of(alloc, files, args, names, steps)?)
    }
}

/// The table, where nobody asks for the steps.
fn table_uncounted<'f, 'a, L: Ledger>(
    index: &NameIndex<'a>,
    alloc: Global,
    files: &'f FileList<'a>,
    args: &'f WasmArgs,
    blank: Blank,
) -> Result<SymbolTable<'f, 'a>, LinkError>
    requires name { blank.name ≡ L.name }
    requires parts { blank.parts ≡ L.parts }
    requires some { 0 < blank.parts }
    requires index { index.now ≡ index_of files.now }
    ensures ok { IfOk result (λ table. table ≡ link_of files.now args.now) }
    ensures one { OnOk result (HasOneStrong files.now) }
    ensures clear { OnOk result (Clear (IsDuplicate files.now)) }
    ensures err { IfErr result (Refuses (IsDuplicate files.now)) }
{
    let mut steps = Steps::<L>::start(blank);
    index.table_counted(alloc, files, args, &mut steps)
}
