//! The objects of a link.

ghost use Rattle.std.specs.Prelude.{◌≡◌, ◌==◌, ◌↔◌, ◌<◌, Some, option_map, [], ◌∷◌, ◌++◌, length, slice_get, slice_set, OnOk, OnErr, IfErr, IfSome, IsSome};
ghost use Rattle.std.specs.Option.{option_to_list};
ghost use Rattle.std.specs.List.{AllByRecursion};
ghost use Rattle.wl_linking.specs.Fitting.{IsWhole};

use crate::file::File;
use std::alloc::Global;
use std::marker::Model;
use std::mem;

/// The objects of a link, in order. Clauses see it as the list of these.
#[derive(Drop)]
pub struct FileList<'a> {
    files: Vec<File<'a>>,
}

impl<'a> Model for FileList<'a> {
    ghost use Rattle.std.specs.Prelude.{List};
    ghost use Rattle.wl_linking.specs.Object.{Object};

    ghost Value = { List Object };

    ghost use Rattle.std.specs.List.{AllByRecursion};
    ghost use Rattle.wl_linking.specs.Fitting.{IsWhole};

    ghost view = { λ l. l.files.items };

    ghost invariant = { λ l. AllByRecursion IsWhole l.files.items };
}

impl<'a> FileList<'a> {
    /// No objects.
    pub fn new(alloc: Global) -> Self
        ensures { result ≡ [] }
    {
        FileList {
            files: Vec::new(alloc),
        }
    }

    /// Puts one more object at the end.
    ///
    /// # Errors
    /// Where memory runs out the object is handed back, and the list is as it was.
    pub fn push(&mut self, file: File<'a>) -> Result<(), File<'a>>
        ensures pushed { OnOk result (self.new ≡ self.old ++ file.entry ∷ []) }
        ensures kept { OnErr result (self.new ≡ self.old) }
        ensures handed_back { IfErr result (λ back. back ≡ file.entry) }
    {
        file.stands_for_an_object();
        match self.files.push(file) {
            Ok(()) => Ok(()),
            Err(failed) => Err(failed.value),
        }
    }

    /// Puts an object in the place of the one of that number, and hands that one back. It takes no
    /// memory.
    pub fn replace(&mut self, object: usize, file: File<'a>) -> File<'a>
        requires { object < length self.old }
        ensures replaced { self.new ≡ slice_set self.old object file.entry }
        ensures handed_back { slice_get self.old object ≡ Some result }
    {
        file.stands_for_an_object();
        mem::replace(&mut self.files[object], file)
    }

    /// Takes the last object away and hands it back, if there is one. It takes no memory.
    pub fn pop(&mut self) -> Option<File<'a>>
        ensures popped { self.old ≡ self.new ++ option_to_list result }
        ensures some { IsSome result ↔ (0 < length self.old) }
    {
        self.files.pop()
    }

    /// How many objects there are.
    pub fn len(&self) -> usize
        ensures { result ≡ length self.now }
    {
        self.files.len()
    }

    /// Whether there are none.
    pub fn is_empty(&self) -> bool
        ensures { result ≡ (length self.now == 0) }
    {
        self.files.is_empty()
    }

    /// The object of that number, from 0.
    pub fn get(&self, object: usize) -> Option<&File<'a>>
        ensures object { option_map (λ f. f.now) result ≡ slice_get self.now object }
        ensures whole { IfSome result (λ f. IsWhole f.now) }
    {
        self.files.get(object)
    }

    /// The objects as a slice.
    pub fn as_slice(&self) -> &[File<'a>]
        ensures objects { result.now ≡ self.now }
        ensures whole { AllByRecursion IsWhole result.now }
    {
        self.files.as_slice()
    }
}
