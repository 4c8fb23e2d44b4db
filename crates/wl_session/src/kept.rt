//! Objects with what is known of each.

ghost use Rattle.std.specs.Prelude.{◌≡◌, ◌<◌, List, [], ◌∷◌, ◌++◌, length, slice_set, vec_len, OnOk, OnErr};
ghost use Rattle.wl_symbols.specs.Index.{index_of};
ghost use Rattle.wl_linking.specs.Object.{Object};
ghost use Rattle.wl_live.specs.Facts.{AreAllFacts};
ghost use Rattle.wl_session.specs.Known.{IsKnown};

use std::alloc::{AllocError, Global};
use std::marker::Model;
use wl_linking::{File, FileList};
use wl_live::{ObjectFacts, facts};
use wl_symbols::NameIndex;

/// The objects of a link, with what is known of each whatever the others are: its names, and what
/// it says of its units. An object is added or replaced, and what is known follows it. Clauses see
/// it as the objects.
#[derive(Drop)]
pub struct Kept<'a> {
    alloc: Global,
    files: FileList<'a>,
    names: NameIndex<'a>,
    facts: Vec<ObjectFacts>,
}

impl<'a> Model for Kept<'a> {
    ghost use Rattle.std.specs.Prelude.{List};
    ghost use Rattle.wl_linking.specs.Object.{Object};

    ghost Value = { List Object };

    ghost use Rattle.wl_session.specs.Known.{IsKnown};

    ghost view = { λ k. k.files };

    ghost invariant = { λ k. IsKnown k.files k.names k.facts.items };
}

/// Lets an object go. What owns one drops twenty lists on each of its ways out, so the calls below
/// have one way out for it, and this call there.
fn let_go(file: File<'_>) {
    let _file = file;
}

/// Puts what is known of one more object after what is known of these.
///
/// # Errors
/// `AllocError` where memory runs out. All is as it was then.
fn push_known<'a>(
    alloc: Global,
    names: &mut NameIndex<'a>,
    known: &mut Vec<ObjectFacts>,
    object: usize,
    file: &File<'a>,
) -> Result<(), AllocError>
    ensures ok { OnOk result ((objects : List Object) → IsKnown objects names.old known.old.items
        → object ≡ length objects → IsKnown (objects ++ file.now ∷ []) names.new known.new.items) }
    ensures err { OnErr result
        ((names.new ≡ names.old) × (known.new.items ≡ known.old.items)) }
{
    let facts = facts(alloc, file)?;
    known.push(facts)?;
    let named = names.set_object(object, file);
    if named.is_err() {
        known.pop();
    }
    named
}

/// Puts what is known of an object in place of what was known of the one of that number.
///
/// # Errors
/// `AllocError` where memory runs out. All is as it was then.
fn replace_known<'a>(
    alloc: Global,
    names: &mut NameIndex<'a>,
    known: &mut Vec<ObjectFacts>,
    object: usize,
    file: &File<'a>,
) -> Result<(), AllocError>
    requires { object < vec_len known.old }
    ensures ok { OnOk result ((objects : List Object) → IsKnown objects names.old known.old.items
        → object < length objects
        → IsKnown (slice_set objects object file.now) names.new known.new.items) }
    ensures err { OnErr result
        ((names.new ≡ names.old) × (known.new.items ≡ known.old.items)) }
{
    let facts = facts(alloc, file)?;
    names.set_object(object, file)?;
    known[object] = facts;
    Ok(())
}

impl<'a> Kept<'a> {
    /// No objects.
    pub fn new(alloc: Global) -> Self
        ensures { result ≡ [] }
    {
        Kept {
            alloc,
            files: FileList::new(alloc),
            names: NameIndex::new(alloc),
            facts: Vec::new(alloc),
        }
    }

    /// Puts one more object at the end.
    ///
    /// # Errors
    /// `AllocError` where memory runs out. All is as it was then.
    pub fn push(&mut self, file: File<'a>) -> Result<(), AllocError>
        ensures pushed { OnOk result (self.new ≡ self.old ++ file.entry ∷ []) }
        ensures kept { OnErr result (self.new ≡ self.old) }
    {
        let object = self.files.len();
        if let Err(file) = self.files.push(file) {
            let_go(file);
            return Err(AllocError);
        }
        let file = &self.files.as_slice()[object];
        let known = push_known(self.alloc, &mut self.names, &mut self.facts, object, file);
        if known.is_err() {
            if let Some(file) = self.files.pop() {
                let_go(file);
            }
        }
        known
    }

    /// Puts an object in the place of the one of that number.
    ///
    /// # Errors
    /// `AllocError` where memory runs out. All is as it was then.
    pub fn replace(&mut self, object: usize, file: File<'a>) -> Result<(), AllocError>
        requires { object < length self.old }
        ensures replaced { OnOk result (self.new ≡ slice_set self.old object file.entry) }
        ensures kept { OnErr result (self.new ≡ self.old) }
    {
        let known = replace_known(self.alloc, &mut self.names, &mut self.facts, object, &file);
        let unused = if known.is_ok() {
            self.files.replace(object, file)
        } else {
            file
        };
        let_go(unused);
        known
    }

    /// The objects.
    pub fn files(&self) -> &FileList<'a>
        ensures { result.now ≡ self.now }
    {
        &self.files
    }

    /// The names of the objects.
    pub fn names(&self) -> &NameIndex<'a>
        ensures { result.now ≡ index_of self.now }
    {
        &self.names
    }

    /// What each object says of its units.
    pub fn facts(&self) -> &[ObjectFacts]
        ensures { AreAllFacts self.now result.now }
    {
        self.facts.as_slice()
    }
}
