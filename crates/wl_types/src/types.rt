//! A list of types, each once, and the place of each.

ghost use Rattle.std.specs.Prelude.{◌≡◌, ◌<◌, ◌≤◌, [], length, position, IfOk, IfSome, OnOk, OnErr, IfErr, Some, is_some, slice_get};
ghost use Rattle.std.specs.List.{list_any};
ghost use Rattle.wl_module.specs.Types.{same_type};
ghost use Rattle.wl_index.specs.declared.index.TheConstants.{MAX_ENTRIES};
ghost use Rattle.wl_types.specs.Types.{add_type, IsFull};

use indexmap::IndexSet;
use std::alloc::{AllocError, Global};
use std::marker::Model;
use wl_index::MAX_ENTRIES;
use wl_linking::{LinkError, Quantity};
use wl_lists::ItemList;
use wl_module::FuncType;

/// The same type, in memory of its own.
///
/// # Errors
/// `AllocError` where memory runs out.
pub fn copy_type(alloc: Global, ty: &FuncType) -> Result<FuncType, AllocError>
    ensures { IfOk result (λ t. t ≡ ty.now) }
{
    let params = Vec::from_slice(alloc, ty.params())?;
    let results = Vec::from_slice(alloc, ty.results())?;
    Ok(FuncType::new(params, results))
}

/// The output types so far, each once. Clauses see it as the list of them.
#[derive(Drop)]
pub struct TypeMerger {
    alloc: Global,
    types: IndexSet<FuncType>,
}

impl Model for TypeMerger {
    ghost use Rattle.std.specs.Prelude.{List, ◌≤◌, length};
    ghost use Rattle.wl_module.specs.Types.{FunctionType};
    ghost use Rattle.wl_index.specs.declared.index.TheConstants.{MAX_ENTRIES};

    ghost Value = { List FunctionType };

    ghost view = { λ m. m.types.keys };

    ghost invariant = { λ m. length m.types.keys ≤ MAX_ENTRIES };
}

impl TypeMerger {
    /// No types.
    pub fn new(alloc: Global) -> Self
        ensures { result ≡ [] }
    {
        TypeMerger {
            alloc,
            types: IndexSet::new(alloc),
        }
    }

    /// The place of a type, if it is there.
    pub fn place(&self, ty: &FuncType) -> Option<usize>
        ensures place { result ≡ position (same_type ty.now) self.now }
        ensures found { is_some result ≡ list_any (same_type ty.now) self.now }
        ensures within { IfSome result (λ place. place < length self.now) }
    {
        self.types.get_index_of(ty)
    }

    /// Adds a type, unless it is there, and answers its place.
    ///
    /// # Errors
    /// `TooLarge` where the space would get more than 4294967294 types, and `OutOfMemory`. A
    /// refusal leaves the types as they were.
    pub fn add(&mut self, ty: &FuncType) -> Result<u32, LinkError>
        ensures types { OnOk result (self.new ≡ add_type self.old ty.now) }
        ensures place { IfOk result (λ place. slice_get self.new place ≡ Some ty.now) }
        ensures room { OnOk result (length self.new ≤ MAX_ENTRIES) }
        ensures err { IfErr result (IsFull (add_type self.old ty.now)) }
        ensures same { OnErr result (self.new ≡ self.old) }
    {
        if let Some(place) = self.place(ty) {
            return Ok(place as u32);
        }
        if self.types.len() >= MAX_ENTRIES {
            return Err(LinkError::TooLarge {
                what: Quantity::Space,
            });
        }
        let added = copy_type(self.alloc, ty)?;
        let (place, _) = self.types.insert_full(added)?;
        Ok(place as u32)
    }

    /// The types, in order.
    pub fn types(&self) -> &[FuncType]
        ensures types { result.now ≡ self.now }
        ensures room { length result.now ≤ MAX_ENTRIES }
    {
        self.types.as_slice()
    }

    /// The types, in order, without the merger.
    ///
    /// # Errors
    /// `AllocError` where memory runs out.
    pub fn into_types(self) -> Result<ItemList<FuncType>, AllocError>
        ensures types { IfOk result (λ types. types ≡ self) }
        ensures room { IfOk result (λ types. length types ≤ MAX_ENTRIES) }
    {
        let mut list = Vec::new(self.alloc);
        for ty in self.types {
            list.push(ty)?;
        }
        Ok(ItemList::new(list))
    }
}
