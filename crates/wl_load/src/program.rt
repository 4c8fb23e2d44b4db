//! What stays the same while an image runs.

ghost use Rattle.std.specs.Prelude.{◌≡◌, Some, slice_get, option_copied};
ghost use Rattle.wl_load.specs.Images.{is_host, code_of, type_index_of, type_of, has_integer_locals, is_known, page_limit};
ghost use Rattle.wl_load.specs.Control.{block_params, block_results, label_types, entry_of};
ghost use Rattle.wl_load.specs.Answers.{Gives};

use crate::block_type::BlockType;
use crate::code::Function;
use crate::memory::MAX_IMAGE_PAGES;
use crate::stack::Label;
use crate::stop::Stop;
use crate::types::TypeList;
use std::marker::Model;
use std::slice;
use wl_lists::ItemList;
use wl_module::{FuncType, ValType};
use wl_numeric::TrapKind;

/// Types, functions and the table, and what bounds memory. The host's functions come first.
#[derive(Drop)]
pub struct Program {
    /// The types of functions.
    pub types: TypeList,
    /// The numbers of the types of the host's functions.
    pub hosts: ItemList<u32>,
    /// The other functions.
    pub functions: ItemList<Function>,
    /// The function in each slot of the table.
    pub table: ItemList<Option<u32>>,
    /// How many pages memory may have at most.
    pub maximum_pages: Option<u64>,
    /// Whether memory is shared.
    pub is_shared: bool,
}

impl Program {
    /// Whether the function is the host's.
    pub(crate) fn is_host(&self, function: u32) -> bool
        ensures { result ≡ is_host self.now function }
    {
        (function as usize) < self.hosts.as_slice().len()
    }

    /// A function that isn't the host's.
    pub(crate) fn code(&self, function: u32) -> Option<&Function>
        ensures { option_copied result ≡ code_of self.now function }
    {
        let place = (function as usize).checked_sub(self.hosts.as_slice().len())?;
        self.functions.as_slice().get(place)
    }

    /// The number of the type of a function.
    fn type_index(&self, function: u32) -> Option<u32>
        ensures { result ≡ type_index_of self.now function }
    {
        if self.is_host(function) {
            return self.hosts.as_slice().get(function as usize).copied();
        }
        match self.code(function) {
            Some(code) => Some(code.type_index()),
            None => None,
        }
    }

    /// A type by its number.
    pub(crate) fn listed(&self, number: u32) -> Option<&FuncType>
        ensures { option_copied result ≡ slice_get self.now.types number }
    {
        self.types.get(number)
    }

    /// The type of a function.
    pub(crate) fn type_of(&self, function: u32) -> Option<&FuncType>
        ensures { option_copied result ≡ type_of self.now function }
    {
        match self.type_index(function) {
            Some(number) => self.listed(number),
            None => None,
        }
    }

    /// Whether all parameters and locals of a function, which is of this type, are integers.
    pub(crate) fn is_known(&self, function: u32, ty: &FuncType) -> bool
        requires { type_of self.now function ≡ Some ty.now }
        ensures { result ≡ is_known self.now function ty.now }
    {
        let Some(number) = self.type_index(function) else {
            unreachable!();
        };
        if !self.types.takes_integers(number) {
            return false;
        }
        match self.code(function) {
            Some(code) => code.has_integers(),
            None => true,
        }
    }

    /// The parameters of a block.
    pub(crate) fn params(&self, block_type: BlockType) -> Result<&[ValType], Stop>
        ensures { Gives (λ ts. ts.now) result (block_params self.now block_type) }
    {
        match block_type {
            BlockType::Nothing | BlockType::Single(_) => Ok(&[]),
            BlockType::Listed(number) => match self.listed(number) {
                Some(ty) => Ok(ty.params()),
                None => Err(Stop::Invalid),
            },
        }
    }

    /// The results of a block.
    pub(crate) fn results<'a>(&'a self, block_type: &'a BlockType) -> Result<&'a [ValType], Stop>
        ensures { Gives (λ ts. ts.now) result (block_results self.now block_type.now) }
    {
        match block_type {
            BlockType::Nothing => Ok(&[]),
            BlockType::Single(ty) => Ok(slice::from_ref(ty)),
            BlockType::Listed(number) => match self.listed(*number) {
                Some(ty) => Ok(ty.results()),
                None => Err(Stop::Invalid),
            },
        }
    }

    /// What a branch to a block hands on.
    pub(crate) fn label_types<'a>(&'a self, label: &'a Label) -> Result<&'a [ValType], Stop>
        ensures { Gives (λ ts. ts.now) result (label_types self.now label.now) }
    {
        if label.is_loop {
            self.params(label.block_type)
        } else {
            self.results(&label.block_type)
        }
    }

    /// The function in a slot of the table.
    pub(crate) fn entry(&self, slot: u32) -> Result<u32, Stop>
        ensures { Gives (λ f. f) result (entry_of (slice_get self.now.table slot)) }
    {
        match self.table.as_slice().get(slot as usize) {
            Some(Some(function)) => Ok(*function),
            Some(None) => Err(Stop::Trap(TrapKind::NullEntry)),
            None => Err(Stop::Trap(TrapKind::OutOfBounds)),
        }
    }

    /// How many pages memory may have.
    pub(crate) fn page_limit(&self) -> u64
        ensures { result ≡ page_limit self.now }
    {
        match self.maximum_pages {
            Some(maximum) => maximum.min(MAX_IMAGE_PAGES),
            None => MAX_IMAGE_PAGES,
        }
    }
}
