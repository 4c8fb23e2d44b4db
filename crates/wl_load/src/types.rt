//! The types of functions, and which of them take integers alone.

ghost use Rattle.std.specs.Prelude.{◌≡◌, Some, slice_get, option_copied, map, Bool, IfOk};
ghost use Rattle.wl_module.specs.Types.{FunctionType};
ghost use Rattle.wl_load.specs.Values.{takes_integers};

use crate::values::are_integers;
use std::alloc::{AllocError, Global};
use std::marker::Model;
use wl_lists::ItemList;
use wl_module::FuncType;

/// The types of functions, of each of which is known whether all its parameters are integers.
/// Clauses see them as a list.
#[derive(Drop)]
pub struct TypeList {
    types: ItemList<FuncType>,
    take_integers: Vec<bool>,
}

impl Model for TypeList {
    ghost use Rattle.std.specs.Prelude.{◌≡◌, List, map};
    ghost use Rattle.wl_module.specs.Types.{FunctionType};
    ghost use Rattle.wl_load.specs.Values.{takes_integers};

    ghost Value = { List FunctionType };

    ghost view = { λ t. t.types };

    ghost invariant = { λ t. t.take_integers.items ≡ map takes_integers t.types };
}

/// Of each type, whether all its parameters are integers.
fn which_take_integers(alloc: Global, types: &[FuncType]) -> Result<Vec<bool>, AllocError>
    ensures { IfOk result (λ known. known.items ≡ map takes_integers types.now) }
{
    let mut known = Vec::new(alloc);
    for ty in types {
        known.push(are_integers(ty.params()))?;
    }
    Ok(known)
}

/// The item at a place.
fn is_known(known: &[bool], place: u32) -> bool
    ensures { (known_one : Bool) → slice_get known.now place ≡ Some known_one → result ≡ known_one }
{
    match known.get(place as usize) {
        Some(known) => *known,
        None => false,
    }
}

impl TypeList {
    /// These types.
    pub(crate) fn new(alloc: Global, types: ItemList<FuncType>) -> Result<Self, AllocError>
        ensures { IfOk result (λ t. t ≡ types) }
    {
        let take_integers = which_take_integers(alloc, types.as_slice())?;
        Ok(TypeList {
            types,
            take_integers,
        })
    }

    /// The type of a number.
    pub(crate) fn get(&self, number: u32) -> Option<&FuncType>
        ensures { option_copied result ≡ slice_get self.now number }
    {
        self.types.as_slice().get(number as usize)
    }

    /// Whether all parameters of the type of a number are integers.
    pub(crate) fn takes_integers(&self, number: u32) -> bool
        ensures { (t : FunctionType) → slice_get self.now number ≡ Some t
            → result ≡ takes_integers t }
    {
        is_known(&self.take_integers, number)
    }
}
