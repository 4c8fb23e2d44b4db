//! A list whose items are replaced, as its own type.

ghost use Rattle.std.specs.Prelude.{◌≡◌, ◌<◌, length, slice_get, slice_set, option_copied};

use std::marker::Model;
use wl_lists::ItemList;

/// A list whose items are replaced one by one. Clauses see it as a list.
#[derive(Drop)]
pub struct Cells<T: Drop> {
    items: Vec<T>,
}

impl<T: Drop> Model for Cells<T> {
    ghost use Rattle.std.specs.Prelude.{List};

    ghost Value = { List T };

    ghost view = { λ c. c.items.items };
}

impl<T: Drop> Cells<T> {
    /// The items of a list.
    pub(crate) fn new(items: ItemList<T>) -> Self
        ensures { result ≡ items }
    {
        Cells {
            items: items.into_vec(),
        }
    }

    /// The item at a place.
    pub(crate) fn get(&self, place: u32) -> Option<&T>
        ensures { option_copied result ≡ slice_get self.now place }
    {
        self.items.get(place as usize)
    }

    /// Replaces the item at a place.
    pub(crate) fn set(&mut self, place: u32, item: T)
        requires { place < length self.old }
        ensures { self.new ≡ slice_set self.old place item }
    {
        self.items[place as usize] = item;
    }
}
