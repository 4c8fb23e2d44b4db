//! What names have, where the symbols of an object are exchanged.

ghost use Rattle.std.specs.Prelude.{◌≡◌, ◌+◌, ◌≤◌, ◌<◌, ℕ, List, [], ◌∷◌, ◌++◌, if◌then◌else◌, slice_set, vec_len, IfOk, OnOk, OnErr};
ghost use Rattle.std.specs.List.{AllByRecursion};
ghost use Rattle.std.specs.HashMap.{spare};
ghost use Rattle.wl_symbols.specs.Entries.{Entry};
ghost use Rattle.wl_symbols.specs.Bearers.{found_in, Lists};
ghost use Rattle.wl_symbols.specs.Index.{IsIndexed, entries_in, padded};
ghost use Rattle.wl_symbols.specs.Exchanging.{bearers_before, bearers_behind, exchanged, changes_for, changed};

use crate::bearers::{Bearer, BearerMap};
use crate::gathering::{NameEntry, ObjectEntries};
use std::alloc::{AllocError, Global};
use std::marker::Model;
use std::mem;
use wl_lists::ItemList;

/// What a name has from now on.
#[derive(Drop)]
pub(crate) struct Change<'a> {
    name: &'a str,
    list: ItemList<Bearer>,
}

impl<'a> Model for Change<'a> {
    ghost use Rattle.wl_symbols.specs.Exchanging.{Change};

    ghost Value = { Change };

    ghost view = { λ c. record { name = c.name.now; list = c.list } };
}

/// Adds a symbol where the test holds.
fn push_if(list: &mut Vec<Bearer>, test: bool, bearer: Bearer) -> Result<(), AllocError>
    ensures { OnOk result
        (list.new.items ≡ list.old.items ++ (if test then bearer ∷ [] else [])) }
{
    if test {
        list.push(bearer)?;
    }
    Ok(())
}

/// Adds those symbols that earlier objects have.
fn push_before(list: &mut Vec<Bearer>, object: usize, bearers: &[Bearer]) -> Result<(), AllocError>
    ensures { OnOk result
        (list.new.items ≡ list.old.items ++ bearers_before object bearers.now) }
{
    for bearer in bearers {
        push_if(list, bearer.place.object < object, *bearer)?;
    }
    Ok(())
}

/// Adds those symbols that later objects have.
fn push_behind(list: &mut Vec<Bearer>, object: usize, bearers: &[Bearer]) -> Result<(), AllocError>
    ensures { OnOk result
        (list.new.items ≡ list.old.items ++ bearers_behind object bearers.now) }
{
    for bearer in bearers {
        push_if(list, object < bearer.place.object, *bearer)?;
    }
    Ok(())
}

/// These symbols with those that are added in place of an object's.
fn exchanged(
    alloc: Global,
    object: usize,
    added: &[Bearer],
    old: &[Bearer],
) -> Result<ItemList<Bearer>, AllocError>
    ensures { IfOk result (λ list. list ≡ exchanged object added.now old.now) }
{
    let mut list = Vec::new(alloc);
    push_before(&mut list, object, old)?;
    list.extend_from_slice(added)?;
    push_behind(&mut list, object, old)?;
    Ok(ItemList::new(list))
}

/// For each name the symbols of an object that bear it.
fn group<'a>(alloc: Global, entries: &[NameEntry<'a>]) -> Result<BearerMap<'a>, AllocError>
    ensures { IfOk result (λ map. Lists (found_in map.lists) entries.now) }
{
    let mut map = BearerMap::new(alloc);
    for entry in entries {
        map.push(alloc, entry.name(), entry.bearer())?;
    }
    Ok(map)
}

/// Adds what the names of these entries have, where an object's symbols become the added ones.
fn push_changes<'a>(
    alloc: Global,
    changes: &mut Vec<Change<'a>>,
    lists: &BearerMap<'a>,
    object: usize,
    added: &BearerMap<'a>,
    entries: &[NameEntry<'a>],
) -> Result<(), AllocError>
    ensures { OnOk result ((new : List Entry) → Lists (found_in added.now.lists) new
        → changes.new.items ≡ changes.old.items
        ++ changes_for (found_in lists.now.lists) object new entries.now) }
{
    for entry in entries {
        let name = entry.name();
        let list = exchanged(alloc, object, added.get(name), lists.get(name))?;
        changes.push(Change { name, list })?;
    }
    Ok(())
}

/// Adds what the names that an object had have, where its symbols become the added ones.
fn push_old_changes<'a>(
    alloc: Global,
    changes: &mut Vec<Change<'a>>,
    lists: &BearerMap<'a>,
    objects: &[ObjectEntries<'a>],
    object: usize,
    added: &BearerMap<'a>,
) -> Result<(), AllocError>
    ensures { OnOk result ((new : List Entry) → Lists (found_in added.now.lists) new
        → changes.new.items ≡ changes.old.items
        ++ changes_for (found_in lists.now.lists) object new (entries_in objects.now object)) }
{
    match objects.get(object) {
        None => Ok(()),
        Some(old) => push_changes(alloc, changes, lists, object, added, old.as_slice()),
    }
}

/// What the names of an object have, where its entries become the new ones: first the names of
/// those that it had.
fn changes_of<'a>(
    alloc: Global,
    lists: &BearerMap<'a>,
    objects: &[ObjectEntries<'a>],
    object: usize,
    new: &[NameEntry<'a>],
) -> Result<Vec<Change<'a>>, AllocError>
    ensures { IfOk result (λ changes. changes.items ≡ changes_for (found_in lists.now.lists) object
        new.now (entries_in objects.now object ++ new.now)) }
{
    let added = group(alloc, new)?;
    let mut changes = Vec::new(alloc);
    push_old_changes(alloc, &mut changes, lists, objects, object, &added)?;
    push_changes(alloc, &mut changes, lists, object, &added, new)?;
    Ok(changes)
}

/// Does the changes, for which there is room.
fn apply<'a>(lists: &mut BearerMap<'a>, mut changes: Vec<Change<'a>>)
    requires { vec_len changes ≤ spare lists.old.lists }
    ensures { (name : List ℕ) → found_in lists.new.lists name
        ≡ changed changes.entry.items (found_in lists.old.lists) name }
{
    while let Some(change) = changes.pop() {
        let Change { name, list } = change;
        lists.put(name, list);
    }
}

/// Makes room for an object of that number. Those before it that aren't known yet have no entries.
///
/// # Errors
/// `AllocError` where memory runs out. The objects are as they were then.
fn make_room<'a>(
    alloc: Global,
    objects: &mut Vec<ObjectEntries<'a>>,
    object: usize,
) -> Result<(), AllocError>
    ensures padded { OnOk result (objects.new.items ≡ padded (object + 1) objects.old.items) }
    ensures kept { OnErr result (objects.new.items ≡ objects.old.items) }
{
    let known = objects.len();
    while objects.len() <= object {
        if objects.push(ObjectEntries::empty(alloc)).is_err() {
            objects.truncate(known);
            return Err(AllocError);
        }
    }
    Ok(())
}

/// Puts the entries of an object in place of those that its number had, and hands these back.
fn replace_at<'a>(
    objects: &mut Vec<ObjectEntries<'a>>,
    object: usize,
    entries: ObjectEntries<'a>,
) -> ObjectEntries<'a>
    requires { object < vec_len objects.old }
    ensures { objects.new.items ≡ slice_set objects.old.items object entries.entry }
{
    mem::replace(&mut objects[object], entries)
}

/// Puts the entries of an object in place of those that its number had, and what their names have
/// with them.
///
/// # Errors
/// `AllocError` where memory runs out. All is as it was then.
pub(crate) fn exchange<'a>(
    alloc: Global,
    lists: &mut BearerMap<'a>,
    objects: &mut Vec<ObjectEntries<'a>>,
    object: usize,
    entries: ObjectEntries<'a>,
) -> Result<(), AllocError>
    ensures ok { OnOk result (objects.new.items
        ≡ slice_set (padded (object + 1) objects.old.items) object entries.entry) }
    ensures kept { OnErr result (objects.new.items ≡ objects.old.items) }
    ensures indexed { IsIndexed (found_in lists.old.lists) objects.old.items
        → AllByRecursion (λ e. e.place.object ≡ object) entries.entry
        → IsIndexed (found_in lists.new.lists) objects.new.items }
{
    let changes = changes_of(alloc, lists, objects.as_slice(), object, entries.as_slice())?;
    lists.reserve(changes.len())?;
    make_room(alloc, objects, object)?;
    // All room is there: nothing is refused from here on.
    let _replaced = replace_at(objects, object, entries);
    apply(lists, changes);
    Ok(())
}
