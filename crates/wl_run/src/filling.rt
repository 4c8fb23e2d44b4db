//! Bodies and segments, filled with the numbers that their fields take.

ghost use Rattle.std.specs.Prelude.{◌≡◌, ◌≤◌, ◌<◌, ℕ, List, true, length, if◌then◌else◌, IfOk};
ghost use Rattle.std.specs.List.Sorted.{IsNonDecreasingBy, IsPartitionPoint};
ghost use Rattle.wl_output.specs.declared.fixups.Fixup.{Fixup as FixupOfPlan};
ghost use Rattle.wl_run.specs.Sites.{is_at, fixup_rank};
ghost use Rattle.wl_run.specs.Filled.{number_taken, with_fixup, filled};

use crate::sites::{Site, fixup_rank, is_at, site_rank};
use std::alloc::{AllocError, Global};
use std::marker::Model;
use wl_load::put_field;
use wl_output::{Fixup, FixupTo};

/// A value and what is left to be added to it.
fn number_taken(value: u32, addend_left: i32) -> u32
    ensures { result ≡ number_taken value addend_left }
{
    value.wrapping_add(addend_left.cast_unsigned())
}

/// Puts the number of a field into it; a field that waits for a thread stays.
fn put_fixup(bytes: &mut Vec<u8>, fixup: &Fixup)
    ensures { bytes.new.items ≡ with_fixup fixup.now bytes.old.items }
{
    match fixup.to {
        FixupTo::Value { value, addend_left } => {
            let number = number_taken(value, addend_left);
            put_field(
                bytes,
                fixup.position as usize,
                fixup.ty.field_form(),
                number,
            );
        }
        FixupTo::Deferred { .. } => {}
    }
}

/// Does so where the field lies there.
fn put_at(bytes: &mut Vec<u8>, fixup: &Fixup, site: Site)
    ensures { bytes.new.items
        ≡ (if is_at site fixup.now then with_fixup fixup.now bytes.old.items else bytes.old.items) }
{
    if is_at(site, fixup) {
        put_fixup(bytes, fixup);
    }
}

/// Does so with all of these.
fn put_fixups(bytes: &mut Vec<u8>, fixups: &[Fixup], site: Site)
    ensures { bytes.new.items ≡ filled site fixups.now bytes.old.items }
{
    for fixup in fixups {
        put_at(bytes, fixup, site);
    }
}

/// Whether the fixups stand in order: by object, those in functions before those in segments, by
/// unit.
fn are_in_order(fixups: &[Fixup]) -> bool
    ensures { result ≡ true → IsNonDecreasingBy fixup_rank fixups.now }
{
    for i in 1..fixups.len() {
        if fixup_rank(&fixups[i]) < fixup_rank(&fixups[i - 1]) {
            return false;
        }
    }
    true
}

/// How many fixups stand before those of the rank.
fn count_before(fixups: &[Fixup], rank: u128) -> usize
    requires { IsNonDecreasingBy fixup_rank fixups.now }
    ensures bound { result ≤ length fixups.now }
    ensures point { IsPartitionPoint (λ (f : FixupOfPlan). fixup_rank f < rank)
        (λ (f : FixupOfPlan). rank ≤ fixup_rank f) fixups.now result }
{
    fixups.partition_point(|fixup| fixup_rank(fixup) < rank)
}

/// How many fixups have the rank, or stand before those of it.
fn count_up_to(fixups: &[Fixup], rank: u128) -> usize
    requires { IsNonDecreasingBy fixup_rank fixups.now }
    ensures bound { result ≤ length fixups.now }
    ensures point { IsPartitionPoint (λ (f : FixupOfPlan). fixup_rank f ≤ rank)
        (λ (f : FixupOfPlan). rank < fixup_rank f) fixups.now result }
{
    fixups.partition_point(|fixup| fixup_rank(fixup) <= rank)
}

/// The stretch of fixups of a function or a segment.
fn stretch_of(fixups: &[Fixup], site: Site) -> &[Fixup]
    requires { IsNonDecreasingBy fixup_rank fixups.now }
    ensures { (bytes : List ℕ) → filled site result.now bytes ≡ filled site fixups.now bytes }
{
    let rank = site_rank(site);
    let (_, rest) = fixups.split_at(count_before(fixups, rank));
    rest.split_at(count_up_to(rest, rank)).0
}

/// The fixups of a plan. Clauses see them as a list.
///
/// Those of a plan stand in order, so that the ones of a function or a segment are found by halves.
#[derive(Drop)]
pub struct FixupList<'f> {
    fixups: &'f [Fixup],
    in_order: bool,
}

impl<'f> Model for FixupList<'f> {
    ghost use Rattle.std.specs.Prelude.{◌≡◌, true, List};
    ghost use Rattle.std.specs.List.Sorted.{IsNonDecreasingBy};
    ghost use Rattle.wl_output.specs.declared.fixups.Fixup.{Fixup as FixupOfPlan};
    ghost use Rattle.wl_run.specs.Sites.{fixup_rank};

    ghost Value = { List FixupOfPlan };

    ghost view = { λ l. l.fixups.now };

    ghost invariant = { λ l. l.in_order ≡ true → IsNonDecreasingBy fixup_rank l.fixups.now };
}

impl<'f> FixupList<'f> {
    /// These fixups.
    pub fn new(fixups: &'f [Fixup]) -> Self
        ensures { result ≡ fixups.now }
    {
        FixupList {
            fixups,
            in_order: are_in_order(fixups),
        }
    }

    /// Fixups among which all those of a function or a segment stand.
    fn around(&self, site: Site) -> &'f [Fixup]
        ensures { (bytes : List ℕ) → filled site result.now bytes ≡ filled site self.now bytes }
    {
        if self.in_order {
            stretch_of(self.fixups, site)
        } else {
            self.fixups
        }
    }

    /// The bytes of a function or a segment, in which each of its fields has its number.
    ///
    /// # Errors
    /// `AllocError` where memory runs out.
    pub fn filled(&self, alloc: Global, site: Site, bytes: &[u8]) -> Result<Vec<u8>, AllocError>
        ensures { IfOk result (λ v. v.items ≡ filled site self.now bytes.now) }
    {
        let mut filled = Vec::from_slice(alloc, bytes)?;
        put_fixups(&mut filled, self.around(site), site);
        Ok(filled)
    }
}
