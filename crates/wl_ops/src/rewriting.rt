//! Rewriting the numbers of data segments in the bodies of functions.

ghost use Rattle.std.specs.Prelude.{◌≡◌, ◌≤◌, ◌<◌, ◌||◌, ◌++◌, ℕ, List, length, IfOk, OnOk, OnErr, MatchResult, map, IsTrue};
ghost use Rattle.std.specs.List.{All, AllByRecursion};
ghost use Rattle.std.specs.List.Sorted.{IsNonDecreasingBy, IsPartitionPoint};
ghost use Rattle.std.specs.Cow.{cow_slice_items};
ghost use Rattle.wl_bytes.specs.declared.reader.TheConstants.{MAX_LEN};
ghost use Rattle.wl_module.specs.Slices.{is_owned};
ghost use Rattle.wl_ops.specs.declared.op.DataIndexImm.{DataIndexImm as Number};
ghost use Rattle.wl_ops.specs.declared.rewriting.Shift.{Shift as ShiftRecord};
ghost use Rattle.wl_ops.specs.Numbers.{HasNumbers};
ghost use Rattle.wl_ops.specs.Rewriting.{new_index, IsShort, LieWithin, RewriteFault, IsRewriting, shifted, IsNear, Remaps};
ghost use Rattle.wl_ops.specs.Standing.{Keeps};

use crate::numbers::data_index_immediates;
use crate::op::DataIndexImm;
use std::alloc::{AllocError, Global};
use std::borrow::CowSlice;
use wl_bytes::{ReadError, Why, push_uleb};

/// What lies after a number moves on with its end.
#[derive(Clone, Copy)]
pub struct Shift {
    /// How many bytes lie before the end of the number.
    pub old_end: usize,
    /// How many lie before the end of its new spelling.
    pub new_end: usize,
}

/// A rewritten body.
#[derive(Drop)]
struct Rewritten {
    bytes: Vec<u8>,
    /// One for each number, in order.
    shifts: Vec<Shift>,
}

/// The new number of a segment.
fn new_index(indices: &[Option<u32>], index: u32) -> Option<u32>
    ensures { result ≡ new_index indices.now index }
{
    match indices.get(index as usize) {
        Some(new) => *new,
        None => None,
    }
}

/// The bytes before a number, and the new one in its shortest form.
fn append_number(out: &mut Vec<u8>, before: &[u8], index: u32) -> Result<(), AllocError>
    ensures { IfOk result (λ _. (short : List ℕ) × IsShort index short × (length short ≤ 5)
        × (out.new.items ≡ (out.old.items ++ before.now) ++ short)) }
{
    out.extend_from_slice(before)?;
    push_uleb(out, u64::from(index))
}

/// The body with the new numbers, and how what lies after them moves.
fn rewrite(
    alloc: Global,
    body: &[u8],
    numbers: &[DataIndexImm],
    indices: &[Option<u32>],
) -> Result<Rewritten, ReadError>
    requires { LieWithin 0 numbers.now (length body.now) }
    ensures { MatchResult result
        (λ r. IsRewriting (new_index indices.now) numbers.now body.now
        r.bytes.items r.shifts.items)
        (RewriteFault (new_index indices.now) numbers.now) }
{
    // New numbers are seldom longer than those that they replace.
    let mut bytes = Vec::with_capacity(alloc, body.len())?;
    let mut shifts = Vec::with_capacity(alloc, numbers.len())?;
    let mut rest = body;
    let mut place = 0;
    for number in numbers {
        let (before, here) = rest.split_at(number.offset - place);
        let Some(index) = new_index(indices, number.index) else {
            return Err(ReadError::Malformed(Why::BadIndex));
        };
        append_number(&mut bytes, before, index)?;
        rest = here.split_at(number.len).1;
        place = number.offset + number.len;
        shifts.push(Shift {
            old_end: place,
            new_end: bytes.len(),
        })?;
    }
    bytes.extend_from_slice(rest)?;
    Ok(Rewritten { bytes, shifts })
}

/// Whether so many of the shifts end at the place or before, and no more.
fn end_before(shifts: &[Shift], place: usize, count: usize) -> bool
    requires { IsNonDecreasingBy (λ (s : ShiftRecord). s.old_end) shifts.now }
    ensures bound { IsTrue result → count ≤ length shifts.now }
    ensures point { IsTrue result → IsPartitionPoint (λ (s : ShiftRecord). s.old_end ≤ place)
        (λ (s : ShiftRecord). place < s.old_end) shifts.now count }
{
    count <= shifts.len()
        && (count == 0 || shifts[count - 1].old_end <= place)
        && (count == shifts.len() || place < shifts[count].old_end)
}

/// How many of the shifts end at the place or before, where it is known how many do so for another
/// place. Fields mostly come in order, with one number between two: then nothing is searched.
fn shifts_before(shifts: &[Shift], place: usize, near: usize) -> usize
    requires { IsNonDecreasingBy (λ (s : ShiftRecord). s.old_end) shifts.now }
    ensures bound { result ≤ length shifts.now }
    ensures point { IsPartitionPoint (λ (s : ShiftRecord). s.old_end ≤ place)
        (λ (s : ShiftRecord). place < s.old_end) shifts.now result }
{
    if end_before(shifts, place, near) {
        return near;
    }
    let next = near.saturating_add(1);
    if end_before(shifts, place, next) {
        return next;
    }
    shifts.partition_point(|shift| shift.old_end <= place)
}

/// Where a field stands in the rewritten body, where so many of the shifts end at it or before.
fn moved(shifts: &[Shift], field: u32, count: usize) -> u32
    requires near { AllByRecursion IsNear shifts.now }
    requires field { field ≤ MAX_LEN }
    requires bound { count ≤ length shifts.now }
    requires point { IsPartitionPoint (λ (s : ShiftRecord). s.old_end ≤ field)
        (λ (s : ShiftRecord). field < s.old_end) shifts.now count }
    ensures { result ≡ shifted shifts.now field field }
{
    if count == 0 {
        return field;
    }
    let shift = shifts[count - 1];
    (shift.new_end + (field as usize - shift.old_end)) as u32
}

/// Moves each field.
fn move_fields(shifts: &[Shift], fields: &mut [u32])
    requires rising { IsNonDecreasingBy (λ (s : ShiftRecord). s.old_end) shifts.now }
    requires near { AllByRecursion IsNear shifts.now }
    requires fields { All (λ p. p ≤ MAX_LEN) fields.old }
    ensures { fields.new ≡ map (λ p. shifted shifts.now p p) fields.old }
{
    let mut count = 0;
    for i in 0..fields.len() {
        count = shifts_before(shifts, fields[i] as usize, count);
        fields[i] = moved(shifts, fields[i], count);
    }
}

/// Gives the numbers of data segments in a body the values that `indices` has at them, each in its
/// shortest form, and moves each field of the body on by what the numbers before it have grown.
/// Fields are places in the body, in bytes. The answer says whether there was any number.
///
/// The errors are those of `data_index_immediates`, and `Malformed(BadIndex)` where a number has no
/// new one. Then body and fields are as they were. A body with a number becomes a list of its own.
///
/// All operators stay but for their numbers, and so do the bytes of a field that overlaps no
/// number, each in the operator in which it stood.
pub fn remap_body_data_indices(
    alloc: Global,
    body: &mut CowSlice<'_, u8>,
    indices: &[Option<u32>],
    fields: &mut [u32],
) -> Result<bool, ReadError>
    requires bytes { length (cow_slice_items body.old) ≤ MAX_LEN }
    requires fields { All (λ p. p ≤ length (cow_slice_items body.old)) fields.old }
    ensures remaps { Remaps (new_index indices.now) (cow_slice_items body.old, fields.old)
        (cow_slice_items body.new, fields.new) result }
    ensures keeps { OnOk result ((numbers : List Number)
        → HasNumbers numbers (cow_slice_items body.old)
        → Keeps (new_index indices.now) numbers
        (cow_slice_items body.old) (cow_slice_items body.new)) }
    ensures owned { IfOk result (λ some. is_owned body.new ≡ (is_owned body.old || some)) }
    ensures body { OnErr result (cow_slice_items body.new ≡ cow_slice_items body.old) }
    ensures fields { OnErr result (fields.new ≡ fields.old) }
{
    let numbers = data_index_immediates(alloc, body.as_slice())?;
    if numbers.is_empty() {
        return Ok(false);
    }
    let rewritten = rewrite(alloc, body.as_slice(), &numbers, indices)?;
    move_fields(&rewritten.shifts, fields);
    *body = CowSlice::Owned(rewritten.bytes);
    Ok(true)
}
