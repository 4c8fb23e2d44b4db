//! Which segments bodies number, and why units can't be kept.

ghost use Rattle.std.specs.Prelude.{◌≡◌, ◌↔◌, ◌+◌, ◌<◌, ◌≤◌, ◌++◌, nat_le, length, Contains, MatchOption, IfOk, OnOk, IsTrue};
ghost use Rattle.wl_bytes.specs.declared.reader.TheConstants.{MAX_LEN};
ghost use Rattle.wl_bytes.specs.declared.read_error.ReadError.{ReadError as ErrorRecord};
ghost use Rattle.wl_custom.specs.RelocationTypes.{field_form};
ghost use Rattle.wl_linking.specs.Sites.{AreApart, field_len};
ghost use Rattle.wl_ops.specs.declared.op.DataIndexImm.{DataIndexImm as Number};
ghost use Rattle.wl_live.specs.Faults.{HasFieldIn, SegmentNumberFault, HasSegmentNumberFault, HasBodyFault, HasGlobalFault};
ghost use Rattle.wl_live.specs.Facts.{segment_uses, NumbersAdded, AreSegmentUses, faults_of, FaultsOfBodies, AreFaults};

use crate::object_facts::{SegmentUse, UnitFault};
use std::alloc::{AllocError, Global};
use wl_bytes::{Form, ReadError, Why};
use wl_linking::{FieldForm, File, WasmRelocation, parts_of_objects_stand};
use wl_module::{OutputGlobal, WasmFunctionBody};
use wl_ops::{DataIndexImm, data_index_immediates, has_reference, numbers_are_one};
use wl_symbols::WasmGcUnit;

/// The segments that the bodies of an object number, and why units of it can't be kept.
#[derive(Drop)]
pub(crate) struct BodyFacts {
    pub(crate) segments: Vec<SegmentUse>,
    pub(crate) faults: Vec<UnitFault>,
}

/// Where the field of a relocation ends.
fn field_end(relocation: &WasmRelocation) -> usize
    ensures { result ≡ relocation.now.offset + field_len (field_form relocation.now.ty) }
{
    let len = match relocation.ty.field_form() {
        FieldForm::PaddedUnsigned | FieldForm::PaddedSigned => 5,
        FieldForm::Word => 4,
    };
    relocation.offset as usize + len
}

/// Whether the field of a relocation has a byte between these places of the payload.
fn has_field_in(relocations: &[WasmRelocation], from: usize, to: usize) -> bool
    requires { AreApart relocations.now }
    ensures { IsTrue result ↔ HasFieldIn relocations.now from to }
{
    let place = relocations.partition_point(
        |r: &WasmRelocation| -> bool
            ensures { result ≡ nat_le (r.now.offset + field_len (field_form r.now.ty)) from }
        { field_end(r) <= from },
    );
    match relocations.get(place) {
        Some(relocation) => (relocation.offset as usize) < to,
        None => false,
    }
}

/// Why a number in a body is at fault.
fn number_fault(
    file: &File<'_>,
    body: &WasmFunctionBody<'_>,
    number: DataIndexImm,
) -> Option<ReadError>
    requires { number.offset + number.len ≤ MAX_LEN }
    ensures { MatchOption result
        ((e : ErrorRecord) → SegmentNumberFault file.now body.now number e → ⊥)
        (SegmentNumberFault file.now body.now number) }
{
    file.stands_for_an_object();
    if number.index as usize >= file.num_data_segments() {
        return Some(ReadError::Malformed(Why::BadIndex));
    }
    let from = body.code_offset as usize + number.offset;
    if has_field_in(file.code_relocations(), from, from + number.len) {
        return Some(ReadError::Malformed(Why::Overlap));
    }
    None
}

/// Why the numbers in a body are at fault.
fn numbers_fault(
    file: &File<'_>,
    body: &WasmFunctionBody<'_>,
    numbers: &[DataIndexImm],
) -> Option<ReadError>
    requires { (n : Number) → Contains numbers.now n → n.offset + n.len ≤ MAX_LEN }
    ensures { MatchOption result
        ((e : ErrorRecord) → HasSegmentNumberFault file.now body.now numbers.now e → ⊥)
        (HasSegmentNumberFault file.now body.now numbers.now) }
{
    for number in numbers {
        if let Some(error) = number_fault(file, body, *number) {
            return Some(error);
        }
    }
    None
}

/// Adds the segments that a body numbers.
fn push_segments(
    segments: &mut Vec<SegmentUse>,
    function: u32,
    numbers: &[DataIndexImm],
) -> Result<(), AllocError>
    ensures { OnOk result
        (segments.new.items ≡ segments.old.items ++ segment_uses function numbers.now) }
{
    for number in numbers {
        segments.push(SegmentUse {
            function,
            segment: number.index,
        })?;
    }
    Ok(())
}

/// Adds the segments that a body numbers, and answers why the body can't be kept.
fn take_body(
    alloc: Global,
    segments: &mut Vec<SegmentUse>,
    file: &File<'_>,
    function: u32,
    body: &WasmFunctionBody<'_>,
) -> Result<Option<ReadError>, AllocError>
    requires { length body.now.bytes ≤ MAX_LEN }
    ensures segments { IfOk result (λ _. NumbersAdded function body.now.bytes
        segments.old.items segments.new.items) }
    ensures fault { IfOk result (λ fault. MatchOption fault
        ((e : ErrorRecord) → HasBodyFault file.now body.now e → ⊥)
        (HasBodyFault file.now body.now)) }
{
    numbers_are_one();
    match data_index_immediates(alloc, &body.bytes) {
        Ok(numbers) => {
            push_segments(segments, function, &numbers)?;
            Ok(numbers_fault(file, body, &numbers))
        }
        Err(ReadError::OutOfMemory) => Err(AllocError),
        Err(ReadError::Malformed(why)) => Ok(Some(ReadError::Malformed(why))),
        Err(ReadError::Unsupported(form)) => Ok(Some(ReadError::Unsupported(form))),
    }
}

/// Adds why a unit can't be kept, if it can't.
fn push_fault(
    faults: &mut Vec<UnitFault>,
    unit: WasmGcUnit,
    error: Option<ReadError>,
) -> Result<(), AllocError>
    ensures { OnOk result (faults.new.items ≡ faults.old.items ++ faults_of unit error) }
{
    if let Some(error) = error {
        faults.push(UnitFault { unit, error })?;
    }
    Ok(())
}

/// What the bodies of an object say.
fn collect_bodies(alloc: Global, file: &File<'_>) -> Result<BodyFacts, AllocError>
    ensures segments { IfOk result (λ b. AreSegmentUses 0 file.now.bodies b.segments.items) }
    ensures faults { IfOk result (λ b. FaultsOfBodies file.now (length file.now.bodies)
        b.faults.items) }
{
    file.stands_for_an_object();
    parts_of_objects_stand();
    let mut segments = Vec::new(alloc);
    let mut faults = Vec::new(alloc);
    let bodies = file.bodies();
    for (i, body) in bodies.iter().enumerate() {
        let fault = take_body(alloc, &mut segments, file, i as u32, body)?;
        push_fault(&mut faults, WasmGcUnit::DefinedFunction(i as u32), fault)?;
    }
    Ok(BodyFacts { segments, faults })
}

/// Why a global can't be kept: it starts with the value of another, or with a function.
fn global_fault(alloc: Global, global: &OutputGlobal<'_>) -> Result<Option<ReadError>, AllocError>
    requires { length global.now.body ≤ MAX_LEN }
    ensures { IfOk result (λ fault. MatchOption fault
        ((e : ErrorRecord) → HasGlobalFault global.now e → ⊥) (HasGlobalFault global.now)) }
{
    if has_reference(alloc, &global.init_expr_body)? {
        Ok(Some(ReadError::Unsupported(Form::GlobalInit)))
    } else {
        Ok(None)
    }
}

/// Adds why globals of an object can't be kept.
fn push_globals(
    alloc: Global,
    faults: &mut Vec<UnitFault>,
    file: &File<'_>,
) -> Result<(), AllocError>
    requires { FaultsOfBodies file.now (length file.now.bodies) faults.old.items }
    ensures { OnOk result (AreFaults file.now faults.new.items) }
{
    file.stands_for_an_object();
    parts_of_objects_stand();
    let globals = file.globals();
    for (i, global) in globals.iter().enumerate() {
        let fault = global_fault(alloc, global)?;
        push_fault(faults, WasmGcUnit::DefinedGlobal(i as u32), fault)?;
    }
    Ok(())
}

/// The segments that the bodies of an object number, and why units of it can't be kept.
pub(crate) fn collect_faults(alloc: Global, file: &File<'_>) -> Result<BodyFacts, AllocError>
    ensures segments { IfOk result (λ b. AreSegmentUses 0 file.now.bodies b.segments.items) }
    ensures faults { IfOk result (λ b. AreFaults file.now b.faults.items) }
{
    let mut facts = collect_bodies(alloc, file)?;
    push_globals(alloc, &mut facts.faults, file)?;
    Ok(facts)
}
