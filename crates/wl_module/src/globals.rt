//! The global section: the globals that a module defines.

ghost use Rattle.std.specs.Prelude.{◌≡◌, ◌≤◌, length, IfOk};
ghost use Rattle.wl_bytes.specs.declared.reader.TheConstants.{MAX_LEN};
ghost use Rattle.wl_module.specs.Globals.{mutability_at, global_type_at, AreGlobals, GlobalsFault};
ghost use Rattle.wl_bytes.specs.Outcome.{Yields, ReadsWhole, AreAlternatives};

use crate::constants::read_expression;
use crate::slices::copy_bytes;
use crate::types::{ValType, read_value_type};
use std::alloc::{AllocError, Global};
use std::borrow::CowSlice;
use std::marker::Model;
use wl_bytes::{Item, ReadError, Reader, Why, read_payload};

/// The type of a global.
#[derive(Clone, Copy, PartialEq, Eq)]
pub struct GlobalType {
    /// The type of its value.
    pub content_type: ValType,
    /// Whether its value may change.
    pub mutable: bool,
}

/// A global that a module defines. Clauses see it as a `DefinedGlobal`, a record of its type, of
/// the bytes as a list, and of whether that is a copy.
#[derive(Drop)]
pub struct OutputGlobal<'a> {
    /// Its type.
    pub ty: GlobalType,
    /// The constant expression of the value that it starts with, without the byte 0x0b that ends
    /// it.
    pub init_expr_body: CowSlice<'a, u8>,
}

impl<'a> Model for OutputGlobal<'a> {
    ghost use Rattle.std.specs.Cow.{cow_slice_items};
    ghost use Rattle.wl_module.specs.Globals.{DefinedGlobal};
    ghost use Rattle.wl_module.specs.Slices.{is_owned};

    ghost Value = { DefinedGlobal };

    ghost view = { λ g. record {
      ty = g.ty;
      body = cow_slice_items g.init_expr_body;
      owned = is_owned g.init_expr_body;
    } };
}

impl<'a> OutputGlobal<'a> {
    /// The same global once more. Bytes of the module aren't copied.
    ///
    /// # Errors
    /// `AllocError` where memory runs out.
    pub fn duplicate(&self, alloc: Global) -> Result<Self, AllocError>
        ensures { IfOk result (λ copy. copy ≡ self.now) }
    {
        Ok(OutputGlobal {
            ty: self.ty,
            init_expr_body: copy_bytes(alloc, &self.init_expr_body)?,
        })
    }
}

impl<'a> Item<'a> for OutputGlobal<'a> {
    ghost use Rattle.wl_module.specs.Globals.{global_at};

    type Under = ();

    ghost item_at = { λ _. global_at };

    #[tactic(auto, unfolding(crate::specs::Globals::global_at))]
    fn read(_alloc: Global, _under: &mut (), reader: &mut Reader<'a>) -> Result<Self, ReadError> {
        let ty = read_global_type(reader)?;
        let body = read_expression(reader)?;
        Ok(OutputGlobal {
            ty,
            init_expr_body: CowSlice::Borrowed(body),
        })
    }
}

/// The byte that says whether a global may change.
#[tactic(auto, unfolding(crate::specs::Globals::mutability_at))]
fn read_mutability(reader: &mut Reader<'_>) -> Result<bool, ReadError>
    ensures { Yields (λ m. m) result reader.new (mutability_at reader.old) }
{
    match reader.read_u8()? {
        0 => Ok(false),
        1 => Ok(true),
        _ => Err(ReadError::Malformed(Why::BadByte)),
    }
}

/// The next global type.
#[tactic(auto, unfolding(crate::specs::Globals::global_type_at))]
pub(crate) fn read_global_type(reader: &mut Reader<'_>) -> Result<GlobalType, ReadError>
    ensures { Yields (λ g. g) result reader.new (global_type_at reader.old) }
{
    let content_type = read_value_type(reader)?;
    let mutable = read_mutability(reader)?;
    Ok(GlobalType {
        content_type,
        mutable,
    })
}

/// Reads the payload of a global section (core specification, "Global Section"): the globals that
/// the module defines, in order. Their expressions are slices of the payload.
///
/// A byte other than 0 and 1 after the value type is `Malformed(BadByte)`. Another operator than
/// those of constant expressions is `Unsupported(ConstOperator)`, a null reference of another type
/// than `funcref` and `externref` `Unsupported(Operator)`. The expressions aren't typed, and the
/// indices in them aren't looked at.
pub fn read_globals(alloc: Global, payload: &[u8]) -> Result<Vec<OutputGlobal<'_>>, ReadError>
    requires { length payload.now ≤ MAX_LEN }
    ensures reads { ReadsWhole (λ v. v.items) AreGlobals GlobalsFault payload.now result }
    ensures count { IfOk result (λ v. length v.items ≤ length payload.now) }
{
    read_payload(alloc, (), payload)
}

/// Each payload spells one list of globals or has one fault, and never both.
#[tactic(auto, using(wl_bytes::proofs::ListLaws::exact, crate::proofs::GlobalLaws::globals_reading))]
pub fn globals_or_fault()
    ensures { AreAlternatives AreGlobals GlobalsFault }
{}
