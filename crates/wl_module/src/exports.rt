//! The export section: what a module gives to others.

ghost use Rattle.std.specs.Prelude.{◌≤◌, length, IfOk};
ghost use Rattle.wl_bytes.specs.declared.reader.TheConstants.{MAX_LEN};
ghost use Rattle.wl_module.specs.Exports.{AreExports, ExportsFault};
ghost use Rattle.wl_bytes.specs.Outcome.{ReadsWhole, AreAlternatives};

use crate::imports::{ExternalKind, read_external_kind};
use std::alloc::Global;
use std::marker::Model;
use wl_bytes::{Item, ReadError, Reader, read_payload};

/// What a module gives to others. Clauses see it as an `Exported`, a record with the name as a
/// list.
#[derive(Drop)]
pub struct OutputExport<'a> {
    /// The name that others know it by.
    pub name: &'a str,
    /// What kind of thing it is.
    pub kind: ExternalKind,
    /// Its number among all things of the kind, imported ones first.
    pub index: u32,
}

impl<'a> Model for OutputExport<'a> {
    ghost use Rattle.wl_module.specs.Exports.{Exported};

    ghost Value = { Exported };

    ghost view = { λ x. record { name = x.name.now; kind = x.kind; index = x.index } };
}

impl<'a> Item<'a> for OutputExport<'a> {
    ghost use Rattle.wl_module.specs.Exports.{export_at};

    type Under = ();

    ghost item_at = { λ _. export_at };

    #[tactic(auto, unfolding(crate::specs::Exports::export_at))]
    fn read(_alloc: Global, _under: &mut (), reader: &mut Reader<'a>) -> Result<Self, ReadError> {
        let name = reader.read_name()?;
        let kind = read_external_kind(reader)?;
        let index = reader.read_u32()?;
        Ok(OutputExport { name, kind, index })
    }
}

/// Reads the payload of an export section (core specification, "Export Section"): the exports in
/// order, their names slices of the payload. The indices aren't looked at.
///
/// A kind above 4 is `Malformed(BadByte)`, the kind 4 of an exception tag `Unsupported(Tag)`; each
/// is judged before the index.
pub fn read_exports(alloc: Global, payload: &[u8]) -> Result<Vec<OutputExport<'_>>, ReadError>
    requires { length payload.now ≤ MAX_LEN }
    ensures reads { ReadsWhole (λ v. v.items) AreExports ExportsFault payload.now result }
    ensures count { IfOk result (λ v. length v.items ≤ length payload.now) }
{
    read_payload(alloc, (), payload)
}

/// Each payload spells one list of exports or has one fault, and never both.
#[tactic(auto, using(wl_bytes::proofs::ListLaws::exact, crate::proofs::ImportLaws::exports_reading))]
pub fn exports_or_fault()
    ensures { AreAlternatives AreExports ExportsFault }
{}
