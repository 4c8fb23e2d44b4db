//! Why there can't be these exports.

ghost use Rattle.std.specs.Prelude.{◌≡◌, OnOk, IfOk, IfErr, MatchResult, Contains};
ghost use Rattle.wl_linking.specs.Steps.{Clear, Refuses};
ghost use Rattle.wl_bind.specs.References.{IsSettled};
ghost use Rattle.wl_exports.specs.steps.Checking.{IsSymbolFault, IsNameFault, IsSoundSymbol, IsSoundName, AreSoundNames, AreDistinct, AreSoundFirst, IsRepeat};
ghost use Rattle.wl_exports.specs.Faults.{IsExportFault};
ghost use Rattle.wl_exports.specs.Sources.{AreSources};

use crate::inherited::push_first;
use crate::made::is_made_name;
use crate::names::take_name;
use crate::sources::ExportSources;
use std::alloc::{AllocError, Global};
use std::collections::HashSet;
use wl_linking::{LinkError, WasmSymbolKind};
use wl_lists::Text;
use wl_module::OutputExport;
use wl_symbols::{Definition, LinkInput, definitions_have_numbers};

/// The refusal of a name that has to be exported, and under which no object defines anything.
fn not_found(alloc: Global, name: &str) -> Result<LinkError, AllocError>
    ensures { IfOk result (λ e. e ≡ LinkError.ExportNotFound name.now) }
{
    Ok(LinkError::ExportNotFound {
        name: Text::new(String::from_str(alloc, name)?),
    })
}

/// Sees that a symbol that a name stands for defines a function, a global or data.
fn check_symbol(
    alloc: Global,
    input: &LinkInput<'_, '_>,
    name: &str,
    object: usize,
    number: u32,
) -> Result<(), LinkError>
    requires { IsSettled input.now }
    ensures { MatchResult result (λ _. IsSoundSymbol input.now object number)
        (IsSymbolFault input.now name.now object number) }
{
    definitions_have_numbers();
    let Some(symbol) = input.symbols().symbol(object, number) else {
        return Err(not_found(alloc, name)?);
    };
    match symbol.kind {
        WasmSymbolKind::Table => Err(LinkError::WrongKind {
            object,
            symbol: number,
        }),
        WasmSymbolKind::Section | WasmSymbolKind::Event => Err(not_found(alloc, name)?),
        WasmSymbolKind::Func | WasmSymbolKind::Global | WasmSymbolKind::Data => {
            if symbol.is_undefined() {
                Err(not_found(alloc, name)?)
            } else {
                Ok(())
            }
        }
    }
}

/// Sees that a name is made by the linker, or stands for what an object
/// defines.
fn check_name(
    alloc: Global,
    sources: &ExportSources<'_, '_, '_>,
    name: &str,
) -> Result<(), LinkError>
    requires { AreSources sources.now }
    ensures { MatchResult result (λ _. IsSoundName sources.now.input.now name.now)
        (IsNameFault sources.now.input.now name.now) }
{
    if is_made_name(sources, name) {
        return Ok(());
    }
    match sources.input.symbols().lookup(name) {
        Some(Definition::Symbol { object, symbol }) => {
            check_symbol(alloc, sources.input, name, object, symbol)
        }
        Some(Definition::Made(_)) | None => Err(not_found(alloc, name)?),
    }
}

/// The same of a name that has to be exported.
fn check_asked(
    alloc: Global,
    sources: &ExportSources<'_, '_, '_>,
    name: &str,
) -> Result<(), LinkError>
    requires sources { AreSources sources.now }
    requires asked { Contains sources.now.input.now.link.args.required_export_symbols name.now }
    ensures clear { OnOk result (IsSoundName sources.now.input.now name.now) }
    ensures err { IfErr result (Refuses (IsExportFault sources.now.input.now)) }
{
    check_name(alloc, sources, name)
}

/// Sees that the names that have to be exported are there.
fn check_required(alloc: Global, sources: &ExportSources<'_, '_, '_>) -> Result<(), LinkError>
    requires { AreSources sources.now }
    ensures clear { OnOk result (AreSoundNames sources.now.input.now) }
    ensures err { IfErr result (Refuses (IsExportFault sources.now.input.now)) }
{
    for name in sources.args.required_export_symbols.as_slice() {
        check_asked(alloc, sources, name.as_str())?;
    }
    Ok(())
}

/// The refusal of two exports of one name.
fn duplicate(alloc: Global, name: &str) -> Result<LinkError, AllocError>
    ensures { IfOk result (λ e. e ≡ LinkError.DuplicateExport name.now) }
{
    Ok(LinkError::DuplicateExport {
        name: Text::new(String::from_str(alloc, name)?),
    })
}

/// Sees that no two of these exports have one name.
fn check_distinct(alloc: Global, exports: &[OutputExport<'_>]) -> Result<(), LinkError>
    ensures { MatchResult result (λ _. AreDistinct exports.now) (IsRepeat exports.now) }
{
    let mut taken = HashSet::new(alloc);
    for export in exports {
        let is_free = take_name(&mut taken, export.name)?;
        if !is_free {
            return Err(duplicate(alloc, export.name)?);
        }
    }
    Ok(())
}

/// Sees that no two of what objects export, nor one and the memory, have one name.
fn check_first(alloc: Global, sources: &ExportSources<'_, '_, '_>) -> Result<(), LinkError>
    requires { AreSources sources.now }
    ensures clear { OnOk result (AreSoundFirst sources.now.input.now) }
    ensures err { IfErr result (Refuses (IsExportFault sources.now.input.now)) }
{
    let mut exports = Vec::new(alloc);
    push_first(&mut exports, sources)?;
    check_distinct(alloc, exports.as_slice())
}

/// Sees that what has to be exported is there, and that no two of what objects export, nor one and
/// the memory, have one name.
///
/// # Errors
/// `WrongKind` where a name that has to be exported stands for a table, `ExportNotFound` where no
/// object defines anything under it that can be exported; then `DuplicateExport` where two of what
/// objects export, or one and the memory, have one name.
pub fn check_exports(alloc: Global, sources: &ExportSources<'_, '_, '_>) -> Result<(), LinkError>
    requires { AreSources sources.now }
    ensures clear { OnOk result (Clear (IsExportFault sources.now.input.now)) }
    ensures err { IfErr result (Refuses (IsExportFault sources.now.input.now)) }
{
    check_required(alloc, sources)?;
    check_first(alloc, sources)
}
