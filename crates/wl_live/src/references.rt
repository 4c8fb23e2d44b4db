//! What each unit refers to.

ghost use Rattle.std.specs.Prelude.{◌≡◌};
ghost use Rattle.wl_live.specs.Laying.{followed_references, mention_references};
ghost use Rattle.wl_live.specs.Table.{use_references};

use crate::definitions::{other_unit, replacing_unit, unit_at};
use crate::mentions::{Cause, Mention};
use crate::object_facts::SymbolUse;
use wl_symbols::{LinkUnit, SymbolTable, UnitNumbers, WasmGcUnit};

/// What a unit refers to by one mention: the unit of what stands there itself, and that of what
/// stands in its place.
#[derive(Clone, Copy, PartialEq, Eq)]
pub(crate) struct Followed {
    pub(crate) from: LinkUnit,
    pub(crate) own: Option<LinkUnit>,
    pub(crate) other: Option<LinkUnit>,
}

/// What a relocation makes its unit refer to.
fn followed_by_use(
    symbols: &SymbolTable<'_, '_>,
    numbers: &UnitNumbers,
    object: usize,
    used: SymbolUse,
) -> Followed
    ensures { followed_references result ≡ use_references symbols.now numbers.now object used }
{
    let from = LinkUnit {
        object,
        unit: used.unit,
    };
    match symbols.symbol(object, used.symbol) {
        Some(symbol) => Followed {
            from,
            own: unit_at(numbers, object, symbol),
            other: replacing_unit(symbols, numbers, object, used.symbol, symbol),
        },
        None => Followed {
            from,
            own: None,
            other: None,
        },
    }
}

/// What a mention makes its unit refer to.
pub(crate) fn followed_by(
    symbols: &SymbolTable<'_, '_>,
    numbers: &UnitNumbers,
    mention: Mention,
) -> Followed
    ensures { followed_references result ≡ mention_references symbols.now numbers.now mention }
{
    let (object, from) = (mention.object, mention.referring());
    let other = match mention.cause {
        Cause::Relocation(used) => return followed_by_use(symbols, numbers, object, used),
        Cause::Slot(slot) => other_unit(symbols, numbers, object, slot.symbol),
        Cause::Number(used) => Some(LinkUnit {
            object,
            unit: WasmGcUnit::DataSegment(used.segment),
        }),
    };
    Followed {
        from,
        own: None,
        other,
    }
}
