//! What makes units refer to others, one after the other.

ghost use Rattle.std.specs.Prelude.{◌≡◌, []};
ghost use Rattle.std.specs.Iterator.{YieldsFirst};
ghost use Rattle.wl_live.specs.Mentions.{referring, most_references, object_mentions, all_mentions, object_left, mentions_left};

use crate::object_facts::{ObjectFacts, SegmentUse, SymbolUse};
use wl_symbols::{LinkUnit, WasmGcUnit};

/// By what a unit refers to others.
#[derive(Clone, Copy, PartialEq, Eq)]
pub(crate) enum Cause {
    /// A relocation in it names a symbol.
    Relocation(SymbolUse),
    /// It is the import slot of a symbol.
    Slot(SymbolUse),
    /// The number of a segment stands in it.
    Number(SegmentUse),
}

/// A unit of the object of that number refers to others.
#[derive(Clone, Copy, PartialEq, Eq)]
pub(crate) struct Mention {
    pub(crate) object: usize,
    pub(crate) cause: Cause,
}

impl Mention {
    /// The unit that refers to others.
    pub(crate) fn referring(self) -> LinkUnit
        ensures { result ≡ referring self }
    {
        let unit = match self.cause {
            Cause::Relocation(used) | Cause::Slot(used) => used.unit,
            Cause::Number(used) => WasmGcUnit::DefinedFunction(used.function),
        };
        LinkUnit {
            object: self.object,
            unit,
        }
    }

    /// To how many it refers at most. A symbol in a relocation may stand for another one.
    pub(crate) fn most_references(self) -> usize
        ensures { result ≡ most_references self.cause }
    {
        match self.cause {
            Cause::Relocation(_) => 2,
            Cause::Slot(_) | Cause::Number(_) => 1,
        }
    }
}

/// What is left of the mentions of an object.
#[derive(Drop)]
struct ObjectRest<'k> {
    object: usize,
    uses: &'k [SymbolUse],
    slots: &'k [SymbolUse],
    segments: &'k [SegmentUse],
}

impl<'k> ObjectRest<'k> {
    /// All mentions of an object.
    fn new(object: usize, facts: &'k ObjectFacts) -> Self
        ensures { object_left result ≡ object_mentions object facts.now }
    {
        ObjectRest {
            object,
            uses: facts.uses(),
            slots: facts.slots(),
            segments: facts.segments(),
        }
    }

    /// No mentions.
    fn none() -> Self
        ensures { object_left result ≡ [] }
    {
        ObjectRest {
            object: 0,
            uses: &[],
            slots: &[],
            segments: &[],
        }
    }

    /// Takes the first mention off.
    fn next_in(&mut self) -> Option<Mention>
        ensures { YieldsFirst object_left self.old result self.new }
    {
        let object = self.object;
        if let Some((used, uses)) = self.uses.split_first() {
            self.uses = uses;
            let cause = Cause::Relocation(*used);
            return Some(Mention { object, cause });
        }
        if let Some((slot, slots)) = self.slots.split_first() {
            self.slots = slots;
            let cause = Cause::Slot(*slot);
            return Some(Mention { object, cause });
        }
        let (used, segments) = self.segments.split_first()?;
        self.segments = segments;
        let cause = Cause::Number(*used);
        Some(Mention { object, cause })
    }
}

/// What makes units of objects refer to others, one after the other: object by object, relocations
/// before import slots before numbers of segments. They are read where the facts have them.
#[derive(Drop)]
pub(crate) struct Mentions<'k> {
    facts: &'k [ObjectFacts],
    next: usize,
    current: ObjectRest<'k>,
}

impl<'k> Iterator for Mentions<'k> {
    ghost use Rattle.std.specs.Iterator.{YieldsFirst, item_count};
    ghost use Rattle.wl_live.specs.Mentions.{mentions_left};

    type Item = Mention;

    ghost next_gives = { YieldsFirst mentions_left };

    ghost remaining = { item_count mentions_left };

    fn next(&mut self) -> Option<Mention> {
        'objects: loop {
            if let Some(mention) = self.current.next_in() {
                return Some(mention);
            }
            let (facts, next) = (self.facts, self.next);
            if next >= facts.len() {
                return None;
            }
            self.current = ObjectRest::new(next, &facts[next]);
            self.next = next + 1;
        }
    }
}

/// The mentions of the object of that number.
pub(crate) fn mentions_of(object: usize, facts: &ObjectFacts) -> Mentions<'_>
    ensures { mentions_left result ≡ object_mentions object facts.now }
{
    Mentions {
        facts: &[],
        next: 0,
        current: ObjectRest::new(object, facts),
    }
}

/// The mentions of all objects.
pub(crate) fn all_mentions(facts: &[ObjectFacts]) -> Mentions<'_>
    ensures { mentions_left result ≡ all_mentions facts.now }
{
    Mentions {
        facts,
        next: 0,
        current: ObjectRest::none(),
    }
}
