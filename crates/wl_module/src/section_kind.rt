//! What the sections of a module are (core specification, "Sections").

ghost use Rattle.std.specs.Prelude.{◌≡◌};
ghost use Rattle.wl_module.specs.SectionKinds.{id_of, kind_of, place_of, is_custom};

use crate::section_id;

/// The id of a custom section.
const CUSTOM: u8 = 0;

/// The id of a tag section.
const TAG: u8 = 13;

/// What a section is. The numbers are the ids.
#[derive(Clone, Copy, PartialEq, Eq)]
pub enum SectionKind {
    /// A section with a name, for tools. It may stand anywhere.
    Custom,
    /// The types of functions.
    Type,
    /// What the module takes from others.
    Import,
    /// Which type each function has.
    Function,
    /// The tables.
    Table,
    /// The memories.
    Memory,
    /// The globals.
    Global,
    /// What the module gives to others.
    Export,
    /// The function that is called at first.
    Start,
    /// What the tables start with.
    Element,
    /// The bodies of functions.
    Code,
    /// What the memories start with.
    Data,
    /// How many segments the data section has. It stands before the code.
    DataCount,
    /// The tags. It may stand anywhere.
    Tag,
}

impl SectionKind {
    /// The section of that id, if there is one.
    pub(crate) fn from_id(id: u8) -> Option<Self>
        ensures { result ≡ kind_of id }
    {
        match id {
            CUSTOM => Some(SectionKind::Custom),
            section_id::TYPE => Some(SectionKind::Type),
            section_id::IMPORT => Some(SectionKind::Import),
            section_id::FUNCTION => Some(SectionKind::Function),
            section_id::TABLE => Some(SectionKind::Table),
            section_id::MEMORY => Some(SectionKind::Memory),
            section_id::GLOBAL => Some(SectionKind::Global),
            section_id::EXPORT => Some(SectionKind::Export),
            section_id::START => Some(SectionKind::Start),
            section_id::ELEMENT => Some(SectionKind::Element),
            section_id::CODE => Some(SectionKind::Code),
            section_id::DATA => Some(SectionKind::Data),
            section_id::DATA_COUNT => Some(SectionKind::DataCount),
            TAG => Some(SectionKind::Tag),
            _ => None,
        }
    }

    /// The id of the section.
    pub(crate) fn id(self) -> u8
        ensures { result ≡ id_of self }
    {
        self as u8
    }

    /// The place of the section among those that stand in order, from 1; 0 where it may stand
    /// anywhere.
    pub(crate) fn place(self) -> u8
        ensures { result ≡ place_of self }
    {
        match self {
            SectionKind::Custom | SectionKind::Tag => 0,
            SectionKind::Type => 1,
            SectionKind::Import => 2,
            SectionKind::Function => 3,
            SectionKind::Table => 4,
            SectionKind::Memory => 5,
            SectionKind::Global => 6,
            SectionKind::Export => 7,
            SectionKind::Start => 8,
            SectionKind::Element => 9,
            SectionKind::DataCount => 10,
            SectionKind::Code => 11,
            SectionKind::Data => 12,
        }
    }

    /// Whether it is a custom section, which has a name.
    pub(crate) fn is_custom(self) -> bool
        ensures { result ≡ is_custom self }
    {
        self.id() == CUSTOM
    }
}
