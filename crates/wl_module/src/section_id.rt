//! The ids of the standard sections (core specification, "Sections").

/// The types of functions.
pub const TYPE: u8 = 1;

/// What the module takes from others.
pub const IMPORT: u8 = 2;

/// Which type each function has.
pub const FUNCTION: u8 = 3;

/// The tables.
pub const TABLE: u8 = 4;

/// The memories.
pub const MEMORY: u8 = 5;

/// The globals.
pub const GLOBAL: u8 = 6;

/// What the module gives to others.
pub const EXPORT: u8 = 7;

/// The function that is called at first.
pub const START: u8 = 8;

/// What the tables start with.
pub const ELEMENT: u8 = 9;

/// The bodies of functions.
pub const CODE: u8 = 10;

/// What the memories start with.
pub const DATA: u8 = 11;

/// How many segments the data section has. It stands before the code.
pub const DATA_COUNT: u8 = 12;

/// The greatest of them.
pub const MAX: u8 = DATA_COUNT;
