//! The table of operators: which first bytes and numbers there are, and what follows them.

ghost use Rattle.std.specs.Prelude.{◌≡◌};
ghost use Rattle.wl_ops.specs.Table.{shape_in, is_prefix, is_untaken, is_element, shape_of, immediates};

/// One value after an operator's first byte and number.
#[derive(Clone, Copy)]
pub enum Single {
    /// An unsigned number of 32 bits: an index, a label, an offset.
    Number,
    /// The alignment of a memory access, below 0x40.
    Alignment,
    /// The type of a block.
    BlockType,
    /// A signed number of 32 bits.
    Signed32,
    /// A signed number of 64 bits.
    Signed64,
    /// A byte as it is.
    Byte,
    /// The byte of a reference type.
    ReferenceType,
    /// The byte of a value type.
    ValueType,
}

/// One thing that follows an operator's first byte and number.
#[derive(Clone, Copy)]
pub enum Immediate {
    /// One value.
    One(Single),
    /// How many values, and they.
    ListOf(Single),
    /// How many catches, and they: of each its kind, and one or two numbers.
    Catches,
}

/// What follows an operator.
#[derive(Clone, Copy)]
pub enum Shape {
    /// Nothing.
    Nothing,
    /// A block's type.
    Block,
    /// One number.
    Index,
    /// Two numbers.
    Indices,
    /// A list of numbers, and one more.
    Branches,
    /// A list of value types.
    Typed,
    /// A block's type, and a list of catches.
    Try,
    /// An alignment and an offset.
    Memory,
    /// An alignment, an offset and the number of a lane.
    MemoryLane,
    /// The number of a lane.
    Lane,
    /// A signed number of 32 bits.
    Int32,
    /// A signed number of 64 bits.
    Int64,
    /// Four bytes.
    Float32,
    /// Eight bytes.
    Float64,
    /// Sixteen bytes.
    Vector,
    /// The type of a reference.
    Null,
}

/// The operators from one number to another, and what follows each of them.
#[derive(Clone, Copy)]
pub struct Row(pub u32, pub u32, pub Shape);

/// The operators by their first byte.
const PLAIN: [Row; 28] = [
    Row(0x00, 0x01, Shape::Nothing),
    Row(0x02, 0x04, Shape::Block),
    Row(0x05, 0x05, Shape::Nothing),
    Row(0x06, 0x06, Shape::Block),
    Row(0x07, 0x09, Shape::Index),
    Row(0x0a, 0x0b, Shape::Nothing),
    Row(0x0c, 0x0d, Shape::Index),
    Row(0x0e, 0x0e, Shape::Branches),
    Row(0x0f, 0x0f, Shape::Nothing),
    Row(0x10, 0x10, Shape::Index),
    Row(0x11, 0x11, Shape::Indices),
    Row(0x12, 0x12, Shape::Index),
    Row(0x13, 0x13, Shape::Indices),
    Row(0x18, 0x18, Shape::Index),
    Row(0x19, 0x1b, Shape::Nothing),
    Row(0x1c, 0x1c, Shape::Typed),
    Row(0x1f, 0x1f, Shape::Try),
    Row(0x20, 0x26, Shape::Index),
    Row(0x28, 0x3e, Shape::Memory),
    Row(0x3f, 0x40, Shape::Index),
    Row(0x41, 0x41, Shape::Int32),
    Row(0x42, 0x42, Shape::Int64),
    Row(0x43, 0x43, Shape::Float32),
    Row(0x44, 0x44, Shape::Float64),
    Row(0x45, 0xc4, Shape::Nothing),
    Row(0xd0, 0xd0, Shape::Null),
    Row(0xd1, 0xd1, Shape::Nothing),
    Row(0xd2, 0xd2, Shape::Index),
];

/// The operators whose first byte is 0xfc, by their number.
const BULK: [Row; 9] = [
    Row(0, 7, Shape::Nothing),
    Row(8, 8, Shape::Indices),
    Row(9, 9, Shape::Index),
    Row(10, 10, Shape::Indices),
    Row(11, 11, Shape::Index),
    Row(12, 12, Shape::Indices),
    Row(13, 13, Shape::Index),
    Row(14, 14, Shape::Indices),
    Row(15, 17, Shape::Index),
];

/// The operators whose first byte is 0xfd, by their number.
const VECTOR: [Row; 8] = [
    Row(0x00, 0x0b, Shape::Memory),
    Row(0x0c, 0x0d, Shape::Vector),
    Row(0x0e, 0x14, Shape::Nothing),
    Row(0x15, 0x22, Shape::Lane),
    Row(0x23, 0x53, Shape::Nothing),
    Row(0x54, 0x5b, Shape::MemoryLane),
    Row(0x5c, 0x5d, Shape::Memory),
    Row(0x5e, 0x113, Shape::Nothing),
];

/// The operators whose first byte is 0xfe, by their number.
const THREAD: [Row; 3] = [
    Row(0x00, 0x02, Shape::Memory),
    Row(0x03, 0x03, Shape::Lane),
    Row(0x10, 0x4e, Shape::Memory),
];

/// The first bytes after which a number gives the operator.
pub(crate) fn is_prefix(code: u8) -> bool
    ensures { result ≡ is_prefix code }
{
    code == 0xfc || code == 0xfd || code == 0xfe
}

/// What follows each operator of the row that holds the key.
fn shape_in(rows: &[Row], key: u32) -> Option<Shape>
    ensures { result ≡ shape_in rows.now key }
{
    for row in rows {
        if row.0 <= key && key <= row.1 {
            return Some(row.2);
        }
    }
    None
}

/// What follows the operator, where the table has it.
#[tactic(auto, unfolding(crate::specs::Table::shape_of))]
pub(crate) fn shape_of(code: u8, sub: u32) -> Option<Shape>
    ensures { result ≡ shape_of code sub }
{
    if code == 0xfc {
        shape_in(&BULK, sub)
    } else if code == 0xfd {
        shape_in(&VECTOR, sub)
    } else if code == 0xfe {
        shape_in(&THREAD, sub)
    } else {
        shape_in(&PLAIN, u32::from(code))
    }
}

/// The immediates of a shape, in their order.
pub(crate) fn immediates_of(shape: Shape) -> &'static [Immediate]
    ensures { result.now ≡ immediates shape }
{
    match shape {
        Shape::Nothing => &[],
        Shape::Block => &[Immediate::One(Single::BlockType)],
        Shape::Index => &[Immediate::One(Single::Number)],
        Shape::Indices => &[
            Immediate::One(Single::Number),
            Immediate::One(Single::Number),
        ],
        Shape::Branches => &[
            Immediate::ListOf(Single::Number),
            Immediate::One(Single::Number),
        ],
        Shape::Typed => &[Immediate::ListOf(Single::ValueType)],
        Shape::Try => &[Immediate::One(Single::BlockType), Immediate::Catches],
        Shape::Memory => &[
            Immediate::One(Single::Alignment),
            Immediate::One(Single::Number),
        ],
        Shape::MemoryLane => &[
            Immediate::One(Single::Alignment),
            Immediate::One(Single::Number),
            Immediate::One(Single::Byte),
        ],
        Shape::Lane => &[Immediate::One(Single::Byte)],
        Shape::Int32 => &[Immediate::One(Single::Signed32)],
        Shape::Int64 => &[Immediate::One(Single::Signed64)],
        Shape::Float32 => &[Immediate::One(Single::Byte); 4],
        Shape::Float64 => &[Immediate::One(Single::Byte); 8],
        Shape::Vector => &[Immediate::One(Single::Byte); 16],
        Shape::Null => &[Immediate::One(Single::ReferenceType)],
    }
}

/// Whether operators that begin so are known and not taken.
pub(crate) fn is_untaken(code: u8) -> bool
    ensures { result ≡ is_untaken code }
{
    is_prefix(code)
        || code == 0x14
        || code == 0x15
        || (0xd3 <= code && code <= 0xd6)
        || code == 0xfb
}

/// Whether the operator is one of the two on element segments.
pub(crate) fn is_element(code: u8, sub: u32) -> bool
    ensures { result ≡ is_element code sub }
{
    code == 0xfc && (sub == 12 || sub == 13)
}
