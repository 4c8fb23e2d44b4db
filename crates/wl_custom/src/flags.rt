//! The flags of symbols (object file linking, version 2, "Symbol Table Subsection").

use bitflags::{Flag, Flags, bitflag_items};

/// The flags of a symbol (object file linking, version 2, "Symbol Table Subsection"). Bits without
/// a name are kept.
#[derive(Clone, Copy, PartialEq, Eq)]
pub struct SymbolFlags(u32);

bitflag_items! {
    impl SymbolFlags: u32 {
        /// Another definition of the name comes before this one.
        const WEAK = 1;
        /// Other objects don't see the name.
        const LOCAL = 2;
        /// The name isn't exported by itself.
        const HIDDEN = 4;
        /// The object doesn't define it.
        const UNDEFINED = 0x10;
        /// It is kept, for the world outside.
        const EXPORTED = 0x20;
        /// An undefined symbol has a name of its own, beside that of its import.
        const EXPLICIT_NAME = 0x40;
        /// It is kept.
        const NO_STRIP = 0x80;
        /// It is data of each thread.
        const TLS = 0x100;
        /// It is an address, and in no segment.
        const ABSOLUTE = 0x200;
    }
}

impl Flags for SymbolFlags {
    type Bits = u32;

    ghost use Rattle.std.specs.Prelude.{⊤, [], ◌∷◌, codes};

    ghost exact = { ⊤ };

    ghost table = { (codes "WEAK", 1) ∷ (codes "LOCAL", 2) ∷ (codes "HIDDEN", 4)
        ∷ (codes "UNDEFINED", 0x10) ∷ (codes "EXPORTED", 0x20) ∷ (codes "EXPLICIT_NAME", 0x40)
        ∷ (codes "NO_STRIP", 0x80) ∷ (codes "TLS", 0x100) ∷ (codes "ABSOLUTE", 0x200) ∷ [] };

    ghost set_of = { λ f. f.0 };

    fn flags<'a>() -> &'a [Flag<SymbolFlags>] {
        SymbolFlags::FLAGS
    }

    fn bits(&self) -> u32 {
        self.0
    }

    fn from_bits_retain(bits: u32) -> SymbolFlags {
        SymbolFlags(bits)
    }
}
