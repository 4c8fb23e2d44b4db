//! Names as the bytes that they are.

ghost use Rattle.std.specs.Prelude.{◌≡◌, None, Some, MatchOption, true};
ghost use Rattle.std.specs.Fmt.{WritesOnOk};
ghost use Rattle.hex.specs.Hex.{encode_lower};
ghost use Rattle.wl_linking.specs.RawNames.{named_text};

use std::fmt;
use std::marker::Model;
use wl_custom::WasmSymbol;

/// The name of a symbol as these bytes spell it: the text at its `name_range` (object file linking,
/// version 2, "Symbol Table Subsection"). The bytes are those of the object that the symbol is
/// from.
///
/// `None` where the symbol has no name, where its range isn't within the bytes, and where the bytes
/// there aren't UTF-8.
pub fn wasm_symbol_name_str<'a>(bytes: &'a [u8], symbol: &WasmSymbol<'_>) -> Option<&'a str>
    ensures { let text = named_text bytes.now symbol.now in
        MatchOption result (text ≡ None) (λ name. text ≡ Some name.now) }
{
    if !symbol.has_name() {
        return None;
    }
    let (start, end) = symbol.name_range();
    let name = bytes.get(start as usize..end as usize)?;
    str::from_utf8(name).ok()
}

/// The name of a symbol as the bytes that an object or a command line gives, which may be no UTF-8.
/// Symbols of WebAssembly have no versions, so the whole of the bytes is the name (object file
/// linking, version 2, "Symbol Table Subsection"). Clauses see it as a list of bytes.
///
/// A name of UTF-8 is printed as it is, and another as `0x` and its bytes in hexadecimal, with
/// lower case letters.
#[derive(Drop)]
pub struct RawSymbolName<'a> {
    bytes: &'a [u8],
}

impl<'a> Model for RawSymbolName<'a> {
    ghost use Rattle.std.specs.Prelude.{ℕ, List};

    ghost Value = { List ℕ };

    ghost view = { λ n. n.bytes.now };
}

impl<'a> RawSymbolName<'a> {
    /// The name of these bytes. Each list of bytes is a name.
    pub fn parse(bytes: &'a [u8]) -> Self
        ensures { result ≡ bytes.now }
    {
        RawSymbolName { bytes }
    }

    /// The bytes as they are.
    pub fn name(&self) -> &'a [u8]
        ensures { result.now ≡ self.now }
    {
        self.bytes
    }

    /// The version that the name asks for: none, since no name has one.
    pub fn version_name(&self) -> Option<&'a [u8]>
        ensures { result ≡ None }
    {
        None
    }

    /// Whether it is the default version of the name: it is, since it is the only one.
    pub fn is_default(&self) -> bool
        ensures { result ≡ true }
    {
        true
    }
}

/// Writes bytes in hexadecimal.
fn write_hex<W: fmt::Write>(bytes: &[u8], f: &mut fmt::Formatter<W>) -> fmt::Result
    ensures { WritesOnOk W.write_str_gives f.old result (encode_lower bytes.now) f.new }
{
    for byte in bytes {
        write!(f, "{byte:02x}")?;
    }
    Ok(())
}

impl<'a> fmt::Display for RawSymbolName<'a> {
    ghost use Rattle.std.specs.Prelude.{Some};
    ghost use Rattle.wl_linking.specs.RawNames.{shown_name};

    ghost output = { λ name. Some (shown_name name) };

    fn fmt<W: fmt::Write>(&self, f: &mut fmt::Formatter<W>) -> fmt::Result {
        match str::from_utf8(self.bytes) {
            Ok(name) => f.write_str(name),
            Err(_) => {
                f.write_str("0x")?;
                write_hex(self.bytes, f)
            }
        }
    }
}
