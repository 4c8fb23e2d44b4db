//! Where the bytes that are read lie in their object.

ghost use Rattle.std.specs.Prelude.{◌≡◌, ◌+◌, ◌<◌, ◌^◌};
ghost use Rattle.wl_bytes.specs.declared.reader.TheConstants.{MAX_LEN};

/// How many bytes of an object lie before those that are read: so few that with any place after
/// them they make a `u32`.
#[derive(Clone, Copy)]
pub struct Base {
    /// Their number.
    pub before: u32,
    ghost fits: { before + MAX_LEN < 2 ^ 32 },
}

impl Base {
    /// So many bytes.
    pub(crate) fn new(before: u32) -> Self
        requires { before + MAX_LEN < 2 ^ 32 }
        ensures { result.before ≡ before }
    {
        Base { before }
    }
}
