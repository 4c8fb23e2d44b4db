//! The target features section: what an object uses of the machine that it is made for (tool
//! conventions, "Target Features Section").

ghost use Rattle.std.specs.Prelude.{◌≤◌, length};
ghost use Rattle.wl_bytes.specs.declared.reader.TheConstants.{MAX_LEN};
ghost use Rattle.wl_bytes.specs.Outcome.{ReadsWhole, AreAlternatives};
ghost use Rattle.wl_custom.specs.Features.{AreFeatures, FeaturesFault};

use std::alloc::Global;
use std::marker::Model;
use wl_bytes::{Item, ReadError, Reader, read_payload};

/// The prefix of a feature that the object uses.
pub const TARGET_FEATURE_PREFIX_USED: u8 = b'+';

/// The prefix of a feature that nothing linked with the object may use.
pub const TARGET_FEATURE_PREFIX_DISALLOWED: u8 = b'-';

/// A feature of the machine that an object uses or refuses (tool conventions, "Target Features
/// Section"). Clauses see it as a `Feature`, with its name as a list of bytes.
#[derive(Drop)]
pub struct WasmTargetFeature<'a> {
    /// [`TARGET_FEATURE_PREFIX_USED`] where the object uses it,
    /// [`TARGET_FEATURE_PREFIX_DISALLOWED`] where it can't be linked with one that does; any byte
    /// may stand there.
    pub prefix: u8,
    /// Its name.
    pub name: &'a str,
}

impl<'a> Model for WasmTargetFeature<'a> {
    ghost use Rattle.wl_custom.specs.Features.{Feature};

    ghost Value = { Feature };

    ghost view = { λ f. record { prefix = f.prefix; name = f.name.now } };
}

impl<'a> Item<'a> for WasmTargetFeature<'a> {
    ghost use Rattle.wl_custom.specs.Features.{feature_at};

    type Under = ();

    ghost item_at = { λ _. feature_at };

    #[tactic(auto, unfolding(crate::specs::Features::feature_at))]
    fn read(_alloc: Global, _under: &mut (), reader: &mut Reader<'a>) -> Result<Self, ReadError> {
        let prefix = reader.read_u8()?;
        let name = reader.read_name()?;
        Ok(WasmTargetFeature { prefix, name })
    }
}

/// Reads the payload of a target features section (tool conventions, "Target Features Section"):
/// the features in order, their names slices of the payload. No prefix is refused here.
///
/// # Errors
/// `Malformed` names the first thing at fault: `Truncated`, `BadLeb`, `BadUtf8`, or `Trailing` for
/// bytes after the list.
pub fn parse_target_features_payload(
    alloc: Global,
    payload: &[u8],
) -> Result<Vec<WasmTargetFeature<'_>>, ReadError>
    requires { length payload.now ≤ MAX_LEN }
    ensures { ReadsWhole (λ v. v.items) AreFeatures FeaturesFault payload.now result }
{
    read_payload(alloc, (), payload)
}

/// Each payload spells one list of features or has one fault, and never both.
pub fn features_or_fault()
    ensures { AreAlternatives AreFeatures FeaturesFault }
{}
