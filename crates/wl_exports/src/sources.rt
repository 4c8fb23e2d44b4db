//! What exports are made from.

use wl_bind::LinkerDefinedIndices;
use wl_features::FeatureList;
use wl_index::WasmObjectIndexMap;
use wl_symbols::LinkInput;
use wl_words::WasmArgs;

/// What exports are made from: the link, where its things stand, and the features that are used.
#[derive(Drop)]
pub struct ExportSources<'s, 'i, 'a> {
    /// The link, and what is kept of it.
    pub input: &'s LinkInput<'i, 'a>,
    /// The words.
    pub args: &'a WasmArgs,
    /// Where the things of each object stand.
    pub maps: &'s [WasmObjectIndexMap],
    /// Where the things that the linker makes stand, and what is exported as globals.
    pub indices: &'s LinkerDefinedIndices,
    /// The features that are used.
    pub features: &'s FeatureList<'a>,
}
