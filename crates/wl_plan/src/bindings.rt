//! What the references of a link are bound to, what the linker makes for them, and what is called
//! at the start.

use wl_bind::{LinkerDefinedIndices, RelocScan, SharedUnresolvedImports, TypeMerger};
use wl_ctors::InitCall;
use wl_lists::ItemList;
use wl_module::FuncType;

/// What the references of a link are bound to, what the linker makes for them, and what is called
/// at the start.
#[derive(Drop)]
pub(crate) struct Bindings<'a> {
    /// What kept relocations ask for.
    pub(crate) scan: RelocScan<'a>,
    /// The types of the stubs, in order.
    pub(crate) stubs: ItemList<FuncType>,
    /// What the host is asked for.
    pub(crate) shared: SharedUnresolvedImports<'a>,
    /// Where the things that the linker makes stand in the spaces of the output.
    pub(crate) indices: LinkerDefinedIndices,
    /// The types of the output.
    pub(crate) types: TypeMerger,
    /// What is called at the start, in order.
    pub(crate) calls: ItemList<InitCall>,
}
