//! What the sections of an object hold.

use crate::parts::Parts;
use crate::sites::Site;
use std::marker::Model;
use wl_lists::ItemList;
use wl_module::SectionHeader;

/// What an object holds, whether or not it fits together: its bytes, what its sections hold, with
/// the names that symbols take and the relocations in order, and where their fields lie. Clauses
/// see it as an `Object`.
pub(crate) struct Contents<'a> {
    pub bytes: &'a [u8],
    pub sections: ItemList<SectionHeader>,
    pub parts: Parts<'a>,
    pub code_sites: ItemList<Site>,
    pub data_sites: ItemList<Site>,
}

impl<'a> Model for Contents<'a> {
    ghost use Rattle.wl_linking.specs.Object.{Object};

    ghost Value = { Object };

    ghost view = { λ c. record {
      bytes = c.bytes.now;
      sections = c.sections;
      types = c.parts.types;
      imports = c.parts.imports;
      functions = c.parts.functions;
      memories = c.parts.memories;
      globals = c.parts.globals;
      exports = c.parts.exports;
      data_counts = c.parts.data_counts;
      bodies = c.parts.bodies;
      segments = c.parts.segments;
      segment_memories = c.parts.segment_memories;
      segment_infos = c.parts.segment_infos;
      init_funcs = c.parts.init_funcs;
      symbols = c.parts.symbols;
      reloc_sections = c.parts.reloc_sections;
      features = c.parts.features;
      debug_sections = c.parts.debug_sections;
      code_relocations = c.parts.code_relocations;
      code_sites = c.code_sites;
      data_relocations = c.parts.data_relocations;
      data_sites = c.data_sites;
    } };
}

impl<'a> Drop for Contents<'a> {
    fn drop(self) {
        let Self {
            bytes: _,
            sections: _,
            parts: _,
            code_sites: _,
            data_sites: _,
        } = self;
    }
}
