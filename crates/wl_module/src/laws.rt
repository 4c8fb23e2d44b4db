//! What callers may count on: functions with an empty body, each of which states a law of what the
//! sections spell.

ghost use Rattle.std.specs.Prelude.{Bool};
ghost use Rattle.wl_bytes.specs.Lists.{AreFew};
ghost use Rattle.wl_module.specs.Bodies.{AreIndices, AreBodies};
ghost use Rattle.wl_module.specs.Exports.{AreExports};
ghost use Rattle.wl_module.specs.Globals.{AreGlobals};
ghost use Rattle.wl_module.specs.Imports.{ArePlacedImports, AreImports};
ghost use Rattle.wl_module.specs.Memories.{AreMemories};
ghost use Rattle.wl_module.specs.Places.{PartsStand, ImportStands, PlacedImportStands, ExportStands, GlobalStands, BodyStands, SegmentStands, TargetedStands};
ghost use Rattle.wl_module.specs.Sections.{Framed};
ghost use Rattle.wl_module.specs.Segments.{AreTargeted, AreSegments};
ghost use Rattle.wl_module.specs.Types.{AreTypes};

/// Each list has at most as many items as there are bytes.
pub fn lists_are_few()
    ensures sections { AreFew Framed }
    ensures types { AreFew AreTypes }
    ensures imports { AreFew AreImports }
    ensures placed_imports { AreFew ArePlacedImports }
    ensures functions { AreFew AreIndices }
    ensures memories { (imported : Bool) → AreFew (AreMemories imported) }
    ensures globals { AreFew AreGlobals }
    ensures exports { AreFew AreExports }
    ensures bodies { AreFew AreBodies }
    ensures segments { AreFew AreSegments }
    ensures targeted_segments { AreFew AreTargeted }
{}

/// The names of imports and exports, the expressions of globals, bodies, and the bytes of segments
/// stand in the payload that spells them: those that give their place at that place. A segment
/// ends with its bytes.
pub fn parts_stand()
    ensures imports { PartsStand ImportStands AreImports }
    ensures placed_imports { PartsStand PlacedImportStands ArePlacedImports }
    ensures exports { PartsStand ExportStands AreExports }
    ensures globals { PartsStand GlobalStands AreGlobals }
    ensures bodies { PartsStand BodyStands AreBodies }
    ensures segments { PartsStand SegmentStands AreSegments }
    ensures targeted_segments { PartsStand TargetedStands AreTargeted }
{}
