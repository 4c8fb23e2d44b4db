//! What callers may count on: functions with an empty body, each of which states a law of spaces.

ghost use Rattle.wl_symbols.specs.Input.{Input};
ghost use Rattle.wl_bind.specs.FunctionSpace.{function_space};
ghost use Rattle.wl_bind.specs.GlobalSpace.{global_space};
ghost use Rattle.wl_bind.specs.OutputTypes.{output_types};
ghost use Rattle.wl_bind.specs.Parts.{StandOnce};

use wl_types::types_stand_once;

/// No entry stands at two places of a space: so two kept definitions have different indices.
pub fn entries_stand_once()
    ensures functions { (input : Input) → StandOnce (function_space input) }
    ensures globals { (input : Input) → StandOnce (global_space input) }
    ensures types { (input : Input) → StandOnce (output_types input) }
{
    types_stand_once();
}
