//! That the calls are fixed by the link and what is kept.

ghost use Rattle.std.specs.Prelude.{◌≡◌, List};
ghost use Rattle.wl_symbols.specs.Input.{Input};
ghost use Rattle.wl_ctors.specs.InitCalls.{AreInitCalls};
ghost use Rattle.wl_ctors.specs.declared.calls.InitCall.{InitCall as Call};

use wl_bind::entries_stand_once;

/// The calls are one list.
pub fn init_calls_are_one()
    ensures { (input : Input) (a b : List Call)
        → AreInitCalls input a → AreInitCalls input b → a ≡ b }
{
    entries_stand_once();
}
