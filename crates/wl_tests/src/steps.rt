//! Steps under a ledger of a test's own.

ghost use Rattle.std.specs.Prelude.{◌≡◌, ◌<◌};

use std::marker::Brand;
use std::sync::ledger::{Blank, Ledger};
use std::test::Fail;
use wl_steps::Steps;

/// How many bytes two steps take, counted under any ledger.
fn bytes_of_two_steps<L: Ledger>(blank: Blank) -> usize
    requires name { blank.name ≡ L.name }
    requires parts { blank.parts ≡ L.parts }
    requires some { 0 < blank.parts }
{
    let mut steps = Steps::<L>::start(blank);
    steps.tick();
    steps.tick();
    size_of_val(&steps)
}

#[test]
fn steps_take_no_bytes(rt: HostRuntime) -> Result<(), Fail> {
    assert_eq!(&rt; bytes_of_two_steps::<Brand>(Blank::new(1)), 0);
    Ok(())
}
