//! Why units are kept, as a list of steps.

ghost use Rattle.std.specs.Prelude.{◌≡◌};
ghost use Rattle.wl_why.specs.Certificate.{step_unit};

use std::marker::Model;
use wl_symbols::{LinkUnit, WasmGcUnit};

/// A unit that is kept, and the place of the step whose unit refers to it.
#[derive(Clone, Copy, PartialEq, Eq)]
pub struct Step {
    /// The number of the object.
    pub object: usize,
    /// Which of its units.
    pub unit: WasmGcUnit,
    /// The place of another step. None where the unit is kept by itself, or nothing is left out.
    pub from: Option<u64>,
}

impl Step {
    /// The unit of the step.
    pub(crate) fn link_unit(self) -> LinkUnit
        ensures { result ≡ step_unit self }
    {
        LinkUnit {
            object: self.object,
            unit: self.unit,
        }
    }
}

/// A list of steps, of any length, valid or not. Clauses see it as the list.
#[derive(Drop)]
pub struct Certificate {
    steps: Vec<Step>,
}

impl Model for Certificate {
    ghost use Rattle.std.specs.Prelude.{List};
    ghost use Rattle.wl_why.specs.declared.certificate.Step.{Step as StepRecord};

    ghost Value = { List StepRecord };

    ghost view = { λ c. c.steps.items };
}

impl Certificate {
    /// A certificate of these steps.
    pub fn new(steps: Vec<Step>) -> Self
        ensures { result ≡ steps.items }
    {
        Certificate { steps }
    }

    /// The steps in order.
    pub fn as_slice(&self) -> &[Step]
        ensures { result.now ≡ self.now }
    {
        &self.steps
    }
}
