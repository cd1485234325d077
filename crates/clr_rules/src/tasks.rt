//! The tasks of an order, as a command lists them.
ghost use Rattle.std.specs.Prelude.{◌≡◌, map};
ghost use Rattle.clr_order.specs.Step.{task};

use clr_order::Step;
use std::marker::Model;

/// The steps of an order as a command states them: what each does, and where. How far they have
/// come, and who read them, is no part of it.
#[derive(Debug, Drop)]
pub struct Tasks {
    steps: Vec<Step>,
}

impl Model for Tasks {
    ghost use Rattle.std.specs.Prelude.{List, map};
    ghost use Rattle.clr_order.specs.Step.{Task, task};

    ghost Value = { List Task };

    ghost view = { λ tasks. map task tasks.steps.items };
}

impl Tasks {
    pub fn new(steps: Vec<Step>) -> Tasks
        ensures { result ≡ map task steps.items }
    {
        Tasks { steps }
    }

    /// The steps. Nothing is known of their states and readers.
    pub fn as_slice(&self) -> &[Step]
        ensures { map task result.now ≡ self.now }
    {
        self.steps.as_slice()
    }
}
