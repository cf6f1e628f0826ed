//! Schedules.

ghost use Rattle.std.specs.Prelude.{◌≡◌};
ghost use Rattle.tile_sched.specs.Schedules.{rows_of};

use affine_form::Form;
use std::marker::Model;

/// A key of a statement: a form over the parameters and the loops around the statement, and a divisor. At an instance
/// it says the form's value over the divisor, rounded down.
#[derive(Debug, Drop)]
pub struct Key {
    pub form: Form,
    pub divisor: u32,
}

/// A schedule: for each statement of a program its keys, which say the place of the statement's instances.
#[derive(Debug, Drop)]
pub struct Schedule {
    keys: Vec<Vec<Key>>,
}

impl Model for Schedule {
    ghost use Rattle.std.specs.Prelude.{List};
    ghost use Rattle.tile_sched.specs.declared.schedule.Key.{Key};
    ghost use Rattle.tile_sched.specs.Schedules.{rows_of};

    ghost Value = { List (List Key) };

    ghost view = { λ schedule. rows_of schedule.keys.items };
}

impl Schedule {
    /// The schedule of these keys for each statement.
    pub(crate) fn new(keys: Vec<Vec<Key>>) -> Schedule
        ensures { result ≡ rows_of keys.items }
    {
        Schedule { keys }
    }

    /// For each statement its keys.
    pub fn keys(&self) -> &[Vec<Key>]
        ensures { rows_of result.now ≡ self.now }
    {
        self.keys.as_slice()
    }
}
