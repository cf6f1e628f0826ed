//! Faults of schedules' texts.

ghost use Rattle.tile_sched.specs.Texts.{IsAs};

use claims::Place;
use json_parts::CertError;

/// A fault of a schedule's text: its number, and the place of the value at fault.
#[derive(Debug, Drop)]
pub struct SchedFault {
    pub number: u8,
    pub place: Place,
}

/// Why a schedule's text wasn't read.
#[derive(Debug, Drop)]
pub enum SchedError {
    /// The text has a fault.
    Fault(SchedFault),
    /// There was no memory for the schedule.
    Memory,
}

/// An error of a reader, as one of a schedule's text.
pub(crate) fn schedule_error(error: CertError) -> SchedError
    ensures { IsAs error result }
{
    match error {
        CertError::Fault(fault) => SchedError::Fault(SchedFault {
            number: fault.number,
            place: fault.place,
        }),
        CertError::Memory => SchedError::Memory,
    }
}
