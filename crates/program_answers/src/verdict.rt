//! How a run of the program ends.
ghost use Rattle.std.specs.Prelude.{◌≡◌};
ghost use Rattle.program_answers.specs.Verdicts.{status_of, verdict_of_cured_fault, verdict_of_fault, verdict_of_run};

use cc_base::{Check, Fault, FnId, Limit, Place, Rule};
use cured_machine::Ending;
use cured_reading::{CuredFault, CuredLimit, Form};

/// How a run of the program ends, as its report and its status say.
#[derive(Clone, Copy, Debug, PartialEq, Eq)]
pub enum Verdict {
    /// All that was asked for was written.
    Done,
    /// The file's program ended with this status.
    Exited(u8),
    /// A check stopped the file's program at a place.
    Stopped(Check, Place),
    /// The words are no command.
    Usage,
    /// The file could not be read.
    FileFault,
    /// The file's text of C breaks a rule.
    Refused(Place, Rule),
    /// A read of the input failed.
    InputFault,
    /// A write to the output failed.
    OutputFault,
    /// The run had no turn left.
    OutOfTurns,
    /// The file has more than so many bytes.
    TextTooLong(u64),
    /// The file's text of C passes a limit.
    LimitPassed(Place, Limit),
    /// The file's cured text passes a limit, at this line.
    CuredLimitPassed(u32, CuredLimit),
    /// Memory was wanted and is not there.
    NoMemory,
    /// The file's text is no cured program, by this line.
    NotCured(u32, Form),
    /// The file's cured program did in this function what has no meaning.
    Trapped(FnId),
}

impl Verdict {
    /// The status that the program ends with where the report could be written.
    pub fn status(self) -> u8
        ensures { result ≡ status_of self }
    {
        match self {
            Verdict::Done | Verdict::Exited(_) => 0,
            Verdict::Stopped(_, _) => 1,
            Verdict::Usage => 2,
            Verdict::FileFault => 3,
            Verdict::Refused(_, _) => 4,
            Verdict::InputFault => 5,
            Verdict::OutputFault => 6,
            Verdict::OutOfTurns => 7,
            Verdict::TextTooLong(_)
            | Verdict::LimitPassed(_, _)
            | Verdict::CuredLimitPassed(_, _) => 8,
            Verdict::NoMemory => 9,
            Verdict::NotCured(_, _) => 10,
            Verdict::Trapped(_) => 11,
        }
    }

    /// How a fault of a text of C is reported.
    pub fn of_fault(fault: Fault) -> Verdict
        ensures { result ≡ verdict_of_fault fault }
    {
        match fault {
            Fault::Refused { place, rule } => Verdict::Refused(place, rule),
            Fault::TooLarge { place, limit } => Verdict::LimitPassed(place, limit),
            Fault::NoMemory => Verdict::NoMemory,
        }
    }

    /// How a fault of a cured text is reported.
    pub fn of_cured_fault(fault: CuredFault) -> Verdict
        ensures { result ≡ verdict_of_cured_fault fault }
    {
        match fault {
            CuredFault::Form { line, fault } => Verdict::NotCured(line, fault),
            CuredFault::TooLarge { line, name } => Verdict::CuredLimitPassed(line, name),
            CuredFault::NoMemory => Verdict::NoMemory,
        }
    }

    /// How the ending of a run is reported.
    pub fn of_run(ending: Ending) -> Verdict
        ensures { result ≡ verdict_of_run ending }
    {
        match ending {
            Ending::Exited(status) => Verdict::Exited(status),
            Ending::Stopped(check, place) => Verdict::Stopped(check, place),
            Ending::Turns => Verdict::OutOfTurns,
            Ending::Trap(function) => Verdict::Trapped(function),
            Ending::ReadFault => Verdict::InputFault,
            Ending::WriteFault => Verdict::OutputFault,
        }
    }
}
