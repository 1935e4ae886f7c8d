//! What is wrong with a text.
ghost use Rattle.std.specs.Prelude.{◌<◌, ◌≡◌};
ghost use Rattle.cured_reading.specs.Refusals.{fault_at};

use cc_base::NoMemory;
use std::alloc::{AllocError, AllocFailed};
use thiserror::Error;

/// What is wrong with a line of cured text, other than that a limit is passed.
#[derive(Clone, Copy, Debug, PartialEq, Eq)]
pub enum Form {
    /// The line has none of the forms that may stand there, or the text ends early or goes on too long.
    Syntax,
    /// The first line gives a version that is not known.
    Version,
    /// A number is out of its range.
    Range,
}

/// The limits of a cured program.
#[derive(Clone, Copy, Debug, PartialEq, Eq)]
pub enum CuredLimit {
    /// 65,536 signatures.
    Sigs,
    /// 65,536 type nodes.
    Nodes,
    /// 1,048,576 globals.
    Globals,
    /// 12,582,912 bytes of globals.
    Bytes,
    /// 65,536 functions.
    Functions,
    /// 2,048 slots of a function.
    Slots,
    /// 1,048,576 areas of a function's frame.
    Locals,
    /// 3,145,728 bytes of an area of a frame.
    LocalBytes,
    /// 1,024 parts nested in one another.
    Nest,
}

/// Why a text is no cured program: at the first line that fails.
#[derive(Clone, Copy, Debug, PartialEq, Eq, Error)]
pub enum CuredFault {
    /// The line is wrong by its form, its version or a number's range.
    #[error("a wrong line")]
    Form { line: u32, fault: Form },
    /// The line passes a limit.
    #[error("a limit")]
    TooLarge { line: u32, name: CuredLimit },
    /// Memory was wanted and is not there.
    #[error("no memory")]
    NoMemory,
}

/// What is wrong where the text is read.
#[derive(Clone, Copy)]
pub(crate) enum Wrong {
    /// The line after the last one that was read does not come, or should not.
    Next,
    /// The last line that was read.
    Form(Form),
    TooLarge(CuredLimit),
    NoMemory,
}

impl Wrong {
    /// As a fault of the text, of which so many lines were read.
    pub(crate) fn at(self, line: u32) -> CuredFault
        requires { line < 4294967295 }
        ensures { result ≡ fault_at self line }
    {
        match self {
            Wrong::Next => CuredFault::Form {
                line: line + 1,
                fault: Form::Syntax,
            },
            Wrong::Form(fault) => CuredFault::Form { line, fault },
            Wrong::TooLarge(name) => CuredFault::TooLarge { line, name },
            Wrong::NoMemory => CuredFault::NoMemory,
        }
    }
}

impl From<AllocError> for Wrong {
    ghost use Rattle.std.specs.Prelude.{◌≡◌};
    ghost use Rattle.cured_reading.specs.declared.wrong.Wrong.TheVariants.{NoMemory as IsNoMemory};

    ghost from_gives = { λ _ why. why ≡ IsNoMemory };

    fn from(_error: AllocError) -> Wrong {
        Wrong::NoMemory
    }
}

impl<T: Drop> From<AllocFailed<T>> for Wrong {
    ghost use Rattle.std.specs.Prelude.{◌≡◌};
    ghost use Rattle.cured_reading.specs.declared.wrong.Wrong.TheVariants.{NoMemory as IsNoMemory};

    ghost from_gives = { λ _ why. why ≡ IsNoMemory };

    fn from(_error: AllocFailed<T>) -> Wrong {
        Wrong::NoMemory
    }
}

impl From<NoMemory> for Wrong {
    ghost use Rattle.std.specs.Prelude.{◌≡◌};
    ghost use Rattle.cured_reading.specs.declared.wrong.Wrong.TheVariants.{NoMemory as IsNoMemory};

    ghost from_gives = { λ _ why. why ≡ IsNoMemory };

    fn from(_error: NoMemory) -> Wrong {
        Wrong::NoMemory
    }
}

/// The line that was read last has not the form that it needs.
pub(crate) const SYNTAX: Wrong = Wrong::Form(Form::Syntax);

/// A number of it is out of its range.
pub(crate) const RANGE: Wrong = Wrong::Form(Form::Range);
