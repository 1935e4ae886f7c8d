//! Why a table of types refuses a type.
#![tactic(auto)]

use cc_base::Limit;
use std::alloc::{AllocError, AllocFailed};
use thiserror::Error;

/// Why a type could not be added or defined.
#[derive(Clone, Copy, Debug, PartialEq, Eq, Error)]
pub enum TypeFault {
    /// The table would hold more than 16,384 types, or the type would have more than 1,048,576 bytes.
    #[error("the limit {0} would be passed")]
    TooLarge(Limit),
    /// Memory was wanted and is not there.
    #[error("no memory")]
    NoMemory,
}

impl From<cc_base::NoMemory> for TypeFault {
    ghost use Rattle.std.specs.Prelude.{◌≡◌};
    ghost use Rattle.c_types.specs.declared.fault.TypeFault.TheVariants.{NoMemory};

    ghost from_gives = { λ _ fault. fault ≡ NoMemory };

    fn from(_error: cc_base::NoMemory) -> TypeFault {
        TypeFault::NoMemory
    }
}

impl From<AllocError> for TypeFault {
    ghost use Rattle.std.specs.Prelude.{◌≡◌};
    ghost use Rattle.c_types.specs.declared.fault.TypeFault.TheVariants.{NoMemory};

    ghost from_gives = { λ _ fault. fault ≡ NoMemory };

    fn from(_error: AllocError) -> TypeFault {
        TypeFault::NoMemory
    }
}

impl<T: Drop> From<AllocFailed<T>> for TypeFault {
    ghost use Rattle.std.specs.Prelude.{◌≡◌};
    ghost use Rattle.c_types.specs.declared.fault.TypeFault.TheVariants.{NoMemory};

    ghost from_gives = { λ _ fault. fault ≡ NoMemory };

    fn from(_error: AllocFailed<T>) -> TypeFault {
        TypeFault::NoMemory
    }
}
