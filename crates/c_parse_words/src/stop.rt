//! Why a rule stops.
ghost use Rattle.std.specs.Prelude.{◌≡◌, if◌then◌else◌};
ghost use Rattle.c_parse_words.specs.declared.stop.Stop.TheVariants as stop;

use std::alloc::AllocError;

/// Why a rule stops. The cursor then stands at the token at which it does.
#[derive(Clone, Copy, Debug, PartialEq, Eq)]
pub enum Stop {
    /// The token goes on with no part.
    Syntax,
    /// The token begins a construct that the language leaves out.
    Unsupported,
    /// Each part that goes on with the token is too deep.
    Deep,
    NoMemory,
}

impl From<AllocError> for Stop {
    ghost use Rattle.std.specs.Prelude.{◌≡◌};
    ghost use Rattle.c_parse_words.specs.declared.stop.Stop.TheVariants.{NoMemory};

    ghost from_gives = { λ _ stop. stop ≡ NoMemory };

    fn from(_: AllocError) -> Stop {
        Stop::NoMemory
    }
}

/// Why a rule stops where no node is allowed: at a token that begins a part that is too deep, or at
/// any other.
pub fn too_deep(begins: bool) -> Stop
    ensures { result ≡ (if begins then stop.Deep else stop.Syntax) }
{
    if begins { Stop::Deep } else { Stop::Syntax }
}
