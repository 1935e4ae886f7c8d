//! What is kept beside what is made of it.
ghost use Rattle.std.specs.Prelude.{◌≡◌, IfOk, Ok};

use cc_base::NoMemory;

/// What is kept, with what was made of it. Where that could not be made, it is let go.
pub(crate) fn beside<T: Drop, U: Drop>(
    kept: T,
    made: Result<U, NoMemory>,
) -> Result<(T, U), NoMemory>
    ensures kept { IfOk result (λ both. both.0 ≡ kept) }
    ensures made { IfOk result (λ both. made ≡ Ok both.1) }
{
    match made {
        Ok(made) => Ok((kept, made)),
        Err(want) => Err(want),
    }
}
