//! What each construct asks for besides its rules: that not too many values are held at once.
#![tactic(auto)]

ghost use Rattle.std.specs.Prelude.{◌≡◌, ◌<◌, ◌≤◌, [], ◌∷◌, IfOk, IfErr};
ghost use Rattle.cc_base.specs.declared.fault.Fault.TheVariants.{TooLarge};
ghost use Rattle.cc_base.specs.declared.fault.Limit.TheVariants.{Held};
ghost use Rattle.c_typing.specs.Held.{held_with};

use cc_base::{Fault, Limit, Place};

/// The most values that an expression may hold at once.
const MOST_HELD: u64 = 256;

/// How many values an expression holds at once, where they are not too many. The place is that of its first token.
pub fn holding(at: Place, held: u64) -> Result<u32, Fault>
    ensures ok { IfOk result (λ h. (h ≡ held) × (held ≤ 256)) }
    ensures err { IfErr result (λ fault. (fault ≡ TooLarge at Held) × (256 < held)) }
{
    if held > MOST_HELD {
        return Err(Fault::TooLarge {
            place: at,
            limit: Limit::Held,
        });
    }
    Ok(held as u32)
}

/// What an expression holds whose one operand holds so many.
pub fn held_with_one(a: u32) -> u64
    ensures { result ≡ held_with 0 (a ∷ []) }
{
    u64::from(a).max(2)
}

/// What an expression holds whose two operands hold so many.
pub fn held_with_two(a: u32, b: u32) -> u64
    ensures { result ≡ held_with 0 (a ∷ b ∷ []) }
{
    u64::from(a).max((u64::from(b) + 1).max(3))
}

/// What an expression holds whose three operands hold so many.
pub fn held_with_three(a: u32, b: u32, c: u32) -> u64
    ensures { result ≡ held_with 0 (a ∷ b ∷ c ∷ []) }
{
    u64::from(a).max((u64::from(b) + 1).max((u64::from(c) + 2).max(4)))
}
