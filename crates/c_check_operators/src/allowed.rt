//! What each construct with one operand asks for: that no rule is broken, and that not too many values are held at once.
#![tactic(auto)]

ghost use Rattle.std.specs.Prelude.{◌≡◌, ◌<◌, ◌≤◌, ◌⊎◌, [], ◌∷◌, None, Some, IfOk, IfErr};
ghost use Rattle.cc_base.specs.declared.fault.Fault.TheVariants.{TooLarge};
ghost use Rattle.cc_base.specs.declared.fault.Limit.TheVariants.{Held};
ghost use Rattle.c_typing.specs.Held.{held_with};

use c_typing::construct::{held_with_one, holding};
use c_typing::operand::Operand;
use cc_base::{Fault, Place};

/// How many values a construct holds at once, where it breaks no rule. The place is that of its first token.
pub(crate) fn held_within(fault: Option<Fault>, begin: Place, held: u64) -> Result<u32, Fault>
    ensures ok { IfOk result (λ h. (fault ≡ None) × (h ≡ held) × (held ≤ 256)) }
    ensures err { IfErr result (λ f. (fault ≡ Some f)
        ⊎ ((fault ≡ None) × (256 < held) × (f ≡ TooLarge begin Held))) }
{
    match fault {
        Some(fault) => Err(fault),
        None => holding(begin, held),
    }
}

/// The operand of a construct that begins at the place, with what the construct holds, where it breaks no rule.
pub(crate) fn allowed(fault: Option<Fault>, begin: Place, x: Operand) -> Result<Operand, Fault>
    ensures ok { IfOk result (λ y. (fault ≡ None) × (y.part ≡ x.part)
        × (y.held ≡ held_with 0 (x.held ∷ [])) × (held_with 0 (x.held ∷ []) ≤ 256)) }
    ensures err { IfErr result (λ f. (fault ≡ Some f) ⊎ ((fault ≡ None)
        × (256 < held_with 0 (x.held ∷ [])) × (f ≡ TooLarge begin Held))) }
{
    let held = held_within(fault, begin, held_with_one(x.held))?;
    Ok(Operand {
        part: x.part,
        place: begin,
        held,
    })
}
