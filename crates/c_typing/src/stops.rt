//! Why judging stops.
#![tactic(auto)]

ghost use Rattle.std.specs.Prelude.{◌≡◌};
ghost use Rattle.cc_base.specs.declared.fault.Fault.TheVariants.{Refused, TooLarge};
ghost use Rattle.cc_base.specs.declared.fault.Limit.TheVariants.{Types};

use cc_base::{Fault, Limit, Place, Rule};

/// A rule is broken at a place.
pub fn refusal(place: Place, rule: Rule) -> Fault
    ensures { result ≡ Refused place rule }
{
    Fault::Refused { place, rule }
}

/// There is no room for a type or a node.
pub fn no_room(place: Place) -> Fault
    ensures { result ≡ TooLarge place Types }
{
    Fault::TooLarge {
        place,
        limit: Limit::Types,
    }
}
