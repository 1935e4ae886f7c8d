//! The width of a pointer of each kind.
#![tactic(auto)]

ghost use Rattle.std.specs.Prelude.{◌≡◌};
ghost use Rattle.c_types.specs.Widths.{kind_width};

use cc_base::Kind;

/// The bytes of a pointer of a kind (CCured, TOPLAS 2005): of SAFE an address; of SEQ also the start and the end of its
/// part; of RTTI also a type node; of WILD also the base of its area. Takes no memory.
pub fn width(kind: Kind) -> u64
    ensures { result ≡ kind_width kind }
{
    match kind {
        Kind::Safe => 8,
        Kind::Seq => 24,
        Kind::Rtti => 16,
        Kind::Wild => 16,
    }
}
