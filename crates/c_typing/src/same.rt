//! Which types are the same (C99 6.2.7).
#![tactic(auto)]

ghost use Rattle.std.specs.Prelude.{◌≡◌};
ghost use Rattle.c_types.specs.Sameness.{is_same_type};

use crate::shapes::{is_void, shape_at};
use c_types::Types;
use cc_base::TypeId;

/// Whether two types are the same. What is no type is read as `void`.
#[tactic(auto, using(crate::proofs::SameLaws::outside_left, crate::proofs::SameLaws::outside_right))]
pub fn is_same_type(types: &Types, t: TypeId, u: TypeId) -> bool
    ensures { result ≡ is_same_type types.now t u }
{
    let count = types.count();
    if t.0 < count && u.0 < count {
        types.is_same(t, u)
    } else {
        is_void(shape_at(types, t)) && is_void(shape_at(types, u))
    }
}
