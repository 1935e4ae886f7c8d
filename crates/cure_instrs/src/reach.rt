//! The numbers of the checks of a use of a type.
ghost use Rattle.std.specs.Prelude.{◌≡◌, ◌+◌, ◌≤◌};
ghost use Rattle.cure_rules.specs.Known.{reach_by, reach_of, source_size, cured_size, last_function};
ghost use Rattle.cure_rules.specs.Checks.{size_at, wild_numbers};
ghost use Rattle.cure_scope.specs.Scopes.{seat, whole_of, world_of};

use cc_base::{Kind, TypeId};
use check_forms::{Fixed, WildNumbers};
use cure_scope::{EIGHT, LAST, SEVEN, SIZE, Scope};

/// The bytes of a type; of one that isn't complete none.
pub fn source_size(k: &Scope<'_>, t: TypeId) -> u64
    ensures { result ≡ source_size (whole_of k.now) t }
{
    let types = k.layouts.types();
    if t.0 < types.count() {
        if types.is_complete(t) {
            return types.size_of(t);
        }
    }
    0
}

/// The bytes that an object of a type takes once cured; of one that isn't complete none.
pub fn cured_size(k: &Scope<'_>, t: TypeId) -> u64
    ensures { result ≡ cured_size (whole_of k.now) t }
{
    let types = k.layouts.types();
    if t.0 < types.count() {
        if types.is_complete(t) {
            return k.layouts.cured_size(t);
        }
    }
    0
}

/// The bytes that a use of a kind reaches.
pub fn reach_of(k: &Scope<'_>, kind: Kind, t: TypeId) -> u64
    ensures { result ≡ reach_of (world_of k.now) kind t }
{
    match kind {
        Kind::Wild => source_size(k, t),
        Kind::Safe | Kind::Seq | Kind::Rtti => cured_size(k, t),
    }
}

/// That number, in its slot.
pub fn size_at(k: &Scope<'_>, kind: Kind, t: TypeId) -> Fixed
    ensures { result ≡ size_at (world_of k.now) seat kind t }
{
    Fixed {
        slot: SIZE,
        value: reach_of(k, kind, t),
    }
}

/// What WILD pointers are compared with.
pub fn wild_numbers(k: &Scope<'_>) -> WildNumbers
    ensures { result ≡ wild_numbers (world_of k.now) seat }
{
    WildNumbers {
        seven: SEVEN,
        eight: EIGHT,
        last: Fixed {
            slot: LAST,
            value: 8 * (u64::from(k.functions) + 1),
        },
    }
}
