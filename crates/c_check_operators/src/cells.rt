//! The pointers that the assignment of a struct or union moves, and their count in a unit.
#![tactic(auto)]

ghost use Rattle.std.specs.Prelude.{◌≡◌};
ghost use Rattle.c_types.specs.PointerCounts.{pointers_in};
ghost use Rattle.c_typing.specs.Cells.{count_cells};
ghost use Rattle.c_typing.specs.Growing.{Grows};
ghost use Rattle.c_typing.specs.Judging.{Answers, known};

use c_types::Types;
use c_typing::Scope;
use cc_base::{Fault, Limit, Place, TypeId};

/// How many pointers an object of a type holds. What is no type holds none. It takes constant time.
#[tactic(auto, using(c_types::proofs::PointerCounts::pointers_outside))]
fn pointers_in(types: &Types, t: TypeId) -> u64
    ensures { result ≡ pointers_in types.now t }
{
    if t.0 < types.count() {
        types.pointers(t)
    } else {
        0
    }
}

/// The pointers that one assignment of a type moves are counted; the limit is named at the place.
#[tactic(auto, using(c_typing::proofs::GrowingLaws::grown), unfolding(c_typing::specs::Cells::count_cells))]
pub fn count_cells(scope: &mut Scope, types: &Types, at: Place, t: TypeId) -> Result<TypeId, Fault>
    ensures answers { Answers (λ t. t) (count_cells at t (known types.now scope.old)) result
        (known types.now scope.new) }
    ensures grows { Grows (known types.now scope.old) (known types.now scope.new) }
{
    if !scope.add_cells(pointers_in(types, t)) {
        return Err(Fault::TooLarge {
            place: at,
            limit: Limit::Cells,
        });
    }
    Ok(t)
}
