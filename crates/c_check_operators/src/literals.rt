//! String literals (C99 6.4.5).
#![tactic(auto)]

ghost use Rattle.std.specs.Prelude.{◌≡◌, IfOk};
ghost use Rattle.c_tree.specs.Literals.{pieces_bytes};
ghost use Rattle.c_tree.specs.Places.{pieces_place};
ghost use Rattle.c_typing.specs.Assignments as assignments;
ghost use Rattle.c_typing.specs.Growing.{Grows};
ghost use Rattle.c_typing.specs.Judging.{Answers, known};
ghost use Rattle.c_typing.specs.OperandViews.{operand_view};

use c_tree::{Boxed, StringPiece, TypedPlace, copied_pieces, pieces_bytes};
use c_types::{TypeShape, Types};
use c_typing::operand::{Operand, Part};
use c_typing::scope::Scope;
use c_typing::stops::no_room;
use c_typing::typing::type_with;
use cc_base::{Fault, Limit, NoMemory, Place, TypeId};
use std::alloc::Global;

/// `char`.
const CHAR: TypeId = TypeId(1);

/// Where a literal begins.
fn pieces_place(pieces: &[StringPiece]) -> Place
    ensures { result ≡ pieces_place pieces.now }
{
    match pieces.split_first() {
        Some((piece, _)) => piece.place,
        None => Place { line: 1, col: 1 },
    }
}

/// The type of a literal with so many bytes, the zero byte among them.
#[tactic(auto, unfolding(c_typing::specs::Assignments::string_type))]
fn string_type(scope: &Scope, types: &mut Types, at: Place, count: u64) -> Result<TypeId, Fault>
    ensures answers { Answers (λ t. t) (assignments.string_type at count
        (known types.old scope.now)) result (known types.new scope.now) }
    ensures grows { Grows (known types.old scope.now) (known types.new scope.now) }
{
    if CHAR.0 >= types.count() || !types.is_complete(CHAR) || count == 0 {
        return Err(no_room(at));
    }
    type_with(scope, types, at, TypeShape::Array(CHAR, count))
}

/// Counts the bytes of a static object, and 16 more.
#[tactic(auto, using(c_typing::proofs::GrowingLaws::grown), unfolding(c_typing::specs::Assignments::count_global))]
pub fn count_global(scope: &mut Scope, types: &Types, at: Place, bytes: u64) -> Result<u64, Fault>
    ensures answers { Answers (λ n. n) (assignments.count_global at bytes
        (known types.now scope.old)) result (known types.now scope.new) }
    ensures grows { Grows (known types.now scope.old) (known types.now scope.new) }
{
    if !scope.add_global(bytes) {
        return Err(Fault::TooLarge {
            place: at,
            limit: Limit::Globals,
        });
    }
    Ok(bytes)
}

/// The number of bytes of a literal, the zero byte among them.
fn literal_size(alloc: Global, pieces: &[StringPiece]) -> Result<u64, NoMemory>
    ensures { IfOk result (λ n. n ≡ assignments.literal_size pieces.now) }
{
    let bytes = pieces_bytes(alloc, pieces)?;
    Ok(bytes.len() as u64 + 1)
}

/// Adjacent string literals (C99 6.4.5).
#[tactic(auto, using(c_tree::proofs::TypedViewLaws::typed_views), unfolding(c_typing::specs::Assignments::literal, c_typing::specs::Operations::leaf, c_typing::specs::Judging::new_node))]
pub fn literal(
    scope: &mut Scope,
    types: &mut Types,
    pieces: &[StringPiece],
) -> Result<Operand, Fault>
    ensures answers { Answers operand_view (assignments.literal pieces.now
        (known types.old scope.old)) result (known types.new scope.new) }
    ensures grows { Grows (known types.old scope.old) (known types.new scope.new) }
{
    let alloc = scope.alloc();
    let place = pieces_place(pieces);
    let size = literal_size(alloc, pieces)?;
    let Some(node) = scope.new_node() else {
        return Err(no_room(place));
    };
    let t = string_type(scope, types, place, size)?;
    let _counted = count_global(scope, types, place, size)?;
    let pieces = copied_pieces(alloc, pieces)?;
    Ok(Operand {
        part: Part::Place(Boxed::new(scope.alloc(), TypedPlace::String(pieces, node, t))?),
        place,
        held: 1,
    })
}
