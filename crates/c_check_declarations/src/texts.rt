//! String literals that initialise arrays (C99 6.7.8).
#![tactic(auto)]

ghost use Rattle.std.specs.Prelude.{◌≡◌, [], ◌∷◌, ◌++◌, take, IfOk};
ghost use Rattle.c_tree.specs.TypedStatementViews.{typed_initialiser_view};
ghost use Rattle.c_check_context.specs.ContextViews.{state_of};
ghost use Rattle.c_unit_typing.specs.UnitJudging.{Answers};
ghost use Rattle.c_unit_typing.specs.InitialiserJudging as judging;

use c_check_context::Context;
use c_tree::{Boxed, Items, StringPiece, TypedInitialiser, copied_pieces, pieces_bytes};
use c_typing::stops::refusal;
use cc_base::{Fault, NoMemory, Place, Rule};

/// The bytes of a literal and its zero byte, as far as so many characters hold them.
fn with_zero(bytes: Vec<u8>, count: u64) -> Result<Vec<u8>, NoMemory>
    ensures { IfOk result (λ all. all.items ≡ take count (bytes.items ++ 0 ∷ [])) }
{
    let mut all = bytes;
    all.push(0)?;
    all.truncate(count as usize);
    Ok(all)
}

/// A literal that initialises an array of so many characters: its zero byte is stored where there is room for it.
#[tactic(auto, using(c_tree::proofs::TypedStatementViewLaws::typed_statement_views), unfolding(c_unit_typing::specs::InitialiserJudging::text))]
pub(crate) fn text(
    context: &mut Context,
    at: Place,
    count: u64,
    pieces: &[StringPiece],
) -> Result<Boxed<TypedInitialiser>, Fault>
    ensures { Answers typed_initialiser_view (judging.text at count pieces.now
        (state_of context.old)) result (state_of context.new) }
{
    let alloc = context.scope.alloc();
    let bytes = pieces_bytes(alloc, pieces)?;
    if count < bytes.len() as u64 {
        return Err(refusal(at, Rule::Mismatch));
    }
    let bytes = with_zero(bytes, count)?;
    let pieces = copied_pieces(alloc, pieces)?;
    let text = TypedInitialiser::Text(pieces, Items::from_vec(bytes));
    Ok(Boxed::new(alloc, text)?)
}
