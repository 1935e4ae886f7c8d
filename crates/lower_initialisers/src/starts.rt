//! Where the initialiser of an item begins: the place of its first token.
ghost use Rattle.std.specs.Prelude.{◌≡◌};
ghost use Rattle.c_tree.specs.Places.{pieces_place};
ghost use Rattle.c_tree.specs.TypedParts.{first_place, first_place_of_place, item_place};
ghost use Rattle.c_tree.specs.TypedViews.{typed_expr_view, typed_place_view};
ghost use Rattle.c_tree.specs.TypedStatementViews.{typed_initialiser_view};

use c_tree::{StringPiece, TypedExpr, TypedInitialiser, TypedPlace};
use cc_base::Place;

/// The place of the first literal.
fn pieces_place(pieces: &[StringPiece]) -> Place
    ensures { result ≡ pieces_place pieces.now }
{
    match pieces.split_first() {
        Some((piece, _)) => piece.place,
        None => Place { line: 1, col: 1 },
    }
}

/// The place of the first token of a place.
#[cycle(starts)]
fn place_start(p: &TypedPlace) -> Place
    ensures { result ≡ first_place_of_place (typed_place_view p.now) }
{
    match p {
        TypedPlace::Variable(name, _, _) => name.place,
        TypedPlace::String(pieces, _, _) => pieces_place(pieces.as_slice()),
        TypedPlace::ParenPlace(at, _) => *at,
        TypedPlace::Target(at, _, _) => *at,
        TypedPlace::Element(_, a, _, _, _) => expr_start(a.get()),
        TypedPlace::Member(p, _, _, _, _, _) => place_start(p.get()),
        TypedPlace::MemberAt(e, _, _, _, _, _) => expr_start(e.get()),
        TypedPlace::StructAssign(p, _, _) => place_start(p.get()),
        TypedPlace::StructConditional(c, _, _, _) => expr_start(c.get()),
        TypedPlace::StructComma(e, _) => expr_start(e.get()),
    }
}

/// The place of the first token of an expression.
#[cycle(starts)]
fn expr_start(e: &TypedExpr) -> Place
    ensures { result ≡ first_place (typed_expr_view e.now) }
{
    match e {
        TypedExpr::Integer(_, _, at, _) => *at,
        TypedExpr::Character(_, at, _) => *at,
        TypedExpr::Enumerator(name, _, _) => name.get().place,
        TypedExpr::FunctionName(name, _, _, _) => name.place,
        TypedExpr::RuntimeName(name, _, _) => name.place,
        TypedExpr::Paren(at, _) => *at,
        TypedExpr::Read(p) => place_start(p.get()),
        TypedExpr::Unread(p) => place_start(p.get()),
        TypedExpr::Decay(p, _, _) => place_start(p.get()),
        TypedExpr::Convert(_, _, _, e) => expr_start(e.get()),
        TypedExpr::Cast(_, at, _, _) => *at,
        TypedExpr::AddressOf(at, _, _, _) => *at,
        TypedExpr::AddressOfElement(at, _, _) => *at,
        TypedExpr::AddressOfFunction(at, _) => *at,
        TypedExpr::FunctionAt(at, _) => *at,
        TypedExpr::Prefix(_, at, _, _) => *at,
        TypedExpr::SizeOfPlace(at, _, _, _) => *at,
        TypedExpr::SizeOfValue(at, _, _, _) => *at,
        TypedExpr::SizeOfType(at, _, _, _, _) => *at,
        TypedExpr::StepBefore(_, at, _) => *at,
        TypedExpr::StepAfter(p, _, _) => place_start(p.get()),
        TypedExpr::Arithmetic(_, a, _, _, _) => expr_start(a.get()),
        TypedExpr::Moved(_, _, a, _, _, _) => expr_start(a.get()),
        TypedExpr::Difference(a, _, _, _) => expr_start(a.get()),
        TypedExpr::Compared(_, a, _, _, _) => expr_start(a.get()),
        TypedExpr::Logical(_, a, _, _, _) => expr_start(a.get()),
        TypedExpr::Conditional(c, _, _, _, _) => expr_start(c.get()),
        TypedExpr::PointerConditional(c, _, _, _, _, _) => expr_start(c.get()),
        TypedExpr::Comma(a, _) => expr_start(a.get()),
        TypedExpr::Assign(p, _, _) => place_start(p.get()),
        TypedExpr::AssignWith(_, p, _, _, _) => place_start(p.get()),
        TypedExpr::Call(f, _, _, _) => expr_start(f.get()),
        TypedExpr::CallRuntime(_, f, _, _, _) => expr_start(f.get()),
        TypedExpr::Allocate(_, f, _, _, _, _) => expr_start(f.get()),
        TypedExpr::AllocateFor(_, f, _, _, _) => expr_start(f.get()),
    }
}

/// The place of the first token of an item's initialiser.
#[tactic(auto, using(c_tree::proofs::TypedStatementViewLaws::typed_statement_views))]
pub(crate) fn item_place(i: &TypedInitialiser) -> Place
    ensures { result ≡ item_place (typed_initialiser_view i.now) }
{
    match i {
        TypedInitialiser::Value(e) => expr_start(e),
        TypedInitialiser::Copied(p, _) => place_start(p),
        TypedInitialiser::Text(pieces, _) => pieces_place(pieces.as_slice()),
        TypedInitialiser::Listed(brace, _, _, _) => *brace,
    }
}
