//! Where a part begins, and what a declarator declares.
ghost use Rattle.std.specs.Prelude.{◌≡◌, option_map};
ghost use Rattle.c_tree.specs.Places.{nowhere, pieces_place, expr_place, initialiser_place};
ghost use Rattle.c_tree.specs.Views.{expr_view, declarator_view};
ghost use Rattle.c_tree.specs.StatementViews.{initialiser_view};
ghost use Rattle.c_tree.specs.Grammar.{declared_name};

use crate::expr::{Core, Declarator, Expr};
use crate::leaf::{Identifier, StringPiece};
use crate::statement::Initialiser;
use cc_base::Place;

/// The place of the first literal.
fn pieces_place(pieces: &[StringPiece]) -> Place
    ensures { result ≡ pieces_place pieces.now }
{
    match pieces.split_first() {
        Some((piece, _)) => piece.place,
        None => Place { line: 1, col: 1 },
    }
}

impl Expr {
    /// The place of its first token.
    #[tactic(auto, using(crate::proofs::ViewLaws::expr_views))]
    pub fn place(&self) -> Place
        ensures { result ≡ expr_place (expr_view self.now) }
    {
        match self {
            Expr::Name(name) => name.place,
            Expr::Integer(_, _, at) => *at,
            Expr::Character(_, at) => *at,
            Expr::String(pieces) => pieces_place(pieces.as_slice()),
            Expr::Paren(at, _) => *at,
            Expr::Index(e, _, _) => e.get().place(),
            Expr::Call(e, _, _) => e.get().place(),
            Expr::Member(e, _, _, _) => e.get().place(),
            Expr::Postfix(e, _, _) => e.get().place(),
            Expr::Prefix(_, at, _) => *at,
            Expr::SizeOfType(at, _, _) => *at,
            Expr::Cast(at, _, _) => *at,
            Expr::Infix(_, left, _, _) => left.get().place(),
            Expr::Conditional(test, _, _, _) => test.get().place(),
            Expr::Assign(_, left, _, _) => left.get().place(),
            Expr::Comma(left, _) => left.get().place(),
        }
    }
}

impl Initialiser {
    /// The place of its first token.
    #[tactic(auto, using(crate::proofs::StatementViewLaws::statement_views))]
    pub fn place(&self) -> Place
        ensures { result ≡ initialiser_place (initialiser_view self.now) }
    {
        match self {
            Initialiser::Value(e) => e.place(),
            Initialiser::Listed(brace, _, _) => *brace,
        }
    }
}

impl Declarator {
    /// The name that it declares.
    #[tactic(auto, using(crate::proofs::ViewLaws::expr_views))]
    pub fn name(&self) -> Option<&Identifier>
        ensures { option_map (λ name. name.now.bytes) result
            ≡ declared_name (declarator_view self.now) }
    {
        match &self.core {
            Core::Names(name) => Some(name),
            Core::Unnamed => None,
            Core::Nested(_, d) => d.get().name(),
        }
    }
}
