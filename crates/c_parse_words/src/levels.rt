//! What the next token says at a level of expressions (C99 6.5).
ghost use Rattle.std.specs.Prelude.{◌≡◌, ◌&&◌, ◌==◌, nat_le};
ghost use Rattle.c_tree.specs.Grammar.{level};
ghost use Rattle.c_tree.specs.Views.{expr_view};
ghost use Rattle.c_parse_words.specs.Levels as spec;
ghost use Rattle.c_parse_words.specs.Seen.{names_of, next_view, placed_view};
ghost use Rattle.c_parse_words.specs.Tests as tests;

use crate::begins::begins_specifier;
use crate::lookahead::{Placed, assignment_operator, is_comma, question_mark};
use crate::next::Next;
use crate::words::Scope;
use c_tree::{Assignment, Expr};
use cc_base::Place;
use indexmap::IndexSet;

/// Whether a type comes behind a `(`, where a cast may stand.
pub fn begins_cast(names: &IndexSet<Vec<u8>>, least: u8, next: Next<'_>) -> bool
    ensures { result ≡ spec.begins_cast (names_of names.now) least (next_view next.entry) }
{
    least <= 13 && begins_specifier(names, Scope::InType, next)
}

/// Whether the expression may stand to the left of an assignment operator: it is a unary one.
#[tactic(auto, using(c_tree::proofs::ViewLaws::expr_views))]
fn is_unary(e: &Expr) -> bool
    ensures { result ≡ nat_le 14 (level (expr_view e.now)) }
{
    !matches!(
        e,
        Expr::Cast(..)
            | Expr::Infix(..)
            | Expr::Conditional(..)
            | Expr::Assign(..)
            | Expr::Comma(..)
    )
}

/// The `?` that goes on, where a conditional may stand.
pub fn question_after(least: u8, next: Next<'_>) -> Option<Place>
    ensures { result ≡ spec.question_after least (next_view next.entry) }
{
    if least <= 2 {
        question_mark(next)
    } else {
        None
    }
}

/// The assignment operator that goes on from an expression, where an assignment may stand.
pub fn assignment_after(least: u8, left: &Expr, next: Next<'_>) -> Option<Placed<Assignment>>
    ensures { placed_view result ≡ spec.assignment_after least (expr_view left.now)
        (next_view next.entry) }
{
    if least <= 1 && is_unary(left) {
        assignment_operator(next)
    } else {
        None
    }
}

/// Whether a comma goes on, where a comma operator may stand.
pub fn comma_goes_on(least: u8, next: Next<'_>) -> bool
    ensures { result ≡ (least == 0 && tests.is_comma (next_view next.entry)) }
{
    least == 0 && is_comma(next)
}
