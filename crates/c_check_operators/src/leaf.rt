//! Constants (C99 6.4.4) and parentheses.
#![tactic(auto)]

ghost use Rattle.std.specs.Prelude.{◌≡◌, IfOk};
ghost use Rattle.c_typing.specs.Judging.{Answers, known};
ghost use Rattle.c_typing.specs.Operations as operations;
ghost use Rattle.c_typing.specs.OperandViews.{part_view, operand_view};

use c_lexer::IntegerType;
use c_tree::{Boxed, TypedExpr, TypedPlace};
use c_types::Types;
use c_typing::construct::{held_with_one, holding};
use c_typing::kind::constant_kind;
use c_typing::operand::{Operand, Part};
use c_typing::scope::Scope;
use c_typing::shapes::INT;
use cc_base::{Fault, NoMemory, Place};

/// An integer constant (C99 6.4.4.1).
#[tactic(auto, using(c_tree::proofs::TypedViewLaws::typed_views), unfolding(c_typing::specs::Operations::integer, c_typing::specs::Operations::leaf))]
pub fn integer(
    scope: &Scope,
    types: &Types,
    of: IntegerType,
    value: u64,
    at: Place,
) -> Result<Operand, Fault>
    ensures { Answers operand_view (operations.integer of value at (known types.now scope.now))
        result (known types.now scope.now) }
{
    let t = constant_kind(of).ty();
    Ok(Operand {
        part: Part::Value(Boxed::new(scope.alloc(), TypedExpr::Integer(of, value, at, t))?),
        place: at,
        held: 1,
    })
}

/// A character constant (C99 6.4.4.4).
#[tactic(auto, using(c_tree::proofs::TypedViewLaws::typed_views), unfolding(c_typing::specs::Operations::character, c_typing::specs::Operations::leaf))]
pub fn character(scope: &Scope, types: &Types, value: i32, at: Place) -> Result<Operand, Fault>
    ensures { Answers operand_view (operations.character value at (known types.now scope.now))
        result (known types.now scope.now) }
{
    Ok(Operand {
        part: Part::Value(Boxed::new(scope.alloc(), TypedExpr::Character(value, at, INT))?),
        place: at,
        held: 1,
    })
}

/// A part in parentheses, of which the first stands at the place.
#[tactic(auto, using(c_tree::proofs::TypedViewLaws::typed_views))]
fn in_parens(scope: &Scope, at: Place, x: Part) -> Result<Part, NoMemory>
    ensures { IfOk result (λ made. part_view made ≡ operations.in_parens at (part_view x)) }
{
    match x {
        Part::Place(p) => Ok(Part::Place(Boxed::new(
            scope.alloc(),
            TypedPlace::ParenPlace(at, p),
        )?)),
        Part::Value(e) => Ok(Part::Value(Boxed::new(scope.alloc(), TypedExpr::Paren(at, e))?)),
        Part::Allocation(e) => Ok(Part::Allocation(Boxed::new(
            scope.alloc(),
            TypedExpr::Paren(at, e),
        )?)),
    }
}

/// An expression in parentheses (C99 6.5.1).
#[tactic(auto, unfolding(c_typing::specs::Operations::paren, c_typing::specs::Operations::construct, c_typing::specs::Judging::holding))]
pub fn paren(scope: &Scope, types: &Types, at: Place, x: Operand) -> Result<Operand, Fault>
    ensures { Answers operand_view (operations.paren at (operand_view x)
        (known types.now scope.now)) result (known types.now scope.now) }
{
    let held = holding(at, held_with_one(x.held))?;
    let part = in_parens(scope, at, x.part)?;
    Ok(Operand {
        part,
        place: at,
        held,
    })
}
