//! Expressions in statements (C99 6.8).
#![tactic(auto)]

ghost use Rattle.std.specs.Prelude.{◌≡◌, Some, None, IfOk, option_map};
ghost use Rattle.c_tree.specs.Views.{expr_view};
ghost use Rattle.c_tree.specs.TypedParts.{type_of};
ghost use Rattle.c_tree.specs.TypedTree as typed;
ghost use Rattle.c_tree.specs.TypedViews.{typed_expr_view};
ghost use Rattle.c_check_context.specs.ContextViews.{state_of};
ghost use Rattle.c_unit_typing.specs.UnitJudging.{Answers, Gives};
ghost use Rattle.c_unit_typing.specs.StatementJudging as judging;

use c_check_context::Context;
use c_check_operators::unary::to_integer;
use c_tree::{Boxed, Expr, TypedExpr};
use c_typing::shapes::{integer_at, is_integer, is_scalar, is_void, shape_at};
use c_typing::stops::refusal;
use cc_base::{Fault, NoMemory, Place, Rule, TypeId};

/// The condition of the statement whose keyword stands at the place is a scalar.
#[tactic(auto, unfolding(c_unit_typing::specs::StatementJudging::tested))]
pub(crate) fn try_condition(context: &Context, at: Place, c: &TypedExpr) -> Result<(), Fault>
    ensures { (one : typed.TypedStatement) → Answers (λ u. one)
        (judging.tested at (typed_expr_view c.now) one (state_of context.now)) result
        (state_of context.now) }
{
    if !is_scalar(shape_at(&context.types, c.ty())) {
        return Err(refusal(at, Rule::Mismatch));
    }
    Ok(())
}

/// A condition that may be left out.
#[tactic(auto, unfolding(c_unit_typing::specs::StatementJudging::tested_or_none))]
pub(crate) fn try_condition_or_none(
    context: &Context,
    at: Place,
    c: &Option<Boxed<TypedExpr>>,
) -> Result<(), Fault>
    ensures { (one : typed.TypedStatement) → Answers (λ u. one)
        (judging.tested_or_none at (option_map typed_expr_view c.now) one (state_of context.now))
        result (state_of context.now) }
{
    match c {
        None => Ok(()),
        Some(c) => try_condition(context, at, c.get()),
    }
}

/// An expression whose value is dropped, or none.
#[tactic(auto, unfolding(c_unit_typing::specs::StatementJudging::dropped))]
pub(crate) fn dropped(
    context: &mut Context,
    e: &Option<Boxed<Expr>>,
) -> Result<Option<Boxed<TypedExpr>>, Fault>
    ensures { Answers (option_map typed_expr_view) (judging.dropped (option_map expr_view e.now)
        (state_of context.old)) result (state_of context.new) }
{
    match e {
        None => Ok(None),
        Some(e) => {
            let v = context.expr(e.get())?;
            Ok(Some(v))
        }
    }
}

/// What the `return` at the place gives to a function with this result.
#[tactic(auto, unfolding(c_unit_typing::specs::StatementJudging::returned))]
pub(crate) fn returned(
    context: &mut Context,
    at: Place,
    to: TypeId,
    e: &Option<Boxed<Expr>>,
) -> Result<Option<Boxed<TypedExpr>>, Fault>
    ensures { Answers (option_map typed_expr_view) (judging.returned at to
        (option_map expr_view e.now) (state_of context.old)) result (state_of context.new) }
{
    match e {
        None => {
            if !is_void(shape_at(&context.types, to)) {
                return Err(refusal(at, Rule::Mismatch));
            }
            Ok(None)
        }
        Some(e) => {
            let v = context.value(to, at, false, e.get())?;
            Ok(Some(v))
        }
    }
}

/// What a `switch` is on: its integer, promoted. A value of another type stays as it is.
#[tactic(auto, unfolding(c_unit_typing::specs::StatementJudging::promotion))]
pub(crate) fn promoted(
    context: &Context,
    at: Place,
    e: Boxed<TypedExpr>,
) -> Result<Boxed<TypedExpr>, NoMemory>
    ensures { IfOk result (λ made. judging.promotion at (typed_expr_view e) (state_of context.now)
        ≡ Gives (typed_expr_view made) (state_of context.now)) }
{
    match integer_at(&context.types, e.get().ty()) {
        None => Ok(e),
        Some(kind) => to_integer(&context.scope, at, kind.promoted().ty(), e),
    }
}

/// What the `switch` at the place is on is an integer; `from` is its type before it is promoted.
#[tactic(auto, unfolding(c_unit_typing::specs::StatementJudging::switched))]
pub(crate) fn try_integer(context: &Context, at: Place, from: TypeId) -> Result<(), Fault>
    ensures { (c : typed.TypedExpr) (one : typed.TypedStatement) → type_of c ≡ from
        → Answers (λ u. one) (judging.switched at c one (state_of context.now)) result
        (state_of context.now) }
{
    if !is_integer(shape_at(&context.types, from)) {
        return Err(refusal(at, Rule::Mismatch));
    }
    Ok(())
}
