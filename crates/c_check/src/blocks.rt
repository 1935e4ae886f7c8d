//! Scopes of blocks.
#![tactic(auto)]

ghost use Rattle.std.specs.Prelude.{◌≡◌, true};
ghost use Rattle.c_typing.specs.Declaring.{entered, left};
ghost use Rattle.c_typing.specs.Specifying.{in_scopes};
ghost use Rattle.c_check_context.specs.ContextViews.{state_of};
ghost use Rattle.c_unit_typing.specs.UnitJudging.{Answers, lifted};
ghost use Rattle.c_unit_typing.specs.Units.{going_on};

use c_check_context::Context;
use c_check_expr::Level;
use c_typing::stops::no_room;
use cc_base::{Fault, Place};

/// A scope begins.
#[tactic(auto, unfolding(c_typing::specs::Declaring::entered))]
pub(crate) fn enter(context: &mut Context) -> Result<(), Fault>
    ensures { Answers (λ u. true) (lifted entered (state_of context.old)) result
        (state_of context.new) }
{
    context.scope.enter()?;
    Ok(())
}

/// A scope that was taken away goes on as the innermost one.
pub(crate) fn go_on(context: &mut Context, level: Level) -> Result<(), Fault>
    ensures { Answers (λ u. true) (lifted (in_scopes (going_on level) true) (state_of context.old))
        result (state_of context.new) }
{
    context.scope.go_on(level)?;
    Ok(())
}

/// The innermost scope ends; the file's never does.
#[tactic(auto, unfolding(c_typing::specs::Declaring::left))]
pub(crate) fn leave(context: &mut Context, at: Place) -> Result<(), Fault>
    ensures { Answers (λ u. true) (lifted (left at true) (state_of context.old)) result
        (state_of context.new) }
{
    if context.scope.depth() < 2 {
        return Err(no_room(at));
    }
    context.scope.leave();
    Ok(())
}
