//! Expressions, specifiers and declarators in one another.
#![tactic(auto)]

ghost use Rattle.std.specs.Prelude.{◌≡◌, IfOk, map};
ghost use Rattle.c_tree.specs.Tree.{NoParameter, Parts};
ghost use Rattle.c_tree.specs.Views.{added, declarator_view, expr_view, parameter_view, part_view, specifiers_view};
ghost use Rattle.c_tree.specs.TypedTree.{NoParameter as no_typed_parameter, NoPart as no_typed_part, TypedParts};
ghost use Rattle.c_tree.specs.TypedViews.{typed_form_view, typed_parameter_view, typed_part_view, typed_specifiers_view};
ghost use Rattle.c_check_walk.specs.Ending.{EndsIn};
ghost use Rattle.c_typing.specs.Declaring as declaring;
ghost use Rattle.c_typing.specs.Growing.{Grows};
ghost use Rattle.c_typing.specs.Judging.{Answers, Gives, State, known, next};
ghost use Rattle.c_typing.specs.OperandViews.{operand_view};
ghost use Rattle.c_typing.specs.Refusals.{is_void_alone};
ghost use Rattle.c_typing.specs.Walks as walks;

use crate::walker::Walker;
use c_tree::{
    Declarator, Expr, Items, Parameter, Part, Specifiers, TypedForm, TypedParameter, TypedPart,
    TypedSpecifiers,
};
use c_types::Types;
use c_typing::level::Level;
use c_typing::naming::Naming;
use c_typing::operand::Operand;
use c_typing::scope::Scope;
use cc_base::{Fault, Place};

/// An expression.
#[cycle(walk)]
pub(crate) fn judge_expr(
    scope: &mut Scope,
    types: &mut Types,
    called: bool,
    e: &Expr,
) -> Result<Operand, Fault>
    ensures answers { Answers operand_view (walks.judge called (expr_view e.now)
        (known types.old scope.old)) result (known types.new scope.new) }
    ensures grows { Grows (known types.old scope.old) (known types.new scope.new) }
{
    let walker = Walker {
        judge_expr,
        judge_specifiers,
        judge_form,
    };
    walker.expr_layer(scope, types, called, e)
}

/// A list of specifiers.
#[cycle(walk)]
pub(crate) fn judge_specifiers(
    scope: &mut Scope,
    types: &mut Types,
    specifiers: &Specifiers,
) -> Result<TypedSpecifiers, Fault>
    ensures answers { Answers typed_specifiers_view (walks.judge_specifiers
        (specifiers_view specifiers.now) (known types.old scope.old)) result
        (known types.new scope.new) }
    ensures grows { Grows (known types.old scope.old) (known types.new scope.new) }
{
    let walker = Walker {
        judge_expr,
        judge_specifiers,
        judge_form,
    };
    walker.specifier_list(scope, types, specifiers)
}

/// What stands in a declarator, whose name is to be this and whose type is named at the place.
#[cycle(walk)]
pub(crate) fn judge_form(
    scope: &mut Scope,
    types: &mut Types,
    which: Naming,
    at: Place,
    d: &Declarator,
) -> Result<TypedForm, Fault>
    ensures answers { Answers typed_form_view (walks.judge_form which at (declarator_view d.now)
        (known types.old scope.old)) result (known types.new scope.new) }
    ensures grows { Grows (known types.old scope.old) (known types.new scope.new) }
{
    let walker = Walker {
        judge_expr,
        judge_specifiers,
        judge_form,
    };
    walker.form_layer(scope, types, which, at, d)
}

/// A part of a declarator after those that are judged; `at` is the place of the declarator's name. Fails with the first rule or limit that is
/// broken in the order of the text, or where memory is wanted.
pub fn judge_part(
    scope: &mut Scope,
    types: &mut Types,
    at: Place,
    part: &Part,
) -> Result<TypedPart, Fault>
    ensures answers { (start : State) (before : Parts) (done : TypedParts)
        → walks.judge_parts at before start ≡ Gives done (known types.old scope.old)
        → Answers (λ made. typed_part_view made done)
        (walks.judge_parts at (part_view part.now before) start) result
        (known types.new scope.new) }
    ensures grows { Grows (known types.old scope.old) (known types.new scope.new) }
{
    let walker = Walker {
        judge_expr,
        judge_specifiers,
        judge_form,
    };
    walker.part(scope, types, at, part)
}

/// The parts of a declarator behind those that are judged, which come first in the answer; `at` is the place of the declarator's name. Fails
/// as `judge_part` does.
pub fn judge_parts_behind(
    scope: &mut Scope,
    types: &mut Types,
    at: Place,
    first: Items<TypedPart>,
    rest: &[Part],
) -> Result<Items<TypedPart>, Fault>
    ensures answers { (start : State) (before : Parts) → walks.judge_parts at before start
        ≡ Gives (added no_typed_part (map typed_part_view first)) (known types.old scope.old)
        → Answers (λ found. added no_typed_part (map typed_part_view found))
        (walks.judge_parts at (added before (map part_view rest.now)) start) result
        (known types.new scope.new) }
    ensures grows { Grows (known types.old scope.old) (known types.new scope.new) }
{
    let walker = Walker {
        judge_expr,
        judge_specifiers,
        judge_form,
    };
    walker.parts_behind(scope, types, at, first, rest)
}

/// A list of parameters in a scope of its own, with that scope as they leave it; `at` is the place of the declarator's name. Fails
/// as `judge_part` does; the scope is left then too.
pub fn judge_prototype(
    scope: &mut Scope,
    types: &mut Types,
    at: Place,
    list: &[Parameter],
) -> Result<(Items<TypedParameter>, Level), Fault>
    ensures level { IfOk result (λ made. EndsIn made.1
        (next (declaring.entered (known types.old scope.old))
        (λ _. walks.judge_parameters
        (is_void_alone (added NoParameter (map parameter_view list.now)))
        (added NoParameter (map parameter_view list.now))))) }
    ensures answers { Answers (λ made. added no_typed_parameter
        (map typed_parameter_view made.0)) (walks.judge_prototype at
        (added NoParameter (map parameter_view list.now)) (known types.old scope.old)) result
        (known types.new scope.new) }
    ensures grows { Grows (known types.old scope.old) (known types.new scope.new) }
{
    let walker = Walker {
        judge_expr,
        judge_specifiers,
        judge_form,
    };
    walker.prototype_left(scope, types, at, list)
}
