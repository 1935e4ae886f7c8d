//! The calls of a unit: what it asks of its expressions, specifiers and declarators, with what each answer means. What is well typed, and
//! within the limits, is accepted: then only memory can be wanted.
#![tactic(auto)]

ghost use Rattle.std.specs.Prelude.{◌≡◌, IfOk, None, false};
ghost use Rattle.c_types.specs.Table.{IsType};
ghost use Rattle.c_tree.specs.TypedParts.{home_of, made_by, made_by_declarator, made_by_specifiers, specified_type, home_node};
ghost use Rattle.c_tree.specs.TypedViews.{typed_declarator_view, typed_expr_view, typed_specifiers_view};
ghost use Rattle.c_tree.specs.Views.{declarator_view, expr_view, specifiers_view};
ghost use Rattle.c_typing.specs.Checking as checking;
ghost use Rattle.c_typing.specs.Growing.{HasGrown};
ghost use Rattle.c_typing.specs.Judging.{Answers, known};
ghost use Rattle.c_typing.specs.Refusals.{Refuses};
ghost use Rattle.c_typing.specs.Settled.{IsKnown};
ghost use Rattle.c_typing.specs.Walks as walks;
ghost use Rattle.c_typing_laws.specs.Judged.{AreSpecifiersJudged, ConstantFails, IsChecked, IsCheckedFor, IsConstantJudged, SpecifiersFail, ValueFails};
ghost use Rattle.c_typing_laws.specs.Numbers.{AreNumberedFrom};
ghost use Rattle.c_unit_typing.specs.ParameterScopes.{level_of};
ghost use Rattle.c_unit_typing.specs.Holding.{declarator_holds, expr_holds, specifiers_holds};
ghost use Rattle.c_check_expr.specs.Calls.{AcceptsConstant, AcceptsConverted, AcceptsCopied, AcceptsDeclarator, AcceptsSpecifiers, AcceptsValue, GivesDeclarator, RefusesDeclaratorForCause, RefusesForCause};
ghost use Rattle.c_check_expr.specs.Limited.{IsWithin};
ghost use Rattle.c_check_walk.specs.CheckingViews.{constant_view};

use crate::definitions::definition_behind;
use c_check_walk::checking::{
    checked, checked_constant, checked_for, declarator_behind, specifiers_by,
};
use c_tree::{Declarator, Expr, Specifiers, TypedDeclarator, TypedExpr, TypedSpecifiers};
use c_types::Types;
use c_typing::level::Level;
use c_typing::naming::Naming;
use c_typing::scope::Scope;
use cc_base::{Fault, Place, TypeId};

/// The value of an expression; a struct is not read (C99 6.5). Tags and enumerators that it declares are added to the scope. A refusal is
/// that of the first rule that fails in the order of the text; after it types, tags, enumerators and nodes of what stands before may be there.
pub fn check_expr(scope: &mut Scope, types: &mut Types, e: &Expr) -> Result<TypedExpr, Fault>
    ensures judged { Answers typed_expr_view
        (checking.checked (expr_view e.now)
        (known types.old scope.old)) result (known types.new scope.new) }
    ensures grown { HasGrown false (known types.old scope.old) (known types.new scope.new) }
    ensures typed { IsKnown (known types.old scope.old) → IfOk result
        (λ v. IsChecked (expr_view e.now) (typed_expr_view v) (known types.old scope.old)
        (known types.new scope.new)) }
    ensures numbered { IsKnown (known types.old scope.old)
        → IfOk result (λ v. AreNumberedFrom (made_by (typed_expr_view v))
        (known types.old scope.old) (known types.new scope.new)) }
    ensures limited { IfOk result (λ v. IsWithin (expr_holds (expr_view e.now))
        (known types.old scope.old) (known types.new scope.new)) }
    ensures refused { IsKnown (known types.old scope.old)
        → RefusesForCause (λ T f. Refuses T false (expr_view e.now) scope.old.scopes f)
        (known types.old scope.old) result (known types.new scope.new) }
    ensures accepts { AcceptsValue (expr_view e.now) (known types.old scope.old) result
        (known types.new scope.new) }
{
    checked(scope, types, e)
}

/// An expression that is converted to a type at a place (C99 6.5.16.1); `init` says that it is an initialiser and not a returned value. What
/// does not become one of the type is a mismatch at the place.
pub fn check_value(
    scope: &mut Scope,
    types: &mut Types,
    to: TypeId,
    at: Place,
    init: bool,
    e: &Expr,
) -> Result<TypedExpr, Fault>
    ensures judged { Answers typed_expr_view
        (checking.checked_value to at init (expr_view e.now)
        (known types.old scope.old)) result (known types.new scope.new) }
    ensures grown { HasGrown false (known types.old scope.old) (known types.new scope.new) }
    ensures typed { IsKnown (known types.old scope.old) → IsType types.old to
        → IfOk result (λ v. IsCheckedFor to at init (expr_view e.now) (typed_expr_view v)
        (known types.old scope.old) (known types.new scope.new)) }
    ensures numbered { IsKnown (known types.old scope.old)
        → IfOk result (λ v. AreNumberedFrom (made_by (typed_expr_view v))
        (known types.old scope.old) (known types.new scope.new)) }
    ensures limited { IfOk result (λ v. IsWithin (expr_holds (expr_view e.now))
        (known types.old scope.old) (known types.new scope.new)) }
    ensures refused { IsKnown (known types.old scope.old) → IsType types.old to
        → RefusesForCause (λ T f. ValueFails T to at (expr_view e.now) scope.old.scopes f)
        (known types.old scope.old) result (known types.new scope.new) }
    ensures accepts { AcceptsConverted init to at (expr_view e.now) (known types.old scope.old)
        result (known types.new scope.new) }
    ensures accepts_copied { AcceptsCopied init to (expr_view e.now) (known types.old scope.old)
        result (known types.new scope.new) }
{
    checked_for(scope, types, to, at, init, e)
}

/// An integer constant expression and its value (C99 6.6). What is no such expression is refused at its first token.
pub fn check_constant(
    scope: &mut Scope,
    types: &mut Types,
    e: &Expr,
) -> Result<(TypedExpr, i128), Fault>
    ensures judged { Answers constant_view
        (checking.checked_constant (expr_view e.now)
        (known types.old scope.old)) result (known types.new scope.new) }
    ensures grown { HasGrown false (known types.old scope.old) (known types.new scope.new) }
    ensures typed { IsKnown (known types.old scope.old) → IfOk result
        (λ c. IsConstantJudged (expr_view e.now) (constant_view c) (known types.old scope.old)
        (known types.new scope.new)) }
    ensures numbered { IsKnown (known types.old scope.old)
        → IfOk result (λ c. AreNumberedFrom (made_by (constant_view c).expr)
        (known types.old scope.old) (known types.new scope.new)) }
    ensures limited { IfOk result (λ v. IsWithin (expr_holds (expr_view e.now))
        (known types.old scope.old) (known types.new scope.new)) }
    ensures refused { IsKnown (known types.old scope.old)
        → RefusesForCause (λ T f. ConstantFails T (expr_view e.now) scope.old.scopes f)
        (known types.old scope.old) result (known types.new scope.new) }
    ensures accepts { AcceptsConstant (expr_view e.now) (known types.old scope.old) result
        (known types.new scope.new) }
{
    checked_constant(scope, types, e)
}

/// A list of specifiers (C99 6.7.2). `alone` says that no declarator follows; then `struct S` by itself declares the tag (C99 6.7.2.3).
pub fn check_specifiers(
    scope: &mut Scope,
    types: &mut Types,
    specifiers: &Specifiers,
    alone: bool,
) -> Result<TypedSpecifiers, Fault>
    ensures judged { Answers typed_specifiers_view
        (walks.judge_specifiers_of alone (specifiers_view specifiers.now)
        (known types.old scope.old)) result (known types.new scope.new) }
    ensures grown { HasGrown false (known types.old scope.old) (known types.new scope.new) }
    ensures typed { IsKnown (known types.old scope.old) → IfOk result
        (λ t. AreSpecifiersJudged alone (specifiers_view specifiers.now) (typed_specifiers_view t)
        (known types.old scope.old) (known types.new scope.new)) }
    ensures numbered { IsKnown (known types.old scope.old)
        → IfOk result (λ t. AreNumberedFrom (made_by_specifiers (typed_specifiers_view t))
        (known types.old scope.old) (known types.new scope.new)) }
    ensures limited { IfOk result (λ v. IsWithin (specifiers_holds (specifiers_view specifiers.now))
        (known types.old scope.old) (known types.new scope.new)) }
    ensures refused { IsKnown (known types.old scope.old)
        → RefusesForCause (λ T f. SpecifiersFail alone T (specifiers_view specifiers.now)
        scope.old.scopes f) (known types.old scope.old) result (known types.new scope.new) }
    ensures accepts { AcceptsSpecifiers alone (specifiers_view specifiers.now)
        (known types.old scope.old) result (known types.new scope.new) }
{
    specifiers_by(scope, types, specifiers, alone)
}

/// A declarator behind specifiers (C99 6.7.5). `size` is the count that an initialiser gives to the array part without a size that stands
/// nearest to the name, and `naming` says what the name is to be. The answer's `home` is the node of the object that is declared; a function
/// and a typedef have none.
pub fn check_declarator(
    scope: &mut Scope,
    types: &mut Types,
    base: &TypedSpecifiers,
    d: &Declarator,
    size: Option<u64>,
    naming: Naming,
) -> Result<TypedDeclarator, Fault>
    ensures judged { Answers typed_declarator_view
        (walks.judge_declarator naming (typed_specifiers_view base.now) size (declarator_view d.now)
        (known types.old scope.old)) result (known types.new scope.new) }
    ensures grown { HasGrown false (known types.old scope.old) (known types.new scope.new) }
    ensures typed { IsKnown (known types.old scope.old) → GivesDeclarator naming
        (walks.outermost_of size) (specified_type (typed_specifiers_view base.now))
        (declarator_view d.now) (known types.old scope.old) result (known types.new scope.new) }
    ensures home { IfOk result (λ one. one.home ≡ home_node (home_of (typed_declarator_view one))) }
    ensures numbered { IsKnown (known types.old scope.old)
        → IfOk result (λ one. AreNumberedFrom (made_by_declarator (typed_declarator_view one))
        (known types.old scope.old) (known types.new scope.new)) }
    ensures limited { IfOk result (λ v. IsWithin (declarator_holds (declarator_view d.now))
        (known types.old scope.old) (known types.new scope.new)) }
    ensures refused { IsKnown (known types.old scope.old)
        → RefusesDeclaratorForCause (walks.outermost_of size)
        (specified_type (typed_specifiers_view base.now)) (declarator_view d.now)
        (known types.old scope.old) result (known types.new scope.new) }
    ensures accepts { AcceptsDeclarator naming (walks.outermost_of size)
        (specified_type (typed_specifiers_view base.now)) (declarator_view d.now)
        (known types.old scope.old) result (known types.new scope.new) }
{
    declarator_behind(scope, types, naming, base, size, d)
}

/// The declarator of a function definition behind specifiers, with the scope that its own parameters leave for the body (C99 6.2.1); the
/// scope is empty where no list of parameters stands nearest to the name.
pub fn check_definition(
    scope: &mut Scope,
    types: &mut Types,
    base: &TypedSpecifiers,
    d: &Declarator,
    naming: Naming,
) -> Result<(TypedDeclarator, Level), Fault>
    ensures judged { Answers (λ made. typed_declarator_view made.0)
        (walks.judge_declarator naming (typed_specifiers_view base.now) None (declarator_view d.now)
        (known types.old scope.old)) result (known types.new scope.new) }
    ensures grown { HasGrown false (known types.old scope.old) (known types.new scope.new) }
    ensures home { IfOk result (λ made. made.0.home ≡ home_node
        (home_of (typed_declarator_view made.0))) }
    ensures level { IfOk result (λ made. level_of naming
        (specified_type (typed_specifiers_view base.now)) (declarator_view d.now)
        (known types.old scope.old) ≡ made.1) }
{
    definition_behind(scope, types, naming, base, d)
}
