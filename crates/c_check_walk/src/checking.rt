//! What a unit asks of its expressions, specifiers and declarators. Each refusal is that of the first rule that fails in the order of the text,
//! each limit is named where it is met there, and `NoMemory` is answered where memory is wanted.
#![tactic(auto)]

ghost use Rattle.std.specs.Prelude.{◌≡◌, IfOk, IfSome, None, map, true};
ghost use Rattle.c_types.specs.Table as table;
ghost use Rattle.c_tree.specs.TypedParts.{home_of, home_node};
ghost use Rattle.c_tree.specs.Tree.{AndSpecifier, NoSpecifier, Tagged};
ghost use Rattle.c_tree.specs.Views.{expr_view, specifier_view, specifiers_of, specifiers_view, declarator_view};
ghost use Rattle.c_tree.specs.TypedTree as typed;
ghost use Rattle.c_tree.specs.TypedViews.{typed_expr_view, typed_specifiers_view, typed_form_view, typed_declarator_view};
ghost use Rattle.c_typing.specs.Checking as checking;
ghost use Rattle.c_typing.specs.Declaring as declaring;
ghost use Rattle.c_check_walk.specs.CheckingViews.{constant_view};
ghost use Rattle.c_check_declarators.specs.MakingViews.{nearest_view};
ghost use Rattle.c_typing.specs.Growing.{Grows};
ghost use Rattle.c_typing.specs.Judging as judging;
ghost use Rattle.c_typing.specs.Judging.{Answers, known};
ghost use Rattle.c_typing.specs.OperandViews.{operand_view, part_view, value_view, part_ref_view};
ghost use Rattle.c_typing.specs.Walks as walks;

use crate::walk::{judge_expr, judge_form, judge_specifiers};
use c_check_declarators::derived::{Derived, derived_by, is_function_by};
use c_check_declarators::homes::{home_node, home_of};
use c_check_declarators::making::{Nearest, form_makes};
use c_check_declarators::places::{declarator_name, name_place};
use c_check_declarators::specifying::tagged_alone;
use c_check_operators::conversion::{converted_to, fits, given};
use c_tree::{
    AggregateKind, Boxed, Declarator, Expr, Identifier, Items, Specifier, Specifiers,
    TypedDeclarator, TypedExpr, TypedForm, TypedSpecifiers,
};
use c_types::Types;
use c_typing::constant::constant_value;
use c_typing::naming::Naming;
use c_typing::operand::{Operand, Part, PartRef, Value};
use c_typing::same::is_same_type;
use c_typing::scope::Scope;
use c_typing::shapes::{is_aggregate, shape_at};
use c_typing::stops::refusal;
use c_typing::typing::{side_of, value};
use cc_base::{Fault, NoMemory, Place, Rule, TypeId};

/// The first place of a text, which stands for the place of a name where a declarator has none.
pub const NOWHERE: Place = Place { line: 1, col: 1 };

/// An expression whose value is taken.
#[tactic(auto, unfolding(c_typing::specs::Walks::judge_value))]
fn judged_value(scope: &mut Scope, types: &mut Types, e: &Expr) -> Result<Value, Fault>
    ensures answers { Answers value_view (walks.judge_value (expr_view e.now)
        (known types.old scope.old)) result (known types.new scope.new) }
    ensures grows { Grows (known types.old scope.old) (known types.new scope.new) }
{
    let x = judge_expr(scope, types, false, e)?;
    value(scope, types, x)
}

/// The value of an expression; a struct is not read. Fails with the first rule or limit that is broken, or where memory is wanted.
#[tactic(auto, unfolding(c_typing::specs::Checking::checked))]
pub fn checked(scope: &mut Scope, types: &mut Types, e: &Expr) -> Result<TypedExpr, Fault>
    ensures answers { Answers typed_expr_view (checking.checked (expr_view e.now)
        (known types.old scope.old)) result (known types.new scope.new) }
    ensures grows { Grows (known types.old scope.old) (known types.new scope.new) }
{
    let v = judged_value(scope, types, e)?;
    Ok(v.expr.into_inner())
}

/// An initialiser takes an allocation over, a returned value does not.
#[tactic(auto, unfolding(c_typing::specs::Checking::taken))]
fn taken(
    scope: &mut Scope,
    types: &mut Types,
    init: bool,
    to: TypeId,
    x: Operand,
) -> Result<Part, Fault>
    ensures answers { Answers part_view (checking.taken init to (operand_view x)
        (known types.old scope.old)) result (known types.new scope.new) }
    ensures grows { Grows (known types.old scope.old) (known types.new scope.new) }
{
    if init {
        return given(scope, types, to, x.place, x.part);
    }
    let v = value(scope, types, x)?;
    Ok(side_of(v.expr))
}

/// Whether a part becomes a value of the type, or is a struct of it.
fn becomes(types: &Types, to: TypeId, x: PartRef) -> bool
    ensures { result ≡ checking.becomes types.now to (part_ref_view x.entry) }
{
    match x {
        PartRef::Place(p) => {
            fits(types, x, shape_at(types, to))
                || (is_aggregate(shape_at(types, to)) && is_same_type(types, to, p.ty()))
        }
        _ => fits(types, x, shape_at(types, to)),
    }
}

/// A part that becomes a value of the type.
fn converted_part(
    scope: &Scope,
    types: &Types,
    to: TypeId,
    at: Place,
    x: Part,
) -> Result<Boxed<TypedExpr>, NoMemory>
    ensures { IfOk result (λ e. typed_expr_view e
        ≡ checking.converted_part types.now to at (part_view x)) }
{
    match x {
        Part::Place(p) => Ok(Boxed::new(scope.alloc(), TypedExpr::Unread(p))?),
        Part::Value(e) => converted_to(scope, types, at, to, e),
        Part::Allocation(e) => Ok(e),
    }
}

/// An expression that is converted to a type at a place; `init` says that it is an initialiser and not a returned value. What does not become
/// one of the type is a mismatch at the place; else it fails as `checked` does.
#[tactic(auto, unfolding(c_typing::specs::Checking::checked_value, c_typing::specs::Checking::converted_value))]
pub fn checked_for(
    scope: &mut Scope,
    types: &mut Types,
    to: TypeId,
    at: Place,
    init: bool,
    e: &Expr,
) -> Result<TypedExpr, Fault>
    ensures answers { Answers typed_expr_view (checking.checked_value to at init (expr_view e.now)
        (known types.old scope.old)) result (known types.new scope.new) }
    ensures grows { Grows (known types.old scope.old) (known types.new scope.new) }
{
    let x = judge_expr(scope, types, false, e)?;
    let part = taken(scope, types, init, to, x)?;
    if !becomes(types, to, part.as_ref()) {
        return Err(refusal(at, Rule::Mismatch));
    }
    Ok(converted_part(scope, types, to, at, part)?.into_inner())
}

/// An integer constant expression and its value. What is no such expression is refused at its first token; else it fails as `checked` does.
#[tactic(auto, unfolding(c_typing::specs::Checking::checked_constant, c_typing::specs::Checking::constant_as))]
pub fn checked_constant(
    scope: &mut Scope,
    types: &mut Types,
    e: &Expr,
) -> Result<(TypedExpr, i128), Fault>
    ensures answers { Answers constant_view (checking.checked_constant (expr_view e.now)
        (known types.old scope.old)) result (known types.new scope.new) }
    ensures grows { Grows (known types.old scope.old) (known types.new scope.new) }
{
    let v = judged_value(scope, types, e)?;
    match constant_value(types, v.expr.get()) {
        Some(z) => Ok((v.expr.into_inner(), z)),
        None => Err(refusal(v.place, Rule::NotConstant)),
    }
}

/// The parts of `struct S` or `union U`.
#[tactic(auto, using(c_tree::proofs::ViewLaws::expr_views))]
fn tag_of(one: &Specifier) -> Option<(AggregateKind, Place, &Identifier)>
    ensures some { IfSome result (λ t. specifier_view one.now ≡ Tagged t.0 t.1 t.2.now) }
    ensures none { result ≡ None → walks.judge_alone_list (AndSpecifier NoSpecifier
        (specifier_view one.now)) ≡ walks.judge_list
        (AndSpecifier NoSpecifier (specifier_view one.now)) }
{
    match one {
        Specifier::Tagged(which, at, name) => Some((*which, *at, name)),
        Specifier::Keyword(_) => None,
        Specifier::Typedef(_) => None,
        Specifier::Aggregate(_, _, _, _, _) => None,
        Specifier::Enum(_, _) => None,
        Specifier::Enumeration(_, _, _, _, _) => None,
    }
}

/// The tag that specifiers declare which no declarator follows, if they are `struct S` or `union U` by itself.
#[tactic(auto, using(c_tree::proofs::PushLaws::pushes))]
fn tag_alone(list: &[Specifier]) -> Option<(AggregateKind, Place, &Identifier)>
    ensures some { IfSome result (λ t. specifiers_of (map specifier_view list.now)
        ≡ AndSpecifier NoSpecifier (Tagged t.0 t.1 t.2.now)) }
    ensures none { result ≡ None → walks.judge_alone_list (specifiers_of
        (map specifier_view list.now)) ≡ walks.judge_list
        (specifiers_of (map specifier_view list.now)) }
{
    let (last, before) = list.split_last()?;
    if before.split_last().is_some() {
        return None;
    }
    tag_of(last)
}

/// Specifiers that no declarator follows (C99 6.7.2.3).
#[tactic(auto, using(c_tree::proofs::ViewLaws::expr_views, c_tree::proofs::TypedViewLaws::typed_views), unfolding(c_typing::specs::Walks::judge_specifiers_of, c_typing::specs::Walks::judge_specifiers))]
fn alone_specifiers(
    scope: &mut Scope,
    types: &mut Types,
    specifiers: &Specifiers,
) -> Result<TypedSpecifiers, Fault>
    ensures answers { Answers typed_specifiers_view (walks.judge_specifiers_of true
        (specifiers_view specifiers.now) (known types.old scope.old)) result
        (known types.new scope.new) }
    ensures grows { Grows (known types.old scope.old) (known types.new scope.new) }
{
    let Some((which, at, name)) = tag_alone(specifiers.list.as_slice()) else {
        return judge_specifiers(scope, types, specifiers);
    };
    let (one, ty) = tagged_alone(scope, types, which, at, name)?;
    let mut list = Items::new(scope.alloc());
    list.push(one)?;
    Ok(TypedSpecifiers { list, ty })
}

/// Specifiers; `alone` says that no declarator follows. Fails with the first rule or limit that is broken, or where memory is wanted.
#[tactic(auto, unfolding(c_typing::specs::Walks::judge_specifiers_of))]
pub fn specifiers_by(
    scope: &mut Scope,
    types: &mut Types,
    specifiers: &Specifiers,
    alone: bool,
) -> Result<TypedSpecifiers, Fault>
    ensures answers { Answers typed_specifiers_view (walks.judge_specifiers_of alone
        (specifiers_view specifiers.now) (known types.old scope.old)) result
        (known types.new scope.new) }
    ensures grows { Grows (known types.old scope.old) (known types.new scope.new) }
{
    if alone {
        alone_specifiers(scope, types, specifiers)
    } else {
        judge_specifiers(scope, types, specifiers)
    }
}

/// What the name of a declarator is to be, unless it is a function.
pub fn naming_of(types: &Types, naming: Naming, base: TypeId, d: &Declarator) -> Naming
    ensures { result ≡ declaring.unless_function (declaring.is_function_by
        (declaring.derived_by (declarator_view d.now) declaring.NotDerived)
        (table.shape_at types.now base)) naming }
{
    if is_function_by(types, derived_by(d, Derived::Nothing), base) {
        Naming::None
    } else {
        naming
    }
}

/// What stands nearest to the name, where an initialiser gives a size, or none.
fn nearest_of(size: Option<u64>) -> Nearest
    ensures { nearest_view result ≡ walks.outermost_of size }
{
    match size {
        Some(count) => Nearest::Counts(count),
        None => Nearest::Written,
    }
}

/// What stands in a declarator behind specifiers of a type, with the type that it makes. `at` is the place of its name, and `size` is what an
/// initialiser gives to the array part that stands nearest to the name. Fails with the first rule or limit that the type breaks, or where
/// memory is wanted.
pub fn with_type(
    scope: &mut Scope,
    types: &mut Types,
    at: Place,
    size: Option<u64>,
    form: TypedForm,
    base: TypeId,
) -> Result<TypedDeclarator, Fault>
    ensures made { Answers typed_declarator_view (judging.next
        (declaring.form_makes at (walks.outermost_of size) (typed_form_view form) base
        (known types.old scope.old)) (λ t. judging.pure (typed.Declares (typed_form_view form) t)))
        result (known types.new scope.new) }
    ensures home { IfOk result (λ one. one.home ≡ home_node (home_of (typed_declarator_view one))) }
    ensures grows { Grows (known types.old scope.old) (known types.new scope.new) }
{
    let ty = form_makes(scope, types, at, nearest_of(size), &form, base)?;
    let home = home_node(home_of(&form));
    Ok(TypedDeclarator { form, ty, home })
}

/// A declarator behind specifiers. `size` is what an initialiser gives to the array part that stands nearest to the name. Fails with the first
/// rule or limit that is broken, or where memory is wanted.
#[tactic(auto, using(c_tree::proofs::TypedViewLaws::typed_views), unfolding(c_typing::specs::Walks::judge_declarator_at))]
pub fn declarator_behind(
    scope: &mut Scope,
    types: &mut Types,
    naming: Naming,
    base: &TypedSpecifiers,
    size: Option<u64>,
    d: &Declarator,
) -> Result<TypedDeclarator, Fault>
    ensures judged { Answers typed_declarator_view (walks.judge_declarator naming
        (typed_specifiers_view base.now) size (declarator_view d.now) (known types.old scope.old))
        result (known types.new scope.new) }
    ensures home { IfOk result (λ one. one.home ≡ home_node (home_of (typed_declarator_view one))) }
    ensures grows { Grows (known types.old scope.old) (known types.new scope.new) }
{
    let at = name_place(declarator_name(d), NOWHERE);
    let which = naming_of(types, naming, base.ty, d);
    let form = judge_form(scope, types, which, at, d)?;
    with_type(scope, types, at, size, form, base.ty)
}
