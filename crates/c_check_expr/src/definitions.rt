//! The declarator of a function definition: what its list of parameters declares is seen in the body (C99 6.2.1).
#![tactic(auto)]

ghost use Rattle.std.specs.Prelude.{◌≡◌, ◌&&◌, IfOk, None, Option, map, if◌then◌else◌};
ghost use Rattle.c_tree.specs.Tree.{NoPart, AndFunction, NoParameter, Parts, Parameters};
ghost use Rattle.c_tree.specs.TypedParts.{home_of, specified_type, home_node};
ghost use Rattle.c_tree.specs.TypedTree.{TypedParts, NoPart as no_typed_part};
ghost use Rattle.c_tree.specs.Views.{added, core_view, declarator_view, parameter_view, part_view};
ghost use Rattle.c_tree.specs.TypedViews.{typed_core_view, typed_declarator_view, typed_form_view, typed_part_view, typed_specifiers_view};
ghost use Rattle.c_check_expr.specs.Leaving.{AreLeaving, Tells, is_bare};
ghost use Rattle.c_typing.specs.Growing.{Grows};
ghost use Rattle.c_typing.specs.Judging.{Answers, Gives, State, known};
ghost use Rattle.c_typing.specs.Walks as walks;
ghost use Rattle.c_unit_typing.specs.ParameterScopes.{level_given, level_of, parameters_written, scope_of_core, scope_of_declarator, scope_of_list};

use c_check_declarators::places::{declarator_name, name_place};
use c_check_walk::checking::{NOWHERE, naming_of, with_type};
use c_check_walk::declarators::{home_as, stars_with_nodes};
use c_check_walk::walk::{judge_part, judge_parts_behind, judge_prototype};
use c_tree::{
    Boxed, Core, Declarator, Items, Parameter, Part, Star, TypedCore, TypedDeclarator, TypedForm,
    TypedPart, TypedSpecifiers,
};
use c_types::Types;
use c_typing::copies::copied_name;
use c_typing::level::Level;
use c_typing::naming::Naming;
use c_typing::scope::Scope;
use cc_base::{Fault, Place};

/// What was judged, with the scope that the list of parameters nearest to the name leaves, or an empty one.
#[derive(Drop)]
pub(crate) struct Left<T> {
    one: T,
    /// Whether no star and no part stands by the name so far, so that what follows decides.
    bare: bool,
    level: Level,
}

/// Whether no star and no part stands by what is bare itself.
fn stays_bare(inner: bool, stars: &[Star], parts: &[Part]) -> bool
    ensures { result ≡ (inner && is_bare stars.now parts.now) }
{
    match (stars, parts) {
        ([], []) => inner,
        _ => false,
    }
}

/// What is left: by what stands here if the rest is bare, else by the rest.
fn nearest(bare: bool, here: Level, rest: Level) -> Level
    ensures { result ≡ (if bare then here else rest) }
{
    if bare { here } else { rest }
}

/// The list of parameters that stands nearest to the name, with the scope that it leaves.
#[tactic(auto, using(c_tree::proofs::TypedViewLaws::typed_views, crate::proofs::LeavingLaws::function_nearest))]
fn function_left(
    scope: &mut Scope,
    types: &mut Types,
    at: Place,
    paren: Place,
    parameters: &[Parameter],
) -> Result<(TypedPart, Level), Fault>
    ensures judged { Answers (λ made. typed_part_view made.0 no_typed_part)
        (walks.judge_parts at (AndFunction NoPart paren
        (added NoParameter (map parameter_view parameters.now))) (known types.old scope.old))
        result (known types.new scope.new) }
    ensures left { IfOk result (λ made. (outer : Option Parameters)
        → level_given (scope_of_list (parameters_written
        (AndFunction NoPart paren (added NoParameter (map parameter_view parameters.now)))
        outer) (known types.old scope.old)) ≡ made.1) }
    ensures grows { Grows (known types.old scope.old) (known types.new scope.new) }
{
    let (list, level) = judge_prototype(scope, types, at, parameters)?;
    Ok((TypedPart::Function(paren, list), level))
}

/// The part that stands nearest to the name.
#[tactic(auto, using(c_tree::proofs::ViewLaws::expr_views, c_tree::proofs::TypedViewLaws::typed_views, c_check_walk::proofs::StayLaws::none_judged), unfolding(c_unit_typing::specs::ParameterScopes::scope_of_list))]
fn nearest_part(
    scope: &mut Scope,
    types: &mut Types,
    at: Place,
    part: &Part,
) -> Result<(TypedPart, Level), Fault>
    ensures judged { Answers (λ made. typed_part_view made.0 no_typed_part)
        (walks.judge_parts at (part_view part.now NoPart) (known types.old scope.old)) result
        (known types.new scope.new) }
    ensures left { IfOk result (λ made. (outer : Option Parameters)
        → level_given (scope_of_list (parameters_written (part_view part.now NoPart) outer)
        (known types.old scope.old)) ≡ made.1) }
    ensures grows { Grows (known types.old scope.old) (known types.new scope.new) }
{
    match part {
        Part::Function(paren, parameters) => {
            function_left(scope, types, at, *paren, parameters.as_slice())
        }
        part => {
            let one = judge_part(scope, types, at, part)?;
            Ok((one, Level::new(scope.alloc())))
        }
    }
}

/// Parts, with what the nearest to the name leaves.
#[tactic(auto, using(c_tree::proofs::PushLaws::pushes, c_check_walk::proofs::StayLaws::none_judged, crate::proofs::LeavingLaws::leaving))]
fn nearest_parts(
    scope: &mut Scope,
    types: &mut Types,
    at: Place,
    parts: &[Part],
) -> Result<(Items<TypedPart>, Level), Fault>
    ensures judged { Answers (λ made. added no_typed_part (map typed_part_view made.0))
        (walks.judge_parts at (added NoPart (map part_view parts.now))
        (known types.old scope.old)) result (known types.new scope.new) }
    ensures left { IfOk result (λ made. AreLeaving parts.now made.1
        (known types.old scope.old)) }
    ensures grows { Grows (known types.old scope.old) (known types.new scope.new) }
{
    let Some((first, rest)) = parts.split_first() else {
        return Ok((Items::new(scope.alloc()), Level::new(scope.alloc())));
    };
    let (one, level) = nearest_part(scope, types, at, first)?;
    let mut found = Items::new(scope.alloc());
    found.push(one)?;
    let parts = judge_parts_behind(scope, types, at, found, rest)?;
    Ok((parts, level))
}

/// What the core of a declarator gives, and what it leaves.
#[cycle(definition)]
#[tactic(auto, using(c_tree::proofs::ViewLaws::expr_views, c_tree::proofs::TypedViewLaws::typed_views, crate::proofs::LeavingLaws::leaving), unfolding(c_typing::specs::Walks::judge_core))]
fn core_left(
    scope: &mut Scope,
    types: &mut Types,
    which: Naming,
    at: Place,
    core: &Core,
) -> Result<Left<TypedCore>, Fault>
    ensures judged { Answers (λ left. typed_core_view left.one)
        (walks.judge_core which at (core_view core.now) (known types.old scope.old)) result
        (known types.new scope.new) }
    ensures tells { IfOk result (λ left. Tells (scope_of_core which at (core_view core.now))
        left.bare left.level (known types.old scope.old) (known types.new scope.new)) }
    ensures grows { Grows (known types.old scope.old) (known types.new scope.new) }
{
    match core {
        Core::Names(name) => {
            let home = home_as(scope, at, which)?;
            Ok(Left {
                one: TypedCore::Names(copied_name(scope.alloc(), name)?, home),
                bare: true,
                level: Level::new(scope.alloc()),
            })
        }
        Core::Unnamed => Ok(Left {
            one: TypedCore::Unnamed,
            bare: true,
            level: Level::new(scope.alloc()),
        }),
        Core::Nested(paren, d) => {
            let form = judge_definition(scope, types, which, at, d.get())?;
            Ok(Left {
                one: TypedCore::Nested(*paren, Boxed::new(scope.alloc(), form.one)?),
                bare: form.bare,
                level: form.level,
            })
        }
    }
}

/// What stands in the declarator of a definition, and what it leaves.
#[cycle(definition)]
#[tactic(auto, using(c_tree::proofs::ViewLaws::expr_views, c_tree::proofs::TypedViewLaws::typed_views, crate::proofs::LeavingLaws::leaving), unfolding(c_typing::specs::Walks::judge_form))]
fn judge_definition(
    scope: &mut Scope,
    types: &mut Types,
    which: Naming,
    at: Place,
    d: &Declarator,
) -> Result<Left<TypedForm>, Fault>
    ensures judged { Answers (λ left. typed_form_view left.one)
        (walks.judge_form which at (declarator_view d.now) (known types.old scope.old)) result
        (known types.new scope.new) }
    ensures tells { IfOk result (λ left. Tells (scope_of_declarator which at
        (declarator_view d.now)) left.bare left.level (known types.old scope.old)
        (known types.new scope.new)) }
    ensures grows { Grows (known types.old scope.old) (known types.new scope.new) }
{
    let stars = stars_with_nodes(scope, at, d.stars.as_slice())?;
    let inner = core_left(scope, types, which, at, &d.core)?;
    let (parts, level) = nearest_parts(scope, types, at, d.parts.as_slice())?;
    Ok(Left {
        one: TypedForm {
            stars,
            core: inner.one,
            parts,
        },
        bare: stays_bare(inner.bare, d.stars.as_slice(), d.parts.as_slice()),
        level: nearest(inner.bare, level, inner.level),
    })
}

/// The declarator of a definition behind specifiers, with the scope that its parameters leave.
#[tactic(auto, using(c_tree::proofs::TypedViewLaws::typed_views, crate::proofs::LeavingLaws::leaving), unfolding(c_typing::specs::Walks::judge_declarator_at))]
pub(crate) fn definition_behind(
    scope: &mut Scope,
    types: &mut Types,
    naming: Naming,
    base: &TypedSpecifiers,
    d: &Declarator,
) -> Result<(TypedDeclarator, Level), Fault>
    ensures home { IfOk result (λ made. made.0.home
        ≡ home_node (home_of (typed_declarator_view made.0))) }
    ensures judged { Answers (λ made. typed_declarator_view made.0)
        (walks.judge_declarator naming (typed_specifiers_view base.now) None (declarator_view d.now)
        (known types.old scope.old)) result (known types.new scope.new) }
    ensures level { IfOk result (λ made. level_of naming (specified_type
        (typed_specifiers_view base.now)) (declarator_view d.now) (known types.old scope.old)
        ≡ made.1) }
    ensures grows { Grows (known types.old scope.old) (known types.new scope.new) }
{
    let at = name_place(declarator_name(d), NOWHERE);
    let which = naming_of(types, naming, base.ty, d);
    let left = judge_definition(scope, types, which, at, d)?;
    let one = with_type(scope, types, at, None, left.one, base.ty)?;
    Ok((one, left.level))
}
