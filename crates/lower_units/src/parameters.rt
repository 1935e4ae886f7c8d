//! The parameters of a function that is defined (C99 6.7.5.3, 6.9.1).
ghost use Rattle.std.specs.Prelude.{◌≡◌, [], ◌∷◌, ◌++◌, map, option_map, IfOk, OnOk};
ghost use Rattle.c_tree.specs.Views.{added};
ghost use Rattle.c_tree.specs.TypedTree as typed;
ghost use Rattle.c_tree.specs.TypedParts.{declared_home, is_void_list, is_void_word, nearest_parameters, parameter_home, parameter_objects, parameters_in_core, parameters_in_form, parameters_of, unless_starred};
ghost use Rattle.c_tree.specs.TypedViews.{typed_core_view, typed_declarator_view, typed_declared_of, typed_form_view, typed_parameter_view, typed_part_view, typed_specifier_view, typed_specifiers_of, parameters_seen};
ghost use Rattle.lower_units.specs.Heads.{taken_as};

use c_check_declarators::homes::home_of;
use c_lexer::Keyword;
use c_tree::{
    Home, TypedCore, TypedDeclarator, TypedForm, TypedParameter, TypedPart, TypedSpecifier,
    TypedStar,
};
use cc_base::{NoMemory, NodeId};
use cil_form::{Parameter, Parameters};
use std::alloc::Global;

/// No parameters where a form is that of a pointer.
fn unless_starred<'a>(stars: &[TypedStar], outer: &'a [TypedParameter]) -> &'a [TypedParameter]
    ensures { parameters_seen result.now ≡ unless_starred stars.now (parameters_seen outer.now) }
{
    if stars.is_empty() { outer } else { &[] }
}

/// The parameters of the part that stands nearest to the name.
#[tactic(auto, using(c_tree::proofs::PushLaws::pushes))]
fn nearest<'a>(parts: &'a [TypedPart], outer: &'a [TypedParameter]) -> &'a [TypedParameter]
    ensures { parameters_seen result.now ≡ nearest_parameters
        (added typed.NoPart (map typed_part_view parts.now)) (parameters_seen outer.now) }
{
    let mut found = outer;
    let mut rest = parts;
    'inwards: while let Some((part, before)) = rest.split_last() {
        found = of_part(part);
        rest = before;
    }
    found
}

/// The parameters of a part, which hide those of the parts behind it.
#[tactic(auto, using(c_tree::proofs::TypedViewLaws::typed_views))]
fn of_part(part: &TypedPart) -> &[TypedParameter]
    ensures { (all : typed.TypedParts) (outer : typed.TypedParameters)
        → nearest_parameters (typed_part_view part.now all) outer
        ≡ nearest_parameters all (parameters_seen result.now) }
{
    match part {
        TypedPart::Array(_, _) => &[],
        TypedPart::SizedArray(_, _, _, _) => &[],
        TypedPart::Function(_, all) => all.as_slice(),
    }
}

/// The parameters of what a form declares, where a form around it gives some.
#[cycle(parameters)]
#[tactic(auto, using(c_tree::proofs::TypedViewLaws::typed_views))]
fn in_form<'a>(form: &'a TypedForm, outer: &'a [TypedParameter]) -> &'a [TypedParameter]
    ensures { parameters_seen result.now ≡ parameters_in_form (typed_form_view form.now)
        (parameters_seen outer.now) }
{
    let own = unless_starred(form.stars.as_slice(), outer);
    let found = nearest(form.parts.as_slice(), own);
    in_core(&form.core, found)
}

#[cycle(parameters)]
#[tactic(auto, using(c_tree::proofs::TypedViewLaws::typed_views))]
fn in_core<'a>(core: &'a TypedCore, found: &'a [TypedParameter]) -> &'a [TypedParameter]
    ensures { parameters_seen result.now ≡ parameters_in_core (typed_core_view core.now)
        (parameters_seen found.now) }
{
    match core {
        TypedCore::Names(_, _) => found,
        TypedCore::Unnamed => found,
        TypedCore::Nested(_, form) => in_form(form.get(), found),
    }
}

/// Whether specifiers are the word `void` by itself.
#[tactic(auto, using(c_tree::proofs::TypedViewLaws::typed_views, c_tree::proofs::TypedPushLaws::typed_pushes))]
fn is_void_word(specifiers: &[TypedSpecifier]) -> bool
    ensures { result ≡ is_void_word (typed_specifiers_of
        (map typed_specifier_view specifiers.now)) }
{
    let Some((last, before)) = specifiers.split_last() else {
        return false;
    };
    if before.split_last().is_some() {
        return false;
    }
    match last {
        TypedSpecifier::Keyword(word) => word.keyword == Keyword::Void,
        _ => false,
    }
}

/// Whether a parameter that stands alone is `void`.
#[tactic(auto, using(c_tree::proofs::TypedViewLaws::typed_views))]
fn is_void_itself(one: &TypedParameter) -> bool
    ensures { result ≡ is_void_list (typed_parameter_view one.now typed.NoParameter) }
{
    one.declarator.is_none() && is_void_word(one.specifiers.list.as_slice())
}

/// Of two parameters none is `void`.
#[tactic(auto, using(c_tree::proofs::TypedViewLaws::typed_views))]
fn is_void_behind(last: &TypedParameter, other: &TypedParameter) -> bool
    ensures { (all : typed.TypedParameters) → result ≡ is_void_list
        (typed_parameter_view last.now (typed_parameter_view other.now all)) }
{
    let (_last, _other) = (last.ty, other.ty);
    false
}

/// Whether the parameters are `(void)`.
#[tactic(auto, using(c_tree::proofs::PushLaws::pushes))]
fn is_void_alone(parameters: &[TypedParameter]) -> bool
    ensures { result ≡ is_void_list (parameters_seen parameters.now) }
{
    let Some((last, before)) = parameters.split_last() else {
        return false;
    };
    match before.split_last() {
        Some((other, _)) => is_void_behind(last, other),
        None => is_void_itself(last),
    }
}

/// The home of a parameter that has a name.
fn named_home(form: &Option<TypedForm>) -> Option<NodeId>
    ensures { result ≡ parameter_home (declared_home
        (typed_declared_of (option_map typed_form_view form.now))) }
{
    match form {
        Some(form) => match home_of(form) {
            Home::Parameter(node) => Some(node),
            Home::None => None,
            Home::Static(_) => None,
            Home::Local(_) => None,
            Home::Known(_) => None,
        },
        None => None,
    }
}

/// A parameter behind others.
#[tactic(auto, using(c_tree::proofs::TypedViewLaws::typed_views))]
fn add(out: &mut Vec<Parameter>, one: &TypedParameter) -> Result<(), NoMemory>
    ensures { (all : typed.TypedParameters) → OnOk result
        (map taken_as out.old.items ≡ parameter_objects all → map taken_as out.new.items
        ≡ parameter_objects (typed_parameter_view one.now all)) }
{
    let home = named_home(&one.declarator);
    out.push(Parameter { ty: one.ty, home })?;
    Ok(())
}

/// Parameters in order.
#[tactic(auto, using(c_tree::proofs::PushLaws::pushes))]
fn listed(alloc: Global, parameters: &[TypedParameter]) -> Result<Parameters, NoMemory>
    ensures { IfOk result (λ all. map taken_as all
        ≡ parameter_objects (parameters_seen parameters.now)) }
{
    let mut all = Vec::new(alloc);
    for one in parameters {
        add(&mut all, one)?;
    }
    Ok(Parameters(all))
}

/// The parameters of the function that a declarator declares.
#[tactic(auto, using(c_tree::proofs::TypedViewLaws::typed_views))]
pub(crate) fn parameters_of(alloc: Global, d: &TypedDeclarator) -> Result<Parameters, NoMemory>
    ensures { IfOk result (λ all. map taken_as all ≡ parameters_of (typed_declarator_view d.now)) }
{
    let found = in_form(&d.form, &[]);
    if is_void_alone(found) {
        return Ok(Parameters(Vec::new(alloc)));
    }
    listed(alloc, found)
}
