//! Function definitions (C99 6.9.1).
#![tactic(auto)]

ghost use Rattle.std.specs.Prelude.{◌≡◌, ◌&&◌, map, Option, Some, option_copied, option_map};
ghost use Rattle.c_types.specs.Table.{shape_at};
ghost use Rattle.c_tree.specs.TypedTree as typed;
ghost use Rattle.c_tree.specs.TypedTree.{TypedParts as SeenParts, TypedParameters as SeenParameters, TypedTranslationUnit};
ghost use Rattle.c_tree.specs.TypedParts.{declared_type};
ghost use Rattle.c_tree.specs.Views.{added, declarator_view, specifiers_view};
ghost use Rattle.c_tree.specs.StatementViews.{block_view};
ghost use Rattle.c_tree.specs.TypedViews.{typed_core_view, typed_declarator_view, typed_form_view, typed_part_view, typed_specifiers_view, parameters_seen};
ghost use Rattle.c_tree.specs.TypedStatementViews.{typed_block_view};
ghost use Rattle.c_typing.specs.KindViews.{shape_or_void};
ghost use Rattle.c_typing.specs.declared.declared.Declared.TheVariants as declared;
ghost use Rattle.c_typing.specs.Scopes.{place_among};
ghost use Rattle.c_typing.specs.Tests.{first_broken, has_some};
ghost use Rattle.runtime_calls.specs.Prototypes.{runtime_of};
ghost use Rattle.c_check_context.specs.CodeViews.{storage_view};
ghost use Rattle.c_check_context.specs.ContextViews.{state_of};
ghost use Rattle.c_unit_typing.specs.UnitJudging as outcomes;
ghost use Rattle.c_unit_typing.specs.UnitJudging.{Answers, known_of};
ghost use Rattle.c_unit_typing.specs.UnitRefusals.{definition_tests, is_function_declared};
ghost use Rattle.c_unit_typing.specs.Units as units;
ghost use Rattle.c_unit_typing.specs.DefinitionJudging as judging;

use crate::around::Around;
use crate::blocks::{go_on, leave};
use crate::statements::block_items;
use c_check_context::Context;
use c_check_context::conflicts::{declared_as, runtime_of};
use c_check_context::homes::{Storage, naming_for, storage_of};
use c_check_expr::Level;
use c_check_expr::places::declarator_name;
use c_tree::{
    BlockItem, FunctionDefinition, Identifier, Items, TypedBlockItem, TypedCore, TypedDeclarator,
    TypedForm, TypedFunction, TypedParameter, TypedPart, TypedSpecifiers,
};
use c_types::TypeShape;
use c_typing::Declared;
use c_typing::shapes::shape_at;
use c_typing::stops::{no_room, refusal};
use cc_base::{Fault, Limit, Place, Rule, TypeId};

/// The most functions that a unit defines.
const MOST_FUNCTIONS: usize = 65_535;

/// The first place of a text.
const NOWHERE: Place = Place { line: 1, col: 1 };

/// The parameters of a part that stands behind others, if it is a function part.
#[tactic(auto, using(c_tree::proofs::TypedViewLaws::typed_views))]
fn own_parameters(part: &TypedPart) -> Option<&[TypedParameter]>
    ensures { (all : SeenParts) (outer : Option SeenParameters)
        → units.declares_parameters (typed_part_view part.now all) outer
        ≡ units.declares_parameters all (option_map (λ p. parameters_seen p.now) result) }
{
    match part {
        TypedPart::Array(_, _) => None,
        TypedPart::SizedArray(_, _, _, _) => None,
        TypedPart::Function(_, parameters) => Some(parameters.as_slice()),
    }
}

/// The parameters of the first part, which stands nearest to the name.
#[tactic(auto, using(c_tree::proofs::PushLaws::pushes))]
fn nearest_parameters<'f>(
    parts: &'f [TypedPart],
    outer: Option<&'f [TypedParameter]>,
) -> Option<&'f [TypedParameter]>
    ensures { option_map (λ p. parameters_seen p.now) result
        ≡ units.declares_parameters (added typed.NoPart (map typed_part_view parts.now))
        (option_map (λ p. parameters_seen p.now) outer.entry) }
{
    let mut rest = parts;
    let mut found = outer;
    'inwards: while let Some((part, before)) = rest.split_last() {
        found = own_parameters(part);
        rest = before;
    }
    found
}

/// The parameters that a definition begins with: those of the function part that stands nearest to the name.
#[cycle(parameters)]
#[tactic(auto, using(c_tree::proofs::TypedViewLaws::typed_views))]
fn parameters_of<'f>(
    form: &'f TypedForm,
    outer: Option<&'f [TypedParameter]>,
) -> Option<&'f [TypedParameter]>
    ensures { option_map (λ p. parameters_seen p.now) result
        ≡ units.parameters_of_form (typed_form_view form.now)
        (option_map (λ p. parameters_seen p.now) outer.entry) }
{
    let outer = match form.stars.as_slice().split_first() {
        None => outer,
        Some(_) => None,
    };
    let found = nearest_parameters(form.parts.as_slice(), outer);
    parameters_of_core(&form.core, found)
}

#[cycle(parameters)]
#[tactic(auto, using(c_tree::proofs::TypedViewLaws::typed_views))]
fn parameters_of_core<'f>(
    core: &'f TypedCore,
    found: Option<&'f [TypedParameter]>,
) -> Option<&'f [TypedParameter]>
    ensures { option_map (λ p. parameters_seen p.now) result
        ≡ units.parameters_of_core (typed_core_view core.now)
        (option_map (λ p. parameters_seen p.now) found.entry) }
{
    match core {
        TypedCore::Names(_, _) => found,
        TypedCore::Unnamed => found,
        TypedCore::Nested(_, form) => parameters_of(form.get(), found),
    }
}

fn is_function_declared(what: Declared) -> bool
    ensures { result ≡ is_function_declared what }
{
    match what {
        Declared::Function(_) => true,
        _ => false,
    }
}

/// Whether a name is that of a runtime function.
fn is_runtime_name(name: &Identifier) -> bool
    ensures { result ≡ has_some (runtime_of name.now.bytes) }
{
    runtime_of(name.bytes.as_slice()).is_some()
}

/// Whether a definition has its own parameters, and makes a function.
fn is_defined_as_function(written: bool, what: Declared) -> bool
    ensures { result ≡ (written && is_function_declared what) }
{
    written && is_function_declared(what)
}

/// The result of a function type.
fn result_of(shape: Option<&TypeShape>) -> Option<TypeId>
    ensures { result ≡ judging.result_of (shape_or_void (option_copied shape.entry)) }
{
    match shape {
        Some(TypeShape::Function(_, to)) => Some(*to),
        _ => None,
    }
}

/// The body of a function with this result, in the scope that its parameters leave.
#[tactic(auto, unfolding(c_unit_typing::specs::DefinitionJudging::body))]
fn body_in(
    context: &mut Context,
    brace: Place,
    to: TypeId,
    level: Level,
    items: &[BlockItem],
) -> Result<Items<TypedBlockItem>, Fault>
    ensures { Answers typed_block_view (judging.body brace (Some to) level (block_view items.now)
        (state_of context.old)) result (state_of context.new) }
{
    go_on(context, level)?;
    let around = Around {
        result: to,
        in_loop: false,
        breakable: false,
    };
    let list = block_items(context, around, None, items)?;
    leave(context, brace)?;
    Ok(list)
}

/// The body, if its function has a result and parameters of its own.
#[tactic(auto, unfolding(c_unit_typing::specs::DefinitionJudging::body))]
fn body(
    context: &mut Context,
    brace: Place,
    to: Option<TypeId>,
    level: Level,
    items: &[BlockItem],
) -> Result<Items<TypedBlockItem>, Fault>
    ensures { Answers typed_block_view (judging.body brace to level (block_view items.now)
        (state_of context.old)) result (state_of context.new) }
{
    match to {
        Some(to) => body_in(context, brace, to, level, items),
        None => Err(no_room(brace)),
    }
}

/// The body of the function that a declarator declares.
#[tactic(auto, using(c_tree::proofs::TypedViewLaws::typed_views))]
fn body_of(
    context: &mut Context,
    one: &TypedDeclarator,
    brace: Place,
    level: Level,
    items: &[BlockItem],
) -> Result<Items<TypedBlockItem>, Fault>
    ensures { Answers typed_block_view (judging.body brace
        (judging.result_of (shape_at context.old.types
        (declared_type (typed_declarator_view one.now)))) level (block_view items.now)
        (state_of context.old)) result (state_of context.new) }
{
    let to = result_of(shape_at(&context.types, one.ty));
    body(context, brace, to, level, items)
}

/// The first rule that the name of a function with a body breaks.
fn broken_by_definition(
    context: &Context,
    storage: Storage,
    written: bool,
    name: &Identifier,
    t: TypeId,
) -> Option<Fault>
    ensures { result ≡ first_broken (definition_tests context.now.types
        (known_of (state_of context.now))
        (storage_view storage) written name.now.bytes t name.now.place) }
{
    let what = declared_as(&context.types, storage, t);
    if context.is_redeclared(true, true, name, what) {
        return Some(refusal(name.place, Rule::Redeclared));
    }
    if is_runtime_name(name) {
        return Some(refusal(name.place, Rule::Redeclared));
    }
    if is_defined_as_function(written, what) {
        return None;
    }
    Some(refusal(name.place, Rule::Mismatch))
}

/// A unit defines no more than 65,535 functions. The answer is how many come before.
#[tactic(auto, unfolding(c_unit_typing::specs::DefinitionJudging::counted))]
fn counted(context: &mut Context, name: &Identifier) -> Result<usize, Fault>
    ensures { Answers (λ number. number) (judging.counted name.now.place
        (place_among context.old.scope.scopes.defined name.now.bytes) (state_of context.old)) result
        (state_of context.new) }
{
    match context.scope.function(name.bytes.as_slice()) {
        None => Err(no_room(name.place)),
        Some(number) => {
            if number < MOST_FUNCTIONS {
                Ok(number)
            } else {
                Err(Fault::TooLarge {
                    place: name.place,
                    limit: Limit::Functions,
                })
            }
        }
    }
}

/// The name of a function is declared, and defined.
#[tactic(auto, unfolding(c_unit_typing::specs::DefinitionJudging::defined))]
fn define(context: &mut Context, name: &Identifier, t: TypeId) -> Result<(), Fault>
    ensures { Answers (λ u. declared.Function t) (judging.defined name.now t (state_of context.old))
        result (state_of context.new) }
{
    context.linked_name(name, Declared::Function(t))?;
    let alloc = context.scope.alloc();
    context.linkage.defined.add(alloc, name.bytes.as_slice())?;
    Ok(())
}

/// What was judged before a body is tried and defined.
#[tactic(auto, using(c_tree::proofs::TypedViewLaws::typed_views), unfolding(c_unit_typing::specs::DefinitionJudging::defined_as))]
fn define_as(
    context: &mut Context,
    name: Option<&Identifier>,
    base: &TypedSpecifiers,
    one: &TypedDeclarator,
) -> Result<(), Fault>
    ensures { Answers (λ u. typed_declarator_view one.now)
        (judging.defined_as (option_copied name.entry) (typed_specifiers_view base.now)
        (typed_declarator_view one.now) (state_of context.old)) result (state_of context.new) }
{
    let Some(name) = name else {
        return Err(no_room(NOWHERE));
    };
    let written = parameters_of(&one.form, None).is_some();
    if let Some(fault) = broken_by_definition(context, storage_of(base), written, name, one.ty) {
        return Err(fault);
    }
    counted(context, name)?;
    define(context, name, one.ty)
}

/// A function whose declarator is judged and defined, with its body.
#[tactic(auto, using(c_tree::proofs::TypedViewLaws::typed_views))]
fn with_body(
    context: &mut Context,
    specifiers: TypedSpecifiers,
    declarator: TypedDeclarator,
    level: Level,
    f: &FunctionDefinition,
) -> Result<TypedFunction, Fault>
    ensures { (before : TypedTranslationUnit) → Answers (λ made. typed.AndFunctionBody before
        (typed_specifiers_view made.specifiers) (typed_declarator_view made.declarator) made.brace
        (typed_block_view made.body)) (outcomes.next (judging.body f.now.brace
        (judging.result_of (shape_at context.old.types
        (declared_type (typed_declarator_view declarator)))) level (block_view f.now.body)
        (state_of context.old)) (λ list. outcomes.pure
        (typed.AndFunctionBody before (typed_specifiers_view specifiers)
        (typed_declarator_view declarator) f.now.brace list))) result (state_of context.new) }
{
    let items = body_of(context, &declarator, f.brace, level, f.body.as_slice())?;
    Ok(TypedFunction {
        specifiers,
        declarator,
        brace: f.brace,
        body: items,
    })
}

/// A function with its body.
#[tactic(auto, using(c_tree::proofs::TypedViewLaws::typed_views), unfolding(c_unit_typing::specs::DefinitionJudging::judge_definition))]
pub(crate) fn definition(
    context: &mut Context,
    f: &FunctionDefinition,
) -> Result<TypedFunction, Fault>
    ensures { (before : TypedTranslationUnit) → Answers (λ made. typed.AndFunctionBody before
        (typed_specifiers_view made.specifiers) (typed_declarator_view made.declarator) made.brace
        (typed_block_view made.body)) (judging.judge_definition before
        (specifiers_view f.now.specifiers) (declarator_view f.now.declarator) f.now.brace
        (block_view f.now.body) (state_of context.old)) result (state_of context.new) }
{
    let specifiers = context.specifiers(&f.specifiers, false)?;
    let name = declarator_name(&f.declarator);
    let naming = naming_for(true, storage_of(&specifiers), context.first_linked(name));
    let (declarator, level) = context.definition(naming, &specifiers, &f.declarator)?;
    define_as(context, name, &specifiers, &declarator)?;
    with_body(context, specifiers, declarator, level, f)
}
