//! Units (C99 6.9).
#![tactic(auto)]

ghost use Rattle.std.specs.Prelude.{◌≡◌, ◌&&◌, codes, map, OnOk, IfOk, option_copied};
ghost use Rattle.c_types.specs.Table.{shape_at};
ghost use Rattle.c_tree.specs.Tree as tree;
ghost use Rattle.c_tree.specs.TypedTree as typed;
ghost use Rattle.c_tree.specs.TypedTree.{TypedTranslationUnit};
ghost use Rattle.c_tree.specs.Views.{added};
ghost use Rattle.c_tree.specs.StatementViews.{external_view, unit_view};
ghost use Rattle.c_tree.specs.TypedStatementViews.{typed_external_view, typed_unit_view};
ghost use Rattle.c_typing.specs.KindViews.{shape_or_void};
ghost use Rattle.c_typing.specs.Scopes.{entry_of, place_among};
ghost use Rattle.c_typing.specs.Tests.{has_some};
ghost use Rattle.c_check_context.specs.ContextViews.{state_of};
ghost use Rattle.c_unit_typing.specs.UnitJudging.{Answers, Gives, UnitState};
ghost use Rattle.c_unit_typing.specs.DefinitionJudging as judging;

use crate::definitions::definition;
use c_check_context::Context;
use c_check_context::conflicts::is_int;
use c_check_context::linkage::{Linkage, Names};
use c_check_declarations::declaration;
use c_check_expr::places::declarator_name;
use c_tree::{External, Items, TypedExternal, TypedUnit, Unit};
use c_types::{TypeShape, Types};
use c_typing::shapes::shape_at;
use c_typing::stops::refusal;
use c_typing::{Declared, Scope};
use cc_base::{Fault, NoMemory, Place, Rule};
use std::alloc::Global;

/// The first place of a text.
const NOWHERE: Place = Place { line: 1, col: 1 };

/// Adds the name of a function that is defined.
fn add_written(alloc: Global, names: &mut Names, external: &External) -> Result<(), NoMemory>
    ensures { (all : tree.TranslationUnit) → judging.functions_written all ≡ names.old
        → OnOk result (judging.functions_written (external_view external.now all) ≡ names.new) }
{
    match external {
        External::Declaration(_) => Ok(()),
        External::Function(f) => match declarator_name(&f.declarator) {
            Some(name) => names.add(alloc, name.bytes.as_slice()),
            None => Ok(()),
        },
    }
}

/// The names of the functions that a unit defines, each once.
fn functions_written(alloc: Global, externals: &[External]) -> Result<Names, NoMemory>
    ensures { IfOk result (λ names. names ≡ judging.functions_written
        (added tree.NoExternal (map external_view externals.now))) }
{
    let mut names = Names::new(alloc);
    for external in externals {
        add_written(alloc, &mut names, external)?;
    }
    Ok(names)
}

/// What is known before the text of a unit.
pub(crate) fn before_unit(alloc: Global, unit: &Unit) -> Result<Context, NoMemory>
    ensures { IfOk result (λ before. state_of before ≡ judging.before_unit (unit_view unit.now)) }
{
    let names = functions_written(alloc, unit.externals.as_slice())?;
    let types = Types::new(alloc)?;
    Ok(Context {
        types,
        scope: Scope::new(alloc, names.into_set()),
        linkage: Linkage::new(alloc),
    })
}

/// Whether a function's type is that of `int main(void)`.
fn is_main_shape(types: &Types, shape: Option<&TypeShape>) -> bool
    ensures { result ≡ judging.is_main_shape types.now (shape_or_void (option_copied shape.entry)) }
{
    match shape {
        Some(TypeShape::Function(parameters, to)) => match parameters.ids().split_first() {
            None => is_int(types, *to),
            Some(_) => false,
        },
        _ => false,
    }
}

fn is_main(types: &Types, what: Option<&Declared>) -> bool
    ensures { result ≡ judging.is_main types.now (option_copied what.entry) }
{
    match what {
        Some(Declared::Function(t)) => is_main_shape(types, shape_at(types, *t)),
        _ => false,
    }
}

/// Whether `int main(void)` is defined (C99 5.1.2.2.1).
fn has_main(context: &Context) -> bool
    ensures { result ≡ (judging.is_main context.now.types
        (entry_of context.now.linkage.linked (codes "main")) && has_some
        (place_among context.now.scope.scopes.defined (codes "main"))) }
{
    is_main(&context.types, context.linkage.linked.of(b"main"))
        && context.scope.function(b"main").is_some()
}

/// A declaration or a function, after those before it.
#[tactic(auto, unfolding(c_unit_typing::specs::DefinitionJudging::judge_unit))]
fn judged_external(context: &mut Context, external: &External) -> Result<TypedExternal, Fault>
    ensures { (all : tree.TranslationUnit) (start : UnitState) (list : TypedTranslationUnit)
        → judging.judge_unit all start ≡ Gives list (state_of context.old)
        → Answers (λ one. typed_external_view one list)
        (judging.judge_unit (external_view external.now all) start) result (state_of context.new) }
{
    match external {
        External::Declaration(d) => {
            let one = declaration(context, true, d)?;
            Ok(TypedExternal::Declaration(one))
        }
        External::Function(f) => {
            let one = definition(context, f)?;
            Ok(TypedExternal::Function(one))
        }
    }
}

/// The declarations and functions of a unit, one after another.
#[tactic(auto, unfolding(c_unit_typing::specs::DefinitionJudging::judge_unit))]
fn externals(context: &mut Context, externals: &[External]) -> Result<Items<TypedExternal>, Fault>
    ensures { Answers (λ list. added typed.NoExternal (map typed_external_view list))
        (judging.judge_unit (added tree.NoExternal (map external_view externals.now))
        (state_of context.old)) result (state_of context.new) }
{
    let mut list = Items::new(context.scope.alloc());
    for external in externals {
        let one = judged_external(context, external)?;
        list.push(one)?;
    }
    Ok(list)
}

/// A unit. That it has a `main` is tried last.
#[tactic(auto, unfolding(c_unit_typing::specs::DefinitionJudging::judge_whole))]
pub(crate) fn whole(context: &mut Context, unit: &Unit) -> Result<TypedUnit, Fault>
    ensures { Answers typed_unit_view (judging.judge_whole (unit_view unit.now)
        (state_of context.old)) result (state_of context.new) }
{
    let list = externals(context, unit.externals.as_slice())?;
    if !has_main(context) {
        return Err(refusal(NOWHERE, Rule::NoMain));
    }
    Ok(TypedUnit { externals: list })
}
