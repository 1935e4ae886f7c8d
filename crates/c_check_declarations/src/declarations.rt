//! Declarations (C99 6.7).
#![tactic(auto)]

ghost use Rattle.std.specs.Prelude.{◌≡◌, map, option_copied};
ghost use Rattle.c_tree.specs.Tree as tree;
ghost use Rattle.c_tree.specs.TypedTree as typed;
ghost use Rattle.c_tree.specs.TypedTree.{TypedInitDeclarators, TypedDeclarator as SeenDeclarator};
ghost use Rattle.c_tree.specs.TypedParts.{home_of};
ghost use Rattle.c_tree.specs.Views.{added, declarator_view};
ghost use Rattle.c_tree.specs.StatementViews.{declaration_view, init_declarator_view, initialiser_view};
ghost use Rattle.c_tree.specs.TypedViews.{typed_declarator_view, typed_specifiers_view};
ghost use Rattle.c_tree.specs.TypedStatementViews.{typed_declaration_view, typed_init_declarator_view};
ghost use Rattle.c_check_context.specs.CodeViews.{storage_view};
ghost use Rattle.c_check_context.specs.ContextViews.{state_of};
ghost use Rattle.c_unit_typing.specs.UnitJudging.{Answers, Gives, UnitState};
ghost use Rattle.c_unit_typing.specs.DeclarationJudging as judging;

use crate::initialisers::initialiser;
use crate::sizes::{makes_chars, size_written};
use c_check_context::Context;
use c_check_context::conflicts::is_linked_home;
use c_check_context::homes::{Storage, is_lasting, naming_for, storage_of};
use c_check_expr::homes::home_of;
use c_check_expr::places::declarator_name;
use c_tree::{
    Declaration, Declarator, Home, Identifier, InitDeclarator, Initialiser, Items,
    TypedDeclaration, TypedDeclarator, TypedInitDeclarator, TypedSpecifiers,
};
use c_typing::Declared;
use c_typing::stops::no_room;
use cc_base::{Fault, Place};

/// The first place of a text.
const NOWHERE: Place = Place { line: 1, col: 1 };

/// Whether an initialiser of an object with this home defines a name with linkage.
fn is_linked_by(first: Option<&Declared>, home: Home) -> bool
    ensures { result ≡ judging.is_linked_by (option_copied first.entry) home }
{
    match home {
        Home::Static(n) => is_linked_home(first, n),
        Home::Known(n) => is_linked_home(first, n),
        _ => false,
    }
}

/// The name of what was judged is tried and declared.
#[tactic(auto, using(c_tree::proofs::TypedViewLaws::typed_views), unfolding(c_unit_typing::specs::DeclarationJudging::named))]
fn named(
    context: &mut Context,
    file: bool,
    storage: Storage,
    initialised: bool,
    name: Option<&Identifier>,
    one: TypedDeclarator,
) -> Result<TypedDeclarator, Fault>
    ensures { Answers typed_declarator_view (judging.named file (storage_view storage) initialised
        (option_copied name.entry) (typed_declarator_view one) (state_of context.old)) result
        (state_of context.new) }
{
    let Some(name) = name else {
        return Err(no_room(NOWHERE));
    };
    if let Some(fault) = context.broken_by_name(file, storage, initialised, name, one.ty) {
        return Err(fault);
    }
    context.declare(file, storage, name, one.ty, home_of(&one.form))?;
    Ok(one)
}

/// A declarator behind specifiers; `size` is what an initialiser gives to the array part without one.
#[tactic(auto, unfolding(c_unit_typing::specs::DeclarationJudging::judge_named))]
fn declared(
    context: &mut Context,
    file: bool,
    base: &TypedSpecifiers,
    initialised: bool,
    size: Option<u64>,
    d: &Declarator,
) -> Result<TypedDeclarator, Fault>
    ensures { Answers typed_declarator_view (judging.judge_named file
        (typed_specifiers_view base.now) initialised size (declarator_view d.now)
        (state_of context.old)) result (state_of context.new) }
{
    let storage = storage_of(base);
    let name = declarator_name(d);
    let naming = naming_for(file, storage, context.first_linked(name));
    let one = context.declarator(naming, base, size, d)?;
    named(context, file, storage, initialised, name, one)
}

/// An initialiser defines what has linkage.
#[tactic(auto, unfolding(c_unit_typing::specs::DeclarationJudging::defining))]
fn defining(context: &mut Context, name: Option<&Identifier>, home: Home) -> Result<(), Fault>
    ensures { (one : SeenDeclarator) → home_of one ≡ home
        → Answers (λ u. one) (judging.defining (option_copied name.entry) one
        (state_of context.old)) result (state_of context.new) }
{
    let Some(name) = name else {
        return Ok(());
    };
    let bytes = name.bytes.as_slice();
    if is_linked_by(context.linkage.linked.of(bytes), home) {
        let alloc = context.scope.alloc();
        context.linkage.defined.add(alloc, bytes)?;
    }
    Ok(())
}

/// A declarator with its initialiser, after those before it.
#[tactic(auto, using(c_tree::proofs::TypedViewLaws::typed_views), unfolding(c_unit_typing::specs::DeclarationJudging::judge_init_declarators))]
fn initialised_declarator(
    context: &mut Context,
    file: bool,
    base: &TypedSpecifiers,
    d: &Declarator,
    at: Place,
    i: &Initialiser,
) -> Result<TypedInitDeclarator, Fault>
    ensures { (all : tree.InitDeclarators) (start : UnitState) (list : TypedInitDeclarators)
        → judging.judge_init_declarators file (typed_specifiers_view base.now) all start
        ≡ Gives list (state_of context.old) → Answers (λ one. typed_init_declarator_view one list)
        (judging.judge_init_declarators file (typed_specifiers_view base.now)
        (tree.AndInitialised all (declarator_view d.now) at (initialiser_view i.now)) start) result
        (state_of context.new) }
{
    let chars = makes_chars(&context.types, base.ty, d);
    let size = size_written(context.scope.alloc(), chars, i)?;
    let one = declared(context, file, base, true, size, d)?;
    let lasting = is_lasting(file, storage_of(base));
    let value = initialiser(context, lasting, i, at, Some(one.ty), false)?;
    defining(context, declarator_name(d), home_of(&one.form))?;
    Ok(TypedInitDeclarator::Initialised(one, at, value.into_inner()))
}

/// A declarator with or without an initialiser, after those before it.
#[tactic(auto, unfolding(c_unit_typing::specs::DeclarationJudging::judge_init_declarators))]
fn init_declarator(
    context: &mut Context,
    file: bool,
    base: &TypedSpecifiers,
    d: &InitDeclarator,
) -> Result<TypedInitDeclarator, Fault>
    ensures { (all : tree.InitDeclarators) (start : UnitState) (list : TypedInitDeclarators)
        → judging.judge_init_declarators file (typed_specifiers_view base.now) all start
        ≡ Gives list (state_of context.old) → Answers (λ one. typed_init_declarator_view one list)
        (judging.judge_init_declarators file (typed_specifiers_view base.now)
        (init_declarator_view d.now all) start) result (state_of context.new) }
{
    match d {
        InitDeclarator::Plain(d) => {
            let one = declared(context, file, base, false, None, d)?;
            Ok(TypedInitDeclarator::Plain(one))
        }
        InitDeclarator::Initialised(d, at, i) => {
            initialised_declarator(context, file, base, d, *at, i)
        }
    }
}

/// Declarators behind specifiers, one after another.
#[tactic(auto, unfolding(c_unit_typing::specs::DeclarationJudging::judge_init_declarators))]
fn init_declarators(
    context: &mut Context,
    file: bool,
    base: &TypedSpecifiers,
    declarators: &[InitDeclarator],
) -> Result<Items<TypedInitDeclarator>, Fault>
    ensures { Answers (λ list. added typed.NoInitDeclarator (map typed_init_declarator_view list))
        (judging.judge_init_declarators file (typed_specifiers_view base.now)
        (added tree.NoInitDeclarator (map init_declarator_view declarators.now))
        (state_of context.old)) result (state_of context.new) }
{
    let mut list = Items::new(context.scope.alloc());
    for d in declarators {
        let one = init_declarator(context, file, base, d)?;
        list.push(one)?;
    }
    Ok(list)
}

/// A declaration, at file scope or in a block.
#[tactic(auto, using(crate::proofs::DeclaratorLaws::none_of_declarators), unfolding(c_unit_typing::specs::DeclarationJudging::judge_declaration))]
pub fn declaration(
    context: &mut Context,
    file: bool,
    d: &Declaration,
) -> Result<TypedDeclaration, Fault>
    ensures { Answers typed_declaration_view (judging.judge_declaration file
        (declaration_view d.now) (state_of context.old)) result (state_of context.new) }
{
    let alone = d.declarators.as_slice().split_last().is_none();
    let specifiers = context.specifiers(&d.specifiers, alone)?;
    let declarators = init_declarators(context, file, &specifiers, d.declarators.as_slice())?;
    Ok(TypedDeclaration {
        specifiers,
        declarators,
    })
}
