//! The code of the initialisers of objects that live as long as the program. It runs before `main` (C99 5.1.2, 6.7.8).
ghost use Rattle.std.specs.Prelude.{◌≡◌, [], map};
ghost use Rattle.c_tree.specs.Views.{added};
ghost use Rattle.c_tree.specs.TypedTree as typed;
ghost use Rattle.c_tree.specs.TypedParts.{declared_type, home_of, initialisers_in, initialisers_in_declaration, initialisers_in_declarators, initialisers_in_items, initialises, static_home, static_initialisers};
ghost use Rattle.c_tree.specs.TypedViews.{typed_declarator_view};
ghost use Rattle.c_tree.specs.TypedStatementViews.{typed_block_item_view, typed_block_view, typed_declaration_view, typed_external_view, typed_init_declarator_view, typed_initialiser_view, typed_statement_view};
ghost use Rattle.lower_rules.specs.Initialisers.{IsCodeOfStatics};
ghost use Rattle.lower_exprs.specs.declared.draft.Draft.{Draft as Seen};
ghost use Rattle.lower_exprs.specs.Drafts.{context_of, Grows};
ghost use Rattle.lower_units.specs.Statics.{HaveCodeOfStatics};

use c_check_declarators::homes::home_of;
use c_tree::{
    Home, TypedBlockItem, TypedDeclaration, TypedDeclarator, TypedExternal, TypedInitDeclarator,
    TypedInitialiser, TypedStatement,
};
use cc_base::{Place, TypeId};
use lower_exprs::{Draft, Scope, keep};
use lower_initialisers::initialise;

/// The home of what a declarator declares.
#[tactic(auto, using(c_tree::proofs::TypedViewLaws::typed_views))]
fn declared_home(d: &TypedDeclarator) -> Home
    ensures { result ≡ home_of (typed_declarator_view d.now) }
{
    home_of(&d.form)
}

/// The type of what a declarator declares.
#[tactic(auto, using(c_tree::proofs::TypedViewLaws::typed_views))]
pub(crate) fn declared_type(d: &TypedDeclarator) -> TypeId
    ensures { result ≡ declared_type (typed_declarator_view d.now) }
{
    d.ty
}

/// Appends nothing, as there are no initialisers.
fn skip(out: &mut Draft, k: &Scope<'_>)
    ensures { Grows (IsCodeOfStatics [] (context_of k.now))
        (HaveCodeOfStatics [] (context_of k.now)) out.old out.new }
{
    let _ = k;
    keep(out)
}

/// Appends the code of the initialiser of what a declarator declares, if that lives as long as the program.
fn initialised(out: &mut Draft, k: &Scope<'_>, d: &TypedDeclarator, at: Place, i: &TypedInitialiser)
    ensures { Grows (IsCodeOfStatics (initialises (static_home
        (home_of (typed_declarator_view d.now))) (declared_type (typed_declarator_view d.now)) at
        (typed_initialiser_view i.now)) (context_of k.now))
        (HaveCodeOfStatics (initialises (static_home (home_of (typed_declarator_view d.now)))
        (declared_type (typed_declarator_view d.now)) at (typed_initialiser_view i.now))
        (context_of k.now)) out.old out.new }
{
    match declared_home(d) {
        Home::None => skip(out, k),
        Home::Static(home) => initialise(out, k, home, declared_type(d), at, i),
        Home::Local(_) => skip(out, k),
        Home::Parameter(_) => skip(out, k),
        Home::Known(home) => initialise(out, k, home, declared_type(d), at, i),
    }
}

/// A declarator behind others.
fn declarator(out: &mut Draft, k: &Scope<'_>, one: &TypedInitDeclarator)
    ensures { (all : typed.TypedInitDeclarators) (start : Seen)
        → Grows (IsCodeOfStatics (initialisers_in_declarators all) (context_of k.now))
        (HaveCodeOfStatics (initialisers_in_declarators all) (context_of k.now)) start out.old
        → Grows (IsCodeOfStatics (initialisers_in_declarators
        (typed_init_declarator_view one.now all)) (context_of k.now))
        (HaveCodeOfStatics (initialisers_in_declarators (typed_init_declarator_view one.now all))
        (context_of k.now)) start out.new }
{
    match one {
        TypedInitDeclarator::Plain(_) => skip(out, k),
        TypedInitDeclarator::Initialised(d, at, i) => initialised(out, k, d, *at, i),
    }
}

fn declarators(out: &mut Draft, k: &Scope<'_>, all: &[TypedInitDeclarator])
    ensures { Grows (IsCodeOfStatics (initialisers_in_declarators
        (added typed.NoInitDeclarator (map typed_init_declarator_view all.now))) (context_of k.now))
        (HaveCodeOfStatics (initialisers_in_declarators
        (added typed.NoInitDeclarator (map typed_init_declarator_view all.now))) (context_of k.now))
        out.old out.new }
{
    for one in all {
        declarator(out, k, one)
    }
}

/// A declaration.
fn declaration(out: &mut Draft, k: &Scope<'_>, one: &TypedDeclaration)
    ensures { Grows (IsCodeOfStatics (initialisers_in_declaration (typed_declaration_view one.now))
        (context_of k.now)) (HaveCodeOfStatics (initialisers_in_declaration
        (typed_declaration_view one.now)) (context_of k.now)) out.old out.new }
{
    declarators(out, k, one.declarators.as_slice())
}

/// A statement.
#[cycle(statics)]
fn statement(out: &mut Draft, k: &Scope<'_>, one: &TypedStatement)
    ensures { Grows (IsCodeOfStatics (initialisers_in (typed_statement_view one.now))
        (context_of k.now)) (HaveCodeOfStatics (initialisers_in (typed_statement_view one.now))
        (context_of k.now)) out.old out.new }
{
    match one {
        TypedStatement::Block(_, items) => block(out, k, items.as_slice()),
        TypedStatement::Express(_) => skip(out, k),
        TypedStatement::Empty => skip(out, k),
        TypedStatement::If(_, _, _, s) => statement(out, k, s.get()),
        TypedStatement::IfElse(_, _, _, s, other) => {
            statement(out, k, s.get());
            statement(out, k, other.get())
        }
        TypedStatement::Switch(_, _, _, _, items) => block(out, k, items.as_slice()),
        TypedStatement::While(_, _, _, s) => statement(out, k, s.get()),
        TypedStatement::DoWhile(s, _, _, _) => statement(out, k, s.get()),
        TypedStatement::For(_, _, _, _, _, s) => statement(out, k, s.get()),
        TypedStatement::ForDeclaration(_, _, d, _, _, s) => {
            declaration(out, k, d.get());
            statement(out, k, s.get())
        }
        TypedStatement::Break(_) => skip(out, k),
        TypedStatement::Continue(_) => skip(out, k),
        TypedStatement::Return(_, _) => skip(out, k),
    }
}

/// What a block holds.
#[cycle(statics)]
fn block(out: &mut Draft, k: &Scope<'_>, all: &[TypedBlockItem])
    ensures { Grows (IsCodeOfStatics (initialisers_in_items (typed_block_view all.now))
        (context_of k.now)) (HaveCodeOfStatics (initialisers_in_items (typed_block_view all.now))
        (context_of k.now)) out.old out.new }
{
    for one in all {
        block_item(out, k, one)
    }
}

/// An item of a block behind others.
#[cycle(statics)]
fn block_item(out: &mut Draft, k: &Scope<'_>, one: &TypedBlockItem)
    ensures { (all : typed.TypedBlockItems) (start : Seen)
        → Grows (IsCodeOfStatics (initialisers_in_items all) (context_of k.now))
        (HaveCodeOfStatics (initialisers_in_items all) (context_of k.now)) start out.old
        → Grows (IsCodeOfStatics (initialisers_in_items (typed_block_item_view one.now all))
        (context_of k.now)) (HaveCodeOfStatics (initialisers_in_items
        (typed_block_item_view one.now all)) (context_of k.now)) start out.new }
{
    match one {
        TypedBlockItem::Statement(s) => statement(out, k, s),
        TypedBlockItem::Declaration(d) => declaration(out, k, d),
        TypedBlockItem::Case(_, _, _) => skip(out, k),
        TypedBlockItem::Default(_) => skip(out, k),
    }
}

/// A declaration or a function, behind what comes before it.
fn external(out: &mut Draft, k: &Scope<'_>, one: &TypedExternal)
    ensures { (all : typed.TypedTranslationUnit) (start : Seen)
        → Grows (IsCodeOfStatics (static_initialisers all) (context_of k.now))
        (HaveCodeOfStatics (static_initialisers all) (context_of k.now)) start out.old
        → Grows (IsCodeOfStatics (static_initialisers (typed_external_view one.now all))
        (context_of k.now)) (HaveCodeOfStatics (static_initialisers
        (typed_external_view one.now all)) (context_of k.now)) start out.new }
{
    match one {
        TypedExternal::Declaration(d) => declaration(out, k, d),
        TypedExternal::Function(f) => block(out, k, f.body.as_slice()),
    }
}

/// Appends the code of the static initialisers of a unit, in the order of the text.
pub(crate) fn statics(out: &mut Draft, k: &Scope<'_>, all: &[TypedExternal])
    ensures { Grows (IsCodeOfStatics (static_initialisers
        (added typed.NoExternal (map typed_external_view all.now))) (context_of k.now))
        (HaveCodeOfStatics (static_initialisers (added typed.NoExternal
        (map typed_external_view all.now))) (context_of k.now)) out.old out.new }
{
    for one in all {
        external(out, k, one)
    }
}
