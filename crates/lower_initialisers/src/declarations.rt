//! The code of declarations, with the initialisers of local objects.
ghost use Rattle.std.specs.Prelude.{◌≡◌, [], ◌∷◌, map};
ghost use Rattle.c_tree.specs.Views.{added};
ghost use Rattle.c_tree.specs.TypedTree as typed;
ghost use Rattle.c_tree.specs.TypedParts.{declared_type, home_of};
ghost use Rattle.c_tree.specs.TypedViews.{typed_declarator_view};
ghost use Rattle.c_tree.specs.TypedStatementViews.{typed_declaration_view, typed_init_declarator_view, typed_initialiser_view};
ghost use Rattle.lower_rules.specs.Initialisers.{IsCodeOfDeclaration, IsCodeOfDeclarators, IsCodeOfDeclared, IsCodeOfObject};
ghost use Rattle.lower_exprs.specs.Drafts.{context_of, Grows};
ghost use Rattle.lower_initialisers.specs.Ready.{HasCodeOfDeclaration, HasCodeOfDeclarators, HasCodeOfDeclared, HasCodeOfObject};

use crate::filling::{Whole, fill_whole};
use c_check_declarators::homes::home_of;
use c_tree::{Home, TypedDeclaration, TypedDeclarator, TypedInitDeclarator, TypedInitialiser};
use cc_base::{NodeId, Place, TypeId};
use lower_exprs::{Draft, Scope, keep, object_in, refuse};

/// Appends the code of a declaration.
pub fn declaration(out: &mut Draft, k: &Scope<'_>, d: &TypedDeclaration)
    ensures { Grows (IsCodeOfDeclaration (typed_declaration_view d.now) (context_of k.now))
        (HasCodeOfDeclaration (typed_declaration_view d.now) (context_of k.now)) out.old out.new }
{
    declarators(out, k, d.declarators.as_slice())
}

/// Appends the code of declarators in order.
#[tactic(auto, using(crate::proofs::Rules::nothing_rules))]
fn declarators(out: &mut Draft, k: &Scope<'_>, all: &[TypedInitDeclarator])
    ensures { Grows (IsCodeOfDeclarators (added typed.NoInitDeclarator
        (map typed_init_declarator_view all.now)) (context_of k.now))
        (HasCodeOfDeclarators (added typed.NoInitDeclarator
        (map typed_init_declarator_view all.now)) (context_of k.now)) out.old out.new }
{
    for one in all {
        match one {
            TypedInitDeclarator::Plain(_) => keep(out),
            TypedInitDeclarator::Initialised(d, at, i) => declared(out, k, d, *at, i),
        }
    }
}

/// The home of what a declarator declares.
#[tactic(auto, using(c_tree::proofs::TypedViewLaws::typed_views))]
fn declared_home(d: &TypedDeclarator) -> Home
    ensures { result ≡ home_of (typed_declarator_view d.now) }
{
    home_of(&d.form)
}

/// The type of what a declarator declares.
#[tactic(auto, using(c_tree::proofs::TypedViewLaws::typed_views))]
fn declared_type(d: &TypedDeclarator) -> TypeId
    ensures { result ≡ declared_type (typed_declarator_view d.now) }
{
    d.ty
}

/// An object that lives as long as the program is initialised before `main` begins, and not where its declaration stands.
#[tactic(auto, using(crate::proofs::Rules::nothing_rules))]
fn declared(out: &mut Draft, k: &Scope<'_>, d: &TypedDeclarator, at: Place, i: &TypedInitialiser)
    ensures { Grows (IsCodeOfDeclared (home_of (typed_declarator_view d.now))
        (declared_type (typed_declarator_view d.now)) at (typed_initialiser_view i.now)
        (context_of k.now)) (HasCodeOfDeclared (home_of (typed_declarator_view d.now))
        (declared_type (typed_declarator_view d.now)) (typed_initialiser_view i.now)
        (context_of k.now)) out.old out.new }
{
    match declared_home(d) {
        Home::Local(home) => initialise(out, k, home, declared_type(d), at, i),
        Home::None => keep(out),
        Home::Static(_) => keep(out),
        Home::Parameter(_) => keep(out),
        Home::Known(_) => keep(out),
    }
}

/// Appends the code of the initialiser of the object with this home, which is at a place of the text.
#[tactic(auto, using(crate::proofs::Rules::object_rules))]
pub fn initialise(
    out: &mut Draft,
    k: &Scope<'_>,
    home: NodeId,
    ty: TypeId,
    at: Place,
    i: &TypedInitialiser,
)
    ensures { Grows (IsCodeOfObject home ty at (typed_initialiser_view i.now) (context_of k.now))
        (HasCodeOfObject home ty (typed_initialiser_view i.now) (context_of k.now)) out.old
        out.new }
{
    match object_in(k, home) {
        Some(object) => fill_whole(out, k, Whole { object, home, ty }, at, i),
        None => refuse(out),
    }
}
