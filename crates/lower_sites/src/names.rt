//! Two declarations of one name, with the types that they give it (C99 6.2.7).
ghost use Rattle.std.specs.Prelude.{◌≡◌, true, Some, [], ◌∷◌, ◌++◌, option_copied};
ghost use Rattle.c_types.specs.Table.{is_function};
ghost use Rattle.c_tree.specs.TypedParts.{declared_type, home_of, name_of, home_node};
ghost use Rattle.c_tree.specs.TypedViews.{typed_declarator_view};
ghost use Rattle.src_machine.specs.Names.{AFunction, AnObject, function_named, named_by, object_named};
ghost use Rattle.src_machine.specs.Sites.{same_as};
ghost use Rattle.lower_sites.specs.Telling.{Tells};

use crate::firsts::{FirstFunctions, FirstObjects};
use c_check_declarators::homes::{home_of, name_of};
use c_tree::{Home, Identifier, TypedDeclarator};
use c_types::{TypeShape, Types};
use cc_base::{NodeId, TypeId};
use kind_sites::Site;
use std::alloc::Global;

/// What a walk over declarations looks at beside the tree.
#[derive(Drop)]
pub(crate) struct Scope<'a> {
    pub(crate) alloc: Global,
    pub(crate) types: &'a Types,
}

/// The types of first declarations, and the sites of those after them. It is told here, and not by each answer, that memory
/// was wanted.
#[derive(Drop)]
pub(crate) struct Names {
    pub(crate) objects: FirstObjects,
    pub(crate) functions: FirstFunctions,
    pub(crate) sites: Vec<Site>,
    /// Nothing failed so far.
    pub(crate) fine: bool,
}

/// Nothing is declared.
#[tactic(auto, using(crate::proofs::Rules::told_rules))]
pub(crate) fn skip(out: &mut Names)
    ensures { Tells [] out.old out.new }
{
    let _ = out;
}

/// A type, and the one with which the same was declared first.
fn put_same(out: &mut Names, first: TypeId, t: TypeId)
    ensures fine { out.new.fine ≡ true → (out.old.fine ≡ true)
        × (out.new.sites.items ≡ out.old.sites.items ++ same_as t (Some first)) }
    ensures objects { out.new.objects ≡ out.old.objects }
    ensures functions { out.new.functions ≡ out.old.functions }
{
    if first.0 != t.0 {
        if out.sites.push(Site::Same { a: first, b: t }).is_err() {
            out.fine = false;
        }
    }
}

/// An object is declared.
#[tactic(auto, using(crate::proofs::Rules::one_rules))]
fn tell_object(out: &mut Names, home: NodeId, t: TypeId)
    ensures { Tells (record { which = AnObject home; type = t } ∷ []) out.old out.new }
{
    match out.objects.of(home).copied() {
        Some(first) => put_same(out, first, t),
        None => {
            if out.objects.add(home, t).is_err() {
                out.fine = false;
            }
        }
    }
}

/// A function is declared.
#[tactic(auto, using(crate::proofs::Rules::one_rules))]
fn tell_function(out: &mut Names, k: &Scope<'_>, name: &Identifier, t: TypeId)
    ensures { Tells (record { which = AFunction name.now; type = t } ∷ []) out.old out.new }
{
    let bytes = name.bytes.as_slice();
    match out.functions.of(bytes).copied() {
        Some(first) => put_same(out, first, t),
        None => {
            if out.functions.add(k.alloc, bytes, t).is_err() {
                out.fine = false;
            }
        }
    }
}

/// Whether a type is a function type.
fn is_function(k: &Scope<'_>, t: TypeId) -> bool
    ensures { result ≡ is_function k.now.types.now t }
{
    if t.0 < k.types.count() {
        matches!(k.types.shape(t), TypeShape::Function(_, _))
    } else {
        false
    }
}

/// The home of what a declarator declares.
#[tactic(auto, using(c_tree::proofs::TypedViewLaws::typed_views))]
fn declared_home(d: &TypedDeclarator) -> Home
    ensures { result ≡ home_of (typed_declarator_view d.now) }
{
    home_of(&d.form)
}

/// The type of what a declarator declares.
#[tactic(auto, using(c_tree::proofs::TypedViewLaws::typed_views))]
fn declared_type(d: &TypedDeclarator) -> TypeId
    ensures { result ≡ declared_type (typed_declarator_view d.now) }
{
    d.ty
}

/// The name of what a declarator declares.
#[tactic(auto, using(c_tree::proofs::TypedViewLaws::typed_views))]
fn declared_name(d: &TypedDeclarator) -> Option<&Identifier>
    ensures { option_copied result ≡ name_of (typed_declarator_view d.now) }
{
    name_of(&d.form)
}

/// An object is declared, if the home is one.
fn tell_home(out: &mut Names, home: Home, t: TypeId)
    ensures { Tells (object_named (home_node home) t) out.old out.new }
{
    match home {
        Home::None => skip(out),
        Home::Static(node) => tell_object(out, node, t),
        Home::Local(node) => tell_object(out, node, t),
        Home::Parameter(node) => tell_object(out, node, t),
        Home::Known(node) => tell_object(out, node, t),
    }
}

/// A function is declared, if there is a name.
fn tell_name(out: &mut Names, k: &Scope<'_>, name: Option<&Identifier>, t: TypeId)
    ensures { Tells (function_named (option_copied name.entry) t) out.old out.new }
{
    match name {
        None => skip(out),
        Some(name) => tell_function(out, k, name, t),
    }
}

/// What a declarator declares.
pub(crate) fn tell(out: &mut Names, k: &Scope<'_>, d: &TypedDeclarator)
    ensures { Tells (named_by k.now.types.now (typed_declarator_view d.now)) out.old out.new }
{
    let t = declared_type(d);
    if is_function(k, t) {
        tell_name(out, k, declared_name(d), t)
    } else {
        tell_home(out, declared_home(d), t)
    }
}
