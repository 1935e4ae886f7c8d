//! What initialisers ask that copy a struct or union: each is an assignment to the object that is initialised (C99 6.7.8p13).
ghost use Rattle.std.specs.Prelude.{◌≡◌, Some, map};
ghost use Rattle.c_tree.specs.Views.{added};
ghost use Rattle.c_tree.specs.TypedTree as typed;
ghost use Rattle.c_tree.specs.TypedParts.{home_of, home_node};
ghost use Rattle.c_tree.specs.TypedViews.{typed_declarator_view};
ghost use Rattle.c_tree.specs.TypedStatementViews.{typed_initialiser_view, typed_item_view};
ghost use Rattle.src_machine.specs.Sites.{copies_in, copies_in_items, copies_to};
ghost use Rattle.unit_parts.specs.declared.collected.Collected.{Collected as Seen};
ghost use Rattle.unit_parts.specs.Collecting.{Asks};

use c_check_declarators::homes::home_of;
use c_tree::{Home, TypedDeclarator, TypedInitialiser, TypedItem};
use cc_base::NodeId;
use unit_parts::{Collected, Scope, ask_links, ask_nothing};

/// The home of what a declarator declares.
#[tactic(auto, using(c_tree::proofs::TypedViewLaws::typed_views))]
fn declared_home(d: &TypedDeclarator) -> Home
    ensures { result ≡ home_of (typed_declarator_view d.now) }
{
    home_of(&d.form)
}

/// The sites of the initialiser of what a declarator declares.
pub(crate) fn ask_copies(
    out: &mut Collected,
    k: &Scope<'_>,
    d: &TypedDeclarator,
    i: &TypedInitialiser,
)
    ensures { Asks (copies_to k.now.types.now (home_node (home_of (typed_declarator_view d.now)))
        (typed_initialiser_view i.now)) out.old out.new }
{
    match declared_home(d) {
        Home::None => ask_nothing(out),
        Home::Static(node) => copies(out, k, node, i),
        Home::Local(node) => copies(out, k, node, i),
        Home::Parameter(node) => copies(out, k, node, i),
        Home::Known(node) => copies(out, k, node, i),
    }
}

/// The sites of an initialiser of the object with this home.
#[cycle(copies)]
fn copies(out: &mut Collected, k: &Scope<'_>, node: NodeId, i: &TypedInitialiser)
    ensures { Asks (copies_in k.now.types.now node (typed_initialiser_view i.now)) out.old out.new }
{
    match i {
        TypedInitialiser::Value(_) => ask_nothing(out),
        TypedInitialiser::Copied(p, _) => ask_links(out, k, node, p),
        TypedInitialiser::Text(_, _) => ask_nothing(out),
        TypedInitialiser::Listed(_, all, _, _) => copies_of_items(out, k, node, all.as_slice()),
    }
}

#[cycle(copies)]
fn copies_of_items(out: &mut Collected, k: &Scope<'_>, node: NodeId, all: &[TypedItem])
    ensures { Asks (copies_in_items k.now.types.now node
        (added typed.NoItem (map typed_item_view all.now))) out.old out.new }
{
    for one in all {
        copies_of_item(out, k, node, one)
    }
}

/// The sites of an item behind others.
#[cycle(copies)]
fn copies_of_item(out: &mut Collected, k: &Scope<'_>, node: NodeId, one: &TypedItem)
    ensures { (all : typed.TypedItems) (start : Seen) → Asks
        (copies_in_items k.now.types.now node all) start out.old
        → Asks (copies_in_items k.now.types.now node (typed_item_view one.now all)) start out.new }
{
    copies(out, k, node, &one.initialiser)
}
