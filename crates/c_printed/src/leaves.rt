//! Pointer types and names that are printed.
#![tactic(auto)]

ghost use Rattle.std.specs.Prelude.{◌≡◌, [], ◌∷◌, ◌++◌, true};
ghost use Rattle.c_tree.specs.TypedParts as parts;
ghost use Rattle.c_printed.specs.Printing.{Prints};

use crate::found::Found;
use c_tree::{Adjusted, Home, Identifier, Printed, TypedStar};
use cc_base::{NodeId, Place, TypeId};

/// Appends a node.
fn put(out: &mut Found, place: Place, node: NodeId, home: bool)
    ensures { out.new.fine ≡ true → (out.old.fine ≡ true)
        × (out.new.nodes.items ≡ out.old.nodes.items ++ record
        { place = place; node = node; home = home } ∷ []) }
{
    let one = Printed { place, node, home };
    if out.nodes.push(one).is_err() {
        out.fine = false;
    }
}

/// Appends a pointer type that is written.
fn put_pointer(out: &mut Found, place: Place, node: NodeId)
    ensures { Prints (parts.Written place node ∷ []) out.old out.new }
{
    put(out, place, node, false)
}

/// Appends the pointers of stars, in the order of the text.
pub(crate) fn put_stars(out: &mut Found, all: &[TypedStar])
    ensures { Prints (parts.made_by_stars all.now) out.old out.new }
{
    for star in all {
        put_pointer(out, star.star.place, star.node)
    }
}

/// Appends the pointer that a parameter becomes.
pub(crate) fn put_adjusted(out: &mut Found, adjusted: Option<Adjusted>)
    ensures { Prints (parts.made_by_adjusted adjusted) out.old out.new }
{
    match adjusted {
        Some(adjusted) => put_pointer(out, adjusted.place, adjusted.node),
        None => {}
    }
}

/// Appends a name with its home, if that is new.
pub(crate) fn put_name(out: &mut Found, name: &Identifier, home: Home, ty: TypeId)
    ensures { Prints (parts.Name name.now home ty ∷ []) out.old out.new }
{
    let _ = ty;
    match home {
        Home::None => {}
        Home::Static(node) => put(out, name.place, node, true),
        Home::Local(node) => put(out, name.place, node, true),
        Home::Parameter(node) => put(out, name.place, node, true),
        Home::Known(_) => {}
    }
}
