//! What values of types are held as.
ghost use Rattle.std.specs.Prelude.{◌≡◌, Some};
ghost use Rattle.integers.specs.Arithmetic.{int, long};
ghost use Rattle.c_types.specs.Table.{shape_at};
ghost use Rattle.cil_form.specs.Typing.{IntegerOf};
ghost use Rattle.cure_instrs.specs.Lines.{held_view, held_views};
ghost use Rattle.cure_bodies.specs.Results.{held_at, given_by, called_by};

use c_types::TypeShape;
use cc_base::TypeId;
use cure_instrs::{Held, Width};
use cure_scope::Scope;

/// What a value of the type is held as.
pub(crate) fn held_at(k: &Scope<'_>, t: TypeId) -> Option<Held>
    ensures { held_views result ≡ held_at k.now.layouts.now.table t }
{
    let types = k.layouts.types();
    if t.0 < types.count() {
        match types.shape(t) {
            TypeShape::Integer { bytes, signed } => Some(Held::Integer(Width {
                bytes: *bytes,
                signed: *signed,
            })),
            TypeShape::Pointer(node, to) => Some(Held::Pointer(*node, *to)),
            _ => None,
        }
    } else {
        None
    }
}

/// What functions of the type give.
fn given_by(k: &Scope<'_>, t: TypeId) -> Option<Held>
    ensures { held_views result ≡ given_by k.now.layouts.now.table
        (shape_at k.now.layouts.now.table t) }
{
    let types = k.layouts.types();
    if t.0 < types.count() {
        match types.shape(t) {
            TypeShape::Function(_, result) => held_at(k, *result),
            _ => None,
        }
    } else {
        None
    }
}

/// What functions give that pointers of the type point to.
pub(crate) fn called_by(k: &Scope<'_>, t: TypeId) -> Option<Held>
    ensures { held_views result ≡ called_by k.now.layouts.now.table
        (shape_at k.now.layouts.now.table t) }
{
    let types = k.layouts.types();
    if t.0 < types.count() {
        match types.shape(t) {
            TypeShape::Pointer(_, to) => given_by(k, *to),
            _ => None,
        }
    } else {
        None
    }
}

/// An `int` (C99 6.2.5).
pub(crate) fn an_int() -> Held
    ensures { held_view result ≡ IntegerOf int }
{
    Held::Integer(Width {
        bytes: 4,
        signed: true,
    })
}

/// A `long` (C99 6.2.5).
pub(crate) fn a_long() -> Held
    ensures { held_view result ≡ IntegerOf long }
{
    Held::Integer(Width {
        bytes: 8,
        signed: true,
    })
}
