//! What comes after the address of a place, by the construct that uses it.
ghost use Rattle.std.specs.Prelude.{◌≡◌};
ghost use Rattle.c_tree.specs.TypedParts.{place_type, place_at};
ghost use Rattle.c_tree.specs.TypedViews.{typed_place_view};
ghost use Rattle.cil_form.specs.declared.instr.Target.TheVariants as target;
ghost use Rattle.src_mem.specs.Operations.{pointee_at};
ghost use Rattle.src_machine.specs.Expressions.{is_through_pointer};
ghost use Rattle.lower_rules.specs.Words.{value, is_pointer};
ghost use Rattle.lower_rules.specs.Expressions.{node_in_place};
ghost use Rattle.lower_rules.specs.declared.after.After.TheVariants as after;
ghost use Rattle.lower_exprs.specs.Drafts.{context_of};

use crate::draft::Scope;
use crate::places::{is_pointer, is_through_pointer, node_in_place, place_at, pointee_of};
use c_tree::{Step, TypedPlace};
use cc_base::{NodeId, Place, TypeId};
use cil_form::{Target, Temp};
use lower_rules::After;

pub(crate) fn load_of(ty: TypeId, place: Place) -> After
    ensures { result ≡ after.Load ty place }
{
    After::Load { ty, place }
}

pub(crate) fn address_of(inner: NodeId, ty: TypeId) -> After
    ensures { result ≡ after.Address inner ty }
{
    After::Address { inner, ty }
}

pub(crate) fn member_of(
    ty: TypeId,
    member: u32,
    inner: NodeId,
    member_ty: TypeId,
    place: Place,
) -> After
    ensures { result ≡ after.Member ty member inner member_ty place }
{
    After::Member {
        ty,
        member,
        inner,
        member_ty,
        place,
    }
}

/// An array decays to the pointer type `ty`.
pub(crate) fn decay_of(k: &Scope<'_>, p: &TypedPlace, inner: NodeId, ty: TypeId) -> After
    ensures { result ≡ after.Decay (place_type (typed_place_view p.now))
        (is_through_pointer (typed_place_view p.now)) inner (pointee_at k.now.types.now ty)
        (place_at (typed_place_view p.now)) }
{
    After::Decay {
        array: p.ty(),
        checked: is_through_pointer(p),
        inner,
        element: pointee_of(k, ty),
        place: place_at(p),
    }
}

pub(crate) fn step_of(
    k: &Scope<'_>,
    gives_old: bool,
    which: Step,
    p: &TypedPlace,
    place: Place,
) -> After
    ensures { result ≡ after.Step gives_old which (is_pointer (context_of k.now)
        (place_type (typed_place_view p.now))) (place_type (typed_place_view p.now))
        (place_at (typed_place_view p.now)) place }
{
    After::Step {
        gives_old,
        which,
        pointer: is_pointer(k, p.ty()),
        ty: p.ty(),
        own: place_at(p),
        place,
    }
}

/// The struct q, whose address comes next, is copied to p, whose address is in value t.
pub(crate) fn copy_of(
    k: &Scope<'_>,
    t: u8,
    p: &TypedPlace,
    q: &TypedPlace,
    assignment: Place,
) -> After
    ensures { result ≡ after.Copy (target.Pointer (value t)
        (node_in_place (context_of k.now) (typed_place_view p.now)))
        (place_at (typed_place_view p.now)) (place_at (typed_place_view q.now))
        (place_type (typed_place_view p.now)) assignment }
{
    After::Copy {
        target: Target::Pointer {
            pointer: Temp::Value(t),
            node: node_in_place(k, p),
        },
        target_place: place_at(p),
        from_place: place_at(q),
        ty: p.ty(),
        assignment,
    }
}
