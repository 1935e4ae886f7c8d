//! The cured code of an instruction on pointers, and of one that reads or writes objects.
ghost use Rattle.std.specs.Prelude.{◌≡◌};
ghost use Rattle.cil_form.specs.Typing.{Typing};
ghost use Rattle.cure_instrs.specs.Cured.{IsCopied, IsAsked};
ghost use Rattle.cure_instrs.specs.Lines.{held_views};
ghost use Rattle.cil_form.specs.declared.instr.Access.TheVariants as access;
ghost use Rattle.cure_points.specs.Cured.{PointCured};
ghost use Rattle.cure_objects.specs.Cured.{ObjectCured};
ghost use Rattle.cure_ready.specs.Curable.{CanPoint, CanAccess};
ghost use Rattle.cure_scope.specs.Scopes.{world_of};
ghost use Rattle.cure_bodies.specs.Holding.{Makes, holds_now};
ghost use Rattle.cure_bodies.specs.Results.{IsPointAsked};
ghost use Rattle.cure_bodies.specs.Ready.{StaysReady};

use crate::holding::{Holdings, held_in};
use cc_base::TypeId;
use check_insert::Draft;
use cil_form::{Access, Calculate, Point, Set, Target, Temp};
use cure_instrs::{Held, Reached, StorePlaces, put_load, put_store};
use cure_objects::{CopyPlaces, Part, put_clear, put_part_copy, put_part_store, put_pointer_copy};
use cure_points::{
    ArrayAt, MemberOf, Moving, Pointers, put_address, put_compare, put_decay, put_difference,
    put_member, put_move, put_null,
};
use cure_scope::Scope;
use phys_types::Known;

/// What the temporary holds that is copied.
pub(crate) fn copied(held: &Holdings, i: Set) -> Option<Held>
    ensures { IsCopied i (holds_now held.now) (held_views result) }
{
    match i {
        Set::Copy { into: _, from } => held_in(held, from),
        Set::Integer { .. } => None,
        Set::Null { .. } => None,
        Set::Function { .. } => None,
        Set::Object { .. } => None,
    }
}

/// What the temporary holds whose truth value is wanted.
pub(crate) fn asked(held: &Holdings, i: Calculate) -> Option<Held>
    ensures { IsAsked i (holds_now held.now) (held_views result) }
{
    match i {
        Calculate::Truth { into: _, operand } => held_in(held, operand),
        Calculate::Not { into: _, operand } => held_in(held, operand),
        Calculate::Negate { .. } => None,
        Calculate::Complement { .. } => None,
        Calculate::Binary { .. } => None,
    }
}

/// What the temporary holds whose kind of value an instruction on pointers has to know.
pub(crate) fn point_asked(held: &Holdings, i: Point) -> Option<Held>
    ensures { IsPointAsked i (holds_now held.now) (held_views result) }
{
    match i {
        Point::Move { amount, .. } => held_in(held, amount),
        Point::IsNull { pointer, .. } => held_in(held, pointer),
        Point::Difference { .. } => None,
        Point::Compare { .. } => None,
        Point::Member { .. } => None,
        Point::Decay { .. } => None,
        Point::Address { .. } => None,
    }
}

/// An instruction on pointers. `held` is what the temporary holds whose kind of value it has to know.
pub(crate) fn put_point(out: &mut Draft, k: &Scope<'_>, held: Option<Held>, i: Point)
    ensures made { (types : Typing) → IsPointAsked i types (held_views held)
        → Makes (PointCured i (world_of k.now) types) out.old out.new }
    ensures ready { (types : Typing) → IsPointAsked i types (held_views held)
        → StaysReady (CanPoint i (world_of k.now) types) out.old out.new }
{
    match i {
        Point::Move {
            into,
            pointer,
            amount,
            direction,
            ty,
            place,
        } => {
            let m = Moving {
                into,
                pointer,
                amount,
                way: direction,
                ty,
            };
            put_move(out, k, held, m, place)
        }
        Point::Difference {
            into,
            left,
            left_ty,
            right,
            right_ty,
            place,
        } => {
            let d = Pointers {
                into,
                left,
                left_ty,
                right,
                right_ty,
            };
            put_difference(out, k, d, place)
        }
        Point::Compare {
            into,
            comparison,
            left,
            left_ty,
            right,
            right_ty,
            place,
        } => {
            let d = Pointers {
                into,
                left,
                left_ty,
                right,
                right_ty,
            };
            put_compare(out, k, comparison, d, place)
        }
        Point::IsNull {
            into,
            pointer,
            ty: _,
            different,
        } => put_null(out, k, held, into, pointer, different),
        Point::Member {
            into,
            from,
            outer,
            ty,
            member,
            inner,
            member_ty,
            place,
        } => {
            let m = MemberOf {
                into,
                from,
                outer,
                ty,
                member,
                inner,
                member_ty,
            };
            put_member(out, k, m, place)
        }
        Point::Decay {
            into,
            from,
            outer,
            array,
            checked,
            inner,
            element,
            place,
        } => {
            let d = ArrayAt {
                into,
                from,
                outer,
                array,
                inner,
                element,
            };
            put_decay(out, k, d, checked, place)
        }
        Point::Address {
            into,
            from,
            outer: _,
            inner,
            ty,
        } => put_address(out, k, into, from, inner, ty),
    }
}

/// A scalar is stored.
fn put_stored(
    out: &mut Draft,
    k: &Scope<'_>,
    target: Target,
    value: (Temp, TypeId),
    at: StorePlaces,
)
    ensures made { (types : Typing) → Makes (ObjectCured (access.Store target value.0 value.1 at.own
        at.assignment) (world_of k.now) types) out.old out.new }
    ensures ready { StaysReady (CanAccess (access.Store target value.0 value.1 at.own at.assignment)
        (world_of k.now)) out.old out.new }
{
    let (v, ty) = value;
    match target {
        Target::Pointer { pointer, node } => put_store(
            out,
            k,
            Reached { pointer, node, ty },
            v,
            at,
        ),
        Target::Part {
            object,
            home,
            ty: whole,
            offset,
        } => {
            let part = Part {
                object,
                home,
                ty: whole,
                offset,
            };
            put_part_store(out, k, part, v, ty, at)
        }
    }
}

/// A struct or union is copied.
fn put_copied(
    out: &mut Draft,
    k: &Scope<'_>,
    known: &Known<'_>,
    target: Target,
    from: Reached,
    at: CopyPlaces,
)
    requires { known.now ≡ k.now.layouts.now.table }
    ensures made { (types : Typing) → Makes (ObjectCured (access.Copy target at.to from.pointer
        from.node at.from from.ty at.assignment) (world_of k.now) types) out.old out.new }
    ensures ready { StaysReady (CanAccess (access.Copy target at.to from.pointer from.node at.from
        from.ty at.assignment) (world_of k.now)) out.old out.new }
{
    match target {
        Target::Pointer { pointer, node } => {
            put_pointer_copy(out, k, known, (pointer, node), from, at)
        }
        Target::Part {
            object,
            home,
            ty,
            offset,
        } => {
            let part = Part {
                object,
                home,
                ty,
                offset,
            };
            put_part_copy(out, k, known, part, from, at)
        }
    }
}

/// A load, a store, or a copy.
pub(crate) fn put_access(out: &mut Draft, k: &Scope<'_>, known: &Known<'_>, i: Access)
    requires { known.now ≡ k.now.layouts.now.table }
    ensures made { (types : Typing) → Makes (ObjectCured i (world_of k.now) types) out.old out.new }
    ensures ready { StaysReady (CanAccess i (world_of k.now)) out.old out.new }
{
    match i {
        Access::Load {
            into,
            from,
            node,
            ty,
            place,
        } => {
            let reached = Reached {
                pointer: from,
                node,
                ty,
            };
            put_load(out, k, into, reached, place)
        }
        Access::Store {
            target,
            value,
            ty,
            place,
            assignment,
        } => {
            let at = StorePlaces {
                own: place,
                assignment,
            };
            put_stored(out, k, target, (value, ty), at)
        }
        Access::Clear { object } => put_clear(out, k, object),
        Access::Copy {
            target,
            target_place,
            from,
            from_node,
            from_place,
            ty,
            assignment,
        } => {
            let reached = Reached {
                pointer: from,
                node: from_node,
                ty,
            };
            let at = CopyPlaces {
                from: from_place,
                to: target_place,
                assignment,
            };
            put_copied(out, k, known, target, reached, at)
        }
    }
}
