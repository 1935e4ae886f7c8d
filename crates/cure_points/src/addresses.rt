//! The cured code of members, arrays that decay, `&`, and comparisons with a null constant.
ghost use Rattle.std.specs.Prelude.{◌≡◌, ◌+◌, ◌≤◌, [], ◌∷◌, Some, None, IfSome, IfNone, IsSome, IsTrue, ◌↔◌};
ghost use Rattle.check_insert.specs.Drafts.{Grows};
ghost use Rattle.c_types.specs.Table.{is_aggregate_shape};
ghost use Rattle.c_types.specs.Cells.{IsBetweenPointers};
ghost use Rattle.c_types.specs.Equality.{cells_of};
ghost use Rattle.c_types.specs.Layouts.{offset_of};
ghost use Rattle.cil_form.specs.Typing.{Typing};
ghost use Rattle.cil_form.specs.declared.instr.Point.TheVariants as point;
ghost use Rattle.cure_rules.specs.Pointing.{cured_offset, null_operation};
ghost use Rattle.cure_scope.specs.Scopes.{whole_of, world_of};
ghost use Rattle.cure_instrs.specs.Lines.{held_views};
ghost use Rattle.cure_points.specs.Lines.{DecayOf, HasMember};
ghost use Rattle.cure_points.specs.Cured.{PointCured};

use crate::parts::{Outer, Part, put_part, put_part_of};
use c_types::TypeShape;
use cc_base::{Kind, NodeId, Place, TypeId};
use check_insert::{Draft, put, refuse};
use cil_form::Temp;
use cure_instrs::{Held, cured_size, put_tested};
use cure_scope::{NOUGHT, Scope, column};
use cured_code::Instr;

/// Whether a type is a struct or a union.
fn is_aggregate(shape: &TypeShape) -> bool
    ensures { result ≡ is_aggregate_shape shape.now }
{
    matches!(shape, TypeShape::Struct(_) | TypeShape::Union(_))
}

/// How far a member lies behind the start of its struct, for a use of a kind.
fn member_offset(k: &Scope<'_>, kind: Kind, t: TypeId, i: u32) -> Option<u64>
    ensures there { IfSome result (λ n. IsBetweenPointers (cells_of (whole_of k.now).table t)
        (offset_of (whole_of k.now).table t i) → n
        ≡ cured_offset (world_of k.now) kind t (offset_of (whole_of k.now).table t i)) }
    ensures none { IfNone result (HasMember (whole_of k.now) t i → ⊥) }
{
    let types = k.layouts.types();
    if t.0 >= types.count() {
        return None;
    }
    if !is_aggregate(types.shape(t)) {
        return None;
    }
    if !types.is_complete(t) {
        return None;
    }
    if i as usize >= types.fields(t) {
        return None;
    }
    let offset = types.field(t, i as usize).offset;
    if offset > types.size_of(t) {
        return None;
    }
    match kind {
        Kind::Wild => Some(offset),
        Kind::Safe | Kind::Seq | Kind::Rtti => Some(k.layouts.cured_offset(t, offset)),
    }
}

/// A member's address: its temporaries, the struct at a pointer of a node, the member with its node and type.
#[derive(Clone, Copy)]
pub struct MemberOf {
    pub into: Temp,
    pub from: Temp,
    pub outer: NodeId,
    pub ty: TypeId,
    pub member: u32,
    pub inner: NodeId,
    pub member_ty: TypeId,
}

/// The address of a member.
pub fn put_member(out: &mut Draft, k: &Scope<'_>, m: MemberOf, at: Place)
    ensures { (types : Typing) → Grows (PointCured (point.Member m.into m.from m.outer m.ty m.member
        m.inner m.member_ty at) (world_of k.now) types)
        (HasMember (whole_of k.now) m.ty m.member) out.old out.new }
{
    let outer = k.kind_of(m.outer);
    match member_offset(k, outer, m.ty, m.member) {
        Some(offset) => put_part_of(
            out,
            k,
            Outer {
                kind: outer,
                ty: m.ty,
                a: column(m.from),
            },
            Part {
                kind: k.kind_of(m.inner),
                size: cured_size(k, m.member_ty),
                ty: m.member_ty,
            },
            (offset, column(m.into)),
            at,
        ),
        None => refuse(out),
    }
}

/// An array that decays: its temporaries, the array at a pointer of a node, the node and the type of its elements.
#[derive(Clone, Copy)]
pub struct ArrayAt {
    pub into: Temp,
    pub from: Temp,
    pub outer: NodeId,
    pub array: TypeId,
    pub inner: NodeId,
    pub element: TypeId,
}

/// The address of an array's first element, behind a check of the array's own address where `checked`.
pub fn put_decay(out: &mut Draft, k: &Scope<'_>, d: ArrayAt, checked: bool, at: Place)
    ensures { (types : Typing) → Grows (PointCured (point.Decay d.into d.from d.outer d.array
        checked d.inner d.element at) (world_of k.now) types) (Unit {0}) out.old out.new }
{
    let part = Part {
        kind: k.kind_of(d.inner),
        size: cured_size(k, d.array),
        ty: d.element,
    };
    if checked {
        let from = Outer {
            kind: k.kind_of(d.outer),
            ty: d.array,
            a: column(d.from),
        };
        put_part_of(out, k, from, part, (0, column(d.into)), at)
    } else {
        put_part(out, k, part, column(d.into), column(d.from), NOUGHT)
    }
}

/// `&` of what is at the address in a temporary, as a part of its own.
pub fn put_address(
    out: &mut Draft,
    k: &Scope<'_>,
    into: Temp,
    from: Temp,
    inner: NodeId,
    ty: TypeId,
)
    ensures { (types : Typing) (outer : NodeId) → Grows (PointCured
        (point.Address into from outer inner ty) (world_of k.now) types)
        (Unit {0}) out.old out.new }
{
    let part = Part {
        kind: k.kind_of(inner),
        size: cured_size(k, ty),
        ty,
    };
    put_part(out, k, part, column(into), column(from), NOUGHT)
}

/// The instruction of a comparison with a null constant.
fn null_operation(different: bool, v: u32, a: u32) -> Instr
    ensures { result ≡ null_operation different v a 381 }
{
    if different {
        Instr::Ne(v, a, NOUGHT)
    } else {
        Instr::Eq(v, a, NOUGHT)
    }
}

/// A pointer is compared with a null constant.
#[tactic(auto, using(cure_instrs::proofs::PieceLaws::refused))]
pub fn put_null(
    out: &mut Draft,
    k: &Scope<'_>,
    held: Option<Held>,
    into: Temp,
    pointer: Temp,
    different: bool,
)
    ensures { (types : Typing) (t : TypeId) → types pointer ≡ held_views held
        → Grows (PointCured (point.IsNull into pointer t different) (world_of k.now) types)
        (IsSome (held_views held)) out.old out.new }
{
    match held {
        Some(held) => {
            let a = put_tested(out, k, held, pointer);
            put(out, null_operation(different, column(into), a))
        }
        None => refuse(out),
    }
}
