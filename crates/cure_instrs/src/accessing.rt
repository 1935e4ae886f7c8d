//! The cured code of loads and stores of scalars.
ghost use Rattle.std.specs.Prelude.{◌≡◌, Some, None, IfSome, IfNone};
ghost use Rattle.check_insert.specs.Drafts.{Grows};
ghost use Rattle.cil_form.specs.Typing.{Typing};
ghost use Rattle.cil_form.specs.declared.instr.Access.TheVariants as access;
ghost use Rattle.cil_form.specs.declared.instr.Target.TheVariants as target;
ghost use Rattle.cure_scope.specs.Scopes.{whole_of, world_of};
ghost use Rattle.cure_instrs.specs.Cured.{AccessCured, CanReach, HasPointer, IsPointerAt};

use crate::calculating::integer_in;
use crate::loading::{put_integer_load, put_pointer_load};
use crate::storing::{StorePlaces, put_integer_store, put_pointer_store};
use c_types::TypeShape;
use cc_base::{NodeId, Place, TypeId};
use check_insert::{Draft, refuse};
use cil_form::Temp;
use cure_scope::{Scope, column, pointer_slots};

/// A pointer type: its node, and what it points to.
#[derive(Clone, Copy, Debug, PartialEq, Eq)]
pub struct PointerType {
    pub node: NodeId,
    pub to: TypeId,
}

/// The pointer type that a type is.
#[tactic(auto, unfolding(crate::specs::Cured::HasPointer, crate::specs::Cured::IsPointerAt))]
pub fn pointer_in(k: &Scope<'_>, t: TypeId) -> Option<PointerType>
    ensures there { IfSome result (λ p. IsPointerAt (whole_of k.now) t p.node p.to) }
    ensures none { IfNone result (HasPointer (whole_of k.now) t → ⊥) }
{
    let types = k.layouts.types();
    if t.0 < types.count() {
        match types.shape(t) {
            TypeShape::Pointer(node, to) => Some(PointerType {
                node: *node,
                to: *to,
            }),
            _ => None,
        }
    } else {
        None
    }
}

/// What is reached: by a pointer of a node, a scalar of a type.
#[derive(Clone, Copy)]
pub struct Reached {
    pub pointer: Temp,
    pub node: NodeId,
    pub ty: TypeId,
}

/// A scalar is loaded.
#[tactic(auto, using(crate::proofs::AccessLaws::no_scalar))]
pub fn put_load(out: &mut Draft, k: &Scope<'_>, into: Temp, from: Reached, at: Place)
    ensures { (types : Typing) → Grows (AccessCured (access.Load into from.pointer from.node from.ty
        at) (world_of k.now) types) (CanReach (whole_of k.now) from.node from.ty) out.old out.new }
{
    let outer = k.kind_of(from.node);
    let va = (column(into), column(from.pointer));
    match integer_in(k, from.ty) {
        Some(i) => put_integer_load(out, k, (outer, from.ty), i, va, at),
        None => match pointer_in(k, from.ty) {
            Some(p) => put_pointer_load(out, k, (outer, k.kind_of(p.node)), from.ty, va, at),
            None => refuse(out),
        },
    }
}

/// A scalar is stored to what a pointer points to.
#[tactic(auto, using(crate::proofs::AccessLaws::no_scalar))]
pub fn put_store(out: &mut Draft, k: &Scope<'_>, to: Reached, value: Temp, at: StorePlaces)
    ensures { (types : Typing) → Grows (AccessCured (access.Store
        (target.Pointer to.pointer to.node) value to.ty at.own at.assignment)
        (world_of k.now) types) (CanReach (whole_of k.now) to.node to.ty) out.old out.new }
{
    let outer = k.kind_of(to.node);
    let s = pointer_slots(column(to.pointer));
    let sv = (s, column(value));
    match integer_in(k, to.ty) {
        Some(i) => put_integer_store(out, k, (outer, to.ty), i, sv, at.own),
        None => match pointer_in(k, to.ty) {
            Some(p) => put_pointer_store(out, k, (outer, k.kind_of(p.node)), to.ty, sv, at),
            None => refuse(out),
        },
    }
}
