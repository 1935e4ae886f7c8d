//! The cured code that initialises parts of objects.
ghost use Rattle.std.specs.Prelude.{◌≡◌, ◌+◌, ◌≤◌, IfSome, IfNone};
ghost use Rattle.c_types.specs.Table.{IsComplete};
ghost use Rattle.c_types.specs.Cells.{IsBetweenPointers};
ghost use Rattle.c_types.specs.Equality.{cells_of};
ghost use Rattle.check_insert.specs.Drafts.{Grows};
ghost use Rattle.cil_form.specs.Typing.{Typing};
ghost use Rattle.cil_form.specs.declared.instr.Access.TheVariants as access;
ghost use Rattle.cil_form.specs.declared.instr.Target.TheVariants as target;
ghost use Rattle.cure_rules.specs.Pointing.{cured_offset};
ghost use Rattle.cure_scope.specs.Scopes.{whole_of, world_of};
ghost use Rattle.cure_instrs.specs.Cured.{CanReach, IsHome};
ghost use Rattle.cure_objects.specs.Cured.{CanPlace, ObjectCured};
ghost use Rattle.cure_objects.specs.Lines.{PartSet, ScalarStored, part_at};

use cc_base::{Kind, NodeId, TypeId};
use check_forms::PointerSlots;
use check_insert::{Draft, refuse};
use cil_form::{Object, Temp};
use cure_instrs::{
    StorePlaces, integer_in, pointer_in, put_integer_store, put_pointer_store, put_three,
    start_line,
};
use cure_scope::{ADDRESS, BASE, NOUGHT, OFFSET, Scope, column};
use cured_code::Instr;

/// A part of an object: so many bytes into one of the type, with this home.
#[derive(Clone, Copy)]
pub struct Part {
    pub object: Object,
    pub home: NodeId,
    pub ty: TypeId,
    pub offset: u64,
}

/// How far a part lies behind the start of an object once cured.
#[tactic(auto, unfolding(crate::specs::Cured::CanPlace))]
pub(crate) fn part_offset(k: &Scope<'_>, kind: Kind, u: TypeId, offset: u64) -> Option<u64>
    ensures there { IfSome result (λ n. IsBetweenPointers (cells_of k.now.layouts.now.table u)
        offset → n ≡ cured_offset (world_of k.now) kind u offset) }
    ensures complete { IfSome result (λ n. IsComplete k.now.layouts.now.table u) }
    ensures none { IfNone result (CanPlace (whole_of k.now) u offset → ⊥) }
{
    let types = k.layouts.types();
    if u.0 < types.count() {
        if types.is_complete(u) {
            if offset <= types.size_of(u) {
                return match kind {
                    Kind::Wild => Some(offset),
                    Kind::Safe => Some(k.layouts.cured_offset(u, offset)),
                    Kind::Seq => Some(k.layouts.cured_offset(u, offset)),
                    Kind::Rtti => Some(k.layouts.cured_offset(u, offset)),
                };
            }
        }
    }
    None
}

/// The address of so many cured bytes into an object.
#[tactic(auto, using(cure_instrs::proofs::PieceLaws::refused))]
pub(crate) fn put_part(out: &mut Draft, k: &Scope<'_>, kind: Kind, o: Object, n: u64)
    ensures { Grows (PartSet kind k.now o n) (IsHome kind) out.old out.new }
{
    let one = start_line(k, o, BASE);
    let two = Instr::Const(OFFSET, n);
    let three = Instr::Add(ADDRESS, BASE, OFFSET);
    match kind {
        Kind::Safe => put_three(out, one, two, three),
        Kind::Wild => put_three(out, one, two, three),
        Kind::Seq => refuse(out),
        Kind::Rtti => refuse(out),
    }
}

/// A scalar of the type is stored there.
fn put_scalar(out: &mut Draft, k: &Scope<'_>, home: NodeId, t: TypeId, v: u32, at: StorePlaces)
    requires { v + 3 ≤ 1948 }
    ensures { Grows (ScalarStored (world_of k.now) ((world_of k.now).whole.kind home) t part_at v
        at.own at.assignment) (CanReach (whole_of k.now) home t) out.old out.new }
{
    let outer = k.kind_of(home);
    let s = PointerSlots {
        first: ADDRESS,
        second: BASE,
        third: NOUGHT,
    };
    match integer_in(k, t) {
        Some(i) => put_integer_store(out, k, (outer, t), i, (s, v), at.own),
        None => match pointer_in(k, t) {
            Some(p) => put_pointer_store(out, k, (outer, k.kind_of(p.node)), t, (s, v), at),
            None => refuse(out),
        },
    }
}

/// A scalar is stored into a part of an object (C99 6.7.8).
pub fn put_part_store(
    out: &mut Draft,
    k: &Scope<'_>,
    to: Part,
    value: Temp,
    t: TypeId,
    at: StorePlaces,
)
    ensures { (types : Typing) → Grows (ObjectCured (access.Store
        (target.Part to.object to.home to.ty to.offset) value t at.own at.assignment)
        (world_of k.now) types) (CanPlace (whole_of k.now) to.ty to.offset
        × (IsHome ((whole_of k.now).kind to.home) × CanReach (whole_of k.now) to.home t)) out.old
        out.new }
{
    let kind = k.kind_of(to.home);
    match part_offset(k, kind, to.ty, to.offset) {
        Some(n) => {
            put_part(out, k, kind, to.object, n);
            put_scalar(out, k, to.home, t, column(value), at)
        }
        None => refuse(out),
    }
}
