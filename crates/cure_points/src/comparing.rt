//! The cured code of differences and comparisons of pointers.
ghost use Rattle.std.specs.Prelude.{◌≡◌, ◌+◌, ◌≤◌, [], ◌∷◌, Some, None};
ghost use Rattle.check_insert.specs.Drafts.{Grows};
ghost use Rattle.check_forms.specs.Pieces.{Line};
ghost use Rattle.cil_form.specs.Typing.{Typing};
ghost use Rattle.cil_form.specs.declared.instr.Point.TheVariants as point;
ghost use Rattle.cc_base.specs.declared.kind.Kind.{Kind};
ghost use Rattle.cure_rules.specs.Pointing.{quotient_lines, order_by, equal_lines, sameness_lines, comparing, compared_lines};
ghost use Rattle.cure_scope.specs.declared.scope.Scope.{Scope};
ghost use Rattle.cure_scope.specs.Scopes.{seat, whole_of, world_of};
ghost use Rattle.cure_points.specs.Lines.{DifferenceOf, ComparedBy, HavePointers};
ghost use Rattle.cure_points.specs.Cured.{PointCured};

use cc_base::{Kind, Place, TypeId};
use check_forms::{Fixed, Op, PointerSlots};
use check_insert::{Draft, keep, put, refuse};
use cil_form::{Comparison, Temp};
use cure_instrs::{
    home_slot, is_wide_kind, pointer_in, put_compared, put_three, put_two, size_at, wild_numbers,
};
use cure_scope::{FIRST, NOUGHT, SECOND, Scope, column, pointer_slots, put_guarded};
use cured_code::Instr;

/// A difference in bytes, as one in elements.
fn put_quotient(out: &mut Draft, v: u32, size: Fixed)
    ensures { Grows (Line (quotient_lines v size)) (Unit {0}) out.old out.new }
{
    if size.value == 1 {
        keep(out)
    } else {
        put(out, Instr::Divs(v, v, size.slot))
    }
}

/// Two pointers, and where what is told of them goes: the kinds and slots, and what the left one points to.
#[derive(Clone, Copy)]
struct Pair {
    left: Kind,
    right: Kind,
    to: TypeId,
    v: u32,
    a: u32,
    b: u32,
}

/// A difference of two pointers, behind its check.
fn put_difference_of(out: &mut Draft, k: &Scope<'_>, p: Pair, at: Place)
    requires left { p.a + 3 ≤ 1948 }
    requires right { p.b + 3 ≤ 1948 }
    ensures { Grows (DifferenceOf (world_of k.now) p.left p.right p.to p.v p.a p.b at)
        (Unit {0}) out.old out.new }
{
    let size = size_at(k, p.left, p.to);
    let op = Op::Order {
        p: pointer_slots(p.a),
        q: pointer_slots(p.b),
        other: p.right,
        numbers: wild_numbers(k),
        apart: Some(size),
    };
    put_guarded(out, op, p.left, at);
    put(out, Instr::Sub(p.v, p.a, p.b));
    put_quotient(out, p.v, size)
}

/// Whether two pointers with these home words are one.
#[tactic(auto, using(check_insert::proofs::Laws::grows_puts))]
fn put_same(out: &mut Draft, wide: bool, v: u32, p: (PointerSlots, u32), q: (PointerSlots, u32))
    ensures { (k : Scope) → Grows (Line (equal_lines (world_of k) wide v p.0 p.1 q.0 q.1))
        (Unit {0}) out.old out.new }
{
    if wide {
        put_two(
            out,
            Instr::Eq(FIRST, p.1, NOUGHT),
            Instr::Eq(SECOND, q.1, NOUGHT),
        );
        put_three(
            out,
            Instr::Eq(FIRST, FIRST, SECOND),
            Instr::Eq(SECOND, p.0.first, q.0.first),
            Instr::And(v, FIRST, SECOND),
        )
    } else {
        put(out, Instr::Eq(v, p.0.first, q.0.first))
    }
}

/// Whether two pointers are one, by their kinds.
fn put_sameness(out: &mut Draft, kinds: (Kind, Kind), v: u32, p: PointerSlots, q: PointerSlots)
    ensures { (k : Scope) → Grows (Line (sameness_lines (world_of k) kinds.0 kinds.1 v p q))
        (Unit {0}) out.old out.new }
{
    let wide = is_wide_kind(kinds.0) || is_wide_kind(kinds.1);
    put_same(
        out,
        wide,
        v,
        (p, home_slot(kinds.0, p)),
        (q, home_slot(kinds.1, q)),
    )
}

/// A comparison of two pointers.
fn put_comparison(
    out: &mut Draft,
    which: Comparison,
    kinds: (Kind, Kind),
    v: u32,
    p: PointerSlots,
    q: PointerSlots,
)
    ensures { (k : Scope) → Grows (Line (compared_lines which (world_of k) kinds.0 kinds.1 v p q))
        (Unit {0}) out.old out.new }
{
    match which {
        Comparison::Equal => put_sameness(out, kinds, v, p, q),
        Comparison::Different => {
            put_sameness(out, kinds, v, p, q);
            put(out, Instr::Eq(v, v, NOUGHT))
        }
        Comparison::Less => put_compared(out, Comparison::Less, true, v, p.first, q.first),
        Comparison::LessOrEqual => put_compared(
            out,
            Comparison::LessOrEqual,
            true,
            v,
            p.first,
            q.first,
        ),
        Comparison::Greater => put_compared(out, Comparison::Greater, true, v, p.first, q.first),
        Comparison::GreaterOrEqual => put_compared(
            out,
            Comparison::GreaterOrEqual,
            true,
            v,
            p.first,
            q.first,
        ),
    }
}

/// An order of two pointers.
fn order(k: &Scope<'_>, p: PointerSlots, other: Kind, q: PointerSlots) -> Op
    ensures { (kind : Kind) → result ≡ order_by (world_of k.now) seat kind p other q None }
{
    Op::Order {
        p,
        q,
        other,
        numbers: wild_numbers(k),
        apart: None,
    }
}

/// What is asked of two pointers that are compared.
fn comparing(k: &Scope<'_>, which: Comparison, p: PointerSlots, other: Kind, q: PointerSlots) -> Op
    ensures { (kind : Kind) → result ≡ comparing which (world_of k.now) seat kind p other q }
{
    match which {
        Comparison::Equal => Op::Equate { p, q, other },
        Comparison::Different => Op::Equate { p, q, other },
        Comparison::Less => order(k, p, other, q),
        Comparison::LessOrEqual => order(k, p, other, q),
        Comparison::Greater => order(k, p, other, q),
        Comparison::GreaterOrEqual => order(k, p, other, q),
    }
}

/// A comparison of two pointers, behind its check.
fn put_compared_by(out: &mut Draft, k: &Scope<'_>, which: Comparison, p: Pair, at: Place)
    requires left { p.a + 3 ≤ 1948 }
    requires right { p.b + 3 ≤ 1948 }
    ensures { Grows (ComparedBy which (world_of k.now) p.left p.right p.v p.a p.b at)
        (Unit {0}) out.old out.new }
{
    let a = pointer_slots(p.a);
    let b = pointer_slots(p.b);
    put_guarded(out, comparing(k, which, a, p.right, b), p.left, at);
    put_comparison(out, which, (p.left, p.right), p.v, a, b)
}

/// Two pointers and their types, and where what is told of them goes.
#[derive(Clone, Copy)]
pub struct Pointers {
    pub into: Temp,
    pub left: Temp,
    pub left_ty: TypeId,
    pub right: Temp,
    pub right_ty: TypeId,
}

/// A difference of two pointers.
pub fn put_difference(out: &mut Draft, k: &Scope<'_>, d: Pointers, at: Place)
    ensures { (types : Typing) → Grows (PointCured (point.Difference d.into d.left d.left_ty d.right
        d.right_ty at) (world_of k.now) types)
        (HavePointers (whole_of k.now) d.left_ty d.right_ty) out.old out.new }
{
    match pointer_in(k, d.left_ty) {
        Some(p) => match pointer_in(k, d.right_ty) {
            Some(q) => put_difference_of(
                out,
                k,
                Pair {
                    left: k.kind_of(p.node),
                    right: k.kind_of(q.node),
                    to: p.to,
                    v: column(d.into),
                    a: column(d.left),
                    b: column(d.right),
                },
                at,
            ),
            None => refuse(out),
        },
        None => refuse(out),
    }
}

/// A comparison of two pointers.
pub fn put_compare(out: &mut Draft, k: &Scope<'_>, which: Comparison, d: Pointers, at: Place)
    ensures { (types : Typing) → Grows (PointCured (point.Compare d.into which d.left d.left_ty
        d.right d.right_ty at) (world_of k.now) types)
        (HavePointers (whole_of k.now) d.left_ty d.right_ty) out.old out.new }
{
    match pointer_in(k, d.left_ty) {
        Some(p) => match pointer_in(k, d.right_ty) {
            Some(q) => put_compared_by(
                out,
                k,
                which,
                Pair {
                    left: k.kind_of(p.node),
                    right: k.kind_of(q.node),
                    to: p.to,
                    v: column(d.into),
                    a: column(d.left),
                    b: column(d.right),
                },
                at,
            ),
            None => refuse(out),
        },
        None => refuse(out),
    }
}
