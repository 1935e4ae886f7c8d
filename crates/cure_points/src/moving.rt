//! The cured code of moves.
ghost use Rattle.std.specs.Prelude.{◌≡◌, ◌+◌, ◌<◌, ◌≤◌, [], ◌∷◌, Some, None, Option, IfSome, IfNone, IsTrue, ◌↔◌};
ghost use Rattle.cured_code.specs.declared.instr.Instr.TheVariants as instr;
ghost use Rattle.check_forms.specs.Pieces.{Line};
ghost use Rattle.check_insert.specs.Drafts.{Grows};
ghost use Rattle.cil_form.specs.Typing.{Typing, IntegerOf};
ghost use Rattle.cil_form.specs.declared.instr.Point.TheVariants as point;
ghost use Rattle.cure_rules.specs.Known.{reach_of};
ghost use Rattle.cure_rules.specs.Checks.{reach_at, factor_at, distance_at, direction_of, move_by};
ghost use Rattle.cure_rules.specs.Pointing.{moved_words};
ghost use Rattle.cure_rules.specs.Slots.{Moved};
ghost use Rattle.cure_scope.specs.Scopes.{fixed_column, seat, whole_of, world_of};
ghost use Rattle.cure_instrs.specs.Lines.{width_view, held_views};
ghost use Rattle.cure_points.specs.Lines.{MovedBy, IsSmallReach, IsIntegerHeld, CanMove};
ghost use Rattle.cure_points.specs.Cured.{PointCured};

use cc_base::{Kind, Place, TypeId};
use check_forms::{Direction as Way, Distance, Factor, Fixed, Op, Reach};
use check_insert::{Draft, put, refuse};
use cil_form::{Direction, Temp};
use cure_instrs::{Held, Width, pointer_in, put_three, put_two, reach_of, wild_numbers};
use cure_scope::{
    LEAST, LEAST_FACTOR, MOVED, SIZE, SPAN, SPAN_FACTOR, Scope, column, pointer_slots, put_guarded,
};
use cured_code::Instr;

/// How far a pointer may lie from the start of its part.
fn reach_at(kind: Kind, size: u64) -> Reach
    requires { size ≤ 4194304 }
    ensures { result ≡ reach_at seat kind size }
{
    match kind {
        Kind::Wild => Reach {
            least: Fixed {
                slot: LEAST,
                value: 1099511627776,
            },
            span: Fixed {
                slot: SPAN,
                value: 2199023255553,
            },
        },
        Kind::Safe | Kind::Seq | Kind::Rtti => Reach {
            least: Fixed {
                slot: LEAST,
                value: 2147483648 * size,
            },
            span: Fixed {
                slot: SPAN,
                value: 4294967296 * size + size,
            },
        },
    }
}

/// What an integer must be so that its product with the size doesn't wrap.
fn factor_at(i: Width, size: u64) -> Factor
    requires { 0 < size }
    ensures { result ≡ factor_at seat (width_view i) size }
{
    let most = 4611686018427387904 / size;
    if i.bytes <= 4 {
        Factor::Any
    } else if i.signed {
        Factor::Signed {
            least: Fixed {
                slot: LEAST_FACTOR,
                value: most,
            },
            span: Fixed {
                slot: SPAN_FACTOR,
                value: 2 * most + 1,
            },
        }
    } else {
        Factor::Unsigned {
            bound: Fixed {
                slot: SPAN_FACTOR,
                value: most + 1,
            },
        }
    }
}

/// How far a pointer is moved.
fn distance_at(n: u32, size: u64) -> Distance
    ensures { result ≡ distance_at seat n size }
{
    if size == 1 {
        Distance::Bytes(n)
    } else {
        Distance::Elements(
            n,
            Fixed {
                slot: SIZE,
                value: size,
            },
        )
    }
}

fn direction_of(way: Direction) -> Way
    ensures { result ≡ direction_of way }
{
    match way {
        Direction::Forward => Way::Forward,
        Direction::Backward => Way::Backward,
    }
}

/// The words of a pointer that has moved.
fn put_moved_words(out: &mut Draft, kind: Kind, v: u32, a: u32)
    requires to { v + 3 ≤ 1948 }
    requires from { a + 3 ≤ 1948 }
    ensures { Grows (Line (moved_words kind v a (seat Moved))) (Unit {0}) out.old out.new }
{
    match kind {
        Kind::Seq => put_three(
            out,
            Instr::Copy(v, MOVED),
            Instr::Copy(v + 1, a + 1),
            Instr::Copy(v + 2, a + 2),
        ),
        Kind::Wild => put_two(out, Instr::Copy(v, MOVED), Instr::Copy(v + 1, a + 1)),
        Kind::Safe => put(out, Instr::Copy(v, MOVED)),
        Kind::Rtti => put(out, Instr::Copy(v, MOVED)),
    }
}

/// The slots of a move: of the pointer that it gives, of the pointer, of the integer.
#[derive(Clone, Copy)]
struct Operands {
    v: u32,
    a: u32,
    n: u32,
}

/// What is moved: a pointer of a kind to a type, one way, by an integer of a type.
#[derive(Clone, Copy)]
struct Motion {
    kind: Kind,
    to: TypeId,
    way: Direction,
    by: Width,
}

/// A pointer moves by an integer.
fn put_moved(out: &mut Draft, k: &Scope<'_>, m: Motion, on: Operands, at: Place)
    requires small { IsSmallReach (world_of k.now) m.kind m.to }
    requires to { on.v + 3 ≤ 1948 }
    requires from { on.a + 3 ≤ 1948 }
    ensures { Grows (MovedBy (world_of k.now) m.kind m.to m.way (width_view m.by) on.v on.a on.n at)
        (Unit {0}) out.old out.new }
{
    let size = reach_of(k, m.kind, m.to);
    let op = Op::Move {
        p: pointer_slots(on.a),
        direction: direction_of(m.way),
        n: on.n,
        factor: factor_at(m.by, size),
        distance: distance_at(on.n, size),
        numbers: wild_numbers(k),
        reach: reach_at(m.kind, size),
    };
    put_guarded(out, op, m.kind, at);
    put_moved_words(out, m.kind, on.v, on.a)
}

/// A move: its temporaries, its way, and the type of the pointer.
#[derive(Clone, Copy)]
pub struct Moving {
    pub into: Temp,
    pub pointer: Temp,
    pub amount: Temp,
    pub way: Direction,
    pub ty: TypeId,
}

/// Whether the numbers of the checks of a move are words.
fn is_small(k: &Scope<'_>, kind: Kind, to: TypeId) -> bool
    ensures { IsTrue result ↔ IsSmallReach (world_of k.now) kind to }
{
    let size = reach_of(k, kind, to);
    0 < size && size <= 4194304
}

/// A pointer of a kind to a type moves by an integer, where the numbers of the checks are words.
#[tactic(auto, using(cure_instrs::proofs::PieceLaws::always, check_insert::proofs::Laws::grows_failed))]
fn put_small(out: &mut Draft, k: &Scope<'_>, m: Motion, on: Operands, at: Place)
    requires to { on.v + 3 ≤ 1948 }
    requires from { on.a + 3 ≤ 1948 }
    ensures { Grows (MovedBy (world_of k.now) m.kind m.to m.way (width_view m.by) on.v on.a on.n at)
        (IsSmallReach (world_of k.now) m.kind m.to) out.old out.new }
{
    if is_small(k, m.kind, m.to) {
        put_moved(out, k, m, on, at)
    } else {
        refuse(out)
    }
}

/// The integer type of what is held.
fn integer_held(held: Option<Held>) -> Option<Width>
    ensures there { IfSome result (λ i. held_views held ≡ Some (IntegerOf (width_view i))) }
    ensures none { IfNone result (IsIntegerHeld (held_views held) → ⊥) }
{
    match held {
        Some(Held::Integer(by)) => Some(by),
        Some(Held::Pointer(_, _)) => None,
        Some(Held::Place(_, _)) => None,
        None => None,
    }
}

/// A move. `held` is what the integer's temporary holds.
pub fn put_move(out: &mut Draft, k: &Scope<'_>, held: Option<Held>, m: Moving, at: Place)
    ensures { (types : Typing) → types m.amount ≡ held_views held
        → Grows (PointCured (point.Move m.into m.pointer m.amount m.way m.ty at)
        (world_of k.now) types) (CanMove (world_of k.now) m.ty (held_views held)) out.old out.new }
{
    match pointer_in(k, m.ty) {
        Some(p) => match integer_held(held) {
            Some(by) => put_small(
                out,
                k,
                Motion {
                    kind: k.kind_of(p.node),
                    to: p.to,
                    way: m.way,
                    by,
                },
                Operands {
                    v: column(m.into),
                    a: column(m.pointer),
                    n: column(m.amount),
                },
                at,
            ),
            None => refuse(out),
        },
        None => refuse(out),
    }
}
