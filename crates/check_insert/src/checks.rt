//! The checks of each primitive.
ghost use Rattle.check_forms.specs.Rows.{flat_conditions};
ghost use Rattle.check_forms.specs.RowChecks.{AreChecks};
ghost use Rattle.check_insert.specs.Drafts.{Asks, Grows};

use crate::asking::{ask, stop};
use crate::condition::Condition;
use crate::draft::Draft;
use crate::pairs::{put_equated, put_order};
use crate::rows::{
    Block, Member, Pointer, home_slot, put_aligned, put_allocated, put_based, put_call,
    put_convert, put_factor, put_kept, put_member, put_plain, put_pointer, put_reached,
};
use cc_base::{Check, Kind, Place};
use check_forms::{Op, Work};

/// What a primitive asks, in order.
fn put_asked(out: &mut Draft, k: Work, op: Op, kind: Kind, at: Place)
    ensures { Grows (Asks k (flat_conditions op kind at)) (Unit {0}) out.old out.new }
{
    match op {
        Op::ReadInteger { p, size } => {
            let p = Pointer { kind, slots: p };
            put_reached(out, k, p, size, at);
            put_plain(out, k, p, size, at)
        }
        Op::ReadPointer { p, size, numbers } => {
            let p = Pointer { kind, slots: p };
            put_reached(out, k, p, size, at);
            put_aligned(out, k, p, numbers, at);
            put_pointer(out, k, p, numbers, at)
        }
        Op::WriteInteger { p, size } => put_reached(out, k, Pointer { kind, slots: p }, size, at),
        Op::WritePointer {
            p,
            size,
            numbers,
            home,
            assignment,
        } => {
            let p = Pointer { kind, slots: p };
            put_reached(out, k, p, size, at);
            put_aligned(out, k, p, numbers, at);
            let kept = Condition::IsNoDeeper(home, home_slot(p));
            ask(out, k, stop(Check::Escape, assignment), kept)
        }
        Op::CopyPlain {
            source,
            target,
            other,
            size,
            target_at,
        } => {
            let source = Pointer {
                kind,
                slots: source,
            };
            put_reached(out, k, source, size, at);
            put_plain(out, k, source, size, at);
            put_reached(
                out,
                k,
                Pointer {
                    kind: other,
                    slots: target,
                },
                size,
                target_at,
            )
        }
        Op::CopyPointers {
            source,
            target,
            other,
            size,
            numbers,
            target_at,
            assignment,
        } => {
            let source = Pointer {
                kind,
                slots: source,
            };
            let to = Pointer {
                kind: other,
                slots: target,
            };
            put_reached(out, k, source, size, at);
            put_aligned(out, k, source, numbers, at);
            put_reached(out, k, to, size, target_at);
            put_aligned(out, k, to, numbers, target_at);
            put_kept(out, k, source, target, size, assignment)
        }
        Op::KeepCell { home, target } => {
            ask(
                out,
                k,
                stop(Check::Escape, at),
                Condition::IsNoDeeper(home, target),
            )
        }
        Op::Member {
            p,
            size,
            numbers,
            offset,
            reach,
        } => {
            let member = Member {
                numbers,
                offset,
                reach,
            };
            put_member(out, k, Pointer { kind, slots: p }, size, member, at)
        }
        Op::Move {
            p,
            direction,
            n,
            factor,
            distance,
            numbers,
            reach,
        } => {
            put_based(out, k, Pointer { kind, slots: p }, numbers, at);
            put_factor(out, k, factor, n, at);
            let near = Condition::IsNear(p, direction, distance, reach);
            ask(out, k, stop(Check::Range, at), near)
        }
        Op::Order {
            p,
            q,
            other,
            numbers,
            apart,
        } => {
            let p = Pointer { kind, slots: p };
            let q = Pointer {
                kind: other,
                slots: q,
            };
            put_based(out, k, p, numbers, at);
            put_based(out, k, q, numbers, at);
            put_order(out, k, p, q, apart, at)
        }
        Op::Equate { p, q, other } => {
            put_equated(
                out,
                k,
                Pointer { kind, slots: p },
                Pointer {
                    kind: other,
                    slots: q,
                },
                at,
            )
        }
        Op::Call { p, signature } => put_call(out, k, Pointer { kind, slots: p }, signature, at),
        Op::ReturnPointer { home } => {
            ask(out, k, stop(Check::Escape, at), Condition::IsNotOwn(home))
        }
        Op::Convert { p, conversion } => put_convert(
            out,
            k,
            Pointer { kind, slots: p },
            conversion,
            at,
        ),
        Op::Allocate { made, size, needed } => {
            put_allocated(out, k, kind, Block { made, size, needed }, at)
        }
        Op::DivideUnsigned { a: _, b } => {
            ask(out, k, stop(Check::Divide, at), Condition::IsNotZero(b))
        }
        Op::DivideSigned {
            a,
            b,
            least,
            minus_one,
        } => {
            let stop = stop(Check::Divide, at);
            ask(out, k, stop, Condition::IsNotZero(b));
            ask(
                out,
                k,
                stop,
                Condition::IsNoOverflow(a, b, least, minus_one),
            )
        }
        Op::EnterMain { address } => ask(
            out,
            k,
            stop(Check::Depth, at),
            Condition::HasRoom(address),
        ),
    }
}

/// The checks of a primitive, through a pointer of this kind and at this place: their instructions are appended, in the
/// order in which they are tried. Working slots are those of `work`.
#[tactic(auto, unfolding(crate::specs::Drafts::Asks))]
pub fn put_checks(out: &mut Draft, work: Work, op: Op, kind: Kind, at: Place)
    ensures { Grows (AreChecks work (flat_conditions op kind at)) (Unit {0}) out.old out.new }
{
    put_asked(out, work, op, kind, at)
}
