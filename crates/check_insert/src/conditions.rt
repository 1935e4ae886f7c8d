//! The lines of each condition.
ghost use Rattle.std.specs.Prelude.{◌≡◌};
ghost use Rattle.cured_code.specs.Straight.{instrs, Sets, Result};
ghost use Rattle.check_forms.specs.Lines.{test_of, move_lines, step_operator};
ghost use Rattle.check_insert.specs.Drafts.{Grows, Tests};
ghost use Rattle.check_forms.specs.Pieces.{Line};
ghost use Rattle.check_insert.specs.Views.{condition_of, straight_of};

use crate::condition::Condition;
use crate::draft::Draft;
use crate::ends::{End, Stop, put_end, put_test, put_test_if, put_test_unless};
use crate::line::SlotLine;
use crate::pieces::put_lines;
use check_forms::{Direction, Distance, PointerSlots, Work};

/// A line that moves an address by bytes.
fn step_line(direction: Direction, to: u32, a: u32, b: u32) -> SlotLine
    ensures { straight_of result ≡ Sets to (Result (step_operator direction) a b) }
{
    match direction {
        Direction::Forward => SlotLine::Sum(to, a, b),
        Direction::Backward => SlotLine::Difference(to, a, b),
    }
}

/// The lines that find the address that is moved to.
fn put_move(out: &mut Draft, k: Work, p: PointerSlots, direction: Direction, d: Distance)
    ensures { Grows (Line (instrs (move_lines k p direction d))) (Unit {0}) out.old out.new }
{
    match d {
        Distance::Bytes(n) => put_lines(out, &[step_line(direction, k.to, p.first, n)]),
        Distance::Elements(n, size) => put_lines(
            out,
            &[
                SlotLine::Product(k.x, n, size.slot),
                step_line(direction, k.to, p.first, k.x),
            ],
        ),
    }
}

/// The lines of a condition on slots and areas, which stop where it is false.
pub(crate) fn put_condition(out: &mut Draft, k: Work, stop: Stop, c: Condition)
    ensures { Grows (Tests stop (test_of k (condition_of c))) (Unit {0}) out.old out.new }
{
    match c {
        Condition::Never => put_end(out, k, stop, End::Flag(k.none)),
        Condition::IsNotZero(a) => put_end(out, k, stop, End::Flag(a)),
        Condition::IsInPart(p, size) => put_test(
            out,
            k,
            stop,
            &[
                SlotLine::LessSigned(k.x, p.first, p.second),
                SlotLine::Difference(k.y, p.third, p.first),
                SlotLine::LessSigned(k.y, k.y, size.slot),
                SlotLine::Or(k.x, k.x, k.y),
            ],
            End::StopIf(k.x),
        ),
        Condition::IsByteInPart(p) => put_test(
            out,
            k,
            stop,
            &[
                SlotLine::Difference(k.x, p.first, p.second),
                SlotLine::Difference(k.y, p.third, p.second),
                SlotLine::Less(k.x, k.x, k.y),
            ],
            End::Flag(k.x),
        ),
        Condition::IsWithinPart(p) => put_test(
            out,
            k,
            stop,
            &[
                SlotLine::LessSigned(k.x, p.first, p.second),
                SlotLine::LessSigned(k.y, p.third, p.first),
                SlotLine::Or(k.x, k.x, k.y),
            ],
            End::StopIf(k.x),
        ),
        Condition::IsInArea(p, size) => put_test(
            out,
            k,
            stop,
            &[
                SlotLine::LengthOf(k.x, p.second),
                SlotLine::Difference(k.y, p.first, p.second),
                SlotLine::Difference(k.y, k.x, k.y),
                SlotLine::Less(k.z, k.x, k.y),
                SlotLine::Less(k.y, k.y, size.slot),
                SlotLine::Or(k.y, k.z, k.y),
            ],
            End::StopIf(k.y),
        ),
        Condition::IsByteInArea(p) => put_test(
            out,
            k,
            stop,
            &[
                SlotLine::LengthOf(k.x, p.second),
                SlotLine::Difference(k.y, p.first, p.second),
                SlotLine::Less(k.x, k.y, k.x),
            ],
            End::Flag(k.x),
        ),
        Condition::IsWithinArea(p) => put_test(
            out,
            k,
            stop,
            &[
                SlotLine::LengthOf(k.x, p.second),
                SlotLine::Difference(k.y, p.first, p.second),
                SlotLine::Less(k.x, k.x, k.y),
            ],
            End::StopIf(k.x),
        ),
        Condition::IsArea(a, last) => put_test(
            out,
            k,
            stop,
            &[SlotLine::Less(k.x, last.slot, a)],
            End::Flag(k.x),
        ),
        Condition::IsNear(p, direction, d, reach) => {
            put_move(out, k, p, direction, d);
            put_test(
                out,
                k,
                stop,
                &[
                    SlotLine::Difference(k.x, k.to, p.second),
                    SlotLine::Sum(k.x, k.x, reach.least.slot),
                    SlotLine::Less(k.x, k.x, reach.span.slot),
                ],
                End::Flag(k.x),
            )
        }
        Condition::IsSmall(n, least, span) => put_test(
            out,
            k,
            stop,
            &[
                SlotLine::Sum(k.x, n, least.slot),
                SlotLine::Less(k.x, k.x, span.slot),
            ],
            End::Flag(k.x),
        ),
        Condition::IsBelowBound(n, bound) => {
            put_test(
                out,
                k,
                stop,
                &[SlotLine::Less(k.x, n, bound.slot)],
                End::Flag(k.x),
            )
        }
        Condition::IsAtLeast(n, least) => {
            put_test(
                out,
                k,
                stop,
                &[SlotLine::Less(k.x, n, least.slot)],
                End::StopIf(k.x),
            )
        }
        Condition::IsAligned(a, seven) => {
            put_test(
                out,
                k,
                stop,
                &[SlotLine::And(k.x, a, seven)],
                End::StopIf(k.x),
            )
        }
        Condition::HoldsNoPointer(p, bytes) => put_test(
            out,
            k,
            stop,
            &[SlotLine::IsPlain(k.x, p.first, p.second, bytes)],
            End::Flag(k.x),
        ),
        Condition::HoldsPointer(p, eight) => put_test_unless(
            out,
            k,
            stop,
            SlotLine::IsTagged(k.x, p.first, p.second),
            &[
                SlotLine::Sum(k.y, p.first, eight),
                SlotLine::LengthOf(k.y, k.y),
            ],
        ),
        Condition::IsNoDeeper(home, target) => put_test_if(
            out,
            k,
            stop,
            SlotLine::DepthOf(k.x, home),
            &[
                SlotLine::DepthOf(k.y, target),
                SlotLine::Less(k.y, k.y, k.x),
            ],
        ),
        Condition::AreNoDeeper(p, bytes, target) => put_test_if(
            out,
            k,
            stop,
            SlotLine::GreatestDepth(k.x, p.first, p.second, bytes),
            &[
                SlotLine::DepthOf(k.y, target),
                SlotLine::Less(k.y, k.y, k.x),
            ],
        ),
        Condition::IsNotOwn(home) => put_test_if(
            out,
            k,
            stop,
            SlotLine::DepthOf(k.x, home),
            &[
                SlotLine::AreaOf(k.y, 0),
                SlotLine::DepthOf(k.y, k.y),
                SlotLine::Equal(k.y, k.y, k.x),
            ],
        ),
        Condition::IsMadeFor(a, node) => {
            put_test(
                out,
                k,
                stop,
                &[SlotLine::IsBelow(k.x, a, node)],
                End::Flag(k.x),
            )
        }
        Condition::IsFunctionOf(p, signature) => put_test(
            out,
            k,
            stop,
            &[
                SlotLine::Equal(k.x, p.first, p.second),
                SlotLine::SigOf(k.y, p.first),
                SlotLine::Equal(k.y, k.y, signature.slot),
                SlotLine::And(k.x, k.x, k.y),
            ],
            End::Flag(k.x),
        ),
        Condition::HasRoom(a) => {
            put_test(out, k, stop, &[SlotLine::HasRoom(k.x, a)], End::Flag(k.x))
        }
        Condition::AreOfPart(p, q) => put_test(
            out,
            k,
            stop,
            &[
                SlotLine::Equal(k.x, p.second, q.second),
                SlotLine::Equal(k.y, p.third, q.third),
                SlotLine::And(k.x, k.x, k.y),
            ],
            End::Flag(k.x),
        ),
        Condition::AreOfArea(p, q) => put_test(
            out,
            k,
            stop,
            &[SlotLine::Equal(k.x, p.second, q.second)],
            End::Flag(k.x),
        ),
        Condition::AreElementsApart(p, q, size) => put_test(
            out,
            k,
            stop,
            &[
                SlotLine::Difference(k.x, p.first, q.first),
                SlotLine::RemainderSigned(k.x, k.x, size.slot),
            ],
            End::StopIf(k.x),
        ),
        Condition::IsNoOverflow(a, b, least, minus_one) => put_test_if(
            out,
            k,
            stop,
            SlotLine::Equal(k.x, b, minus_one.slot),
            &[SlotLine::Equal(k.y, a, least.slot)],
        ),
    }
}
