//! How tests end: in a stop.
ghost use Rattle.std.specs.Prelude.{map, [], ◌∷◌};
ghost use Rattle.check_forms.specs.Lines.{stop_if};
ghost use Rattle.check_forms.specs.Tests.{Pass, Flag, After, Choose};
ghost use Rattle.check_insert.specs.Drafts.{Grows, Tests};
ghost use Rattle.check_insert.specs.Views.{straight_of, end_test};

use crate::draft::Draft;
use crate::line::SlotLine;
use crate::pieces::{choose, put, put_lines, start};
use cc_base::{Check, Place};
use check_forms::Work;
use cured_code::Instr;

/// Where a run is stopped, and by which check.
#[derive(Clone, Copy)]
pub struct Stop {
    pub check: Check,
    pub place: Place,
}

/// How a test ends: it stops where the slot is 0, or where it isn't.
#[derive(Clone, Copy)]
pub enum End {
    Flag(u32),
    StopIf(u32),
}

/// A stop where the slot is 0.
#[tactic(auto, using(crate::proofs::Laws::tests_flag))]
fn put_flag(out: &mut Draft, stop: Stop, a: u32)
    ensures { Grows (Tests stop (Flag a)) (Unit {0}) out.old out.new }
{
    put(out, Instr::Check(stop.check, stop.place, a))
}

/// A stop where the slot isn't 0.
#[tactic(auto, using(crate::proofs::Rules::choice_rules))]
fn put_stop_if(out: &mut Draft, k: Work, stop: Stop, a: u32)
    ensures { Grows (Tests stop (stop_if k a)) (Unit {0}) out.old out.new }
{
    let mut stopping = start(out);
    put_flag(&mut stopping, stop, k.none);
    let passing = start(out);
    choose(out, a, stopping, passing)
}

/// The end of a test.
pub(crate) fn put_end(out: &mut Draft, k: Work, stop: Stop, end: End)
    ensures { Grows (Tests stop (end_test k end)) (Unit {0}) out.old out.new }
{
    match end {
        End::Flag(a) => put_flag(out, stop, a),
        End::StopIf(a) => put_stop_if(out, k, stop, a),
    }
}

/// A test behind lines.
#[tactic(auto, using(crate::proofs::Laws::tests_after))]
pub(crate) fn put_test(out: &mut Draft, k: Work, stop: Stop, lines: &[SlotLine], end: End)
    ensures { Grows (Tests stop (After (map straight_of lines.now) (end_test k end)))
        (Unit {0}) out.old out.new }
{
    put_lines(out, lines);
    put_end(out, k, stop, end)
}

/// A test that lines behind it are for, only where the first working slot isn't 0: they stop where the second isn't 0.
#[tactic(auto, using(crate::proofs::Rules::choice_rules))]
pub(crate) fn put_test_if(out: &mut Draft, k: Work, stop: Stop, first: SlotLine, more: &[SlotLine])
    ensures { Grows (Tests stop (After (straight_of first ∷ [])
        (Choose k.x (After (map straight_of more.now) (stop_if k k.y)) Pass)))
        (Unit {0}) out.old out.new }
{
    put_lines(out, &[first]);
    let mut testing = start(out);
    put_test(&mut testing, k, stop, more, End::StopIf(k.y));
    let passing = start(out);
    choose(out, k.x, testing, passing)
}

/// The same where the first working slot is 0.
#[tactic(auto, using(crate::proofs::Rules::choice_rules))]
pub(crate) fn put_test_unless(
    out: &mut Draft,
    k: Work,
    stop: Stop,
    first: SlotLine,
    more: &[SlotLine],
)
    ensures { Grows (Tests stop (After (straight_of first ∷ [])
        (Choose k.x Pass (After (map straight_of more.now) (stop_if k k.y)))))
        (Unit {0}) out.old out.new }
{
    put_lines(out, &[first]);
    let mut testing = start(out);
    put_test(&mut testing, k, stop, more, End::StopIf(k.y));
    let passing = start(out);
    choose(out, k.x, passing, testing)
}
