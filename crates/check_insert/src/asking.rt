//! Conditions that are asked, each with the check that stops where it is false.
ghost use Rattle.std.specs.Prelude.{◌≡◌, map, [], ◌∷◌};
ghost use Rattle.check_forms.specs.Conditions.{Unless, UnlessNull};
ghost use Rattle.check_forms.specs.Lines.{test_of};
ghost use Rattle.check_forms.specs.Rows.{asked};
ghost use Rattle.check_forms.specs.Tests.{Pass, After, Choose, Then};
ghost use Rattle.check_insert.specs.Drafts.{Asks, Grows, Tests};
ghost use Rattle.check_insert.specs.Views.{condition_of, straight_of};

use crate::condition::{Condition, Guarded};
use crate::conditions::put_condition;
use crate::draft::Draft;
use crate::ends::Stop;
use crate::line::SlotLine;
use crate::pieces::{choose, keep, put_lines, start};
use cc_base::{Check, Place};
use check_forms::{PointerSlots, Work};

/// A stop by the check at the place.
pub(crate) fn stop(check: Check, place: Place) -> Stop
    ensures { result ≡ record { check = check; place = place } }
{
    Stop { check, place }
}

/// No check.
#[tactic(auto, using(crate::proofs::Laws::asks_nothing))]
pub(crate) fn ask_nothing(out: &mut Draft, k: Work)
    ensures { Grows (Asks k []) (Unit {0}) out.old out.new }
{
    let _ = k;
    keep(out)
}

/// The check of one condition.
#[tactic(auto, using(crate::proofs::Laws::asks_one))]
pub(crate) fn ask(out: &mut Draft, k: Work, stop: Stop, c: Condition)
    ensures { Grows (Asks k (asked stop.check stop.place (condition_of c) ∷ []))
        (Unit {0}) out.old out.new }
{
    put_condition(out, k, stop, c)
}

/// The test of a condition that is asked only where a slot isn't 0.
fn put_unless(out: &mut Draft, k: Work, stop: Stop, c: Guarded)
    ensures { Grows (Tests stop (test_of k (Unless c.slot (condition_of c.condition))))
        (Unit {0}) out.old out.new }
{
    let mut testing = start(out);
    put_condition(&mut testing, k, stop, c.condition);
    let passing = start(out);
    choose(out, c.slot, testing, passing)
}

/// The check of a condition that is asked only where a slot isn't 0.
#[tactic(auto, using(crate::proofs::Laws::asks_one))]
pub(crate) fn ask_unless(out: &mut Draft, k: Work, stop: Stop, c: Guarded)
    ensures { Grows (Asks k (asked stop.check stop.place
        (Unless c.slot (condition_of c.condition)) ∷ [])) (Unit {0}) out.old out.new }
{
    put_unless(out, k, stop, c)
}

/// The check of a condition that is asked only where a pointer of two words or more isn't null.
pub(crate) fn ask_unless_null(out: &mut Draft, k: Work, stop: Stop, p: PointerSlots, c: Condition)
    ensures { Grows (Asks k (asked stop.check stop.place (UnlessNull p (condition_of c)) ∷ []))
        (Unit {0}) out.old out.new }
{
    put_lines(out, &[SlotLine::Or(k.x, p.first, p.second)]);
    put_unless(
        out,
        k,
        stop,
        Guarded {
            slot: k.x,
            condition: c,
        },
    )
}

/// The test of two conditions that are asked only where lines leave 0 in the first working slot.
pub(crate) fn put_both(
    out: &mut Draft,
    k: Work,
    stop: Stop,
    lines: &[SlotLine],
    c: Guarded,
    d: Guarded,
)
    ensures { Grows (Tests stop (After (map straight_of lines.now)
        (Choose k.x Pass (Then (test_of k (Unless c.slot (condition_of c.condition)))
        (test_of k (Unless d.slot (condition_of d.condition))))))) (Unit {0}) out.old out.new }
{
    put_lines(out, lines);
    let passing = start(out);
    let mut testing = start(out);
    put_unless(&mut testing, k, stop, c);
    put_unless(&mut testing, k, stop, d);
    choose(out, k.x, passing, testing)
}
