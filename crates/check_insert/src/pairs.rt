//! What an operator on two pointers asks, by their kinds.
ghost use Rattle.std.specs.Prelude.{◌≡◌, ◌∷◌, ◌++◌};
ghost use Rattle.cc_base.specs.declared.fault.Check.TheVariants as check;
ghost use Rattle.cc_base.specs.declared.kind.Kind.TheVariants.{Seq, Wild};
ghost use Rattle.check_forms.specs.Rows.{all_asked, settled, equated, of_one, elements_apart};
ghost use Rattle.check_insert.specs.Drafts.{Asks, Grows};
ghost use Rattle.check_insert.specs.Views.{condition_of};

use crate::asking::{ask, ask_nothing, ask_unless, put_both, stop};
use crate::condition::{Condition, only_if};
use crate::draft::Draft;
use crate::line::SlotLine;
use crate::rows::Pointer;
use cc_base::{Check, Kind, Place};
use check_forms::{Fixed, PointerSlots, Work};

/// A pointer that was made for an object is in it, or at its end.
fn put_settled(out: &mut Draft, k: Work, p: Pointer, at: Place)
    ensures { Grows (Asks k (all_asked check.Same at (settled p.kind p.slots)))
        (Unit {0}) out.old out.new }
{
    let stop = stop(Check::Same, at);
    let made = p.slots.second;
    match p.kind {
        Kind::Safe | Kind::Rtti => ask_nothing(out, k),
        Kind::Seq => ask_unless(
            out,
            k,
            stop,
            only_if(made, Condition::IsWithinPart(p.slots)),
        ),
        Kind::Wild => ask_unless(
            out,
            k,
            stop,
            only_if(made, Condition::IsWithinArea(p.slots)),
        ),
    }
}

/// Two SEQ pointers are of one part, or settled.
#[tactic(auto, using(crate::proofs::Laws::asks_one))]
fn put_parts(out: &mut Draft, k: Work, p: PointerSlots, q: PointerSlots, at: Place)
    ensures { Grows (Asks k (all_asked check.Same at (equated Seq Seq p q)))
        (Unit {0}) out.old out.new }
{
    put_both(
        out,
        k,
        stop(Check::Same, at),
        &[
            SlotLine::Equal(k.x, p.second, q.second),
            SlotLine::Equal(k.y, p.third, q.third),
            SlotLine::And(k.x, k.x, k.y),
        ],
        only_if(p.second, Condition::IsWithinPart(p)),
        only_if(q.second, Condition::IsWithinPart(q)),
    )
}

/// Two WILD pointers are of one area, or settled.
#[tactic(auto, using(crate::proofs::Laws::asks_one))]
fn put_areas(out: &mut Draft, k: Work, p: PointerSlots, q: PointerSlots, at: Place)
    ensures { Grows (Asks k (all_asked check.Same at (equated Wild Wild p q)))
        (Unit {0}) out.old out.new }
{
    put_both(
        out,
        k,
        stop(Check::Same, at),
        &[SlotLine::Equal(k.x, p.second, q.second)],
        only_if(p.second, Condition::IsWithinArea(p)),
        only_if(q.second, Condition::IsWithinArea(q)),
    )
}

/// Both are settled.
#[tactic(auto, using(crate::proofs::Laws::all_asked_append))]
fn put_both_settled(out: &mut Draft, k: Work, p: Pointer, q: Pointer, at: Place)
    ensures { Grows (Asks k (all_asked check.Same at (settled p.kind p.slots ++ settled q.kind
        q.slots))) (Unit {0}) out.old out.new }
{
    put_settled(out, k, p, at);
    put_settled(out, k, q, at)
}

/// `==` and `!=`.
pub(crate) fn put_equated(out: &mut Draft, k: Work, p: Pointer, q: Pointer, at: Place)
    ensures { Grows (Asks k (all_asked check.Same at (equated p.kind q.kind p.slots q.slots)))
        (Unit {0}) out.old out.new }
{
    match p.kind {
        Kind::Safe | Kind::Rtti => put_both_settled(out, k, p, q, at),
        Kind::Seq => match q.kind {
            Kind::Seq => put_parts(out, k, p.slots, q.slots, at),
            Kind::Safe | Kind::Rtti | Kind::Wild => put_both_settled(out, k, p, q, at),
        },
        Kind::Wild => match q.kind {
            Kind::Wild => put_areas(out, k, p.slots, q.slots, at),
            Kind::Safe | Kind::Rtti | Kind::Seq => put_both_settled(out, k, p, q, at),
        },
    }
}

/// Two pointers are of one part, or of one area.
fn of_one(p: Pointer, q: Pointer) -> Condition
    ensures { condition_of result ≡ of_one p.kind q.kind p.slots q.slots }
{
    match p.kind {
        Kind::Safe | Kind::Rtti => Condition::Never,
        Kind::Seq => match q.kind {
            Kind::Seq => Condition::AreOfPart(p.slots, q.slots),
            Kind::Safe | Kind::Rtti | Kind::Wild => Condition::Never,
        },
        Kind::Wild => match q.kind {
            Kind::Wild => Condition::AreOfArea(p.slots, q.slots),
            Kind::Safe | Kind::Rtti | Kind::Seq => Condition::Never,
        },
    }
}

/// A whole number of elements lies between them.
fn put_apart(
    out: &mut Draft,
    k: Work,
    p: PointerSlots,
    q: PointerSlots,
    apart: Option<Fixed>,
    at: Place,
)
    ensures { Grows (Asks k (all_asked check.Same at (elements_apart p q apart)))
        (Unit {0}) out.old out.new }
{
    match apart {
        None => ask_nothing(out, k),
        Some(size) => {
            if size.value == 1 {
                ask_nothing(out, k)
            } else {
                let whole = Condition::AreElementsApart(p, q, size);
                ask(out, k, stop(Check::Same, at), whole)
            }
        }
    }
}

/// Two pointers are ordered, or their difference is taken.
#[tactic(auto, using(crate::proofs::Laws::asks_append))]
pub(crate) fn put_order(
    out: &mut Draft,
    k: Work,
    p: Pointer,
    q: Pointer,
    apart: Option<Fixed>,
    at: Place,
)
    ensures { Grows (Asks k (all_asked check.Same at (of_one p.kind q.kind p.slots q.slots ∷
        elements_apart p.slots q.slots apart))) (Unit {0}) out.old out.new }
{
    ask(out, k, stop(Check::Same, at), of_one(p, q));
    put_apart(out, k, p.slots, q.slots, apart, at)
}
