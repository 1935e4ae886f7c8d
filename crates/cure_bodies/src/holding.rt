//! What temporaries hold where code has come to.
ghost use Rattle.std.specs.Prelude.{◌≡◌, length, take};
ghost use Rattle.cil_form.specs.State.{is_same};
ghost use Rattle.cure_instrs.specs.Lines.{held_views};
ghost use Rattle.cure_bodies.specs.Holding.{typing_of, holds_now, Notes};

use check_insert::{Draft, fail};
use cil_form::{Temp, Work};
use cure_instrs::Held;

/// A temporary, and what was written into it.
#[derive(Clone, Copy)]
pub struct Written {
    pub temp: Temp,
    pub held: Option<Held>,
}

/// What was written into temporaries, in order: the last counts. So what was written since is dropped at the end of a part.
#[derive(Drop)]
pub struct Holdings {
    pub items: Vec<Written>,
}

/// Whether two temporaries are one.
fn is_same(t: Temp, u: Temp) -> bool
    ensures { result ≡ is_same t u }
{
    match t {
        Temp::Value(m) => match u {
            Temp::Value(n) => m == n,
            Temp::Switch(_) => false,
            Temp::Work(_) => false,
        },
        Temp::Switch(m) => match u {
            Temp::Switch(n) => m == n,
            Temp::Value(_) => false,
            Temp::Work(_) => false,
        },
        Temp::Work(Work::First) => match u {
            Temp::Work(Work::First) => true,
            Temp::Work(Work::Second) => false,
            Temp::Value(_) => false,
            Temp::Switch(_) => false,
        },
        Temp::Work(Work::Second) => match u {
            Temp::Work(Work::First) => false,
            Temp::Work(Work::Second) => true,
            Temp::Value(_) => false,
            Temp::Switch(_) => false,
        },
    }
}

/// What a temporary holds, by what was written last into it.
fn latest(items: &[Written], t: Temp) -> Option<Held>
    ensures { held_views result ≡ typing_of items.now t }
{
    let mut rest = items;
    'looking: while let Some((last, before)) = rest.split_last() {
        if is_same(t, last.temp) {
            return last.held;
        }
        rest = before;
    }
    None
}

/// What a temporary holds.
pub(crate) fn held_in(held: &Holdings, t: Temp) -> Option<Held>
    ensures { held_views result ≡ holds_now held.now t }
{
    latest(held.items.as_slice(), t)
}

/// How much was written so far.
pub(crate) fn mark(held: &Holdings) -> usize
    ensures { result ≡ length held.now.items.items }
{
    held.items.len()
}

/// What was written since is dropped.
pub(crate) fn rewind(held: &mut Holdings, mark: usize)
    ensures { held.new.items.items ≡ take mark held.old.items.items }
{
    held.items.truncate(mark)
}

/// Notes what a temporary holds, or remembers that memory was wanted.
#[tactic(auto, unfolding(crate::specs::Holding::Notes))]
pub(crate) fn note(out: &mut Draft, held: &mut Holdings, t: Temp, x: Option<Held>)
    ensures { Notes t (held_views x) out.old held.old out.new held.new }
{
    if held.items.push(Written { temp: t, held: x }).is_err() {
        fail(out)
    }
}
