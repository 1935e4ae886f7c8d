//! How a draft grows.
ghost use Rattle.std.specs.Prelude.{◌≡◌, ◌+◌, ◌<◌, true, false, [], ◌∷◌, ◌++◌, suc};
ghost use Rattle.cil_form.specs.declared.number.Temp.TheVariants as temp;
ghost use Rattle.c_tree.specs.TypedViews.{typed_place_view};
ghost use Rattle.lower_rules.specs.Pieces.{Line};
ghost use Rattle.lower_rules.specs.Words.{value, LogicalOf, Truth};
ghost use Rattle.lower_rules.specs.Expressions.{IsFixed};
ghost use Rattle.lower_exprs.specs.Drafts.{AreBothReady, Grows, Starts, Chosen, Decided, Fixed, Numbered, numbered};

use crate::draft::{Draft, Scope};
use crate::operators::put_truth;
use crate::places::is_fixed;
use c_tree::TypedPlace;
use cil_form::{Code, Instr, Temp};

/// Appends an instruction, or remembers that memory was wanted.
pub fn push(out: &mut Draft, one: Instr)
    ensures appended { out.new.fine ≡ true → (out.old.fine ≡ true)
        × (out.new.items.items ≡ out.old.items.items ++ (one ∷ [])) }
    ensures ready { out.new.ready ≡ out.old.ready }
{
    if out.items.push(one).is_err() {
        out.fine = false;
    }
}

/// Appends an instruction.
#[tactic(auto, using(crate::proofs::Laws::grows_one))]
pub fn put(out: &mut Draft, one: Instr)
    ensures { Grows (Line (one ∷ [])) (Unit {0}) out.old out.new }
{
    push(out, one)
}

/// Appends nothing.
#[tactic(auto, using(crate::proofs::Rules::nothing_rules))]
pub fn keep(out: &mut Draft)
    ensures { Grows (Line []) (Unit {0}) out.old out.new }
{
    let _ = out;
}

/// Remembers that something was met that has no code.
pub fn refuse(out: &mut Draft)
    ensures { out.new.fine ≡ false }
{
    out.fine = false;
    out.ready = false;
}

/// Remembers that a part failed.
pub fn fail(out: &mut Draft)
    ensures failed { out.new.fine ≡ false }
    ensures ready { out.new.ready ≡ out.old.ready }
{
    out.fine = false;
}

/// An empty draft.
#[tactic(auto, unfolding(crate::specs::Drafts::Starts))]
pub fn start(k: &Scope<'_>) -> Draft
    ensures { Starts result }
{
    Draft {
        items: Vec::new(k.alloc),
        fine: true,
        ready: true,
    }
}

/// A choice by value t.
#[tactic(auto, using(crate::proofs::Rules::chosen_rules))]
pub fn choose(out: &mut Draft, t: u8, then: Draft, otherwise: Draft)
    ensures { Grows (Chosen (value t) then otherwise)
        (AreBothReady then otherwise) out.old out.new }
{
    if then.ready {
        if otherwise.ready {
            if then.fine {
                if otherwise.fine {
                    return push(
                        out,
                        Instr::If {
                            condition: Temp::Value(t),
                            then: Code(then.items),
                            otherwise: Code(otherwise.items),
                        },
                    );
                }
            }
            return fail(out);
        }
    }
    refuse(out)
}

/// `||`, or else `&&`, behind its left operand, by the code of its right one.
#[tactic(auto, using(crate::proofs::Rules::logical_rules))]
pub fn put_logical(out: &mut Draft, k: &Scope<'_>, t: u8, or: bool, right: Draft)
    ensures { Grows (Decided or t right) (right.ready ≡ true) out.old out.new }
{
    let mut constant = start(k);
    if or {
        put_truth(&mut constant, t, 1);
        choose(out, t, constant, right)
    } else {
        put_truth(&mut constant, t, 0);
        choose(out, t, right, constant)
    }
}

/// Only where a place is no choice between structs.
#[tactic(auto, using(crate::proofs::Rules::fixed_rules))]
pub fn demand_fixed(out: &mut Draft, p: &TypedPlace)
    ensures { Grows (Fixed (typed_place_view p.now))
        (IsFixed (typed_place_view p.now)) out.old out.new }
{
    if !is_fixed(p) {
        refuse(out)
    }
}

/// The number of the value behind value t.
pub fn above(out: &mut Draft, t: u8) -> u8
    ensures room { Grows (Numbered (suc t)) (suc t < 256) out.old out.new }
    ensures number { result ≡ numbered (suc t) }
{
    argument_number(out, t, 0)
}

/// The number of the value of argument i, where they stand behind value t.
#[tactic(auto, using(crate::proofs::Rules::numbered_rules), unfolding(crate::specs::Drafts::numbered))]
pub fn argument_number(out: &mut Draft, t: u8, i: usize) -> u8
    ensures room { Grows (Numbered (suc t + i)) (suc t + i < 256) out.old out.new }
    ensures number { result ≡ numbered (suc t + i) }
{
    let room = 255 - t;
    if i < room as usize {
        t + 1 + i as u8
    } else {
        refuse(out);
        255
    }
}
