//! How a draft grows.
ghost use Rattle.std.specs.Prelude.{◌≡◌, map, true, false, [], ◌∷◌, ◌++◌};
ghost use Rattle.cured_code.specs.Straight.{instrs};
ghost use Rattle.check_insert.specs.Drafts.{AreBothReady, Grows, Starts, Chosen};
ghost use Rattle.check_forms.specs.Pieces.{Line};
ghost use Rattle.check_insert.specs.Views.{straight_of};

use crate::draft::Draft;
use crate::line::{SlotLine, instruction_of};
use cured_code::{Code, Instr};

/// Appends an instruction, or remembers that memory was wanted.
pub fn push(out: &mut Draft, one: Instr)
    ensures appended { out.new.fine ≡ true → (out.old.fine ≡ true)
        × (out.new.items.items ≡ out.old.items.items ++ (one ∷ [])) }
    ensures ready { out.new.ready ≡ out.old.ready }
{
    if out.items.push(one).is_err() {
        out.fine = false;
    }
}

/// Appends an instruction.
#[tactic(auto, using(crate::proofs::Laws::grows_one))]
pub fn put(out: &mut Draft, one: Instr)
    ensures { Grows (Line (one ∷ [])) (Unit {0}) out.old out.new }
{
    push(out, one)
}

/// Appends lines.
pub fn put_lines(out: &mut Draft, lines: &[SlotLine])
    ensures { Grows (Line (instrs (map straight_of lines.now))) (Unit {0}) out.old out.new }
{
    for line in lines {
        put(out, instruction_of(*line));
    }
}

/// Appends nothing.
#[tactic(auto, using(crate::proofs::Rules::nothing_rules))]
pub fn keep(out: &mut Draft)
    ensures { Grows (Line []) (Unit {0}) out.old out.new }
{
    let _ = out;
}

/// Remembers that something was met that has no code.
pub fn refuse(out: &mut Draft)
    ensures { out.new.fine ≡ false }
{
    out.fine = false;
    out.ready = false;
}

/// Remembers that a part failed.
pub fn fail(out: &mut Draft)
    ensures failed { out.new.fine ≡ false }
    ensures ready { out.new.ready ≡ out.old.ready }
{
    out.fine = false;
}

/// An empty draft, for a part of what the other one is for.
#[tactic(auto, unfolding(crate::specs::Drafts::Starts))]
pub fn start(out: &Draft) -> Draft
    ensures { Starts result }
{
    Draft {
        alloc: out.alloc,
        items: Vec::new(out.alloc),
        fine: true,
        ready: true,
    }
}

/// A choice by a slot: the first where it isn't 0.
#[tactic(auto, using(crate::proofs::Rules::chosen_rules))]
pub fn choose(out: &mut Draft, a: u32, then: Draft, otherwise: Draft)
    ensures { Grows (Chosen a then otherwise) (AreBothReady then otherwise) out.old out.new }
{
    if then.ready {
        if otherwise.ready {
            if then.fine {
                if otherwise.fine {
                    return push(out, Instr::If(a, Code(then.items), Code(otherwise.items)));
                }
            }
            return fail(out);
        }
    }
    refuse(out)
}
