//! The cured code of code: one arm a construct.
ghost use Rattle.std.specs.Prelude.{◌≡◌, true, IsSome};
ghost use Rattle.check_forms.specs.Pieces.{Line};
ghost use Rattle.cil_form.specs.declared.instr.Instr.TheVariants as source;
ghost use Rattle.cil_form.specs.Typing.{Typing, Includes};
ghost use Rattle.check_insert.specs.Drafts.{Starts};
ghost use Rattle.cure_instrs.specs.Lines.{tested_slot, tested_lines, held_views};
ghost use Rattle.cure_scope.specs.Scopes.{world_of};
ghost use Rattle.cure_bodies.specs.Holding.{Makes, holds_now, TestedFor, BlockOf, LoopOf};
ghost use Rattle.cure_bodies.specs.Bodies.{InstrCured, CodeCured};
ghost use Rattle.cure_bodies.specs.Ready.{InstrReady, CodeReady, StaysReady};

use crate::holding::{Holdings, held_in, mark, rewind};
use crate::instrs::{access, allocate, calculate, call, convert, point, runtime, set};
use check_insert::{Draft, choose, fail, push, put, refuse, start};
use cil_form::{Instr, Temp};
use cure_calls::put_return;
use cure_instrs::put_tested;
use cure_scope::{NOUGHT, Scope};
use cured_code::Code;
use phys_types::Known;

/// A value is made ready to be tested: the slot that isn't 0 where it is true.
fn test(out: &mut Draft, k: &Scope<'_>, held: &Holdings, t: Temp) -> u32
    ensures made { TestedFor (world_of k.now) (holds_now held.now) t result out.old out.new }
    ensures ready { (types : Typing) → Includes (holds_now held.now) types
        → StaysReady (IsSome (types t)) out.old out.new }
{
    match held_in(held, t) {
        Some(x) => put_tested(out, k, x, t),
        None => {
            refuse(out);
            NOUGHT
        }
    }
}

/// An empty draft behind another one, in which nothing is made where that one failed.
#[tactic(auto, unfolding(check_insert::specs::Drafts::Starts))]
fn start_behind(first: &Draft) -> Draft
    ensures starts { Starts result }
    ensures fine { result.fine ≡ first.now.fine }
{
    Draft {
        alloc: first.alloc,
        items: Vec::new(first.alloc),
        fine: first.fine,
        ready: true,
    }
}

/// A block around a draft.
#[tactic(auto, unfolding(crate::specs::Holding::BlockOf))]
fn put_block(out: &mut Draft, inner: Draft)
    ensures made { BlockOf inner out.old out.new }
    ensures ready { StaysReady (inner.ready ≡ true) out.old out.new }
{
    if inner.fine {
        return push(out, cured_code::Instr::Block(Code(inner.items)));
    }
    if inner.ready { fail(out) } else { refuse(out) }
}

/// A loop around a draft.
#[tactic(auto, unfolding(crate::specs::Holding::LoopOf))]
fn put_loop(out: &mut Draft, inner: Draft)
    ensures made { LoopOf inner out.old out.new }
    ensures ready { StaysReady (inner.ready ≡ true) out.old out.new }
{
    if inner.fine {
        return push(out, cured_code::Instr::Loop(Code(inner.items)));
    }
    if inner.ready { fail(out) } else { refuse(out) }
}

/// Appends the cured code of instructions in order.
#[cycle(curing)]
pub(crate) fn put_code(
    out: &mut Draft,
    k: &Scope<'_>,
    known: &Known<'_>,
    held: &mut Holdings,
    code: &[Instr],
)
    requires { known.now ≡ k.now.layouts.now.table }
    ensures made { Makes (CodeCured code.now (world_of k.now) held.old held.new) out.old out.new }
    ensures ready { CodeReady code.now (world_of k.now) held.old out.old out.new }
{
    for one in code {
        put_instr(out, k, known, held, one)
    }
}

/// Appends the cured code of an instruction. Nothing is made behind what failed.
#[cycle(curing)]
fn put_instr(out: &mut Draft, k: &Scope<'_>, known: &Known<'_>, held: &mut Holdings, i: &Instr)
    requires { known.now ≡ k.now.layouts.now.table }
    ensures made { Makes (InstrCured i.now (world_of k.now) held.old held.new) out.old out.new }
    ensures ready { InstrReady i.now (world_of k.now) held.old out.old out.new }
{
    if !out.fine {
        return;
    }
    match i {
        Instr::Set(i) => set(out, k, held, *i),
        Instr::Calculate(i) => calculate(out, k, held, *i),
        Instr::Point(i) => point(out, k, held, *i),
        Instr::Convert(i) => convert(out, k, known, held, *i),
        Instr::Access(i) => access(out, k, known, held, *i),
        Instr::Allocate(i) => allocate(out, k, known, held, *i),
        Instr::Call(i) => call(out, k, held, *i),
        Instr::Runtime(i) => runtime(out, k, held, *i),
        Instr::If {
            condition,
            then,
            otherwise,
        } => {
            let before = mark(held);
            let a = test(out, k, held, *condition);
            let mut yes = start(out);
            put_code(&mut yes, k, known, held, then.0.as_slice());
            rewind(held, before);
            let mut no = start_behind(&yes);
            put_code(&mut no, k, known, held, otherwise.0.as_slice());
            choose(out, a, yes, no)
        }
        Instr::Block(code) => {
            let before = mark(held);
            let mut inner = start(out);
            put_code(&mut inner, k, known, held, code.0.as_slice());
            rewind(held, before);
            put_block(out, inner)
        }
        Instr::Loop(code) => {
            let before = mark(held);
            let mut inner = start(out);
            put_code(&mut inner, k, known, held, code.0.as_slice());
            rewind(held, before);
            put_loop(out, inner)
        }
        Instr::Break(n) => put(out, cured_code::Instr::Break(*n)),
        Instr::Return => put(out, cured_code::Instr::Return(NOUGHT)),
        Instr::ReturnValue { value, ty, place } => put_return(out, k, *value, *ty, *place),
    }
}
