//! Generated programs: two lines are written about them, and they are run.
ghost use Rattle.std.specs.Prelude.{◌≡◌, ◌≤◌, ℕ, length};
ghost use Rattle.cured_machine.specs.Runs.{outside};
ghost use Rattle.cc_base.specs.declared.kind.Kind.TheVariants.{Safe, Seq, Rtti, Wild};
ghost use Rattle.kind_report.specs.Report.{AreWithin, pointers_of};
ghost use Rattle.c_build.specs.Built.{IsBuilt};
ghost use Rattle.program_answers.specs.Causes.{IsMadeCause};
ghost use Rattle.program_answers.specs.Summaries.{summary_lines};
ghost use Rattle.program_answers.specs.Texts.{IsMadeOf, text_limit};
ghost use Rattle.program_gen.specs.Generated.{generated};
ghost use Rattle.program_top.specs.Made.{texts};

use c_build::{Built, build};
use cc_io::{Sink, Source};
use cured_machine::Machine;
use kind_report::count_pointers;
use program_answers::{Summary, Verdict};
use program_gen::make;
use std::alloc::Global;

/// The turns that a generated program is run with.
const TURNS: u64 = 1_000_000;

/// Runs the generated program of `n` functions, behind two lines about it.
pub(crate) fn make_text<I: Source, O: Sink>(
    alloc: Global,
    n: u64,
    input: &mut I,
    out: &mut O,
) -> Verdict
    requires { n ≤ 1000 }
    ensures { IsMadeCause texts n
        (outside I.held I.faults input.old input.new)
        (outside O.written O.faults out.old out.new)
        result }
{
    match make(alloc, n as u32) {
        Ok(text) => run_made(alloc, text.as_slice(), input, out),
        Err(_) => Verdict::NoMemory,
    }
}

/// Runs the program of a text that was generated, behind two lines about it.
#[tactic(auto, unfolding(program_answers::specs::Texts::text_limit))]
fn run_made<I: Source, O: Sink>(alloc: Global, text: &[u8], input: &mut I, out: &mut O) -> Verdict
    requires { length text.now ≤ text_limit }
    ensures { (n : ℕ) → text.now ≡ generated n → IsMadeCause texts n
        (outside I.held I.faults input.old input.new)
        (outside O.written O.faults out.old out.new)
        result }
{
    match build(alloc, text) {
        Ok(built) => run_built(alloc, text.len(), &built, input, out),
        Err(fault) => Verdict::of_fault(fault),
    }
}

/// Runs what a text of so many bytes was built to, behind two lines about it. All memory is taken before the first
/// of them is written.
fn run_built<I: Source, O: Sink>(
    alloc: Global,
    bytes: usize,
    built: &Built,
    input: &mut I,
    out: &mut O,
) -> Verdict
    requires { AreWithin (length built.now.solved.kinds) built.now.typed.printed }
    ensures { (n : ℕ) → bytes ≡ length (generated n) →
        IsBuilt (generated n) built.now.typed built.now.code built.now.solved built.now.cured →
        IsMadeCause texts n
        (outside I.held I.faults input.old input.new)
        (outside O.written O.faults out.old out.new)
        result }
{
    let summary = summary_of(bytes, built);
    match Machine::new(alloc, &built.cured) {
        Ok(machine) => run_behind(summary, machine, input, out),
        Err(_) => Verdict::NoMemory,
    }
}

/// What is told of a text of so many bytes.
fn summary_of(bytes: usize, built: &Built) -> Summary
    requires { AreWithin (length built.now.solved.kinds) built.now.typed.printed }
    ensures bytes { result.bytes ≡ bytes }
    ensures safe { result.safe ≡ pointers_of built.now.solved.kinds Safe built.now.typed.printed }
    ensures seq { result.seq ≡ pointers_of built.now.solved.kinds Seq built.now.typed.printed }
    ensures rtti { result.rtti ≡ pointers_of built.now.solved.kinds Rtti built.now.typed.printed }
    ensures wild { result.wild ≡ pointers_of built.now.solved.kinds Wild built.now.typed.printed }
{
    let counts = count_pointers(&built.solved.kinds, built.typed.printed.as_slice());
    Summary {
        bytes: bytes as u64,
        safe: counts.safe as u64,
        seq: counts.seq as u64,
        rtti: counts.rtti as u64,
        wild: counts.wild as u64,
    }
}

/// Runs a machine behind the lines of a summary.
fn run_behind<I: Source, O: Sink>(
    summary: Summary,
    machine: Machine<'_>,
    input: &mut I,
    out: &mut O,
) -> Verdict
    ensures { (n : ℕ) → IsMadeOf texts n (summary_lines summary) machine.entry → IsMadeCause texts n
        (outside I.held I.faults input.old input.new)
        (outside O.written O.faults out.old out.new)
        result }
{
    let front = summary.lines();
    match out.write(front.as_str().as_bytes()) {
        Ok(()) => Verdict::of_run(machine.run(TURNS, input, out)),
        Err(_) => Verdict::OutputFault,
    }
}
