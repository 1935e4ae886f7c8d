//! Runs of the code of a file.
ghost use Rattle.std.specs.Prelude.{◌≡◌, ◌≤◌, List, ℕ, length};
ghost use Rattle.command_words.specs.declared.command.Action.{Action as Asked};
ghost use Rattle.cured_machine.specs.Runs.{outside};
ghost use Rattle.program_answers.specs.Causes.{IsTextCause};
ghost use Rattle.program_answers.specs.Texts.{IsCodeOf, cured_text_limit, text_limit, turns_of};
ghost use Rattle.program_top.specs.Made.{texts};

use c_build::build;
use cc_io::{Sink, Source};
use cured_code::Cured;
use cured_machine::Machine;
use cured_reading::read;
use program_answers::Verdict;
use std::alloc::Global;

/// Runs the cured program of a text of C.
#[tactic(auto, unfolding(program_answers::specs::Texts::text_limit))]
pub(crate) fn run_text<I: Source, O: Sink>(
    alloc: Global,
    text: &[u8],
    turns: u64,
    input: &mut I,
    out: &mut O,
) -> Verdict
    requires { length text.now ≤ text_limit }
    ensures { IsTextCause texts (Asked.Run turns) text.now
        (outside I.held I.faults input.old input.new)
        (outside O.written O.faults out.old out.new)
        result }
{
    match build(alloc, text) {
        Ok(built) => run_code(alloc, &built.cured, turns, input, out),
        Err(fault) => Verdict::of_fault(fault),
    }
}

/// Runs the program that a cured text spells.
#[tactic(auto, unfolding(program_answers::specs::Texts::cured_text_limit))]
pub(crate) fn exec_text<I: Source, O: Sink>(
    alloc: Global,
    text: &[u8],
    turns: u64,
    input: &mut I,
    out: &mut O,
) -> Verdict
    requires { length text.now ≤ cured_text_limit }
    ensures { IsTextCause texts (Asked.Exec turns) text.now
        (outside I.held I.faults input.old input.new)
        (outside O.written O.faults out.old out.new)
        result }
{
    match read(alloc, text) {
        Ok(code) => run_code(alloc, &code, turns, input, out),
        Err(fault) => Verdict::of_cured_fault(fault),
    }
}

/// Runs cured code. All memory is taken before the first byte is read or written.
fn run_code<I: Source, O: Sink>(
    alloc: Global,
    code: &Cured,
    turns: u64,
    input: &mut I,
    out: &mut O,
) -> Verdict
    ensures { (action : Asked) (text : List ℕ) → turns_of action ≡ turns
        → IsCodeOf texts action text code.now →
        IsTextCause texts action text
        (outside I.held I.faults input.old input.new)
        (outside O.written O.faults out.old out.new)
        result }
{
    match Machine::new(alloc, code) {
        Ok(machine) => Verdict::of_run(machine.run(turns, input, out)),
        Err(_) => Verdict::NoMemory,
    }
}
