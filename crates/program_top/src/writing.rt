//! What is written of a text of C, without a run.
ghost use Rattle.std.specs.Prelude.{◌≤◌, IfOk, List, ℕ, length};
ghost use Rattle.cc_io.specs.Bytes.{Keeps};
ghost use Rattle.command_words.specs.declared.command.Action.{Action as Asked};
ghost use Rattle.cured_machine.specs.Runs.{Outside, outside};
ghost use Rattle.program_answers.specs.Causes.{IsTextCause};
ghost use Rattle.program_answers.specs.Texts.{IsWrittenOf, text_limit};
ghost use Rattle.program_top.specs.Made.{texts};

use c_build::{build, infer, kinds};
use cc_base::NoMemory;
use cc_io::Sink;
use cured_text::print;
use program_answers::Verdict;
use std::alloc::Global;

/// Writes the kinds of a text of C.
#[tactic(auto, unfolding(program_answers::specs::Texts::text_limit))]
pub(crate) fn kinds_text<O: Sink>(alloc: Global, text: &[u8], out: &mut O) -> Verdict
    requires { length text.now ≤ text_limit }
    ensures { (input : Outside) → Keeps input.before input.after →
        IsTextCause texts Asked.Kinds text.now input
        (outside O.written O.faults out.old out.new) result }
{
    match infer(alloc, text) {
        Ok(inferred) => write_text(kinds(alloc, &inferred), out),
        Err(fault) => Verdict::of_fault(fault),
    }
}

/// Writes the text of the cured program of a text of C.
#[tactic(auto, unfolding(program_answers::specs::Texts::text_limit))]
pub(crate) fn cure_text<O: Sink>(alloc: Global, text: &[u8], out: &mut O) -> Verdict
    requires { length text.now ≤ text_limit }
    ensures { (input : Outside) → Keeps input.before input.after →
        IsTextCause texts Asked.Cure text.now input
        (outside O.written O.faults out.old out.new) result }
{
    match build(alloc, text) {
        Ok(built) => write_text(print(alloc, &built.cured), out),
        Err(fault) => Verdict::of_fault(fault),
    }
}

/// Writes what is to be written of a text, in one piece, if memory was there for it.
fn write_text<O: Sink>(made: Result<Vec<u8>, NoMemory>, out: &mut O) -> Verdict
    ensures { (action : Asked) (text : List ℕ) (input : Outside) →
        IfOk made (λ bytes. IsWrittenOf texts action text bytes.items) →
        Keeps input.before input.after →
        IsTextCause texts action text input
        (outside O.written O.faults out.old out.new) result }
{
    match made {
        Ok(bytes) => write_bytes(bytes.as_slice(), out),
        Err(_) => Verdict::NoMemory,
    }
}

/// Writes some bytes, in one piece.
fn write_bytes<O: Sink>(bytes: &[u8], out: &mut O) -> Verdict
    ensures { (action : Asked) (text : List ℕ) (input : Outside) →
        IsWrittenOf texts action text bytes.now →
        Keeps input.before input.after →
        IsTextCause texts action text input
        (outside O.written O.faults out.old out.new) result }
{
    match out.write(bytes) {
        Ok(()) => Verdict::Done,
        Err(_) => Verdict::OutputFault,
    }
}
