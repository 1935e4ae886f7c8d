//! All that the program does.
ghost use Rattle.std.specs.Prelude.{◌≡◌, ◌≢◌, ◌≤◌, ◌⊎◌, List, None, Some, false, length, map, ℕ};
ghost use Rattle.std.specs.String.{string_bytes};
ghost use Rattle.cc_io.specs.Faults.{Rose};
ghost use Rattle.command_words.specs.Commands.{OnFile, command_of};
ghost use Rattle.command_words.specs.declared.command.Action.TheVariants.{Run};
ghost use Rattle.command_words.specs.Passed.{are_asked};
ghost use Rattle.cured_machine.specs.Runs.{outside};
ghost use Rattle.program_answers.specs.Causes.{filed, IsCause, IsFileCause, IsJudged, IsTextCause};
ghost use Rattle.program_answers.specs.Statuses.{GivesAnswer, HasCause};
ghost use Rattle.program_answers.specs.Texts.{limit_of};
ghost use Rattle.program_top.specs.AsSource.{GivesSourceAnswer};
ghost use Rattle.program_top.specs.Made.{texts};

use crate::files::{limit_of, read_text};
use crate::making::make_text;
use crate::running::{exec_text, run_text};
use crate::writing::{cure_text, kinds_text};
use cc_io::{FileFault, Files, Sink, Source};
use command_words::{Action, Command, WordsFault, command_of};
use program_answers::{Verdict, report_verdict};
use std::alloc::Global;

/// Does all that the program does, and answers its status. The words are those after the program's name.
pub fn ccured<F: Files, I: Source, O: Sink, E: Sink>(
    alloc: Global,
    words: &[String],
    files: &mut F,
    input: &mut I,
    out: &mut O,
    report: &mut E,
) -> u8
    // A verdict is given for its cause, and reported: what is written under each fault.
    ensures judged { IsJudged texts (map string_bytes words.now)
        (filed F.holds F.faults F.last files.old files.new)
        (outside I.held I.faults input.old input.new)
        (outside O.written O.faults out.old out.new)
        (outside E.written E.faults report.old report.new)
        result }

    // Every status has its cause.
    ensures cause { HasCause texts (map string_bytes words.now)
        (filed F.holds F.faults F.last files.old files.new)
        (outside I.held I.faults input.old input.new)
        (outside O.written O.faults out.old out.new)
        (outside E.written E.faults report.old report.new)
        result }

    // Where nothing failed and memory was there, the answer to the words, the files and the input is given.
    ensures answer { ¬ (Rose (F.faults files.old) (F.faults files.new))
        → ¬ (Rose (I.faults input.old) (I.faults input.new)) →
        ¬ (Rose (O.faults out.old) (O.faults out.new))
        → ¬ (Rose (E.faults report.old) (E.faults report.new)) → result ≢ 9 →
        GivesAnswer texts (map string_bytes words.now)
        (filed F.holds F.faults F.last files.old files.new)
        (outside I.held I.faults input.old input.new)
        (outside O.written O.faults out.old out.new)
        (outside E.written E.faults report.old report.new)
        result }

    // THE ANSWER TO `run` IS THE SOURCE'S, where nothing failed, memory was there, and the kinds make the program plain.
    ensures source { ¬ (Rose (F.faults files.old) (F.faults files.new))
        → ¬ (Rose (I.faults input.old) (I.faults input.new)) →
        ¬ (Rose (O.faults out.old) (O.faults out.new))
        → ¬ (Rose (E.faults report.old) (E.faults report.new)) → result ≢ 9 →
        (name : List ℕ) (turns : ℕ) → command_of (map string_bytes words.now)
        ≡ Some (OnFile (Run turns) name) →
        GivesSourceAnswer name turns
        (filed F.holds F.faults F.last files.old files.new)
        (outside I.held I.faults input.old input.new)
        (outside O.written O.faults out.old out.new)
        (outside E.written E.faults report.old report.new)
        result }

    // Words that are no command are refused, if memory to read them was there.
    ensures usage { command_of (map string_bytes words.now) ≡ None →
        (result ≡ 2) ⊎ ((result ≡ 9) ⊎ ((result ≡ 6)
        × Rose (E.faults report.old) (E.faults report.new))) }

    // No memory is wanted where the first word is no command's own, or a word behind it begins with `-` and isn't the option.
    ensures at_once { are_asked (map string_bytes words.now) ≡ false →
        (result ≡ 2) ⊎ ((result ≡ 6) × Rose (E.faults report.old) (E.faults report.new)) }
{
    let verdict = judge(alloc, words, files, input, out);
    report_verdict(verdict, report)
}

/// The verdict on the words.
fn judge<F: Files, I: Source, O: Sink>(
    alloc: Global,
    words: &[String],
    files: &mut F,
    input: &mut I,
    out: &mut O,
) -> Verdict
    ensures { IsCause texts (map string_bytes words.now)
        (filed F.holds F.faults F.last files.old files.new)
        (outside I.held I.faults input.old input.new)
        (outside O.written O.faults out.old out.new)
        result }
{
    match command_of(alloc, words) {
        Ok(Command::OnFile(action, name)) => on_file(alloc, action, name, files, input, out),
        Ok(Command::Make(n)) => make_text(alloc, n, input, out),
        Err(WordsFault::NoCommand) => Verdict::Usage,
        Err(WordsFault::NoMemory) => Verdict::NoMemory,
    }
}

/// The verdict on the file of a name.
fn on_file<F: Files, I: Source, O: Sink>(
    alloc: Global,
    action: Action,
    name: &str,
    files: &mut F,
    input: &mut I,
    out: &mut O,
) -> Verdict
    ensures { IsFileCause texts action name.now
        (filed F.holds F.faults F.last files.old files.new)
        (outside I.held I.faults input.old input.new)
        (outside O.written O.faults out.old out.new)
        result }
{
    let limit = limit_of(action);
    match read_text(alloc, name, limit, files) {
        Ok(text) => on_text(alloc, action, text.as_slice(), input, out),
        Err(FileFault::Failed) => Verdict::FileFault,
        Err(FileFault::TooLarge) => Verdict::TextTooLong(limit),
        Err(FileFault::NoMemory) => Verdict::NoMemory,
    }
}

/// The verdict on a text.
fn on_text<I: Source, O: Sink>(
    alloc: Global,
    action: Action,
    text: &[u8],
    input: &mut I,
    out: &mut O,
) -> Verdict
    requires { length text.now ≤ limit_of action }
    ensures { IsTextCause texts action text.now
        (outside I.held I.faults input.old input.new)
        (outside O.written O.faults out.old out.new)
        result }
{
    match action {
        Action::Kinds => kinds_text(alloc, text, out),
        Action::Cure => cure_text(alloc, text, out),
        Action::Run(turns) => run_text(alloc, text, turns, input, out),
        Action::Exec(turns) => exec_text(alloc, text, turns, input, out),
    }
}
