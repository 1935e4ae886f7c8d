//! The report: one line on what became of the run, or none.
ghost use Rattle.std.specs.Prelude.{◌≡◌, ◌+◌, ◌≤◌, ◌++◌, codes, length};
ghost use Rattle.std.specs.Fmt.{decimal};
ghost use Rattle.arrayvec.specs.ArrayString.{array_string_len};
ghost use Rattle.cc_base.specs.Places.{place_text};
ghost use Rattle.program_answers.specs.Verdicts.{cured_limit_text, limit_text, line_of};
ghost use Rattle.cured_machine.specs.Runs.{outside};
ghost use Rattle.program_answers.specs.Causes.{IsReported};

use crate::limits::{cured_limit_name, cured_limit_number, form_name, limit_number};
use crate::verdict::Verdict;
use arrayvec::ArrayString;
use cc_base::{Check, Limit, Place, Rule};
use cc_io::Sink;
use cured_reading::{CuredLimit, Form};
use itoa::Buffer;

/// Room for the longest line, and for the lines of a summary.
const ROOM: usize = 256;

/// Text that is written in one piece.
pub type Line = ArrayString<ROOM>;

/// Writes the verdict's line to the report, in one piece, if it has one, and answers the status: the verdict's, or 6 where
/// the write failed.
pub fn report_verdict<E: Sink>(verdict: Verdict, report: &mut E) -> u8
    ensures { IsReported verdict (outside E.written E.faults report.old report.new) result }
{
    match verdict {
        Verdict::Done => 0,
        other => report_line(other, report),
    }
}

/// Writes the verdict's line, and answers the status.
fn report_line<E: Sink>(verdict: Verdict, report: &mut E) -> u8
    ensures { IsReported verdict (outside E.written E.faults report.old report.new) result }
{
    let line = line(verdict);
    match report.write(line.as_str().as_bytes()) {
        Ok(()) => verdict.status(),
        Err(_) => 6,
    }
}

fn line(verdict: Verdict) -> Line
    ensures { result.bytes ≡ line_of verdict }
{
    let mut line = Line::new();
    match verdict {
        Verdict::Done => {}
        Verdict::Usage => line.push_str("usage\n"),
        Verdict::FileFault => line.push_str("file fault\n"),
        Verdict::InputFault => line.push_str("input fault\n"),
        Verdict::OutputFault => line.push_str("output fault\n"),
        Verdict::OutOfTurns => line.push_str("out of turns\n"),
        Verdict::NoMemory => line.push_str("no memory\n"),
        Verdict::Exited(status) => push_counted(&mut line, "exited ", u64::from(status)),
        Verdict::Trapped(function) => push_counted(&mut line, "trapped ", u64::from(function.0)),
        Verdict::TextTooLong(most) => push_counted(&mut line, "limit text ", most),
        Verdict::Stopped(check, place) => push_stopped(&mut line, check, place),
        Verdict::Refused(place, rule) => push_refused(&mut line, place, rule),
        Verdict::LimitPassed(place, limit) => push_limit(&mut line, place, limit),
        Verdict::CuredLimitPassed(at, limit) => push_cured_limit(&mut line, at, limit),
        Verdict::NotCured(at, form) => push_not_cured(&mut line, at, form),
    }
    line
}

fn push_counted(line: &mut Line, words: &str, n: u64)
    requires empty { array_string_len line.old ≡ 0 }
    requires short { length words.now ≤ 20 }
    ensures { line.new.bytes ≡ line.old.bytes ++ (words.now ++ (decimal n ++ codes "\n")) }
{
    line.push_str(words);
    push_number(line, n);
    line.push_str("\n");
}

fn push_stopped(line: &mut Line, check: Check, place: Place)
    requires { array_string_len line.old ≡ 0 }
    ensures { line.new.bytes ≡ line.old.bytes ++ line_of (Verdict.Stopped check place) }
{
    line.push_str("stopped ");
    line.push_str(check.name());
    line.push_str(" ");
    push_place(line, place);
    line.push_str("\n");
}

fn push_refused(line: &mut Line, place: Place, rule: Rule)
    requires { array_string_len line.old ≡ 0 }
    ensures { line.new.bytes ≡ line.old.bytes ++ line_of (Verdict.Refused place rule) }
{
    line.push_str("refused ");
    push_place(line, place);
    line.push_str(" ");
    line.push_str(rule.name());
    line.push_str("\n");
}

fn push_limit(line: &mut Line, place: Place, limit: Limit)
    requires { array_string_len line.old ≡ 0 }
    ensures { line.new.bytes ≡ line.old.bytes ++ line_of (Verdict.LimitPassed place limit) }
{
    line.push_str("limit ");
    push_place(line, place);
    line.push_str(" ");
    line.push_str(limit.name());
    line.push_str(" ");
    push_number(line, limit_number(limit));
    line.push_str("\n");
}

fn push_cured_limit(line: &mut Line, at: u32, limit: CuredLimit)
    requires { array_string_len line.old ≡ 0 }
    ensures { line.new.bytes ≡ line.old.bytes ++ line_of (Verdict.CuredLimitPassed at limit) }
{
    line.push_str("limit ");
    push_number(line, u64::from(at));
    line.push_str(":1 ");
    line.push_str(cured_limit_name(limit));
    line.push_str(" ");
    push_number(line, cured_limit_number(limit));
    line.push_str("\n");
}

fn push_not_cured(line: &mut Line, at: u32, form: Form)
    requires { array_string_len line.old ≡ 0 }
    ensures { line.new.bytes ≡ line.old.bytes ++ line_of (Verdict.NotCured at form) }
{
    line.push_str("not cured ");
    push_number(line, u64::from(at));
    line.push_str(" ");
    line.push_str(form_name(form));
    line.push_str("\n");
}

fn push_place(line: &mut Line, place: Place)
    requires { array_string_len line.old ≤ 20 }
    ensures place { line.new.bytes ≡ line.old.bytes ++ place_text place }
    ensures short { array_string_len line.new ≤ array_string_len line.old + 81 }
{
    push_number(line, u64::from(place.line));
    line.push_str(":");
    push_number(line, u64::from(place.col));
}

pub(crate) fn push_number(line: &mut Line, n: u64)
    requires { array_string_len line.old ≤ 200 }
    ensures number { line.new.bytes ≡ line.old.bytes ++ decimal n }
    ensures short { array_string_len line.new ≤ array_string_len line.old + 40 }
{
    let mut digits = Buffer::new();
    line.push_str(digits.format(n));
}
