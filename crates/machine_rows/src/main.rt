//! Rows of programs of the flat machine, as data. Its words name files of lines, and each line is written as it stands. A line
//! with `#` before it is a heading, and one with `|` is lines of a cured text, with `;` between them; `ccured ..` begins a
//! program, and `*` is the place where a row's own lines stand in it. Any other line is a row: lines, and how the program is
//! run, with `;` between them (`row.rt`). Behind a row is written how its run ends and what it wrote.
#![tactic(auto)]

mod frame;
mod row;

use crate::frame::Frame;
use crate::row::Row;
use cc_io::{MemSink, MemSource};
use cured_machine::{Ending, Machine};
use cured_reading::read;
use std::alloc::{AllocError, Global};
use std::io::Write;
use std::{env, fs};

/// How many bytes a row may write.
const ROOM: usize = 2_048;

/// How a run ended.
fn ending_shown(alloc: Global, ending: Ending) -> Result<String, AllocError> {
    match ending {
        Ending::Exited(status) => format!(in alloc; "exited {status}"),
        Ending::Stopped(check, place) => format!(in alloc; "stopped {check} {place}"),
        Ending::Trap(function) => format!(in alloc; "trapped {}", function.0),
        Ending::Turns => String::from_str(alloc, "out of turns"),
        Ending::ReadFault => String::from_str(alloc, "input fault"),
        Ending::WriteFault => String::from_str(alloc, "output fault"),
    }
}

/// Adds what was written: eight bytes as the word that they are, the lowest first, and others as text.
fn add_written(shown: &mut String, written: &[u8]) -> Result<(), AllocError> {
    if written.len() == 8 {
        let mut word = 0_u64;
        for byte in written.iter().rev() {
            word = word << 8 | u64::from(*byte);
        }
        return write!(shown, ", word {word}");
    }
    shown.push_str(", \"")?;
    for byte in written {
        if byte.is_ascii_graphic() && *byte != b'\\' && *byte != b'"' {
            shown.push(char::from(*byte))?;
        } else {
            write!(shown, "\\x{byte:02x}")?;
        }
    }
    shown.push('"')
}

/// What is answered to a row.
fn answered(alloc: Global, row: Row) -> anyhow::Result<String> {
    let Row {
        text,
        turns,
        input,
        most,
        failing_reads,
        failing_writes,
    } = row;
    if text.len() > 134_217_728 {
        return Ok(String::from_str(alloc, "too long")?);
    }
    let Ok(code) = read(alloc, &text) else {
        return Ok(String::from_str(alloc, "no cured program")?);
    };
    let room = Vec::with_capacity(alloc, ROOM)?;
    let machine = Machine::new(alloc, &code)?;
    let mut source = MemSource::new(input, most.max(1), failing_reads);
    let mut sink = MemSink::new(room, failing_writes);
    let ending = machine.run(turns, &mut source, &mut sink);
    let mut shown = ending_shown(alloc, ending)?;
    add_written(&mut shown, sink.written())?;
    Ok(shown)
}

/// Writes the lines of a file, each row with its answer.
fn show_rows<W: Write>(alloc: Global, file: &str, to: &mut W) -> anyhow::Result<()> {
    let mut frame = Frame::new(alloc);
    for line in file.lines() {
        writeln!(to, "{line}")?;
        if let Some(lines) = line.strip_prefix("|") {
            frame.add(lines)?;
        } else if !line.is_empty() && !line.starts_with("#") {
            let answer = answered(alloc, frame.row(alloc, line)?)?;
            writeln!(to, "    {answer}")?;
        }
    }
    Ok(())
}

fn main(rt: HostRuntime) -> anyhow::Result<()> {
    let mut out = rt.stdout();
    for name in env::args(&rt)?.skip(1) {
        let file = fs::read_to_string(&rt, name.as_str())?;
        show_rows(rt.alloc(), file.as_str(), &mut out)?;
    }
    Ok(())
}
