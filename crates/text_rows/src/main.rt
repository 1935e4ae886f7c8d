//! Rows of cured text, as data. The input is a program with every line that there is, a line `=`, and then rows. A row is a
//! number and a text that stands in place of that line of the program; after a text with `+` before it nothing follows, and
//! after one with `-` not its own line feed either. A line `#` begins another program, and one with `# ` before it says what
//! the rows below it show. For each row, and first for the program itself, a line is written: how the text is refused, or
//! whether it is printed as it was read.
#![tactic(auto)]

use cured_text::{CuredFault, CuredLimit, Form, print, read};
use std::alloc::Global;
use std::io::{Read, Write};

/// The lines of some bytes.
fn lines(alloc: Global, bytes: &[u8]) -> anyhow::Result<Vec<Vec<u8>>> {
    let mut lines = Vec::new(alloc);
    for part in bytes.split(|byte| *byte == b'\n') {
        lines.push(Vec::from_slice(alloc, part)?)?;
    }
    Ok(lines)
}

/// The program with another text for one line.
fn changed(
    alloc: Global,
    program: &[Vec<u8>],
    number: usize,
    text: &[u8],
) -> anyhow::Result<Vec<u8>> {
    let (sort, body) = match text.split_first() {
        Some((sort, body)) if *sort == b'+' || *sort == b'-' => (*sort, body),
        _ => (b'=', text),
    };
    let mut out = Vec::new(alloc);
    for (i, line) in program.iter().enumerate() {
        if i + 1 < number || (i + 1 > number && sort == b'=') {
            out.extend_from_slice(line)?;
            out.push(b'\n')?;
        } else if i + 1 == number {
            out.extend_from_slice(body)?;
            if sort != b'-' {
                out.push(b'\n')?;
            }
        }
    }
    Ok(out)
}

fn name_of(fault: Form) -> &'static str {
    match fault {
        Form::Syntax => "Syntax",
        Form::Version => "Version",
        Form::Range => "Range",
    }
}

fn limit_of(limit: CuredLimit) -> &'static str {
    match limit {
        CuredLimit::Sigs => "sigs",
        CuredLimit::Nodes => "nodes",
        CuredLimit::Globals => "globals",
        CuredLimit::Bytes => "bytes",
        CuredLimit::Functions => "functions",
        CuredLimit::Slots => "slots",
        CuredLimit::Locals => "locals 1048576",
        CuredLimit::LocalBytes => "locals 3145728",
        CuredLimit::Nest => "nest",
    }
}

/// Writes how the text is refused, or whether it is printed as it was read.
fn answer<W: Write>(alloc: Global, text: &[u8], out: &mut W) -> anyhow::Result<()> {
    if text.len() > 134_217_728 {
        return Ok(());
    }
    match read(alloc, text) {
        Ok(code) => {
            let same = print(alloc, &code)?.as_slice() == text;
            writeln!(
                out,
                "read, {}",
                if same {
                    "and printed so"
                } else {
                    "and printed otherwise"
                }
            )?;
        }
        Err(CuredFault::Form { line, fault }) => writeln!(out, "{line} {}", name_of(fault))?,
        Err(CuredFault::TooLarge { line, name }) => writeln!(
            out,
            "{line} limit {}",
            limit_of(name)
        )?,
        Err(CuredFault::NoMemory) => writeln!(out, "no memory")?,
    }
    Ok(())
}

/// The number and the text of a row.
fn row(line: &[u8]) -> Option<(usize, &[u8])> {
    let at = line.iter().position(|byte| *byte == b' ')?;
    let (number, text) = line.split_at(at);
    let (_, text) = text.split_first()?;
    let number = str::from_utf8(number).ok()?.parse().ok()?;
    Some((number, text))
}

fn main(rt: HostRuntime) -> anyhow::Result<()> {
    let alloc = rt.alloc();
    let mut input = Vec::new(alloc);
    rt.stdin().read_to_end(&mut input)?;
    let lines = lines(alloc, &input)?;
    let mut out = rt.stdout();
    let mut program: &[Vec<u8>] = &[];
    let mut start = 0;
    for (i, line) in lines.iter().enumerate() {
        if line.as_slice() == b"#".as_slice() {
            start = i + 1;
            program = &[];
        } else if line.as_slice() == b"=".as_slice() {
            program = lines.get(start..i).unwrap_or(&[]);
            answer(alloc, &changed(alloc, program, 0, b"")?, &mut out)?;
        } else if let Some((number, text)) = row(line).filter(|_| !program.is_empty()) {
            answer(alloc, &changed(alloc, program, number, text)?, &mut out)?;
        }
    }
    Ok(())
}
