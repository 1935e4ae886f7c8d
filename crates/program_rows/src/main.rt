//! Rows of the whole program and of its passes, as data. Its words name files of rows: of lexer, parser and checker (`front.rt`)
//! behind the word `front`, of lowering (`lowering.rt`) behind `lowering`, and of the program behind `program`. There a row is a
//! list of lines. `== TITLE` begins it, `word WORD` adds a word of the command, `file NAME` begins a file and `input` what the
//! program reads; behind these `|TEXT` adds a line, `~TEXT` text without a line feed, `byte N` one byte and `fill N BYTE` N of
//! them. `again` takes over the files of the row before, and `written NAME` makes a file of what it wrote. `fails files N`,
//! `fails input N`, `fails output N` and `fails report N` let the Nth call fail, `most N` gives the most bytes of one read, and
//! `hush` hides what is written. For each row the program writes its title, what was written and what was reported, both with a
//! `|` behind them, and the status.
#![tactic(auto)]

mod case;
mod front;
mod lowering;

use case::{Case, Failing, Named};
use cc_io::{MemFiles, MemSink, MemSource};
use program_top::ccured;
use std::alloc::Global;
use std::collections::BTreeMap;
use std::io::Write;
use std::{env, fs};

/// How many bytes the output and the report may have.
const ROOM: usize = 1_048_576;

/// What a row answers.
#[derive(Drop)]
struct Outcome {
    /// The files of the row.
    files: Vec<Named>,
    is_hushed: bool,
    out: MemSink,
    report: MemSink,
    status: u8,
}

/// The files by their names.
fn by_name(alloc: Global, files: &[Named]) -> anyhow::Result<BTreeMap<String, Vec<u8>>> {
    let mut map = BTreeMap::new(alloc);
    for file in files {
        map.insert(file.name.clone()?, file.text.clone()?)?;
    }
    Ok(map)
}

/// Runs the program on a row.
fn answered(alloc: Global, case: Case) -> anyhow::Result<Outcome> {
    let Case {
        words,
        files,
        input,
        most,
        fails,
        is_hushed,
        ..
    } = case;
    let Failing {
        files: openings,
        input: reads,
        output: writes,
        report: reports,
    } = fails;
    let map = by_name(alloc, files.as_slice())?;
    let out_room = Vec::with_capacity(alloc, ROOM)?;
    let report_room = Vec::with_capacity(alloc, ROOM)?;
    let mut named = MemFiles::new(alloc, map, openings);
    let mut source = MemSource::new(input, most.max(1), reads);
    let mut out = MemSink::new(out_room, writes);
    let mut report = MemSink::new(report_room, reports);
    let status = ccured(
        alloc,
        words.as_slice(),
        &mut named,
        &mut source,
        &mut out,
        &mut report,
    );
    Ok(Outcome {
        files,
        is_hushed,
        out,
        report,
        status,
    })
}

/// Shows what a row answers.
fn show<W: Write>(outcome: &Outcome, to: &mut W) -> anyhow::Result<()> {
    if !outcome.is_hushed {
        to.write_all(outcome.out.written())?;
    }
    to.write_all(b"|\n")?;
    to.write_all(outcome.report.written())?;
    writeln!(to, "|\nstatus {}", outcome.status)?;
    Ok(())
}

/// Runs the program on a row, shows what it answers, and begins the next row.
fn finish<W: Write>(alloc: Global, case: Case, to: &mut W) -> anyhow::Result<Case> {
    let outcome = answered(alloc, case)?;
    show(&outcome, to)?;
    let Outcome { files, out, .. } = outcome;
    let written = Vec::from_slice(alloc, out.written())?;
    Ok(Case::behind(alloc, files, written))
}

/// Runs the program on all rows of a text.
fn run_rows<W: Write>(alloc: Global, text: &str, to: &mut W) -> anyhow::Result<()> {
    let mut case = Case::first(alloc);
    let mut is_begun = false;
    for line in text.lines() {
        if let Some(title) = line.strip_prefix("== ") {
            if is_begun {
                case = finish(alloc, case, to)?;
            }
            is_begun = true;
            writeln!(to, "== {title}")?;
        } else {
            case.read(alloc, line)?;
        }
    }
    if is_begun {
        finish(alloc, case, to)?;
    }
    Ok(())
}

/// What the rows of a file ask about.
#[derive(Clone, Copy)]
enum Asked {
    Front,
    Lowering,
    Program,
}

/// What the rows of the files behind a word ask about; nothing for the name of a file.
fn rows_behind(word: &str) -> Option<Asked> {
    match word {
        "front" => Some(Asked::Front),
        "lowering" => Some(Asked::Lowering),
        "program" => Some(Asked::Program),
        _ => None,
    }
}

/// Shows the rows of a text with what is answered.
fn show_rows<W: Write>(alloc: Global, text: &str, about: Asked, to: &mut W) -> anyhow::Result<()> {
    match about {
        Asked::Front => front::show_rows(alloc, text, to),
        Asked::Lowering => lowering::show_rows(alloc, text, to),
        Asked::Program => run_rows(alloc, text, to),
    }
}

fn main(rt: HostRuntime) -> anyhow::Result<()> {
    let mut out = rt.stdout();
    let mut about = Asked::Program;
    for word in env::args(&rt)?.skip(1) {
        let name = word.as_str();
        match rows_behind(name) {
            Some(next) => about = next,
            None => {
                let text = fs::read_to_string(&rt, name)?;
                show_rows(rt.alloc(), text.as_str(), about, &mut out)?;
            }
        }
    }
    Ok(())
}
