//! Rows of texts in C: what the lexer, the parser and the checker answer to each. A row is a line of a word and a text. The word is
//! what is asked (`asking.rt`); the text goes on behind what the lines above it put together (`text.rt`). A line with `#` before it
//! is a heading. Each line is written as it stands, and behind a row what is answered.
mod asking;
mod objects;
mod parts;
mod shape;
mod text;

use asking::answered;
use cc_base::{Fault, Limit};
use std::alloc::{AllocError, Global};
use std::io::Write;
use text::add_line;

/// A fault as it is shown. Which of the tokens that lie too deep is named isn't told by any contract, so its place isn't shown.
fn shown(alloc: Global, fault: Fault) -> Result<String, AllocError> {
    match fault {
        Fault::TooLarge {
            limit: Limit::Depth,
            ..
        } => String::from_str(alloc, "limit depth"),
        fault => format!(in alloc; "{fault}"),
    }
}

/// What is answered to a row.
fn answer(alloc: Global, word: &str, text: &[u8]) -> Result<String, AllocError> {
    if text.len() > 1_048_576 {
        return String::from_str(alloc, "too long");
    }
    match answered(alloc, word, text) {
        Ok(answer) => Ok(answer),
        Err(fault) => shown(alloc, fault),
    }
}

/// Writes the lines of a file, each row with its answer.
pub(crate) fn show_rows<W: Write>(alloc: Global, file: &str, to: &mut W) -> anyhow::Result<()> {
    let mut text = Vec::new(alloc);
    for line in file.lines() {
        writeln!(to, "{line}")?;
        if !line.starts_with("#") && !add_line(&mut text, line)? {
            let (word, rest) = line.split_once(' ').unwrap_or((line, ""));
            text.extend_from_slice(rest.as_bytes())?;
            let answer = answer(alloc, word, &text)?;
            writeln!(to, "    {answer}")?;
            text.clear();
        }
    }
    Ok(())
}
