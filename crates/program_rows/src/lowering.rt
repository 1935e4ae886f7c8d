//! Rows of lowering. `== TITLE` begins a row, and the lines behind it are a unit in C. Each row is written as it stands, each line
//! of its text behind a `|`, and then its three-address code in the notation of docs/three-address-code.md; for `=== TITLE` with
//! the nodes.
mod code;
mod pen;
mod program;
mod row;

use program::written;
use row::Row;
use std::alloc::Global;
use std::io::Write;

/// Writes a row with its code.
fn show<W: Write>(alloc: Global, row: &Row, to: &mut W) -> anyhow::Result<()> {
    writeln!(to, "{}", row.title)?;
    for line in row.text.lines() {
        writeln!(to, "|{line}")?;
    }
    writeln!(to, "{}", written(alloc, row)?)?;
    Ok(())
}

/// Writes the rows of a file.
pub(crate) fn show_rows<W: Write>(alloc: Global, file: &str, to: &mut W) -> anyhow::Result<()> {
    let mut row = Row::begun(alloc, "")?;
    for line in file.lines() {
        if line.starts_with("==") {
            if !row.title.is_empty() {
                show(alloc, &row, to)?;
            }
            row = Row::begun(alloc, line)?;
        } else {
            row.add(line)?;
        }
    }
    show(alloc, &row, to)
}
