//! The text of a program in which a row's own lines have a place.
use crate::row::{Row, add_line};
use std::alloc::{AllocError, Global};

/// What stands before the lines of a row, and what behind them.
#[derive(Drop)]
pub(crate) struct Frame {
    front: Vec<u8>,
    back: Vec<u8>,
    /// Whether the place of a row's lines was read.
    is_placed: bool,
}

impl Frame {
    pub(crate) fn new(alloc: Global) -> Frame {
        Frame {
            front: Vec::new(alloc),
            back: Vec::new(alloc),
            is_placed: false,
        }
    }

    /// Adds lines; those that `ccured` stands before begin a program.
    pub(crate) fn add(&mut self, lines: &str) -> Result<(), AllocError> {
        if lines.starts_with("ccured") {
            self.front.clear();
            self.back.clear();
            self.is_placed = false;
        }
        for line in lines.split(';') {
            let line = line.strip_prefix(" ").unwrap_or(line);
            if line == "*" {
                self.is_placed = true;
            } else if self.is_placed {
                add_line(&mut self.back, line)?;
            } else {
                add_line(&mut self.front, line)?;
            }
        }
        Ok(())
    }

    /// The program with the lines of a row, and how it is run.
    pub(crate) fn row(&self, alloc: Global, parts: &str) -> Result<Row, AllocError> {
        let mut row = Row::begun(alloc, self.front.clone()?);
        for part in parts.split(';') {
            row.add(part.strip_prefix(" ").unwrap_or(part))?;
        }
        row.text.extend_from_slice(&self.back)?;
        Ok(row)
    }
}
