//! A program and how it is run.
use std::alloc::{AllocError, Global};

/// A cured text, and how its program is run.
#[derive(Drop)]
pub(crate) struct Row {
    pub(crate) text: Vec<u8>,
    pub(crate) turns: u64,
    pub(crate) input: Vec<u8>,
    /// The most bytes of one read.
    pub(crate) most: usize,
    /// The numbers of the calls that fail, counted from 1.
    pub(crate) failing_reads: Vec<u64>,
    pub(crate) failing_writes: Vec<u64>,
}

impl Row {
    /// A text that is run with a thousand turns, without input, and without a call that fails.
    pub(crate) fn begun(alloc: Global, text: Vec<u8>) -> Row {
        Row {
            text,
            turns: 1_000,
            input: Vec::new(alloc),
            most: 1,
            failing_reads: Vec::new(alloc),
            failing_writes: Vec::new(alloc),
        }
    }

    /// Does what a part of a row says: `turns N`, `input TEXT`, `byte N` (one byte more of the input), `most N`,
    /// `failing-read N` or `failing-write N`; any other part is a line of the text.
    pub(crate) fn add(&mut self, part: &str) -> Result<(), AllocError> {
        let (word, rest) = part.split_once(' ').unwrap_or((part, ""));
        match word {
            "input" => self.input.extend_from_slice(rest.as_bytes()),
            "turns" | "byte" | "most" | "failing-read" | "failing-write" => {
                self.count(word, rest.parse::<u64>().unwrap_or(0))
            }
            _ => add_line(&mut self.text, part),
        }
    }

    /// Does what a part of a word and a number says.
    fn count(&mut self, word: &str, number: u64) -> Result<(), AllocError> {
        match word {
            "turns" => self.turns = number,
            "byte" => self.input.push(number.to_le_bytes()[0])?,
            "most" => self.most = usize::try_from(number).unwrap_or(1),
            "failing-read" => self.failing_reads.push(number)?,
            _ => self.failing_writes.push(number)?,
        }
        Ok(())
    }
}

/// Adds a line to a text.
pub(crate) fn add_line(text: &mut Vec<u8>, line: &str) -> Result<(), AllocError> {
    text.extend_from_slice(line.as_bytes())?;
    text.push(b'\n')?;
    Ok(())
}
