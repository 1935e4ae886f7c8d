//! What `make` writes before the program that it generates runs.
ghost use Rattle.std.specs.Prelude.{◌≡◌};
ghost use Rattle.program_answers.specs.Summaries.{summary_lines};

use crate::report::{Line, push_number};

/// What `make` tells of a generated text: its length in bytes, and how many of its pointer types are of each kind.
#[derive(Clone, Copy, Debug, PartialEq, Eq)]
pub struct Summary {
    pub bytes: u64,
    pub safe: u64,
    pub seq: u64,
    pub rtti: u64,
    pub wild: u64,
}

impl Summary {
    /// Its two lines. Takes no memory.
    pub fn lines(&self) -> Line
        ensures { result.bytes ≡ summary_lines self.now }
    {
        let mut lines = Line::new();
        lines.push_str("text ");
        push_number(&mut lines, self.bytes);
        lines.push_str("\nkinds ");
        push_number(&mut lines, self.safe);
        lines.push_str(" ");
        push_number(&mut lines, self.seq);
        lines.push_str(" ");
        push_number(&mut lines, self.rtti);
        lines.push_str(" ");
        push_number(&mut lines, self.wild);
        lines.push_str("\n");
        lines
    }
}
