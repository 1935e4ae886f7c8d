//! A row as it is read.
use std::alloc::Global;

/// A unit in C with a title.
#[derive(Drop)]
pub(crate) struct Row {
    pub(crate) title: String,
    pub(crate) text: String,
}

impl Row {
    /// A row of which the title is read.
    pub(crate) fn begun(alloc: Global, title: &str) -> anyhow::Result<Row> {
        Ok(Row {
            title: String::from_str(alloc, title)?,
            text: String::new(alloc),
        })
    }

    /// Adds a line of its text.
    pub(crate) fn add(&mut self, line: &str) -> anyhow::Result<()> {
        self.text.push_str(line)?;
        self.text.push('\n')?;
        Ok(())
    }

    /// Whether its nodes are shown.
    pub(crate) fn has_nodes(&self) -> bool {
        self.title.starts_with("===")
    }
}
