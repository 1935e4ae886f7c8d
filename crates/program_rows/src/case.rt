//! A row as it is read, line by line.
use std::alloc::Global;
use std::mem;

/// The numbers of the calls that fail, counted from 1.
#[derive(Drop)]
pub(crate) struct Failing {
    pub(crate) files: Vec<u64>,
    pub(crate) input: Vec<u64>,
    pub(crate) output: Vec<u64>,
    pub(crate) report: Vec<u64>,
}

impl Failing {
    fn none(alloc: Global) -> Failing {
        Failing {
            files: Vec::new(alloc),
            input: Vec::new(alloc),
            output: Vec::new(alloc),
            report: Vec::new(alloc),
        }
    }
}

/// A file of a row.
#[derive(Drop)]
pub(crate) struct Named {
    pub(crate) name: String,
    pub(crate) text: Vec<u8>,
}

/// The words, files and input of a row.
#[derive(Drop)]
pub(crate) struct Case {
    pub(crate) words: Vec<String>,
    pub(crate) files: Vec<Named>,
    pub(crate) input: Vec<u8>,
    /// The most bytes of one read.
    pub(crate) most: usize,
    pub(crate) fails: Failing,
    /// Whether what is written is not shown.
    pub(crate) is_hushed: bool,
    /// Whether text is the input's; else it is that of the last file.
    in_input: bool,
    /// The files of the row before, and what it wrote.
    files_before: Vec<Named>,
    written_before: Vec<u8>,
}

impl Case {
    /// The first row.
    pub(crate) fn first(alloc: Global) -> Case {
        Case::behind(alloc, Vec::new(alloc), Vec::new(alloc))
    }

    /// The row behind one with these files, which wrote this.
    pub(crate) fn behind(alloc: Global, files: Vec<Named>, written: Vec<u8>) -> Case {
        Case {
            words: Vec::new(alloc),
            files: Vec::new(alloc),
            input: Vec::new(alloc),
            most: 4096,
            fails: Failing::none(alloc),
            is_hushed: false,
            in_input: false,
            files_before: files,
            written_before: written,
        }
    }

    /// Does what a line says.
    pub(crate) fn read(&mut self, alloc: Global, line: &str) -> anyhow::Result<()> {
        if let Some(text) = line.strip_prefix("|") {
            self.add(text.as_bytes())?;
            self.add(b"\n")
        } else if let Some(text) = line.strip_prefix("~") {
            self.add(text.as_bytes())
        } else if let Some((what, name)) = line.split_once(' ') {
            self.say(alloc, what, name)
        } else {
            self.order(alloc, line)
        }
    }

    /// Adds bytes to the text that is being read.
    fn add(&mut self, bytes: &[u8]) -> anyhow::Result<()> {
        if !self.in_input {
            if let Some(file) = self.files.last_mut() {
                file.text.extend_from_slice(bytes)?;
            }
            return Ok(());
        }
        self.input.extend_from_slice(bytes)?;
        Ok(())
    }

    /// Does what a line of one word says.
    fn order(&mut self, alloc: Global, line: &str) -> anyhow::Result<()> {
        match line {
            "word" => self.words.push(String::new(alloc))?,
            "input" => self.in_input = true,
            "hush" => self.is_hushed = true,
            "again" => self.files = mem::replace(&mut self.files_before, Vec::new(alloc)),
            _ => {}
        }
        Ok(())
    }

    /// Does what a line of a word and a name says.
    fn say(&mut self, alloc: Global, what: &str, name: &str) -> anyhow::Result<()> {
        match what {
            "word" => self.words.push(String::from_str(alloc, name)?)?,
            "file" => self.begin(alloc, name, Vec::new(alloc))?,
            "written" => {
                let text = mem::replace(&mut self.written_before, Vec::new(alloc));
                self.begin(alloc, name, text)?;
            }
            _ => self.count(alloc, what, name)?,
        }
        Ok(())
    }

    /// Begins a file.
    fn begin(&mut self, alloc: Global, name: &str, text: Vec<u8>) -> anyhow::Result<()> {
        let name = String::from_str(alloc, name)?;
        self.files.push(Named { name, text })?;
        Ok(())
    }

    /// Does what a line of a word and numbers says.
    fn count(&mut self, alloc: Global, what: &str, numbers: &str) -> anyhow::Result<()> {
        match what {
            "byte" => self.fill(alloc, "1", numbers)?,
            "most" => self.most = numbers.parse::<usize>().unwrap_or(self.most),
            _ => {
                if let Some((first, last)) = numbers.split_once(' ') {
                    self.count_two(alloc, what, first, last)?;
                }
            }
        }
        Ok(())
    }

    /// Does what a line of a word and two more says.
    fn count_two(
        &mut self,
        alloc: Global,
        what: &str,
        first: &str,
        last: &str,
    ) -> anyhow::Result<()> {
        match what {
            "fill" => self.fill(alloc, first, last),
            "fails" => self.fail(first, last),
            _ => Ok(()),
        }
    }

    /// Adds so many times a byte.
    fn fill(&mut self, alloc: Global, times: &str, byte: &str) -> anyhow::Result<()> {
        let Ok(times) = times.parse::<u32>() else {
            return Ok(());
        };
        let Ok(byte) = byte.parse::<u8>() else {
            return Ok(());
        };
        let bytes = vec![in alloc; byte; times as usize]?;
        self.add(&bytes)
    }

    /// Lets the call of a number fail.
    fn fail(&mut self, what: &str, number: &str) -> anyhow::Result<()> {
        let Ok(number) = number.parse::<u64>() else {
            return Ok(());
        };
        match what {
            "files" => self.fails.files.push(number)?,
            "input" => self.fails.input.push(number)?,
            "output" => self.fails.output.push(number)?,
            "report" => self.fails.report.push(number)?,
            _ => {}
        }
        Ok(())
    }
}
