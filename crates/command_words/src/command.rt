//! What the words of a command line can ask for.
/// What is done with a file.
#[derive(Clone, Copy, Debug, PartialEq, Eq)]
pub enum Action {
    /// The kinds of its C program are written.
    Kinds,
    /// Its C program is cured, and the cured text written.
    Cure,
    /// Its C program is cured and run, with so many turns.
    Run(u64),
    /// Its cured text is run, with so many turns.
    Exec(u64),
}

/// What is asked for.
#[derive(Clone, Copy, Debug)]
pub enum Command<'a> {
    /// Something is done with the file of a name.
    OnFile(Action, &'a str),
    /// The generated program of so many functions is run.
    Make(u64),
}
