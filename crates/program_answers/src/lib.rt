//! What the program answers: its verdicts, how they are reported, what `make` tells of a text, and what justifies all that.
#![tactic(auto)]

mod limits;
mod report;
mod summary;
mod verdict;

pub use report::{Line, report_verdict};
pub use summary::Summary;
pub use verdict::Verdict;
