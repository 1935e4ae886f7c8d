//! The answer of the solver.
#![tactic(auto)]

use crate::causes::Causes;
use cc_base::Kinds;

/// The kinds of the nodes of a program, with their causes.
#[derive(Debug)]
pub struct Solved {
    pub kinds: Kinds,
    pub causes: Causes,
}

impl Drop for Solved {
    fn drop(self) {
        let Self {
            kinds: _,
            causes: _,
        } = self;
    }
}
