//! Worked rows of kinds: what the clauses of the types leave to be seen.

mod pairs;
