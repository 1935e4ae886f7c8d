//! Tests of types that correspond.
#![tactic(auto)]

#[cfg(test)]
mod tests;
