//! A part with its height.

/// A part of the tree, and how many nodes its longest path has.
#[derive(Drop)]
pub struct Measured<T> {
    pub tree: T,
    pub height: usize,
}
