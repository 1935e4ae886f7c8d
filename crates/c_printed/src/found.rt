//! What a walk over a typed unit finds.
use c_tree::Printed;

/// Nodes that are printed, in the order of the walk. It is told here, and not by each answer, that memory was wanted, and the
/// walk goes on: what is found then is dropped.
#[derive(Drop)]
pub(crate) struct Found {
    pub(crate) nodes: Vec<Printed>,
    /// Nothing failed so far.
    pub(crate) fine: bool,
}
