//! The classes of a flow between pointers, by what the two types have in common.
#![tactic(auto)]

/// How a pointer to one type may become a pointer to another (CCured, TOPLAS 2005).
#[derive(Clone, Copy, Debug, PartialEq, Eq, PartialOrd, Ord, Hash)]
pub enum FlowClass {
    /// The two types have the same layout.
    Equal,
    /// The source's layout begins with the target's, and repetitions of the two agree.
    UpTile,
    /// The source's layout begins with the target's.
    Up,
    /// The target's layout begins with the source's, and repetitions of the two agree.
    DownTile,
    /// The target's layout begins with the source's.
    Down,
    /// Neither layout begins the other, and repetitions of the two agree.
    Tile,
    /// The layouts are unrelated.
    Bad,
}
