//! What stands at a place in a layout.
#![tactic(auto)]

ghost use Rattle.std.specs.Prelude.{◌≡◌};
ghost use Rattle.phys_types.specs.Spots.{item_size};

use cc_base::{NodeId, TypeId};

/// What stands in a layout where its bytes are not all raw.
#[derive(Clone, Copy, Debug, PartialEq, Eq)]
pub enum Item {
    /// A pointer, by its node and the type that it points to.
    Pointer(NodeId, TypeId),
    /// A mixed union, with its number of bytes.
    Mixed(TypeId, u64),
    /// A struct or union that has no members.
    Incomplete(TypeId),
}

impl Item {
    /// How many cells the item has.
    pub fn size(self) -> u64
        ensures { result ≡ item_size self }
    {
        match self {
            Item::Pointer(_, _) => 8,
            Item::Mixed(_, size) => size,
            Item::Incomplete(_) => 1,
        }
    }
}

/// An item, and how many cells lie before it.
#[derive(Clone, Copy, Debug, PartialEq, Eq)]
pub struct Spot {
    pub start: u64,
    pub item: Item,
}

/// The cells of a type: how many there are, the items among them in order, and whether the type holds a pointer by value.
/// The cells between the items are raw.
#[derive(Debug)]
pub struct Layout {
    pub size: u64,
    pub spots: Vec<Spot>,
    pub holds: bool,
}

impl Drop for Layout {
    fn drop(self) {
        let Self {
            size: _,
            spots: _,
            holds: _,
        } = self;
    }
}
