//! The memory of the flat machine: one list of bytes, in which functions, globals, frames and heap blocks have
//! their areas.
#![tactic(auto)]

ghost use Rattle.std.specs.Prelude.{◌≡◌};

mod areas;
mod frames;
mod memory;
mod numbers;
mod rows;
mod tags;

pub use areas::size_of as area_size;
pub use frames::FramePlan;
pub use memory::Flat;
use std::marker::Model;

/// An area of the byte list: that of a global, a local or a heap block. `bytes` is how many bytes the object
/// has; a tagged area has a base word and a tag bit beside each word of them.
#[derive(Clone, Copy, Debug, PartialEq, Eq)]
pub struct Area {
    pub tagged: bool,
    pub bytes: u64,
}

/// Where a row of words of a tagged area stands: the addresses of its first word and of that word's base word,
/// and the place of its tag, counted in bits from the list's start.
#[derive(Clone, Copy, Debug, PartialEq, Eq)]
pub struct WordRow {
    pub words: u64,
    pub bases: u64,
    pub tags: u64,
}

/// Areas in order. A contract sees them as a list.
#[derive(Drop)]
pub struct AreaList(pub Vec<Area>);

impl Model for AreaList {
    ghost use Rattle.std.specs.Prelude.{List};
    ghost use Rattle.flat_mem.specs.declared.Area.{Area};

    ghost Value = { List Area };

    ghost view = { λ s. s.0.items };
}

impl AreaList {
    /// The list of these areas. Takes no memory.
    pub fn of(list: Vec<Area>) -> AreaList
        ensures { result ≡ list.items }
    {
        AreaList(list)
    }
}

/// What a flat memory is made for: how many functions there are, the globals' areas in order, and the limits of
/// the charges of all live frames and of all heap blocks. The stack's and the heap's regions are three times as
/// long as these limits.
pub struct Plan {
    pub functions: u32,
    pub globals: AreaList,
    pub stack: u64,
    pub heap: u64,
}

impl Drop for Plan {
    fn drop(self) {
        let Self {
            functions: _,
            globals: _,
            stack: _,
            heap: _,
        } = self;
    }
}
