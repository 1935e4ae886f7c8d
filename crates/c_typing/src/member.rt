//! The names of the members of a struct or union.
#![tactic(auto)]

ghost use Rattle.std.specs.Prelude.{◌≡◌, [], ◌∷◌, ◌++◌, OnOk, OnErr, None, not};
ghost use Rattle.c_types.specs.Table.{is_empty};
ghost use Rattle.c_typing.specs.Scopes.{place_among};

use cc_base::NoMemory;
use indexmap::IndexSet;
use std::alloc::Global;
use std::marker::Model;

/// Names of members, in the order of their declarations. Contracts see the list.
pub struct MemberNames(IndexSet<Vec<u8>>);

impl Drop for MemberNames {
    fn drop(self) {
        let Self(_) = self;
    }
}

impl Model for MemberNames {
    ghost use Rattle.std.specs.Prelude.{List, map};
    ghost use Rattle.c_typing.specs.Scopes.{Name};

    ghost Value = { List Name };

    ghost view = { λ m. map (λ k. k.items) m.0.keys };
}

impl MemberNames {
    /// No names. Takes no memory.
    pub fn new(alloc: Global) -> MemberNames
        ensures { result ≡ [] }
    {
        MemberNames(IndexSet::new(alloc))
    }

    /// Whether there are any.
    pub fn is_some(&self) -> bool
        ensures { result ≡ not (is_empty self.now) }
    {
        !self.0.is_empty()
    }

    /// The place of a name, counted from 0. Takes no memory.
    pub fn place(&self, name: &[u8]) -> Option<usize>
        ensures { result ≡ place_among self.now name.now }
    {
        self.0.get_index_of(name)
    }

    /// Adds a name that is not among them.
    pub fn push(&mut self, alloc: Global, name: &[u8]) -> Result<(), NoMemory>
        requires { place_among self.old name.now ≡ None }
        ensures pushed { OnOk result (self.new ≡ self.old ++ name.now ∷ []) }
        ensures unchanged { OnErr result (self.new ≡ self.old) }
    {
        let name = Vec::from_slice(alloc, name)?;
        self.0.insert(name)?;
        Ok(())
    }
}
