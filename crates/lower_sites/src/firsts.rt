//! The types of first declarations.
ghost use Rattle.std.specs.Prelude.{◌≡◌, [], ◌∷◌, ◌++◌, None, OnOk, option_copied};
ghost use Rattle.named_lists.specs.Entries.{entry_of};
ghost use Rattle.lower_sites.specs.HomeNames.{home_name};

use cc_base::{NoMemory, NodeId, TypeId};
use indexmap::IndexMap;
use std::alloc::Global;
use std::marker::Model;

/// Names of functions with the types of their first declarations. Contracts see a list in the order of the declarations.
#[derive(Drop)]
pub(crate) struct FirstFunctions(IndexMap<Vec<u8>, TypeId>);

impl Model for FirstFunctions {
    ghost use Rattle.std.specs.Prelude.{List};
    ghost use Rattle.cc_base.specs.declared.number.TypeId.{TypeId};
    ghost use Rattle.named_lists.specs.Entries.{Name, seen_entries};

    ghost Value = { List (Name × TypeId) };

    ghost view = { λ f. seen_entries (λ k. k.items) f.0.entries };
}

impl FirstFunctions {
    /// No name. Takes no memory.
    pub(crate) fn new(alloc: Global) -> FirstFunctions
        ensures { result ≡ [] }
    {
        FirstFunctions(IndexMap::new(alloc))
    }

    /// The type of the first declaration of a name. Takes no memory.
    pub(crate) fn of(&self, name: &[u8]) -> Option<&TypeId>
        ensures { option_copied result ≡ entry_of self.now name.now }
    {
        self.0.get(name)
    }

    /// Adds the first declaration of a name.
    pub(crate) fn add(&mut self, alloc: Global, name: &[u8], t: TypeId) -> Result<(), NoMemory>
        requires { entry_of self.old name.now ≡ None }
        ensures { OnOk result (self.new ≡ self.old ++ (name.now, t) ∷ []) }
    {
        let key = Vec::from_slice(alloc, name)?;
        self.0.insert(key, t)?;
        Ok(())
    }
}

/// Homes of objects with the types of their first declarations. Contracts see a list in the order of the declarations.
#[derive(Drop)]
pub(crate) struct FirstObjects(IndexMap<NodeId, TypeId>);

impl Model for FirstObjects {
    ghost use Rattle.std.specs.Prelude.{List};
    ghost use Rattle.cc_base.specs.declared.number.TypeId.{TypeId};
    ghost use Rattle.named_lists.specs.Entries.{Name, seen_entries};
    ghost use Rattle.lower_sites.specs.HomeNames.{home_name};

    ghost Value = { List (Name × TypeId) };

    ghost view = { λ f. seen_entries home_name f.0.entries };
}

impl FirstObjects {
    /// No home. Takes no memory.
    pub(crate) fn new(alloc: Global) -> FirstObjects
        ensures { result ≡ [] }
    {
        FirstObjects(IndexMap::new(alloc))
    }

    /// The type of the first declaration of the object with a home. Takes no memory.
    pub(crate) fn of(&self, home: NodeId) -> Option<&TypeId>
        ensures { option_copied result ≡ entry_of self.now (home_name home) }
    {
        self.0.get(&home)
    }

    /// Adds the first declaration of the object with a home.
    pub(crate) fn add(&mut self, home: NodeId, t: TypeId) -> Result<(), NoMemory>
        requires { entry_of self.old (home_name home) ≡ None }
        ensures { OnOk result (self.new ≡ self.old ++ (home_name home, t) ∷ []) }
    {
        self.0.insert(home, t)?;
        Ok(())
    }
}
