//! What is known of names with linkage (C99 6.2.2, 6.9), and of objects that live as long as the program.
#![tactic(auto)]

ghost use Rattle.std.specs.Prelude.{◌≡◌, [], ◌∷◌, ◌++◌, OnOk, None, map, option_copied};
ghost use Rattle.c_typing.specs.Scopes.{entry_of};
ghost use Rattle.c_unit_typing.specs.Initialisers.{is_among, with_home};
ghost use Rattle.c_check_context.specs.ContextViews.{linkage_view};
ghost use Rattle.c_unit_typing.specs.Linkage.{no_linkage, with_name};
ghost use Rattle.c_unit_typing.specs.Units.{is_one_of};

use c_typing::Declared;
use cc_base::{NoMemory, NodeId};
use indexmap::{IndexMap, IndexSet};
use std::alloc::Global;
use std::marker::Model;

/// Names with their first declarations. Contracts see a list in the order of the declarations.
#[derive(Drop)]
pub struct FirstDeclarations(IndexMap<Vec<u8>, Declared>);

impl Model for FirstDeclarations {
    ghost use Rattle.std.specs.Prelude.{List};
    ghost use Rattle.c_typing.specs.declared.declared.Declared.{Declared};
    ghost use Rattle.c_typing.specs.Scopes.{Name, seen_entries};

    ghost Value = { List (Name × Declared) };

    ghost view = { λ f. seen_entries (λ k. k.items) f.0.entries };
}

impl FirstDeclarations {
    /// The first declaration of a name. Takes no memory.
    pub fn of(&self, name: &[u8]) -> Option<&Declared>
        ensures { option_copied result ≡ entry_of self.now name.now }
    {
        self.0.get(name)
    }

    /// Adds the first declaration of a name.
    pub(crate) fn add(&mut self, alloc: Global, name: &[u8], what: Declared) -> Result<(), NoMemory>
        requires { entry_of self.old name.now ≡ None }
        ensures { OnOk result (self.new ≡ self.old ++ (name.now, what) ∷ []) }
    {
        let key = Vec::from_slice(alloc, name)?;
        self.0.insert(key, what)?;
        Ok(())
    }
}

/// A set of names. Contracts see the list of them.
#[derive(Drop)]
pub struct Names(IndexSet<Vec<u8>>);

impl Model for Names {
    ghost use Rattle.std.specs.Prelude.{List, map};
    ghost use Rattle.c_typing.specs.Scopes.{Name};

    ghost Value = { List Name };

    ghost view = { λ s. map (λ k. k.items) s.0.keys };
}

impl Names {
    /// No name. Takes no memory.
    pub fn new(alloc: Global) -> Names
        ensures { result ≡ [] }
    {
        Names(IndexSet::new(alloc))
    }

    /// The set itself.
    pub fn into_set(self) -> IndexSet<Vec<u8>>
        ensures { map (λ k. k.items) result.keys ≡ self }
    {
        self.0
    }

    pub(crate) fn has(&self, name: &[u8]) -> bool
        ensures { result ≡ is_one_of self.now name.now }
    {
        self.0.contains(name)
    }

    /// Adds a name, unless it is there.
    pub fn add(&mut self, alloc: Global, name: &[u8]) -> Result<(), NoMemory>
        ensures { OnOk result (self.new ≡ with_name name.now self.old) }
    {
        let key = Vec::from_slice(alloc, name)?;
        self.0.insert(key)?;
        Ok(())
    }
}

/// A set of homes. Contracts see the list of them.
#[derive(Drop)]
pub struct Homes(IndexSet<NodeId>);

impl Model for Homes {
    ghost use Rattle.std.specs.Prelude.{List};
    ghost use Rattle.cc_base.specs.declared.number.NodeId.{NodeId};

    ghost Value = { List NodeId };

    ghost view = { λ s. s.0.keys };
}

impl Homes {
    /// Whether the home is one of them.
    pub fn has(&self, home: NodeId) -> bool
        ensures { result ≡ is_among self.now home }
    {
        self.0.contains(&home)
    }

    pub(crate) fn add(&mut self, home: NodeId) -> Result<(), NoMemory>
        ensures { OnOk result (self.new ≡ with_home home self.old) }
    {
        self.0.insert(home)?;
        Ok(())
    }
}

/// What is known of names with linkage, and of objects that live as long as the program.
pub struct Linkage {
    /// What has linkage, wherever it was declared first.
    pub linked: FirstDeclarations,
    /// The names with linkage that have a definition.
    pub defined: Names,
    /// The homes of the objects that live as long as the program.
    pub statics: Homes,
}

impl Drop for Linkage {
    fn drop(self) {
        let Self {
            linked: _,
            defined: _,
            statics: _,
        } = self;
    }
}

impl Linkage {
    /// Nothing so far. Takes no memory.
    pub fn new(alloc: Global) -> Linkage
        ensures { linkage_view result ≡ no_linkage }
    {
        Linkage {
            linked: FirstDeclarations(IndexMap::new(alloc)),
            defined: Names(IndexSet::new(alloc)),
            statics: Homes(IndexSet::new(alloc)),
        }
    }
}
