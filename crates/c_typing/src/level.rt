//! One scope: its names and its tags.
#![tactic(auto)]

ghost use Rattle.std.specs.Prelude.{◌≡◌, OnOk, OnErr, None, option_copied};
ghost use Rattle.named_lists.specs.Stacks.{GetsList, KeepsLists, LosesList};
ghost use Rattle.c_typing.specs.Scopes.{entry_of, with_name, with_tag_set, empty_level};

use crate::declared::{Declared, Tag};
use cc_base::NoMemory;
use indexmap::IndexMap;
use named_lists::NameStacks;
use std::alloc::Global;
use std::marker::Model;

/// A scope. Contracts see its names and its tags as lists, in the order of their declarations.
pub struct Level {
    names: IndexMap<Vec<u8>, Declared>,
    tags: IndexMap<Vec<u8>, Tag>,
}

impl Drop for Level {
    fn drop(self) {
        let Self { names: _, tags: _ } = self;
    }
}

impl Model for Level {
    ghost use Rattle.c_typing.specs.Scopes.{Level as SeenLevel, seen_entries};

    ghost Value = { SeenLevel };

    ghost view = { λ l. record { names = seen_entries (λ k. k.items) l.names.entries; tags = seen_entries (λ k. k.items) l.tags.entries } };
}

impl Level {
    /// A scope without names. Takes no memory.
    pub fn new(alloc: Global) -> Level
        ensures { result ≡ empty_level }
    {
        Level {
            names: IndexMap::new(alloc),
            tags: IndexMap::new(alloc),
        }
    }

    /// What a name is declared as in this scope.
    pub fn name(&self, name: &[u8]) -> Option<&Declared>
        ensures { option_copied result ≡ entry_of self.now.names name.now }
    {
        if self.names.is_empty() {
            return None;
        }
        self.names.get(name)
    }

    /// What a tag is declared as in this scope.
    pub fn tag(&self, name: &[u8]) -> Option<&Tag>
        ensures { option_copied result ≡ entry_of self.now.tags name.now }
    {
        if self.tags.is_empty() {
            return None;
        }
        self.tags.get(name)
    }

    /// Declares a name that this scope does not have.
    pub fn declare(&mut self, alloc: Global, name: &[u8], what: Declared) -> Result<(), NoMemory>
        requires { entry_of self.old.names name.now ≡ None }
        ensures declared { OnOk result (self.new ≡ with_name name.now what self.old) }
        ensures unchanged { OnErr result (self.new ≡ self.old) }
    {
        let key = Vec::from_slice(alloc, name)?;
        self.names.insert(key, what)?;
        Ok(())
    }

    /// Declares a tag as this, whatever it was before. It keeps its place among the others.
    pub fn set_tag(&mut self, alloc: Global, name: &[u8], what: Tag) -> Result<(), NoMemory>
        ensures declared { OnOk result (self.new ≡ with_tag_set name.now what self.old) }
        ensures unchanged { OnErr result (self.new ≡ self.old) }
    {
        let key = Vec::from_slice(alloc, name)?;
        self.tags.insert(key, what)?;
        Ok(())
    }

    /// Puts what its names and tags stand for on top of their stacks.
    pub(crate) fn show(
        &self,
        alloc: Global,
        names: &mut NameStacks<Declared>,
        tags: &mut NameStacks<Tag>,
    ) -> Result<(), NoMemory>
        ensures names { OnOk result (GetsList self.now.names names.old names.new) }
        ensures tags { OnOk result (GetsList self.now.tags tags.old tags.new) }
        ensures same_names { OnErr result (KeepsLists names.old names.new) }
        ensures same_tags { OnErr result (KeepsLists tags.old tags.new) }
    {
        tags.push_all(alloc, &self.tags)?;
        match names.push_all(alloc, &self.names) {
            Ok(()) => Ok(()),
            Err(_e) => {
                tags.pop_all(&self.tags);
                Err(NoMemory)
            }
        }
    }

    /// Takes what its names and tags stand for from the top of their stacks. Takes no memory.
    pub(crate) fn hide(&self, names: &mut NameStacks<Declared>, tags: &mut NameStacks<Tag>)
        ensures names { LosesList self.now.names names.old names.new }
        ensures tags { LosesList self.now.tags tags.old tags.new }
    {
        names.pop_all(&self.names);
        tags.pop_all(&self.tags);
    }
}
