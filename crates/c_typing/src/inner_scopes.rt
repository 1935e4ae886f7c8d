//! The scopes that are open inside the file's.
#![tactic(auto)]

ghost use Rattle.std.specs.Prelude.{◌≡◌, ◌<◌, ◌^◌, [], ◌∷◌, ◌++◌, length, OnOk, OnErr, IfSome, None, Some, option_copied};
ghost use Rattle.c_typing.specs.Scopes.{at_innermost, empty_level, entry_of, innermost, name_in, tag_in, with_name, with_tag_set, without_innermost};

use crate::declared::{Declared, Tag};
use crate::level::Level;
use cc_base::NoMemory;
use named_lists::NameStacks;
use std::alloc::Global;
use std::marker::Model;

/// The scopes inside the file's. What a name stands for is on top of its stack, however many scopes are open.
pub struct InnerScopes {
    levels: Vec<Level>,
    names: NameStacks<Declared>,
    tags: NameStacks<Tag>,
}

impl Drop for InnerScopes {
    fn drop(self) {
        let Self {
            levels: _,
            names: _,
            tags: _,
        } = self;
    }
}

impl Model for InnerScopes {
    ghost use Rattle.std.specs.Prelude.{List, map};
    ghost use Rattle.named_lists.specs.Stacks.{AreStacksOf};
    ghost use Rattle.c_typing.specs.Scopes.{Level as SeenLevel};

    ghost Value = { List SeenLevel };

    ghost view = { λ s. s.levels.items };

    ghost invariant = { λ s. AreStacksOf (map (λ l. l.names) s.levels.items) s.names
        × AreStacksOf (map (λ l. l.tags) s.levels.items) s.tags };
}

impl InnerScopes {
    /// No scopes. Takes no memory.
    pub(crate) fn new(alloc: Global) -> InnerScopes
        ensures { result ≡ [] }
    {
        InnerScopes {
            levels: Vec::new(alloc),
            names: NameStacks::new(alloc),
            tags: NameStacks::new(alloc),
        }
    }

    /// How many they are.
    pub(crate) fn len(&self) -> usize
        ensures count { result ≡ length self.now }
        ensures small { result < 2 ^ 63 }
    {
        self.levels.len()
    }

    /// The innermost one.
    pub(crate) fn last(&self) -> Option<&Level>
        ensures some { IfSome result
            (λ level. (0 < length self.now) × (level.now ≡ innermost self.now)) }
        ensures none { result ≡ None → self.now ≡ [] }
    {
        match self.levels.last() {
            Some(level) => Some(level),
            None => None,
        }
    }

    /// Adds an empty innermost scope.
    pub(crate) fn enter(&mut self, alloc: Global) -> Result<(), NoMemory>
        ensures entered { OnOk result (self.new ≡ self.old ++ empty_level ∷ []) }
        ensures unchanged { OnErr result (self.new ≡ self.old) }
    {
        self.levels.push(Level::new(alloc))?;
        Ok(())
    }

    /// Takes the innermost scope away and gives it. Takes no memory.
    pub(crate) fn leave(&mut self) -> Option<Level>
        ensures left { self.new ≡ without_innermost self.old }
        ensures level { 0 < length self.old → result ≡ Some (innermost self.old) }
    {
        match self.levels.pop() {
            Some(level) => {
                level.hide(&mut self.names, &mut self.tags);
                Some(level)
            }
            None => None,
        }
    }

    /// A scope that was taken away goes on as the innermost one.
    pub(crate) fn go_on(&mut self, alloc: Global, level: Level) -> Result<(), NoMemory>
        ensures entered { OnOk result (self.new ≡ self.old ++ level ∷ []) }
        ensures unchanged { OnErr result (self.new ≡ self.old) }
    {
        let count = self.levels.len();
        self.levels.push(level)?;
        match self.levels[count].show(alloc, &mut self.names, &mut self.tags) {
            Ok(()) => Ok(()),
            Err(e) => {
                self.levels.truncate(count);
                Err(e)
            }
        }
    }

    /// What a name stands for here. Takes no memory.
    pub(crate) fn name(&self, name: &[u8]) -> Option<&Declared>
        ensures { option_copied result ≡ name_in self.now name.now }
    {
        self.names.top(name)
    }

    /// What a tag stands for here. Takes no memory.
    pub(crate) fn tag(&self, name: &[u8]) -> Option<&Tag>
        ensures { option_copied result ≡ tag_in self.now name.now }
    {
        self.tags.top(name)
    }

    /// Declares a name in the innermost scope, which does not declare it.
    pub(crate) fn declare(
        &mut self,
        alloc: Global,
        name: &[u8],
        what: Declared,
    ) -> Result<(), NoMemory>
        requires some { 0 < length self.old }
        requires fresh { entry_of (innermost self.old).names name.now ≡ None }
        ensures declared { OnOk result
            (self.new ≡ at_innermost (with_name name.now what) self.old) }
        ensures unchanged { OnErr result (self.new ≡ self.old) }
    {
        let last = self.levels.len() - 1;
        self.names.push(alloc, name, what)?;
        match self.levels[last].declare(alloc, name, what) {
            Ok(()) => Ok(()),
            Err(e) => {
                self.names.pop(name);
                Err(e)
            }
        }
    }

    /// Declares a tag in the innermost scope, which does not declare it.
    fn add_tag(&mut self, alloc: Global, name: &[u8], what: Tag) -> Result<(), NoMemory>
        requires some { 0 < length self.old }
        requires fresh { entry_of (innermost self.old).tags name.now ≡ None }
        ensures declared { OnOk result
            (self.new ≡ at_innermost (with_tag_set name.now what) self.old) }
        ensures unchanged { OnErr result (self.new ≡ self.old) }
    {
        let last = self.levels.len() - 1;
        self.tags.push(alloc, name, what)?;
        match self.levels[last].set_tag(alloc, name, what) {
            Ok(()) => Ok(()),
            Err(e) => {
                self.tags.pop(name);
                Err(e)
            }
        }
    }

    /// Declares a tag of the innermost scope as this, which it declares as something else.
    fn replace_tag(
        &mut self,
        alloc: Global,
        name: &[u8],
        was: Tag,
        what: Tag,
    ) -> Result<(), NoMemory>
        requires some { 0 < length self.old }
        requires known { entry_of (innermost self.old).tags name.now ≡ Some was }
        ensures declared { OnOk result
            (self.new ≡ at_innermost (with_tag_set name.now what) self.old) }
        ensures unchanged { OnErr result (self.new ≡ self.old) }
    {
        let last = self.levels.len() - 1;
        self.levels[last].set_tag(alloc, name, what)?;
        self.tags.set_top(name, what);
        Ok(())
    }

    /// Declares a tag in the innermost scope as this, whatever it was before. It keeps its place among the others.
    pub(crate) fn set_tag(&mut self, alloc: Global, name: &[u8], what: Tag) -> Result<(), NoMemory>
        requires { 0 < length self.old }
        ensures declared { OnOk result
            (self.new ≡ at_innermost (with_tag_set name.now what) self.old) }
        ensures unchanged { OnErr result (self.new ≡ self.old) }
    {
        let last = self.levels.len() - 1;
        let was = self.levels[last].tag(name).copied();
        match was {
            Some(was) => self.replace_tag(alloc, name, was, what),
            None => self.add_tag(alloc, name, what),
        }
    }
}
