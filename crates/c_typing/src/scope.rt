//! The scopes that are open, and what is counted.
#![tactic(auto)]

ghost use Rattle.std.specs.Prelude.{◌≡◌, ◌<◌, ◌≤◌, ◌+◌, true, false, not, OnOk, OnErr, IfOk, IfSome, None, Some, option_copied, [], ◌∷◌, ◌++◌, length, nat_le, map, slice_set};
ghost use Rattle.c_types.specs.Table.{is_empty};
ghost use Rattle.c_typing.specs.Scopes.{file_scope, with_scopes, entering, innermost, leaving, declaring, declaring_tag, setting_tag, here, tag_here, name_in, tag_in, place_among, members_named};
ghost use Rattle.c_typing.specs.Typing.{counting_aggregate};

use crate::declared::{Declared, Tag};
use crate::inner_scopes::InnerScopes;
use crate::level::Level;
use crate::member::MemberNames;
use cc_base::{NoMemory, NodeId};
use indexmap::{IndexMap, IndexSet};
use std::alloc::Global;
use std::marker::Model;

/// The most bytes of static objects and literals, with 16 for each.
const MOST_GLOBALS: u64 = 4_194_304;

/// The most pointers that all assignments of structs and unions move.
const MOST_CELLS: u64 = 65_536;

/// What names and tags stand for, scope by scope, and the number of the next node.
pub struct Scope {
    alloc: Global,
    file: Level,
    inner: InnerScopes,
    defined: IndexSet<Vec<u8>>,
    members: Vec<MemberNames>,
    next_node: u32,
    globals: u64,
    cells: u64,
}

impl Drop for Scope {
    fn drop(self) {
        let Self {
            alloc: _,
            file: _,
            inner: _,
            defined: _,
            members: _,
            next_node: _,
            globals: _,
            cells: _,
        } = self;
    }
}

impl Model for Scope {
    ghost use Rattle.std.specs.Prelude.{◌∷◌, [], map, ◌≤◌};
    ghost use Rattle.c_typing.specs.Scopes.{Seen};

    ghost Value = { Seen };

    ghost view = { λ s. record { scopes = record { levels = s.file ∷ s.inner; defined = map (λ k. k.items) s.defined.keys; members = s.members.items }; node = s.next_node; globals = s.globals; cells = s.cells } };

    ghost invariant = { λ s. s.globals ≤ 4194304 };
}

impl Scope {
    /// An empty file scope of a unit that defines these functions, in the order of their definitions. Takes no memory.
    pub fn new(alloc: Global, defined: IndexSet<Vec<u8>>) -> Scope
        ensures { result ≡ file_scope (map (λ k. k.items) defined.keys) }
    {
        Scope {
            alloc,
            file: Level::new(alloc),
            inner: InnerScopes::new(alloc),
            defined,
            members: Vec::new(alloc),
            next_node: 0,
            globals: 0,
            cells: 0,
        }
    }

    /// Adds an empty innermost scope.
    pub fn enter(&mut self) -> Result<(), NoMemory>
        ensures entered { OnOk result (self.new ≡ with_scopes self.old (entering self.old.scopes)) }
        ensures unchanged { OnErr result (self.new ≡ self.old) }
    {
        self.inner.enter(self.alloc)
    }

    /// Takes the innermost scope away. Takes no memory.
    pub fn leave(&mut self)
        requires { 1 < length self.old.scopes.levels }
        ensures { self.new ≡ with_scopes self.old (leaving self.old.scopes) }
    {
        self.inner.leave();
    }

    /// Takes the innermost scope away and gives it, where it isn't the file's. Takes no memory.
    pub fn take_innermost(&mut self) -> Option<Level>
        requires { 1 < length self.old.scopes.levels }
        ensures left { self.new ≡ with_scopes self.old (leaving self.old.scopes) }
        ensures level { result ≡ Some (innermost self.old.scopes.levels) }
    {
        self.inner.leave()
    }

    /// A scope that was taken away goes on as the innermost one.
    pub fn go_on(&mut self, level: Level) -> Result<(), NoMemory>
        ensures entered { OnOk result (self.new ≡ with_scopes self.old
            (record self.old.scopes { levels = self.old.scopes.levels ++ level ∷ [] })) }
        ensures unchanged { OnErr result (self.new ≡ self.old) }
    {
        self.inner.go_on(self.alloc, level)
    }

    /// How many scopes are open, the file's among them. Takes no memory.
    pub fn depth(&self) -> usize
        ensures count { result ≡ length self.now.scopes.levels }
        ensures some { 0 < length self.now.scopes.levels }
    {
        self.inner.len() + 1
    }

    /// The innermost scope's declaration of a name. Takes no memory.
    pub fn here(&self, name: &[u8]) -> Option<&Declared>
        ensures { option_copied result ≡ here self.now.scopes.levels name.now }
    {
        match self.inner.last() {
            Some(level) => level.name(name),
            None => self.file.name(name),
        }
    }

    /// Declares a name in the innermost scope, which does not declare it.
    pub fn declare(&mut self, name: &[u8], what: Declared) -> Result<(), NoMemory>
        requires { here self.old.scopes.levels name.now ≡ None }
        ensures declared { OnOk result (self.new ≡ with_scopes self.old
            (declaring name.now what self.old.scopes)) }
        ensures unchanged { OnErr result (self.new ≡ self.old) }
    {
        if self.inner.len() == 0 {
            return self.file.declare(self.alloc, name, what);
        }
        self.inner.declare(self.alloc, name, what)
    }

    /// What a name stands for: its declaration in the innermost scope that has one. Takes no memory.
    pub fn name(&self, name: &[u8]) -> Option<&Declared>
        ensures { option_copied result ≡ name_in self.now.scopes.levels name.now }
    {
        match self.inner.name(name) {
            Some(what) => Some(what),
            None => self.file.name(name),
        }
    }

    /// What a tag stands for: its declaration in the innermost scope that has one. Takes no memory.
    pub fn tag(&self, name: &[u8]) -> Option<&Tag>
        ensures { option_copied result ≡ tag_in self.now.scopes.levels name.now }
    {
        match self.inner.tag(name) {
            Some(what) => Some(what),
            None => self.file.tag(name),
        }
    }

    /// The innermost scope's declaration of a tag. Takes no memory.
    pub fn tag_here(&self, name: &[u8]) -> Option<&Tag>
        ensures { option_copied result ≡ tag_here self.now.scopes.levels name.now }
    {
        match self.inner.last() {
            Some(level) => level.tag(name),
            None => self.file.tag(name),
        }
    }

    /// Declares a tag in the innermost scope, which does not declare it.
    pub fn declare_tag(&mut self, name: &[u8], what: Tag) -> Result<(), NoMemory>
        requires { tag_here self.old.scopes.levels name.now ≡ None }
        ensures declared { OnOk result (self.new ≡ with_scopes self.old
            (declaring_tag name.now what self.old.scopes)) }
        ensures unchanged { OnErr result (self.new ≡ self.old) }
    {
        self.set_tag(name, what)
    }

    /// Declares a tag in the innermost scope as this, whatever it was before. It keeps its place among the others.
    pub fn set_tag(&mut self, name: &[u8], what: Tag) -> Result<(), NoMemory>
        ensures declared { OnOk result (self.new ≡ with_scopes self.old
            (setting_tag name.now what self.old.scopes)) }
        ensures unchanged { OnErr result (self.new ≡ self.old) }
    {
        if self.inner.len() == 0 {
            return self.file.set_tag(self.alloc, name, what);
        }
        self.inner.set_tag(self.alloc, name, what)
    }

    /// Where a function stands among those that the unit defines, counted from 0. Takes no memory.
    pub fn function(&self, name: &[u8]) -> Option<usize>
        ensures { result ≡ place_among self.now.scopes.defined name.now }
    {
        self.defined.get_index_of(name)
    }

    /// How many structs and unions are declared so far. Takes no memory.
    pub fn aggregates(&self) -> usize
        ensures { result ≡ length self.now.scopes.members }
    {
        self.members.len()
    }

    /// Gives a new struct or union its number. It has no members so far.
    pub fn new_aggregate(&mut self) -> Result<usize, NoMemory>
        ensures number { IfOk result (λ number. number ≡ length self.old.scopes.members) }
        ensures counted { OnOk result (self.new ≡ with_scopes self.old
            (counting_aggregate self.old.scopes)) }
        ensures unchanged { OnErr result (self.new ≡ self.old) }
    {
        let number = self.members.len();
        self.members.push(MemberNames::new(self.alloc))?;
        Ok(number)
    }

    /// Gives a struct or union the names of its members. Takes no memory.
    pub fn set_members(&mut self, number: usize, names: MemberNames)
        ensures { self.new ≡ with_scopes self.old (record self.old.scopes
            { members = slice_set self.old.scopes.members number names }) }
    {
        if number < self.members.len() {
            self.members[number] = names;
        }
    }

    /// The place of a member of a struct or union by its name, counted from 0. Takes no memory.
    pub fn member(&self, number: usize, name: &[u8]) -> Option<usize>
        ensures { result ≡ place_among (members_named self.now.scopes number) name.now }
    {
        match self.members.get(number) {
            Some(names) => names.place(name),
            None => None,
        }
    }

    /// Whether a struct or union has members so far. Takes no memory.
    pub fn has_members(&self, number: usize) -> bool
        ensures { result ≡ not (is_empty (members_named self.now.scopes number)) }
    {
        match self.members.get(number) {
            Some(names) => names.is_some(),
            None => false,
        }
    }

    /// The allocator.
    pub fn alloc(&self) -> Global {
        self.alloc
    }

    /// The next node, which is then used up. None comes where 32 bits can number no more. Takes no memory.
    pub fn new_node(&mut self) -> Option<NodeId>
        ensures given { IfSome result (λ n. (n ≡ record { 0 = self.old.node })
            × (self.old.node < 4294967295)
            × (self.new ≡ record self.old { node = self.old.node + 1 })) }
        ensures none { result ≡ None → (4294967295 ≤ self.old.node) × (self.new ≡ self.old) }
    {
        if self.next_node == u32::MAX {
            return None;
        }
        let node = NodeId(self.next_node);
        self.next_node += 1;
        Some(node)
    }

    /// The number of the next node. Takes no memory.
    pub fn next_node(&self) -> u32
        ensures { result ≡ self.now.node }
    {
        self.next_node
    }

    /// Counts the bytes of a static object, and 16 more. The answer is false where more than 4,194,304 would be counted; then nothing
    /// is. Takes no memory.
    pub fn add_global(&mut self, bytes: u64) -> bool
        ensures fits { result ≡ nat_le (self.old.globals + (bytes + 16)) 4194304 }
        ensures counted { result ≡ true → self.new ≡ record self.old
            { globals = self.old.globals + (bytes + 16) } }
        ensures unchanged { result ≡ false → self.new ≡ self.old }
    {
        if bytes > MOST_GLOBALS - 16 || self.globals > MOST_GLOBALS - 16 - bytes {
            return false;
        }
        self.globals += bytes + 16;
        true
    }

    /// Counts pointers that the assignment of a struct moves. False comes exactly where the limit would be passed. Takes no memory.
    pub fn add_cells(&mut self, count: u64) -> bool
        ensures fits { result ≡ nat_le (self.old.cells + count) 65536 }
        ensures counted { result ≡ true → self.new ≡ record self.old
            { cells = self.old.cells + count } }
        ensures unchanged { result ≡ false → self.new ≡ self.old }
    {
        if count > MOST_CELLS || self.cells > MOST_CELLS - count {
            return false;
        }
        self.cells += count;
        true
    }
}
