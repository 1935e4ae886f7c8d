//! Names that declarations give a meaning (C99 6.2.1, 6.2.2).
#![tactic(auto)]

ghost use Rattle.std.specs.Prelude.{◌≡◌, OnOk, option_copied};
ghost use Rattle.c_typing.specs.Scopes.{here, with_scopes, entry_of};
ghost use Rattle.c_check_context.specs.ContextViews.{state_of};
ghost use Rattle.c_unit_typing.specs.Units.{unless_here, unless_linked};
ghost use Rattle.c_unit_typing.specs.Initialisers.{with_home};
ghost use Rattle.c_unit_typing.specs.UnitJudging.{Answers};
ghost use Rattle.c_unit_typing.specs.DeclarationJudging as judging;

use crate::context::Context;
use crate::linkage::Linkage;
use c_tree::Identifier;
use c_typing::stops::no_room;
use c_typing::{Declared, Scope};
use cc_base::{Fault, NoMemory, NodeId};
use std::alloc::Global;

/// Declares a name in the innermost scope, unless that has it.
fn declare_unless_here(scope: &mut Scope, name: &[u8], what: Declared) -> Result<(), NoMemory>
    ensures { OnOk result (scope.new ≡ with_scopes scope.old
        (unless_here (here scope.old.scopes.levels name.now) name.now what scope.old.scopes)) }
{
    match scope.here(name) {
        Some(_) => Ok(()),
        None => scope.declare(name, what),
    }
}

/// Adds the first declaration of a name with linkage.
fn link_unless_linked(
    linkage: &mut Linkage,
    alloc: Global,
    name: &[u8],
    what: Declared,
) -> Result<(), NoMemory>
    ensures { OnOk result (linkage.new ≡ record linkage.old {
      linked = unless_linked (entry_of linkage.old.linked name.now) name.now what
          linkage.old.linked;
    }) }
{
    match linkage.linked.of(name) {
        Some(_) => Ok(()),
        None => linkage.linked.add(alloc, name, what),
    }
}

impl Context {
    /// The first declaration with linkage of what a declarator names.
    pub fn first_linked(&self, name: Option<&Identifier>) -> Option<&Declared>
        ensures { option_copied result ≡ judging.linked_first self.now.linkage.linked
            (option_copied name.entry) }
    {
        match name {
            Some(name) => self.linkage.linked.of(name.bytes.as_slice()),
            None => None,
        }
    }

    /// A name that the innermost scope does not have.
    #[tactic(auto, unfolding(c_unit_typing::specs::DeclarationJudging::new_name))]
    pub fn new_name(&mut self, name: &Identifier, what: Declared) -> Result<(), Fault>
        ensures { Answers (λ u. what) (judging.new_name name.now what (state_of self.old)) result
            (state_of self.new) }
    {
        if self.scope.here(name.bytes.as_slice()).is_some() {
            return Err(no_room(name.place));
        }
        self.scope.declare(name.bytes.as_slice(), what)?;
        Ok(())
    }

    /// A name with linkage: its first declaration stays, in its scope and everywhere.
    #[tactic(auto, unfolding(c_unit_typing::specs::DeclarationJudging::linked_name))]
    pub fn linked_name(&mut self, name: &Identifier, what: Declared) -> Result<(), Fault>
        ensures { Answers (λ u. what) (judging.linked_name name.now what (state_of self.old)) result
            (state_of self.new) }
    {
        let alloc = self.scope.alloc();
        declare_unless_here(&mut self.scope, name.bytes.as_slice(), what)?;
        link_unless_linked(&mut self.linkage, alloc, name.bytes.as_slice(), what)?;
        Ok(())
    }

    /// The name of an object.
    #[tactic(auto, unfolding(c_unit_typing::specs::DeclarationJudging::object_name))]
    pub(crate) fn object_name(
        &mut self,
        linked: bool,
        name: &Identifier,
        what: Declared,
    ) -> Result<(), Fault>
        ensures { Answers (λ u. what) (judging.object_name linked name.now what (state_of self.old))
            result (state_of self.new) }
    {
        if linked {
            self.linked_name(name, what)
        } else {
            self.new_name(name, what)
        }
    }

    /// The home of an object that lives as long as the program.
    #[tactic(auto, unfolding(c_unit_typing::specs::DeclarationJudging::lasting))]
    pub(crate) fn lasting(&mut self, home: NodeId) -> Result<(), Fault>
        ensures { Answers (λ u. home) (judging.lasting home (state_of self.old)) result
            (state_of self.new) }
    {
        self.linkage.statics.add(home)?;
        Ok(())
    }
}
