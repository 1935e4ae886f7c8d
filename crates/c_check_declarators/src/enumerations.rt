//! Enumerations with their enumerators (C99 6.7.2.2).
#![tactic(auto)]

ghost use Rattle.std.specs.Prelude.{◌≡◌, OnOk, option_copied, true};
ghost use Rattle.c_types.specs.Table.{Table};
ghost use Rattle.c_typing.specs.Growing.{Grows};
ghost use Rattle.c_typing.specs.Judging.{Answers, known};
ghost use Rattle.c_typing.specs.Scopes.{with_scopes};
ghost use Rattle.c_typing.specs.Specifying as specifying;
ghost use Rattle.c_typing.specs.Typing.{enumerated, is_taken_enumeration};

use crate::aggregates::tag_named_here;
use crate::specifying::declare_tag_of;
use c_tree::Identifier;
use c_typing::declared::Tag;
use c_typing::scope::Scope;
use cc_base::{Fault, NoMemory};

/// Whether an enumeration cannot end with this tag: it stands for something else, or for an enumeration that is complete.
pub fn is_taken_enumeration(found: Option<Tag>) -> bool
    ensures { result ≡ is_taken_enumeration found }
{
    match found {
        None => false,
        Some(Tag::Enumerating) => false,
        Some(_) => true,
    }
}

/// `enum E { .. }` begins: its tag is declared, unless the innermost scope has it.
#[tactic(auto, unfolding(c_typing::specs::Specifying::enumeration_begun))]
pub fn enumeration_begun(scope: &mut Scope, name: Option<&Identifier>) -> Result<(), Fault>
    ensures answers { (table : Table) → Answers (λ u. true) (specifying.enumeration_begun
        (option_copied name.entry) (known table scope.old)) result (known table scope.new) }
    ensures grows { (table : Table) → Grows (known table scope.old) (known table scope.new) }
{
    if tag_named_here(scope, name).is_some() {
        return Ok(());
    }
    declare_tag_of(scope, name, Tag::Enumerating)?;
    Ok(())
}

/// It ends: from here on its tag is complete.
pub fn enumeration_ended(scope: &mut Scope, name: Option<&Identifier>) -> Result<(), NoMemory>
    ensures answers { OnOk result (scope.new ≡ with_scopes scope.old
        (enumerated (option_copied name.entry) scope.old.scopes)) }
    ensures grows { (table : Table) → Grows (known table scope.old) (known table scope.new) }
{
    match name {
        Some(name) => scope.set_tag(name.bytes.as_slice(), Tag::Enumeration),
        None => Ok(()),
    }
}
