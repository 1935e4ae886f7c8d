//! What a specifier makes by itself (C99 6.7.2): words, names of types, and tags.
#![tactic(auto)]

ghost use Rattle.std.specs.Prelude.{◌≡◌, ◌++◌, OnOk, IfOk, None, option_copied};
ghost use Rattle.c_types.specs.Table.{Table};
ghost use Rattle.c_tree.specs.TypedTree.{Typedef};
ghost use Rattle.c_tree.specs.TypedViews.{typed_specifier_view};
ghost use Rattle.c_typing.specs.Declarators.{Counted, Named, counting, named_by_specifier};
ghost use Rattle.c_typing.specs.Growing.{Grows};
ghost use Rattle.c_typing.specs.Judging.{Answers, State, known};
ghost use Rattle.c_typing.specs.Specifying as specifying;
ghost use Rattle.c_typing.specs.Tests as tests;
ghost use Rattle.c_typing.specs.Tests.{first_broken};
ghost use Rattle.c_typing.specs.Scopes.{name_in, tag_in, tag_here, with_scopes};
ghost use Rattle.c_typing.specs.Typing.{shape_of_kind, tagging, tag_named_here};

use crate::words::Words;
use c_tree::{AggregateKind, Identifier, TypedSpecifier, Word};
use c_types::{TypeShape, Types};
use c_typing::copies::{copied_name, copied_tag};
use c_typing::declared::{Declared, Tag};
use c_typing::scope::Scope;
use c_typing::stops::{no_room, refusal};
use c_typing::typing::type_with;
use cc_base::{Fault, NoMemory, Place, Rule, TypeId};

/// A storage word, a qualifier, or a word for a type.
#[tactic(auto, using(c_tree::proofs::TypedViewLaws::typed_views), unfolding(c_typing::specs::Specifying::word))]
pub fn word(before: &Words, w: Word) -> Result<(TypedSpecifier, Words), Fault>
    ensures answers { (s : State) → Answers (λ r. typed_specifier_view r.0)
        (specifying.word before.now w s) result s }
    ensures counts { IfOk result (λ r. r.1 ≡ counting (typed_specifier_view r.0) before.now) }
{
    match before.with_word(w.keyword) {
        Some(words) => Ok((TypedSpecifier::Keyword(w), words)),
        None => Err(refusal(w.place, Rule::Mismatch)),
    }
}

/// The type that a typedef gave a name.
#[tactic(auto, unfolding(c_typing::specs::Specifying::typedef_named))]
fn typedef_named(scope: &Scope, name: &Identifier) -> Result<TypeId, Fault>
    ensures { (s : State) → Answers (Typedef name.now) (specifying.typedef_named name.now
        (name_in scope.now.scopes.levels name.now.bytes) s) result s }
{
    match scope.name(name.bytes.as_slice()) {
        Some(Declared::Typedef(t)) => Ok(*t),
        _ => Err(no_room(name.place)),
    }
}

/// A name of a type.
#[tactic(auto, using(c_tree::proofs::TypedViewLaws::typed_views), unfolding(c_typing::specs::Specifying::typedef_name))]
pub fn typedef_name(
    scope: &Scope,
    types: &Types,
    before: &Words,
    name: &Identifier,
) -> Result<(TypedSpecifier, Words), Fault>
    ensures answers { Answers (λ r. typed_specifier_view r.0)
        (specifying.typedef_name before.now name.now (known types.now scope.now)) result
        (known types.now scope.now) }
    ensures counts { IfOk result (λ r. r.1 ≡ counting (typed_specifier_view r.0) before.now) }
{
    let _count = types.count();
    let Some(words) = before.with_name() else {
        return Err(refusal(name.place, Rule::Mismatch));
    };
    let t = typedef_named(scope, name)?;
    let name = copied_name(scope.alloc(), name)?;
    Ok((TypedSpecifier::Typedef(name, t), words))
}

fn shape_of_kind(which: AggregateKind, number: u32) -> TypeShape
    ensures { result ≡ shape_of_kind which number }
{
    match which {
        AggregateKind::Struct => TypeShape::Struct(number),
        AggregateKind::Union => TypeShape::Union(number),
    }
}

/// A tag is declared in the innermost scope, where there is one.
pub fn declare_tag_of(
    scope: &mut Scope,
    name: Option<&Identifier>,
    what: Tag,
) -> Result<(), NoMemory>
    requires { tag_named_here scope.old.scopes (option_copied name) ≡ None }
    ensures answers { OnOk result (scope.new ≡ with_scopes scope.old
        (tagging (option_copied name.entry) what scope.old.scopes)) }
    ensures grows { (table : Table) → Grows (known table scope.old) (known table scope.new) }
{
    match name {
        Some(name) => scope.declare_tag(name.bytes.as_slice(), what),
        None => Ok(()),
    }
}

/// A new struct or union, which is named at the place.
#[tactic(auto, unfolding(c_typing::specs::Specifying::new_aggregate, c_typing::specs::Operations::numbered))]
pub(crate) fn new_aggregate(
    scope: &mut Scope,
    types: &mut Types,
    which: AggregateKind,
    at: Place,
    name: Option<&Identifier>,
) -> Result<TypeId, Fault>
    requires { tag_named_here scope.old.scopes (option_copied name) ≡ None }
    ensures answers { Answers (λ t. t) (specifying.new_aggregate which at (option_copied name.entry)
        (known types.old scope.old)) result (known types.new scope.new) }
    ensures grows { Grows (known types.old scope.old) (known types.new scope.new) }
{
    let Ok(number) = u32::try_from(scope.aggregates()) else {
        return Err(no_room(at));
    };
    let t = type_with(scope, types, at, shape_of_kind(which, number))?;
    scope.new_aggregate()?;
    declare_tag_of(scope, name, Tag::Aggregate(which, t))?;
    Ok(t)
}

/// Whether a tag is one of this keyword.
pub(crate) fn is_tag_of(which: AggregateKind, tag: Tag) -> bool
    ensures { result ≡ tests.is_tag_of which tag }
{
    match tag {
        Tag::Aggregate(AggregateKind::Struct, _) => which == AggregateKind::Struct,
        Tag::Aggregate(AggregateKind::Union, _) => which == AggregateKind::Union,
        Tag::Enumeration => false,
        Tag::Enumerating => false,
    }
}

fn is_other_tag(which: AggregateKind, found: Option<&Tag>) -> bool
    ensures { result ≡ tests.is_other_tag (tests.is_tag_of which) (option_copied found.entry) }
{
    match found {
        Some(tag) => !is_tag_of(which, *tag),
        None => false,
    }
}

/// The rules of `struct S` and `union U`.
fn tag_fault(scope: &Scope, which: AggregateKind, name: &Identifier) -> Option<Fault>
    ensures { result ≡ first_broken (tests.tag_tests scope.now.scopes
        (tests.is_tag_of which) name.now.bytes name.now.place) }
{
    if is_other_tag(which, scope.tag_here(name.bytes.as_slice())) {
        return Some(refusal(name.place, Rule::Redeclared));
    }
    if is_other_tag(which, scope.tag(name.bytes.as_slice())) {
        return Some(refusal(name.place, Rule::Mismatch));
    }
    None
}

/// The type of a tag that is not declared as something else.
#[tactic(auto, unfolding(c_typing::specs::Specifying::tagged_as))]
fn tagged_as(
    scope: &mut Scope,
    types: &mut Types,
    which: AggregateKind,
    name: &Identifier,
    found: Option<Tag>,
) -> Result<TypeId, Fault>
    requires { found ≡ None → tag_here scope.old.scopes.levels name.now.bytes ≡ None }
    ensures answers { Answers (λ t. t) (specifying.tagged_as which name.now found
        (known types.old scope.old)) result (known types.new scope.new) }
    ensures grows { Grows (known types.old scope.old) (known types.new scope.new) }
{
    match found {
        Some(Tag::Aggregate(_, t)) => Ok(t),
        Some(Tag::Enumeration) => Err(no_room(name.place)),
        Some(Tag::Enumerating) => Err(no_room(name.place)),
        None => new_aggregate(scope, types, which, name.place, Some(name)),
    }
}

/// `struct S`, `union U`: the tag that is seen, or a new one in the innermost scope.
#[tactic(auto, using(c_tree::proofs::TypedViewLaws::typed_views, crate::proofs::TagLaws::not_here), unfolding(c_typing::specs::Specifying::tagged, c_typing::specs::Specifying::tagged_by))]
pub fn tagged(
    scope: &mut Scope,
    types: &mut Types,
    before: &Words,
    which: AggregateKind,
    at: Place,
    name: &Identifier,
) -> Result<(TypedSpecifier, Words), Fault>
    ensures answers { Answers (λ r. typed_specifier_view r.0)
        (specifying.tagged before.now which at name.now (known types.old scope.old)) result
        (known types.new scope.new) }
    ensures counts { IfOk result (λ r. r.1 ≡ counting (typed_specifier_view r.0) before.now) }
    ensures grows { Grows (known types.old scope.old) (known types.new scope.new) }
{
    if let Some(fault) = tag_fault(scope, which, name) {
        return Err(fault);
    }
    let Some(words) = before.with_name() else {
        return Err(refusal(at, Rule::Mismatch));
    };
    let found = scope.tag(name.bytes.as_slice()).copied();
    let t = tagged_as(scope, types, which, name, found)?;
    let name = copied_name(scope.alloc(), name)?;
    Ok((TypedSpecifier::Tagged(which, at, name, t), words))
}

/// `struct S` by itself declares its tag in the innermost scope. Its type comes beside it, which is that of the list.
#[tactic(auto, using(c_tree::proofs::TypedViewLaws::typed_views), unfolding(c_typing::specs::Specifying::tagged_alone, c_typing::specs::Specifying::tagged_by))]
pub fn tagged_alone(
    scope: &mut Scope,
    types: &mut Types,
    which: AggregateKind,
    at: Place,
    name: &Identifier,
) -> Result<(TypedSpecifier, TypeId), Fault>
    ensures answers { Answers (λ r. typed_specifier_view r.0)
        (specifying.tagged_alone which at name.now (known types.old scope.old)) result
        (known types.new scope.new) }
    ensures listed { IfOk result (λ r. (named : Named) (words : Counted)
        → specifying.listed_type (named_by_specifier (typed_specifier_view r.0) named) words
        ≡ r.1) }
    ensures grows { Grows (known types.old scope.old) (known types.new scope.new) }
{
    if is_other_tag(which, scope.tag_here(name.bytes.as_slice())) {
        return Err(refusal(name.place, Rule::Redeclared));
    }
    let found = scope.tag_here(name.bytes.as_slice()).copied();
    let t = tagged_as(scope, types, which, name, found)?;
    let name = copied_name(scope.alloc(), name)?;
    Ok((TypedSpecifier::Tagged(which, at, name, t), t))
}

/// Whether there is no tag, or one of an enumeration whose list goes on.
fn lacks_enumeration(found: Option<&Tag>) -> bool
    ensures { result ≡ tests.lacks_enumeration (option_copied found.entry) }
{
    match found {
        None => true,
        Some(Tag::Enumerating) => true,
        Some(_) => false,
    }
}

/// Whether a tag stands for something else than a complete enumeration.
fn is_no_enumeration(found: Option<&Tag>) -> bool
    ensures { result ≡ tests.is_other_tag tests.is_enumeration (option_copied found.entry) }
{
    match found {
        None => false,
        Some(Tag::Enumeration) => false,
        Some(_) => true,
    }
}

/// The rules of `enum E` without a list.
fn enum_fault(scope: &Scope, name: &Identifier) -> Option<Fault>
    ensures { result ≡ first_broken (tests.enum_tests scope.now.scopes name.now.bytes
        name.now.place) }
{
    if lacks_enumeration(scope.tag(name.bytes.as_slice())) {
        return Some(refusal(name.place, Rule::UnknownName));
    }
    if is_no_enumeration(scope.tag_here(name.bytes.as_slice())) {
        return Some(refusal(name.place, Rule::Redeclared));
    }
    if is_no_enumeration(scope.tag(name.bytes.as_slice())) {
        return Some(refusal(name.place, Rule::Mismatch));
    }
    None
}

/// `enum E`.
#[tactic(auto, using(c_tree::proofs::TypedViewLaws::typed_views), unfolding(c_typing::specs::Specifying::enum_tag))]
pub fn enum_named(
    scope: &Scope,
    types: &Types,
    before: &Words,
    at: Place,
    name: &Identifier,
) -> Result<(TypedSpecifier, Words), Fault>
    ensures answers { Answers (λ r. typed_specifier_view r.0)
        (specifying.enum_tag before.now at name.now (known types.now scope.now)) result
        (known types.now scope.now) }
    ensures counts { IfOk result (λ r. r.1 ≡ counting (typed_specifier_view r.0) before.now) }
{
    let _count = types.count();
    if let Some(fault) = enum_fault(scope, name) {
        return Err(fault);
    }
    let Some(words) = before.with_name() else {
        return Err(refusal(at, Rule::Mismatch));
    };
    let name = copied_name(scope.alloc(), name)?;
    Ok((TypedSpecifier::Enum(at, name), words))
}
