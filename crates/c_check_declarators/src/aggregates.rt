//! Structs and unions with their members (C99 6.7.2.1).
#![tactic(auto)]

ghost use Rattle.std.specs.Prelude.{◌≡◌, not, ◌&&◌, ◌++◌, IfOk, OnOk, map, nat_lt, length, option_copied};
ghost use Rattle.std.specs.List.{list_all};
ghost use Rattle.c_types.specs.Table.{shape_at, is_complete, entry_at};
ghost use Rattle.c_tree.specs.TypedTree as typed;
ghost use Rattle.c_tree.specs.TypedTree.{NoMember};
ghost use Rattle.c_tree.specs.TypedViews.{typed_declarator_view, typed_members_view, typed_member_declarators_of};
ghost use Rattle.c_tree.specs.Views.{added};
ghost use Rattle.c_typing.specs.Declarators.{declarator_types, member_names, member_types};
ghost use Rattle.c_typing.specs.Growing.{Grows};
ghost use Rattle.c_typing.specs.Judging.{Answers, known};
ghost use Rattle.c_typing.specs.Refusals.{is_empty_row, one_named, tag_place};
ghost use Rattle.c_typing.specs.Rules.{number_of_shape};
ghost use Rattle.c_typing.specs.Scopes.{with_scopes};
ghost use Rattle.c_typing.specs.Specifying as specifying;
ghost use Rattle.c_typing.specs.Tests as tests;
ghost use Rattle.c_typing.specs.Tests.{first_broken};
ghost use Rattle.c_typing.specs.Typing.{tag_named_here};

use crate::specifying::{is_tag_of, new_aggregate};
use crate::words::Words;
use c_tree::{AggregateKind, Identifier, TypedDeclarator, TypedMembers};
use c_types::{TypeFault, TypeShape, Types};
use c_typing::declared::Tag;
use c_typing::member::MemberNames;
use c_typing::scope::Scope;
use c_typing::shapes::{is_aggregate, is_complete_at, shape_at};
use c_typing::stops::{no_room, refusal};
use cc_base::{Fault, NoMemory, Place, Rule, TypeId};

/// The tag, or the keyword where there is none.
pub fn tag_place(at: Place, name: Option<&Identifier>) -> Place
    ensures { result ≡ tag_place at (option_copied name.entry) }
{
    match name {
        Some(name) => name.place,
        None => at,
    }
}

/// What the innermost scope declares a tag as, where there is a tag.
pub fn tag_named_here(scope: &Scope, name: Option<&Identifier>) -> Option<Tag>
    ensures { result ≡ tag_named_here scope.now.scopes (option_copied name.entry) }
{
    match name {
        Some(name) => scope.tag_here(name.bytes.as_slice()).copied(),
        None => None,
    }
}

/// Whether the innermost scope has the tag as something else, or complete.
fn is_taken_tag(scope: &Scope, types: &Types, which: AggregateKind, found: Option<Tag>) -> bool
    ensures { result ≡ tests.is_taken_tag types.now scope.now.scopes which found }
{
    match found {
        None => false,
        Some(Tag::Enumeration) => true,
        Some(Tag::Enumerating) => true,
        Some(Tag::Aggregate(kind, t)) => {
            !is_tag_of(which, Tag::Aggregate(kind, t)) || is_complete_at(scope, types, t)
        }
    }
}

/// `struct S { .. }` begins: with its type, or with none where the innermost scope has its tag as something else, or complete.
#[tactic(auto, unfolding(c_typing::specs::Specifying::begun, c_typing::specs::Specifying::begun_as))]
pub fn begun(
    scope: &mut Scope,
    types: &mut Types,
    which: AggregateKind,
    at: Place,
    name: Option<&Identifier>,
) -> Result<Option<TypeId>, Fault>
    ensures answers { Answers (λ t. t) (specifying.begun which at (option_copied name.entry)
        (known types.old scope.old)) result (known types.new scope.new) }
    ensures grows { Grows (known types.old scope.old) (known types.new scope.new) }
{
    let found = tag_named_here(scope, name);
    if is_taken_tag(scope, types, which, found) {
        return Ok(None);
    }
    match found {
        Some(Tag::Aggregate(_, t)) => Ok(Some(t)),
        Some(Tag::Enumeration) => Ok(None),
        Some(Tag::Enumerating) => Ok(None),
        None => {
            let place = tag_place(at, name);
            Ok(Some(new_aggregate(scope, types, which, place, name)?))
        }
    }
}

/// Whether it cannot end: it did not begin, or its own members complete it.
fn is_taken_at_end(scope: &Scope, types: &Types, begun: Option<TypeId>) -> bool
    ensures { result ≡ specifying.is_taken_at_end (known types.now scope.now) begun }
{
    match begun {
        Some(t) => is_complete_at(scope, types, t),
        None => true,
    }
}

/// The rules of a struct or union, after its members.
fn aggregate_fault(
    scope: &Scope,
    types: &Types,
    place: Place,
    begun: Option<TypeId>,
    is_empty: bool,
) -> Option<Fault>
    ensures { result ≡ first_broken (tests.aggregate_tests
        (specifying.is_taken_at_end (known types.now scope.now) begun) place is_empty) }
{
    if is_taken_at_end(scope, types, begun) {
        return Some(refusal(place, Rule::Redeclared));
    }
    if is_empty {
        return Some(refusal(place, Rule::Mismatch));
    }
    None
}

/// Whether all of them are complete in the table.
fn are_complete(types: &Types, members: &[TypeId]) -> bool
    ensures { result ≡ list_all (λ m. nat_lt m.0 (length types.now) && is_complete
        (entry_at types.now m)) members.now }
{
    let count = types.count();
    members.iter().all(|m| m.0 < count && types.is_complete(*m))
}

/// Whether the table can give a type these members.
fn is_definable(types: &Types, t: TypeId, members: &[TypeId]) -> bool
    ensures { result ≡ specifying.is_definable types.now t members.now }
{
    t.0 < types.count()
        && is_aggregate(shape_at(types, t))
        && types.fields(t) == 0
        && !members.is_empty()
        && are_complete(types, members)
}

/// Gives a struct or union its members.
#[tactic(auto, unfolding(c_typing::specs::Specifying::defined))]
fn defined(
    scope: &Scope,
    types: &mut Types,
    at: Place,
    t: TypeId,
    members: Vec<TypeId>,
) -> Result<TypeId, Fault>
    ensures answers { Answers (λ t. t) (specifying.defined at t members.items
        (known types.old scope.now)) result (known types.new scope.now) }
    ensures grows { Grows (known types.old scope.now) (known types.new scope.now) }
{
    if !is_definable(types, t, &members) {
        return Err(no_room(at));
    }
    match types.define(t, members) {
        Ok(()) => Ok(t),
        Err(TypeFault::TooLarge(limit)) => Err(Fault::TooLarge { place: at, limit }),
        Err(TypeFault::NoMemory) => Err(Fault::NoMemory),
    }
}

/// From here on the struct or union is complete.
#[tactic(auto, using(c_typing::proofs::GrowingLaws::grown))]
fn complete(scope: &mut Scope, types: &Types, t: TypeId, names: MemberNames)
    ensures answers { scope.new ≡ with_scopes scope.old (specifying.completing
        (number_of_shape (shape_at types.now t)) names scope.old.scopes) }
    ensures grows { Grows (known types.now scope.old) (known types.now scope.new) }
{
    match shape_at(types, t) {
        Some(TypeShape::Struct(number) | TypeShape::Union(number)) => {
            scope.set_members(*number as usize, names)
        }
        _ => {}
    }
}

/// The types of the members of a row, behind those before it.
fn push_row_types(types: &mut Vec<TypeId>, row: &[TypedDeclarator]) -> Result<(), NoMemory>
    ensures { OnOk result (types.new.items ≡ types.old.items ++ declarator_types
        (typed_member_declarators_of (map typed_declarator_view row.now))) }
{
    for d in row {
        types.push(d.ty)?;
    }
    Ok(())
}

/// The types of members, in the order of their declarations.
fn member_types(scope: &Scope, rows: &[TypedMembers]) -> Result<Vec<TypeId>, NoMemory>
    ensures { IfOk result (λ types. types.items
        ≡ member_types (added NoMember (map typed_members_view rows.now))) }
{
    let mut types = Vec::new(scope.alloc());
    for row in rows {
        push_row_types(&mut types, row.declarators.as_slice())?;
    }
    Ok(types)
}

/// Whether it is a row, as each is.
#[tactic(auto, using(c_tree::proofs::TypedViewLaws::typed_views))]
fn is_some_row(row: &TypedMembers) -> bool
    ensures { (all : typed.TypedMembers) → is_empty_row (typed_members_view row.now all)
        ≡ not result }
{
    let _declarators = row.declarators.is_empty();
    true
}

/// Whether there are no rows.
#[tactic(auto, using(c_tree::proofs::PushLaws::pushes))]
fn is_empty_row(rows: &[TypedMembers]) -> bool
    ensures { result ≡ is_empty_row (added NoMember (map typed_members_view rows.now)) }
{
    match rows.split_last() {
        Some((last, _)) => !is_some_row(last),
        None => true,
    }
}

/// The struct or union gets its members, where it began.
#[tactic(auto, unfolding(c_typing::specs::Specifying::completed))]
fn completed(
    scope: &mut Scope,
    types: &mut Types,
    at: Place,
    rows: &[TypedMembers],
    names: MemberNames,
    begun: Option<TypeId>,
) -> Result<TypeId, Fault>
    requires { names ≡ member_names (added NoMember (map typed_members_view rows.now)) }
    ensures answers { Answers (λ t. t) (specifying.completed at
        (added NoMember (map typed_members_view rows.now)) begun (known types.old scope.old)) result
        (known types.new scope.new) }
    ensures grows { Grows (known types.old scope.old) (known types.new scope.new) }
{
    let Some(t) = begun else {
        return Err(no_room(at));
    };
    let members = member_types(scope, rows)?;
    let t = defined(scope, types, at, t, members)?;
    complete(scope, types, t, names);
    Ok(t)
}

/// `struct S { .. }` ends, with the words and names that stand before it and itself.
#[tactic(auto, unfolding(c_typing::specs::Specifying::ended))]
pub fn ended(
    scope: &mut Scope,
    types: &mut Types,
    before: &Words,
    at: Place,
    name: Option<&Identifier>,
    begun: Option<TypeId>,
    rows: &[TypedMembers],
    names: MemberNames,
) -> Result<(TypeId, Words), Fault>
    requires { names ≡ member_names (added NoMember (map typed_members_view rows.now)) }
    ensures answers { (which : AggregateKind) (brace : Place)
        → let members = added NoMember (map typed_members_view rows.now) in Answers
        (λ r. typed.Aggregate which at (option_copied name.entry) brace members r.0)
        (specifying.ended before.now which at (option_copied name.entry) brace begun members
        (known types.old scope.old)) result (known types.new scope.new) }
    ensures counts { IfOk result (λ r. r.1 ≡ one_named before.now) }
    ensures grows { Grows (known types.old scope.old) (known types.new scope.new) }
{
    let place = tag_place(at, name);
    if let Some(fault) = aggregate_fault(scope, types, place, begun, is_empty_row(rows)) {
        return Err(fault);
    }
    let Some(words) = before.with_name() else {
        return Err(refusal(at, Rule::Mismatch));
    };
    let t = completed(scope, types, place, rows, names, begun)?;
    Ok((t, words))
}
