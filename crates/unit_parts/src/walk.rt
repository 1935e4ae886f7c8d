//! What expressions, specifiers and declarators make and ask.
ghost use Rattle.std.specs.Prelude.{◌≡◌, [], ◌∷◌, map, option_map};
ghost use Rattle.c_tree.specs.Views.{added};
ghost use Rattle.c_tree.specs.TypedTree as typed;
ghost use Rattle.c_tree.specs.TypedParts.{made_by, made_by_arguments, made_by_core, made_by_declarator, made_by_declared, made_by_enumerators, made_by_form, made_by_member_declarators, made_by_members, made_by_parameters, made_by_parts, made_by_place, made_by_specifier, made_by_specifier_list, made_by_specifiers, made_by_type_name};
ghost use Rattle.c_tree.specs.TypedViews.{typed_arguments_of, typed_core_view, typed_declarator_view, typed_declared_of, typed_enumerator_view, typed_expr_view, typed_form_view, typed_member_declarators_of, typed_members_view, typed_parameter_view, typed_part_view, typed_place_view, typed_specifier_view, typed_specifiers_of, typed_specifiers_view, typed_type_name_view};
ghost use Rattle.src_machine.specs.Pieces.{pieces_of, pieces_of_arguments, pieces_of_core, pieces_of_declarator, pieces_of_declared, pieces_of_enumerators, pieces_of_form, pieces_of_member_declarators, pieces_of_members, pieces_of_parameters, pieces_of_parts, pieces_of_place, pieces_of_specifier, pieces_of_specifier_list, pieces_of_specifiers, pieces_of_type_name};
ghost use Rattle.unit_parts.specs.declared.collected.Collected.{Collected as Seen};
ghost use Rattle.unit_parts.specs.Collecting.{Collects};

use crate::asking::{
    address_at, ask_aggregate, ask_comparison, ask_conversion, ask_link, ask_links, ask_member,
    ask_member_at, ask_move, ask_move_of_pointer, ask_moves, named_type, pointer_type,
};
use crate::collected::{Collected, Scope};
use crate::literals::{count, forget, keep, put_literal, put_name};
use c_tree::{
    TypedCore, TypedDeclarator, TypedEnumerator, TypedExpr, TypedForm, TypedMembers,
    TypedParameter, TypedPart, TypedPlace, TypedSpecifier, TypedSpecifiers, TypedTypeName,
};
use cc_base::TypeId;

/// Arguments in order.
#[cycle(collecting)]
fn arguments(out: &mut Collected, k: &Scope<'_>, all: &[TypedExpr])
    ensures { Collects k.now.types.now (made_by_arguments
        (typed_arguments_of (map typed_expr_view all.now)))
        (pieces_of_arguments (typed_arguments_of (map typed_expr_view all.now))) out.old out.new }
{
    for e in all {
        expr(out, k, e)
    }
}

/// The name of a runtime function that is called, which asks nothing.
#[cycle(collecting)]
fn callee(out: &mut Collected, k: &Scope<'_>, f: &TypedExpr)
    ensures { Collects k.now.types.now (made_by (typed_expr_view f.now)) [] out.old out.new }
{
    let kept = count(out);
    expr(out, k, f);
    forget(out, kept)
}

/// An expression.
#[cycle(collecting)]
pub fn expr(out: &mut Collected, k: &Scope<'_>, e: &TypedExpr)
    ensures { Collects k.now.types.now (made_by (typed_expr_view e.now))
        (pieces_of (typed_expr_view e.now)) out.old out.new }
{
    match e {
        TypedExpr::Integer(_, _, _, _) => keep(out, k),
        TypedExpr::Character(_, _, _) => keep(out, k),
        TypedExpr::Enumerator(_, _, _) => keep(out, k),
        TypedExpr::FunctionName(_, _, _, _) => keep(out, k),
        TypedExpr::RuntimeName(_, _, _) => keep(out, k),
        TypedExpr::Paren(_, e) => {
            let e = e.get();
            expr(out, k, e)
        }
        TypedExpr::Read(p) => {
            let p = p.get();
            place(out, k, p)
        }
        TypedExpr::Unread(p) => {
            let p = p.get();
            place(out, k, p)
        }
        TypedExpr::Decay(p, node, _) => {
            let p = p.get();
            place(out, k, p);
            ask_link(out, k, *node, p)
        }
        TypedExpr::Convert(which, at, t, e) => {
            let e = e.get();
            expr(out, k, e);
            ask_conversion(out, k, *which, *at, e.ty(), *t)
        }
        TypedExpr::Cast(which, at, to, e) => {
            let to = to.get();
            let e = e.get();
            type_name(out, k, to);
            expr(out, k, e);
            ask_conversion(out, k, *which, *at, e.ty(), named_type(to))
        }
        TypedExpr::AddressOf(_, p, node, _) => {
            let p = p.get();
            place(out, k, p);
            ask_link(out, k, *node, p)
        }
        TypedExpr::AddressOfElement(_, p, _) => {
            let p = p.get();
            place(out, k, p)
        }
        TypedExpr::AddressOfFunction(_, e) => {
            let e = e.get();
            expr(out, k, e)
        }
        TypedExpr::FunctionAt(_, e) => {
            let e = e.get();
            expr(out, k, e)
        }
        TypedExpr::Prefix(_, _, e, _) => {
            let e = e.get();
            expr(out, k, e)
        }
        TypedExpr::SizeOfPlace(_, p, _, _) => {
            let p = p.get();
            place(out, k, p)
        }
        TypedExpr::SizeOfValue(_, e, _, _) => {
            let e = e.get();
            expr(out, k, e)
        }
        TypedExpr::SizeOfType(_, _, to, _, _) => {
            let to = to.get();
            type_name(out, k, to)
        }
        TypedExpr::StepBefore(_, at, p) => {
            let p = p.get();
            place(out, k, p);
            ask_move_of_pointer(out, k, p.ty(), *at)
        }
        TypedExpr::StepAfter(p, _, at) => {
            let p = p.get();
            place(out, k, p);
            ask_move_of_pointer(out, k, p.ty(), *at)
        }
        TypedExpr::Arithmetic(_, a, _, b, _) => {
            let a = a.get();
            let b = b.get();
            expr(out, k, a);
            expr(out, k, b)
        }
        TypedExpr::Moved(_, which, a, at, b, _) => {
            let a = a.get();
            let b = b.get();
            expr(out, k, a);
            expr(out, k, b);
            ask_move(out, k, pointer_type(*which, a, b), *at)
        }
        TypedExpr::Difference(a, at, b, _) => {
            let a = a.get();
            let b = b.get();
            expr(out, k, a);
            expr(out, k, b);
            ask_moves(out, k, a.ty(), b.ty(), *at)
        }
        TypedExpr::Compared(operator, a, at, b, _) => {
            let a = a.get();
            let b = b.get();
            expr(out, k, a);
            expr(out, k, b);
            ask_comparison(out, k, *operator, *at, a.ty(), b.ty())
        }
        TypedExpr::Logical(_, a, _, b, _) => {
            let a = a.get();
            let b = b.get();
            expr(out, k, a);
            expr(out, k, b)
        }
        TypedExpr::Conditional(c, _, a, b, _) => {
            let c = c.get();
            let a = a.get();
            let b = b.get();
            expr(out, k, c);
            expr(out, k, a);
            expr(out, k, b)
        }
        TypedExpr::PointerConditional(c, _, a, b, _, _) => {
            let c = c.get();
            let a = a.get();
            let b = b.get();
            expr(out, k, c);
            expr(out, k, a);
            expr(out, k, b)
        }
        TypedExpr::Comma(a, b) => {
            let a = a.get();
            let b = b.get();
            expr(out, k, a);
            expr(out, k, b)
        }
        TypedExpr::Assign(p, _, e) => {
            let p = p.get();
            let e = e.get();
            place(out, k, p);
            expr(out, k, e)
        }
        TypedExpr::AssignWith(_, p, at, e, _) => {
            let p = p.get();
            let e = e.get();
            place(out, k, p);
            expr(out, k, e);
            ask_move_of_pointer(out, k, p.ty(), *at)
        }
        TypedExpr::Call(f, _, all, _) => {
            let f = f.get();
            let all = all.as_slice();
            expr(out, k, f);
            arguments(out, k, all)
        }
        TypedExpr::CallRuntime(_, f, _, all, _) => {
            let f = f.get();
            let all = all.as_slice();
            callee(out, k, f);
            arguments(out, k, all)
        }
        TypedExpr::Allocate(_, f, _, all, _, _) => {
            let f = f.get();
            let all = all.as_slice();
            callee(out, k, f);
            arguments(out, k, all)
        }
        TypedExpr::AllocateFor(_, f, _, all, _) => {
            let f = f.get();
            let all = all.as_slice();
            callee(out, k, f);
            arguments(out, k, all)
        }
    }
}

/// A place.
#[cycle(collecting)]
pub fn place(out: &mut Collected, k: &Scope<'_>, p: &TypedPlace)
    ensures { Collects k.now.types.now (made_by_place (typed_place_view p.now))
        (pieces_of_place (typed_place_view p.now)) out.old out.new }
{
    match p {
        TypedPlace::Variable(_, _, _) => keep(out, k),
        TypedPlace::String(pieces, home, t) => put_literal(out, k, pieces.as_slice(), *home, *t),
        TypedPlace::ParenPlace(_, p) => {
            let p = p.get();
            place(out, k, p)
        }
        TypedPlace::Target(_, e, _) => {
            let e = e.get();
            expr(out, k, e)
        }
        TypedPlace::Element(which, a, at, b, _) => {
            let a = a.get();
            let b = b.get();
            expr(out, k, a);
            expr(out, k, b);
            ask_move(out, k, pointer_type(*which, a, b), *at)
        }
        TypedPlace::Member(p, _, _, _, node, t) => {
            let p = p.get();
            place(out, k, p);
            ask_member(out, k, *node, *t, p)
        }
        TypedPlace::MemberAt(e, _, _, _, node, t) => {
            let e = e.get();
            expr(out, k, e);
            ask_member_at(out, k, *node, *t, e.ty())
        }
        TypedPlace::StructAssign(p, _, q) => {
            let p = p.get();
            let q = q.get();
            place(out, k, p);
            place(out, k, q);
            ask_links(out, k, address_at(k, p), q)
        }
        TypedPlace::StructConditional(c, _, p, q) => {
            let c = c.get();
            let p = p.get();
            let q = q.get();
            expr(out, k, c);
            place(out, k, p);
            place(out, k, q);
            ask_link(out, k, address_at(k, p), q)
        }
        TypedPlace::StructComma(e, p) => {
            let e = e.get();
            let p = p.get();
            expr(out, k, e);
            place(out, k, p)
        }
    }
}

/// The name of a type.
#[cycle(collecting)]
fn type_name(out: &mut Collected, k: &Scope<'_>, one: &TypedTypeName)
    ensures { Collects k.now.types.now (made_by_type_name (typed_type_name_view one.now))
        (pieces_of_type_name (typed_type_name_view one.now)) out.old out.new }
{
    specifiers(out, k, &one.specifiers);
    declared(out, k, &one.declarator, one.ty)
}

/// Specifiers.
#[cycle(collecting)]
pub fn specifiers(out: &mut Collected, k: &Scope<'_>, one: &TypedSpecifiers)
    ensures { Collects k.now.types.now (made_by_specifiers (typed_specifiers_view one.now))
        (pieces_of_specifiers (typed_specifiers_view one.now)) out.old out.new }
{
    specifier_list(out, k, one.list.as_slice())
}

#[cycle(collecting)]
fn specifier_list(out: &mut Collected, k: &Scope<'_>, all: &[TypedSpecifier])
    ensures { Collects k.now.types.now (made_by_specifier_list
        (typed_specifiers_of (map typed_specifier_view all.now)))
        (pieces_of_specifier_list (typed_specifiers_of (map typed_specifier_view all.now))) out.old
        out.new }
{
    for one in all {
        specifier(out, k, one)
    }
}

#[cycle(collecting)]
fn specifier(out: &mut Collected, k: &Scope<'_>, one: &TypedSpecifier)
    ensures { Collects k.now.types.now (made_by_specifier (typed_specifier_view one.now))
        (pieces_of_specifier (typed_specifier_view one.now)) out.old out.new }
{
    match one {
        TypedSpecifier::Keyword(_) => keep(out, k),
        TypedSpecifier::Typedef(_, _) => keep(out, k),
        TypedSpecifier::Tagged(_, _, _, _) => keep(out, k),
        TypedSpecifier::Aggregate(kind, at, _, _, rows, t) => {
            member_rows(out, k, rows.as_slice());
            ask_aggregate(out, *kind, *at, *t)
        }
        TypedSpecifier::Enum(_, _) => keep(out, k),
        TypedSpecifier::Enumeration(_, _, _, all, _) => enumerators(out, k, all.as_slice()),
    }
}

#[cycle(collecting)]
fn member_rows(out: &mut Collected, k: &Scope<'_>, all: &[TypedMembers])
    ensures { Collects k.now.types.now (made_by_members (added typed.NoMember
        (map typed_members_view all.now))) (pieces_of_members
        (added typed.NoMember (map typed_members_view all.now))) out.old out.new }
{
    for row in all {
        member_row(out, k, row)
    }
}

/// A row of members behind others.
#[cycle(collecting)]
fn member_row(out: &mut Collected, k: &Scope<'_>, row: &TypedMembers)
    ensures { (all : typed.TypedMembers) (start : Seen) → Collects k.now.types.now
        (made_by_members all) (pieces_of_members all) start out.old
        → Collects k.now.types.now (made_by_members (typed_members_view row.now all))
        (pieces_of_members (typed_members_view row.now all)) start out.new }
{
    specifiers(out, k, &row.specifiers);
    member_declarators(out, k, row.declarators.as_slice())
}

#[cycle(collecting)]
fn member_declarators(out: &mut Collected, k: &Scope<'_>, all: &[TypedDeclarator])
    ensures { Collects k.now.types.now (made_by_member_declarators
        (typed_member_declarators_of (map typed_declarator_view all.now)))
        (pieces_of_member_declarators (typed_member_declarators_of
        (map typed_declarator_view all.now))) out.old out.new }
{
    for one in all {
        declarator(out, k, one)
    }
}

#[cycle(collecting)]
fn enumerators(out: &mut Collected, k: &Scope<'_>, all: &[TypedEnumerator])
    ensures { Collects k.now.types.now (made_by_enumerators
        (added typed.NoEnumerator (map typed_enumerator_view all.now)))
        (pieces_of_enumerators (added typed.NoEnumerator (map typed_enumerator_view all.now)))
        out.old out.new }
{
    for one in all {
        enumerator(out, k, one)
    }
}

/// An enumerator behind others.
#[cycle(collecting)]
fn enumerator(out: &mut Collected, k: &Scope<'_>, one: &TypedEnumerator)
    ensures { (all : typed.TypedEnumerators) (start : Seen)
        → Collects k.now.types.now (made_by_enumerators all)
        (pieces_of_enumerators all) start out.old → Collects k.now.types.now
        (made_by_enumerators (typed_enumerator_view one.now all))
        (pieces_of_enumerators (typed_enumerator_view one.now all)) start out.new }
{
    match one {
        TypedEnumerator::Plain(_, _) => keep(out, k),
        TypedEnumerator::Valued(_, _, e, _) => expr(out, k, e),
    }
}

/// A declarator.
#[cycle(collecting)]
pub fn declarator(out: &mut Collected, k: &Scope<'_>, one: &TypedDeclarator)
    ensures { Collects k.now.types.now (made_by_declarator (typed_declarator_view one.now))
        (pieces_of_declarator (typed_declarator_view one.now)) out.old out.new }
{
    form(out, k, &one.form, one.ty)
}

#[cycle(collecting)]
fn declared(out: &mut Collected, k: &Scope<'_>, one: &Option<TypedForm>, t: TypeId)
    ensures { Collects k.now.types.now (made_by_declared (typed_declared_of
        (option_map typed_form_view one.now)) t) (pieces_of_declared
        (typed_declared_of (option_map typed_form_view one.now))) out.old out.new }
{
    match one {
        Some(one) => form(out, k, one, t),
        None => keep(out, k),
    }
}

#[cycle(collecting)]
fn form(out: &mut Collected, k: &Scope<'_>, one: &TypedForm, t: TypeId)
    ensures { Collects k.now.types.now (made_by_form (typed_form_view one.now) t)
        (pieces_of_form (typed_form_view one.now)) out.old out.new }
{
    core(out, k, &one.core, t);
    parts_behind(out, k, one.parts.as_slice())
}

#[cycle(collecting)]
fn core(out: &mut Collected, k: &Scope<'_>, one: &TypedCore, t: TypeId)
    ensures { Collects k.now.types.now (made_by_core (typed_core_view one.now) t)
        (pieces_of_core (typed_core_view one.now)) out.old out.new }
{
    match one {
        TypedCore::Names(name, home) => put_name(out, k, name, *home, t),
        TypedCore::Unnamed => keep(out, k),
        TypedCore::Nested(_, one) => form(out, k, one.get(), t),
    }
}

#[cycle(collecting)]
fn parts_behind(out: &mut Collected, k: &Scope<'_>, all: &[TypedPart])
    ensures { Collects k.now.types.now (made_by_parts (added typed.NoPart
        (map typed_part_view all.now))) (pieces_of_parts
        (added typed.NoPart (map typed_part_view all.now))) out.old out.new }
{
    for one in all {
        part(out, k, one)
    }
}

/// A part behind others.
#[cycle(collecting)]
fn part(out: &mut Collected, k: &Scope<'_>, one: &TypedPart)
    ensures { (all : typed.TypedParts) (start : Seen) → Collects k.now.types.now (made_by_parts all)
        (pieces_of_parts all) start out.old → Collects k.now.types.now
        (made_by_parts (typed_part_view one.now all))
        (pieces_of_parts (typed_part_view one.now all)) start out.new }
{
    match one {
        TypedPart::Array(_, _) => keep(out, k),
        TypedPart::SizedArray(_, _, e, _) => expr(out, k, e),
        TypedPart::Function(_, all) => parameters(out, k, all.as_slice()),
    }
}

#[cycle(collecting)]
fn parameters(out: &mut Collected, k: &Scope<'_>, all: &[TypedParameter])
    ensures { Collects k.now.types.now (made_by_parameters
        (added typed.NoParameter (map typed_parameter_view all.now)))
        (pieces_of_parameters (added typed.NoParameter (map typed_parameter_view all.now))) out.old
        out.new }
{
    for one in all {
        parameter(out, k, one)
    }
}

/// A parameter behind others.
#[cycle(collecting)]
fn parameter(out: &mut Collected, k: &Scope<'_>, one: &TypedParameter)
    ensures { (all : typed.TypedParameters) (start : Seen)
        → Collects k.now.types.now (made_by_parameters all) (pieces_of_parameters all) start out.old
        → Collects k.now.types.now (made_by_parameters (typed_parameter_view one.now all))
        (pieces_of_parameters (typed_parameter_view one.now all)) start out.new }
{
    specifiers(out, k, &one.specifiers);
    declared(out, k, &one.declarator, one.ty)
}
