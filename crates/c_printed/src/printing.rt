//! What expressions, specifiers and declarators have of nodes that are printed.
#![tactic(auto)]

ghost use Rattle.std.specs.Prelude.{map, option_map};
ghost use Rattle.c_tree.specs.Views.{added};
ghost use Rattle.c_tree.specs.TypedTree as typed;
ghost use Rattle.c_tree.specs.TypedParts.{made_by, made_by_arguments, made_by_core, made_by_declarator, made_by_declared, made_by_enumerators, made_by_form, made_by_member_declarators, made_by_members, made_by_parameters, made_by_parts, made_by_place, made_by_specifier, made_by_specifier_list, made_by_specifiers, made_by_type_name};
ghost use Rattle.c_tree.specs.TypedViews.{typed_arguments_of, typed_core_view, typed_declarator_view, typed_declared_of, typed_enumerator_view, typed_expr_view, typed_form_view, typed_member_declarators_of, typed_members_view, typed_parameter_view, typed_part_view, typed_place_view, typed_specifier_view, typed_specifiers_of, typed_specifiers_view, typed_type_name_view};
ghost use Rattle.c_printed.specs.declared.found.Found.{Found as Seen};
ghost use Rattle.c_printed.specs.Printing.{Prints};

use crate::found::Found;
use crate::leaves::{put_adjusted, put_name, put_stars};
use c_tree::{
    TypedCore, TypedDeclarator, TypedEnumerator, TypedExpr, TypedForm, TypedMembers,
    TypedParameter, TypedPart, TypedPlace, TypedSpecifier, TypedSpecifiers, TypedTypeName,
};
use cc_base::TypeId;

/// Arguments in order.
#[cycle(printing)]
fn arguments(out: &mut Found, all: &[TypedExpr])
    ensures { Prints (made_by_arguments (typed_arguments_of (map typed_expr_view all.now))) out.old
        out.new }
{
    for e in all {
        expr(out, e)
    }
}

/// An expression.
#[cycle(printing)]
pub(crate) fn expr(out: &mut Found, e: &TypedExpr)
    ensures { Prints (made_by (typed_expr_view e.now)) out.old out.new }
{
    match e {
        TypedExpr::Integer(_, _, _, _) => {}
        TypedExpr::Character(_, _, _) => {}
        TypedExpr::Enumerator(_, _, _) => {}
        TypedExpr::FunctionName(_, _, _, _) => {}
        TypedExpr::RuntimeName(_, _, _) => {}
        TypedExpr::Paren(_, e) => expr(out, e.get()),
        TypedExpr::Read(p) => place(out, p.get()),
        TypedExpr::Unread(p) => place(out, p.get()),
        TypedExpr::Decay(p, _, _) => place(out, p.get()),
        TypedExpr::Convert(_, _, _, e) => expr(out, e.get()),
        TypedExpr::Cast(_, _, to, e) => {
            type_name(out, to.get());
            expr(out, e.get())
        }
        TypedExpr::AddressOf(_, p, _, _) => place(out, p.get()),
        TypedExpr::AddressOfElement(_, p, _) => place(out, p.get()),
        TypedExpr::AddressOfFunction(_, e) => expr(out, e.get()),
        TypedExpr::FunctionAt(_, e) => expr(out, e.get()),
        TypedExpr::Prefix(_, _, e, _) => expr(out, e.get()),
        TypedExpr::SizeOfPlace(_, p, _, _) => place(out, p.get()),
        TypedExpr::SizeOfValue(_, e, _, _) => expr(out, e.get()),
        TypedExpr::SizeOfType(_, _, to, _, _) => type_name(out, to.get()),
        TypedExpr::StepBefore(_, _, p) => place(out, p.get()),
        TypedExpr::StepAfter(p, _, _) => place(out, p.get()),
        TypedExpr::Arithmetic(_, a, _, b, _) => {
            expr(out, a.get());
            expr(out, b.get())
        }
        TypedExpr::Moved(_, _, a, _, b, _) => {
            expr(out, a.get());
            expr(out, b.get())
        }
        TypedExpr::Difference(a, _, b, _) => {
            expr(out, a.get());
            expr(out, b.get())
        }
        TypedExpr::Compared(_, a, _, b, _) => {
            expr(out, a.get());
            expr(out, b.get())
        }
        TypedExpr::Logical(_, a, _, b, _) => {
            expr(out, a.get());
            expr(out, b.get())
        }
        TypedExpr::Conditional(c, _, a, b, _) => {
            expr(out, c.get());
            expr(out, a.get());
            expr(out, b.get())
        }
        TypedExpr::PointerConditional(c, _, a, b, _, _) => {
            expr(out, c.get());
            expr(out, a.get());
            expr(out, b.get())
        }
        TypedExpr::Comma(a, b) => {
            expr(out, a.get());
            expr(out, b.get())
        }
        TypedExpr::Assign(p, _, e) => {
            place(out, p.get());
            expr(out, e.get())
        }
        TypedExpr::AssignWith(_, p, _, e, _) => {
            place(out, p.get());
            expr(out, e.get())
        }
        TypedExpr::Call(f, _, all, _) => {
            expr(out, f.get());
            arguments(out, all.as_slice())
        }
        TypedExpr::CallRuntime(_, f, _, all, _) => {
            expr(out, f.get());
            arguments(out, all.as_slice())
        }
        TypedExpr::Allocate(_, f, _, all, _, _) => {
            expr(out, f.get());
            arguments(out, all.as_slice())
        }
        TypedExpr::AllocateFor(_, f, _, all, _) => {
            expr(out, f.get());
            arguments(out, all.as_slice())
        }
    }
}

/// A place.
#[cycle(printing)]
pub(crate) fn place(out: &mut Found, p: &TypedPlace)
    ensures { Prints (made_by_place (typed_place_view p.now)) out.old out.new }
{
    match p {
        TypedPlace::Variable(_, _, _) => {}
        TypedPlace::String(_, _, _) => {}
        TypedPlace::ParenPlace(_, p) => place(out, p.get()),
        TypedPlace::Target(_, e, _) => expr(out, e.get()),
        TypedPlace::Element(_, a, _, b, _) => {
            expr(out, a.get());
            expr(out, b.get())
        }
        TypedPlace::Member(p, _, _, _, _, _) => place(out, p.get()),
        TypedPlace::MemberAt(e, _, _, _, _, _) => expr(out, e.get()),
        TypedPlace::StructAssign(p, _, q) => {
            place(out, p.get());
            place(out, q.get())
        }
        TypedPlace::StructConditional(c, _, p, q) => {
            expr(out, c.get());
            place(out, p.get());
            place(out, q.get())
        }
        TypedPlace::StructComma(e, p) => {
            expr(out, e.get());
            place(out, p.get())
        }
    }
}

/// The name of a type.
#[cycle(printing)]
fn type_name(out: &mut Found, one: &TypedTypeName)
    ensures { Prints (made_by_type_name (typed_type_name_view one.now)) out.old out.new }
{
    specifiers(out, &one.specifiers);
    declared(out, &one.declarator, one.ty)
}

/// Specifiers.
#[cycle(printing)]
pub(crate) fn specifiers(out: &mut Found, one: &TypedSpecifiers)
    ensures { Prints (made_by_specifiers (typed_specifiers_view one.now)) out.old out.new }
{
    specifier_list(out, one.list.as_slice())
}

#[cycle(printing)]
fn specifier_list(out: &mut Found, all: &[TypedSpecifier])
    ensures { Prints (made_by_specifier_list (typed_specifiers_of
        (map typed_specifier_view all.now))) out.old out.new }
{
    for one in all {
        specifier(out, one)
    }
}

#[cycle(printing)]
fn specifier(out: &mut Found, one: &TypedSpecifier)
    ensures { Prints (made_by_specifier (typed_specifier_view one.now)) out.old out.new }
{
    match one {
        TypedSpecifier::Keyword(_) => {}
        TypedSpecifier::Typedef(_, _) => {}
        TypedSpecifier::Tagged(_, _, _, _) => {}
        TypedSpecifier::Aggregate(_, _, _, _, rows, _) => member_rows(out, rows.as_slice()),
        TypedSpecifier::Enum(_, _) => {}
        TypedSpecifier::Enumeration(_, _, _, all, _) => enumerators(out, all.as_slice()),
    }
}

#[cycle(printing)]
fn member_rows(out: &mut Found, all: &[TypedMembers])
    ensures { Prints (made_by_members (added typed.NoMember (map typed_members_view all.now)))
        out.old out.new }
{
    for row in all {
        member_row(out, row)
    }
}

/// A row of members behind others.
#[cycle(printing)]
fn member_row(out: &mut Found, row: &TypedMembers)
    ensures { (all : typed.TypedMembers) (start : Seen) → Prints (made_by_members all) start out.old
        → Prints (made_by_members (typed_members_view row.now all)) start out.new }
{
    specifiers(out, &row.specifiers);
    member_declarators(out, row.declarators.as_slice())
}

#[cycle(printing)]
fn member_declarators(out: &mut Found, all: &[TypedDeclarator])
    ensures { Prints (made_by_member_declarators (typed_member_declarators_of
        (map typed_declarator_view all.now))) out.old out.new }
{
    for one in all {
        declarator(out, one)
    }
}

#[cycle(printing)]
fn enumerators(out: &mut Found, all: &[TypedEnumerator])
    ensures { Prints (made_by_enumerators (added typed.NoEnumerator
        (map typed_enumerator_view all.now))) out.old out.new }
{
    for one in all {
        enumerator(out, one)
    }
}

/// An enumerator behind others.
#[cycle(printing)]
fn enumerator(out: &mut Found, one: &TypedEnumerator)
    ensures { (all : typed.TypedEnumerators) (start : Seen)
        → Prints (made_by_enumerators all) start out.old
        → Prints (made_by_enumerators (typed_enumerator_view one.now all)) start out.new }
{
    match one {
        TypedEnumerator::Plain(_, _) => {}
        TypedEnumerator::Valued(_, _, e, _) => expr(out, e),
    }
}

/// A declarator.
#[cycle(printing)]
pub(crate) fn declarator(out: &mut Found, one: &TypedDeclarator)
    ensures { Prints (made_by_declarator (typed_declarator_view one.now)) out.old out.new }
{
    form(out, &one.form, one.ty)
}

#[cycle(printing)]
fn declared(out: &mut Found, one: &Option<TypedForm>, t: TypeId)
    ensures { Prints (made_by_declared (typed_declared_of (option_map typed_form_view one.now)) t)
        out.old out.new }
{
    match one {
        Some(one) => form(out, one, t),
        None => {}
    }
}

#[cycle(printing)]
fn form(out: &mut Found, one: &TypedForm, t: TypeId)
    ensures { Prints (made_by_form (typed_form_view one.now) t) out.old out.new }
{
    put_stars(out, one.stars.as_slice());
    core(out, &one.core, t);
    parts_behind(out, one.parts.as_slice())
}

#[cycle(printing)]
fn core(out: &mut Found, one: &TypedCore, t: TypeId)
    ensures { Prints (made_by_core (typed_core_view one.now) t) out.old out.new }
{
    match one {
        TypedCore::Names(name, home) => put_name(out, name, *home, t),
        TypedCore::Unnamed => {}
        TypedCore::Nested(_, one) => form(out, one.get(), t),
    }
}

#[cycle(printing)]
fn parts_behind(out: &mut Found, all: &[TypedPart])
    ensures { Prints (made_by_parts (added typed.NoPart (map typed_part_view all.now))) out.old
        out.new }
{
    for one in all {
        part(out, one)
    }
}

/// A part behind others.
#[cycle(printing)]
fn part(out: &mut Found, one: &TypedPart)
    ensures { (all : typed.TypedParts) (start : Seen) → Prints (made_by_parts all) start out.old
        → Prints (made_by_parts (typed_part_view one.now all)) start out.new }
{
    match one {
        TypedPart::Array(_, _) => {}
        TypedPart::SizedArray(_, _, e, _) => expr(out, e),
        TypedPart::Function(_, all) => parameters(out, all.as_slice()),
    }
}

#[cycle(printing)]
fn parameters(out: &mut Found, all: &[TypedParameter])
    ensures { Prints (made_by_parameters (added typed.NoParameter
        (map typed_parameter_view all.now))) out.old out.new }
{
    for one in all {
        parameter(out, one)
    }
}

/// A parameter behind others.
#[cycle(printing)]
fn parameter(out: &mut Found, one: &TypedParameter)
    ensures { (all : typed.TypedParameters) (start : Seen)
        → Prints (made_by_parameters all) start out.old
        → Prints (made_by_parameters (typed_parameter_view one.now all)) start out.new }
{
    specifiers(out, &one.specifiers);
    declared(out, &one.declarator, one.ty);
    put_adjusted(out, one.adjusted)
}
