//! Constant initialisers (C99 6.6).
#![tactic(auto)]

ghost use Rattle.std.specs.Prelude.{◌≡◌};
ghost use Rattle.c_tree.specs.TypedViews.{typed_expr_view, typed_place_view};
ghost use Rattle.c_unit_typing.specs.Initialisers as initialisers;

use c_check_context::linkage::Homes;
use c_tree::{Binary, Side, TypedExpr, TypedPlace};
use c_types::Types;
use c_typing::constant::constant_value;
use c_typing::shapes::{is_integer, shape_at};

fn is_integer_constant(types: &Types, e: &TypedExpr) -> bool
    ensures { result ≡ initialisers.is_integer_constant types.now (typed_expr_view e.now) }
{
    match constant_value(types, e) {
        None => false,
        Some(_) => true,
    }
}

fn is_integer_value(types: &Types, e: &TypedExpr) -> bool
    ensures { result ≡ initialisers.is_integer_value types.now (typed_expr_view e.now) }
{
    is_integer(shape_at(types, e.ty()))
}

fn is_division(operator: Binary) -> bool
    ensures { result ≡ initialisers.is_division operator }
{
    match operator {
        Binary::Divide => true,
        Binary::Remainder => true,
        _ => false,
    }
}

/// An object that lives as long as the program, or a part of it with a constant place; `statics` are the homes of such objects.
#[cycle(constant_places)]
#[tactic(auto, using(c_tree::proofs::TypedViewLaws::typed_views))]
fn is_constant_place(types: &Types, statics: &Homes, p: &TypedPlace) -> bool
    ensures { result ≡ initialisers.is_constant_place types.now statics.now
        (typed_place_view p.now) }
{
    match p {
        TypedPlace::Variable(_, home, _) => statics.has(*home),
        TypedPlace::String(_, _, _) => true,
        TypedPlace::ParenPlace(_, inner) => is_constant_place(types, statics, inner.get()),
        TypedPlace::Member(inner, _, _, _, _, _) => is_constant_place(types, statics, inner.get()),
        TypedPlace::Element(Side::Left, a, _, b, _) => {
            is_constant_array(types, statics, a.get()) && is_integer_constant(types, b.get())
        }
        TypedPlace::Element(Side::Right, a, _, b, _) => {
            is_integer_constant(types, a.get()) && is_constant_array(types, statics, b.get())
        }
        _ => false,
    }
}

/// An array with a constant place, of which an element is taken.
#[cycle(constant_places)]
#[tactic(auto, using(c_tree::proofs::TypedViewLaws::typed_views))]
fn is_constant_array(types: &Types, statics: &Homes, e: &TypedExpr) -> bool
    ensures { result ≡ initialisers.is_constant_array types.now statics.now
        (typed_expr_view e.now) }
{
    match e {
        TypedExpr::Paren(_, inner) => is_constant_array(types, statics, inner.get()),
        TypedExpr::Decay(p, _, _) => is_constant_place(types, statics, p.get()),
        _ => false,
    }
}

/// A constant expression in an initialiser: an integer, an address, an address plus or minus an integer, or what casts and operators on
/// integers make of these.
#[tactic(auto, using(c_tree::proofs::TypedViewLaws::typed_views))]
pub(crate) fn is_constant(types: &Types, statics: &Homes, e: &TypedExpr) -> bool
    ensures { result ≡ initialisers.is_constant types.now statics.now (typed_expr_view e.now) }
{
    match e {
        TypedExpr::FunctionName(_, _, _, _) => true,
        TypedExpr::FunctionAt(_, inner)
        | TypedExpr::AddressOfFunction(_, inner)
        | TypedExpr::Paren(_, inner)
        | TypedExpr::Convert(_, _, _, inner)
        | TypedExpr::Cast(_, _, _, inner) => is_constant(types, statics, inner.get()),
        TypedExpr::Decay(p, _, _)
        | TypedExpr::AddressOf(_, p, _, _)
        | TypedExpr::AddressOfElement(_, p, _) => is_constant_place(types, statics, p.get()),
        TypedExpr::Moved(_, Side::Left, a, _, b, _) => {
            is_constant(types, statics, a.get()) && is_integer_constant(types, b.get())
        }
        TypedExpr::Moved(_, Side::Right, a, _, b, _) => {
            is_integer_constant(types, a.get()) && is_constant(types, statics, b.get())
        }
        TypedExpr::Prefix(_, _, inner, _) => {
            is_integer_value(types, inner.get()) && is_constant(types, statics, inner.get())
        }
        TypedExpr::Arithmetic(operator, a, _, b, _) => {
            if is_division(*operator) {
                is_integer_constant(types, e)
            } else {
                is_constant(types, statics, a.get()) && is_constant(types, statics, b.get())
            }
        }
        TypedExpr::Logical(_, a, _, b, _) => {
            (is_integer_value(types, a.get()) && is_constant(types, statics, a.get()))
                && (is_integer_value(types, b.get()) && is_constant(types, statics, b.get()))
        }
        TypedExpr::Conditional(c, _, a, b, _) => {
            (is_integer_value(types, c.get()) && is_constant(types, statics, c.get()))
                && (is_constant(types, statics, a.get()) && is_constant(types, statics, b.get()))
        }
        _ => is_integer_constant(types, e),
    }
}
