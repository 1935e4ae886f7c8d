//! What is listed in braces for a type (C99 6.7.8).
#![tactic(auto)]

ghost use Rattle.std.specs.Prelude.{◌≡◌, ◌==◌, Some, None, option_copied, option_map, if◌then◌else◌};
ghost use Rattle.c_types.specs.declared.shape.TypeShape.TheVariants.{Array, Struct, Union};
ghost use Rattle.c_types.specs.Sound.{IsWellFormed};
ghost use Rattle.c_types.specs.Table.{IsType, IsComplete, shape_at};
ghost use Rattle.c_typing.specs.KindViews.{shape_or_void};
ghost use Rattle.c_unit_typing.specs.Initialisers as initialisers;
ghost use Rattle.c_unit_typing.specs.InitialiserJudging as judging;
ghost use Rattle.c_check_declarations.specs.ListedViews.{slot_view};

use c_types::{TypeShape, Types};
use c_typing::shapes::shape_at;
use cc_base::TypeId;

/// What an item initialises: the offset in the whole, and the type.
#[derive(Clone, Copy)]
pub(crate) struct Slot {
    pub(crate) offset: u64,
    pub(crate) ty: TypeId,
}

/// The count of an array of char, signed or not, by its element.
fn char_count_of_element(element: Option<&TypeShape>, count: u64) -> Option<u64>
    ensures { result ≡ initialisers.char_count_of_element
        (shape_or_void (option_copied element.entry)) count }
{
    match element {
        Some(TypeShape::Integer { bytes, .. }) => { if *bytes == 1 { Some(count) } else { None } }
        _ => None,
    }
}

/// The number of the characters of an array of char.
pub(crate) fn char_count(types: &Types, t: TypeId) -> Option<u64>
    ensures { result ≡ initialisers.char_count_of_shape types.now (shape_at types.now t) }
{
    match shape_at(types, t) {
        Some(TypeShape::Array(element, count)) => {
            char_count_of_element(shape_at(types, *element), *count)
        }
        _ => None,
    }
}

/// The type itself, as the only item.
fn whole(t: TypeId, number: u64) -> Option<Slot>
    ensures { option_map slot_view result ≡ if number == 0 then Some
        (record { offset = 0; type = t }) else None }
{
    if number == 0 {
        Some(Slot { offset: 0, ty: t })
    } else {
        None
    }
}

/// The element with a number.
#[tactic(auto, using(crate::proofs::SlotLaws::element_fits))]
fn element(types: &Types, t: TypeId, element: TypeId, count: u64, number: u64) -> Option<Slot>
    requires formed { IsWellFormed types.now }
    requires shape { shape_at types.now t ≡ Array element count }
    requires complete { IsComplete types.now element }
    ensures { option_map slot_view result ≡ initialisers.slot_of_shape types.now t
        (Array element count) number }
{
    if number >= count {
        return None;
    }
    Some(Slot {
        offset: number * types.size_of(element),
        ty: element,
    })
}

/// The member of a struct with a number.
fn member(types: &Types, t: TypeId, declaration: u32, number: u64) -> Option<Slot>
    requires typed { IsType types.now t }
    requires shape { shape_at types.now t ≡ Struct declaration }
    ensures { option_map slot_view result ≡ initialisers.slot_of_shape types.now t
        (Struct declaration) number }
{
    if number >= types.fields(t) as u64 {
        return None;
    }
    let field = types.field(t, number as usize);
    Some(Slot {
        offset: field.offset,
        ty: field.ty,
    })
}

/// The first member of a union.
#[tactic(auto, using(crate::proofs::SlotLaws::no_member, crate::proofs::SlotLaws::union_offset))]
fn first_member(types: &Types, t: TypeId, declaration: u32, number: u64) -> Option<Slot>
    requires typed { IsType types.now t }
    requires shape { shape_at types.now t ≡ Union declaration }
    ensures { option_map slot_view result ≡ initialisers.slot_of_shape types.now t
        (Union declaration) number }
{
    if number != 0 {
        return None;
    }
    if types.fields(t) == 0 {
        return Some(Slot { offset: 0, ty: t });
    }
    let field = types.field(t, 0);
    Some(Slot {
        offset: field.offset,
        ty: field.ty,
    })
}

/// What the item with a number initialises in a type: an element, a member, or a scalar itself.
#[tactic(auto, using(crate::proofs::SlotLaws::element_complete))]
pub(crate) fn listed_slot(types: &Types, t: TypeId, number: u64) -> Option<Slot>
    ensures { option_map slot_view result ≡ initialisers.slot_of_shape types.now t
        (shape_at types.now t) number }
{
    if t.0 >= types.count() {
        return None;
    }
    match types.shape(t) {
        TypeShape::Array(of, count) => element(types, t, *of, *count, number),
        TypeShape::Struct(declaration) => member(types, t, *declaration, number),
        TypeShape::Union(declaration) => first_member(types, t, *declaration, number),
        TypeShape::Integer { .. } | TypeShape::Pointer(_, _) => whole(t, number),
        TypeShape::Void | TypeShape::Function(_, _) => None,
    }
}

/// What the item with a number initialises; a literal by itself initialises the whole.
pub(crate) fn item_slot(types: &Types, text: bool, t: TypeId, number: u64) -> Option<Slot>
    ensures { option_map slot_view result ≡ judging.item_slot types.now text t number }
{
    if text {
        Some(Slot { offset: 0, ty: t })
    } else {
        listed_slot(types, t, number)
    }
}
