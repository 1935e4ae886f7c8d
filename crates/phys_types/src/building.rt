//! What is kept of the layouts of types, each from those of its parts.
#![tactic(auto)]

ghost use Rattle.std.specs.Prelude.{ℕ, ◌≡◌, ◌≢◌, ◌<◌, ◌≤◌, length, slice_index_or, IfOk, IfSome, true, false, map, List, [], ◌∷◌};
ghost use Rattle.std.specs.List.{All, Contains, list_all, list_any, fold};
ghost use Rattle.cc_base.specs.declared.number.TypeId.{TypeId};
ghost use Rattle.c_types.specs.declared.shape.TypeShape.TheVariants.{Array};
ghost use Rattle.c_types.specs.Table.{Table, IsType, IsComplete, IsAggregate, IsUnion, shape_at, members_at, parts_at};
ghost use Rattle.c_types.specs.Cells.{Relation, cells_at, holds_pointer};
ghost use Rattle.c_types.specs.Sound.{IsWellFormed};
ghost use Rattle.phys_types.specs.declared.keeping.Repeated.{Repeated};
ghost use Rattle.phys_types.specs.Lending.{lent_layout};
ghost use Rattle.phys_types.specs.Numbers.{number_in, same_number};
ghost use Rattle.phys_types.specs.Spots.{item_size};
ghost use Rattle.phys_types.specs.Shown.{IsStruct, IsLayoutOf, IsLowKept, IsKept, IsKeptOf, ArePartsKept, ArePartsShown, AreLayoutsOf, larger, begins_spots, IsUnionOf, IsMadeOf};

use crate::comparing::begins;
use crate::copying::push_shifted;
use crate::keeping::{Repeated, kept_times};
use crate::lending::{Lent, lend};
use crate::spot::{Item, Layout, Spot};
use c_types::{TypeShape, Types};
use cc_base::{NoMemory, TypeId};
use std::alloc::Global;

/// What is kept of a type.
pub(crate) fn kept<'a>(places: &[usize], built: &'a [Repeated], t: TypeId) -> &'a Repeated
    requires { IsKept places.now built.now t }
    ensures { (d : Repeated) → result.now ≡ slice_index_or built.now
        (slice_index_or places.now t.0 0) d }
{
    &built[places[t.0 as usize]]
}

/// The layout of a type.
pub(crate) fn lend_type<'a>(
    alloc: Global,
    places: &[usize],
    built: &'a [Repeated],
    t: TypeId,
) -> Result<Lent<'a>, NoMemory>
    requires kept { IsKept places.now built.now t }
    requires low { All IsLowKept built.now }
    ensures { (table : Table) (E : Relation) (u : TypeId)
        → ((d : Repeated) → IsKeptOf table E u
        (slice_index_or built.now (slice_index_or places.now t.0 0) d))
        → IfOk result (λ lent. IsLayoutOf table E u (lent_layout lent)) }
{
    lend(alloc, kept(places, built, t))
}

/// A layout of raw cells alone.
fn raw_layout(alloc: Global, size: u64) -> Layout
    ensures { IsMadeOf size [] false result }
{
    Layout {
        size,
        spots: Vec::new(alloc),
        holds: false,
    }
}

/// A layout of one item.
fn item_layout(alloc: Global, item: Item, holds: bool) -> Result<Layout, NoMemory>
    ensures { IfOk result (IsMadeOf (item_size item)
        (record { start = 0; item = item } ∷ []) holds) }
{
    let mut spots = Vec::new(alloc);
    spots.push(Spot { start: 0, item })?;
    Ok(Layout {
        size: item.size(),
        spots,
        holds,
    })
}

/// The layout of a struct that has members.
fn struct_layout(
    alloc: Global,
    types: &Types,
    places: &[usize],
    built: &[Repeated],
    t: TypeId,
) -> Result<Layout, NoMemory>
    requires formed { IsWellFormed types.now }
    requires typed { IsType types.now t }
    requires aggregate { IsStruct types.now t }
    requires complete { IsComplete types.now t }
    requires kept { ArePartsKept types.now places.now built.now t }
    requires low { All IsLowKept built.now }
    requires shown { (E : Relation) × ArePartsShown types.now E places.now built.now t }
    ensures { (E : Relation) → ArePartsShown types.now E places.now built.now t
        → IfOk result (IsLayoutOf types.now E t) }
{
    let mut spots = Vec::new(alloc);
    let mut holds = false;
    'members: for i in 0..types.fields(t) {
        let field = types.field(t, i);
        let part = lend_type(alloc, places, built, field.ty)?;
        let layout = part.layout();
        push_shifted(&mut spots, &layout.spots, field.offset)?;
        holds |= layout.holds;
    }
    Ok(Layout {
        size: types.size_of(t),
        spots,
        holds,
    })
}

/// The layouts of the members of a union.
fn member_layouts<'a>(
    alloc: Global,
    types: &Types,
    places: &[usize],
    built: &'a [Repeated],
    t: TypeId,
) -> Result<Vec<Lent<'a>>, NoMemory>
    requires typed { IsType types.now t }
    requires aggregate { IsUnion types.now t }
    requires kept { ArePartsKept types.now places.now built.now t }
    requires low { All IsLowKept built.now }
    ensures shown { (E : Relation) → ArePartsShown types.now E places.now built.now t
        → IfOk result (λ parts. AreLayoutsOf types.now E (members_at types.now t)
        (map lent_layout parts.items)) }
    ensures count { IfOk result (λ parts. length parts.items ≡ length (members_at types.now t)) }
{
    let mut parts = Vec::new(alloc);
    'members: for i in 0..types.fields(t) {
        let field = types.field(t, i);
        let part = lend_type(alloc, places, built, field.ty)?;
        parts.push(part)?;
    }
    Ok(parts)
}

/// The layouts that are lent.
fn layouts_of<'a>(alloc: Global, lents: &'a [Lent<'_>]) -> Result<Vec<&'a Layout>, NoMemory>
    ensures same { IfOk result (λ parts. map (λ p. p.now) parts.items ≡ map lent_layout lents.now) }
    ensures count { IfOk result (λ parts. length parts.items ≡ length lents.now) }
{
    let mut parts = Vec::with_capacity(alloc, lents.len())?;
    'lents: for lent in lents {
        parts.push(lent.layout())?;
    }
    Ok(parts)
}

/// The larger layout, the first of two of one size.
fn larger<'a>(x: &'a Layout, y: &'a Layout) -> &'a Layout
    ensures { result.now ≡ larger x.now y.now }
{
    if x.size < y.size { y } else { x }
}

/// The largest layout, the first where several are.
fn largest<'a>(first: &'a Layout, parts: &[&'a Layout]) -> &'a Layout
    ensures { result.now ≡ fold larger first.now (map (λ p. p.now) parts.now) }
{
    let mut largest = first;
    'parts: for part in parts {
        largest = larger(largest, *part);
    }
    largest
}

/// Whether a layout begins with each of the others.
fn begins_with_each(numbers: &[usize], x: &Layout, parts: &[&Layout]) -> bool
    ensures { result ≡ list_all (begins_spots (number_in numbers.now) x.now)
        (map (λ p. p.now) parts.now) }
{
    'parts: for part in parts {
        if !begins(numbers, x, *part) {
            return false;
        }
    }
    true
}

/// Whether one of the layouts holds a pointer.
fn holds_some(parts: &[&Layout]) -> bool
    ensures { result ≡ list_any (λ x. x.holds) (map (λ p. p.now) parts.now) }
{
    'parts: for part in parts {
        if part.holds {
            return true;
        }
    }
    false
}

/// The layout of a union of this many bytes, from its members' layouts.
fn union_of(
    alloc: Global,
    numbers: &[usize],
    t: TypeId,
    size: u64,
    parts: &[&Layout],
) -> Result<Layout, NoMemory>
    requires some { 0 < length parts.now }
    ensures { IfOk result (λ layout. IsUnionOf (number_in numbers.now) t size
        (map (λ p. p.now) parts.now) layout) }
{
    if !holds_some(parts) {
        return Ok(raw_layout(alloc, size));
    }
    let first = largest(parts[0], parts);
    if !begins_with_each(numbers, first, parts) {
        return item_layout(alloc, Item::Mixed(t, size), true);
    }
    Ok(Layout {
        size,
        spots: Vec::from_slice(alloc, &first.spots)?,
        holds: true,
    })
}

/// The layout of a union that has members.
fn union_layout(
    alloc: Global,
    types: &Types,
    numbers: &[usize],
    places: &[usize],
    built: &[Repeated],
    t: TypeId,
) -> Result<Layout, NoMemory>
    requires formed { IsWellFormed types.now }
    requires typed { IsType types.now t }
    requires aggregate { IsUnion types.now t }
    requires complete { IsComplete types.now t }
    requires kept { ArePartsKept types.now places.now built.now t }
    requires low { All IsLowKept built.now }
    ensures { ArePartsShown types.now (same_number (number_in numbers.now)) places.now built.now t
        → IfOk result (IsLayoutOf types.now (same_number (number_in numbers.now)) t) }
{
    let lents = member_layouts(alloc, types, places, built, t)?;
    let parts = layouts_of(alloc, &lents)?;
    union_of(alloc, numbers, t, types.size_of(t), &parts)
}

/// The layout of a type that is no array, from those of its parts.
fn layout_of(
    alloc: Global,
    types: &Types,
    numbers: &[usize],
    places: &[usize],
    built: &[Repeated],
    t: TypeId,
) -> Result<Layout, NoMemory>
    requires formed { IsWellFormed types.now }
    requires typed { IsType types.now t }
    requires other { (element : TypeId) (n : ℕ) → shape_at types.now t ≢ Array element n }
    requires kept { ArePartsKept types.now places.now built.now t }
    requires low { All IsLowKept built.now }
    requires shown { ArePartsShown types.now (same_number (number_in numbers.now)) places.now
        built.now t }
    ensures { IfOk result (IsLayoutOf types.now (same_number (number_in numbers.now)) t) }
{
    match types.shape(t) {
        TypeShape::Void => Ok(raw_layout(alloc, 0)),
        TypeShape::Function(_, _) => Ok(raw_layout(alloc, 0)),
        TypeShape::Integer { bytes, signed: _ } => Ok(raw_layout(alloc, *bytes)),
        TypeShape::Pointer(node, to) => item_layout(alloc, Item::Pointer(*node, *to), true),
        TypeShape::Array(_, _) => Ok(raw_layout(alloc, 0)),
        TypeShape::Struct(_) => {
            if types.fields(t) == 0 {
                item_layout(alloc, Item::Incomplete(t), false)
            } else {
                struct_layout(alloc, types, places, built, t)
            }
        }
        TypeShape::Union(_) => {
            if types.fields(t) == 0 {
                item_layout(alloc, Item::Incomplete(t), false)
            } else {
                union_layout(alloc, types, numbers, places, built, t)
            }
        }
    }
}

/// What is kept of the member that a struct consists of, where it has just one, of its own size.
fn sole_member<'a>(
    types: &Types,
    places: &[usize],
    built: &'a [Repeated],
    t: TypeId,
) -> Option<&'a Repeated>
    requires formed { IsWellFormed types.now }
    requires typed { IsType types.now t }
    requires kept { ArePartsKept types.now places.now built.now t }
    ensures { (E : Relation) → ArePartsShown types.now E places.now built.now t
        → IfSome result (λ own. IsKeptOf types.now E t own.now) }
{
    match types.shape(t) {
        TypeShape::Struct(_) => {
            if types.fields(t) != 1 {
                return None;
            }
            let field = types.field(t, 0);
            if field.offset != 0 || types.size_of(field.ty) != types.size_of(t) {
                return None;
            }
            Some(kept(places, built, field.ty))
        }
        _ => None,
    }
}

/// What is kept of a type, from what is kept of its parts.
pub(crate) fn kept_of(
    alloc: Global,
    types: &Types,
    numbers: &[usize],
    places: &[usize],
    built: &[Repeated],
    t: TypeId,
) -> Result<Repeated, NoMemory>
    requires formed { IsWellFormed types.now }
    requires typed { IsType types.now t }
    requires kept { ArePartsKept types.now places.now built.now t }
    requires low { All IsLowKept built.now }
    requires shown { ArePartsShown types.now (same_number (number_in numbers.now)) places.now
        built.now t }
    ensures { IfOk result (IsKeptOf types.now (same_number (number_in numbers.now)) t) }
{
    match types.shape(t) {
        TypeShape::Array(element, count) => {
            let part = kept(places, built, *element);
            let times = *count * part.count;
            kept_times(alloc, &part.part, times)
        }
        _ => {
            if let Some(own) = sole_member(types, places, built, t) {
                return kept_times(alloc, &own.part, own.count);
            }
            let part = layout_of(alloc, types, numbers, places, built, t)?;
            Ok(Repeated { part, count: 1 })
        }
    }
}
