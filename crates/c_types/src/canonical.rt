//! The canonical shapes of types, which are equal exactly where the types are the same (C99 6.2.7).
#![tactic(auto)]

ghost use Rattle.std.specs.Prelude.{◌≡◌, ◌<◌, length, map, IfOk, OnErr};
ghost use Rattle.std.specs.List.{All};
ghost use Rattle.c_types.specs.Table.{named_by};
ghost use Rattle.c_types.specs.Sameness.{canonical};
ghost use Rattle.c_types.specs.Kept.{IsFound, firsts_of, first_at};

use crate::kept::Kept;
use crate::shape::{TypeList, TypeShape};
use cc_base::{NoMemory, NodeId, TypeId};
use indexmap::IndexMap;
use std::alloc::Global;

/// The first type of the table that is the same type.
pub(crate) fn first_of(entries: &IndexMap<TypeShape, Kept>, t: TypeId) -> TypeId
    requires { t.0 < length entries.now.entries }
    ensures { result ≡ first_at (firsts_of entries.now.entries) t }
{
    entries.get_index(t.0 as usize).unwrap().1.first
}

/// The first types that are the same as those of a list.
fn firsts_of(
    alloc: Global,
    entries: &IndexMap<TypeShape, Kept>,
    list: &[TypeId],
) -> Result<Vec<TypeId>, NoMemory>
    requires { All (λ t. t.0 < length entries.now.entries) list.now }
    ensures { IfOk result (λ firsts. firsts.items
        ≡ map (first_at (firsts_of entries.now.entries)) list.now) }
{
    let mut firsts = Vec::with_capacity(alloc, list.len())?;
    'types: for t in list {
        firsts.push(first_of(entries, *t))?;
    }
    Ok(firsts)
}

/// The shape with the node 0 in place of a pointer's, and with the first type that is the same for each that it names.
pub(crate) fn canonical(
    alloc: Global,
    entries: &IndexMap<TypeShape, Kept>,
    shape: &TypeShape,
) -> Result<TypeShape, NoMemory>
    requires { All (λ t. t.0 < length entries.now.entries) (named_by shape.now) }
    ensures { IfOk result (λ found. found ≡ canonical
        (first_at (firsts_of entries.now.entries)) shape.now) }
{
    match shape {
        TypeShape::Void => Ok(TypeShape::Void),
        TypeShape::Integer { bytes, signed } => Ok(TypeShape::Integer {
            bytes: *bytes,
            signed: *signed,
        }),
        TypeShape::Pointer(_, to) => Ok(TypeShape::Pointer(NodeId(0), first_of(entries, *to))),
        TypeShape::Array(element, count) => {
            Ok(TypeShape::Array(first_of(entries, *element), *count))
        }
        TypeShape::Function(parameters, result) => {
            let firsts = firsts_of(alloc, entries, parameters.ids())?;
            Ok(TypeShape::Function(TypeList::of(firsts), first_of(entries, *result)))
        }
        TypeShape::Struct(number) => Ok(TypeShape::Struct(*number)),
        TypeShape::Union(number) => Ok(TypeShape::Union(*number)),
    }
}

/// The first type with a canonical shape. Where there is none so far, it is t from now on.
pub(crate) fn first_with(
    known: &mut IndexMap<TypeShape, TypeId>,
    shape: TypeShape,
    t: TypeId,
) -> Result<TypeId, NoMemory>
    ensures found { IfOk result (λ first. IsFound known.old.entries known.new.entries shape t
        first) }
    ensures unchanged { OnErr result (known.new.entries ≡ known.old.entries) }
{
    if let Some(first) = known.get(&shape) {
        return Ok(*first);
    }
    known.insert(shape, t)?;
    Ok(t)
}
