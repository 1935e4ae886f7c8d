//! The types that objects may have.
ghost use Rattle.std.specs.Prelude.{◌↔◌, IfOk};
ghost use Rattle.std.specs.List.{Contains};
ghost use Rattle.cc_base.specs.declared.number.TypeId.{TypeId};
ghost use Rattle.rtti_nodes.specs.Classes.{IsData};

use c_types::{TypeShape, Types};
use cc_base::{NoMemory, TypeId};
use std::alloc::Global;

/// The types of a table that are no function types, in the order of their numbers.
pub(crate) fn data_types(alloc: Global, types: &Types) -> Result<Vec<TypeId>, NoMemory>
    ensures { IfOk result (λ all. (t : TypeId) → Contains all.items t ↔ IsData types.now t) }
{
    let mut all = Vec::new(alloc);
    'types: for number in 0..types.count() {
        let t = TypeId(number);
        match types.shape(t) {
            TypeShape::Function(_, _) => {}
            TypeShape::Void
            | TypeShape::Integer { .. }
            | TypeShape::Pointer(_, _)
            | TypeShape::Array(_, _)
            | TypeShape::Struct(_)
            | TypeShape::Union(_) => all.push(t)?,
        }
    }
    Ok(all)
}
