//! Types in the order of their sizes.
#![tactic(auto)]

ghost use Rattle.std.specs.Prelude.{◌≡◌, IfOk, map};
ghost use Rattle.std.specs.List.{All};
ghost use Rattle.std.specs.List.Sorted.{IsPermutation, IsNonDecreasingBy};
ghost use Rattle.c_types.specs.Table.{IsType};
ghost use Rattle.rtti_nodes.specs.Classes.{sized};

use cc_base::{NoMemory, TypeId};
use phys_types::Known;
use std::alloc::Global;

/// A type, and how many cells it has.
#[derive(Clone, Copy)]
pub(crate) struct Sized {
    pub(crate) size: u64,
    pub(crate) ty: TypeId,
}

fn size_of(one: &Sized) -> u64
    ensures { result ≡ one.now.size }
{
    one.size
}

/// The same, in the order of their sizes.
fn in_order(types: Vec<Sized>) -> Result<Vec<Sized>, NoMemory>
    ensures permutation { IfOk result (λ all. IsPermutation types.items all.items) }
    ensures sorted { IfOk result (λ all. IsNonDecreasingBy (λ s. s.size) all.items) }
{
    let mut all = types;
    all.sort_by_key(|one: &Sized| size_of(one))?;
    Ok(all)
}

/// Each type with the number of its cells.
fn with_sizes(alloc: Global, known: &Known, types: &[TypeId]) -> Result<Vec<Sized>, NoMemory>
    requires { All (IsType known.now) types.now }
    ensures { IfOk result (λ all. all.items ≡ map (sized known.now) types.now) }
{
    let mut all = Vec::with_capacity(alloc, types.len())?;
    'types: for ty in types {
        let size = known.cell_count(*ty);
        all.push(Sized { size, ty: *ty })?;
    }
    Ok(all)
}

/// Types with the number of their cells, in the order of it.
pub(crate) fn by_size(
    alloc: Global,
    known: &Known,
    types: &[TypeId],
) -> Result<Vec<Sized>, NoMemory>
    requires { All (IsType known.now) types.now }
    ensures all { IfOk result (λ all. IsPermutation (map (sized known.now) types.now) all.items) }
    ensures sorted { IfOk result (λ all. IsNonDecreasingBy (λ s. s.size) all.items) }
{
    in_order(with_sizes(alloc, known, types)?)
}
