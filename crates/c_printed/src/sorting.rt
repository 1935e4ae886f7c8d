//! The printed nodes of a unit in the order of their places.
#![tactic(auto)]

ghost use Rattle.std.specs.Prelude.{◌≡◌, IfOk};
ghost use Rattle.std.specs.List.Sorted.{IsPermutation};
ghost use Rattle.c_tree.specs.TypedStatementViews.{typed_unit_view};
ghost use Rattle.c_printed.specs.Printing.{AreInOrder, HasPrinted};

use crate::found::Found;
use crate::statements::unit;
use c_tree::{Items, Printed, TypedUnit};
use cc_base::{NoMemory, Place};
use std::alloc::Global;

fn place_of(one: &Printed) -> Place
    ensures { result ≡ one.now.place }
{
    one.place
}

/// The same nodes, in the order of their places.
fn in_order(nodes: Vec<Printed>) -> Result<Vec<Printed>, NoMemory>
    ensures permutation { IfOk result (λ all. IsPermutation nodes.items all.items) }
    ensures sorted { IfOk result (λ all. AreInOrder all.items) }
{
    let mut all = nodes;
    all.sort_by_key(|one: &Printed| place_of(one))?;
    Ok(all)
}

/// The nodes of a unit whose kinds are printed, in the order of their places.
#[tactic(auto, using(crate::proofs::Laws::all_printed))]
pub fn printed_nodes(alloc: Global, of: &TypedUnit) -> Result<Items<Printed>, NoMemory>
    ensures printed { IfOk result (λ all. HasPrinted (typed_unit_view of.now) all) }
    ensures sorted { IfOk result (λ all. AreInOrder all) }
{
    let mut out = Found {
        nodes: Vec::new(alloc),
        fine: true,
    };
    unit(&mut out, of);
    let Found { nodes, fine } = out;
    if !fine {
        return Err(NoMemory);
    }
    Ok(Items::from_vec(in_order(nodes)?))
}
