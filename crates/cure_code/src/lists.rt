//! The kinds of a program's nodes, and its static objects, as lists.
ghost use Rattle.std.specs.Prelude.{◌≡◌, IfOk, length, map};
ghost use Rattle.cil_form.specs.Machine.{plan};

use cc_base::{Kind, Kinds, NoMemory, NodeId};
use cil_form::{Planned, Static};
use std::alloc::Global;

/// The kinds of so many nodes.
pub(crate) fn kinds_of(alloc: Global, kinds: &Kinds, count: u32) -> Result<Vec<Kind>, NoMemory>
    requires { length kinds.now ≡ count }
    ensures { IfOk result (λ all. all.items ≡ kinds.now) }
{
    let mut all = Vec::with_capacity(alloc, count as usize)?;
    'nodes: for n in 0..count {
        all.push(kinds.kind_of(NodeId(n)))?;
    }
    Ok(all)
}

/// What is planned of static objects.
pub(crate) fn planned(alloc: Global, statics: &[Static]) -> Result<Vec<Planned>, NoMemory>
    ensures { IfOk result (λ all. map plan all.items ≡ map (λ o. plan o.planned) statics.now) }
{
    let mut all = Vec::with_capacity(alloc, statics.len())?;
    'statics: for one in statics {
        all.push(one.planned)?;
    }
    Ok(all)
}
