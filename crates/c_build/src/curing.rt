//! The cured program of three-address code.
ghost use Rattle.std.specs.Prelude.{IfOk};
ghost use Rattle.cil_form.specs.Told.{IsToldOf};
ghost use Rattle.cure_ready.specs.Curable.{HaveFewParameters};
ghost use Rattle.c_build.specs.Built.{IsCuringOf};
ghost use Rattle.c_build.specs.Solved.{IsSolvedBy};

use crate::data_types::data_types;
use cc_base::NoMemory;
use cil_form::Cil;
use cure_code::cure;
use cured_code::Cured;
use kind_solver::Solved;
use rtti_nodes::Nodes;
use std::alloc::Global;

/// The cured program of code, by the kinds of its nodes.
pub(crate) fn curing(alloc: Global, code: &Cil, solved: &Solved) -> Result<Cured, NoMemory>
    requires told { IsToldOf code.now }
    requires few { HaveFewParameters code.now.types }
    requires solved { IsSolvedBy code.now solved.now }
    ensures { IfOk result (λ cured. IsCuringOf code.now solved.now cured) }
{
    let program = code.program();
    let kinds = &solved.kinds;
    let used = data_types(alloc, &program.types)?;
    let nodes = Nodes::make(alloc, &program.types, kinds, &used)?;
    let _parents = nodes.parents();
    cure(alloc, code, kinds, &nodes)
}
