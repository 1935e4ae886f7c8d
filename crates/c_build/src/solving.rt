//! The kinds of three-address code.
ghost use Rattle.std.specs.Prelude.{IfOk};
ghost use Rattle.cil_form.specs.Told.{IsToldOf};
ghost use Rattle.c_build.specs.Solved.{IsSolvedBy};

use cc_base::NoMemory;
use cil_form::Cil;
use kind_constraints::constraints;
use kind_solver::{Solved, solve};
use phys_types::Phys;
use std::alloc::Global;

/// The kinds of a program's nodes and their causes, by the constraints that its sites give.
pub(crate) fn solution(alloc: Global, code: &Cil) -> Result<Solved, NoMemory>
    requires { IsToldOf code.now }
    ensures { IfOk result (λ solved. IsSolvedBy code.now solved) }
{
    match constraints(alloc, code, &Phys::new(alloc)) {
        Ok(list) => solve(alloc, code.nodes(), list.as_slice()),
        Err(want) => Err(want),
    }
}
