//! From a text of C to the kinds of its pointers.
ghost use Rattle.std.specs.Prelude.{◌≡◌, ◌≢◌, ◌≤◌, IfErr, IfOk, length};
ghost use Rattle.cc_base.specs.declared.fault.Fault.TheVariants.{NoMemory as IsNoMemory};
ghost use Rattle.c_types.specs.Table.{Table};
ghost use Rattle.c_tree.specs.Depth.{unit_height};
ghost use Rattle.c_tree.specs.Erasure.{erased_unit};
ghost use Rattle.c_tree.specs.TypedParts.{made_by_unit, nodes_made};
ghost use Rattle.c_tree.specs.TypedStatementViews.{typed_unit_view};
ghost use Rattle.c_tree.specs.TypedTree.{TypedTranslationUnit};
ghost use Rattle.c_unit_typing.specs.Limits.{IsWithinLimits};
ghost use Rattle.c_unit_typing.specs.WellTyped.{IsWellTyped};
ghost use Rattle.c_front.specs.Accepted.{IsTypedText};
ghost use Rattle.c_front.specs.Refused.{IsFirstRefusal};
ghost use Rattle.c_build.specs.Inferred.{IsInferred, IsLowered};
ghost use Rattle.c_build.specs.Solved.{IsSolvedBy};

use crate::keeping::beside;
use crate::solving::solution;
use c_front::typed;
use c_tree::Typed;
use cc_base::Fault;
use cil_form::Cil;
use cil_lower::lower;
use kind_solver::Solved;
use std::alloc::Global;

/// What is inferred of a text of C.
#[derive(Drop)]
pub struct Inferred {
    /// Its typed unit.
    pub typed: Typed,
    /// The three-address code of that.
    pub code: Cil,
    /// The kinds of its nodes, with their causes.
    pub solved: Solved,
}

/// Infers the kinds of a text of C. A text that is not accepted is refused by the first pass that refuses it.
pub fn infer(alloc: Global, text: &[u8]) -> Result<Inferred, Fault>
    requires { length text.now ≤ 1048576 }
    ensures inferred { IfOk result (λ i. IsInferred text.now i.typed i.code i.solved) }
    ensures refused { IfErr result (λ fault. fault ≢ IsNoMemory → IsFirstRefusal text.now fault) }

    // A text that is accepted is not refused.
    ensures accepts { (T : Table) (whole : TypedTranslationUnit) → IsTypedText text.now T whole
        → IfErr result (λ fault. fault ≡ IsNoMemory) }
{
    match typed(alloc, text) {
        Ok(typed) => infer_unit(alloc, typed),
        Err(fault) => Err(fault),
    }
}

/// A typed unit with its code and its kinds.
fn infer_unit(alloc: Global, typed: Typed) -> Result<Inferred, Fault>
    requires typed { IsWellTyped typed.types (typed_unit_view typed.unit) }
    requires limited { IsWithinLimits typed.types (typed_unit_view typed.unit) }
    requires height { unit_height (erased_unit (typed_unit_view typed.unit)) ≤ 256 }
    requires nodes { typed.nodes ≡ length (nodes_made (made_by_unit (typed_unit_view typed.unit))) }
    ensures typed { IfOk result (λ i. i.typed ≡ typed) }
    ensures lowered { IfOk result (λ i. IsLowered typed i.code) }
    ensures solved { IfOk result (λ i. IsSolvedBy i.code i.solved) }
    ensures wants { IfErr result (λ fault. fault ≡ IsNoMemory) }
{
    let code = lower(alloc, &typed);
    let lowered = beside(typed, code)?;
    let solved = solution(alloc, &lowered.1);
    let ((typed, code), solved) = beside(lowered, solved)?;
    Ok(Inferred {
        typed,
        code,
        solved,
    })
}
