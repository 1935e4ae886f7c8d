//! From a text of C to its cured program.
ghost use Rattle.std.specs.Prelude.{◌≡◌, ◌≢◌, ◌≤◌, ℕ, IfErr, IfOk, List, length};
ghost use Rattle.cc_base.specs.declared.fault.Fault.TheVariants.{NoMemory as IsNoMemory};
ghost use Rattle.c_types.specs.Table.{Table};
ghost use Rattle.c_tree.specs.TypedTree.{TypedTranslationUnit};
ghost use Rattle.c_front.specs.Accepted.{IsTypedText};
ghost use Rattle.c_front.specs.Refused.{IsFirstRefusal};
ghost use Rattle.c_build.specs.Alike.{RunsAlikeIfPlain};
ghost use Rattle.c_build.specs.Built.{IsBuilt};
ghost use Rattle.c_build.specs.Inferred.{IsInferred};

use crate::curing::curing;
use crate::inferring::{Inferred, infer};
use crate::keeping::beside;
use c_tree::Typed;
use cc_base::Fault;
use cil_form::Cil;
use cured_code::Cured;
use kind_solver::Solved;
use std::alloc::Global;

/// What a text of C is built to.
#[derive(Drop)]
pub struct Built {
    /// Its typed unit.
    pub typed: Typed,
    /// The three-address code of that.
    pub code: Cil,
    /// The kinds of its nodes, with their causes.
    pub solved: Solved,
    /// The cured program.
    pub cured: Cured,
}

/// Builds a text of C. A text that is not accepted is refused by the first pass that refuses it.
pub fn build(alloc: Global, text: &[u8]) -> Result<Built, Fault>
    requires { length text.now ≤ 1048576 }
    ensures built { IfOk result (λ b. IsBuilt text.now b.typed b.code b.solved b.cured) }

    // Where its kinds make it plain, the cured program runs as the text does.
    ensures alike { IfOk result (λ b. RunsAlikeIfPlain b.typed b.code b.solved b.cured) }
    ensures refused { IfErr result (λ fault. fault ≢ IsNoMemory → IsFirstRefusal text.now fault) }

    // A text that is accepted is not refused.
    ensures accepts { (T : Table) (whole : TypedTranslationUnit) → IsTypedText text.now T whole
        → IfErr result (λ fault. fault ≡ IsNoMemory) }
{
    match infer(alloc, text) {
        Ok(inferred) => build_inferred(alloc, inferred),
        Err(fault) => Err(fault),
    }
}

/// What was inferred of a text, with its cured program.
fn build_inferred(alloc: Global, inferred: Inferred) -> Result<Built, Fault>
    requires { (text : List ℕ) × IsInferred text inferred.typed inferred.code inferred.solved }
    ensures built { IfOk result (λ b. (text : List ℕ)
        → IsInferred text inferred.typed inferred.code inferred.solved
        → IsBuilt text b.typed b.code b.solved b.cured) }
    ensures wants { IfErr result (λ fault. fault ≡ IsNoMemory) }
{
    let cured = curing(alloc, &inferred.code, &inferred.solved);
    let (inferred, cured) = beside(inferred, cured)?;
    let Inferred {
        typed,
        code,
        solved,
    } = inferred;
    Ok(Built {
        typed,
        code,
        solved,
        cured,
    })
}
