//! The text of `kinds`.
ghost use Rattle.std.specs.Prelude.{IfOk, List, ℕ};
ghost use Rattle.c_build.specs.Inferred.{HasKinds, IsInferred};

use crate::inferring::Inferred;
use cc_base::NoMemory;
use kind_report::report;
use std::alloc::Global;

/// The lines of the kinds that were inferred of a text: one for each pointer type, and one for each home that is WILD.
pub fn kinds(alloc: Global, inferred: &Inferred) -> Result<Vec<u8>, NoMemory>
    requires { (text : List ℕ) × IsInferred text inferred.now.typed inferred.now.code
        inferred.now.solved }
    ensures { IfOk result (λ lines. (text : List ℕ)
        → IsInferred text inferred.now.typed inferred.now.code inferred.now.solved
        → HasKinds text lines.items) }
{
    report(alloc, &inferred.solved, inferred.typed.printed.as_slice())
}
