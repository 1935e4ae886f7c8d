//! Where code begins, and what it gives.
ghost use Rattle.std.specs.Prelude.{◌≡◌, true, IfOk};
ghost use Rattle.check_insert.specs.Drafts.{Starts};
ghost use Rattle.cure_code.specs.Codes.{IsOf};

use cc_base::NoMemory;
use check_insert::Draft;
use cured_code::Code;
use std::alloc::Global;

/// An empty draft.
#[tactic(auto, unfolding(check_insert::specs::Drafts::Starts))]
pub(crate) fn empty(alloc: Global) -> Draft
    ensures { Starts result }
{
    Draft {
        alloc,
        items: Vec::new(alloc),
        fine: true,
        ready: true,
    }
}

/// What was made, where nothing failed. All that was met has code, so that want of memory alone makes it fail.
pub(crate) fn finished(out: Draft) -> Result<Code, NoMemory>
    requires { out.ready ≡ true }
    ensures { IfOk result (IsOf out) }
{
    if out.fine {
        Ok(Code(out.items))
    } else {
        Err(NoMemory)
    }
}
