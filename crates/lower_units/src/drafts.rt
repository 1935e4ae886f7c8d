//! What a draft of code gives.
ghost use Rattle.std.specs.Prelude.{◌≡◌, true, IfOk};

use cc_base::NoMemory;
use cil_form::Code;
use lower_exprs::Draft;

/// The code that was made, where nothing failed. All that was met has code, so that want of memory alone makes it fail.
pub(crate) fn finished(out: Draft) -> Result<Code, NoMemory>
    requires { out.ready ≡ true }
    ensures { IfOk result (λ code. (out.fine ≡ true) × (code.0.items ≡ out.items.items)) }
{
    if out.fine {
        Ok(Code(out.items))
    } else {
        Err(NoMemory)
    }
}
