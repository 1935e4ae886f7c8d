//! Where a walk that collects begins.
ghost use Rattle.std.specs.Prelude.{◌≡◌, []};

use std::alloc::Global;
use unit_parts::Collected;

/// Nothing is found yet.
pub(crate) fn nothing(alloc: Global) -> Collected
    ensures statics { result.statics.items ≡ [] }
    ensures locals { result.locals.items ≡ [] }
    ensures sites { result.sites.items ≡ [] }
{
    Collected {
        statics: Vec::new(alloc),
        locals: Vec::new(alloc),
        sites: Vec::new(alloc),
        fine: true,
    }
}
