//! Parts in boxes: what is in a box is dropped by one call, wherever reading stops.
#![tactic(auto)]

ghost use Rattle.std.specs.Prelude.{◌≡◌, IfOk};

use c_parse_words::measured::Measured;
use c_tree::Boxed;
use std::alloc::{AllocError, Global};

/// The same part, boxed.
pub fn boxed<T: Drop>(alloc: Global, part: Measured<T>) -> Result<Measured<Boxed<T>>, AllocError>
    ensures { IfOk result (λ m. (m.tree ≡ part.tree) × (m.height ≡ part.height)) }
{
    Ok(Measured {
        height: part.height,
        tree: Boxed::new(alloc, part.tree)?,
    })
}
