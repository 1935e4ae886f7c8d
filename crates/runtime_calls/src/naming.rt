//! The runtime functions by their names.
#![tactic(auto)]

ghost use Rattle.std.specs.Prelude.{◌≡◌, MatchOption};
ghost use Rattle.runtime_calls.specs.Prototypes.{IsNamed, IsNoName, runtime_of};

use crate::function::name_of;
use c_tree::Runtime;

/// Every runtime function.
const RUNTIME: [Runtime; 6] = [
    Runtime::Malloc,
    Runtime::Calloc,
    Runtime::Free,
    Runtime::Getchar,
    Runtime::Putchar,
    Runtime::Exit,
];

/// The first runtime function that has the name.
fn first_named(name: &[u8]) -> Option<Runtime>
    ensures { result ≡ runtime_of name.now }
{
    RUNTIME.iter().copied().find(|each| name_of(*each) == name)
}

/// The runtime function with a name. Takes no memory.
pub fn runtime(name: &[u8]) -> Option<Runtime>
    ensures { MatchOption result (IsNoName name.now) (λ r. IsNamed name.now r) }
{
    first_named(name)
}
