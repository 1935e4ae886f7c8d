//! The prototypes of the six runtime functions.
#![tactic(auto)]

ghost use Rattle.std.specs.Prelude.{◌≡◌};
ghost use Rattle.runtime_calls.specs.Prototypes.{runtime_name, prototype_of};

use c_tree::Runtime;

/// A type in the prototype of a runtime function.
#[derive(Clone, Copy, Debug, PartialEq, Eq)]
pub enum RuntimeType {
    Void,
    Int,
    /// The type of sizes (C99 7.17).
    UnsignedLong,
    /// `void *`.
    VoidPointer,
}

/// The name of a runtime function. Takes no memory.
pub fn name_of(function: Runtime) -> &'static [u8]
    ensures { result.now ≡ runtime_name function }
{
    match function {
        Runtime::Malloc => b"malloc",
        Runtime::Calloc => b"calloc",
        Runtime::Free => b"free",
        Runtime::Getchar => b"getchar",
        Runtime::Putchar => b"putchar",
        Runtime::Exit => b"exit",
    }
}

/// The types of the parameters of a runtime function, in order. Takes no memory.
pub fn parameters_of(function: Runtime) -> &'static [RuntimeType]
    ensures { result.now ≡ (prototype_of function).parameters }
{
    match function {
        Runtime::Malloc => &[RuntimeType::UnsignedLong],
        Runtime::Calloc => &[RuntimeType::UnsignedLong, RuntimeType::UnsignedLong],
        Runtime::Free => &[RuntimeType::VoidPointer],
        Runtime::Getchar => &[],
        Runtime::Putchar => &[RuntimeType::Int],
        Runtime::Exit => &[RuntimeType::Int],
    }
}

/// The type of the result of a runtime function. Takes no memory.
pub fn result_of(function: Runtime) -> RuntimeType
    ensures { result ≡ (prototype_of function).result }
{
    match function {
        Runtime::Malloc | Runtime::Calloc => RuntimeType::VoidPointer,
        Runtime::Free | Runtime::Exit => RuntimeType::Void,
        Runtime::Getchar | Runtime::Putchar => RuntimeType::Int,
    }
}
