//! The cured code of calls and returns, and what stands around that of bodies: the prologue of a function, and the entry to `main` from function 0.
#![tactic(auto)]

mod calling;
mod entry;
mod prologue;
mod returning;

pub use calling::put_call;
pub use entry::put_main;
pub use prologue::put_parameters;
pub use returning::put_return;
