//! The cured code of calls of the C library.
ghost use Rattle.cil_form.specs.Typing.{Typing};
ghost use Rattle.check_insert.specs.Drafts.{Grows};
ghost use Rattle.cure_scope.specs.declared.scope.Scope.{Scope};
ghost use Rattle.cure_scope.specs.Scopes.{world_of};
ghost use Rattle.cure_blocks.specs.Cured.{RuntimeCured};

use check_insert::{Draft, keep, put};
use cil_form::RuntimeCall;
use cure_scope::column;
use cured_code::{Instr, Narrow};

/// A call of the C library that is no allocation. Nothing is reclaimed by `free`; `putchar` gives the byte that it writes.
pub fn put_runtime(out: &mut Draft, i: RuntimeCall)
    ensures { (k : Scope) (types : Typing) → Grows (RuntimeCured i (world_of k) types)
        (Unit {0}) out.old out.new }
{
    match i {
        RuntimeCall::Free {
            into: _,
            pointer: _,
        } => keep(out),
        RuntimeCall::Getchar { into } => put(out, Instr::Get(column(into))),
        RuntimeCall::Putchar { into, value } => {
            let byte = column(value);
            put(out, Instr::Put(byte));
            put(out, Instr::Ext(column(into), byte, Narrow::U8))
        }
        RuntimeCall::Exit { into: _, status } => put(out, Instr::Exit(column(status))),
    }
}
