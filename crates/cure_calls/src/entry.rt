//! The entry to `main`.
ghost use Rattle.std.specs.Prelude.{◌≡◌, ◌+◌, ◌<◌, [], ◌∷◌};
ghost use Rattle.cured_code.specs.declared.instr.Instr.TheVariants as instr;
ghost use Rattle.check_forms.specs.declared.op.Op.TheVariants.{EnterMain};
ghost use Rattle.check_insert.specs.Drafts.{Grows};
ghost use Rattle.cure_rules.specs.Programs.{EntersMain};
ghost use Rattle.cure_scope.specs.Scopes.{world_of};

use cc_base::{Kind, Place};
use check_forms::Op;
use check_insert::{Draft, put};
use cil_form::FunctionNumber;
use cure_instrs::put_two;
use cure_scope::{ADDRESS, FIRST, Scope, put_guarded};
use cured_code::Instr;

/// DEPTH of `main`, its call, and the exit with what it gives.
pub fn put_main(out: &mut Draft, k: &Scope<'_>, main: FunctionNumber, at: Place)
    requires { main.0 < 65535 }
    ensures { Grows (EntersMain (world_of k.now) main.0 at) (Unit {0}) out.old out.new }
{
    let _ = k;
    put(out, Instr::Const(ADDRESS, 8 * (u64::from(main.0) + 2)));
    put_guarded(out, Op::EnterMain { address: ADDRESS }, Kind::Safe, at);
    put_two(out, Instr::Call(main.0 + 1, 0, FIRST), Instr::Exit(FIRST))
}
