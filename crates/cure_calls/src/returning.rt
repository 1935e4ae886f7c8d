//! The cured code of a return with a value.
ghost use Rattle.std.specs.Prelude.{◌≡◌, ◌≢◌, ◌+◌, ◌≤◌, [], ◌∷◌, map};
ghost use Rattle.check_forms.specs.Pieces.{Line};
ghost use Rattle.check_insert.specs.Drafts.{Grows};
ghost use Rattle.cil_form.specs.Machine.{plan};
ghost use Rattle.cure_scope.specs.Scopes.{whole_of, world_of};
ghost use Rattle.cil_form.specs.Typing.{Typing};
ghost use Rattle.cure_calls.specs.Lines.{ReturnAsks, CanReturn};
ghost use Rattle.cure_calls.specs.Cured.{ReturnCured};

use cc_base::{Kind, Place, TypeId};
use check_forms::Op;
use check_insert::{Draft, keep, put, refuse};
use cil_form::Temp;
use cure_instrs::{home_slot, integer_in, pointer_in};
use cure_scope::{Scope, column, pointer_slots, put_guarded};
use cured_code::Instr;

/// What is asked of a pointer that is returned.
fn put_return_asks(out: &mut Draft, k: &Scope<'_>, kind: Kind, a: u32, at: Place)
    requires { a + 3 ≤ 1948 }
    ensures { Grows (ReturnAsks (map plan k.now.variables.now) kind a at)
        (Unit {0}) out.old out.new }
{
    match k.variables.split_first() {
        None => keep(out),
        Some((_, _)) => put_guarded(
            out,
            Op::ReturnPointer {
                home: home_slot(kind, pointer_slots(a)),
            },
            kind,
            at,
        ),
    }
}

/// A function returns a value of the type.
pub fn put_return(out: &mut Draft, k: &Scope<'_>, value: Temp, ty: TypeId, at: Place)
    ensures { (types : Typing) → Grows (ReturnCured value ty at (world_of k.now) types)
        (CanReturn (world_of k.now) ty) out.old out.new }
{
    let a = column(value);
    if k.number == 0 {
        return refuse(out);
    }
    match integer_in(k, ty) {
        Some(_) => put(out, Instr::Return(a)),
        None => match pointer_in(k, ty) {
            Some(p) => {
                put_return_asks(out, k, k.kind_of(p.node), a, at);
                put(out, Instr::Return(a))
            }
            None => refuse(out),
        },
    }
}
