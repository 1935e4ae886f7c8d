//! Function 0, where the program starts.
ghost use Rattle.std.specs.Prelude.{◌≡◌, ◌<◌, IfOk};
ghost use Rattle.cure_rules.specs.Programs.{IsStart};
ghost use Rattle.cure_scope.specs.Scopes.{world_of};
ghost use Rattle.cure_code.specs.Settings.{IsSet, first_world};
ghost use Rattle.cure_code.specs.Codes.{StartCode, IsCurableBody};

use crate::drafts::{empty, finished};
use crate::setting::{Own, Setting, leave, scope};
use cc_base::NoMemory;
use cil_form::Program;
use cure_bodies::put_body;
use cure_calls::put_main;
use cure_scope::Scope;
use cured_code::{Code, Function, Locals};
use phys_types::Known;
use std::alloc::Global;

/// The code of function 0 in its scope.
fn code_in(
    alloc: Global,
    known: &Known<'_>,
    k: &Scope<'_>,
    program: &Program,
) -> Result<Code, NoMemory>
    requires known { known.now ≡ k.now.layouts.now.table }
    requires main { program.now.main.0 < 65535 }
    requires curable { IsCurableBody (world_of k.now) program.now.initialisers.0.items }
    ensures { IfOk result (λ code. StartCode (world_of k.now) program.now code.0.items) }
{
    let initialisers = &program.initialisers;
    let mut out = empty(alloc);
    put_body(&mut out, k, known, &initialisers.0);
    put_main(&mut out, k, program.main, program.main_place);
    finished(out)
}

/// The code of function 0.
fn code_of(w: &Setting<'_>) -> Result<Code, NoMemory>
    requires { IsSet w.now }
    ensures { IfOk result (λ code. StartCode (first_world w.now) w.now.program.now code.0.items) }
{
    let own = Own {
        number: 0,
        variables: &[],
        result: None,
        parameters: 0,
    };
    let k = scope(w, &own);
    let code = code_in(w.alloc, w.known, &k, w.program);
    leave(k);
    code
}

/// Function 0: the static initialisers run, and `main` is entered.
pub(crate) fn start(w: &Setting<'_>) -> Result<Function, NoMemory>
    requires { IsSet w.now }
    ensures { IfOk result (IsStart (first_world w.now) w.now.program.now) }
{
    let body = code_of(w)?;
    Ok(Function {
        sig: 0,
        slots: 1948,
        charge: 0,
        locals: Locals(Vec::new(w.alloc)),
        body,
    })
}
