//! The cured code of a whole body.
ghost use Rattle.std.specs.Prelude.{◌≡◌};
ghost use Rattle.cure_scope.specs.Scopes.{world_of};
ghost use Rattle.cure_bodies.specs.Holding.{Makes};
ghost use Rattle.cure_bodies.specs.Bodies.{BodyCured};
ghost use Rattle.cure_bodies.specs.Ready.{BodyReady};

use crate::holding::Holdings;
use crate::walk::put_code;
use check_insert::Draft;
use cil_form::Instr;
use cure_scope::Scope;
use phys_types::Known;

/// Appends the cured code of a function's body, or of the static initialisers: code that begins and ends with nothing known of the
/// temporaries (CCured, TOPLAS 2005). `known` is what is known of the program's types. Where the code is in shape and may be
/// cured, nothing is met that has no code: want of memory alone makes it fail.
pub fn put_body(out: &mut Draft, k: &Scope<'_>, known: &Known<'_>, code: &[Instr])
    requires { known.now ≡ k.now.layouts.now.table }
    ensures made { Makes (BodyCured code.now (world_of k.now)) out.old out.new }
    ensures ready { BodyReady code.now (world_of k.now) out.old out.new }
{
    let mut held = Holdings {
        items: Vec::new(out.alloc),
    };
    put_code(out, k, known, &mut held, code)
}
