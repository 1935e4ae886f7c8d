//! The prologue of a function: its parameters are stored into their variables.
ghost use Rattle.std.specs.Prelude.{◌≡◌, ◌+◌, ◌*◌, ◌≤◌, ◌<◌, length};
ghost use Rattle.check_insert.specs.Drafts.{Grows};
ghost use Rattle.cure_scope.specs.Scopes.{whole_of, world_of};
ghost use Rattle.cure_instrs.specs.Cured.{CanReach};
ghost use Rattle.cure_calls.specs.Storing.{ParameterStored, ParametersStored, CanStoreAll};

use crate::calling::words_in;
use cc_base::{NodeId, TypeId};
use check_forms::PointerSlots;
use check_insert::{Draft, keep, put, refuse};
use cil_form::Parameter;
use cure_instrs::{integer_in, pointer_in, put_integer_stored, put_pointer_stored};
use cure_scope::{ADDRESS, NOUGHT, Scope};
use cured_code::Instr;

/// A parameter that comes from slot p on is stored into a new variable.
fn put_parameter(out: &mut Draft, k: &Scope<'_>, home: NodeId, t: TypeId, p: u32, variable: u32)
    requires { p + 3 ≤ 1948 }
    ensures { Grows (ParameterStored (world_of k.now) home t p variable)
        (CanReach (whole_of k.now) home t) out.old out.new }
{
    let outer = k.kind_of(home);
    let s = PointerSlots {
        first: ADDRESS,
        second: ADDRESS,
        third: NOUGHT,
    };
    put(out, Instr::Frame(ADDRESS, variable));
    match integer_in(k, t) {
        Some(i) => put_integer_stored(out, outer, i.bytes, s, p),
        None => match pointer_in(k, t) {
            Some(q) => put_pointer_stored(out, k, outer, k.kind_of(q.node), (s, p)),
            None => refuse(out),
        },
    }
}

/// The parameters, whose words come from slot p on, are stored, the first that has a name into this variable.
pub fn put_parameters(
    out: &mut Draft,
    k: &Scope<'_>,
    parameters: &[Parameter],
    p: u32,
    variable: u32,
)
    requires slots { p + 3 * length parameters.now + 3 ≤ 1948 }
    requires variables { variable + length parameters.now < 4294967296 }
    ensures { Grows (ParametersStored (world_of k.now) parameters.now p variable)
        (CanStoreAll (whole_of k.now) parameters.now) out.old out.new }
{
    let Some((first, rest)) = parameters.split_first() else {
        return keep(out);
    };
    let next = p + words_in(k, first.ty);
    match first.home {
        Some(home) => {
            put_parameter(out, k, home, first.ty, p, variable);
            put_parameters(out, k, rest, next, variable + 1)
        }
        None => put_parameters(out, k, rest, next, variable),
    }
}
