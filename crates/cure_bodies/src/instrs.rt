//! The cured code of instructions without code, and what they leave.
ghost use Rattle.std.specs.Prelude.{◌≡◌, true};
ghost use Rattle.cil_form.specs.declared.instr.Instr.TheVariants as source;
ghost use Rattle.cure_scope.specs.Scopes.{world_of};
ghost use Rattle.cure_bodies.specs.Holding.{Makes};
ghost use Rattle.cure_bodies.specs.Bodies.{InstrCured};
ghost use Rattle.cure_bodies.specs.Ready.{InstrReady};

use crate::held::held_at;
use crate::holding::{Holdings, note};
use crate::noting::{
    note_allocate, note_calculate, note_call, note_convert, note_point, note_runtime, note_set,
};
use crate::points::{asked, copied, point_asked, put_access, put_point};
use check_insert::Draft;
use cil_form::{Access, Allocate, Calculate, Call, Convert, Point, RuntimeCall, Set};
use cure_blocks::{put_allocate, put_convert, put_runtime};
use cure_calls::put_call;
use cure_instrs::{put_calculate, put_set};
use cure_scope::Scope;
use phys_types::Known;

/// A constant, an address or a copy.
pub(crate) fn set(out: &mut Draft, k: &Scope<'_>, held: &mut Holdings, i: Set)
    requires fine { out.old.fine ≡ true }
    ensures made { Makes (InstrCured (source.Set i) (world_of k.now) held.old held.new) out.old
        out.new }
    ensures ready { InstrReady (source.Set i) (world_of k.now) held.old out.old out.new }
{
    let from = copied(held, i);
    put_set(out, k, from, i);
    note_set(out, k, held, from, i)
}

/// An operator on integers, or a truth value.
pub(crate) fn calculate(out: &mut Draft, k: &Scope<'_>, held: &mut Holdings, i: Calculate)
    requires fine { out.old.fine ≡ true }
    ensures made { Makes (InstrCured (source.Calculate i) (world_of k.now) held.old held.new)
        out.old out.new }
    ensures ready { InstrReady (source.Calculate i) (world_of k.now) held.old out.old out.new }
{
    let operand = asked(held, i);
    put_calculate(out, k, operand, i);
    note_calculate(out, k, held, i)
}

/// An instruction on pointers.
pub(crate) fn point(out: &mut Draft, k: &Scope<'_>, held: &mut Holdings, i: Point)
    requires fine { out.old.fine ≡ true }
    ensures made { Makes (InstrCured (source.Point i) (world_of k.now) held.old held.new) out.old
        out.new }
    ensures ready { InstrReady (source.Point i) (world_of k.now) held.old out.old out.new }
{
    let operand = point_asked(held, i);
    put_point(out, k, operand, i);
    note_point(out, k, held, i)
}

/// A conversion.
pub(crate) fn convert(
    out: &mut Draft,
    k: &Scope<'_>,
    known: &Known<'_>,
    held: &mut Holdings,
    i: Convert,
)
    requires known { known.now ≡ k.now.layouts.now.table }
    requires fine { out.old.fine ≡ true }
    ensures made { Makes (InstrCured (source.Convert i) (world_of k.now) held.old held.new) out.old
        out.new }
    ensures ready { InstrReady (source.Convert i) (world_of k.now) held.old out.old out.new }
{
    put_convert(out, k, known, i);
    note_convert(out, k, held, i)
}

/// A load, a store, or a copy. A load alone writes a temporary.
pub(crate) fn access(
    out: &mut Draft,
    k: &Scope<'_>,
    known: &Known<'_>,
    held: &mut Holdings,
    i: Access,
)
    requires known { known.now ≡ k.now.layouts.now.table }
    requires fine { out.old.fine ≡ true }
    ensures made { Makes (InstrCured (source.Access i) (world_of k.now) held.old held.new) out.old
        out.new }
    ensures ready { InstrReady (source.Access i) (world_of k.now) held.old out.old out.new }
{
    put_access(out, k, known, i);
    match i {
        Access::Load { into, ty, .. } => note(out, held, into, held_at(k, ty)),
        Access::Store { .. } => {}
        Access::Clear { .. } => {}
        Access::Copy { .. } => {}
    }
}

/// An allocation.
pub(crate) fn allocate(
    out: &mut Draft,
    k: &Scope<'_>,
    known: &Known<'_>,
    held: &mut Holdings,
    i: Allocate,
)
    requires known { known.now ≡ k.now.layouts.now.table }
    requires fine { out.old.fine ≡ true }
    ensures made { Makes (InstrCured (source.Allocate i) (world_of k.now) held.old held.new) out.old
        out.new }
    ensures ready { InstrReady (source.Allocate i) (world_of k.now) held.old out.old out.new }
{
    put_allocate(out, k, known, i);
    note_allocate(out, held, i)
}

/// A call.
pub(crate) fn call(out: &mut Draft, k: &Scope<'_>, held: &mut Holdings, i: Call)
    requires fine { out.old.fine ≡ true }
    ensures made { Makes (InstrCured (source.Call i) (world_of k.now) held.old held.new) out.old
        out.new }
    ensures ready { InstrReady (source.Call i) (world_of k.now) held.old out.old out.new }
{
    put_call(out, k, i);
    note_call(out, k, held, i)
}

/// A call of the C library.
pub(crate) fn runtime(out: &mut Draft, k: &Scope<'_>, held: &mut Holdings, i: RuntimeCall)
    requires fine { out.old.fine ≡ true }
    ensures made { Makes (InstrCured (source.Runtime i) (world_of k.now) held.old held.new) out.old
        out.new }
    ensures ready { InstrReady (source.Runtime i) (world_of k.now) held.old out.old out.new }
{
    let _ = k;
    put_runtime(out, i);
    note_runtime(out, held, i)
}
