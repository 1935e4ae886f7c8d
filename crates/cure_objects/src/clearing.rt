//! The cured code that clears objects.
ghost use Rattle.std.specs.Prelude.{◌≡◌, Some, IfSome, IfNone, IsSome, map, slice_get};
ghost use Rattle.check_insert.specs.Drafts.{Grows};
ghost use Rattle.cil_form.specs.Machine.{plan};
ghost use Rattle.cil_form.specs.Typing.{Typing};
ghost use Rattle.cil_form.specs.declared.instr.Access.TheVariants as access;
ghost use Rattle.cure_rules.specs.Accesses.{plan_of};
ghost use Rattle.cure_scope.specs.Scopes.{world_of};
ghost use Rattle.cure_instrs.specs.Cured.{IsHome};
ghost use Rattle.cure_objects.specs.Cured.{HasPlan, ObjectCured};
ghost use Rattle.cure_objects.specs.Lines.{Cleared};

use cc_base::{Kind, TypeId};
use check_insert::{Draft, refuse};
use cil_form::{Object, Planned};
use cure_instrs::{cured_size, put_two, source_size, start_line};
use cure_scope::{ADDRESS, Scope};
use cured_code::Instr;

/// An object of a list.
#[tactic(auto, using(crate::proofs::Rules::plan_rules))]
fn planned_in(all: &[Planned], n: u32) -> Option<Planned>
    ensures there { IfSome result (λ x. slice_get (map plan all.now) n ≡ Some (plan x)) }
    ensures none { IfNone result (IsSome (slice_get (map plan all.now) n) → ⊥) }
{
    match all.get(n as usize) {
        Some(x) => Some(*x),
        None => None,
    }
}

/// What an object is made with.
fn planned(k: &Scope<'_>, o: Object) -> Option<Planned>
    ensures there { IfSome result (λ x. plan_of (world_of k.now) o ≡ Some (plan x)) }
    ensures none { IfNone result (IsSome (plan_of (world_of k.now) o) → ⊥) }
{
    match o {
        Object::Static(n) => planned_in(k.statics, n.0),
        Object::Variable(n) => planned_in(k.variables, n.0),
    }
}

/// An object of the type is cleared, by the kind of its home.
#[tactic(auto, using(cure_instrs::proofs::PieceLaws::refused))]
fn put_cleared(out: &mut Draft, k: &Scope<'_>, kind: Kind, o: Object, t: TypeId)
    ensures { Grows (Cleared kind k.now o t) (IsHome kind) out.old out.new }
{
    let one = start_line(k, o, ADDRESS);
    match kind {
        Kind::Safe => put_two(out, one, Instr::Zero(ADDRESS, cured_size(k, t))),
        Kind::Wild => put_two(out, one, Instr::Tzero(ADDRESS, ADDRESS, source_size(k, t))),
        Kind::Seq => refuse(out),
        Kind::Rtti => refuse(out),
    }
}

/// An object is cleared (C99 6.7.8): its bytes become zero.
pub fn put_clear(out: &mut Draft, k: &Scope<'_>, o: Object)
    ensures { (types : Typing) → Grows (ObjectCured (access.Clear o) (world_of k.now) types)
        (HasPlan (world_of k.now) o) out.old out.new }
{
    match planned(k, o) {
        Some(x) => put_cleared(out, k, k.kind_of(x.home), o, x.ty),
        None => refuse(out),
    }
}
