//! Numbers of types that are made finer: what looks apart gets another number. Physically equal types keep one.
#![tactic(auto)]

ghost use Rattle.std.specs.Prelude.{ℕ, ◌≡◌, ◌<◌, List, length, slice_index_or, IfOk};
ghost use Rattle.std.specs.List.{All};
ghost use Rattle.cc_base.specs.declared.number.TypeId.{TypeId};
ghost use Rattle.c_types.specs.Table.{IsType};
ghost use Rattle.c_types.specs.Cells.{Relation};
ghost use Rattle.c_types.specs.Sound.{IsWellFormed};
ghost use Rattle.phys_types.specs.declared.keeping.Repeated.{Repeated};
ghost use Rattle.phys_types.specs.Numbers.{number_in};
ghost use Rattle.phys_types.specs.Orders.{IsWholeOrder};
ghost use Rattle.phys_types.specs.Refining.{IsCoarser, IsWide};
ghost use Rattle.phys_types.specs.Rounds.{AreShown};
ghost use Rattle.phys_types.specs.Shown.{IsKept, IsLowKept};
ghost use Rattle.phys_types.specs.Signatures.{mixed, front_form, front_targets};
ghost use Rattle.phys_types.specs.Turning.{list_in, HasType};

use crate::building::kept;
use crate::comparing::number_of;
use crate::keeping::Repeated;
use crate::lending::lend_front;
use crate::numbered::Numbered;
use crate::readers::readers;
use crate::signature::{form_of, mixed, targets_of};
use crate::turning::{Graph, sizes, turn};
use c_types::Types;
use cc_base::{NoMemory, TypeId};
use std::alloc::Global;

/// The most turns of refining. Numbers that are not as fine as they can be by then are made so by rounds.
const MOST_TURNS: usize = 4_294_967_296;

/// A number that tells the form of a type apart, as far as its first spots show it.
fn front_form(
    alloc: Global,
    types: &Types,
    own: &Repeated,
    limit: usize,
    t: TypeId,
) -> Result<usize, NoMemory>
    requires formed { IsWellFormed types.now }
    requires typed { IsType types.now t }
    requires low { IsLowKept own.now }
    ensures { IfOk result (λ form. form ≡ front_form types.now limit t own.now) }
{
    let lent = lend_front(alloc, own, limit)?;
    let front = lent.layout();
    Ok(form_of(types, t, front.size, &front.spots))
}

/// What a type points to, as far as its first spots show it.
fn front_targets(
    alloc: Global,
    types: &Types,
    own: &Repeated,
    limit: usize,
    t: TypeId,
) -> Result<Vec<TypeId>, NoMemory>
    requires formed { IsWellFormed types.now }
    requires typed { IsType types.now t }
    requires low { IsLowKept own.now }
    ensures { IfOk result (λ targets. targets.items ≡ front_targets types.now limit t own.now) }
{
    let lent = lend_front(alloc, own, limit)?;
    targets_of(alloc, types, t, &lent.layout().spots)
}

/// Numbers that tell the forms of types apart, and the numbers that they have.
fn formed(
    alloc: Global,
    types: &Types,
    places: &[usize],
    layouts: &[Repeated],
    numbers: &[usize],
    limit: usize,
) -> Result<Vec<usize>, NoMemory>
    requires formed { IsWellFormed types.now }
    requires kept { (t : TypeId) → IsType types.now t → IsKept places.now layouts.now t }
    requires low { All IsLowKept layouts.now }
    ensures fits { IfOk result (λ ns. length ns.items ≡ length types.now) }
    ensures numbers { (d : Repeated) (t : TypeId) → IsType types.now t
        → IfOk result (λ ns. number_in ns.items t ≡ mixed (number_in numbers.now t)
        (front_form types.now limit t
        (slice_index_or layouts.now (slice_index_or places.now t.0 0) d))) }
{
    let mut forms = Vec::with_capacity(alloc, types.count() as usize)?;
    'types: for t in 0..types.count() {
        let own = kept(places, layouts, TypeId(t));
        let form = front_form(alloc, types, own, limit, TypeId(t))?;
        forms.push(mixed(number_of(numbers, TypeId(t)), form))?;
    }
    Ok(forms)
}

/// What each type points to.
fn targets(
    alloc: Global,
    types: &Types,
    places: &[usize],
    layouts: &[Repeated],
    limit: usize,
) -> Result<Vec<Vec<TypeId>>, NoMemory>
    requires formed { IsWellFormed types.now }
    requires kept { (t : TypeId) → IsType types.now t → IsKept places.now layouts.now t }
    requires low { All IsLowKept layouts.now }
    ensures fits { IfOk result (λ targets. length targets.items ≡ length types.now) }
    ensures targets { (d : Repeated) (t : TypeId) → IsType types.now t
        → IfOk result (λ targets. list_in targets.items t ≡ front_targets types.now limit t
        (slice_index_or layouts.now (slice_index_or places.now t.0 0) d)) }
{
    let mut targets = Vec::with_capacity(alloc, types.count() as usize)?;
    'types: for t in 0..types.count() {
        let own = kept(places, layouts, TypeId(t));
        let list = front_targets(alloc, types, own, limit, TypeId(t))?;
        targets.push(list)?;
    }
    Ok(targets)
}

/// All types, each with the number 0.
fn all_types(alloc: Global, count: u32) -> Result<Vec<Numbered>, NoMemory>
    ensures { IfOk result (λ all. (t : TypeId) → t.0 < count → HasType all.items t) }
{
    let mut all = Vec::with_capacity(alloc, count as usize)?;
    'types: for t in 0..count {
        all.push(Numbered {
            ty: TypeId(t),
            number: 0,
        })?;
    }
    Ok(all)
}

/// Numbers that are finer: types of one number look alike, as far as the turns went and their first spots show it, as many as the limit
/// says.
///
/// Types of one number that look apart get other numbers, but for the most of them; what points to those is looked at in the next turn.
pub(crate) fn refine(
    alloc: Global,
    types: &Types,
    places: &[usize],
    layouts: &[Repeated],
    numbers: &[usize],
    limit: usize,
) -> Result<Vec<usize>, NoMemory>
    requires formed { IsWellFormed types.now }
    requires kept { (t : TypeId) → IsType types.now t → IsKept places.now layouts.now t }
    requires low { All IsLowKept layouts.now }
    ensures { (E : Relation) (order : List TypeId) → IsWholeOrder types.now order places.now
        → IsWide types.now E → length layouts.now ≡ length order
        → AreShown types.now E order layouts.now → IsCoarser types.now numbers.now
        → IfOk result (λ finer. IsCoarser types.now finer.items) }
{
    let targets = targets(alloc, types, places, layouts, limit)?;
    let readers = readers(alloc, types.count(), &targets)?;
    let graph = Graph { targets, readers };
    let mut finer = formed(alloc, types, places, layouts, numbers, limit)?;
    let mut fresh = Vec::from_slice(alloc, &finer)?;
    let mut sizes = sizes(alloc, &finer)?;
    let mut changed = all_types(alloc, types.count())?;
    'turns: for _turn in 0..MOST_TURNS {
        if changed.is_empty() {
            return Ok(finer);
        }
        changed = turn(alloc, &graph, &mut sizes, &mut finer, &mut fresh, &changed)?;
    }
    Ok(finer)
}
