//! The pointers at the same places of two types.
#![tactic(auto)]

ghost use Rattle.std.specs.Prelude.{◌≡◌, ◌*◌, ◌<◌, ◌≤◌, ◌⊎◌, ◌^◌, ◌-◌, length, min, OnOk, IsTrue};
ghost use Rattle.std.specs.List.{All};
ghost use Rattle.c_types.specs.Table.{IsType, shape_at};
ghost use Rattle.c_types.specs.Equality.{physically_equal};
ghost use Rattle.c_types.specs.Flows.{StandAlike, pointer_of_shape};
ghost use Rattle.c_types.specs.Sound.{IsWellFormed};
ghost use Rattle.phys_types.specs.Found.{Gains};
ghost use Rattle.phys_types.specs.InTurn.{IsInTurn, IsTurn};
ghost use Rattle.phys_types.specs.Shown.{IsKeptOf, all_spots};
ghost use Rattle.phys_types.specs.Standing.{shown, pointer_of_item, AreBoth, IsAtSpot, IsAtSlot, StandInTurn, StandBefore};

use crate::found::Found;
use crate::held::Held;
use crate::keeping::Repeated;
use crate::spot::{Item, Spot};
use c_types::{TypeShape, Types};
use cc_base::{NoMemory, TypeId};

/// The pointer at a spot, if one stands there.
pub(crate) fn pointer_at(spot: Spot) -> Option<Held>
    ensures { shown result ≡ pointer_of_item spot.item }
{
    match spot.item {
        Item::Pointer(node, to) => Some(Held { node, to }),
        _ => None,
    }
}

/// The pointer that a type is, if it is one.
fn pointer_of(types: &Types, t: TypeId) -> Option<Held>
    requires { IsType types.now t }
    ensures { shown result ≡ pointer_of_shape (shape_at types.now t) }
{
    match types.shape(t) {
        TypeShape::Pointer(node, to) => Some(Held {
            node: *node,
            to: *to,
        }),
        _ => None,
    }
}

/// Adds two pointers, if there are two.
fn add_both(found: &mut Found, p: Option<Held>, q: Option<Held>) -> Result<(), NoMemory>
    ensures { OnOk result (Gains (AreBoth (shown p) (shown q)) found.old found.new) }
{
    match (p, q) {
        (Some(p), Some(q)) => found.add(p, q),
        _ => Ok(()),
    }
}

/// Adds the pointers that have the same number, below `count`, among two lists of spots that stand again and again.
fn add_turns(found: &mut Found, xs: &[Spot], ys: &[Spot], count: usize) -> Result<(), NoMemory>
    requires first { 0 < length xs.now }
    requires second { 0 < length ys.now }
    ensures { OnOk result (Gains (StandBefore count (IsInTurn xs.now) (IsInTurn ys.now)) found.old
        found.new) }
{
    'turns: for i in 0..count {
        let p = pointer_at(xs[i % xs.len()]);
        let q = pointer_at(ys[i % ys.len()]);
        add_both(found, p, q)?;
    }
    Ok(())
}

/// After how many spots two lists of so many begin anew at once.
fn unit(k: usize, l: usize) -> usize
    requires first { 0 < k }
    requires second { 0 < l }
    ensures { result < 2 ^ 64 - 1 → IsTurn k l result }
{
    if k % l == 0 {
        k
    } else if l % k == 0 {
        l
    } else {
        k.saturating_mul(l)
    }
}

/// How many spots to go over, of `m` that are `k` again and again and `n` that are `l`, to see each pair that has the same number.
fn turns(k: usize, m: usize, l: usize, n: usize) -> usize
    requires first { 0 < k }
    requires second { 0 < l }
    ensures within_first { result ≤ m }
    ensures within_second { result ≤ n }
    ensures all { (result ≡ min m n) ⊎ IsTurn k l result }
{
    let all = m.min(n);
    let turn = unit(k, l);
    if turn < all { turn } else { all }
}

/// Adds the pointers that have the same number among the spots of two layouts of copies. Goes over those of one copy of each, or of
/// as many as begin anew at once.
pub(crate) fn add_copies(found: &mut Found, x: &Repeated, y: &Repeated) -> Result<(), NoMemory>
    requires first { x.now.count * length x.now.part.spots.items ≤ 1048576 }
    requires second { y.now.count * length y.now.part.spots.items ≤ 1048576 }
    ensures { OnOk result (Gains (StandInTurn (IsAtSpot (all_spots x.now))
        (IsAtSpot (all_spots y.now))) found.old found.new) }
{
    let k = x.part.spots.len();
    let l = y.part.spots.len();
    if k == 0 || l == 0 {
        return Ok(());
    }
    let count = turns(k, x.count as usize * k, l, y.count as usize * l);
    add_turns(found, &x.part.spots, &y.part.spots, count)
}

/// Adds the pointers that have the same number among two lists of types.
fn add_slots(types: &Types, found: &mut Found, ts: &[TypeId], us: &[TypeId]) -> Result<(), NoMemory>
    requires first { All (IsType types.now) ts.now }
    requires second { All (IsType types.now) us.now }
    ensures { OnOk result (Gains (StandInTurn (IsAtSlot types.now ts.now)
        (IsAtSlot types.now us.now)) found.old found.new) }
{
    'slots: for i in 0..ts.len().min(us.len()) {
        add_both(found, pointer_of(types, ts[i]), pointer_of(types, us[i]))?;
    }
    Ok(())
}

/// Adds the pointers at the same places of two physically equal types: at the same offsets of data types, and the results and
/// parameters of functions, one by one.
pub(crate) fn add_alike(
    types: &Types,
    found: &mut Found,
    t: TypeId,
    x: &Repeated,
    u: TypeId,
    y: &Repeated,
) -> Result<(), NoMemory>
    requires formed { IsWellFormed types.now }
    requires first { IsType types.now t }
    requires second { IsType types.now u }
    requires equal { IsTrue (physically_equal types.now t u) }
    requires first_kept { IsKeptOf types.now (physically_equal types.now) t x.now }
    requires second_kept { IsKeptOf types.now (physically_equal types.now) u y.now }
    ensures { OnOk result (Gains (StandAlike types.now t u) found.old found.new) }
{
    match types.shape(t) {
        TypeShape::Function(ps, r) => match types.shape(u) {
            TypeShape::Function(qs, s) => {
                add_both(found, pointer_of(types, *r), pointer_of(types, *s))?;
                add_slots(types, found, ps.ids(), qs.ids())
            }
            _ => Ok(()),
        },
        _ => add_copies(found, x, y),
    }
}
