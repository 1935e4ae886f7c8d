//! What is seen of types by the kinds of their pointers and the numbers of what these point to.
#![tactic(auto)]

ghost use Rattle.std.specs.Prelude.{◌≡◌, ◌<◌, length};
ghost use Rattle.std.specs.List.{All};
ghost use Rattle.cc_base.specs.Kinds.{kind_at};
ghost use Rattle.c_types.specs.Table.{IsType, AreNodesOf};
ghost use Rattle.c_types.specs.Sound.{IsWellFormed};
ghost use Rattle.fat_layouts.specs.Stops.{HasNode};
ghost use Rattle.phys_types.specs.Numbers.{number_in};
ghost use Rattle.phys_types.specs.Signatures.{mixed, mixed_all};
ghost use Rattle.phys_types.specs.Standing.{pointer_of_item};
ghost use Rattle.rtti_nodes.specs.Numbering.{kind_label, pointer_label, spot_label, slot_label, label_at};

use c_types::{TypeShape, Types};
use cc_base::{Kind, Kinds, NodeId, TypeId};
use phys_types::{Item, Layout, Spot, mixed, number_of};

fn kind_label(kind: Kind) -> usize
    ensures { result ≡ kind_label kind }
{
    match kind {
        Kind::Safe => 1,
        Kind::Seq => 2,
        Kind::Rtti => 3,
        Kind::Wild => 4,
    }
}

/// What is seen of a pointer: its kind, and the number of what it points to.
fn pointer_label(kinds: &Kinds, numbers: &[usize], node: NodeId, to: TypeId) -> usize
    requires { node.0 < length kinds.now }
    ensures { result ≡ mixed (kind_label (kind_at kinds.now node)) (number_in numbers.now to) }
{
    mixed(kind_label(kinds.kind_of(node)), number_of(numbers, to))
}

fn item_label(kinds: &Kinds, numbers: &[usize], item: Item) -> usize
    requires { HasNode (length kinds.now) item }
    ensures { result ≡ pointer_label (kind_at kinds.now) (number_in numbers.now)
        (pointer_of_item item) }
{
    match item {
        Item::Pointer(node, to) => pointer_label(kinds, numbers, node, to),
        _ => 0,
    }
}

/// What is seen of the pointers at spots, in order.
fn spots_label(kinds: &Kinds, numbers: &[usize], spots: &[Spot]) -> usize
    requires { All (λ s. HasNode (length kinds.now) s.item) spots.now }
    ensures { result ≡ mixed_all 0 (spot_label (kind_at kinds.now) (number_in numbers.now))
        spots.now }
{
    let mut label = 0;
    'spots: for spot in spots {
        label = mixed(label, item_label(kinds, numbers, spot.item));
    }
    label
}

/// What is seen of a parameter or a result.
fn slot_label(types: &Types, kinds: &Kinds, numbers: &[usize], p: TypeId) -> usize
    requires typed { IsType types.now p }
    requires nodes { All (λ e. AreNodesOf (length kinds.now) e.shape) types.now }
    ensures { result ≡ slot_label types.now (kind_at kinds.now) (number_in numbers.now) p }
{
    match types.shape(p) {
        TypeShape::Pointer(node, to) => pointer_label(kinds, numbers, *node, *to),
        _ => 0,
    }
}

/// What is seen of a function by its result and its parameters, in order.
fn slots_label(types: &Types, kinds: &Kinds, numbers: &[usize], r: TypeId, ps: &[TypeId]) -> usize
    requires result { IsType types.now r }
    requires parameters { All (IsType types.now) ps.now }
    requires nodes { All (λ e. AreNodesOf (length kinds.now) e.shape) types.now }
    ensures { result ≡ mixed_all (mixed 0 (slot_label types.now (kind_at kinds.now)
        (number_in numbers.now) r))
        (slot_label types.now (kind_at kinds.now) (number_in numbers.now)) ps.now }
{
    let mut label = mixed(0, slot_label(types, kinds, numbers, r));
    'slots: for p in ps {
        label = mixed(label, slot_label(types, kinds, numbers, *p));
    }
    label
}

/// What is seen of a type: types of one class look the same, where types of one class have one number.
pub(crate) fn label_of(
    types: &Types,
    kinds: &Kinds,
    numbers: &[usize],
    t: TypeId,
    layout: &Layout,
) -> usize
    requires formed { IsWellFormed types.now }
    requires typed { IsType types.now t }
    requires nodes { All (λ e. AreNodesOf (length kinds.now) e.shape) types.now }
    requires spots { All (λ s. HasNode (length kinds.now) s.item) layout.now.spots.items }
    ensures { result ≡ label_at types.now (kind_at kinds.now) (number_in numbers.now) t layout.now }
{
    match types.shape(t) {
        TypeShape::Function(ps, r) => slots_label(types, kinds, numbers, *r, ps.ids()),
        _ => spots_label(kinds, numbers, &layout.spots),
    }
}
