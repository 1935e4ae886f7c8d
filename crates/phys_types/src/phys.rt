//! Questions on two types, each answered afresh.
#![tactic(auto)]

ghost use Rattle.std.specs.Prelude.{ℕ, ◌≡◌, ◌≢◌, ◌≤◌, ◌<◌, ◌||◌, if◌then◌else◌, IfOk};
ghost use Rattle.std.specs.List.{AllPairs};
ghost use Rattle.cc_base.specs.declared.number.TypeId.{TypeId};
ghost use Rattle.cc_base.specs.declared.number.NodeId.{NodeId};
ghost use Rattle.cc_base.specs.declared.kind.Kind.{Kind};
ghost use Rattle.c_types.specs.declared.flow_class.FlowClass.TheVariants.{UpTile, Up, DownTile, Down};
ghost use Rattle.c_types.specs.Table.{IsType, is_function};
ghost use Rattle.c_types.specs.Equality.{tile, begins_with};
ghost use Rattle.c_types.specs.Flows.{flow_class};
ghost use Rattle.c_types.specs.Sound.{IsWellFormed};
ghost use Rattle.phys_types.specs.Numbers.{number_in, same_number};
ghost use Rattle.phys_types.specs.Pairs.{AreCorrespondingNodes, TellsEqualKinds};
ghost use Rattle.phys_types.specs.Orders.{IsWholeOrder};
ghost use Rattle.phys_types.specs.Rounds.{AreSettled};
ghost use Rattle.phys_types.specs.Views.{IsPair};

use crate::building::{kept, lend_type};
use crate::comparing::{begins, number_of};
use crate::following::follow;
use crate::found::Found;
use crate::keeping::Repeated;
use crate::known::Known;
use crate::spot::Layout;
use crate::tiling::tiles;
use crate::top::add_top;
use c_types::{FlowClass, TypeShape, Types};
use cc_base::{NoMemory, NodeId, TypeId};
use std::alloc::Global;

/// Answers questions on how the layouts of two types lie to each other (CCured, TOPLAS 2005).
///
/// Each question begins afresh, so an answer is about the table that is handed in with it.
#[derive(Debug)]
pub struct Phys {
    alloc: Global,
}

impl Drop for Phys {
    fn drop(self) {
        let Self { alloc: _ } = self;
    }
}

impl Phys {
    /// One that has answered nothing so far. Takes no memory.
    pub fn new(alloc: Global) -> Phys {
        Phys { alloc }
    }

    /// What is known of all types of a table, for many questions about it.
    pub fn over<'a>(&self, types: &'a Types) -> Result<Known<'a>, NoMemory>
        ensures { IfOk result (λ known. known ≡ types.now) }
    {
        Known::of(self.alloc, types)
    }

    /// The class of a flow from a pointer to `from` to a pointer to `to`.
    pub fn class(&mut self, types: &Types, from: TypeId, to: TypeId) -> Result<FlowClass, NoMemory>
        requires from { IsType types.now from }
        requires to { IsType types.now to }
        ensures { IfOk result (λ class. class ≡ flow_class types.now from to) }
    {
        self.over(types)?.class(from, to)
    }

    /// The nodes of the pointers that correspond in a flow from a pointer to `from` to a pointer to `to`, at every depth: of each two
    /// such pointers the node of the one and the node of the other. No pair is there twice, and their order says nothing.
    ///
    /// They are the pointers that describe the same bytes: at the same offsets where the flow is Equal, Up or Down; where their
    /// offsets agree modulo the greatest common divisor of the two sizes, across the two types and within each, where it is UpTile or
    /// DownTile; the results and the parameters, one by one, of functions; and at the same places of what two corresponding pointers
    /// point to. A Bad flow has none.
    pub fn pairs(
        &mut self,
        types: &Types,
        from: TypeId,
        to: TypeId,
    ) -> Result<Vec<(NodeId, NodeId)>, NoMemory>
        requires from { IsType types.now from }
        requires to { IsType types.now to }
        ensures nodes { IfOk result (λ pairs. AreCorrespondingNodes types.now from to pairs.items) }
        ensures once { IfOk result (λ pairs. AllPairs (λ x y. x ≢ y) pairs.items) }
        ensures kinds { (kind : NodeId → Kind) → IfOk result
            (λ pairs. TellsEqualKinds types.now from to kind pairs.items) }
    {
        self.over(types)?.pairs(from, to)
    }
}

/// The nodes of the pointers that correspond in a flow between two types of a table whose types are settled.
pub(crate) fn settled_pairs(
    alloc: Global,
    types: &Types,
    order: &[TypeId],
    places: &[usize],
    numbers: &[usize],
    layouts: &[Repeated],
    from: TypeId,
    to: TypeId,
) -> Result<Vec<(NodeId, NodeId)>, NoMemory>
    requires formed { IsWellFormed types.now }
    requires order { IsWholeOrder types.now order.now places.now }
    requires settled { AreSettled types.now order.now numbers.now layouts.now }
    requires from { IsType types.now from }
    requires to { IsType types.now to }
    ensures nodes { IfOk result (λ pairs. AreCorrespondingNodes types.now from to pairs.items) }
    ensures once { IfOk result (λ pairs. AllPairs (λ x y. x ≢ y) pairs.items) }
{
    let class = settled_class(alloc, types, order, places, numbers, layouts, from, to)?;
    let mut found = Found::new(alloc);
    let x = kept(places, layouts, from);
    let y = kept(places, layouts, to);
    add_top(alloc, types, &mut found, class, from, x, to, y)?;
    follow(types, places, layouts, &mut found)?;
    found.into_nodes(alloc)
}

/// The class of a flow between two types of a table whose types are settled.
pub(crate) fn settled_class(
    alloc: Global,
    types: &Types,
    order: &[TypeId],
    places: &[usize],
    numbers: &[usize],
    layouts: &[Repeated],
    from: TypeId,
    to: TypeId,
) -> Result<FlowClass, NoMemory>
    requires formed { IsWellFormed types.now }
    requires order { IsWholeOrder types.now order.now places.now }
    requires settled { AreSettled types.now order.now numbers.now layouts.now }
    requires from { IsType types.now from }
    requires to { IsType types.now to }
    ensures { IfOk result (λ class. class ≡ flow_class types.now from to) }
{
    let x = lend_type(alloc, places, layouts, from)?;
    let y = lend_type(alloc, places, layouts, to)?;
    class_of(alloc, types, numbers, from, x.layout(), to, y.layout())
}

/// Whether a type is a function type.
fn is_function(types: &Types, t: TypeId) -> bool
    requires { IsType types.now t }
    ensures { result ≡ is_function types.now t }
{
    matches!(types.shape(t), TypeShape::Function(_, _))
}

/// Whether one of two types is a function type.
pub(crate) fn is_one_function(types: &Types, t: TypeId, u: TypeId) -> bool
    requires first { IsType types.now t }
    requires second { IsType types.now u }
    ensures { result ≡ (is_function types.now t || is_function types.now u) }
{
    is_function(types, t) || is_function(types, u)
}

/// The class of a flow from a type to one that it begins with.
fn upward(tile: bool) -> FlowClass
    ensures { result ≡ (if tile then UpTile else Up) }
{
    if tile {
        FlowClass::UpTile
    } else {
        FlowClass::Up
    }
}

/// The class of a flow from a type to one that begins with it.
fn downward(tile: bool) -> FlowClass
    ensures { result ≡ (if tile then DownTile else Down) }
{
    if tile {
        FlowClass::DownTile
    } else {
        FlowClass::Down
    }
}

/// The class of a flow between two types, from their layouts.
fn class_of(
    alloc: Global,
    types: &Types,
    numbers: &[usize],
    from: TypeId,
    x: &Layout,
    to: TypeId,
    y: &Layout,
) -> Result<FlowClass, NoMemory>
    requires formed { IsWellFormed types.now }
    requires from { IsType types.now from }
    requires to { IsType types.now to }
    requires view { IsPair types.now (number_in numbers.now) from x.now to y.now }
    ensures { IfOk result (λ class. class ≡ flow_class types.now from to) }
{
    if number_of(numbers, from) == number_of(numbers, to) {
        return Ok(FlowClass::Equal);
    }
    if is_one_function(types, from, to) {
        return Ok(FlowClass::Bad);
    }
    if begins(numbers, x, y) {
        let tile = tiles(alloc, numbers, x, y.size)?;
        return Ok(upward(tile));
    }
    if begins(numbers, y, x) {
        let tile = tiles(alloc, numbers, y, x.size)?;
        return Ok(downward(tile));
    }
    Ok(FlowClass::Bad)
}
