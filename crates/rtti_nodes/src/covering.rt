//! Whether a type covers another: it begins with it, and the pointers at the same places, at every depth, have equal kinds.
#![tactic(auto)]

ghost use Rattle.std.specs.Prelude.{◌≡◌, ◌↔◌, ◌⊎◌, IfOk, IsTrue, length};
ghost use Rattle.std.specs.List.{All, Contains};
ghost use Rattle.cc_base.specs.declared.number.NodeId.{NodeId};
ghost use Rattle.cc_base.specs.Kinds.{kind_at};
ghost use Rattle.c_types.specs.Table.{IsType, AreNodesOf};
ghost use Rattle.c_types.specs.Equality.{physically_equal, begins_with};
ghost use Rattle.c_types.specs.Flows.{CorrespondByPlace};
ghost use Rattle.c_types.specs.Coverage.{covers, of_one_class};
ghost use Rattle.c_types.specs.Sound.{IsWellFormed};
ghost use Rattle.phys_types.specs.Pairs.{HaveNodes};
ghost use Rattle.rtti_nodes.specs.Classes.{IsLastCovered};
ghost use Rattle.rtti_nodes.specs.Numbering.{TellClasses};

use crate::agreeing::{have_equal_kinds, places_agree};
use crate::numbering::ClassNumbers;
use cc_base::{Kinds, NoMemory, NodeId, TypeId};
use phys_types::{Found, Known, number_of};
use std::alloc::Global;

/// The nodes of the pointers at the same places of two types, at every depth, where they are physically equal or the first begins with
/// the second.
fn nodes_by_place(
    alloc: Global,
    known: &Known,
    t: TypeId,
    u: TypeId,
) -> Result<Vec<(NodeId, NodeId)>, NoMemory>
    requires formed { IsWellFormed known.now }
    requires first { IsType known.now t }
    requires second { IsType known.now u }
    requires near { IsTrue (physically_equal known.now t u) ⊎ IsTrue (begins_with known.now t u) }
    ensures { IfOk result (λ pairs. (a b : NodeId) →
        Contains pairs.items (a, b) ↔ HaveNodes (CorrespondByPlace known.now t u) a b) }
{
    let mut found = Found::new(alloc);
    known.add_places(&mut found, t, u)?;
    known.follow(&mut found)?;
    found.into_nodes(alloc)
}

/// Whether a type begins with another. Of two types with as many cells it does so where they are physically equal, which takes less.
fn begins_with(known: &Known, t: TypeId, u: TypeId) -> Result<bool, NoMemory>
    requires formed { IsWellFormed known.now }
    requires first { IsType known.now t }
    requires second { IsType known.now u }
    ensures { IfOk result (λ begins. begins ≡ begins_with known.now t u) }
{
    if known.cell_count(t) == known.cell_count(u) && !known.is_equal(t, u) {
        return Ok(false);
    }
    known.begins_with(t, u)
}

/// Whether a type covers another, by all pairs of pointers that correspond.
fn covers_by_pairs(
    alloc: Global,
    known: &Known,
    kinds: &Kinds,
    t: TypeId,
    u: TypeId,
) -> Result<bool, NoMemory>
    requires formed { IsWellFormed known.now }
    requires first { IsType known.now t }
    requires second { IsType known.now u }
    requires begins { IsTrue (begins_with known.now t u) }
    requires nodes { All (λ e. AreNodesOf (length kinds.now) e.shape) known.now }
    ensures { IfOk result (λ covered. covered ≡ covers known.now (kind_at kinds.now) t u) }
{
    let pairs = nodes_by_place(alloc, known, t, u)?;
    Ok(have_equal_kinds(kinds, &pairs))
}

/// Whether a type covers another.
pub(crate) fn covers(
    known: &Known,
    kinds: &Kinds,
    told: &ClassNumbers,
    t: TypeId,
    u: TypeId,
) -> Result<bool, NoMemory>
    requires formed { IsWellFormed known.now }
    requires first { IsType known.now t }
    requires second { IsType known.now u }
    requires nodes { All (λ e. AreNodesOf (length kinds.now) e.shape) known.now }
    requires told { TellClasses known.now (kind_at kinds.now) told.now }
    ensures { IfOk result (λ covered. covered ≡ covers known.now (kind_at kinds.now) t u) }
{
    if !begins_with(known, t, u)? {
        return Ok(false);
    }
    if !told.are_exact {
        return covers_by_pairs(told.alloc, known, kinds, t, u);
    }
    places_agree(told.alloc, known, kinds, &told.numbers, t, u)
}

/// Whether two types are of one class, by all pairs of pointers that correspond.
fn is_class_by_pairs(
    alloc: Global,
    known: &Known,
    kinds: &Kinds,
    t: TypeId,
    u: TypeId,
) -> Result<bool, NoMemory>
    requires formed { IsWellFormed known.now }
    requires first { IsType known.now t }
    requires second { IsType known.now u }
    requires nodes { All (λ e. AreNodesOf (length kinds.now) e.shape) known.now }
    ensures { IfOk result (λ one. one ≡ of_one_class known.now (kind_at kinds.now) t u) }
{
    if !known.is_equal(t, u) {
        return Ok(false);
    }
    let pairs = nodes_by_place(alloc, known, t, u)?;
    Ok(have_equal_kinds(kinds, &pairs))
}

/// Whether two types are of one class: they are physically equal, and the pointers at the same places, at every depth, have equal
/// kinds.
pub fn is_of_one_class(
    known: &Known,
    kinds: &Kinds,
    told: &ClassNumbers,
    t: TypeId,
    u: TypeId,
) -> Result<bool, NoMemory>
    requires formed { IsWellFormed known.now }
    requires first { IsType known.now t }
    requires second { IsType known.now u }
    requires nodes { All (λ e. AreNodesOf (length kinds.now) e.shape) known.now }
    requires told { TellClasses known.now (kind_at kinds.now) told.now }
    ensures { IfOk result (λ one. one ≡ of_one_class known.now (kind_at kinds.now) t u) }
{
    if number_of(&told.numbers, t) != number_of(&told.numbers, u) {
        return Ok(false);
    }
    if told.are_exact {
        return Ok(true);
    }
    is_class_by_pairs(told.alloc, known, kinds, t, u)
}

/// The number of the last of the types that a type covers, from 1, or 0 where it covers none.
pub(crate) fn last_covered(
    known: &Known,
    kinds: &Kinds,
    told: &ClassNumbers,
    firsts: &[TypeId],
    t: TypeId,
) -> Result<usize, NoMemory>
    requires formed { IsWellFormed known.now }
    requires types { All (IsType known.now) firsts.now }
    requires typed { IsType known.now t }
    requires nodes { All (λ e. AreNodesOf (length kinds.now) e.shape) known.now }
    requires told { TellClasses known.now (kind_at kinds.now) told.now }
    ensures { IfOk result (λ last.
        IsLastCovered known.now (kind_at kinds.now) firsts.now (length firsts.now) t last) }
{
    let mut last = firsts.len();
    'firsts: while last > 0 {
        if covers(known, kinds, told, t, firsts[last - 1])? {
            return Ok(last);
        }
        last -= 1;
    }
    Ok(0)
}
