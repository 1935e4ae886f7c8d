//! Numbers of types that tell their classes: types are of one class where they are physically equal, and the pointers at the same
//! places, at every depth, have equal kinds.
#![tactic(auto)]

ghost use Rattle.std.specs.Prelude.{◌≡◌, IfOk, IsTrue, length};
ghost use Rattle.std.specs.List.{All};
ghost use Rattle.cc_base.specs.Kinds.{kind_at};
ghost use Rattle.c_types.specs.Table.{IsType, AreNodesOf};
ghost use Rattle.c_types.specs.Sound.{IsWellFormed};
ghost use Rattle.rtti_nodes.specs.Numbering.{AreCoarse, AreFine, AreAlikeBy, TellClasses};

use crate::agreeing::places_agree;
use crate::labels::label_of;
use c_types::Types;
use cc_base::{Kinds, NoMemory, TypeId};
use phys_types::{Known, firsts_of, mixed, number_of};
use std::alloc::Global;

/// How often numbers are looked at, with twice as many rounds from one time to the next: more than there are types.
const MOST_LOOKS: usize = 16;

/// Numbers of types. Types of one class have one number; where the numbers are exact, no others have.
#[derive(Drop)]
pub struct ClassNumbers {
    pub alloc: Global,
    pub numbers: Vec<usize>,
    pub are_exact: bool,
}

/// Whether two types are physically equal, and the pointers at the same places have equal kinds and point to types with one number.
fn look_alike(
    alloc: Global,
    known: &Known,
    kinds: &Kinds,
    numbers: &[usize],
    t: TypeId,
    u: TypeId,
) -> Result<bool, NoMemory>
    requires formed { IsWellFormed known.now }
    requires first { IsType known.now t }
    requires second { IsType known.now u }
    requires nodes { All (λ e. AreNodesOf (length kinds.now) e.shape) known.now }
    ensures { IfOk result
        (λ alike. IsTrue alike → AreAlikeBy known.now (kind_at kinds.now) numbers.now t u) }
{
    if t.0 == u.0 {
        return Ok(true);
    }
    if !known.is_equal(t, u) {
        return Ok(false);
    }
    places_agree(alloc, known, kinds, numbers, t, u)
}

/// Whether types with one number are of one class: each is compared with the first of its number.
fn are_fine(
    alloc: Global,
    known: &Known,
    kinds: &Kinds,
    count: u32,
    numbers: &[usize],
) -> Result<bool, NoMemory>
    requires formed { IsWellFormed known.now }
    requires count { count ≡ length known.now }
    requires nodes { All (λ e. AreNodesOf (length kinds.now) e.shape) known.now }
    ensures { IfOk result
        (λ fine. IsTrue fine → AreFine known.now (kind_at kinds.now) numbers.now) }
{
    let firsts = firsts_of(alloc, count, numbers)?;
    'types: for t in 0..count {
        let first = firsts[t as usize];
        if !look_alike(alloc, known, kinds, numbers, TypeId(t), first)? {
            return Ok(false);
        }
    }
    Ok(true)
}

/// Finer numbers: types that look apart have others.
fn finer(
    alloc: Global,
    known: &Known,
    types: &Types,
    kinds: &Kinds,
    numbers: &[usize],
) -> Result<Vec<usize>, NoMemory>
    requires table { known.now ≡ types.now }
    requires nodes { All (λ e. AreNodesOf (length kinds.now) e.shape) types.now }
    ensures { AreCoarse types.now (kind_at kinds.now) numbers.now
        → IfOk result (λ finer. AreCoarse types.now (kind_at kinds.now) finer.items) }
{
    let count = types.count();
    let mut finer = Vec::with_capacity(alloc, count as usize)?;
    'types: for t in 0..count {
        let lent = known.layout(TypeId(t))?;
        let label = label_of(types, kinds, numbers, TypeId(t), lent.layout());
        finer.push(mixed(number_of(numbers, TypeId(t)), label))?;
    }
    Ok(finer)
}

/// Numbers that are made finer as many times.
fn refined(
    alloc: Global,
    known: &Known,
    types: &Types,
    kinds: &Kinds,
    coarse: &[usize],
    times: usize,
) -> Result<Vec<usize>, NoMemory>
    requires table { known.now ≡ types.now }
    requires nodes { All (λ e. AreNodesOf (length kinds.now) e.shape) types.now }
    requires coarse { AreCoarse types.now (kind_at kinds.now) coarse.now }
    ensures { IfOk result (λ fine. AreCoarse types.now (kind_at kinds.now) fine.items) }
{
    let mut numbers = Vec::from_slice(alloc, coarse)?;
    'times: for _time in 0..times {
        numbers = finer(alloc, known, types, kinds, &numbers)?;
    }
    Ok(numbers)
}

/// Numbers of all types that tell their classes: those that tell physical equality, made finer until types with one number are of one
/// class. Where that should not come to an end, they are not exact.
pub fn class_numbers(
    alloc: Global,
    known: &Known,
    types: &Types,
    kinds: &Kinds,
) -> Result<ClassNumbers, NoMemory>
    requires table { known.now ≡ types.now }
    requires nodes { All (λ e. AreNodesOf (length kinds.now) e.shape) types.now }
    ensures { IfOk result (TellClasses types.now (kind_at kinds.now)) }
{
    let count = types.count();
    let mut numbers = Vec::from_slice(alloc, known.numbers())?;
    'looks: for look in 0..MOST_LOOKS {
        if are_fine(alloc, known, kinds, count, &numbers)? {
            return Ok(ClassNumbers {
                alloc,
                numbers,
                are_exact: true,
            });
        }
        numbers = refined(alloc, known, types, kinds, &numbers, 1 << look)?;
    }
    Ok(ClassNumbers {
        alloc,
        numbers,
        are_exact: false,
    })
}
