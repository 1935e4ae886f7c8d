//! A turn in which numbers of types are made finer: what points to a type with a new number is told apart from what doesn't.
#![tactic(auto)]

ghost use Rattle.std.specs.Prelude.{ℕ, ◌≡◌, ◌⊎◌, ◌<◌, ◌++◌, nat_eq, length, flat_map, slice_set, IfOk, OnOk};
ghost use Rattle.std.specs.List.{All, Contains};
ghost use Rattle.indexmap.specs.IndexMap.{get};
ghost use Rattle.cc_base.specs.declared.number.TypeId.{TypeId};
ghost use Rattle.c_types.specs.Table.{Table};
ghost use Rattle.phys_types.specs.declared.numbered.Numbered.{Numbered};
ghost use Rattle.phys_types.specs.Numbers.{number_in};
ghost use Rattle.phys_types.specs.Signatures.{mixed_all};
ghost use Rattle.phys_types.specs.Turning.{list_in, AreReaders, told_at, next_by, renamed_at, written, AreMarked, AreNew, IsTurning};

use crate::comparing::number_of;
use crate::mixed_unions::add_union;
use crate::numbered::Numbered;
use crate::readers::list_of;
use crate::signature::mixed;
use cc_base::{NoMemory, TypeId};
use indexmap::{IndexMap, IndexSet};
use std::alloc::Global;

/// How many types have a number, by the number and 0, or by the number and a signature.
pub(crate) type Counts = IndexMap<(usize, usize), usize>;

/// How many there are.
fn count_of(counts: &Counts, number: usize, signature: usize) -> usize {
    match counts.get(&(number, signature)) {
        Some(count) => *count,
        None => 0,
    }
}

/// One more.
fn count_one(counts: &mut Counts, number: usize, signature: usize) -> Result<(), NoMemory> {
    let count = count_of(counts, number, signature);
    counts.insert((number, signature), count.saturating_add(1))?;
    Ok(())
}

/// One less.
fn take_one(counts: &mut Counts, number: usize) -> Result<(), NoMemory> {
    let count = count_of(counts, number, 0);
    counts.insert((number, 0), count.saturating_sub(1))?;
    Ok(())
}

/// How many types have each number.
pub(crate) fn sizes(alloc: Global, numbers: &[usize]) -> Result<Counts, NoMemory> {
    let mut sizes = IndexMap::new(alloc);
    'numbers: for number in numbers {
        count_one(&mut sizes, *number, 0)?;
    }
    Ok(sizes)
}

/// Adds types to a set.
fn add_all(set: &mut IndexSet<TypeId>, ts: &[TypeId]) -> Result<(), NoMemory>
    ensures { OnOk result ((t : TypeId) → (Contains set.old.keys t ⊎ Contains ts.now t)
        → Contains set.new.keys t) }
{
    'types: for t in ts {
        add_union(set, Some(*t))?;
    }
    Ok(())
}

/// The types that point to those that have a new number.
fn reading(
    alloc: Global,
    readers: &[Vec<TypeId>],
    changed: &[Numbered],
) -> Result<IndexSet<TypeId>, NoMemory>
    ensures { IfOk result (λ set. (e : Numbered) (t : TypeId) → Contains changed.now e
        → Contains (list_in readers.now e.ty) t → Contains set.keys t) }
{
    let mut set = IndexSet::new(alloc);
    'changed: for e in changed {
        add_all(&mut set, list_of(readers, e.ty))?;
    }
    Ok(set)
}

/// What a type points to, by numbers.
fn signature(numbers: &[usize], targets: &[TypeId]) -> usize
    ensures { result ≡ mixed_all 0 (number_in numbers.now) targets.now }
{
    let mut signature = 0;
    'targets: for to in targets {
        signature = mixed(signature, number_of(numbers, *to));
    }
    signature
}

/// Adds the signature of a type, if it isn't 0.
fn tell(
    told: &mut Vec<Numbered>,
    fresh: &[usize],
    targets: &[Vec<TypeId>],
    t: TypeId,
) -> Result<(), NoMemory>
    ensures { OnOk result (told.new.items ≡ told.old.items ++ told_at fresh.now targets.now t) }
{
    let number = signature(fresh, list_of(targets, t));
    if number != 0 {
        told.push(Numbered { ty: t, number })?;
    }
    Ok(())
}

/// The signatures of types, but for those that are 0.
fn told(
    alloc: Global,
    fresh: &[usize],
    targets: &[Vec<TypeId>],
    types: &[TypeId],
) -> Result<Vec<Numbered>, NoMemory>
    ensures { IfOk result (λ told. told.items
        ≡ flat_map (told_at fresh.now targets.now) types.now) }
{
    let mut told = Vec::new(alloc);
    'types: for t in types {
        tell(&mut told, fresh, targets, *t)?;
    }
    Ok(told)
}

/// How many of the types that are told have each number, and how many of them each signature.
fn groups(alloc: Global, numbers: &[usize], told: &[Numbered]) -> Result<Counts, NoMemory> {
    let mut counts = IndexMap::new(alloc);
    'told: for e in told {
        let number = number_of(numbers, e.ty);
        count_one(&mut counts, number, 0)?;
        count_one(&mut counts, number, e.number)?;
    }
    Ok(counts)
}

/// Keeps a number for the types with the signature, where they are more than those for which it is kept so far, and no type has the
/// number that isn't told.
fn keep(
    keepers: &mut IndexMap<usize, usize>,
    sizes: &Counts,
    groups: &Counts,
    number: usize,
    signature: usize,
) -> Result<(), NoMemory> {
    if count_of(groups, number, 0) < count_of(sizes, number, 0) {
        return Ok(());
    }
    let best = match keepers.get(&number) {
        Some(kept) => count_of(groups, number, *kept),
        None => 0,
    };
    if best < count_of(groups, number, signature) {
        keepers.insert(number, signature)?;
    }
    Ok(())
}

/// For which signature each number is kept.
fn keepers(
    alloc: Global,
    numbers: &[usize],
    sizes: &Counts,
    told: &[Numbered],
) -> Result<IndexMap<usize, usize>, NoMemory> {
    let groups = groups(alloc, numbers, told)?;
    let mut keepers = IndexMap::new(alloc);
    'told: for e in told {
        keep(
            &mut keepers,
            sizes,
            &groups,
            number_of(numbers, e.ty),
            e.number,
        )?;
    }
    Ok(keepers)
}

/// The number of a type with this number and this signature.
fn next_number(keepers: &IndexMap<usize, usize>, number: usize, signature: usize) -> usize
    ensures { result ≡ next_by (get nat_eq keepers.now number) number signature }
{
    match keepers.get(&number) {
        Some(kept) if *kept == signature => number,
        _ => mixed(number, signature),
    }
}

/// Adds the new number of a type, if it is another one.
fn rename(
    renamed: &mut Vec<Numbered>,
    numbers: &[usize],
    keepers: &IndexMap<usize, usize>,
    e: Numbered,
) -> Result<(), NoMemory>
    ensures { OnOk result (renamed.new.items ≡ renamed.old.items ++ renamed_at
        (get nat_eq keepers.now) numbers.now e) }
{
    let old = number_of(numbers, e.ty);
    let number = next_number(keepers, old, e.number);
    if number != old {
        renamed.push(Numbered { ty: e.ty, number })?;
    }
    Ok(())
}

/// The new numbers of types, where they are others.
fn renamed(
    alloc: Global,
    numbers: &[usize],
    keepers: &IndexMap<usize, usize>,
    told: &[Numbered],
) -> Result<Vec<Numbered>, NoMemory>
    ensures { IfOk result (λ renamed. renamed.items
        ≡ flat_map (renamed_at (get nat_eq keepers.now) numbers.now) told.now) }
{
    let mut renamed = Vec::new(alloc);
    'told: for e in told {
        rename(&mut renamed, numbers, keepers, *e)?;
    }
    Ok(renamed)
}

/// Counts the types anew that have a new number.
fn recount(sizes: &mut Counts, numbers: &[usize], renamed: &[Numbered]) -> Result<(), NoMemory> {
    'renamed: for e in renamed {
        take_one(sizes, number_of(numbers, e.ty))?;
        count_one(sizes, e.number, 0)?;
    }
    Ok(())
}

/// Gives a type a number.
#[tactic(auto, using(crate::proofs::Turned::set_past))]
fn set_number(numbers: &mut [usize], t: TypeId, number: usize)
    ensures { numbers.new ≡ slice_set numbers.old t.0 number }
{
    if (t.0 as usize) < numbers.len() {
        numbers[t.0 as usize] = number;
    }
}

/// Gives types their numbers.
fn write(numbers: &mut [usize], es: &[Numbered])
    ensures { numbers.new ≡ written (λ e. e.number) numbers.old es.now }
{
    'numbers: for e in es {
        set_number(numbers, e.ty, e.number);
    }
}

/// Gives types the number 0.
fn clear(numbers: &mut [usize], es: &[Numbered])
    ensures { numbers.new ≡ written (λ e. 0) numbers.old es.now }
{
    'numbers: for e in es {
        set_number(numbers, e.ty, 0);
    }
}

/// What each type points to, and what points to it.
#[derive(Drop)]
pub(crate) struct Graph {
    pub(crate) targets: Vec<Vec<TypeId>>,
    pub(crate) readers: Vec<Vec<TypeId>>,
}

/// The new numbers of what points to types with a new number, as far as they are others.
fn told_apart(
    alloc: Global,
    graph: &Graph,
    sizes: &mut Counts,
    numbers: &[usize],
    fresh: &[usize],
    changed: &[Numbered],
) -> Result<Vec<Numbered>, NoMemory>
    ensures { length fresh.now ≡ length graph.now.targets.items
        → AreReaders graph.now.targets.items graph.now.readers.items
        → AreMarked fresh.now changed.now → IfOk result
        (λ renamed. AreNew graph.now.targets.items numbers.now fresh.now renamed.items) }
{
    let touched = reading(alloc, &graph.readers, changed)?;
    let told = told(alloc, fresh, &graph.targets, touched.as_slice())?;
    let keepers = keepers(alloc, numbers, sizes, &told)?;
    let renamed = renamed(alloc, numbers, &keepers, &told)?;
    recount(sizes, numbers, &renamed)?;
    Ok(renamed)
}

/// A turn: gives new numbers to what points to types with a new number, and answers which these are.
pub(crate) fn turn(
    alloc: Global,
    graph: &Graph,
    sizes: &mut Counts,
    numbers: &mut [usize],
    fresh: &mut [usize],
    changed: &[Numbered],
) -> Result<Vec<Numbered>, NoMemory>
    ensures numbers { length numbers.new ≡ length numbers.old }
    ensures fresh { length fresh.new ≡ length fresh.old }
    ensures turned { (table : Table) → IsTurning table graph.now.targets.items
        graph.now.readers.items numbers.old fresh.old changed.now
        → IfOk result (λ renamed. IsTurning table graph.now.targets.items graph.now.readers.items
        numbers.new fresh.new renamed.items) }
{
    let renamed = told_apart(alloc, graph, sizes, numbers, fresh, changed)?;
    clear(fresh, changed);
    write(fresh, &renamed);
    write(numbers, &renamed);
    Ok(renamed)
}
