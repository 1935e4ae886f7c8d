//! Sizes and offsets of cured types.
#![tactic(auto)]

ghost use Rattle.std.specs.Prelude.{◌≡◌, ◌≤◌, IfOk, length};
ghost use Rattle.std.specs.List.{All};
ghost use Rattle.c_types.specs.Table.{IsType, IsComplete, AreNodesOf};
ghost use Rattle.c_types.specs.Layouts.{size_of};
ghost use Rattle.c_types.specs.Cells.{IsBetweenPointers};
ghost use Rattle.c_types.specs.Equality.{cells_of};
ghost use Rattle.cc_base.specs.Kinds.{kind_at};
ghost use Rattle.c_types.specs.Widths.{before, cured_size};
ghost use Rattle.c_types.specs.Sound.{IsWellFormed};
ghost use Rattle.fat_layouts.specs.Standing.{IsCuredLayout};

use crate::stops::{CuredLayout, cured_in, stops_of};
use c_types::Types;
use cc_base::{Kinds, NoMemory, TypeId};
use phys_types::{Known, Phys};
use std::alloc::Global;
use std::marker::Model;

/// How many bytes the types of a program and their parts take once it is cured. Contracts see the table and the kinds.
pub struct Layouts<'a> {
    types: &'a Types,
    kinds: &'a Kinds,
    layouts: Vec<CuredLayout>,
}

impl<'a> Drop for Layouts<'a> {
    fn drop(self) {
        let Self {
            types: _,
            kinds: _,
            layouts: _,
        } = self;
    }
}

impl<'a> Model for Layouts<'a> {
    ghost use Rattle.fat_layouts.specs.Standing.{Curing, AreCuredLayouts};

    ghost Value = { Curing };

    ghost view = { λ s. record { table = s.types.now; kinds = s.kinds.now } };

    ghost invariant = { λ s. AreCuredLayouts s.types.now s.kinds.now s.layouts.items };
}

/// The cured layout of a type.
fn layout_of(
    alloc: Global,
    known: &Known,
    kinds: &Kinds,
    t: TypeId,
) -> Result<CuredLayout, NoMemory>
    requires formed { IsWellFormed known.now }
    requires typed { IsType known.now t }
    requires nodes { All (λ e. AreNodesOf (length kinds.now) e.shape) known.now }
    ensures { IfOk result (λ x. IsCuredLayout known.now kinds.now t x) }
{
    let own = known.repeated(t);
    let stops = stops_of(alloc, kinds, &own.part.spots)?;
    Ok(CuredLayout {
        size: own.part.size,
        stops,
    })
}

impl<'a> Layouts<'a> {
    /// Of all types of a table, by the kinds of their pointers.
    pub fn new(alloc: Global, types: &'a Types, kinds: &'a Kinds) -> Result<Layouts<'a>, NoMemory>
        requires { All (λ e. AreNodesOf (length kinds.now) e.shape) types.now }
        ensures { IfOk result (λ l. l ≡ record { table = types.now; kinds = kinds.now }) }
    {
        let known = Phys::new(alloc).over(types)?;
        let mut layouts = Vec::with_capacity(alloc, types.count() as usize)?;
        'types: for t in 0..types.count() {
            layouts.push(layout_of(alloc, &known, kinds, TypeId(t))?)?;
        }
        Ok(Layouts {
            types,
            kinds,
            layouts,
        })
    }

    /// The bytes that an object of a complete type takes once cured. Takes no memory.
    pub fn cured_size(&self, t: TypeId) -> u64
        requires { IsComplete self.now.table t }
        ensures { result ≡ cured_size self.now.table (kind_at self.now.kinds) t }
    {
        self.cured_offset(t, self.types.size_of(t))
    }

    /// The types of the program.
    pub fn types(&self) -> &'a Types
        ensures { result.now ≡ self.now.table }
    {
        self.types
    }

    /// The bytes that the first bytes of an object of a complete type take once cured, as many as `offset`, where no
    /// pointer has begun before and ends behind. Takes no memory, and a number of steps that is logarithmic in the
    /// number of the type's pointers.
    pub fn cured_offset(&self, t: TypeId, offset: u64) -> u64
        requires complete { IsComplete self.now.table t }
        requires within { offset ≤ size_of self.now.table t }
        ensures { IsBetweenPointers (cells_of self.now.table t) offset → result
            ≡ before (kind_at self.now.kinds) (cells_of self.now.table t) offset }
    {
        let part = &self.layouts[t.0 as usize];
        let copies = offset / part.size;
        let whole = cured_in(part, part.size);
        let rest = cured_in(part, offset % part.size);
        copies * whole + rest
    }
}
