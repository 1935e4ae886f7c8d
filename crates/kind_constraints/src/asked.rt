//! What the sites of a program are gone through with.
#![tactic(auto)]

ghost use Rattle.c_types.specs.Table.{IsType};
ghost use Rattle.phys_types.specs.Firsts.{IsFirstEqual};
ghost use Rattle.kind_constraints.specs.Asked.{IsReady};

use c_types::Types;
use cc_base::{Place, TypeId};
use kind_sites::Site;
use phys_types::Known;
use std::alloc::Global;

/// A program's types and sites, and what is known of them before the sites are gone through: of each type the first that is physically
/// equal, those of the types that nodes point to, and the unions whose members stand at a place.
#[derive(Drop)]
pub(crate) struct Asked<'a> {
    pub(crate) alloc: Global,
    pub(crate) types: &'a Types,
    pub(crate) sites: &'a [Site],
    pub(crate) known: Known<'a>,
    pub(crate) firsts: Vec<TypeId>,
    pub(crate) pointees: Vec<TypeId>,
    pub(crate) unions: Vec<(TypeId, Place)>,
}

/// The first type that is physically equal to a type.
pub(crate) fn first_of(asked: &Asked, t: TypeId) -> TypeId
    requires asked { IsReady asked.now }
    requires typed { IsType asked.now.types.now t }
    ensures first { IsFirstEqual asked.now.types.now t result }
    ensures typed { IsType asked.now.types.now result }
{
    let first = asked.firsts[t.0 as usize];
    first
}
