//! The unions at sites, and the pointers at like places of the members of a union that isn't mixed.
#![tactic(auto)]

ghost use Rattle.std.specs.Prelude.{◌≡◌, [], Some, OnOk, IfOk, IfNone, IfSome};
ghost use Rattle.cc_base.specs.declared.number.TypeId.{TypeId};
ghost use Rattle.cc_base.specs.declared.place.Place.{Place};
ghost use Rattle.c_types.specs.Table.{IsType, IsComplete, IsUnion, members_at};
ghost use Rattle.c_types.specs.Layouts.{size_of};
ghost use Rattle.c_types.specs.PointerCounts.{larger};
ghost use Rattle.c_types.specs.Contents.{HoldsMixed, IsLargest};
ghost use Rattle.c_types.specs.Sound.{IsWellFormed};
ghost use Rattle.phys_types.specs.Found.{Gains};
ghost use Rattle.kind_constraints.specs.Adding.{Adds};
ghost use Rattle.kind_constraints.specs.Pieces.{AreUnionPlaces, StandInUnion, union_place_of};

use c_types::Types;
use cc_base::{NoMemory, Place, TypeId};
use kind_sites::Site;
use phys_types::{Found, Known};
use std::alloc::Global;

/// Adds the union whose members stand at a site, with its place.
fn add_union_place(unions: &mut Vec<(TypeId, Place)>, site: Site) -> Result<(), NoMemory>
    ensures { OnOk result
        (Adds (λ x. union_place_of site ≡ Some x) unions.old.items unions.new.items) }
{
    if let Site::Union { ty, place } = site {
        unions.push((ty, place))?;
    }
    Ok(())
}

/// The unions whose members stand at a place, with it.
pub(crate) fn union_places(alloc: Global, sites: &[Site]) -> Result<Vec<(TypeId, Place)>, NoMemory>
    ensures { IfOk result (λ unions. AreUnionPlaces sites.now unions.items) }
{
    let mut unions = Vec::new(alloc);
    'sites: for site in sites {
        add_union_place(&mut unions, *site)?;
    }
    Ok(unions)
}

/// The larger of a member of a union that was found and another one, the first of two of one size.
fn larger(types: &Types, found: Option<TypeId>, member: TypeId) -> Option<TypeId>
    requires other { IfSome found (IsComplete types.now) }
    requires member { IsComplete types.now member }
    ensures { result ≡ Some (larger (size_of types.now) found member) }
{
    match found {
        Some(other) if types.size_of(member) <= types.size_of(other) => Some(other),
        _ => Some(member),
    }
}

/// The largest member of a union, the first where several are; none where it has no members.
fn largest(types: &Types, v: TypeId) -> Option<TypeId>
    requires formed { IsWellFormed types.now }
    requires typed { IsType types.now v }
    requires union { IsUnion types.now v }
    ensures found { IfSome result (IsLargest types.now v) }
    ensures none { IfNone result (members_at types.now v ≡ []) }
{
    let mut found: Option<TypeId> = None;
    'members: for i in 0..types.fields(v) {
        found = larger(types, found, types.field(v, i).ty);
    }
    found
}

/// Adds the pointers of each member of a union that isn't mixed and those at the same places of its largest member.
pub(crate) fn add_union(
    known: &Known,
    types: &Types,
    found: &mut Found,
    v: TypeId,
) -> Result<(), NoMemory>
    requires table { known.now ≡ types.now }
    requires formed { IsWellFormed types.now }
    requires typed { IsType types.now v }
    requires union { IsUnion types.now v }
    ensures { OnOk result
        (Gains (λ p q. (HoldsMixed types.now v v → ⊥) × StandInUnion types.now v p q)
        found.old found.new) }
{
    let mixed = known.is_mixed(v)?;
    if mixed {
        return Ok(());
    }
    if let Some(largest) = largest(types, v) {
        'members: for i in 0..types.fields(v) {
            known.add_places(found, types.field(v, i).ty, largest)?;
        }
    }
    Ok(())
}
