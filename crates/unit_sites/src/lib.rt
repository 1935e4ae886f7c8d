//! What the sites of a well typed unit tell, which kinds and lowering stand on. Each law is the contract of a function that does nothing, so
//! that it is proved once and can be cited.
#![tactic(auto)]

ghost use Rattle.std.specs.Prelude.{IsTrue};
ghost use Rattle.std.specs.List.{Contains};
ghost use Rattle.cc_base.specs.declared.number.TypeId.{TypeId};
ghost use Rattle.kind_sites.specs.declared.site.Site.TheVariants.{Same, Home};
ghost use Rattle.c_types.specs.Equality.{physically_equal};
ghost use Rattle.c_types.specs.Table.{Table};
ghost use Rattle.c_tree.specs.TypedTree.{TypedTranslationUnit};
ghost use Rattle.c_unit_typing.specs.WellTyped.{IsWellTyped};
ghost use Rattle.src_machine.specs.Sites.{sites_of};
ghost use Rattle.cil_form.specs.Sites.{Each};
ghost use Rattle.unit_sites.specs.Objects.{objects_in};
ghost use Rattle.unit_sites.specs.Theorems.{PointersAreTold, FlowsAreTold, UnionsAreTold, PointeesAreOne, HomesAreNoPointers};

/// The sites of a well typed unit tell what each pointer type points to, the home of each object with its type, and both ends of each flow; the
/// types that they tie as those of one name are physically equal. Each complete union has a site, no node points to two types, and none that points
/// is the home of an object.
pub fn the_sites_of_a_well_typed_unit_are_told()
    ensures pointers { PointersAreTold }
    ensures objects { (table : Table) (unit : TypedTranslationUnit) → IsWellTyped table unit
        → Each (λ o. Contains (sites_of unit table) (Home o.node o.type)) (objects_in unit) }
    ensures flows { FlowsAreTold }
    ensures same { (table : Table) (unit : TypedTranslationUnit) → IsWellTyped table unit
        → (t u : TypeId) → Contains (sites_of unit table) (Same t u)
        → IsTrue (physically_equal table t u) }
    ensures unions { UnionsAreTold }
    ensures pointees { PointeesAreOne }
    ensures homes { HomesAreNoPointers }
{}
