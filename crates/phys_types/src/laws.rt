//! What equality of layouts and covering mean for values.
#![tactic(auto)]

ghost use Rattle.std.specs.Prelude.{◌||◌, IsTrue};
ghost use Rattle.cc_base.specs.declared.number.TypeId.{TypeId};
ghost use Rattle.cc_base.specs.declared.number.NodeId.{NodeId};
ghost use Rattle.cc_base.specs.declared.kind.Kind.{Kind};
ghost use Rattle.c_types.specs.Table.{Table};
ghost use Rattle.c_types.specs.Equality.{tile, begins_with};
ghost use Rattle.c_types.specs.Flows.{IsOfOneClass, Covers};
ghost use Rattle.c_types.specs.Sound.{IsWellFormed};
ghost use Rattle.phys_types.specs.Theorems.{FactsPassBetweenTypesOfOneClass, FactsPassToWhatIsCovered, RepetitionsAgreeAcross, RepetitionsAgreeWithin};

/// Where two types are of one class, each pointer in one has a counterpart of equal kind at the same place of the other, and
/// what the two point to is of one class again. So what holds of a value by the kind of its pointer and by the class of what it
/// points to passes from a cell to the alike cell.
pub fn facts_pass_between_types_of_one_class()
    ensures { FactsPassBetweenTypesOfOneClass }
{}

/// The same of a type and one that it covers.
pub fn facts_pass_to_what_is_covered()
    ensures { FactsPassToWhatIsCovered }
{}

/// A type covers what is of one class with a type that it covers.
pub fn coverage_passes_along_a_class()
    ensures { (table : Table) (kind : NodeId → Kind) (t u v : TypeId) → IsWellFormed table
        → Covers table kind t u → IsOfOneClass table kind u v → Covers table kind t v }
{}

/// The endless repetitions of types that tile agree: cells at places that agree modulo the greatest common divisor of the sizes
/// are alike, in one of the types and across the two. So a repetition stays the same where it is shifted by that divisor.
pub fn repetitions_of_types_that_tile_agree()
    ensures across { RepetitionsAgreeAcross }
    ensures within { RepetitionsAgreeWithin }
{}

/// No two types tile of which neither begins with the other.
pub fn types_that_tile_begin_with_one_another()
    ensures { (table : Table) (t u : TypeId) → IsWellFormed table → IsTrue (tile table t u)
        → IsTrue (begins_with table t u || begins_with table u t) }
{}
