//! The typing of a unit, with what its answer means.
#![tactic(auto)]

ghost use Rattle.std.specs.Prelude.{◌≡◌, ◌≤◌, Err, IfOk, length};
ghost use Rattle.cc_base.specs.declared.fault.Fault.TheVariants.{Refused};
ghost use Rattle.cc_base.specs.declared.fault.Rule.{Rule as Broken};
ghost use Rattle.cc_base.specs.declared.place.Place.{Place as At};
ghost use Rattle.c_types.specs.Table.{Table};
ghost use Rattle.c_tree.specs.Depth.{unit_height};
ghost use Rattle.c_tree.specs.Erasure.{erased_unit};
ghost use Rattle.c_tree.specs.StatementViews.{unit_view};
ghost use Rattle.c_tree.specs.TypedParts.{made_by_unit, nodes_made};
ghost use Rattle.c_tree.specs.TypedStatementViews.{typed_unit_view};
ghost use Rattle.c_tree.specs.TypedTree.{TypedTranslationUnit};
ghost use Rattle.c_check.specs.Judged.{IsAccepted, IsAnswered};
ghost use Rattle.c_printed.specs.Printing.{AreInOrder, HasPrinted};
ghost use Rattle.c_unit_given.specs.Tokens.{HasFewTokens};
ghost use Rattle.c_unit_typing.specs.DefinitionJudging.{before_unit};
ghost use Rattle.c_unit_typing.specs.Limits.{IsWithinLimits};
ghost use Rattle.c_unit_typing.specs.UnitJudging.{known_of};
ghost use Rattle.c_unit_typing.specs.UnitRefusals.{RefusesUnit};
ghost use Rattle.c_ready.specs.Ready.{IsReadyUnit};
ghost use Rattle.c_unit_typing.specs.WellTyped.{IsWellTyped};

use crate::checking::checked;
use c_tree::{Typed, Unit};
use cc_base::Fault;
use std::alloc::Global;

/// Gives a unit its types (C99 6.5 to 6.9): its typed tree, the table of its types, how many nodes it has, and those whose kinds are
/// printed, in the order of their places.
///
/// A unit that is not well typed is refused. Parts are judged in the order of the text, what stands in a part before the part itself, and the
/// first rule that fails gives the fault and its place: `UnknownName`, `Redeclared`, `Incomplete`, `Mismatch`, `NotPlace`, `NotConstant`, `BadCall`, or
/// `TooLarge` with the limit that is passed. `NoMain` comes last, at 1:1.
///
/// No path of the unit has more than 256 nodes, as `parse_unit` promises, and none of its typed tree has.
///
/// A unit of fewer than 2^29 tokens that is well typed over some table of types, and within its limits, is given, with the very tree that is
/// well typed: no other fault comes than want of memory.
pub fn check(alloc: Global, unit: &Unit) -> Result<Typed, Fault>
    requires { unit_height (unit_view unit.now) ≤ 256 }
    ensures judged { IsAnswered (unit_view unit.now) result }
    ensures typed { IfOk result (λ t. IsWellTyped t.types (typed_unit_view t.unit)) }
    ensures ready { IfOk result (λ t. IsReadyUnit t.types (typed_unit_view t.unit)) }
    ensures erases { IfOk result (λ t. erased_unit (typed_unit_view t.unit) ≡ unit_view unit.now) }

    // The tree is the only one of the unit that is well typed over its table.
    ensures only { IfOk result (λ t. (other : TypedTranslationUnit) → IsWellTyped t.types other
        → erased_unit other ≡ unit_view unit.now → other ≡ typed_unit_view t.unit) }

    ensures nodes { IfOk result (λ t. t.nodes ≡ length
        (nodes_made (made_by_unit (typed_unit_view t.unit)))) }
    ensures printed { IfOk result (λ t. HasPrinted (typed_unit_view t.unit) t.printed) }
    ensures ordered { IfOk result (λ t. AreInOrder t.printed) }
    ensures limited { IfOk result (λ t. IsWithinLimits t.types (typed_unit_view t.unit)) }
    ensures low { IfOk result (λ t. unit_height (erased_unit (typed_unit_view t.unit)) ≤ 256) }

    // A unit of few tokens that is well typed over some table, and within its limits, is answered with that very tree.
    ensures accepts { HasFewTokens (unit_view unit.now) → (T : Table) (whole : TypedTranslationUnit)
        → IsWellTyped T whole → IsWithinLimits T whole → erased_unit whole ≡ unit_view unit.now
        → IsAccepted whole result }

    // A rule that a refusal names is broken at its place.
    ensures refused { (p : At) (rule : Broken) → result ≡ Err (Refused p rule)
        → (T : Table) × RefusesUnit T (unit_view unit.now)
        (known_of (before_unit (unit_view unit.now)))
        (Refused p rule) }
{
    checked(alloc, unit)
}
