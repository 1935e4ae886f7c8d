//! The passes over a text, one after the other.
ghost use Rattle.std.specs.Prelude.{◌≡◌, ◌≢◌, ◌≤◌, ◌⊎◌, Err, IfErr, IfOk, IsOkAnd, length};
ghost use Rattle.cc_base.specs.declared.fault.Fault.TheVariants.{NoMemory as IsNoMemory};
ghost use Rattle.c_types.specs.Table.{Table};
ghost use Rattle.c_tree.specs.Erasure.{erased_unit};
ghost use Rattle.c_tree.specs.StatementViews.{unit_view};
ghost use Rattle.c_tree.specs.Tree.{TranslationUnit};
ghost use Rattle.c_tree.specs.TypedParts.{made_by_unit, nodes_made};
ghost use Rattle.c_tree.specs.TypedStatementViews.{typed_unit_view};
ghost use Rattle.c_tree.specs.TypedTree.{TypedTranslationUnit};
ghost use Rattle.c_check.specs.Judged.{IsAccepted};
ghost use Rattle.c_front.specs.Accepted.{IsTypedText, IsUnitOf};
ghost use Rattle.c_front.specs.Refused.{IsFirstRefusal};
ghost use Rattle.c_printed.specs.Printing.{AreInOrder, HasPrinted};
ghost use Rattle.c_ready.specs.Ready.{IsReadyUnit};
ghost use Rattle.c_unit_typing.specs.WellTyped.{IsWellTyped};

use c_check::check;
use c_lexer::tokens;
use c_parser::parse_unit;
use c_tree::{Typed, Unit};
use cc_base::Fault;
use std::alloc::Global;

/// Gives the typed unit of a text of C: its tree, the table of its types, how many nodes it has, and those whose kinds are printed.
///
/// A text is accepted exactly where it is in the grammar, well typed and within the limits, want of memory aside. Any other
/// text is refused by the first pass that refuses it: all of it is cut into tokens, then they are read as a unit, and then
/// the unit is typed. The fault names the place, and the rule or the limit.
pub fn typed(alloc: Global, text: &[u8]) -> Result<Typed, Fault>
    requires { length text.now ≤ 1048576 }
    ensures accepted { IfOk result (λ t. IsTypedText text.now t.types (typed_unit_view t.unit)) }
    ensures refused { IfErr result (λ fault. fault ≢ IsNoMemory → IsFirstRefusal text.now fault) }

    // A text that is accepted with a tree over some table of types is answered with that very tree.
    ensures accepts { (T : Table) (whole : TypedTranslationUnit) → IsTypedText text.now T whole
        → IsAccepted whole result }

    // The tree is the only one of the text that is well typed over its table.
    ensures only { IfOk result (λ t. (other : TypedTranslationUnit) → IsWellTyped t.types other
        → erased_unit other ≡ erased_unit (typed_unit_view t.unit) → other ≡ typed_unit_view t.unit) }

    // It is ready for lowering, its nodes are counted, and those that are printed stand in the order of the text.
    ensures ready { IfOk result (λ t. IsReadyUnit t.types (typed_unit_view t.unit)) }
    ensures nodes { IfOk result (λ t. t.nodes ≡ length
        (nodes_made (made_by_unit (typed_unit_view t.unit)))) }
    ensures printed { IfOk result (λ t. HasPrinted (typed_unit_view t.unit) t.printed) }
    ensures ordered { IfOk result (λ t. AreInOrder t.printed) }
{
    match unit_of(alloc, text) {
        Ok(unit) => check(alloc, &unit),
        Err(fault) => Err(fault),
    }
}

/// The unit that the tokens of a text spell.
fn unit_of(alloc: Global, text: &[u8]) -> Result<Unit, Fault>
    requires { length text.now ≤ 1048576 }
    ensures read { IfOk result (λ unit. IsUnitOf text.now (unit_view unit)) }
    ensures refused { IfErr result (λ fault. fault ≢ IsNoMemory → IsFirstRefusal text.now fault) }
    ensures accepts { (unit : TranslationUnit) → IsUnitOf text.now unit
        → IsOkAnd result (λ u. unit_view u ≡ unit) ⊎ (result ≡ Err Fault.NoMemory) }
{
    match tokens(alloc, text) {
        Ok(list) => parse_unit(alloc, text, list.as_slice()),
        Err(fault) => Err(fault),
    }
}
