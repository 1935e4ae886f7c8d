//! The code of a typed tree means what the tree means. Laws alone: nothing here runs.
#![tactic(auto)]

ghost use Rattle.std.specs.Prelude.{◌≡◌, ℕ};
ghost use Rattle.cc_base.specs.declared.kind.Kind.{Kind};
ghost use Rattle.cc_base.specs.declared.number.NodeId.{NodeId};
ghost use Rattle.c_tree.specs.TypedTree.{TypedTranslationUnit};
ghost use Rattle.runs.specs.Input.{Input};
ghost use Rattle.src_machine.specs.Machine.{source_run};
ghost use Rattle.cil_form.specs.declared.program.Program.{Program};
ghost use Rattle.cil_form.specs.Machine.{code_run};
ghost use Rattle.lower_rules.specs.Units.{IsCodeOfUnit};

/// The run of the code of a unit is the run of the unit: in its ending, its output, the bytes that it reads, its accesses, the functions that it
/// enters and the memory at the end, for whatever kinds the nodes have, for every input and every bound on turns.
pub fn code_means_what_its_unit_means()
    ensures { (u : TypedTranslationUnit) (p : Program) → IsCodeOfUnit u p
        → (kind : NodeId → Kind) (input : Input) (turns : ℕ) → code_run p kind input turns
        ≡ source_run u p.types kind input turns }
{}
