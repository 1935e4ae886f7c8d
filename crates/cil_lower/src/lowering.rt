//! The one call of lowering.
ghost use Rattle.std.specs.Prelude.{◌≡◌, ◌≤◌, ℕ, length, IfOk};
ghost use Rattle.cc_base.specs.declared.kind.Kind.{Kind};
ghost use Rattle.cc_base.specs.declared.number.NodeId.{NodeId};
ghost use Rattle.c_tree.specs.Depth.{unit_height};
ghost use Rattle.c_tree.specs.Erasure.{erased_unit};
ghost use Rattle.c_tree.specs.TypedParts.{made_by_unit, nodes_made};
ghost use Rattle.c_tree.specs.TypedStatementViews.{typed_unit_view};
ghost use Rattle.c_unit_typing.specs.Limits.{IsWithinLimits};
ghost use Rattle.c_unit_typing.specs.WellTyped.{IsWellTyped};
ghost use Rattle.runs.specs.Input.{Input};
ghost use Rattle.src_machine.specs.Machine.{source_run};
ghost use Rattle.src_machine.specs.Sites.{sites_of};
ghost use Rattle.cil_form.specs.Machine.{code_run};
ghost use Rattle.cil_form.specs.Told.{IsToldOf};
ghost use Rattle.lower_rules.specs.Units.{IsCodeOfUnit};
ghost use Rattle.lower_shape.specs.Lowered.{IsLoweredFrom};

use c_tree::Typed;
use cc_base::NoMemory;
use cil_form::{Cil, Program, Sites};
use lower_sites::sites_of;
use lower_units::program;
use std::alloc::Global;

/// The program with these sites.
fn with_sites(program: Program, sites: Sites) -> Program
    ensures { result ≡ record program { sites = sites } }
{
    Program {
        types: program.types,
        nodes: program.nodes,
        statics: program.statics,
        initialisers: program.initialisers,
        functions: program.functions,
        main: program.main,
        main_place: program.main_place,
        sites,
    }
}

/// The code of a unit, with its nodes and all of its sites.
fn program_of(alloc: Global, unit: &Typed) -> Result<Program, NoMemory>
    requires typed { IsWellTyped unit.now.types (typed_unit_view unit.now.unit) }
    requires limited { IsWithinLimits unit.now.types (typed_unit_view unit.now.unit) }
    requires height { unit_height (erased_unit (typed_unit_view unit.now.unit)) ≤ 256 }
    requires nodes { unit.now.nodes ≡ length (nodes_made
        (made_by_unit (typed_unit_view unit.now.unit))) }
    ensures lowered { IfOk result (λ p. IsLoweredFrom (typed_unit_view unit.now.unit) p) }
    ensures types { IfOk result (λ p. p.types ≡ unit.now.types) }
    ensures nodes { IfOk result (λ p. p.nodes ≡ unit.now.nodes) }
{
    let types = unit.types.copy()?;
    let made = program(alloc, &unit.unit, types, unit.nodes)?;
    let sites = sites_of(alloc, &unit.unit, &made)?;
    Ok(with_sites(made, sites))
}

/// The three-address code of a well typed unit, which is in shape. For whatever kinds the nodes have, every input and
/// every bound on turns it runs as the unit does: in its ending, its output, the bytes that it reads, its accesses, the
/// functions that it enters and the memory at the end. Its types, nodes and sites are the unit's, and its sites tell of all
/// of it. Such a unit has code, so that the one error is want of memory.
pub fn lower(alloc: Global, unit: &Typed) -> Result<Cil, NoMemory>
    requires typed { IsWellTyped unit.now.types (typed_unit_view unit.now.unit) }
    requires limited { IsWithinLimits unit.now.types (typed_unit_view unit.now.unit) }
    requires height { unit_height (erased_unit (typed_unit_view unit.now.unit)) ≤ 256 }
    requires nodes { unit.now.nodes ≡ length (nodes_made
        (made_by_unit (typed_unit_view unit.now.unit))) }
    ensures code { IfOk result (λ cil. IsCodeOfUnit (typed_unit_view unit.now.unit) cil) }
    ensures means { IfOk result (λ cil. (kind : NodeId → Kind) (input : Input) (turns : ℕ)
        → code_run cil kind input turns ≡ source_run
        (typed_unit_view unit.now.unit) unit.now.types kind input turns) }
    ensures sites { IfOk result (λ cil. cil.sites
        ≡ sites_of (typed_unit_view unit.now.unit) unit.now.types) }
    ensures told { IfOk result (λ cil. IsToldOf cil) }
    ensures nodes { IfOk result (λ cil. cil.nodes ≡ unit.now.nodes) }
    ensures types { IfOk result (λ cil. cil.types ≡ unit.now.types) }
{
    Ok(Cil::of(program_of(alloc, unit)?))
}
