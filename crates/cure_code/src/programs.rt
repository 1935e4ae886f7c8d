//! The one call of the curer.
ghost use Rattle.std.specs.Prelude.{◌≡◌, IfOk, length};
ghost use Rattle.cc_base.specs.Kinds.{kind_at};
ghost use Rattle.cil_form.specs.Machine.{setting_of, code_run};
ghost use Rattle.cil_form.specs.Shape.{IsInShape};
ghost use Rattle.cil_form.specs.Told.{IsToldOf, IsSolutionOf};
ghost use Rattle.cure_rules.specs.Programs.{IsCuredProgram};
ghost use Rattle.cure_ranges.specs.Bodies.{AreTargetsNamed};
ghost use Rattle.cure_ready.specs.Curable.{HaveFewParameters};
ghost use Rattle.rtti_nodes.specs.TypeNodes.{node_at};
ghost use Rattle.sim_laws.specs.Plain.{IsPlainProgram};
ghost use Rattle.sim_relation.specs.Outcomes.{RunsAlike};
ghost use Rattle.cure_code.specs.Settings.{AreMade, IsSet, whole_in};
ghost use Rattle.cure_code.specs.Tabled.{AreTables, whole_with};

use crate::functions::function;
use crate::lists::{kinds_of, planned};
use crate::setting::Setting;
use crate::start::start;
use cc_base::{Kind, Kinds, NoMemory};
use cil_form::{Cil, Planned, Program};
use cure_tables::{Signatures, addresses, globals_of, signatures_of};
use cured_code::{Cured, Function, Functions, GlobalLine, Globals, Parents, Parts, Sigs};
use fat_layouts::Layouts;
use phys_types::{Known, Phys};
use rtti_nodes::Nodes;
use std::alloc::Global;

/// The tables of a program: what is known of its types, what they take once cured, its signatures, its globals and their addresses.
#[derive(Drop)]
pub(crate) struct Tables<'a> {
    pub(crate) kinds: Vec<Kind>,
    pub(crate) known: Known<'a>,
    pub(crate) layouts: Layouts<'a>,
    pub(crate) signatures: Signatures,
    pub(crate) statics: Vec<Planned>,
    pub(crate) globals: Vec<GlobalLine>,
    pub(crate) addresses: Vec<u64>,
}

/// The tables of a program.
fn tables_of<'a>(
    alloc: Global,
    program: &'a Program,
    kinds: &'a Kinds,
) -> Result<Tables<'a>, NoMemory>
    requires shape { IsInShape program.now }
    requires count { length kinds.now ≡ program.now.nodes }
    ensures { IfOk result (AreTables program.now kinds.now) }
{
    let types = &program.types;
    let functions = &program.functions;
    let statics = &program.statics;
    let listed = kinds_of(alloc, kinds, program.nodes)?;
    let planned = planned(alloc, &statics.0)?;
    let known = Phys::new(alloc).over(types)?;
    let signatures = signatures_of(alloc, &known, types, kinds)?;
    let layouts = Layouts::new(alloc, types, kinds)?;
    let globals = globals_of(alloc, &layouts, kinds, &statics.0)?;
    let addresses = addresses(alloc, functions.0.len() as u32 + 1, &globals)?;
    Ok(Tables {
        kinds: listed,
        known,
        layouts,
        signatures,
        statics: planned,
        globals,
        addresses,
    })
}

/// Function 0 and the functions of a program.
fn functions_of(w: &Setting<'_>) -> Result<Vec<Function>, NoMemory>
    requires { IsSet w.now }
    ensures { IfOk result (λ made. AreMade (whole_in w.now) w.now.program.now
        (length w.now.program.now.functions) made.items) }
{
    let functions = &w.program.functions;
    let all = functions.0.as_slice();
    let mut made = Vec::new(w.alloc);
    made.push(start(w)?)?;
    'functions: for i in 0..all.len() {
        made.push(function(w, i as u32, &all[i])?)?;
    }
    Ok(made)
}

/// The functions of the cured code of a program that has these tables.
fn cured_functions(
    alloc: Global,
    program: &Program,
    kinds: &Kinds,
    nodes: &[u32],
    t: &Tables<'_>,
) -> Result<Vec<Function>, NoMemory>
    requires shape { IsInShape program.now }
    requires told { IsToldOf program.now }
    requires solution { IsSolutionOf program.now (kind_at kinds.now) }
    requires few { HaveFewParameters program.now.types }
    requires count { length kinds.now ≡ program.now.nodes }
    requires tables { AreTables program.now kinds.now t.now }
    ensures { IfOk result (λ made. AreMade (whole_with program.now kinds.now nodes.now t.now)
        program.now (length program.now.functions) made.items) }
{
    let functions = &program.functions;
    let w = Setting {
        alloc,
        program,
        known: &t.known,
        layouts: &t.layouts,
        by_node: kinds,
        kinds: &t.kinds,
        nodes,
        signatures: &t.signatures.numbers,
        statics: &t.statics,
        addresses: &t.addresses,
        functions: functions.0.len() as u32,
    };
    functions_of(&w)
}

/// The parts of a program's cured code.
fn parts(functions: Vec<Function>, parents: Vec<u32>, t: Tables<'_>) -> Parts
    ensures { result ≡ record {
      sigs = t.entry.signatures.sigs.items;
      nodes = parents.items;
      globals = t.entry.globals.items;
      functions = functions.items;
    } }
{
    let Tables {
        kinds: _kinds,
        known: _known,
        layouts: _layouts,
        signatures,
        statics: _statics,
        globals,
        addresses: _addresses,
    } = t;
    let Signatures {
        sigs,
        numbers: _numbers,
    } = signatures;
    Parts {
        sigs: Sigs(sigs),
        nodes: Parents(parents),
        globals: Globals(globals),
        functions: Functions(functions),
    }
}

/// The cured code of a program, by the kinds of its nodes, which are a solution for its sites, and by its type nodes, of
/// which each data type has one that an RTTI pointer flows to. All its numbers are in range. Each function has as many
/// slots as any function has. The one error is want of memory.
pub fn cure(alloc: Global, code: &Cil, kinds: &Kinds, nodes: &Nodes<'_>) -> Result<Cured, NoMemory>
    requires table { nodes.now.table ≡ code.now.types }
    requires kinds { nodes.now.kinds ≡ kinds.now }
    requires count { length kinds.now ≡ code.now.nodes }
    requires told { IsToldOf code.now }
    requires solution { IsSolutionOf code.now (kind_at kinds.now) }
    requires few { HaveFewParameters code.now.types }
    requires targets { AreTargetsNamed code.now (kind_at kinds.now) (node_at nodes.now)
        (length nodes.now.parents) }
    ensures curing { IfOk result (IsCuredProgram code.now (kind_at kinds.now)
        (node_at nodes.now) nodes.now.parents) }

    // So it runs as its code, where the kinds make that plain.
    ensures alike { IfOk result (λ cured. IsPlainProgram code.now (kind_at kinds.now) →
        RunsAlike (setting_of code.now (kind_at kinds.now)) (node_at nodes.now)
        (code_run code.now (kind_at kinds.now)) cured) }
{
    let program = code.program();
    let parents = nodes.parents();
    let parents = Vec::from_slice(alloc, &parents.0)?;
    let t = tables_of(alloc, program, kinds)?;
    let functions = cured_functions(alloc, program, kinds, nodes.numbers(), &t)?;
    match Cured::new(parts(functions, parents, t)) {
        Some(cured) => Ok(cured),
        None => unreachable!(),
    }
}
