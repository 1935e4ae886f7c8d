//! The code of a unit.
ghost use Rattle.std.specs.Prelude.{◌≡◌, ◌<◌, [], flat_map, IfOk};
ghost use Rattle.c_tree.specs.TypedStatementViews.{typed_unit_view};
ghost use Rattle.c_tree.specs.TypedParts.{static_initialisers};
ghost use Rattle.src_machine.specs.Pieces.{pieces_of_unit};
ghost use Rattle.src_machine.specs.Sites.{sites_of_piece};
ghost use Rattle.lower_rules.specs.Initialisers.{IsCodeOfStatics};
ghost use Rattle.lower_rules.specs.Units.{IsCodeOfUnit, homes_of, static_context};
ghost use Rattle.unit_parts.specs.Collecting.{HaveBytes};
ghost use Rattle.lower_units.specs.Heads.{homes_of_statics};
ghost use Rattle.lower_units.specs.Ready.{HasCodeOfUnit};
ghost use Rattle.lower_units.specs.Statics.{HaveCodeOfStatics};
ghost use Rattle.lower_units.specs.Units.{IsFoundIn, IsLoweredIn, number_in, place_in};

use crate::collecting::nothing;
use crate::drafts::finished;
use crate::externals::{Found, Made, functions};
use crate::functions::Unit;
use crate::homes::static_homes;
use crate::statics::statics;
use c_tree::TypedUnit;
use c_types::Types;
use cc_base::{NoMemory, Place};
use cil_form::{Code, FunctionNumber, Functions, Program, Sites, Static, Statics};
use indexmap::IndexSet;
use lower_exprs::{Scope, start};
use std::alloc::Global;
use unit_contents::unit as parts_of_unit;
use unit_parts::Collected;

/// The functions of a unit and its static initialisers.
#[derive(Drop)]
pub(crate) struct Lowered {
    pub(crate) made: Made,
    pub(crate) initialisers: Code,
}

/// The static objects of a unit and the sites of its pieces.
#[tactic(auto, using(crate::proofs::UnitLaws::found_in))]
fn collected(alloc: Global, types: &Types, unit: &TypedUnit) -> Result<Collected, NoMemory>
    ensures { IfOk result (λ c. IsFoundIn types.now (typed_unit_view unit.now) c) }
{
    let scope = unit_parts::Scope { alloc, types };
    let mut out = nothing(alloc);
    parts_of_unit(&mut out, &scope, unit);
    let unit_parts::Scope { alloc: _, types: _ } = scope;
    if out.fine { Ok(out) } else { Err(NoMemory) }
}

/// The code of the static initialisers of a unit.
fn initialisers(k: &Unit<'_>, unit: &TypedUnit) -> Result<Code, NoMemory>
    requires { HaveCodeOfStatics (static_initialisers (typed_unit_view unit.now))
        (static_context k.now.types.now k.now.statics.now.keys) }
    ensures { IfOk result (λ code. IsCodeOfStatics (static_initialisers (typed_unit_view unit.now))
        (static_context k.now.types.now k.now.statics.now.keys) code.0.items) }
{
    let variables = IndexSet::new(k.alloc);
    let scope = Scope {
        alloc: k.alloc,
        types: k.types,
        statics: k.statics,
        variables: &variables,
    };
    let mut out = start(&scope);
    statics(&mut out, &scope, unit.externals.as_slice());
    let Scope {
        alloc: _,
        types: _,
        statics: _,
        variables: _,
    } = scope;
    finished(out)
}

/// The functions of a unit and its static initialisers, among its static objects.
#[tactic(auto, using(crate::proofs::UnitLaws::lowered_in))]
fn lowered_parts(
    alloc: Global,
    types: &Types,
    objects: &[Static],
    unit: &TypedUnit,
) -> Result<Lowered, NoMemory>
    requires { HasCodeOfUnit types.now (homes_of_statics objects.now) (typed_unit_view unit.now) }
    ensures { IfOk result (λ l. IsLoweredIn types.now objects.now (typed_unit_view unit.now) l) }
{
    let homes = static_homes(alloc, objects)?;
    let k = Unit {
        alloc,
        types,
        statics: &homes,
    };
    let initialisers = initialisers(&k, unit)?;
    let made = functions(&k, unit.externals.as_slice())?;
    Ok(Lowered { made, initialisers })
}

/// The number of `main` among so many functions.
fn number_of(main: Option<Found>, count: usize) -> FunctionNumber
    requires { number_in main count < 4294967296 }
    ensures { result.0 ≡ number_in main count }
{
    match main {
        Some(main) => FunctionNumber(main.number as u32),
        None => FunctionNumber(count as u32),
    }
}

/// The place of the name of `main`.
fn place_of(main: Option<Found>) -> Place
    ensures { result ≡ place_in main }
{
    match main {
        Some(main) => main.place,
        None => Place { line: 1, col: 1 },
    }
}

/// The code of a unit that has code, with its types and the number of its nodes. Its sites are those of its pieces alone.
pub fn program(
    alloc: Global,
    unit: &TypedUnit,
    types: Types,
    nodes: u32,
) -> Result<Program, NoMemory>
    requires { HasCodeOfUnit types (homes_of (typed_unit_view unit.now))
        (typed_unit_view unit.now) }
    ensures code { IfOk result (λ p. IsCodeOfUnit (typed_unit_view unit.now) p) }
    ensures types { IfOk result (λ p. p.types ≡ types) }
    ensures nodes { IfOk result (λ p. p.nodes ≡ nodes) }
    ensures pieces { IfOk result (λ p. p.sites ≡ flat_map (sites_of_piece types)
        (pieces_of_unit (typed_unit_view unit.now))) }
    ensures bytes { IfOk result (λ p. HaveBytes p.statics) }
{
    let found = collected(alloc, &types, unit)?;
    let lowered = lowered_parts(alloc, &types, found.statics.as_slice(), unit)?;
    let main = lowered.made.main;
    let number = number_of(main, lowered.made.functions.as_slice().len());
    Ok(Program {
        types,
        nodes,
        statics: Statics(found.statics),
        initialisers: lowered.initialisers,
        functions: Functions(lowered.made.functions),
        main: number,
        main_place: place_of(main),
        sites: Sites(found.sites),
    })
}
