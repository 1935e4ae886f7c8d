//! All sites of a unit.
ghost use Rattle.std.specs.Prelude.{◌≡◌, ◌++◌, flat_map, IfOk, OnOk};
ghost use Rattle.c_tree.specs.TypedStatementViews.{typed_unit_view};
ghost use Rattle.src_machine.specs.Names.{named_in};
ghost use Rattle.src_machine.specs.Pieces.{pieces_of_unit};
ghost use Rattle.src_machine.specs.Sites.{sites_of, sites_of_names, sites_of_piece};
ghost use Rattle.lower_rules.specs.Units.{IsCodeOfUnit};
ghost use Rattle.lower_sites.specs.Objects.{sites_of_objects};

use crate::firsts::{FirstFunctions, FirstObjects};
use crate::names::{Names, Scope};
use crate::objects::{put_functions, put_statics, put_table};
use crate::walk::externals;
use c_tree::TypedUnit;
use c_types::Types;
use cc_base::NoMemory;
use cil_form::{Program, Sites};
use kind_sites::Site;
use std::alloc::Global;

/// The sites of the declarations of names.
#[tactic(auto, using(crate::proofs::SiteLaws::names_told))]
fn told_names(alloc: Global, types: &Types, unit: &TypedUnit) -> Result<Vec<Site>, NoMemory>
    ensures { IfOk result (λ sites. sites.items
        ≡ sites_of_names (named_in (typed_unit_view unit.now) types.now)) }
{
    let k = Scope { alloc, types };
    let mut out = Names {
        objects: FirstObjects::new(alloc),
        functions: FirstFunctions::new(alloc),
        sites: Vec::new(alloc),
        fine: true,
    };
    externals(&mut out, &k, unit.externals.as_slice());
    if out.fine {
        Ok(out.sites)
    } else {
        Err(NoMemory)
    }
}

/// Appends sites.
fn put_all(out: &mut Vec<Site>, all: &[Site]) -> Result<(), NoMemory>
    ensures { OnOk result (out.new.items ≡ out.old.items ++ all.now) }
{
    out.extend_from_slice(all)?;
    Ok(())
}

/// The sites of the types and the objects of a program.
fn put_objects(out: &mut Vec<Site>, program: &Program) -> Result<(), NoMemory>
    ensures { OnOk result (out.new.items ≡ out.old.items ++ sites_of_objects program.now) }
{
    put_table(out, &program.types)?;
    put_statics(out, program.statics.0.as_slice())?;
    put_functions(out, program.functions.0.as_slice())
}

/// All sites of a unit, of which a program is the code that has the sites of its pieces.
pub fn sites_of(alloc: Global, unit: &TypedUnit, program: &Program) -> Result<Sites, NoMemory>
    requires code { IsCodeOfUnit (typed_unit_view unit.now) program.now }
    requires pieces { program.now.sites ≡ flat_map (sites_of_piece program.now.types)
        (pieces_of_unit (typed_unit_view unit.now)) }
    ensures { IfOk result (λ all. all ≡ sites_of (typed_unit_view unit.now) program.now.types) }
{
    let mut all = Vec::new(alloc);
    put_objects(&mut all, program)?;
    put_all(&mut all, program.sites.0.as_slice())?;
    let named = told_names(alloc, &program.types, unit)?;
    put_all(&mut all, named.as_slice())?;
    Ok(Sites(all))
}
