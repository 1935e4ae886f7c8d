//! Homes in the order of the numbers of their objects.
ghost use Rattle.std.specs.Prelude.{◌≡◌, [], ◌∷◌, ◌++◌, IfOk, OnOk};
ghost use Rattle.indexmap.specs.IndexSet.{insert_all};
ghost use Rattle.src_machine.specs.World.{same_node};
ghost use Rattle.lower_units.specs.Heads.{homes_of_planned, homes_of_statics, homes_of_parameters};
ghost use Rattle.lower_units.specs.Ready.{AreApart};

use cc_base::{NoMemory, NodeId};
use cil_form::{Parameter, Planned, Static};
use indexmap::IndexSet;
use std::alloc::Global;

/// Adds the homes of planned objects.
fn add_planned(homes: &mut IndexSet<NodeId>, all: &[Planned]) -> Result<(), NoMemory>
    ensures { OnOk result (homes.new.keys ≡ insert_all same_node homes.old.keys
        (homes_of_planned all.now)) }
{
    for one in all {
        homes.insert(one.home)?;
    }
    Ok(())
}

/// Adds the home of a parameter, if it has a name.
fn add_parameter(homes: &mut IndexSet<NodeId>, one: &Parameter) -> Result<(), NoMemory>
    ensures { OnOk result (homes.new.keys ≡ insert_all same_node homes.old.keys
        (homes_of_parameters (one.now ∷ []))) }
{
    match one.home {
        Some(home) => {
            homes.insert(home)?;
            Ok(())
        }
        None => Ok(()),
    }
}

/// Adds the homes of parameters that have names.
fn add_parameters(homes: &mut IndexSet<NodeId>, all: &[Parameter]) -> Result<(), NoMemory>
    ensures { OnOk result (homes.new.keys ≡ insert_all same_node homes.old.keys
        (homes_of_parameters all.now)) }
{
    for one in all {
        add_parameter(homes, one)?;
    }
    Ok(())
}

/// Adds the homes of static objects.
fn add_statics(homes: &mut IndexSet<NodeId>, all: &[Static]) -> Result<(), NoMemory>
    ensures { OnOk result (homes.new.keys ≡ insert_all same_node homes.old.keys
        (homes_of_statics all.now)) }
{
    for one in all {
        homes.insert(one.planned.home)?;
    }
    Ok(())
}

/// The homes of a function's variables: of its parameters that have names, and of its local variables.
pub(crate) fn variable_homes(
    alloc: Global,
    parameters: &[Parameter],
    locals: &[Planned],
) -> Result<IndexSet<NodeId>, NoMemory>
    requires { AreApart (homes_of_parameters parameters.now ++ homes_of_planned locals.now) }
    ensures { IfOk result (λ homes. homes.keys ≡ homes_of_parameters parameters.now ++
        homes_of_planned locals.now) }
{
    let mut homes = IndexSet::new(alloc);
    add_parameters(&mut homes, parameters)?;
    add_planned(&mut homes, locals)?;
    Ok(homes)
}

/// The homes of static objects.
pub(crate) fn static_homes(alloc: Global, statics: &[Static]) -> Result<IndexSet<NodeId>, NoMemory>
    requires { AreApart (homes_of_statics statics.now) }
    ensures { IfOk result (λ homes. homes.keys ≡ homes_of_statics statics.now) }
{
    let mut homes = IndexSet::new(alloc);
    add_statics(&mut homes, statics)?;
    Ok(homes)
}
