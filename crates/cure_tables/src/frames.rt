//! The variables of functions, and what their frames are charged.
#![tactic(auto)]

ghost use Rattle.std.specs.Prelude.{◌≡◌, ◌≤◌, ◌<◌, ◌++◌, IfOk, OnOk, map};
ghost use Rattle.std.specs.Option.{option_to_list};
ghost use Rattle.std.specs.List.{All, filter_map};
ghost use Rattle.c_types.specs.Table.{IsComplete};
ghost use Rattle.src_mem.specs.Memory.{frame_charge};
ghost use Rattle.src_mem.specs.Checks.{source_frame_limit};
ghost use Rattle.src_mem.specs.Runs.{planned};
ghost use Rattle.cil_form.specs.Machine.{plan, variables_of};

use c_types::Types;
use cc_base::NoMemory;
use cil_form::{Function, Parameter, Planned};
use std::alloc::Global;

/// Adds a parameter that has a name.
fn add_named(named: &mut Vec<Planned>, parameter: Parameter) -> Result<(), NoMemory>
    ensures { OnOk result (map plan named.new.items
        ≡ map plan named.old.items ++ option_to_list (planned parameter.ty parameter.home)) }
{
    if let Some(home) = parameter.home {
        named.push(Planned {
            ty: parameter.ty,
            home,
        })?;
    }
    Ok(())
}

/// The parameters that have names, as variables.
fn named(alloc: Global, parameters: &[Parameter]) -> Result<Vec<Planned>, NoMemory>
    ensures { IfOk result (λ named.
        map plan named.items ≡ filter_map (λ p. planned p.ty p.home) parameters.now) }
{
    let mut named = Vec::new(alloc);
    'parameters: for parameter in parameters {
        add_named(&mut named, *parameter)?;
    }
    Ok(named)
}

/// The variables of a function: its parameters that have names, and then its local variables.
pub fn variables(alloc: Global, function: &Function) -> Result<Vec<Planned>, NoMemory>
    ensures { IfOk result (λ all. map plan all.items ≡ variables_of function.now) }
{
    let parameters = &function.parameters;
    let locals = &function.locals;
    let mut all = named(alloc, &parameters.0)?;
    all.extend_from_slice(&locals.0)?;
    Ok(all)
}

/// What a frame with these variables is charged: their bytes, and 16 more for each. Where that is more than all frames
/// together may be charged, it is some number that is more.
pub fn charge_of(types: &Types, variables: &[Planned]) -> u64
    requires { All (λ v. IsComplete types.now v.ty) variables.now }
    ensures exact { frame_charge types.now (map plan variables.now) ≤ source_frame_limit
        → result ≡ frame_charge types.now (map plan variables.now) }
    ensures above { source_frame_limit < frame_charge types.now (map plan variables.now)
        → source_frame_limit < result }
{
    let _count = types.count();
    let mut charge = 0;
    'variables: for variable in variables {
        if charge > 1048576 {
            return charge;
        }
        charge += types.size_of(variable.ty) + 16;
    }
    charge
}
