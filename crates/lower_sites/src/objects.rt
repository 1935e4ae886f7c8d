//! The sites of types and of objects.
ghost use Rattle.std.specs.Prelude.{◌≡◌, [], ◌∷◌, ◌++◌, flat_map, OnOk};
ghost use Rattle.c_types.specs.Table.{IsType, shape_at};
ghost use Rattle.kind_sites.specs.Solutions.{sites_of_shape, sites_of_table};
ghost use Rattle.kind_sites.specs.declared.site.Site.TheVariants as site;
ghost use Rattle.lower_sites.specs.Objects.{site_of_parameter, site_of_planned, site_of_static, sites_of_function};

use c_types::{TypeShape, Types};
use cc_base::{NoMemory, NodeId, TypeId};
use cil_form::{Function, Parameter, Planned, Static};
use kind_sites::Site;

/// A pointer type has a site.
fn put_type(out: &mut Vec<Site>, types: &Types, t: TypeId) -> Result<(), NoMemory>
    requires { IsType types.now t }
    ensures { OnOk result (out.new.items ≡ out.old.items ++ sites_of_shape (shape_at types.now t)) }
{
    if let TypeShape::Pointer(node, to) = types.shape(t) {
        out.push(Site::Pointee {
            node: *node,
            ty: *to,
        })?;
    }
    Ok(())
}

/// The sites of a table of types.
pub(crate) fn put_table(out: &mut Vec<Site>, types: &Types) -> Result<(), NoMemory>
    ensures { OnOk result (out.new.items ≡ out.old.items ++ sites_of_table types.now) }
{
    'types: for i in 0..types.count() {
        put_type(out, types, TypeId(i))?;
    }
    Ok(())
}

/// An object of a type has a home.
fn put_home(out: &mut Vec<Site>, node: NodeId, ty: TypeId) -> Result<(), NoMemory>
    ensures { OnOk result (out.new.items ≡ out.old.items ++ site.Home node ty ∷ []) }
{
    out.push(Site::Home { node, ty })?;
    Ok(())
}

/// The homes of static objects.
pub(crate) fn put_statics(out: &mut Vec<Site>, all: &[Static]) -> Result<(), NoMemory>
    ensures { OnOk result (out.new.items ≡ out.old.items ++ flat_map site_of_static all.now) }
{
    for one in all {
        put_home(out, one.planned.home, one.planned.ty)?;
    }
    Ok(())
}

/// The home of a parameter that has a name.
fn put_parameter(out: &mut Vec<Site>, one: &Parameter) -> Result<(), NoMemory>
    ensures { OnOk result (out.new.items ≡ out.old.items ++ site_of_parameter one.now) }
{
    match one.home {
        Some(node) => put_home(out, node, one.ty),
        None => Ok(()),
    }
}

fn put_parameters(out: &mut Vec<Site>, all: &[Parameter]) -> Result<(), NoMemory>
    ensures { OnOk result (out.new.items ≡ out.old.items ++ flat_map site_of_parameter all.now) }
{
    for one in all {
        put_parameter(out, one)?;
    }
    Ok(())
}

/// The homes of local variables.
fn put_locals(out: &mut Vec<Site>, all: &[Planned]) -> Result<(), NoMemory>
    ensures { OnOk result (out.new.items ≡ out.old.items ++ flat_map site_of_planned all.now) }
{
    for one in all {
        put_home(out, one.home, one.ty)?;
    }
    Ok(())
}

/// The homes of the variables of a function.
fn put_function(out: &mut Vec<Site>, one: &Function) -> Result<(), NoMemory>
    ensures { OnOk result (out.new.items ≡ out.old.items ++ sites_of_function one.now) }
{
    put_parameters(out, one.parameters.0.as_slice())?;
    put_locals(out, one.locals.0.as_slice())
}

/// The homes of the variables of functions.
pub(crate) fn put_functions(out: &mut Vec<Site>, all: &[Function]) -> Result<(), NoMemory>
    ensures { OnOk result (out.new.items ≡ out.old.items ++ flat_map sites_of_function all.now) }
{
    for one in all {
        put_function(out, one)?;
    }
    Ok(())
}
