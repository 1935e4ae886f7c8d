//! What the functions of a program are cured by.
ghost use Rattle.std.specs.Prelude.{◌≡◌, map, slice_index};
ghost use Rattle.cil_form.specs.Machine.{plan};
ghost use Rattle.cure_scope.specs.Scopes.{fixed_slots, world_of};
ghost use Rattle.cure_code.specs.Settings.{whole_in};

use cc_base::{Kind, Kinds, TypeId};
use cil_form::{Planned, Program};
use cure_scope::Scope;
use fat_layouts::Layouts;
use phys_types::Known;
use std::alloc::Global;

/// A program that is being cured, and what is the same in all of its functions.
#[derive(Drop)]
pub(crate) struct Setting<'a> {
    pub(crate) alloc: Global,
    pub(crate) program: &'a Program,
    pub(crate) known: &'a Known<'a>,
    pub(crate) layouts: &'a Layouts<'a>,
    /// The kinds of the nodes, and the same as a list.
    pub(crate) by_node: &'a Kinds,
    pub(crate) kinds: &'a [Kind],
    /// The number of the type node that pointers to each type carry, and of the signature of functions of the type.
    pub(crate) nodes: &'a [u32],
    pub(crate) signatures: &'a [u32],
    /// The static objects, and the addresses of their areas.
    pub(crate) statics: &'a [Planned],
    pub(crate) addresses: &'a [u64],
    /// How many functions are defined.
    pub(crate) functions: u32,
}

/// What a function has of its own: its number in the cured program, its variables, the type of its result, and how many
/// words its parameters take.
#[derive(Drop)]
pub(crate) struct Own<'a> {
    pub(crate) number: u32,
    pub(crate) variables: &'a [Planned],
    pub(crate) result: Option<TypeId>,
    pub(crate) parameters: u32,
}

/// What the code of a function is cured by.
pub(crate) fn scope<'a>(w: &Setting<'a>, own: &Own<'a>) -> Scope<'a>
    ensures world { world_of result ≡ record {
      whole = whole_in w.now;
      number = own.now.number;
      variables = map plan own.now.variables.now;
      result = own.now.result;
      slots = fixed_slots own.now.parameters;
    } }
    ensures table { result.layouts.now ≡ w.now.layouts.now }
{
    Scope {
        layouts: w.layouts,
        kinds: w.kinds,
        nodes: w.nodes,
        signatures: w.signatures,
        statics: w.statics,
        addresses: w.addresses,
        functions: w.functions,
        variables: own.variables,
        result: own.result,
        number: own.number,
        parameters: own.parameters,
    }
}

/// Lets a scope go.
pub(crate) fn leave(k: Scope<'_>) {
    let Scope {
        layouts: _,
        kinds: _,
        nodes: _,
        signatures: _,
        statics: _,
        addresses: _,
        functions: _,
        variables: _,
        result: _,
        number: _,
        parameters: _,
    } = k;
}

/// The number of the signature of functions of a type.
pub(crate) fn signature_of(signatures: &[u32], t: TypeId) -> u32
    ensures { result ≡ slice_index signatures.now t.0 }
{
    signatures.get(t.0 as usize).copied().unwrap_or(0)
}
