//! The functions of a program.
ghost use Rattle.std.specs.Prelude.{◌≡◌, ◌+◌, ◌<◌, ◌≤◌, [], IfOk, Some, length, map, slice_get, sum_by};
ghost use Rattle.std.specs.List.{All};
ghost use Rattle.c_types.specs.Table.{IsType, AreNodesOf, shape_at};
ghost use Rattle.cc_base.specs.Kinds.{kind_at};
ghost use Rattle.cil_form.specs.Machine.{plan, variables_of};
ghost use Rattle.cil_form.specs.Shape.{result_of_shape};
ghost use Rattle.cure_rules.specs.Functions.{IsCuredFunction, words_at};
ghost use Rattle.cure_scope.specs.Scopes.{whole_of, world_of};
ghost use Rattle.cure_code.specs.Settings.{IsSet, IsNumber, world_at};
ghost use Rattle.cure_calls.specs.Storing.{CanStoreAll};
ghost use Rattle.cure_code.specs.Codes.{FunctionCode, IsCurableBody};

use crate::drafts::{empty, finished};
use crate::setting::{Own, Setting, leave, scope, signature_of};
use c_types::{TypeShape, Types};
use cc_base::{Kinds, NoMemory, TypeId};
use cil_form::{Function, Parameter, Planned};
use cure_bodies::put_body;
use cure_calls::put_parameters;
use cure_scope::Scope;
use cure_tables::{areas_of, charge_of, variables, words_in};
use cured_code::{Code, Locals};
use phys_types::Known;
use std::alloc::Global;

/// The type of a function's result.
fn result_of(types: &Types, t: TypeId) -> Option<TypeId>
    requires { IsType types.now t }
    ensures { result ≡ result_of_shape (shape_at types.now t) }
{
    match types.shape(t) {
        TypeShape::Function(_, result) => Some(*result),
        TypeShape::Void
        | TypeShape::Integer { .. }
        | TypeShape::Pointer(_, _)
        | TypeShape::Array(_, _)
        | TypeShape::Struct(_)
        | TypeShape::Union(_) => None,
    }
}

/// How many words parameters take together.
fn words_of(types: &Types, kinds: &Kinds, parameters: &[Parameter]) -> u32
    requires few { length parameters.now ≤ 127 }
    requires typed { All (λ x. IsType types.now x.ty) parameters.now }
    requires nodes { All (λ e. AreNodesOf (length kinds.now) e.shape) types.now }
    ensures sum { result ≡ sum_by (λ x. words_at types.now (kind_at kinds.now) x.ty)
        parameters.now }
    ensures most { result ≤ 381 }
{
    let mut sum = 0;
    'parameters: for parameter in parameters {
        sum += words_in(types, kinds, parameter.ty);
    }
    sum
}

/// The code of a function in its scope.
fn code_in(alloc: Global, known: &Known<'_>, k: &Scope<'_>, f: &Function) -> Result<Code, NoMemory>
    requires known { known.now ≡ k.now.layouts.now.table }
    requires few { length f.now.parameters ≤ 127 }
    requires stored { CanStoreAll (whole_of k.now) f.now.parameters }
    requires curable { IsCurableBody (world_of k.now) f.now.body.0.items }
    ensures { IfOk result (λ code. FunctionCode (world_of k.now) f.now code.0.items) }
{
    let parameters = &f.parameters;
    let body = &f.body;
    let mut out = empty(alloc);
    put_parameters(&mut out, k, &parameters.0, 0, 0);
    put_body(&mut out, k, known, &body.0);
    finished(out)
}

/// The code of a function that has these variables.
fn body_of(
    w: &Setting<'_>,
    number: u32,
    f: &Function,
    variables: &[Planned],
) -> Result<Code, NoMemory>
    requires set { IsSet w.now }
    requires function { IsNumber w.now number f.now }
    requires variables { map plan variables.now ≡ variables_of f.now }
    ensures { IfOk result (λ code. FunctionCode (world_at w.now number f.now) f.now code.0.items) }
{
    let types = &w.program.types;
    let parameters = &f.parameters;
    let own = Own {
        number: number + 1,
        variables,
        result: result_of(types, f.ty),
        parameters: words_of(types, w.by_node, &parameters.0),
    };
    let k = scope(w, &own);
    let code = code_in(w.alloc, w.known, &k, f);
    leave(k);
    code
}

/// A function that is never entered.
fn never_entered(alloc: Global, sig: u32, charge: u64) -> cured_code::Function
    ensures sig { result.sig ≡ sig }
    ensures slots { result.slots ≡ 1948 }
    ensures charge { result.charge ≡ charge }
    ensures locals { result.locals ≡ [] }
    ensures body { result.body.0.items ≡ [] }
{
    cured_code::Function {
        sig,
        slots: 1948,
        charge,
        locals: Locals(Vec::new(alloc)),
        body: Code(Vec::new(alloc)),
    }
}

/// A function of the source by its number. One whose variables alone are more than all frames may have is never entered.
pub(crate) fn function(
    w: &Setting<'_>,
    number: u32,
    f: &Function,
) -> Result<cured_code::Function, NoMemory>
    requires set { IsSet w.now }
    requires function { IsNumber w.now number f.now }
    ensures { IfOk result (IsCuredFunction (world_at w.now number f.now) f.now) }
{
    let types = &w.program.types;
    let sig = signature_of(w.signatures, f.ty);
    let variables = variables(w.alloc, f)?;
    let charge = charge_of(types, &variables);
    if charge > 1048576 {
        return Ok(never_entered(w.alloc, sig, charge));
    }
    let locals = areas_of(w.alloc, w.layouts, w.by_node, &variables)?;
    let body = body_of(w, number, f, &variables)?;
    Ok(cured_code::Function {
        sig,
        slots: 1948,
        charge,
        locals: Locals(locals),
        body,
    })
}
