//! Calls (C99 6.5.2.2).
#![tactic(auto)]

ghost use Rattle.std.specs.Prelude.{◌≡◌, [], ◌∷◌, ◌==◌, not, max, map, IfOk, option_copied, length};
ghost use Rattle.cc_base.specs.declared.fault.Rule.TheVariants.{BadCall};
ghost use Rattle.runtime_calls.specs.Prototypes.{prototype_of};
ghost use Rattle.c_types.specs.Table.{shape_at};
ghost use Rattle.c_tree.specs.TypedParts.{type_of};
ghost use Rattle.c_tree.specs.TypedViews.{typed_expr_view};
ghost use Rattle.c_typing.specs.Assignments as assignments;
ghost use Rattle.c_typing.specs.Held.{held_with};
ghost use Rattle.c_typing.specs.Judging.{Answers, known};
ghost use Rattle.c_typing.specs.KindViews.{shape_or_void};
ghost use Rattle.c_typing.specs.Operands.{argument_of};
ghost use Rattle.c_typing.specs.OperandViews.{part_view, operand_view, value_view};
ghost use Rattle.c_typing.specs.Rules as rules;
ghost use Rattle.c_typing.specs.Tests as tests;
ghost use Rattle.c_typing.specs.Tests.{first_broken, broken_at, AsValue};

use crate::address::SIZE;
use crate::conversion::{converted_to, fits, is_null_part};
use c_tree::{Boxed, Items, Runtime, TypedExpr};
use c_types::{TypeShape, Types};
use c_typing::construct::holding;
use c_typing::operand::{Operand, Part, PartRef, Value};
use c_typing::scope::Scope;
use c_typing::shapes::{INT, point_to_data, pointed_shape, shape_at};
use c_typing::stops::refusal;
use cc_base::{Fault, NoMemory, Place, Rule, TypeId};
use runtime_calls::{RuntimeType, parameters_of, result_of};

/// The runtime function that an expression names, in parentheses or not.
#[tactic(auto, using(c_tree::proofs::TypedViewLaws::typed_views))]
fn runtime_named(e: &TypedExpr) -> Option<Runtime>
    ensures { result ≡ rules.runtime_named (typed_expr_view e.now) }
{
    match e {
        TypedExpr::RuntimeName(_, function, _) => Some(*function),
        TypedExpr::Paren(_, inner) => runtime_named(inner.get()),
        _ => None,
    }
}

/// Whether a value becomes one of a type without being told.
fn fits_type(types: &Types, e: &TypedExpr, t: TypeId) -> bool
    ensures { result ≡ tests.fits types.now (AsValue (typed_expr_view e.now))
        (shape_at types.now t) }
{
    fits(types, PartRef::Value(e), shape_at(types, t))
}

/// The rules of the arguments of a function: each fits its parameter.
fn argument_fault(types: &Types, parameters: &[TypeId], values: &[Value]) -> Option<Fault>
    ensures { result ≡ first_broken (tests.argument_tests types.now parameters.now
        (map argument_of (map value_view values.now))) }
{
    let mut wanted = parameters;
    let mut given = values;
    'arguments: while let Some((t, later)) = wanted.split_first() {
        let Some((v, others)) = given.split_first() else {
            return None;
        };
        if !fits_type(types, v.expr.get(), *t) {
            return Some(refusal(v.place, Rule::Mismatch));
        }
        wanted = later;
        given = others;
    }
    None
}

/// What a runtime function takes: `free` any pointer to data, or a null constant.
fn is_taken_by(types: &Types, wanted: RuntimeType, e: &TypedExpr) -> bool
    ensures { result ≡ tests.is_taken_by types.now wanted (AsValue (typed_expr_view e.now)) }
{
    match wanted {
        RuntimeType::Void => false,
        RuntimeType::Int => {
            let int = TypeShape::Integer {
                bytes: 4,
                signed: true,
            };
            fits(types, PartRef::Value(e), Some(&int))
        }
        RuntimeType::UnsignedLong => {
            let size = TypeShape::Integer {
                bytes: 8,
                signed: false,
            };
            fits(types, PartRef::Value(e), Some(&size))
        }
        RuntimeType::VoidPointer => {
            point_to_data(types, shape_at(types, e.ty())) || is_null_part(types, PartRef::Value(e))
        }
    }
}

/// The rules of the arguments of a runtime function.
fn runtime_argument_fault(
    types: &Types,
    parameters: &[RuntimeType],
    values: &[Value],
) -> Option<Fault>
    ensures { result ≡ first_broken (tests.runtime_argument_tests types.now parameters.now
        (map argument_of (map value_view values.now))) }
{
    let mut wanted = parameters;
    let mut given = values;
    'arguments: while let Some((t, later)) = wanted.split_first() {
        let Some((v, others)) = given.split_first() else {
            return None;
        };
        if !is_taken_by(types, *t, v.expr.get()) {
            return Some(refusal(v.place, Rule::Mismatch));
        }
        wanted = later;
        given = others;
    }
    None
}

/// There are as many arguments as parameters.
fn count_fault(at: Place, wanted: usize, given: usize) -> Option<Fault>
    ensures { result ≡ first_broken (broken_at BadCall at (not (wanted == given)) ∷ []) }
{
    if wanted == given {
        None
    } else {
        Some(refusal(at, Rule::BadCall))
    }
}

/// The rules of a call of what has this shape.
#[tactic(auto, using(crate::proofs::CallLaws::broken_first, crate::proofs::CallLaws::broken_then, crate::proofs::CallLaws::arguments_length))]
fn function_fault(
    types: &Types,
    at: Place,
    shape: Option<&TypeShape>,
    values: &[Value],
) -> Option<Fault>
    ensures { result ≡ first_broken (tests.call_tests_of types.now
        (shape_or_void (option_copied shape.entry)) at
        (map argument_of (map value_view values.now))) }
{
    match shape {
        Some(TypeShape::Function(parameters, _)) => {
            let parameters = parameters.ids();
            match argument_fault(types, parameters, values) {
                Some(fault) => Some(fault),
                None => count_fault(at, parameters.len(), values.len()),
            }
        }
        _ => Some(refusal(at, Rule::BadCall)),
    }
}

/// The rules of a call of a runtime function.
#[tactic(auto, using(crate::proofs::CallLaws::broken_first, crate::proofs::CallLaws::broken_then, crate::proofs::CallLaws::arguments_length))]
fn runtime_fault(types: &Types, at: Place, function: Runtime, values: &[Value]) -> Option<Fault>
    ensures { result ≡ first_broken (tests.runtime_tests types.now
        (prototype_of function).parameters at (map argument_of (map value_view values.now))) }
{
    let parameters = parameters_of(function);
    match runtime_argument_fault(types, parameters, values) {
        Some(fault) => Some(fault),
        None => count_fault(at, parameters.len(), values.len()),
    }
}

/// The rules of a call.
fn call_fault(types: &Types, at: Place, f: &TypedExpr, values: &[Value]) -> Option<Fault>
    ensures { result ≡ first_broken (tests.call_tests types.now at (AsValue (typed_expr_view f.now))
        (map argument_of (map value_view values.now))) }
{
    match runtime_named(f) {
        Some(function) => runtime_fault(types, at, function, values),
        None => {
            let shape = pointed_shape(types, shape_at(types, f.ty()));
            function_fault(types, at, shape, values)
        }
    }
}

/// How many values arguments hold while the function and those before them are held.
#[tactic(auto, using(crate::proofs::CallLaws::next_held))]
fn arguments_held(values: &[Value]) -> u64
    ensures { result ≡ assignments.arguments_held 1 (map value_view values.now) }
{
    let mut most: u64 = 0;
    let mut before: u64 = 1;
    for v in values {
        most = most.max(before + u64::from(v.held));
        before += 1;
    }
    most.max(before + 1)
}

/// How many values a call holds at once.
fn call_held(f: u32, values: &[Value]) -> u64
    ensures { result ≡ held_with 0 (max f (assignments.arguments_held 1 (map value_view values.now))
        ∷ []) }
{
    u64::from(f).max(arguments_held(values)).max(2)
}

/// Each argument, converted to its parameter's type at its first token.
#[tactic(auto, using(crate::proofs::CallLaws::pushed))]
fn converted_arguments(
    scope: &Scope,
    types: &Types,
    parameters: &[TypeId],
    values: Vec<Value>,
) -> Result<Items<TypedExpr>, NoMemory>
    ensures { IfOk result (λ made. map typed_expr_view made
        ≡ assignments.converted_arguments types.now parameters.now (map value_view values.items)) }
{
    let mut made = Items::new(scope.alloc());
    let mut wanted = parameters;
    let mut given = values.into_iter();
    'arguments: while let Some((t, later)) = wanted.split_first() {
        let Some(v) = given.next() else {
            return Ok(made);
        };
        let one = converted_to(scope, types, v.place, *t, v.expr)?;
        made.push(one.into_inner())?;
        wanted = later;
    }
    Ok(made)
}

/// An argument of a runtime function; what `free` is given stays as it is.
fn runtime_argument(
    scope: &Scope,
    types: &Types,
    wanted: RuntimeType,
    v: Value,
) -> Result<Boxed<TypedExpr>, NoMemory>
    ensures { IfOk result (λ made. typed_expr_view made
        ≡ assignments.runtime_argument types.now wanted (value_view v)) }
{
    match wanted {
        RuntimeType::Int => converted_to(scope, types, v.place, INT, v.expr),
        RuntimeType::UnsignedLong => converted_to(scope, types, v.place, SIZE, v.expr),
        RuntimeType::Void => Ok(v.expr),
        RuntimeType::VoidPointer => Ok(v.expr),
    }
}

#[tactic(auto, using(crate::proofs::CallLaws::pushed))]
fn runtime_arguments(
    scope: &Scope,
    types: &Types,
    parameters: &[RuntimeType],
    values: Vec<Value>,
) -> Result<Items<TypedExpr>, NoMemory>
    ensures { IfOk result (λ made. map typed_expr_view made
        ≡ assignments.runtime_arguments types.now parameters.now (map value_view values.items)) }
{
    let mut made = Items::new(scope.alloc());
    let mut wanted = parameters;
    let mut given = values.into_iter();
    'arguments: while let Some((t, later)) = wanted.split_first() {
        let Some(v) = given.next() else {
            return Ok(made);
        };
        let one = runtime_argument(scope, types, *t, v)?;
        made.push(one.into_inner())?;
        wanted = later;
    }
    Ok(made)
}

/// A call of a runtime function; an allocation is one until something takes it over.
#[tactic(auto, using(c_tree::proofs::TypedViewLaws::typed_views))]
fn runtime_call(
    scope: &Scope,
    function: Runtime,
    f: Boxed<TypedExpr>,
    at: Place,
    arguments: Items<TypedExpr>,
) -> Result<Part, NoMemory>
    ensures { IfOk result (λ x. part_view x ≡ assignments.runtime_call function
        (typed_expr_view f) at (assignments.arguments_as (map typed_expr_view arguments))
        (prototype_of function).result) }
{
    match result_of(function) {
        RuntimeType::Int => Ok(Part::Value(Boxed::new(
            scope.alloc(),
            TypedExpr::CallRuntime(function, f, at, arguments, INT),
        )?)),
        RuntimeType::VoidPointer => Ok(Part::Allocation(Boxed::new(
            scope.alloc(),
            TypedExpr::AllocateFor(function, f, at, arguments, TypeId(0)),
        )?)),
        RuntimeType::Void => Ok(Part::Value(Boxed::new(
            scope.alloc(),
            TypedExpr::CallRuntime(function, f, at, arguments, TypeId(0)),
        )?)),
        RuntimeType::UnsignedLong => Ok(Part::Value(Boxed::new(
            scope.alloc(),
            TypedExpr::CallRuntime(function, f, at, arguments, TypeId(0)),
        )?)),
    }
}

/// A call of what has this shape.
#[tactic(auto, using(c_tree::proofs::TypedViewLaws::typed_views))]
fn called_shape(
    scope: &Scope,
    types: &Types,
    f: Boxed<TypedExpr>,
    at: Place,
    values: Vec<Value>,
    shape: Option<&TypeShape>,
) -> Result<Part, NoMemory>
    ensures { IfOk result (λ x. part_view x ≡ assignments.called_shape types.now
        (typed_expr_view f) at (map value_view values.items)
        (shape_or_void (option_copied shape.entry))) }
{
    match shape {
        Some(TypeShape::Function(parameters, t)) => {
            let arguments = converted_arguments(scope, types, parameters.ids(), values)?;
            Ok(Part::Value(Boxed::new(scope.alloc(), TypedExpr::Call(f, at, arguments, *t))?))
        }
        _ => Ok(Part::Value(f)),
    }
}

/// What a call makes.
fn called(
    scope: &Scope,
    types: &Types,
    f: Boxed<TypedExpr>,
    at: Place,
    values: Vec<Value>,
) -> Result<Part, NoMemory>
    ensures { IfOk result (λ x. part_view x ≡ assignments.called types.now (typed_expr_view f) at
        (map value_view values.items) (rules.runtime_named (typed_expr_view f))) }
{
    match runtime_named(f.get()) {
        Some(function) => {
            let arguments = runtime_arguments(scope, types, parameters_of(function), values)?;
            runtime_call(scope, function, f, at, arguments)
        }
        None => {
            let shape = pointed_shape(types, shape_at(types, f.get().ty()));
            called_shape(scope, types, f, at, values, shape)
        }
    }
}

/// A call (C99 6.5.2.2).
#[tactic(auto, unfolding(c_typing::specs::Assignments::call, c_typing::specs::Operations::construct, c_typing::specs::Judging::holding))]
pub fn call(
    scope: &Scope,
    types: &Types,
    f: Value,
    at: Place,
    values: Vec<Value>,
) -> Result<Operand, Fault>
    ensures { Answers operand_view (assignments.call (value_view f) at (map value_view values.items)
        (known types.now scope.now)) result (known types.now scope.now) }
{
    if let Some(fault) = call_fault(types, at, f.expr.get(), &values) {
        return Err(fault);
    }
    let place = f.place;
    let held = holding(place, call_held(f.held, &values))?;
    let part = called(scope, types, f.expr, at, values)?;
    Ok(Operand { part, place, held })
}
