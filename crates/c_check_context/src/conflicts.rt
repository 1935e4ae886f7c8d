//! Declarations that do not agree with those before them (C99 6.2.2, 6.2.7, 6.7).
#![tactic(auto)]

ghost use Rattle.std.specs.Prelude.{◌≡◌, ◌&&◌, ◌||◌, true, option_copied};
ghost use Rattle.c_types.specs.Table.{shape_at};
ghost use Rattle.c_typing.specs.KindViews.{shape_or_void};
ghost use Rattle.c_typing.specs.Scopes.{entry_of, here};
ghost use Rattle.c_typing.specs.Tests.{first_broken};
ghost use Rattle.runtime_calls.specs.Prototypes.{runtime_of};
ghost use Rattle.c_check_context.specs.CodeViews.{storage_view};
ghost use Rattle.c_check_context.specs.ContextViews.{state_of};
ghost use Rattle.c_unit_typing.specs.UnitJudging.{known_of};
ghost use Rattle.c_unit_typing.specs.UnitRefusals as refusals;
ghost use Rattle.c_unit_typing.specs.Units.{is_linked_home, is_one_of};
ghost use Rattle.c_typing.specs.Constants.{is_void_pointer};

use crate::context::Context;
use crate::homes::Storage;
use c_tree::{Identifier, Runtime};
use c_types::{TypeShape, Types};
use c_typing::Declared;
use c_typing::same::is_same_type;
use c_typing::shapes::{is_complete_at, is_function, is_void, pointee_at, shape_at};
use c_typing::stops::refusal;
use cc_base::{Fault, NodeId, Rule, TypeId};
use runtime_calls::{RuntimeType, parameters_of, result_of, runtime};

/// Whether a declaration of a name does not agree with one before it.
fn conflicts(types: &Types, first: Option<&Declared>, what: Declared) -> bool
    ensures { result ≡ refusals.conflicts types.now (option_copied first.entry) what }
{
    match (first, what) {
        (None, _) => false,
        (Some(Declared::Object(t, _)), Declared::Object(u, _)) => !is_same_type(types, *t, u),
        (Some(Declared::Function(t)), Declared::Function(u)) => !is_same_type(types, *t, u),
        (Some(_), _) => true,
    }
}

fn is_integer_of(shape: Option<&TypeShape>, count: u64, sign: bool) -> bool
    ensures { result ≡ refusals.is_integer_of
        (shape_or_void (option_copied shape.entry)) count sign }
{
    match shape {
        Some(TypeShape::Integer { bytes, signed }) => *bytes == count && *signed == sign,
        _ => false,
    }
}

/// Whether a type is `int`.
pub fn is_int(types: &Types, t: TypeId) -> bool
    ensures { result ≡ refusals.is_integer_of (shape_at types.now t) 4 true }
{
    is_integer_of(shape_at(types, t), 4, true)
}

fn is_void_pointer(types: &Types, t: TypeId) -> bool
    ensures { result ≡ is_void_pointer types.now t }
{
    match pointee_at(types, t) {
        Some(to) => is_void(shape_at(types, to)),
        None => false,
    }
}

fn is_runtime_type(types: &Types, wanted: RuntimeType, t: TypeId) -> bool
    ensures { result ≡ refusals.is_runtime_type types.now wanted t }
{
    match wanted {
        RuntimeType::Void => is_void(shape_at(types, t)),
        RuntimeType::Int => is_int(types, t),
        RuntimeType::UnsignedLong => is_integer_of(shape_at(types, t), 8, false),
        RuntimeType::VoidPointer => is_void_pointer(types, t),
    }
}

fn are_runtime_types(types: &Types, wanted: &[RuntimeType], given: &[TypeId]) -> bool
    ensures { result ≡ refusals.are_runtime_types types.now wanted.now given.now }
{
    match (wanted.split_first(), given.split_first()) {
        (None, None) => true,
        (Some((first, wanted)), Some((t, given))) => {
            is_runtime_type(types, *first, *t) && are_runtime_types(types, wanted, given)
        }
        _ => false,
    }
}

fn is_prototype(types: &Types, function: Runtime, shape: Option<&TypeShape>) -> bool
    ensures { result ≡ refusals.is_prototype_shape types.now function
        (shape_or_void (option_copied shape.entry)) }
{
    match shape {
        Some(TypeShape::Function(parameters, result)) => {
            are_runtime_types(types, parameters_of(function), parameters.ids())
                && is_runtime_type(types, result_of(function), *result)
        }
        _ => false,
    }
}

/// The runtime function with a name.
pub fn runtime_of(name: &[u8]) -> Option<Runtime>
    ensures { result ≡ runtime_of name.now }
{
    runtime(name)
}

/// Whether a runtime function is declared as something else.
fn conflicts_with_runtime(types: &Types, function: Option<Runtime>, what: Declared) -> bool
    ensures { result ≡ refusals.conflicts_with_runtime types.now function what }
{
    match (function, what) {
        (None, _) => false,
        (Some(function), Declared::Function(t)) => !is_prototype(
            types,
            function,
            shape_at(types, t),
        ),
        (Some(_), _) => true,
    }
}

/// What a declarator's name is declared as; the home of an object does not count.
pub fn declared_as(types: &Types, storage: Storage, t: TypeId) -> Declared
    ensures { result ≡ refusals.declared_as types.now (storage_view storage) t }
{
    match storage {
        Storage::AsTypedef => Declared::Typedef(t),
        _ => {
            if is_function(shape_at(types, t)) {
                Declared::Function(t)
            } else {
                Declared::Object(t, NodeId(0))
            }
        }
    }
}

/// Whether a name has linkage: at file scope, with `extern`, and that of a function (C99 6.2.2).
fn has_linkage(file: bool, storage: Storage, what: Declared) -> bool
    ensures { result ≡ refusals.has_linkage file (storage_view storage) what }
{
    match (what, storage) {
        (Declared::Function(_), _) => true,
        (Declared::Object(_, _), Storage::AsExtern) => true,
        (Declared::Object(_, _), _) => file,
        _ => false,
    }
}

fn is_object(what: Declared) -> bool
    ensures { result ≡ refusals.is_object what }
{
    match what {
        Declared::Object(_, _) => true,
        _ => false,
    }
}

/// Whether a home is that of the name with linkage.
pub fn is_linked_home(first: Option<&Declared>, home: NodeId) -> bool
    ensures { result ≡ is_linked_home (option_copied first.entry) home }
{
    match first {
        Some(Declared::Object(_, first)) => first.0 == home.0,
        _ => false,
    }
}

/// Whether an object of the innermost scope is not the one with linkage.
fn is_unlinked(here: Option<&Declared>, linked: Option<&Declared>) -> bool
    ensures { result ≡ refusals.is_unlinked (option_copied here.entry)
        (option_copied linked.entry) }
{
    match here {
        Some(Declared::Object(_, home)) => !is_linked_home(linked, *home),
        _ => false,
    }
}

impl Context {
    /// Whether the innermost scope has the name as something else, or as an object without linkage.
    fn disagrees_here(&self, name: &Identifier, what: Declared) -> bool
        ensures { result ≡ (refusals.conflicts self.now.types
            (here self.now.scope.scopes.levels name.now.bytes) what || refusals.is_unlinked
            (here self.now.scope.scopes.levels name.now.bytes)
            (entry_of self.now.linkage.linked name.now.bytes)) }
    {
        let bytes = name.bytes.as_slice();
        let here = self.scope.here(bytes);
        conflicts(&self.types, here, what) || is_unlinked(here, self.linkage.linked.of(bytes))
    }

    /// Whether a name is linked as something else, or is that of a runtime function with another type.
    fn disagrees_with_linked(&self, name: &Identifier, what: Declared) -> bool
        ensures { result ≡ (refusals.conflicts self.now.types
            (entry_of self.now.linkage.linked name.now.bytes) what ||
            refusals.conflicts_with_runtime self.now.types (runtime_of name.now.bytes) what) }
    {
        let bytes = name.bytes.as_slice();
        conflicts(&self.types, self.linkage.linked.of(bytes), what)
            || conflicts_with_runtime(&self.types, runtime_of(bytes), what)
    }

    /// Whether a name has a definition already, and is defined again.
    fn is_defined_again(&self, defines: bool, name: &Identifier) -> bool
        ensures { result ≡ (defines && is_one_of self.now.linkage.defined name.now.bytes) }
    {
        defines && self.linkage.defined.has(name.bytes.as_slice())
    }

    /// Whether a name with linkage does not agree with what is known of it, or is defined twice.
    fn conflicts_as_linked(&self, defines: bool, name: &Identifier, what: Declared) -> bool
        ensures { result ≡ refusals.is_redeclared self.now.types
            (known_of (state_of self.now)) true defines name.now.bytes what }
    {
        if self.disagrees_here(name, what) {
            return true;
        }
        if self.disagrees_with_linked(name, what) {
            return true;
        }
        self.is_defined_again(defines, name)
    }

    /// Whether a name is declared before in a way that this declaration does not agree with, or is defined twice.
    pub fn is_redeclared(
        &self,
        linked: bool,
        defines: bool,
        name: &Identifier,
        what: Declared,
    ) -> bool
        ensures { result ≡ refusals.is_redeclared self.now.types
            (known_of (state_of self.now)) linked defines name.now.bytes what }
    {
        if linked {
            self.conflicts_as_linked(defines, name, what)
        } else {
            self.scope.here(name.bytes.as_slice()).is_some()
        }
    }

    /// Whether a name of the file scope is that of a runtime function, and stands for something else.
    fn is_taken_by_runtime(&self, file: bool, name: &Identifier, what: Declared) -> bool
        ensures { result ≡ refusals.is_taken_by_runtime self.now.types file name.now.bytes what }
    {
        file && conflicts_with_runtime(&self.types, runtime_of(name.bytes.as_slice()), what)
    }

    /// Whether a declarator's name is declared before in a way that it does not agree with, is defined twice or belongs to a runtime function.
    fn is_name_taken(
        &self,
        file: bool,
        linked: bool,
        defines: bool,
        name: &Identifier,
        what: Declared,
    ) -> bool
        ensures { result ≡ (refusals.is_redeclared self.now.types
            (known_of (state_of self.now)) linked defines name.now.bytes what ||
            refusals.is_taken_by_runtime self.now.types file name.now.bytes what) }
    {
        self.is_redeclared(linked, defines, name, what)
            || self.is_taken_by_runtime(file, name, what)
    }

    /// The first rule that a declarator's name breaks, once it has its type.
    pub fn broken_by_name(
        &self,
        file: bool,
        storage: Storage,
        initialised: bool,
        name: &Identifier,
        t: TypeId,
    ) -> Option<Fault>
        ensures { result ≡ first_broken (refusals.declared_tests self.now.types
            (known_of (state_of self.now)) file
            (storage_view storage) initialised name.now.bytes t name.now.place) }
    {
        let what = declared_as(&self.types, storage, t);
        let object = is_object(what);
        let linked = has_linkage(file, storage, what);
        if self.is_name_taken(file, linked, initialised && object, name, what) {
            return Some(refusal(name.place, Rule::Redeclared));
        }
        if object && !is_complete_at(&self.scope, &self.types, t) {
            return Some(refusal(name.place, Rule::Incomplete));
        }
        if initialised && !object {
            return Some(refusal(name.place, Rule::Mismatch));
        }
        None
    }
}
