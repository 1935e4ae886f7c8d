//! Names of objects, functions and enumeration constants (C99 6.5.1).
#![tactic(auto)]

ghost use Rattle.std.specs.Prelude.{◌≡◌, ◌&&◌, ◌||◌, not, bytes_eq, option_copied};
ghost use Rattle.runtime_calls.specs.Prototypes.{runtime_of};
ghost use Rattle.c_typing.specs.Assignments as assignments;
ghost use Rattle.c_typing.specs.Growing.{Grows};
ghost use Rattle.c_typing.specs.Judging.{Answers, known};
ghost use Rattle.c_typing.specs.OperandViews.{part_view, operand_view};
ghost use Rattle.c_typing.specs.Scopes.{name_in, place_among};
ghost use Rattle.c_typing.specs.Tests as tests;
ghost use Rattle.c_typing.specs.Tests.{first_broken};

use crate::member_places::numbered;
use c_tree::{Boxed, Identifier, Runtime, TypedExpr, TypedPlace};
use c_types::Types;
use c_typing::construct::holding;
use c_typing::copies::copied_name;
use c_typing::declared::Declared;
use c_typing::operand::{Operand, Part};
use c_typing::scope::Scope;
use c_typing::shapes::INT;
use c_typing::stops::{no_room, refusal};
use c_typing::typing::new_pointer;
use cc_base::{Fault, Place, Rule, TypeId};
use runtime_calls::runtime;

fn is_undeclared(what: Option<&Declared>) -> bool
    ensures { result ≡ tests.is_none (option_copied what.entry) }
{
    matches!(what, None)
}

fn is_type_declared(what: Option<&Declared>) -> bool
    ensures { result ≡ tests.is_type_declared (option_copied what.entry) }
{
    matches!(what, Some(Declared::Typedef(_)))
}

fn is_function_declared(what: Option<&Declared>) -> bool
    ensures { result ≡ tests.is_function_declared (option_copied what.entry) }
{
    matches!(what, Some(Declared::Function(_)))
}

/// Whether the unit does not define a function with the name.
fn is_undefined(scope: &Scope, name: &[u8]) -> bool
    ensures { result ≡ tests.is_none (place_among scope.now.scopes.defined name.now) }
{
    matches!(scope.function(name), None)
}

fn is_same_text(name: &[u8], word: &[u8]) -> bool
    ensures { result ≡ bytes_eq name.now word.now }
{
    name == word
}

fn is_main(name: &[u8]) -> bool
    ensures { result ≡ tests.is_main name.now }
{
    is_same_text(name, b"main")
}

/// Whether a name stands for no value: `runtime` says that a runtime function has it.
fn is_unknown(scope: &Scope, runtime: bool, name: &[u8]) -> bool
    ensures { result ≡ ((tests.is_none (name_in scope.now.scopes.levels name.now) && not runtime) ||
        (tests.is_type_declared (name_in scope.now.scopes.levels name.now) ||
        (tests.is_function_declared (name_in scope.now.scopes.levels name.now) &&
        (not runtime && tests.is_none (place_among scope.now.scopes.defined name.now))))) }
{
    let what = scope.name(name);
    (is_undeclared(what) && !runtime)
        || (is_type_declared(what)
            || (is_function_declared(what) && (!runtime && is_undefined(scope, name))))
}

/// Whether a name is `main`, or a runtime function's where it is not called.
fn is_bad_call(scope: &Scope, runtime: bool, called: bool, name: &[u8]) -> bool
    ensures { result ≡ ((tests.is_function_declared (name_in scope.now.scopes.levels name.now) &&
        tests.is_main name.now) || (runtime && (not called &&
        (tests.is_none (name_in scope.now.scopes.levels name.now) || tests.is_function_declared
        (name_in scope.now.scopes.levels name.now))))) }
{
    let what = scope.name(name);
    (is_function_declared(what) && is_main(name))
        || (runtime && (!called && (is_undeclared(what) || is_function_declared(what))))
}

/// The rules of a name.
fn name_fault(scope: &Scope, runtime: bool, called: bool, word: &Identifier) -> Option<Fault>
    ensures { result ≡ first_broken (tests.name_tests scope.now.scopes runtime called word.now.bytes
        word.now.place) }
{
    let name = word.bytes.as_slice();
    if is_unknown(scope, runtime, name) {
        return Some(refusal(word.place, Rule::UnknownName));
    }
    if is_bad_call(scope, runtime, called, name) {
        return Some(refusal(word.place, Rule::BadCall));
    }
    None
}

/// The runtime function with a name.
pub fn runtime_of(name: &[u8]) -> Option<Runtime>
    ensures { result ≡ runtime_of name.now }
{
    runtime(name)
}

/// A function's name is its address.
#[tactic(auto, using(c_tree::proofs::TypedViewLaws::typed_views), unfolding(c_typing::specs::Assignments::function_name))]
fn function_name(
    scope: &mut Scope,
    types: &mut Types,
    word: &Identifier,
    function: TypeId,
) -> Result<Part, Fault>
    ensures answers { Answers part_view (assignments.function_name word.now function
        (known types.old scope.old)) result (known types.new scope.new) }
    ensures grows { Grows (known types.old scope.old) (known types.new scope.new) }
{
    let alloc = scope.alloc();
    let place = scope.function(word.bytes.as_slice());
    let number = numbered(scope, types, word.place, place)?;
    let made = new_pointer(scope, types, word.place, function)?;
    let name = copied_name(alloc, word)?;
    Ok(Part::Value(Boxed::new(
        scope.alloc(),
        TypedExpr::FunctionName(name, number, made.node, made.ty),
    )?))
}

/// What a name is declared as, or a runtime function.
#[tactic(auto, using(c_tree::proofs::TypedViewLaws::typed_views), unfolding(c_typing::specs::Assignments::named_as))]
fn named_as(
    scope: &mut Scope,
    types: &mut Types,
    word: &Identifier,
    runtime: Option<Runtime>,
    what: Option<Declared>,
) -> Result<Part, Fault>
    ensures answers { Answers part_view (assignments.named_as word.now runtime what
        (known types.old scope.old)) result (known types.new scope.new) }
    ensures grows { Grows (known types.old scope.old) (known types.new scope.new) }
{
    let alloc = scope.alloc();
    match what {
        Some(Declared::Object(t, home)) => {
            let name = copied_name(alloc, word)?;
            Ok(Part::Place(Boxed::new(scope.alloc(), TypedPlace::Variable(name, home, t))?))
        }
        Some(Declared::Enumerator(value)) => {
            let name = Boxed::new(alloc, copied_name(alloc, word)?)?;
            Ok(Part::Value(Boxed::new(scope.alloc(), TypedExpr::Enumerator(name, value, INT))?))
        }
        Some(Declared::Typedef(_)) => Err(no_room(word.place)),
        Some(Declared::Function(t)) => match runtime {
            Some(function) => {
                let name = copied_name(alloc, word)?;
                Ok(Part::Value(Boxed::new(
                    scope.alloc(),
                    TypedExpr::RuntimeName(name, function, TypeId(0)),
                )?))
            }
            None => function_name(scope, types, word, t),
        },
        None => match runtime {
            Some(function) => {
                let name = copied_name(alloc, word)?;
                Ok(Part::Value(Boxed::new(
                    scope.alloc(),
                    TypedExpr::RuntimeName(name, function, TypeId(0)),
                )?))
            }
            None => Err(no_room(word.place)),
        },
    }
}

/// A name; `called` says that it is called (C99 6.5.1).
#[tactic(auto, unfolding(c_typing::specs::Assignments::name, c_typing::specs::Operations::construct, c_typing::specs::Judging::holding))]
pub fn name(
    scope: &mut Scope,
    types: &mut Types,
    called: bool,
    word: &Identifier,
) -> Result<Operand, Fault>
    ensures answers { Answers operand_view (assignments.name called word.now
        (known types.old scope.old)) result (known types.new scope.new) }
    ensures grows { Grows (known types.old scope.old) (known types.new scope.new) }
{
    let runtime = runtime_of(word.bytes.as_slice());
    let is_runtime = matches!(runtime, Some(_));
    if let Some(fault) = name_fault(scope, is_runtime, called, word) {
        return Err(fault);
    }
    let held = holding(word.place, 1)?;
    let what = scope.name(word.bytes.as_slice()).copied();
    let part = named_as(scope, types, word, runtime, what)?;
    Ok(Operand {
        part,
        place: word.place,
        held,
    })
}
