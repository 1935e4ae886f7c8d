//! The functions of a unit in the order of their definitions, and `main` among them.
ghost use Rattle.std.specs.Prelude.{◌≡◌, ◌++◌, ◌∷◌, [], List, length, map, option_copied, IfOk, OnOk};
ghost use Rattle.std.specs.List.{All};
ghost use Rattle.c_tree.specs.Views.{added};
ghost use Rattle.c_tree.specs.TypedTree as typed;
ghost use Rattle.c_tree.specs.TypedParts.{DefinedFunction, functions_of, name_of};
ghost use Rattle.c_tree.specs.TypedViews.{typed_declarator_view};
ghost use Rattle.c_tree.specs.TypedStatementViews.{typed_external_view};
ghost use Rattle.src_machine.specs.Machine.{is_main, place_of_name};
ghost use Rattle.c_tree.specs.declared.typed_statement.TypedExternal.TheVariants as external;
ghost use Rattle.lower_units.specs.Heads.{function_seen};
ghost use Rattle.lower_units.specs.Mains.{IsMade, IsMainOf};
ghost use Rattle.lower_units.specs.Ready.{HasCodeOfFunction};

use crate::functions::{Unit, function};
use c_check_declarators::homes::name_of;
use c_tree::{Identifier, TypedDeclarator, TypedExternal, TypedFunction};
use cc_base::{NoMemory, Place};
use cil_form::Function;

/// `main`, where it was met: its number and the place of its name.
#[derive(Clone, Copy)]
pub(crate) struct Found {
    pub(crate) number: usize,
    pub(crate) place: Place,
}

/// The code of functions, and `main` among them.
#[derive(Drop)]
pub(crate) struct Made {
    pub(crate) functions: Vec<Function>,
    pub(crate) main: Option<Found>,
}

/// The name that a declarator declares.
#[tactic(auto, using(c_tree::proofs::TypedViewLaws::typed_views))]
fn declared_name(d: &TypedDeclarator) -> Option<&Identifier>
    ensures { option_copied result ≡ name_of (typed_declarator_view d.now) }
{
    name_of(&d.form)
}

/// Whether a name is that of `main`.
fn is_main(name: Option<&Identifier>) -> bool
    ensures { result ≡ is_main (option_copied name.entry) }
{
    match name {
        Some(name) => name.bytes.as_slice() == b"main".as_slice(),
        None => false,
    }
}

/// The place of a name.
fn place_of(name: Option<&Identifier>) -> Place
    ensures { result ≡ place_of_name (option_copied name.entry) }
{
    match name {
        Some(name) => name.place,
        None => Place { line: 1, col: 1 },
    }
}

/// `main` among functions, where one more has this number.
#[tactic(auto, using(crate::proofs::MainLaws::main_rules))]
fn main_with(found: Option<Found>, number: usize, f: &TypedFunction) -> Option<Found>
    ensures { (fs : List DefinedFunction) → number ≡ length fs → IsMainOf fs found
        → IsMainOf (fs ++ function_seen f.now ∷ []) result }
{
    match found {
        Some(main) => Some(main),
        None => {
            let name = declared_name(&f.declarator);
            if is_main(name) {
                Some(Found {
                    number,
                    place: place_of(name),
                })
            } else {
                None
            }
        }
    }
}

/// A function behind others.
fn add(made: &mut Made, k: &Unit<'_>, f: &TypedFunction) -> Result<(), NoMemory>
    requires { HasCodeOfFunction k.now.types.now k.now.statics.now.keys (function_seen f.now) }
    ensures { (all : typed.TypedTranslationUnit) → OnOk result
        (IsMade k.now.types.now k.now.statics.now.keys all made.old
        → IsMade k.now.types.now k.now.statics.now.keys
        (typed_external_view (external.Function f.now) all) made.new) }
{
    let number = made.functions.as_slice().len();
    let one = function(k, f)?;
    made.main = main_with(made.main, number, f);
    made.functions.push(one)?;
    Ok(())
}

/// A declaration or a function behind others.
fn external(made: &mut Made, k: &Unit<'_>, one: &TypedExternal) -> Result<(), NoMemory>
    requires { All (HasCodeOfFunction k.now.types.now k.now.statics.now.keys)
        (functions_of (typed_external_view one.now typed.NoExternal)) }
    ensures { (all : typed.TypedTranslationUnit) → OnOk result
        (IsMade k.now.types.now k.now.statics.now.keys all made.old
        → IsMade k.now.types.now k.now.statics.now.keys
        (typed_external_view one.now all) made.new) }
{
    match one {
        TypedExternal::Declaration(_) => Ok(()),
        TypedExternal::Function(f) => add(made, k, f),
    }
}

/// The code of the functions of a unit.
pub(crate) fn functions(k: &Unit<'_>, all: &[TypedExternal]) -> Result<Made, NoMemory>
    requires { All (HasCodeOfFunction k.now.types.now k.now.statics.now.keys)
        (functions_of (added typed.NoExternal (map typed_external_view all.now))) }
    ensures { IfOk result (λ made. IsMade k.now.types.now k.now.statics.now.keys
        (added typed.NoExternal (map typed_external_view all.now)) made) }
{
    let mut made = Made {
        functions: Vec::new(k.alloc),
        main: None,
    };
    for one in all {
        external(&mut made, k, one)?;
    }
    Ok(made)
}
