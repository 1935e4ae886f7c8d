//! Names of declarators as they are written, and the places at which their types are named.
#![tactic(auto)]

ghost use Rattle.std.specs.Prelude.{◌≡◌, map, option_copied, option_map};
ghost use Rattle.c_tree.specs.Places.{specifier_place, specifiers_place};
ghost use Rattle.c_tree.specs.Views.{core_view, declarator_view, declared_of, specifier_view, specifiers_of, specifiers_view};
ghost use Rattle.c_typing.specs.Declaring as declaring;
ghost use Rattle.c_typing.specs.Refusals.{name_place};
ghost use Rattle.c_typing.specs.Walks as walks;

use c_tree::{Core, Declarator, Identifier, Specifier, Specifiers};
use cc_base::Place;

/// The first place of a text.
const NOWHERE: Place = Place { line: 1, col: 1 };

/// The name that a declarator declares.
#[cycle(names)]
#[tactic(auto, using(c_tree::proofs::ViewLaws::expr_views))]
pub fn declarator_name(d: &Declarator) -> Option<&Identifier>
    ensures { option_copied result ≡ declaring.declarator_name (declarator_view d.now) }
{
    core_name(&d.core)
}

#[cycle(names)]
#[tactic(auto, using(c_tree::proofs::ViewLaws::expr_views))]
fn core_name(core: &Core) -> Option<&Identifier>
    ensures { option_copied result ≡ declaring.core_name (core_view core.now) }
{
    match core {
        Core::Names(name) => Some(name),
        Core::Unnamed => None,
        Core::Nested(_, d) => declarator_name(d.get()),
    }
}

/// The place of the name, or another where there is none.
pub fn name_place(name: Option<&Identifier>, at: Place) -> Place
    ensures { result ≡ name_place (option_copied name.entry) at }
{
    match name {
        Some(name) => name.place,
        None => at,
    }
}

/// Where a specifier begins.
#[tactic(auto, using(c_tree::proofs::ViewLaws::expr_views))]
fn specifier_place(specifier: &Specifier) -> Place
    ensures { result ≡ specifier_place (specifier_view specifier.now) }
{
    match specifier {
        Specifier::Keyword(word) => word.place,
        Specifier::Typedef(name) => name.place,
        Specifier::Tagged(_, at, _) => *at,
        Specifier::Aggregate(_, at, _, _, _) => *at,
        Specifier::Enum(at, _) => *at,
        Specifier::Enumeration(at, _, _, _, _) => *at,
    }
}

/// Where a list of specifiers begins.
#[tactic(auto, using(crate::proofs::PlaceLaws::first_of_list))]
fn list_place(list: &[Specifier]) -> Place
    ensures { result ≡ specifiers_place (specifiers_of (map specifier_view list.now)) }
{
    match list.split_first() {
        Some((first, _)) => specifier_place(first),
        None => NOWHERE,
    }
}

#[tactic(auto, using(c_tree::proofs::ViewLaws::expr_views))]
pub(crate) fn specifiers_place(specifiers: &Specifiers) -> Place
    ensures { result ≡ specifiers_place (specifiers_view specifiers.now) }
{
    list_place(specifiers.list.as_slice())
}

/// The place at which the type of a declarator is named: that of its name, or else of its first specifier.
#[tactic(auto, using(c_tree::proofs::ViewLaws::expr_views))]
pub fn declared_place(specifiers: &Specifiers, d: &Option<Declarator>) -> Place
    ensures { result ≡ walks.declared_place (specifiers_view specifiers.now)
        (declared_of (option_map declarator_view d.now)) }
{
    let at = specifiers_place(specifiers);
    match d {
        Some(d) => name_place(declarator_name(d), at),
        None => at,
    }
}
