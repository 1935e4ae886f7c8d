//! What stands nearest to the name of a declarator (C99 6.7.5).
#![tactic(auto)]

ghost use Rattle.std.specs.Prelude.{◌≡◌, map, option_map};
ghost use Rattle.c_types.specs.Table.{shape_at};
ghost use Rattle.c_tree.specs.Tree.{Parts, NoPart};
ghost use Rattle.c_tree.specs.Views.{added, core_view, declarator_view, declared_of, part_view};
ghost use Rattle.c_typing.specs.Declaring as declaring;
ghost use Rattle.c_check_declarators.specs.DerivedViews.{derived_view};

use c_tree::{Core, Declarator, Part};
use c_types::{TypeShape, Types};
use c_typing::shapes::{is_function, shape_at};
use cc_base::{Place, TypeId};

/// What stands nearest to the name: nothing, a star, or a part with its place.
#[derive(Clone, Copy)]
pub enum Derived {
    Nothing,
    ByStar,
    ByArray(Place),
    ByFunction(Place),
}

/// What a part is that stands behind others.
#[tactic(auto, using(c_tree::proofs::ViewLaws::expr_views))]
fn by_part(part: &Part) -> Derived
    ensures { (all : Parts) (outer : declaring.Derived) → declaring.by_parts
        (part_view part.now all) outer ≡ declaring.by_parts all (derived_view result) }
{
    match part {
        Part::Array(at, _, None) => Derived::ByArray(*at),
        Part::Array(at, _, Some(_)) => Derived::ByArray(*at),
        Part::Function(at, _) => Derived::ByFunction(*at),
    }
}

/// The first of several parts is the one nearest to the name.
#[tactic(auto, using(c_tree::proofs::PushLaws::pushes))]
fn by_parts(parts: &[Part], outer: Derived) -> Derived
    ensures { derived_view result ≡ declaring.by_parts (added NoPart (map part_view parts.now))
        (derived_view outer) }
{
    let mut rest = parts;
    let mut nearest = outer;
    'inwards: while let Some((part, before)) = rest.split_last() {
        nearest = by_part(part);
        rest = before;
    }
    nearest
}

/// What stands nearest to the name, where this stands round the declarator.
#[cycle(derived_by)]
#[tactic(auto, using(c_tree::proofs::ViewLaws::expr_views))]
pub fn derived_by(d: &Declarator, outer: Derived) -> Derived
    ensures { derived_view result ≡ declaring.derived_by (declarator_view d.now)
        (derived_view outer) }
{
    let stars = match d.stars.as_slice().split_first() {
        Some(_) => Derived::ByStar,
        None => outer,
    };
    derived_by_core(&d.core, by_parts(d.parts.as_slice(), stars))
}

#[cycle(derived_by)]
#[tactic(auto, using(c_tree::proofs::ViewLaws::expr_views))]
fn derived_by_core(core: &Core, outer: Derived) -> Derived
    ensures { derived_view result ≡ declaring.derived_by_core (core_view core.now)
        (derived_view outer) }
{
    match core {
        Core::Names(_) => outer,
        Core::Unnamed => outer,
        Core::Nested(_, d) => derived_by(d.get(), outer),
    }
}

/// What stands nearest to the name of a declarator that may be left out.
pub fn derived_by_declared(d: &Option<Declarator>) -> Derived
    ensures { derived_view result ≡ declaring.derived_by_declared
        (declared_of (option_map declarator_view d.now)) }
{
    match d {
        Some(d) => derived_by(d, Derived::Nothing),
        None => Derived::Nothing,
    }
}

/// Whether a declarator makes its name a function, of a type.
pub fn is_function_by(types: &Types, derived: Derived, base: TypeId) -> bool
    ensures { result ≡ declaring.is_function_by (derived_view derived) (shape_at types.now base) }
{
    match derived {
        Derived::Nothing => is_function(shape_at(types, base)),
        Derived::ByStar => false,
        Derived::ByArray(_) => false,
        Derived::ByFunction(_) => true,
    }
}

/// The place at which a parameter is made a pointer, if it is.
pub fn adjusted_at(types: &Types, derived: Derived, base: TypeId, named: Place) -> Option<Place>
    ensures { result ≡ declaring.adjusted_at (derived_view derived)
        (shape_at types.now base) named }
{
    match derived {
        Derived::ByArray(at) => Some(at),
        Derived::ByFunction(at) => Some(at),
        Derived::ByStar => None,
        Derived::Nothing => match shape_at(types, base) {
            Some(TypeShape::Array(_, _) | TypeShape::Function(_, _)) => Some(named),
            _ => None,
        },
    }
}
