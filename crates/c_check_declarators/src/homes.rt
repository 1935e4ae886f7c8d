//! The name and the home of what a declarator declares, once its parts are judged (C99 6.2.4, 6.7.5).
#![tactic(auto)]

ghost use Rattle.std.specs.Prelude.{◌≡◌, option_copied};
ghost use Rattle.c_tree.specs.TypedParts.{home_of_core, home_of_form, name_of_core, name_of_form, home_node};
ghost use Rattle.c_tree.specs.TypedViews.{typed_core_view, typed_form_view};

use c_tree::{Home, Identifier, TypedCore, TypedForm};
use cc_base::NodeId;

/// The name in a form.
#[cycle(names)]
#[tactic(auto, using(c_tree::proofs::TypedViewLaws::typed_views))]
pub fn name_of(form: &TypedForm) -> Option<&Identifier>
    ensures { option_copied result ≡ name_of_form (typed_form_view form.now) }
{
    name_of_core(&form.core)
}

#[cycle(names)]
#[tactic(auto, using(c_tree::proofs::TypedViewLaws::typed_views))]
fn name_of_core(core: &TypedCore) -> Option<&Identifier>
    ensures { option_copied result ≡ name_of_core (typed_core_view core.now) }
{
    match core {
        TypedCore::Names(name, _) => Some(name),
        TypedCore::Unnamed => None,
        TypedCore::Nested(_, form) => name_of(form.get()),
    }
}

/// The home of the name in a form.
#[cycle(homes)]
#[tactic(auto, using(c_tree::proofs::TypedViewLaws::typed_views))]
pub fn home_of(form: &TypedForm) -> Home
    ensures { result ≡ home_of_form (typed_form_view form.now) }
{
    home_of_core(&form.core)
}

#[cycle(homes)]
#[tactic(auto, using(c_tree::proofs::TypedViewLaws::typed_views))]
fn home_of_core(core: &TypedCore) -> Home
    ensures { result ≡ home_of_core (typed_core_view core.now) }
{
    match core {
        TypedCore::Names(_, home) => *home,
        TypedCore::Unnamed => Home::None,
        TypedCore::Nested(_, form) => home_of(form.get()),
    }
}

/// The node of a home. What is no object has none.
pub fn home_node(home: Home) -> Option<NodeId>
    ensures { result ≡ home_node home }
{
    match home {
        Home::None => None,
        Home::Static(node) | Home::Local(node) | Home::Parameter(node) | Home::Known(node) => {
            Some(node)
        }
    }
}
