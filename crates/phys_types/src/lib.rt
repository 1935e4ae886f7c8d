//! How the layouts of two types lie to each other: the class of a flow between pointers to them, and the pointers that
//! correspond (CCured, TOPLAS 2005).
#![tactic(auto)]

mod alike;
mod building;
mod comparing;
mod copying;
mod crossing;
mod firsts;
mod following;
mod found;
mod held;
mod keeping;
mod known;
mod laws;
mod lending;
mod makeup;
mod mixed_unions;
mod numbered;
mod order;
mod phys;
mod readers;
mod refining;
mod round;
mod signature;
mod spot;
mod tiling;
mod top;
mod turning;

pub use c_types::FlowClass;
pub use comparing::number_of;
pub use firsts::firsts_of;
pub use found::Found;
pub use keeping::Repeated;
pub use known::Known;
pub use laws::{
    coverage_passes_along_a_class, facts_pass_between_types_of_one_class,
    facts_pass_to_what_is_covered, repetitions_of_types_that_tile_agree,
    types_that_tile_begin_with_one_another,
};
pub use lending::Lent;
pub use phys::Phys;
pub use signature::mixed;
pub use spot::{Item, Layout, Spot};
