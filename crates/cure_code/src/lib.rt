//! The curer: from three-address code, the kinds of its nodes and its type nodes to cured code (CCured, TOPLAS 2005).
#![tactic(auto)]

mod drafts;
mod functions;
mod lists;
mod programs;
mod setting;
mod start;

pub use programs::cure;
