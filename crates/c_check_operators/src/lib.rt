//! The typing of expressions, one construct at a time, over parts that are judged (C99 6.5).
#![tactic(auto)]

mod address;
mod allowed;
pub mod assigning;
pub mod binary;
pub mod calls;
pub mod casting;
pub mod cells;
pub mod choosing;
pub mod conversion;
pub mod leaf;
pub mod literals;
mod meeting;
pub mod member_places;
pub mod names;
mod operators;
pub mod step;
pub mod unary;
mod value_shape;
