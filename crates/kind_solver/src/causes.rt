//! The table of causes.
#![tactic(auto)]

ghost use Rattle.std.specs.Prelude.{◌≡◌, ◌<◌, Some, length, slice_get};

use crate::cause::Cause;
use cc_base::NodeId;
use std::marker::Model;

/// The causes of the nodes of a program, in the order of their numbers: None where the node is
/// SAFE. Contracts see the list.
#[derive(Debug, Drop)]
pub struct Causes(Vec<Option<Cause>>);

impl Model for Causes {
    ghost use Rattle.std.specs.Prelude.{List, Option};
    ghost use Rattle.kind_solver.specs.declared.cause.Cause.{Cause};

    ghost Value = { List (Option Cause) };

    ghost view = { λ causes. causes.0.items };
}

impl Causes {
    /// The table that has these causes. Takes no memory.
    pub fn of(list: Vec<Option<Cause>>) -> Causes
        ensures { result ≡ list.items }
    {
        Causes(list)
    }

    /// The cause of a node of the table. Takes no memory.
    pub fn cause_of(&self, node: NodeId) -> Option<Cause>
        requires { node.0 < length self.now }
        ensures { slice_get self.now node.0 ≡ Some result }
    {
        self.0[node.0 as usize]
    }
}
