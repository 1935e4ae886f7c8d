//! The kinds of pointers.
#![tactic(auto)]

ghost use Rattle.std.specs.Prelude.{◌≡◌, ◌<◌, Some, length, slice_get};
ghost use Rattle.cc_base.specs.Names.{kind_name};

use crate::number::NodeId;
use std::fmt;
use std::marker::Model;

/// The kind of a pointer (CCured, TOPLAS 2005).
#[derive(Clone, Copy, Debug, PartialEq, Eq, PartialOrd, Ord, Hash)]
pub enum Kind {
    /// Null or valid for its type: one word, checked against null when it is used.
    Safe,
    /// May move by arithmetic inside the part that it was made for.
    Seq,
    /// Carries the type that it was made for, so that a downcast can be checked.
    Rtti,
    /// Points into an area that carries its length and tags; nothing is known of its type.
    Wild,
}

impl Kind {
    /// The name that reports write.
    pub fn name(self) -> &'static str
        ensures { result.now ≡ kind_name self }
    {
        match self {
            Kind::Safe => "SAFE",
            Kind::Seq => "SEQ",
            Kind::Rtti => "RTTI",
            Kind::Wild => "WILD",
        }
    }
}

impl fmt::Display for Kind {
    ghost output = { λ kind. Some (kind_name kind) };

    fn fmt<W: fmt::Write>(&self, f: &mut fmt::Formatter<W>) -> fmt::Result {
        f.write_str(self.name())
    }
}

/// The kinds of the nodes of a program, in the order of their numbers. Contracts see the list.
#[derive(Debug, Drop)]
pub struct Kinds(Vec<Kind>);

impl Model for Kinds {
    ghost use Rattle.std.specs.Prelude.{List};
    ghost use Rattle.cc_base.specs.declared.kind.Kind.{Kind};

    ghost Value = { List Kind };

    ghost view = { λ kinds. kinds.0.items };
}

impl Kinds {
    /// The table that has these kinds. Takes no memory.
    pub fn of(list: Vec<Kind>) -> Kinds
        ensures { result ≡ list.items }
    {
        Kinds(list)
    }

    /// The kind of a node of the table. Takes no memory.
    pub fn kind_of(&self, node: NodeId) -> Kind
        requires { node.0 < length self.now }
        ensures { slice_get self.now node.0 ≡ Some result }
    {
        self.0[node.0 as usize]
    }
}
