//! How many words values take.
#![tactic(auto)]

ghost use Rattle.std.specs.Prelude.{◌≡◌, ◌≤◌, length};
ghost use Rattle.std.specs.List.{All};
ghost use Rattle.cc_base.specs.Kinds.{kind_at};
ghost use Rattle.c_types.specs.Table.{IsType, AreNodesOf};
ghost use Rattle.sim_relation.specs.Ground.{word_number};
ghost use Rattle.cure_rules.specs.Functions.{words_at};

use c_types::{TypeShape, Types};
use cc_base::{Kind, Kinds, TypeId};

/// How many words a pointer of a kind takes. Takes no memory.
pub fn words_of_kind(kind: Kind) -> u32
    ensures words { result ≡ word_number kind }
    ensures few { result ≤ 3 }
{
    match kind {
        Kind::Safe => 1,
        Kind::Rtti => 2,
        Kind::Seq => 3,
        Kind::Wild => 2,
    }
}

/// How many words a value of a type takes; what has no value takes none. Takes no memory.
pub fn words_in(types: &Types, kinds: &Kinds, t: TypeId) -> u32
    requires typed { IsType types.now t }
    requires nodes { All (λ e. AreNodesOf (length kinds.now) e.shape) types.now }
    ensures words { result ≡ words_at types.now (kind_at kinds.now) t }
    ensures few { result ≤ 3 }
{
    match types.shape(t) {
        TypeShape::Integer { .. } => 1,
        TypeShape::Pointer(node, _) => words_of_kind(kinds.kind_of(*node)),
        TypeShape::Void
        | TypeShape::Array(_, _)
        | TypeShape::Function(_, _)
        | TypeShape::Struct(_)
        | TypeShape::Union(_) => 0,
    }
}
