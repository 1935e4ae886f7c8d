//! What temporaries hold.
ghost use Rattle.std.specs.Prelude.{◌≡◌};
ghost use Rattle.cure_rules.specs.Known.{held_words, narrow_of};
ghost use Rattle.cure_rules.specs.Setting.{is_wide, is_wide_kind};
ghost use Rattle.cure_scope.specs.Scopes.{whole_of};
ghost use Rattle.sim_relation.specs.Ground.{word_number};
ghost use Rattle.cure_instrs.specs.Lines.{held_view, width_view};

use cc_base::{Kind, NodeId, TypeId};
use cure_scope::Scope;
use cured_code::Narrow;

/// An integer type: its bytes, and whether it is signed.
#[derive(Clone, Copy, Debug, PartialEq, Eq)]
pub struct Width {
    pub bytes: u64,
    pub signed: bool,
}

/// What a temporary holds: an integer of a type, a pointer of a node to a type, or the address of a place of the type.
#[derive(Clone, Copy, Debug, PartialEq, Eq)]
pub enum Held {
    Integer(Width),
    Pointer(NodeId, TypeId),
    Place(NodeId, TypeId),
}

/// How many words a pointer of a kind has.
pub fn word_number(kind: Kind) -> u32
    ensures { result ≡ word_number kind }
{
    match kind {
        Kind::Safe => 1,
        Kind::Seq => 3,
        Kind::Rtti | Kind::Wild => 2,
    }
}

/// How many words a value takes.
pub fn held_words(k: &Scope<'_>, held: Held) -> u32
    ensures { result ≡ held_words (whole_of k.now) (held_view held) }
{
    match held {
        Held::Integer(_) => 1,
        Held::Pointer(node, _) => word_number(k.kind_of(node)),
        Held::Place(node, _) => word_number(k.kind_of(node)),
    }
}

/// Whether a pointer of a kind is null only where the first two of its words are zero.
pub fn is_wide_kind(kind: Kind) -> bool
    ensures { result ≡ is_wide_kind kind }
{
    match kind {
        Kind::Safe | Kind::Rtti => false,
        Kind::Seq | Kind::Wild => true,
    }
}

/// Whether a value is false only where the first two of its words are zero.
pub fn is_wide(k: &Scope<'_>, held: Held) -> bool
    ensures { result ≡ is_wide (whole_of k.now) (held_view held) }
{
    match held {
        Held::Integer(_) => false,
        Held::Pointer(node, _) => is_wide_kind(k.kind_of(node)),
        Held::Place(node, _) => is_wide_kind(k.kind_of(node)),
    }
}

/// The part of a word that an integer of the type is.
pub fn narrow_of(i: Width) -> Option<Narrow>
    ensures { result ≡ narrow_of (width_view i) }
{
    match i.bytes {
        1 => Some(if i.signed { Narrow::S8 } else { Narrow::U8 }),
        2 => Some(if i.signed { Narrow::S16 } else { Narrow::U16 }),
        4 => Some(if i.signed { Narrow::S32 } else { Narrow::U32 }),
        _ => None,
    }
}
