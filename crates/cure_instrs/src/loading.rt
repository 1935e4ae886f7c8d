//! The cured code of loads.
ghost use Rattle.std.specs.Prelude.{◌≡◌, ◌+◌, ◌≤◌, [], ◌∷◌, Some, None, IfSome, IfNone};
ghost use Rattle.cured_code.specs.declared.instr.Instr.TheVariants as instr;
ghost use Rattle.check_forms.specs.Pieces.{Line, Then, Choice};
ghost use Rattle.check_insert.specs.Drafts.{Grows};
ghost use Rattle.cure_scope.specs.declared.scope.Scope.{Scope};
ghost use Rattle.cure_rules.specs.Accesses.{words_loaded, TaggedLoaded};
ghost use Rattle.cure_scope.specs.Scopes.{world_of};
ghost use Rattle.cure_instrs.specs.Lines.{width_view, LoadedInteger, LoadedPointer, pointer_loaded, AgreeOn};

use crate::held::Width;
use crate::pieces::{put_narrowing, put_two};
use crate::reach::{size_at, wild_numbers};
use cc_base::{Kind, Place, TypeId};
use check_forms::Op;
use check_insert::{Draft, choose, put, refuse, start};
use cure_scope::{OTHER_WORD, Scope, WORD, pointer_slots, put_guarded};
use cured_code::Instr;

/// An integer of the type is loaded from the address in slot a, by the kind of its pointer.
pub(crate) fn put_integer_load(
    out: &mut Draft,
    k: &Scope<'_>,
    of: (Kind, TypeId),
    i: Width,
    va: (u32, u32),
    at: Place,
)
    requires { va.1 + 3 ≤ 1948 }
    ensures { Grows (LoadedInteger (world_of k.now) of.0 of.1 (width_view i) va.0 va.1 at)
        (Unit {0}) out.old out.new }
{
    let (kind, t) = of;
    let (v, a) = va;
    let op = Op::ReadInteger {
        p: pointer_slots(a),
        size: size_at(k, kind, t),
    };
    put_guarded(out, op, kind, at);
    put(out, Instr::Ld(i.bytes, v, a));
    put_narrowing(out, v, i)
}

/// The words of a pointer are loaded where no tags are.
pub fn put_words_loaded(out: &mut Draft, kind: Kind, v: u32, a: u32)
    ensures { Grows (Line (words_loaded kind v a)) (Unit {0}) out.old out.new }
{
    match kind {
        Kind::Safe => put(out, Instr::Ld(8, v, a)),
        Kind::Rtti => put(out, Instr::Ldw(2, v, a)),
        Kind::Seq => put(out, Instr::Ldw(3, v, a)),
        Kind::Wild => put(out, Instr::Ldw(2, v, a)),
    }
}

/// A pointer is loaded from a tagged area.
fn put_tagged_load(out: &mut Draft, v: u32, a: u32)
    requires to { v + 3 ≤ 1948 }
    requires from { a + 3 ≤ 1948 }
    ensures { (k : Scope) → Grows (TaggedLoaded (world_of k) v a) (Unit {0}) out.old out.new }
{
    put(out, Instr::Tagged(WORD, a, a + 1));
    let mut based = start(out);
    put(&mut based, Instr::Base(OTHER_WORD, a, a + 1));
    let mut null = start(out);
    put(&mut null, Instr::Const(OTHER_WORD, 0));
    choose(out, WORD, based, null);
    put_two(out, Instr::Ld(8, v, a), Instr::Copy(v + 1, OTHER_WORD))
}

/// A pointer of the second kind is loaded through one of the first.
#[tactic(auto, using(crate::proofs::PieceLaws::refused))]
fn put_pointer_loaded(out: &mut Draft, k: &Scope<'_>, outer: Kind, kind: Kind, va: (u32, u32))
    requires to { va.0 + 3 ≤ 1948 }
    requires from { va.1 + 3 ≤ 1948 }
    ensures { Grows (pointer_loaded outer kind (world_of k.now) va.0 va.1)
        (AgreeOn outer kind) out.old out.new }
{
    let (v, a) = va;
    let _ = k;
    match outer {
        Kind::Wild => match kind {
            Kind::Wild => put_tagged_load(out, v, a),
            Kind::Safe => refuse(out),
            Kind::Seq => refuse(out),
            Kind::Rtti => refuse(out),
        },
        Kind::Safe => put_words_loaded(out, kind, v, a),
        Kind::Seq => put_words_loaded(out, kind, v, a),
        Kind::Rtti => put_words_loaded(out, kind, v, a),
    }
}

/// A pointer of the second kind is loaded through one of the first, behind its check.
pub(crate) fn put_pointer_load(
    out: &mut Draft,
    k: &Scope<'_>,
    kinds: (Kind, Kind),
    t: TypeId,
    va: (u32, u32),
    at: Place,
)
    requires to { va.0 + 3 ≤ 1948 }
    requires from { va.1 + 3 ≤ 1948 }
    ensures { Grows (LoadedPointer (world_of k.now) kinds.0 kinds.1 t va.0 va.1 at)
        (AgreeOn kinds.0 kinds.1) out.old out.new }
{
    let (outer, kind) = kinds;
    let op = Op::ReadPointer {
        p: pointer_slots(va.1),
        size: size_at(k, outer, t),
        numbers: wild_numbers(k),
    };
    put_guarded(out, op, outer, at);
    put_pointer_loaded(out, k, outer, kind, va)
}
