//! The cured code of stores.
ghost use Rattle.std.specs.Prelude.{◌≡◌, ◌+◌, ◌≤◌, [], ◌∷◌};
ghost use Rattle.cured_code.specs.declared.instr.Instr.TheVariants as instr;
ghost use Rattle.check_forms.specs.Pieces.{Line, Then, Choice};
ghost use Rattle.check_forms.specs.Rows.{home_slot};
ghost use Rattle.check_insert.specs.Drafts.{Grows};
ghost use Rattle.cure_scope.specs.declared.scope.Scope.{Scope};
ghost use Rattle.cure_rules.specs.Accesses.{words_stored, integer_stored, TaggedStored};
ghost use Rattle.cure_scope.specs.Scopes.{world_of};
ghost use Rattle.cure_instrs.specs.Lines.{width_view, StoredInteger, StoredPointer, pointer_stored, AgreeOn};

use crate::held::Width;
use crate::pieces::put_two;
use crate::reach::{size_at, wild_numbers};
use cc_base::{Kind, Place, TypeId};
use check_forms::{Op, PointerSlots};
use check_insert::{Draft, choose, put, refuse, start};
use cure_scope::{FIRST, Scope, pointer_slots, put_guarded};
use cured_code::Instr;

/// The slot of the word that says where a pointer's object lies.
pub fn home_slot(kind: Kind, p: PointerSlots) -> u32
    ensures { result ≡ home_slot kind p }
{
    match kind {
        Kind::Safe | Kind::Rtti => p.first,
        Kind::Seq | Kind::Wild => p.second,
    }
}

/// An integer is stored from slot v.
pub fn put_integer_stored(out: &mut Draft, kind: Kind, bytes: u64, s: PointerSlots, v: u32)
    ensures { Grows (Line (integer_stored kind bytes s v)) (Unit {0}) out.old out.new }
{
    match kind {
        Kind::Wild => put_two(
            out,
            Instr::Untag(s.first, s.second, bytes),
            Instr::St(bytes, s.first, v),
        ),
        Kind::Safe => put(out, Instr::St(bytes, s.first, v)),
        Kind::Seq => put(out, Instr::St(bytes, s.first, v)),
        Kind::Rtti => put(out, Instr::St(bytes, s.first, v)),
    }
}

/// An integer of the type is stored from slot v, behind its check.
pub fn put_integer_store(
    out: &mut Draft,
    k: &Scope<'_>,
    of: (Kind, TypeId),
    i: Width,
    sv: (PointerSlots, u32),
    at: Place,
)
    ensures { Grows (StoredInteger (world_of k.now) of.0 of.1 (width_view i) sv.0 sv.1 at)
        (Unit {0}) out.old out.new }
{
    let (kind, t) = of;
    let (s, v) = sv;
    let op = Op::WriteInteger {
        p: s,
        size: size_at(k, kind, t),
    };
    put_guarded(out, op, kind, at);
    put_integer_stored(out, kind, i.bytes, s, v)
}

/// The words of a pointer are stored where no tags are.
fn put_words_stored(out: &mut Draft, kind: Kind, a: u32, v: u32)
    ensures { Grows (Line (words_stored kind a v)) (Unit {0}) out.old out.new }
{
    match kind {
        Kind::Safe => put(out, Instr::St(8, a, v)),
        Kind::Rtti => put(out, Instr::Stw(2, a, v)),
        Kind::Seq => put(out, Instr::Stw(3, a, v)),
        Kind::Wild => put(out, Instr::Stw(2, a, v)),
    }
}

/// A pointer is stored into a tagged area.
fn put_tagged_store(out: &mut Draft, s: PointerSlots, v: u32)
    requires { v + 3 ≤ 1948 }
    ensures { (k : Scope) → Grows (TaggedStored (world_of k) s v) (Unit {0}) out.old out.new }
{
    put(out, Instr::Or(FIRST, v, v + 1));
    let mut marked = start(out);
    put_two(
        &mut marked,
        Instr::St(8, s.first, v),
        Instr::Mark(s.first, s.second, v + 1),
    );
    let mut null = start(out);
    put(&mut null, Instr::Tzero(s.first, s.second, 8));
    choose(out, FIRST, marked, null)
}

/// A pointer of the second kind is stored through one of the first.
#[tactic(auto, using(crate::proofs::PieceLaws::refused))]
pub fn put_pointer_stored(
    out: &mut Draft,
    k: &Scope<'_>,
    outer: Kind,
    kind: Kind,
    sv: (PointerSlots, u32),
)
    requires { sv.1 + 3 ≤ 1948 }
    ensures { Grows (pointer_stored outer kind (world_of k.now) sv.0 sv.1)
        (AgreeOn outer kind) out.old out.new }
{
    let (s, v) = sv;
    let _ = k;
    match outer {
        Kind::Wild => match kind {
            Kind::Wild => put_tagged_store(out, s, v),
            Kind::Safe => refuse(out),
            Kind::Seq => refuse(out),
            Kind::Rtti => refuse(out),
        },
        Kind::Safe => put_words_stored(out, kind, s.first, v),
        Kind::Seq => put_words_stored(out, kind, s.first, v),
        Kind::Rtti => put_words_stored(out, kind, s.first, v),
    }
}

/// Where the checks of a store stand, and of the operator that makes it.
#[derive(Clone, Copy)]
pub struct StorePlaces {
    pub own: Place,
    pub assignment: Place,
}

/// A pointer of the second kind is stored through one of the first, behind its checks.
pub fn put_pointer_store(
    out: &mut Draft,
    k: &Scope<'_>,
    kinds: (Kind, Kind),
    t: TypeId,
    sv: (PointerSlots, u32),
    at: StorePlaces,
)
    requires { sv.1 + 3 ≤ 1948 }
    ensures { Grows (StoredPointer (world_of k.now) kinds.0 kinds.1 t sv.0 sv.1 at.own
        at.assignment) (AgreeOn kinds.0 kinds.1) out.old out.new }
{
    let (outer, kind) = kinds;
    let (s, v) = sv;
    let op = Op::WritePointer {
        p: s,
        size: size_at(k, outer, t),
        numbers: wild_numbers(k),
        home: home_slot(kind, pointer_slots(v)),
        assignment: at.assignment,
    };
    put_guarded(out, op, outer, at.own);
    put_pointer_stored(out, k, outer, kind, sv)
}
