//! The numbers that checks compare with, and checks behind them.
ghost use Rattle.std.specs.Prelude.{◌≡◌, [], ◌∷◌};
ghost use Rattle.check_forms.specs.Pieces.{Then};
ghost use Rattle.check_insert.specs.Drafts.{Grows};
ghost use Rattle.cure_rules.specs.Slots.{Role};
ghost use Rattle.cure_rules.specs.Checks.{need, size_needed, reach_needs, base_needs, aligned_needs, tagged_needs, factor_needs, distance_needs, near_needs, member_needs, apart_needs, call_needs, convert_needs, allocated_needs, numbers_of};
ghost use Rattle.cure_scope.specs.Needs.{Needs, Guards};

use crate::scope::work;
use cc_base::{Kind, Place};
use check_forms::{Conversion, Distance, Factor, Fixed, Op, Reach, WildNumbers};
use check_insert::{Draft, keep, put, put_checks};
use cured_code::Instr;

/// Sets a number.
#[tactic(auto, using(crate::proofs::Laws::needs_one))]
fn put_number(out: &mut Draft, n: Fixed)
    ensures { (r : Role) → Grows (Needs (need r n ∷ [])) (Unit {0}) out.old out.new }
{
    put(out, Instr::Const(n.slot, n.value))
}

/// Sets nothing.
#[tactic(auto, using(crate::proofs::Laws::needs_none))]
fn put_none(out: &mut Draft)
    ensures { Grows (Needs []) (Unit {0}) out.old out.new }
{
    keep(out)
}

fn put_size(out: &mut Draft, size: Fixed)
    ensures { Grows (Needs (size_needed size)) (Unit {0}) out.old out.new }
{
    if size.value == 1 {
        put_none(out)
    } else {
        put_number(out, size)
    }
}

fn put_reach(out: &mut Draft, kind: Kind, size: Fixed)
    ensures { Grows (Needs (reach_needs kind size)) (Unit {0}) out.old out.new }
{
    match kind {
        Kind::Safe | Kind::Rtti => put_none(out),
        Kind::Seq | Kind::Wild => put_size(out, size),
    }
}

fn put_base(out: &mut Draft, kind: Kind, numbers: WildNumbers)
    ensures { Grows (Needs (base_needs kind numbers)) (Unit {0}) out.old out.new }
{
    match kind {
        Kind::Wild => put_number(out, numbers.last),
        Kind::Safe | Kind::Seq | Kind::Rtti => put_none(out),
    }
}

fn put_aligned(out: &mut Draft, kind: Kind, numbers: WildNumbers)
    ensures { Grows (Needs (aligned_needs kind numbers)) (Unit {0}) out.old out.new }
{
    match kind {
        Kind::Wild => put_number(
            out,
            Fixed {
                slot: numbers.seven,
                value: 7,
            },
        ),
        Kind::Safe | Kind::Seq | Kind::Rtti => put_none(out),
    }
}

fn put_tagged(out: &mut Draft, kind: Kind, numbers: WildNumbers)
    ensures { Grows (Needs (tagged_needs kind numbers)) (Unit {0}) out.old out.new }
{
    match kind {
        Kind::Wild => put_number(
            out,
            Fixed {
                slot: numbers.eight,
                value: 8,
            },
        ),
        Kind::Safe | Kind::Seq | Kind::Rtti => put_none(out),
    }
}

#[tactic(auto, using(crate::proofs::Laws::needs_more))]
fn put_factor(out: &mut Draft, factor: Factor)
    ensures { Grows (Needs (factor_needs factor)) (Unit {0}) out.old out.new }
{
    match factor {
        Factor::Any => put_none(out),
        Factor::Signed { least, span } => {
            put_number(out, least);
            put_number(out, span)
        }
        Factor::Unsigned { bound } => put_number(out, bound),
    }
}

fn put_distance(out: &mut Draft, distance: Distance)
    ensures { Grows (Needs (distance_needs distance)) (Unit {0}) out.old out.new }
{
    match distance {
        Distance::Bytes(_) => put_none(out),
        Distance::Elements(_, size) => put_number(out, size),
    }
}

#[tactic(auto, using(crate::proofs::Laws::needs_more))]
fn put_near(out: &mut Draft, reach: Reach)
    ensures { Grows (Needs (near_needs reach)) (Unit {0}) out.old out.new }
{
    put_number(out, reach.least);
    put_number(out, reach.span)
}

#[tactic(auto, using(crate::proofs::Laws::needs_more))]
fn put_member(out: &mut Draft, kind: Kind, size: Fixed, numbers: WildNumbers, reach: Reach)
    ensures { Grows (Needs (member_needs kind size numbers reach)) (Unit {0}) out.old out.new }
{
    match kind {
        Kind::Wild => {
            put_number(out, numbers.last);
            put_near(out, reach)
        }
        Kind::Safe | Kind::Rtti => put_none(out),
        Kind::Seq => put_size(out, size),
    }
}

fn put_apart(out: &mut Draft, apart: Option<Fixed>)
    ensures { Grows (Needs (apart_needs apart)) (Unit {0}) out.old out.new }
{
    match apart {
        None => put_none(out),
        Some(size) => put_size(out, size),
    }
}

fn put_call(out: &mut Draft, kind: Kind, signature: Fixed)
    ensures { Grows (Needs (call_needs kind signature)) (Unit {0}) out.old out.new }
{
    match kind {
        Kind::Wild => put_number(out, signature),
        Kind::Safe | Kind::Seq | Kind::Rtti => put_none(out),
    }
}

fn put_convert(out: &mut Draft, kind: Kind, conversion: Conversion)
    ensures { Grows (Needs (convert_needs kind conversion)) (Unit {0}) out.old out.new }
{
    match kind {
        Kind::Seq => match conversion {
            Conversion::Shrink { size } => put_size(out, size),
            Conversion::Free | Conversion::Down { .. } => put_none(out),
        },
        Kind::Safe | Kind::Rtti | Kind::Wild => put_none(out),
    }
}

fn put_allocated(out: &mut Draft, kind: Kind, needed: Fixed)
    ensures { Grows (Needs (allocated_needs kind needed)) (Unit {0}) out.old out.new }
{
    match kind {
        Kind::Safe | Kind::Rtti => {
            if needed.value == 0 {
                put_none(out)
            } else {
                put_number(out, needed)
            }
        }
        Kind::Seq | Kind::Wild => put_none(out),
    }
}

/// The numbers that the conditions of an operation read.
fn put_needs(out: &mut Draft, op: Op, kind: Kind)
    ensures { Grows (Needs (numbers_of op kind)) (Unit {0}) out.old out.new }
{
    match op {
        Op::ReadInteger { p: _, size } => put_reach(out, kind, size),
        Op::ReadPointer {
            p: _,
            size,
            numbers,
        } => {
            put_reach(out, kind, size);
            put_aligned(out, kind, numbers);
            put_tagged(out, kind, numbers)
        }
        Op::WriteInteger { p: _, size } => put_reach(out, kind, size),
        Op::WritePointer {
            p: _,
            size,
            numbers,
            home: _,
            assignment: _,
        } => {
            put_reach(out, kind, size);
            put_aligned(out, kind, numbers)
        }
        Op::CopyPlain {
            source: _,
            target: _,
            other,
            size,
            target_at: _,
        } => {
            put_reach(out, kind, size);
            put_reach(out, other, size)
        }
        Op::CopyPointers {
            source: _,
            target: _,
            other,
            size,
            numbers,
            target_at: _,
            assignment: _,
        } => {
            put_reach(out, kind, size);
            put_aligned(out, kind, numbers);
            put_reach(out, other, size);
            put_aligned(out, other, numbers)
        }
        Op::KeepCell { home: _, target: _ } => put_none(out),
        Op::Member {
            p: _,
            size,
            numbers,
            offset: _,
            reach,
        } => put_member(out, kind, size, numbers, reach),
        Op::Move {
            p: _,
            direction: _,
            n: _,
            factor,
            distance,
            numbers,
            reach,
        } => {
            put_base(out, kind, numbers);
            put_factor(out, factor);
            put_distance(out, distance);
            put_near(out, reach)
        }
        Op::Order {
            p: _,
            q: _,
            other,
            numbers,
            apart,
        } => {
            put_base(out, kind, numbers);
            put_base(out, other, numbers);
            put_apart(out, apart)
        }
        Op::Equate {
            p: _,
            q: _,
            other: _,
        } => put_none(out),
        Op::Call { p: _, signature } => put_call(out, kind, signature),
        Op::ReturnPointer { home: _ } => put_none(out),
        Op::Convert { p: _, conversion } => put_convert(out, kind, conversion),
        Op::Allocate {
            made: _,
            size: _,
            needed,
        } => put_allocated(out, kind, needed),
        Op::DivideUnsigned { a: _, b: _ } => put_none(out),
        Op::DivideSigned {
            a: _,
            b: _,
            least,
            minus_one,
        } => {
            put_number(out, least);
            put_number(out, minus_one)
        }
        Op::EnterMain { address: _ } => put_none(out),
    }
}

/// The checks of an operation, behind the lines that set their numbers.
#[tactic(auto, using(crate::proofs::Laws::grows_guards))]
pub fn put_guarded(out: &mut Draft, op: Op, kind: Kind, at: Place)
    ensures { Grows (Guards op kind at) (Unit {0}) out.old out.new }
{
    put_needs(out, op, kind);
    put_checks(out, work(), op, kind, at)
}
