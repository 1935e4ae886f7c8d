//! What a use of a pointer asks, by its kind: the parts of rows.
ghost use Rattle.std.specs.Prelude.{◌≡◌, [], ◌∷◌};
ghost use Rattle.cc_base.specs.declared.fault.Check.TheVariants as check;
ghost use Rattle.check_forms.specs.Rows.{in_part, in_area, home_slot, reached, based, factor_asked, aligned, plain_asked, pointer_asked, kept_of, member_asked, call_asked, convert_asked, allocated};
ghost use Rattle.check_insert.specs.Drafts.{Asks, Grows};
ghost use Rattle.check_insert.specs.Views.{condition_of};

use crate::asking::{ask, ask_nothing, ask_unless, ask_unless_null, stop};
use crate::condition::{Condition, only_if};
use crate::draft::Draft;
use cc_base::{Check, Kind, Place};
use check_forms::{
    Conversion, Direction, Distance, Factor, Fixed, PointerSlots, Reach, WildNumbers, Work,
};

/// A member's offset, and what a WILD pointer is compared with.
#[derive(Clone, Copy)]
pub struct Member {
    pub numbers: WildNumbers,
    pub offset: u32,
    pub reach: Reach,
}

/// What an allocation gave, how many bytes, and how many are needed.
#[derive(Clone, Copy)]
pub struct Block {
    pub made: u32,
    pub size: u32,
    pub needed: Fixed,
}

/// A pointer: its kind, and the slots of its words.
#[derive(Clone, Copy)]
pub struct Pointer {
    pub kind: Kind,
    pub slots: PointerSlots,
}

/// So many bytes lie in the part.
fn in_part(p: PointerSlots, size: Fixed) -> Condition
    ensures { condition_of result ≡ in_part p size }
{
    if size.value == 1 {
        Condition::IsByteInPart(p)
    } else {
        Condition::IsInPart(p, size)
    }
}

/// So many bytes lie in the area.
fn in_area(p: PointerSlots, size: Fixed) -> Condition
    ensures { condition_of result ≡ in_area p size }
{
    if size.value == 1 {
        Condition::IsByteInArea(p)
    } else {
        Condition::IsInArea(p, size)
    }
}

/// So many bytes may be reached through the pointer.
#[tactic(auto, using(crate::proofs::Laws::asks_append))]
pub(crate) fn put_reached(out: &mut Draft, k: Work, p: Pointer, size: Fixed, at: Place)
    ensures { Grows (Asks k (reached p.kind p.slots size at)) (Unit {0}) out.old out.new }
{
    match p.kind {
        Kind::Safe | Kind::Rtti => ask(
            out,
            k,
            stop(Check::Null, at),
            Condition::IsNotZero(p.slots.first),
        ),
        Kind::Seq => ask(out, k, stop(Check::Bounds, at), in_part(p.slots, size)),
        Kind::Wild => {
            ask(
                out,
                k,
                stop(Check::Wbounds, at),
                Condition::IsNotZero(p.slots.second),
            );
            ask(out, k, stop(Check::Wbounds, at), in_area(p.slots, size))
        }
    }
}

/// The pointer was made for an object.
pub(crate) fn put_based(out: &mut Draft, k: Work, p: Pointer, numbers: WildNumbers, at: Place)
    ensures { Grows (Asks k (based p.kind p.slots numbers at)) (Unit {0}) out.old out.new }
{
    let stop = stop(Check::Base, at);
    match p.kind {
        Kind::Safe | Kind::Seq | Kind::Rtti => ask(
            out,
            k,
            stop,
            Condition::IsNotZero(p.slots.second),
        ),
        Kind::Wild => ask(
            out,
            k,
            stop,
            Condition::IsArea(p.slots.second, numbers.last),
        ),
    }
}

/// An integer is small enough to be multiplied by a size.
pub(crate) fn put_factor(out: &mut Draft, k: Work, factor: Factor, n: u32, at: Place)
    ensures { Grows (Asks k (factor_asked factor n at)) (Unit {0}) out.old out.new }
{
    let stop = stop(Check::Range, at);
    match factor {
        Factor::Any => ask_nothing(out, k),
        Factor::Signed { least, span } => ask(out, k, stop, Condition::IsSmall(n, least, span)),
        Factor::Unsigned { bound } => ask(out, k, stop, Condition::IsBelowBound(n, bound)),
    }
}

/// WILD: the address of a pointer in memory is a multiple of 8.
pub(crate) fn put_aligned(out: &mut Draft, k: Work, p: Pointer, numbers: WildNumbers, at: Place)
    ensures { Grows (Asks k (aligned p.kind p.slots numbers at)) (Unit {0}) out.old out.new }
{
    match p.kind {
        Kind::Safe | Kind::Seq | Kind::Rtti => ask_nothing(out, k),
        Kind::Wild => ask(
            out,
            k,
            stop(Check::Align, at),
            Condition::IsAligned(p.slots.first, numbers.seven),
        ),
    }
}

/// WILD: what is read as an integer holds no pointer.
pub(crate) fn put_plain(out: &mut Draft, k: Work, p: Pointer, size: Fixed, at: Place)
    ensures { Grows (Asks k (plain_asked p.kind p.slots size at)) (Unit {0}) out.old out.new }
{
    match p.kind {
        Kind::Safe | Kind::Seq | Kind::Rtti => ask_nothing(out, k),
        Kind::Wild => ask(
            out,
            k,
            stop(Check::Tag, at),
            Condition::HoldsNoPointer(p.slots, size.value),
        ),
    }
}

/// WILD: what is read as a pointer holds one.
pub(crate) fn put_pointer(out: &mut Draft, k: Work, p: Pointer, numbers: WildNumbers, at: Place)
    ensures { Grows (Asks k (pointer_asked p.kind p.slots numbers at)) (Unit {0}) out.old out.new }
{
    match p.kind {
        Kind::Safe | Kind::Seq | Kind::Rtti => ask_nothing(out, k),
        Kind::Wild => ask(
            out,
            k,
            stop(Check::Tag, at),
            Condition::HoldsPointer(p.slots, numbers.eight),
        ),
    }
}

/// WILD: the pointers that are copied live as long as their new place.
pub(crate) fn put_kept(
    out: &mut Draft,
    k: Work,
    source: Pointer,
    target: PointerSlots,
    size: Fixed,
    at: Place,
)
    ensures { Grows (Asks k (kept_of source.kind source.slots target size at))
        (Unit {0}) out.old out.new }
{
    match source.kind {
        Kind::Safe | Kind::Seq | Kind::Rtti => ask_nothing(out, k),
        Kind::Wild => ask(
            out,
            k,
            stop(Check::Escape, at),
            Condition::AreNoDeeper(source.slots, size.value, target.second),
        ),
    }
}

/// The slot of the word that says where a pointer's object lies.
pub(crate) fn home_slot(p: Pointer) -> u32
    ensures { result ≡ home_slot p.kind p.slots }
{
    match p.kind {
        Kind::Safe | Kind::Rtti => p.slots.first,
        Kind::Seq | Kind::Wild => p.slots.second,
    }
}

/// A pointer is moved to a member; `offset` is the slot of its offset.
#[tactic(auto, using(crate::proofs::Laws::asks_append))]
pub(crate) fn put_member(
    out: &mut Draft,
    k: Work,
    p: Pointer,
    size: Fixed,
    member: Member,
    at: Place,
)
    ensures { Grows (Asks k (member_asked p.kind p.slots size member.numbers member.offset
        member.reach at)) (Unit {0}) out.old out.new }
{
    match p.kind {
        Kind::Safe | Kind::Seq | Kind::Rtti => put_reached(out, k, p, size, at),
        Kind::Wild => {
            put_based(out, k, p, member.numbers, at);
            let d = Distance::Bytes(member.offset);
            ask(
                out,
                k,
                stop(Check::Range, at),
                Condition::IsNear(p.slots, Direction::Forward, d, member.reach),
            )
        }
    }
}

/// A function is called through a pointer.
#[tactic(auto, using(crate::proofs::Laws::asks_append))]
pub(crate) fn put_call(out: &mut Draft, k: Work, p: Pointer, signature: Fixed, at: Place)
    ensures { Grows (Asks k (call_asked p.kind p.slots signature at)) (Unit {0}) out.old out.new }
{
    match p.kind {
        Kind::Safe | Kind::Seq | Kind::Rtti => {
            ask(
                out,
                k,
                stop(Check::Null, at),
                Condition::IsNotZero(p.slots.first),
            );
            ask(
                out,
                k,
                stop(Check::Depth, at),
                Condition::HasRoom(p.slots.first),
            )
        }
        Kind::Wild => {
            ask(
                out,
                k,
                stop(Check::Fun, at),
                Condition::IsFunctionOf(p.slots, signature),
            );
            ask(
                out,
                k,
                stop(Check::Depth, at),
                Condition::HasRoom(p.slots.first),
            )
        }
    }
}

/// A pointer is converted.
pub(crate) fn put_convert(out: &mut Draft, k: Work, p: Pointer, conversion: Conversion, at: Place)
    ensures { Grows (Asks k (convert_asked p.kind p.slots conversion at))
        (Unit {0}) out.old out.new }
{
    match conversion {
        Conversion::Free => ask_nothing(out, k),
        Conversion::Down { node } => match p.kind {
            Kind::Safe | Kind::Seq | Kind::Wild => ask_nothing(out, k),
            Kind::Rtti => {
                let made = Condition::IsMadeFor(p.slots.second, node);
                ask_unless(out, k, stop(Check::Cast, at), only_if(p.slots.first, made))
            }
        },
        Conversion::Shrink { size } => match p.kind {
            Kind::Safe | Kind::Rtti | Kind::Wild => ask_nothing(out, k),
            Kind::Seq => {
                let inside = in_part(p.slots, size);
                ask_unless_null(out, k, stop(Check::Bounds, at), p.slots, inside)
            }
        },
    }
}

/// Bytes that were allocated are enough.
pub(crate) fn put_allocated(out: &mut Draft, k: Work, kind: Kind, block: Block, at: Place)
    ensures { Grows (Asks k (allocated kind block.made block.size block.needed at))
        (Unit {0}) out.old out.new }
{
    match kind {
        Kind::Seq | Kind::Wild => ask_nothing(out, k),
        Kind::Safe | Kind::Rtti => {
            if block.needed.value == 0 {
                ask_nothing(out, k)
            } else {
                let enough = Condition::IsAtLeast(block.size, block.needed);
                ask_unless(out, k, stop(Check::Bounds, at), only_if(block.made, enough))
            }
        }
    }
}
