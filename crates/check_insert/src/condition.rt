//! What a check compares, as data.
ghost use Rattle.std.specs.Prelude.{◌≡◌};

use check_forms::{Direction, Distance, Fixed, PointerSlots, Reach};

/// What a check compares, on the words of slots; docs/checks.md says what each asks. Of one that counts bytes the number
/// itself is named.
#[derive(Clone, Copy)]
pub enum Condition {
    /// Nothing meets it.
    Never,
    /// A word isn't 0.
    IsNotZero(u32),
    /// SEQ: so many bytes, or one, lie in the part; the address is in the part or at its end.
    IsInPart(PointerSlots, Fixed),
    IsByteInPart(PointerSlots),
    IsWithinPart(PointerSlots),
    /// WILD: the same of the area.
    IsInArea(PointerSlots, Fixed),
    IsByteInArea(PointerSlots),
    IsWithinArea(PointerSlots),
    /// WILD: the second word lies above the addresses of functions.
    IsArea(u32, Fixed),
    /// Moved so far, the address is in reach of the second word.
    IsNear(PointerSlots, Direction, Distance, Reach),
    /// An integer is at least -least and less than span - least; it is below a bound; it is at least a number.
    IsSmall(u32, Fixed, Fixed),
    IsBelowBound(u32, Fixed),
    IsAtLeast(u32, Fixed),
    /// An address is a multiple of 8; the second slot holds 7.
    IsAligned(u32, u32),
    /// WILD: none of the words that so many bytes touch holds a pointer; the word holds one or is zero, and the second
    /// slot holds 8.
    HoldsNoPointer(PointerSlots, u64),
    HoldsPointer(PointerSlots, u32),
    /// The object of one home word lives at least as long as that of another; the same of each pointer that so many
    /// bytes hold; it is none of this call's own.
    IsNoDeeper(u32, u32),
    AreNoDeeper(PointerSlots, u64, u32),
    IsNotOwn(u32),
    /// RTTI: the node that it was made for is this one or below it.
    IsMadeFor(u32, u32),
    /// WILD: it is a function of this signature.
    IsFunctionOf(PointerSlots, Fixed),
    /// The function at this address can be entered.
    HasRoom(u32),
    /// Two pointers are of one part, or of one area; they lie a whole number of elements apart.
    AreOfPart(PointerSlots, PointerSlots),
    AreOfArea(PointerSlots, PointerSlots),
    AreElementsApart(PointerSlots, PointerSlots, Fixed),
    /// A signed quotient doesn't overflow.
    IsNoOverflow(u32, u32, Fixed, Fixed),
}

/// A condition that is asked only where a slot isn't 0.
#[derive(Clone, Copy)]
pub struct Guarded {
    pub slot: u32,
    pub condition: Condition,
}

/// The condition, asked only where the slot isn't 0.
pub(crate) fn only_if(slot: u32, condition: Condition) -> Guarded
    ensures { result ≡ record { slot = slot; condition = condition } }
{
    Guarded { slot, condition }
}
