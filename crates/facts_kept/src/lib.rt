//! Each operation of a C program keeps the facts of values and memory on which its safety rests: with the conditions that come
//! before it, it isn't wrong, what it gives may be held, and the memory that it leaves is sound. Each law is the contract of a
//! function that does nothing, so that it is proved once and can be cited.
//!
//! Throughout, the table of types is well formed, the kinds are a solution for the program's sites, as far as a law asks, and
//! pointers are held by a call of some depth.
#![tactic(auto)]

ghost use Rattle.facts_kept.specs.Laws.{IntegersGivePointers, FunctionsAreValues, HomesArePlaces, ValuesPassThroughCalls, ValuesPassAlongClasses, ChecksLeadToPlaces, ConversionsGiveWhatMayBeHeld, LoadsOfPointers, WildLoadsOfPointers, LoadsOfIntegers, WildLoadsOfIntegers, ReadsOfPointers, ReadsOfIntegers, StoresOfPointers, WildStoresOfPointers, StoresOfIntegers, WildStoresOfIntegers, WritesOfPointers, WritesOfIntegers, WritesOfPointersToPlaces, WritesOfIntegersToPlaces, KeptMomentsAreSound, KeptMemoryHolds, MovesGiveWhatMayBeHeld, MembersGiveWhatMayBeHeld, ArraysGiveWhatMayBeHeld, MembersStand, ElementsStand, PartsOfPartsStand, UnmixedPartsStand, PartsArePlaces, AllocationsGiveWhatMayBeHeld, AddressesAskForPlaces, ArraysAskForPlaces, ClearingKeepsTheMemorySound, TypedCopiesKeepTheMemorySound, WildCopiesKeepTheMemorySound, CallsBegin, CallsEnd, CallersHold, LaterFollowsLater, StoresAreLater, BlocksAreLater};

/// Where pointers come from: an integer gives a SEQ or a WILD pointer that may be held, the name of a function is a SAFE or a WILD
/// pointer to its type, and a variable's home, which is SAFE or WILD, is a place of its type.
pub fn pointers_begin_as_values()
    ensures integers { IntegersGivePointers }
    ensures functions { FunctionsAreValues }
    ensures homes { HomesArePlaces }
{}

/// What may be held as a pointer to a type may be held as one to each type of its class: physically equal, with equal kinds. So an
/// argument of a call through a pointer is a value of the function's parameter, and a result one of the call's type.
pub fn values_pass_along_classes()
    ensures calls { ValuesPassThroughCalls }
    ensures pointees { ValuesPassAlongClasses }
{}

/// Once NULL, BOUNDS or WBOUNDS held, a pointer to a data type that may be held is a place of that type.
pub fn checks_lead_to_places()
    ensures { ChecksLeadToPlaces }
{}

/// A conversion that the sites tell of and the kinds allow: its conditions stop it, or it gives a pointer that may be held.
pub fn conversions_give_what_may_be_held()
    ensures { ConversionsGiveWhatMayBeHeld }
{}

/// A load asks for a place alone; through a WILD pointer also for its conditions, since the place is the whole object.
pub fn loads_ask_for_places()
    ensures pointer { LoadsOfPointers }
    ensures wild_pointer { WildLoadsOfPointers }
    ensures integer { LoadsOfIntegers }
    ensures wild_integer { WildLoadsOfIntegers }
{}

/// A read of a scalar, with its conditions: they stop it, or it gives a value of the type that is read.
pub fn reads_give_values()
    ensures pointer { ReadsOfPointers }
    ensures integer { ReadsOfIntegers }
{}

/// A store asks for a place alone, and for ESCAPE where a pointer is stored; through a WILD pointer also for its conditions.
pub fn stores_ask_for_places()
    ensures pointer { StoresOfPointers }
    ensures wild_pointer { WildStoresOfPointers }
    ensures integer { StoresOfIntegers }
    ensures wild_integer { WildStoresOfIntegers }
{}

/// A write of a scalar through a pointer or to a place, with its conditions: they stop it, or it leaves the memory sound, with the same
/// outlines and lives. What leaves these leaves all facts of a moment.
pub fn writes_keep_the_memory_sound()
    ensures pointer { WritesOfPointers }
    ensures integer { WritesOfIntegers }
    ensures pointer_place { WritesOfPointersToPlaces }
    ensures integer_place { WritesOfIntegersToPlaces }
    ensures moment { KeptMomentsAreSound }
    ensures held { KeptMemoryHolds }
{}

/// A pointer that moves by elements of what it points to: its conditions stop it, or it may be held where it then stands.
pub fn moves_give_what_may_be_held()
    ensures { MovesGiveWhatMayBeHeld }
{}

/// The address of a member, and of the first element of an array, with its conditions: they stop it, or it may be
/// held, and a member's is a place. Both are WILD exactly where what they are parts of is; a pointer to what holds a mixed union is
/// WILD; and where a union's member is taken, the pointers that stand at one place of its members are of one kind.
pub fn parts_give_what_may_be_held()
    ensures member { MembersGiveWhatMayBeHeld }
    ensures array { ArraysGiveWhatMayBeHeld }
{}

/// What stands at an offset in a type: a member, at its own, and an element; one after the other add their offsets. A place without
/// tags that moves forward to what stands there is a place of its type, as an initialiser needs it.
pub fn parts_stand_in_types()
    ensures member { MembersStand }
    ensures element { ElementsStand }
    ensures further { PartsOfPartsStand }
    ensures unmixed { UnmixedPartsStand }
    ensures place { PartsArePlaces }
{}

/// An allocation gives a null pointer or a new block. The memory stays sound, and what is given may be held once its condition held.
pub fn allocations_give_what_may_be_held()
    ensures { AllocationsGiveWhatMayBeHeld }
{}

/// `&` of a place, and an array at a place that decays without a check, ask for the place alone, and give what may be held.
pub fn addresses_ask_for_places()
    ensures address { AddressesAskForPlaces }
    ensures array { ArraysAskForPlaces }
{}

/// An object that has not ended is cleared, and the memory stays sound.
pub fn clearing_keeps_the_memory_sound()
    ensures { ClearingKeepsTheMemorySound }
{}

/// A struct or union is copied, with its conditions: they stop it, or the memory stays sound. Its two sides are both WILD, or neither is.
pub fn copies_keep_the_memory_sound()
    ensures typed { TypedCopiesKeepTheMemorySound }
    ensures wild { WildCopiesKeepTheMemorySound }
{}

/// A call begins with the arguments of its variables, and the facts hold for the call; it ends, and they hold for its caller again. What
/// passed the check of a return may be held by the caller, and so may what it held before.
pub fn calls_keep_the_facts()
    ensures entry { CallsBegin }
    ensures leaving { CallsEnd }
    ensures caller { CallersHold }
    ensures later { LaterFollowsLater }
    ensures stores { StoresAreLater }
    ensures blocks { BlocksAreLater }
{}
