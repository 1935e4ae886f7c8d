//! What the checks of cured code compare: in related states, each test on the words of pointers and integers has the value of C's
//! condition, so that a check stops the cured run exactly where it stops the program. One law for each row of the table of checks
//! (`check_forms`), by the kind of the pointer. It is laws alone; no program calls it.
#![tactic(auto)]

ghost use Rattle.std.specs.Prelude.{[], ◌∷◌, ◌^◌};
ghost use Rattle.sim_relation.specs.Objects.{HoldsAll};
ghost use Rattle.sim_relation.specs.Related.{AreAreas, HasRoom, IsAlikeOutside, Related};
ghost use Rattle.sim_relation.specs.Outcomes.{IsFaithful, StandsForMemory, RunAlike};
ghost use Rattle.sim_relation.specs.Points.{AreWords, PointerStands};
ghost use Rattle.sim_relation.specs.Small.{node, bytes_with, pointer_one_past, small_setting, number_of, small_source, small_ground};
ghost use Rattle.sim_checks.specs.Rows.{NullIsCompared, BaseIsCompared, BoundsAreCompared, ShrinkingIsCompared, UnsizedShrinkingIsCompared, EscapeIsCompared, UnsignedDivisionIsCompared, SignedDivisionIsCompared};
ghost use Rattle.sim_checks.specs.Moving.{MovesAreCompared, WildMovesAreCompared, WildPartsAreCompared};
ghost use Rattle.sim_checks.specs.Comparing.{OrdersAreCompared, DifferencesAreCompared, EqualitiesAreCompared, MixedOrdersAreCompared};
ghost use Rattle.sim_checks.specs.Calling.{CastsAreCompared, ReturnsAreCompared, FramesFitAlike, RoomIsCompared, FunctionsAreCompared, AllocationsAreCompared, UnsizedAllocationsAreCompared};
ghost use Rattle.sim_checks.specs.Tagged.{WildBoundsAreCompared, WildBaseIsCompared, AlignmentIsCompared, PlainIsCompared, TagIsCompared, WildOrdersAreCompared, WildDifferencesAreCompared, WildEqualitiesAreCompared, MixedEqualitiesAreCompared, WildCopiesAreCompared};
ghost use Rattle.sim_checks.specs.Words.{SumsStand, DifferencesStand, ProductsStand, ReadingsStand, QuotientsStand, SignedQuotientsStand, ComparisonsStand, ShiftsStand, NarrowingsStand, MovesAreExact, ElementsAreExact, PartsAreExact, CuredPartsAreExact, CuredDistancesAreOrdered, RemaindersAreExact, AreasAreExact, AlignmentsAreExact};
ghost use Rattle.sim_checks.specs.Small.{flat_with_byte, flat_with_short_area, short_ground, flat_with_frame, flat_with_output, small_run, small_cured_run, run_with_byte, run_with_status, run_with_short_range, run_with_call, known_p, p_within, slots_to};

/// NULL of SAFE and RTTI pointers, and BASE of SEQ ones: a word isn't 0 exactly where the pointer isn't null, or was made for an
/// object.
pub fn null_and_base_are_compared()
    ensures null { NullIsCompared }
    ensures base { BaseIsCompared }
{}

/// BOUNDS of a SEQ pointer, on its three words and a cured size: before a use, of what it points to; before the pointer becomes one of
/// one word, of what that one points to, or of no bytes where one of the two points to what has no size. A test of one byte has a shorter
/// form with the same value.
pub fn bounds_are_compared()
    ensures using { BoundsAreCompared }
    ensures shrinking { ShrinkingIsCompared }
    ensures no_size { UnsizedShrinkingIsCompared }
{}

/// ESCAPE of a pointer that is stored through another: the depths of two addresses are in order exactly where those of the two
/// objects are.
pub fn escape_is_compared()
    ensures { EscapeIsCompared }
{}

/// DIVIDE of unsigned and of signed integers, by their words.
pub fn division_is_compared()
    ensures unsigned { UnsignedDivisionIsCompared }
    ensures signed { SignedDivisionIsCompared }
{}

/// RANGE of a pointer that is moved by an integer of any type: the distance is near enough on words, and the product exact, exactly
/// where C's distance is near enough. A SEQ pointer moves by elements, a WILD one by bytes. The address of a part of what a WILD pointer
/// points to lies so many bytes further.
pub fn range_is_compared()
    ensures sequence { MovesAreCompared }
    ensures wild { WildMovesAreCompared }
    ensures part { WildPartsAreCompared }
{}

/// SAME of pointers that aren't WILD: two words tell the part, and a remainder of the words' difference the whole elements between two
/// of one part; `==` asks nothing where both stand in their parts. An order or a difference of a SEQ and a WILD pointer
/// always stops.
pub fn sameness_is_compared()
    ensures order { OrdersAreCompared }
    ensures difference { DifferencesAreCompared }
    ensures equality { EqualitiesAreCompared }
    ensures mixed { MixedOrdersAreCompared }
{}

/// CAST of an RTTI pointer, by type nodes; BOUNDS of what an allocation gave to a pointer of one word, also to one to what has no size.
pub fn casts_and_allocations_are_compared()
    ensures cast { CastsAreCompared }
    ensures allocation { AllocationsAreCompared }
    ensures no_size { UnsizedAllocationsAreCompared }
{}

/// FUN and DEPTH of a call, and ESCAPE of what a call returns. The stack has room for a frame exactly where C has.
pub fn calls_are_compared()
    ensures function { FunctionsAreCompared }
    ensures depth { RoomIsCompared }
    ensures frames { FramesFitAlike }
    ensures returning { ReturnsAreCompared }
{}

/// WBOUNDS, BASE, ALIGN and TAG of a WILD pointer, on its two words, the length before its area, and the tags behind it; SAME of two,
/// and of one and one that isn't WILD; ESCAPE of the pointers that a copy brings along.
pub fn tagged_rows_are_compared()
    ensures bounds { WildBoundsAreCompared }
    ensures base { WildBaseIsCompared }
    ensures alignment { AlignmentIsCompared }
    ensures plain { PlainIsCompared }
    ensures tag { TagIsCompared }
    ensures order { WildOrdersAreCompared }
    ensures difference { WildDifferencesAreCompared }
    ensures equality { WildEqualitiesAreCompared }
    ensures mixed { MixedEqualitiesAreCompared }
    ensures copies { WildCopiesAreCompared }
{}

/// Operators on words of 64 bits give of the words of integers the word of what they give of the integers: sums and differences, and
/// products with a natural number, whatever the integers, since all of these wrap; signed readings, quotients, remainders, comparisons
/// and shifts to the right of integers that 64 bits hold; and narrowings to types of 1, 2, 4 and 8 bytes.
pub fn words_stand_for_integers()
    ensures sums { SumsStand }
    ensures differences { DifferencesStand }
    ensures products { ProductsStand }
    ensures readings { ReadingsStand }
    ensures quotients { QuotientsStand }
    ensures signed_quotients { SignedQuotientsStand }
    ensures comparisons { ComparisonsStand }
    ensures shifts { ShiftsStand }
    ensures narrowings { NarrowingsStand }
{}

/// Tests of distances on words have the values of the tests on integers: how far a pointer was moved, by bytes and by whole elements;
/// whether so many bytes lie in a part, also once both are cured, and in an area; whether a distance is a multiple of a size or, behind
/// an aligned address, of 8. Cured distances are in the order of C's.
pub fn distances_are_exact()
    ensures moves { MovesAreExact }
    ensures elements { ElementsAreExact }
    ensures parts { PartsAreExact }
    ensures cured_parts { CuredPartsAreExact }
    ensures order { CuredDistancesAreOrdered }
    ensures remainders { RemaindersAreExact }
    ensures areas { AreasAreExact }
    ensures alignments { AlignmentsAreExact }
{}

/// Two runs that end in the small states of `sim_relation` are the same run, faithful, with bytes that stand for the memory, and the words
/// of a pointer stand in slots. With another byte, an area that is too short, a frame that nothing was charged for, a byte more of output,
/// another status, a range that is too short, a call more, a number that is no word, another end of a part, or where a fact is sure that
/// isn't true, they wouldn't.
pub fn small_runs_are_told_apart()
    ensures byte { HoldsAll small_ground (bytes_with 6 1) small_source.memory.objects → ⊥ }
    ensures area { AreAreas short_ground small_source.memory.objects flat_with_short_area → ⊥ }
    ensures charge { HasRoom small_source flat_with_frame → ⊥ }
    ensures output { IsAlikeOutside small_source flat_with_output → ⊥ }
    ensures unrelated { Related small_setting number_of small_source flat_with_byte → ⊥ }
    ensures alike { RunAlike small_setting number_of small_run small_cured_run }
    ensures status { RunAlike small_setting number_of small_run run_with_status → ⊥ }
    ensures faithful { IsFaithful small_setting number_of small_run small_cured_run }
    ensures range { IsFaithful small_setting number_of small_run run_with_short_range → ⊥ }
    ensures call { IsFaithful small_setting number_of small_run run_with_call → ⊥ }
    ensures memory { StandsForMemory small_setting number_of small_run small_cured_run }
    ensures other_memory { StandsForMemory small_setting number_of small_run run_with_byte → ⊥ }
    ensures are_words { AreWords (20 ∷ 16 ∷ 20 ∷ []) }
    ensures no_word { AreWords (20 ∷ 2 ^ 64 ∷ []) → ⊥ }
    ensures stands { PointerStands small_ground (slots_to 20) known_p (node 1) pointer_one_past }
    ensures end { PointerStands small_ground (slots_to 16) known_p (node 1) pointer_one_past → ⊥ }
    ensures sure { PointerStands small_ground (slots_to 20) p_within (node 1) pointer_one_past → ⊥ }
{}
