//! Instructions of three-address code keep the facts on which the safety of a program rests: an instruction in shape, over
//! temporaries that hold what its typing says and a memory that is sound, under kinds that are a solution for the program's sites,
//! isn't wrong; its checks end the run, or it leaves the facts for what comes next. So code in shape, and a whole program, is wrong
//! nowhere. Each law is the contract of a function that does nothing.
#![tactic(auto)]

ghost use Rattle.cil_facts.specs.Laws.{SettingsKeepTheFacts, CalculationsKeepTheFacts, IntegerConversionsKeepTheFacts, ConversionsToPointersKeepTheFacts, PointerConversionsKeepTheFacts, LoadsKeepTheFacts, StoresKeepTheFacts, CopiesKeepTheFacts, MovesKeepTheFacts, NullTestsKeepTheFacts, DecaysKeepTheFacts, AddressesKeepTheFacts, MembersKeepTheFacts, DifferencesKeepTheFacts, ComparisonsKeepTheFacts, PartStoresKeepTheFacts, ClearingKeepsTheFacts, PartCopiesKeepTheFacts, AllocationsKeepTheFacts, CallsAmongCalls, RuntimeCallsAmongCalls};
ghost use Rattle.cil_facts.specs.Whole.{CodeIsNeverWrong, ProgramsAreNeverWrong};

/// A constant, a null pointer, the name of a function, the address of an object, and the copy of a temporary.
pub fn settings_keep_the_facts()
    ensures { SettingsKeepTheFacts }
{}

/// An operator on integers, and the test of a scalar for being true.
pub fn calculations_keep_the_facts()
    ensures { CalculationsKeepTheFacts }
{}

/// A conversion between integers, from an integer to a pointer, and between pointers. (That of a pointer to an integer has no meaning
/// yet where the pointer is an object's.)
pub fn conversions_keep_the_facts()
    ensures integer { IntegerConversionsKeepTheFacts }
    ensures to_pointer { ConversionsToPointersKeepTheFacts }
    ensures pointer { PointerConversionsKeepTheFacts }
{}

/// A load of an integer or of a pointer, from a pointer or from a place.
pub fn loads_keep_the_facts()
    ensures { LoadsKeepTheFacts }
{}

/// A store of an integer or of a pointer: through a pointer or to a place, and into a part of an object, as an initialiser makes it; and
/// the clearing of an object.
pub fn stores_keep_the_facts()
    ensures pointers { StoresKeepTheFacts }
    ensures parts { PartStoresKeepTheFacts }
    ensures clearing { ClearingKeepsTheFacts }
{}

/// A copy of a struct or union, from and to a pointer or a place, and into a part of an object, as an initialiser makes it.
pub fn copies_keep_the_facts()
    ensures pointers { CopiesKeepTheFacts }
    ensures parts { PartCopiesKeepTheFacts }
{}

/// A pointer that moves by elements, the difference of two, their comparison, and that of one with a null constant, an array that
/// decays, `&` of a place, and the place of a member.
pub fn pointer_operations_keep_the_facts()
    ensures moves { MovesKeepTheFacts }
    ensures differences { DifferencesKeepTheFacts }
    ensures comparisons { ComparisonsKeepTheFacts }
    ensures null_tests { NullTestsKeepTheFacts }
    ensures arrays { DecaysKeepTheFacts }
    ensures addresses { AddressesKeepTheFacts }
    ensures members { MembersKeepTheFacts }
{}

/// A block from `malloc` or `calloc`: it may be held, and what was held before still is.
pub fn allocations_keep_the_facts()
    ensures { AllocationsKeepTheFacts }
{}

/// A call of a defined function, where calls from this depth keep the facts; and `free`, `getchar`, `putchar` and `exit`, where the
/// input consists of bytes.
pub fn calls_keep_the_facts()
    ensures functions { CallsAmongCalls }
    ensures runtime { RuntimeCallsAmongCalls }
{}

/// Code in shape is wrong nowhere, where the calls that it makes keep the facts: each instruction, each block and each loop, round
/// after round.
pub fn code_is_never_wrong()
    ensures { CodeIsNeverWrong }
{}

/// A program in three-address code is wrong nowhere: it is in shape, its sites are told, its kinds are a solution for them, and it
/// converts no pointer to an integer. Its static initialisers run, and then `main`, on every input, with every number of turns and
/// however deep calls are nested: a run exits, stops at a check, or wants turns or input.
pub fn programs_are_never_wrong()
    ensures { ProgramsAreNeverWrong }
{}
