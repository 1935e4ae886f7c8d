//! How a state of the flat machine, which runs cured code, stands for a state of the C program: the words of pointers, the bytes of
//! objects, where areas lie, what slots hold at a point of a body, and what two whole runs have in common. It is definitions and laws; no
//! program calls it.
#![tactic(auto)]

ghost use Rattle.std.specs.Prelude.{ℕ, ℤ, negsuc, ◌^◌, ◌-◌};
ghost use Rattle.integers.specs.Arithmetic as integers;
ghost use Rattle.src_mem.specs.Outlines.{outline};
ghost use Rattle.cured_code.specs.FlatState.{Range};
ghost use Rattle.sim_relation.specs.Objects.{HoldsTyped, HoldsTagged, Lies, Apart};
ghost use Rattle.sim_relation.specs.Accesses.{IsImage};
ghost use Rattle.sim_relation.specs.Related.{Related};
ghost use Rattle.sim_relation.specs.Points.{Exact, Zeroed, Low, HoldsAs};
ghost use Rattle.sim_relation.specs.Laws.{ChangesOfAnObject, FramesBegin, FramesEnd, RelatedStatesEndAlike};
ghost use Rattle.sim_relation.specs.Small.{first, second, small_setting, number_of, small_source, small_flat, small_ground, small_memory, bytes_with, memory_with_frame, outline_of_call, access_elsewhere, access_to_pointer};

/// A state with `struct {int x; int *p;}`, whose p is SEQ and stands one past x, and with twelve bytes with tags stands for its state in C.
/// With another byte for x, a tag more, the area of an object of `main` in the frame of function 0, two areas that are nearer by 8,
/// an access to an object that isn't there, or a range that is too short it wouldn't.
pub fn small_states_are_related()
    ensures related { Related small_setting number_of small_source small_flat }
    ensures byte { HoldsTyped small_ground (bytes_with 6 1) 16 first → ⊥ }
    ensures tag { HoldsTagged small_ground (bytes_with 5 3) 56 second → ⊥ }
    ensures depth { Lies small_ground.kind memory_with_frame 16 outline_of_call → ⊥ }
    ensures near { Apart small_ground.kind 16 (outline first) 48 (outline second) → ⊥ }
    ensures object { (r : Range) → IsImage small_ground access_elsewhere r → ⊥ }
    ensures range { IsImage small_ground access_to_pointer (record { at = 24; size = 8 }) → ⊥ }
    ensures exact { HoldsAs Exact integers.int (negsuc 0) (2 ^ 64 - 1) }
    ensures zeroed { HoldsAs Zeroed integers.int (negsuc 0) (2 ^ 32 - 1) }
    ensures low { HoldsAs Low integers.int (negsuc 0) (2 ^ 32 - 1) }
    ensures not_exact { HoldsAs Exact integers.int (negsuc 0) (2 ^ 32 - 1) → ⊥ }
{}

/// An object changes by an access, and with it bytes of its area alone, which hold it again: then all other objects stand as they stood, and
/// the states stay related. Each store, clearing and copy is such a change.
pub fn changes_keep_states_related()
    ensures { ChangesOfAnObject }
{}

/// A call begins in related states, with any variables of any kinds, where its frame fits; and it ends in them.
pub fn calls_keep_states_related()
    ensures entry { FramesBegin }
    ensures leaving { FramesEnd }
{}

/// Where two runs end alike in related states they are the same run: the same output and bytes read, faithful accesses and calls, and bytes that
/// stand for the memory.
pub fn related_states_end_alike()
    ensures { RelatedStatesEndAlike }
{}
