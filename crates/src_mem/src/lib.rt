//! The memory of a C program while it runs: objects, pointers into them, what each operation on them does, and the
//! conditions that are checked before it. The source's meaning and that of three-address code are both made of these.
//! Each law is the contract of a function that does nothing, so that it is proved once and can be cited.
#![tactic(auto)]

pub mod table;

ghost use Rattle.std.specs.Prelude.{◌≡◌, ◌⊎◌, ℕ, ◌+◌, ◌≤◌, ℤ, pos, List, ◌∷◌, [], ◌++◌, length, slice_get, Some, IsTrue};
ghost use Rattle.std.specs.Cmp.{IsEquivalence};
ghost use Rattle.cc_base.specs.declared.place.Place.{Place};
ghost use Rattle.cc_base.specs.declared.kind.Kind.{Kind};
ghost use Rattle.cc_base.specs.declared.kind.Kind.TheVariants.{Seq, Wild};
ghost use Rattle.cc_base.specs.declared.number.TypeId.{TypeId};
ghost use Rattle.cc_base.specs.declared.number.NodeId.{NodeId};
ghost use Rattle.integers.specs.Words.{residue};
ghost use Rattle.integers.specs.Arithmetic.{IntegerType, Operator};
ghost use Rattle.runs.specs.Outcome.{Done, from};
ghost use Rattle.src_mem.specs.Pointers.{Pointer, Value, same_pointer};
ghost use Rattle.src_mem.specs.Memory.{Object, Planned};
ghost use Rattle.src_mem.specs.State.{State, Setting, bytes_of, turn};
ghost use Rattle.src_mem.specs.Primitives.{load_integer, load_pointer, store_integer, store_pointer, clear, copy, allocate, allocate_elements, enter, leave, get, put, exit};
ghost use Rattle.src_mem.specs.Checks.{Used};
ghost use Rattle.src_mem.specs.Uses.{read};
ghost use Rattle.src_mem.specs.Operations.{calculate, allocated_for, kind_in, moved, subtracted, equated, compared, converted_pointer};
ghost use Rattle.src_mem.specs.ValueLaws.{AddressesAreNotWrong};
ghost use Rattle.src_mem.specs.Laws.{AreWhole, KeepsWhole, GivesNext, IsInvariant, AccessesLie, IsNotWrong, Where, NotesAccess, NotesTwo, IsOrder, left_by};
ghost use Rattle.src_mem.specs.Theorems.{AStoredIntegerIsLoaded, SpotsLieInParts, ReadingIsNotWrong, WritingIsNotWrong, MembersAreNotWrong, CallsAreNotWrong, DecayIsNotWrong, CopyingIsNotWrong, EntryIsNotWrong};

/// Equality of pointers (C99 6.5.9) is an equivalence.
pub fn pointer_equality_is_an_equivalence()
    ensures { IsEquivalence same_pointer }
{}

/// A load after a store through the same pointer gives what was stored: an integer as its type holds it, and a pointer as it was.
pub fn loads_give_what_was_stored()
    ensures integer { AStoredIntegerIsLoaded }
    ensures pointer { (kind : Kind) (p q : Pointer) (s : State) → AreWhole s.memory.objects
        → GivesNext (store_pointer kind p q s) (load_pointer kind p) q }
{}

/// Each object has as many bytes as its size, and those under a stored pointer are zero: every operation on memory
/// leaves it so.
pub fn bytes_under_pointers_stay_zero()
    ensures integer { (kind : Kind) (t : IntegerType) (p : Pointer) (z : ℤ)
        → KeepsWhole (store_integer kind t p z) }
    ensures pointer { (kind : Kind) (p q : Pointer) → KeepsWhole (store_pointer kind p q) }
    ensures clearing { (number : ℕ) → KeepsWhole (clear number) }
    ensures copying { (n : ℕ) (from : Kind) (source : Pointer) (to : Kind) (target : Pointer)
        → KeepsWhole (copy n from source to target) }
    ensures allocation { (w : Setting) (node : NodeId) (t : TypeId) (n : ℕ)
        → KeepsWhole (allocate w node t n) }
    ensures entry { (w : Setting) (depth f : ℕ) (variables : List Planned)
        → KeepsWhole (enter w depth f variables) }
    ensures leaving { (w : Setting) (depth : ℕ) (variables : List Planned)
        → KeepsWhole (leave w depth variables) }
{}

/// Each access that a run notes lies in an object that is there: every operation leaves it so.
pub fn accesses_lie_in_objects()
    ensures { IsInvariant AccessesLie }
{}

/// An access through a pointer that isn't WILD lies in the pointer's part, and its object has not ended. So each access that a load or
/// a store notes lies in the object that its pointer names and, where that isn't WILD, in its part; a copy notes two.
pub fn accesses_lie_in_parts()
    ensures integer_loaded { (kind : Kind) (t : IntegerType) (p : Pointer) (s : State)
        → Where (load_integer kind t p s) (NotesAccess kind p t.bytes s) }
    ensures pointer_loaded { (kind : Kind) (p : Pointer) (s : State)
        → Where (load_pointer kind p s) (NotesAccess kind p 8 s) }
    ensures integer_stored { (kind : Kind) (t : IntegerType) (p : Pointer) (z : ℤ) (s : State)
        → Where (store_integer kind t p z s) (NotesAccess kind p t.bytes s) }
    ensures pointer_stored { (kind : Kind) (p q : Pointer) (s : State)
        → Where (store_pointer kind p q s) (NotesAccess kind p 8 s) }
    ensures copied { (n : ℕ) (from : Kind) (source : Pointer) (to : Kind) (target : Pointer)
        (s : State) → Where (copy n from source to target s) (NotesTwo from source to target n s) }
    ensures inside { SpotsLieInParts }
{}

/// `putchar` appends the low byte of its argument to the output, and changes nothing else.
pub fn put_appends_one_byte()
    ensures { (z : ℤ) (s : State) → put z s ≡ Done (pos (residue z 256))
        (record s { output = s.output ++ residue z 256 ∷ [] }) }
{}

/// `getchar` reads no more input than there is.
pub fn get_reads_what_is_there()
    ensures { (s : State) → s.read ≤ length (bytes_of s.input)
        → (left_by (get s)).read ≤ length (bytes_of (left_by (get s)).input) }
{}

/// A read or a write of a scalar, with its conditions before it, is wrong nowhere: through a pointer of its kind to the type,
/// in a memory that meets the facts of a run. It gives a value, or a check stops it.
pub fn reads_and_writes_are_not_wrong()
    ensures reading { ReadingIsNotWrong }
    ensures writing { WritingIsNotWrong }
{}

/// An operation on pointers, with its conditions before it, is wrong nowhere, where the kinds are those that it asks for: SEQ or WILD
/// for what moves, is subtracted or put in order, SAFE or WILD for what is called, and WILD for a member's address exactly
/// where its struct's is.
pub fn pointer_operations_are_not_wrong()
    ensures moving { (w : Setting) (at : Place) (t : TypeId) (n : ℤ) (p : Pointer) (s : State)
        → (kind_in w t ≡ Seq) ⊎ (kind_in w t ≡ Wild) → IsNotWrong (moved w at t n p s) }
    ensures difference { (w : Setting) (at : Place) (t : TypeId) (p : Pointer) (q : Used)
        (s : State) → (kind_in w t ≡ Seq) ⊎ (kind_in w t ≡ Wild)
        → IsNotWrong (subtracted w at t p q s) }
    ensures order { (w : Setting) (at : Place) (operator : Operator) (p q : Used) (s : State)
        → IsOrder operator → (p.kind ≡ Seq) ⊎ (p.kind ≡ Wild)
        → IsNotWrong (compared w at operator p q s) }
    ensures equality { (w : Setting) (at : Place) (p q : Used) (s : State)
        → IsNotWrong (equated w at p q s) }
    ensures conversion { (w : Setting) (at : Place) (t u : TypeId) (p : Pointer) (s : State)
        → IsNotWrong (converted_pointer w at t u p s) }
    ensures members { MembersAreNotWrong }
    ensures calls { CallsAreNotWrong }
{}

/// The decay of an array, and the copy of a struct or union, with their conditions before them, are wrong nowhere. An array that no
/// condition is tried for is a variable's or a member's, which is at an object.
pub fn decays_and_copies_are_not_wrong()
    ensures decay { DecayIsNotWrong }
    ensures copying { CopyingIsNotWrong }
{}

/// `&` of a place is wrong nowhere, where the address that it makes is WILD exactly where the place's own is.
pub fn addresses_are_not_wrong()
    ensures { AddressesAreNotWrong }
{}

/// The clearing of an object that has not ended is wrong nowhere, and neither is the allocation of a block, with or without
/// the condition on what is made of it.
pub fn clearing_and_allocation_are_not_wrong()
    ensures clearing { (number : ℕ) (o : Object) (s : State) → slice_get s.memory.objects number
        ≡ Some o → IsTrue o.live → IsNotWrong (clear number s) }
    ensures allocation { (w : Setting) (node : NodeId) (t : TypeId) (n : ℕ) (s : State)
        → IsNotWrong (allocate w node t n s) }
    ensures elements { (w : Setting) (node : NodeId) (t : TypeId) (a b : ℕ) (s : State)
        → IsNotWrong (allocate_elements w node t a b s) }
    ensures first_element { (w : Setting) (at : Place) (node : NodeId) (t : TypeId) (p : Pointer)
        (s : State) → IsNotWrong (allocated_for w at node t p s) }
{}

/// A call begins wrong nowhere, where its arguments are values of its parameters, and ends wrong nowhere.
pub fn calls_and_returns_are_not_wrong()
    ensures entry { EntryIsNotWrong }
    ensures leaving { (w : Setting) (depth : ℕ) (variables : List Planned) (s : State)
        → IsNotWrong (leave w depth variables s) }
{}

/// Input, output, the end of a run, a turn and an operator on integers with its condition before it are wrong nowhere.
pub fn input_output_and_integers_are_not_wrong()
    ensures reading { (s : State) → IsNotWrong (get s) }
    ensures writing { (z : ℤ) (s : State) → IsNotWrong (put z s) }
    ensures ending { (z : ℤ) (s : State) → IsNotWrong (exit {A = Value} z s) }
    ensures turning { (s : State) → IsNotWrong (turn s) }
    ensures calculating { (w : Setting) (at : Place) (operator : Operator) (t : IntegerType)
        (x y : ℤ) (s : State) → IsNotWrong (calculate w at operator t x y s) }
{}
