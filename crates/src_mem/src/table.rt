//! The table of checks: which conditions come before each use of a pointer, by its kind, and where each of them holds (CCured,
//! TOPLAS 2005). Every meaning of a program tries them from here, so that a slip would show nowhere else.
#![tactic(auto)]

ghost use Rattle.std.specs.Prelude.{◌≡◌, ℕ, ℤ, pos, negsuc, ◌*ℤ◌, true, false, List, ◌∷◌, [], map};
ghost use Rattle.cc_base.specs.declared.kind.Kind.{Kind};
ghost use Rattle.cc_base.specs.declared.kind.Kind.TheVariants.{Safe, Seq, Rtti, Wild};
ghost use Rattle.cc_base.specs.declared.fault.Check.TheVariants.{Base, Bounds, Wbounds, Tag, Align, Cast, Escape, Same};
ghost use Rattle.cc_base.specs.declared.number.TypeId.{TypeId};
ghost use Rattle.c_types.specs.declared.flow_class.FlowClass.{FlowClass};
ghost use Rattle.c_types.specs.declared.flow_class.FlowClass.TheVariants.{Equal, UpTile, Up, DownTile, Down, Tile};
ghost use Rattle.integers.specs.Arithmetic as integer;
ghost use Rattle.src_mem.specs.Pointers.{Pointer, Location, Null, Number, At, Function, Integer, Address};
ghost use Rattle.src_mem.specs.Checks.{Used, NotNull, InBounds, InObject, HasBase, InSequence, InReach, HoldsPointer, HoldsNone, IsAligned, IsMadeFor, Outlives, IsNotOfFrame, IsFunctionOf, AreComparable, AreOfOnePart, AreElementsApart, CanDivide, HasRoom, ReadInteger, ReadPointer, WriteInteger, WritePointer, CopyFrom, CopyTo, Keep, AddressMember, Move, Subtract, Order, Equate, Call, Return, conditions_of, conditions_of_allocation};
ghost use Rattle.src_mem.specs.Rows.{AsksFor, asked_by};
ghost use Rattle.src_mem.specs.Primitives.{allocate, allocate_elements};
ghost use Rattle.src_mem.specs.Uses.{read, write, copy_all};
ghost use Rattle.src_mem.specs.Operations.{moved, subtracted, compared, converted_pointer};
ghost use Rattle.src_mem.specs.State.{Stopped};
ghost use Rattle.src_mem.specs.Small.{used, here, node, char, int, sequence_to_int, wild_to_int, safe_to_int, typed_to_int, pair, typed_to_pair, box, gives_int, gives_char, small, to_three, to_second, to_tagged, to_pair, holds_here, block_for_int, first_of_elements, read_behind_pointer, read_behind_copy, read_behind_byte, tried, Ends, Answer};

/// What is asked before each use of a pointer: of SAFE and RTTI ones alike, of SEQ ones, of WILD ones. Sizes are those of
/// what the pointer points to; a pointer has 8 bytes.
pub fn conditions_by_kind()
    ensures read_integer { (size : ℕ) (p : Pointer) → AsksFor (ReadInteger size) p (NotNull p ∷ [])
        (InBounds size p ∷ []) (InObject size p ∷ HoldsNone size p ∷ []) }
    ensures read_pointer { (p : Pointer) → AsksFor ReadPointer p (NotNull p ∷ [])
        (InBounds 8 p ∷ []) (InObject 8 p ∷ IsAligned p ∷ HoldsPointer p ∷ []) }
    ensures write_integer { (size : ℕ) (p : Pointer) → AsksFor (WriteInteger size) p
        (NotNull p ∷ []) (InBounds size p ∷ []) (InObject size p ∷ []) }
    ensures write_pointer { (p q : Pointer) → AsksFor (WritePointer q) p
        (NotNull p ∷ Outlives p q ∷ []) (InBounds 8 p ∷ Outlives p q ∷ [])
        (InObject 8 p ∷ IsAligned p ∷ Outlives p q ∷ []) }
    ensures copy_from_integers { (size : ℕ) (p : Pointer) → AsksFor (CopyFrom false size) p
        (NotNull p ∷ []) (InBounds size p ∷ []) (InObject size p ∷ HoldsNone size p ∷ []) }
    ensures copy_to_integers { (size : ℕ) (p : Pointer) → AsksFor (CopyTo false size) p
        (NotNull p ∷ []) (InBounds size p ∷ []) (InObject size p ∷ []) }
    ensures copy_from_pointers { (size : ℕ) (p : Pointer) → AsksFor (CopyFrom true size) p
        (NotNull p ∷ []) (InBounds size p ∷ []) (InObject size p ∷ IsAligned p ∷ []) }
    ensures copy_to_pointers { (size : ℕ) (p : Pointer) → AsksFor (CopyTo true size) p
        (NotNull p ∷ []) (InBounds size p ∷ []) (InObject size p ∷ IsAligned p ∷ []) }
    ensures pointers_copied { (p : Pointer) (qs : List Pointer) → AsksFor (Keep qs) p
        (map (Outlives p) qs) (map (Outlives p) qs) (map (Outlives p) qs) }
    ensures member_address { (offset size : ℕ) (p : Pointer) → AsksFor (AddressMember offset size) p
        (NotNull p ∷ []) (InBounds size p ∷ []) (HasBase p ∷ InReach (pos offset) p ∷ []) }
    ensures moving { (size : ℕ) (n : ℤ) (p : Pointer) → AsksFor (Move size n) p []
        (HasBase p ∷ InSequence size n p ∷ []) (HasBase p ∷ InReach (n *ℤ pos size) p ∷ []) }
    ensures difference_of_sequence { (size : ℕ) (p : Pointer) (q : Used)
        → AsksFor (Subtract size q) p [] (HasBase p ∷ HasBase q.pointer ∷ AreElementsApart size
        (used Seq p) q ∷ []) (HasBase p ∷ HasBase q.pointer ∷ AreElementsApart size
        (used Wild p) q ∷ []) }
    ensures order { (p : Pointer) (q : Used) → AsksFor (Order q) p []
        (HasBase p ∷ HasBase q.pointer ∷ AreOfOnePart (used Seq p) q ∷ [])
        (HasBase p ∷ HasBase q.pointer ∷ AreOfOnePart (used Wild p) q ∷ []) }
    ensures equality { (kind : Kind) (p : Pointer) (q : Used) → conditions_of (Equate q) kind p
        ≡ AreComparable (used kind p) q ∷ [] }
    ensures call { (t : TypeId) (depth : ℕ) (p : Pointer) → AsksFor (Call t depth) p
        (NotNull p ∷ HasRoom depth p ∷ []) [] (IsFunctionOf t p ∷ HasRoom depth p ∷ []) }
    ensures returned { (depth : ℕ) (p : Pointer) → AsksFor (Return depth) p
        (IsNotOfFrame depth p ∷ []) (IsNotOfFrame depth p ∷ []) (IsNotOfFrame depth p ∷ []) }
{}

/// What is asked before a conversion of a pointer, by its class, the two kinds and the sizes of what both point to, and of
/// what an allocation gives: nothing of a null pointer, and of no other pair of kinds.
pub fn conditions_of_conversions()
    ensures sequence_to_safe { (class : FlowClass) (m n : ℕ) (u : TypeId) (l : Location)
        → asked_by class Seq Safe m n u (At l) ≡ InBounds n (At l) ∷ [] }
    ensures integer_to_safe { (class : FlowClass) (m n k : ℕ) (u : TypeId)
        → asked_by class Seq Safe m n u (Number k) ≡ InBounds n (Number k) ∷ [] }
    ensures null_to_safe { (class : FlowClass) (m n : ℕ) (u : TypeId)
        → asked_by class Seq Safe m n u Null ≡ [] }
    ensures sequence_to_typed { (m n : ℕ) (u : TypeId) (l : Location)
        → map (λ class. asked_by class Seq Rtti m n u (At l))
        (Equal ∷ UpTile ∷ Up ∷ DownTile ∷ Tile ∷ []) ≡ (InBounds m (At l) ∷ []) ∷
        (InBounds m (At l) ∷ []) ∷ (InBounds m (At l) ∷ []) ∷ (InBounds n (At l) ∷ []) ∷
        (InBounds n (At l) ∷ []) ∷ [] }
    ensures null_to_typed { (m n : ℕ) (u : TypeId) → map (λ class. asked_by class Seq Rtti m n u
        Null) (Equal ∷ UpTile ∷ Up ∷ DownTile ∷ Tile ∷ []) ≡ [] ∷ [] ∷ [] ∷ [] ∷ [] ∷ [] }
    ensures downcast { (to : Kind) (m n : ℕ) (u : TypeId) (p : Pointer)
        → map (λ class. asked_by class Rtti to m n u p) (Down ∷ DownTile ∷ [])
        ≡ (IsMadeFor u p ∷ []) ∷ (IsMadeFor u p ∷ []) ∷ [] }
    ensures no_downcast { (to : Kind) (m n : ℕ) (u : TypeId) (p : Pointer)
        → map (λ class. asked_by class Rtti to m n u p) (Equal ∷ UpTile ∷ Up ∷ Tile ∷ [])
        ≡ [] ∷ [] ∷ [] ∷ [] ∷ [] }
    ensures from_safe { (class : FlowClass) (to : Kind) (m n : ℕ) (u : TypeId) (p : Pointer)
        → asked_by class Safe to m n u p ≡ [] }
    ensures from_wild { (class : FlowClass) (to : Kind) (m n : ℕ) (u : TypeId) (p : Pointer)
        → asked_by class Wild to m n u p ≡ [] }
    ensures between_sequences { (class : FlowClass) (m n : ℕ) (u : TypeId) (p : Pointer)
        → asked_by class Seq Seq m n u p ≡ [] }
    ensures new_block { (size : ℕ) (l : Location) → map (λ kind. conditions_of_allocation kind size
        (At l)) (Safe ∷ Rtti ∷ Seq ∷ Wild ∷ [])
        ≡ (InBounds size (At l) ∷ []) ∷ (InBounds size (At l) ∷ []) ∷ [] ∷ [] ∷ [] }
    ensures no_block { (kind : Kind) (size : ℕ) → conditions_of_allocation kind size Null ≡ [] }
{}

/// Where each condition holds, at its ends.
pub fn conditions_at_their_ends()
    ensures not_null { map (λ p. holds_here (NotNull p)) (to_three
        (pos 0) ∷ Number 1 ∷ Function 0 ∷ Null ∷ []) ≡ true ∷ true ∷ true ∷ false ∷ [] }
    ensures in_bounds { map (λ z. holds_here (InBounds 4 (to_second z)))
        (pos 4 ∷ pos 5 ∷ pos 3 ∷ pos 8 ∷ []) ≡ true ∷ false ∷ false ∷ false ∷ [] }
    ensures in_bounds_of_nothing { map (λ z. holds_here (InBounds 0 (to_second z)))
        (pos 4 ∷ pos 8 ∷ pos 9 ∷ []) ≡ true ∷ true ∷ false ∷ [] }
    ensures in_bounds_of_no_object { map (λ p. holds_here (InBounds 0 p))
        (Null ∷ Number 1 ∷ Function 0 ∷ []) ≡ false ∷ false ∷ false ∷ [] }
    ensures in_object { map (λ z. holds_here (InObject 4 (to_tagged z)))
        (pos 0 ∷ pos 20 ∷ pos 21 ∷ negsuc 0 ∷ []) ≡ true ∷ true ∷ false ∷ false ∷ [] }
    ensures has_base { map (λ p. holds_here (HasBase p)) (to_three
        (pos 4096) ∷ Null ∷ Number 1 ∷ Function 0 ∷ []) ≡ true ∷ false ∷ false ∷ false ∷ [] }
    ensures in_sequence { map (λ n. holds_here (InSequence 4 n (to_three (pos 0))))
        (pos 2147483648 ∷ pos 2147483649 ∷ negsuc 2147483647 ∷ negsuc 2147483648 ∷ [])
        ≡ true ∷ false ∷ true ∷ false ∷ [] }
    ensures in_sequence_rounds_down { map (λ n. holds_here (InSequence 4 n (to_three (negsuc 0))))
        (pos 2147483649 ∷ negsuc 2147483646 ∷ negsuc 2147483647 ∷ []) ≡ true ∷ true ∷ false ∷ [] }
    ensures in_reach { map (λ n. holds_here (InReach n (to_tagged (pos 8))))
        (pos 1099511627768 ∷ pos 1099511627769 ∷ negsuc 1099511627783 ∷ negsuc 1099511627784 ∷ [])
        ≡ true ∷ false ∷ true ∷ false ∷ [] }
    ensures is_aligned { map (λ z. holds_here (IsAligned (to_tagged z)))
        (pos 0 ∷ pos 16 ∷ pos 4 ∷ negsuc 7 ∷ []) ≡ true ∷ true ∷ false ∷ true ∷ [] }
    ensures is_made_for { map (λ p. holds_here (IsMadeFor pair p))
        (to_pair ∷ Null ∷ to_three (pos 0) ∷ Number 1 ∷ []) ≡ true ∷ true ∷ false ∷ false ∷ [] }
    ensures outlives { map (λ p. holds_here (Outlives (to_tagged (pos 0)) p))
        (to_tagged (pos 0) ∷ Null ∷ Number 1 ∷ Function 0 ∷ to_three (pos 0) ∷ [])
        ≡ true ∷ true ∷ true ∷ true ∷ false ∷ [] }
    ensures outlives_in_frame { holds_here (Outlives (to_three (pos 0)) (to_three (pos 4))) ≡ true }
    ensures is_not_of_frame { map (λ depth. holds_here (IsNotOfFrame depth (to_three (pos 0))))
        (1 ∷ 2 ∷ []) ≡ false ∷ true ∷ [] }
    ensures is_function_of { map (λ p. holds_here (IsFunctionOf gives_int p))
        (Function 0 ∷ Function 1 ∷ Null ∷ []) ≡ true ∷ false ∷ false ∷ [] }
    ensures is_no_function_of { holds_here (IsFunctionOf gives_char (Function 0)) ≡ false }
    ensures of_one_part { map (λ q. holds_here (AreOfOnePart (used Seq (to_three (pos 0))) q))
        (used Seq (to_three (pos 4096)) ∷ used Seq (to_second (pos 4)) ∷ used Safe
        (to_three (pos 0)) ∷ used Seq Null ∷ []) ≡ true ∷ false ∷ false ∷ false ∷ [] }
    ensures comparable { map (λ q. holds_here (AreComparable (used Seq (to_three (pos 12))) q))
        (used Seq (to_second (pos 8)) ∷ used Seq (to_second (pos 9)) ∷ used Safe
        (to_tagged (pos 0)) ∷ used Seq Null ∷ used Seq (to_three (pos 4096)) ∷ [])
        ≡ true ∷ false ∷ true ∷ true ∷ true ∷ [] }
    ensures elements_apart { map (λ z. holds_here (AreElementsApart 4 (used Seq (to_three (pos 8)))
        (used Seq (to_three z)))) (pos 0 ∷ pos 12 ∷ pos 6 ∷ []) ≡ true ∷ true ∷ false ∷ [] }
    ensures can_divide { map (λ y. holds_here (CanDivide (record { bytes = 4; signed = true })
        (negsuc 2147483647) y)) (pos 1 ∷ pos 0 ∷ negsuc 0 ∷ []) ≡ true ∷ false ∷ false ∷ [] }
    ensures has_room { map (λ depth. holds_here (HasRoom depth (Function 0))) (1023 ∷ 1024 ∷ [])
        ≡ true ∷ false ∷ [] }
{}

/// What operations with their conditions do in a small memory.
pub fn operations_on_a_small_memory()
    ensures move_of_no_base { tried (moved small here sequence_to_int (pos 1) (Number 8))
        ≡ Ends (Stopped Base here) }
    ensures moved { tried (moved small here sequence_to_int (pos 1) (to_three (pos 4)))
        ≡ Answer (to_three (pos 8)) }
    ensures difference { tried (subtracted small here sequence_to_int (to_three (pos 8))
        (used Seq (to_three (pos 0)))) ≡ Answer (pos 2) }
    ensures difference_of_parts { tried (subtracted small here sequence_to_int (to_three (pos 8))
        (used Seq (to_second (pos 4)))) ≡ Ends (Stopped Same here) }
    ensures order_of_parts { tried (compared small here integer.Less (used Seq (to_three (pos 0)))
        (used Seq (to_second (pos 4)))) ≡ Ends (Stopped Same here) }
    ensures equal_outside { tried (compared small here integer.Equal (used Seq (to_three (pos 0)))
        (used Seq (to_second (pos 9)))) ≡ Ends (Stopped Same here) }
    ensures equal_inside { tried (compared small here integer.Equal (used Seq (to_three (pos 4)))
        (used Seq (to_second (pos 4)))) ≡ Answer true }
    ensures read_inside { tried (read small here Seq int (to_three (pos 8)))
        ≡ Answer (Integer (pos 3)) }
    ensures read_outside { tried (read small here Seq int (to_three (pos 9)))
        ≡ Ends (Stopped Bounds here) }
    ensures wild_read { tried (read small here Wild int (to_tagged (pos 20)))
        ≡ Answer (Integer (negsuc 0)) }
    ensures wild_outside { tried (read small here Wild int (to_tagged (pos 21)))
        ≡ Ends (Stopped Wbounds here) }
    ensures wild_unaligned { tried (read small here Wild wild_to_int (to_tagged (pos 4)))
        ≡ Ends (Stopped Align here) }
    ensures wild_no_pointer { tried (read small here Wild wild_to_int (to_tagged (pos 8)))
        ≡ Ends (Stopped Tag here) }
    ensures wild_pointer { tried (read_behind_pointer wild_to_int (pos 8))
        ≡ Answer (Address (to_tagged (pos 0))) }
    ensures wild_integer_of_pointer { tried (read_behind_pointer int (pos 12))
        ≡ Ends (Stopped Tag here) }
    ensures wild_escape { tried (write small here here Wild wild_to_int (to_tagged (pos 8))
        (Address (to_three (pos 0)))) ≡ Ends (Stopped Escape here) }
    ensures wild_copy { tried (read_behind_copy wild_to_int (pos 16))
        ≡ Answer (Address (to_tagged (pos 0))) }
    ensures wild_copy_unaligned { tried (copy_all small box here Wild (to_tagged (pos 8)) here Wild
        (to_tagged (pos 12)) here) ≡ Ends (Stopped Align here) }
    ensures zero_under_pointer { tried (read_behind_byte int (pos 8))
        ≡ Answer (Integer (pos 1792)) }
    ensures sequence_to_safe { tried (converted_pointer small here sequence_to_int safe_to_int
        (to_three (pos 8))) ≡ Answer (to_three (pos 8)) }
    ensures sequence_to_safe_outside { tried (converted_pointer small here sequence_to_int
        safe_to_int (to_three (pos 12))) ≡ Ends (Stopped Bounds here) }
    ensures sequence_to_safe_null { tried (converted_pointer small here sequence_to_int safe_to_int
        Null) ≡ Answer Null }
    ensures sequence_to_typed { tried (converted_pointer small here sequence_to_int typed_to_int
        (to_three (pos 8))) ≡ Answer (to_three (pos 8)) }
    ensures sequence_to_typed_outside { tried (converted_pointer small here sequence_to_int
        typed_to_int (to_three (negsuc 3))) ≡ Ends (Stopped Bounds here) }
    ensures downcast { tried (converted_pointer small here typed_to_int typed_to_pair to_pair)
        ≡ Answer to_pair }
    ensures downcast_of_int { tried (converted_pointer small here typed_to_int typed_to_pair
        (to_three (pos 0))) ≡ Ends (Stopped Cast here) }
    ensures block_too_small { tried (block_for_int 3) ≡ Ends (Stopped Bounds here) }
    ensures block { tried (allocate small (node 2) int 5) ≡ Answer
        (At (record {
          object = 2;
          part = record { low = 0; high = 5 };
          offset = pos 0;
          made = int;
        })) }
    ensures block_of_pointers { tried (allocate small (node 0) safe_to_int 20)
        ≡ Answer (At (record {
          object = 2;
          part = record { low = 0; high = 16 };
          offset = pos 0;
          made = safe_to_int;
        })) }
    ensures wild_block_of_pointers { tried (allocate small (node 1) wild_to_int 20)
        ≡ Answer (At (record {
          object = 2;
          part = record { low = 0; high = 20 };
          offset = pos 0;
          made = wild_to_int;
        })) }
    ensures elements { tried (first_of_elements 2 4) ≡ Answer (Integer (pos 0)) }
    ensures too_many_elements { tried (allocate_elements small (node 2) int 4294967296 4294967296)
        ≡ Answer Null }
{}
