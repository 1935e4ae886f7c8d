//! Laws of the layouts of types: of physical equality and prefixes (CCured, TOPLAS 2005), of
//! coverage under given kinds, and of cured widths. Each law is the contract of a function that does
//! nothing, so that it is proved once and can be cited.
#![tactic(auto)]

ghost use Rattle.std.specs.Prelude.{◌≡◌, ◌↔◌, ℕ, suc, ◌+◌, ◌*◌, ◌≤◌, List, ◌++◌, length, map, take, replicate, IsTrue, IsFalse};
ghost use Rattle.std.specs.List.{range_with_len, sum_by};
ghost use Rattle.std.specs.Cmp.{IsEquivalence};
ghost use Rattle.c_types.specs.declared.flow_class.FlowClass.TheVariants.{UpTile, Bad};
ghost use Rattle.cc_base.specs.declared.number.TypeId.{TypeId};
ghost use Rattle.cc_base.specs.declared.number.NodeId.{NodeId};
ghost use Rattle.cc_base.specs.declared.kind.Kind.{Kind};
ghost use Rattle.c_types.specs.Table.{Table, IsType, IsComplete, is_function};
ghost use Rattle.c_types.specs.Layouts.{size_of, offset_of};
ghost use Rattle.c_types.specs.Cells.{Cell, raw, mixed, pointer_cells, AreOrdered};
ghost use Rattle.c_types.specs.Equality.{made_alike, within, equal_at_level, physically_equal, begins_with, strictly_below, cells_of};
ghost use Rattle.c_types.specs.Flows.{flow_class, IsOfOneClass, Covers};
ghost use Rattle.c_types.specs.Coverage.{covers, of_one_class};
ghost use Rattle.c_types.specs.Sound.{IsWellFormed};
ghost use Rattle.c_types.specs.Widths.{cell_width, before, width_of};
ghost use Rattle.c_types.specs.Sameness.{is_same_type};
ghost use Rattle.type_laws.specs.Small.{node, int, char_and_pointer, char_alone, int_array, mixed_union, other_union, int_list, other_list, small_table};
ghost use Rattle.type_laws.specs.Theorems.{EqualityIsTheWidest, TypesOfOneClassMoveAlike};

/// Physical equality is an equivalence.
pub fn equality_is_an_equivalence()
    ensures { (table : Table) → IsEquivalence (physically_equal table) }
{}

/// Types that are equal at a level are equal at the level before, and from the square of the number
/// of types on the levels are physical equality.
pub fn levels_fall_and_stand_still()
    ensures fall { (table : Table) (k : ℕ) (t u : TypeId) → IsWellFormed table
        → IsTrue (equal_at_level table (suc k) t u) → IsTrue (equal_at_level table k t u) }
    ensures stand { (table : Table) (k : ℕ) → IsWellFormed table → length table * length table ≤ k
        → equal_at_level table k ≡ physically_equal table }
{}

/// Physical equality is the widest relation under which equal types are made alike, with equal
/// pointees: it is one, and each other one lies within it.
pub fn equality_is_the_widest()
    ensures one { (table : Table) → IsWellFormed table → physically_equal table
        ≡ within table (made_alike table (physically_equal table)) }
    ensures widest { EqualityIsTheWidest }
{}

/// A complete type has a cell for each byte, and physically equal types have equal sizes.
pub fn equal_types_have_equal_sizes()
    ensures cells { (table : Table) (t : TypeId) → IsWellFormed table → IsComplete table t
        → length (cells_of table t) ≡ size_of table t }
    ensures counts { (table : Table) (t u : TypeId) → IsWellFormed table
        → IsTrue (physically_equal table t u) → length (cells_of table t)
        ≡ length (cells_of table u) }
    ensures sizes { (table : Table) (t u : TypeId) → IsWellFormed table → IsComplete table t
        → IsComplete table u → IsTrue (physically_equal table t u) → size_of table t
        ≡ size_of table u }
{}

/// Each data type begins with itself, and what begins with a type begins with its prefixes.
pub fn beginning_is_a_preorder()
    ensures reflexive { (table : Table) (t : TypeId) → IsFalse (is_function table t)
        → IsTrue (begins_with table t t) }
    ensures transitive { (table : Table) (t u v : TypeId) → IsTrue (begins_with table t u)
        → IsTrue (begins_with table u v) → IsTrue (begins_with table t v) }
{}

/// To be of one class is an equivalence under any kinds.
pub fn one_class_is_an_equivalence()
    ensures reflexive { (table : Table) (kind : NodeId → Kind) (t : TypeId)
        → IsOfOneClass table kind t t }
    ensures symmetric { (table : Table) (kind : NodeId → Kind) (t u : TypeId)
        → IsOfOneClass table kind t u → IsOfOneClass table kind u t }
    ensures transitive { (table : Table) (kind : NodeId → Kind) (t u v : TypeId)
        → IsWellFormed table → IsOfOneClass table kind t u → IsOfOneClass table kind u v
        → IsOfOneClass table kind t v }
{}

/// Each data type covers itself under any kinds, and what covers a type covers what that covers.
pub fn covering_is_a_preorder()
    ensures reflexive { (table : Table) (kind : NodeId → Kind) (t : TypeId)
        → IsFalse (is_function table t) → Covers table kind t t }
    ensures transitive { (table : Table) (kind : NodeId → Kind) (t u v : TypeId)
        → IsWellFormed table → Covers table kind t u → Covers table kind u v
        → Covers table kind t v }
{}

/// Coverage and the one class of types, as functions that compute, are the relations, for every table and all kinds.
pub fn coverage_is_computed()
    ensures covers { (table : Table) (kind : NodeId → Kind) (t u : TypeId)
        → IsTrue (covers table kind t u) ↔ Covers table kind t u }
    ensures one_class { (table : Table) (kind : NodeId → Kind) (t u : TypeId)
        → IsTrue (of_one_class table kind t u) ↔ IsOfOneClass table kind t u }
{}

/// Two types of a table that are the same (C99 6.2.7) are physically equal.
pub fn same_types_are_equal()
    ensures { (table : Table) (t u : TypeId) → IsWellFormed table → IsType table t → IsType table u
        → IsTrue (is_same_type table t u) → IsTrue (physically_equal table t u) }
{}

/// The bytes of each pointer among the cells of a type are all there, in order.
pub fn pointers_stand_in_order()
    ensures { (table : Table) (t : TypeId) → IsWellFormed table → AreOrdered (cells_of table t) }
{}

/// What the first cells take is the sum of their widths.
pub fn widths_are_sums()
    ensures { (kind : NodeId → Kind) (cells : List Cell) (i : ℕ) → before kind cells i
        ≡ sum_by (cell_width kind) (take i cells) }
{}

/// By types of one class a pointer moves alike: any distance in bytes comes to one distance once cured.
pub fn types_of_one_class_move_alike()
    ensures { TypesOfOneClassMoveAlike }
{}

/// The width of a list of cells is the sum of the widths of its parts.
pub fn widths_add_up()
    ensures { (kind : NodeId → Kind) (xs ys : List Cell) → width_of kind (xs ++ ys)
        ≡ width_of kind xs + width_of kind ys }
{}

/// What the definitions say of `struct {char c; int *p;}` and its prefix, of an array and its
/// element, of a mixed union and another, and of two recursive lists.
pub fn definitions_on_small_types()
    ensures size { size_of small_table char_and_pointer ≡ 16 }
    ensures offset { offset_of small_table char_and_pointer 1 ≡ 8 }
    ensures cells { cells_of small_table char_and_pointer
        ≡ replicate 8 raw ++ pointer_cells (node 0) int }
    ensures below { IsTrue (strictly_below small_table char_and_pointer char_alone) }
    ensures tiles { flow_class small_table int_array int ≡ UpTile }
    ensures is_mixed { cells_of small_table mixed_union
        ≡ map (mixed mixed_union) (range_with_len 0 8) }
    ensures itself { IsTrue (physically_equal small_table mixed_union mixed_union) }
    ensures apart { flow_class small_table mixed_union other_union ≡ Bad }
    ensures lists { IsTrue (physically_equal small_table int_list other_list) }
{}
