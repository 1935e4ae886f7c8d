//! At most one typed unit: two well typed units over one table that erase to the same tree are one. The law is the contract of a function
//! that does nothing.
#![tactic(auto)]

ghost use Rattle.std.specs.Prelude.{◌≡◌};
ghost use Rattle.c_types.specs.Sound.{IsWellFormed};
ghost use Rattle.c_types.specs.Table.{Table};
ghost use Rattle.c_tree.specs.Erasure.{erased_unit};
ghost use Rattle.c_tree.specs.Tree as tree;
ghost use Rattle.c_tree.specs.TypedTree.{TypedTranslationUnit};
ghost use Rattle.c_unit_typing.specs.WellTyped.{IsTypable, IsWellTyped};

/// A unit has one well typed tree: its types, its nodes, its values, its homes and its conversions are those of its text. So the tree that
/// makes a text well typed is the only one.
pub fn a_unit_has_one_tree()
    ensures unit { (T : Table) (u v : TypedTranslationUnit) → IsWellFormed T → IsWellTyped T u
        → IsWellTyped T v → erased_unit u ≡ erased_unit v → u ≡ v }
    ensures text { (T : Table) (x : tree.TranslationUnit) → IsWellFormed T
        → (one other : IsTypable T x) → one.tree ≡ other.tree }
{}
