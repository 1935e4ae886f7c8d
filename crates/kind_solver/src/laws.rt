//! What holds of every list of constraints: one answer, whatever its order.
#![tactic(auto)]

ghost use Rattle.std.specs.Prelude.{ℕ, List, Option, ◌≡◌};
ghost use Rattle.cc_base.specs.declared.kind.Kind.{Kind};
ghost use Rattle.kind_solver.specs.declared.cause.Cause.{Cause};
ghost use Rattle.kind_solver.specs.declared.constraint.Constraint.{Constraint};
ghost use Rattle.kind_solver.specs.Constraints.{HaveSameMembers};
ghost use Rattle.kind_solver.specs.Sets.{AreKinds, AreCauses};

/// A law: a list of constraints has one table of kinds and one table of causes.
pub fn answers_are_unique()
    ensures kinds { (list : List Constraint) (count : ℕ) (kinds others : List Kind)
        → AreKinds list count kinds → AreKinds list count others → kinds ≡ others }
    ensures causes { (list : List Constraint) (count : ℕ) (kinds : List Kind)
        (causes others : List (Option Cause))
        → AreCauses list count kinds causes → AreCauses list count kinds others → causes ≡ others }
{}

/// A law: kinds and causes depend on the members of the list alone, and not on their order.
pub fn order_is_free()
    ensures kinds { (list other : List Constraint) (count : ℕ) (kinds : List Kind)
        → HaveSameMembers list other → AreKinds list count kinds → AreKinds other count kinds }
    ensures causes { (list other : List Constraint) (count : ℕ) (kinds : List Kind)
        (causes : List (Option Cause))
        → HaveSameMembers list other → AreCauses list count kinds causes
        → AreCauses other count kinds causes }
{}
