//! Which constraints a program's sites give, and laws of that (CCured, TOPLAS 2005). Each law is the contract of a function that does
//! nothing, so that it is proved once and can be cited.
#![tactic(auto)]

ghost use Rattle.std.specs.Prelude.{◌↔◌, List};
ghost use Rattle.std.specs.List.{Contains};
ghost use Rattle.kind_sites.specs.declared.site.Site.{Site};
ghost use Rattle.c_types.specs.Table.{Table};
ghost use Rattle.kind_solver.specs.declared.constraint.Constraint.{Constraint};
ghost use Rattle.kind_solver.specs.Constraints.{HaveSameMembers};
ghost use Rattle.constraint_laws.specs.Given.{AreGiven};
ghost use Rattle.constraint_laws.specs.Theorems.{SolutionsAreThoseOfTheSites, NodesAreWithinTheProgram, PlainNodesAreApart};

/// A map from nodes to kinds meets the constraints of a program exactly where it is a solution of the program's sites.
pub fn constraints_have_the_solutions_of_the_sites()
    ensures { SolutionsAreThoseOfTheSites }
{}

/// The constraints of a program name its nodes alone, and join function pointers and homes to their like only.
pub fn constraints_keep_plain_nodes_apart()
    ensures within { NodesAreWithinTheProgram }
    ensures apart { PlainNodesAreApart }
{}

/// The constraints don't depend on the order of the sites, nor on how often one is there; and a program's constraints are one set.
pub fn constraints_are_of_the_sites_alone()
    ensures sites { (table : Table) (xs ys : List Site) (list : List Constraint)
        → ((s : Site) → Contains xs s ↔ Contains ys s) → AreGiven table xs list
        → AreGiven table ys list }
    ensures one { (table : Table) (sites : List Site) (list other : List Constraint)
        → AreGiven table sites list → AreGiven table sites other → HaveSameMembers list other }
{}
