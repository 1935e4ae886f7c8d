//! Laws on the ranges of the numbers of cured programs. Each law is the contract of a function that does nothing.
#![tactic(auto)]

ghost use Rattle.std.specs.Prelude.{ℕ, ◌≤◌, List, length};
ghost use Rattle.std.specs.List.{All};
ghost use Rattle.cc_base.specs.declared.number.TypeId.{TypeId};
ghost use Rattle.cc_base.specs.declared.number.NodeId.{NodeId};
ghost use Rattle.cc_base.specs.declared.kind.Kind.{Kind};
ghost use Rattle.cil_form.specs.declared.program.Program.{Program};
ghost use Rattle.cil_form.specs.Shape.{IsInShape};
ghost use Rattle.cured_code.specs.declared.parts.Parts.{Parts};
ghost use Rattle.cured_code.specs.Ranges.{AreParentsEarlier, IsInRange};
ghost use Rattle.cure_rules.specs.Programs.{IsCuredProgram};
ghost use Rattle.cure_ranges.specs.Bodies.{IsBodyInRange, AreTargetsNamed};

/// The cured program of a program in shape is in range, where its type nodes and signatures are few enough and the instructions of its
/// functions name what there is.
pub fn cured_parts_are_in_range()
    ensures { (p : Program) (kind : NodeId → Kind) (node : TypeId → ℕ) (parents : List ℕ)
        (parts : Parts)
        → IsInShape p → IsCuredProgram p kind node parents parts
        → length parents ≤ 65536 → AreParentsEarlier parents → length parts.sigs ≤ 65536
        → All (IsBodyInRange parts) parts.functions → IsInRange parts }
{}

/// The instructions of the functions of the cured program of a program in shape name what there is, where each data type that an RTTI
/// pointer flows to has a type node.
pub fn bodies_are_in_range()
    ensures { (p : Program) (kind : NodeId → Kind) (node : TypeId → ℕ) (parents : List ℕ)
        (parts : Parts)
        → IsInShape p → IsCuredProgram p kind node parents parts
        → AreTargetsNamed p kind node (length parents)
        → All (IsBodyInRange parts) parts.functions }
{}
