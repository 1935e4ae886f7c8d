//! Cured code does what three-address code does, where each single instruction does: the form of the laws of instructions, frames and the
//! start, and the induction from them to whole code, to calls and to the run of a program. Laws alone: nothing here runs.
#![tactic(auto)]

ghost use Rattle.std.specs.Prelude.{◌≡◌, [], ◌∷◌};
ghost use Rattle.std.specs.declared.alloc.Global.{Global};
ghost use Rattle.cc_base.specs.Kinds.{kind_at};
ghost use Rattle.cc_base.specs.declared.kind.Kind.{Kind};
ghost use Rattle.cc_base.specs.declared.kind.Kind.TheVariants.{Safe, Seq, Wild};
ghost use Rattle.cc_base.specs.declared.number.NodeId.{NodeId};
ghost use Rattle.cil_form.specs.Small.{node};
ghost use Rattle.cil_form.specs.Programs.{loop_program, call_program, access_program};
ghost use Rattle.sim_laws.specs.Instructions.{ConstantsFollow, FirstConstantsFollow, CalculationsFollow};
ghost use Rattle.sim_laws.specs.Runs.{CuredProgramsRunAlike};
ghost use Rattle.sim_laws.specs.Calls.{CallsFit, CallsBegin, CallsEnd, EndsGiveZero};
ghost use Rattle.sim_laws.specs.Frames.{OfCuredPrograms, PlainProgramsRunAlike};
ghost use Rattle.sim_laws.specs.Plain.{IsPlainProgram};
ghost use Rattle.sim_laws.specs.PlainKinds.{ProgramsOfPlainKindsArePlain};

/// A conditional theorem: a cured program runs as its three-address code, for every input and every number of turns, with the same ending,
/// output and bytes read, faithful accesses and calls, and bytes that stand for the memory, where three things hold of the program: each
/// single instruction's lines do what the instruction does, frames begin and end as they should, and the first states are related. That they
/// hold is not said here.
pub fn cured_programs_run_alike()
    ensures { CuredProgramsRunAlike }
{}

/// Constants and calculations: of a program in shape whose sites are told, under kinds that are a solution for them, the cured lines of each
/// constant, copy and address, and of each operator on integers, do what the instruction does: from a point at which all that is known before
/// it is known, to one at which what is known behind it is known; or both runs stop at the instruction's check.
pub fn constants_and_calculations_follow()
    ensures constants { ConstantsFollow }
    ensures first { FirstConstantsFollow }
    ensures calculations { CalculationsFollow }
{}

/// Frames of every cured program of a program in shape whose sites are told, under kinds that are a solution for them: the stack has room for a
/// call exactly where C has; a call that has room begins, and one that is over ends, in related states where all has stayed that the calls
/// around speak of; and the end of a body gives zero of the result's type. That a prologue stores its parameters is not said here.
pub fn frames_follow()
    ensures fits { OfCuredPrograms CallsFit }
    ensures begins { OfCuredPrograms CallsBegin }
    ensures ends { OfCuredPrograms CallsEnd }
    ensures none { OfCuredPrograms EndsGiveZero }
{}

/// The cured program of a plain program runs as its three-address code, for every input of bytes and every number of turns: this has no premise
/// on instructions, frames or the start. A plain program's code is of constants, addresses, tests for null, calculations, conversions of integers
/// and from them, loads and stores of integers and pointers through pointers that aren't WILD or into parts of objects that are named, copies of
/// structs and clearing where no tags are, calls of functions and through pointers to them that aren't WILD, `free`, `getchar`, `putchar`, `exit`,
/// control and returns, and, where pointers are SAFE or SEQ, of `&`, members, arrays that decay, moves, comparisons, differences, conversions,
/// `malloc` and `calloc`; no parameter's home is WILD.
pub fn plain_programs_run_alike()
    ensures { PlainProgramsRunAlike }
{}

/// Which programs are plain by their kinds: those in shape of which each node is SAFE or SEQ, and whose code converts no pointer to an integer.
pub fn programs_of_plain_kinds_are_plain()
    ensures { ProgramsOfPlainKindsArePlain }
{}

/// There are plain programs, and others. `int main(void){int i;while(i<3){putchar('a');i=i+1;}return i;}` is plain where the variable is SAFE, and
/// `int f(int a){return a+1;}int main(void){return f(4);}` where all is SAFE. `int main(void){int a[3];a[3]=1;return 0;}` is plain where the array is
/// SAFE and the address of its element SEQ, and never where that address, through which it stores, is WILD; nor is the second program where the
/// home of its parameter is WILD.
pub fn small_programs_are_plain()
    ensures looping { (alloc : Global) → IsPlainProgram (loop_program alloc) (kind_at (Safe ∷ [])) }
    ensures calling { (alloc : Global) →
        IsPlainProgram (call_program alloc) (kind_at (Safe ∷ Safe ∷ [])) }
    ensures accessing { (alloc : Global) →
        IsPlainProgram (access_program alloc) (kind_at (Safe ∷ Seq ∷ [])) }
    ensures wild_pointer { (alloc : Global) (kind : NodeId → Kind) → kind (node 1) ≡ Wild →
        ¬ (IsPlainProgram (access_program alloc) kind) }
    ensures wild_home { (alloc : Global) (kind : NodeId → Kind) → kind (node 0) ≡ Wild →
        ¬ (IsPlainProgram (call_program alloc) kind) }
{}
