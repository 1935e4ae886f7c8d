//! Laws of three-address code. Each is the contract of a function that does nothing, so that it is proved once and can be cited.

ghost use Rattle.std.specs.Prelude.{◌≡◌, ◌≤◌, ℕ, suc, List, [], ◌∷◌, ◌++◌};
ghost use Rattle.std.specs.declared.alloc.Global.{Global};
ghost use Rattle.cc_base.specs.declared.fault.Check.TheVariants.{Bounds};
ghost use Rattle.runs.specs.Outcome.{Ended, Done, Matches, from, either};
ghost use Rattle.runs.specs.Control.{Control, Leaves, then_go, block, go_round, rounds};
ghost use Rattle.src_mem.specs.Pointers.{Value, is_true};
ghost use Rattle.src_mem.specs.State.{Act, Exited, Turns, Stopped};
ghost use Rattle.cil_form.specs.declared.number.Temp.{Temp};
ghost use Rattle.cil_form.specs.declared.number.Temp.TheVariants as temp;
ghost use Rattle.cil_form.specs.declared.number.Work.{Work};
ghost use Rattle.cil_form.specs.declared.instr.Instr.{Instr};
ghost use Rattle.cil_form.specs.declared.instr.Instr.TheVariants.{If, Block, Loop, Break};
ghost use Rattle.cil_form.specs.declared.instr.Code.{Code};
ghost use Rattle.cil_form.specs.State.{Local, Step, Around, gives_to};
ghost use Rattle.cil_form.specs.Meaning.{act, run, round_of, loop};
ghost use Rattle.cil_form.specs.Typing.{Typing, no_types, Context, Includes, AreTemps, Passes, inside, IsShaped, AreShaped};
ghost use Rattle.cil_form.specs.Told.{TellsOf, AreAsked, IsToldOf};
ghost use Rattle.std.specs.List.{Contains};
ghost use Rattle.cil_form.specs.declared.program.Function.{Function};
ghost use Rattle.cil_form.specs.declared.program.Program.{Program};
ghost use Rattle.cil_form.specs.Laws.{IsBelow, IsAround, CodeSpares, Keeps};
ghost use Rattle.cil_form.specs.Computes.{EndsAlike, Held, Executes, looped};
ghost use Rattle.cil_form.specs.Small.{at, shown, access};
ghost use Rattle.cil_form.specs.Programs.{loop_program, loop_run, call_program, call_run, access_program, access_run, switch_program, switch_run, renamed_program, renamed_run};
ghost use Rattle.cil_form.specs.Shape.{IsInShape, context_of, context_in};
ghost use Rattle.c_types.specs.Sound.{IsWellFormed};
ghost use Rattle.cil_form.specs.Theorems.{CodeBehindAValueComputes, StatementsExecuteInTurn, CodeBehindAValueExecutes, AChoiceExecutes, FewValuesAreHeldBetween, NoValueIsHeldAtABlock, NoValueIsHeldAtALoop, AChoiceIsInShape};

/// Code after code: the first runs, and then the second where the first goes on.
pub fn code_runs_after_code()
    ensures { (is js : List Instr) (w : Around) (c : Local) → run (is ++ js) w c
        ≡ from (run is w c) (λ x. then_go x (run js w)) }
{}

/// What stands behind a `break` doesn't run.
pub fn nothing_runs_behind_a_break()
    ensures { (k : ℕ) (is : List Instr) (w : Around) (c : Local) → run (Break k ∷ is) w c
        ≡ Done (Leaves k) c }
{}

/// The code that an instruction holds runs as the list of its instructions does.
pub fn held_code_runs_as_its_list()
    ensures choice { (t : Temp) (x y : Code) (w : Around) (c : Local) → act (If t x y) w c
        ≡ either (is_true (c.temps t)) (run x.0.items w) (run y.0.items w) c }
    ensures once { (x : Code) (w : Around) (c : Local) → act (Block x) w c
        ≡ block (run x.0.items w) c }
    ensures again { (x : Code) (w : Around) (c : Local) → act (Loop x) w c
        ≡ loop (run x.0.items w) c }
{}

/// A loop takes a turn before each round, and makes no more rounds than there are turns where it begins.
pub fn a_loop_takes_a_turn_a_round()
    ensures spent { (body : Step) (c : Local) → c.state.turns ≡ 0 → loop body c ≡ Ended Turns c }
    ensures round { (body : Step) (n : ℕ) (c : Local) → c.state.turns ≡ suc n → loop body c
        ≡ from (round_of body c) (λ x. go_round x (rounds Turns n (round_of body))) }
{}

/// Code that writes none of the temporaries which an expression or a statement has to leave alone keeps them all, however it is left.
pub fn temporaries_that_are_not_written_are_kept()
    ensures below { (is : List Instr) (w : Around) (t : ℕ) (c : Local) → CodeSpares is (IsBelow t)
        → Keeps (IsBelow t) c.temps (run is w c) }
    ensures around { (is : List Instr) (w : Around) (depth : ℕ) (c : Local)
        → CodeSpares is (IsAround depth) → Keeps (IsAround depth) c.temps (run is w c) }
{}

/// What gives a value to a temporary leaves it there. A value keeps those below it and what every `switch` keeps; so does what an operator
/// works in. What a `switch` keeps leaves alone what the `switch` statements around it do.
pub fn an_instruction_computes_its_value()
    ensures value { (t : ℕ) (m : Act Value) (c : Local) → Matches
        (Held (temp.Value t) (IsBelow t) c.temps) EndsAlike (m c.state)
        (gives_to (temp.Value t) m c) }
    ensures work { (v : Work) (t : ℕ) (m : Act Value) (c : Local)
        → Matches (Held (temp.Work v) (IsBelow t) c.temps) EndsAlike (m c.state)
        (gives_to (temp.Work v) m c) }
    ensures switch { (depth : ℕ) (m : Act Value) (c : Local)
        → Matches (Held (temp.Switch depth) (IsAround depth) c.temps) EndsAlike (m c.state)
        (gives_to (temp.Switch depth) m c) }
{}

/// Code that computes an operation, and then code that does the next one on the value that it finds, compute both.
pub fn code_after_code_computes()
    ensures { CodeBehindAValueComputes }
{}

/// Code that executes a statement, and then code that executes the next one, execute both. So do code that computes an expression, and then
/// code that executes a statement on the value that it finds. The code of a statement inside a `switch` may stand where less has to be kept.
pub fn code_after_code_executes()
    ensures statements { StatementsExecuteInTurn }
    ensures expression { CodeBehindAValueExecutes }
    ensures outside { (a : List Instr) (w : Around) (m : Act (Control Value)) (fewer depth : ℕ)
        → fewer ≤ depth → Executes a w m depth → Executes a w m fewer }
{}

/// An instruction that holds code which executes a statement executes a choice, a block or a loop of it. A loop keeps, from round to round, what
/// the `switch` statements around it do.
pub fn held_code_executes()
    ensures choice { AChoiceExecutes }
    ensures once { (x : Code) (w : Around) (m : Act (Control Value)) (depth : ℕ)
        → Executes x.0.items w m depth → Executes (Block x ∷ []) w (block m) depth }
    ensures again { (x : Code) (w : Around) (m : Act (Control Value)) (depth : ℕ)
        → Executes x.0.items w m depth → Executes (Loop x ∷ []) w (looped m) depth }
{}

/// Code that is in shape stays so where more is known of the temporaries before it, and where less is kept behind it.
pub fn more_may_be_known()
    ensures before { (is : List Instr) (k : Context) (more less after : Typing) → Includes more less
        → AreShaped is k less after → AreShaped is k more after }
    ensures behind { (is : List Instr) (k : Context) (types after less : Typing)
        → AreShaped is k types after → Includes after less → AreShaped is k types less }
{}

/// Wherever code in shape has come to, what is known is of temporaries that there are, and at most 256 values are held. So it is where the code
/// of a function begins, at each point of the code behind, on both sides of an `if`, and inside blocks and loops, which begin with none held.
pub fn at_most_256_values_are_held()
    ensures begins { AreTemps no_types }
    ensures behind { FewValuesAreHeldBetween }
    ensures sides { (t : Temp) (x y : Code) (k : Context) (types after : Typing)
        → IsShaped (If t x y) k types after → AreShaped x.0.items k types after
        × AreShaped y.0.items k types after }
    ensures blocks { NoValueIsHeldAtABlock }
    ensures loops { NoValueIsHeldAtALoop }
{}

/// Code after code is in shape where what the first leaves is what the second begins with.
pub fn code_after_code_is_in_shape()
    ensures { (is js : List Instr) (k : Context) (types middle after : Typing)
        → AreShaped is k types middle → AreShaped js k middle after
        → AreShaped (is ++ js) k types after }
{}

/// An instruction that holds code is in shape where the list of its instructions is.
pub fn held_code_is_in_shape_as_its_list()
    ensures choice { AChoiceIsInShape }
    ensures once { (x : Code) (k : Context) (types entry after : Typing)
        → Passes types entry k after → AreShaped x.0.items (inside k entry) entry entry
        → IsShaped (Block x) k types after }
    ensures again { (x : Code) (k : Context) (types entry after : Typing)
        → Passes types entry k after → AreShaped x.0.items (inside k entry) entry entry
        → IsShaped (Loop x) k types after }
{}

/// Each pointer that is known behind code in shape has a site, which says that its node points to the type, or is the home of an object that
/// was declared with it, where each that is known before the code has one: so the kinds that meet the sites tell of every pointer in a temporary.
pub fn known_pointers_have_sites()
    ensures { (is : List Instr) (k : Context) (types after : Typing) → TellsOf k.sites k
        → AreAsked k.sites types → AreShaped is k types after → AreAsked k.sites after }
{}

/// Sites that tell of the types and of the objects of a program tell of all that its code may name.
pub fn sites_tell_of_what_code_names()
    ensures functions { (p : Program) (f : Function) → IsToldOf p → Contains p.functions f
        → TellsOf p.sites (context_in p f) }
    ensures initialisers { (p : Program) → IsToldOf p → TellsOf p.sites (context_of p) }
{}

/// `int main(void){int i;while(i<3){putchar('a');i=i+1;}return i;}` makes four rounds: it ends with 4 turns, and not with 3.
pub fn a_loop_runs()
    ensures ending { (alloc : Global) → (loop_run alloc 4).ending ≡ Exited 3 }
    ensures output { (alloc : Global) → (loop_run alloc 4).output ≡ 97 ∷ 97 ∷ 97 ∷ [] }
    ensures spent { (alloc : Global) → (loop_run alloc 3).ending ≡ Turns }
{}

/// `int f(int a){return a+1;}int main(void){return f(4);}` enters `main` and then `f`, stores the argument and loads it.
pub fn a_call_runs()
    ensures { (alloc : Global) → shown (call_run alloc) ≡ record {
      ending = Exited 5;
      output = [];
      entered = 1 ∷ 0 ∷ [];
      accesses = access 0 0 4 ∷ access 0 0
          4 ∷ [];
    } }
{}

/// `int main(void){int a[3];a[3]=1;return 0;}` stops before the store, which touches nothing.
pub fn a_checked_access_stops()
    ensures { (alloc : Global) → shown (access_run alloc)
        ≡ record { ending = Stopped Bounds (at 26); output = []; entered = 0 ∷ []; accesses = [] } }
{}

/// `int main(void){switch(getchar()){case 97:for(;;){putchar(49);break;}case 98:putchar(50);}return 0;}` begins at the label of the
/// byte that it reads, and goes on to the end.
pub fn a_switch_runs()
    ensures first { (alloc : Global) → (switch_run alloc 97).output ≡ 49 ∷ 50 ∷ [] }
    ensures second { (alloc : Global) → (switch_run alloc 98).output ≡ 50 ∷ [] }
    ensures other { (alloc : Global) → (switch_run alloc 99).output ≡ [] }
{}

/// `int x;extern int *p;int *p=&x;int main(void){return 0;}` makes p with the type of its first declaration and initialises it by its second.
pub fn an_object_is_named_with_each_of_its_types()
    ensures run { (alloc : Global) → shown (renamed_run alloc)
        ≡ record {
          ending = Exited 0;
          output = [];
          entered = 0 ∷ [];
          accesses = access 1 0 8 ∷ [];
        } }
    ensures in_shape { (alloc : Global) → IsWellFormed (renamed_program alloc).types
        → IsInShape (renamed_program alloc) }
{}

/// The four programs above it are in shape, as soon as their tables of types are well formed, which each table of `Types` is.
pub fn small_programs_are_in_shape()
    ensures looping { (alloc : Global) → IsWellFormed (loop_program alloc).types
        → IsInShape (loop_program alloc) }
    ensures calling { (alloc : Global) → IsWellFormed (call_program alloc).types
        → IsInShape (call_program alloc) }
    ensures switching { (alloc : Global) → IsWellFormed (switch_program alloc).types
        → IsInShape (switch_program alloc) }
    ensures accessing { (alloc : Global) → IsWellFormed (access_program alloc).types
        → IsInShape (access_program alloc) }
{}
