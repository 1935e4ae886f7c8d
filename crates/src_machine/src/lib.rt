//! What a C program means: the source machine. It evaluates the typed tree as C99 says, in one order where C99 leaves it
//! open, and tries before each use of memory the conditions that the kinds of its pointers ask for.
#![tactic(auto)]

ghost use Rattle.std.specs.Prelude.{◌≡◌, ◌≤◌, ℕ, [], ◌∷◌, length};
ghost use Rattle.cc_base.specs.declared.kind.Kind.TheVariants.{Safe, Wild};
ghost use Rattle.cc_base.specs.declared.fault.Check.TheVariants.{Null, Bounds, Range, Cast, Escape, Tag, Fun, Divide, Depth};
ghost use Rattle.runs.specs.Input.{Closed, Open};
ghost use Rattle.src_mem.specs.State.{Stopped, Exited, Turns, Wants, Wrong, bytes_of};
ghost use Rattle.src_mem.specs.Laws.{AreWhole};
ghost use Rattle.src_mem.specs.RunLaws.{AllLie};
ghost use Rattle.src_machine.specs.Laws.{EachRun};
ghost use Rattle.src_machine.specs.Switches.{SwitchesRunWhatIsBehind};
ghost use Rattle.kind_sites.specs.declared.site.Site.TheVariants.{Pointee, Home, Linked, Flow, Same};
ghost use Rattle.src_machine.specs.Sites.{sites_of};
ghost use Rattle.src_machine.specs.Small.{node, type, char, int, at, at_line, access, Shows};
ghost use Rattle.src_machine.specs.Programs.{null_read, past_the_end, stepped_over, address_kept, address_program, address_table, hidden_program, hidden_table, redeclared_program, redeclared_table, freed_read, size_of_pointer, union_read, divided_by_zero, echoes, goes_on, recursion, recursion_at, moved_too_far, cast_down, called_otherwise, struct_kept, hashed_and_compared, controlled, initialised, null_freed, integer_as_address, copied_from_choice, copied_from_comma, copied_from_assignment, chosen, block_typedefs, block_typedefs_table, compared_with_null};

/// What small programs do that use SAFE and SEQ pointers.
pub fn programs_with_bounds()
    ensures null_read { Shows null_read (Stopped Null (at 34)) []
        (access 0 0 8 ∷ access 0 0 8 ∷ []) }
    ensures past_the_end { Shows past_the_end (Stopped Bounds (at 50)) (55 ∷ [])
        (access 0 8 4 ∷ access 0 8 4 ∷ []) }
    ensures four_turns { (stepped_over 4).ending ≡ Exited 3 }
    ensures three_turns { (stepped_over 3).ending ≡ Turns }
    ensures address_kept { Shows address_kept (Stopped Escape (at 30)) [] [] }
    ensures freed_read { Shows freed_read (Exited 0) (107 ∷ [])
        (access 0 0 8 ∷ access 0 0 8 ∷ access 1 0 1 ∷ access 0 0 8 ∷ access 0 0 8 ∷ access 1 0 1 ∷
        []) }
    ensures size_of_pointer { Shows size_of_pointer (Exited 8) []
        (access 1 0 8 ∷ access 1 0 8 ∷ access 1 0 8 ∷ []) }
    ensures moved_too_far { moved_too_far.ending ≡ Stopped Range (at 39) }
    ensures copied_from_choice { Shows copied_from_choice (Stopped Null (at_line 4 5)) []
        (access 1 0 8 ∷ access 1 0 8 ∷ []) }
    ensures copied_from_comma { Shows copied_from_comma (Stopped Null (at_line 4 6)) []
        (access 1 0 8 ∷ access 1 0 8 ∷ []) }
    ensures copied_from_assignment { Shows copied_from_assignment (Stopped Null (at_line 4 6)) []
        (access 1 0 8 ∷ access 1 0 8 ∷ []) }
    ensures struct_kept { Shows struct_kept (Stopped Escape (at_line 3 41)) []
        (access 2 0 8 ∷ access 2 0 8 ∷ []) }
{}

/// What small programs do with integers, input, loops, calls and a union whose word is read as a pointer.
pub fn other_programs()
    ensures union_read { Shows union_read (Stopped Tag (at_line 2 69)) (48 ∷ [])
        (access 0 0 8 ∷ access 0 0 8 ∷ access 0 0 8 ∷ []) }
    ensures divided_by_zero { Shows divided_by_zero (Stopped Divide (at 32)) []
        (access 0 0 4 ∷ access 0 0 4 ∷ []) }
    ensures end_of_input { Shows (echoes (Closed [])) (Exited 255) (45 ∷ [])
        (access 0 0 4 ∷ access 0 0 4 ∷ access 0 0 4 ∷ []) }
    ensures last_byte { Shows (echoes (Closed (255 ∷ []))) (Exited 255) []
        (access 0 0 4 ∷ access 0 0 4 ∷ access 0 0 4 ∷ []) }
    ensures more_input { Shows (echoes (Open [])) Wants [] [] }
    ensures goes_on { Shows goes_on Turns (97 ∷ 97 ∷ 97 ∷ 97 ∷ 97 ∷ []) [] }
    ensures cast_down { Shows cast_down (Stopped Cast (at_line 8 10)) (66 ∷ [])
        (access 1 0 8 ∷ access 0 4 4 ∷ access 1 0 8 ∷ access 0 4 4 ∷ access 1 0 8 ∷ []) }
    ensures called_otherwise { Shows called_otherwise (Stopped Fun (at_line 6 9)) (65 ∷ [])
        (access 0 0 8 ∷ access 0 0 8 ∷ access 1 0 8 ∷ access 1 0 8 ∷ access 2 0 4 ∷ access 2 0 4 ∷
        access 1 0 8 ∷ []) }
    ensures chosen { Shows chosen (Exited 8) (65 ∷ [])
        (access 0 0 4 ∷ access 0 0 4 ∷ access 0 0 4 ∷ access 0 0 4 ∷ []) }
    ensures null_freed { Shows null_freed (Exited 3) [] [] }
    ensures calls { (recursion 3).entered ≡ 1 ∷ 0 ∷ 0 ∷ 0 ∷ [] }
{}

/// An address is tested where it is used, after the right side of its assignment. Kinds that meet the constraints stop the call
/// that would give an integer for it.
pub fn addresses_are_tested_where_they_are_used()
    ensures unsound_kinds { (integer_as_address []).ending ≡ Wrong }
    ensures written_before { (integer_as_address []).output ≡ 65 ∷ [] }
    ensures stopped { Shows (integer_as_address (Wild ∷ Wild ∷ Safe ∷ Wild ∷ Wild ∷ Wild ∷ []))
        (Stopped Fun (at_line 4 3)) [] (access 0 0 8 ∷ access 0 0 8 ∷ []) }
{}

/// The hash and the comparison of a word counter on short texts: `the` stands in slot 1, and `cat` is `cat`. Three rounds in each
/// and two calls are eight turns.
pub fn word_counter_parts()
    ensures ends { hashed_and_compared.ending ≡ Exited 11 }
    ensures calls { hashed_and_compared.entered ≡ 2 ∷ 0 ∷ 1 ∷ [] }
{}

/// `switch`, `do`, `for`, `break` and `continue`; initialisers, static ones among them, compound assignments and the usual
/// arithmetic conversions; steps and compound assignments of a narrow type, and comparisons of a pointer outside its part with null.
pub fn statements_and_initialisers()
    ensures controlled { controlled.output ≡ 3 ∷ 2 ∷ 8 ∷ 12 ∷ 13 ∷ 5 ∷ [] }
    ensures initialised { initialised.output ≡ 96 ∷ 0 ∷ 6 ∷ [] }
    ensures status { initialised.ending ≡ Exited 0 }
    ensures updated { compared_with_null.output ≡ 200 ∷ 128 ∷ [] }
    ensures compared { compared_with_null.ending ≡ Exited 5 }
{}

/// A recursion without end is stopped at its call where that would be the 1,024th that is nested.
pub fn recursion_is_stopped()
    ensures goes_on { (recursion_at 1022).ending ≡ Exited 7 }
    ensures stops { (recursion_at 1023).ending ≡ Stopped Depth (at 22) }
{}

/// The sites of `int *g;int main(void){int x;g=&x;return 0;}`: the two pointers, the two homes, that the address of x is one of a
/// part of x, and its flow into g.
/// In `int g(int);int main(void){typedef char *g(void);return 0;}` the typedef declares no function, so it is not tied to g. Of three declarations of
/// one function the first is tied to each of the others. In
/// `int main(void){{typedef int g(int *);}{typedef char *g(void);}return 0;}` two typedefs of one name in two blocks tie nothing.
pub fn sites_of_a_program()
    ensures redeclared { sites_of redeclared_program redeclared_table
        ≡ Pointee (node 0) int ∷ Pointee (node 1) int ∷ Pointee (node 2) int ∷ Same (type 10)
        (type 12) ∷ Same (type 10) (type 14) ∷ [] }
    ensures block_typedefs { sites_of block_typedefs block_typedefs_table
        ≡ Pointee (node 0) int ∷ Pointee (node 1) char ∷ [] }
    ensures hidden { sites_of hidden_program hidden_table ≡ Pointee (node 0) char ∷ [] }
    ensures address { sites_of address_program address_table
        ≡ Pointee (node 0) int ∷ Pointee (node 3) int ∷ Home (node 1) (type 9)
        ∷ Home (node 2) int ∷ Linked (node 3) (node 2) ∷ Flow (node 3) int (node 0) int
        (at 30) ∷ [] }
{}

/// A `switch` runs its block from the label that its value chooses, as a block runs; a `break` leaves it.
pub fn switches_run_what_is_behind_their_label()
    ensures { SwitchesRunWhatIsBehind }
{}

/// A run reads no more input than there is.
pub fn runs_read_what_is_there()
    ensures { EachRun (λ input o. o.read ≤ length (bytes_of input)) }
{}

/// Each access of a run lies in an object that is there, whatever the program, the kinds, the input and the turns.
pub fn runs_stay_in_objects()
    ensures { EachRun (λ input o. AllLie o) }
{}

/// At the end of a run each object has as many bytes as its size, and those under a stored pointer are zero.
pub fn objects_are_whole_at_the_end()
    ensures { EachRun (λ input o. AreWhole o.memory.objects) }
{}
