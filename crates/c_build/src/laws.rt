//! What a built program does: a law, that nothing runs.
ghost use Rattle.c_build.specs.Alike.{BuiltProgramsRunAlike, PlainKindsRunAlike};

/// Whatever cured program a text is built to: where the inferred kinds make its code plain, the flat machine runs the cured program as
/// the source machine runs the typed unit, for every input of bytes and every number of turns. Both runs have the same ending, output
/// and bytes read; the cured one touches the images of the source's accesses and enters the source's functions; and its bytes at the end
/// stand for the source's memory. So it is of every text whose nodes, pointers and homes, are all SAFE or SEQ.
pub fn built_programs_run_alike()
    ensures plain { BuiltProgramsRunAlike }
    ensures kinds { PlainKindsRunAlike }
{}
