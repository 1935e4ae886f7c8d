//! How a cured program is spelled, line by line, and the laws of that spelling. The words of its fields are the only code.
#![tactic(auto)]

ghost use Rattle.std.specs.Prelude.{◌≡◌};
ghost use Rattle.cured_code.specs.declared.parts.Parts.{Parts};
ghost use Rattle.cured_spelling.specs.Plain.{plain};
ghost use Rattle.cured_spelling.specs.Spelling.{program_lines, cured_spelling};
ghost use Rattle.cured_spelling.specs.InRange.{AreNumbersInRange};

mod names;

pub use names::{form_name, tag_letter};

/// No text spells two programs. Where two programs are spelled alike, their lines are the same, and so are their
/// signatures, nodes, globals and functions, with all instructions; only the room that lists have for more isn't told.
/// Numbers fit 64 bits and bytes 8, as those of Rust's types do.
pub fn no_text_spells_two_programs()
    ensures lines { (p q : Parts) → AreNumbersInRange p → AreNumbersInRange q
        → cured_spelling p ≡ cured_spelling q → program_lines p ≡ program_lines q }
    ensures programs { (p q : Parts) → AreNumbersInRange p → AreNumbersInRange q
        → cured_spelling p ≡ cured_spelling q → plain p ≡ plain q }
{}
