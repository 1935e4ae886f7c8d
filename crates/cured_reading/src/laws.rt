//! Laws of the faults of texts.
ghost use Rattle.std.specs.Prelude.{◌≡◌, List, ℕ};
ghost use Rattle.cured_code.specs.declared.parts.Parts.{Parts};
ghost use Rattle.cured_code.specs.Ranges.{IsInRange};
ghost use Rattle.cured_spelling.specs.Spelling.{program_lines, cured_spelling};
ghost use Rattle.cured_spelling.specs.InRange.{AreNumbersInRange};
ghost use Rattle.cured_reading.specs.declared.wrong.CuredFault.{CuredFault};
ghost use Rattle.cured_reading.specs.Faults.{IsUncured, ArePlacesKept};

/// The spelling of a program in range has no fault. Numbers fit 64 bits, bytes 8 and the places of checks 32, as those of
/// Rust's types do.
pub fn a_spelling_has_no_fault()
    ensures { (p : Parts) (why : CuredFault) → IsInRange p → AreNumbersInRange p
        → ArePlacesKept (program_lines p)
        → IsUncured (cured_spelling p) why → ⊥ }
{}

/// A text has one fault at most.
pub fn a_text_has_one_fault()
    ensures { (text : List ℕ) (one other : CuredFault) → IsUncured text one → IsUncured text other
        → one ≡ other }
{}
