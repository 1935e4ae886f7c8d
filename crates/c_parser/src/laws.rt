//! What the grammar says of every text: one unit at most, and one answer.
// Laws of units: each is the contract of a function that does nothing, so that it is proved once and can be cited.

ghost use Rattle.std.specs.Prelude.{◌≡◌, List};
ghost use Rattle.parse_rules.specs.Grammars.{Supported};
ghost use Rattle.c_tree.specs.Symbols.{Symbol};
ghost use Rattle.c_tree.specs.Tree.{TranslationUnit};
ghost use Rattle.c_parser.specs.Answers.{SpellsUnit};
ghost use Rattle.c_parser.specs.Theorems.{OneAnswerIsRight};

/// No two units in the grammar spell the same tokens.
pub fn units_are_spelled_once()
    ensures { (a b : TranslationUnit) (tokens : List Symbol) → SpellsUnit Supported a tokens
        → SpellsUnit Supported b tokens → a ≡ b }
{}

/// Of the answers that are no stop at a depth, one at most is right.
pub fn one_answer_is_right()
    ensures { OneAnswerIsRight }
{}
