//! Units (C99 6.9).
ghost use Rattle.std.specs.Prelude.{◌≡◌, ◌≤◌, ◌⊎◌, Err, IfErr, IfOk, IsOkAnd, [], length, map};
ghost use Rattle.parse_rules.specs.Grammars.{Supported};
ghost use Rattle.parse_rules.specs.Parsers.{Read};
ghost use Rattle.c_lexer.specs.Cut.{IsCut};
ghost use Rattle.c_tree.specs.Depth.{unit_height};
ghost use Rattle.c_tree.specs.StatementViews.{unit_view};
ghost use Rattle.c_tree.specs.Symbols.{symbol_of};
ghost use Rattle.c_tree.specs.Tree.{TranslationUnit};
ghost use Rattle.c_parse_words.specs.Seen.{Reads};
ghost use Rattle.c_expr_parse.specs.Calls.{IsFault};
ghost use Rattle.c_parser.specs.Answers.{SpellsUnit, UnitAnswered};
ghost use Rattle.c_parser.specs.UnitRules as spec;

use crate::externals::externals;
use c_lexer::Token;
use c_parse_words::cursor::Cursor;
use c_parse_words::fault::fault_of;
use c_parse_words::stop::Stop;
use c_tree::Unit;
use cc_base::Fault;
use indexmap::IndexSet;
use std::alloc::Global;

/// Reads a unit that is all of the tokens. `depth` is the number of nodes that are allowed on a path.
#[tactic(auto, unfolding(crate::specs::UnitRules::unit_rule, crate::specs::UnitRules::at_end))]
fn read_unit(alloc: Global, depth: u16, cursor: &mut Cursor<'_>) -> Result<Unit, Stop>
    ensures { Reads unit_view (spec.unit_rule depth cursor.old) result cursor.new }
{
    let mut names = IndexSet::new(alloc);
    let externals = externals(alloc, &mut names, depth, cursor)?;
    if cursor.left() > 0 {
        return Err(Stop::Syntax);
    }
    Ok(Unit { externals })
}

/// Parses the tokens of a text as a unit: declarations and function definitions, by the grammar of
/// C99 (6.5 to 6.9) without floating types, bit-fields, designators, compound literals, labels and `goto`.
///
/// The unit that is given spells exactly the tokens, and no path of its tree has more than 256 nodes.
/// Every such unit is given. Else the answer is
///
/// - `Syntax` at the first token such that no unit begins with the tokens through it, or just after the
///   last byte where the text ends too early;
/// - `Unsupported` there, if the token is the second `long` of one list of specifiers, a `:` after a
///   member's declarator or in its place, a `.` or `[` that begins an item of an initialiser, or a `{`
///   after a type name in parentheses;
/// - `TooLarge` with `Depth` at a token such that some unit begins with the tokens through it, and each
///   that does has a longer path. It may come in place of a later `Syntax` or `Unsupported`.
pub fn parse_unit(alloc: Global, text: &[u8], toks: &[Token<'_>]) -> Result<Unit, Fault>
    requires text { length text.now ≤ 1048576 }
    requires tokens { IsCut text.now toks.now }
    ensures read { IfOk result (λ unit. UnitAnswered 256 (map symbol_of toks.now)
        (Read (unit_view unit) [])) }
    ensures refused { IfErr result (IsFault (UnitAnswered 256 (map symbol_of toks.now)) text.now
        toks.now) }

    // A unit in the grammar that spells the tokens and is low enough is not refused.
    ensures accepts { (unit : TranslationUnit) → SpellsUnit Supported unit (map symbol_of toks.now)
        → unit_height unit ≤ 256
        → IsOkAnd result (λ u. unit_view u ≡ unit) ⊎ (result ≡ Err Fault.NoMemory) }
{
    let mut cursor = Cursor::new(&toks[..]);
    match read_unit(alloc, 256, &mut cursor) {
        Ok(unit) => Ok(unit),
        Err(stop) => Err(fault_of(text, toks, &cursor, stop)),
    }
}
