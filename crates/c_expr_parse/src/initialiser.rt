//! Initialisers (C99 6.7.8).
ghost use Rattle.std.specs.Prelude.{IfOk};
ghost use Rattle.c_tree.specs.Depth.{initialiser_height};
ghost use Rattle.c_tree.specs.StatementViews.{initialiser_view};
ghost use Rattle.c_parse_words.specs.Seen.{names_of, Reads};
ghost use Rattle.c_expr_parse.specs.Rules as spec;
ghost use Rattle.c_expr_parse.specs.Rules.{rules};
ghost use Rattle.c_expr_parse.specs.Nests.{IsMeasured};

use crate::initialiser_list::Braces;
use crate::nesting::read_expr;
use c_parse_words::begins::begins_initialiser;
use c_parse_words::cursor::Cursor;
use c_parse_words::lookahead::open_brace;
use c_parse_words::measured::Measured;
use c_parse_words::stop::{Stop, too_deep};
use c_tree::Initialiser;
use indexmap::IndexSet;
use std::alloc::Global;

/// An initialiser without braces: an assignment expression.
#[tactic(auto, using(c_tree::proofs::StatementViewLaws::statement_views), unfolding(crate::specs::Rules::value))]
pub fn value(
    alloc: Global,
    names: &IndexSet<Vec<u8>>,
    cursor: &mut Cursor<'_>,
    depth: u16,
) -> Result<Measured<Initialiser>, Stop>
    ensures reads { Reads (λ m. initialiser_view m.tree) (spec.value
        (rules (names_of names.now) depth) cursor.old) result cursor.new }
    ensures height { IfOk result (λ m. IsMeasured depth
        (initialiser_height (initialiser_view m.tree)) m.height) }
{
    let Measured { tree, height } = read_expr(alloc, names, cursor, depth, 1)?;
    Ok(Measured {
        tree: Initialiser::Value(tree),
        height,
    })
}

/// An initialiser: an assignment expression, or at least one initialiser in braces. `depth` is the number of
/// nodes that are allowed on a path.
pub fn read_initialiser(
    alloc: Global,
    names: &IndexSet<Vec<u8>>,
    cursor: &mut Cursor<'_>,
    depth: u16,
) -> Result<Measured<Initialiser>, Stop>
    ensures reads { Reads (λ m. initialiser_view m.tree) (spec.initialiser
        (names_of names.now) depth cursor.old) result cursor.new }
    ensures height { IfOk result (λ m. IsMeasured depth
        (initialiser_height (initialiser_view m.tree)) m.height) }
{
    if depth == 0 {
        return Err(too_deep(begins_initialiser(names, cursor.peek())));
    }
    let Some(brace) = open_brace(cursor.peek()) else {
        return value(alloc, names, cursor, depth);
    };
    cursor.skip()?;
    Braces {
        alloc,
        names,
        depth: depth - 1,
        read_item: read_initialiser,
    }
    .items(cursor, brace)
}
