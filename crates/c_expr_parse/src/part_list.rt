//! Array and function parts of a declarator (C99 6.7.5.2, 6.7.5.3).
ghost use Rattle.std.specs.Prelude.{◌≡◌, IfOk};
ghost use Rattle.parse_rules.specs.Parsers.{loop};
ghost use Rattle.c_tree.specs.Depth.{parts_height};
ghost use Rattle.c_parse_words.specs.Lists.{parts_seen, AreArrayWords};
ghost use Rattle.c_parse_words.specs.Seen.{names_of, part_start_view, Reads};
ghost use Rattle.c_parse_words.specs.Tests as tests;
ghost use Rattle.c_expr_parse.specs.DeclaratorRules as spec;
ghost use Rattle.c_expr_parse.specs.Rules.{rules};
ghost use Rattle.c_expr_parse.specs.Nests.{Nests, IsMeasured};

use crate::grammar::Grammar;
use c_parse_words::array_words::{ArrayWords, array_words};
use c_parse_words::begins::{Naming, PartStart, begins_expr, begins_part, next_part};
use c_parse_words::cursor::Cursor;
use c_parse_words::lookahead::{is_close_bracket, is_close_paren};
use c_parse_words::measured::Measured;
use c_parse_words::stop::Stop;
use c_parse_words::words::Scope;
use c_tree::{Declarator, Expr, Items, Part, Specifiers};
use cc_base::Place;
use indexmap::IndexSet;
use std::alloc::Global;

/// An array part without a size, after its words. `static` asks for one.
#[tactic(auto, using(c_tree::proofs::PushLaws::pushes, c_tree::proofs::ViewLaws::expr_views), unfolding(crate::specs::DeclaratorRules::without_size))]
fn without_size(
    cursor: &mut Cursor<'_>,
    mut before: Measured<Items<Part>>,
    at: Place,
    words: ArrayWords,
) -> Result<Measured<Items<Part>>, Stop>
    requires { AreArrayWords words.list words.has_static }
    ensures reads { Reads (λ m. parts_seen m.tree) (spec.without_size
        (parts_seen before.tree) at words.list cursor.old) result cursor.new }
    ensures height { IfOk result (λ m. (m.height ≡ before.height)
        × (parts_height (parts_seen m.tree) ≡ parts_height (parts_seen before.tree))) }
{
    if words.has_static {
        return Err(Stop::Syntax);
    }
    let close = is_close_bracket(cursor.peek());
    cursor.expect(close)?;
    before.tree.push(Part::Array(at, words.list, None))?;
    Ok(before)
}

impl<
    'a,
    E: Fn(Global, &IndexSet<Vec<u8>>, &mut Cursor<'_>, u16, u8) -> Result<Measured<Expr>, Stop>,
    S: Fn(
        Global,
        &IndexSet<Vec<u8>>,
        &mut Cursor<'_>,
        u16,
        Scope,
    ) -> Result<Measured<Specifiers>, Stop>,
    D: Fn(
        Global,
        &IndexSet<Vec<u8>>,
        &mut Cursor<'_>,
        u16,
        Naming,
    ) -> Result<Measured<Declarator>, Stop>,
> Grammar<'a, E, S, D> {
    /// After the `[`.
    #[tactic(auto, using(c_tree::proofs::PushLaws::pushes, c_tree::proofs::ViewLaws::expr_views), unfolding(crate::specs::DeclaratorRules::array_part))]
    fn array_part(
        &self,
        cursor: &mut Cursor<'_>,
        mut before: Measured<Items<Part>>,
        at: Place,
    ) -> Result<Measured<Items<Part>>, Stop>
        requires nests { Nests self.now.names.now self.now.depth (E.pre self.now.read_expr)
            (E.post self.now.read_expr) (S.pre self.now.read_specifiers)
            (S.post self.now.read_specifiers) (D.pre self.now.read_declarator)
            (D.post self.now.read_declarator) }
        requires measured { IsMeasured self.now.depth (parts_height (parts_seen before.tree))
            before.height }
        ensures reads { Reads (λ m. parts_seen m.tree) (spec.array_part
            (names_of self.now.names.now) (rules (names_of self.now.names.now) self.now.depth)
            (parts_seen before.tree) at cursor.old) result cursor.new }
        ensures height { IfOk result (λ m. IsMeasured self.now.depth
            (parts_height (parts_seen m.tree)) m.height) }
    {
        let words = array_words(self.alloc, cursor)?;
        if !begins_expr(self.names, cursor.peek()) {
            return without_size(cursor, before, at, words);
        }
        let Measured { tree, height } = self.expr(cursor, 1)?;
        let close = is_close_bracket(cursor.peek());
        cursor.expect(close)?;
        before.tree.push(Part::Array(at, words.list, Some(tree)))?;
        before.height = before.height.max(height);
        Ok(before)
    }

    /// After the `(`.
    #[tactic(auto, using(c_tree::proofs::PushLaws::pushes, c_tree::proofs::ViewLaws::expr_views), unfolding(crate::specs::DeclaratorRules::function_part))]
    pub fn function_part(
        &self,
        cursor: &mut Cursor<'_>,
        mut before: Measured<Items<Part>>,
        at: Place,
    ) -> Result<Measured<Items<Part>>, Stop>
        requires nests { Nests self.now.names.now self.now.depth (E.pre self.now.read_expr)
            (E.post self.now.read_expr) (S.pre self.now.read_specifiers)
            (S.post self.now.read_specifiers) (D.pre self.now.read_declarator)
            (D.post self.now.read_declarator) }
        requires measured { IsMeasured self.now.depth (parts_height (parts_seen before.tree))
            before.height }
        ensures reads { Reads (λ m. parts_seen m.tree) (spec.function_part
            (names_of self.now.names.now) (rules (names_of self.now.names.now) self.now.depth)
            (parts_seen before.tree) at cursor.old) result cursor.new }
        ensures height { IfOk result (λ m. IsMeasured self.now.depth
            (parts_height (parts_seen m.tree)) m.height) }
    {
        let Measured { tree, height } = self.parameters(cursor)?;
        let close = is_close_paren(cursor.peek());
        cursor.expect(close)?;
        before.tree.push(Part::Function(at, tree))?;
        before.height = before.height.max(height);
        Ok(before)
    }

    #[tactic(auto, unfolding(crate::specs::DeclaratorRules::with_part))]
    fn with_part(
        &self,
        cursor: &mut Cursor<'_>,
        before: Measured<Items<Part>>,
        start: PartStart,
    ) -> Result<Measured<Items<Part>>, Stop>
        requires nests { Nests self.now.names.now self.now.depth (E.pre self.now.read_expr)
            (E.post self.now.read_expr) (S.pre self.now.read_specifiers)
            (S.post self.now.read_specifiers) (D.pre self.now.read_declarator)
            (D.post self.now.read_declarator) }
        requires measured { IsMeasured self.now.depth (parts_height (parts_seen before.tree))
            before.height }
        ensures reads { Reads (λ m. parts_seen m.tree) (spec.with_part (names_of self.now.names.now)
            (rules (names_of self.now.names.now) self.now.depth) (parts_seen before.tree)
            (part_start_view start) cursor.old) result cursor.new }
        ensures height { IfOk result (λ m. IsMeasured self.now.depth
            (parts_height (parts_seen m.tree)) m.height) }
    {
        match start {
            PartStart::Array(at) => {
                cursor.skip()?;
                self.array_part(cursor, before, at)
            }
            PartStart::Function(at) => {
                cursor.skip()?;
                self.function_part(cursor, before, at)
            }
            PartStart::None => Err(Stop::Syntax),
        }
    }

    #[tactic(auto, unfolding(crate::specs::DeclaratorRules::part_step))]
    fn part_step(
        &self,
        cursor: &mut Cursor<'_>,
        before: Measured<Items<Part>>,
    ) -> Result<Measured<Items<Part>>, Stop>
        requires nests { Nests self.now.names.now self.now.depth (E.pre self.now.read_expr)
            (E.post self.now.read_expr) (S.pre self.now.read_specifiers)
            (S.post self.now.read_specifiers) (D.pre self.now.read_declarator)
            (D.post self.now.read_declarator) }
        requires measured { IsMeasured self.now.depth (parts_height (parts_seen before.tree))
            before.height }
        ensures reads { Reads (λ m. parts_seen m.tree) (spec.part_step (names_of self.now.names.now)
            (rules (names_of self.now.names.now) self.now.depth)
            (parts_seen before.tree) cursor.old) result cursor.new }
        ensures height { IfOk result (λ m. IsMeasured self.now.depth
            (parts_height (parts_seen m.tree)) m.height) }
    {
        let start = next_part(cursor.peek());
        self.with_part(cursor, before, start)
    }

    /// The parts that go on from these.
    pub fn more_parts(
        &self,
        cursor: &mut Cursor<'_>,
        before: Measured<Items<Part>>,
    ) -> Result<Measured<Items<Part>>, Stop>
        requires nests { Nests self.now.names.now self.now.depth (E.pre self.now.read_expr)
            (E.post self.now.read_expr) (S.pre self.now.read_specifiers)
            (S.post self.now.read_specifiers) (D.pre self.now.read_declarator)
            (D.post self.now.read_declarator) }
        requires measured { IsMeasured self.now.depth (parts_height (parts_seen before.tree))
            before.height }
        ensures reads { Reads (λ m. parts_seen m.tree) (loop (λ _. tests.begins_part)
            (spec.part_step (names_of self.now.names.now)
            (rules (names_of self.now.names.now) self.now.depth))
            (parts_seen before.tree) cursor.old) result cursor.new }
        ensures height { IfOk result (λ m. IsMeasured self.now.depth
            (parts_height (parts_seen m.tree)) m.height) }
    {
        let mut list = before;
        for _turn in 0..cursor.left() {
            if !begins_part(cursor.peek()) {
                return Ok(list);
            }
            list = self.part_step(cursor, list)?;
        }
        Ok(list)
    }
}
