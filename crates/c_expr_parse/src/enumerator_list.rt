//! Enumerators (C99 6.7.2.2).
ghost use Rattle.std.specs.Prelude.{IfOk, false};
ghost use Rattle.parse_rules.specs.Parsers.{by_first, loop};
ghost use Rattle.c_tree.specs.Depth.{enumerators_height};
ghost use Rattle.c_parse_words.specs.Lists.{enumerators_seen};
ghost use Rattle.c_parse_words.specs.Seen.{names_of, Reads};
ghost use Rattle.c_expr_parse.specs.TypeRules as spec;
ghost use Rattle.c_expr_parse.specs.TypeRules.{Upto};
ghost use Rattle.c_expr_parse.specs.Rules.{rules};
ghost use Rattle.c_parse_words.specs.Tests as tests;
ghost use Rattle.c_expr_parse.specs.Nests.{Nests, IsMeasured};

use crate::grammar::Grammar;
use c_parse_words::begins::{Naming, begins_enumerator};
use c_parse_words::cursor::Cursor;
use c_parse_words::lookahead::equals_sign;
use c_parse_words::measured::Measured;
use c_parse_words::next::Next;
use c_parse_words::series::{Series, series_goes_on};
use c_parse_words::stop::Stop;
use c_parse_words::words::{Scope, is_type_name};
use c_tree::{Declarator, Enumerator, Expr, Identifier, Items, Specifiers};
use indexmap::IndexSet;
use std::alloc::Global;

impl<
    'a,
    E: Fn(Global, &IndexSet<Vec<u8>>, &mut Cursor<'_>, u16, u8) -> Result<Measured<Expr>, Stop>,
    S: Fn(
        Global,
        &IndexSet<Vec<u8>>,
        &mut Cursor<'_>,
        u16,
        Scope,
    ) -> Result<Measured<Specifiers>, Stop>,
    D: Fn(
        Global,
        &IndexSet<Vec<u8>>,
        &mut Cursor<'_>,
        u16,
        Naming,
    ) -> Result<Measured<Declarator>, Stop>,
> Grammar<'a, E, S, D> {
    /// A value, where `=` comes after the name.
    #[tactic(auto, using(c_tree::proofs::PushLaws::pushes, c_tree::proofs::ViewLaws::expr_views), unfolding(crate::specs::TypeRules::with_value))]
    fn enumerator_named(
        &self,
        cursor: &mut Cursor<'_>,
        mut before: Measured<Items<Enumerator>>,
        name: Identifier,
    ) -> Result<Measured<Items<Enumerator>>, Stop>
        requires nests { Nests self.now.names.now self.now.depth (E.pre self.now.read_expr)
            (E.post self.now.read_expr) (S.pre self.now.read_specifiers)
            (S.post self.now.read_specifiers) (D.pre self.now.read_declarator)
            (D.post self.now.read_declarator) }
        requires measured { IsMeasured self.now.depth (enumerators_height
            (enumerators_seen before.tree)) before.height }
        ensures reads { Reads (λ m. enumerators_seen m.tree) (by_first tests.equals_sign
            (spec.with_value (rules (names_of self.now.names.now) self.now.depth)
            (enumerators_seen before.tree) name) cursor.old) result cursor.new }
        ensures height { IfOk result (λ m. IsMeasured self.now.depth
            (enumerators_height (enumerators_seen m.tree)) m.height) }
    {
        let Some(at) = equals_sign(cursor.peek()) else {
            before.tree.push(Enumerator::Plain(name))?;
            return Ok(before);
        };
        cursor.skip()?;
        let Measured { tree, height } = self.expr(cursor, 2)?;
        before.tree.push(Enumerator::Valued(name, at, tree))?;
        before.height = before.height.max(height);
        Ok(before)
    }

    #[tactic(auto, unfolding(crate::specs::TypeRules::with_name))]
    fn enumerator(
        &self,
        cursor: &mut Cursor<'_>,
        before: Measured<Items<Enumerator>>,
    ) -> Result<Measured<Items<Enumerator>>, Stop>
        requires nests { Nests self.now.names.now self.now.depth (E.pre self.now.read_expr)
            (E.post self.now.read_expr) (S.pre self.now.read_specifiers)
            (S.post self.now.read_specifiers) (D.pre self.now.read_declarator)
            (D.post self.now.read_declarator) }
        requires measured { IsMeasured self.now.depth (enumerators_height
            (enumerators_seen before.tree)) before.height }
        ensures reads { Reads (λ m. enumerators_seen m.tree) (by_first
            (tests.plain_name (names_of self.now.names.now))
            (spec.with_name (rules (names_of self.now.names.now) self.now.depth)
            (enumerators_seen before.tree)) cursor.old) result cursor.new }
        ensures height { IfOk result (λ m. IsMeasured self.now.depth
            (enumerators_height (enumerators_seen m.tree)) m.height) }
    {
        let Next::Name(bytes, place) = cursor.peek() else {
            return Err(Stop::Syntax);
        };
        if is_type_name(self.names, bytes) {
            return Err(Stop::Syntax);
        }
        cursor.skip()?;
        let name = Identifier {
            bytes: Items::from_slice(self.alloc, bytes)?,
            place,
        };
        self.enumerator_named(cursor, before, name)
    }

    #[tactic(auto, unfolding(crate::specs::TypeRules::next_enumerator))]
    fn next_enumerator(
        &self,
        cursor: &mut Cursor<'_>,
        before: Measured<Items<Enumerator>>,
    ) -> Result<Series<Enumerator>, Stop>
        requires nests { Nests self.now.names.now self.now.depth (E.pre self.now.read_expr)
            (E.post self.now.read_expr) (S.pre self.now.read_specifiers)
            (S.post self.now.read_specifiers) (D.pre self.now.read_declarator)
            (D.post self.now.read_declarator) }
        requires measured { IsMeasured self.now.depth (enumerators_height
            (enumerators_seen before.tree)) before.height }
        ensures reads { Reads (λ m. Upto (enumerators_seen m.list.tree) m.comma)
            (spec.next_enumerator (names_of self.now.names.now)
            (rules (names_of self.now.names.now) self.now.depth)
            (enumerators_seen before.tree) cursor.old) result cursor.new }
        ensures height { IfOk result (λ m. IsMeasured self.now.depth
            (enumerators_height (enumerators_seen m.list.tree)) m.list.height) }
    {
        Ok(Series {
            list: self.enumerator(cursor, before)?,
            comma: false,
        })
    }

    /// After a comma another one, or none.
    #[tactic(auto, unfolding(crate::specs::TypeRules::enumerator_step))]
    fn enumerator_after_comma(
        &self,
        cursor: &mut Cursor<'_>,
        before: Series<Enumerator>,
    ) -> Result<Series<Enumerator>, Stop>
        requires nests { Nests self.now.names.now self.now.depth (E.pre self.now.read_expr)
            (E.post self.now.read_expr) (S.pre self.now.read_specifiers)
            (S.post self.now.read_specifiers) (D.pre self.now.read_declarator)
            (D.post self.now.read_declarator) }
        requires measured { IsMeasured self.now.depth (enumerators_height
            (enumerators_seen before.list.tree)) before.list.height }
        ensures reads { Reads (λ m. Upto (enumerators_seen m.list.tree) m.comma)
            (spec.enumerator_step (names_of self.now.names.now)
            (rules (names_of self.now.names.now) self.now.depth)
            (Upto (enumerators_seen before.list.tree) before.comma) cursor.old) result cursor.new }
        ensures height { IfOk result (λ m. IsMeasured self.now.depth
            (enumerators_height (enumerators_seen m.list.tree)) m.list.height) }
    {
        cursor.skip()?;
        if begins_enumerator(self.names, cursor.peek()) {
            return self.next_enumerator(cursor, before.list);
        }
        Ok(Series {
            list: before.list,
            comma: true,
        })
    }

    fn more_enumerators(
        &self,
        cursor: &mut Cursor<'_>,
        first: Series<Enumerator>,
    ) -> Result<Series<Enumerator>, Stop>
        requires nests { Nests self.now.names.now self.now.depth (E.pre self.now.read_expr)
            (E.post self.now.read_expr) (S.pre self.now.read_specifiers)
            (S.post self.now.read_specifiers) (D.pre self.now.read_declarator)
            (D.post self.now.read_declarator) }
        requires measured { IsMeasured self.now.depth (enumerators_height
            (enumerators_seen first.list.tree)) first.list.height }
        ensures reads { Reads (λ m. Upto (enumerators_seen m.list.tree) m.comma)
            (loop spec.goes_on_series (spec.enumerator_step (names_of self.now.names.now)
            (rules (names_of self.now.names.now) self.now.depth))
            (Upto (enumerators_seen first.list.tree) first.comma) cursor.old) result cursor.new }
        ensures height { IfOk result (λ m. IsMeasured self.now.depth
            (enumerators_height (enumerators_seen m.list.tree)) m.list.height) }
    {
        let mut series = first;
        for _turn in 0..cursor.left() {
            if !series_goes_on(series.comma, cursor.peek()) {
                return Ok(series);
            }
            series = self.enumerator_after_comma(cursor, series)?;
        }
        Ok(series)
    }

    /// Enumerators, up to the `}`.
    #[tactic(auto, unfolding(crate::specs::TypeRules::enumerators))]
    pub fn enumerators(&self, cursor: &mut Cursor<'_>) -> Result<Series<Enumerator>, Stop>
        requires nests { Nests self.now.names.now self.now.depth (E.pre self.now.read_expr)
            (E.post self.now.read_expr) (S.pre self.now.read_specifiers)
            (S.post self.now.read_specifiers) (D.pre self.now.read_declarator)
            (D.post self.now.read_declarator) }
        ensures reads { Reads (λ m. Upto (enumerators_seen m.list.tree) m.comma)
            (spec.enumerators (names_of self.now.names.now)
            (rules (names_of self.now.names.now) self.now.depth) cursor.old) result cursor.new }
        ensures height { IfOk result (λ m. IsMeasured self.now.depth
            (enumerators_height (enumerators_seen m.list.tree)) m.list.height) }
    {
        let none = Measured {
            tree: Items::new(self.alloc),
            height: 0,
        };
        let first = self.next_enumerator(cursor, none)?;
        self.more_enumerators(cursor, first)
    }
}
