//! Parameters (C99 6.7.5.3).
ghost use Rattle.std.specs.Prelude.{IfOk};
ghost use Rattle.parse_rules.specs.Parsers.{loop};
ghost use Rattle.c_tree.specs.Depth.{parameters_height};
ghost use Rattle.c_parse_words.specs.Lists.{parameters_seen};
ghost use Rattle.c_parse_words.specs.Seen.{names_of, after_skip, Reads};
ghost use Rattle.c_parse_words.specs.Tests as tests;
ghost use Rattle.c_expr_parse.specs.DeclaratorRules as spec;
ghost use Rattle.c_expr_parse.specs.Rules.{rules};
ghost use Rattle.c_expr_parse.specs.Nests.{Nests, IsMeasured};

use crate::grammar::Grammar;
use c_parse_words::begins::{Naming, begins_specifier};
use c_parse_words::cursor::Cursor;
use c_parse_words::lookahead::is_comma;
use c_parse_words::measured::Measured;
use c_parse_words::stop::Stop;
use c_parse_words::words::Scope;
use c_tree::{Declarator, Expr, Items, Parameter, Specifiers};
use indexmap::IndexSet;
use std::alloc::Global;

impl<
    'a,
    E: Fn(Global, &IndexSet<Vec<u8>>, &mut Cursor<'_>, u16, u8) -> Result<Measured<Expr>, Stop>,
    S: Fn(
        Global,
        &IndexSet<Vec<u8>>,
        &mut Cursor<'_>,
        u16,
        Scope,
    ) -> Result<Measured<Specifiers>, Stop>,
    D: Fn(
        Global,
        &IndexSet<Vec<u8>>,
        &mut Cursor<'_>,
        u16,
        Naming,
    ) -> Result<Measured<Declarator>, Stop>,
> Grammar<'a, E, S, D> {
    #[tactic(auto, using(c_tree::proofs::PushLaws::pushes, c_tree::proofs::ViewLaws::expr_views), unfolding(crate::specs::DeclaratorRules::next_parameter))]
    fn next_parameter(
        &self,
        cursor: &mut Cursor<'_>,
        mut before: Measured<Items<Parameter>>,
    ) -> Result<Measured<Items<Parameter>>, Stop>
        requires nests { Nests self.now.names.now self.now.depth (E.pre self.now.read_expr)
            (E.post self.now.read_expr) (S.pre self.now.read_specifiers)
            (S.post self.now.read_specifiers) (D.pre self.now.read_declarator)
            (D.post self.now.read_declarator) }
        requires measured { IsMeasured self.now.depth (parameters_height
            (parameters_seen before.tree)) before.height }
        ensures reads { Reads (λ m. parameters_seen m.tree) (spec.next_parameter
            (names_of self.now.names.now) (rules (names_of self.now.names.now) self.now.depth)
            (parameters_seen before.tree) cursor.old) result cursor.new }
        ensures height { IfOk result (λ m. IsMeasured self.now.depth
            (parameters_height (parameters_seen m.tree)) m.height) }
    {
        let specifiers = self.specifiers(cursor, Scope::InBlock)?;
        let declared = self.declared(cursor, Naming::WithOrWithout)?;
        before.tree.push(Parameter {
            specifiers: specifiers.tree,
            declarator: declared.tree,
        })?;
        before.height = before.height.max(specifiers.height.max(declared.height));
        Ok(before)
    }

    fn parameter_after_comma(
        &self,
        cursor: &mut Cursor<'_>,
        before: Measured<Items<Parameter>>,
    ) -> Result<Measured<Items<Parameter>>, Stop>
        requires nests { Nests self.now.names.now self.now.depth (E.pre self.now.read_expr)
            (E.post self.now.read_expr) (S.pre self.now.read_specifiers)
            (S.post self.now.read_specifiers) (D.pre self.now.read_declarator)
            (D.post self.now.read_declarator) }
        requires measured { IsMeasured self.now.depth (parameters_height
            (parameters_seen before.tree)) before.height }
        ensures reads { Reads (λ m. parameters_seen m.tree) (after_skip
            (spec.next_parameter (names_of self.now.names.now)
            (rules (names_of self.now.names.now) self.now.depth) (parameters_seen before.tree))
            cursor.old) result cursor.new }
        ensures height { IfOk result (λ m. IsMeasured self.now.depth
            (parameters_height (parameters_seen m.tree)) m.height) }
    {
        cursor.skip()?;
        self.next_parameter(cursor, before)
    }

    fn more_parameters(
        &self,
        cursor: &mut Cursor<'_>,
        first: Measured<Items<Parameter>>,
    ) -> Result<Measured<Items<Parameter>>, Stop>
        requires nests { Nests self.now.names.now self.now.depth (E.pre self.now.read_expr)
            (E.post self.now.read_expr) (S.pre self.now.read_specifiers)
            (S.post self.now.read_specifiers) (D.pre self.now.read_declarator)
            (D.post self.now.read_declarator) }
        requires measured { IsMeasured self.now.depth (parameters_height
            (parameters_seen first.tree)) first.height }
        ensures reads { Reads (λ m. parameters_seen m.tree) (loop (λ _. tests.is_comma)
            (λ before. after_skip (spec.next_parameter (names_of self.now.names.now)
            (rules (names_of self.now.names.now) self.now.depth) before))
            (parameters_seen first.tree) cursor.old) result cursor.new }
        ensures height { IfOk result (λ m. IsMeasured self.now.depth
            (parameters_height (parameters_seen m.tree)) m.height) }
    {
        let mut list = first;
        for _turn in 0..cursor.left() {
            if !is_comma(cursor.peek()) {
                return Ok(list);
            }
            list = self.parameter_after_comma(cursor, list)?;
        }
        Ok(list)
    }

    /// Parameters, up to the `)`.
    #[tactic(auto, unfolding(crate::specs::DeclaratorRules::parameters))]
    pub fn parameters(&self, cursor: &mut Cursor<'_>) -> Result<Measured<Items<Parameter>>, Stop>
        requires nests { Nests self.now.names.now self.now.depth (E.pre self.now.read_expr)
            (E.post self.now.read_expr) (S.pre self.now.read_specifiers)
            (S.post self.now.read_specifiers) (D.pre self.now.read_declarator)
            (D.post self.now.read_declarator) }
        ensures reads { Reads (λ m. parameters_seen m.tree) (spec.parameters
            (names_of self.now.names.now) (rules (names_of self.now.names.now) self.now.depth)
            cursor.old) result cursor.new }
        ensures height { IfOk result (λ m. IsMeasured self.now.depth
            (parameters_height (parameters_seen m.tree)) m.height) }
    {
        let none = Measured {
            tree: Items::new(self.alloc),
            height: 0,
        };
        if !begins_specifier(self.names, Scope::InBlock, cursor.peek()) {
            return Ok(none);
        }
        let first = self.next_parameter(cursor, none)?;
        self.more_parameters(cursor, first)
    }
}
