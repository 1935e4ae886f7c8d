//! Members of structs and unions (C99 6.7.2.1).
ghost use Rattle.std.specs.Prelude.{IfOk};
ghost use Rattle.parse_rules.specs.Parsers.{loop};
ghost use Rattle.c_tree.specs.Depth.{member_declarators_height, members_height};
ghost use Rattle.c_tree.specs.Words.{InType};
ghost use Rattle.c_parse_words.specs.Lists.{declarators_seen, members_seen};
ghost use Rattle.c_parse_words.specs.Seen.{names_of, after_skip, Reads};
ghost use Rattle.c_parse_words.specs.Tests as tests;
ghost use Rattle.c_expr_parse.specs.TypeRules as spec;
ghost use Rattle.c_expr_parse.specs.Rules.{rules};
ghost use Rattle.c_expr_parse.specs.Nests.{Nests, IsMeasured};

use crate::grammar::Grammar;
use c_parse_words::begins::{Naming, begins_specifier};
use c_parse_words::cursor::Cursor;
use c_parse_words::lookahead::{is_colon, is_comma, is_semicolon};
use c_parse_words::measured::Measured;
use c_parse_words::stop::Stop;
use c_parse_words::words::Scope;
use c_tree::{Declarator, Expr, Items, Members, Specifiers};
use indexmap::IndexSet;
use std::alloc::Global;

impl<
    'a,
    E: Fn(Global, &IndexSet<Vec<u8>>, &mut Cursor<'_>, u16, u8) -> Result<Measured<Expr>, Stop>,
    S: Fn(
        Global,
        &IndexSet<Vec<u8>>,
        &mut Cursor<'_>,
        u16,
        Scope,
    ) -> Result<Measured<Specifiers>, Stop>,
    D: Fn(
        Global,
        &IndexSet<Vec<u8>>,
        &mut Cursor<'_>,
        u16,
        Naming,
    ) -> Result<Measured<Declarator>, Stop>,
> Grammar<'a, E, S, D> {
    /// A declarator; a `:` in its place or after it begins a bit-field.
    #[tactic(auto, using(c_tree::proofs::PushLaws::pushes, c_tree::proofs::ViewLaws::expr_views), unfolding(crate::specs::TypeRules::next_member))]
    fn next_member(
        &self,
        cursor: &mut Cursor<'_>,
        mut before: Measured<Items<Declarator>>,
    ) -> Result<Measured<Items<Declarator>>, Stop>
        requires nests { Nests self.now.names.now self.now.depth (E.pre self.now.read_expr)
            (E.post self.now.read_expr) (S.pre self.now.read_specifiers)
            (S.post self.now.read_specifiers) (D.pre self.now.read_declarator)
            (D.post self.now.read_declarator) }
        requires measured { IsMeasured self.now.depth (member_declarators_height
            (declarators_seen before.tree)) before.height }
        ensures reads { Reads (λ m. declarators_seen m.tree) (spec.next_member
            (rules (names_of self.now.names.now) self.now.depth)
            (declarators_seen before.tree) cursor.old) result cursor.new }
        ensures height { IfOk result (λ m. IsMeasured self.now.depth
            (member_declarators_height (declarators_seen m.tree)) m.height) }
    {
        if is_colon(cursor.peek()) {
            return Err(Stop::Unsupported);
        }
        let Measured { tree, height } = self.declarator(cursor, Naming::WithName)?;
        if is_colon(cursor.peek()) {
            return Err(Stop::Unsupported);
        }
        before.tree.push(tree)?;
        before.height = before.height.max(height);
        Ok(before)
    }

    fn member_after_comma(
        &self,
        cursor: &mut Cursor<'_>,
        before: Measured<Items<Declarator>>,
    ) -> Result<Measured<Items<Declarator>>, Stop>
        requires nests { Nests self.now.names.now self.now.depth (E.pre self.now.read_expr)
            (E.post self.now.read_expr) (S.pre self.now.read_specifiers)
            (S.post self.now.read_specifiers) (D.pre self.now.read_declarator)
            (D.post self.now.read_declarator) }
        requires measured { IsMeasured self.now.depth (member_declarators_height
            (declarators_seen before.tree)) before.height }
        ensures reads { Reads (λ m. declarators_seen m.tree) (after_skip
            (spec.next_member (rules (names_of self.now.names.now) self.now.depth)
            (declarators_seen before.tree)) cursor.old) result cursor.new }
        ensures height { IfOk result (λ m. IsMeasured self.now.depth
            (member_declarators_height (declarators_seen m.tree)) m.height) }
    {
        cursor.skip()?;
        self.next_member(cursor, before)
    }

    fn more_members(
        &self,
        cursor: &mut Cursor<'_>,
        first: Measured<Items<Declarator>>,
    ) -> Result<Measured<Items<Declarator>>, Stop>
        requires nests { Nests self.now.names.now self.now.depth (E.pre self.now.read_expr)
            (E.post self.now.read_expr) (S.pre self.now.read_specifiers)
            (S.post self.now.read_specifiers) (D.pre self.now.read_declarator)
            (D.post self.now.read_declarator) }
        requires measured { IsMeasured self.now.depth (member_declarators_height
            (declarators_seen first.tree)) first.height }
        ensures reads { Reads (λ m. declarators_seen m.tree) (loop (λ _. tests.is_comma)
            (λ before. after_skip (spec.next_member (rules
            (names_of self.now.names.now) self.now.depth) before))
            (declarators_seen first.tree) cursor.old) result cursor.new }
        ensures height { IfOk result (λ m. IsMeasured self.now.depth
            (member_declarators_height (declarators_seen m.tree)) m.height) }
    {
        let mut list = first;
        for _turn in 0..cursor.left() {
            if !is_comma(cursor.peek()) {
                return Ok(list);
            }
            list = self.member_after_comma(cursor, list)?;
        }
        Ok(list)
    }

    #[tactic(auto, unfolding(crate::specs::TypeRules::member_declarators))]
    fn member_declarators(
        &self,
        cursor: &mut Cursor<'_>,
    ) -> Result<Measured<Items<Declarator>>, Stop>
        requires nests { Nests self.now.names.now self.now.depth (E.pre self.now.read_expr)
            (E.post self.now.read_expr) (S.pre self.now.read_specifiers)
            (S.post self.now.read_specifiers) (D.pre self.now.read_declarator)
            (D.post self.now.read_declarator) }
        ensures reads { Reads (λ m. declarators_seen m.tree) (spec.member_declarators
            (rules (names_of self.now.names.now) self.now.depth) cursor.old) result cursor.new }
        ensures height { IfOk result (λ m. IsMeasured self.now.depth
            (member_declarators_height (declarators_seen m.tree)) m.height) }
    {
        let none = Measured {
            tree: Items::new(self.alloc),
            height: 0,
        };
        let first = self.next_member(cursor, none)?;
        self.more_members(cursor, first)
    }

    /// One row: specifiers, declarators and a semicolon.
    #[tactic(auto, using(c_tree::proofs::PushLaws::pushes, c_tree::proofs::ViewLaws::expr_views), unfolding(crate::specs::TypeRules::next_members))]
    fn next_members(
        &self,
        cursor: &mut Cursor<'_>,
        mut before: Measured<Items<Members>>,
    ) -> Result<Measured<Items<Members>>, Stop>
        requires nests { Nests self.now.names.now self.now.depth (E.pre self.now.read_expr)
            (E.post self.now.read_expr) (S.pre self.now.read_specifiers)
            (S.post self.now.read_specifiers) (D.pre self.now.read_declarator)
            (D.post self.now.read_declarator) }
        requires measured { IsMeasured self.now.depth (members_height (members_seen before.tree))
            before.height }
        ensures reads { Reads (λ m. members_seen m.tree) (spec.next_members
            (rules (names_of self.now.names.now) self.now.depth)
            (members_seen before.tree) cursor.old) result cursor.new }
        ensures height { IfOk result (λ m. IsMeasured self.now.depth
            (members_height (members_seen m.tree)) m.height) }
    {
        let specifiers = self.specifiers(cursor, Scope::InType)?;
        let declarators = self.member_declarators(cursor)?;
        let ends = is_semicolon(cursor.peek());
        cursor.expect(ends)?;
        before.tree.push(Members {
            specifiers: specifiers.tree,
            declarators: declarators.tree,
        })?;
        before.height = before.height.max(specifiers.height.max(declarators.height));
        Ok(before)
    }

    fn rows(
        &self,
        cursor: &mut Cursor<'_>,
        first: Measured<Items<Members>>,
    ) -> Result<Measured<Items<Members>>, Stop>
        requires nests { Nests self.now.names.now self.now.depth (E.pre self.now.read_expr)
            (E.post self.now.read_expr) (S.pre self.now.read_specifiers)
            (S.post self.now.read_specifiers) (D.pre self.now.read_declarator)
            (D.post self.now.read_declarator) }
        requires measured { IsMeasured self.now.depth (members_height (members_seen first.tree))
            first.height }
        ensures reads { Reads (λ m. members_seen m.tree) (loop
            (λ _. tests.begins_specifier (names_of self.now.names.now) InType)
            (spec.next_members (rules (names_of self.now.names.now) self.now.depth))
            (members_seen first.tree) cursor.old) result cursor.new }
        ensures height { IfOk result (λ m. IsMeasured self.now.depth
            (members_height (members_seen m.tree)) m.height) }
    {
        let mut list = first;
        for _turn in 0..cursor.left() {
            if !begins_specifier(self.names, Scope::InType, cursor.peek()) {
                return Ok(list);
            }
            list = self.next_members(cursor, list)?;
        }
        Ok(list)
    }

    /// Rows of members, up to the `}`.
    #[tactic(auto, unfolding(crate::specs::TypeRules::members))]
    pub fn members(&self, cursor: &mut Cursor<'_>) -> Result<Measured<Items<Members>>, Stop>
        requires nests { Nests self.now.names.now self.now.depth (E.pre self.now.read_expr)
            (E.post self.now.read_expr) (S.pre self.now.read_specifiers)
            (S.post self.now.read_specifiers) (D.pre self.now.read_declarator)
            (D.post self.now.read_declarator) }
        ensures reads { Reads (λ m. members_seen m.tree) (spec.members (names_of self.now.names.now)
            (rules (names_of self.now.names.now) self.now.depth) cursor.old) result cursor.new }
        ensures height { IfOk result (λ m. IsMeasured self.now.depth
            (members_height (members_seen m.tree)) m.height) }
    {
        let none = Measured {
            tree: Items::new(self.alloc),
            height: 0,
        };
        self.rows(cursor, none)
    }
}
