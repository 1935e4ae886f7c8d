//! Specifiers (C99 6.7.1 to 6.7.3).
ghost use Rattle.std.specs.Prelude.{IfOk, None, suc};
ghost use Rattle.parse_rules.specs.Parsers.{by_first, loop};
ghost use Rattle.c_tree.specs.Depth.{specifiers_height};
ghost use Rattle.c_tree.specs.Tree as tree;
ghost use Rattle.c_tree.specs.Views.{specifiers_view};
ghost use Rattle.c_parse_words.specs.Lists.{specifiers_seen};
ghost use Rattle.c_parse_words.specs.Seen.{names_of, scope_view, specifier_start_view, Reads};
ghost use Rattle.c_parse_words.specs.Tests as tests;
ghost use Rattle.c_expr_parse.specs.TypeRules as spec;
ghost use Rattle.c_expr_parse.specs.Rules.{rules};
ghost use Rattle.c_expr_parse.specs.Nests.{Nests, IsMeasured};

use crate::grammar::Grammar;
use c_parse_words::begins::{Naming, SpecifierStart, begins_specifier, next_specifier};
use c_parse_words::cursor::Cursor;
use c_parse_words::lookahead::{is_close_brace, open_brace};
use c_parse_words::measured::Measured;
use c_parse_words::next::Next;
use c_parse_words::series::Series;
use c_parse_words::specifier_words::{has_type, is_further_long};
use c_parse_words::stop::Stop;
use c_parse_words::words::Scope;
use c_tree::{AggregateKind, Declarator, Expr, Identifier, Items, Specifier, Specifiers};
use cc_base::Place;
use indexmap::IndexSet;
use std::alloc::Global;

impl<
    'a,
    E: Fn(Global, &IndexSet<Vec<u8>>, &mut Cursor<'_>, u16, u8) -> Result<Measured<Expr>, Stop>,
    S: Fn(
        Global,
        &IndexSet<Vec<u8>>,
        &mut Cursor<'_>,
        u16,
        Scope,
    ) -> Result<Measured<Specifiers>, Stop>,
    D: Fn(
        Global,
        &IndexSet<Vec<u8>>,
        &mut Cursor<'_>,
        u16,
        Naming,
    ) -> Result<Measured<Declarator>, Stop>,
> Grammar<'a, E, S, D> {
    /// After the `{` of a struct or union.
    #[tactic(auto, using(c_tree::proofs::PushLaws::pushes, c_tree::proofs::ViewLaws::expr_views), unfolding(crate::specs::TypeRules::aggregate_body))]
    fn aggregate_body(
        &self,
        cursor: &mut Cursor<'_>,
        mut before: Measured<Items<Specifier>>,
        kind: AggregateKind,
        at: Place,
        tag: Option<Identifier>,
        brace: Place,
    ) -> Result<Measured<Items<Specifier>>, Stop>
        requires nests { Nests self.now.names.now self.now.depth (E.pre self.now.read_expr)
            (E.post self.now.read_expr) (S.pre self.now.read_specifiers)
            (S.post self.now.read_specifiers) (D.pre self.now.read_declarator)
            (D.post self.now.read_declarator) }
        requires measured { IsMeasured self.now.depth (specifiers_height
            (specifiers_seen before.tree)) before.height }
        ensures reads { Reads (λ m. specifiers_seen m.tree) (spec.aggregate_body
            (names_of self.now.names.now) (rules (names_of self.now.names.now) self.now.depth)
            (specifiers_seen before.tree) kind at tag brace cursor.old) result cursor.new }
        ensures height { IfOk result (λ m. IsMeasured self.now.depth
            (specifiers_height (specifiers_seen m.tree)) m.height) }
    {
        let rows = self.members(cursor)?;
        let close = is_close_brace(cursor.peek());
        cursor.expect(close)?;
        before
            .tree
            .push(Specifier::Aggregate(kind, at, tag, brace, rows.tree))?;
        before.height = before.height.max(rows.height);
        Ok(before)
    }

    #[tactic(auto, using(c_tree::proofs::PushLaws::pushes, c_tree::proofs::ViewLaws::expr_views), unfolding(crate::specs::TypeRules::after_aggregate_tag))]
    fn after_aggregate_tag(
        &self,
        cursor: &mut Cursor<'_>,
        mut before: Measured<Items<Specifier>>,
        kind: AggregateKind,
        at: Place,
        tag: Identifier,
    ) -> Result<Measured<Items<Specifier>>, Stop>
        requires nests { Nests self.now.names.now self.now.depth (E.pre self.now.read_expr)
            (E.post self.now.read_expr) (S.pre self.now.read_specifiers)
            (S.post self.now.read_specifiers) (D.pre self.now.read_declarator)
            (D.post self.now.read_declarator) }
        requires measured { IsMeasured self.now.depth (specifiers_height
            (specifiers_seen before.tree)) before.height }
        ensures reads { Reads (λ m. specifiers_seen m.tree) (by_first tests.open_brace
            (spec.after_aggregate_tag (names_of self.now.names.now)
            (rules (names_of self.now.names.now) self.now.depth)
            (specifiers_seen before.tree) kind at tag) cursor.old) result cursor.new }
        ensures height { IfOk result (λ m. IsMeasured self.now.depth
            (specifiers_height (specifiers_seen m.tree)) m.height) }
    {
        if let Some(brace) = open_brace(cursor.peek()) {
            cursor.skip()?;
            return self.aggregate_body(cursor, before, kind, at, Some(tag), brace);
        }
        before.tree.push(Specifier::Tagged(kind, at, tag))?;
        Ok(before)
    }

    #[tactic(auto, using(c_tree::proofs::PushLaws::pushes, c_tree::proofs::ViewLaws::expr_views), unfolding(crate::specs::TypeRules::aggregate_without_tag))]
    fn aggregate_without_tag(
        &self,
        cursor: &mut Cursor<'_>,
        before: Measured<Items<Specifier>>,
        kind: AggregateKind,
        at: Place,
    ) -> Result<Measured<Items<Specifier>>, Stop>
        requires nests { Nests self.now.names.now self.now.depth (E.pre self.now.read_expr)
            (E.post self.now.read_expr) (S.pre self.now.read_specifiers)
            (S.post self.now.read_specifiers) (D.pre self.now.read_declarator)
            (D.post self.now.read_declarator) }
        requires measured { IsMeasured self.now.depth (specifiers_height
            (specifiers_seen before.tree)) before.height }
        ensures reads { Reads (λ m. specifiers_seen m.tree) (by_first tests.open_brace
            (spec.aggregate_without_tag (names_of self.now.names.now)
            (rules (names_of self.now.names.now) self.now.depth)
            (specifiers_seen before.tree) kind at) cursor.old) result cursor.new }
        ensures height { IfOk result (λ m. IsMeasured self.now.depth
            (specifiers_height (specifiers_seen m.tree)) m.height) }
    {
        let Some(brace) = open_brace(cursor.peek()) else {
            return Err(Stop::Syntax);
        };
        cursor.skip()?;
        self.aggregate_body(cursor, before, kind, at, None, brace)
    }

    /// After `struct` or `union`.
    #[tactic(auto, using(c_tree::proofs::PushLaws::pushes, c_tree::proofs::ViewLaws::expr_views), unfolding(crate::specs::TypeRules::after_aggregate))]
    fn after_aggregate(
        &self,
        cursor: &mut Cursor<'_>,
        before: Measured<Items<Specifier>>,
        kind: AggregateKind,
        at: Place,
    ) -> Result<Measured<Items<Specifier>>, Stop>
        requires nests { Nests self.now.names.now self.now.depth (E.pre self.now.read_expr)
            (E.post self.now.read_expr) (S.pre self.now.read_specifiers)
            (S.post self.now.read_specifiers) (D.pre self.now.read_declarator)
            (D.post self.now.read_declarator) }
        requires measured { IsMeasured self.now.depth (specifiers_height
            (specifiers_seen before.tree)) before.height }
        ensures reads { Reads (λ m. specifiers_seen m.tree) (by_first tests.word_name
            (spec.after_aggregate (names_of self.now.names.now)
            (rules (names_of self.now.names.now) self.now.depth)
            (specifiers_seen before.tree) kind at) cursor.old) result cursor.new }
        ensures height { IfOk result (λ m. IsMeasured self.now.depth
            (specifiers_height (specifiers_seen m.tree)) m.height) }
    {
        let Next::Name(bytes, place) = cursor.peek() else {
            return self.aggregate_without_tag(cursor, before, kind, at);
        };
        cursor.skip()?;
        let tag = Identifier {
            bytes: Items::from_slice(self.alloc, bytes)?,
            place,
        };
        self.after_aggregate_tag(cursor, before, kind, at, tag)
    }

    /// After the `{` of an enumeration.
    #[tactic(auto, using(c_tree::proofs::PushLaws::pushes, c_tree::proofs::ViewLaws::expr_views), unfolding(crate::specs::TypeRules::enumeration_body, crate::specs::TypeRules::enumeration))]
    fn enumeration_body(
        &self,
        cursor: &mut Cursor<'_>,
        mut before: Measured<Items<Specifier>>,
        at: Place,
        tag: Option<Identifier>,
        brace: Place,
    ) -> Result<Measured<Items<Specifier>>, Stop>
        requires nests { Nests self.now.names.now self.now.depth (E.pre self.now.read_expr)
            (E.post self.now.read_expr) (S.pre self.now.read_specifiers)
            (S.post self.now.read_specifiers) (D.pre self.now.read_declarator)
            (D.post self.now.read_declarator) }
        requires measured { IsMeasured self.now.depth (specifiers_height
            (specifiers_seen before.tree)) before.height }
        ensures reads { Reads (λ m. specifiers_seen m.tree) (spec.enumeration_body
            (names_of self.now.names.now) (rules (names_of self.now.names.now) self.now.depth)
            (specifiers_seen before.tree) at tag brace cursor.old) result cursor.new }
        ensures height { IfOk result (λ m. IsMeasured self.now.depth
            (specifiers_height (specifiers_seen m.tree)) m.height) }
    {
        let Series { list, comma } = self.enumerators(cursor)?;
        let close = is_close_brace(cursor.peek());
        cursor.expect(close)?;
        let Measured { tree, height } = list;
        before
            .tree
            .push(Specifier::Enumeration(at, tag, brace, tree, comma))?;
        before.height = before.height.max(height);
        Ok(before)
    }

    #[tactic(auto, using(c_tree::proofs::PushLaws::pushes, c_tree::proofs::ViewLaws::expr_views), unfolding(crate::specs::TypeRules::after_enum_tag))]
    fn after_enum_tag(
        &self,
        cursor: &mut Cursor<'_>,
        mut before: Measured<Items<Specifier>>,
        at: Place,
        tag: Identifier,
    ) -> Result<Measured<Items<Specifier>>, Stop>
        requires nests { Nests self.now.names.now self.now.depth (E.pre self.now.read_expr)
            (E.post self.now.read_expr) (S.pre self.now.read_specifiers)
            (S.post self.now.read_specifiers) (D.pre self.now.read_declarator)
            (D.post self.now.read_declarator) }
        requires measured { IsMeasured self.now.depth (specifiers_height
            (specifiers_seen before.tree)) before.height }
        ensures reads { Reads (λ m. specifiers_seen m.tree) (by_first tests.open_brace
            (spec.after_enum_tag (names_of self.now.names.now)
            (rules (names_of self.now.names.now) self.now.depth)
            (specifiers_seen before.tree) at tag) cursor.old) result cursor.new }
        ensures height { IfOk result (λ m. IsMeasured self.now.depth
            (specifiers_height (specifiers_seen m.tree)) m.height) }
    {
        if let Some(brace) = open_brace(cursor.peek()) {
            cursor.skip()?;
            return self.enumeration_body(cursor, before, at, Some(tag), brace);
        }
        before.tree.push(Specifier::Enum(at, tag))?;
        Ok(before)
    }

    #[tactic(auto, using(c_tree::proofs::PushLaws::pushes, c_tree::proofs::ViewLaws::expr_views), unfolding(crate::specs::TypeRules::enum_without_tag))]
    fn enum_without_tag(
        &self,
        cursor: &mut Cursor<'_>,
        before: Measured<Items<Specifier>>,
        at: Place,
    ) -> Result<Measured<Items<Specifier>>, Stop>
        requires nests { Nests self.now.names.now self.now.depth (E.pre self.now.read_expr)
            (E.post self.now.read_expr) (S.pre self.now.read_specifiers)
            (S.post self.now.read_specifiers) (D.pre self.now.read_declarator)
            (D.post self.now.read_declarator) }
        requires measured { IsMeasured self.now.depth (specifiers_height
            (specifiers_seen before.tree)) before.height }
        ensures reads { Reads (λ m. specifiers_seen m.tree) (by_first tests.open_brace
            (spec.enum_without_tag (names_of self.now.names.now)
            (rules (names_of self.now.names.now) self.now.depth) (specifiers_seen before.tree) at)
            cursor.old) result cursor.new }
        ensures height { IfOk result (λ m. IsMeasured self.now.depth
            (specifiers_height (specifiers_seen m.tree)) m.height) }
    {
        let Some(brace) = open_brace(cursor.peek()) else {
            return Err(Stop::Syntax);
        };
        cursor.skip()?;
        self.enumeration_body(cursor, before, at, None, brace)
    }

    /// After `enum`.
    #[tactic(auto, using(c_tree::proofs::PushLaws::pushes, c_tree::proofs::ViewLaws::expr_views), unfolding(crate::specs::TypeRules::after_enum))]
    fn after_enum(
        &self,
        cursor: &mut Cursor<'_>,
        before: Measured<Items<Specifier>>,
        at: Place,
    ) -> Result<Measured<Items<Specifier>>, Stop>
        requires nests { Nests self.now.names.now self.now.depth (E.pre self.now.read_expr)
            (E.post self.now.read_expr) (S.pre self.now.read_specifiers)
            (S.post self.now.read_specifiers) (D.pre self.now.read_declarator)
            (D.post self.now.read_declarator) }
        requires measured { IsMeasured self.now.depth (specifiers_height
            (specifiers_seen before.tree)) before.height }
        ensures reads { Reads (λ m. specifiers_seen m.tree) (by_first tests.word_name
            (spec.after_enum (names_of self.now.names.now)
            (rules (names_of self.now.names.now) self.now.depth) (specifiers_seen before.tree) at)
            cursor.old) result cursor.new }
        ensures height { IfOk result (λ m. IsMeasured self.now.depth
            (specifiers_height (specifiers_seen m.tree)) m.height) }
    {
        let Next::Name(bytes, place) = cursor.peek() else {
            return self.enum_without_tag(cursor, before, at);
        };
        cursor.skip()?;
        let tag = Identifier {
            bytes: Items::from_slice(self.alloc, bytes)?,
            place,
        };
        self.after_enum_tag(cursor, before, at, tag)
    }

    #[tactic(auto, using(c_tree::proofs::PushLaws::pushes, c_tree::proofs::ViewLaws::expr_views), unfolding(crate::specs::TypeRules::with_specifier))]
    fn with_specifier(
        &self,
        cursor: &mut Cursor<'_>,
        mut before: Measured<Items<Specifier>>,
        start: SpecifierStart<'_>,
    ) -> Result<Measured<Items<Specifier>>, Stop>
        requires nests { Nests self.now.names.now self.now.depth (E.pre self.now.read_expr)
            (E.post self.now.read_expr) (S.pre self.now.read_specifiers)
            (S.post self.now.read_specifiers) (D.pre self.now.read_declarator)
            (D.post self.now.read_declarator) }
        requires measured { IsMeasured self.now.depth (specifiers_height
            (specifiers_seen before.tree)) before.height }
        ensures reads { Reads (λ m. specifiers_seen m.tree) (spec.with_specifier
            (names_of self.now.names.now) (rules (names_of self.now.names.now) self.now.depth)
            (specifiers_seen before.tree) (specifier_start_view start.entry) cursor.old) result
            cursor.new }
        ensures height { IfOk result (λ m. IsMeasured self.now.depth
            (specifiers_height (specifiers_seen m.tree)) m.height) }
    {
        match start {
            SpecifierStart::Word(word) => {
                cursor.skip()?;
                before.tree.push(Specifier::Keyword(word))?;
                Ok(before)
            }
            SpecifierStart::Typedef(bytes, place) => {
                cursor.skip()?;
                let name = Identifier {
                    bytes: Items::from_slice(self.alloc, bytes)?,
                    place,
                };
                before.tree.push(Specifier::Typedef(name))?;
                Ok(before)
            }
            SpecifierStart::Aggregate(kind, at) => {
                cursor.skip()?;
                self.after_aggregate(cursor, before, kind, at)
            }
            SpecifierStart::Enum(at) => {
                cursor.skip()?;
                self.after_enum(cursor, before, at)
            }
            SpecifierStart::None => Err(Stop::Syntax),
        }
    }

    /// A further `long` is not supported.
    #[tactic(auto, unfolding(crate::specs::TypeRules::specifier_step))]
    fn specifier_step(
        &self,
        cursor: &mut Cursor<'_>,
        scope: Scope,
        before: Measured<Items<Specifier>>,
    ) -> Result<Measured<Items<Specifier>>, Stop>
        requires nests { Nests self.now.names.now self.now.depth (E.pre self.now.read_expr)
            (E.post self.now.read_expr) (S.pre self.now.read_specifiers)
            (S.post self.now.read_specifiers) (D.pre self.now.read_declarator)
            (D.post self.now.read_declarator) }
        requires measured { IsMeasured self.now.depth (specifiers_height
            (specifiers_seen before.tree)) before.height }
        ensures reads { Reads (λ m. specifiers_seen m.tree) (spec.specifier_step
            (names_of self.now.names.now) (rules (names_of self.now.names.now) self.now.depth)
            (scope_view scope) (specifiers_seen before.tree) cursor.old) result cursor.new }
        ensures height { IfOk result (λ m. IsMeasured self.now.depth
            (specifiers_height (specifiers_seen m.tree)) m.height) }
    {
        if is_further_long(before.tree.as_slice(), cursor.peek()) {
            return Err(Stop::Unsupported);
        }
        let start = next_specifier(self.names, scope, cursor.peek());
        self.with_specifier(cursor, before, start)
    }

    fn more_specifiers(
        &self,
        cursor: &mut Cursor<'_>,
        scope: Scope,
        first: Measured<Items<Specifier>>,
    ) -> Result<Measured<Items<Specifier>>, Stop>
        requires nests { Nests self.now.names.now self.now.depth (E.pre self.now.read_expr)
            (E.post self.now.read_expr) (S.pre self.now.read_specifiers)
            (S.post self.now.read_specifiers) (D.pre self.now.read_declarator)
            (D.post self.now.read_declarator) }
        requires measured { IsMeasured self.now.depth (specifiers_height
            (specifiers_seen first.tree)) first.height }
        ensures reads { Reads (λ m. specifiers_seen m.tree) (loop
            (λ _. tests.begins_specifier (names_of self.now.names.now) (scope_view scope))
            (spec.specifier_step (names_of self.now.names.now)
            (rules (names_of self.now.names.now) self.now.depth) (scope_view scope))
            (specifiers_seen first.tree) cursor.old) result cursor.new }
        ensures height { IfOk result (λ m. IsMeasured self.now.depth
            (specifiers_height (specifiers_seen m.tree)) m.height) }
    {
        let mut list = first;
        for _turn in 0..cursor.left() {
            if !begins_specifier(self.names, scope, cursor.peek()) {
                return Ok(list);
            }
            list = self.specifier_step(cursor, scope, list)?;
        }
        Ok(list)
    }

    /// Specifiers, one of which says a type.
    #[tactic(auto, using(c_tree::proofs::ViewLaws::expr_views, c_parse_words::proofs::SpecifierFlags::any_type), unfolding(crate::specs::TypeRules::specifiers_layer, crate::specs::TypeRules::with_type))]
    pub fn specifier_list(
        &self,
        cursor: &mut Cursor<'_>,
        scope: Scope,
    ) -> Result<Measured<Specifiers>, Stop>
        requires nests { Nests self.now.names.now self.now.depth (E.pre self.now.read_expr)
            (E.post self.now.read_expr) (S.pre self.now.read_specifiers)
            (S.post self.now.read_specifiers) (D.pre self.now.read_declarator)
            (D.post self.now.read_declarator) }
        ensures reads { Reads (λ m. specifiers_view m.tree) (spec.specifiers_layer
            (names_of self.now.names.now) (rules (names_of self.now.names.now) self.now.depth)
            (scope_view scope) cursor.old) result cursor.new }
        ensures height { IfOk result (λ m. IsMeasured (suc self.now.depth)
            (suc (specifiers_height (specifiers_view m.tree))) m.height) }
    {
        let none = Measured {
            tree: Items::new(self.alloc),
            height: 0,
        };
        let list = self.more_specifiers(cursor, scope, none)?;
        if !has_type(list.tree.as_slice()) {
            return Err(Stop::Syntax);
        }
        Ok(Measured {
            height: 1 + list.height,
            tree: Specifiers { list: list.tree },
        })
    }
}
