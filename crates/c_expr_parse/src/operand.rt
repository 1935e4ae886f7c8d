//! Operands: primary expressions, unary expressions and casts (C99 6.5.1 to 6.5.4).
ghost use Rattle.std.specs.Prelude.{◌≡◌, suc, true, IfOk};
ghost use Rattle.parse_rules.specs.Parsers.{by_first, first};
ghost use Rattle.c_tree.specs.Depth.{expr_height, type_name_height};
ghost use Rattle.c_tree.specs.Views.{expr_view, type_name_view};
ghost use Rattle.c_parse_words.specs.Seen.{names_of, start_view, after_skip, Reads};
ghost use Rattle.c_parse_words.specs.Tests as tests;
ghost use Rattle.c_expr_parse.specs.ExprRules as spec;
ghost use Rattle.c_expr_parse.specs.Operands as operands;
ghost use Rattle.c_expr_parse.specs.Rules.{rules};
ghost use Rattle.c_expr_parse.specs.Nests.{Nests, IsMeasured};

use crate::boxing::boxed;
use crate::grammar::Grammar;
use c_parse_words::begins::{Naming, Start, begins_expr, begins_specifier, next_start};
use c_parse_words::cursor::Cursor;
use c_parse_words::levels::begins_cast;
use c_parse_words::lookahead::{is_close_paren, open_brace, open_paren};
use c_parse_words::measured::Measured;
use c_parse_words::operators::operand_level;
use c_parse_words::stop::{Stop, too_deep};
use c_parse_words::string_pieces::more_pieces;
use c_parse_words::words::Scope;
use c_tree::{
    Boxed, Declarator, Expr, Identifier, Items, Specifiers, StringPiece, TypeName, Unary,
};
use cc_base::Place;
use indexmap::IndexSet;
use std::alloc::Global;

impl<
    'a,
    E: Fn(Global, &IndexSet<Vec<u8>>, &mut Cursor<'_>, u16, u8) -> Result<Measured<Expr>, Stop>
        + Copy,
    S: Fn(
        Global,
        &IndexSet<Vec<u8>>,
        &mut Cursor<'_>,
        u16,
        Scope,
    ) -> Result<Measured<Specifiers>, Stop>
        + Copy,
    D: Fn(
        Global,
        &IndexSet<Vec<u8>>,
        &mut Cursor<'_>,
        u16,
        Naming,
    ) -> Result<Measured<Declarator>, Stop>
        + Copy,
> Grammar<'a, E, S, D> {
    /// An expression of one token, and what goes on from it.
    fn leaf(&self, cursor: &mut Cursor<'_>, tree: Expr) -> Result<Measured<Expr>, Stop>
        requires nests { Nests self.now.names.now self.now.depth (E.pre self.now.read_expr)
            (E.post self.now.read_expr) (S.pre self.now.read_specifiers)
            (S.post self.now.read_specifiers) (D.pre self.now.read_declarator)
            (D.post self.now.read_declarator) }
        requires leaf { expr_height (expr_view tree) ≡ 1 }
        ensures reads { Reads (λ m. expr_view m.tree) (after_skip
            (spec.postfix (names_of self.now.names.now) self.now.depth
            (rules (names_of self.now.names.now) self.now.depth) (expr_view tree)) cursor.old)
            result cursor.new }
        ensures height { IfOk result (λ m. IsMeasured (suc self.now.depth)
            (expr_height (expr_view m.tree)) m.height) }
    {
        cursor.skip()?;
        self.postfix(cursor, Measured { tree, height: 1 })
    }

    #[tactic(auto, using(c_tree::proofs::ViewLaws::expr_views), unfolding(crate::specs::ExprRules::operand_from))]
    fn name(
        &self,
        cursor: &mut Cursor<'_>,
        bytes: &[u8],
        place: Place,
    ) -> Result<Measured<Expr>, Stop>
        requires nests { Nests self.now.names.now self.now.depth (E.pre self.now.read_expr)
            (E.post self.now.read_expr) (S.pre self.now.read_specifiers)
            (S.post self.now.read_specifiers) (D.pre self.now.read_declarator)
            (D.post self.now.read_declarator) }
        ensures reads { Reads (λ m. expr_view m.tree) (spec.operand_from
            (names_of self.now.names.now) self.now.depth
            (rules (names_of self.now.names.now) self.now.depth) 0
            (tests.StartName (record { bytes = bytes.now; place = place })) cursor.old) result
            cursor.new }
        ensures height { IfOk result (λ m. IsMeasured (suc self.now.depth)
            (expr_height (expr_view m.tree)) m.height) }
    {
        let name = Identifier {
            bytes: Items::from_slice(self.alloc, bytes)?,
            place,
        };
        self.leaf(cursor, Expr::Name(name))
    }

    /// Adjacent string literals, the first of which comes.
    #[tactic(auto, using(c_tree::proofs::ViewLaws::expr_views), unfolding(crate::specs::ExprRules::operand_from))]
    fn string(
        &self,
        cursor: &mut Cursor<'_>,
        bytes: &[u8],
        place: Place,
    ) -> Result<Measured<Expr>, Stop>
        requires nests { Nests self.now.names.now self.now.depth (E.pre self.now.read_expr)
            (E.post self.now.read_expr) (S.pre self.now.read_specifiers)
            (S.post self.now.read_specifiers) (D.pre self.now.read_declarator)
            (D.post self.now.read_declarator) }
        ensures reads { Reads (λ m. expr_view m.tree) (spec.operand_from
            (names_of self.now.names.now) self.now.depth
            (rules (names_of self.now.names.now) self.now.depth) 0
            (tests.StartString (record { bytes = bytes.now; place = place })) cursor.old) result
            cursor.new }
        ensures height { IfOk result (λ m. IsMeasured (suc self.now.depth)
            (expr_height (expr_view m.tree)) m.height) }
    {
        cursor.skip()?;
        let mut first = Items::new(self.alloc);
        first.push(StringPiece {
            bytes: Items::from_slice(self.alloc, bytes)?,
            place,
        })?;
        let pieces = more_pieces(self.alloc, cursor, first)?;
        let tree = Expr::String(pieces);
        self.postfix(cursor, Measured { tree, height: 1 })
    }

    /// After the `(` of an expression in parentheses.
    #[tactic(auto, using(c_tree::proofs::ViewLaws::expr_views), unfolding(crate::specs::ExprRules::after_paren))]
    fn after_paren(&self, cursor: &mut Cursor<'_>, at: Place) -> Result<Measured<Expr>, Stop>
        requires nests { Nests self.now.names.now self.now.depth (E.pre self.now.read_expr)
            (E.post self.now.read_expr) (S.pre self.now.read_specifiers)
            (S.post self.now.read_specifiers) (D.pre self.now.read_declarator)
            (D.post self.now.read_declarator) }
        ensures reads { Reads (λ m. expr_view m.tree) (spec.after_paren
            (names_of self.now.names.now) self.now.depth
            (rules (names_of self.now.names.now) self.now.depth) at cursor.old) result cursor.new }
        ensures height { IfOk result (λ m. IsMeasured (suc self.now.depth)
            (expr_height (expr_view m.tree)) m.height) }
    {
        let e = boxed(self.alloc, self.expr(cursor, 0)?)?;
        let close = is_close_paren(cursor.peek());
        cursor.expect(close)?;
        let tree = Expr::Paren(at, e.tree);
        let height = 1 + e.height;
        self.postfix(cursor, Measured { tree, height })
    }

    /// After the `)` of a cast. A `{` would begin a compound literal.
    #[tactic(auto, using(c_tree::proofs::ViewLaws::expr_views))]
    fn cast_operand(
        &self,
        cursor: &mut Cursor<'_>,
        at: Place,
        to: Measured<TypeName>,
    ) -> Result<Measured<Expr>, Stop>
        requires nests { Nests self.now.names.now self.now.depth (E.pre self.now.read_expr)
            (E.post self.now.read_expr) (S.pre self.now.read_specifiers)
            (S.post self.now.read_specifiers) (D.pre self.now.read_declarator)
            (D.post self.now.read_declarator) }
        requires measured { IsMeasured self.now.depth (type_name_height (type_name_view to.tree))
            to.height }
        ensures reads { Reads (λ m. expr_view m.tree) (operands.cast_to
            (rules (names_of self.now.names.now) self.now.depth) at
            (type_name_view to.tree) cursor.old) result cursor.new }
        ensures height { IfOk result (λ m. IsMeasured (suc self.now.depth)
            (expr_height (expr_view m.tree)) m.height) }
    {
        if open_brace(cursor.peek()).is_some() {
            return Err(Stop::Unsupported);
        }
        let to = boxed(self.alloc, to)?;
        let e = boxed(self.alloc, self.expr(cursor, 13)?)?;
        Ok(Measured {
            height: 1 + to.height.max(e.height),
            tree: Expr::Cast(at, to.tree, e.tree),
        })
    }

    /// After the `(` of a cast.
    #[tactic(auto, unfolding(crate::specs::ExprRules::after_cast_paren))]
    fn after_cast_paren(&self, cursor: &mut Cursor<'_>, at: Place) -> Result<Measured<Expr>, Stop>
        requires nests { Nests self.now.names.now self.now.depth (E.pre self.now.read_expr)
            (E.post self.now.read_expr) (S.pre self.now.read_specifiers)
            (S.post self.now.read_specifiers) (D.pre self.now.read_declarator)
            (D.post self.now.read_declarator) }
        ensures reads { Reads (λ m. expr_view m.tree) (spec.after_cast_paren
            (names_of self.now.names.now) (rules (names_of self.now.names.now) self.now.depth) at
            cursor.old) result cursor.new }
        ensures height { IfOk result (λ m. IsMeasured (suc self.now.depth)
            (expr_height (expr_view m.tree)) m.height) }
    {
        let to = self.type_name(cursor)?;
        let close = is_close_paren(cursor.peek());
        cursor.expect(close)?;
        self.cast_operand(cursor, at, to)
    }

    #[tactic(auto, unfolding(crate::specs::ExprRules::operand_from))]
    fn paren_or_cast(
        &self,
        cursor: &mut Cursor<'_>,
        least: u8,
        at: Place,
    ) -> Result<Measured<Expr>, Stop>
        requires nests { Nests self.now.names.now self.now.depth (E.pre self.now.read_expr)
            (E.post self.now.read_expr) (S.pre self.now.read_specifiers)
            (S.post self.now.read_specifiers) (D.pre self.now.read_declarator)
            (D.post self.now.read_declarator) }
        ensures reads { Reads (λ m. expr_view m.tree) (spec.operand_from
            (names_of self.now.names.now) self.now.depth
            (rules (names_of self.now.names.now) self.now.depth) least
            (tests.StartParen at) cursor.old) result cursor.new }
        ensures height { IfOk result (λ m. IsMeasured (suc self.now.depth)
            (expr_height (expr_view m.tree)) m.height) }
    {
        cursor.skip()?;
        if begins_cast(self.names, least, cursor.peek()) {
            self.after_cast_paren(cursor, at)
        } else {
            self.after_paren(cursor, at)
        }
    }

    /// The operand of an operator that was read.
    #[tactic(auto, using(c_tree::proofs::ViewLaws::expr_views))]
    fn prefixed(
        &self,
        cursor: &mut Cursor<'_>,
        op: Unary,
        at: Place,
    ) -> Result<Measured<Expr>, Stop>
        requires nests { Nests self.now.names.now self.now.depth (E.pre self.now.read_expr)
            (E.post self.now.read_expr) (S.pre self.now.read_specifiers)
            (S.post self.now.read_specifiers) (D.pre self.now.read_declarator)
            (D.post self.now.read_declarator) }
        ensures reads { Reads (λ m. expr_view m.tree) (operands.prefixed
            (rules (names_of self.now.names.now) self.now.depth) op at cursor.old) result
            cursor.new }
        ensures height { IfOk result (λ m. IsMeasured (suc self.now.depth)
            (expr_height (expr_view m.tree)) m.height) }
    {
        let e = self.expr(cursor, operand_level(op))?;
        Ok(Measured {
            height: 1 + e.height,
            tree: Expr::Prefix(op, at, Boxed::new(self.alloc, e.tree)?),
        })
    }

    /// A unary expression in place of the operand of `sizeof`, whose `(` was read.
    #[tactic(auto, using(crate::proofs::Below::below))]
    fn paren_below(&self, cursor: &mut Cursor<'_>, at: Place) -> Result<Measured<Expr>, Stop>
        requires nests { Nests self.now.names.now self.now.depth (E.pre self.now.read_expr)
            (E.post self.now.read_expr) (S.pre self.now.read_specifiers)
            (S.post self.now.read_specifiers) (D.pre self.now.read_declarator)
            (D.post self.now.read_declarator) }
        ensures reads { Reads (λ m. expr_view m.tree) ((rules (names_of self.now.names.now)
            self.now.depth).paren at cursor.old) result cursor.new }
        ensures height { IfOk result (λ m. IsMeasured self.now.depth
            (expr_height (expr_view m.tree)) m.height) }
    {
        if self.depth == 0 {
            return Err(too_deep(begins_expr(self.names, cursor.peek())));
        }
        let below = Grammar {
            alloc: self.alloc,
            names: self.names,
            depth: self.depth - 1,
            read_expr: self.read_expr,
            read_specifiers: self.read_specifiers,
            read_declarator: self.read_declarator,
        };
        below.after_paren(cursor, at)
    }

    /// After `sizeof (` and a type: the `)`. A `{` behind it would begin a compound literal.
    #[tactic(auto, using(c_tree::proofs::ViewLaws::expr_views), unfolding(crate::specs::ExprRules::after_sizeof_paren))]
    fn size_of_type(
        &self,
        cursor: &mut Cursor<'_>,
        at: Place,
        paren: Place,
    ) -> Result<Measured<Expr>, Stop>
        requires nests { Nests self.now.names.now self.now.depth (E.pre self.now.read_expr)
            (E.post self.now.read_expr) (S.pre self.now.read_specifiers)
            (S.post self.now.read_specifiers) (D.pre self.now.read_declarator)
            (D.post self.now.read_declarator) }
        requires begins { tests.begins_type (names_of self.now.names.now) (first cursor.old)
            ≡ true }
        ensures reads { Reads (λ m. expr_view m.tree) (spec.after_sizeof_paren
            (names_of self.now.names.now) (rules (names_of self.now.names.now) self.now.depth) at
            paren cursor.old) result cursor.new }
        ensures height { IfOk result (λ m. IsMeasured (suc self.now.depth)
            (expr_height (expr_view m.tree)) m.height) }
    {
        let name = boxed(self.alloc, self.type_name(cursor)?)?;
        let close = is_close_paren(cursor.peek());
        cursor.expect(close)?;
        if open_brace(cursor.peek()).is_some() {
            return Err(Stop::Unsupported);
        }
        Ok(Measured {
            height: 1 + name.height,
            tree: Expr::SizeOfType(at, paren, name.tree),
        })
    }

    #[tactic(auto, using(c_tree::proofs::ViewLaws::expr_views), unfolding(crate::specs::ExprRules::after_sizeof_paren))]
    fn after_sizeof_paren(
        &self,
        cursor: &mut Cursor<'_>,
        at: Place,
        paren: Place,
    ) -> Result<Measured<Expr>, Stop>
        requires nests { Nests self.now.names.now self.now.depth (E.pre self.now.read_expr)
            (E.post self.now.read_expr) (S.pre self.now.read_specifiers)
            (S.post self.now.read_specifiers) (D.pre self.now.read_declarator)
            (D.post self.now.read_declarator) }
        ensures reads { Reads (λ m. expr_view m.tree) (spec.after_sizeof_paren
            (names_of self.now.names.now) (rules (names_of self.now.names.now) self.now.depth) at
            paren cursor.old) result cursor.new }
        ensures height { IfOk result (λ m. IsMeasured (suc self.now.depth)
            (expr_height (expr_view m.tree)) m.height) }
    {
        if begins_specifier(self.names, Scope::InType, cursor.peek()) {
            return self.size_of_type(cursor, at, paren);
        }
        let e = self.paren_below(cursor, paren)?;
        Ok(Measured {
            height: 1 + e.height,
            tree: Expr::Prefix(Unary::SizeOf, at, Boxed::new(self.alloc, e.tree)?),
        })
    }

    #[tactic(auto, unfolding(crate::specs::ExprRules::after_sizeof))]
    fn after_sizeof(&self, cursor: &mut Cursor<'_>, at: Place) -> Result<Measured<Expr>, Stop>
        requires nests { Nests self.now.names.now self.now.depth (E.pre self.now.read_expr)
            (E.post self.now.read_expr) (S.pre self.now.read_specifiers)
            (S.post self.now.read_specifiers) (D.pre self.now.read_declarator)
            (D.post self.now.read_declarator) }
        ensures reads { Reads (λ m. expr_view m.tree) (by_first tests.open_paren
            (spec.after_sizeof (names_of self.now.names.now)
            (rules (names_of self.now.names.now) self.now.depth) at) cursor.old) result cursor.new }
        ensures height { IfOk result (λ m. IsMeasured (suc self.now.depth)
            (expr_height (expr_view m.tree)) m.height) }
    {
        let Some(paren) = open_paren(cursor.peek()) else {
            return self.prefixed(cursor, Unary::SizeOf, at);
        };
        cursor.skip()?;
        self.after_sizeof_paren(cursor, at, paren)
    }

    #[tactic(auto, using(c_tree::proofs::ViewLaws::expr_views), unfolding(crate::specs::ExprRules::operand_from))]
    fn operand_from(
        &self,
        cursor: &mut Cursor<'_>,
        least: u8,
        start: Start<'_>,
    ) -> Result<Measured<Expr>, Stop>
        requires nests { Nests self.now.names.now self.now.depth (E.pre self.now.read_expr)
            (E.post self.now.read_expr) (S.pre self.now.read_specifiers)
            (S.post self.now.read_specifiers) (D.pre self.now.read_declarator)
            (D.post self.now.read_declarator) }
        ensures reads { Reads (λ m. expr_view m.tree) (spec.operand_from
            (names_of self.now.names.now) self.now.depth
            (rules (names_of self.now.names.now) self.now.depth) least
            (start_view start.entry) cursor.old) result cursor.new }
        ensures height { IfOk result (λ m. IsMeasured (suc self.now.depth)
            (expr_height (expr_view m.tree)) m.height) }
    {
        match start {
            Start::Name(bytes, place) => self.name(cursor, bytes, place),
            Start::Integer(kind, value, place) => {
                self.leaf(cursor, Expr::Integer(kind, value, place))
            }
            Start::Character(value, place) => self.leaf(cursor, Expr::Character(value, place)),
            Start::Quoted(bytes, place) => self.string(cursor, bytes, place),
            Start::Paren(at) => self.paren_or_cast(cursor, least, at),
            Start::Prefix(op, at) => {
                cursor.skip()?;
                self.prefixed(cursor, op, at)
            }
            Start::SizeOf(at) => {
                cursor.skip()?;
                self.after_sizeof(cursor, at)
            }
            Start::None => Err(Stop::Syntax),
        }
    }

    /// An operand of at least a level, by its first token.
    #[tactic(auto, unfolding(crate::specs::ExprRules::operand))]
    pub fn operand(&self, cursor: &mut Cursor<'_>, least: u8) -> Result<Measured<Expr>, Stop>
        requires nests { Nests self.now.names.now self.now.depth (E.pre self.now.read_expr)
            (E.post self.now.read_expr) (S.pre self.now.read_specifiers)
            (S.post self.now.read_specifiers) (D.pre self.now.read_declarator)
            (D.post self.now.read_declarator) }
        ensures reads { Reads (λ m. expr_view m.tree) (spec.operand
            (names_of self.now.names.now) self.now.depth
            (rules (names_of self.now.names.now) self.now.depth) least cursor.old) result
            cursor.new }
        ensures height { IfOk result (λ m. IsMeasured (suc self.now.depth)
            (expr_height (expr_view m.tree)) m.height) }
    {
        let start = next_start(self.names, cursor.peek());
        self.operand_from(cursor, least, start)
    }
}
